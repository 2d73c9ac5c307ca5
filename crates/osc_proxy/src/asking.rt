//! Asks a forward proxy for a sealed request (RFC 7252, 5.10.2; RFC 8613, 4.1.3.3).
//!
//!     head | token | options up to number 39 | Proxy-Scheme | options above 39 | ff | payload

ghost use Rattle.std.specs.Prelude.{◌≡◌, ◌≢◌, ◌≤◌, ◌<◌, ◌∷◌, ℕ, List, length, min, take, drop, true, false, IfOk, IfErr, IsOk, IsErrOf, OnErr, MatchResult};
ghost use Rattle.osc_coap.specs.Datagram.{IsDatagram, Parts, datagram_length};
ghost use Rattle.osc_coap.specs.OptionSpelling.{marked};
ghost use Rattle.osc_coap.specs.Search.{has_number};
ghost use Rattle.osc_coap.specs.Views.{options_left, parts_of};
ghost use Rattle.osc_proxy.specs.Asking.{asked, asks_proxy};
ghost use Rattle.osc_proxy.specs.AskRefusals.{CanAsk, FitsToAsk, RefusesParts, RefusesToAsk};
ghost use Rattle.osc_proxy.specs.declared.ask_error.AskProxyError.{AskProxyError};

use crate::ask_error::AskProxyError;
use crate::tally::Tally;
use crate::writing::write_between;
use osc_coap::option_numbers::{PROXY_SCHEME, PROXY_URI};
use osc_coap::{
    MOST_DATAGRAM, Message, Options, Writer, head_len, lengths_by_parts, one_datagram,
    options_ascend, parse,
};

/// The number after that of Proxy-Scheme.
const BEHIND_SCHEME: u16 = PROXY_SCHEME + 1;

/// The most bytes that a scheme can have (RFC 7252, 5.10).
const MOST_SCHEME: usize = 255;

/// Returns whether an option asks a proxy.
fn has_asked(options: Options<'_>) -> bool
    ensures { result ≡ has_number asks_proxy (options_left options.entry) }
{
    for (number, _) in options {
        if number == PROXY_URI || number == PROXY_SCHEME {
            return true;
        }
    }
    false
}

/// Returns how many bytes a marker and the payload take, or 0 if the payload is empty.
pub(crate) fn marked_len(payload: &[u8]) -> usize
    ensures { result ≡ length (marked payload.now) }
{
    if payload.is_empty() {
        0
    } else {
        1 + payload.len()
    }
}

/// Returns how many bytes the request takes that asks a proxy. More than 65,535 may be another number above that.
fn asked_len(request: &Message<'_>, scheme_len: usize) -> usize
    ensures { (scheme : List ℕ) → length scheme ≡ scheme_len
        → min result 65536 ≡ min (datagram_length (asked scheme (parts_of request.now))) 65536 }
{
    // For the proof alone.
    options_ascend();
    let tally = Tally::new()
        .and_between(request.options(), 0, PROXY_SCHEME)
        .and(PROXY_SCHEME, scheme_len)
        .and_between(request.options(), BEHIND_SCHEME, u16::MAX);
    head_len(&request.token) + tally.len() + marked_len(request.payload())
}

/// Judges whether a request can ask a proxy, given the room for it.
fn judge(request: &Message<'_>, scheme: &[u8], room: usize) -> Result<(), AskProxyError>
    ensures { MatchResult result
        (λ _. CanAsk (parts_of request.now) scheme.now × (datagram_length (asked scheme.now (parts_of request.now)) ≤ 65535)
        × (datagram_length (asked scheme.now (parts_of request.now)) ≤ room))
        (RefusesParts (parts_of request.now) scheme.now room) }
{
    if !request.is_request() {
        return Err(AskProxyError::NotRequest);
    }
    if has_asked(request.options()) {
        return Err(AskProxyError::Asked);
    }
    if scheme.is_empty() || scheme.len() > MOST_SCHEME {
        return Err(AskProxyError::SchemeLength);
    }
    let len = asked_len(request, scheme.len());
    if len > MOST_DATAGRAM {
        return Err(AskProxyError::TooLong);
    }
    if len > room {
        return Err(AskProxyError::NoRoom);
    }
    Ok(())
}

/// Writes a request that asks a proxy. There must be room for it.
fn write_asked(request: &Message<'_>, scheme: &[u8], out: &mut [u8]) -> usize
    requires code { request.now.code ≢ 0 }
    requires fits { datagram_length (asked scheme.now (parts_of request.now)) ≤ 65535 }
    requires room { datagram_length (asked scheme.now (parts_of request.now)) ≤ length out.old }
    ensures written { IsDatagram (asked scheme.now (parts_of request.now)) (take result out.new) }
    ensures within { result ≤ length out.new }
    ensures behind { drop result out.new ≡ drop result out.old }
{
    // For the proof alone.
    options_ascend();
    let mut writer = Writer::begin(
        out,
        request.kind,
        request.code,
        request.message_id,
        &request.token,
    );
    write_between(&mut writer, request.options(), 0, PROXY_SCHEME);
    writer.add_option(PROXY_SCHEME, scheme);
    write_between(&mut writer, request.options(), BEHIND_SCHEME, u16::MAX);
    let Ok(()) = writer.payload(request.payload()) else {
        unreachable!()
    };
    writer.finish()
}

/// Reads a request, and writes it as one that asks a proxy.
fn ask(sealed: &[u8], scheme: &[u8], out: &mut [u8]) -> Result<usize, AskProxyError>
    ensures accepted { IsOk result → FitsToAsk sealed.now scheme.now (length out.old) }
    ensures written { IfOk result (λ n. (p : Parts) × IsDatagram p sealed.now × IsDatagram (asked scheme.now p) (take n out.new)) }
    ensures within { IfOk result (λ n. n ≤ length out.new) }
    ensures behind { IfOk result (λ n. drop n out.new ≡ drop n out.old) }
    ensures refused { IfErr result (RefusesToAsk sealed.now scheme.now (length out.old)) }
    ensures unchanged { OnErr result (out.new ≡ out.old) }
{
    let request = match parse(sealed) {
        Ok(request) => request,
        Err(error) => return Err(AskProxyError::Format(error)),
    };
    judge(&request, scheme, out.len())?;
    Ok(write_asked(&request, scheme, out))
}

/// Writes a sealed request with Proxy-Scheme besides, which asks a forward proxy, and returns how many bytes it takes at the front of `out`.
/// The bytes after them stay as they are. All else is that of the sealed request, its protection too: Proxy-Scheme is neither encrypted nor
/// integrity protected. Returns the first refusal in the order of `AskProxyError`. A refusal leaves `out` unchanged (RFC 7252, 5.10.2; RFC
/// 8613, 4.1.3.3).
pub fn ask_proxy(sealed: &[u8], scheme: &[u8], out: &mut [u8]) -> Result<usize, AskProxyError>
    ensures written { IfOk result (λ n. (p : Parts) → IsDatagram p sealed.now → IsDatagram (asked scheme.now p) (take n out.new)) }
    ensures within { IfOk result (λ n. n ≤ length out.new) }
    ensures behind { IfOk result (λ n. drop n out.new ≡ drop n out.old) }
    ensures accepted { IsOk result → FitsToAsk sealed.now scheme.now (length out.old) }
    ensures accepts { FitsToAsk sealed.now scheme.now (length out.old) → IsOk result }
    ensures refused { IfErr result (RefusesToAsk sealed.now scheme.now (length out.old)) }
    ensures refuses { (e : AskProxyError) → RefusesToAsk sealed.now scheme.now (length out.old) e → IsErrOf result e }
    ensures unchanged { OnErr result (out.new ≡ out.old) }
{
    // For the proof alone.
    one_datagram();
    ask(sealed, scheme, out)
}
