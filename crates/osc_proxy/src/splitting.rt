//! Splits the Proxy-Uri of a plain request (RFC 7252, 5.10.2 and 6.4; RFC 8613, 4.1.3.3).
//!
//!     head | token | .. Uri-Host .. Uri-Port .. Uri-Path .. Uri-Query .. | ff | payload

ghost use Rattle.std.specs.Prelude.{◌≡◌, ◌≢◌, ◌≤◌, ◌&&◌, ◌∷◌, ℕ, List, length, min, take, drop, true, false, option_copied, Ok, Err, IfOk, IfErr, IsOk, IsErrOf, OnErr};
ghost use Rattle.osc_coap.specs.Datagram.{IsDatagram, Parts, datagram_length};
ghost use Rattle.osc_coap.specs.Search.{has_number, values_at};
ghost use Rattle.osc_coap.specs.Views.{options_left, parts_of};
ghost use Rattle.osc_proxy.specs.SplitRefusals.{FitsToSplit, RefusesToSplit, fitting_at, only_of, proxy_uri_at, request_uri};
ghost use Rattle.osc_proxy.specs.Splitting.{in_place, is_replaced, parts_fit, split};
ghost use Rattle.osc_proxy.specs.Uri.{UriParts, host_value_of, port_value_of};
ghost use Rattle.osc_proxy.specs.declared.split_error.SplitError.{SplitError};
ghost use Rattle.osc_proxy.specs.UriViews.{Gives, parts_left, uri_parts_of};

use crate::asking::marked_len;
use crate::parts::Components;
use crate::percent::PartTooLong;
use crate::split_error::SplitError;
use crate::tally::Tally;
use crate::uri::{ProxyUri, UriScheme, read};
use crate::writing::{write_between, write_parts};
use osc_coap::option_numbers::{PROXY_SCHEME, PROXY_URI, URI_HOST, URI_PATH, URI_PORT, URI_QUERY};
use osc_coap::{
    MOST_DATAGRAM, Message, Options, Writer, head_len, one_datagram, options_ascend, parse,
};

/// Returns the value of the only option with this number, if there is exactly one.
fn only_value(options: Options<'_>, number: u16) -> Option<&[u8]>
    ensures { option_copied result ≡ only_of (values_at number (options_left options.entry)) }
{
    let mut only = None;
    for (found, value) in options {
        if found == number {
            if only.is_some() {
                return None;
            }
            only = Some(value);
        }
    }
    only
}

/// Returns whether an option is there of which Proxy-Uri takes the place.
fn has_replaced(options: Options<'_>) -> bool
    ensures { result ≡ has_number is_replaced (options_left options.entry) }
{
    for (number, _) in options {
        if matches!(
            number,
            URI_HOST | URI_PORT | URI_PATH | URI_QUERY | PROXY_SCHEME
        ) {
            return true;
        }
    }
    false
}

/// Returns the value of a request's Proxy-Uri.
fn proxy_uri_of<'a>(request: &Message<'a>) -> Result<&'a [u8], SplitError>
    ensures value { Gives (λ b. b.now) result (proxy_uri_at (parts_of request.now)) }
    ensures code { IfOk result (λ b. request.now.code ≢ 0) }
{
    if !request.is_request() {
        return Err(SplitError::NotRequest);
    }
    let Some(value) = only_value(request.options(), PROXY_URI) else {
        return Err(SplitError::NotOneProxyUri);
    };
    if has_replaced(request.options()) {
        return Err(SplitError::Mixed);
    }
    Ok(value)
}

/// Returns the URI of a request's Proxy-Uri.
fn uri_of<'a>(request: &Message<'a>) -> Result<ProxyUri<'a>, SplitError>
    ensures value { Gives uri_parts_of result (request_uri (parts_of request.now)) }
    ensures code { IfOk result (λ u. request.now.code ≢ 0) }
{
    let text = proxy_uri_of(request)?;
    match read(text) {
        Ok(uri) => Ok(uri),
        Err(error) => Err(SplitError::Uri(error)),
    }
}

/// Returns how many bytes the request takes with these values and parts in place. More than 65,535 may be another number above that.
fn split_len(
    request: &Message<'_>,
    host: &[u8],
    port: &[u8],
    path: Components<'_>,
    query: Components<'_>,
) -> Result<usize, PartTooLong>
    ensures length { IfOk result (λ n. min n 65536 ≡ min (datagram_length (record (parts_of request.now) {
      options = in_place host.now port.now (parts_left path.entry) (parts_left query.entry) (parts_of request.now).options;
    })) 65536) }
    ensures path { IfOk result (λ n. parts_fit (parts_left path.entry) ≡ true) }
    ensures query { IfOk result (λ n. parts_fit (parts_left query.entry) ≡ true) }
    ensures refused { IfErr result (λ e. (parts_fit (parts_left path.entry) && parts_fit (parts_left query.entry)) ≡ false) }
{
    let options = request.options();
    let t1 = Tally::new().and_between(options, 0, URI_HOST);
    let t2 = t1.and(URI_HOST, host.len());
    let t3 = t2.and_between(options, URI_HOST + 1, URI_PORT);
    let t4 = t3.and(URI_PORT, port.len());
    let t5 = t4.and_between(options, URI_PORT + 1, URI_PATH);
    let t6 = t5.and_parts(URI_PATH, path)?;
    let t7 = t6.and_between(options, URI_PATH + 1, URI_QUERY);
    let t8 = t7.and_parts(URI_QUERY, query)?;
    let t9 = t8.and_between(options, URI_QUERY + 1, PROXY_URI - 1);
    let all = t9.and_between(options, PROXY_URI + 1, u16::MAX);
    Ok(head_len(&request.token) + all.len() + marked_len(request.payload()))
}

/// Writes the request with these values and parts in place. There must be room for it.
fn write_split(
    request: &Message<'_>,
    host: &[u8],
    port: &[u8],
    path: Components<'_>,
    query: Components<'_>,
    out: &mut [u8],
) -> usize
    requires code { request.now.code ≢ 0 }
    requires path { parts_fit (parts_left path) ≡ true }
    requires query { parts_fit (parts_left query) ≡ true }
    requires fits { datagram_length (record (parts_of request.now) {
      options = in_place host.now port.now (parts_left path) (parts_left query) (parts_of request.now).options;
    }) ≤ 65535 }
    requires room { datagram_length (record (parts_of request.now) {
      options = in_place host.now port.now (parts_left path) (parts_left query) (parts_of request.now).options;
    }) ≤ length out.old }
    ensures written { IsDatagram (record (parts_of request.now) {
      options = in_place host.now port.now (parts_left path.entry) (parts_left query.entry) (parts_of request.now).options;
    }) (take result out.new) }
    ensures within { result ≤ length out.new }
    ensures behind { drop result out.new ≡ drop result out.old }
{
    // For the proof alone.
    options_ascend();
    let options = request.options();
    let mut writer = Writer::begin(
        out,
        request.kind,
        request.code,
        request.message_id,
        &request.token,
    );
    write_between(&mut writer, options, 0, URI_HOST);
    writer.add_option(URI_HOST, host);
    write_between(&mut writer, options, URI_HOST + 1, URI_PORT);
    writer.add_option(URI_PORT, port);
    write_between(&mut writer, options, URI_PORT + 1, URI_PATH);
    write_parts(&mut writer, URI_PATH, path);
    write_between(&mut writer, options, URI_PATH + 1, URI_QUERY);
    write_parts(&mut writer, URI_QUERY, query);
    write_between(&mut writer, options, URI_QUERY + 1, PROXY_URI - 1);
    write_between(&mut writer, options, PROXY_URI + 1, u16::MAX);
    let Ok(()) = writer.payload(request.payload()) else {
        unreachable!()
    };
    writer.finish()
}

/// Writes a request with its Proxy-Uri split, if its values fit and there is room for it.
fn put_split(request: &Message<'_>, uri: &ProxyUri<'_>, out: &mut [u8]) -> Result<usize, SplitError>
    requires { request.now.code ≢ 0 }
    ensures accepted { IfOk result (λ n. fitting_at (parts_of request.now) (length out.old) (uri_parts_of uri.now) ≡ Ok (uri_parts_of uri.now)) }
    ensures written { IfOk result (λ n. IsDatagram (split (uri_parts_of uri.now) (parts_of request.now)) (take n out.new)) }
    ensures within { IfOk result (λ n. n ≤ length out.new) }
    ensures behind { IfOk result (λ n. drop n out.new ≡ drop n out.old) }
    ensures refused { IfErr result (λ e. fitting_at (parts_of request.now) (length out.old) (uri_parts_of uri.now) ≡ Err e) }
    ensures unchanged { OnErr result (out.new ≡ out.old) }
{
    let Ok(host_value) = uri.host_value() else {
        return Err(SplitError::PartTooLong);
    };
    let port_value = uri.port_value();
    let host = host_value.as_slice();
    let port = port_value.as_slice();
    let (path, query) = (uri.segments(), uri.arguments());
    let Ok(len) = split_len(request, host, port, path, query) else {
        return Err(SplitError::PartTooLong);
    };
    if len > MOST_DATAGRAM {
        return Err(SplitError::TooLong);
    }
    if len > out.len() {
        return Err(SplitError::NoRoom);
    }
    Ok(write_split(request, host, port, path, query, out))
}

/// Reads a request, and writes it with its Proxy-Uri split.
fn split_read(plain: &[u8], out: &mut [u8]) -> Result<(usize, UriScheme), SplitError>
    ensures accepted { IfOk result (λ r. (p : Parts) × (u : UriParts) × FitsToSplit plain.now (length out.old) p u
        × (r.1 ≡ u.scheme) × IsDatagram (split u p) (take r.0 out.new)) }
    ensures within { IfOk result (λ r. r.0 ≤ length out.new) }
    ensures behind { IfOk result (λ r. drop r.0 out.new ≡ drop r.0 out.old) }
    ensures refused { IfErr result (RefusesToSplit plain.now (length out.old)) }
    ensures unchanged { OnErr result (out.new ≡ out.old) }
{
    let request = match parse(plain) {
        Ok(request) => request,
        Err(error) => return Err(SplitError::Format(error)),
    };
    let uri = uri_of(&request)?;
    let len = put_split(&request, &uri, out)?;
    Ok((len, uri.scheme))
}

/// Writes a plain request with its Proxy-Uri split into Uri-Host, Uri-Port, Uri-Path and Uri-Query, which say the same, and returns how many
/// bytes it takes at the front of `out`, and the scheme. The bytes after them stay as they are. What is written can be sealed, and
/// `ask_proxy` puts the scheme into what was sealed. Returns the first refusal in the order of `SplitError`. A refusal leaves `out` unchanged
/// (RFC 7252, 5.10.2 and 6.4; RFC 8613, 4.1.3.3).
pub fn split_proxy_uri(plain: &[u8], out: &mut [u8]) -> Result<(usize, UriScheme), SplitError>
    ensures accepted { IfOk result (λ r. (p : Parts) × (u : UriParts) × FitsToSplit plain.now (length out.old) p u
        × (r.1 ≡ u.scheme) × IsDatagram (split u p) (take r.0 out.new)) }
    ensures accepts { (p : Parts) (u : UriParts) → FitsToSplit plain.now (length out.old) p u → IsOk result }
    ensures within { IfOk result (λ r. r.0 ≤ length out.new) }
    ensures behind { IfOk result (λ r. drop r.0 out.new ≡ drop r.0 out.old) }
    ensures refused { IfErr result (RefusesToSplit plain.now (length out.old)) }
    ensures refuses { (e : SplitError) → RefusesToSplit plain.now (length out.old) e → IsErrOf result e }
    ensures unchanged { OnErr result (out.new ≡ out.old) }
{
    // For the proof alone.
    one_datagram();
    split_read(plain, out)
}
