//! Requests that go through a forward proxy, for C: Proxy-Uri is split before a request is sealed, and Proxy-Scheme is put in once it is.

ghost use Rattle.std.specs.Prelude.{◌≡◌, ◌≢◌, ◌≤◌, take, drop, length};
ghost use Rattle.osc_coap.specs.Datagram.{IsDatagram, Parts};
ghost use Rattle.osc_proxy.specs.AskRefusals.{FitsToAsk, RefusesToAsk};
ghost use Rattle.osc_proxy.specs.Asking.{asked};
ghost use Rattle.osc_proxy.specs.SplitRefusals.{FitsToSplit, RefusesToSplit};
ghost use Rattle.osc_proxy.specs.Splitting.{split};
ghost use Rattle.osc_proxy.specs.Uri.{UriParts, scheme_name};
ghost use Rattle.osc_proxy.specs.declared.ask_error.AskProxyError.{AskProxyError};
ghost use Rattle.osc_proxy.specs.declared.split_error.SplitError.{SplitError};
ghost use Rattle.osc_status.specs.Statuses.{ask_detail, ask_status, code, split_detail, split_status};

use osc_proxy::{ask_proxy, split_proxy_uri};
use osc_status::{DONE, Refusal};

/// Splits the Proxy-Uri of a plain request, which is passed in as a datagram, into Uri-Host, Uri-Port, Uri-Path and Uri-Query (RFC 7252,
/// 5.10.2 and 6.4; RFC 8613, 4.1.3.3). The first `out_len` bytes of `out` are the request to be sealed, and the first `scheme_len` bytes of
/// `scheme` the scheme for `oscore_ask_proxy_v6`. A refusal is one of the datagram's faults with its place, NotThatKind, NotOneProxyUri,
/// Mixed, Scheme, Fragment, Character, Authority, Userinfo, Host, Port, PartTooLong, TooLong or NoRoom, in this order.
#[unsafe(no_mangle)]
pub extern "C" fn oscore_split_proxy_uri_v6(
    plain: &[u8],
    out: &mut [u8],
    out_len: &mut usize,
    scheme: &mut [u8; 5],
    scheme_len: &mut usize,
    detail: &mut usize,
) -> u32
    ensures written { result ≡ 0 → (p : Parts) × (u : UriParts) × FitsToSplit plain.now (length out.old) p u
        × IsDatagram (split u p) (take out_len.new out.new) × (take scheme_len.new scheme.new ≡ scheme_name u.scheme) }
    ensures within { result ≡ 0 → out_len.new ≤ length out.new }
    ensures behind { result ≡ 0 → drop out_len.new out.new ≡ drop out_len.new out.old }
    ensures accepts { (p : Parts) (u : UriParts) → FitsToSplit plain.now (length out.old) p u → result ≡ 0 }
    ensures refused { result ≢ 0 → (e : SplitError) × (result ≡ code (split_status e)) × (detail.new ≡ split_detail e) × RefusesToSplit plain.now (length out.old) e }
    ensures refuses { (e : SplitError) → RefusesToSplit plain.now (length out.old) e → (result ≡ code (split_status e)) × (detail.new ≡ split_detail e) }
    ensures unchanged { result ≢ 0 → (out.new ≡ out.old) × (out_len.new ≡ out_len.old) × (scheme.new ≡ scheme.old) × (scheme_len.new ≡ scheme_len.old) }
{
    match split_proxy_uri(plain, out) {
        Ok((len, found)) => {
            let name = found.name().as_bytes();
            scheme[..name.len()].copy_from_slice(name);
            *scheme_len = name.len();
            *out_len = len;
            DONE
        }
        Err(error) => {
            let refusal = Refusal::from(error);
            *detail = refusal.detail;
            refusal.status.code()
        }
    }
}

/// Writes a sealed request with Proxy-Scheme besides, which asks a forward proxy (RFC 7252, 5.10.2; RFC 8613, 4.1.3.3). The first `out_len`
/// bytes of `out` are that request. A refusal is one of the datagram's faults with its place, NotThatKind, Asked, SchemeLength, TooLong or
/// NoRoom, in this order.
#[unsafe(no_mangle)]
pub extern "C" fn oscore_ask_proxy_v6(
    sealed: &[u8],
    scheme: &[u8],
    out: &mut [u8],
    out_len: &mut usize,
    detail: &mut usize,
) -> u32
    ensures written { result ≡ 0 → (p : Parts) → IsDatagram p sealed.now → IsDatagram (asked scheme.now p) (take out_len.new out.new) }
    ensures within { result ≡ 0 → out_len.new ≤ length out.new }
    ensures behind { result ≡ 0 → drop out_len.new out.new ≡ drop out_len.new out.old }
    ensures accepted { result ≡ 0 → FitsToAsk sealed.now scheme.now (length out.old) }
    ensures accepts { FitsToAsk sealed.now scheme.now (length out.old) → result ≡ 0 }
    ensures refused { result ≢ 0 → (e : AskProxyError) × (result ≡ code (ask_status e)) × (detail.new ≡ ask_detail e) × RefusesToAsk sealed.now scheme.now (length out.old) e }
    ensures refuses { (e : AskProxyError) → RefusesToAsk sealed.now scheme.now (length out.old) e → (result ≡ code (ask_status e)) × (detail.new ≡ ask_detail e) }
    ensures unchanged { result ≢ 0 → (out.new ≡ out.old) × (out_len.new ≡ out_len.old) }
{
    match ask_proxy(sealed, scheme, out) {
        Ok(len) => {
            *out_len = len;
            DONE
        }
        Err(error) => {
            let refusal = Refusal::from(error);
            *detail = refusal.detail;
            refusal.status.code()
        }
    }
}
