//! Reads a URI of CoAP (RFC 7252, 6.4; RFC 3986, 3).
//!
//!     scheme :// host : port / segment / segment ? argument & argument

ghost use Rattle.std.specs.Prelude.{◌≡◌, ◌≤◌, length, option_copied, ◌<◌, Err, IfOk, IfErr, IsErrOf, IsOkAnd};
ghost use Rattle.osc_proxy.specs.Uri.{are_characters, host_at, hierarchy_at, is_hex, is_uri_character, number_from, port_at, scheme_at, scheme_name, host_length};
ghost use Rattle.osc_proxy.specs.UriViews.{Gives};
ghost use Rattle.osc_proxy.specs.Uri.{text_at, authority_at};

use crate::cutting::cut;
use crate::parts::Components;
use crate::percent::{PartTooLong, PartValue, decode};
use crate::uri_error::UriError;
use arrayvec::ArrayVec;

/// The scheme of a URI of CoAP (RFC 7252, 6.1 and 6.2).
#[derive(Clone, Copy, Debug, PartialEq, Eq)]
pub enum UriScheme {
    /// CoAP over UDP.
    Coap,
    /// CoAP over DTLS.
    Coaps,
}

impl UriScheme {
    /// Returns the name of the scheme, as Proxy-Scheme has it (RFC 7252, 5.10.2).
    #[must_use]
    pub fn name(self) -> &'static str
        ensures value { result.now ≡ scheme_name self }
        ensures most { length result.now ≤ 5 }
    {
        match self {
            UriScheme::Coap => "coap",
            UriScheme::Coaps => "coaps",
        }
    }
}

/// Returns the scheme with this name.
fn scheme_of(name: &[u8]) -> Result<UriScheme, UriError>
    ensures { Gives (λ s. s) result (scheme_at name.now) }
{
    if name.eq_ignore_ascii_case(b"coap") {
        return Ok(UriScheme::Coap);
    }
    if name.eq_ignore_ascii_case(b"coaps") {
        return Ok(UriScheme::Coaps);
    }
    Err(UriError::Scheme)
}

/// Returns whether a URI can have this byte, but for a percent and a number sign.
fn is_character(byte: u8) -> bool
    ensures { result ≡ is_uri_character byte }
{
    match byte {
        b'a'..=b'z' | b'?'..=b'[' | b'&'..=b';' => true,
        b'!' | b'$' | b'=' | b']' | b'_' | b'~' => true,
        _ => false,
    }
}

/// Returns whether this is a digit in base 16.
fn is_hex(byte: u8) -> bool
    ensures { result ≡ is_hex byte }
{
    match byte {
        b'0'..=b'9' | b'A'..=b'F' | b'a'..=b'f' => true,
        _ => false,
    }
}

/// Returns whether each byte is one that a URI can have.
fn has_characters(uri: &[u8]) -> bool
    ensures { result ≡ are_characters 0 uri.now }
{
    let mut due: u8 = 0;
    for byte in uri {
        if due == 0 {
            if *byte == b'%' {
                due = 2;
            } else if !is_character(*byte) {
                return false;
            }
        } else {
            if !is_hex(*byte) {
                return false;
            }
            due -= 1;
        }
    }
    due == 0
}

/// Checks that there is no fragment, and that a URI can have each byte.
fn check_text(uri: &[u8]) -> Result<(), UriError>
    ensures { Gives (λ u. u) result (text_at uri.now) }
{
    if cut(uri, b'#').1.is_some() {
        return Err(UriError::Fragment);
    }
    if !has_characters(uri) {
        return Err(UriError::Character);
    }
    Ok(())
}

/// Returns what stands behind two slashes.
fn hierarchy_of(bytes: &[u8]) -> Result<&[u8], UriError>
    ensures { Gives (λ b. b.now) result (hierarchy_at bytes.now) }
{
    match bytes {
        [b'/', b'/', rest @ ..] => Ok(rest),
        _ => Err(UriError::Authority),
    }
}

/// Returns how many bytes the host has, or one more than there are if its bracket isn't closed.
fn host_len(authority: &[u8]) -> usize
    ensures { result ≡ host_length authority.now }
{
    match authority {
        [] => 0,
        [b'[', ..] => cut(authority, b']').0.len() + 1,
        _ => cut(authority, b':').0.len(),
    }
}

/// Returns the host, and what follows it.
fn host_of(authority: &[u8]) -> Result<(&[u8], &[u8]), UriError>
    ensures { Gives (λ b. (b.0.now, b.1.now)) result (host_at authority.now) }
{
    let len = host_len(authority);
    if len == 0 || len > authority.len() {
        return Err(UriError::Host);
    }
    Ok(authority.split_at(len))
}

/// Returns the host of an authority without user information, and what follows it.
fn place_of(authority: &[u8]) -> Result<(&[u8], &[u8]), UriError>
    ensures { Gives (λ b. (b.0.now, b.1.now)) result (authority_at authority.now) }
{
    if cut(authority, b'@').1.is_some() {
        return Err(UriError::Userinfo);
    }
    host_of(authority)
}

/// Returns the number that the digits name.
fn number_of(digits: &[u8]) -> Result<u16, UriError>
    ensures { Gives (λ n. n) result (number_from 0 digits.now) }
{
    let mut number: u16 = 0;
    for digit in digits {
        if !(b'0' <= *digit && *digit <= b'9') {
            return Err(UriError::Port);
        }
        let next = 10 * u32::from(number) + u32::from(*digit - b'0');
        if next > 65_535 {
            return Err(UriError::Port);
        }
        number = next as u16;
    }
    Ok(number)
}

/// Returns the port that stands behind the host, if there is one.
fn port_of(bytes: &[u8]) -> Result<Option<u16>, UriError>
    ensures { Gives (λ p. p) result (port_at bytes.now) }
{
    match bytes {
        [] | [b':'] => Ok(None),
        [b':', digits @ ..] => Ok(Some(number_of(digits)?)),
        _ => Err(UriError::Port),
    }
}

/// A URI of CoAP that was read (RFC 7252, 6.1 and 6.2). Its parts are slices of it, percent-encoded as they stand there.
#[derive(Clone, Copy, Debug, PartialEq, Eq)]
pub struct ProxyUri<'a> {
    pub scheme: UriScheme,
    /// A name or an address; one of IPv6 stands in its brackets.
    pub host: &'a [u8],
    /// The port, if the URI has one.
    pub port: Option<u16>,
    path: Option<&'a [u8]>,
    query: Option<&'a [u8]>,
}

/// Reads a URI step by step.
pub(crate) fn read(uri: &[u8]) -> Result<ProxyUri<'_>, UriError>
    ensures { Gives uri_parts_of result (decomposed uri.now) }
{
    let (front, query) = cut(uri, b'?');
    let (name, rest) = cut(front, b':');
    let scheme = scheme_of(name)?;
    check_text(uri)?;
    let hierarchy = hierarchy_of(rest.unwrap_or(b""))?;
    let (authority, path) = cut(hierarchy, b'/');
    let (host, port) = place_of(authority)?;
    let port = port_of(port)?;
    Ok(ProxyUri {
        scheme,
        host,
        port,
        path,
        query,
    })
}

ghost use Rattle.osc_proxy.specs.Uri.{UriParts, decomposed};
ghost use Rattle.osc_proxy.specs.UriLaws.{IsUri};
ghost use Rattle.osc_proxy.specs.UriViews.{uri_parts_of};
ghost use Rattle.osc_proxy.specs.declared.uri_error.UriError.{UriError};

impl<'a> ProxyUri<'a> {
    ghost use Rattle.osc_proxy.specs.Uri.{arguments_of, host_value_of, port_of, port_value_of, segments_of};
    ghost use Rattle.osc_proxy.specs.UriViews.{parts_left};

    /// Reads a URI (RFC 7252, 6.1, 6.2 and 6.4, steps 1 to 4). Returns the first refusal in the order of `UriError`. Own rules: neither an
    /// address in brackets nor a name is judged further than by its characters, and a path and a query may have brackets.
    pub fn parse(uri: &'a [u8]) -> Result<ProxyUri<'a>, UriError>
        ensures accepted { IfOk result (λ u. IsUri (uri_parts_of u) uri.now) }
        ensures accepts { (u : UriParts) → IsUri u uri.now → IsOkAnd result (λ v. uri_parts_of v ≡ u) }
        ensures refused { IfErr result (λ e. decomposed uri.now ≡ Err e) }
        ensures refuses { (e : UriError) → decomposed uri.now ≡ Err e → IsErrOf result e }
    {
        read(uri)
    }

    /// Returns the segments of the path, each percent-encoded: none if the path is empty or a single slash (RFC 7252, 6.4, step 8).
    #[must_use]
    pub fn segments(&self) -> Components<'a>
        ensures { parts_left result ≡ segments_of (uri_parts_of self.now).path }
    {
        match self.path {
            Some([]) | None => Components::new(None, b'/'),
            Some(path) => Components::new(Some(path), b'/'),
        }
    }

    /// Returns the arguments of the query, each percent-encoded: none if there is no query, and an empty one if that is empty (RFC 7252,
    /// 6.4, step 9).
    #[must_use]
    pub fn arguments(&self) -> Components<'a>
        ensures { parts_left result ≡ arguments_of (uri_parts_of self.now).query }
    {
        Components::new(self.query, b'&')
    }

    /// Returns the value of Uri-Host: the host in lower case, and decoded (RFC 7252, 6.4, step 5).
    pub fn host_value(&self) -> Result<PartValue, PartTooLong>
        ensures accepted { IfOk result (λ value. value.items ≡ host_value_of (uri_parts_of self.now)) }
        ensures too_long { IfErr result (λ e. 255 < length (host_value_of (uri_parts_of self.now))) }
    {
        decode(self.host, true)
    }

    /// Returns the port for Uri-Port: that of the URI, or else 5683 for coap and 5684 for coaps (RFC 7252, 6.4, step 6).
    #[must_use]
    pub fn port_or_default(&self) -> u16
        ensures { result ≡ port_of (uri_parts_of self.now) }
    {
        match (self.port, self.scheme) {
            (Some(port), _) => port,
            (None, UriScheme::Coap) => 5683,
            (None, UriScheme::Coaps) => 5684,
        }
    }

    /// Returns the value of Uri-Port: the port in as few bytes as it takes, high byte first (RFC 7252, 3.2 and 6.4, step 7).
    #[must_use]
    pub fn port_value(&self) -> ArrayVec<u8, 2>
        ensures { result.items ≡ port_value_of (uri_parts_of self.now) }
    {
        let port = self.port_or_default();
        let mut value = ArrayVec::new();
        if port >= 256 {
            value.push((port / 256) as u8);
        }
        if port > 0 {
            value.push((port % 256) as u8);
        }
        value
    }
}
