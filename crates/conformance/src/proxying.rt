//! Calls of osc_proxy.

use crate::answer::Answer;
use crate::fields::Fields;
use osc_proxy::{Components, ProxyUri, ask_proxy, percent_decoded, split_proxy_uri};
use std::fmt::Display;

/// What a buffer is filled with.
const FILLED_WITH: u8 = 0xee;

/// Shows why nothing was written, and the buffer.
fn refused<D: Display + Drop>(refusal: D, buf: &[u8], answer: &mut Answer) {
    answer.refused(refusal);
    answer.rest(buf, FILLED_WITH);
}

/// Has a sealed request ask a proxy, and shows its bytes.
pub(crate) fn ask(fields: &Fields<'_>, answer: &mut Answer) {
    fields.count(3);
    let mut buf = fields.room(0, FILLED_WITH);
    match ask_proxy(fields.bytes(2), fields.bytes(1), buf.as_mut_slice()) {
        Ok(len) => answer.written(buf.as_slice(), len, FILLED_WITH),
        Err(refusal) => refused(refusal, buf.as_slice(), answer),
    }
}

/// Splits the Proxy-Uri of a request, and shows the scheme and the bytes.
pub(crate) fn split(fields: &Fields<'_>, answer: &mut Answer) {
    fields.count(2);
    let mut buf = fields.room(0, FILLED_WITH);
    match split_proxy_uri(fields.bytes(1), buf.as_mut_slice()) {
        Ok((len, of)) => {
            answer.word(of.name());
            answer.written(buf.as_slice(), len, FILLED_WITH);
        }
        Err(refusal) => refused(refusal, buf.as_slice(), answer),
    }
}

/// Shows parts as they are encoded.
fn parts(parts: Components<'_>, answer: &mut Answer) {
    answer.word("[");
    for part in parts {
        answer.bytes(part);
    }
    answer.word("]");
}

/// Shows what a URI says.
fn uri(uri: &ProxyUri<'_>, answer: &mut Answer) {
    answer.word(uri.scheme.name());
    answer.bytes(uri.host);
    match uri.host_value() {
        Ok(value) => answer.bytes(value.as_slice()),
        Err(refusal) => answer.refused(refusal),
    }
    match uri.port {
        Some(port) => answer.print(port),
        None => answer.word("none"),
    }
    answer.print(uri.port_or_default());
    answer.bytes(uri.port_value().as_slice());
    parts(uri.segments(), answer);
    parts(uri.arguments(), answer);
}

/// Reads a URI, and shows its parts.
pub(crate) fn read_uri(fields: &Fields<'_>, answer: &mut Answer) {
    fields.count(1);
    match ProxyUri::parse(fields.bytes(0)) {
        Ok(read) => uri(&read, answer),
        Err(refusal) => answer.refused(refusal),
    }
}

/// Shows the bytes that a part of a URI stands for.
pub(crate) fn decoded(fields: &Fields<'_>, answer: &mut Answer) {
    fields.count(1);
    match percent_decoded(fields.bytes(0)) {
        Ok(value) => answer.bytes(value.as_slice()),
        Err(refusal) => answer.refused(refusal),
    }
}
