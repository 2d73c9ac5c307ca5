//! Calls of osc_coap that read.

use crate::answer::Answer;
use crate::fields::Fields;
use osc_coap::option_numbers::*;
use osc_coap::{
    Class, Inner, Message, class_of, head_len, is_request_code, is_response_code, option_len,
    parse, parse_inner, parsed, parsed_inner,
};

/// Shows what a message says.
fn message(message: &Message<'_>, answer: &mut Answer) {
    answer.kind(message.kind);
    answer.bytes(&message.message_id.to_be_bytes());
    answer.bytes(message.token.as_slice());
    answer.code(message.code);
    answer.options(message.options());
    answer.bytes(message.payload());
}

/// Reads a datagram, and takes it apart again by the length of its payload.
pub(crate) fn read_datagram(fields: &Fields<'_>, answer: &mut Answer) {
    fields.count(1);
    let datagram = fields.bytes(0);
    match parse(datagram) {
        Ok(read) => {
            message(&read, answer);
            answer.again();
            message(&parsed(datagram, read.payload().len()), answer);
        }
        Err(refusal) => answer.refused(refusal),
    }
}

/// Shows what a plaintext says.
fn plaintext(inner: &Inner<'_>, answer: &mut Answer) {
    answer.code(inner.code);
    answer.options(inner.options());
    answer.bytes(inner.payload());
}

/// Reads a plaintext, and takes it apart again by the length of its payload.
pub(crate) fn read_plaintext(fields: &Fields<'_>, answer: &mut Answer) {
    fields.count(1);
    let bytes = fields.bytes(0);
    match parse_inner(bytes) {
        Ok(read) => {
            plaintext(&read, answer);
            answer.again();
            plaintext(&parsed_inner(bytes, read.payload().len()), answer);
        }
        Err(refusal) => answer.refused(refusal),
    }
}

pub(crate) fn option_length(fields: &Fields<'_>, answer: &mut Answer) {
    fields.count(2);
    answer.print(option_len(fields.short(0), fields.short(1)));
}

/// Shows the length of a datagram's head with its token.
pub(crate) fn head_length(fields: &Fields<'_>, answer: &mut Answer) {
    fields.count(1);
    if let Some(message) = fields.message(0) {
        answer.print(head_len(&message.token));
    }
}

/// Shows whether a message is a request, and whether it is a response.
pub(crate) fn usage(fields: &Fields<'_>, answer: &mut Answer) {
    fields.count(1);
    if let Some(message) = fields.message(0) {
        answer.usage(message.is_request(), message.is_response());
    }
}

/// Shows whether a code, one byte, belongs to a request, and whether it belongs to a response.
pub(crate) fn code_usage(fields: &Fields<'_>, answer: &mut Answer) {
    fields.count(1);
    let [code] = fields.array::<1>(0);
    answer.usage(is_request_code(code), is_response_code(code));
}

/// Shows the value of the first option with this number among a datagram's options.
pub(crate) fn first_option(fields: &Fields<'_>, answer: &mut Answer) {
    fields.count(2);
    if let Some(message) = fields.message(0) {
        answer.part(message.options().first(fields.short(1)));
    }
}

/// Shows the value of the option with this number as an end interprets it, among a datagram's options.
pub(crate) fn interpreted_option(fields: &Fields<'_>, answer: &mut Answer) {
    fields.count(2);
    if let Some(message) = fields.message(0) {
        answer.part(message.options().interpreted(fields.short(1)));
    }
}

pub(crate) fn class(fields: &Fields<'_>, answer: &mut Answer) {
    fields.count(1);
    answer.word(match class_of(fields.short(0)) {
        Class::E => "E",
        Class::U => "U",
        Class::Both => "both",
    });
}

/// The numbers that osc_coap names.
const NUMBERS: [u16; 27] = [
    IF_MATCH,
    URI_HOST,
    ETAG,
    IF_NONE_MATCH,
    OBSERVE,
    URI_PORT,
    LOCATION_PATH,
    OSCORE,
    URI_PATH,
    CONTENT_FORMAT,
    MAX_AGE,
    URI_QUERY,
    HOP_LIMIT,
    ACCEPT,
    Q_BLOCK1,
    LOCATION_QUERY,
    EDHOC,
    BLOCK2,
    BLOCK1,
    SIZE2,
    Q_BLOCK2,
    PROXY_URI,
    PROXY_SCHEME,
    SIZE1,
    ECHO,
    NO_RESPONSE,
    REQUEST_TAG,
];

/// Shows one of these numbers, counted from 0.
pub(crate) fn option_number(fields: &Fields<'_>, answer: &mut Answer) {
    fields.count(1);
    match NUMBERS.get(fields.short(0) as usize) {
        Some(number) => answer.print(*number),
        None => fields.refuse(),
    }
}
