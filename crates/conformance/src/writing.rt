//! Calls of osc_coap and osc_message that write.

use crate::answer::Answer;
use crate::fields::Fields;
use osc_coap::{Message, WriteError, Writer};
use osc_message::{Separate, make_separate};

/// What a writer's buffer is filled with.
const FILLED_WITH: u8 = 0xee;

/// Shows what a step of a writer returned.
fn told(outcome: Result<(), WriteError>, answer: &mut Answer) {
    match outcome {
        Ok(()) => answer.word("ok"),
        Err(refusal) => answer.print(refusal),
    }
}

/// Makes the steps of a writer that has begun, from this field on. A step is an option's number and value, or `payload` and a payload.
fn steps(writer: &mut Writer<'_>, fields: &Fields<'_>, first: usize, answer: &mut Answer) {
    for place in (first..fields.len()).step_by(2) {
        let value = fields.bytes(place.saturating_add(1));
        let outcome = if fields.word(place) == "payload" {
            writer.payload(value)
        } else {
            writer.option(fields.short(place), value)
        };
        told(outcome, answer);
    }
}

/// Shows the refusal of a writer that didn't begin.
fn refused(refusal: WriteError, buf: &[u8], answer: &mut Answer) {
    answer.refused(refusal);
    answer.rest(buf, FILLED_WITH);
}

/// Writes with a writer that begins with the head of a message, under another code.
fn written(message: &Message<'_>, fields: &Fields<'_>, answer: &mut Answer) {
    let (kind, message_id) = (message.kind, message.message_id);
    let code = fields.array::<1>(2)[0];
    let mut buf = fields.room(0, FILLED_WITH);
    match Writer::new(buf.as_mut_slice(), kind, code, message_id, &message.token) {
        Ok(begun) => {
            let mut writer = begun;
            steps(&mut writer, fields, 3, answer);
            let len = writer.finish();
            answer.written(buf.as_slice(), len, FILLED_WITH);
        }
        Err(refusal) => refused(refusal, buf.as_slice(), answer),
    }
}

pub(crate) fn write(fields: &Fields<'_>, answer: &mut Answer) {
    if let Some(message) = fields.message(1) {
        written(&message, fields, answer);
    }
}

pub(crate) fn write_inner(fields: &Fields<'_>, answer: &mut Answer) {
    let code = fields.array::<1>(1)[0];
    let mut buf = fields.room(0, FILLED_WITH);
    match Writer::inner(buf.as_mut_slice(), code) {
        Ok(begun) => {
            let mut writer = begun;
            steps(&mut writer, fields, 2, answer);
            let len = writer.finish();
            answer.written(buf.as_slice(), len, FILLED_WITH);
        }
        Err(refusal) => refused(refusal, buf.as_slice(), answer),
    }
}

/// Writes a message, and returns its length.
fn copy(message: &Message<'_>, buf: &mut [u8]) -> Result<usize, WriteError> {
    let (kind, message_id) = (message.kind, message.message_id);
    let mut writer = Writer::new(buf, kind, message.code, message_id, &message.token)?;
    for (number, value) in message.options() {
        writer.option(number, value)?;
    }
    writer.payload(message.payload())?;
    Ok(writer.finish())
}

/// Writes a message, and shows its bytes.
fn copied(message: &Message<'_>, fields: &Fields<'_>, answer: &mut Answer) {
    let mut buf = fields.room(0, FILLED_WITH);
    match copy(message, buf.as_mut_slice()) {
        Ok(len) => answer.written(buf.as_slice(), len, FILLED_WITH),
        Err(refusal) => answer.print(refusal),
    }
}

/// Reads a datagram, and writes it anew.
pub(crate) fn write_again(fields: &Fields<'_>, answer: &mut Answer) {
    fields.count(2);
    if let Some(message) = fields.message(1) {
        copied(&message, fields, answer);
    }
}

/// Reads a datagram, and writes it under the head of another one.
pub(crate) fn write_under_head(fields: &Fields<'_>, answer: &mut Answer) {
    fields.count(3);
    if let (Some(message), Some(head)) = (fields.message(1), fields.message(2)) {
        let Message {
            kind,
            message_id,
            token,
            ..
        } = head;
        copied(&message.with_head(kind, message_id, token), fields, answer);
    }
}

/// Makes a datagram a message of its own, and shows it.
pub(crate) fn separate(fields: &Fields<'_>, answer: &mut Answer) {
    fields.count(3);
    let kind = match fields.word(0) {
        "CON" => Separate::Con,
        "NON" => Separate::Non,
        _ => {
            fields.refuse();
            return;
        }
    };
    let mut datagram = fields.copy(2);
    make_separate(datagram.as_mut_slice(), kind, fields.message_id(1));
    answer.bytes(datagram.as_slice());
}
