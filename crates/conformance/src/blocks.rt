//! Calls of osc_blocks.

ghost use Rattle.std.specs.Prelude.{◌≤◌};

use crate::answer::Answer;
use crate::fields::Fields;
use osc_blocks::{Block, BlockSize, Body, Received, block_of, request_tag};

/// The room of a body, in bytes.
const ROOM: usize = 48;

fn number(fields: &Fields<'_>, place: usize) -> u32 {
    match u32::try_from(fields.number(place)) {
        Ok(number) => number,
        Err(_) => {
            fields.refuse();
            0
        }
    }
}

/// Returns the size of this many bytes.
fn size(fields: &Fields<'_>, place: usize) -> BlockSize {
    match fields.number(place) {
        16 => BlockSize::Bytes16,
        32 => BlockSize::Bytes32,
        64 => BlockSize::Bytes64,
        128 => BlockSize::Bytes128,
        256 => BlockSize::Bytes256,
        512 => BlockSize::Bytes512,
        1024 => BlockSize::Bytes1024,
        _ => {
            fields.refuse();
            BlockSize::Bytes16
        }
    }
}

fn show(block: Block, answer: &mut Answer) {
    answer.print(block.number());
    answer.word(if block.more() { "more" } else { "last" });
    answer.print(block.size().bytes());
}

/// Shows what a value says, and the shortest value that says it.
pub(crate) fn read(fields: &Fields<'_>, answer: &mut Answer) {
    fields.count(1);
    match Block::read(fields.bytes(0)) {
        Some(block) => {
            show(block, answer);
            answer.bytes(block.write().as_slice());
        }
        None => answer.word("none"),
    }
}

/// Shows the value of a block that is made of its parts.
pub(crate) fn write(fields: &Fields<'_>, answer: &mut Answer) {
    fields.count(3);
    let more = fields.word(1) == "more";
    match Block::new(number(fields, 0), more, size(fields, 2)) {
        Some(block) => answer.bytes(block.write().as_slice()),
        None => answer.word("none"),
    }
}

/// Shows one block of a body, and the bytes that it carries.
pub(crate) fn cut(fields: &Fields<'_>, answer: &mut Answer) {
    fields.count(3);
    match block_of(fields.bytes(0), number(fields, 1), size(fields, 2)) {
        Some((block, payload)) => {
            show(block, answer);
            answer.bytes(payload);
        }
        None => answer.word("none"),
    }
}

/// Passes one block to a body: the number of its request, an operation, the value of an option and a payload.
fn take(body: &mut Body<ROOM>, fields: &Fields<'_>, place: usize, answer: &mut Answer)
    requires { place ≤ 4294967296 }
{
    let Some(block) = Block::read(fields.bytes(place + 2)) else {
        return fields.refuse();
    };
    let number = fields.sequence_number(place);
    match body.take(
        number,
        fields.bytes(place + 1),
        block,
        fields.bytes(place + 3),
    ) {
        Ok(Received::More(next)) => {
            answer.word("next");
            show(next, answer);
        }
        Ok(Received::Whole) => answer.word("whole"),
        Err(refusal) => answer.refused(refusal),
    }
}

/// Passes blocks to an empty body, four fields each, and shows the body that it then is.
pub(crate) fn body(fields: &Fields<'_>, answer: &mut Answer) {
    let mut body = Body::new();
    for step in 0..(fields.len() / 4).min(1000) {
        take(&mut body, fields, 4 * step, answer);
    }
    fields.count(4 * (fields.len() / 4).min(1000));
    answer.part(body.whole());
}

/// Shows the Request-Tag of a body whose first request has this number.
pub(crate) fn tag(fields: &Fields<'_>, answer: &mut Answer) {
    fields.count(1);
    answer.bytes(request_tag(fields.sequence_number(0)).as_slice());
}
