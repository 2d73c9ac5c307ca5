//! A body of 10,000 bytes goes to a server in blocks, and comes back in blocks (RFC 7959). Each block is a protected message of its own,
//! under a context that takes part in block-wise transfer. Blocks of two uploads are never joined.

mod ends;
mod uploads;

use ends::{Ends, Part};
use osc_blocks::{Block, BlockSize, Body, Received, block_of, request_tag};
use osc_coap::option_numbers::{BLOCK1, BLOCK2};
use std::process::Abort;

/// How many bytes the body has.
const BODY_LEN: usize = 10_000;

/// More blocks than a body of this length has in the sizes below.
const MOST_BLOCKS: u32 = 1000;

const PUT: u8 = 0x03;

const GET: u8 = 0x01;

/// 2.31, Continue (RFC 7959, 2.9.1).
const CONTINUE: u8 = 0x5f;

/// 2.04, Changed.
const CHANGED: u8 = 0x44;

/// 2.05, Content.
const CONTENT: u8 = 0x45;

/// Returns a body in which no two blocks are alike.
fn body() -> [u8; BODY_LEN] {
    let mut body = [0u8; BODY_LEN];
    for place in 0..BODY_LEN {
        body[place] = (place % 251) as u8;
    }
    body
}

/// Sends a body to the server, each block with the body's Request-Tag. The server answers each block with the block that it took (RFC 7959, 2.5). Returns how many requests it took.
fn put(
    rt: &impl Abort,
    ends: &mut Ends,
    sent: &[u8],
    size: BlockSize,
    came: &mut Body<10_240>,
) -> u32 {
    let tag = request_tag(ends.upcoming(rt));
    let mut count = 0;
    for number in 0..MOST_BLOCKS {
        let Some((block, payload)) = block_of(sent, number, size) else {
            break;
        };
        let request = Part {
            code: PUT,
            number: BLOCK1,
            block,
            tag: tag.as_slice(),
            payload,
        };
        let mut room = [0u8; 1100];
        let (taken, ticket) = ends.ask(rt, &request, &mut room);
        let received = came
            .take(ticket.number(), taken.tag, taken.block, taken.payload)
            .expect(rt, "a block");
        let code = match received {
            Received::More(_) => CONTINUE,
            Received::Whole => CHANGED,
        };
        let response = Part {
            code,
            number: BLOCK1,
            block: taken.block,
            tag: &[],
            payload: &[],
        };
        let mut room = [0u8; 1100];
        let (heard, _) = ends.answer(rt, ticket, &response, &mut room);
        assert_eq!(rt; (heard.code, heard.block), (code, block));
        count = number + 1;
    }
    count
}

/// Asks the server for a body, block by block (RFC 7959, 2.4). Returns how many requests it took.
fn get(
    rt: &impl Abort,
    ends: &mut Ends,
    held: &[u8],
    size: BlockSize,
    came: &mut Body<10_240>,
) -> u32 {
    let mut asked = Block::new(0, false, size).expect(rt, "the first block");
    for count in 0..MOST_BLOCKS {
        let request = Part {
            code: GET,
            number: BLOCK2,
            block: asked,
            tag: &[],
            payload: &[],
        };
        let mut room = [0u8; 1100];
        let (taken, ticket) = ends.ask(rt, &request, &mut room);
        let cut = block_of(held, taken.block.number(), taken.block.size());
        let (block, payload) = cut.expect(rt, "a block of the body");
        let response = Part {
            code: CONTENT,
            number: BLOCK2,
            block,
            tag: &[],
            payload,
        };
        let mut room = [0u8; 1100];
        let (heard, number) = ends.answer(rt, ticket, &response, &mut room);
        match came
            .take(number, b"ETag 1", heard.block, heard.payload)
            .expect(rt, "a block")
        {
            Received::More(next) => asked = next,
            Received::Whole => return count + 1,
        }
    }
    rt.abort();
}

/// Takes a body there and back in blocks of this size, of which it has so many.
fn there_and_back(rt: &impl Abort, sent: &[u8], size: BlockSize, blocks: u32) {
    let mut ends = Ends::start(rt);
    let mut there = Body::new();
    assert_eq!(rt; put(rt, &mut ends, sent, size, &mut there), blocks);
    assert_eq!(rt; there.whole(), Some(sent));
    let mut back = Body::new();
    assert_eq!(rt; get(rt, &mut ends, sent, size, &mut back), blocks);
    assert_eq!(rt; back.whole(), Some(sent));
}

// 10,000 bytes are 625 blocks of 16, and ten of 1,024, the last of which has 784.
#[test]
fn a_body_goes_there_and_back(rt: HostRuntime) {
    let sent = body();
    there_and_back(&rt, &sent, BlockSize::Bytes16, 625);
    there_and_back(&rt, &sent, BlockSize::Bytes1024, 10);
}
