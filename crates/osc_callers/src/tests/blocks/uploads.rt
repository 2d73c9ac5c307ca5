//! Two uploads of one resource, each in two blocks. A network delays their datagrams, and passes them on in an order of its own: no block
//! of one upload is joined to one of the other (RFC 9175, 3.5.1).

ghost use Rattle.std.specs.Prelude.{◌≤◌};

use super::PUT;
use super::ends::{Ends, Part};
use osc_blocks::{BlockError, BlockSize, Body, Received, block_of, request_tag};
use osc_coap::option_numbers::BLOCK1;
use std::process::Abort;

const TO_ALICE: &[u8] = b"transfer to: alice, sum 1000000.";

const TO_MALLORY: &[u8] = b"transfer to: mallory, sum 1.";

/// A sealed request, at the front of its bytes.
#[derive(Clone, Copy)]
struct Sealed {
    bytes: [u8; 1100],
    len: usize,
    pub ghost fits: { len ≤ 1100 },
}

/// Has the client seal the request with this block of an upload.
fn seal(rt: &impl Abort, ends: &mut Ends, tag: &[u8], upload: &[u8], number: u32) -> Sealed {
    let (block, payload) = block_of(upload, number, BlockSize::Bytes16).expect(rt, "a block");
    let part = Part {
        code: PUT,
        number: BLOCK1,
        block,
        tag,
        payload,
    };
    let mut bytes = [0u8; 1100];
    let len = ends.send_once(rt, &part, &mut bytes);
    Sealed { bytes, len }
}

/// Has the client seal both requests of an upload.
fn seal_both(rt: &impl Abort, ends: &mut Ends, tag: &[u8], upload: &[u8]) -> (Sealed, Sealed) {
    let first = seal(rt, ends, tag, upload, 0);
    let second = seal(rt, ends, tag, upload, 1);
    (first, second)
}

/// Passes a request to the server, which delivers it, and its block to a body. The requests differ in their tags alone.
fn pass(
    rt: &impl Abort,
    ends: &mut Ends,
    body: &mut Body<64>,
    sealed: Sealed,
) -> Result<Received, BlockError> {
    let mut bytes = sealed.bytes;
    let (part, ticket) = ends.take_request(rt, BLOCK1, &mut bytes[..sealed.len]);
    body.take(ticket.number(), part.tag, part.block, part.payload)
}

/// Holds back the second block of an upload, until the first one of another upload with the same tag has come.
fn pass_an_older_block(rt: &impl Abort, tag: &[u8]) {
    let mut ends = Ends::start(rt);
    let (_, older) = seal_both(rt, &mut ends, tag, TO_ALICE);
    let (first, second) = seal_both(rt, &mut ends, tag, TO_MALLORY);
    let mut body = Body::new();
    assert!(rt; pass(rt, &mut ends, &mut body, first).is_ok());
    assert_eq!(rt;
        pass(rt, &mut ends, &mut body, older),
        Err(BlockError::OldNumber)
    );
    assert_eq!(rt; body.whole(), None);
    assert_eq!(rt; pass(rt, &mut ends, &mut body, second), Ok(Received::Whole));
    assert_eq!(rt; body.whole(), Some(TO_MALLORY));
}

// Without a number, the body would be "transfer to: malce, sum 1000000.".
#[test]
fn an_older_block_is_not_joined(rt: HostRuntime) {
    pass_an_older_block(&rt, &[]);
}

#[test]
fn nor_is_it_with_the_same_tag(rt: HostRuntime) {
    pass_an_older_block(&rt, &[0]);
}

// Their numbers increase: only the tags tell these blocks apart.
#[test]
fn a_block_with_another_tag_is_not_joined(rt: HostRuntime) {
    let mut ends = Ends::start(&rt);
    let tag = request_tag(ends.upcoming(&rt));
    let (first, second) = seal_both(&rt, &mut ends, tag.as_slice(), TO_MALLORY);
    let tag = request_tag(ends.upcoming(&rt));
    let (_, newer) = seal_both(&rt, &mut ends, tag.as_slice(), TO_ALICE);
    let mut body = Body::new();
    assert!(rt; pass(&rt, &mut ends, &mut body, first).is_ok());
    assert_eq!(rt;
        pass(&rt, &mut ends, &mut body, newer),
        Err(BlockError::OtherOperation)
    );
    assert_eq!(rt;
        pass(&rt, &mut ends, &mut body, second),
        Ok(Received::Whole)
    );
    assert_eq!(rt; body.whole(), Some(TO_MALLORY));
}
