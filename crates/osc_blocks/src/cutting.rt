//! Cutting a body that is sent into blocks (RFC 7959, 2.2).

ghost use Rattle.std.specs.Prelude.{◌≡◌, IfNone, IfSome, IsSome};
ghost use Rattle.osc_blocks.specs.Cut.{HasBlock, IsBlockOf, LacksBlock};
ghost use Rattle.osc_blocks.specs.Views.{parts_of};

use crate::block::Block;
use crate::block_size::BlockSize;

/// Returns the block of a body with this number and this size, and the bytes that it carries. Returns `None` if the body has
/// no such block. An empty body has block 0, which carries no bytes (RFC 7959, 2.2).
#[must_use]
pub fn block_of(body: &[u8], number: u32, size: BlockSize) -> Option<(Block, &[u8])>
    ensures cut { IfSome result (λ cut. IsBlockOf body.now (parts_of cut.0) cut.1.now) }
    ensures asked { IfSome result (λ cut. ((parts_of cut.0).number ≡ number) × ((parts_of cut.0).size ≡ size)) }
    ensures accepted { IsSome result → HasBlock body.now number size }
    ensures refused { IfNone result (LacksBlock body.now number size) }
{
    let last = match Block::new(number, false, size) {
        Some(block) => block,
        None => return None,
    };
    let place = last.place();
    if number > 0 && body.len() <= place {
        return None;
    }
    let rest = &body[place..];
    if rest.len() > size.bytes() {
        Some((last.with_more(), &rest[..size.bytes()]))
    } else {
        Some((last, rest))
    }
}
