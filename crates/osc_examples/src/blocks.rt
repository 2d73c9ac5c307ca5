//! The example of osc_blocks.

ghost use Rattle.std.specs.Prelude.{◌≡◌, List, IfSome, IsSomeAnd};
ghost use Rattle.osc_blocks.specs.BlockValue.{BlockParts, IsBlockValue};
ghost use Rattle.osc_blocks.specs.Cut.{IsBlockOf};
ghost use Rattle.osc_blocks.specs.InBlocks.{IsInBlocks, Piece, piece_of};
ghost use Rattle.osc_blocks.specs.Taking.{with_piece};
ghost use Rattle.osc_blocks.specs.Views.{Holds, parts_of, whole_of};
ghost use Rattle.osc_context.specs.Views.{number_of};

use arrayvec::ArrayVec;
use osc_blocks::{Block, BlockError, Body, Received, block_of};
use osc_context::Piv;

/// Returns the Block2 option and the payload of a response to a request for one block of a body, or `None` if the option isn't
/// one, or if the body has no such block.
pub fn respond<'a>(body: &'a [u8], asked: &[u8]) -> Option<(ArrayVec<u8, 3>, &'a [u8])>
    ensures { IfSome result (λ response. (block : BlockParts) × IsBlockValue block response.0.items × IsBlockOf body.now block response.1.now) }
{
    let asked = Block::read(asked)?;
    match block_of(body, asked.number(), asked.size()) {
        Some((block, payload)) => Some((block.write(), payload)),
        None => None,
    }
}

/// Passes the block that a request carries to a body. Returns the code of the response (RFC 7959, 2.9): 2.04 if the body is whole.
pub fn join(
    body: &mut Body<1024>,
    number: Piv,
    operation: &[u8],
    block: Block,
    payload: &[u8],
) -> u8
    ensures { result ≡ 68 → (pieces : List Piece) → Holds body.old pieces
        → IsSomeAnd (whole_of body.new) (IsInBlocks operation.now 0 (with_piece pieces (piece_of (number_of number) operation.now (parts_of block) payload.now))) }
{
    match body.take(number, operation, block, payload) {
        Ok(Received::More(_)) => 0x5f,
        Ok(Received::Whole) => 0x44,
        Err(BlockError::LongOperation | BlockError::WrongLength) => 0x80,
        Err(BlockError::OutOfOrder | BlockError::OtherOperation | BlockError::OldNumber) => 0x88,
        Err(BlockError::TooLarge) => 0x8d,
    }
}
