//! A body that is received in blocks (RFC 7959, 2.3 to 2.5).

ghost use Rattle.std.specs.Prelude.{◌≡◌, ℕ, List, [], true, false, IfErr, IfOk, IfSome, IsErrOf, IsOk, IsSomeAnd, OnErr, OnOk, MatchResult};
ghost use Rattle.std.specs.Option.{option_copied};
ghost use Rattle.osc_blocks.specs.InBlocks.{IsInBlocks, Piece, piece_of};
ghost use Rattle.osc_blocks.specs.Taking.{HasOldNumber, HasWrongLength, IsFirstRefusal, IsOfOtherOperation, IsOutOfOrder, IsTooLarge, Refuses, kept_after, with_piece};
ghost use Rattle.osc_blocks.specs.Judging.{CanTake, HasRightLength, HasRoom, IsInOrder, IsNewer, IsOfSameOperation};
ghost use Rattle.osc_blocks.specs.Views.{Holds, IsReceived, Takes, kept_of, parts_of, whole_of};
ghost use Rattle.osc_context.specs.Views.{number_of};

use crate::block::{Block, NUMBER_LIMIT};
use crate::block_error::BlockError;
use crate::received::Received;
use arrayvec::ArrayVec;
use osc_context::Piv;

/// The most bytes of an operation (own rule).
const MOST_OPERATION: usize = 64;

/// How far a body is.
#[derive(Clone, Copy, PartialEq, Eq)]
enum Stage {
    /// No block was taken.
    Empty,
    /// Blocks were taken, and more follow.
    Begun,
    /// The last block was taken.
    Complete,
}

/// A body that is received in blocks, with room for MOST bytes. It keeps one body at a time: block number 0 begins a new
/// one, and drops what was there (RFC 7959, 2.5).
#[derive(Drop)]
pub struct Body<const MOST: usize> {
    /// The number of the request of the last block that was taken.
    request: u64,
    operation: ArrayVec<u8, 64>,
    bytes: ArrayVec<u8, MOST>,
    stage: Stage,
}

impl<const MOST: usize> Body<MOST> {
    /// Makes a body of which no block was taken.
    #[tactic(auto, unfolding(crate::specs::Views::kept_of))]
    #[must_use]
    pub fn new() -> Body<MOST>
        ensures { Holds result [] × ((kept_of result).stage ≡ Stage.Empty) }
    {
        Body {
            request: 0,
            operation: ArrayVec::new(),
            bytes: ArrayVec::new(),
            stage: Stage::Empty,
        }
    }

    /// Takes a block. `number` is the Partial IV of the request that carries it; at a client, of the request that the response
    /// with Block2 answers. `operation` is up to 64 bytes that tell one body from another: for Block1 the code and the
    /// options, Request-Tag among them, but not Block1, Block2 and the elective options that are no part of the Cache-Key, as
    /// Size1 and Echo; for Block2 the ETag (RFC 7252, 5.4.2; RFC 7959, 2.4 and 2.5; RFC 9175, 3.3; own rule: the limit). Requests
    /// of one operation are of one sender. Refuses with LongOperation, WrongLength, OutOfOrder, OtherOperation, OldNumber or TooLarge,
    /// judged in this order.
    #[tactic(auto, unfolding(crate::specs::Views::kept_of))]
    pub fn take(
        &mut self,
        number: Piv,
        operation: &[u8],
        block: Block,
        payload: &[u8],
    ) -> Result<Received, BlockError>
        ensures taken { OnOk result (Takes self.old self.new (piece_of (number_of number) operation.now (parts_of block) payload.now)) }
        ensures kept { OnOk result (kept_of self.new ≡ kept_after (kept_of self.old) (piece_of (number_of number) operation.now (parts_of block) payload.now)) }
        ensures received { IfOk result (λ received. IsReceived received (parts_of block) (whole_of self.new)) }
        ensures joined { IfOk result (λ received. received ≡ Received.Whole → (pieces : List Piece) → Holds self.old pieces
            → IsSomeAnd (whole_of self.new) (IsInBlocks operation.now 0 (with_piece pieces (piece_of (number_of number) operation.now (parts_of block) payload.now)))) }
        ensures unchanged { OnErr result (self.new ≡ self.old) }
        ensures accepted { IsOk result → (e : BlockError)
            → ¬ Refuses MOST (kept_of self.old) (piece_of (number_of number) operation.now (parts_of block) payload.now) e }
        ensures refused { IfErr result
            (IsFirstRefusal MOST (kept_of self.old) (piece_of (number_of number) operation.now (parts_of block) payload.now)) }
        ensures refuses { (e : BlockError)
            → IsFirstRefusal MOST (kept_of self.old) (piece_of (number_of number) operation.now (parts_of block) payload.now) e → IsErrOf result e }
    {
        self.judge(number, operation, block, payload)?;
        self.keep(number, operation, block, payload);
        if block.more() {
            Ok(Received::More(block.next()))
        } else {
            Ok(Received::Whole)
        }
    }

    /// Keeps a block that can be taken. Number 0 drops all bytes, and each other block begins where the bytes end.
    #[tactic(auto, unfolding(crate::specs::Views::kept_of))]
    fn keep(&mut self, number: Piv, operation: &[u8], block: Block, payload: &[u8])
        requires { CanTake MOST (kept_of self.old) (piece_of (number_of number) operation.now (parts_of block) payload.now) }
        ensures kept { kept_of self.new ≡ kept_after (kept_of self.old) (piece_of (number_of number) operation.now (parts_of block) payload.now) }
        ensures taken { Takes self.old self.new (piece_of (number_of number) operation.now (parts_of block) payload.now) }
    {
        self.request = number.number();
        self.bytes.truncate(block.place());
        self.bytes.try_extend_from_slice(payload).unwrap();
        self.operation.clear();
        self.operation.try_extend_from_slice(operation).unwrap();
        self.stage = if block.more() {
            Stage::Begun
        } else {
            Stage::Complete
        };
    }

    /// Returns the body, if its last block was taken and no block after that.
    #[tactic(auto, unfolding(crate::specs::Views::kept_of))]
    #[must_use]
    pub fn whole(&self) -> Option<&[u8]>
        ensures value { option_copied result ≡ whole_of self.now }
        ensures joined { (pieces : List Piece) → Holds self.now pieces
            → IfSome result (λ bytes. (operation : List ℕ) × IsInBlocks operation 0 pieces bytes.now) }
    {
        match self.stage {
            Stage::Empty | Stage::Begun => None,
            Stage::Complete => Some(self.bytes.as_slice()),
        }
    }

    /// Judges whether a block can be taken.
    fn judge(
        &self,
        number: Piv,
        operation: &[u8],
        block: Block,
        payload: &[u8],
    ) -> Result<(), BlockError>
        ensures { MatchResult result
            (λ _. CanTake MOST (kept_of self.now) (piece_of (number_of number) operation.now (parts_of block) payload.now))
            (IsFirstRefusal MOST (kept_of self.now) (piece_of (number_of number) operation.now (parts_of block) payload.now)) }
    {
        if operation.len() > MOST_OPERATION {
            return Err(BlockError::LongOperation);
        }
        if has_wrong_length(block, payload.len()) {
            return Err(BlockError::WrongLength);
        }
        if self.is_out_of_order(block) {
            return Err(BlockError::OutOfOrder);
        }
        if self.is_of_other_operation(operation, block) {
            return Err(BlockError::OtherOperation);
        }
        if self.has_old_number(number, block) {
            return Err(BlockError::OldNumber);
        }
        if is_too_large(MOST, block, payload.len()) {
            return Err(BlockError::TooLarge);
        }
        Ok(())
    }

    /// Returns whether a block neither begins a body nor begins where the bytes of one end.
    #[tactic(auto, unfolding(crate::specs::Views::kept_of))]
    fn is_out_of_order(&self, block: Block) -> bool
        ensures yes { result ≡ true → IsOutOfOrder (kept_of self.now) (parts_of block) }
        ensures no { result ≡ false → IsInOrder (kept_of self.now) (parts_of block) }
    {
        if block.number() == 0 {
            return false;
        }
        match self.stage {
            Stage::Empty | Stage::Complete => true,
            Stage::Begun => block.place() != self.bytes.len(),
        }
    }

    /// Returns whether a block would go on a body of another operation.
    #[tactic(auto, unfolding(crate::specs::Views::kept_of))]
    fn is_of_other_operation(&self, operation: &[u8], block: Block) -> bool
        ensures yes { result ≡ true → IsOfOtherOperation (kept_of self.now) operation.now (parts_of block) }
        ensures no { result ≡ false → IsOfSameOperation (kept_of self.now) operation.now (parts_of block) }
    {
        if block.number() == 0 {
            return false;
        }
        operation != self.operation.as_slice()
    }

    /// Returns whether a block would go on a body by a request with no higher number than that of the block before it.
    #[tactic(auto, unfolding(crate::specs::Views::kept_of))]
    fn has_old_number(&self, number: Piv, block: Block) -> bool
        ensures yes { result ≡ true → HasOldNumber (kept_of self.now) (number_of number) (parts_of block) }
        ensures no { result ≡ false → IsNewer (kept_of self.now) (number_of number) (parts_of block) }
    {
        block.number() > 0 && number.number() <= self.request
    }
}

/// Returns whether a payload of this length doesn't fit what its option says (RFC 7959, 2.2).
fn has_wrong_length(block: Block, payload_len: usize) -> bool
    ensures yes { result ≡ true → HasWrongLength (parts_of block) payload_len }
    ensures no { result ≡ false → HasRightLength (parts_of block) payload_len }
{
    if block.more() {
        payload_len != block.size().bytes()
    } else {
        payload_len > block.size().bytes()
    }
}

/// Returns whether the body would pass its room, or the next block would have a number that no block can have.
fn is_too_large(most: usize, block: Block, payload_len: usize) -> bool
    ensures yes { result ≡ true → IsTooLarge most (parts_of block) payload_len }
    ensures no { result ≡ false → HasRoom most (parts_of block) payload_len }
{
    if most < payload_len || most - payload_len < block.place() {
        return true;
    }
    block.more() && block.number() == NUMBER_LIMIT - 1
}
