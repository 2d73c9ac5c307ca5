//! The value of a Block1 or a Block2 option (RFC 7959, 2.2), a number of up to 3 bytes, high byte first:
//!
//!     NUM, the number of a block | M, more follow | SZX, its size
//!                    4, 12 or 20 |              1 |             3 bits

ghost use Rattle.std.specs.Prelude.{◌≡◌, ◌+◌, ◌^◌, ◌<◌, ◌≤◌, ℕ, List, true, length, IfNone, IfSome, IsNone, IsSome, IsSomeAnd};
ghost use Rattle.arrayvec.specs.ArrayVec.{array_vec_len};
ghost use Rattle.osc_blocks.specs.BlockValue.{BlockParts, IsBlockValue, IsNoBlockValue, block_parts, next_of, place_of, value_number};

use crate::block_size::BlockSize;
use crate::uint::{read_uint, write_uint};
use arrayvec::ArrayVec;

/// The first number that no block has (RFC 7959, 2.2).
pub(crate) const NUMBER_LIMIT: u32 = 1 << 20;

/// The most bytes of a value (RFC 7959, 2.1).
const MOST_VALUE: usize = 3;

/// What a Block1 or a Block2 option says: which block of a body it is, whether more blocks follow it, and the size of
/// blocks (RFC 7959, 2.2).
#[derive(Clone, Copy, Debug, PartialEq, Eq)]
pub struct Block {
    number: u32,
    more: bool,
    size: BlockSize,
    pub ghost in_range: { number < 2 ^ 20 },
}

impl Block {
    ghost use Rattle.osc_blocks.specs.Views.{parts_of};

    /// Makes a block of these parts. Returns `None` from the number 2^20 up, which 20 bits can't say (RFC 7959, 2.2).
    #[must_use]
    pub fn new(number: u32, more: bool, size: BlockSize) -> Option<Block>
        ensures made { IfSome result (λ block. parts_of block ≡ block_parts number more size) }
        ensures accepted { IsSome result → number < 2 ^ 20 }
        ensures refused { IfNone result (2 ^ 20 ≤ number) }
    {
        if number < NUMBER_LIMIT {
            Some(Block { number, more, size })
        } else {
            None
        }
    }

    /// Returns the number of the block: 0 is the first one of a body (RFC 7959, 2.2).
    #[must_use]
    pub fn number(self) -> u32
        ensures value { result ≡ (parts_of self).number }
        ensures in_range { result < 2 ^ 20 }
    {
        self.number
    }

    /// Returns whether more blocks follow this one (RFC 7959, 2.2).
    #[must_use]
    pub fn more(self) -> bool
        ensures { result ≡ (parts_of self).more }
    {
        self.more
    }

    /// Returns the size of the block. The last block of a body may have fewer bytes (RFC 7959, 2.2).
    #[must_use]
    pub fn size(self) -> BlockSize
        ensures { result ≡ (parts_of self).size }
    {
        self.size
    }

    /// Reads the value of an option. Returns `None` for more than 3 bytes, and for the size exponent 7, which is
    /// reserved (RFC 7959, 2.1 and 2.2).
    #[must_use]
    pub fn read(value: &[u8]) -> Option<Block>
        ensures accepted { IfSome result (λ block. IsBlockValue (parts_of block) value.now) }
        ensures accepts { (block : BlockParts) → IsBlockValue block value.now → IsSomeAnd result (λ read. parts_of read ≡ block) }
        ensures refused { IfNone result (IsNoBlockValue value.now) }
        ensures refuses { IsNoBlockValue value.now → IsNone result }
    {
        if value.len() > MOST_VALUE {
            return None;
        }
        let number = read_uint(value);
        match BlockSize::from_exponent(number % 8) {
            Some(size) => Some(Block {
                number: number / 16,
                more: number / 8 % 2 == 1,
                size,
            }),
            None => None,
        }
    }

    /// Returns the value of an option that says this block, in the fewest bytes: none for number 0 of size 16 with no
    /// more blocks (RFC 7959, 2.2).
    #[must_use]
    pub fn write(self) -> ArrayVec<u8, 3>
        ensures written { IsBlockValue (parts_of self) result.items }
        ensures shortest { (other : List ℕ) → IsBlockValue (parts_of self) other → array_vec_len result ≤ length other }
    {
        write_uint(self.packed())
    }

    /// Returns the number that says the parts (RFC 7959, 2.2).
    fn packed(self) -> u32
        ensures value { result ≡ value_number (parts_of self) }
        ensures most { result < 2 ^ 24 }
    {
        let number = self.number * 16;
        let more_bit = if self.more { 8 } else { 0 };
        number + more_bit + self.size.exponent()
    }

    /// Returns where the block begins in its body, in bytes (RFC 7959, 2.2).
    pub(crate) fn place(self) -> usize
        ensures value { result ≡ place_of (parts_of self) }
        ensures most { result ≤ 2 ^ 30 }
    {
        let number = self.number as usize;
        number * self.size.bytes()
    }

    /// Returns the same block with more blocks after it (RFC 7959, 2.2).
    pub(crate) fn with_more(self) -> Block
        ensures { parts_of result ≡ block_parts (parts_of self).number true (parts_of self).size }
    {
        Block {
            number: self.number,
            more: true,
            size: self.size,
        }
    }

    /// Returns the block to ask for after this one (RFC 7959, 2.4).
    pub(crate) fn next(self) -> Block
        requires { (parts_of self).number + 1 < 2 ^ 20 }
        ensures { parts_of result ≡ next_of (parts_of self) }
    {
        Block {
            number: self.number + 1,
            more: false,
            size: self.size,
        }
    }
}
