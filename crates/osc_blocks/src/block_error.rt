//! Why a block isn't taken.

use std::error::Error;
use std::fmt;

/// Why a block isn't taken. The reasons are in the order in which they are judged. The codes are those with which a server
/// responds (RFC 7959, 2.9).
#[derive(Clone, Copy, Debug, PartialEq, Eq)]
pub enum BlockError {
    /// The operation has more than 64 bytes (own rule).
    LongOperation,
    /// More blocks follow, and the payload doesn't have exactly the size of the block; or no more follow, and the payload is
    /// longer than that size: 4.00 (RFC 7959, 2.2).
    WrongLength,
    /// The block isn't number 0, and no body is begun, or it doesn't begin where the bytes so far end: 4.08 (RFC 7959,
    /// 2.9.2).
    OutOfOrder,
    /// The block isn't number 0, and the body that is begun is of another operation: 4.08 (RFC 7959, 2.9.2).
    OtherOperation,
    /// The block isn't number 0, and the number of its request isn't higher than that of the block before it: 4.08
    /// (RFC 7959, 2.9.2; own rule: that numbers increase).
    OldNumber,
    /// The body would have more bytes than there is room for, or more blocks than can be numbered: 4.13 (RFC 7959, 2.9.3).
    TooLarge,
}

impl fmt::Display for BlockError {
    ghost use Rattle.std.specs.Prelude.{Some};
    ghost use Rattle.osc_blocks.specs.Text.{block_error_text};

    ghost output = { λ e. Some (block_error_text e) };

    fn fmt<W: fmt::Write>(&self, f: &mut fmt::Formatter<W>) -> fmt::Result {
        match self {
            BlockError::LongOperation => f.write_str("LongOperation"),
            BlockError::WrongLength => f.write_str("WrongLength"),
            BlockError::OutOfOrder => f.write_str("OutOfOrder"),
            BlockError::OtherOperation => f.write_str("OtherOperation"),
            BlockError::OldNumber => f.write_str("OldNumber"),
            BlockError::TooLarge => f.write_str("TooLarge"),
        }
    }
}

impl Error for BlockError {}
