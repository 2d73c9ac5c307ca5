//! The sizes of a block (RFC 7959, 2.2).

ghost use Rattle.std.specs.Prelude.{◌≡◌, ◌<◌, ◌≤◌, IfNone, IfSome, IsSome};
ghost use Rattle.osc_blocks.specs.BlockValue.{size_exponent, size_of};

/// The size of a block: from 16 to 1,024 bytes, a power of two (RFC 7959, 2.2).
#[derive(Clone, Copy, Debug, PartialEq, Eq)]
pub enum BlockSize {
    /// 16 bytes, written as the size exponent 0.
    Bytes16,
    /// 32 bytes, written as 1.
    Bytes32,
    /// 64 bytes, written as 2.
    Bytes64,
    /// 128 bytes, written as 3.
    Bytes128,
    /// 256 bytes, written as 4.
    Bytes256,
    /// 512 bytes, written as 5.
    Bytes512,
    /// 1,024 bytes, written as 6.
    Bytes1024,
}

impl BlockSize {
    /// Returns the number of bytes.
    #[must_use]
    pub fn bytes(self) -> usize
        ensures value { result ≡ size_of self }
        ensures least { 16 ≤ result }
        ensures most { result ≤ 1024 }
    {
        match self {
            BlockSize::Bytes16 => 16,
            BlockSize::Bytes32 => 32,
            BlockSize::Bytes64 => 64,
            BlockSize::Bytes128 => 128,
            BlockSize::Bytes256 => 256,
            BlockSize::Bytes512 => 512,
            BlockSize::Bytes1024 => 1024,
        }
    }

    /// Returns the size exponent, SZX (RFC 7959, 2.2).
    #[must_use]
    pub fn exponent(self) -> u32
        ensures value { result ≡ size_exponent self }
        ensures most { result ≤ 6 }
    {
        match self {
            BlockSize::Bytes16 => 0,
            BlockSize::Bytes32 => 1,
            BlockSize::Bytes64 => 2,
            BlockSize::Bytes128 => 3,
            BlockSize::Bytes256 => 4,
            BlockSize::Bytes512 => 5,
            BlockSize::Bytes1024 => 6,
        }
    }

    /// Returns the size with this size exponent. Returns `None` from 7 up: 7 is reserved (RFC 7959, 2.2).
    #[must_use]
    pub fn from_exponent(exponent: u32) -> Option<BlockSize>
        ensures made { IfSome result (λ size. size_exponent size ≡ exponent) }
        ensures accepted { IsSome result → exponent ≤ 6 }
        ensures refused { IfNone result (6 < exponent) }
    {
        match exponent {
            0 => Some(BlockSize::Bytes16),
            1 => Some(BlockSize::Bytes32),
            2 => Some(BlockSize::Bytes64),
            3 => Some(BlockSize::Bytes128),
            4 => Some(BlockSize::Bytes256),
            5 => Some(BlockSize::Bytes512),
            6 => Some(BlockSize::Bytes1024),
            _ => None,
        }
    }
}
