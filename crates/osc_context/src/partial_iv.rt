//! The Partial IV (RFC 8613, 5): the number of a message, high byte first, with no leading zero byte.

ghost use Rattle.std.specs.Prelude.{◌≡◌, ◌-◌, ◌+◌, ◌^◌, ◌<◌, ◌≤◌, length, drop, IsSome, IfSome, IfNone};
ghost use Rattle.arrayvec.specs.ArrayVec.{array_vec_len};
ghost use Rattle.osc_context.specs.PartialIv.{last_bytes, partial_iv_of, spelled_number, IsShortest};

use arrayvec::ArrayVec;

/// The first number that no Partial IV holds.
pub(crate) const NUMBER_LIMIT: u64 = 1 << 40;

/// The number of a Partial IV, below 2^40. A caller that seals under one must keep it fresh. `<` compares the numbers.
#[derive(Clone, Copy, Debug, PartialEq, Eq, PartialOrd, Ord)]
pub struct Piv {
    number: u64,
    pub ghost in_range: { number < 2 ^ 40 },
}

impl Piv {
    ghost use Rattle.osc_context.specs.Views.{number_of};

    /// The Partial IV of the largest number, 2^40 - 1 (RFC 8613, 5).
    pub const MAX: Piv = Piv {
        number: NUMBER_LIMIT - 1,
    };

    /// Makes the Partial IV of this number. Returns `None` from 2^40 up, which 5 bytes can't spell (RFC 8613, 5).
    #[must_use]
    pub fn new(number: u64) -> Option<Piv>
        ensures made { IfSome result (λ piv. number_of piv ≡ number) }
        ensures accepted { IsSome result → number < 2 ^ 40 }
        ensures refused { IfNone result (2 ^ 40 ≤ number) }
    {
        if number < NUMBER_LIMIT {
            Some(Piv { number })
        } else {
            None
        }
    }

    /// Returns the Partial IV of the number after this one, or `None` after the largest. A sender counts with it
    /// (RFC 8613, 5 and 7.2.1).
    #[must_use]
    pub fn next(self) -> Option<Piv>
        ensures made { IfSome result (λ piv. number_of piv ≡ number_of self + 1) }
        ensures accepted { IsSome result → number_of self < 2 ^ 40 - 1 }
        ensures refused { IfNone result (number_of self ≡ 2 ^ 40 - 1) }
    {
        if self < Piv::MAX {
            Some(Piv {
                number: self.number + 1,
            })
        } else {
            None
        }
    }

    /// Makes the Partial IV of the number that up to 5 bytes spell, high byte first.
    pub(crate) fn of_bytes(bytes: &[u8]) -> Piv
        requires { length bytes.now ≤ 5 }
        ensures { number_of result ≡ spelled_number bytes.now }
    {
        let mut number = 0u64;
        for byte in bytes {
            number = number * 256 + u64::from(*byte);
        }
        Piv { number }
    }

    /// Returns the number, as a sender counts it.
    #[must_use]
    pub fn number(self) -> u64
        ensures value { result ≡ number_of self }
        ensures in_range { result < 2 ^ 40 }
    {
        self.number
    }

    /// Returns the Partial IV as it appears in a message: high byte first, with no leading zero byte, and 0 as one byte
    /// (RFC 8613, 5).
    #[must_use]
    pub fn bytes(self) -> ArrayVec<u8, 5>
        ensures value { result.items ≡ partial_iv_of (number_of self) }
        ensures shortest { IsShortest result.items (number_of self) }
        ensures least { 0 < array_vec_len result }
        ensures most { array_vec_len result ≤ 5 }
    {
        let all = all_bytes(self.number);
        let skipped = 5 - byte_len(self.number);
        let mut bytes = ArrayVec::new();
        bytes.try_extend_from_slice(&all[skipped..]).unwrap();
        bytes
    }
}

/// Returns how many bytes the number takes without leading zeros.
#[tactic(auto, unfolding(crate::specs::PartialIv::partial_iv_of))]
pub(crate) fn byte_len(number: u64) -> usize
    requires { number < 2 ^ 40 }
    ensures bytes { drop (5 - result) (last_bytes 5 number) ≡ partial_iv_of number }
    ensures value { result ≡ length (partial_iv_of number) }
    ensures most { result ≤ 5 }
    ensures least { 0 < result }
{
    if number < 1 << 8 {
        1
    } else if number < 1 << 16 {
        2
    } else if number < 1 << 24 {
        3
    } else if number < 1 << 32 {
        4
    } else {
        5
    }
}

/// Returns the last 5 bytes of the number, high byte first.
fn all_bytes(number: u64) -> [u8; 5]
    ensures { result ≡ last_bytes 5 number }
{
    [
        (number / 0x1_0000_0000 % 0x100) as u8,
        (number / 0x100_0000 % 0x100) as u8,
        (number / 0x1_0000 % 0x100) as u8,
        (number / 0x100 % 0x100) as u8,
        (number % 0x100) as u8,
    ]
}
