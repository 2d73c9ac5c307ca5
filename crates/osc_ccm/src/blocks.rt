//! The blocks that CCM itself makes (RFC 3610, 2.2 and 2.3), and the addition of bytes to a block.

ghost use Rattle.std.specs.Prelude.{◌≡◌, ◌+◌, ◌∷◌, ◌++◌, ◌<◌, ◌≤◌, ℕ, length, min, slice_index, bit_xor};
ghost use Rattle.osc_ccm.specs.Ccm.{padded_block, two_bytes};

use crate::algorithm::{AesCcm16_64_128, Nonce};

/// The length of a tag in bytes.
pub(crate) const TAG_LEN: usize = AesCcm16_64_128::TAG_LEN;

/// The most bytes that a message can have: the largest length that L bytes can hold.
pub const MOST_PLAINTEXT: usize = 65_535;

/// The most bytes of additional data whose length is written in two bytes (RFC 3610, 2.2).
pub const MOST_AAD: usize = 65_280 - 1;

/// The first byte of B_0: 8 M' + L', where M' = (M - 2) / 2 and L' = L - 1; plus 64 if there is additional data.
pub(crate) const FLAGS: u8 = 8 * 3 + 1;

pub(crate) const FLAGS_WITH_AAD: u8 = 64 + FLAGS;

/// The first byte of A_i: L'.
pub(crate) const COUNTER_FLAGS: u8 = 1;

/// How many bytes the first block of additional data has left after the length.
const FIRST_AAD: usize = 16 - 2;

/// Makes a block of a first byte, the nonce, and a number, high byte first: the form of B_0 and of each A_i.
pub(crate) fn numbered_block(first: u8, nonce: &Nonce, number: u16) -> [u8; 16]
    ensures { result ≡ (first ∷ nonce.now) ++ two_bytes number }
{
    let [high, low] = number.to_be_bytes();
    let mut block = [first, 0, 0, 0, 0, 0, 0, 0, 0, 0, 0, 0, 0, 0, high, low];
    block[1..14].copy_from_slice(nonce);
    block
}

/// Returns the first block of some additional data, which begins with its length, and how many bytes of the data it
/// holds.
pub(crate) fn aad_block(aad: &[u8]) -> ([u8; 16], usize)
    requires { length aad.now ≤ 65279 }
    ensures block { result.0 ≡ padded_block (two_bytes (length aad.now) ++ aad.now) 0 }
    ensures taken { result.1 ≡ min (length aad.now) 14 }
{
    let taken = aad.len().min(FIRST_AAD);
    let [high, low] = (aad.len() as u16).to_be_bytes();
    let mut block = [high, low, 0, 0, 0, 0, 0, 0, 0, 0, 0, 0, 0, 0, 0, 0];
    block[2..2 + taken].copy_from_slice(&aad[..taken]);
    (block, taken)
}

/// Adds `more` to the front of `bytes`.
#[inline(always)]
pub(crate) fn xor_front(bytes: &mut [u8], more: &[u8])
    requires { length more.now ≤ length bytes.old }
    ensures { (k : ℕ) → slice_index bytes.new k ≡ bit_xor (slice_index bytes.old k) (slice_index more.now k) }
{
    for k in 0..more.len() {
        bytes[k] ^= more[k];
    }
}
