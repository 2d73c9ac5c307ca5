//! Reads bytes from a word of hex.

ghost use Rattle.std.specs.Prelude.{◌≡◌, IfErr, IfOk};
ghost use Rattle.osc_text.specs.Hex.{SpellsBytes};
ghost use Rattle.std.specs.List.{position};
ghost use Rattle.osc_text.specs.HexFaults.{is_no_digit, IsWhyNotHex};

use hex::FromHexError;
use std::alloc::Global;

/// Why a word gave no bytes.
#[derive(Clone, Copy, Debug, PartialEq, Eq)]
pub enum HexError {
    /// The byte of the word at this place, counted from 0, isn't a hex digit. All bytes before it are.
    NotDigit { place: usize },
    /// The word is an odd number of hex digits.
    OddLength,
    /// An allocation was refused.
    Memory,
}

/// Reads the bytes that a word spells: two hex digits for each byte, the high one first, in either case. The empty word spells zero bytes.
/// A lone `-` is refused.
#[tactic(auto, using(crate::proofs::HexWords::spells_decodes))]
pub fn read_hex(alloc: Global, word: &str) -> Result<Vec<u8>, HexError>
    ensures spelled { IfOk result (λ bytes. SpellsBytes word.now bytes.items) }
    ensures refused { IfErr result (λ error. IsWhyNotHex word.now error) }
{
    match hex::decode(alloc, word) {
        Ok(bytes) => Ok(bytes),
        Err(FromHexError::OutOfMemory) => Err(HexError::Memory),
        Err(_) => match first_no_digit(word) {
            Some(place) => Err(HexError::NotDigit { place }),
            None => Err(HexError::OddLength),
        },
    }
}

/// Returns the place of the first byte of a word that isn't a hex digit.
fn first_no_digit(word: &str) -> Option<usize>
    ensures { result ≡ position is_no_digit word.now }
{
    word.as_bytes()
        .iter()
        .position(|byte| !byte.is_ascii_hexdigit())
}
