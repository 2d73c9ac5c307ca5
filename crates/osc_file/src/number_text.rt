//! The text of a number: its decimal digits and a newline (own rule).

ghost use Rattle.std.specs.Prelude.{◌≡◌, ℕ, ◌<◌, ◌^◌, Some, IfOk, IfSome, string_bytes};
ghost use Rattle.osc_file.specs.NumberText.{Spells};

use std::alloc::{AllocError, Allocator};

/// Reads a number below 2^64 from its text. Leading zeros are allowed.
pub(crate) fn parse(text: &str) -> Option<u64>
    ensures accepted { IfSome result (λ n. Spells n text.now) }
    ensures accepts { (n : ℕ) → n < 2 ^ 64 → Spells n text.now → result ≡ Some n }
{
    let digits = text.strip_suffix('\n')?;
    // `str::parse` accepts a plus before the digits, and a plus isn't a digit.
    if digits.starts_with('+') {
        return None;
    }
    digits.parse().ok()
}

/// Writes a number's text.
#[tactic(auto, using(crate::proofs::NumberTexts::decimal_spells))]
pub(crate) fn spell<A: Allocator>(alloc: A, number: u64) -> Result<String<A>, AllocError>
    ensures { IfOk result (λ text. Spells number (string_bytes text)) }
{
    format!(in alloc; "{number}\n")
}
