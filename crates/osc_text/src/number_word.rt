//! Reads a number from a word of decimal digits.

ghost use Rattle.std.specs.Prelude.{◌≡◌, ◌<◌, ◌^◌, get_or};
ghost use Rattle.std.specs.Option.{SomeIff, option_map};
ghost use Rattle.osc_context.specs.Views.{number_of};
ghost use Rattle.osc_text.specs.Numbers.{IsDigitWord, number_said};

use osc_context::Piv;

/// Returns the first of some bytes, or 0 if there are none.
fn first_byte(bytes: &[u8]) -> u8
    ensures { result ≡ get_or bytes.now 0 0 }
{
    if bytes.is_empty() {
        return 0;
    }
    bytes[0]
}

/// Reads the number below 2^64 that a word of decimal digits says. Leading zeros are allowed, and a sign isn't.
#[must_use]
pub fn read_decimal(word: &str) -> Option<u64>
    ensures { SomeIff result (IsDigitWord word.now × (number_said word.now < 2 ^ 64)) (number_said word.now) }
{
    // The number parser of std accepts a leading plus.
    if first_byte(word.as_bytes()) == b'+' {
        return None;
    }
    match word.parse::<u64>() {
        Ok(number) => Some(number),
        Err(_) => None,
    }
}

/// Reads the number that a word says, if the word is one or more decimal digits and nothing else, and the number is below 2^40. Leading
/// zeros are allowed, and a sign isn't.
#[must_use]
pub fn read_number(word: &str) -> Option<Piv>
    ensures { SomeIff (option_map number_of result) (IsDigitWord word.now × (number_said word.now < 2 ^ 40)) (number_said word.now) }
{
    match read_decimal(word) {
        Some(number) => Piv::new(number),
        None => None,
    }
}
