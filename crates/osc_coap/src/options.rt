//! The options of a message, one after the other.

ghost use Rattle.std.specs.Prelude.{◌≡◌, ◌<◌, [], ◌∷◌, IfNone, IfSome};
ghost use Rattle.std.specs.Option.{option_copied};
ghost use Rattle.osc_coap.specs.Interpreted.{interpreted};
ghost use Rattle.osc_coap.specs.Reading.{option_at, Gives, AreOptions, options_in};
ghost use Rattle.osc_coap.specs.Seen.{seen_item};
ghost use Rattle.osc_coap.specs.Search.{first_of, values_at};

use crate::format_error::Fault;
use crate::interpreted::is_valid_length;
use crate::option_header::{RESERVED_NIBBLE, pieces_of};

/// The largest number of an option. Own rule: what two bytes can hold.
const LARGEST_NUMBER: u32 = 65_535;

/// An option, and the bytes after it.
#[derive(Clone, Copy)]
pub(crate) struct Item<'a> {
    pub(crate) number: u16,
    pub(crate) value: &'a [u8],
    pub(crate) rest: &'a [u8],
}

/// Reads the option at the front of the bytes, which comes after one with the number `after`. Returns the option or its
/// fault.
#[tactic(auto, unfolding(crate::specs::Reading::option_at, crate::specs::Reading::numbered))]
pub(crate) fn take_option(after: u16, bytes: &[u8]) -> Result<Item<'_>, Fault>
    ensures { Gives seen_item result (option_at after bytes.now) }
{
    let [first, rest @ ..] = bytes else {
        return Err(Fault::OptionCut);
    };
    let delta_nibble = *first / 16;
    let length_nibble = *first % 16;
    if delta_nibble == RESERVED_NIBBLE || length_nibble == RESERVED_NIBBLE {
        return Err(Fault::Nibble15);
    }
    let Some(pieces) = pieces_of(delta_nibble, length_nibble, rest) else {
        return Err(Fault::OptionCut);
    };
    // The number is the sum of the deltas so far (RFC 7252, 3.1).
    let number = u32::from(after) + pieces.delta;
    if number > LARGEST_NUMBER {
        return Err(Fault::NumberTooLarge);
    }
    Ok(Item {
        number: number as u16,
        value: pieces.value,
        rest: pieces.rest,
    })
}

/// Returns the first of the options that the bytes spell, or `None` if they spell none.
fn first_item(after: u16, bytes: &[u8]) -> Option<Item<'_>>
    requires { AreOptions after bytes.now }
    ensures none { IfNone result (options_in after bytes.now ≡ []) }
    ensures first { IfSome result (λ item. options_in after bytes.now
        ≡ (item.number, item.value.now) ∷ options_in item.number item.rest.now) }
    ensures spelled { IfSome result (λ item. AreOptions item.number item.rest.now) }
{
    if bytes.is_empty() {
        return None;
    }
    match take_option(after, bytes) {
        Ok(item) => Some(item),
        Err(_) => unreachable!(),
    }
}

/// The options of a message or of a plaintext, in ascending order of number, each as its number and its value. They
/// were found to be well formed when the message was read.
#[derive(Clone, Copy, Debug)]
pub struct Options<'a> {
    number: u16,
    rest: &'a [u8],
    ghost spelled: { AreOptions number rest.now },
}

impl<'a> Options<'a> {
    ghost use Rattle.osc_coap.specs.Views.{options_left};

    /// Makes the iterator over the options that the bytes spell.
    pub(crate) fn new(bytes: &'a [u8]) -> Options<'a>
        requires { AreOptions 0 bytes.now }
        ensures { options_left result ≡ options_in 0 bytes.entry.now }
    {
        Options {
            number: 0,
            rest: bytes,
        }
    }

    /// Returns the value of the first option with this number, among those that the iterator still has to give
    /// (RFC 7252, 3.1). It doesn't advance the iterator, and the value lies in the bytes that were read.
    #[must_use]
    pub fn first(&self, number: u16) -> Option<&'a [u8]>
        ensures { option_copied result ≡ first_of (values_at number (options_left self.now)) }
    {
        for (found, value) in *self {
            if found == number {
                return Some(value);
            }
        }
        None
    }

    /// Returns the value of the option with this number as an end interprets it: that of the first, if it has a length that the option may
    /// have. Another value, and further options with the number, are as if the option weren't known (RFC 7252, 5.4.3 and 5.4.5): Observe,
    /// Block2 and Block1 have at most 3 bytes, and Echo has 1 to 40.
    #[must_use]
    pub fn interpreted(&self, number: u16) -> Option<&'a [u8]>
        ensures { option_copied result ≡ interpreted number (options_left self.now) }
    {
        match self.first(number) {
            Some(value) if is_valid_length(number, value.len()) => Some(value),
            _ => None,
        }
    }
}

impl<'a> Iterator for Options<'a> {
    ghost use Rattle.std.specs.Iterator.{YieldsFirstBy, item_count};
    ghost use Rattle.osc_coap.specs.Views.{options_left, seen_option};

    type Item = (u16, &'a [u8]);

    ghost next_gives = { YieldsFirstBy seen_option options_left };

    ghost remaining = { item_count options_left };

    fn next(&mut self) -> Option<(u16, &'a [u8])> {
        let item = first_item(self.number, self.rest)?;
        self.number = item.number;
        self.rest = item.rest;
        Some((item.number, item.value))
    }
}
