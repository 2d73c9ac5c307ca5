//! How many bytes options take, known before a byte is written (RFC 7252, 3.1).

ghost use Rattle.std.specs.Prelude.{◌≡◌, ◌≤◌, ◌+◌, ◌∷◌, ◌++◌, List, ℕ, length, min, true, false, IfOk, IfErr};
ghost use Rattle.osc_coap.specs.OptionSpelling.{Entry, spelling_length};
ghost use Rattle.osc_coap.specs.Views.{options_left};
ghost use Rattle.osc_proxy.specs.Splitting.{between, part_options, parts_fit};
ghost use Rattle.osc_proxy.specs.UriViews.{parts_left};

use crate::parts::Components;
use crate::percent::{PartTooLong, percent_decoded};
use osc_coap::{MOST_DATAGRAM, Options, option_len};

/// One more than the most bytes of a datagram.
const BEYOND: usize = MOST_DATAGRAM + 1;

/// The number of the last option, and how many bytes the options take, or 65,536 where they are more than a datagram can have.
#[derive(Clone, Copy)]
pub(crate) struct Tally {
    number: u16,
    len: usize,
}

impl Tally {
    /// Counts no option.
    pub(crate) fn new() -> Tally
        ensures { (result.number ≡ 0) × (result.len ≡ 0) }
    {
        Tally { number: 0, len: 0 }
    }

    /// Returns how many bytes the options take.
    pub(crate) fn len(self) -> usize
        ensures { result ≡ self.len }
    {
        self.len
    }

    /// Counts one option more.
    pub(crate) fn and(self, number: u16, value_len: usize) -> Tally
        requires { self.len ≤ 65536 }
        ensures fits { result.len ≤ 65536 }
        ensures counted { (value : List ℕ) (rest : List Entry) → length value ≡ value_len
            → min (result.len + spelling_length result.number rest) 65536 ≡ min (self.len + spelling_length self.number ((number, value) ∷ rest)) 65536 }
    {
        let delta = number.saturating_sub(self.number);
        let value_len = value_len.min(MOST_DATAGRAM) as u16;
        let len = (self.len + option_len(delta, value_len)).min(BEYOND);
        Tally { number, len }
    }

    /// Counts the options with numbers in this range, both ends in it.
    pub(crate) fn and_between(self, options: Options<'_>, least: u16, most: u16) -> Tally
        requires { self.len ≤ 65536 }
        ensures fits { result.len ≤ 65536 }
        ensures counted { (rest : List Entry)
            → min (result.len + spelling_length result.number rest) 65536
            ≡ min (self.len + spelling_length self.number (between least most (options_left options.entry) ++ rest)) 65536 }
    {
        let mut tally = self;
        for (number, value) in options {
            if least <= number && number <= most {
                tally = tally.and(number, value.len());
            }
        }
        tally
    }

    /// Counts the parts, each as an option with this number.
    pub(crate) fn and_parts(self, number: u16, parts: Components<'_>) -> Result<Tally, PartTooLong>
        requires { self.len ≤ 65536 }
        ensures fits { IfOk result (λ t. t.len ≤ 65536) }
        ensures counted { IfOk result (λ t. (rest : List Entry)
            → min (t.len + spelling_length t.number rest) 65536
            ≡ min (self.len + spelling_length self.number (part_options number (parts_left parts.entry) ++ rest)) 65536) }
        ensures fine { IfOk result (λ t. parts_fit (parts_left parts.entry) ≡ true) }
        ensures refused { IfErr result (λ e. parts_fit (parts_left parts.entry) ≡ false) }
    {
        let mut tally = self;
        for part in parts {
            let value = percent_decoded(part)?;
            tally = tally.and(number, value.len());
        }
        Ok(tally)
    }
}
