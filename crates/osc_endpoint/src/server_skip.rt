//! Sender Sequence Numbers that another end of the same Sender Key has (RFC 8613, 3.1 and 7.2.1).

ghost use Rattle.std.specs.Prelude.{◌≡◌, ◌<◌, ℕ, Option, Result, Err, OnErr};
ghost use Rattle.std.specs.Option.{option_map};
ghost use Rattle.osc_endpoint.specs.Agrees.{TableAgrees};
ghost use Rattle.osc_endpoint.specs.Restarting.{skip_marks};
ghost use Rattle.osc_life.specs.Life.{Life, marked};
ghost use Rattle.osc_life.specs.LifeAnswer.{LifeSkip};
ghost use Rattle.osc_life.specs.Views.{skipped_entry};
ghost use Rattle.osc_life.specs.declared.server_error.SkipError.TheVariants.{NoSuchContext};

use crate::server::ServerOf;
use osc_life::SkipError;
use osc_life::siblings::{Slot, skip_place};

/// Passes over Sender Sequence Numbers of the context at an index.
fn skip_at(slots: &mut [Option<Slot>], context: usize, count: u64) -> Result<(), SkipError>
    ensures answer { (lives : ℕ → Option Life) → TableAgrees slots.old lives
        → LifeSkip (lives context) count (skipped_entry result) }
    ensures agrees { (lives : ℕ → Option Life) → TableAgrees slots.old lives
        → TableAgrees slots.new (λ i. option_map (marked (skip_marks result i context count)) (lives i)) }
    ensures same { OnErr result (slots.new ≡ slots.old) }
{
    if context >= slots.len() {
        return Err(SkipError::NoSuchContext);
    }
    skip_place(&mut slots[context], count)
}

impl<const N: usize> ServerOf<N> {
    ghost use Rattle.osc_endpoint.specs.Agrees.{Agrees};
    ghost use Rattle.osc_endpoint.specs.ServerAnswer.{ServerAnswer};
    ghost use Rattle.osc_life.specs.ServerHistory.{History, Then, Skip};

    /// Passes over the next `count` Sender Sequence Numbers of a context: another end of the same Sender Key has used them, as a client that
    /// shares the context, and this server never will. Returns the first refusal in the order of `SkipError`. A refusal changes nothing.
    pub fn skip(&mut self, context: usize, count: u64) -> Result<(), SkipError>
        ensures answered { (h : History) → Agrees self.old h → ServerAnswer h (Skip context count) (skipped_entry result) }
        ensures follows { (h : History) → Agrees self.old h → Agrees self.new (Then h (Skip context count) (skipped_entry result)) }
        ensures unchanged { OnErr result (self.new ≡ self.old) }
    {
        skip_at(self.slots.as_mut_slice(), context, count)
    }
}
