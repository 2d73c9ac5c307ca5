//! New lives of a server's contexts (RFC 8613, B.1).

ghost use Rattle.std.specs.Prelude.{◌≡◌, ◌<◌, ℕ, Option, Result, Err, OnErr};
ghost use Rattle.osc_context.specs.Views.{number_of};
ghost use Rattle.osc_endpoint.specs.Agrees.{TableAgrees};
ghost use Rattle.osc_life.specs.Life.{Life};
ghost use Rattle.osc_endpoint.specs.Restarting.{lives_after};
ghost use Rattle.osc_life.specs.LifeAnswer.{LifeRestart};
ghost use Rattle.osc_life.specs.Views.{restarted_entry};
ghost use Rattle.osc_life.specs.declared.server_error.RestartError.TheVariants.{NoSuchContext};

use crate::server::ServerOf;
use osc_context::Piv;
use osc_life::RestartError;
use osc_life::siblings::{Slot, restart_place};

/// Begins a new life of the context at an index.
fn restart_at(slots: &mut [Option<Slot>], context: usize, next: Piv) -> Result<(), RestartError>
    ensures answer { (lives : ℕ → Option Life) → TableAgrees slots.old lives
        → LifeRestart (lives context) (restarted_entry result) }
    ensures agrees { (lives : ℕ → Option Life) → TableAgrees slots.old lives
        → TableAgrees slots.new (lives_after result context (number_of next) lives) }
    ensures same { OnErr result (slots.new ≡ slots.old) }
{
    if context >= slots.len() {
        return Err(RestartError::NoSuchContext);
    }
    restart_place(&mut slots[context], next)
}

impl<const N: usize> ServerOf<N> {
    ghost use Rattle.osc_endpoint.specs.Agrees.{Agrees};
    ghost use Rattle.osc_endpoint.specs.ServerAnswer.{ServerAnswer};
    ghost use Rattle.osc_life.specs.ServerHistory.{History, Then, Restart};

    /// Begins a new life of a context: its gate is closed with no challenge, its next Sender Sequence Number is `next`, and older
    /// tickets are stale. Returns the first refusal in the order of `RestartError`. A refusal changes nothing.
    pub fn restart(&mut self, context: usize, next: Piv) -> Result<(), RestartError>
        ensures answered { (h : History) → Agrees self.old h
            → ServerAnswer h (Restart context (number_of next)) (restarted_entry result) }
        ensures follows { (h : History) → Agrees self.old h
            → Agrees self.new (Then h (Restart context (number_of next)) (restarted_entry result)) }
        ensures unchanged { OnErr result (self.new ≡ self.old) }
    {
        restart_at(self.slots.as_mut_slice(), context, next)
    }
}
