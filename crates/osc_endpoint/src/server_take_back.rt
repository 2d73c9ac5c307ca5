//! A delivery that is taken back, since its number couldn't be kept (RFC 8613, 7.4 and 7.5).

ghost use Rattle.std.specs.Prelude.{◌≡◌, ℕ, List, Option, Some};
ghost use Rattle.std.specs.Option.{option_map};
ghost use Rattle.osc_endpoint.specs.Agrees.{TableAgrees};
ghost use Rattle.osc_endpoint.specs.Restarting.{delivery_mark_at};
ghost use Rattle.osc_life.specs.Agrees.{GateAgrees, HasGate};
ghost use Rattle.osc_life.specs.Life.{Life, marked};

use crate::server::ServerOf;
use osc_life::siblings::{Slot, gate_of_place, take_back_place};
use osc_window::Gate;

/// Returns the gate of the context at an index.
fn gate_at(slots: &[Option<Slot>], context: usize) -> Option<Gate>
    ensures { (lives : ℕ → Option Life) (l : Life) → TableAgrees slots.now lives → lives context ≡ Some l → HasGate result l }
{
    if context < slots.len() {
        gate_of_place(&slots[context])
    } else {
        None
    }
}

/// Takes back a delivery: the context at an index has the gate again that it had before.
fn take_back_at(slots: &mut [Option<Slot>], context: usize, gate: Gate)
    ensures { (lives : ℕ → Option Life) (l : Life) (n : ℕ) → lives context ≡ Some l → GateAgrees gate l
        → TableAgrees slots.old (λ i. option_map (marked (delivery_mark_at i context n)) (lives i)) → TableAgrees slots.new lives }
{
    if context < slots.len() {
        take_back_place(&mut slots[context], gate);
    }
}

impl<const N: usize> ServerOf<N> {
    ghost use Rattle.osc_endpoint.specs.Agrees.{Agrees, OneEach};
    ghost use Rattle.osc_life.specs.ServerHistory.{History, Then, Advance, Advanced, Datagram, Deliver, TicketValues, Took, life};
    ghost use Rattle.osc_observe.specs.Received.{Received};

    /// Returns the gate of the context at an index, for a caller that may have to take back a delivery.
    #[doc(hidden)]
    #[must_use]
    pub fn gate(&self, context: usize) -> Option<Gate>
        ensures { (h : History) (l : Life) → Agrees self.now h → life h context ≡ Some l → HasGate result l }
    {
        gate_at(self.slots.as_slice(), context)
    }

    /// Takes back the delivery that `decide` just answered, before anything came of it: the context at its index has the gate again that
    /// it had before, so that the same request is judged as if it had never come.
    #[doc(hidden)]
    pub fn take_back(&mut self, context: usize, gate: Gate)
        ensures { (h : History) (now mid : ℕ) (echo d reply : List ℕ) (received : Received) (ticket : TicketValues) (l : Life)
            → OneEach h → life h ticket.context ≡ Some l → GateAgrees gate l → ticket.context ≡ context
            → Agrees self.old (Then h (Datagram now echo mid d) (Took (Deliver received ticket) reply)) → Agrees self.new (Then h (Advance now) Advanced) }
    {
        take_back_at(self.slots.as_mut_slice(), context, gate);
    }
}
