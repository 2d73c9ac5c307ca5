//! One context of a server, in its present life.

ghost use Rattle.std.specs.Prelude.{◌≡◌, ◌≤◌, ◌<◌, ◌+◌, ◌^◌, Some, None, OnErr, true, false};
ghost use Rattle.osc_context.specs.Views.{number_of};
ghost use Rattle.osc_window.specs.Views.{is_open as is_open_gate};
ghost use Rattle.osc_protect.specs.Views.{message_of};

use crate::doubt::{Doubt, is_beyond};
use crate::echo::carries;
use crate::server_error::SkipError;
use osc_context::Piv;
use osc_protect::{KeyedContext, Opened};
use osc_window::{Gate, WindowSize};

/// The first number that can't be a Sender Sequence Number (RFC 8613, 7.2.1).
const OWN_LIMIT: u64 = 1 << 40;

/// One context of a server, in its present life.
#[derive(Drop)]
pub struct Slot {
    pub size: WindowSize,
    pub gate: Gate,
    // The numbers that are in doubt while the gate is closed.
    pub doubt: Option<Doubt>,
    // The next Sender Sequence Number, or the limit if none is left.
    pub next: u64,
    // How often a new life began in this place: the context was restarted, or replaced.
    pub life: u64,
    pub context: KeyedContext,
    pub ghost in_range: { next ≤ 2 ^ 40 },
}

impl Slot {
    ghost use Rattle.osc_life.specs.Agrees.{SlotAgrees};
    ghost use Rattle.osc_life.specs.Doubting.{OpensBy, StaysBy};
    ghost use Rattle.osc_life.specs.Judging.{GatePasses};
    ghost use Rattle.osc_life.specs.Life.{Life, Spoiled, Delivered, Challenged, Carries, is_open, in_force, marked};
    ghost use Rattle.osc_life.specs.LifeAnswer.{LifeSkip, challenge_given};
    ghost use Rattle.osc_life.specs.Restarting.{skip_mark};
    ghost use Rattle.osc_life.specs.Views.{skipped_entry};

    /// Spends a number if the gate is open.
    pub(crate) fn spoil(&mut self, number: Piv)
        requires { GatePasses self.old.gate self.old.doubt (number_of number) }
        ensures context { self.new.context ≡ self.old.context }
        ensures doubt { self.new.doubt ≡ self.old.doubt }
        ensures kept { (l : Life) → SlotAgrees self.old l → SlotAgrees self.new (marked (Some (Spoiled (number_of number))) l) }
    {
        match &mut self.gate {
            Gate::Open(window) => window.mark(number),
            Gate::Restarted { .. } => {}
        }
    }

    /// Spends a number, or opens the gate with it.
    pub(crate) fn deliver(&mut self, number: Piv)
        requires { GatePasses self.old.gate self.old.doubt (number_of number) }
        ensures context { self.new.context ≡ self.old.context }
        ensures doubt { self.new.doubt ≡ self.old.doubt }
        ensures life { self.new.life ≡ self.old.life }
        ensures kept { (l : Life) → SlotAgrees self.old l → SlotAgrees self.new (marked (Some (Delivered (number_of number))) l) }
    {
        match &mut self.gate {
            Gate::Open(window) => window.mark(number),
            Gate::Restarted { .. } => self.gate.open_at(number, self.size),
        }
    }

    /// Returns whether the gate is open, or the request's number is above those in doubt, or the request carries the challenge in force.
    pub(crate) fn admits(&self, clock: u64, number: Piv, opened: &Opened<'_>) -> bool
        ensures yes { result ≡ true → (l : Life) → SlotAgrees self.now l → is_open l ≡ false
            → OpensBy l.doubt (number_of number) (Carries (in_force l clock) (message_of opened.now)) }
        ensures no { result ≡ false → (l : Life) → SlotAgrees self.now l → (is_open l ≡ false)
            × StaysBy l.doubt (number_of number) (Carries (in_force l clock) (message_of opened.now)) }
        ensures closed { result ≡ false → is_open_gate self.now.gate ≡ false }
    {
        if self.gate.is_open() || is_beyond(self.doubt, number) {
            return true;
        }
        match self.gate.in_force(clock) {
            Some(challenge) => {
                let echo = challenge.0;
                carries(&opened.inner(), &echo)
            }
            None => false,
        }
    }

    /// Returns the challenge in force once more, or else the fresh value, issued now.
    pub(crate) fn challenge(&mut self, clock: u64, fresh: [u8; 8]) -> ([u8; 8], u64)
        requires closed { is_open_gate self.old.gate ≡ false }
        requires left { self.old.next < 2 ^ 40 }
        ensures context { self.new.context ≡ self.old.context }
        ensures doubt { self.new.doubt ≡ self.old.doubt }
        ensures given { (l : Life) → SlotAgrees self.old l → (result.0, result.1) ≡ challenge_given l clock fresh }
        ensures kept { (l : Life) → SlotAgrees self.old l
            → SlotAgrees self.new (marked (Some (Challenged result.0 result.1)) l) }
    {
        self.next += 1;
        match self.gate.in_force(clock) {
            Some(challenge) => challenge,
            None => {
                self.gate.issue(fresh, clock);
                (fresh, clock)
            }
        }
    }

    /// Passes over so many Sender Sequence Numbers.
    pub(crate) fn skip(&mut self, count: u64) -> Result<(), SkipError>
        ensures answered { (l : Life) → SlotAgrees self.old l → LifeSkip (Some l) count (skipped_entry result) }
        ensures kept { (l : Life) → SlotAgrees self.old l → SlotAgrees self.new (marked (skip_mark result count) l) }
        ensures same { OnErr result (self.new ≡ self.old) }
    {
        if count > OWN_LIMIT - self.next {
            return Err(SkipError::TooFewLeft);
        }
        self.next += count;
        Ok(())
    }
}
