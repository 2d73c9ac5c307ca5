//! A keeper in memory, one of whose calls fails or is stopped.

ghost use Rattle.std.specs.Prelude.{◌≡◌, ◌≤◌};

use osc_context::{Count, Keeper, KeeperError};
use std::cell::Cell;

/// How a call of a keeper goes wrong.
#[derive(Clone, Copy, Debug)]
pub enum Wrong {
    /// The call fails, and what was kept stays.
    Fails,
    /// The program is stopped within the call. A save has kept its number by then.
    Stops,
}

/// What is seen of a keeper from outside, while an end has it.
#[derive(Drop)]
pub struct Watch {
    pub calls: Cell<u64>,
    /// The program was stopped in a call, and hasn't been started again yet.
    pub is_stopped: Cell<bool>,
}

impl Watch {
    /// Makes the watch of a keeper that wasn't called yet.
    pub fn new() -> Watch {
        Watch {
            calls: Cell::new(0),
            is_stopped: Cell::new(false),
        }
    }
}

#[derive(Drop)]
pub struct Memory<'a> {
    kept: u64,
    // The last number whose save returned `Ok`.
    saved: u64,
    /// The call that goes wrong, counted from 0, and how.
    wrong: Option<(u64, Wrong)>,
    watch: &'a Watch,
    failures: Count,
    ghost least: { saved ≤ kept },
}

impl<'a> Memory<'a> {
    /// Makes a keeper that keeps 0.
    pub fn new(watch: &'a Watch, wrong: Option<(u64, Wrong)>) -> Memory<'a> {
        Memory {
            kept: 0,
            saved: 0,
            wrong,
            watch,
            failures: Count::none(),
        }
    }

    /// Notes that the program is started again.
    pub fn start(&self) {
        self.watch.is_stopped.set(false);
    }

    /// Counts a call, and returns how it goes wrong, if it does.
    fn next_call(&self) -> Option<Wrong> {
        let call = self.watch.calls.get();
        self.watch.calls.set(call.wrapping_add(1));
        match self.wrong {
            Some((wrong_call, wrong)) if wrong_call == call => {
                self.watch.is_stopped.set(matches!(wrong, Wrong::Stops));
                Some(wrong)
            }
            _ => None,
        }
    }
}

impl Keeper for Memory<'_> {
    ghost floor = { λ k. k.saved };

    ghost failures = { λ k. k.failures.value };

    ghost loads = { λ old n new. n ≡ old.kept };

    fn load(&mut self) -> Result<u64, KeeperError> {
        if self.next_call().is_none() {
            return Ok(self.kept);
        }
        self.failures = Count::one_more(&self.failures);
        Err(KeeperError)
    }

    fn save(&mut self, next: u64) -> Result<(), KeeperError> {
        let wrong = self.next_call();
        match wrong {
            None => {
                self.kept = next;
                self.saved = next;
                return Ok(());
            }
            Some(Wrong::Stops) => self.kept = next,
            Some(Wrong::Fails) => {}
        }
        self.failures = Count::one_more(&self.failures);
        Err(KeeperError)
    }
}
