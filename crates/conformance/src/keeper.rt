//! A keeper in memory, whose calls end as a row says.

ghost use Rattle.std.specs.Prelude.{◌≡◌, ◌≤◌};

use crate::answer::Answer;
use osc_context::{Count, Keeper, KeeperError};
use std::alloc::Global;

/// How a call of a keeper ends.
#[derive(Clone, Copy, PartialEq, Eq)]
pub(crate) enum End {
    Works,
    /// The call fails, and what was kept stays.
    Fails,
    /// The call is stopped. A save has kept its number by then.
    Stops,
}

/// Returns how the next call ends. Each call takes a letter of the plan: `f` fails, `s` stops, and any other letter works, as all calls
/// after the last letter do.
pub(crate) fn next_end(plan: &mut &[u8]) -> End {
    let Some((letter, rest)) = plan.split_first() else {
        return End::Works;
    };
    *plan = rest;
    match *letter {
        b'f' => End::Fails,
        b's' => End::Stops,
        _ => End::Works,
    }
}

/// A keeper in memory, how its calls end, and the numbers that it was asked to save.
#[derive(Drop)]
pub(crate) struct Memory<'t> {
    kept: u64,
    // The last number whose save returned `Ok`.
    pub(crate) saved: u64,
    // A letter for each call.
    plan: &'t [u8],
    saves: Vec<u64>,
    /// The name of the file whose keeper the command asked for.
    file: Option<String>,
    failures: Count,
    ghost least: { saved ≤ kept },
}

impl<'t> Memory<'t> {
    pub(crate) fn new(alloc: Global, kept: u64, plan: &'t str) -> Memory<'t> {
        Memory {
            kept,
            saved: 0,
            plan: plan.as_bytes(),
            saves: Vec::new(alloc),
            file: None,
            failures: Count::none(),
        }
    }

    /// Notes the number that is to be saved, and returns how the save ends.
    fn note(&mut self, next: u64) -> End
        ensures saved { self.new.saved ≡ self.old.saved }
        ensures kept { self.new.kept ≡ self.old.kept }
        ensures failures { self.new.failures ≡ self.old.failures }
    {
        let end = next_end(&mut self.plan);
        if self.saves.push(next).is_err() {
            return End::Fails;
        }
        end
    }

    /// Shows the name of the file, or `none` if no keeper was asked for.
    pub(crate) fn show_file(&self, answer: &mut Answer) {
        answer.word("file");
        answer.word(self.file.as_deref().unwrap_or("none"));
    }

    /// Shows the numbers that the keeper was asked to save, in order.
    pub(crate) fn show(&self, answer: &mut Answer) {
        answer.word("saves");
        for number in &self.saves {
            answer.print(*number);
        }
    }
}

impl<'t> Keeper for Memory<'t> {
    ghost floor = { λ k. k.saved };

    ghost failures = { λ k. k.failures.value };

    ghost loads = { λ old n new. n ≡ old.kept };

    fn load(&mut self) -> Result<u64, KeeperError> {
        if next_end(&mut self.plan) == End::Works {
            return Ok(self.kept);
        }
        self.failures = Count::one_more(&self.failures);
        Err(KeeperError)
    }

    fn save(&mut self, next: u64) -> Result<(), KeeperError> {
        let end = self.note(next);
        if end != End::Fails {
            self.kept = next;
        }
        if end == End::Works {
            self.saved = next;
            return Ok(());
        }
        self.failures = Count::one_more(&self.failures);
        Err(KeeperError)
    }
}

/// The keeper of a row, lent to a call of the command. The call drops what it gets.
#[derive(Drop)]
pub(crate) struct Lent<'m, 't> {
    keeper: &'m mut Memory<'t>,
}

impl<'m, 't> Lent<'m, 't> {
    pub(crate) fn new(keeper: &'m mut Memory<'t>) -> Lent<'m, 't> {
        Lent { keeper }
    }

    /// Returns this as the keeper of a file.
    pub(crate) fn of_file(self, alloc: Global, name: &str) -> Lent<'m, 't> {
        self.keeper.file = String::from_str(alloc, name).ok();
        self
    }
}

impl<'m, 't> Keeper for Lent<'m, 't> {
    ghost floor = { λ k. k.keeper.now.saved };

    ghost failures = { λ k. k.keeper.now.failures.value };

    ghost loads = { λ old n new. n ≡ old.keeper.now.kept };

    fn load(&mut self) -> Result<u64, KeeperError> {
        self.keeper.load()
    }

    fn save(&mut self, next: u64) -> Result<(), KeeperError> {
        self.keeper.save(next)
    }
}
