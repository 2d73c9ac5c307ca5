//! A record in memory, whose calls end as a row says.

ghost use Rattle.std.specs.Prelude.{◌≡◌, ◌≤◌};

use crate::answer::Answer;
use crate::keeper::{End, next_end};
use osc_context::{Count, KeeperError, KeptNumbers, RecordKeeper};
use std::alloc::Global;

/// A record in memory, how its calls end, and what it was asked to save.
#[derive(Drop)]
pub(crate) struct RecordMemory<'t> {
    kept: KeptNumbers,
    // What the last save kept that returned `Ok`.
    saved: KeptNumbers,
    // A letter for each call, as of `Memory`.
    plan: &'t [u8],
    saves: Vec<KeptNumbers>,
    /// The name of the file whose record the command asked for, and whether it was to be made.
    file: Option<String>,
    is_first: bool,
    failures: Count,
    ghost least: { (saved.sender ≤ kept.sender) × (saved.received ≤ kept.received) },
}

impl<'t> RecordMemory<'t> {
    pub(crate) fn new(alloc: Global, kept: KeptNumbers, plan: &'t str) -> RecordMemory<'t> {
        RecordMemory {
            kept,
            saved: KeptNumbers {
                sender: 0,
                received: 0,
            },
            plan: plan.as_bytes(),
            saves: Vec::new(alloc),
            file: None,
            is_first: false,
            failures: Count::none(),
        }
    }

    /// Notes what is to be saved, and returns how the save ends.
    fn note(&mut self, kept: KeptNumbers) -> End
        ensures saved { self.new.saved ≡ self.old.saved }
        ensures kept { self.new.kept ≡ self.old.kept }
        ensures failures { self.new.failures ≡ self.old.failures }
    {
        let end = next_end(&mut self.plan);
        if self.saves.push(kept).is_err() {
            return End::Fails;
        }
        end
    }

    /// Shows whether the record was opened or made, and the name of the file, or `none` if no record was asked for.
    pub(crate) fn show_file(&self, answer: &mut Answer) {
        answer.word(if self.is_first { "first" } else { "record" });
        answer.word(self.file.as_deref().unwrap_or("none"));
    }

    /// Shows what the record was asked to save, in order: the sender's number, then the received one.
    pub(crate) fn show(&self, answer: &mut Answer) {
        answer.word("saves");
        for kept in &self.saves {
            answer.print(kept.sender);
            answer.print(kept.received);
        }
    }
}

impl<'t> RecordKeeper for RecordMemory<'t> {
    ghost sender_floor = { λ k. k.saved.sender };

    ghost received_floor = { λ k. k.saved.received };

    ghost failures = { λ k. k.failures.value };

    ghost loads = { λ old sender received new. (sender ≡ old.kept.sender) × (received ≡ old.kept.received) };

    fn load(&mut self) -> Result<KeptNumbers, KeeperError> {
        if next_end(&mut self.plan) == End::Works {
            return Ok(self.kept);
        }
        self.failures = Count::one_more(&self.failures);
        Err(KeeperError)
    }

    fn save(&mut self, kept: KeptNumbers) -> Result<(), KeeperError> {
        let end = self.note(kept);
        if end != End::Fails {
            self.kept = kept;
        }
        if end == End::Works {
            self.saved = kept;
            return Ok(());
        }
        self.failures = Count::one_more(&self.failures);
        Err(KeeperError)
    }
}

/// The record of a row, lent to a call of the command. The call drops what it gets.
#[derive(Drop)]
pub(crate) struct LentRecord<'m, 't> {
    record: &'m mut RecordMemory<'t>,
}

impl<'m, 't> LentRecord<'m, 't> {
    pub(crate) fn new(record: &'m mut RecordMemory<'t>) -> LentRecord<'m, 't> {
        LentRecord { record }
    }

    /// Returns this as the record of a file.
    pub(crate) fn of_file(self, alloc: Global, name: &str, is_first: bool) -> LentRecord<'m, 't> {
        self.record.file = String::from_str(alloc, name).ok();
        self.record.is_first = is_first;
        self
    }
}

impl<'m, 't> RecordKeeper for LentRecord<'m, 't> {
    ghost sender_floor = { λ k. k.record.now.saved.sender };

    ghost received_floor = { λ k. k.record.now.saved.received };

    ghost failures = { λ k. k.record.now.failures.value };

    ghost loads = { λ old sender received new. (sender ≡ old.record.now.kept.sender) × (received ≡ old.record.now.kept.received) };

    fn load(&mut self) -> Result<KeptNumbers, KeeperError> {
        self.record.load()
    }

    fn save(&mut self, kept: KeptNumbers) -> Result<(), KeeperError> {
        self.record.save(kept)
    }
}
