//! A keeper of a record over files, beside a counter that never goes back.

ghost use Rattle.std.specs.Prelude.{◌≡◌, ◌≤◌, IfOk, IsOk, None};

use crate::counter::{MonotonicCounter, count_of};
use crate::lock::TryLock;
use crate::record_file::RecordFile;
use crate::record_trouble::RecordTrouble;
use osc_context::{KeeperError, KeptNumbers, RecordKeeper};
use std::rt::Files;

/// A `RecordFile` that tells an older copy of both places from the record that was saved last, by a counter of the platform: the
/// generation of what a save confirmed is never below the counter.
#[derive(Drop)]
pub struct CountedRecord<'a, R: Files + Alloc, C: MonotonicCounter + Drop>
where
    R::File: TryLock,
{
    file: RecordFile<'a, R>,
    counter: C,
}

impl<'a, R: Files + Alloc, C: MonotonicCounter + Drop> CountedRecord<'a, R, C>
where
    R::File: TryLock,
{
    ghost use Rattle.osc_context.specs.declared.record_keeper.KeptNumbers.{KeptNumbers};
    ghost use Rattle.osc_file.specs.Views.{counted_file_of, counter_of, kept_of, record_name_of, record_trouble_of};

    /// Makes the first record, as [`RecordFile::first`]. Its generation is the count, or 1 if that is 0. It refuses with `Counter` first,
    /// and then as that does.
    pub fn first(
        rt: &'a R,
        name: &str,
        fingerprint: [u8; 8],
        mut counter: C,
    ) -> Result<CountedRecord<'a, R, C>, RecordTrouble>
        ensures fresh { IfOk result (λ k. kept_of (counted_file_of k) ≡ record { sender = 0; received = 0 }) }
        ensures made { IfOk result (λ k. (⟦<CountedRecord<'a, R, C> as RecordKeeper>⟧.failures k ≡ 0) × (record_name_of (counted_file_of k) ≡ name.now) × (record_trouble_of (counted_file_of k) ≡ None)) }
    {
        let generation = count_of(&mut counter)?.max(1);
        let file = RecordFile::first_at(rt, name, fingerprint, generation)?;
        Ok(CountedRecord { file, counter })
    }

    /// Opens the record that was made before, as [`RecordFile::open`]. It refuses as that does, then with `Counter`, and then with `Older`
    /// if the record's generation is below the count.
    pub fn open(
        rt: &'a R,
        name: &str,
        fingerprint: [u8; 8],
        mut counter: C,
    ) -> Result<CountedRecord<'a, R, C>, RecordTrouble>
        ensures made { IfOk result (λ k. (⟦<CountedRecord<'a, R, C> as RecordKeeper>⟧.failures k ≡ 0) × (record_name_of (counted_file_of k) ≡ name.now) × (record_trouble_of (counted_file_of k) ≡ None)) }
    {
        let file = RecordFile::open(rt, name, fingerprint)?;
        let count = count_of(&mut counter)?;
        check_age(file.generation(), count)?;
        Ok(CountedRecord { file, counter })
    }

    /// Returns the keeper of the record: its floors, which place is damaged, and why a call failed.
    #[must_use]
    pub fn file(&self) -> &RecordFile<'a, R>
        ensures { result.now ≡ counted_file_of self.now }
    {
        &self.file
    }

    /// Returns the counter.
    #[must_use]
    pub fn counter(&self) -> &C
        ensures { result.now ≡ counter_of self.now }
    {
        &self.counter
    }
}

impl<'a, R: Files + Alloc, C: MonotonicCounter + Drop> RecordKeeper for CountedRecord<'a, R, C>
where
    R::File: TryLock,
{
    ghost sender_floor = { λ k. ⟦<RecordFile<'a, R> as RecordKeeper>⟧.sender_floor k.file };

    ghost received_floor = { λ k. ⟦<RecordFile<'a, R> as RecordKeeper>⟧.received_floor k.file };

    ghost failures = { λ k. ⟦<RecordFile<'a, R> as RecordKeeper>⟧.failures k.file };

    ghost loads = { λ old sender received new. ⟦<RecordFile<'a, R> as RecordKeeper>⟧.loads old.file sender received new.file };

    fn load(&mut self) -> Result<KeptNumbers, KeeperError> {
        self.file.load()
    }

    fn save(&mut self, kept: KeptNumbers) -> Result<(), KeeperError> {
        self.file.save_counted(kept, &mut self.counter)
    }
}

/// Judges whether a record is an older copy.
fn check_age(generation: u64, count: u64) -> Result<(), RecordTrouble>
    ensures accepted { IsOk result → count ≤ generation }
    ensures accepts { count ≤ generation → IsOk result }
{
    if generation < count {
        return Err(RecordTrouble::Older);
    }
    Ok(())
}
