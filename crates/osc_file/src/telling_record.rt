//! A keeper of a record that says why it fails.

ghost use Rattle.std.specs.Prelude.{◌≡◌, ◌+◌};
ghost use Rattle.osc_file.specs.Views.{told_numbers};

use crate::lock::TryLock;
use crate::record_file::RecordFile;
use crate::record_trouble::RecordTrouble;
use osc_context::{Count, KeeperError, KeptNumbers, RecordKeeper};
use std::io::Write;
use std::rt::Files;

/// A keeper of a record that writes a line about each of its failures: the words that begin it, a colon, and why the call failed. If the
/// record couldn't be opened or made, each call fails, and says why. A line that can't be written is lost.
#[derive(Drop)]
pub struct TellingRecord<'a, R: Files + Alloc, W: Write>
where
    R::File: TryLock,
{
    record: Result<RecordFile<'a, R>, RecordTrouble>,
    failures: Count,
    words: &'a str,
    err: W,
}

impl<'a, R: Files + Alloc, W: Write> TellingRecord<'a, R, W>
where
    R::File: TryLock,
{
    ghost use Rattle.osc_file.specs.Views.{record_words_of};

    /// A keeper over a record that was opened or made, or not, that begins its lines with these words.
    #[must_use]
    pub fn new(
        record: Result<RecordFile<'a, R>, RecordTrouble>,
        words: &'a str,
        err: W,
    ) -> TellingRecord<'a, R, W>
        ensures sender { ⟦<TellingRecord<'a, R, W> as RecordKeeper>⟧.sender_floor result ≡ (told_numbers record.entry).sender }
        ensures received { ⟦<TellingRecord<'a, R, W> as RecordKeeper>⟧.received_floor result ≡ (told_numbers record.entry).received }
        ensures failures { ⟦<TellingRecord<'a, R, W> as RecordKeeper>⟧.failures result ≡ 0 }
        ensures words { record_words_of result ≡ words.now }
    {
        TellingRecord {
            record,
            failures: Count::none(),
            words,
            err,
        }
    }

    /// Writes the line, counts the failure, and returns the error.
    fn failed(&mut self) -> KeeperError
        ensures counted { self.new.failures.value ≡ self.old.failures.value + 1 }
        ensures same { self.new.record ≡ self.old.record }
    {
        self.failures = Count::one_more(&self.failures);
        let trouble = match &self.record {
            Ok(record) => record.trouble(),
            Err(trouble) => Some(*trouble),
        };
        if let Some(trouble) = trouble {
            let _ = writeln!(self.err, "{}: {trouble}", self.words);
        }
        KeeperError
    }
}

impl<'a, R: Files + Alloc, W: Write> RecordKeeper for TellingRecord<'a, R, W>
where
    R::File: TryLock,
{
    ghost use Rattle.osc_file.specs.Views.{TellsLoaded};

    ghost sender_floor = { λ k. (told_numbers k.record).sender };

    ghost received_floor = { λ k. (told_numbers k.record).received };

    ghost failures = { λ k. k.failures.value };

    ghost loads = { λ old sender received new. TellsLoaded old.record sender received new.record };

    fn load(&mut self) -> Result<KeptNumbers, KeeperError> {
        let done = match &mut self.record {
            Ok(record) => record.load(),
            Err(_) => Err(KeeperError),
        };
        match done {
            Ok(kept) => Ok(kept),
            Err(KeeperError) => Err(self.failed()),
        }
    }

    fn save(&mut self, kept: KeptNumbers) -> Result<(), KeeperError> {
        let done = match &mut self.record {
            Ok(record) => record.save(kept),
            Err(_) => Err(KeeperError),
        };
        match done {
            Ok(()) => Ok(()),
            Err(KeeperError) => Err(self.failed()),
        }
    }
}
