//! A keeper that says why it fails.

ghost use Rattle.std.specs.Prelude.{◌≡◌};
ghost use Rattle.osc_file.specs.Views.{words_of};

use crate::file_keeper::FileKeeper;
use crate::lock::TryLock;
use osc_context::{Keeper, KeeperError};
use std::io::Write;
use std::rt::Files;

/// A keeper over a file that writes a line about each of its failures: the words that begin it, a colon, and why the call failed.
/// A line that can't be written is lost.
#[derive(Drop)]
pub struct TellingKeeper<'a, R: Files + Alloc, W: Write>
where
    R::File: TryLock,
{
    keeper: FileKeeper<'a, R>,
    words: &'a str,
    err: W,
}

impl<'a, R: Files + Alloc, W: Write> TellingKeeper<'a, R, W>
where
    R::File: TryLock,
{
    /// A keeper that begins its lines with these words.
    #[must_use]
    pub fn new(keeper: FileKeeper<'a, R>, words: &'a str, err: W) -> TellingKeeper<'a, R, W>
        ensures { (⟦<TellingKeeper<'a, R, W> as Keeper>⟧.floor result ≡ ⟦<FileKeeper<'a, R> as Keeper>⟧.floor keeper.entry)
            × (⟦<TellingKeeper<'a, R, W> as Keeper>⟧.failures result ≡ ⟦<FileKeeper<'a, R> as Keeper>⟧.failures keeper.entry)
            × (words_of result ≡ words.now) }
    {
        TellingKeeper { keeper, words, err }
    }

    /// Writes the line.
    fn tell(&mut self)
        ensures { self.new.keeper ≡ self.old.keeper }
    {
        if let Some(trouble) = self.keeper.trouble() {
            let _ = writeln!(self.err, "{}: {trouble}", self.words);
        }
    }
}

impl<'a, R: Files + Alloc, W: Write> Keeper for TellingKeeper<'a, R, W>
where
    R::File: TryLock,
{
    ghost floor = { λ k. ⟦<FileKeeper<'a, R> as Keeper>⟧.floor k.keeper };

    ghost failures = { λ k. ⟦<FileKeeper<'a, R> as Keeper>⟧.failures k.keeper };

    ghost loads = { λ old n new. ⟦<FileKeeper<'a, R> as Keeper>⟧.loads old.keeper n new.keeper };

    fn load(&mut self) -> Result<u64, KeeperError> {
        let done = self.keeper.load();
        if done.is_err() {
            self.tell();
        }
        done
    }

    fn save(&mut self, next: u64) -> Result<(), KeeperError> {
        let done = self.keeper.save(next);
        if done.is_err() {
            self.tell();
        }
        done
    }
}
