//! A keeper of a number over a file.

ghost use Rattle.std.specs.Prelude.{◌≡◌, ◌+◌, IfOk, None, Some};

use crate::file_trouble::FileTrouble;
use crate::held::{Held, read};
use crate::lock::{TryLock, locked};
use crate::number_text::spell;
use crate::replacing::replace;
use osc_context::{Count, Keeper, KeeperError};
use std::io;
use std::rt::Files;

/// A keeper that keeps a number in the file NAME, as its decimal digits and a newline. A missing file counts as 0. The keeper writes
/// NAME.new beside the file, and has NAME.lock locked until it is dropped, so that only one keeper at a time has the name. Its floor
/// is the number that the file held when the keeper was made, or the number that it saved last. If the file holds anything else, each
/// call fails.
#[derive(Drop)]
pub struct FileKeeper<'a, R: Files + Alloc>
where
    R::File: TryLock,
{
    rt: &'a R,
    name: Option<String<R::A>>,
    lock: Option<R::File>,
    held: Result<Held, FileTrouble>,
    trouble: Option<FileTrouble>,
    failures: Count,
}

impl<'a, R: Files + Alloc> FileKeeper<'a, R>
where
    R::File: TryLock,
{
    ghost use Rattle.osc_file.specs.Views.{IsNamed, held_number, trouble_of};

    /// Makes the keeper of this name: takes the lock and reads the file. If the lock or memory for the name is refused, or if the
    /// file can't be read or doesn't hold a number, each later call fails; a keeper that is made after that tries again.
    #[must_use]
    pub fn new(rt: &'a R, name: &str) -> FileKeeper<'a, R>
        ensures { (⟦<FileKeeper<'a, R> as Keeper>⟧.failures result ≡ 0) × IsNamed name.now result × (trouble_of result ≡ None) }
    {
        let (lock, held) = match locked(rt, name) {
            Ok(file) => (Some(file), read(rt, name)),
            Err(error) => (None, Err(FileTrouble::of_lock(&error))),
        };
        FileKeeper {
            rt,
            name: String::from_str(rt.alloc(), name).ok(),
            lock,
            held,
            trouble: None,
            failures: Count::none(),
        }
    }

    /// Returns the floor: the number that the file held when this keeper was made, or 0 if there was no file or it couldn't be read.
    /// After a save it is the number that was saved last.
    #[must_use]
    pub fn floor(&self) -> u64
        ensures { result ≡ ⟦<FileKeeper<'a, R> as Keeper>⟧.floor self.now }
    {
        match self.held {
            Ok(Held::Number(number)) => number,
            Ok(Held::Nothing) | Err(_) => 0,
        }
    }

    /// Returns why the last call that failed did so, or None if no call has failed.
    #[must_use]
    pub fn trouble(&self) -> Option<FileTrouble>
        ensures { result ≡ trouble_of self.now }
    {
        self.trouble
    }

    /// Returns the name, and the number that the file held when this keeper was made or saved last, if the file still holds it.
    fn unchanged(&self) -> Result<(&str, u64), FileTrouble>
        ensures name { IfOk result (λ found. IsNamed found.0.now self.now) }
        ensures number { IfOk result (λ found. found.1 ≡ held_number self.now.held) }
    {
        let before = self.held?;
        let Some(name) = self.name.as_ref() else {
            return Err(FileTrouble::Memory);
        };
        let name = name.as_str();
        let number = match (before, read(self.rt, name)?) {
            (Held::Nothing, Held::Nothing) => 0,
            (Held::Number(before), Held::Number(number)) if before == number => number,
            _ => return Err(FileTrouble::Changed),
        };
        Ok((name, number))
    }

    /// The file holds this number, which was saved last.
    fn confirm(&mut self, number: u64)
        ensures held { held_number self.new.held ≡ number }
        ensures failures { self.new.failures ≡ self.old.failures }
    {
        self.held = Ok(Held::Number(number));
    }

    /// Counts a failure, keeps why it came, and returns the error.
    fn failed(&mut self, trouble: FileTrouble) -> KeeperError
        ensures counted { self.new.failures.value ≡ self.old.failures.value + 1 }
        ensures unchanged { self.new.held ≡ self.old.held }
        ensures kept { trouble_of self.new ≡ Some trouble }
    {
        self.failures = Count::one_more(&self.failures);
        let _before = self.trouble.replace(trouble);
        KeeperError
    }
}

impl<'a, R: Files + Alloc> Keeper for FileKeeper<'a, R>
where
    R::File: TryLock,
{
    ghost use Rattle.osc_file.specs.Views.{held_number};

    ghost floor = { λ k. held_number k.held };

    ghost failures = { λ k. k.failures.value };

    ghost loads = { λ old n new. (n ≡ held_number old.held) × (new ≡ old) };

    fn load(&mut self) -> Result<u64, KeeperError> {
        match self.unchanged() {
            Ok((_, number)) => Ok(number),
            Err(trouble) => Err(self.failed(trouble)),
        }
    }

    fn save(&mut self, next: u64) -> Result<(), KeeperError> {
        let done = match self.unchanged() {
            Ok((name, _)) => saved(self.rt, name, next),
            Err(trouble) => Err(trouble),
        };
        match done {
            Ok(()) => {
                self.confirm(next);
                Ok(())
            }
            Err(trouble) => Err(self.failed(trouble)),
        }
    }
}

/// Saves the number.
fn saved<R: Files + Alloc>(rt: &R, name: &str, next: u64) -> Result<(), FileTrouble> {
    match replaced(rt, name, next) {
        Ok(()) => Ok(()),
        Err(error) => Err(FileTrouble::Save(error.kind())),
    }
}

/// Replaces what the file holds with a number.
fn replaced<R: Files + Alloc>(rt: &R, name: &str, number: u64) -> io::Result<()> {
    let text = spell(rt.alloc(), number)?;
    replace(rt, name, text.as_str())
}
