//! A keeper of a record of two numbers over files.

ghost use Rattle.std.specs.Prelude.{◌≡◌, ◌+◌, Ok, IfOk, IsOk, IsErr, None, Some, string_bytes};
ghost use Rattle.osc_file.specs.Newest.{damaged_of, newest_of};

use crate::counter::{MonotonicCounter, NoCounter, catch_up};
use crate::lock::{TryLock, locked_again, locked_first};
use crate::places::{Place, Places, place_name, read_places};
use crate::record::{Owner, Record};
use crate::record_trouble::RecordTrouble;
use crate::storing::store_both;
use osc_context::{Count, KeeperError, KeptNumbers, RecordKeeper};
use std::fs::{self, OpenFile};
use std::io::ErrorKind;
use std::os::unix::fs::MetadataExt;
use std::rt::Files;

/// What the places were read to hold last, or were written to hold: the record that counts, and the place without it.
#[derive(Clone, Copy)]
struct Seen {
    newest: Record,
    damaged: Option<Place>,
}

impl Seen {
    /// Both places hold this record.
    fn both(whole: Record) -> Seen
        ensures { result ≡ record { newest = whole; damaged = None } }
    {
        Seen {
            newest: whole,
            damaged: None,
        }
    }
}

/// A keeper that keeps two numbers in one record, which stands in the files NAME.a and NAME.b alike. The keeper has NAME.lock
/// locked until it is dropped. NAME.lock is made with the first record and never again, and a record is of this file and of
/// one context alone. The floors are the numbers that were read when the keeper was made, or that it saved last.
#[derive(Drop)]
pub struct RecordFile<'a, R: Files + Alloc>
where
    R::File: TryLock,
{
    rt: &'a R,
    name: String<R::A>,
    lock: R::File,
    owner: Owner,
    // What was read when the keeper was made, or saved for certain.
    saved: Record,
    seen: Seen,
    // What a save began to write.
    tried: Option<Record>,
    trouble: Option<RecordTrouble>,
    failures: Count,
}

impl<'a, R: Files + Alloc> RecordFile<'a, R>
where
    R::File: TryLock,
{
    ghost use Rattle.osc_context.specs.declared.record_keeper.KeptNumbers.{KeptNumbers};
    ghost use Rattle.osc_file.specs.Views.{damaged_place_of, kept_of, record_name_of, record_trouble_of};

    /// Makes the first record of a context's end, with 0 and 0, for an end that was never used. The fingerprint is that of
    /// [`osc_context::Context::fingerprint`]. It refuses with `Memory`, with `Present` if NAME.lock, NAME.a or NAME.b is
    /// there, with `Read` if that can't be told, and with `Locked`, `Lock` and `Save`. If it is stopped, some of these files may be left: remove them, if you
    /// are certain that this end was never used.
    pub fn first(
        rt: &'a R,
        name: &str,
        fingerprint: [u8; 8],
    ) -> Result<RecordFile<'a, R>, RecordTrouble>
        ensures fresh { IfOk result (λ k. kept_of k ≡ record { sender = 0; received = 0 }) }
        ensures made { IfOk result (λ k. (⟦<RecordFile<'a, R> as RecordKeeper>⟧.failures k ≡ 0) × (record_name_of k ≡ name.now) × (record_trouble_of k ≡ None)) }
    {
        RecordFile::first_at(rt, name, fingerprint, 1)
    }

    /// Makes the first record, of this generation.
    pub(crate) fn first_at(
        rt: &'a R,
        name: &str,
        fingerprint: [u8; 8],
        generation: u64,
    ) -> Result<RecordFile<'a, R>, RecordTrouble>
        ensures fresh { IfOk result (λ k. kept_of k ≡ record { sender = 0; received = 0 }) }
        ensures made { IfOk result (λ k. (⟦<RecordFile<'a, R> as RecordKeeper>⟧.failures k ≡ 0) × (record_name_of k ≡ name.now) × (record_trouble_of k ≡ None)) }
    {
        let kept_name = String::from_str(rt.alloc(), name)?;
        none_is_there(rt, name)?;
        let lock = match locked_first(rt, name) {
            Ok(lock) => lock,
            Err(error) => return Err(RecordTrouble::of_new_lock(&error)),
        };
        let owner = owner_by(&lock, fingerprint)?;
        let first = store_both(rt, name, Place::A, &Record::first(owner, generation))?;
        Ok(RecordFile::over(rt, kept_name, lock, Seen::both(first)))
    }

    /// Opens the record of a context's end that was made before. It refuses with `Memory`, `Locked`, `Lost` if there is no
    /// NAME.lock, `Lock` (also if NAME.lock is a symbolic link) and `HardLink` of NAME.lock, and then with what is wrong with the places, in the order of
    /// [`RecordTrouble`].
    pub fn open(
        rt: &'a R,
        name: &str,
        fingerprint: [u8; 8],
    ) -> Result<RecordFile<'a, R>, RecordTrouble>
        ensures made { IfOk result (λ k. (⟦<RecordFile<'a, R> as RecordKeeper>⟧.failures k ≡ 0) × (record_name_of k ≡ name.now) × (record_trouble_of k ≡ None)) }
    {
        let kept_name = String::from_str(rt.alloc(), name)?;
        let lock = match locked_again(rt, name) {
            Ok(lock) => lock,
            Err(error) => return Err(RecordTrouble::of_lock(&error)),
        };
        let owner = owner_by(&lock, fingerprint)?;
        let seen = seen_in(&read_places(rt, name)?, &owner)?;
        Ok(RecordFile::over(rt, kept_name, lock, seen))
    }

    /// The keeper over places that were read or written.
    fn over(rt: &'a R, name: String<R::A>, lock: R::File, seen: Seen) -> RecordFile<'a, R>
        ensures failures { result.failures.value ≡ 0 }
        ensures kept { (result.saved ≡ seen.newest) × (result.seen ≡ seen) }
        ensures name { record_name_of result ≡ string_bytes name }
        ensures trouble { record_trouble_of result ≡ None }
    {
        RecordFile {
            rt,
            name,
            lock,
            owner: seen.newest.owner,
            saved: seen.newest,
            seen,
            tried: None,
            trouble: None,
            failures: Count::none(),
        }
    }

    /// Returns the floors: the numbers that were read when the keeper was made, or saved last.
    #[must_use]
    pub fn numbers(&self) -> KeptNumbers
        ensures { result ≡ kept_of self.now }
    {
        self.saved.numbers
    }

    /// Returns which place was damaged or missing when the places were read last, or None if both were whole. The next save
    /// mends it. If both are damaged, each call fails.
    #[must_use]
    pub fn damaged(&self) -> Option<Place>
        ensures { result ≡ damaged_place_of self.now }
    {
        self.seen.damaged
    }

    /// Returns why the last call that failed did so, or None if no call has failed.
    #[must_use]
    pub fn trouble(&self) -> Option<RecordTrouble>
        ensures { result ≡ record_trouble_of self.now }
    {
        self.trouble
    }

    /// Returns the generation of the record that was read when the keeper was made, or saved last.
    pub(crate) fn generation(&self) -> u64
        ensures { result ≡ self.now.saved.generation }
    {
        self.saved.generation
    }

    /// Saves, and then advances the counter up to the record's generation.
    pub(crate) fn save_counted<C: MonotonicCounter>(
        &mut self,
        kept: KeptNumbers,
        counter: &mut C,
    ) -> Result<(), KeeperError>
        ensures saved { IsOk result → self.new.saved.numbers ≡ kept }
        ensures stays { IsErr result → self.new.saved ≡ self.old.saved }
        ensures worked { IsOk result → self.new.failures ≡ self.old.failures }
        ensures failed { IsErr result → self.new.failures.value ≡ self.old.failures.value + 1 }
    {
        match self.put(kept, counter) {
            Ok(()) => Ok(()),
            Err(trouble) => Err(self.failed(trouble)),
        }
    }

    /// Reads both places, and looks that the record that counts is the one that this keeper read last, or began to write.
    fn look(&mut self) -> Result<Places, RecordTrouble>
        ensures saved { self.new.saved ≡ self.old.saved }
        ensures failures { self.new.failures ≡ self.old.failures }
        ensures trouble { self.new.trouble ≡ self.old.trouble }
    {
        let places = read_places(self.rt, self.name.as_str())?;
        let seen = seen_in(&places, &self.owner)?;
        if seen.newest != self.seen.newest && Some(seen.newest) != self.tried {
            return Err(RecordTrouble::Changed);
        }
        self.seen = seen;
        Ok(places)
    }

    /// Writes the numbers to both places. If it fails, the record that counts is the one of before or the new one.
    fn put<C: MonotonicCounter>(
        &mut self,
        numbers: KeptNumbers,
        counter: &mut C,
    ) -> Result<(), RecordTrouble>
        ensures saved { IsOk result → (self.new.saved.numbers ≡ numbers) × (self.new.seen.newest ≡ self.new.saved) × (self.new.seen.damaged ≡ None) }
        ensures stays { IsErr result → self.new.saved ≡ self.old.saved }
        ensures failures { self.new.failures ≡ self.old.failures }
    {
        let places = self.look()?;
        let next = self.seen.newest.followed_by(numbers)?;
        // The next call may find this record in one place, if this one fails.
        self.tried = Some(next);
        let both = store_both(self.rt, self.name.as_str(), places.older(), &next)?;
        catch_up(counter, both.generation)?;
        self.confirm(both);
        Ok(())
    }

    /// The record that was written to both places is what was saved last.
    fn confirm(&mut self, both: Record)
        ensures saved { self.new.saved ≡ both }
        ensures seen { (self.new.seen.newest ≡ both) × (self.new.seen.damaged ≡ None) }
        ensures failures { self.new.failures ≡ self.old.failures }
    {
        self.saved = both;
        self.seen = Seen::both(both);
    }

    /// Counts a failure, keeps why it came, and returns the error.
    fn failed(&mut self, trouble: RecordTrouble) -> KeeperError
        ensures counted { self.new.failures.value ≡ self.old.failures.value + 1 }
        ensures unchanged { self.new.saved ≡ self.old.saved }
        ensures kept { record_trouble_of self.new ≡ Some trouble }
    {
        self.failures = Count::one_more(&self.failures);
        let _before = self.trouble.replace(trouble);
        KeeperError
    }
}

impl<'a, R: Files + Alloc> RecordKeeper for RecordFile<'a, R>
where
    R::File: TryLock,
{
    ghost sender_floor = { λ k. k.saved.numbers.sender };

    ghost received_floor = { λ k. k.saved.numbers.received };

    ghost failures = { λ k. k.failures.value };

    ghost loads = { λ old sender received new. (sender ≡ old.saved.numbers.sender) × (received ≡ old.saved.numbers.received) × (new.saved ≡ old.saved) };

    fn load(&mut self) -> Result<KeptNumbers, KeeperError> {
        match self.look() {
            Ok(_) => Ok(self.numbers()),
            Err(trouble) => Err(self.failed(trouble)),
        }
    }

    fn save(&mut self, kept: KeptNumbers) -> Result<(), KeeperError> {
        self.save_counted(kept, &mut NoCounter)
    }
}

/// Returns the record of this owner that counts, and the place without it.
fn seen_in(places: &Places, owner: &Owner) -> Result<Seen, RecordTrouble>
    ensures { IfOk result (λ seen. (newest_of places.now.a places.now.b ≡ Ok seen.newest) × (seen.newest.owner ≡ owner.now)
        × (seen.damaged ≡ damaged_of places.now.a places.now.b)) }
{
    Ok(Seen {
        newest: places.judged(owner)?,
        damaged: places.damaged(),
    })
}

/// Looks that no place of a record is there.
fn none_is_there<R: Files + Alloc>(rt: &R, name: &str) -> Result<(), RecordTrouble> {
    absent(rt, place_name(rt, name, Place::A)?.as_str())?;
    absent(rt, place_name(rt, name, Place::B)?.as_str())
}

/// Looks that there is nothing of this name.
fn absent<R: Files>(rt: &R, name: &str) -> Result<(), RecordTrouble> {
    match fs::symlink_metadata(rt, name) {
        Ok(_) => Err(RecordTrouble::Present),
        Err(error) if error.kind() == ErrorKind::NotFound => Ok(()),
        Err(error) => Err(RecordTrouble::Read(error.kind())),
    }
}

/// Returns whose a record beside this lock is.
fn owner_by<F: OpenFile>(lock: &F, fingerprint: [u8; 8]) -> Result<Owner, RecordTrouble>
    ensures { IfOk result (λ owner. owner.fingerprint ≡ fingerprint) }
{
    let found = match lock.metadata() {
        Ok(found) => found,
        Err(error) => return Err(RecordTrouble::Lock(error.kind())),
    };
    if found.nlink() > 1 {
        return Err(RecordTrouble::HardLink);
    }
    Ok(Owner {
        fingerprint,
        device: found.dev(),
        inode: found.ino(),
    })
}
