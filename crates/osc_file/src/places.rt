//! The two places of a record, NAME.a and NAME.b, and which record of theirs counts (own rule).

ghost use Rattle.std.specs.Prelude.{◌≡◌, ◌≢◌, ◌⊎◌, Ok, IfOk, IsOk, IsErrOf};
ghost use Rattle.osc_file.specs.Newest.{IsCopied, IsOther, IsOwned, damaged_of, newest_of, older_of};
ghost use Rattle.osc_file.specs.declared.places.Found.TheVariants.{Intact};
ghost use Rattle.osc_file.specs.declared.record_trouble.RecordTrouble.TheVariants.{Copied, OtherContext};

use crate::record::{Owner, Record};
use crate::record_text::parse;
use crate::record_trouble::RecordTrouble;
use std::fs;
use std::io::{self, ErrorKind};
use std::os::unix::fs::MetadataExt;
use std::rt::Files;

/// One of the two places of a record: NAME.a or NAME.b.
#[derive(Clone, Copy, Debug, PartialEq, Eq)]
pub enum Place {
    /// NAME.a.
    A,
    /// NAME.b.
    B,
}

impl Place {
    /// The other place.
    pub(crate) fn other(self) -> Place
        ensures { result ≢ self }
    {
        match self {
            Place::A => Place::B,
            Place::B => Place::A,
        }
    }
}

/// What a place holds.
#[derive(Clone, Copy)]
pub(crate) enum Found {
    /// There is no file.
    Nothing,
    /// The file is no record's line.
    Damage,
    Intact(Record),
}

/// What the two places hold.
#[derive(Clone, Copy)]
pub(crate) struct Places {
    pub(crate) a: Found,
    pub(crate) b: Found,
}

impl Places {
    /// Returns the record that counts, if both places hold nothing of another owner.
    pub(crate) fn judged(&self, owner: &Owner) -> Result<Record, RecordTrouble>
        ensures accepted { IfOk result (λ r. (newest_of self.now.a self.now.b ≡ Ok r) × (r.owner ≡ owner.now) × IsOwned owner.now self.now.a × IsOwned owner.now self.now.b) }
        ensures value { IsOwned owner.now self.now.a → IsOwned owner.now self.now.b → result ≡ newest_of self.now.a self.now.b }
        ensures other { IsErrOf result OtherContext → IsOther owner.now self.now.a ⊎ IsOther owner.now self.now.b }
        ensures copied { IsErrOf result Copied → IsCopied owner.now self.now.a ⊎ IsCopied owner.now self.now.b }
    {
        check_owner(&self.a, owner)?;
        check_owner(&self.b, owner)?;
        self.newest()
    }

    /// Returns the record that counts: the intact one of the greater generation.
    fn newest(&self) -> Result<Record, RecordTrouble>
        ensures { result ≡ newest_of self.now.a self.now.b }
    {
        match (&self.a, &self.b) {
            (Found::Intact(a), Found::Intact(b)) => newer(a, b),
            (Found::Intact(record), _) | (_, Found::Intact(record)) => Ok(*record),
            (Found::Nothing, Found::Nothing) => Err(RecordTrouble::Lost),
            _ => Err(RecordTrouble::Damaged),
        }
    }

    /// Returns the place whose record is the older one, or isn't intact. That one is written first.
    pub(crate) fn older(&self) -> Place
        ensures { result ≡ older_of self.now.a self.now.b }
    {
        match (&self.a, &self.b) {
            (Found::Intact(a), Found::Intact(b)) if b.generation < a.generation => Place::B,
            (Found::Intact(_), Found::Nothing | Found::Damage) => Place::B,
            _ => Place::A,
        }
    }

    /// Returns the place that has no intact record, if the other has one.
    pub(crate) fn damaged(&self) -> Option<Place>
        ensures { result ≡ damaged_of self.now.a self.now.b }
    {
        match (&self.a, &self.b) {
            (Found::Intact(_), Found::Nothing | Found::Damage) => Some(Place::B),
            (Found::Nothing | Found::Damage, Found::Intact(_)) => Some(Place::A),
            _ => None,
        }
    }
}

/// Returns the record of the greater generation. Two of one generation that differ are no record of ours.
fn newer(a: &Record, b: &Record) -> Result<Record, RecordTrouble>
    ensures { result ≡ newest_of (Intact a.now) (Intact b.now) }
{
    if a.generation < b.generation {
        Ok(*b)
    } else if b.generation < a.generation || a.numbers == b.numbers {
        Ok(*a)
    } else {
        Err(RecordTrouble::Damaged)
    }
}

/// Judges whose a record is, if there is one.
fn check_owner(found: &Found, owner: &Owner) -> Result<(), RecordTrouble>
    ensures accepted { IsOk result → IsOwned owner.now found.now }
    ensures accepts { IsOwned owner.now found.now → IsOk result }
    ensures other { IsErrOf result OtherContext → IsOther owner.now found.now }
    ensures copied { IsErrOf result Copied → IsCopied owner.now found.now }
{
    let Found::Intact(record) = found else {
        return Ok(());
    };
    if record.owner.fingerprint != owner.fingerprint {
        return Err(RecordTrouble::OtherContext);
    }
    if record.owner != *owner {
        return Err(RecordTrouble::Copied);
    }
    Ok(())
}

/// Returns the name of a place.
pub(crate) fn place_name<R: Alloc>(
    rt: &R,
    name: &str,
    place: Place,
) -> Result<String<R::A>, RecordTrouble> {
    Ok(match place {
        Place::A => format!(in rt.alloc(); "{name}.a")?,
        Place::B => format!(in rt.alloc(); "{name}.b")?,
    })
}

/// Reads both places.
pub(crate) fn read_places<R: Files + Alloc>(rt: &R, name: &str) -> Result<Places, RecordTrouble> {
    Ok(Places {
        a: read_place(rt, place_name(rt, name, Place::A)?.as_str())?,
        b: read_place(rt, place_name(rt, name, Place::B)?.as_str())?,
    })
}

/// Reads the file of a place.
fn read_place<R: Files + Alloc>(rt: &R, name: &str) -> Result<Found, RecordTrouble> {
    match fs::symlink_metadata(rt, name) {
        Ok(found) if found.is_symlink() => return Err(RecordTrouble::Link),
        Ok(found) if found.is_file() && found.nlink() > 1 => return Err(RecordTrouble::HardLink),
        Ok(_) => {}
        Err(error) => return missing(&error),
    }
    match fs::read(rt, name) {
        Ok(bytes) => found_in(rt, bytes.as_slice()),
        Err(error) => missing(&error),
    }
}

/// What it means that a place can't be read.
fn missing(error: &io::Error) -> Result<Found, RecordTrouble> {
    match error.kind() {
        ErrorKind::NotFound => Ok(Found::Nothing),
        kind => Err(RecordTrouble::Read(kind)),
    }
}

/// Finds what the bytes of a file are.
fn found_in<R: Alloc>(rt: &R, bytes: &[u8]) -> Result<Found, RecordTrouble> {
    let Ok(text) = str::from_utf8(bytes) else {
        return Ok(Found::Damage);
    };
    Ok(match parse(rt, text)? {
        Some(record) => Found::Intact(record),
        None => Found::Damage,
    })
}
