//! Writes a record to both of its places.

ghost use Rattle.std.specs.Prelude.{◌≡◌, ◌≢◌, IfOk};

use crate::places::{Place, place_name};
use crate::record::Record;
use crate::record_text::spell;
use crate::record_trouble::RecordTrouble;
use crate::replacing::replace;
use std::rt::Files;

/// A record that was written to a place. Only `store` makes one, and it can't be copied.
#[derive(Drop)]
struct Stored {
    place: Place,
    kept: Record,
}

/// Writes the record to both places, this one first, and returns it. If it fails, the second place still holds what it
/// held, or the first one holds the record.
pub(crate) fn store_both<R: Files + Alloc>(
    rt: &R,
    name: &str,
    first: Place,
    kept: &Record,
) -> Result<Record, RecordTrouble>
    ensures { IfOk result (λ both. both ≡ kept.now) }
{
    let one = store(rt, name, first, kept)?;
    let other = store(rt, name, first.other(), kept)?;
    Ok(in_both(&one, &other))
}

/// Returns the record that was written to both places.
fn in_both(one: &Stored, _other: &Stored) -> Record
    requires places { one.now.place ≢ _other.now.place }
    requires kept { one.now.kept ≡ _other.now.kept }
    ensures { result ≡ one.now.kept }
{
    one.kept
}

/// Writes the record to one place.
fn store<R: Files + Alloc>(
    rt: &R,
    name: &str,
    place: Place,
    kept: &Record,
) -> Result<Stored, RecordTrouble>
    ensures { IfOk result (λ stored. stored ≡ record { place = place; kept = kept.now }) }
{
    let line = spell(rt, kept)?;
    let place_name = place_name(rt, name, place)?;
    match replace(rt, place_name.as_str(), line.as_str()) {
        Ok(()) => Ok(Stored { place, kept: *kept }),
        Err(error) => Err(RecordTrouble::Save(error.kind())),
    }
}
