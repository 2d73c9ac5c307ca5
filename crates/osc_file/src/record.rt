//! A record of the two numbers of one end, and whose it is.

ghost use Rattle.std.specs.Prelude.{◌≡◌, ◌+◌, IfOk};

use crate::record_trouble::RecordTrouble;
use osc_context::KeptNumbers;

/// Whose a record is: the fingerprint of the end's context, and the device and inode number of the file NAME.lock, which
/// is made once and never replaced.
#[derive(Clone, Copy, PartialEq, Eq)]
pub(crate) struct Owner {
    pub(crate) fingerprint: [u8; 8],
    pub(crate) device: u64,
    pub(crate) inode: u64,
}

/// Two numbers, how many records came before, and whose they are.
#[derive(Clone, Copy, PartialEq, Eq)]
pub(crate) struct Record {
    pub(crate) generation: u64,
    pub(crate) numbers: KeptNumbers,
    pub(crate) owner: Owner,
}

impl Record {
    /// The record of an end that was never used.
    pub(crate) fn first(owner: Owner, generation: u64) -> Record
        ensures { result ≡ record { generation = generation; numbers = record { sender = 0; received = 0 }; owner = owner } }
    {
        Record {
            generation,
            numbers: KeptNumbers {
                sender: 0,
                received: 0,
            },
            owner,
        }
    }

    /// The record that comes after this one.
    pub(crate) fn followed_by(&self, numbers: KeptNumbers) -> Result<Record, RecordTrouble>
        ensures { IfOk result (λ r. r ≡ record { generation = self.now.generation + 1; numbers = numbers; owner = self.now.owner }) }
    {
        let Some(generation) = self.generation.checked_add(1) else {
            return Err(RecordTrouble::NoGeneration);
        };
        Ok(Record {
            generation,
            numbers,
            owner: self.owner,
        })
    }
}
