//! Why a keeper of a record over files fails.

use std::alloc::AllocError;
use std::io::{self, ErrorKind};
use thiserror::Error;

/// Why a record wasn't made or opened, or why a call of its keeper failed. What is read is judged in this order: for each
/// place `Link`, `HardLink` and `Read`; for each `OtherContext` and `Copied`; then `Lost`, `Damaged` and `Changed`.
#[derive(Clone, Copy, Debug, PartialEq, Eq, Error)]
pub enum RecordTrouble {
    /// Memory was refused.
    #[error("out of memory")]
    Memory,
    /// The first record can't be made, since NAME.lock, NAME.a or NAME.b is there.
    #[error("a record was made before")]
    Present,
    /// Another keeper of this name has the lock.
    #[error("another run has locked it")]
    Locked,
    /// NAME.lock can't be locked, or can't be made.
    #[error("cannot lock it: {0}")]
    Lock(ErrorKind),
    /// NAME.a or NAME.b is a symbolic link.
    #[error("it is a symbolic link")]
    Link,
    /// NAME.lock, NAME.a or NAME.b has another name.
    #[error("it is a hard link")]
    HardLink,
    /// NAME.a or NAME.b can't be read.
    #[error("cannot read it: {0}")]
    Read(ErrorKind),
    /// There is no record: NAME.lock is missing, or NAME.a and NAME.b are.
    #[error("the record is lost")]
    Lost,
    /// A record is another end's.
    #[error("it is another context's")]
    OtherContext,
    /// A record was made beside another NAME.lock.
    #[error("it is a copy")]
    Copied,
    /// Neither place has a record that is whole, or they have two of one generation that differ.
    #[error("both places are damaged")]
    Damaged,
    /// The record isn't one that this keeper read or wrote last.
    #[error("it has changed")]
    Changed,
    /// 2^64 - 1 records came before.
    #[error("no generation is left")]
    NoGeneration,
    /// The record can't be saved.
    #[error("cannot save: {0}")]
    Save(ErrorKind),
    /// The counter failed.
    #[error("the counter failed")]
    Counter,
    /// The record's generation is below the count: it is an older copy.
    #[error("it is an older copy")]
    Older,
}

impl RecordTrouble {
    /// Why a lock that should be there wasn't taken.
    pub(crate) fn of_lock(error: &io::Error) -> RecordTrouble {
        match error.kind() {
            ErrorKind::WouldBlock => RecordTrouble::Locked,
            ErrorKind::NotFound => RecordTrouble::Lost,
            kind => RecordTrouble::Lock(kind),
        }
    }

    /// Why a lock that shouldn't be there wasn't made.
    pub(crate) fn of_new_lock(error: &io::Error) -> RecordTrouble {
        match error.kind() {
            ErrorKind::WouldBlock => RecordTrouble::Locked,
            ErrorKind::AlreadyExists => RecordTrouble::Present,
            kind => RecordTrouble::Lock(kind),
        }
    }
}

impl From<AllocError> for RecordTrouble {
    fn from(_: AllocError) -> RecordTrouble {
        RecordTrouble::Memory
    }
}
