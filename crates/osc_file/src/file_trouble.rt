//! Why a keeper over a file fails.

use std::io::{self, ErrorKind};
use thiserror::Error;

/// Why a call of a keeper over a file failed.
#[derive(Clone, Copy, Debug, PartialEq, Eq, Error)]
pub enum FileTrouble {
    /// Another keeper of this name has the lock.
    #[error("another run has locked it")]
    Locked,
    /// NAME.lock can't be locked.
    #[error("cannot lock it: {0}")]
    Lock(ErrorKind),
    /// NAME is a symbolic link.
    #[error("it is a symbolic link")]
    Link,
    /// NAME can't be read.
    #[error("cannot read it: {0}")]
    Read(ErrorKind),
    /// NAME holds anything but a number below 2^64 and a newline.
    #[error("it holds no number")]
    NoNumber,
    /// NAME doesn't hold what this keeper read or saved last.
    #[error("it has changed")]
    Changed,
    /// The number can't be saved.
    #[error("cannot save: {0}")]
    Save(ErrorKind),
    /// Memory for the name was refused.
    #[error("out of memory")]
    Memory,
}

impl FileTrouble {
    /// Why a lock wasn't taken.
    pub(crate) fn of_lock(error: &io::Error) -> FileTrouble {
        match error.kind() {
            ErrorKind::WouldBlock => FileTrouble::Locked,
            kind => FileTrouble::Lock(kind),
        }
    }
}
