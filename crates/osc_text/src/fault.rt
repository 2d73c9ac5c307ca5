//! Why the command ends with status 1.

ghost use Rattle.std.specs.Prelude.{◌≡◌};
ghost use Rattle.osc_text.specs.declared.fault.Fault.TheVariants.{Memory, Write};

use std::alloc::{AllocError, AllocFailed};
use std::io;
use thiserror::Error;

/// What is wrong with a word of the call.
#[derive(Clone, Copy, Debug, Drop, PartialEq, Eq, Error)]
pub enum Wrong {
    /// The word is missing.
    #[error("missing")]
    Missing,
    /// The character at this place, counted from 1, isn't a hex digit. All characters before it are.
    #[error("bad hex at character {0}")]
    BadHex(usize),
    /// The word begins with 0x or 0X, which must be left out.
    #[error("bad hex at character 2: leave out 0x")]
    Prefixed,
    /// The word is an odd number of hex digits.
    #[error("an odd number of hex digits")]
    OddHex,
    /// The word isn't a number, or it is a number of 2^40 or more, which no message can have.
    #[error("not a number below 2^40")]
    Number,
    /// The word isn't a number, or it is a number of 2^64 or more.
    #[error("not a number below 2^64")]
    Moment,
    /// The role has no such option.
    #[error("not for this role")]
    Role,
    /// No call has that name.
    #[error("unknown")]
    Unknown,
}

/// Why the command ends with status 1. Each prints on one line.
#[derive(Debug, Drop, Error)]
pub enum Fault {
    /// What is wrong with the words of the call, or with a line of its input, on one line.
    #[error("{0}")]
    Usage(String),
    /// The words of the call aren't text, or couldn't be read.
    #[error("cannot read the words: {}", .0.kind())]
    Words(io::Error),
    /// One word, named by its place in the call, is wrong.
    #[error("{word}: {wrong}")]
    Input { word: &'static str, wrong: Wrong },
    /// The line with this number, counted from 1, doesn't spell an event.
    #[error("line {0}: not an event")]
    Line(usize),
    /// A read of standard input failed.
    #[error("cannot read: {}", .0.kind())]
    Read(io::Error),
    /// An allocation was refused.
    #[error("out of memory")]
    Memory,
    /// A write to standard output failed.
    #[error("cannot write: {}", .0.kind())]
    Write(io::Error),
}

impl From<AllocError> for Fault {
    ghost from_gives = { λ _ fault. fault ≡ Memory };

    fn from(_error: AllocError) -> Fault {
        Fault::Memory
    }
}

impl<T: Drop> From<AllocFailed<T>> for Fault {
    ghost from_gives = { λ _ fault. fault ≡ Memory };

    fn from(_error: AllocFailed<T>) -> Fault {
        Fault::Memory
    }
}

impl From<io::Error> for Fault {
    ghost from_gives = { λ error fault. fault ≡ Write error };

    fn from(error: io::Error) -> Fault {
        Fault::Write(error)
    }
}
