//! Why the context of an end whose numbers are kept isn't replaced.

use crate::kept_error::KeptError;
use osc_endpoint::ReplaceError;
use std::error::Error;
use std::fmt;

/// Why the context of an end whose numbers are kept isn't replaced. The variants stand in the order in which they are checked.
#[derive(Clone, Copy, Debug, PartialEq, Eq)]
pub enum ReplaceRefusal {
    /// The end refuses the context: it was restarted or replaced 2^64 - 1 times, or the context has the Sender Key of the one that is there.
    /// A client refuses for the second reason alone.
    Refused(ReplaceError),
    /// No life begins at what the keeper of the new context loads.
    Kept(KeptError),
}

impl fmt::Display for ReplaceRefusal {
    ghost use Rattle.std.specs.Prelude.{Some};
    ghost use Rattle.osc_kept_ends.specs.Replacing.{replace_refusal_text};

    ghost output = { λ refusal. Some (replace_refusal_text refusal) };

    fn fmt<W: fmt::Write>(&self, f: &mut fmt::Formatter<W>) -> fmt::Result {
        match self {
            ReplaceRefusal::Refused(error) => error.fmt(f),
            ReplaceRefusal::Kept(error) => error.fmt(f),
        }
    }
}

impl Error for ReplaceRefusal {}
