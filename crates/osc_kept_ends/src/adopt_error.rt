//! Why a peer doesn't take a source of numbers.

use std::error::Error;
use std::fmt;

/// Why a peer doesn't take a source of Sender Sequence Numbers. The variants stand in the order in which they are checked.
#[derive(Clone, Copy, Debug, PartialEq, Eq)]
pub enum AdoptError {
    /// The other peer hasn't the source. Only `take_over` returns this.
    NoSource,
    /// The source is that of another Sender Key, by the fingerprints of both contexts.
    OtherSender,
    /// The peer has a source.
    HasSource,
    /// The peer used a number that the source has still to give: they didn't share one source (RFC 8613, 7.2.1).
    Behind,
}

impl fmt::Display for AdoptError {
    ghost use Rattle.std.specs.Prelude.{Some};
    ghost use Rattle.osc_kept_ends.specs.Sharing.{adopt_error_text};

    ghost output = { λ error. Some (adopt_error_text error) };

    fn fmt<W: fmt::Write>(&self, f: &mut fmt::Formatter<W>) -> fmt::Result {
        match self {
            AdoptError::NoSource => f.write_str("NoSource"),
            AdoptError::OtherSender => f.write_str("OtherSender"),
            AdoptError::HasSource => f.write_str("HasSource"),
            AdoptError::Behind => f.write_str("Behind"),
        }
    }
}

impl Error for AdoptError {}
