//! Why an end whose numbers are kept doesn't begin a life.

ghost use Rattle.std.specs.Prelude.{◌≡◌};
ghost use Rattle.osc_kept_ends.specs.Views.{lifted};

use osc_context::NumbersError;
use std::error::Error;
use std::fmt;

/// Why an end whose numbers are kept doesn't begin a life. The variants stand in the order in which they are checked.
#[derive(Clone, Copy, Debug, PartialEq, Eq)]
pub enum KeptError {
    /// The keeper failed in this call.
    KeeperFailed,
    /// The number that is kept is above 2^40.
    KeptTooLarge,
    /// No number below 2^40 is left (RFC 8613, 7.2.1).
    NumbersExhausted,
    /// The server's context was restarted 2^64 - 1 times. Neither a start nor a client ever returns this.
    LivesExhausted,
}

/// Returns the refusal of a kept end that stands for a refusal of its numbers.
pub(crate) fn lift(error: NumbersError) -> KeptError
    ensures { result ≡ lifted error }
{
    match error {
        NumbersError::KeeperFailed => KeptError::KeeperFailed,
        NumbersError::KeptTooLarge => KeptError::KeptTooLarge,
        NumbersError::NumbersExhausted => KeptError::NumbersExhausted,
    }
}

impl fmt::Display for KeptError {
    ghost use Rattle.std.specs.Prelude.{Some};
    ghost use Rattle.osc_kept_ends.specs.Views.{kept_error_text};

    ghost output = { λ error. Some (kept_error_text error) };

    fn fmt<W: fmt::Write>(&self, f: &mut fmt::Formatter<W>) -> fmt::Result {
        match self {
            KeptError::KeeperFailed => f.write_str("KeeperFailed"),
            KeptError::KeptTooLarge => f.write_str("KeptTooLarge"),
            KeptError::NumbersExhausted => f.write_str("NumbersExhausted"),
            KeptError::LivesExhausted => f.write_str("LivesExhausted"),
        }
    }
}

impl Error for KeptError {}
