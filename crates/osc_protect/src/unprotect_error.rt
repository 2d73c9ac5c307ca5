//! Why a datagram doesn't open.

use crate::head_error::HeadError;
use osc_coap::FormatError;
use std::error::Error;
use std::fmt;

/// Why a datagram doesn't open. The variants stand in the order in which they are checked (RFC 8613, 8.2 and 8.4).
#[derive(Clone, Copy, Debug, PartialEq, Eq)]
pub enum UnprotectError {
    /// The bytes aren't a CoAP message.
    Format(FormatError),
    /// A request isn't CON or NON with a request code, or a response isn't CON, NON or ACK with a response code.
    NotThatKind,
    /// There is no OSCORE option.
    NoOscore,
    /// One of these holds: there are two or more OSCORE options; the value of the one OSCORE option can't be read; in a request, it lacks a
    /// Partial IV or a kid; in a response, it has a kid or a kid context; there is no payload; there is an option for proxies.
    Undecodable,
    /// The kid isn't the client's identifier, or the kid context isn't the ID Context. A response is never refused for this.
    WrongContext,
    /// The payload protects no plaintext.
    Tag,
    /// The plaintext isn't a message; or a request's code isn't a request code, or a response's code isn't a response code; or it has an
    /// option that may not stand inside the protection.
    Inner,
}

impl From<HeadError> for UnprotectError {
    ghost use Rattle.std.specs.Prelude.{◌≡◌};
    ghost use Rattle.osc_protect.specs.Text.{lifted};

    ghost from_gives = { λ error given. given ≡ lifted error };

    fn from(error: HeadError) -> UnprotectError {
        match error {
            HeadError::Format(error) => UnprotectError::Format(error),
            HeadError::NotThatKind => UnprotectError::NotThatKind,
            HeadError::NoOscore => UnprotectError::NoOscore,
            HeadError::Undecodable => UnprotectError::Undecodable,
        }
    }
}

impl fmt::Display for UnprotectError {
    ghost use Rattle.std.specs.Prelude.{Some};
    ghost use Rattle.osc_protect.specs.Text.{unprotect_error_text};

    ghost output = { λ error. Some (unprotect_error_text error) };

    fn fmt<W: fmt::Write>(&self, f: &mut fmt::Formatter<W>) -> fmt::Result {
        match self {
            UnprotectError::Format(error) => write!(f, "{error}"),
            UnprotectError::NotThatKind => f.write_str("NotThatKind"),
            UnprotectError::NoOscore => f.write_str("NoOscore"),
            UnprotectError::Undecodable => f.write_str("Undecodable"),
            UnprotectError::WrongContext => f.write_str("WrongContext"),
            UnprotectError::Tag => f.write_str("Tag"),
            UnprotectError::Inner => f.write_str("Inner"),
        }
    }
}

impl Error for UnprotectError {}
