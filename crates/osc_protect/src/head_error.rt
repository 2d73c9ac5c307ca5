//! Why a message, or a datagram, has no head of a protected message.

use osc_coap::FormatError;
use std::error::Error;
use std::fmt;

/// Why a message has no head of a protected message. The variants stand in the order in which they are checked.
#[derive(Clone, Copy, Debug, PartialEq, Eq)]
pub enum NoHead {
    /// The Type and code aren't the ones that were asked for. A request is CON or NON with a request code. A response is CON, NON or ACK
    /// with a response code.
    NotThatKind,
    /// There is no OSCORE option.
    NoOscore,
    /// One of these holds: there are two or more OSCORE options; the value of the one OSCORE option can't be read; in a request, it lacks a
    /// Partial IV or a kid; in a response, it has a kid or a kid context; there is no payload; there is an option for proxies.
    Undecodable,
}

impl fmt::Display for NoHead {
    ghost use Rattle.std.specs.Prelude.{Some};
    ghost use Rattle.osc_protect.specs.Text.{no_head_text};

    ghost output = { λ none. Some (no_head_text none) };

    fn fmt<W: fmt::Write>(&self, f: &mut fmt::Formatter<W>) -> fmt::Result {
        match self {
            NoHead::NotThatKind => f.write_str("NotThatKind"),
            NoHead::NoOscore => f.write_str("NoOscore"),
            NoHead::Undecodable => f.write_str("Undecodable"),
        }
    }
}

impl Error for NoHead {}

/// Why a datagram has no head of a protected request. The variants stand in the order in which they are checked.
#[derive(Clone, Copy, Debug, PartialEq, Eq)]
pub enum HeadError {
    /// The bytes aren't a CoAP message.
    Format(FormatError),
    /// The message is not CON or NON with a request code.
    NotThatKind,
    /// There is no OSCORE option.
    NoOscore,
    /// One of these holds: there are two or more OSCORE options; the value of the one OSCORE option can't be read, or lacks a Partial IV or
    /// a kid; there is no payload; there is an option for proxies.
    Undecodable,
}

impl From<NoHead> for HeadError {
    ghost use Rattle.std.specs.Prelude.{◌≡◌};
    ghost use Rattle.osc_protect.specs.Text.{raised};

    ghost from_gives = { λ none given. given ≡ raised none };

    fn from(none: NoHead) -> HeadError {
        match none {
            NoHead::NotThatKind => HeadError::NotThatKind,
            NoHead::NoOscore => HeadError::NoOscore,
            NoHead::Undecodable => HeadError::Undecodable,
        }
    }
}

impl fmt::Display for HeadError {
    ghost use Rattle.std.specs.Prelude.{Some};
    ghost use Rattle.osc_protect.specs.Text.{head_error_text};

    ghost output = { λ error. Some (head_error_text error) };

    fn fmt<W: fmt::Write>(&self, f: &mut fmt::Formatter<W>) -> fmt::Result {
        match self {
            HeadError::Format(error) => write!(f, "{error}"),
            HeadError::NotThatKind => f.write_str("NotThatKind"),
            HeadError::NoOscore => f.write_str("NoOscore"),
            HeadError::Undecodable => f.write_str("Undecodable"),
        }
    }
}

impl Error for HeadError {}
