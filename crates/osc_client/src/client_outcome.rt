//! What a client makes of calls and datagrams.

use osc_coap::FormatError;
use osc_context::Piv;
use osc_protect::Opened;
use std::error::Error;
use std::fmt;

/// Why a request isn't sealed. The variants stand in the order in which they are checked, except that `KeeperFailed` comes before all
/// others.
#[derive(Clone, Copy, Debug, PartialEq, Eq)]
pub enum RequestError {
    /// The message is not CON or NON with a request code.
    NotThatKind,
    /// The message has an option that can't be sealed. The value is the lowest number of such an option; own rule.
    Unsupported(u16),
    /// A request with this token is pending, and doesn't give way to this one: see `Client::request`.
    TokenInUse,
    /// The client has as many pending requests as it has places for, or places for requests of this kind: see `Client::set_apart`; own rule.
    PendingFull,
    /// No Sender Sequence Number is left.
    SequenceExhausted,
    /// The request would have more than 65,535 bytes; own rule.
    TooLong,
    /// The request would have more bytes than the buffer.
    NoRoom,
    /// A keeper of numbers failed, before anything was checked. A `Client` never returns this.
    KeeperFailed,
}

impl fmt::Display for RequestError {
    ghost use Rattle.std.specs.Prelude.{Some};
    ghost use Rattle.osc_client.specs.Text.{request_error_text};

    ghost output = { λ error. Some (request_error_text error) };

    fn fmt<W: fmt::Write>(&self, f: &mut fmt::Formatter<W>) -> fmt::Result {
        match self {
            RequestError::NotThatKind => f.write_str("NotThatKind"),
            RequestError::Unsupported(number) => write!(f, "Unsupported {number}"),
            RequestError::TokenInUse => f.write_str("TokenInUse"),
            RequestError::PendingFull => f.write_str("PendingFull"),
            RequestError::SequenceExhausted => f.write_str("SequenceExhausted"),
            RequestError::TooLong => f.write_str("TooLong"),
            RequestError::NoRoom => f.write_str("NoRoom"),
            RequestError::KeeperFailed => f.write_str("KeeperFailed"),
        }
    }
}

impl Error for RequestError {}

/// Fewer Sender Sequence Numbers below 2^40 are left than are to be passed over (RFC 8613, 7.2.1).
#[derive(Clone, Copy, Debug, PartialEq, Eq)]
pub struct TooFewLeft;

impl fmt::Display for TooFewLeft {
    ghost use Rattle.std.specs.Prelude.{Some, codes};

    ghost output = { λ error. Some (codes "TooFewLeft") };

    fn fmt<W: fmt::Write>(&self, f: &mut fmt::Formatter<W>) -> fmt::Result {
        f.write_str("TooFewLeft")
    }
}

impl Error for TooFewLeft {}

/// The context has the Sender Key of the one that it is to replace: both would use the same Sender Sequence Numbers (RFC 8613, 3.3 and 5.2).
#[derive(Clone, Copy, Debug, PartialEq, Eq)]
pub struct SameSender;

impl fmt::Display for SameSender {
    ghost use Rattle.std.specs.Prelude.{Some, codes};

    ghost output = { λ error. Some (codes "SameSender") };

    fn fmt<W: fmt::Write>(&self, f: &mut fmt::Formatter<W>) -> fmt::Result {
        f.write_str("SameSender")
    }
}

impl Error for SameSender {}

/// What a client makes of a datagram: the first of these variants whose condition holds.
#[derive(Debug, Drop)]
pub enum ClientOutcome<'b> {
    /// The bytes aren't a CoAP message.
    Malformed(FormatError),
    /// The message is not CON, NON or ACK with a response code.
    NotResponse,
    /// No request with this token is pending.
    UnknownToken,
    /// There is no OSCORE option.
    Unprotected,
    /// The OSCORE option can't be used, or there is no payload, or there is an option for proxies.
    Undecodable,
    /// The pending request is a registration, and a later response to it was delivered: one with the same or a greater Partial IV of its
    /// own, or any if this one is a notification without one.
    Old,
    /// The payload protects no plaintext as a response to the pending request.
    BadTag,
    /// The plaintext isn't a response that may stand inside the protection.
    BadInner,
    /// A notification is delivered, with the number of the registration. That request stays pending, and waits for later responses.
    Notified(Opened<'b>, Piv),
    /// The response is delivered, with the number of its request. That request is no longer pending.
    Deliver(Opened<'b>, Piv),
}
