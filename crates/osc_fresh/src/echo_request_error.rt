//! Why a request isn't sealed with the Echo value that was heard last (RFC 9175, 2.3).

use osc_endpoint::RequestError;
use std::error::Error;
use std::fmt;

/// Why a request isn't sealed with the Echo value that was heard last. An Echo option of the message is judged first, and refused with
/// `Unsupported` 252; then comes `NoRoomForEcho`, and then every other refusal of a peer.
#[derive(Clone, Copy, Debug, PartialEq, Eq)]
pub enum EchoRequestError {
    /// The plain message with the value would have more bytes than the room for it, or more than 65,535 bytes; own rule.
    NoRoomForEcho,
    /// The request isn't sealed for this reason.
    Refused(RequestError),
}

impl fmt::Display for EchoRequestError {
    ghost use Rattle.std.specs.Prelude.{Some};
    ghost use Rattle.osc_fresh.specs.Text.{echo_request_error_text};

    ghost output = { λ error. Some (echo_request_error_text error) };

    fn fmt<W: fmt::Write>(&self, f: &mut fmt::Formatter<W>) -> fmt::Result {
        match self {
            EchoRequestError::NoRoomForEcho => f.write_str("NoRoomForEcho"),
            EchoRequestError::Refused(error) => write!(f, "{error}"),
        }
    }
}

impl Error for EchoRequestError {}
