//! A message as it was read (RFC 7252, 3).

ghost use Rattle.std.specs.Prelude.{◌≡◌};
ghost use Rattle.osc_coap.specs.Reading.{AreOptions};

use crate::code::{is_request_code, is_response_code};
use crate::options::Options;
use arrayvec::ArrayVec;

/// The Type of a message, which says what it is for (RFC 7252, 4): Confirmable, Non-confirmable, Acknowledgement or
/// Reset.
#[derive(Clone, Copy, Debug, PartialEq, Eq)]
pub enum Kind {
    /// The receiver is expected to acknowledge it.
    Con,
    /// The receiver doesn't need to acknowledge it.
    Non,
    /// It acknowledges the message that has the same Message ID.
    Ack,
    /// It says that the message that has the same Message ID couldn't be used.
    Rst,
}

/// What ties a response to its request: 0 to 8 bytes, chosen by the client.
pub type Token = ArrayVec<u8, 8>;

/// A message. Its options and its payload lie in the datagram that it was read from.
#[derive(Debug, Drop, PartialEq, Eq)]
pub struct Message<'a> {
    pub kind: Kind,
    /// The code as one byte: class in the upper three bits, detail in the lower five.
    pub code: u8,
    pub message_id: u16,
    pub token: Token,
    pub(crate) options: &'a [u8],
    pub(crate) payload: &'a [u8],
    ghost spelled: { AreOptions 0 options.now },
}

impl<'a> Message<'a> {
    ghost use Rattle.osc_coap.specs.Views.{parts_of, options_left};
    ghost use Rattle.osc_coap.specs.Code.{is_request, is_response};

    /// Returns the options in the order of the datagram, each with its number and its value.
    #[must_use]
    pub fn options(&self) -> Options<'a>
        ensures { options_left result ≡ (parts_of self.now).options }
    {
        Options::new(self.options)
    }

    /// Returns the bytes after the marker, or no bytes if there is no marker.
    #[must_use]
    pub fn payload(&self) -> &'a [u8]
        ensures { result.now ≡ (parts_of self.now).payload }
    {
        self.payload
    }

    /// Returns whether the message is a request: CON or NON, with a code of 0.01 to 0.31 (RFC 7252, 4.2, 4.3 and 12.1).
    #[must_use]
    pub fn is_request(&self) -> bool
        ensures { result ≡ is_request self.now.kind self.now.code }
    {
        match self.kind {
            Kind::Con | Kind::Non => is_request_code(self.code),
            Kind::Ack | Kind::Rst => false,
        }
    }

    /// Returns whether the message is a response: CON, NON or ACK, with a code of class 2, 4 or 5 (RFC 7252, 4.2, 4.3
    /// and 12.1).
    #[must_use]
    pub fn is_response(&self) -> bool
        ensures { result ≡ is_response self.now.kind self.now.code }
    {
        match self.kind {
            Kind::Con | Kind::Non | Kind::Ack => is_response_code(self.code),
            Kind::Rst => false,
        }
    }

    /// Returns a message with the same code, options and payload under another head (RFC 7252, 3).
    #[must_use]
    pub fn with_head(&self, kind: Kind, message_id: u16, token: Token) -> Message<'a>
        ensures { parts_of result ≡ record (parts_of self.now) {
          kind = kind;
          message_id = message_id;
          token = token.items;
        } }
    {
        Message {
            kind,
            code: self.code,
            message_id,
            token,
            options: self.options,
            payload: self.payload,
        }
    }
}
