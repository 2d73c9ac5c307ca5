//! What a message does that comes, by its Type and its code (RFC 7252, 4.2 to 4.5 and 5.2).

ghost use Rattle.std.specs.Prelude.{◌≡◌};
ghost use Rattle.osc_coap.specs.Datagram.{IsDatagram};
ghost use Rattle.osc_message.specs.Incoming.{empty, full, row};

use osc_coap::{Kind, Token, Writer, is_request_code, is_response_code};

/// How many bytes an empty message has (RFC 7252, 4.1).
const EMPTY_LEN: usize = 4;

/// What a message does that comes.
#[derive(Clone, Copy, Debug, PartialEq, Eq)]
pub enum Incoming {
    /// It came before. A CON gets what was sent for it; nobody sees it again (RFC 7252, 4.5).
    Again,
    /// It is a request.
    Request,
    /// It is a response to a request of ours. A CON gets an ACK (RFC 7252, 5.2.2).
    Response,
    /// A message of ours has arrived, and isn't sent again (RFC 7252, 4.2).
    Acknowledged,
    /// A message of ours can't be used there (RFC 7252, 4.2).
    Reset,
    /// It can't be used, and gets an RST; so does a ping (RFC 7252, 4.2 and 4.3).
    Reject,
    /// It can't be used, and gets nothing (RFC 7252, 4.2 and 4.3).
    Ignore,
}

/// Judges a CON or a NON that isn't empty.
fn judge_full(code: u8, came_before: bool, is_awaited: bool, unusable: Incoming) -> Incoming
    ensures { result ≡ full code came_before is_awaited unusable }
{
    if is_response_code(code) && is_awaited {
        Incoming::Response
    } else if came_before {
        Incoming::Again
    } else if is_request_code(code) {
        Incoming::Request
    } else {
        unusable
    }
}

/// Says what a message does that comes, by its Type and its code. `came_before` says whether the same message came before, and `is_awaited`
/// whether a message of ours is one that it is for: by its Message ID if it is an RST or an empty ACK, else by its token.
#[must_use]
pub fn judge_incoming(kind: Kind, code: u8, came_before: bool, is_awaited: bool) -> Incoming
    ensures { result ≡ row kind code came_before is_awaited }
{
    match kind {
        Kind::Con if code == 0 => Incoming::Reject,
        Kind::Con => judge_full(code, came_before, is_awaited, Incoming::Reject),
        Kind::Non if code == 0 => Incoming::Ignore,
        Kind::Non => judge_full(code, came_before, is_awaited, Incoming::Ignore),
        Kind::Ack if is_awaited && code == 0 => Incoming::Acknowledged,
        Kind::Ack if is_awaited && is_response_code(code) => Incoming::Response,
        Kind::Rst if is_awaited && code == 0 => Incoming::Reset,
        Kind::Ack | Kind::Rst => Incoming::Ignore,
    }
}

/// Makes an empty message, as an ACK or an RST for the message with this Message ID (RFC 7252, 4.1 to 4.3).
#[must_use]
pub fn empty_message(kind: Kind, message_id: u16) -> [u8; 4]
    ensures { IsDatagram (empty kind message_id) result }
{
    let mut bytes = [0; EMPTY_LEN];
    let _ = Writer::begin(&mut bytes, kind, 0, message_id, &Token::new()).finish();
    bytes
}
