//! The requester that a reply goes to.

ghost use Rattle.std.specs.Prelude.{◌≡◌, false};

use osc_coap::{Kind, Message, Token};
use osc_observe::siblings::copy_of;

/// What a reply takes from its request: from the head (RFC 7252, 5.2 and 5.3.2), and whether the request registers an observation, which
/// only an opened request tells (RFC 8613, 4.1.3.5.1). That stands beside the Type, where it takes no room.
#[derive(Debug, Drop)]
pub struct Asker {
    pub kind: Kind,
    pub observes: bool,
    pub message_id: u16,
    pub token: Token,
}

impl Asker {
    ghost use Rattle.osc_coap.specs.Views.{parts_of};
    ghost use Rattle.osc_life.specs.Replies.{reply_kind, reply_id};

    /// Returns the requester that a reply to this message goes to. It registers nothing yet.
    #[must_use]
    pub fn of(message: Message<'_>) -> Asker
        ensures kind { result.kind ≡ (parts_of message.entry).kind }
        ensures observes { result.observes ≡ false }
        ensures message_id { result.message_id ≡ (parts_of message.entry).message_id }
        ensures token { result.token.items ≡ (parts_of message.entry).token }
    {
        Asker {
            kind: message.kind,
            observes: false,
            message_id: message.message_id,
            token: message.token,
        }
    }

    /// Returns a copy of the token.
    pub(crate) fn token(&self) -> Token
        ensures { result.items ≡ self.now.token.items }
    {
        copy_of(&self.token)
    }

    /// Returns the Type of a reply: ACK to a CON, NON to a NON (RFC 7252, 5.2).
    pub(crate) fn reply_kind(&self) -> Kind
        ensures { result ≡ reply_kind self.now.kind }
    {
        match self.kind {
            Kind::Con => Kind::Ack,
            Kind::Non | Kind::Ack | Kind::Rst => Kind::Non,
        }
    }

    /// Returns the Message ID of a reply: an ACK has the request's, a NON has the one passed in (RFC 7252, 4.2 and 4.3).
    pub(crate) fn reply_id(&self, mid: u16) -> u16
        ensures { result ≡ reply_id self.now.kind self.now.message_id mid }
    {
        match self.kind {
            Kind::Con => self.message_id,
            Kind::Non | Kind::Ack | Kind::Rst => mid,
        }
    }
}
