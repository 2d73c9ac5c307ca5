//! What is remembered of one request.

ghost use Rattle.std.specs.Prelude.{◌≡◌, ◌<◌, ◌≤◌, ◌⊎◌, [], length, true, false, IfNone, IfSome};
ghost use Rattle.osc_context.specs.Views.{number_of};
ghost use Rattle.osc_replies.specs.Asked.{IsAnswered};
ghost use Rattle.osc_replies.specs.Answering.{IsTooLong};
ghost use Rattle.osc_replies.specs.Requested.{IsKeptOf};
ghost use Rattle.osc_replies.specs.Views.{kept_of};

use crate::identity::{Identity, identity_of};
use crate::reply::is_reply;
use arrayvec::ArrayVec;
use osc_coap::{one_datagram, parse};
use osc_protect::one_head;

/// What is remembered of one request, with room for LEN bytes of its ciphertext and LEN bytes of its reply. The OSCORE option of a request to
/// a context of this library has at most 46 bytes: the flag byte, a Partial IV of 5, an ID Context of 32 with its length, and a kid of 7
/// (RFC 8613, 6.1).
#[derive(Drop)]
pub struct Remembered<const LEN: usize> {
    number: u64,
    option: ArrayVec<u8, 46>,
    text: ArrayVec<u8, LEN>,
    reply: ArrayVec<u8, LEN>,
}

// What stands in a place of the memory that has no request.
impl<const LEN: usize> Default for Remembered<LEN> {
    fn default() -> Remembered<LEN> {
        Remembered {
            number: 0,
            option: ArrayVec::new(),
            text: ArrayVec::new(),
            reply: ArrayVec::new(),
        }
    }
}

impl<const LEN: usize> Remembered<LEN> {
    /// Remembers the protected request in a datagram, before it is opened in place. It has no reply yet. Returns `None` if the datagram is no
    /// protected request, or if its option has more than 46 bytes, or its ciphertext more than LEN.
    #[must_use]
    pub fn request(datagram: &[u8]) -> Option<Remembered<LEN>>
        ensures made { IfSome result (λ r. IsKeptOf (kept_of r) datagram.now) }
        ensures refused { IfNone result (IsTooLong LEN datagram.now) }
    {
        // For the proof alone.
        one_datagram();
        one_head();
        let Ok(message) = parse(datagram) else {
            return None;
        };
        match identity_of(&message) {
            Some(identity) => Remembered::of(identity),
            None => None,
        }
    }

    /// Remembers a request without a reply, if there is room for its option and its ciphertext.
    fn of(identity: Identity<'_>) -> Option<Remembered<LEN>>
        ensures number { IfSome result (λ r. (kept_of r).number ≡ number_of identity.entry.number) }
        ensures option { IfSome result (λ r. (kept_of r).option ≡ identity.entry.option.now) }
        ensures text { IfSome result (λ r. (kept_of r).text ≡ identity.entry.text.now) }
        ensures reply { IfSome result (λ r. (kept_of r).reply ≡ []) }
        ensures refused { IfNone result ((46 < length identity.entry.option.now) ⊎ (LEN < length identity.entry.text.now)) }
    {
        let (mut option, mut text) = (ArrayVec::new(), ArrayVec::new());
        let Ok(()) = option.try_extend_from_slice(identity.option) else {
            return None;
        };
        let Ok(()) = text.try_extend_from_slice(identity.text) else {
            return None;
        };
        Some(Remembered {
            number: identity.number.number(),
            option,
            text,
            reply: ArrayVec::new(),
        })
    }

    /// Gives the request its reply, in place of one that it had.
    pub(crate) fn answer(&mut self, reply: &[u8])
        requires { length reply.now ≤ LEN }
        ensures { kept_of self.new ≡ record (kept_of self.old) { reply = reply.now } }
    {
        self.reply.clear();
        self.reply.try_extend_from_slice(reply).unwrap();
    }

    /// Returns the request's number.
    pub(crate) fn number(&self) -> u64
        ensures { result ≡ (kept_of self.now).number }
    {
        self.number
    }

    /// Returns the bytes of the reply, which are none if there is none yet.
    pub(crate) fn reply(&self) -> &[u8]
        ensures { result.now ≡ (kept_of self.now).reply }
    {
        self.reply.as_slice()
    }

    /// Returns whether this is the request, and has a reply.
    pub(crate) fn is_answered(&self, identity: Identity<'_>) -> bool
        ensures yes { result ≡ true → IsAnswered (kept_of self.now) (number_of identity.entry.number) identity.entry.option.now identity.entry.text.now }
        ensures no { result ≡ false → IsAnswered (kept_of self.now) (number_of identity.entry.number) identity.entry.option.now identity.entry.text.now → ⊥ }
    {
        if self.number != identity.number.number() || self.option.as_slice() != identity.option {
            return false;
        }
        if self.text.as_slice() != identity.text {
            return false;
        }
        is_reply(self.reply.as_slice())
    }
}
