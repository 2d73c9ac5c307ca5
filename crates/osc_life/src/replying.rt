//! How a context seals a reply to a request that was delivered (RFC 8613, 8.3).

ghost use Rattle.std.specs.Prelude.{◌≡◌, ◌≢◌, ◌≤◌, ◌<◌, ◌^◌, ℕ, Option, Result, Ok, IfSome, IfNone, IfOk, IfErr, OnErr, length, drop, true};
ghost use Rattle.std.specs.Option.{option_map};
ghost use Rattle.osc_coap.specs.Views.{parts_of};
ghost use Rattle.osc_context.specs.Views.{number_of};
ghost use Rattle.osc_life.specs.Replying.{IsFirstReason, lifted};
ghost use Rattle.osc_life.specs.declared.server_error.ReplyError.TheVariants.{KeeperFailed};

use crate::asker::Asker;
use crate::server_error::ReplyError;
use crate::slot::Slot;
use osc_coap::Message;
use osc_context::{Features, Piv};
use osc_protect::{ProtectError, RequestRef, check_response};

/// Turns a refusal to seal into the refusal of a reply.
pub(crate) fn lift(error: ProtectError) -> ReplyError
    ensures value { result ≡ lifted error }
    ensures no_keeper_failed { result ≢ KeeperFailed }
{
    match error {
        ProtectError::NotThatKind => ReplyError::NotThatKind,
        ProtectError::Unsupported(number) => ReplyError::Unsupported(number),
        ProtectError::TooLong => ReplyError::TooLong,
        ProtectError::NoRoom => ReplyError::NoRoom,
    }
}

/// Returns why a response isn't sealed for which there is this other reason: what keeps it from being sealed at all comes first.
pub(crate) fn first_reason(plain: &Message<'_>, features: Features, other: ReplyError) -> ReplyError
    requires { other ≢ KeeperFailed }
    ensures first { IsFirstReason features (parts_of plain.now) other result }
    ensures no_keeper_failed { result ≢ KeeperFailed }
{
    match check_response(plain, features) {
        Ok(()) => other,
        Err(error) => lift(error),
    }
}

impl Slot {
    ghost use Rattle.osc_life.specs.Agrees.{SlotAgrees};
    ghost use Rattle.osc_life.specs.Life.{Life, marked};
    ghost use Rattle.osc_life.specs.Replies.{as_reply};
    ghost use Rattle.osc_life.specs.Replying.{reply_mark};
    ghost use Rattle.osc_life.specs.Views.{reply_entry};
    ghost use Rattle.osc_life.specs.LifeAnswer.{LifeReply, HasAsked, own_number};

    /// Returns the next Sender Sequence Number if one is asked for, and `None` if one is asked for and none is left.
    fn asked_number(&self, own: bool) -> Option<Option<Piv>>
        ensures given { IfSome result (λ number. (l : Life) → SlotAgrees self.now l
            → (option_map number_of number ≡ own_number own l) × HasAsked own l) }
        ensures left { IfSome result (λ number. own ≡ true → self.now.next < 2 ^ 40) }
        ensures none { IfNone result ((own ≡ true) × (2 ^ 40 ≤ self.now.next)) }
    {
        if !own {
            return Some(None);
        }
        match Piv::new(self.next) {
            Some(number) => Some(Some(number)),
            None => None,
        }
    }

    /// Counts a Sender Sequence Number if one was used.
    pub(crate) fn count(&mut self, own: bool)
        requires { own ≡ true → self.old.next < 2 ^ 40 }
        ensures context { self.new.context ≡ self.old.context }
        ensures kept { (l : Life) (n : ℕ) → SlotAgrees self.old l → SlotAgrees self.new (marked (reply_mark (Ok n) own) l) }
    {
        if own {
            self.next += 1;
        }
    }

    /// Seals a reply to the request that had this number and came from this requester in the present life. Returns how many bytes it takes
    /// at the front of `out`.
    pub fn reply_to(
        &mut self,
        number: Piv,
        asker: &Asker,
        own: bool,
        mid: u16,
        plain: &Message<'_>,
        out: &mut [u8],
    ) -> Result<usize, ReplyError>
        ensures context { self.new.context ≡ self.old.context }
        ensures kept { (l : Life) → SlotAgrees self.old l
            → LifeReply l (number_of number) own
            (as_reply asker.now.kind asker.now.message_id asker.now.token.items mid (parts_of plain.now))
            (length out.old) (reply_entry result out.new)
            × SlotAgrees self.new (marked (reply_mark result own) l) }
        ensures within { IfOk result (λ n. n ≤ length out.new) }
        ensures behind { IfOk result (λ n. drop n out.new ≡ drop n out.old) }
        ensures unchanged { OnErr result (out.new ≡ out.old) }
        ensures same { OnErr result (self.new ≡ self.old) }
        ensures no_keeper_failed { IfErr result (λ e. e ≢ KeeperFailed) }
    {
        let (kind, id) = (asker.reply_kind(), asker.reply_id(mid));
        let message = plain.with_head(kind, id, asker.token());
        let Some(own_number) = self.asked_number(own) else {
            let features = self.context.context().features().unobserved();
            let reason = first_reason(&message, features, ReplyError::SequenceExhausted);
            return Err(reason);
        };
        let request = RequestRef::new(number);
        match self
            .context
            .seal_response(&request, own_number, &message, out)
        {
            Ok(len) => {
                self.count(own);
                Ok(len)
            }
            Err(error) => Err(lift(error)),
        }
    }
}
