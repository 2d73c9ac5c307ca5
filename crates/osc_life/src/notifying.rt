//! How a context seals a notification to a request that was delivered (RFC 8613, 4.1.3.5 and 8.3.1).

ghost use Rattle.std.specs.Prelude.{◌≡◌, ◌≢◌, ◌≤◌, ℕ, IfOk, IfErr, IsOk, OnErr, length, drop, true};
ghost use Rattle.osc_coap.specs.Views.{parts_of};
ghost use Rattle.osc_context.specs.Views.{number_of};
ghost use Rattle.osc_protect.specs.Checks.{ChecksResponse};
ghost use Rattle.osc_protect.specs.SealRefusals.{IsPlainResponse};
ghost use Rattle.osc_protect.specs.Views.{context_of, registers};
ghost use Rattle.osc_observe.specs.Observing.{is_notification};
ghost use Rattle.osc_life.specs.ServerHistory.{NotReplied};
ghost use Rattle.osc_life.specs.declared.server_error.ReplyError.TheVariants.{KeeperFailed};

use crate::replying::{first_reason, lift};
use crate::server_error::ReplyError;
use crate::slot::Slot;
use osc_coap::{Message, Token};
use osc_context::Piv;
use osc_observe::siblings::copy_of;
use osc_protect::RequestRef;
use osc_protect::siblings::Checked;

impl Slot {
    ghost use Rattle.osc_life.specs.Agrees.{SlotAgrees};
    ghost use Rattle.osc_life.specs.Life.{Life, marked};
    ghost use Rattle.osc_life.specs.Replying.{reply_mark};
    ghost use Rattle.osc_life.specs.Views.{reply_entry};
    ghost use Rattle.osc_life.specs.LifeAnswer.{LifeNotify, as_notification};

    /// Checks whether a message can be sealed as a notification to a request, whatever its length: what keeps a response from being sealed at
    /// all comes first, and then `NotNotification`.
    fn check_notification(
        &self,
        request: &RequestRef,
        message: &Message<'_>,
    ) -> Result<Checked, ReplyError>
        requires { registers request.now ≡ true }
        ensures made { IfOk result (λ c. ChecksResponse (context_of self.now.context) request.now (parts_of message.now) c) }
        ensures plain { IsOk result → (l : Life) → SlotAgrees self.now l → IsPlainResponse l.context.features (parts_of message.now) }
        ensures notifies { IsOk result → is_notification (parts_of message.now).code (parts_of message.now).options ≡ true }
        ensures refused { IfErr result (λ e. (l : Life) → SlotAgrees self.now l → (n room : ℕ)
            → LifeNotify l n (parts_of message.now) room (NotReplied e)) }
        ensures no_keeper_failed { IfErr result (λ e. e ≢ KeeperFailed) }
    {
        if message.code / 32 != 2 {
            let features = self.context.context().features();
            let reason = first_reason(message, features, ReplyError::NotNotification);
            return Err(reason);
        }
        match self.context.check_response(request, message) {
            Ok(checked) if checked.observes() => Ok(checked),
            Ok(_) => Err(ReplyError::NotNotification),
            Err(error) => Err(lift(error)),
        }
    }

    /// Seals a notification to the request that had this number and this token in the present life, and registered an observation. Returns
    /// how many bytes it takes at the front of `out`.
    pub fn notify_to(
        &mut self,
        number: Piv,
        token: &Token,
        plain: &Message<'_>,
        out: &mut [u8],
    ) -> Result<usize, ReplyError>
        ensures context { self.new.context ≡ self.old.context }
        ensures kept { (l : Life) → SlotAgrees self.old l
            → LifeNotify l (number_of number) (as_notification token.now.items (parts_of plain.now)) (length out.old)
            (reply_entry result out.new)
            × SlotAgrees self.new (marked (reply_mark result true) l) }
        ensures within { IfOk result (λ n. n ≤ length out.new) }
        ensures behind { IfOk result (λ n. drop n out.new ≡ drop n out.old) }
        ensures unchanged { OnErr result (out.new ≡ out.old) }
        ensures same { OnErr result (self.new ≡ self.old) }
        ensures no_keeper_failed { IfErr result (λ e. e ≢ KeeperFailed) }
    {
        let message = plain.with_head(plain.kind, plain.message_id, copy_of(token));
        let request = RequestRef::registering(number);
        let checked = self.check_notification(&request, &message)?;
        let Some(own) = Piv::new(self.next) else {
            return Err(ReplyError::SequenceExhausted);
        };
        match self
            .context
            .seal_checked(&request, Some(own), checked, &message, out)
        {
            Ok(len) => {
                self.count(true);
                Ok(len)
            }
            Err(error) => Err(lift(error)),
        }
    }
}
