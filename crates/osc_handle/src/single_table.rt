//! One context in its present life, as the table of a server that has only this context.

ghost use Rattle.std.specs.Prelude.{◌≡◌, ◌≢◌, ◌≤◌, ℕ, List, Option, Some, IfOk, IfErr, OnErr, true, length, drop};
ghost use Rattle.osc_context.specs.Views.{number_of};
ghost use Rattle.osc_coap.specs.Views.{parts_of};
ghost use Rattle.osc_endpoint.specs.Agrees.{TableAgrees};
ghost use Rattle.osc_life.specs.Life.{Life, marked};
ghost use Rattle.osc_life.specs.Replies.{as_reply};
ghost use Rattle.osc_life.specs.Replying.{reply_mark};
ghost use Rattle.osc_life.specs.LifeAnswer.{LifeNotify, LifeReply, as_notification};
ghost use Rattle.osc_life.specs.Views.{reply_entry};
ghost use Rattle.osc_life.specs.declared.server_error.ReplyError.TheVariants.{KeeperFailed};
ghost use Rattle.osc_life.specs.declared.slot.Slot.{Slot as SlotOf};
ghost use Rattle.osc_handle.specs.Held as lemmas;
ghost use Rattle.osc_handle.specs.SingleServerBytes.{table_of};
ghost use Rattle.osc_handle.specs.SlotBytes.{IsSlotBytes};
ghost use Rattle.osc_handle.specs.TableBytes.{IsTableIn, bytes_at};
ghost use Rattle.osc_handle.specs.TableSteps.{ChangesAt};

use crate::slot_handle::SlotHandle;
use osc_coap::{Message, Token};
use osc_context::Piv;
use osc_endpoint::siblings::{Asker, Contexts, Named, is_replay, refuse_replay};
use osc_endpoint::{Decided, ReplyError};
use osc_protect::encrypt_again;

impl SlotHandle {
    /// Seals a reply to a request of the context's present life.
    pub(crate) fn reply_alone(
        &mut self,
        number: Piv,
        asker: &Asker,
        own: bool,
        mid: u16,
        plain: &Message<'_>,
        out: &mut [u8],
    ) -> Result<usize, ReplyError>
        requires { IsSlotBytes self.old }
        ensures answer { (slots : List (Option SlotOf)) (lives : ℕ → Option Life) (l : Life) → IsTableIn (table_of self.old) slots → TableAgrees slots lives → lives 0 ≡ Some l
            → LifeReply l (number_of number) own (as_reply asker.now.kind asker.now.message_id asker.now.token.items mid (parts_of plain.now)) (length out.old) (reply_entry result out.new) }
        ensures kept { (slots : List (Option SlotOf)) (lives : ℕ → Option Life) (l : Life) → IsTableIn (table_of self.old) slots → TableAgrees slots lives → lives 0 ≡ Some l
            → ChangesAt slots lives 0 (marked (reply_mark result own) l) (table_of self.new) }
        ensures bytes { IsSlotBytes self.new }
        ensures within { IfOk result (λ n. n ≤ length out.new) }
        ensures behind { IfOk result (λ n. drop n out.new ≡ drop n out.old) }
        ensures unchanged { OnErr result (out.new ≡ out.old) }
        ensures same { OnErr result (self.new ≡ self.old) }
        ensures no_keeper_failed { IfErr result (λ e. e ≢ KeeperFailed) }
    {
        self.reply_to(number, asker, own, mid, plain, out)
    }

    /// Seals a notification to a request of the context's present life, which registered an observation.
    pub(crate) fn notify_alone(
        &mut self,
        number: Piv,
        token: &Token,
        plain: &Message<'_>,
        out: &mut [u8],
    ) -> Result<usize, ReplyError>
        requires { IsSlotBytes self.old }
        ensures answer { (slots : List (Option SlotOf)) (lives : ℕ → Option Life) (l : Life) → IsTableIn (table_of self.old) slots → TableAgrees slots lives → lives 0 ≡ Some l
            → LifeNotify l (number_of number) (as_notification token.now.items (parts_of plain.now)) (length out.old) (reply_entry result out.new) }
        ensures kept { (slots : List (Option SlotOf)) (lives : ℕ → Option Life) (l : Life) → IsTableIn (table_of self.old) slots → TableAgrees slots lives → lives 0 ≡ Some l
            → ChangesAt slots lives 0 (marked (reply_mark result true) l) (table_of self.new) }
        ensures bytes { IsSlotBytes self.new }
        ensures within { IfOk result (λ n. n ≤ length out.new) }
        ensures behind { IfOk result (λ n. drop n out.new ≡ drop n out.old) }
        ensures unchanged { OnErr result (out.new ≡ out.old) }
        ensures same { OnErr result (self.new ≡ self.old) }
        ensures no_keeper_failed { IfErr result (λ e. e ≢ KeeperFailed) }
    {
        self.notify_to(number, token, plain, out)
    }
}

impl SlotHandle {
    ghost use Rattle.std.specs.Prelude.{Option};
    ghost use Rattle.osc_life.specs.Deciding.{IsOpenedIn};

    /// Encrypts a request again that was decrypted under the context, so that the datagram is as it came (RFC 8613, 5.3).
    #[doc(hidden)]
    pub fn encrypt_again(&self, datagram: &mut [u8])
        requires { IsSlotBytes self.now }
        ensures { (came : List ℕ) → ((slots : List (Option SlotOf)) → IsTableIn (table_of self.now) slots → IsOpenedIn slots came datagram.old)
            → datagram.new ≡ came }
    {
        let slot = self.slot();
        encrypt_again(&slot.context, datagram);
    }
}

impl Contexts for SlotHandle {
    ghost places = { 1 };

    ghost is_table = { IsSlotBytes };

    ghost holds = { λ b slots. IsTableIn (table_of b) slots };

    ghost context_at = { λ b i. bytes_at (table_of b) i };

    fn find(&self, kid: &[u8], kid_context: Option<&[u8]>) -> Option<usize> {
        if self.context.answers_to(kid, kid_context) {
            return Some(0);
        }
        None
    }

    fn judge_at(&mut self, request: Named, datagram: &mut [u8], out: &mut [u8; 64]) -> Decided {
        let Some(gate) = self.gate() else {
            unreachable!();
        };
        // A replay needs no key schedule.
        if is_replay(&gate, None, request.number) {
            return refuse_replay(&request, out);
        }
        let mut slot = self.slot_with(gate);
        let decided = slot.judge_new(request, datagram, out);
        self.keep(&slot);
        decided
    }

    ghost held = { λ b slots i same. lemmas.held (table_of b) slots i same };
}
