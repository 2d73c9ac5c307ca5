//! A server of one context, as bytes. It does what a `Server` does that has this context alone, at index 0.

ghost use Rattle.std.specs.Prelude.{◌≡◌, ◌≢◌, ◌≤◌, ◌∷◌, [], List, Option, Err, IfErr, IfOk, IfSome, IsSome, None, OnErr, length, take, drop};
ghost use Rattle.osc_coap.specs.Views.{parts_of};
ghost use Rattle.osc_life.specs.Deciding.{CanShow, Leaves};
ghost use Rattle.osc_life.specs.LifeAnswer.{asks_own};
ghost use Rattle.osc_life.specs.ServerHistory.{Added, Begin, History};
ghost use Rattle.osc_life.specs.Views.{reply_entry, values_of};
ghost use Rattle.osc_life.specs.declared.server_error.ReplyError.TheVariants.{KeeperFailed};
ghost use Rattle.osc_life.specs.declared.slot.Slot.{Slot as SlotOf};
ghost use Rattle.osc_context_handle.specs.ContextBytes.{IsContext, server_in};
ghost use Rattle.osc_handle.specs.Noting.{Notes, NotesTicket};
ghost use Rattle.osc_handle.specs.ServerBytes.{AddsIn, DecidesIn, IsSpent, NotifiesIn, RepliesIn, Serves, entry_of_reply};
ghost use Rattle.osc_handle.specs.SingleServerBytes.{server_of_one, table_of};
ghost use Rattle.osc_handle.specs.SlotBytes.{HasNoDoubt, IsSlotBytes};
ghost use Rattle.osc_handle.specs.TableBytes.{IsTableIn};
ghost use Rattle.osc_handle.specs.TableSteps.{is_present_in};
ghost use Rattle.osc_handle.specs.TicketBytes.{IsTicket, ticket_in};
ghost use Rattle.osc_handle.specs.declared.reply_refusal.ReplyRefusal.TheVariants.{BadHandle, TicketSpent, Refused};

use crate::reply_refusal::ReplyRefusal;
use crate::slot_handle::SlotHandle;
use crate::ticket_handle::TicketHandle;
use crate::unanswered_handle::UnansweredHandle;
use osc_coap::Message;
use osc_context_handle::ContextHandle;
use osc_endpoint::siblings::{Slot, decide_over};
use osc_endpoint::{Decided, Decision, Fresh, ReplyError, Start, Ticket};
use osc_protect::KeyedContext;
use osc_window::WindowSize;

/// A server of one context, which has index 0: its clock, the context, and which of its requests are waiting for their answers.
#[repr(C)]
#[derive(Clone, Copy)]
pub struct SingleServerHandle {
    pub clock: u64,
    pub slot: SlotHandle,
    pub unanswered: UnansweredHandle,
}

impl SingleServerHandle {
    /// Makes a server with this context (RFC 8613, B.1), as `Server::add` adds the first one. Returns `None` if the context bytes can't have been
    /// written by a call.
    pub fn begin(
        context: &ContextHandle,
        start: Start,
        size: WindowSize,
    ) -> Option<SingleServerHandle>
        requires { HasNoDoubt start }
        ensures added { IfSome result (λ s. AddsIn Begin (server_in context.now) start size (Added 0) (server_of_one s)) }
        ensures accepts { IsContext context.now → IsSome result }
        ensures accepted { IsSome result → IsContext context.now }
        ensures bytes { IfSome result (λ s. IsSlotBytes s.slot) }
    {
        if !context.is_whole() {
            return None;
        }
        let Some(made) = context.context() else {
            unreachable!();
        };
        // Bytes keep no key schedule.
        let made = KeyedContext::for_one_message(made);
        Some(SingleServerHandle {
            clock: 0,
            slot: SlotHandle::of(context, &Slot::begin(made, start, size)),
            unanswered: UnansweredHandle::none(),
        })
    }

    /// Notes the request of a ticket.
    fn note_ticket(&mut self, ticket: &Ticket)
        ensures notes { NotesTicket (self.old.unanswered ∷ []) (self.new.unanswered ∷ []) (values_of ticket.now) }
        ensures clock { self.new.clock ≡ self.old.clock }
        ensures slot { self.new.slot ≡ self.old.slot }
    {
        let context = ticket.context();
        if context == 0 {
            self.unanswered.add(ticket.number().number());
        }
    }

    /// Notes a request that was delivered.
    fn note(&mut self, decision: &Decision)
        ensures notes { Notes (self.old.unanswered ∷ []) (self.new.unanswered ∷ []) decision.now }
        ensures clock { self.new.clock ≡ self.old.clock }
        ensures slot { self.new.slot ≡ self.old.slot }
    {
        if let Decision::Deliver(_, ticket) = decision {
            self.note_ticket(ticket);
        }
    }

    /// Decides the answer to a datagram; this is the first half of `take`. Returns `None` if the bytes can't have been written by a
    /// call.
    pub fn decide(
        &mut self,
        now: u64,
        fresh: Fresh,
        datagram: &mut [u8],
        out: &mut [u8; 64],
    ) -> Option<Decided>
        ensures accepts { IsSlotBytes self.old.slot → IsSome result }
        ensures accepted { IsSome result → IsSlotBytes self.old.slot }
        ensures answered { IfSome result (λ decided. (h : History) → Serves (server_of_one self.old) h
            → DecidesIn h now fresh datagram.old decided.decision datagram.new (take decided.reply out.new) (server_of_one self.new)) }
        ensures bytes { IfSome result (λ decided. IsSlotBytes self.new.slot) }
        ensures shown { IfSome result (λ decided. CanShow decided.decision datagram.new) }
        ensures left { IfSome result (λ decided. (slots : List (Option SlotOf)) → IsTableIn (table_of self.old.slot) slots
            → Leaves slots decided.decision datagram.old datagram.new) }
        ensures within { IfSome result (λ decided. decided.reply ≤ 64) }
        ensures behind { IfSome result (λ decided. drop decided.reply out.new ≡ drop decided.reply out.old) }
        ensures unchanged { result ≡ None → (self.new ≡ self.old) × (datagram.new ≡ datagram.old) × (out.new ≡ out.old) }
    {
        if !self.slot.is_whole() {
            return None;
        }
        let decided = decide_over(&mut self.clock, &mut self.slot, now, fresh, datagram, out);
        self.note(&decided.decision);
        Some(decided)
    }

    /// Returns whether a ticket is of the context's present life.
    fn gave(&self, ticket: &TicketHandle) -> bool
        ensures { result ≡ is_present_in (table_of self.now.slot) ticket.now.context ticket.now.life }
    {
        ticket.context == 0 && self.slot.life == ticket.life
    }

    /// Seals a reply to the request of a ticket, writes it to the front of `out`, and returns how many bytes it wrote (RFC 8613, 8.3). It
    /// uses the code, options and payload of the plain message. If the ticket's request registers an observation, the reply has a Partial
    /// IV of its own in any case, and ends the observation (RFC 8613, 4.1.3.5). Refuses, in this order, bad bytes, a stale ticket, a spent
    /// ticket, and whatever else a `Server` refuses, in the order of `ReplyError`. A refusal changes nothing.
    pub fn reply(
        &mut self,
        ticket: &TicketHandle,
        own: bool,
        mid: u16,
        plain: &Message<'_>,
        out: &mut [u8],
    ) -> Result<usize, ReplyRefusal>
        ensures bad { result ≡ Err BadHandle → IsSlotBytes self.old.slot → IsTicket ticket.now → ⊥ }
        ensures accepted { result ≢ Err BadHandle → IsSlotBytes self.old.slot × IsTicket ticket.now }
        ensures answered { (h : History) → Serves (server_of_one self.old) h
            → IfSome (entry_of_reply result out.new) (λ entry. RepliesIn h (ticket_in ticket.now) (asks_own (ticket_in ticket.now) own) mid (parts_of plain.now) (length out.old) entry (server_of_one self.new)) }
        ensures spent { result ≡ Err TicketSpent → (h : History) → Serves (server_of_one self.old) h → IsSpent h (ticket_in ticket.now) (asks_own (ticket_in ticket.now) own) }
        ensures once { IsSlotBytes self.old.slot → IsTicket ticket.now → (h : History) → Serves (server_of_one self.old) h → IsSpent h (ticket_in ticket.now) (asks_own (ticket_in ticket.now) own)
            → result ≡ Err TicketSpent }
        ensures bytes { IsSlotBytes self.old.slot → IsSlotBytes self.new.slot }
        ensures within { IfOk result (λ n. n ≤ length out.new) }
        ensures behind { IfOk result (λ n. drop n out.new ≡ drop n out.old) }
        ensures unchanged { OnErr result ((out.new ≡ out.old) × (self.new ≡ self.old)) }
        ensures no_keeper_failed { result ≢ Err (Refused KeeperFailed) }
    {
        if !self.slot.is_whole() {
            return Err(ReplyRefusal::BadHandle);
        }
        let Some((number, asker)) = ticket.parts() else {
            return Err(ReplyRefusal::BadHandle);
        };
        if !self.gave(ticket) {
            return Err(ReplyRefusal::Refused(ReplyError::StaleTicket));
        }
        let own = ticket.asks_own(own);
        if !self.unanswered.is_due(ticket.number, own) {
            return Err(ReplyRefusal::TicketSpent);
        }
        match self.slot.reply_alone(number, &asker, own, mid, plain, out) {
            Ok(len) => {
                self.unanswered.remove(ticket.number);
                Ok(len)
            }
            Err(error) => Err(ReplyRefusal::Refused(error)),
        }
    }

    /// Seals a notification to the request of a ticket, writes it to the front of `out`, and returns how many bytes it wrote (RFC 8613,
    /// 8.3.1). It uses the plain message, except the token, which is the ticket's: Type and Message ID are yours. Each notification has a
    /// new Partial IV of its own, so the request needn't wait for its answer, and still does if it did. Returns `None` if the bytes can't
    /// have been written by a call. Returns the first refusal in the order of `ReplyError`; a refusal changes nothing.
    pub fn notify(
        &mut self,
        ticket: &TicketHandle,
        plain: &Message<'_>,
        out: &mut [u8],
    ) -> Option<Result<usize, ReplyError>>
        ensures accepts { IsSlotBytes self.old.slot → IsTicket ticket.now → IsSome result }
        ensures accepted { IsSome result → IsSlotBytes self.old.slot × IsTicket ticket.now }
        ensures answered { IfSome result (λ r. (h : History) → Serves (server_of_one self.old) h
            → NotifiesIn h (ticket_in ticket.now) (parts_of plain.now) (length out.old) (reply_entry r out.new) (server_of_one self.new)) }
        ensures bytes { IfSome result (λ r. IsSlotBytes self.new.slot) }
        ensures within { IfSome result (λ r. IfOk r (λ n. n ≤ length out.new)) }
        ensures behind { IfSome result (λ r. IfOk r (λ n. drop n out.new ≡ drop n out.old)) }
        ensures same { IfSome result (λ r. OnErr r ((out.new ≡ out.old) × (self.new ≡ self.old))) }
        ensures no_keeper_failed { IfSome result (λ r. IfErr r (λ e. e ≢ KeeperFailed)) }
        ensures unchanged { result ≡ None → (self.new ≡ self.old) × (out.new ≡ out.old) }
    {
        if !self.slot.is_whole() {
            return None;
        }
        let Some((number, asker)) = ticket.parts() else {
            return None;
        };
        if !self.gave(ticket) {
            return Some(Err(ReplyError::StaleTicket));
        }
        if !ticket.is_observing() {
            return Some(Err(ReplyError::NotObserving));
        }
        let notified = self.slot.notify_alone(number, &asker.token, plain, out);
        Some(notified)
    }
}
