//! A server of one context whose Sender Sequence Numbers outlive it, as bytes.

ghost use Rattle.std.specs.Prelude.{◌≡◌, ◌≢◌, ◌≤◌, ℕ, List, Option, Ok, Err, IfOk, IfSome, None, OnErr, Some, true, false, not, length, take, drop};
ghost use Rattle.osc_coap.specs.Views.{parts_of};
ghost use Rattle.osc_context.specs.Reserving.{next_limit};
ghost use Rattle.osc_life.specs.Deciding.{CanShow, Leaves};
ghost use Rattle.osc_life.specs.Life.{is_open_life};
ghost use Rattle.osc_life.specs.LifeAnswer.{asks_own};
ghost use Rattle.osc_life.specs.ServerHistory.{History, Notify, Reply, life};
ghost use Rattle.osc_life.specs.declared.server_error.ReplyError.TheVariants.{KeeperFailed};
ghost use Rattle.osc_life.specs.declared.slot.Slot.{Slot as SlotOf};
ghost use Rattle.osc_handle.specs.ServerBytes.{IsSpent};
ghost use Rattle.osc_handle.specs.SingleServerBytes.{table_of};
ghost use Rattle.osc_handle.specs.TableBytes.{IsTableIn};
ghost use Rattle.osc_handle.specs.TicketBytes.{IsTicket, ticket_in};
ghost use Rattle.osc_kept_ends.specs.Numbering.{Own, upcoming};
ghost use Rattle.osc_handle.specs.KeptServerBytes.{DecidesWith, IsKeptServer, ServesWith, StepsServer, entry_of_kept_reply};
ghost use Rattle.osc_handle.specs.Reserved.{WantsSave};
ghost use Rattle.osc_handle.specs.declared.kept_refusal.KeptRefusal.TheVariants as refusals;
ghost use Rattle.osc_handle.specs.declared.kept_refusal.KeptReplyRefusal.TheVariants as replies;

use crate::kept_refusal::{KeptRefusal, KeptReplyRefusal};
use crate::reply_refusal::ReplyRefusal;
use crate::reserving::save_first;
use crate::single_server_handle::SingleServerHandle;
use crate::ticket_handle::TicketHandle;
use osc_coap::Message;
use osc_endpoint::{Decided, Fresh};

/// A server of one context, and the first of its Sender Sequence Numbers that isn't reserved. It seals only with reserved numbers, and
/// tells its caller when a number has to be saved first.
#[repr(C)]
#[derive(Clone, Copy)]
pub struct KeptServerHandle {
    pub server: SingleServerHandle,
    pub reserved: u64,
}

impl KeptServerHandle {
    /// Returns whether a call may have written the bytes.
    #[must_use]
    pub fn is_whole(&self) -> bool
        ensures yes { result ≡ true → IsKeptServer self.now }
        ensures no { result ≡ false → IsKeptServer self.now → ⊥ }
    {
        self.server.slot.is_whole()
            && self.server.slot.next <= self.reserved
            && self.reserved <= 1 << 40
    }

    /// Returns whether the gate of the context is closed, so that a challenge may be the answer.
    fn is_closed(&self) -> bool
        ensures { (h : History) (o : Own) → ServesWith self.now o h → result ≡ not (is_open_life (life h 0)) }
    {
        self.server.slot.gate < 2
    }

    /// Returns the number to save before the server goes on, if there is one. `asked` says whether the server needs a number.
    fn save_first(&self, asked: bool) -> Option<u64>
        requires { IsKeptServer self.now }
        ensures refused { IfSome result (λ number. (number ≡ next_limit self.now.reserved)
            × ((h : History) (o : Own) → ServesWith self.now o h → WantsSave asked (upcoming o) self.now.reserved)) }
        ensures accepted { result ≡ None → (h : History) (o : Own) → ServesWith self.now o h → WantsSave asked (upcoming o) self.now.reserved → ⊥ }
    {
        save_first(asked, self.server.slot.next, self.reserved)
    }

    /// Decides the answer to a datagram, as `SingleServerHandle::decide` does; this is the first half of `take`. If a number has to
    /// be saved first, it returns that number, and decides the datagram when it is passed in again. A refusal changes nothing.
    pub fn decide(
        &mut self,
        now: u64,
        fresh: Fresh,
        datagram: &mut [u8],
        out: &mut [u8; 64],
    ) -> Result<Decided, KeptRefusal>
        ensures answered { IfOk result (λ decided. (h : History) (old : Own) → ServesWith self.old old h
            → DecidesWith h now fresh datagram.old decided.decision datagram.new (take decided.reply out.new) old self.new) }
        ensures refused { (number : ℕ) → result ≡ Err (refusals.SaveFirst number) → (number ≡ next_limit self.old.reserved)
            × ((h : History) (o : Own) → ServesWith self.old o h → WantsSave (not (is_open_life (life h 0))) (upcoming o) self.old.reserved) }
        ensures refuses { (h : History) (o : Own) → ServesWith self.old o h → WantsSave (not (is_open_life (life h 0))) (upcoming o) self.old.reserved
            → result ≡ Err (refusals.SaveFirst (next_limit self.old.reserved)) }
        ensures bad { result ≡ Err refusals.BadHandle → IsKeptServer self.old → ⊥ }
        ensures accepted { result ≢ Err refusals.BadHandle → IsKeptServer self.old }
        ensures limit_stays { self.new.reserved ≡ self.old.reserved }
        ensures shown { IfOk result (λ decided. CanShow decided.decision datagram.new) }
        ensures left { IfOk result (λ decided. (slots : List (Option SlotOf)) → IsTableIn (table_of self.old.server.slot) slots
            → Leaves slots decided.decision datagram.old datagram.new) }
        ensures within { IfOk result (λ decided. decided.reply ≤ 64) }
        ensures behind { IfOk result (λ decided. drop decided.reply out.new ≡ drop decided.reply out.old) }
        ensures unchanged { OnErr result ((self.new ≡ self.old) × (datagram.new ≡ datagram.old) × (out.new ≡ out.old)) }
    {
        if !self.is_whole() {
            return Err(KeptRefusal::BadHandle);
        }
        if let Some(number) = self.save_first(self.is_closed()) {
            return Err(KeptRefusal::SaveFirst(number));
        }
        match self.server.decide(now, fresh, datagram, out) {
            Some(decided) => Ok(decided),
            None => unreachable!(),
        }
    }

    /// Seals a reply to the request of a ticket, as `SingleServerHandle::reply` does, writes it to the front of `out`, and returns
    /// how many bytes it wrote. With `own`, or to a registration, it needs a number. If a number has to be saved first, it returns
    /// that number. Refuses in the order of `KeptReplyRefusal`; a refusal changes nothing.
    pub fn reply(
        &mut self,
        ticket: &TicketHandle,
        own: bool,
        mid: u16,
        plain: &Message<'_>,
        out: &mut [u8],
    ) -> Result<usize, KeptReplyRefusal>
        ensures answered { (h : History) (old : Own) → ServesWith self.old old h → IfSome (entry_of_kept_reply result out.new) (λ entry.
            StepsServer h (Reply (ticket_in ticket.now) (asks_own (ticket_in ticket.now) own) mid (parts_of plain.now) (length out.old)) entry old self.new) }
        ensures refused { (number : ℕ) → result ≡ Err (replies.SaveFirst number) → (number ≡ next_limit self.old.reserved)
            × ((h : History) (o : Own) → ServesWith self.old o h → WantsSave (asks_own (ticket_in ticket.now) own) (upcoming o) self.old.reserved) }
        ensures refuses { (h : History) (o : Own) → ServesWith self.old o h → IsTicket ticket.now → WantsSave (asks_own (ticket_in ticket.now) own) (upcoming o) self.old.reserved
            → result ≡ Err (replies.SaveFirst (next_limit self.old.reserved)) }
        ensures spent { result ≡ Err replies.TicketSpent → (h : History) (o : Own) → ServesWith self.old o h → IsSpent h (ticket_in ticket.now) (asks_own (ticket_in ticket.now) own) }
        ensures once { IsTicket ticket.now → (h : History) (o : Own) → ServesWith self.old o h → IsSpent h (ticket_in ticket.now) (asks_own (ticket_in ticket.now) own)
            → (WantsSave (asks_own (ticket_in ticket.now) own) (upcoming o) self.old.reserved → ⊥) → result ≡ Err replies.TicketSpent }
        ensures bad { result ≡ Err replies.BadHandle → IsKeptServer self.old → IsTicket ticket.now → ⊥ }
        ensures accepted { result ≢ Err replies.BadHandle → IsKeptServer self.old × IsTicket ticket.now }
        ensures limit_stays { self.new.reserved ≡ self.old.reserved }
        ensures within { IfOk result (λ n. n ≤ length out.new) }
        ensures behind { IfOk result (λ n. drop n out.new ≡ drop n out.old) }
        ensures unchanged { OnErr result ((out.new ≡ out.old) × (self.new ≡ self.old)) }
        ensures no_keeper_failed { result ≢ Err (replies.Refused KeeperFailed) }
    {
        if !self.is_whole() || !ticket.is_whole() {
            return Err(KeptReplyRefusal::BadHandle);
        }
        if let Some(number) = self.save_first(ticket.asks_own(own)) {
            return Err(KeptReplyRefusal::SaveFirst(number));
        }
        match self.server.reply(ticket, own, mid, plain, out) {
            Ok(len) => Ok(len),
            Err(ReplyRefusal::TicketSpent) => Err(KeptReplyRefusal::TicketSpent),
            Err(ReplyRefusal::Refused(error)) => Err(KeptReplyRefusal::Refused(error)),
            Err(ReplyRefusal::BadHandle) => unreachable!(),
        }
    }

    /// Seals a notification to the request of a ticket, as `SingleServerHandle::notify` does, writes it to the front of `out`, and
    /// returns how many bytes it wrote. It needs a number. If a number has to be saved first, it returns that number. Refuses in the
    /// order of `KeptReplyRefusal`, but never as spent; a refusal changes nothing. The ticket stays good.
    pub fn notify(
        &mut self,
        ticket: &TicketHandle,
        plain: &Message<'_>,
        out: &mut [u8],
    ) -> Result<usize, KeptReplyRefusal>
        ensures answered { (h : History) (old : Own) → ServesWith self.old old h → IfSome (entry_of_kept_reply result out.new) (λ entry.
            StepsServer h (Notify (ticket_in ticket.now) (parts_of plain.now) (length out.old)) entry old self.new) }
        ensures refused { (number : ℕ) → result ≡ Err (replies.SaveFirst number) → (number ≡ next_limit self.old.reserved)
            × ((h : History) (o : Own) → ServesWith self.old o h → WantsSave true (upcoming o) self.old.reserved) }
        ensures refuses { (h : History) (o : Own) → ServesWith self.old o h → IsTicket ticket.now → WantsSave true (upcoming o) self.old.reserved
            → result ≡ Err (replies.SaveFirst (next_limit self.old.reserved)) }
        ensures bad { result ≡ Err replies.BadHandle → IsKeptServer self.old → IsTicket ticket.now → ⊥ }
        ensures accepted { result ≢ Err replies.BadHandle → IsKeptServer self.old × IsTicket ticket.now }
        ensures limit_stays { self.new.reserved ≡ self.old.reserved }
        ensures within { IfOk result (λ n. n ≤ length out.new) }
        ensures behind { IfOk result (λ n. drop n out.new ≡ drop n out.old) }
        ensures unchanged { OnErr result ((out.new ≡ out.old) × (self.new ≡ self.old)) }
        ensures never_spent { result ≢ Err replies.TicketSpent }
        ensures no_keeper_failed { result ≢ Err (replies.Refused KeeperFailed) }
    {
        if !self.is_whole() || !ticket.is_whole() {
            return Err(KeptReplyRefusal::BadHandle);
        }
        if let Some(number) = self.save_first(true) {
            return Err(KeptReplyRefusal::SaveFirst(number));
        }
        match self.server.notify(ticket, plain, out) {
            Some(Ok(len)) => Ok(len),
            Some(Err(error)) => Err(KeptReplyRefusal::Refused(error)),
            None => unreachable!(),
        }
    }
}
