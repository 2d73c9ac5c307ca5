//! What a peer in bytes answers: requests that come, replies and notifications (RFC 8613, 8.2 to 8.3.1).

ghost use Rattle.std.specs.Prelude.{◌≡◌, ◌≢◌, ◌≤◌, ℕ, Err, IfOk, IfSome, None, OnErr, Some, not, true, length, take, drop};
ghost use Rattle.osc_coap.specs.Views.{parts_of};
ghost use Rattle.osc_context.specs.Reserving.{next_limit};
ghost use Rattle.osc_life.specs.Deciding.{CanShow};
ghost use Rattle.osc_life.specs.Life.{is_open_life};
ghost use Rattle.osc_life.specs.LifeAnswer.{asks_own};
ghost use Rattle.osc_life.specs.ServerHistory as served;
ghost use Rattle.osc_life.specs.declared.outcome.Outcome.TheVariants.{KeeperFailed};
ghost use Rattle.osc_life.specs.declared.server_error.ReplyError.TheVariants.{KeeperFailed as NoKeeper, StaleTicket};
ghost use Rattle.osc_handle.specs.ServerBytes.{IsSpent};
ghost use Rattle.osc_handle.specs.TicketBytes.{IsTicket, ticket_in};
ghost use Rattle.osc_kept_ends.specs.EchoNumber.{echo_of};
ghost use Rattle.osc_kept_ends.specs.Numbering.{Own, upcoming};
ghost use Rattle.osc_kept_ends.specs.Peering.{DeliversBelow, TakesBelow};
ghost use Rattle.osc_handle.specs.KeptServerBytes.{entry_of_kept_reply};
ghost use Rattle.osc_handle.specs.declared.kept_refusal.KeptReplyRefusal.TheVariants as replies;
ghost use Rattle.osc_peer_handle.specs.PeerBytes.{DecidesAnswering, DeliversFrom, HasToSave, IsPeer, IsSamePeer, IsTicketOf, KeepsFirst, ServesBehind, StepsAnswering, TakesAnswering, inside_of, next_in};
ghost use Rattle.osc_peer_handle.specs.declared.peer_refusal.PeerRefusal.TheVariants as refusals;

use crate::left::Left;
use crate::peer_handle::PeerHandle;
use crate::peer_refusal::PeerRefusal;
use osc_coap::Message;
use osc_endpoint::{Decided, Decision, Fresh, ReplyError, Taken};
use osc_handle::{KeptRefusal, KeptReplyRefusal, TicketHandle};

impl PeerHandle {
    /// Returns the received number to save before this is delivered, if there is one.
    fn keep_first(&self, decision: &Decision) -> Option<u64>
        ensures some { IfSome result (λ number. DeliversFrom decision.now self.now.received number) }
        ensures none { result ≡ None → DeliversBelow decision.now self.now.received }
    {
        let Decision::Deliver(_, ticket) = decision else {
            return None;
        };
        let number = ticket.number().number();
        if number < self.received {
            return None;
        }
        Some(number + 1)
    }

    /// Decides the answer to a datagram, as `KeptServerHandle::decide` does; this is the first half of `take`. If a number has to be saved
    /// first, it returns that number, and decides the datagram when it is passed in again: a Sender Sequence Number before it judges anything,
    /// a received one once it knows that the request is to be delivered. A refusal changes nothing, not even the datagram. A challenge's Echo
    /// value is the number with which it is sealed: its eight bytes, high byte first (RFC 9175, A, method 3).
    pub fn decide(
        &mut self,
        now: u64,
        mid: u16,
        datagram: &mut [u8],
        out: &mut [u8; 64],
    ) -> Result<Decided, PeerRefusal>
        ensures answered { IfOk result (λ decided. (h : served.History) (old : Own) → ServesBehind self.old old h
            → DecidesAnswering self.old h now (record { echo = echo_of (next_in self.old); mid = mid }) datagram.old decided.decision datagram.new (take decided.reply out.new) old self.new) }
        ensures kept { IfOk result (λ decided. DeliversBelow decided.decision self.new.received) }
        ensures stays { IsSamePeer self.old self.new }
        ensures save_first { (number : ℕ) → result ≡ Err (refusals.SaveFirst number) → (number ≡ next_limit self.old.server.reserved)
            × ((h : served.History) (o : Own) → ServesBehind self.old o h → HasToSave (not (is_open_life (served.life h 0))) (upcoming o) self.old) }
        ensures saves_first { (h : served.History) (o : Own) → ServesBehind self.old o h → HasToSave (not (is_open_life (served.life h 0))) (upcoming o) self.old
            → result ≡ Err (refusals.SaveFirst (next_limit self.old.server.reserved)) }
        ensures keep_first { (number : ℕ) → result ≡ Err (refusals.KeepFirst number) → (h : served.History) (o : Own) → ServesBehind self.old o h
            → KeepsFirst self.old.received h now (record { echo = echo_of (next_in self.old); mid = mid }) datagram.old number }
        ensures bad { result ≡ Err refusals.BadHandle → IsPeer self.old → ⊥ }
        ensures accepted { result ≢ Err refusals.BadHandle → IsPeer self.old }
        ensures shown { IfOk result (λ decided. CanShow decided.decision datagram.new) }
        ensures within { IfOk result (λ decided. decided.reply ≤ 64) }
        ensures behind { IfOk result (λ decided. drop decided.reply out.new ≡ drop decided.reply out.old) }
        ensures unchanged { OnErr result ((self.new ≡ self.old) × (datagram.new ≡ datagram.old) × (out.new ≡ out.old)) }
    {
        if !self.is_whole() {
            return Err(PeerRefusal::BadHandle);
        }
        if let Some(number) = self.claim_first() {
            return Err(PeerRefusal::SaveFirst(number));
        }
        let before = *self;
        let sent = *out;
        let echo = self.server.server.slot.next.to_be_bytes();
        let decided = match self.server.decide(now, Fresh { echo, mid }, datagram, out) {
            Ok(decided) => decided,
            Err(KeptRefusal::SaveFirst(number)) => return Err(PeerRefusal::SaveFirst(number)),
            Err(KeptRefusal::BadHandle) => unreachable!(),
        };
        let Some(number) = self.keep_first(&decided.decision) else {
            return Ok(decided);
        };
        before.server.server.slot.encrypt_again(datagram);
        *self = before;
        *out = sent;
        Err(PeerRefusal::KeepFirst(number))
    }

    /// Decides, and lends the datagram for reading alone: from there on `take` can't write to it any more.
    fn decide_and_lend<'b>(
        &mut self,
        now: u64,
        mid: u16,
        datagram: &'b mut [u8],
        out: &mut [u8; 64],
    ) -> Left<'b, Result<Decided, PeerRefusal>>
        ensures answered { IfOk result.decided (λ decided. (h : served.History) (old : Own) → ServesBehind self.old old h
            → DecidesAnswering self.old h now (record { echo = echo_of (next_in self.old); mid = mid }) datagram.old decided.decision result.datagram.now (take decided.reply out.new) old self.new) }
        ensures kept { IfOk result.decided (λ decided. DeliversBelow decided.decision self.new.received) }
        ensures stays { IsSamePeer self.old self.new }
        ensures save_first { (number : ℕ) → result.decided ≡ Err (refusals.SaveFirst number) → (number ≡ next_limit self.old.server.reserved)
            × ((h : served.History) (o : Own) → ServesBehind self.old o h → HasToSave (not (is_open_life (served.life h 0))) (upcoming o) self.old) }
        ensures saves_first { (h : served.History) (o : Own) → ServesBehind self.old o h → HasToSave (not (is_open_life (served.life h 0))) (upcoming o) self.old
            → result.decided ≡ Err (refusals.SaveFirst (next_limit self.old.server.reserved)) }
        ensures keep_first { (number : ℕ) → result.decided ≡ Err (refusals.KeepFirst number) → (h : served.History) (o : Own) → ServesBehind self.old o h
            → KeepsFirst self.old.received h now (record { echo = echo_of (next_in self.old); mid = mid }) datagram.old number }
        ensures bad { result.decided ≡ Err refusals.BadHandle → IsPeer self.old → ⊥ }
        ensures accepted { result.decided ≢ Err refusals.BadHandle → IsPeer self.old }
        ensures shown { IfOk result.decided (λ decided. CanShow decided.decision result.datagram.now) }
        ensures within { IfOk result.decided (λ decided. decided.reply ≤ 64) }
        ensures behind { IfOk result.decided (λ decided. drop decided.reply out.new ≡ drop decided.reply out.old) }
        ensures unchanged { OnErr result.decided ((self.new ≡ self.old) × (result.datagram.now ≡ datagram.old) × (out.new ≡ out.old)) }
    {
        let decided = self.decide(now, mid, datagram, out);
        Left { decided, datagram }
    }

    /// Takes a datagram in place (RFC 8613, 8.2): calls `decide`, and returns the decision as an outcome. The first `reply` bytes of `out` are
    /// the reply. A refusal changes nothing, not even the datagram.
    pub fn take<'b>(
        &mut self,
        now: u64,
        mid: u16,
        datagram: &'b mut [u8],
        out: &mut [u8; 64],
    ) -> Result<Taken<'b>, PeerRefusal>
        ensures answered { IfOk result (λ taken. (h : served.History) (old : Own) → ServesBehind self.old old h
            → TakesAnswering self.old h now (record { echo = echo_of (next_in self.old); mid = mid }) datagram.old taken.outcome (take taken.reply out.new) old self.new) }
        ensures kept { IfOk result (λ taken. (h : served.History) (old : Own) → ServesBehind self.old old h → TakesBelow taken.outcome self.new.received) }
        ensures stays { IsSamePeer self.old self.new }
        ensures save_first { (number : ℕ) → result ≡ Err (refusals.SaveFirst number) → (number ≡ next_limit self.old.server.reserved)
            × ((h : served.History) (o : Own) → ServesBehind self.old o h → HasToSave (not (is_open_life (served.life h 0))) (upcoming o) self.old) }
        ensures saves_first { (h : served.History) (o : Own) → ServesBehind self.old o h → HasToSave (not (is_open_life (served.life h 0))) (upcoming o) self.old
            → result ≡ Err (refusals.SaveFirst (next_limit self.old.server.reserved)) }
        ensures keep_first { (number : ℕ) → result ≡ Err (refusals.KeepFirst number) → (h : served.History) (o : Own) → ServesBehind self.old o h
            → KeepsFirst self.old.received h now (record { echo = echo_of (next_in self.old); mid = mid }) datagram.old number }
        ensures bad { result ≡ Err refusals.BadHandle → IsPeer self.old → ⊥ }
        ensures accepted { result ≢ Err refusals.BadHandle → IsPeer self.old }
        ensures within { IfOk result (λ taken. taken.reply ≤ 64) }
        ensures behind { IfOk result (λ taken. drop taken.reply out.new ≡ drop taken.reply out.old) }
        ensures no_keeper_failed { IfOk result (λ taken. taken.outcome ≢ KeeperFailed) }
        ensures unchanged { OnErr result ((self.new ≡ self.old) × (out.new ≡ out.old)) }
    {
        let Left { decided, datagram } = self.decide_and_lend(now, mid, datagram, out);
        match decided {
            Ok(Decided { decision, reply }) => {
                let outcome = decision.outcome(datagram);
                Ok(Taken { outcome, reply })
            }
            Err(refusal) => Err(refusal),
        }
    }

    /// Seals a reply to the request of a ticket, as `KeptServerHandle::reply` does, writes it to the front of `out`, and returns how many bytes
    /// it wrote. With `own`, or to a registration, it needs a number. If a number has to be saved first, it returns that number. Refuses in
    /// the order of `KeptReplyRefusal`, but for a ticket of another context or another life, which is stale before a number has to be saved; a
    /// refusal changes nothing.
    pub fn reply(
        &mut self,
        ticket: &TicketHandle,
        own: bool,
        mid: u16,
        plain: &Message<'_>,
        out: &mut [u8],
    ) -> Result<usize, KeptReplyRefusal>
        ensures answered { IsTicketOf self.old ticket.now → (h : served.History) (old : Own) → ServesBehind self.old old h → IfSome (entry_of_kept_reply result out.new) (λ entry.
            StepsAnswering self.old h (served.Reply (ticket_in (inside_of self.old ticket.now)) (asks_own (ticket_in (inside_of self.old ticket.now)) own) mid (parts_of plain.now) (length out.old)) entry old self.new) }
        ensures stays { IsSamePeer self.old self.new }
        ensures refused { (number : ℕ) → result ≡ Err (replies.SaveFirst number) → (number ≡ next_limit self.old.server.reserved)
            × ((h : served.History) (o : Own) → ServesBehind self.old o h → HasToSave (asks_own (ticket_in (inside_of self.old ticket.now)) own) (upcoming o) self.old) }
        ensures refuses { (h : served.History) (o : Own) → ServesBehind self.old o h → IsTicket ticket.now → IsTicketOf self.old ticket.now → HasToSave (asks_own (ticket_in (inside_of self.old ticket.now)) own) (upcoming o) self.old
            → result ≡ Err (replies.SaveFirst (next_limit self.old.server.reserved)) }
        ensures spent { result ≡ Err replies.TicketSpent → (h : served.History) (o : Own) → ServesBehind self.old o h → IsSpent h (ticket_in (inside_of self.old ticket.now)) (asks_own (ticket_in (inside_of self.old ticket.now)) own) }
        ensures once { IsTicket ticket.now → IsTicketOf self.old ticket.now → (h : served.History) (o : Own) → ServesBehind self.old o h → IsSpent h (ticket_in (inside_of self.old ticket.now)) (asks_own (ticket_in (inside_of self.old ticket.now)) own)
            → (HasToSave (asks_own (ticket_in (inside_of self.old ticket.now)) own) (upcoming o) self.old → ⊥) → result ≡ Err replies.TicketSpent }
        ensures foreign { IsPeer self.old → IsTicket ticket.now → (IsTicketOf self.old ticket.now → ⊥) → result ≡ Err (replies.Refused StaleTicket) }
        ensures bad { result ≡ Err replies.BadHandle → IsPeer self.old → IsTicket ticket.now → ⊥ }
        ensures accepted { result ≢ Err replies.BadHandle → IsPeer self.old × IsTicket ticket.now }
        ensures within { IfOk result (λ n. n ≤ length out.new) }
        ensures behind { IfOk result (λ n. drop n out.new ≡ drop n out.old) }
        ensures unchanged { OnErr result ((out.new ≡ out.old) × (self.new ≡ self.old)) }
        ensures no_keeper_failed { result ≢ Err (replies.Refused NoKeeper) }
    {
        if !self.is_whole() || !ticket.is_whole() {
            return Err(KeptReplyRefusal::BadHandle);
        }
        let Some(inside) = self.inside(ticket) else {
            return Err(KeptReplyRefusal::Refused(ReplyError::StaleTicket));
        };
        if let Some(number) = self.claim_first() {
            return Err(KeptReplyRefusal::SaveFirst(number));
        }
        self.server.reply(&inside, own, mid, plain, out)
    }

    /// Seals a notification to the request of a ticket, as `KeptServerHandle::notify` does, writes it to the front of `out`, and returns how
    /// many bytes it wrote. It needs a number. If a number has to be saved first, it returns that number. Refuses in the order of
    /// `KeptReplyRefusal`, but never as spent; a refusal changes nothing. The ticket stays good.
    pub fn notify(
        &mut self,
        ticket: &TicketHandle,
        plain: &Message<'_>,
        out: &mut [u8],
    ) -> Result<usize, KeptReplyRefusal>
        ensures answered { IsTicketOf self.old ticket.now → (h : served.History) (old : Own) → ServesBehind self.old old h → IfSome (entry_of_kept_reply result out.new) (λ entry.
            StepsAnswering self.old h (served.Notify (ticket_in (inside_of self.old ticket.now)) (parts_of plain.now) (length out.old)) entry old self.new) }
        ensures stays { IsSamePeer self.old self.new }
        ensures refused { (number : ℕ) → result ≡ Err (replies.SaveFirst number) → (number ≡ next_limit self.old.server.reserved)
            × ((h : served.History) (o : Own) → ServesBehind self.old o h → HasToSave true (upcoming o) self.old) }
        ensures refuses { (h : served.History) (o : Own) → ServesBehind self.old o h → IsTicket ticket.now → IsTicketOf self.old ticket.now → HasToSave true (upcoming o) self.old
            → result ≡ Err (replies.SaveFirst (next_limit self.old.server.reserved)) }
        ensures foreign { IsPeer self.old → IsTicket ticket.now → (IsTicketOf self.old ticket.now → ⊥) → result ≡ Err (replies.Refused StaleTicket) }
        ensures bad { result ≡ Err replies.BadHandle → IsPeer self.old → IsTicket ticket.now → ⊥ }
        ensures accepted { result ≢ Err replies.BadHandle → IsPeer self.old × IsTicket ticket.now }
        ensures within { IfOk result (λ n. n ≤ length out.new) }
        ensures behind { IfOk result (λ n. drop n out.new ≡ drop n out.old) }
        ensures unchanged { OnErr result ((out.new ≡ out.old) × (self.new ≡ self.old)) }
        ensures never_spent { result ≢ Err replies.TicketSpent }
        ensures no_keeper_failed { result ≢ Err (replies.Refused NoKeeper) }
    {
        if !self.is_whole() || !ticket.is_whole() {
            return Err(KeptReplyRefusal::BadHandle);
        }
        let Some(inside) = self.inside(ticket) else {
            return Err(KeptReplyRefusal::Refused(ReplyError::StaleTicket));
        };
        if let Some(number) = self.claim_first() {
            return Err(KeptReplyRefusal::SaveFirst(number));
        }
        self.server.notify(&inside, plain, out)
    }
}
