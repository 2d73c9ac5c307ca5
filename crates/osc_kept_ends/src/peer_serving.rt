//! What a peer answers: requests that come, replies and notifications (RFC 8613, 8.2 to 8.3.1).

ghost use Rattle.std.specs.Prelude.{◌≡◌, ◌≢◌, ◌≤◌, ◌+◌, not, IsOk, IsErr, IfOk, IfErr, OnErr, length, take, drop};
ghost use Rattle.osc_coap.specs.Views.{parts_of};
ghost use Rattle.osc_endpoint.specs.Agrees.{Agrees};
ghost use Rattle.osc_life.specs.Deciding.{CanShow};
ghost use Rattle.osc_life.specs.Life.{is_open_life};
ghost use Rattle.osc_life.specs.LifeAnswer.{asks_own};
ghost use Rattle.osc_life.specs.ServerHistory as served;
ghost use Rattle.osc_life.specs.Views.{reply_entry, values_of};
ghost use Rattle.osc_endpoint.specs.Views.{server_entry};
ghost use Rattle.osc_life.specs.declared.outcome.Outcome.TheVariants as outcomes;
ghost use Rattle.osc_life.specs.declared.server_error.ReplyError.TheVariants as replies;
ghost use Rattle.osc_kept_ends.specs.EchoNumber.{echo_of};
ghost use Rattle.osc_kept_ends.specs.Numbering.{Draws, upcoming};
ghost use Rattle.osc_kept_ends.specs.PeerOwning.{ahead_in, own_in, received_in};
ghost use Rattle.osc_kept_ends.specs.Peering.{DeliversBelow, IsKeptOn, PeerDecides, PeerStep, PeerTakes, ServerIsBehind, ServerWaits, TakesBelow, received_at, received_by};
ghost use Rattle.osc_kept_ends.specs.TakingBack.{IsDelivery, IsTakenBack};

use crate::drawn::{decide_drawn, notify_drawn, reply_drawn};
use crate::kept_peer::{KeptPeer, pass_at_server};
use crate::peer_source::PeerSource;
use osc_coap::Message;
use osc_context::{KeeperError, RecordKeeper};
use osc_endpoint::{Decided, Decision, Fresh, Outcome, ReplyError, ServerOf, Taken, Ticket};
use osc_window::Gate;

/// Draws a number for a challenge, if the gate is closed.
fn draw_for_request<R: RecordKeeper>(
    server: &ServerOf<1>,
    source: &mut PeerSource<R>,
) -> Result<(), KeeperError>
    ensures drawn { IsOk result → (h : served.History) → Agrees server.now h → Draws (not (is_open_life (served.life h 0))) (own_in source.old) (own_in source.new) }
    ensures left { IsErr result → own_in source.new ≡ own_in source.old }
    ensures rises { R.received_floor source.old.keeper ≤ R.received_floor source.new.keeper }
    ensures received { (received_in source.new ≡ received_in source.old) × (ahead_in source.new ≡ ahead_in source.old) }
    ensures failed { IsErr result → R.failures source.new.keeper ≡ R.failures source.old.keeper + 1 }
    ensures worked { IsOk result → R.failures source.new.keeper ≡ R.failures source.old.keeper }
{
    if server.is_open(0) {
        return Ok(());
    }
    source.draw()
}

/// Keeps the number of a request that is delivered, or takes the delivery back if that fails.
fn keep_delivery<R: RecordKeeper>(
    server: &mut ServerOf<1>,
    source: &mut PeerSource<R>,
    gate: Option<Gate>,
    decision: &Decision,
) -> Result<(), KeeperError>
    ensures kept { IsOk result → DeliversBelow decision.now (R.received_floor source.new.keeper) }
    ensures received { IsOk result → received_in source.new ≤ received_by (ahead_in source.old) (received_in source.old) decision.now }
    ensures left { IsErr result → received_in source.new ≡ received_in source.old }
    ensures ahead { ahead_in source.new ≡ ahead_in source.old }
    ensures same { IsOk result → server.new ≡ server.old }
    ensures delivers { IsErr result → IsDelivery decision.now }
    ensures taken_back { IsErr result → IsTakenBack decision.now gate server.old server.new }
    ensures kept_on { IsKeptOn (own_in source.old) (own_in source.new) }
    ensures rises { R.received_floor source.old.keeper ≤ R.received_floor source.new.keeper }
    ensures failed { IsErr result → R.failures source.new.keeper ≡ R.failures source.old.keeper + 1 }
    ensures worked { IsOk result → R.failures source.new.keeper ≡ R.failures source.old.keeper }
{
    let Decision::Deliver(_, ticket) = decision else {
        return Ok(());
    };
    if let Err(error) = source.receive(ticket.number()) {
        if let Some(gate) = gate {
            server.take_back(ticket.context(), gate);
        }
        return Err(error);
    }
    Ok(())
}

impl<R: RecordKeeper, const N: usize> KeptPeer<R, N> {
    /// Decides the answer to a datagram, as `Server::decide` does; this is the first half of `take`. If the gate is closed and no number is
    /// in hand, it draws one before anything else. Before a request is delivered, the record keeps a number above its own. If the record
    /// fails in either, only the clock moves, and the request is judged anew when it comes again; of the datagram nothing is said then. A
    /// challenge's Echo value is the number with which it is sealed: its eight bytes, high byte first (RFC 9175, A, method 3).
    pub fn decide(
        &mut self,
        now: u64,
        mid: u16,
        datagram: &mut [u8],
        out: &mut [u8; 64],
    ) -> Result<Decided, KeeperError>
        ensures answered { IfOk result (λ d. (h : served.History) → ServerIsBehind self.old.server (upcoming (own_in self.old.source)) h
            → PeerDecides h now (record { echo = echo_of (upcoming (own_in self.old.source)); mid = mid }) datagram.old d datagram.new (take d.reply out.new)
            (own_in self.old.source) (own_in self.new.source) self.new.server) }
        ensures kept { IfOk result (λ d. DeliversBelow d.decision (R.received_floor self.new.source.keeper)) }
        ensures received { IfOk result (λ d. received_in self.new.source ≤ received_by (ahead_in self.old.source) (received_in self.old.source) d.decision) }
        ensures left { IsErr result → received_in self.new.source ≡ received_in self.old.source }
        ensures ahead { ahead_in self.new.source ≡ ahead_in self.old.source }
        ensures rises { R.received_floor self.old.source.keeper ≤ R.received_floor self.new.source.keeper }
        ensures waits { IsErr result → (h : served.History) → ServerIsBehind self.old.server (upcoming (own_in self.old.source)) h
            → ServerWaits h now (own_in self.old.source) (own_in self.new.source) self.new.server }
        ensures client { self.new.client ≡ self.old.client }
        ensures failed { IsErr result → R.failures self.new.source.keeper ≡ R.failures self.old.source.keeper + 1 }
        ensures worked { IsOk result → R.failures self.new.source.keeper ≡ R.failures self.old.source.keeper }
        ensures shown { IfOk result (λ d. CanShow d.decision datagram.new) }
        ensures within { IfOk result (λ d. d.reply ≤ 64) }
        ensures behind { IfOk result (λ d. drop d.reply out.new ≡ drop d.reply out.old) }
    {
        let Ok(()) = draw_for_request(&self.server, &mut self.source) else {
            self.server.advance(now);
            return Err(KeeperError);
        };
        let next = self.source.upcoming();
        pass_at_server(&mut self.server, next);
        let gate = self.server.gate(0);
        let echo = next.to_be_bytes();
        let (server, in_hand) = (&mut self.server, &mut self.source.in_hand);
        let decided = decide_drawn(server, in_hand, now, Fresh { echo, mid }, datagram, out);
        keep_delivery(&mut self.server, &mut self.source, gate, &decided.decision)?;
        Ok(decided)
    }

    /// Takes a datagram in place, as `Server::take` does: it calls `decide`, and returns the decision as an outcome. KeeperFailed comes
    /// before all other outcomes but a delivery, and in the place of that if its number couldn't be kept.
    pub fn take<'b>(
        &mut self,
        now: u64,
        mid: u16,
        datagram: &'b mut [u8],
        out: &mut [u8; 64],
    ) -> Taken<'b>
        ensures answered { result.outcome ≢ outcomes.KeeperFailed → (h : served.History) → ServerIsBehind self.old.server (upcoming (own_in self.old.source)) h
            → PeerTakes h now (record { echo = echo_of (upcoming (own_in self.old.source)); mid = mid }) datagram.old result.outcome (take result.reply out.new)
            (own_in self.old.source) (own_in self.new.source) self.new.server }
        ensures kept { TakesBelow result.outcome (R.received_floor self.new.source.keeper) }
        ensures received { received_in self.new.source ≤ received_at (ahead_in self.old.source) (received_in self.old.source) result.outcome }
        ensures ahead { ahead_in self.new.source ≡ ahead_in self.old.source }
        ensures rises { R.received_floor self.old.source.keeper ≤ R.received_floor self.new.source.keeper }
        ensures waits { result.outcome ≡ outcomes.KeeperFailed → (h : served.History) → ServerIsBehind self.old.server (upcoming (own_in self.old.source)) h
            → ServerWaits h now (own_in self.old.source) (own_in self.new.source) self.new.server }
        ensures client { self.new.client ≡ self.old.client }
        ensures failed { result.outcome ≡ outcomes.KeeperFailed → R.failures self.new.source.keeper ≡ R.failures self.old.source.keeper + 1 }
        ensures worked { result.outcome ≢ outcomes.KeeperFailed → R.failures self.new.source.keeper ≡ R.failures self.old.source.keeper }
        ensures within { result.reply ≤ 64 }
        ensures silent { result.outcome ≡ outcomes.KeeperFailed → result.reply ≡ 0 }
    {
        match self.decide(now, mid, datagram, out) {
            Ok(Decided { decision, reply }) => {
                let outcome = decision.outcome(datagram);
                Taken { outcome, reply }
            }
            Err(KeeperError) => Taken {
                outcome: Outcome::KeeperFailed,
                reply: 0,
            },
        }
    }

    /// Seals a reply as `Server::reply` does. With `own`, or if the ticket's request registers an observation, it draws a number before
    /// anything else if none is in hand. If the record fails then, it returns KeeperFailed, and nothing changes. Each refusal gives the
    /// ticket back, and the number stays in hand.
    pub fn reply(
        &mut self,
        ticket: Ticket,
        own: bool,
        mid: u16,
        plain: &Message<'_>,
        out: &mut [u8],
    ) -> Result<usize, (ReplyError, Ticket)>
        ensures answered { IfErr result (λ e. e.0 ≢ replies.KeeperFailed) → (h : served.History) → ServerIsBehind self.old.server (upcoming (own_in self.old.source)) h
            → PeerStep h (served.Reply (values_of ticket) (asks_own (values_of ticket) own) mid (parts_of plain.now) (length out.old)) (server_entry result out.new)
            (own_in self.old.source) (own_in self.new.source) self.new.server }
        ensures failed { IfErr result (λ e. e.0 ≡ replies.KeeperFailed → (self.new.server ≡ self.old.server) × (own_in self.new.source ≡ own_in self.old.source)
            × (R.failures self.new.source.keeper ≡ R.failures self.old.source.keeper + 1)) }
        ensures worked { IfErr result (λ e. e.0 ≢ replies.KeeperFailed) → R.failures self.new.source.keeper ≡ R.failures self.old.source.keeper }
        ensures received { (received_in self.new.source ≡ received_in self.old.source) × (ahead_in self.new.source ≡ ahead_in self.old.source) }
        ensures rises { R.received_floor self.old.source.keeper ≤ R.received_floor self.new.source.keeper }
        ensures client { self.new.client ≡ self.old.client }
        ensures back { IfErr result (λ e. e.1 ≡ ticket) }
        ensures within { IfOk result (λ n. n ≤ length out.new) }
        ensures behind { IfOk result (λ n. drop n out.new ≡ drop n out.old) }
        ensures unchanged { OnErr result (out.new ≡ out.old) }
    {
        if ticket.asks_own(own) {
            let Ok(()) = self.source.draw() else {
                return Err((ReplyError::KeeperFailed, ticket));
            };
        }
        pass_at_server(&mut self.server, self.source.upcoming());
        let (server, in_hand) = (&mut self.server, &mut self.source.in_hand);
        reply_drawn(server, in_hand, ticket, own, mid, plain, out)
    }

    /// Seals a notification as `Server::notify` does. It draws a number before anything else if none is in hand. If the record fails then,
    /// it returns KeeperFailed, and nothing changes. Each refusal leaves the number in hand.
    pub fn notify(
        &mut self,
        ticket: &Ticket,
        plain: &Message<'_>,
        out: &mut [u8],
    ) -> Result<usize, ReplyError>
        ensures answered { IfErr result (λ e. e ≢ replies.KeeperFailed) → (h : served.History) → ServerIsBehind self.old.server (upcoming (own_in self.old.source)) h
            → PeerStep h (served.Notify (values_of ticket.now) (parts_of plain.now) (length out.old)) (reply_entry result out.new)
            (own_in self.old.source) (own_in self.new.source) self.new.server }
        ensures failed { IfErr result (λ e. e ≡ replies.KeeperFailed → (self.new.server ≡ self.old.server) × (own_in self.new.source ≡ own_in self.old.source)
            × (R.failures self.new.source.keeper ≡ R.failures self.old.source.keeper + 1)) }
        ensures worked { IfErr result (λ e. e ≢ replies.KeeperFailed) → R.failures self.new.source.keeper ≡ R.failures self.old.source.keeper }
        ensures received { (received_in self.new.source ≡ received_in self.old.source) × (ahead_in self.new.source ≡ ahead_in self.old.source) }
        ensures rises { R.received_floor self.old.source.keeper ≤ R.received_floor self.new.source.keeper }
        ensures client { self.new.client ≡ self.old.client }
        ensures within { IfOk result (λ n. n ≤ length out.new) }
        ensures behind { IfOk result (λ n. drop n out.new ≡ drop n out.old) }
        ensures unchanged { OnErr result (out.new ≡ out.old) }
    {
        let Ok(()) = self.source.draw() else {
            return Err(ReplyError::KeeperFailed);
        };
        pass_at_server(&mut self.server, self.source.upcoming());
        let (server, in_hand) = (&mut self.server, &mut self.source.in_hand);
        notify_drawn(server, in_hand, ticket, plain, out)
    }
}
