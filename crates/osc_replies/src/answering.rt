//! A peer with a memory of the requests that it answered (RFC 7252, 4.5; RFC 8613, 7.4 and 8.2).

ghost use Rattle.std.specs.Prelude.{◌≡◌, ◌≢◌, ◌≤◌, ◌+◌, ◌⊎◌, ℕ, List, IsErr, IsOk, IfErr, IfOk, OnErr, length, [], take, drop};
ghost use Rattle.osc_client.specs.Agrees.{ClientAgrees};
ghost use Rattle.osc_client.specs.ClientHistory as asked;
ghost use Rattle.osc_endpoint.specs.Agrees.{Agrees};
ghost use Rattle.osc_life.specs.Deciding.{CanShow};
ghost use Rattle.osc_coap.specs.Views.{parts_of};
ghost use Rattle.osc_endpoint.specs.Views.{server_entry};
ghost use Rattle.osc_life.specs.LifeAnswer.{asks_own};
ghost use Rattle.osc_life.specs.ServerHistory as served;
ghost use Rattle.osc_life.specs.Views.{values_of};
ghost use Rattle.osc_life.specs.declared.server_error.ReplyError.TheVariants as replies;
ghost use Rattle.osc_kept_ends.specs.EchoNumber.{echo_of};
ghost use Rattle.osc_kept_ends.specs.Numbering.{upcoming};
ghost use Rattle.osc_kept_ends.specs.PeerOwning.{own_in};
ghost use Rattle.osc_kept_ends.specs.Peering.{DeliversBelow, PeerDecides, PeerStep, ServerIsBehind, ServerWaits};
ghost use Rattle.osc_replies.specs.Answering.{AnswersAgain, HasNoAnswer, IfAgain, IfDecided, IfNotAgain, IsNoReply, IsTooLong, KeepsRequest, Remembers, RemembersReply};
ghost use Rattle.osc_replies.specs.Memory.{NumbersDiffer};
ghost use Rattle.osc_replies.specs.Requested.{IsCopied, IsKeptOf};
ghost use Rattle.osc_replies.specs.Views.{kept_of, memory_of};

use crate::again::DecidedAgain;
use crate::new_head::put;
use crate::remembered::Remembered;
use crate::replies::Replies;
use crate::reply::is_reply;
use osc_coap::Message;
use osc_context::{KeeperError, RecordKeeper};
use osc_endpoint::{Decided, Decision, ReplyError, Ticket};
use osc_kept_ends::KeptPeer;

impl<const COUNT: usize, const LEN: usize> Replies<COUNT, LEN> {
    /// Remembers a request that was delivered, without a reply.
    fn keep_delivered(&mut self, request: Option<Remembered<LEN>>)
        ensures kept { (d : List ℕ) → IsCopied request.entry d → KeepsRequest COUNT d [] (memory_of self.old) (memory_of self.new)
            ⊎ ((memory_of self.new ≡ memory_of self.old) × IsTooLong LEN d) }
        ensures apart { NumbersDiffer (memory_of self.old) → NumbersDiffer (memory_of self.new) }
    {
        if let Some(request) = request {
            self.keep_request(request);
        }
    }

    /// Remembers a request that was challenged, with the challenge as its reply.
    fn keep_challenged(&mut self, request: Option<Remembered<LEN>>, reply: &[u8])
        ensures kept { (d : List ℕ) → IsCopied request.entry d → KeepsRequest COUNT d reply.now (memory_of self.old) (memory_of self.new)
            ⊎ ((memory_of self.new ≡ memory_of self.old) × (IsTooLong LEN d ⊎ IsNoReply LEN reply.now)) }
        ensures apart { NumbersDiffer (memory_of self.old) → NumbersDiffer (memory_of self.new) }
    {
        let Some(mut request) = request else {
            return;
        };
        if LEN < reply.len() || !is_reply(reply) {
            return;
        }
        request.answer(reply);
        self.keep_request(request);
    }

    /// Remembers the request of a datagram that was decided about, if it was delivered or challenged.
    fn remember(&mut self, request: Option<Remembered<LEN>>, decision: &Decision, reply: &[u8])
        ensures kept { (d : List ℕ) → IsCopied request.entry d → Remembers COUNT LEN d decision.now reply.now (memory_of self.old) (memory_of self.new) }
        ensures apart { NumbersDiffer (memory_of self.old) → NumbersDiffer (memory_of self.new) }
    {
        match decision {
            Decision::Deliver(_, _) => self.keep_delivered(request),
            Decision::Challenge { .. } => self.keep_challenged(request, reply),
            Decision::Malformed(_)
            | Decision::NotRequest
            | Decision::Plain
            | Decision::Undecodable
            | Decision::NoContext
            | Decision::Replay
            | Decision::BadTag
            | Decision::BadInner
            | Decision::SequenceExhausted => {}
        }
    }

    /// Decides the answer to a datagram as the peer does, and remembers the request.
    fn decide_anew<R: RecordKeeper, const N: usize>(
        &mut self,
        peer: &mut KeptPeer<R, N>,
        now: u64,
        mid: u16,
        datagram: &mut [u8],
        out: &mut [u8],
    ) -> Result<Decided, KeeperError>
        requires { 64 ≤ length out.old }
        ensures answered { IfOk result (λ d. (h : served.History) → ServerIsBehind peer.old.server (upcoming (own_in peer.old.source)) h
            → PeerDecides h now (record { echo = echo_of (upcoming (own_in peer.old.source)); mid = mid }) datagram.old d datagram.new (take d.reply out.new)
            (own_in peer.old.source) (own_in peer.new.source) peer.new.server) }
        ensures kept { IfOk result (λ d. DeliversBelow d.decision (R.received_floor peer.new.source.keeper)) }
        ensures rises { R.received_floor peer.old.source.keeper ≤ R.received_floor peer.new.source.keeper }
        ensures waits { IsErr result → (h : served.History) → ServerIsBehind peer.old.server (upcoming (own_in peer.old.source)) h
            → ServerWaits h now (own_in peer.old.source) (own_in peer.new.source) peer.new.server }
        ensures client { peer.new.client ≡ peer.old.client }
        ensures failed { IsErr result → R.failures peer.new.source.keeper ≡ R.failures peer.old.source.keeper + 1 }
        ensures worked { IsOk result → R.failures peer.new.source.keeper ≡ R.failures peer.old.source.keeper }
        ensures shown { IfOk result (λ d. CanShow d.decision datagram.new) }
        ensures within { IfOk result (λ d. d.reply ≤ 64) }
        ensures behind { IfOk result (λ d. drop d.reply out.new ≡ drop d.reply out.old) }
        ensures remembers { IfOk result (λ d. Remembers COUNT LEN datagram.old d.decision (take d.reply out.new) (memory_of self.old) (memory_of self.new)) }
        ensures unchanged { IsErr result → self.new ≡ self.old }
        ensures apart { NumbersDiffer (memory_of self.old) → NumbersDiffer (memory_of self.new) }
    {
        let request = Remembered::request(datagram);
        let mut front = [0; 64];
        match peer.decide(now, mid, datagram, &mut front) {
            Ok(decided) => {
                let (reply, _) = front.split_at(decided.reply);
                let _ = put(out, 0, reply);
                self.remember(request, &decided.decision, reply);
                Ok(decided)
            }
            Err(error) => Err(error),
        }
    }

    /// Answers a datagram from the memory if it has a reply for its request: then nothing is opened, sealed or delivered, and the clocks of the
    /// peer alone move. Otherwise it decides as `KeptPeer::decide` does, and remembers a request that is delivered, for `reply`, or challenged.
    /// `out` has room for 64 bytes at least; a reply that has no room in it isn't given again. `mid` is the Message ID of a reply to a NON
    /// (RFC 7252, 4.5; RFC 8613, 7.4 and 8.2).
    pub fn decide<R: RecordKeeper, const N: usize>(
        &mut self,
        peer: &mut KeptPeer<R, N>,
        now: u64,
        mid: u16,
        datagram: &mut [u8],
        out: &mut [u8],
    ) -> Result<DecidedAgain, KeeperError>
        requires { 64 ≤ length out.old }
        ensures again { IfAgain result (λ n. AnswersAgain (memory_of self.old) datagram.old mid (take n out.new)) }
        ensures again_server { IfAgain result (λ n. (h : served.History) → Agrees peer.old.server h
            → Agrees peer.new.server (served.Then h (served.Advance now) served.Advanced)) }
        ensures again_client { IfAgain result (λ n. (k : asked.History) → ClientAgrees peer.old.client k
            → ClientAgrees peer.new.client (asked.Then k (asked.Advance now) asked.Advanced)) }
        ensures again_source { IfAgain result (λ n. peer.new.source ≡ peer.old.source) }
        ensures again_memory { IfAgain result (λ n. self.new ≡ self.old) }
        ensures again_datagram { IfAgain result (λ n. datagram.new ≡ datagram.old) }
        ensures again_within { IfAgain result (λ n. n ≤ length out.new) }
        ensures again_behind { IfAgain result (λ n. drop n out.new ≡ drop n out.old) }
        ensures anew { IfNotAgain result (HasNoAnswer (memory_of self.old) datagram.old mid (length out.old)) }
        ensures answered { IfDecided result (λ d. (h : served.History) → ServerIsBehind peer.old.server (upcoming (own_in peer.old.source)) h
            → PeerDecides h now (record { echo = echo_of (upcoming (own_in peer.old.source)); mid = mid }) datagram.old d datagram.new (take d.reply out.new)
            (own_in peer.old.source) (own_in peer.new.source) peer.new.server) }
        ensures kept { IfDecided result (λ d. DeliversBelow d.decision (R.received_floor peer.new.source.keeper)) }
        ensures rises { R.received_floor peer.old.source.keeper ≤ R.received_floor peer.new.source.keeper }
        ensures waits { IsErr result → (h : served.History) → ServerIsBehind peer.old.server (upcoming (own_in peer.old.source)) h
            → ServerWaits h now (own_in peer.old.source) (own_in peer.new.source) peer.new.server }
        ensures client { IfNotAgain result (peer.new.client ≡ peer.old.client) }
        ensures failed { IsErr result → R.failures peer.new.source.keeper ≡ R.failures peer.old.source.keeper + 1 }
        ensures worked { IsOk result → R.failures peer.new.source.keeper ≡ R.failures peer.old.source.keeper }
        ensures shown { IfDecided result (λ d. CanShow d.decision datagram.new) }
        ensures within { IfDecided result (λ d. d.reply ≤ 64) }
        ensures behind { IfDecided result (λ d. drop d.reply out.new ≡ drop d.reply out.old) }
        ensures remembers { IfDecided result (λ d. Remembers COUNT LEN datagram.old d.decision (take d.reply out.new) (memory_of self.old) (memory_of self.new)) }
        ensures unchanged { IsErr result → self.new ≡ self.old }
        ensures apart { NumbersDiffer (memory_of self.old) → NumbersDiffer (memory_of self.new) }
    {
        match self.again(mid, datagram, out) {
            Ok(len) => {
                peer.advance(now);
                Ok(DecidedAgain::Again(len))
            }
            Err(_) => match self.decide_anew(peer, now, mid, datagram, out) {
                Ok(decided) => Ok(DecidedAgain::Decided(decided)),
                Err(error) => Err(error),
            },
        }
    }

    /// Seals a reply as `KeptPeer::reply` does, and remembers it for the request of the ticket, if the memory still keeps that. A refusal
    /// changes nothing that is remembered.
    pub fn reply<R: RecordKeeper, const N: usize>(
        &mut self,
        peer: &mut KeptPeer<R, N>,
        ticket: Ticket,
        own: bool,
        mid: u16,
        plain: &Message<'_>,
        out: &mut [u8],
    ) -> Result<usize, (ReplyError, Ticket)>
        ensures answered { IfErr result (λ e. e.0 ≢ replies.KeeperFailed) → (h : served.History) → ServerIsBehind peer.old.server (upcoming (own_in peer.old.source)) h
            → PeerStep h (served.Reply (values_of ticket) (asks_own (values_of ticket) own) mid (parts_of plain.now) (length out.old)) (server_entry result out.new)
            (own_in peer.old.source) (own_in peer.new.source) peer.new.server }
        ensures failed { IfErr result (λ e. e.0 ≡ replies.KeeperFailed → (peer.new.server ≡ peer.old.server) × (own_in peer.new.source ≡ own_in peer.old.source)
            × (R.failures peer.new.source.keeper ≡ R.failures peer.old.source.keeper + 1)) }
        ensures worked { IfErr result (λ e. e.0 ≢ replies.KeeperFailed) → R.failures peer.new.source.keeper ≡ R.failures peer.old.source.keeper }
        ensures rises { R.received_floor peer.old.source.keeper ≤ R.received_floor peer.new.source.keeper }
        ensures client { peer.new.client ≡ peer.old.client }
        ensures back { IfErr result (λ e. e.1 ≡ ticket) }
        ensures within { IfOk result (λ n. n ≤ length out.new) }
        ensures behind { IfOk result (λ n. drop n out.new ≡ drop n out.old) }
        ensures unchanged { OnErr result (out.new ≡ out.old) }
        ensures remembers { IfOk result (λ n. RemembersReply LEN (values_of ticket).number (take n out.new) (memory_of self.old) (memory_of self.new)) }
        ensures forgets_nothing { OnErr result (self.new ≡ self.old) }
        ensures apart { NumbersDiffer (memory_of self.old) → NumbersDiffer (memory_of self.new) }
    {
        let number = ticket.number();
        match peer.reply(ticket, own, mid, plain, out) {
            Ok(len) => {
                let (reply, _) = out.split_at(len);
                let _ = self.keep_reply(number, reply);
                Ok(len)
            }
            Err(refusal) => Err(refusal),
        }
    }
}
