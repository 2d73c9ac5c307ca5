//! A peer with a memory, where it takes a datagram in place (RFC 7252, 4.5; RFC 8613, 8.2).

ghost use Rattle.std.specs.Prelude.{◌≡◌, ◌≢◌, ◌≤◌, ◌+◌, length, take, drop};
ghost use Rattle.osc_client.specs.Agrees.{ClientAgrees};
ghost use Rattle.osc_client.specs.ClientHistory as asked;
ghost use Rattle.osc_endpoint.specs.Agrees.{Agrees};
ghost use Rattle.osc_life.specs.ServerHistory as served;
ghost use Rattle.osc_life.specs.declared.outcome.Outcome.TheVariants as outcomes;
ghost use Rattle.osc_kept_ends.specs.EchoNumber.{echo_of};
ghost use Rattle.osc_kept_ends.specs.Numbering.{upcoming};
ghost use Rattle.osc_kept_ends.specs.PeerOwning.{own_in};
ghost use Rattle.osc_kept_ends.specs.Peering.{PeerTakes, ServerIsBehind, ServerWaits, TakesBelow};
ghost use Rattle.osc_replies.specs.Answering.{AnswersAgain, HasNoAnswer};
ghost use Rattle.osc_replies.specs.Memory.{NumbersDiffer};
ghost use Rattle.osc_replies.specs.Taking.{IfTaken, IfTakenAgain, RemembersShown};
ghost use Rattle.osc_replies.specs.Views.{memory_of};

use crate::again::{DecidedAgain, TakenAgain};
use crate::replies::Replies;
use osc_context::{KeeperError, RecordKeeper};
use osc_endpoint::{Decided, Outcome, Taken};
use osc_kept_ends::KeptPeer;

impl<const COUNT: usize, const LEN: usize> Replies<COUNT, LEN> {
    /// Takes a datagram in place, as `KeptPeer::take` does, if the memory has no reply for its request: it calls `decide`, and returns the
    /// decision as an outcome. `decide` says what the datagram holds afterwards, and what `out` needs.
    pub fn take<'b, R: RecordKeeper, const N: usize>(
        &mut self,
        peer: &mut KeptPeer<R, N>,
        now: u64,
        mid: u16,
        datagram: &'b mut [u8],
        out: &mut [u8],
    ) -> TakenAgain<'b>
        requires { 64 ≤ length out.old }
        ensures again { IfTakenAgain result (λ n. AnswersAgain (memory_of self.old) datagram.old mid (take n out.new)) }
        ensures again_server { IfTakenAgain result (λ n. (h : served.History) → Agrees peer.old.server h
            → Agrees peer.new.server (served.Then h (served.Advance now) served.Advanced)) }
        ensures again_client { IfTakenAgain result (λ n. (k : asked.History) → ClientAgrees peer.old.client k
            → ClientAgrees peer.new.client (asked.Then k (asked.Advance now) asked.Advanced)) }
        ensures again_source { IfTakenAgain result (λ n. peer.new.source ≡ peer.old.source) }
        ensures again_memory { IfTakenAgain result (λ n. self.new ≡ self.old) }
        ensures again_within { IfTakenAgain result (λ n. n ≤ length out.new) }
        ensures again_behind { IfTakenAgain result (λ n. drop n out.new ≡ drop n out.old) }
        ensures anew { IfTaken result (λ t. HasNoAnswer (memory_of self.old) datagram.old mid (length out.old)) }
        ensures answered { IfTaken result (λ t. t.outcome ≢ outcomes.KeeperFailed
            → (h : served.History) → ServerIsBehind peer.old.server (upcoming (own_in peer.old.source)) h
            → PeerTakes h now (record { echo = echo_of (upcoming (own_in peer.old.source)); mid = mid }) datagram.old t.outcome (take t.reply out.new)
            (own_in peer.old.source) (own_in peer.new.source) peer.new.server) }
        ensures kept { IfTaken result (λ t. TakesBelow t.outcome (R.received_floor peer.new.source.keeper)) }
        ensures rises { R.received_floor peer.old.source.keeper ≤ R.received_floor peer.new.source.keeper }
        ensures waits { IfTaken result (λ t. t.outcome ≡ outcomes.KeeperFailed
            → (h : served.History) → ServerIsBehind peer.old.server (upcoming (own_in peer.old.source)) h
            → ServerWaits h now (own_in peer.old.source) (own_in peer.new.source) peer.new.server) }
        ensures client { IfTaken result (λ t. peer.new.client ≡ peer.old.client) }
        ensures failed { IfTaken result (λ t. t.outcome ≡ outcomes.KeeperFailed → R.failures peer.new.source.keeper ≡ R.failures peer.old.source.keeper + 1) }
        ensures worked { IfTaken result (λ t. t.outcome ≢ outcomes.KeeperFailed → R.failures peer.new.source.keeper ≡ R.failures peer.old.source.keeper) }
        ensures within { IfTaken result (λ t. t.reply ≤ 64) }
        ensures silent { IfTaken result (λ t. t.outcome ≡ outcomes.KeeperFailed → t.reply ≡ 0) }
        ensures behind { IfTaken result (λ t. t.outcome ≢ outcomes.KeeperFailed → drop t.reply out.new ≡ drop t.reply out.old) }
        ensures remembers { IfTaken result (λ t. t.outcome ≢ outcomes.KeeperFailed
            → RemembersShown COUNT LEN datagram.old t.outcome (take t.reply out.new) (memory_of self.old) (memory_of self.new)) }
        ensures unchanged { IfTaken result (λ t. t.outcome ≡ outcomes.KeeperFailed → self.new ≡ self.old) }
        ensures apart { NumbersDiffer (memory_of self.old) → NumbersDiffer (memory_of self.new) }
    {
        match self.decide(peer, now, mid, datagram, out) {
            Ok(DecidedAgain::Again(len)) => TakenAgain::Again(len),
            Ok(DecidedAgain::Decided(Decided { decision, reply })) => {
                let outcome = decision.outcome(datagram);
                TakenAgain::Taken(Taken { outcome, reply })
            }
            Err(KeeperError) => TakenAgain::Taken(Taken {
                outcome: Outcome::KeeperFailed,
                reply: 0,
            }),
        }
    }
}
