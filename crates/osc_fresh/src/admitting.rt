//! A peer that delivers fresh requests alone (RFC 8613, 7.3; RFC 9175, 2.3).

ghost use Rattle.std.specs.Prelude.{◌≡◌, ◌≤◌, ◌+◌, IsErr, IfOk, drop, take};
ghost use Rattle.osc_life.specs.Deciding.{CanShow, Decides};
ghost use Rattle.osc_life.specs.ServerHistory as served;
ghost use Rattle.osc_observe.specs.Received.{Received};
ghost use Rattle.osc_kept_ends.specs.EchoNumber.{echo_of};
ghost use Rattle.osc_kept_ends.specs.Numbering.{upcoming};
ghost use Rattle.osc_kept_ends.specs.PeerOwning.{own_in};
ghost use Rattle.osc_kept_ends.specs.Peering.{DeliversBelow, PeerDecides, ServerIsBehind, ServerWaits};
ghost use Rattle.osc_fresh.specs.Admitting.{AsksAnew, DecidesAndAsks, IfDecided, IfStale, reply_of};
ghost use Rattle.osc_fresh.specs.Wishing.{IsFresh};

use crate::decided_fresh::DecidedFresh;
use crate::wishes::Wishes;
use osc_context::{KeeperError, RecordKeeper};
use osc_endpoint::{Decided, Decision};
use osc_kept_ends::KeptPeer;

impl Wishes {
    ghost use Rattle.osc_fresh.specs.Views.{last_of};

    /// Judges what a peer decided about a datagram: a request that it delivers is delivered if it is fresh (`is_fresh`), and challenged
    /// otherwise (`challenge`). Everything else stays as it was decided, with its reply in `out`. Pass in the datagram as `decide` left it,
    /// and the same `now`, `mid` and `out`.
    pub fn admit<R: RecordKeeper, const N: usize>(
        &mut self,
        peer: &mut KeptPeer<R, N>,
        now: u64,
        mid: u16,
        decided: Decided,
        datagram: &[u8],
        out: &mut [u8; 64],
    ) -> DecidedFresh
        requires shown { CanShow decided.decision datagram.now }
        ensures passed { IfDecided result (λ d. (d ≡ decided) × (peer.new ≡ peer.old) × (self.new ≡ self.old) × (out.new ≡ out.old)) }
        ensures recent { IfDecided result (λ d. (received : Received) (ticket : served.TicketValues) → Decides d.decision datagram.now (served.Deliver received ticket)
            → IsFresh self.old.fresh_ms (last_of self.old) received.message now) }
        ensures stale { IfStale result (AsksAnew self.old now mid decided datagram.now result out.old out.new self.new peer.old peer.new) }
        ensures within { IfStale result (reply_of result ≤ 64) }
        ensures rises { R.received_floor peer.old.source.keeper ≤ R.received_floor peer.new.source.keeper }
        ensures client { peer.new.client ≡ peer.old.client }
        ensures wish { self.new.fresh_ms ≡ self.old.fresh_ms }
    {
        let Decided { decision, reply } = decided;
        match decision {
            Decision::Deliver(read, ticket) => {
                if self.is_fresh(&read.opened(datagram), now) {
                    let decision = Decision::Deliver(read, ticket);
                    return DecidedFresh::Decided(Decided { decision, reply });
                }
                match self.challenge(peer, ticket, now, mid, out) {
                    Ok(len) => DecidedFresh::Challenged(len),
                    Err((error, _ticket)) => DecidedFresh::Unanswered(error),
                }
            }
            decision => DecidedFresh::Decided(Decided { decision, reply }),
        }
    }

    /// Decides about a datagram as `KeptPeer::decide` does, and judges the decision by `admit`: so a request that isn't known to be fresh is
    /// challenged, and never delivered.
    pub fn decide<R: RecordKeeper, const N: usize>(
        &mut self,
        peer: &mut KeptPeer<R, N>,
        now: u64,
        mid: u16,
        datagram: &mut [u8],
        out: &mut [u8; 64],
    ) -> Result<DecidedFresh, KeeperError>
        ensures passed { IfOk result (λ x. IfDecided x (λ d. (h : served.History) → ServerIsBehind peer.old.server (upcoming (own_in peer.old.source)) h
            → PeerDecides h now (record { echo = echo_of (upcoming (own_in peer.old.source)); mid = mid }) datagram.old d datagram.new (take d.reply out.new)
            (own_in peer.old.source) (own_in peer.new.source) peer.new.server)) }
        ensures kept { IfOk result (λ x. IfDecided x (λ d. DeliversBelow d.decision (R.received_floor peer.new.source.keeper))) }
        ensures recent { IfOk result (λ x. IfDecided x (λ d. (received : Received) (ticket : served.TicketValues) → Decides d.decision datagram.new (served.Deliver received ticket)
            → IsFresh self.old.fresh_ms (last_of self.old) received.message now)) }
        ensures stale { IfOk result (λ x. IfStale x (DecidesAndAsks self.old now mid datagram.old datagram.new x out.old out.new self.new peer.old peer.new)) }
        ensures waits { IsErr result → (h : served.History) → ServerIsBehind peer.old.server (upcoming (own_in peer.old.source)) h
            → ServerWaits h now (own_in peer.old.source) (own_in peer.new.source) peer.new.server }
        ensures rises { R.received_floor peer.old.source.keeper ≤ R.received_floor peer.new.source.keeper }
        ensures client { peer.new.client ≡ peer.old.client }
        ensures failed { IsErr result → R.failures peer.new.source.keeper ≡ R.failures peer.old.source.keeper + 1 }
        ensures worked { IfOk result (λ x. IfDecided x (λ d. R.failures peer.new.source.keeper ≡ R.failures peer.old.source.keeper)) }
        ensures shown { IfOk result (λ x. IfDecided x (λ d. CanShow d.decision datagram.new)) }
        ensures within { IfOk result (λ x. reply_of x ≤ 64) }
        ensures behind { IfOk result (λ x. IfDecided x (λ d. drop d.reply out.new ≡ drop d.reply out.old)) }
        ensures same { IfOk result (λ x. IfDecided x (λ d. self.new ≡ self.old)) }
        ensures unchanged { IsErr result → self.new ≡ self.old }
        ensures wish { self.new.fresh_ms ≡ self.old.fresh_ms }
    {
        match peer.decide(now, mid, datagram, out) {
            Ok(decided) => Ok(self.admit(peer, now, mid, decided, datagram, out)),
            Err(error) => Err(error),
        }
    }
}
