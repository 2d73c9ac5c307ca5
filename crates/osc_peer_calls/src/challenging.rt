//! How a peer asks for a fresh request, within the list of what happens at two devices (RFC 8613, 7.3 and 8.3; RFC 9175, 2.3).

ghost use Rattle.std.specs.Prelude.{◌≡◌, ◌≢◌, ◌+◌, true, IsErr, IfErr, IfOk, Some, length, take};
ghost use Rattle.osc_context.specs.SecurityContext.{SecurityContext};
ghost use Rattle.osc_life.specs.LifeAnswer.{asks_own};
ghost use Rattle.osc_life.specs.ServerHistory as served;
ghost use Rattle.osc_life.specs.Views.{values_of};
ghost use Rattle.osc_life.specs.declared.server_error.ReplyError.TheVariants as replies;
ghost use Rattle.osc_endpoint.specs.Views.{server_entry};
ghost use Rattle.osc_kept_ends.specs.EchoNumber.{echo_of};
ghost use Rattle.osc_kept_ends.specs.Numbering.{upcoming};
ghost use Rattle.osc_kept_ends.specs.PeerOwning.{own_in};
ghost use Rattle.osc_fresh.specs.Admitting.{IfDecided, IfStale};
ghost use Rattle.osc_fresh.specs.Views.{last_of};
ghost use Rattle.osc_fresh.specs.Wishing.{unobeyed_message};
ghost use Rattle.osc_peers.specs.Peers.{Peers};
ghost use Rattle.osc_peer_calls.specs.Counting.{AreCounted};
ghost use Rattle.osc_peer_calls.specs.AskingAnew.{AsksAnewInList, TicketsAreTaken};
ghost use Rattle.osc_peer_calls.specs.PeerCalls.{AnswersAfter, DecidesInList, HoldsTicket, NobodyForgesTo, RunsIn};

use crate::laws::peer_calls_in_list;
use osc_context::{KeeperError, RecordKeeper};
use osc_endpoint::{ReplyError, Ticket};
use osc_fresh::{DecidedFresh, Wishes};
use osc_kept_ends::KeptPeer;

/// Calls `Wishes::challenge`. Its claim about that list assumes a ticket that a delivery gave and that no reply took. So `peers_are_fresh`
/// speaks of each request that carries the challenge's value.
pub fn challenge_in_list<R: RecordKeeper, const N: usize>(
    wishes: &mut Wishes,
    peer: &mut KeptPeer<R, N>,
    ticket: Ticket,
    now: u64,
    mid: u16,
    out: &mut [u8],
) -> Result<usize, (ReplyError, Ticket)>
    ensures answered { IfErr result (λ e. e.0 ≢ replies.KeeperFailed) → (s : SecurityContext) (w : Peers) → AreCounted N s w → RunsIn s w peer.old
        → HoldsTicket s w (values_of ticket)
        → AnswersAfter s w (served.Reply (values_of ticket) (asks_own (values_of ticket) true) mid (unobeyed_message (echo_of (upcoming (own_in peer.old.source)))) (length out.old))
        (server_entry result out.new) peer.new }
    ensures issued { IfOk result (λ n. last_of wishes.new ≡ Some (record { number = upcoming (own_in peer.old.source); moment = now })) }
    ensures unchanged { IfErr result (λ e. e.0 ≡ replies.KeeperFailed → (s : SecurityContext) (w : Peers) → RunsIn s w peer.old → RunsIn s w peer.new) }
    ensures failed { IfErr result (λ e. e.0 ≡ replies.KeeperFailed → R.failures peer.new.source.keeper ≡ R.failures peer.old.source.keeper + 1) }
    ensures worked { IfErr result (λ e. e.0 ≢ replies.KeeperFailed) → R.failures peer.new.source.keeper ≡ R.failures peer.old.source.keeper }
{
    // For the proof alone.
    peer_calls_in_list();
    wishes.challenge(peer, ticket, now, mid, out)
}

/// Calls `Wishes::decide`. Its claim about that list assumes that nobody forged the datagram. Where a request is challenged, it assumes too
/// that each reply so far took a ticket that a delivery gave and that no earlier one took.
pub fn decide_fresh_in_list<R: RecordKeeper, const N: usize>(
    wishes: &mut Wishes,
    peer: &mut KeptPeer<R, N>,
    now: u64,
    mid: u16,
    datagram: &mut [u8],
    out: &mut [u8; 64],
) -> Result<DecidedFresh, KeeperError>
    ensures answered { IfOk result (λ x. IfDecided x (λ d. (s : SecurityContext) (w : Peers) → AreCounted N s w → RunsIn s w peer.old → NobodyForgesTo s w datagram.old
        → DecidesInList s w now mid datagram.old d.decision datagram.new (take d.reply out.new) peer.old peer.new)) }
    ensures stale { IfOk result (λ x. IfStale x ((s : SecurityContext) (w : Peers) → AreCounted N s w → RunsIn s w peer.old → NobodyForgesTo s w datagram.old → TicketsAreTaken s w
        → AsksAnewInList s w now mid datagram.old x out.new peer.old peer.new)) }
    ensures clock_alone { IsErr result → (s : SecurityContext) (w : Peers) → AreCounted N s w → RunsIn s w peer.old
        → AnswersAfter s w (served.Advance now) served.Advanced peer.new }
    ensures failed { IsErr result → R.failures peer.new.source.keeper ≡ R.failures peer.old.source.keeper + 1 }
{
    // For the proof alone.
    peer_calls_in_list();
    wishes.decide(peer, now, mid, datagram, out)
}
