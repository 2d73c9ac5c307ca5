//! What a peer answers, within the list of what happens at two devices (RFC 8613, 7.4, 8.2 to 8.3.1 and B.1).

ghost use Rattle.std.specs.Prelude.{◌≡◌, ◌≢◌, ◌+◌, None, IsErr, IsOk, IfErr, IfOk, length, take};
ghost use Rattle.osc_coap.specs.Views.{parts_of};
ghost use Rattle.osc_context.specs.SecurityContext.{SecurityContext};
ghost use Rattle.osc_protect.specs.Protection.{as_notified};
ghost use Rattle.osc_life.specs.LifeAnswer.{asks_own};
ghost use Rattle.osc_life.specs.ServerHistory as served;
ghost use Rattle.osc_life.specs.Views.{reply_entry, values_of};
ghost use Rattle.osc_life.specs.declared.outcome.Outcome.TheVariants as outcomes;
ghost use Rattle.osc_life.specs.declared.server_error.ReplyError.TheVariants as replies;
ghost use Rattle.osc_endpoint.specs.Views.{server_entry};
ghost use Rattle.osc_kept.specs.EchoNumbers.{sealed_echo};
ghost use Rattle.osc_peers.specs.Peers.{Peers};
ghost use Rattle.osc_peer_calls.specs.Counting.{AreCounted};
ghost use Rattle.osc_peer_calls.specs.PeerCalls.{AnswersAfter, DecidesInList, HoldsTicket, NobodyForgesTo, RunsIn, TakesInList};

use crate::laws::peer_calls_in_list;
use osc_coap::Message;
use osc_context::{KeeperError, RecordKeeper};
use osc_endpoint::{Decided, ReplyError, Taken, Ticket};
use osc_kept_ends::KeptPeer;

/// Calls `KeptPeer::decide`. Its claim about that list assumes that nobody forged the datagram.
pub fn decide_in_list<R: RecordKeeper, const N: usize>(
    peer: &mut KeptPeer<R, N>,
    now: u64,
    mid: u16,
    datagram: &mut [u8],
    out: &mut [u8; 64],
) -> Result<Decided, KeeperError>
    ensures answered { IfOk result (λ d. (s : SecurityContext) (w : Peers) → AreCounted N s w → RunsIn s w peer.old → NobodyForgesTo s w datagram.old
        → DecidesInList s w now mid datagram.old d.decision datagram.new (take d.reply out.new) peer.old peer.new) }
    ensures clock_alone { IsErr result → (s : SecurityContext) (w : Peers) → AreCounted N s w → RunsIn s w peer.old
        → AnswersAfter s w (served.Advance now) served.Advanced peer.new }
    ensures failed { IsErr result → R.failures peer.new.source.keeper ≡ R.failures peer.old.source.keeper + 1 }
    ensures worked { IsOk result → R.failures peer.new.source.keeper ≡ R.failures peer.old.source.keeper }
{
    // For the proof alone.
    peer_calls_in_list();
    peer.decide(now, mid, datagram, out)
}

/// Calls `KeptPeer::take`. Its claim about that list assumes that nobody forged the datagram.
pub fn take_in_list<'b, R: RecordKeeper, const N: usize>(
    peer: &mut KeptPeer<R, N>,
    now: u64,
    mid: u16,
    datagram: &'b mut [u8],
    out: &mut [u8; 64],
) -> Taken<'b>
    ensures answered { result.outcome ≢ outcomes.KeeperFailed → (s : SecurityContext) (w : Peers) → AreCounted N s w → RunsIn s w peer.old → NobodyForgesTo s w datagram.old
        → TakesInList s w now mid datagram.old result.outcome (take result.reply out.new) peer.old peer.new }
    ensures clock_alone { result.outcome ≡ outcomes.KeeperFailed → (s : SecurityContext) (w : Peers) → AreCounted N s w → RunsIn s w peer.old
        → AnswersAfter s w (served.Advance now) served.Advanced peer.new }
    ensures failed { result.outcome ≡ outcomes.KeeperFailed → R.failures peer.new.source.keeper ≡ R.failures peer.old.source.keeper + 1 }
    ensures worked { result.outcome ≢ outcomes.KeeperFailed → R.failures peer.new.source.keeper ≡ R.failures peer.old.source.keeper }
{
    // For the proof alone.
    peer_calls_in_list();
    peer.take(now, mid, datagram, out)
}

/// Calls `KeptPeer::reply`. Its claim about that list assumes a ticket that a delivery gave and that no reply took, and a message without an
/// Echo value.
pub fn reply_in_list<R: RecordKeeper, const N: usize>(
    peer: &mut KeptPeer<R, N>,
    ticket: Ticket,
    own: bool,
    mid: u16,
    plain: &Message<'_>,
    out: &mut [u8],
) -> Result<usize, (ReplyError, Ticket)>
    ensures answered { IfErr result (λ e. e.0 ≢ replies.KeeperFailed) → (s : SecurityContext) (w : Peers) → AreCounted N s w → RunsIn s w peer.old
        → HoldsTicket s w (values_of ticket) → sealed_echo (parts_of plain.now) ≡ None
        → AnswersAfter s w (served.Reply (values_of ticket) (asks_own (values_of ticket) own) mid (parts_of plain.now) (length out.old)) (server_entry result out.new) peer.new }
    ensures unchanged { IfErr result (λ e. e.0 ≡ replies.KeeperFailed → (s : SecurityContext) (w : Peers) → RunsIn s w peer.old → RunsIn s w peer.new) }
    ensures failed { IfErr result (λ e. e.0 ≡ replies.KeeperFailed → R.failures peer.new.source.keeper ≡ R.failures peer.old.source.keeper + 1) }
    ensures worked { IfErr result (λ e. e.0 ≢ replies.KeeperFailed) → R.failures peer.new.source.keeper ≡ R.failures peer.old.source.keeper }
{
    // For the proof alone.
    peer_calls_in_list();
    peer.reply(ticket, own, mid, plain, out)
}

/// Calls `KeptPeer::notify`. Its claim about that list assumes what that of `reply_in_list` does.
pub fn notify_in_list<R: RecordKeeper, const N: usize>(
    peer: &mut KeptPeer<R, N>,
    ticket: &Ticket,
    plain: &Message<'_>,
    out: &mut [u8],
) -> Result<usize, ReplyError>
    ensures answered { IfErr result (λ e. e ≢ replies.KeeperFailed) → (s : SecurityContext) (w : Peers) → AreCounted N s w → RunsIn s w peer.old
        → HoldsTicket s w (values_of ticket.now) → sealed_echo (as_notified (parts_of plain.now)) ≡ None
        → AnswersAfter s w (served.Notify (values_of ticket.now) (parts_of plain.now) (length out.old)) (reply_entry result out.new) peer.new }
    ensures unchanged { IfErr result (λ e. e ≡ replies.KeeperFailed → (s : SecurityContext) (w : Peers) → RunsIn s w peer.old → RunsIn s w peer.new) }
    ensures failed { IfErr result (λ e. e ≡ replies.KeeperFailed → R.failures peer.new.source.keeper ≡ R.failures peer.old.source.keeper + 1) }
    ensures worked { IfErr result (λ e. e ≢ replies.KeeperFailed) → R.failures peer.new.source.keeper ≡ R.failures peer.old.source.keeper }
{
    // For the proof alone.
    peer_calls_in_list();
    peer.notify(ticket, plain, out)
}
