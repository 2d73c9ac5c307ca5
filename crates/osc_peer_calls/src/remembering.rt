//! What a peer with a memory of replies makes of a datagram and of a reply, within the list of what happens at two devices (RFC 7252, 4.5;
//! RFC 8613, 7.4, 8.2 and 8.3).

ghost use Rattle.std.specs.Prelude.{◌≡◌, ◌≢◌, ◌≤◌, ◌+◌, None, IfErr, length, take};
ghost use Rattle.osc_coap.specs.Views.{parts_of};
ghost use Rattle.osc_context.specs.SecurityContext.{SecurityContext};
ghost use Rattle.osc_life.specs.LifeAnswer.{asks_own};
ghost use Rattle.osc_life.specs.ServerHistory as served;
ghost use Rattle.osc_life.specs.Views.{values_of};
ghost use Rattle.osc_life.specs.declared.outcome.Outcome.TheVariants as outcomes;
ghost use Rattle.osc_life.specs.declared.server_error.ReplyError.TheVariants as replies;
ghost use Rattle.osc_endpoint.specs.Views.{server_entry};
ghost use Rattle.osc_kept.specs.EchoNumbers.{sealed_echo};
ghost use Rattle.osc_replies.specs.Answering.{AnswersAgain};
ghost use Rattle.osc_replies.specs.Taking.{IfTaken, IfTakenAgain};
ghost use Rattle.osc_replies.specs.Views.{memory_of};
ghost use Rattle.osc_peers.specs.Peers.{Peers};
ghost use Rattle.osc_peer_calls.specs.Counting.{AreCounted};
ghost use Rattle.osc_peer_calls.specs.PeerCalls.{AdvancesInList, AnswersAfter, HoldsTicket, NobodyForgesTo, RunsIn, TakesInList};

use crate::laws::peer_calls_in_list;
use osc_coap::Message;
use osc_context::RecordKeeper;
use osc_endpoint::{ReplyError, Ticket};
use osc_kept_ends::KeptPeer;
use osc_replies::{Replies, TakenAgain};

/// Calls `Replies::take`. Where the memory answers, both clocks move, and nothing else is added to that list. Otherwise its claim is that of
/// `take_in_list`, and assumes what that does.
pub fn take_again_in_list<
    'b,
    R: RecordKeeper,
    const N: usize,
    const COUNT: usize,
    const LEN: usize,
>(
    memory: &mut Replies<COUNT, LEN>,
    peer: &mut KeptPeer<R, N>,
    now: u64,
    mid: u16,
    datagram: &'b mut [u8],
    out: &mut [u8],
) -> TakenAgain<'b>
    requires { 64 ≤ length out.old }
    ensures again { IfTakenAgain result (λ n. AnswersAgain (memory_of memory.old) datagram.old mid (take n out.new)) }
    ensures again_list { IfTakenAgain result (λ n. (s : SecurityContext) (w : Peers) → AreCounted N s w → RunsIn s w peer.old → AdvancesInList s w now peer.new) }
    ensures answered { IfTaken result (λ t. t.outcome ≢ outcomes.KeeperFailed → (s : SecurityContext) (w : Peers) → AreCounted N s w → RunsIn s w peer.old
        → NobodyForgesTo s w datagram.old → TakesInList s w now mid datagram.old t.outcome (take t.reply out.new) peer.old peer.new) }
    ensures clock_alone { IfTaken result (λ t. t.outcome ≡ outcomes.KeeperFailed → (s : SecurityContext) (w : Peers) → AreCounted N s w → RunsIn s w peer.old
        → AnswersAfter s w (served.Advance now) served.Advanced peer.new) }
    ensures failed { IfTaken result (λ t. t.outcome ≡ outcomes.KeeperFailed → R.failures peer.new.source.keeper ≡ R.failures peer.old.source.keeper + 1) }
    ensures worked { IfTaken result (λ t. t.outcome ≢ outcomes.KeeperFailed → R.failures peer.new.source.keeper ≡ R.failures peer.old.source.keeper) }
{
    // For the proof alone.
    peer_calls_in_list();
    memory.take(peer, now, mid, datagram, out)
}

/// Calls `Replies::reply`. Its claim about that list assumes what that of `reply_in_list` does.
pub fn reply_again_in_list<R: RecordKeeper, const N: usize, const COUNT: usize, const LEN: usize>(
    memory: &mut Replies<COUNT, LEN>,
    peer: &mut KeptPeer<R, N>,
    ticket: Ticket,
    own: bool,
    mid: u16,
    plain: &Message<'_>,
    out: &mut [u8],
) -> Result<usize, (ReplyError, Ticket)>
    ensures answered { IfErr result (λ e. e.0 ≢ replies.KeeperFailed) → (s : SecurityContext) (w : Peers) → AreCounted N s w → RunsIn s w peer.old
        → HoldsTicket s w (values_of ticket) → sealed_echo (parts_of plain.now) ≡ None
        → AnswersAfter s w (served.Reply (values_of ticket) (asks_own (values_of ticket) own) mid (parts_of plain.now) (length out.old)) (server_entry result out.new) peer.new }
    ensures unchanged { IfErr result (λ e. e.0 ≡ replies.KeeperFailed → (s : SecurityContext) (w : Peers) → RunsIn s w peer.old → RunsIn s w peer.new) }
    ensures failed { IfErr result (λ e. e.0 ≡ replies.KeeperFailed → R.failures peer.new.source.keeper ≡ R.failures peer.old.source.keeper + 1) }
    ensures worked { IfErr result (λ e. e.0 ≢ replies.KeeperFailed) → R.failures peer.new.source.keeper ≡ R.failures peer.old.source.keeper }
{
    // For the proof alone.
    peer_calls_in_list();
    memory.reply(peer, ticket, own, mid, plain, out)
}
