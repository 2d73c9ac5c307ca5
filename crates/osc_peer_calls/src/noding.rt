//! What a node makes of a datagram, of a request and of a response, within the list of what happens at two devices (RFC 7252, 4 and 5.2; RFC 8613,
//! 7.4 and 8.1 to 8.4).

ghost use Rattle.std.specs.Prelude.{◌≡◌, ℕ, take};
ghost use Rattle.osc_coap.specs.Datagram.{IsDatagram, Parts};
ghost use Rattle.osc_context.specs.SecurityContext.{SecurityContext};
ghost use Rattle.osc_life.specs.ServerHistory as served;
ghost use Rattle.osc_node.specs.Deciding.{IfKeeperFailed, IfLayerAlone, IfRequest, IfResponse};
ghost use Rattle.osc_peers.specs.Peers.{Peers};
ghost use Rattle.osc_peer_calls.specs.Counting.{AreCounted};
ghost use Rattle.osc_peer_calls.specs.PeerCalls.{AnswersAfter, DecidesBack, DecidesInList, NobodyForgesBack, NobodyForgesTo, RunsIn};

use crate::laws::peer_calls_in_list;
use osc_context::RecordKeeper;
use osc_message::Address;
use osc_node::{Node, NodeDecided};

/// Calls `Node::decide`. Where the peer decides about a request or a response, that is the event which is added to that list, and what is delivered is
/// the delivery of that event; where the message layer decides alone, nothing is added. Its claim assumes that nobody forged the datagram.
pub fn decide_at_node_in_list<R: RecordKeeper, const N: usize, const M: usize>(
    node: &mut Node<R, N, M>,
    now: u64,
    from: Address,
    datagram: &mut [u8],
    out: &mut [u8; 64],
) -> NodeDecided
    ensures requested { (p : Parts) → IsDatagram p datagram.old → IfRequest result.decision (λ d. (s : SecurityContext) (w : Peers) → AreCounted N s w → RunsIn s w node.old.peer
        → NobodyForgesTo s w datagram.old → (id : ℕ) × DecidesInList s w now id datagram.old d.decision datagram.new (take d.reply out.new) node.old.peer node.new.peer) }
    ensures heard { IfResponse result.decision (λ d. (s : SecurityContext) (w : Peers) → AreCounted N s w → RunsIn s w node.old.peer → NobodyForgesBack s w now datagram.old
        → DecidesBack s w now datagram.old d datagram.new node.new.peer) }
    ensures clock_alone { IfKeeperFailed result.decision ((s : SecurityContext) (w : Peers) → AreCounted N s w → RunsIn s w node.old.peer
        → AnswersAfter s w (served.Advance now) served.Advanced node.new.peer) }
    ensures unchanged { IfLayerAlone result.decision (node.new.peer ≡ node.old.peer) }
{
    // For the proof alone.
    peer_calls_in_list();
    node.decide(now, from, datagram, out)
}
