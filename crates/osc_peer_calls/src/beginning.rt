//! The start of a peer within the list of what happens at two devices, and what moves both its clocks (RFC 8613, 7.2.1 and B.1).

ghost use Rattle.std.specs.Prelude.{◌≡◌, ◌≤◌, ℕ, IfErr, IfOk};
ghost use Rattle.osc_context.specs.SecurityContext.{SecurityContext};
ghost use Rattle.osc_context.specs.Views.{as_client};
ghost use Rattle.osc_life.specs.declared.start.Start.{Start as StartOf};
ghost use Rattle.osc_kept_ends.specs.Peering.{IsPeerStart};
ghost use Rattle.osc_kept_ends.specs.Refusals.{RefusesPeer};
ghost use Rattle.osc_peers.specs.Peers.{Peers, near_numbers};
ghost use Rattle.osc_peer_calls.specs.Counting.{AreCounted};
ghost use Rattle.osc_peer_calls.specs.GoingOn.{IsAboveReceived};
ghost use Rattle.osc_peer_calls.specs.PeerCalls.{AdvancesInList, BeginsInList, RunsIn};

use crate::laws::peer_calls_in_list;
use osc_context::{Context, RecordKeeper};
use osc_kept_ends::{KeptError, KeptPeer};
use osc_window::WindowSize;

/// Calls `KeptPeer::start_ahead`, of which `KeptPeer::start` is the call with `ahead` 0. The record needn't know the floor of that list, as that of a later process doesn't. The claim about the list
/// assumes that of the two numbers that the record loads the one isn't below the list's floor, and the other is above all that was delivered.
pub fn start_in_list<R: RecordKeeper, const N: usize>(
    context: Context,
    keeper: R,
    size: WindowSize,
    life_ms: u64,
    ahead: u64,
) -> Result<KeptPeer<R, N>, (KeptError, R)>
    ensures begins { IfOk result (λ new. (sender : ℕ) × (received : ℕ) × (mid : R) × (start : StartOf) × R.loads keeper sender received mid
        × (R.sender_floor keeper ≤ sender) × (R.received_floor keeper ≤ received) × IsPeerStart ahead start sender received
        × ((w : Peers) → AreCounted N (as_client context) w → (near_numbers (as_client context) w).floor ≤ sender → IsAboveReceived w received
        → BeginsInList (as_client context) w start size sender received life_ms new)) }
    ensures refused { IfErr result (λ e. RefusesPeer R.loads R.failures keeper e.0 e.1) }
{
    // For the proof alone.
    peer_calls_in_list();
    KeptPeer::start_ahead(context, keeper, size, life_ms, ahead)
}

/// Calls `KeptPeer::advance`.
pub fn advance_in_list<R: RecordKeeper, const N: usize>(peer: &mut KeptPeer<R, N>, now: u64)
    ensures { (s : SecurityContext) (w : Peers) → AreCounted N s w → RunsIn s w peer.old → AdvancesInList s w now peer.new }
{
    // For the proof alone.
    peer_calls_in_list();
    peer.advance(now);
}
