//! What a peer asks, within the list of what happens at two devices (RFC 8613, 8.1, 8.4 and B.1).

ghost use Rattle.std.specs.Prelude.{◌≡◌, ◌≢◌, ◌+◌, IfErr, length};
ghost use Rattle.osc_coap.specs.Views.{parts_of};
ghost use Rattle.osc_context.specs.SecurityContext.{SecurityContext};
ghost use Rattle.osc_client.specs.ClientHistory as asked;
ghost use Rattle.osc_client.specs.Views.{apart_among, request_entry};
ghost use Rattle.osc_client.specs.declared.client_outcome.RequestError.TheVariants as requests;
ghost use Rattle.osc_kept.specs.EchoNumbers.{EchoesHeard};
ghost use Rattle.osc_kept.specs.World.{AtClient};
ghost use Rattle.osc_peers.specs.Peers.{Peers, forth};
ghost use Rattle.osc_peer_calls.specs.Counting.{AreCounted};
ghost use Rattle.osc_peer_calls.specs.PeerCalls.{AsksAfter, DecidesBack, HearsInList, NobodyForgesBack, RunsIn};

use crate::laws::peer_calls_in_list;
use osc_coap::Message;
use osc_context::RecordKeeper;
use osc_endpoint::{ClientDecision, ClientOutcome, RequestError};
use osc_kept_ends::KeptPeer;

/// Calls `KeptPeer::request`. Its claim about that list assumes that an Echo value in the message was heard before.
pub fn request_in_list<R: RecordKeeper, const N: usize>(
    peer: &mut KeptPeer<R, N>,
    now: u64,
    plain: &Message<'_>,
    out: &mut [u8],
) -> Result<usize, RequestError>
    ensures answered { IfErr result (λ e. e ≢ requests.KeeperFailed) → (s : SecurityContext) (w : Peers) → AreCounted N s w → RunsIn s w peer.old
        → EchoesHeard (forth w) (AtClient (asked.Request now (parts_of plain.now) (length out.old)) (request_entry result out.new))
        → AsksAfter s w (asked.Request now (parts_of plain.now) (length out.old)) (request_entry result out.new) peer.new }
    ensures clock_alone { IfErr result (λ e. e ≡ requests.KeeperFailed → (s : SecurityContext) (w : Peers) → AreCounted N s w → RunsIn s w peer.old
        → AsksAfter s w (asked.Advance now) asked.Advanced peer.new) }
    ensures failed { IfErr result (λ e. e ≡ requests.KeeperFailed → R.failures peer.new.source.keeper ≡ R.failures peer.old.source.keeper + 1) }
    ensures worked { IfErr result (λ e. e ≢ requests.KeeperFailed) → R.failures peer.new.source.keeper ≡ R.failures peer.old.source.keeper }
{
    // For the proof alone.
    peer_calls_in_list();
    peer.request(now, plain, out)
}

/// Calls `KeptPeer::decide_response`. Its claim about that list assumes that nobody forged the datagram.
pub fn decide_response_in_list<R: RecordKeeper, const N: usize>(
    peer: &mut KeptPeer<R, N>,
    now: u64,
    datagram: &mut [u8],
) -> ClientDecision
    ensures { (s : SecurityContext) (w : Peers) → AreCounted N s w → RunsIn s w peer.old → NobodyForgesBack s w now datagram.old
        → DecidesBack s w now datagram.old result datagram.new peer.new }
{
    // For the proof alone.
    peer_calls_in_list();
    peer.decide_response(now, datagram)
}

/// Calls `KeptPeer::hear`. Its claim about that list assumes that nobody forged the datagram.
pub fn hear_in_list<'b, R: RecordKeeper, const N: usize>(
    peer: &mut KeptPeer<R, N>,
    now: u64,
    datagram: &'b mut [u8],
) -> ClientOutcome<'b>
    ensures { (s : SecurityContext) (w : Peers) → AreCounted N s w → RunsIn s w peer.old → NobodyForgesBack s w now datagram.old
        → HearsInList s w now datagram.old result peer.new }
{
    // For the proof alone.
    peer_calls_in_list();
    peer.hear(now, datagram)
}

/// Calls `KeptPeer::forget`.
pub fn forget_in_list<R: RecordKeeper, const N: usize>(
    peer: &mut KeptPeer<R, N>,
    token: &[u8],
) -> bool
    ensures { (s : SecurityContext) (w : Peers) → AreCounted N s w → RunsIn s w peer.old → AsksAfter s w (asked.Forget token.now) (asked.Forgot result) peer.new }
{
    // For the proof alone.
    peer_calls_in_list();
    peer.forget(token)
}

/// Calls `KeptPeer::set_apart`.
pub fn set_apart_in_list<R: RecordKeeper, const N: usize>(
    peer: &mut KeptPeer<R, N>,
    registrations: Option<usize>,
)
    ensures { (s : SecurityContext) (w : Peers) → AreCounted N s w → RunsIn s w peer.old
        → AsksAfter s w (asked.SetApart (apart_among N registrations)) asked.IsSetApart peer.new }
{
    // For the proof alone.
    peer_calls_in_list();
    peer.set_apart(registrations);
}
