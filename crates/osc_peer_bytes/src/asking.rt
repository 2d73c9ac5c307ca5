//! What a peer in bytes asks, within the list of what happens at two devices (RFC 8613, 8.1 and 8.4).

ghost use Rattle.std.specs.Prelude.{IfSome, length, ◌≡◌, ◌≢◌, ◌≤◌, ℕ, Err, IfOk, IsNone, IsSome, None, OnErr, true, drop};
ghost use Rattle.osc_coap.specs.Views.{parts_of};
ghost use Rattle.osc_context.specs.SecurityContext.{SecurityContext};
ghost use Rattle.osc_client.specs.ClientHistory as asked;
ghost use Rattle.osc_kept.specs.EchoNumbers.{EchoesHeard};
ghost use Rattle.osc_kept.specs.World.{AtClient};
ghost use Rattle.osc_handle.specs.PendingBytes.{entry_of_kept_request};
ghost use Rattle.osc_peers.specs.Peers.{Peers, forth};
ghost use Rattle.osc_peer_bytes.specs.BytesInList.{AsksAfter, DecidesBack, HearsInList, RunsIn};
ghost use Rattle.osc_peer_calls.specs.Counting.{AreCounted};
ghost use Rattle.osc_peer_calls.specs.PeerCalls.{NobodyForgesBack};
ghost use Rattle.osc_context.specs.Reserving.{next_limit};
ghost use Rattle.osc_client.specs.Agrees.{TokensDiffer};
ghost use Rattle.osc_client.specs.ClientDeciding.{CanShow};
ghost use Rattle.osc_client.specs.declared.client_outcome.RequestError.TheVariants.{KeeperFailed};
ghost use Rattle.osc_peer_handle.specs.PeerBytes.{HasToSave, IsPeer, IsSamePeer, next_in};
ghost use Rattle.osc_handle.specs.declared.kept_refusal.KeptRequestRefusal.TheVariants as refusals;

use osc_client::siblings::Waiting;
use osc_coap::Message;
use osc_endpoint::{ClientDecision, ClientOutcome};
use osc_handle::KeptRequestRefusal;
use osc_peer_calls::peer_calls_in_list;
use osc_peer_handle::PeerHandle;

/// Calls `PeerHandle::request`. Its claim about that list assumes that an Echo value in the message was heard before.
pub fn request_bytes_in_list<W: Waiting>(
    peer: &mut PeerHandle,
    pending: &mut W,
    now: u64,
    plain: &Message<'_>,
    out: &mut [u8],
) -> Result<usize, KeptRequestRefusal>
    requires { W.is_table pending.old }
    ensures answered { (s : SecurityContext) (w : Peers) → AreCounted (W.room pending.old) s w → RunsIn s w peer.old (W.requests pending.old) (W.room pending.old)
        → IfSome (entry_of_kept_request result out.new) (λ entry. EchoesHeard (forth w) (AtClient (asked.Request now (parts_of plain.now) (length out.old)) entry)
        → AsksAfter s w (asked.Request now (parts_of plain.now) (length out.old)) entry peer.new (W.requests pending.new) (W.room pending.old)) }
    ensures table { W.is_table pending.new }
    ensures refused { (number : ℕ) → result ≡ Err (refusals.SaveFirst number)
        → (number ≡ next_limit peer.old.server.reserved) × HasToSave true (next_in peer.old) peer.old }
    ensures refuses { IsPeer peer.old → HasToSave true (next_in peer.old) peer.old → result ≡ Err (refusals.SaveFirst (next_limit peer.old.server.reserved)) }
    ensures bad { result ≡ Err refusals.BadHandle → IsPeer peer.old → ⊥ }
    ensures accepted { result ≢ Err refusals.BadHandle → IsPeer peer.old }
    ensures stays { IsSamePeer peer.old peer.new }
    ensures same { entry_of_kept_request result out.new ≡ None → (peer.new ≡ peer.old) × (pending.new ≡ pending.old) }
    ensures within { IfOk result (λ n. n ≤ length out.new) }
    ensures behind { IfOk result (λ n. drop n out.new ≡ drop n out.old) }
    ensures unchanged { OnErr result (out.new ≡ out.old) }
    ensures no_keeper_failed { result ≢ Err (refusals.Refused KeeperFailed) }
    ensures room { W.room pending.new ≡ W.room pending.old }
    ensures lies { W.lies pending.new ≡ W.lies pending.old }
    ensures apart { TokensDiffer (W.requests pending.old) → TokensDiffer (W.requests pending.new) }
{
    // For the proof alone.
    peer_calls_in_list();
    peer.request(pending, now, plain, out)
}

/// Calls `PeerHandle::decide_response`. Its claim about that list assumes that nobody forged the datagram.
pub fn decide_response_bytes_in_list<W: Waiting>(
    peer: &mut PeerHandle,
    pending: &mut W,
    now: u64,
    datagram: &mut [u8],
) -> Option<ClientDecision>
    requires { W.is_table pending.old }
    ensures answered { IfSome result (λ decision. (s : SecurityContext) (w : Peers) → AreCounted (W.room pending.old) s w
        → RunsIn s w peer.old (W.requests pending.old) (W.room pending.old) → NobodyForgesBack s w now datagram.old
        → DecidesBack s w now datagram.old decision datagram.new peer.new (W.requests pending.new) (W.room pending.old)) }
    ensures table { W.is_table pending.new }
    ensures accepts { IsPeer peer.old → IsSome result }
    ensures accepted { IsSome result → IsPeer peer.old }
    ensures stays { IsSamePeer peer.old peer.new }
    ensures shown { IfSome result (λ decision. CanShow decision datagram.new) }
    ensures unchanged { IsNone result → (peer.new ≡ peer.old) × (pending.new ≡ pending.old) × (datagram.new ≡ datagram.old) }
    ensures room { W.room pending.new ≡ W.room pending.old }
    ensures lies { W.lies pending.new ≡ W.lies pending.old }
    ensures apart { TokensDiffer (W.requests pending.old) → TokensDiffer (W.requests pending.new) }
{
    // For the proof alone.
    peer_calls_in_list();
    peer.decide_response(pending, now, datagram)
}

/// Calls `PeerHandle::hear`. Its claim about that list assumes that nobody forged the datagram.
pub fn hear_bytes_in_list<'b, W: Waiting>(
    peer: &mut PeerHandle,
    pending: &mut W,
    now: u64,
    datagram: &'b mut [u8],
) -> Option<ClientOutcome<'b>>
    requires { W.is_table pending.old }
    ensures answered { IfSome result (λ outcome. (s : SecurityContext) (w : Peers) → AreCounted (W.room pending.old) s w
        → RunsIn s w peer.old (W.requests pending.old) (W.room pending.old) → NobodyForgesBack s w now datagram.old
        → HearsInList s w now datagram.old outcome peer.new (W.requests pending.new) (W.room pending.old)) }
    ensures table { W.is_table pending.new }
    ensures accepts { IsPeer peer.old → IsSome result }
    ensures accepted { IsSome result → IsPeer peer.old }
    ensures stays { IsSamePeer peer.old peer.new }
    ensures unchanged { IsNone result → (peer.new ≡ peer.old) × (pending.new ≡ pending.old) }
    ensures room { W.room pending.new ≡ W.room pending.old }
    ensures lies { W.lies pending.new ≡ W.lies pending.old }
    ensures apart { TokensDiffer (W.requests pending.old) → TokensDiffer (W.requests pending.new) }
{
    // For the proof alone.
    peer_calls_in_list();
    peer.hear(pending, now, datagram)
}

/// Calls `PeerHandle::forget`.
pub fn forget_bytes_in_list<W: Waiting>(
    peer: &mut PeerHandle,
    pending: &mut W,
    token: &[u8],
) -> Option<bool>
    requires { W.is_table pending.old }
    ensures answered { IfSome result (λ was. (s : SecurityContext) (w : Peers) → AreCounted (W.room pending.old) s w
        → RunsIn s w peer.old (W.requests pending.old) (W.room pending.old)
        → AsksAfter s w (asked.Forget token.now) (asked.Forgot was) peer.new (W.requests pending.new) (W.room pending.old)) }
    ensures table { W.is_table pending.new }
    ensures accepts { IsPeer peer.old → IsSome result }
    ensures accepted { IsSome result → IsPeer peer.old }
    ensures stays { peer.new ≡ peer.old }
    ensures unchanged { IsNone result → pending.new ≡ pending.old }
    ensures room { W.room pending.new ≡ W.room pending.old }
    ensures lies { W.lies pending.new ≡ W.lies pending.old }
    ensures apart { TokensDiffer (W.requests pending.old) → TokensDiffer (W.requests pending.new) }
{
    // For the proof alone.
    peer_calls_in_list();
    peer.forget(pending, token)
}
