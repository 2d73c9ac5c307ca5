//! How a peer in bytes begins, and what a save does, within the list of what happens at two devices (RFC 8613, 7.4 and B.1).

ghost use Rattle.std.specs.Prelude.{◌≡◌, ◌≢◌, ◌≤◌, ℕ, List, IfOk, IfSome, Some, true, ◌<◌, ◌+◌, ◌^◌, ◌⊎◌, IfErr, IsOk, IsSome, false};
ghost use Rattle.osc_client.specs.ClientHistory.{Asked};
ghost use Rattle.osc_context.specs.SecurityContext.{SecurityContext};
ghost use Rattle.osc_context_handle.specs.ContextBytes.{client_in, IsContext};
ghost use Rattle.osc_kept_ends.specs.Peering.{IsPeerStart};
ghost use Rattle.osc_life.specs.declared.start.Start.{Start as StartOf};
ghost use Rattle.osc_window.specs.declared.window_size.WindowSize.{WindowSize as WindowSizeOf};
ghost use Rattle.osc_peers.specs.Peers.{Peers, near_numbers};
ghost use Rattle.osc_peer_bytes.specs.BytesInList.{BeginsInList, IsUnsaved, RunsIn, SavesInList};
ghost use Rattle.osc_peer_calls.specs.Counting.{AreCounted};
ghost use Rattle.osc_peer_calls.specs.GoingOn.{IsAboveReceived};
ghost use Rattle.osc_context.specs.Reserving.{next_limit};
ghost use Rattle.osc_kept_ends.specs.Numbering.{Allowed, Own, Reserve};
ghost use Rattle.osc_peer_handle.specs.PeerBytes.{HasNumbers, IsPeer};
ghost use Rattle.osc_peer_handle.specs.RecordBytes.{IsRecordOf, RefusesToBegin, name_in};

use osc_context_handle::ContextHandle;
use osc_peer_calls::{peer_calls_in_list, peers_by_numbers};
use osc_peer_handle::{BeginRefusal, PeerHandle, RecordHandle};
use osc_window::WindowSize;

/// Calls `PeerHandle::begin_first`. Such a peer is in that list once its first record is saved.
pub fn begin_first_in_list(
    context: &ContextHandle,
    size: WindowSize,
    life_ms: u64,
) -> Option<PeerHandle>
    ensures begins { IfSome result (λ p. (start : StartOf) × IsPeerStart 0 start 0 0 × IsUnsaved (client_in context.now) start size life_ms p) }
    ensures received { IfSome result (λ p. p.received ≡ 0) }
    ensures named { IfSome result (λ p. (p.name ≡ name_in context.now) × (p.life ≡ 1) × (p.generation ≡ 0)) }
    ensures accepts { IsContext context.now → IsSome result }
    ensures accepted { IsSome result → IsContext context.now }
{
    PeerHandle::begin_first(context, size, life_ms)
}

/// Calls `PeerHandle::begin_again`. Its claim about that list assumes that of the record's two numbers the one isn't below the list's floor, and
/// the other is above all that was delivered: so it is where the record is the one that was saved last.
pub fn begin_again_in_list(
    context: &ContextHandle,
    kept: &RecordHandle,
    size: WindowSize,
    life_ms: u64,
) -> Result<PeerHandle, BeginRefusal>
    ensures begins { IfOk result (λ p. (start : StartOf) × IsPeerStart 0 start kept.now.sender kept.now.received × (kept.now.sender ≢ 0
        → (w : Peers) (room : ℕ) → AreCounted room (client_in context.now) w → (near_numbers (client_in context.now) w).floor ≤ kept.now.sender
        → IsAboveReceived w kept.now.received → BeginsInList (client_in context.now) w start size kept.now.sender kept.now.received life_ms p room)) }
    ensures received { IfOk result (λ p. p.received ≡ kept.now.received) }
    ensures named { IfOk result (λ p. (p.name ≡ name_in context.now) × (p.life ≡ kept.now.generation + 1) × (p.generation ≡ kept.now.generation)) }
    ensures accepts { IsContext context.now → IsRecordOf context.now kept.now → kept.now.sender < 2 ^ 40 → IsOk result }
    ensures accepted { IsOk result → IsContext context.now × IsRecordOf context.now kept.now × (kept.now.sender < 2 ^ 40) }
    ensures refused { IfErr result (λ e. RefusesToBegin context.now kept.now e) }
{
    // For the proof alone.
    peer_calls_in_list();
    PeerHandle::begin_again(context, kept, size, life_ms)
}

/// Calls `PeerHandle::saved`.
pub fn saved_in_list(peer: &mut PeerHandle, kept: &RecordHandle) -> Option<bool>
    ensures saved { result ≡ Some true → (s : SecurityContext) (w : Peers) (requests : List Asked) (room : ℕ) → AreCounted room s w → RunsIn s w peer.old requests room
        → SavesInList s w peer.new requests room }
    ensures begins { result ≡ Some true → kept.now.sender ≢ 0 → (s : SecurityContext) (w : Peers) (start : StartOf) (size : WindowSizeOf) (life_ms room : ℕ) → AreCounted room s w
        → IsPeerStart 0 start 0 0 → (near_numbers s w).floor ≤ 0 → IsAboveReceived w 0 → IsUnsaved s start size life_ms peer.old
        → BeginsInList s w start size 0 0 life_ms peer.new room }
    ensures received { result ≡ Some true → (peer.new.received ≡ kept.now.received) × (peer.old.received ≤ kept.now.received) }
    ensures named { result ≡ Some true → (kept.now.name ≡ peer.old.name) × (kept.now.generation ≡ peer.old.generation + 1)
        × (peer.new.name ≡ peer.old.name) × (peer.new.life ≡ peer.old.life) × (peer.new.generation ≡ kept.now.generation) }
    ensures refused { result ≡ Some false → (o : Own) → HasNumbers peer.old o → (kept.now.name ≢ peer.old.name) ⊎ (kept.now.generation ≢ peer.old.generation + 1)
        ⊎ (kept.now.received < peer.old.received) ⊎ (2 ^ 40 < kept.now.received)
        ⊎ ((kept.now.sender ≢ o.limit) × (Allowed Reserve o → kept.now.sender ≢ next_limit o.limit)) }
    ensures accepts { IsPeer peer.old → IsSome result }
    ensures accepted { IsSome result → IsPeer peer.old }
    ensures unchanged { result ≢ Some true → peer.new ≡ peer.old }
{
    // For the proof alone.
    peers_by_numbers();
    peer_calls_in_list();
    peer.saved(kept)
}
