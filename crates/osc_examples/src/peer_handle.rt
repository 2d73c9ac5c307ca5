//! The example of osc_peer_handle.

ghost use Rattle.std.specs.Prelude.{IfOk, IfSome, length, take};
ghost use Rattle.osc_coap.specs.Views.{parts_of};
ghost use Rattle.osc_handle.specs.TicketBytes.{ticket_in};
ghost use Rattle.osc_kept_ends.specs.Numbering.{Own};
ghost use Rattle.osc_life.specs.ServerHistory.{History, Notify, Replied};
ghost use Rattle.osc_peer_handle.specs.PeerBytes.{IsSavedAs, IsTicketOf, ServesBehind, StepsAnswering, inside_of};
ghost use Rattle.osc_peer_handle.specs.declared.peer_handle.PeerHandle.{PeerHandle as PeerOf};

use osc_coap::Message;
use osc_handle::{KeptReplyRefusal, TicketHandle};
use osc_peer_handle::{PeerHandle, RecordHandle};

/// Notifies the request of a ticket after `SaveFirst`, once the record is saved durably. Returns `None` if that isn't one to save next; then
/// the peer is unchanged.
pub fn notify_behind_save(
    peer: &mut PeerHandle,
    saved: &RecordHandle,
    ticket: &TicketHandle,
    plain: &Message<'_>,
    out: &mut [u8],
) -> Option<Result<usize, KeptReplyRefusal>>
    ensures { IfSome result (λ r. IfOk r (λ n. IsTicketOf peer.old ticket.now → (h : History) (old : Own) → ServesBehind peer.old old h
        → (mid : Own) × IsSavedAs saved.now.sender old mid × (between : PeerOf)
        × StepsAnswering between h (Notify (ticket_in (inside_of between ticket.now)) (parts_of plain.now) (length out.old)) (Replied (take n out.new)) mid peer.new)) }
{
    match peer.saved(saved) {
        Some(true) => Some(peer.notify(ticket, plain, out)),
        _ => None,
    }
}
