//! What a peer in bytes answers, within the list of what happens at two devices (RFC 8613, 7.4, 8.2 to 8.3.1 and B.1).

ghost use Rattle.std.specs.Prelude.{◌≡◌, ℕ, List, IfOk, IfSome, None, length, take, ◌≢◌, ◌≤◌, Err, OnErr, not, true, drop};
ghost use Rattle.osc_coap.specs.Views.{parts_of};
ghost use Rattle.osc_client.specs.ClientHistory.{Asked};
ghost use Rattle.osc_context.specs.SecurityContext.{SecurityContext};
ghost use Rattle.osc_kept.specs.EchoNumbers.{sealed_echo};
ghost use Rattle.osc_life.specs.LifeAnswer.{asks_own};
ghost use Rattle.osc_protect.specs.Protection.{as_notified};
ghost use Rattle.osc_life.specs.ServerHistory as served;
ghost use Rattle.osc_handle.specs.TicketBytes.{ticket_in, IsTicket};
ghost use Rattle.osc_handle.specs.KeptServerBytes.{entry_of_kept_reply};
ghost use Rattle.osc_peers.specs.Peers.{Peers};
ghost use Rattle.osc_peer_bytes.specs.BytesInList.{AnswersAfter, DecidesInList, GivesTicketTo, RunsIn, TakesInList};
ghost use Rattle.osc_peer_handle.specs.PeerBytes.{IsTicketOf, inside_of, HasToSave, IsPeer, IsSamePeer, KeepsFirst, ServesBehind, next_in};
ghost use Rattle.osc_peer_calls.specs.Counting.{AreCounted};
ghost use Rattle.osc_peer_calls.specs.PeerCalls.{HoldsTicket, NobodyForgesTo};
ghost use Rattle.osc_context.specs.Reserving.{next_limit};
ghost use Rattle.osc_life.specs.Deciding.{CanShow};
ghost use Rattle.osc_life.specs.Life.{is_open_life};
ghost use Rattle.osc_life.specs.declared.outcome.Outcome.TheVariants.{KeeperFailed};
ghost use Rattle.osc_life.specs.declared.server_error.ReplyError.TheVariants.{KeeperFailed as NoKeeper, StaleTicket};
ghost use Rattle.osc_handle.specs.ServerBytes.{IsSpent};
ghost use Rattle.osc_kept_ends.specs.EchoNumber.{echo_of};
ghost use Rattle.osc_kept_ends.specs.Numbering.{Own, upcoming};
ghost use Rattle.osc_kept_ends.specs.Peering.{DeliversBelow, TakesBelow};
ghost use Rattle.osc_handle.specs.declared.kept_refusal.KeptReplyRefusal.TheVariants as replies;
ghost use Rattle.osc_peer_handle.specs.declared.peer_refusal.PeerRefusal.TheVariants as refusals;

use osc_coap::Message;
use osc_endpoint::{Decided, Taken};
use osc_handle::{KeptReplyRefusal, TicketHandle};
use osc_laws::answered_once;
use osc_peer_calls::peer_calls_in_list;
use osc_peer_handle::{PeerHandle, PeerRefusal};

/// Calls `PeerHandle::decide`. Its claim about that list assumes that nobody forged the datagram.
pub fn decide_bytes_in_list(
    peer: &mut PeerHandle,
    now: u64,
    mid: u16,
    datagram: &mut [u8],
    out: &mut [u8; 64],
) -> Result<Decided, PeerRefusal>
    ensures answered { IfOk result (λ d. (s : SecurityContext) (w : Peers) (requests : List Asked) (room : ℕ) → AreCounted room s w → RunsIn s w peer.old requests room
        → NobodyForgesTo s w datagram.old → DecidesInList s w now mid datagram.old d.decision datagram.new (take d.reply out.new) peer.old peer.new requests room) }
    ensures kept { IfOk result (λ decided. DeliversBelow decided.decision peer.new.received) }
    ensures stays { IsSamePeer peer.old peer.new }
    ensures save_first { (number : ℕ) → result ≡ Err (refusals.SaveFirst number) → (number ≡ next_limit peer.old.server.reserved)
        × ((h : served.History) (o : Own) → ServesBehind peer.old o h → HasToSave (not (is_open_life (served.life h 0))) (upcoming o) peer.old) }
    ensures saves_first { (h : served.History) (o : Own) → ServesBehind peer.old o h → HasToSave (not (is_open_life (served.life h 0))) (upcoming o) peer.old
        → result ≡ Err (refusals.SaveFirst (next_limit peer.old.server.reserved)) }
    ensures keep_first { (number : ℕ) → result ≡ Err (refusals.KeepFirst number) → (h : served.History) (o : Own) → ServesBehind peer.old o h
        → KeepsFirst peer.old.received h now (record { echo = echo_of (next_in peer.old); mid = mid }) datagram.old number }
    ensures bad { result ≡ Err refusals.BadHandle → IsPeer peer.old → ⊥ }
    ensures accepted { result ≢ Err refusals.BadHandle → IsPeer peer.old }
    ensures shown { IfOk result (λ decided. CanShow decided.decision datagram.new) }
    ensures within { IfOk result (λ decided. decided.reply ≤ 64) }
    ensures behind { IfOk result (λ decided. drop decided.reply out.new ≡ drop decided.reply out.old) }
    ensures unchanged { OnErr result ((peer.new ≡ peer.old) × (datagram.new ≡ datagram.old) × (out.new ≡ out.old)) }
{
    // For the proof alone.
    peer_calls_in_list();
    peer.decide(now, mid, datagram, out)
}

/// Calls `PeerHandle::take`. Its claim about that list assumes that nobody forged the datagram.
pub fn take_bytes_in_list<'b>(
    peer: &mut PeerHandle,
    now: u64,
    mid: u16,
    datagram: &'b mut [u8],
    out: &mut [u8; 64],
) -> Result<Taken<'b>, PeerRefusal>
    ensures answered { IfOk result (λ t. (s : SecurityContext) (w : Peers) (requests : List Asked) (room : ℕ) → AreCounted room s w → RunsIn s w peer.old requests room
        → NobodyForgesTo s w datagram.old → TakesInList s w now mid datagram.old t.outcome (take t.reply out.new) peer.old peer.new requests room) }
    ensures kept { IfOk result (λ taken. (h : served.History) (old : Own) → ServesBehind peer.old old h → TakesBelow taken.outcome peer.new.received) }
    ensures stays { IsSamePeer peer.old peer.new }
    ensures save_first { (number : ℕ) → result ≡ Err (refusals.SaveFirst number) → (number ≡ next_limit peer.old.server.reserved)
        × ((h : served.History) (o : Own) → ServesBehind peer.old o h → HasToSave (not (is_open_life (served.life h 0))) (upcoming o) peer.old) }
    ensures saves_first { (h : served.History) (o : Own) → ServesBehind peer.old o h → HasToSave (not (is_open_life (served.life h 0))) (upcoming o) peer.old
        → result ≡ Err (refusals.SaveFirst (next_limit peer.old.server.reserved)) }
    ensures keep_first { (number : ℕ) → result ≡ Err (refusals.KeepFirst number) → (h : served.History) (o : Own) → ServesBehind peer.old o h
        → KeepsFirst peer.old.received h now (record { echo = echo_of (next_in peer.old); mid = mid }) datagram.old number }
    ensures bad { result ≡ Err refusals.BadHandle → IsPeer peer.old → ⊥ }
    ensures accepted { result ≢ Err refusals.BadHandle → IsPeer peer.old }
    ensures within { IfOk result (λ taken. taken.reply ≤ 64) }
    ensures behind { IfOk result (λ taken. drop taken.reply out.new ≡ drop taken.reply out.old) }
    ensures no_keeper_failed { IfOk result (λ taken. taken.outcome ≢ KeeperFailed) }
    ensures unchanged { OnErr result ((peer.new ≡ peer.old) × (out.new ≡ out.old)) }
{
    // For the proof alone.
    peer_calls_in_list();
    peer.take(now, mid, datagram, out)
}

/// Calls `PeerHandle::reply`. Its claim about that list assumes a ticket of this peer that a delivery gave, and a message without an Echo
/// value. The ticket may have been copied: an accepted reply is the first to its request, unless that lies far back. Then you see to it.
pub fn reply_bytes_in_list(
    peer: &mut PeerHandle,
    ticket: &TicketHandle,
    own: bool,
    mid: u16,
    plain: &Message<'_>,
    out: &mut [u8],
) -> Result<usize, KeptReplyRefusal>
    ensures answered { (s : SecurityContext) (w : Peers) (requests : List Asked) (room : ℕ) → AreCounted room s w → RunsIn s w peer.old requests room → IsTicketOf peer.old ticket.now
        → GivesTicketTo s w (ticket_in (inside_of peer.old ticket.now)) → sealed_echo (parts_of plain.now) ≡ None → IfSome (entry_of_kept_reply result out.new) (λ entry.
        AnswersAfter s w (served.Reply (ticket_in (inside_of peer.old ticket.now)) (asks_own (ticket_in (inside_of peer.old ticket.now)) own) mid (parts_of plain.now) (length out.old)) entry peer.new requests room) }
    ensures stays { IsSamePeer peer.old peer.new }
    ensures refused { (number : ℕ) → result ≡ Err (replies.SaveFirst number) → (number ≡ next_limit peer.old.server.reserved)
        × ((h : served.History) (o : Own) → ServesBehind peer.old o h → HasToSave (asks_own (ticket_in (inside_of peer.old ticket.now)) own) (upcoming o) peer.old) }
    ensures refuses { (h : served.History) (o : Own) → ServesBehind peer.old o h → IsTicket ticket.now → IsTicketOf peer.old ticket.now → HasToSave (asks_own (ticket_in (inside_of peer.old ticket.now)) own) (upcoming o) peer.old
        → result ≡ Err (replies.SaveFirst (next_limit peer.old.server.reserved)) }
    ensures spent { result ≡ Err replies.TicketSpent → (h : served.History) (o : Own) → ServesBehind peer.old o h → IsSpent h (ticket_in (inside_of peer.old ticket.now)) (asks_own (ticket_in (inside_of peer.old ticket.now)) own) }
    ensures once { IsTicket ticket.now → IsTicketOf peer.old ticket.now → (h : served.History) (o : Own) → ServesBehind peer.old o h → IsSpent h (ticket_in (inside_of peer.old ticket.now)) (asks_own (ticket_in (inside_of peer.old ticket.now)) own)
        → (HasToSave (asks_own (ticket_in (inside_of peer.old ticket.now)) own) (upcoming o) peer.old → ⊥) → result ≡ Err replies.TicketSpent }
    ensures foreign { IsPeer peer.old → IsTicket ticket.now → (IsTicketOf peer.old ticket.now → ⊥) → result ≡ Err (replies.Refused StaleTicket) }
    ensures bad { result ≡ Err replies.BadHandle → IsPeer peer.old → IsTicket ticket.now → ⊥ }
    ensures accepted { result ≢ Err replies.BadHandle → IsPeer peer.old × IsTicket ticket.now }
    ensures within { IfOk result (λ n. n ≤ length out.new) }
    ensures behind { IfOk result (λ n. drop n out.new ≡ drop n out.old) }
    ensures unchanged { OnErr result ((out.new ≡ out.old) × (peer.new ≡ peer.old)) }
    ensures no_keeper_failed { result ≢ Err (replies.Refused NoKeeper) }
{
    // For the proof alone.
    answered_once();
    peer_calls_in_list();
    peer.reply(ticket, own, mid, plain, out)
}

/// Calls `PeerHandle::notify`. Its claim about that list assumes a ticket of this peer that a delivery gave and that no reply took, and a message without an
/// Echo value.
pub fn notify_bytes_in_list(
    peer: &mut PeerHandle,
    ticket: &TicketHandle,
    plain: &Message<'_>,
    out: &mut [u8],
) -> Result<usize, KeptReplyRefusal>
    ensures answered { (s : SecurityContext) (w : Peers) (requests : List Asked) (room : ℕ) → AreCounted room s w → RunsIn s w peer.old requests room → IsTicketOf peer.old ticket.now
        → HoldsTicket s w (ticket_in (inside_of peer.old ticket.now)) → sealed_echo (as_notified (parts_of plain.now)) ≡ None → IfSome (entry_of_kept_reply result out.new) (λ entry.
        AnswersAfter s w (served.Notify (ticket_in (inside_of peer.old ticket.now)) (parts_of plain.now) (length out.old)) entry peer.new requests room) }
    ensures stays { IsSamePeer peer.old peer.new }
    ensures refused { (number : ℕ) → result ≡ Err (replies.SaveFirst number) → (number ≡ next_limit peer.old.server.reserved)
        × ((h : served.History) (o : Own) → ServesBehind peer.old o h → HasToSave true (upcoming o) peer.old) }
    ensures refuses { (h : served.History) (o : Own) → ServesBehind peer.old o h → IsTicket ticket.now → IsTicketOf peer.old ticket.now → HasToSave true (upcoming o) peer.old
        → result ≡ Err (replies.SaveFirst (next_limit peer.old.server.reserved)) }
    ensures foreign { IsPeer peer.old → IsTicket ticket.now → (IsTicketOf peer.old ticket.now → ⊥) → result ≡ Err (replies.Refused StaleTicket) }
    ensures bad { result ≡ Err replies.BadHandle → IsPeer peer.old → IsTicket ticket.now → ⊥ }
    ensures accepted { result ≢ Err replies.BadHandle → IsPeer peer.old × IsTicket ticket.now }
    ensures within { IfOk result (λ n. n ≤ length out.new) }
    ensures behind { IfOk result (λ n. drop n out.new ≡ drop n out.old) }
    ensures unchanged { OnErr result ((out.new ≡ out.old) × (peer.new ≡ peer.old)) }
    ensures never_spent { result ≢ Err replies.TicketSpent }
    ensures no_keeper_failed { result ≢ Err (replies.Refused NoKeeper) }
{
    // For the proof alone.
    peer_calls_in_list();
    peer.notify(ticket, plain, out)
}
