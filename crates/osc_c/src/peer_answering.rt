//! What a peer answers to the requests that it delivered, for C.

ghost use Rattle.std.specs.Prelude.{◌≡◌, ◌≢◌, ◌≤◌, ◌<◌, ◌+◌, ◌^◌, ℕ, IfOk, IfErr, IsErrAnd, IsOk, OnErr, true, take, drop, length};
ghost use Rattle.osc_coap.specs.Datagram.{Parts, IsDatagram};
ghost use Rattle.osc_coap.specs.Fault.{HasFault};
ghost use Rattle.osc_coap.specs.declared.format_error.Fault.{Fault as FaultOf};
ghost use Rattle.osc_context.specs.Reserving.{next_limit};
ghost use Rattle.osc_life.specs.LifeAnswer.{asks_own};
ghost use Rattle.osc_life.specs.ServerHistory.{Entry, History, Notify, Replied, Reply};
ghost use Rattle.osc_endpoint.specs.ServerAnswer.{ServerAnswer};
ghost use Rattle.osc_handle.specs.ServerBytes.{IsSpent};
ghost use Rattle.osc_handle.specs.TicketBytes.{IsTicket, ticket_in};
ghost use Rattle.osc_kept_ends.specs.Numbering.{Own, upcoming};
ghost use Rattle.osc_peer_handle.specs.PeerBytes.{CatchesUp, HasToSave, IsPeer, IsSamePeer, IsTicketOf, ServesBehind, StepsAnswering, inside_of};
ghost use Rattle.osc_room.specs.Room.{HasRoomFor};
ghost use Rattle.osc_c.specs.PeerCalls.{RefusesPeerNotifying, RefusesPeerReplying, next_record};
ghost use Rattle.osc_c.specs.Answering.{ReadsReplying};
ghost use Rattle.osc_status.specs.Statuses.{code, format_status};
ghost use Rattle.osc_status.specs.declared.status.Status.{Status as StatusOf};
ghost use Rattle.osc_status.specs.declared.status.Status.TheVariants.{BadHandle, LivesExhausted, NoRoom, SaveFirst, StaleTicket, TicketSpent};

use crate::peer::save_next;
use crate::refusals::replying_refusal;
use osc_coap::{one_datagram, parse};
use osc_handle::{KeptReplyRefusal, TicketHandle};
use osc_laws::one_server_answer;
use osc_peer_handle::{PeerHandle, RecordHandle};
use osc_room::enough_room;
use osc_status::{DONE, Refusal, Status};

/// Seals a plain reply, which is passed in as a datagram.
fn reply_in(
    peer: &mut PeerHandle,
    ticket: &TicketHandle,
    own: bool,
    mid: u16,
    plain: &[u8],
    out: &mut [u8],
    kept: &mut RecordHandle,
) -> Result<usize, Refusal>
    ensures sealed { IfOk result (λ n. (q : Parts) × IsDatagram q plain.now × (IsTicketOf peer.old ticket.now → (h : History) (old : Own) → ServesBehind peer.old old h
        → StepsAnswering peer.old h (Reply (ticket_in (inside_of peer.old ticket.now)) (asks_own (ticket_in (inside_of peer.old ticket.now)) own) mid q (length out.old)) (Replied (take n out.new)) old peer.new)) }
    ensures accepted { IsOk result → IsPeer peer.old × IsTicket ticket.now }
    ensures refused { IfErr result (λ r. RefusesPeerReplying peer.old kept.new ticket.now own mid plain.now (length out.old) peer.new r.status r.detail) }
    ensures foreign { (q : Parts) → IsDatagram q plain.now → IsPeer peer.old → IsTicket ticket.now → (IsTicketOf peer.old ticket.now → ⊥) → IsErrAnd result (λ r. r.status ≡ StaleTicket) }
    ensures save_first { (q : Parts) → IsDatagram q plain.now → IsTicket ticket.now → IsTicketOf peer.old ticket.now → (h : History) (o : Own) → ServesBehind peer.old o h
        → HasToSave (asks_own (ticket_in (inside_of peer.old ticket.now)) own) (upcoming o) peer.old → peer.old.generation + 1 < 2 ^ 64
        → IsErrAnd result (λ r. (r.status ≡ SaveFirst) × (kept.new ≡ next_record peer.old (next_limit peer.old.server.reserved) peer.old.received)) }
    ensures once { (q : Parts) → IsDatagram q plain.now → IsTicket ticket.now → IsTicketOf peer.old ticket.now → (h : History) (o : Own) → ServesBehind peer.old o h
        → IsSpent h (ticket_in (inside_of peer.old ticket.now)) (asks_own (ticket_in (inside_of peer.old ticket.now)) own) → (HasToSave (asks_own (ticket_in (inside_of peer.old ticket.now)) own) (upcoming o) peer.old → ⊥) → IsErrAnd result (λ r. r.status ≡ TicketSpent) }
    ensures left { IfOk result (λ n. kept.new ≡ kept.old) }
    ensures spared { IfErr result (λ r. r.status ≢ SaveFirst → kept.new ≡ kept.old) }
    ensures stays { IsSamePeer peer.old peer.new }
    ensures within { IfOk result (λ n. n ≤ length out.new) }
    ensures behind { IfOk result (λ n. drop n out.new ≡ drop n out.old) }
    ensures unchanged { OnErr result ((out.new ≡ out.old) × (peer.new ≡ peer.old)) }
{
    let message = match parse(plain) {
        Ok(message) => message,
        Err(error) => {
            if !peer.is_whole() || !ticket.is_whole() {
                return Err(Status::BadHandle.into());
            }
            return Err(error.into());
        }
    };
    match peer.reply(ticket, own, mid, &message, out) {
        Ok(len) => Ok(len),
        Err(KeptReplyRefusal::BadHandle) => Err(Status::BadHandle.into()),
        Err(KeptReplyRefusal::SaveFirst(number)) => {
            Err(save_next(peer, number, peer.received, kept))
        }
        Err(KeptReplyRefusal::TicketSpent) => Err(Status::TicketSpent.into()),
        Err(KeptReplyRefusal::Refused(error)) => Err(replying_refusal(error)),
    }
}

/// Seals a reply to the request of a ticket (RFC 8613, 8.3), with its own Partial IV or under the Partial IV of the request. `plain` is a
/// datagram, of which the code, options and payload are used. If the request registers an observation, the reply has its own Partial IV in
/// any case, and ends the observation. The first `out_len` bytes of `out` are the sealed reply, and the request then has its answer. A reply
/// with its own Partial IV needs a number, and at SaveFirst `kept` is the record to save, as above. A refusal is BadHandle, one of the datagram's
/// faults with its place, StaleTicket where the ticket names another context or another life, SaveFirst, StaleTicket, TicketSpent, NotThatKind,
/// Unsupported with the lowest number of such an option, SequenceExhausted, TooLong or NoRoom, in this order, and changes nothing.
#[unsafe(no_mangle)]
pub extern "C" fn oscore_peer_reply_v6(
    peer: &mut PeerHandle,
    ticket: &TicketHandle,
    own: bool,
    mid: u16,
    plain: &[u8],
    out: &mut [u8],
    out_len: &mut usize,
    kept: &mut RecordHandle,
    detail: &mut usize,
) -> u32
    ensures sealed { result ≡ 0 → (q : Parts) × IsDatagram q plain.now × (IsTicketOf peer.old ticket.now → (h : History) (old : Own) → ServesBehind peer.old old h
        → StepsAnswering peer.old h (Reply (ticket_in (inside_of peer.old ticket.now)) (asks_own (ticket_in (inside_of peer.old ticket.now)) own) mid q (length out.old)) (Replied (take out_len.new out.new)) old peer.new) }
    ensures refused { result ≢ 0 → (status : StatusOf) × (result ≡ code status)
        × RefusesPeerReplying peer.old kept.new ticket.now own mid plain.now (length out.old) peer.new status detail.new }
    ensures refuses { (IsPeer peer.old → IsTicket ticket.now → ⊥) → result ≡ code BadHandle }
    ensures malformed { IsPeer peer.old → IsTicket ticket.now → (fault : FaultOf) (place : ℕ) → HasFault plain.now fault place
        → (result ≡ code (format_status fault)) × (detail.new ≡ place) }
    ensures foreign { (q : Parts) → IsDatagram q plain.now → IsPeer peer.old → IsTicket ticket.now → (IsTicketOf peer.old ticket.now → ⊥) → result ≡ code StaleTicket }
    ensures save_first { (q : Parts) → IsDatagram q plain.now → IsTicket ticket.now → IsTicketOf peer.old ticket.now → (h : History) (o : Own) → ServesBehind peer.old o h
        → HasToSave (asks_own (ticket_in (inside_of peer.old ticket.now)) own) (upcoming o) peer.old → peer.old.generation + 1 < 2 ^ 64
        → (result ≡ code SaveFirst) × (kept.new ≡ next_record peer.old (next_limit peer.old.server.reserved) peer.old.received) }
    ensures once { (q : Parts) → IsDatagram q plain.now → IsTicket ticket.now → IsTicketOf peer.old ticket.now → (h : History) (o : Own) → ServesBehind peer.old o h
        → IsSpent h (ticket_in (inside_of peer.old ticket.now)) (asks_own (ticket_in (inside_of peer.old ticket.now)) own) → (HasToSave (asks_own (ticket_in (inside_of peer.old ticket.now)) own) (upcoming o) peer.old → ⊥) → result ≡ code TicketSpent }
    ensures answers { (q : Parts) → IsDatagram q plain.now → IsTicket ticket.now → IsTicketOf peer.old ticket.now → (h g : History) (o : Own) (entry : Entry)
        → ServesBehind peer.old o h → CatchesUp h g o → (IsSpent h (ticket_in (inside_of peer.old ticket.now)) (asks_own (ticket_in (inside_of peer.old ticket.now)) own) → ⊥) → result ≢ code SaveFirst → result ≢ code LivesExhausted
        → ServerAnswer g (Reply (ticket_in (inside_of peer.old ticket.now)) (asks_own (ticket_in (inside_of peer.old ticket.now)) own) mid q (length out.old)) entry
        → ReadsReplying entry result detail.new (take out_len.new out.new) }
    ensures spared { result ≢ code SaveFirst → kept.new ≡ kept.old }
    ensures stays { IsSamePeer peer.old peer.new }
    ensures within { result ≡ 0 → out_len.new ≤ length out.new }
    ensures behind { result ≡ 0 → drop out_len.new out.new ≡ drop out_len.new out.old }
    ensures enough { (h : History) (o : Own) → ServesBehind peer.old o h → length plain.now + 60 ≤ length out.old → result ≢ code NoRoom }
    ensures unchanged { result ≢ 0 → (peer.new ≡ peer.old) × (out.new ≡ out.old) × (out_len.new ≡ out_len.old) }
{
    // For the proof alone.
    one_server_answer();
    enough_room();
    one_datagram();
    match reply_in(peer, ticket, own, mid, plain, out, kept) {
        Ok(len) => {
            *out_len = len;
            DONE
        }
        Err(refusal) => {
            *detail = refusal.detail;
            refusal.status.code()
        }
    }
}

/// Seals a plain notification, which is passed in as a datagram.
fn notify_in(
    peer: &mut PeerHandle,
    ticket: &TicketHandle,
    plain: &[u8],
    out: &mut [u8],
    kept: &mut RecordHandle,
) -> Result<usize, Refusal>
    ensures sealed { IfOk result (λ n. (q : Parts) × IsDatagram q plain.now × (IsTicketOf peer.old ticket.now → (h : History) (old : Own) → ServesBehind peer.old old h
        → StepsAnswering peer.old h (Notify (ticket_in (inside_of peer.old ticket.now)) q (length out.old)) (Replied (take n out.new)) old peer.new)) }
    ensures accepted { IsOk result → IsPeer peer.old × IsTicket ticket.now }
    ensures refused { IfErr result (λ r. RefusesPeerNotifying peer.old kept.new ticket.now plain.now (length out.old) peer.new r.status r.detail) }
    ensures foreign { (q : Parts) → IsDatagram q plain.now → IsPeer peer.old → IsTicket ticket.now → (IsTicketOf peer.old ticket.now → ⊥) → IsErrAnd result (λ r. r.status ≡ StaleTicket) }
    ensures save_first { (q : Parts) → IsDatagram q plain.now → IsTicket ticket.now → IsTicketOf peer.old ticket.now → (h : History) (o : Own) → ServesBehind peer.old o h
        → HasToSave true (upcoming o) peer.old → peer.old.generation + 1 < 2 ^ 64
        → IsErrAnd result (λ r. (r.status ≡ SaveFirst) × (kept.new ≡ next_record peer.old (next_limit peer.old.server.reserved) peer.old.received)) }
    ensures left { IfOk result (λ n. kept.new ≡ kept.old) }
    ensures spared { IfErr result (λ r. r.status ≢ SaveFirst → kept.new ≡ kept.old) }
    ensures stays { IsSamePeer peer.old peer.new }
    ensures within { IfOk result (λ n. n ≤ length out.new) }
    ensures behind { IfOk result (λ n. drop n out.new ≡ drop n out.old) }
    ensures unchanged { OnErr result ((out.new ≡ out.old) × (peer.new ≡ peer.old)) }
{
    let message = match parse(plain) {
        Ok(message) => message,
        Err(error) => {
            if !peer.is_whole() || !ticket.is_whole() {
                return Err(Status::BadHandle.into());
            }
            return Err(error.into());
        }
    };
    match peer.notify(ticket, &message, out) {
        Ok(len) => Ok(len),
        Err(KeptReplyRefusal::BadHandle) => Err(Status::BadHandle.into()),
        Err(KeptReplyRefusal::SaveFirst(number)) => {
            Err(save_next(peer, number, peer.received, kept))
        }
        Err(KeptReplyRefusal::Refused(error)) => Err(replying_refusal(error)),
        Err(KeptReplyRefusal::TicketSpent) => unreachable!(),
    }
}

/// Seals a notification to the request of a ticket, which registers an observation (RFC 8613, 8.3.1), with its own Partial IV. `plain` is a
/// datagram, of which all but the token is used. The first `out_len` bytes of `out` are the sealed notification. The ticket stays good, also
/// after 64 later requests, until a reply to it. It needs a number, and at SaveFirst `kept` is the record to save, as above. A refusal is
/// BadHandle, one of the datagram's faults with its place, StaleTicket where the ticket names another context or another life, SaveFirst,
/// StaleTicket, NotObserving, NotThatKind, Unsupported with the lowest number of such an option, NotNotification, SequenceExhausted, TooLong
/// or NoRoom, in this order, and changes nothing.
#[unsafe(no_mangle)]
pub extern "C" fn oscore_peer_notify_v6(
    peer: &mut PeerHandle,
    ticket: &TicketHandle,
    plain: &[u8],
    out: &mut [u8],
    out_len: &mut usize,
    kept: &mut RecordHandle,
    detail: &mut usize,
) -> u32
    ensures sealed { result ≡ 0 → (q : Parts) × IsDatagram q plain.now × (IsTicketOf peer.old ticket.now → (h : History) (old : Own) → ServesBehind peer.old old h
        → StepsAnswering peer.old h (Notify (ticket_in (inside_of peer.old ticket.now)) q (length out.old)) (Replied (take out_len.new out.new)) old peer.new) }
    ensures refused { result ≢ 0 → (status : StatusOf) × (result ≡ code status)
        × RefusesPeerNotifying peer.old kept.new ticket.now plain.now (length out.old) peer.new status detail.new }
    ensures refuses { (IsPeer peer.old → IsTicket ticket.now → ⊥) → result ≡ code BadHandle }
    ensures malformed { IsPeer peer.old → IsTicket ticket.now → (fault : FaultOf) (place : ℕ) → HasFault plain.now fault place
        → (result ≡ code (format_status fault)) × (detail.new ≡ place) }
    ensures foreign { (q : Parts) → IsDatagram q plain.now → IsPeer peer.old → IsTicket ticket.now → (IsTicketOf peer.old ticket.now → ⊥) → result ≡ code StaleTicket }
    ensures save_first { (q : Parts) → IsDatagram q plain.now → IsTicket ticket.now → IsTicketOf peer.old ticket.now → (h : History) (o : Own) → ServesBehind peer.old o h
        → HasToSave true (upcoming o) peer.old → peer.old.generation + 1 < 2 ^ 64
        → (result ≡ code SaveFirst) × (kept.new ≡ next_record peer.old (next_limit peer.old.server.reserved) peer.old.received) }
    ensures answers { (q : Parts) → IsDatagram q plain.now → IsTicket ticket.now → IsTicketOf peer.old ticket.now → (h g : History) (o : Own) (entry : Entry)
        → ServesBehind peer.old o h → CatchesUp h g o → result ≢ code SaveFirst → result ≢ code LivesExhausted
        → ServerAnswer g (Notify (ticket_in (inside_of peer.old ticket.now)) q (length out.old)) entry → ReadsReplying entry result detail.new (take out_len.new out.new) }
    ensures spared { result ≢ code SaveFirst → kept.new ≡ kept.old }
    ensures stays { IsSamePeer peer.old peer.new }
    ensures within { result ≡ 0 → out_len.new ≤ length out.new }
    ensures behind { result ≡ 0 → drop out_len.new out.new ≡ drop out_len.new out.old }
    ensures enough { (h : History) (o : Own) → ServesBehind peer.old o h → HasRoomFor true plain.now (length out.old) → result ≢ code NoRoom }
    ensures unchanged { result ≢ 0 → (peer.new ≡ peer.old) × (out.new ≡ out.old) × (out_len.new ≡ out_len.old) }
{
    // For the proof alone.
    one_server_answer();
    enough_room();
    one_datagram();
    match notify_in(peer, ticket, plain, out, kept) {
        Ok(len) => {
            *out_len = len;
            DONE
        }
        Err(refusal) => {
            *detail = refusal.detail;
            refusal.status.code()
        }
    }
}
