//! One end of one context that never uses a number twice and obeys no request twice, for C. Its bytes belong to the caller. A call that
//! needs a number that isn't saved says which record to save first, and does nothing.

ghost use Rattle.std.specs.Prelude.{◌≡◌, ◌≢◌, ◌≤◌, ◌<◌, ◌+◌, ◌^◌, ℕ, List, [], IfOk, IfErr, IsErrAnd, IsOk, true, false, not, take, drop, map, length};
ghost use Rattle.osc_context.specs.Reserving.{next_limit};
ghost use Rattle.osc_window.specs.Views.{places_of};
ghost use Rattle.osc_window.specs.Window.{HasPlaces};
ghost use Rattle.osc_window.specs.declared.window_size.WindowSize.{WindowSize as WindowSizeOf};
ghost use Rattle.osc_protect.specs.Views.{message_of};
ghost use Rattle.osc_protect.specs.declared.opened.Opened.{Opened as OpenedOf};
ghost use Rattle.osc_client.specs.ClientHistory as asked;
ghost use Rattle.osc_life.specs.Life.{is_open_life};
ghost use Rattle.osc_life.specs.ServerHistory.{Add, Added, Begin, Datagram, Deliver, Entry, History, Then, Took, life};
ghost use Rattle.osc_observe.specs.Views.{received_of};
ghost use Rattle.osc_life.specs.declared.start.Start.{Start as StartOf};
ghost use Rattle.osc_endpoint.specs.ServerAnswer.{ServerAnswer};
ghost use Rattle.osc_context_handle.specs.ContextBytes.{IsContext, client_in, server_in};
ghost use Rattle.osc_handle.specs.TicketBytes.{IsTicket, ticket_in};
ghost use Rattle.osc_kept_ends.specs.EchoNumber.{echo_of};
ghost use Rattle.osc_kept_ends.specs.Numbering.{Load, Own, after, nothing_drawn, upcoming};
ghost use Rattle.osc_kept_ends.specs.Peering.{IsPeerStart};
ghost use Rattle.osc_peer_handle.specs.PeerBytes.{AsksBehind, CatchesUp, HasNumbers, HasToSave, IsPeer, IsSamePeer, IsSavedAs, IsTicketOf, ServesBehind, StepsAnswering, inside_of, next_in};
ghost use Rattle.osc_peer_handle.specs.RecordBytes.{IsRecordOf, name_in};
ghost use Rattle.osc_c.specs.Asking.{RefusesNumber};
ghost use Rattle.osc_c.specs.Opened.{option_in, Shows};
ghost use Rattle.osc_c.specs.PeerCalls.{AsksToSave, IsNotNext, RefusesAgain, RefusesPeerSaved, RefusesPeerServing, next_record};
ghost use Rattle.osc_c.specs.Answering.{ReadsServing};
ghost use Rattle.osc_status.specs.Statuses.{code};
ghost use Rattle.osc_status.specs.declared.status.Status.{Status as StatusOf};
ghost use Rattle.osc_status.specs.declared.status.Status.TheVariants.{BadHandle, LivesExhausted, SaveFirst};

use crate::opened_view::{OpenedView, OptionView, show};
use crate::refusals::delivery;
use osc_context_handle::ContextHandle;
use osc_endpoint::Taken;
use osc_handle::{TicketHandle, size_with};
use osc_laws::one_server_answer;
use osc_peer_handle::{BeginRefusal, PeerHandle, PeerRefusal, RecordHandle, name_of};
use osc_protect::Opened;
use osc_status::{DONE, Refusal, Status};

/// Writes the record that has to be saved first, and makes the refusal of the call that needs it.
pub(crate) fn save_next(
    peer: &PeerHandle,
    sender: u64,
    received: u64,
    kept: &mut RecordHandle,
) -> Refusal
    ensures saves { AsksToSave peer.now sender received kept.new result.status }
    ensures named { peer.now.generation + 1 < 2 ^ 64 → (result.status ≡ SaveFirst) × (kept.new ≡ next_record peer.now sender received) }
    ensures detail { result.detail ≡ 0 }
    ensures unchanged { result.status ≢ SaveFirst → kept.new ≡ kept.old }
{
    let Some(next) = peer.record(sender, received) else {
        return Status::LivesExhausted.into();
    };
    *kept = next;
    Status::SaveFirst.into()
}

/// Writes the name of a context, which its peers, their records and their tickets have. A refusal is BadHandle, and changes nothing.
#[unsafe(no_mangle)]
pub extern "C" fn oscore_peer_name_v5(context: &ContextHandle, name: &mut u64) -> u32
    ensures named { result ≡ 0 → name.new ≡ name_in context.now }
    ensures accepts { IsContext context.now → result ≡ 0 }
    ensures refuses { (IsContext context.now → ⊥) → result ≡ code BadHandle }
    ensures unchanged { result ≢ 0 → name.new ≡ name.old }
{
    if !context.is_whole() {
        return Status::BadHandle.code();
    }
    *name = name_of(context);
    DONE
}

/// Begins a peer of a context that was never used, with nothing pending: at its provisioning, once. Its window has 1, 32 or 64 places, and each
/// of its own requests is pending for `life_ms` milliseconds. A refusal is BadHandle or BadNumber, in this order, and changes nothing.
#[unsafe(no_mangle)]
pub extern "C" fn oscore_peer_begin_first_v5(
    peer: &mut PeerHandle,
    context: &ContextHandle,
    window_places: u8,
    life_ms: u64,
) -> u32
    ensures serves { result ≡ 0 → (start : StartOf) × (size : WindowSizeOf) × IsPeerStart 0 start 0 0 × (places_of size ≡ window_places)
        × ((floor : ℕ) → floor ≤ 0 → ServesBehind peer.new (after (Load 0) (nothing_drawn floor)) (Then Begin (Add (server_in context.now) start size 1) (Added 0))) }
    ensures asks { result ≡ 0 → (floor room : ℕ) → floor ≤ 0 → AsksBehind peer.new [] room (after (Load 0) (nothing_drawn floor)) (asked.New (client_in context.now) 0 life_ms) }
    ensures named { result ≡ 0 → (peer.new.received ≡ 0) × (peer.new.name ≡ name_in context.now) × (peer.new.life ≡ 1) × (peer.new.generation ≡ 0) }
    ensures accepts { IsContext context.now → HasPlaces window_places → result ≡ 0 }
    ensures refused { result ≢ 0 → (status : StatusOf) × (result ≡ code status) × RefusesNumber (IsContext context.now) (HasPlaces window_places) status }
    ensures refuses { (status : StatusOf) → RefusesNumber (IsContext context.now) (HasPlaces window_places) status → result ≡ code status }
    ensures unchanged { result ≢ 0 → peer.new ≡ peer.old }
{
    if !context.is_whole() {
        return Status::BadHandle.code();
    }
    let Some(size) = size_with(window_places) else {
        return Status::BadNumber.code();
    };
    let Some(begun) = PeerHandle::begin_first(context, size, life_ms) else {
        return Status::BadHandle.code();
    };
    *peer = begun;
    DONE
}

/// Begins a peer of a context behind the record that was saved last, with nothing pending; the window and `life_ms` are as above. A refusal is
/// BadHandle, BadNumber, OldRecord or SequenceExhausted, in this order, and changes nothing.
#[unsafe(no_mangle)]
pub extern "C" fn oscore_peer_begin_again_v5(
    peer: &mut PeerHandle,
    context: &ContextHandle,
    kept: &RecordHandle,
    window_places: u8,
    life_ms: u64,
) -> u32
    ensures serves { result ≡ 0 → (start : StartOf) × (size : WindowSizeOf) × IsPeerStart 0 start kept.now.sender kept.now.received × (places_of size ≡ window_places)
        × ((floor : ℕ) → floor ≤ kept.now.sender → ServesBehind peer.new (after (Load kept.now.sender) (nothing_drawn floor))
        (Then Begin (Add (server_in context.now) start size 1) (Added 0))) }
    ensures asks { result ≡ 0 → (floor room : ℕ) → floor ≤ kept.now.sender → AsksBehind peer.new [] room (after (Load kept.now.sender) (nothing_drawn floor))
        (asked.New (client_in context.now) kept.now.sender life_ms) }
    ensures named { result ≡ 0 → (peer.new.received ≡ kept.now.received) × (peer.new.name ≡ name_in context.now) × (peer.new.life ≡ kept.now.generation + 1)
        × (peer.new.generation ≡ kept.now.generation) }
    ensures accepts { IsContext context.now → HasPlaces window_places → IsRecordOf context.now kept.now → kept.now.sender < 2 ^ 40 → result ≡ 0 }
    ensures refused { result ≢ 0 → (status : StatusOf) × (result ≡ code status) × RefusesAgain context.now kept.now window_places status }
    ensures refuses { (status : StatusOf) → RefusesAgain context.now kept.now window_places status → result ≡ code status }
    ensures unchanged { result ≢ 0 → peer.new ≡ peer.old }
{
    if !context.is_whole() {
        return Status::BadHandle.code();
    }
    let Some(size) = size_with(window_places) else {
        return Status::BadNumber.code();
    };
    match PeerHandle::begin_again(context, kept, size, life_ms) {
        Ok(begun) => {
            *peer = begun;
            DONE
        }
        Err(BeginRefusal::BadHandle) => Status::BadHandle.code(),
        Err(BeginRefusal::OldRecord) => Status::OldRecord.code(),
        Err(BeginRefusal::NumbersExhausted) => Status::SequenceExhausted.code(),
    }
}

/// Goes on after this record was saved durably. It is one to save next: it has the peer's name and the next generation, its Sender Sequence Number
/// is the one that was saved or the next to save, and its received number isn't lower than the one that was saved, and at most 2^40. So is the
/// record that the last SaveFirst wrote. A refusal is BadHandle or, for another record, BadNumber, in this order, and changes nothing.
#[unsafe(no_mangle)]
pub extern "C" fn oscore_peer_saved_v5(peer: &mut PeerHandle, kept: &RecordHandle) -> u32
    ensures saved { result ≡ 0 → (o : Own) → HasNumbers peer.old o → (new : Own) × IsSavedAs kept.now.sender o new
        × ((h : History) → ServesBehind peer.old o h → ServesBehind peer.new new h)
        × ((requests : List asked.Asked) (room : ℕ) (a : asked.History) → AsksBehind peer.old requests room o a → AsksBehind peer.new requests room new a) }
    ensures received { result ≡ 0 → (peer.new.received ≡ kept.now.received) × (peer.old.received ≤ kept.now.received) }
    ensures named { result ≡ 0 → (kept.now.name ≡ peer.old.name) × (kept.now.generation ≡ peer.old.generation + 1)
        × (peer.new.name ≡ peer.old.name) × (peer.new.life ≡ peer.old.life) × (peer.new.generation ≡ kept.now.generation) }
    ensures accepts { (o : Own) → HasNumbers peer.old o → (IsNotNext peer.old kept.now o → ⊥) → result ≡ 0 }
    ensures refused { result ≢ 0 → (status : StatusOf) × (result ≡ code status) × RefusesPeerSaved peer.old kept.now status }
    ensures refuses { (IsPeer peer.old → ⊥) → result ≡ code BadHandle }
    ensures unchanged { result ≢ 0 → peer.new ≡ peer.old }
{
    match peer.saved(kept) {
        Some(true) => DONE,
        Some(false) => Status::BadNumber.code(),
        None => Status::BadHandle.code(),
    }
}

/// Takes a datagram, and writes the length of the reply to `out_len`, or the record to save first to `kept`.
fn take_in<'b>(
    peer: &mut PeerHandle,
    now: u64,
    mid: u16,
    datagram: &'b mut [u8],
    out: &mut [u8; 64],
    out_len: &mut usize,
    kept: &mut RecordHandle,
) -> Result<(Opened<'b>, TicketHandle), Refusal>
    ensures opened { IfOk result (λ o. (h : History) (old : Own) → ServesBehind peer.old old h
        → StepsAnswering peer.old h (Datagram now (echo_of (next_in peer.old)) mid datagram.old) (Took (Deliver (received_of o.0) (ticket_in (inside_of peer.new o.1))) (take out_len.new out.new)) old peer.new) }
    ensures below { IfOk result (λ o. (h : History) (old : Own) → ServesBehind peer.old old h → (ticket_in o.1).number < peer.new.received) }
    ensures ticket { IfOk result (λ o. IsTicket o.1 × IsTicketOf peer.new o.1) }
    ensures accepted { IsOk result → IsPeer peer.old }
    ensures refused { IfErr result (λ r. RefusesPeerServing peer.old peer.new kept.new now mid datagram.old (take out_len.new out.new) r.status r.detail) }
    ensures save_first { (h : History) (o : Own) → ServesBehind peer.old o h → HasToSave (not (is_open_life (life h 0))) (upcoming o) peer.old → peer.old.generation + 1 < 2 ^ 64
        → IsErrAnd result (λ r. (r.status ≡ SaveFirst) × (kept.new ≡ next_record peer.old (next_limit peer.old.server.reserved) peer.old.received)) }
    ensures left { IfOk result (λ o. kept.new ≡ kept.old) }
    ensures spared { IfErr result (λ r. r.status ≢ SaveFirst → kept.new ≡ kept.old) }
    ensures stays { IsSamePeer peer.old peer.new }
    ensures within { out_len.new ≤ 64 }
    ensures behind { drop out_len.new out.new ≡ drop out_len.new out.old }
{
    match peer.take(now, mid, datagram, out) {
        Ok(Taken { outcome, reply }) => {
            *out_len = reply;
            match delivery(outcome) {
                Ok((message, ticket)) => Ok((message, peer.ticket(&ticket))),
                Err(refusal) => Err(refusal),
            }
        }
        Err(refusal) => {
            *out_len = 0;
            match refusal {
                PeerRefusal::BadHandle => Err(Status::BadHandle.into()),
                PeerRefusal::SaveFirst(number) => Err(save_next(peer, number, peer.received, kept)),
                PeerRefusal::KeepFirst(number) => {
                    Err(save_next(peer, peer.server.reserved, number, kept))
                }
            }
        }
    }
}

/// Takes a datagram in place (RFC 8613, 8.2). It returns 0 if a request is delivered, with its ticket, which names the peer's context and its
/// life. The first `out_len` bytes of `out`, if there are any, are the reply that goes back to the sender, whether or not a request is
/// delivered. `mid` is a Message ID for a reply to a request that isn't confirmable; the Echo value of a challenge is the number with which it
/// is sealed. At SaveFirst, `kept` is a record: save it durably, pass it to `oscore_peer_saved_v5`, and pass in the same datagram again; until
/// then nothing changes, and there is no reply. A refusal is BadHandle, SaveFirst, one of the datagram's faults with its place, NotThatKind,
/// NoOscore, Undecodable, NoContext, Replay, Tag, Inner, Challenge or SequenceExhausted, or SaveFirst once more for a request that is to be
/// delivered, in this order; where a record has to be saved that would be the 2^64th, it is LivesExhausted. All but BadHandle, SaveFirst and
/// LivesExhausted move the clock.
#[unsafe(no_mangle)]
pub extern "C" fn oscore_peer_take_v6<'b>(
    peer: &mut PeerHandle,
    now: u64,
    mid: u16,
    datagram: &'b mut [u8],
    options: &mut [OptionView<'b>],
    opened: &mut OpenedView<'b>,
    ticket: &mut TicketHandle,
    out: &mut [u8; 64],
    out_len: &mut usize,
    kept: &mut RecordHandle,
    detail: &mut usize,
) -> u32
    ensures opened { result ≡ 0 → (o : OpenedOf) × Shows opened.new o
        × (opened.new.has_more_options ≡ false → map option_in (take opened.new.option_count options.new) ≡ (message_of o).options)
        × (opened.new.has_more_options ≡ true → map option_in options.new ≡ take (length options.old) (message_of o).options)
        × ((h : History) (old : Own) → ServesBehind peer.old old h
        → StepsAnswering peer.old h (Datagram now (echo_of (next_in peer.old)) mid datagram.old) (Took (Deliver (received_of o) (ticket_in (inside_of peer.new ticket.new))) (take out_len.new out.new)) old peer.new) }
    ensures below { result ≡ 0 → (h : History) (old : Own) → ServesBehind peer.old old h → (ticket_in ticket.new).number < peer.new.received }
    ensures ticket { result ≡ 0 → IsTicket ticket.new × IsTicketOf peer.new ticket.new }
    ensures refused { result ≢ 0 → (status : StatusOf) × (result ≡ code status)
        × RefusesPeerServing peer.old peer.new kept.new now mid datagram.old (take out_len.new out.new) status detail.new }
    ensures refuses { (IsPeer peer.old → ⊥) → result ≡ code BadHandle }
    ensures save_first { (h : History) (o : Own) → ServesBehind peer.old o h → HasToSave (not (is_open_life (life h 0))) (upcoming o) peer.old → peer.old.generation + 1 < 2 ^ 64
        → (result ≡ code SaveFirst) × (kept.new ≡ next_record peer.old (next_limit peer.old.server.reserved) peer.old.received) }
    ensures answers { (h g : History) (o : Own) (entry : Entry) → ServesBehind peer.old o h → CatchesUp h g o → result ≢ code SaveFirst → result ≢ code LivesExhausted
        → ServerAnswer g (Datagram now (echo_of (next_in peer.old)) mid datagram.old) entry
        → ReadsServing entry result detail.new (ticket_in (inside_of peer.new ticket.new)) (take out_len.new out.new) }
    ensures spared { result ≢ code SaveFirst → kept.new ≡ kept.old }
    ensures stays { IsSamePeer peer.old peer.new }
    ensures within { out_len.new ≤ 64 }
    ensures behind { drop out_len.new out.new ≡ drop out_len.new out.old }
    ensures unchanged { result ≢ 0 → (opened.new ≡ opened.old) × (options.new ≡ options.old) × (ticket.new ≡ ticket.old) }
{
    // For the proof alone.
    one_server_answer();
    match take_in(peer, now, mid, datagram, out, out_len, kept) {
        Ok((message, right)) => {
            show(&message, options, opened);
            *ticket = right;
            DONE
        }
        Err(refusal) => {
            *detail = refusal.detail;
            refusal.status.code()
        }
    }
}
