//! What a peer asks, and what comes back, for C. The requests that wait for their responses lie in places that the caller hands in with each call.

ghost use Rattle.std.specs.Prelude.{◌≡◌, ◌≢◌, ◌≤◌, ◌<◌, ◌+◌, ◌^◌, ℕ, Err, IfErr, IfOk, IfSome, IsErrAnd, IsNone, IsOk, IsSome, None, OnErr, true, false, take, drop, map, length};
ghost use Rattle.osc_coap.specs.Datagram.{Parts, IsDatagram};
ghost use Rattle.osc_coap.specs.Fault.{HasFault};
ghost use Rattle.osc_coap.specs.Views.{parts_of};
ghost use Rattle.osc_coap.specs.declared.format_error.Fault.{Fault as FaultOf};
ghost use Rattle.osc_context.specs.Reserving.{next_limit};
ghost use Rattle.osc_context.specs.Views.{number_of};
ghost use Rattle.osc_protect.specs.Views.{message_of};
ghost use Rattle.osc_protect.specs.declared.opened.Opened.{Opened as OpenedOf};
ghost use Rattle.osc_client.specs.Agrees.{TokensDiffer};
ghost use Rattle.osc_client.specs.ClientAnswer.{ClientAnswer};
ghost use Rattle.osc_client.specs.ClientHistory.{Datagram, Entry, Forget, Forgot, History, Request, Sent, Took};
ghost use Rattle.osc_client.specs.declared.client_outcome.RequestError.TheVariants.{KeeperFailed};
ghost use Rattle.osc_observe.specs.Views.{received_of};
ghost use Rattle.osc_handle.specs.PendingBytes.{ArePending, ArePlaced, asked_among, entry_of_kept_request};
ghost use Rattle.osc_kept_ends.specs.Numbering.{Own};
ghost use Rattle.osc_handle.specs.declared.kept_refusal.KeptRequestRefusal.TheVariants as refusals;
ghost use Rattle.osc_peer_handle.specs.PeerBytes.{CatchesUpAsking, HasToSave, IsPeer, IsSamePeer, next_in};
ghost use Rattle.osc_context_handle.specs.ContextBytes.{client_in};
ghost use Rattle.osc_c.specs.Asking.{ReadsAsking, ReadsForgetting, ReadsTaking, heard_as};
ghost use Rattle.osc_room.specs.Room.{HasRoomFor};
ghost use Rattle.osc_c.specs.Opened.{option_in, Shows};
ghost use Rattle.osc_c.specs.PeerAskingCalls.{AsksAmong, RefusesPeerAsking, RefusesPeerForgetting, RefusesPeerHearing, StepsAmong, TakesAmong};
ghost use Rattle.osc_c.specs.PeerCalls.{next_record};
ghost use Rattle.osc_status.specs.Statuses.{code, format_status};
ghost use Rattle.osc_status.specs.declared.status.Status.{Status as StatusOf};
ghost use Rattle.osc_status.specs.declared.status.Status.TheVariants.{BadHandle, LivesExhausted, NoRoom, SaveFirst};

use crate::opened_view::{OpenedView, OptionView, show};
use crate::peer::save_next;
use crate::refusals::{asking_refusal, hearing};
use osc_coap::{Message, one_datagram, parse};
use osc_context::Piv;
use osc_endpoint::ClientOutcome;
use osc_handle::{KeptRequestRefusal, PendingHandle, Places, are_pending};
use osc_laws::one_client_answer;
use osc_peer_handle::{PeerHandle, RecordHandle};
use osc_protect::Opened;
use osc_room::enough_room;
use osc_status::{DONE, Refusal, Status};

/// Calls `PeerHandle::request` with these places.
fn request_among(
    peer: &mut PeerHandle,
    pending: &mut [PendingHandle],
    pending_count: &mut usize,
    now: u64,
    plain: &Message<'_>,
    out: &mut [u8],
) -> Result<usize, KeptRequestRefusal>
    requires { ArePlaced pending_count.old pending.old }
    ensures answered { (a : History) (old : Own) → AsksAmong peer.old pending_count.old pending.old old a → IfSome (entry_of_kept_request result out.new)
        (λ entry. StepsAmong peer.old pending.old a (Request now (parts_of plain.now) (length out.old)) entry old peer.new pending_count.new pending.new) }
    ensures refused { (number : ℕ) → result ≡ Err (refusals.SaveFirst number)
        → (number ≡ next_limit peer.old.server.reserved) × HasToSave true (next_in peer.old) peer.old }
    ensures refuses { IsPeer peer.old → HasToSave true (next_in peer.old) peer.old → result ≡ Err (refusals.SaveFirst (next_limit peer.old.server.reserved)) }
    ensures bad { result ≡ Err refusals.BadHandle → IsPeer peer.old → ⊥ }
    ensures stays { IsSamePeer peer.old peer.new }
    ensures same { entry_of_kept_request result out.new ≡ None → (peer.new ≡ peer.old) × (pending_count.new ≡ pending_count.old) × (pending.new ≡ pending.old) }
    ensures within { IfOk result (λ n. n ≤ length out.new) }
    ensures behind { IfOk result (λ n. drop n out.new ≡ drop n out.old) }
    ensures unchanged { OnErr result (out.new ≡ out.old) }
    ensures no_keeper_failed { result ≢ Err (refusals.Refused KeeperFailed) }
    ensures table { ArePlaced pending_count.new pending.new }
    ensures room { length pending.new ≡ length pending.old }
    ensures apart { TokensDiffer (asked_among pending_count.old pending.old) → TokensDiffer (asked_among pending_count.new pending.new) }
{
    let mut places = Places {
        places: pending,
        count: pending_count,
    };
    peer.request(&mut places, now, plain, out)
}

/// Seals a plain request, which is passed in as a datagram.
fn request_in(
    peer: &mut PeerHandle,
    pending: &mut [PendingHandle],
    pending_count: &mut usize,
    now: u64,
    plain: &[u8],
    out: &mut [u8],
    kept: &mut RecordHandle,
) -> Result<usize, Refusal>
    ensures sealed { IfOk result (λ n. (q : Parts) × IsDatagram q plain.now × ((a : History) (old : Own) → AsksAmong peer.old pending_count.old pending.old old a
        → StepsAmong peer.old pending.old a (Request now q (length out.old)) (Sent (take n out.new)) old peer.new pending_count.new pending.new)) }
    ensures accepted { IsOk result → IsPeer peer.old × ArePending pending_count.old pending.old }
    ensures refused { IfErr result (λ r. RefusesPeerAsking peer.old pending_count.old pending.old kept.new now plain.now (length out.old) peer.new pending_count.new pending.new r.status r.detail) }
    ensures save_first { (q : Parts) → IsDatagram q plain.now → IsPeer peer.old → ArePending pending_count.old pending.old → HasToSave true (next_in peer.old) peer.old
        → peer.old.generation + 1 < 2 ^ 64 → IsErrAnd result (λ r. (r.status ≡ SaveFirst) × (kept.new ≡ next_record peer.old (next_limit peer.old.server.reserved) peer.old.received)) }
    ensures left { IfOk result (λ n. kept.new ≡ kept.old) }
    ensures spared { IfErr result (λ r. r.status ≢ SaveFirst → kept.new ≡ kept.old) }
    ensures stays { IsSamePeer peer.old peer.new }
    ensures whole { ArePending pending_count.old pending.old → ArePending pending_count.new pending.new }
    ensures room { length pending.new ≡ length pending.old }
    ensures within { IfOk result (λ n. n ≤ length out.new) }
    ensures behind { IfOk result (λ n. drop n out.new ≡ drop n out.old) }
    ensures unchanged { OnErr result (out.new ≡ out.old) }
{
    if !peer.is_whole() || !are_pending(pending, *pending_count) {
        return Err(Status::BadHandle.into());
    }
    let message = match parse(plain) {
        Ok(message) => message,
        Err(error) => return Err(error.into()),
    };
    match request_among(peer, pending, pending_count, now, &message, out) {
        Ok(len) => Ok(len),
        Err(KeptRequestRefusal::BadHandle) => Err(Status::BadHandle.into()),
        Err(KeptRequestRefusal::SaveFirst(number)) => {
            Err(save_next(peer, number, peer.received, kept))
        }
        Err(KeptRequestRefusal::Refused(error)) => Err(asking_refusal(error)),
    }
}

/// Seals a request with the peer's next number (RFC 8613, 8.1). `plain` is its datagram. The first `out_len` bytes of `out` are the sealed
/// datagram. The first `pending_count` of the places hold the requests that wait for their responses, and this one is put behind them. It needs
/// a number, and at SaveFirst `kept` is the record to save, as at `oscore_peer_take_v6`. A refusal is BadHandle, one of the datagram's faults with
/// its place, SaveFirst, NotThatKind, Unsupported with the lowest number of such an option, TokenInUse, PendingFull, SequenceExhausted, TooLong
/// or NoRoom, in this order; from NotThatKind on it moves the clock, and the others change nothing.
#[unsafe(no_mangle)]
pub extern "C" fn oscore_peer_request_v5(
    peer: &mut PeerHandle,
    pending: &mut [PendingHandle],
    pending_count: &mut usize,
    now: u64,
    plain: &[u8],
    out: &mut [u8],
    out_len: &mut usize,
    kept: &mut RecordHandle,
    detail: &mut usize,
) -> u32
    ensures sealed { result ≡ 0 → (q : Parts) × IsDatagram q plain.now × ((a : History) (old : Own) → AsksAmong peer.old pending_count.old pending.old old a
        → StepsAmong peer.old pending.old a (Request now q (length out.old)) (Sent (take out_len.new out.new)) old peer.new pending_count.new pending.new) }
    ensures refused { result ≢ 0 → (status : StatusOf) × (result ≡ code status)
        × RefusesPeerAsking peer.old pending_count.old pending.old kept.new now plain.now (length out.old) peer.new pending_count.new pending.new status detail.new }
    ensures refuses { (IsPeer peer.old → ArePending pending_count.old pending.old → ⊥) → result ≡ code BadHandle }
    ensures malformed { IsPeer peer.old → ArePending pending_count.old pending.old → (fault : FaultOf) (place : ℕ) → HasFault plain.now fault place
        → (result ≡ code (format_status fault)) × (detail.new ≡ place) }
    ensures save_first { (q : Parts) → IsDatagram q plain.now → IsPeer peer.old → ArePending pending_count.old pending.old → HasToSave true (next_in peer.old) peer.old
        → peer.old.generation + 1 < 2 ^ 64 → (result ≡ code SaveFirst) × (kept.new ≡ next_record peer.old (next_limit peer.old.server.reserved) peer.old.received) }
    ensures answers { (q : Parts) → IsDatagram q plain.now → ArePending pending_count.old pending.old → (a b : History) (o : Own) (entry : Entry)
        → AsksAmong peer.old pending_count.old pending.old o a → CatchesUpAsking (length pending.old) a b o → result ≢ code SaveFirst → result ≢ code LivesExhausted
        → ClientAnswer (length pending.old) b (Request now q (length out.old)) entry → ReadsAsking entry result detail.new (take out_len.new out.new) }
    ensures spared { result ≢ code SaveFirst → kept.new ≡ kept.old }
    ensures stays { IsSamePeer peer.old peer.new }
    ensures whole { ArePending pending_count.old pending.old → ArePending pending_count.new pending.new }
    ensures room { length pending.new ≡ length pending.old }
    ensures within { result ≡ 0 → out_len.new ≤ length out.new }
    ensures behind { result ≡ 0 → drop out_len.new out.new ≡ drop out_len.new out.old }
    ensures enough { (a : History) (o : Own) → AsksAmong peer.old pending_count.old pending.old o a
        → HasRoomFor (client_in peer.old.server.server.slot.context).features.observe plain.now (length out.old) → result ≢ code NoRoom }
    ensures unchanged { result ≢ 0 → (out.new ≡ out.old) × (out_len.new ≡ out_len.old) }
{
    // For the proof alone.
    one_client_answer();
    enough_room();
    one_datagram();
    match request_in(peer, pending, pending_count, now, plain, out, kept) {
        Ok(len) => {
            *out_len = len;
            DONE
        }
        Err(refusal) => {
            *detail = refusal.detail;
            refusal.status.code()
        }
    }
}

/// Calls `PeerHandle::hear` with these places.
fn hear_among<'b>(
    peer: &mut PeerHandle,
    pending: &mut [PendingHandle],
    pending_count: &mut usize,
    now: u64,
    datagram: &'b mut [u8],
) -> Option<ClientOutcome<'b>>
    requires { ArePlaced pending_count.old pending.old }
    ensures answered { IfSome result (λ outcome. (a : History) (old : Own) → AsksAmong peer.old pending_count.old pending.old old a
        → TakesAmong peer.old pending.old a now datagram.old outcome old peer.new pending_count.new pending.new) }
    ensures accepts { IsPeer peer.old → IsSome result }
    ensures stays { IsSamePeer peer.old peer.new }
    ensures unchanged { IsNone result → (peer.new ≡ peer.old) × (pending_count.new ≡ pending_count.old) × (pending.new ≡ pending.old) }
    ensures table { ArePlaced pending_count.new pending.new }
    ensures room { length pending.new ≡ length pending.old }
    ensures apart { TokensDiffer (asked_among pending_count.old pending.old) → TokensDiffer (asked_among pending_count.new pending.new) }
{
    let mut places = Places {
        places: pending,
        count: pending_count,
    };
    peer.hear(&mut places, now, datagram)
}

/// Takes a datagram that may be a response to one of these requests.
fn hear_in<'b>(
    peer: &mut PeerHandle,
    pending: &mut [PendingHandle],
    pending_count: &mut usize,
    now: u64,
    datagram: &'b mut [u8],
) -> Result<(Opened<'b>, Piv, bool), Refusal>
    ensures opened { IfOk result (λ o. (a : History) (old : Own) → AsksAmong peer.old pending_count.old pending.old old a
        → StepsAmong peer.old pending.old a (Datagram now datagram.old) (Took (heard_as o.2 (received_of o.0) (number_of o.1))) old peer.new pending_count.new pending.new) }
    ensures accepted { IsOk result → IsPeer peer.old × ArePending pending_count.old pending.old }
    ensures refused { IfErr result (λ r. RefusesPeerHearing peer.old pending_count.old pending.old peer.new pending_count.new pending.new now datagram.old r.status r.detail) }
    ensures stays { IsSamePeer peer.old peer.new }
    ensures whole { ArePending pending_count.old pending.old → ArePending pending_count.new pending.new }
    ensures room { length pending.new ≡ length pending.old }
{
    if !peer.is_whole() || !are_pending(pending, *pending_count) {
        return Err(Status::BadHandle.into());
    }
    match hear_among(peer, pending, pending_count, now, datagram) {
        Some(outcome) => match hearing(outcome) {
            Ok(heard) => Ok(heard),
            Err(refusal) => Err(refusal),
        },
        None => Err(Status::BadHandle.into()),
    }
}

/// Takes a datagram that may be a response to one of these requests in place (RFC 8613, 8.4). It returns 0 if a response is delivered; then
/// `request` is that request's number, and the request is no longer pending, unless `opened` says that this is a notification. Needs no number.
/// A refusal is BadHandle, one of the datagram's faults with its place, NotThatKind, UnknownToken, NoOscore, Undecodable, Old, Tag or Inner, in
/// this order; all but BadHandle move the clock.
#[unsafe(no_mangle)]
pub extern "C" fn oscore_peer_hear_v5<'b>(
    peer: &mut PeerHandle,
    pending: &mut [PendingHandle],
    pending_count: &mut usize,
    now: u64,
    datagram: &'b mut [u8],
    options: &mut [OptionView<'b>],
    opened: &mut OpenedView<'b>,
    request: &mut u64,
    detail: &mut usize,
) -> u32
    ensures opened { result ≡ 0 → (o : OpenedOf) × Shows opened.new o
        × (opened.new.has_more_options ≡ false → map option_in (take opened.new.option_count options.new) ≡ (message_of o).options)
        × (opened.new.has_more_options ≡ true → map option_in options.new ≡ take (length options.old) (message_of o).options)
        × ((a : History) (old : Own) → AsksAmong peer.old pending_count.old pending.old old a
        → StepsAmong peer.old pending.old a (Datagram now datagram.old) (Took (heard_as opened.new.is_notification (received_of o) request.new)) old peer.new pending_count.new pending.new) }
    ensures refused { result ≢ 0 → (status : StatusOf) × (result ≡ code status)
        × RefusesPeerHearing peer.old pending_count.old pending.old peer.new pending_count.new pending.new now datagram.old status detail.new }
    ensures refuses { (IsPeer peer.old → ArePending pending_count.old pending.old → ⊥) → result ≡ code BadHandle }
    ensures answers { ArePending pending_count.old pending.old → (a b : History) (o : Own) (entry : Entry) → AsksAmong peer.old pending_count.old pending.old o a
        → CatchesUpAsking (length pending.old) a b o → ClientAnswer (length pending.old) b (Datagram now datagram.old) entry
        → ReadsTaking entry result detail.new request.new opened.new.is_notification }
    ensures stays { IsSamePeer peer.old peer.new }
    ensures whole { ArePending pending_count.old pending.old → ArePending pending_count.new pending.new }
    ensures room { length pending.new ≡ length pending.old }
    ensures unchanged { result ≢ 0 → (opened.new ≡ opened.old) × (options.new ≡ options.old) × (request.new ≡ request.old) }
{
    // For the proof alone.
    one_client_answer();
    match hear_in(peer, pending, pending_count, now, datagram) {
        Ok((message, number, stays)) => {
            show(&message, options, opened);
            opened.is_notification = stays;
            *request = number.number();
            DONE
        }
        Err(refusal) => {
            *detail = refusal.detail;
            refusal.status.code()
        }
    }
}

/// Calls `PeerHandle::forget` with these places.
fn forget_among(
    peer: &mut PeerHandle,
    pending: &mut [PendingHandle],
    pending_count: &mut usize,
    token: &[u8],
) -> Option<bool>
    requires { ArePlaced pending_count.old pending.old }
    ensures answered { IfSome result (λ was. (a : History) (old : Own) → AsksAmong peer.old pending_count.old pending.old old a
        → StepsAmong peer.old pending.old a (Forget token.now) (Forgot was) old peer.new pending_count.new pending.new) }
    ensures accepts { IsPeer peer.old → IsSome result }
    ensures accepted { IsSome result → IsPeer peer.old }
    ensures stays { peer.new ≡ peer.old }
    ensures unchanged { IsNone result → (pending_count.new ≡ pending_count.old) × (pending.new ≡ pending.old) }
    ensures table { ArePlaced pending_count.new pending.new }
    ensures room { length pending.new ≡ length pending.old }
    ensures apart { TokensDiffer (asked_among pending_count.old pending.old) → TokensDiffer (asked_among pending_count.new pending.new) }
{
    let mut places = Places {
        places: pending,
        count: pending_count,
    };
    peer.forget(&mut places, token)
}

/// Stops waiting for the response to the one of these requests with this token. A refusal is BadHandle or NotPending, in this order.
#[unsafe(no_mangle)]
pub extern "C" fn oscore_peer_forget_v5(
    peer: &mut PeerHandle,
    pending: &mut [PendingHandle],
    pending_count: &mut usize,
    token: &[u8],
) -> u32
    ensures answered { result ≡ 0 → (a : History) (old : Own) → AsksAmong peer.old pending_count.old pending.old old a
        → StepsAmong peer.old pending.old a (Forget token.now) (Forgot true) old peer.new pending_count.new pending.new }
    ensures refused { result ≢ 0 → (status : StatusOf) × (result ≡ code status)
        × RefusesPeerForgetting peer.old pending_count.old pending.old peer.new pending_count.new pending.new token.now status }
    ensures refuses { (IsPeer peer.old → ArePending pending_count.old pending.old → ⊥) → result ≡ code BadHandle }
    ensures answers { ArePending pending_count.old pending.old → (a b : History) (o : Own) (entry : Entry) → AsksAmong peer.old pending_count.old pending.old o a
        → CatchesUpAsking (length pending.old) a b o → ClientAnswer (length pending.old) b (Forget token.now) entry → ReadsForgetting entry result }
    ensures stays { peer.new ≡ peer.old }
    ensures whole { ArePending pending_count.old pending.old → ArePending pending_count.new pending.new }
    ensures room { length pending.new ≡ length pending.old }
{
    // For the proof alone.
    one_client_answer();
    if !are_pending(pending, *pending_count) {
        return Status::BadHandle.code();
    }
    match forget_among(peer, pending, pending_count, token) {
        Some(true) => DONE,
        Some(false) => Status::NotPending.code(),
        None => Status::BadHandle.code(),
    }
}
