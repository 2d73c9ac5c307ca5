//! Searches through the places of messages that came, and what is done at one of them.

ghost use Rattle.std.specs.Prelude.{ℕ, ◌≡◌, ◌≤◌, ◌<◌, ◌-◌, ◌^◌, IfNone, IfSome, None, Option, Some, false, map, true, length};
ghost use Rattle.osc_message.specs.Hearing.{Heard, is_due, is_same};
ghost use Rattle.osc_message.specs.HearingFinding.{AcksAt, AnswersAt, IsOldestDone, IsUnusedPlace, RecallsAt, done_number, is_numbered, older_of, way_there};
ghost use Rattle.osc_message.specs.HearingViews.{seen_of};
ghost use Rattle.osc_message.specs.Slots.{IsAt, IsFreePlace, IsPlaceOf, NonePasses, holds};

use crate::arrival::{Again, Arrival, Way};

/// Returns whether a message with this Message ID from this address is the one at a place, come again.
fn is_same_at(place: &Option<Arrival>, from: &[u8], message_id: u16, now: u64) -> bool
    ensures { result ≡ holds (is_same from.now message_id now) (seen_of place.now) }
{
    match place {
        Some(arrival) => arrival.is_same(from, message_id, now),
        None => false,
    }
}

/// Returns whether the ACK of the message at a place is to be sent by itself.
fn is_due_at(place: &Option<Arrival>, now: u64) -> bool
    ensures { result ≡ holds (is_due now) (seen_of place.now) }
{
    match place {
        Some(arrival) => arrival.is_due(now),
        None => false,
    }
}

/// Returns whether the message with this number is at a place.
fn is_numbered_at(place: &Option<Arrival>, number: u64) -> bool
    ensures { result ≡ holds (is_numbered number) (seen_of place.now) }
{
    match place {
        Some(arrival) => arrival.number == number,
        None => false,
    }
}

/// Returns the number of the message at a place if all was sent for it.
fn done_at(place: &Option<Arrival>) -> Option<u64>
    ensures { result ≡ done_number (seen_of place.now) }
{
    match place {
        Some(arrival) if arrival.is_done() => Some(arrival.number),
        _ => None,
    }
}

/// Returns what the message at a place gets when it comes again.
pub(crate) fn again_at(place: &Option<Arrival>) -> Again
    ensures { RecallsAt (seen_of place.now) result }
{
    match place {
        Some(arrival) => arrival.again(),
        None => Again::Nothing,
    }
}

/// Returns the address that the message at a place came from, and its Message ID.
pub(crate) fn sender_at(place: &Option<Arrival>) -> Option<(&[u8], u16)>
    ensures from { IfSome result (λ r. (x : Heard) × (seen_of place.now ≡ Some x) × (r.0.now ≡ x.from) × (r.1 ≡ x.message_id)) }
    ensures free { IfNone result (seen_of place.now ≡ None) }
    ensures within { IfSome result (λ r. length r.0.now ≤ 28) }
{
    match place {
        Some(arrival) => Some((arrival.from.as_slice(), arrival.message_id)),
        None => None,
    }
}

/// Returns how the answer to the message at a place is sent.
pub(crate) fn way_at(place: &Option<Arrival>) -> Option<Way>
    ensures { result ≡ way_there (seen_of place.now) }
{
    match place {
        Some(arrival) => arrival.way(),
        None => None,
    }
}

/// Notes the answer to the message at a place, and returns how it is sent.
pub(crate) fn answer_at(place: &mut Option<Arrival>) -> Option<Way>
    ensures { AnswersAt (seen_of place.old) (seen_of place.new) result }
{
    match place {
        Some(arrival) => {
            let way = arrival.way()?;
            arrival.answer();
            Some(way)
        }
        None => None,
    }
}

/// Notes that the ACK of the message at a place is sent by itself, and returns its number.
pub(crate) fn acknowledge_late_at(place: &mut Option<Arrival>) -> Option<u64>
    ensures { AcksAt (seen_of place.old) (seen_of place.new) result }
{
    match place {
        Some(arrival) => {
            arrival.acknowledge();
            Some(arrival.number)
        }
        None => None,
    }
}

/// Finds the message that this one is, come again.
pub(crate) fn find_heard(
    places: &[Option<Arrival>],
    from: &[u8],
    message_id: u16,
    now: u64,
) -> Option<usize>
    ensures { IsPlaceOf (is_same from.now message_id now) (map seen_of places.now) result }
{
    for place in 0..places.len() {
        if is_same_at(&places[place], from, message_id, now) {
            return Some(place);
        }
    }
    None
}

/// Finds the first message whose ACK is to be sent by itself.
pub(crate) fn find_due_ack(places: &[Option<Arrival>], now: u64) -> Option<usize>
    ensures { IsPlaceOf (is_due now) (map seen_of places.now) result }
{
    for place in 0..places.len() {
        if is_due_at(&places[place], now) {
            return Some(place);
        }
    }
    None
}

/// Returns whether the message with this number is at a place.
pub(crate) fn is_there(places: &[Option<Arrival>], number: u64, place: usize) -> bool
    ensures yes { result ≡ true → (x : Heard) × IsAt (map seen_of places.now) place x × (x.number ≡ number) }
    ensures no { result ≡ false → (x : Heard) → IsAt (map seen_of places.now) place x → x.number ≡ number → ⊥ }
{
    if place >= places.len() {
        return false;
    }
    is_numbered_at(&places[place], number)
}

/// Finds a free place.
fn find_free_place(places: &[Option<Arrival>]) -> Option<usize>
    ensures { IsFreePlace (map seen_of places.now) result }
{
    for place in 0..places.len() {
        if places[place].is_none() {
            return Some(place);
        }
    }
    None
}

/// A message for which all was sent: its place and its number.
#[derive(Clone, Copy)]
struct Oldest {
    place: usize,
    number: u64,
}

/// Returns the older one of a message that was found and the one at a place, if all was sent for that.
fn older(oldest: Option<Oldest>, at: &Option<Arrival>, place: usize) -> Option<Oldest>
    ensures { result ≡ older_of oldest (seen_of at.now) place }
{
    let Some(number) = done_at(at) else {
        return oldest;
    };
    match oldest {
        Some(found) if found.number <= number => oldest,
        _ => Some(Oldest { place, number }),
    }
}

/// Finds the message for which all was sent and that came first.
fn find_oldest_done(places: &[Option<Arrival>]) -> Option<usize>
    ensures { IsOldestDone (map seen_of places.now) result }
{
    let mut oldest = None;
    for place in 0..places.len() {
        oldest = older(oldest, &places[place], place);
    }
    match oldest {
        Some(found) => Some(found.place),
        None => None,
    }
}

/// Returns the place of the next message: a free one, or that of the message for which all was sent and that came first.
pub(crate) fn find_unused(places: &[Option<Arrival>]) -> Option<usize>
    ensures { IsUnusedPlace (map seen_of places.now) result }
{
    match find_free_place(places) {
        Some(place) => Some(place),
        None => find_oldest_done(places),
    }
}

/// Returns the moment from which on the ACK of the message at a place is to be sent by itself, or `u64::MAX`.
fn wake_at(place: &Option<Arrival>) -> u64
    ensures until { (now : ℕ) → now < result → holds (is_due now) (seen_of place.now) ≡ false }
    ensures due { result < 2 ^ 64 - 1 → (now : ℕ) → result ≤ now → holds (is_due now) (seen_of place.now) ≡ true }
{
    match place {
        Some(arrival) => arrival.wake(),
        None => u64::MAX,
    }
}

/// Returns the moment from which on an ACK is to be sent by itself, or `u64::MAX`.
pub(crate) fn earliest_due(places: &[Option<Arrival>]) -> u64
    ensures until { (now : ℕ) → now < result → NonePasses (is_due now) (map seen_of places.now) }
    ensures due { result < 2 ^ 64 - 1 → (now : ℕ) → result ≤ now → NonePasses (is_due now) (map seen_of places.now) → ⊥ }
{
    let mut wake = u64::MAX;
    for place in 0..places.len() {
        wake = wake.min(wake_at(&places[place]));
    }
    wake
}
