//! Searches through the places of observers, and what is done at one of them.

ghost use Rattle.std.specs.Prelude.{ℕ, ◌≡◌, ◌≤◌, IfNone, IfSome, None, Option, Some, false, length, map, true};
ghost use Rattle.osc_observers.specs.Finding.{IsFirstFrom, IsPlaceFor, is_numbered, needs_at, noted_at, number_of};
ghost use Rattle.osc_message.specs.Slots.{IsAt, IsFreePlace, IsPlaceOf, holds};
ghost use Rattle.osc_observers.specs.Views.{place_of};
ghost use Rattle.osc_observers.specs.Watching.{Watching, is_failed, is_of, is_reset};

use crate::watch::Watch;

/// Returns whether the observer at a place is that of this address and token.
fn is_of_at(place: &Option<Watch>, from: &[u8], token: &[u8]) -> bool
    ensures { result ≡ holds (is_of from.now token.now) (place_of place.now) }
{
    match place {
        Some(watch) => watch.is_of(from, token),
        None => false,
    }
}

/// Returns whether an RST rejects the last notification to the observer at a place.
fn is_reset_at(place: &Option<Watch>, from: &[u8], message_id: u16) -> bool
    ensures { result ≡ holds (is_reset from.now message_id) (place_of place.now) }
{
    match place {
        Some(watch) => watch.is_reset(from, message_id),
        None => false,
    }
}

/// Returns whether the last CON to the observer at a place is that of this call.
fn is_failed_at(place: &Option<Watch>, call: u64) -> bool
    ensures { result ≡ holds (is_failed call) (place_of place.now) }
{
    match place {
        Some(watch) => watch.is_failed(call),
        None => false,
    }
}

/// Returns whether the observer with this number is at a place.
fn is_numbered_at(place: &Option<Watch>, number: u64) -> bool
    ensures { result ≡ holds (is_numbered number) (place_of place.now) }
{
    match place {
        Some(watch) => watch.number == number,
        None => false,
    }
}

/// Returns the number of the observer at a place.
pub(crate) fn number_at(place: &Option<Watch>) -> Option<u64>
    ensures { result ≡ number_of (place_of place.now) }
{
    match place {
        Some(watch) => Some(watch.number),
        None => None,
    }
}

/// Returns whether the next notification to the observer at a place has to be a CON.
pub(crate) fn needs_con_at(place: &Option<Watch>, now: u64) -> Option<bool>
    ensures { result ≡ needs_at (place_of place.now) now }
{
    match place {
        Some(watch) => Some(watch.needs_con(now)),
        None => None,
    }
}

/// Returns the address of the observer at a place.
pub(crate) fn address_at(place: &Option<Watch>) -> Option<&[u8]>
    ensures from { IfSome result (λ from. (x : Watching) × (place_of place.now ≡ Some x) × (from.now ≡ x.from)) }
    ensures free { IfNone result (place_of place.now ≡ None) }
    ensures within { IfSome result (λ from. length from.now ≤ 28) }
{
    match place {
        Some(watch) => Some(watch.from.as_slice()),
        None => None,
    }
}

/// Returns the token of the observer at a place.
pub(crate) fn token_at(place: &Option<Watch>) -> Option<&[u8]>
    ensures token { IfSome result (λ token. (x : Watching) × (place_of place.now ≡ Some x) × (token.now ≡ x.token)) }
    ensures free { IfNone result (place_of place.now ≡ None) }
    ensures within { IfSome result (λ token. length token.now ≤ 8) }
{
    match place {
        Some(watch) => Some(watch.token.as_slice()),
        None => None,
    }
}

/// Notes a notification to the observer at a place.
pub(crate) fn note_at(place: &mut Option<Watch>, message_id: u16, call: Option<u64>, now: u64)
    ensures { place_of place.new ≡ noted_at (place_of place.old) message_id call now }
{
    match place {
        Some(watch) => watch.note(message_id, call, now),
        None => {}
    }
}

/// Takes the observer out of a place, and returns its number.
pub(crate) fn end_at(place: &mut Option<Watch>) -> Option<u64>
    ensures number { result ≡ number_of (place_of place.old) }
    ensures gone { place_of place.new ≡ None }
{
    match place.take() {
        Some(watch) => Some(watch.number),
        None => None,
    }
}

/// Returns whether the observer with this number is at a place.
pub(crate) fn is_there(places: &[Option<Watch>], number: u64, place: usize) -> bool
    ensures yes { result ≡ true → (x : Watching) × IsAt (map place_of places.now) place x × (x.number ≡ number) }
    ensures no { result ≡ false → (x : Watching) → IsAt (map place_of places.now) place x → x.number ≡ number → ⊥ }
{
    if place >= places.len() {
        return false;
    }
    is_numbered_at(&places[place], number)
}

/// Finds the observer of this address and token.
pub(crate) fn find_of(places: &[Option<Watch>], from: &[u8], token: &[u8]) -> Option<usize>
    ensures { IsPlaceOf (is_of from.now token.now) (map place_of places.now) result }
{
    for place in 0..places.len() {
        if is_of_at(&places[place], from, token) {
            return Some(place);
        }
    }
    None
}

/// Finds the observer whose last notification an RST rejects.
pub(crate) fn find_reset(places: &[Option<Watch>], from: &[u8], message_id: u16) -> Option<usize>
    ensures { IsPlaceOf (is_reset from.now message_id) (map place_of places.now) result }
{
    for place in 0..places.len() {
        if is_reset_at(&places[place], from, message_id) {
            return Some(place);
        }
    }
    None
}

/// Finds the observer whose last CON is that of this call.
pub(crate) fn find_failed(places: &[Option<Watch>], call: u64) -> Option<usize>
    ensures { IsPlaceOf (is_failed call) (map place_of places.now) result }
{
    for place in 0..places.len() {
        if is_failed_at(&places[place], call) {
            return Some(place);
        }
    }
    None
}

/// Finds a free place.
fn find_free(places: &[Option<Watch>]) -> Option<usize>
    ensures { IsFreePlace (map place_of places.now) result }
{
    for place in 0..places.len() {
        if places[place].is_none() {
            return Some(place);
        }
    }
    None
}

/// Finds the place of a registration: that of the observer of this address and token, or else a free one.
pub(crate) fn find_place(places: &[Option<Watch>], from: &[u8], token: &[u8]) -> Option<usize>
    ensures { IsPlaceFor from.now token.now (map place_of places.now) result }
{
    match find_of(places, from, token) {
        Some(place) => Some(place),
        None => find_free(places),
    }
}

/// Finds the first observer at this place or at a later one.
pub(crate) fn find_from(places: &[Option<Watch>], first: usize) -> Option<usize>
    ensures { IsFirstFrom (map place_of places.now) first result }
{
    for place in first..places.len() {
        if places[place].is_some() {
            return Some(place);
        }
    }
    None
}
