//! Searches through the places of a table.

ghost use Rattle.std.specs.Prelude.{ℕ, ◌≡◌, ◌≤◌, ◌<◌, ◌-◌, ◌^◌, false, map, true};
ghost use Rattle.osc_message.specs.Finding.{Finds, is_of_call, step_at_place};
ghost use Rattle.osc_message.specs.Sending.{Sending, is_awaited, is_for, is_unacknowledged};
ghost use Rattle.osc_message.specs.Slots.{IsAt, IsFreePlace, IsPlaceOf, NonePasses, holds};
ghost use Rattle.osc_message.specs.Table.{Rests};
ghost use Rattle.osc_message.specs.Views.{place_of};
ghost use Rattle.osc_message.specs.declared.exchange.Step.TheVariants as steps;

use crate::exchange::{Exchange, Step};

/// What is to be done first.
#[derive(Clone, Copy)]
pub(crate) enum Found {
    Rest,
    Resend(usize),
    GiveUp(usize),
}

/// Returns whether the message at a place is that of the call with this number.
fn is_of_call_at(place: &Option<Exchange>, number: u64) -> bool
    ensures { result ≡ holds (is_of_call number) (place_of place.now) }
{
    match place {
        Some(exchange) => exchange.call == number,
        None => false,
    }
}

/// Returns whether the message at a place went to this address, and has no ACK yet.
fn is_unacknowledged_at(place: &Option<Exchange>, to: &[u8]) -> bool
    ensures { result ≡ holds (is_unacknowledged to.now) (place_of place.now) }
{
    match place {
        Some(exchange) => exchange.is_unacknowledged(to),
        None => false,
    }
}

/// Returns whether an ACK or RST with this Message ID from this address is for the message at a place.
fn is_for_at(place: &Option<Exchange>, from: &[u8], message_id: u16) -> bool
    ensures { result ≡ holds (is_for from.now message_id) (place_of place.now) }
{
    match place {
        Some(exchange) => exchange.is_for(from, message_id),
        None => false,
    }
}

/// Returns whether a response is for the message at a place.
fn is_awaited_at(place: &Option<Exchange>, from: &[u8], token: &[u8], acked: Option<u16>) -> bool
    ensures { result ≡ holds (is_awaited from.now token.now acked) (place_of place.now) }
{
    match place {
        Some(exchange) => exchange.is_awaited(from, token, acked),
        None => false,
    }
}

/// Returns whether the message of the call with this number is at a place.
pub(crate) fn is_on_its_way(places: &[Option<Exchange>], number: u64, place: usize) -> bool
    ensures yes { result ≡ true → (x : Sending) × IsAt (map place_of places.now) place x × (x.call ≡ number) }
    ensures no { result ≡ false → (x : Sending) → IsAt (map place_of places.now) place x → x.call ≡ number → ⊥ }
{
    if place >= places.len() {
        return false;
    }
    is_of_call_at(&places[place], number)
}

/// Finds a free place.
pub(crate) fn find_free(places: &[Option<Exchange>]) -> Option<usize>
    ensures { IsFreePlace (map place_of places.now) result }
{
    for place in 0..places.len() {
        if places[place].is_none() {
            return Some(place);
        }
    }
    None
}

/// Returns whether each message that went to this address has its ACK.
pub(crate) fn is_idle(places: &[Option<Exchange>], to: &[u8]) -> bool
    ensures yes { result ≡ true → NonePasses (is_unacknowledged to.now) (map place_of places.now) }
    ensures no { result ≡ false → NonePasses (is_unacknowledged to.now) (map place_of places.now) → ⊥ }
{
    for place in 0..places.len() {
        if is_unacknowledged_at(&places[place], to) {
            return false;
        }
    }
    true
}

/// Finds the message that an ACK or RST with this Message ID from this address is for.
pub(crate) fn find_for(places: &[Option<Exchange>], from: &[u8], message_id: u16) -> Option<usize>
    ensures { IsPlaceOf (is_for from.now message_id) (map place_of places.now) result }
{
    for place in 0..places.len() {
        if is_for_at(&places[place], from, message_id) {
            return Some(place);
        }
    }
    None
}

/// Finds the message that a response is for.
pub(crate) fn find_awaited(
    places: &[Option<Exchange>],
    from: &[u8],
    token: &[u8],
    acked: Option<u16>,
) -> Option<usize>
    ensures { IsPlaceOf (is_awaited from.now token.now acked) (map place_of places.now) result }
{
    for place in 0..places.len() {
        if is_awaited_at(&places[place], from, token, acked) {
            return Some(place);
        }
    }
    None
}

/// Returns what is to be done about the message at a place.
fn step_at(place: &Option<Exchange>, now: u64) -> Step
    ensures { result ≡ step_at_place (place_of place.now) now }
{
    match place {
        Some(exchange) => exchange.step(now),
        None => Step::Rest,
    }
}

/// Finds the first message about which something is to be done at this moment.
pub(crate) fn find_due(places: &[Option<Exchange>], now: u64) -> Found
    ensures { Finds (map place_of places.now) now result }
{
    for place in 0..places.len() {
        match step_at(&places[place], now) {
            Step::Rest => {}
            Step::Resend => return Found::Resend(place),
            Step::GiveUp => return Found::GiveUp(place),
        }
    }
    Found::Rest
}

/// Returns the moment from which on something is to be done about the message at a place, or `u64::MAX`.
fn wake_at(place: &Option<Exchange>) -> u64
    ensures until { (now : ℕ) → now < result → step_at_place (place_of place.now) now ≡ steps.Rest }
    ensures due { result < 2 ^ 64 - 1 → (now : ℕ) → result ≤ now → step_at_place (place_of place.now) now ≡ steps.Rest → ⊥ }
{
    match place {
        Some(exchange) => exchange.wake(),
        None => u64::MAX,
    }
}

/// Returns the moment from which on something is to be done about a message, or `u64::MAX`.
pub(crate) fn earliest(places: &[Option<Exchange>]) -> u64
    ensures until { (now : ℕ) → now < result → Rests (map place_of places.now) now }
    ensures due { result < 2 ^ 64 - 1 → (now : ℕ) → result ≤ now → Rests (map place_of places.now) now → ⊥ }
{
    let mut wake = u64::MAX;
    for place in 0..places.len() {
        wake = wake.min(wake_at(&places[place]));
    }
    wake
}
