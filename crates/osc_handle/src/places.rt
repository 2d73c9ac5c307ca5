//! The requests that wait for their responses, in places that a caller hands in.

ghost use Rattle.std.specs.Prelude.{◌≡◌, ◌∷◌, [], Some, IfSome, IfNone, true, false, length, map, slice_get};
ghost use Rattle.osc_client.specs.ClientAnswer.{IsAmong};
ghost use Rattle.osc_client.specs.ClientHistory.{Asked, alive};
ghost use Rattle.osc_handle.specs.PendingBytes.{ArePending, ArePlaced, asked_among, asked_at};

use crate::pending_handle::PendingHandle;
use osc_client::siblings::{Found, Pending, Wait, Waiting};

/// Places for requests that wait for their responses: the first `count` hold one each, oldest first. How many there are is the caller's choice.
#[derive(Drop)]
pub struct Places<'a> {
    pub places: &'a mut [PendingHandle],
    pub count: &'a mut usize,
}

/// Returns the place of the request with this token.
fn place_of(requests: &[PendingHandle], token: &[u8]) -> Option<usize>
    ensures found { IfSome result (λ i. (r : Asked) × (slice_get (map asked_at requests.now) i ≡ Some r) × (r.token ≡ token.now)) }
    ensures none { IfNone result (IsAmong token.now (map asked_at requests.now) → ⊥) }
{
    for place in 0..requests.len() {
        if requests[place].token() == token {
            return Some(place);
        }
    }
    None
}

/// Returns whether one of these requests has this token.
fn has_token(requests: &[PendingHandle], token: &[u8]) -> bool
    ensures yes { result ≡ true → IsAmong token.now (map asked_at requests.now) }
    ensures no { result ≡ false → IsAmong token.now (map asked_at requests.now) → ⊥ }
{
    match place_of(requests, token) {
        Some(_) => true,
        None => false,
    }
}

/// Returns whether calls may have written the requests in the first `count` places.
pub fn are_pending(places: &[PendingHandle], count: usize) -> bool
    ensures yes { result ≡ true → ArePending count places.now }
    ensures no { result ≡ false → ArePending count places.now → ⊥ }
{
    if count > places.len() {
        return false;
    }
    for index in 0..count {
        let request = &places[index];
        if !request.is_whole() {
            return false;
        }
        if has_token(&places[..index], request.token()) {
            return false;
        }
    }
    true
}

/// Keeps the requests that are still pending at this time, in the first places, and returns how many these are.
fn keep_alive(places: &mut [PendingHandle], count: usize, clock: u64, life_ms: u64) -> usize
    requires { ArePlaced count places.old }
    ensures table { ArePlaced result places.new }
    ensures kept { asked_among result places.new ≡ alive clock life_ms (asked_among count places.old) }
    ensures same_length { length places.new ≡ length places.old }
{
    let mut kept = 0;
    for place in 0..count {
        let request = places[place];
        if request.is_alive(clock, life_ms) {
            places[kept] = request;
            kept += 1;
        }
    }
    kept
}

impl Waiting for Places<'_> {
    ghost is_table = { λ table. ArePlaced table.count.now table.places.now };

    ghost requests = { λ table. asked_among table.count.now table.places.now };

    ghost room = { λ table. length table.places.now };

    ghost lies = { λ table. table.places.ghost_name ∷ table.count.ghost_name ∷ [] };

    fn find(&self, token: &[u8]) -> Option<Found> {
        let places = &*self.places;
        match place_of(&places[..*self.count], token) {
            Some(place) => Some(places[place].found_at(place)),
            None => None,
        }
    }

    fn is_full(&self) -> bool {
        *self.count == self.places.len()
    }

    fn len(&self) -> usize {
        *self.count
    }

    fn awaits_at(&self, place: usize) -> Wait {
        let places = &*self.places;
        places[place].wait()
    }

    fn push(&mut self, request: Pending) {
        self.places[*self.count] = PendingHandle::of(&request);
        *self.count += 1;
    }

    fn take_out(&mut self, place: usize) {
        self.places.copy_within(place + 1..*self.count, place);
        *self.count -= 1;
    }

    fn wait_at(&mut self, place: usize, wait: Wait) {
        self.places[place] = self.places[place].waiting_for(wait);
    }

    fn drop_expired(&mut self, clock: u64, life_ms: u64) {
        *self.count = keep_alive(self.places, *self.count, clock, life_ms);
    }
}
