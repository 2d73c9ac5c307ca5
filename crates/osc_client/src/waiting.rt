//! Where a client's pending requests lie.

ghost use Rattle.std.specs.Prelude.{◌≡◌, ◌<◌, ◌≤◌, ◌++◌, ◌∷◌, [], ℕ, List, Some, IfSome, IfNone, true, false, length, map, slice_get, slice_set, remove as but_place};
ghost use Rattle.osc_client.specs.Agrees.{ClientParts, PartsAgree, TokensDiffer};
ghost use Rattle.osc_client.specs.ClientAnswer.{ClientAnswer, IsAmong, of_kind};
ghost use Rattle.osc_client.specs.ClientDeciding.{IsFoundIn};
ghost use Rattle.osc_client.specs.ClientHistory.{Asked, History, Then, Forget, Forgot, alive};
ghost use Rattle.osc_client.specs.Requesting.{without_place};
ghost use Rattle.osc_client.specs.Views.{asked_of};

use crate::pending::{Found, Pending, Wait, drop_expired, find_request};
use arrayvec::ArrayVec;

/// A table of pending requests, oldest first, wherever it lies. Only clauses read whether its bytes are such a table at all, its requests, how
/// many there is room for, and the names of the borrows that it lies behind, which no call changes.
pub trait Waiting {
    ghost is_table: { Self → Type 0 };

    ghost requests: { Self → List Asked };

    ghost room: { Self → ℕ };

    ghost lies: { Self → List ℕ };

    /// Finds the request with this token.
    fn find(&self, token: &[u8]) -> Option<Found>
        requires { is_table self.now }
        ensures found { IfSome result (λ f. IsFoundIn (requests self.now) token.now f) }
        ensures none { IfNone result (IsAmong token.now (requests self.now) → ⊥) };

    /// Returns whether there is no room for one more.
    fn is_full(&self) -> bool
        requires { is_table self.now }
        ensures yes { result ≡ true → room self.now ≤ length (requests self.now) }
        ensures no { result ≡ false → length (requests self.now) < room self.now }
        ensures fits { length (requests self.now) ≤ room self.now };

    /// Returns how many requests there are.
    fn len(&self) -> usize
        requires { is_table self.now }
        ensures { result ≡ length (requests self.now) };

    /// Returns what the request at a place waits for.
    fn awaits_at(&self, place: usize) -> Wait
        requires table { is_table self.now }
        requires within { place < length (requests self.now) }
        ensures { (r : Asked) → slice_get (requests self.now) place ≡ Some r → result ≡ r.wait };

    /// Puts a request behind the others.
    fn push(&mut self, request: Pending)
        requires table { is_table self.old }
        requires fits { length (requests self.old) < room self.old }
        ensures table { is_table self.new }
        ensures room { room self.new ≡ room self.old }
        ensures lies { lies self.new ≡ lies self.old }
        ensures requests { requests self.new ≡ requests self.old ++ asked_of request ∷ [] };

    /// Takes the request at a place out. The later ones move up.
    fn take_out(&mut self, place: usize)
        requires table { is_table self.old }
        requires within { place < length (requests self.old) }
        ensures table { is_table self.new }
        ensures room { room self.new ≡ room self.old }
        ensures lies { lies self.new ≡ lies self.old }
        ensures requests { requests self.new ≡ but_place (requests self.old) place };

    /// Has the request at a place wait for this.
    fn wait_at(&mut self, place: usize, wait: Wait)
        requires table { is_table self.old }
        requires within { place < length (requests self.old) }
        ensures table { is_table self.new }
        ensures room { room self.new ≡ room self.old }
        ensures lies { lies self.new ≡ lies self.old }
        ensures requests { (r : Asked) → slice_get (requests self.old) place ≡ Some r
            → requests self.new ≡ slice_set (requests self.old) place (record r { wait = wait }) };

    /// Drops the requests that are older than `life_ms` milliseconds, except registrations that were notified.
    fn drop_expired(&mut self, clock: u64, life_ms: u64)
        requires { is_table self.old }
        ensures table { is_table self.new }
        ensures room { room self.new ≡ room self.old }
        ensures lies { lies self.new ≡ lies self.old }
        ensures requests { requests self.new ≡ alive clock life_ms (requests self.old) };
}

impl<const N: usize> Waiting for ArrayVec<Pending, N> {
    ghost is_table = { λ _. Unit {0} };

    ghost requests = { λ table. map asked_of table.items };

    ghost room = { λ _. N };

    ghost lies = { λ _. [] };

    fn find(&self, token: &[u8]) -> Option<Found> {
        find_request(self.as_slice(), token)
    }

    fn is_full(&self) -> bool {
        ArrayVec::is_full(self)
    }

    fn len(&self) -> usize {
        ArrayVec::len(self)
    }

    fn awaits_at(&self, place: usize) -> Wait {
        self[place].wait
    }

    fn push(&mut self, request: Pending) {
        ArrayVec::push(self, request);
    }

    fn take_out(&mut self, place: usize) {
        let _taken = self.remove(place);
    }

    fn wait_at(&mut self, place: usize, wait: Wait) {
        self[place].wait = wait;
    }

    fn drop_expired(&mut self, clock: u64, life_ms: u64) {
        drop_expired(self, clock, life_ms);
    }
}

/// Returns how many of the requests are registrations, or how many are others.
pub(crate) fn count_of_kind<W: Waiting>(pending: &W, registering: bool) -> usize
    requires { W.is_table pending.now }
    ensures { result ≡ length (of_kind registering (W.requests pending.now)) }
{
    let mut count = 0;
    for place in 0..pending.len() {
        if pending.awaits_at(place).is_of_kind(registering) {
            count += 1;
        }
    }
    count
}

/// Takes the request at this place out, if one is named.
pub(crate) fn take_out_of<W: Waiting>(pending: &mut W, place: Option<usize>)
    requires table { W.is_table pending.old }
    requires within { IfSome place (λ i. i < length (W.requests pending.old)) }
    ensures table { W.is_table pending.new }
    ensures room { W.room pending.new ≡ W.room pending.old }
    ensures lies { W.lies pending.new ≡ W.lies pending.old }
    ensures requests { W.requests pending.new ≡ without_place place (W.requests pending.old) }
{
    if let Some(place) = place {
        pending.take_out(place);
    }
}

/// Stops waiting for the response to the request with this token. Returns whether the token was pending.
pub fn forget_in<W: Waiting>(pending: &mut W, token: &[u8]) -> bool
    requires { W.is_table pending.old }
    ensures answered { (n : ℕ) (c : ClientParts) (h : History) → PartsAgree (record c { pending = W.requests pending.old }) h
        → ClientAnswer n h (Forget token.now) (Forgot result) }
    ensures follows { (c : ClientParts) (h : History) → PartsAgree (record c { pending = W.requests pending.old }) h
        → PartsAgree (record c { pending = W.requests pending.new }) (Then h (Forget token.now) (Forgot result)) }
    ensures table { W.is_table pending.new }
    ensures room { W.room pending.new ≡ W.room pending.old }
    ensures lies { W.lies pending.new ≡ W.lies pending.old }
    ensures apart { TokensDiffer (W.requests pending.old) → TokensDiffer (W.requests pending.new) }
{
    match pending.find(token) {
        Some(found) => {
            pending.take_out(found.place);
            true
        }
        None => false,
    }
}
