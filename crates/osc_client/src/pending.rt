//! The requests of a client that wait for their responses, as a table.

ghost use Rattle.std.specs.Prelude.{◌≡◌, ◌<◌, IfSome, IfNone, length, map};
ghost use Rattle.osc_context.specs.Views.{number_of};
ghost use Rattle.osc_client.specs.ClientAnswer.{IsAmong};
ghost use Rattle.osc_client.specs.ClientDeciding.{IsFoundIn};
ghost use Rattle.osc_client.specs.ClientHistory.{alive, first_place, is_alive as alive_still};
ghost use Rattle.osc_client.specs.Views.{asked_of};

use arrayvec::ArrayVec;
use osc_coap::Token;
use osc_context::Piv;
use osc_observe::siblings::place_of;
use osc_protect::RequestRef;

/// What a request waits for.
#[derive(Clone, Copy, Debug, PartialEq, Eq)]
pub enum Wait {
    /// One response.
    Once,
    /// The responses to a registration, from a place among them on: place 0 has the response without a Partial IV of its own, and
    /// each other response has its own Partial IV plus 1.
    Observing { from: u64 },
}

impl Wait {
    ghost use Rattle.osc_client.specs.ClientAnswer.{is_of_kind};
    ghost use Rattle.osc_client.specs.ClientHistory.{first_place as first, observes as observing};

    /// Returns whether notifications answer the request.
    pub(crate) fn observes(self) -> bool
        ensures { result ≡ observing self }
    {
        match self {
            Wait::Once => false,
            Wait::Observing { .. } => true,
        }
    }

    /// Returns whether notifications answer the request, or the other way round.
    pub(crate) fn is_of_kind(self, registering: bool) -> bool
        ensures { result ≡ is_of_kind registering self }
    {
        if registering {
            self.observes()
        } else {
            !self.observes()
        }
    }

    /// Returns the first place at which a response isn't old: 0 if no response is.
    pub fn first_place(self) -> u64
        ensures { result ≡ first self }
    {
        match self {
            Wait::Once => 0,
            Wait::Observing { from } => from,
        }
    }
}

/// A request that waits for its response.
#[derive(Drop)]
pub struct Pending {
    pub token: Token,
    pub number: Piv,
    /// The clock when the request was sealed, in milliseconds.
    pub moment: u64,
    pub wait: Wait,
}

impl Pending {
    /// Returns whether the request is still pending at this time: it is at most `life_ms` milliseconds old, or it is a registration that
    /// was notified.
    fn is_alive(&self, clock: u64, life_ms: u64) -> bool
        ensures { result ≡ alive_still clock life_ms (asked_of self.now) }
    {
        self.wait.first_place() > 0 || clock.saturating_sub(self.moment) <= life_ms
    }
}

// What stands in a place of the table that has no request.
impl Default for Pending {
    fn default() -> Pending {
        let Some(number) = Piv::new(0) else {
            unreachable!()
        };
        Pending {
            token: Token::new(),
            number,
            moment: 0,
            wait: Wait::Once,
        }
    }
}

/// A pending request that was found: its place in the table, its number, and what it waits for.
#[derive(Clone, Copy)]
pub struct Found {
    pub place: usize,
    pub number: Piv,
    pub wait: Wait,
}

impl Found {
    ghost use Rattle.osc_client.specs.ClientHistory.{observes};
    ghost use Rattle.osc_client.specs.ClientAnswer.{IsPassed, MayAwait};
    ghost use Rattle.std.specs.Option.{option_map};
    ghost use Rattle.std.specs.Prelude.{◌≤◌, true, false};
    ghost use Rattle.osc_protect.specs.Views.{registers, request_number};

    /// Returns whether a response with this Partial IV is old: the request waits for later ones (RFC 8613, 7.4.1). Of one with none, what is
    /// inside tells.
    pub(crate) fn is_passed(&self, own: Option<Piv>) -> bool
        ensures yes { result ≡ true → IsPassed self.now.wait (option_map number_of own) }
        ensures no { result ≡ false → MayAwait self.now.wait (option_map number_of own) }
    {
        match own {
            Some(own) => place_of(Some(own)) < self.wait.first_place(),
            None => false,
        }
    }

    /// Names the request for opening a response to it.
    pub(crate) fn request(&self) -> RequestRef
        ensures number { request_number result ≡ number_of self.now.number }
        ensures registers { registers result ≡ observes self.now.wait }
    {
        if self.wait.observes() {
            RequestRef::registering(self.number)
        } else {
            RequestRef::new(self.number)
        }
    }
}

/// Finds the request with this token.
pub(crate) fn find_request(pending: &[Pending], token: &[u8]) -> Option<Found>
    ensures found { IfSome result (λ f. IsFoundIn (map asked_of pending.now) token.now f) }
    ensures within { IfSome result (λ f. f.place < length pending.now) }
    ensures none { IfNone result (IsAmong token.now (map asked_of pending.now) → ⊥) }
{
    for place in 0..pending.len() {
        let request = &pending[place];
        if request.token.as_slice() == token {
            let (number, wait) = (request.number, request.wait);
            return Some(Found {
                place,
                number,
                wait,
            });
        }
    }
    None
}

/// Drops the requests that are older than `life_ms` milliseconds, except registrations that were notified. If there is none, nothing is
/// moved.
pub(crate) fn drop_expired<const N: usize>(
    pending: &mut ArrayVec<Pending, N>,
    clock: u64,
    life_ms: u64,
)
    ensures { map asked_of pending.new.items ≡ alive clock life_ms (map asked_of pending.old.items) }
{
    let mut requests = pending.iter();
    if requests.any(|request| !request.is_alive(clock, life_ms)) {
        pending.retain(|request| request.is_alive(clock, life_ms));
    }
}
