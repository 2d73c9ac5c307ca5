//! The client: one context, and the requests that wait for their responses.

ghost use Rattle.std.specs.Prelude.{◌≡◌, ◌≤◌, ◌^◌, ◌↔◌, IsErr, IsOk, IsTrue, OnErr};
ghost use Rattle.osc_context.specs.Views.{as_client, number_of};

use crate::apart::Apart;
use crate::client_outcome::{SameSender, TooFewLeft};
use crate::client_state::ClientState;
use crate::pending::Pending;
use crate::waiting::forget_in;
use arrayvec::ArrayVec;
use osc_context::{Context, Piv};

/// A client of one context, with room for N pending requests. It has no socket and no clock: you pass in datagrams and timestamps in
/// milliseconds.
#[derive(Drop)]
pub struct Client<const N: usize> {
    pub(crate) state: ClientState,
    pub(crate) pending: ArrayVec<Pending, N>,
}

impl<const N: usize> Client<N> {
    ghost use Rattle.osc_client.specs.Agrees.{ClientAgrees, HasTokensApart, client_parts};
    ghost use Rattle.osc_client.specs.ClientAnswer.{ClientAnswer};
    ghost use Rattle.osc_client.specs.ClientHistory.{History, New, Then, Advance, Advanced, Forget, Forgot, HaveSameKey, IsSetApart, Restart, Restarted, SetApart, Skip, context as context_in, next, replaced};
    ghost use Rattle.osc_client.specs.Views.{apart_among, skipped_entry};

    /// Makes a client with nothing pending. Its requests are pending for `life_ms` milliseconds and no longer, except a registration that
    /// was notified.
    #[must_use]
    pub fn new(context: Context, next: Piv, life_ms: u64) -> Client<N>
        ensures { ClientAgrees result (New (as_client context) (number_of next) life_ms) }
    {
        Client {
            state: ClientState::new(context, next, life_ms),
            pending: ArrayVec::new(),
        }
    }

    /// Drops every pending request, and continues with `next` as the next Sender Sequence Number. The clock doesn't change.
    pub fn restart(&mut self, next: Piv)
        ensures { (h : History) → ClientAgrees self.old h → ClientAgrees self.new (Then h (Restart (number_of next)) Restarted) }
    {
        self.state.next = next.number();
        self.pending.clear();
    }

    /// Puts another context in the place of the client's, as when both ends have made new keys. Drops every pending request, and goes on with
    /// `next` as the next Sender Sequence Number of that context. The clock doesn't change. A refusal drops the context and changes nothing.
    /// It looks at the present context alone: you must not bring back one that the client had before (RFC 8613, 3.3).
    pub fn replace(&mut self, context: Context, next: Piv) -> Result<(), SameSender>
        ensures replaced { IsOk result → (h : History) → ClientAgrees self.old h → ClientAgrees self.new (replaced (as_client context) (number_of next) h) }
        ensures same_sender { (h : History) → ClientAgrees self.old h → IsErr result ↔ HaveSameKey (context_in h) (as_client context) }
        ensures apart { HasTokensApart self.old → HasTokensApart self.new }
        ensures unchanged { OnErr result (self.new ≡ self.old) }
    {
        if self.has_sender_of(&context) {
            return Err(SameSender);
        }
        self.replace_checked(context, next);
        Ok(())
    }

    /// Returns whether the client's context has the Sender Key of this one.
    #[must_use]
    pub fn has_sender_of(&self, context: &Context) -> bool
        ensures { (h : History) → ClientAgrees self.now h → IsTrue result ↔ HaveSameKey (context_in h) (as_client context.now) }
    {
        self.state.has_sender_of(context)
    }

    /// Puts a context in the place of the client's, whose Sender Key `has_sender_of` found to be another one.
    #[doc(hidden)]
    pub fn replace_checked(&mut self, context: Context, next: Piv)
        ensures replaced { (h : History) → ClientAgrees self.old h → ClientAgrees self.new (replaced (as_client context) (number_of next) h) }
        ensures apart { HasTokensApart self.old → HasTokensApart self.new }
    {
        self.state.replace(context, next);
        self.pending = ArrayVec::new();
    }

    /// Returns the Sender Sequence Number of the next request, or 2^40 if none is left.
    #[must_use]
    pub fn next(&self) -> u64
        ensures number { (h : History) → ClientAgrees self.now h → result ≡ next h }
        ensures value { result ≡ (client_parts self.now).next }
        ensures most { result ≤ 2 ^ 40 }
    {
        self.state.next()
    }

    /// Passes over the next `count` Sender Sequence Numbers: another end of the same Sender Key has used them, as a server that shares
    /// the context, and this client never will (RFC 8613, 3.1 and 7.2.1). A refusal changes nothing.
    pub fn skip(&mut self, count: u64) -> Result<(), TooFewLeft>
        ensures answered { (h : History) → ClientAgrees self.old h → ClientAnswer N h (Skip count) (skipped_entry result) }
        ensures follows { (h : History) → ClientAgrees self.old h → ClientAgrees self.new (Then h (Skip count) (skipped_entry result)) }
        ensures apart { HasTokensApart self.old → HasTokensApart self.new }
        ensures unchanged { OnErr result (self.new ≡ self.old) }
    {
        self.state.skip(count)
    }

    /// Gives registrations places of their own: so many of the N places are for registrations alone from now on, and the others for other
    /// requests alone, so that no number of observations refuses the next request. `None` lets both share all places again, as a new client
    /// does. What is pending stays, also where more of a kind are pending than it has places. A request to which a registration gives way
    /// needs no further place.
    pub fn set_apart(&mut self, registrations: Option<usize>)
        ensures follows { (h : History) → ClientAgrees self.old h → ClientAgrees self.new (Then h (SetApart (apart_among N registrations)) IsSetApart) }
        ensures apart { HasTokensApart self.old → HasTokensApart self.new }
    {
        self.state.set_apart(Apart::among(N, registrations));
    }

    /// Moves the clock to `now`, in milliseconds, if that is later. Drops the requests whose time has passed.
    pub fn advance(&mut self, now: u64)
        ensures follows { (h : History) → ClientAgrees self.old h → ClientAgrees self.new (Then h (Advance now) Advanced) }
        ensures apart { HasTokensApart self.old → HasTokensApart self.new }
    {
        self.state.advance(&mut self.pending, now);
    }

    /// Stops waiting for the response to the request with this token. Returns whether the token was pending.
    pub fn forget(&mut self, token: &[u8]) -> bool
        ensures answered { (h : History) → ClientAgrees self.old h → ClientAnswer N h (Forget token.now) (Forgot result) }
        ensures follows { (h : History) → ClientAgrees self.old h → ClientAgrees self.new (Then h (Forget token.now) (Forgot result)) }
        ensures apart { HasTokensApart self.old → HasTokensApart self.new }
    {
        forget_in(&mut self.pending, token)
    }
}
