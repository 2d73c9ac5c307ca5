//! A client without its pending requests, which lie elsewhere.

ghost use Rattle.std.specs.Prelude.{◌≡◌, ◌≤◌, ◌^◌, ◌↔◌, IsTrue, OnErr};
ghost use Rattle.osc_context.specs.Views.{as_client, number_of};

use crate::apart::Apart;
use crate::client_outcome::TooFewLeft;
use crate::waiting::Waiting;
use osc_context::{Context, Piv};
use osc_protect::KeyedContext;

/// The first number that can't be a Sender Sequence Number (RFC 8613, 7.2.1).
pub(crate) const OWN_LIMIT: u64 = 1 << 40;

/// All of a client but its pending requests: each call that reads or changes these is passed the table in which they lie.
#[derive(Drop)]
pub struct ClientState {
    pub(crate) context: KeyedContext,
    pub(crate) life_ms: u64,
    pub(crate) clock: u64,
    // The next Sender Sequence Number, or the limit if none is left.
    pub(crate) next: u64,
    pub(crate) apart: Option<Apart>,
    pub ghost in_range: { next ≤ 2 ^ 40 },
}

impl ClientState {
    ghost use Rattle.std.specs.Prelude.{List, [], Option, None};
    ghost use Rattle.osc_client.specs.Agrees.{PartsAgree, TokensDiffer, next_of, parts_over};
    ghost use Rattle.osc_client.specs.ClientAnswer.{SkipAnswer};
    ghost use Rattle.osc_client.specs.ClientHistory.{Asked, HaveSameKey, History, Then, Advance, Advanced, IsSetApart, SetApart, Skip};
    ghost use Rattle.osc_client.specs.Views.{skipped_entry};
    ghost use Rattle.osc_protect.specs.Views.{context_of};

    /// Makes the state of a client whose next request has this number.
    pub(crate) fn new(context: Context, next: Piv, life_ms: u64) -> ClientState
        ensures { parts_over result [] ≡ record { context = as_client context; life_ms = life_ms; clock = 0; next = number_of next; apart = None; pending = [] } }
    {
        ClientState {
            context: KeyedContext::new(context),
            life_ms,
            clock: 0,
            next: next.number(),
            apart: None,
        }
    }

    /// Makes the state that has these values. If no next number is left, `next` is `None`. It keeps no key schedule: each call makes the one
    /// that it needs.
    #[must_use]
    pub fn resumed(context: Context, life_ms: u64, clock: u64, next: Option<Piv>) -> ClientState
        ensures context { context_of result.context ≡ context }
        ensures parts { parts_over result [] ≡ record { context = as_client context; life_ms = life_ms; clock = clock; next = next_of next; apart = None; pending = [] } }
    {
        ClientState {
            context: KeyedContext::for_one_message(context),
            life_ms,
            clock,
            next: match next {
                Some(next) => next.number(),
                None => OWN_LIMIT,
            },
            apart: None,
        }
    }

    /// Returns whether the client's context has the Sender Key of this one.
    pub(crate) fn has_sender_of(&self, context: &Context) -> bool
        ensures { IsTrue result ↔ HaveSameKey (as_client (context_of self.now.context)) (as_client context.now) }
    {
        self.context.context().has_sender_of(context)
    }

    /// Puts another context in the place of the client's, with its next number. The clock and the places go on.
    pub(crate) fn replace(&mut self, context: Context, next: Piv)
        ensures { parts_over self.new [] ≡ record { context = as_client context; life_ms = self.old.life_ms; clock = self.old.clock; next = number_of next; apart = self.old.apart; pending = [] } }
    {
        self.context = KeyedContext::new(context);
        self.next = next.number();
    }

    /// Returns the clock: the greatest timestamp so far, in milliseconds.
    #[must_use]
    pub fn clock(&self) -> u64
        ensures { result ≡ self.now.clock }
    {
        let ClientState { clock, .. } = self;
        *clock
    }

    /// Returns the Sender Sequence Number of the next request, or 2^40 if none is left.
    #[must_use]
    pub fn next(&self) -> u64
        ensures value { result ≡ self.now.next }
        ensures most { result ≤ 2 ^ 40 }
    {
        let ClientState { next, .. } = self;
        *next
    }

    /// Passes over the next `count` Sender Sequence Numbers, as `Client::skip` does.
    pub fn skip(&mut self, count: u64) -> Result<(), TooFewLeft>
        ensures answered { (h : History) (requests : List Asked) → PartsAgree (parts_over self.old requests) h → SkipAnswer h count (skipped_entry result) }
        ensures follows { (h : History) (requests : List Asked) → PartsAgree (parts_over self.old requests) h
            → PartsAgree (parts_over self.new requests) (Then h (Skip count) (skipped_entry result)) }
        ensures unchanged { OnErr result (self.new ≡ self.old) }
    {
        if count > OWN_LIMIT - self.next {
            return Err(TooFewLeft);
        }
        self.next += count;
        Ok(())
    }

    /// Says whether registrations have places of their own, as `Client::set_apart` does.
    pub(crate) fn set_apart(&mut self, places: Option<Apart>)
        ensures { (h : History) (requests : List Asked) → PartsAgree (parts_over self.old requests) h
            → PartsAgree (parts_over self.new requests) (Then h (SetApart places) IsSetApart) }
    {
        self.apart = places;
    }

    /// Moves the clock to `now`, in milliseconds, if that is later. Drops the requests of the table whose time has passed.
    pub fn advance<W: Waiting>(&mut self, pending: &mut W, now: u64)
        requires { W.is_table pending.old }
        ensures follows { (h : History) → PartsAgree (parts_over self.old (W.requests pending.old)) h
            → PartsAgree (parts_over self.new (W.requests pending.new)) (Then h (Advance now) Advanced) }
        ensures table { W.is_table pending.new }
        ensures room { W.room pending.new ≡ W.room pending.old }
        ensures lies { W.lies pending.new ≡ W.lies pending.old }
        ensures apart { TokensDiffer (W.requests pending.old) → TokensDiffer (W.requests pending.new) }
    {
        self.clock = self.clock.max(now);
        pending.drop_expired(self.clock, self.life_ms);
    }
}
