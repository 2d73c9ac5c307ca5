//! The server: its contexts, and its clock.

ghost use Rattle.std.specs.Prelude.{◌≡◌, ◌<◌, Err, true, false, IfOk, IfSome, OnErr};
ghost use Rattle.osc_context.specs.Views.{as_server};

use crate::add_refusal::AddRefusal;
use crate::table::{find_same, has_sender_at, is_open_at, next_at};
use arrayvec::ArrayVec;
use osc_context::Context;
use osc_life::siblings::Slot;
use osc_life::{AddError, Start};
use osc_protect::KeyedContext;
use osc_window::WindowSize;

/// A server with room for N contexts. It has no socket, no clock and no random source: you pass in datagrams, timestamps in milliseconds and
/// fresh values.
#[derive(Drop)]
pub struct ServerOf<const N: usize> {
    pub(crate) clock: u64,
    pub(crate) slots: ArrayVec<Option<Slot>, N>,
}

/// A server with room for eight contexts.
pub type Server = ServerOf<8>;

impl<const N: usize> ServerOf<N> {
    ghost use Rattle.osc_endpoint.specs.Agrees.{Agrees};
    ghost use Rattle.osc_endpoint.specs.Senders.{IsSameSender};
    ghost use Rattle.osc_endpoint.specs.ServerAnswer.{HasSameSender, IsTaken, ServerAnswer};
    ghost use Rattle.osc_life.specs.ServerHistory.{History, Begin, Then, Add, Advance, Advanced, added, life};
    ghost use Rattle.std.specs.Option.{option_map};
    ghost use Rattle.osc_life.specs.Life.{is_open_life, next_own};
    ghost use Rattle.osc_endpoint.specs.Views.{added_entry, entry_of_add};
    ghost use Rattle.osc_endpoint.specs.declared.add_refusal.AddRefusal.TheVariants.{SameSender};

    /// Makes a server with no context.
    #[must_use]
    pub fn new() -> ServerOf<N>
        ensures { Agrees result Begin }
    {
        ServerOf {
            clock: 0,
            slots: ArrayVec::new(),
        }
    }

    /// Adds a context, and returns its index. Returns the first refusal in the order of `AddError`. A refusal drops the context and changes
    /// nothing. You must not add two contexts with the same Sender Key (RFC 8613, 3.3), and this call doesn't look: `add_distinct` does.
    pub fn add(
        &mut self,
        context: Context,
        start: Start,
        size: WindowSize,
    ) -> Result<usize, AddError>
        ensures answered { (h : History) → Agrees self.old h
            → ServerAnswer h (Add (as_server context) start size N) (added_entry result) }
        ensures follows { (h : History) → Agrees self.old h
            → Agrees self.new (Then h (Add (as_server context) start size N) (added_entry result)) }
        ensures unchanged { OnErr result (self.new ≡ self.old) }
    {
        // For the proof alone.
        let (_sender, _recipient) = (context.sender().bytes(), context.recipient().bytes());
        if self.slots.is_full() {
            return Err(AddError::Full);
        }
        if find_same(self.slots.as_slice(), &context).is_some() {
            return Err(AddError::SameLookup);
        }
        let index = self.slots.len();
        let context = KeyedContext::new(context);
        self.slots.push(Some(Slot::begin(context, start, size)));
        Ok(index)
    }

    /// Returns whether `add` would add a context.
    fn would_add(&self, context: &Context) -> bool
        ensures yes { result ≡ true → (h : History) → Agrees self.now h → (added h < N) × (IsTaken h (as_server context.now) → ⊥) }
        ensures no { result ≡ false → (h : History) → Agrees self.now h → added h < N → (IsTaken h (as_server context.now) → ⊥) → ⊥ }
    {
        !self.slots.is_full() && find_same(self.slots.as_slice(), context).is_none()
    }

    /// Adds a context as `add` does, but none that has the Sender Key of a context that is there. Each of the two would count its own Sender
    /// Sequence Numbers, so their texts could share key and nonce, and then neither text is protected any more (RFC 8613, 3.3, 5.2 and
    /// D.4). The keys alone are compared. Returns the first refusal in the order of `AddRefusal`. A refusal drops the context and changes
    /// nothing.
    pub fn add_distinct(
        &mut self,
        context: Context,
        start: Start,
        size: WindowSize,
    ) -> Result<usize, AddRefusal>
        ensures answered { IfSome (entry_of_add result) (λ entry. (h : History) → Agrees self.old h
            → ServerAnswer h (Add (as_server context) start size N) entry × Agrees self.new (Then h (Add (as_server context) start size N) entry)) }
        ensures distinct { IfOk result (λ index. (h : History) → Agrees self.old h → HasSameSender h (as_server context) → ⊥) }
        ensures same_sender { result ≡ Err SameSender → (h : History) → Agrees self.old h → IsSameSender h (as_server context) N }
        ensures unchanged { OnErr result (self.new ≡ self.old) }
    {
        let shares = has_sender_at(self.slots.as_slice(), &context);
        if shares && self.would_add(&context) {
            return Err(AddRefusal::SameSender);
        }
        match self.add(context, start, size) {
            Ok(index) => Ok(index),
            Err(error) => Err(AddRefusal::Refused(error)),
        }
    }

    /// Returns whether the context at an index checks requests by their number. It does if it was added fresh or above a number and never
    /// restarted, or if it delivered a request in its present life. Returns false if no context has the index.
    #[must_use]
    pub fn is_open(&self, context: usize) -> bool
        ensures { (h : History) → Agrees self.now h → result ≡ is_open_life (life h context) }
    {
        is_open_at(self.slots.as_slice(), context)
    }

    /// Returns the Sender Sequence Number with which the context at an index seals next, or 2^40 if none is left. Returns None if no context
    /// has the index.
    #[must_use]
    pub fn next(&self, context: usize) -> Option<u64>
        ensures { (h : History) → Agrees self.now h → result ≡ option_map next_own (life h context) }
    {
        next_at(self.slots.as_slice(), context)
    }

    /// Moves the clock to `now`, in milliseconds, if that is later.
    pub fn advance(&mut self, now: u64)
        ensures { (h : History) → Agrees self.old h → Agrees self.new (Then h (Advance now) Advanced) }
    {
        self.clock = self.clock.max(now);
    }
}
