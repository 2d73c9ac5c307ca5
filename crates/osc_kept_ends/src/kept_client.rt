//! A client whose Sender Sequence Numbers outlive it (RFC 8613, 7.2.1 and B.1.1).

ghost use Rattle.std.specs.Prelude.{◌≡◌, ◌≢◌, ◌≤◌, ◌+◌, ℕ, Err, IsOk, IfOk, IfErr, IsErrOf, OnErr, length, drop};
ghost use Rattle.osc_coap.specs.Views.{parts_of};
ghost use Rattle.osc_context.specs.Views.{as_client, number_of};
ghost use Rattle.osc_client.specs.ClientDeciding.{CanShow, LeavesBy};
ghost use Rattle.osc_client.specs.ClientHistory.{History, New, Then, Advance, Advanced, Forget, Forgot, HaveSameKey, IsSetApart, Request, Restart, Restarted, SetApart, context as context_in, next, replaced};
ghost use Rattle.osc_client.specs.Requesting.{sent_entry};
ghost use Rattle.osc_client.specs.Views.{apart_among, request_entry};
ghost use Rattle.osc_client.specs.declared.client_outcome.RequestError.TheVariants.{KeeperFailed};
ghost use Rattle.osc_kept_ends.specs.declared.kept_error.KeptError.TheVariants.{LivesExhausted};
ghost use Rattle.osc_kept_ends.specs.KeptAsking.{IsKept, KeptDecides, KeptStep, KeptTakes};
ghost use Rattle.osc_kept_ends.specs.Numbering.{Goes, Load, nothing_drawn, upcoming};
ghost use Rattle.osc_kept_ends.specs.Owning.{own_in};
ghost use Rattle.osc_kept_ends.specs.Refusals.{Loaded, RefusesAt};
ghost use Rattle.osc_kept_ends.specs.Replacing.{RefusesReplacement};
ghost use Rattle.osc_life.specs.declared.server_error.ReplaceError.TheVariants.{SameSender};
ghost use Rattle.osc_kept_ends.specs.Views.{upcoming_of};

use crate::kept_error::{KeptError, lift};
use crate::replace_refusal::ReplaceRefusal;
use crate::source::{Source, keeper_of};
use osc_coap::Message;
use osc_context::{Context, Keeper, Piv};
use osc_endpoint::{Client, ClientDecision, ClientOutcome, ReplaceError, RequestError};
use std::mem;

/// A client, and the keeper of its numbers. It seals only with numbers that it has drawn, and the keeper reserved each of them
/// before. No later life begins at a number below what was saved.
#[derive(Drop)]
pub struct KeptClient<K: Keeper, const N: usize> {
    pub(crate) client: Client<N>,
    pub(crate) source: Source<K>,
    pub ghost kept: { ∥ ((h : History) × IsKept client (upcoming_of source.numbers source.in_hand) h) ∥₁ },
}

impl<K: Keeper, const N: usize> KeptClient<K, N> {
    /// Starts a client of a context at the number that the keeper loads, with nothing pending. Each request is pending for `life_ms`
    /// milliseconds, except a registration that was notified. Returns the first refusal in the order of `KeptError`; a refusal gives the
    /// keeper back and drops the context.
    pub fn start(
        context: Context,
        keeper: K,
        life_ms: u64,
    ) -> Result<KeptClient<K, N>, (KeptError, K)>
        ensures begins { IfOk result (λ s. (loaded : ℕ) × Loaded K.loads K.failures keeper loaded s.source.keeper
            × Goes (Load loaded) (nothing_drawn (K.floor keeper)) (own_in s.source)
            × IsKept s.client (upcoming (own_in s.source)) (New (as_client context) loaded life_ms)) }
        ensures refused { IfErr result (λ e. RefusesAt K.loads K.failures keeper e.0 e.1) }
        ensures floor_stays { IfErr result (λ e. K.floor e.1 ≡ K.floor keeper) }
        ensures no_lives_exhausted { IfErr result (λ e. e.0 ≢ LivesExhausted) }
    {
        match Source::start(keeper) {
            Ok((source, first)) => {
                let client = Client::new(context, first, life_ms);
                Ok(KeptClient { client, source })
            }
            Err((error, keeper)) => Err((lift(error), keeper)),
        }
    }

    /// Drops every pending request and the number in hand, and continues at the number that the keeper loads. Returns the first
    /// refusal in the order of `KeptError`; a refusal changes nothing but the keeper.
    pub fn restart(&mut self) -> Result<(), KeptError>
        ensures begins { IsOk result → (loaded : ℕ) × Loaded K.loads K.failures self.old.source.keeper loaded self.new.source.keeper
            × Goes (Load loaded) (own_in self.old.source) (own_in self.new.source)
            × ((h : History) → IsKept self.old.client (upcoming (own_in self.old.source)) h
            → IsKept self.new.client (upcoming (own_in self.new.source)) (Then h (Restart loaded) Restarted)) }
        ensures refused { IfErr result (λ e. RefusesAt K.loads K.failures self.old.source.keeper e self.new.source.keeper) }
        ensures no_lives_exhausted { result ≢ Err LivesExhausted }
        ensures unchanged { OnErr result ((self.new.client ≡ self.old.client) × (own_in self.new.source ≡ own_in self.old.source)) }
    {
        let (numbers, first) = match self.source.reload() {
            Ok(loaded) => loaded,
            Err(error) => return Err(lift(error)),
        };
        self.client.restart(first);
        self.source.begin(numbers);
        Ok(())
    }

    /// Puts another context in the place of the client's, as when both ends have made new keys, and returns the keeper of the old one. Its
    /// numbers are those of `keeper`, every pending request is dropped, and the clock goes on. Returns the first refusal in the order of
    /// `ReplaceRefusal`, with the keeper that was passed in; a refusal drops the context, and changes nothing but that keeper. You must not
    /// bring back a context that was there before, and no keeper keeps the numbers of two contexts (RFC 8613, 3.3).
    pub fn replace(&mut self, context: Context, keeper: K) -> Result<K, (ReplaceRefusal, K)>
        ensures begins { IsOk result → (loaded : ℕ) × Loaded K.loads K.failures keeper loaded self.new.source.keeper
            × Goes (Load loaded) (nothing_drawn (K.floor keeper)) (own_in self.new.source)
            × ((h : History) → IsKept self.old.client (upcoming (own_in self.old.source)) h → (HaveSameKey (context_in h) (as_client context) → ⊥)
            × IsKept self.new.client (upcoming (own_in self.new.source)) (replaced (as_client context) loaded h)) }
        ensures given { IfOk result (λ old. old ≡ self.old.source.keeper) }
        ensures refused { IfErr result (λ e. RefusesReplacement (λ r. (r ≡ SameSender) × ((h : History) → IsKept self.old.client (upcoming (own_in self.old.source)) h
            → HaveSameKey (context_in h) (as_client context))) K.loads K.failures keeper e.0 e.1) }
        ensures unchanged { OnErr result (self.new ≡ self.old) }
    {
        if self.client.has_sender_of(&context) {
            return Err((ReplaceRefusal::Refused(ReplaceError::SameSender), keeper));
        }
        let (source, first) = match Source::start(keeper) {
            Ok(started) => started,
            Err((error, keeper)) => return Err((ReplaceRefusal::Kept(lift(error)), keeper)),
        };
        self.client.replace_checked(context, first);
        Ok(keeper_of(mem::replace(&mut self.source, source)))
    }

    /// Seals a request as `request` does, and returns the number of the request too.
    #[doc(hidden)]
    pub fn send(
        &mut self,
        now: u64,
        plain: &Message<'_>,
        out: &mut [u8],
    ) -> Result<(Piv, usize), RequestError>
        ensures answered { (IsErrOf result KeeperFailed → ⊥) → (h : History) → IsKept self.old.client (upcoming (own_in self.old.source)) h
            → KeptStep h (Request now (parts_of plain.now) (length out.old)) (sent_entry result out.new)
            (own_in self.old.source) (own_in self.new.source) self.new.client }
        ensures number { IfOk result (λ r. (h : History) → IsKept self.old.client (upcoming (own_in self.old.source)) h → number_of r.0 ≡ next h) }
        ensures failed { IsErrOf result KeeperFailed → (own_in self.new.source ≡ own_in self.old.source)
            × (K.failures self.new.source.keeper ≡ K.failures self.old.source.keeper + 1)
            × ((h : History) → IsKept self.old.client (upcoming (own_in self.old.source)) h
            → IsKept self.new.client (upcoming (own_in self.new.source)) (Then h (Advance now) Advanced)) }
        ensures worked { (IsErrOf result KeeperFailed → ⊥) → K.failures self.new.source.keeper ≡ K.failures self.old.source.keeper }
        ensures within { IfOk result (λ r. r.1 ≤ length out.new) }
        ensures behind { IfOk result (λ r. drop r.1 out.new ≡ drop r.1 out.old) }
        ensures unchanged { OnErr result (out.new ≡ out.old) }
    {
        let Ok(()) = self.source.draw() else {
            self.advance(now);
            return Err(RequestError::KeeperFailed);
        };
        let len = match self.client.request(now, plain, out) {
            Ok(len) => len,
            Err(error) => return Err(error),
        };
        match self.source.spend() {
            Some(number) => Ok((number, len)),
            None => unreachable!(),
        }
    }

    /// Seals a request as `Client::request` does. If no number is in hand, it draws one before anything else. If the keeper fails
    /// then, it returns KeeperFailed, and only the clock moves. After any other refusal the number stays in hand.
    pub fn request(
        &mut self,
        now: u64,
        plain: &Message<'_>,
        out: &mut [u8],
    ) -> Result<usize, RequestError>
        ensures answered { (IsErrOf result KeeperFailed → ⊥) → (h : History) → IsKept self.old.client (upcoming (own_in self.old.source)) h
            → KeptStep h (Request now (parts_of plain.now) (length out.old)) (request_entry result out.new)
            (own_in self.old.source) (own_in self.new.source) self.new.client }
        ensures failed { IsErrOf result KeeperFailed → (own_in self.new.source ≡ own_in self.old.source)
            × (K.failures self.new.source.keeper ≡ K.failures self.old.source.keeper + 1)
            × ((h : History) → IsKept self.old.client (upcoming (own_in self.old.source)) h
            → IsKept self.new.client (upcoming (own_in self.new.source)) (Then h (Advance now) Advanced)) }
        ensures worked { (IsErrOf result KeeperFailed → ⊥) → K.failures self.new.source.keeper ≡ K.failures self.old.source.keeper }
        ensures within { IfOk result (λ n. n ≤ length out.new) }
        ensures behind { IfOk result (λ n. drop n out.new ≡ drop n out.old) }
        ensures unchanged { OnErr result (out.new ≡ out.old) }
    {
        match self.send(now, plain, out) {
            Ok((_, len)) => Ok(len),
            Err(error) => Err(error),
        }
    }

    /// Decides the answer to a datagram, as `Client::decide` does. Draws no number.
    pub fn decide(&mut self, now: u64, datagram: &mut [u8]) -> ClientDecision
        ensures answered { (h : History) → IsKept self.old.client (upcoming (own_in self.old.source)) h
            → KeptDecides h now datagram.old result datagram.new (own_in self.old.source) self.new.client }
        ensures shown { CanShow result datagram.new }
        ensures left { LeavesBy self.old.client result datagram.old datagram.new }
        ensures source { self.new.source ≡ self.old.source }
    {
        self.client.decide(now, datagram)
    }

    /// Takes a datagram in place, as `Client::take` does. Draws no number.
    pub fn take<'b>(&mut self, now: u64, datagram: &'b mut [u8]) -> ClientOutcome<'b>
        ensures answered { (h : History) → IsKept self.old.client (upcoming (own_in self.old.source)) h
            → KeptTakes h now datagram.old result (own_in self.old.source) self.new.client }
        ensures source { self.new.source ≡ self.old.source }
    {
        self.client.take(now, datagram)
    }

    /// Stops waiting for the response to the request with this token. Returns whether the token was pending. Draws no number.
    pub fn forget(&mut self, token: &[u8]) -> bool
        ensures answered { (h : History) → IsKept self.old.client (upcoming (own_in self.old.source)) h
            → KeptStep h (Forget token.now) (Forgot result) (own_in self.old.source) (own_in self.old.source) self.new.client }
        ensures source { self.new.source ≡ self.old.source }
    {
        self.client.forget(token)
    }

    /// Gives registrations places of their own, so many of the N, as `Client::set_apart` does. Draws no number.
    pub fn set_apart(&mut self, registrations: Option<usize>)
        ensures answered { (h : History) → IsKept self.old.client (upcoming (own_in self.old.source)) h
            → KeptStep h (SetApart (apart_among N registrations)) IsSetApart (own_in self.old.source) (own_in self.old.source) self.new.client }
        ensures source { self.new.source ≡ self.old.source }
    {
        self.client.set_apart(registrations);
    }

    /// Moves the clock to `now`, in milliseconds, as `Client::advance` does. Draws no number.
    pub fn advance(&mut self, now: u64)
        ensures advanced { (h : History) → IsKept self.old.client (upcoming (own_in self.old.source)) h
            → KeptStep h (Advance now) Advanced (own_in self.old.source) (own_in self.old.source) self.new.client }
        ensures source { self.new.source ≡ self.old.source }
    {
        self.client.advance(now);
    }

    /// Returns the Sender Sequence Number of the next request, or 2^40 if none is left.
    #[must_use]
    pub fn upcoming(&self) -> u64
        ensures { result ≡ upcoming (own_in self.now.source) }
    {
        self.source.upcoming()
    }

    /// Ends the client, and returns its keeper.
    pub fn into_keeper(self) -> K
        ensures { result ≡ self.source.keeper }
    {
        let KeptClient { source, .. } = self;
        keeper_of(source)
    }
}
