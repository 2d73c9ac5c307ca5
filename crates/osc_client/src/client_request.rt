//! Requests of a client.

ghost use Rattle.std.specs.Prelude.{◌≡◌, ◌≢◌, ◌≤◌, ◌<◌, ◌^◌, ◌||◌, ◌↔◌, ◌⊎◌, ℕ, IfOk, IfErr, IfSome, IsTrue, OnOk, OnErr, false, true, length, drop};
ghost use Rattle.osc_coap.specs.Views.{parts_of};
ghost use Rattle.osc_context.specs.Views.{number_of};
ghost use Rattle.osc_client.specs.Requesting.{IsFirstReason, lifted};
ghost use Rattle.osc_protect.specs.SealRefusals.{IsPlainRequest};
ghost use Rattle.osc_client.specs.declared.client_outcome.RequestError.TheVariants.{KeeperFailed};

use crate::client::Client;
use crate::client_outcome::RequestError;
use crate::client_state::ClientState;
use crate::pending::{Pending, Wait};
use crate::waiting::{Waiting, count_of_kind, take_out_of};
use osc_coap::Message;
use osc_context::{Features, Piv};
use osc_observe::siblings::{cancels, copy_of, registers};
use osc_protect::{ProtectError, check_request};

/// Turns a refusal to seal into the refusal of a request.
fn lift(error: ProtectError) -> RequestError
    ensures value { result ≡ lifted error }
    ensures no_keeper_failed { result ≢ KeeperFailed }
{
    match error {
        ProtectError::NotThatKind => RequestError::NotThatKind,
        ProtectError::Unsupported(number) => RequestError::Unsupported(number),
        ProtectError::TooLong => RequestError::TooLong,
        ProtectError::NoRoom => RequestError::NoRoom,
    }
}

/// Returns why a request isn't sealed for which there is this other reason: what keeps it from being sealed at all comes first.
fn first_reason(plain: &Message<'_>, features: Features, other: RequestError) -> RequestError
    requires { other ≢ KeeperFailed }
    ensures first { IsFirstReason features (parts_of plain.now) other result }
    ensures no_keeper_failed { result ≢ KeeperFailed }
{
    match check_request(plain, features) {
        Ok(()) => other,
        Err(error) => lift(error),
    }
}

impl ClientState {
    ghost use Rattle.osc_client.specs.Agrees.{PartsAgree, TokensDiffer, parts_over};
    ghost use Rattle.osc_client.specs.ClientAnswer.{AreCrowded, CanAsk, ClientAnswer, IsAmong, RequestAnswer};
    ghost use Rattle.osc_client.specs.ClientHistory.{History, Then, Request, NotSent, Advance, Advanced, beside, clock, context, next, wait_of};
    ghost use Rattle.osc_client.specs.declared.client_outcome.RequestError.TheVariants.{TokenInUse};
    ghost use Rattle.osc_observe.specs.Observing.{cancels as cancelling, registers as registering};
    ghost use Rattle.osc_protect.specs.Views.{context_of};
    ghost use Rattle.osc_client.specs.Requesting.{sent_entry, without_place};

    /// Returns whether a registration under this message's token gives way to it: it registers anew, or cancels (RFC 7641, 3.3.1 and 3.6).
    fn takes_over(&self, plain: &Message<'_>) -> bool
        ensures { result ≡ (registering (context_of self.now.context).features (parts_of plain.now).code (parts_of plain.now).options
            || cancelling (context_of self.now.context).features (parts_of plain.now).code (parts_of plain.now).options) }
    {
        let features = self.context.context().features();
        registers(features, plain.code, &plain.options())
            || cancels(features, plain.code, &plain.options())
    }

    /// Returns the place of the registration that gives way to this message, if one does, or that its token is in use.
    fn place_for<W: Waiting>(
        &self,
        pending: &W,
        plain: &Message<'_>,
    ) -> Result<Option<usize>, RequestError>
        requires { W.is_table pending.now }
        ensures accepted { IfOk result (λ place. TokensDiffer (W.requests pending.now)
            → (without_place place (W.requests pending.now) ≡ beside (context_of self.now.context).features (parts_of plain.now) (W.requests pending.now))
            × (IsAmong (parts_of plain.now).token (without_place place (W.requests pending.now)) → ⊥)) }
        ensures refused { IfErr result (λ e. (e ≡ TokenInUse)
            × IsAmong (parts_of plain.now).token (beside (context_of self.now.context).features (parts_of plain.now) (W.requests pending.now))) }
        ensures within { IfOk result (λ place. IfSome place (λ i. i < length (W.requests pending.now))) }
    {
        let Some(found) = pending.find(plain.token.as_slice()) else {
            return Ok(None);
        };
        if found.wait.observes() && self.takes_over(plain) {
            Ok(Some(found.place))
        } else {
            Err(RequestError::TokenInUse)
        }
    }

    /// Returns whether registrations have places of their own, and all places for messages as this one are taken.
    fn is_crowded<W: Waiting>(&self, pending: &W, plain: &Message<'_>) -> bool
        requires { W.is_table pending.now }
        ensures { IsTrue result ↔ AreCrowded self.now.apart (registering (context_of self.now.context).features (parts_of plain.now).code (parts_of plain.now).options)
            (W.requests pending.now) }
    {
        let Some(apart) = self.apart else {
            return false;
        };
        let features = self.context.context().features();
        let registering = registers(features, plain.code, &plain.options());
        count_of_kind(pending, registering) >= apart.places_for(registering)
    }

    /// Returns whether there is no place for this message beside the pending requests.
    fn is_full_for<W: Waiting>(&self, pending: &W, plain: &Message<'_>) -> bool
        requires { W.is_table pending.now }
        ensures yes { result ≡ true → (W.room pending.now ≤ length (W.requests pending.now))
            ⊎ AreCrowded self.now.apart (registering (context_of self.now.context).features (parts_of plain.now).code (parts_of plain.now).options) (W.requests pending.now) }
        ensures no { result ≡ false → (length (W.requests pending.now) < W.room pending.now)
            × (AreCrowded self.now.apart (registering (context_of self.now.context).features (parts_of plain.now).code (parts_of plain.now).options) (W.requests pending.now) → ⊥) }
        ensures fits { length (W.requests pending.now) ≤ W.room pending.now }
    {
        pending.is_full() || self.is_crowded(pending, plain)
    }

    /// Returns the Sender Sequence Number of a request that is sealed now, and the place of the registration that gives way to it, if one
    /// does; or why there is none for a request that can be sealed, whatever the room for it.
    fn number_for<W: Waiting>(
        &self,
        pending: &W,
        plain: &Message<'_>,
    ) -> Result<(Piv, Option<usize>), RequestError>
        requires { W.is_table pending.now }
        ensures accepted { IfOk result (λ r. (h : History) → PartsAgree (parts_over self.now (W.requests pending.now)) h
            → IsPlainRequest (context h).features (parts_of plain.now)
            → CanAsk (W.room pending.now) h (clock h) (parts_of plain.now) × (number_of r.0 ≡ next h)) }
        ensures number { IfOk result (λ r. (h : History) → PartsAgree (parts_over self.now (W.requests pending.now)) h → number_of r.0 ≡ next h) }
        ensures refused { IfErr result (λ e. (h : History) (room : ℕ) → PartsAgree (parts_over self.now (W.requests pending.now)) h
            → IsPlainRequest (context h).features (parts_of plain.now)
            → RequestAnswer (W.room pending.now) h (clock h) (parts_of plain.now) room (NotSent e)) }
        ensures fits { IfOk result (λ r. (length (without_place r.1 (W.requests pending.now)) < W.room pending.now) × (self.now.next < 2 ^ 40)) }
        ensures within { IfOk result (λ r. IfSome r.1 (λ i. i < length (W.requests pending.now))) }
        ensures unused { IfOk result (λ r. TokensDiffer (W.requests pending.now)
            → (without_place r.1 (W.requests pending.now) ≡ beside (context_of self.now.context).features (parts_of plain.now) (W.requests pending.now))
            × (IsAmong (parts_of plain.now).token (without_place r.1 (W.requests pending.now)) → ⊥)) }
        ensures no_keeper_failed { IfErr result (λ e. e ≢ KeeperFailed) }
    {
        let place = self.place_for(pending, plain)?;
        if self.is_full_for(pending, plain) && place.is_none() {
            return Err(RequestError::PendingFull);
        }
        match Piv::new(self.next) {
            Some(number) => Ok((number, place)),
            None => Err(RequestError::SequenceExhausted),
        }
    }

    /// Returns what a request waits for once it is sealed.
    fn wait_for(&self, plain: &Message<'_>) -> Wait
        ensures { result ≡ wait_of (context_of self.now.context).features (parts_of plain.now) }
    {
        let features = self.context.context().features();
        if registers(features, plain.code, &plain.options()) {
            Wait::Observing { from: 0 }
        } else {
            Wait::Once
        }
    }

    /// Seals a request whose token is pending in this table from then on, as `Client::request` does, and returns its number too.
    pub fn send<W: Waiting>(
        &mut self,
        pending: &mut W,
        now: u64,
        plain: &Message<'_>,
        out: &mut [u8],
    ) -> Result<(Piv, usize), RequestError>
        requires { W.is_table pending.old }
        ensures answered { (h : History) → PartsAgree (parts_over self.old (W.requests pending.old)) h
            → ClientAnswer (W.room pending.old) h (Request now (parts_of plain.now) (length out.old)) (sent_entry result out.new) }
        ensures follows { (h : History) → PartsAgree (parts_over self.old (W.requests pending.old)) h
            → PartsAgree (parts_over self.new (W.requests pending.new)) (Then h (Request now (parts_of plain.now) (length out.old)) (sent_entry result out.new)) }
        ensures number { IfOk result (λ r. (h : History) → PartsAgree (parts_over self.old (W.requests pending.old)) h → number_of r.0 ≡ next h) }
        ensures within { IfOk result (λ r. r.1 ≤ length out.new) }
        ensures behind { IfOk result (λ r. drop r.1 out.new ≡ drop r.1 out.old) }
        ensures unchanged { OnErr result ((out.new ≡ out.old)
            × ((h : History) → PartsAgree (parts_over self.old (W.requests pending.old)) h
            → PartsAgree (parts_over self.new (W.requests pending.new)) (Then h (Advance now) Advanced))) }
        ensures no_keeper_failed { IfErr result (λ e. e ≢ KeeperFailed) }
        ensures table { W.is_table pending.new }
        ensures room { W.room pending.new ≡ W.room pending.old }
        ensures lies { W.lies pending.new ≡ W.lies pending.old }
        ensures apart { TokensDiffer (W.requests pending.old) → TokensDiffer (W.requests pending.new) }
    {
        self.advance(pending, now);
        let (number, place) = match self.number_for(pending, plain) {
            Ok(numbered) => numbered,
            Err(other) => {
                let features = self.context.context().features();
                let reason = first_reason(plain, features, other);
                return Err(reason);
            }
        };
        match self.context.seal_request(number, plain, out) {
            Ok(len) => {
                let wait = self.wait_for(plain);
                self.next += 1;
                take_out_of(pending, place);
                pending.push(Pending {
                    token: copy_of(&plain.token),
                    number,
                    moment: self.clock,
                    wait,
                });
                Ok((number, len))
            }
            Err(error) => Err(lift(error)),
        }
    }
}

impl<const N: usize> Client<N> {
    ghost use Rattle.osc_client.specs.Agrees.{ClientAgrees, HasTokensApart};
    ghost use Rattle.osc_client.specs.ClientAnswer.{ClientAnswer};
    ghost use Rattle.osc_client.specs.ClientHistory.{History, Then, Request, Advance, Advanced, next};
    ghost use Rattle.osc_client.specs.Requesting.{sent_entry};
    ghost use Rattle.osc_client.specs.Views.{request_entry};

    /// Does what `request` does, and returns the number of the request too.
    #[doc(hidden)]
    pub fn send(
        &mut self,
        now: u64,
        plain: &Message<'_>,
        out: &mut [u8],
    ) -> Result<(Piv, usize), RequestError>
        ensures answered { (h : History) → ClientAgrees self.old h
            → ClientAnswer N h (Request now (parts_of plain.now) (length out.old)) (sent_entry result out.new) }
        ensures follows { (h : History) → ClientAgrees self.old h
            → ClientAgrees self.new (Then h (Request now (parts_of plain.now) (length out.old)) (sent_entry result out.new)) }
        ensures number { IfOk result (λ r. (h : History) → ClientAgrees self.old h → number_of r.0 ≡ next h) }
        ensures within { IfOk result (λ r. r.1 ≤ length out.new) }
        ensures behind { IfOk result (λ r. drop r.1 out.new ≡ drop r.1 out.old) }
        ensures unchanged { OnErr result ((out.new ≡ out.old)
            × ((h : History) → ClientAgrees self.old h → ClientAgrees self.new (Then h (Advance now) Advanced))) }
        ensures no_keeper_failed { IfErr result (λ e. e ≢ KeeperFailed) }
        ensures apart { HasTokensApart self.old → HasTokensApart self.new }
    {
        self.state.send(&mut self.pending, now, plain, out)
    }

    /// Seals a request with the next Sender Sequence Number into `out`, and returns how many bytes it takes at the front of `out` (RFC
    /// 8613, 8.1). The request's token is pending from then on, of a registration over all its notifications. A registration under the same
    /// token gives way to a GET or FETCH with Observe 0 or 1, which registers anew or cancels: from then on nothing is heard for it (RFC
    /// 7641, 3.3.1 and 3.6). Returns the first refusal in the order of `RequestError`. A refusal leaves `out` unchanged, and changes the client only as `advance` does.
    pub fn request(
        &mut self,
        now: u64,
        plain: &Message<'_>,
        out: &mut [u8],
    ) -> Result<usize, RequestError>
        ensures answered { (h : History) → ClientAgrees self.old h
            → ClientAnswer N h (Request now (parts_of plain.now) (length out.old)) (request_entry result out.new) }
        ensures follows { (h : History) → ClientAgrees self.old h
            → ClientAgrees self.new (Then h (Request now (parts_of plain.now) (length out.old)) (request_entry result out.new)) }
        ensures within { IfOk result (λ n. n ≤ length out.new) }
        ensures behind { IfOk result (λ n. drop n out.new ≡ drop n out.old) }
        ensures unchanged { OnErr result ((out.new ≡ out.old)
            × ((h : History) → ClientAgrees self.old h → ClientAgrees self.new (Then h (Advance now) Advanced))) }
        ensures no_keeper_failed { IfErr result (λ e. e ≢ KeeperFailed) }
        ensures apart { HasTokensApart self.old → HasTokensApart self.new }
    {
        match self.send(now, plain, out) {
            Ok((_, len)) => Ok(len),
            Err(error) => Err(error),
        }
    }
}
