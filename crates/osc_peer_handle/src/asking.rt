//! What a peer in bytes asks: requests of its own, and what comes back (RFC 8613, 8.1 and 8.4).

ghost use Rattle.std.specs.Prelude.{◌≡◌, ◌≢◌, ◌≤◌, ℕ, Err, IfErr, IfOk, IfSome, IsNone, IsSome, None, OnErr, Some, true, length, drop};
ghost use Rattle.osc_coap.specs.Views.{parts_of};
ghost use Rattle.osc_context.specs.Reserving.{next_limit};
ghost use Rattle.osc_client.specs.Agrees.{TokensDiffer};
ghost use Rattle.osc_client.specs.ClientDeciding.{CanShow};
ghost use Rattle.osc_client.specs.ClientHistory as asked;
ghost use Rattle.osc_kept_ends.specs.Numbering.{Own};
ghost use Rattle.osc_handle.specs.PendingBytes.{entry_of_kept_request};
ghost use Rattle.osc_handle.specs.declared.kept_refusal.KeptRequestRefusal.TheVariants as refusals;
ghost use Rattle.osc_client.specs.declared.client_outcome.RequestError.TheVariants.{KeeperFailed};
ghost use Rattle.osc_peer_handle.specs.PeerBytes.{AsksBehind, DecidesAsking, HasToSave, IsPeer, IsSamePeer, StepsAsking, TakesAsking, next_in};

use crate::left::Left;
use crate::peer_handle::PeerHandle;
use osc_client::siblings::{Waiting, forget_in};
use osc_coap::Message;
use osc_endpoint::{ClientDecision, ClientOutcome};
use osc_handle::KeptRequestRefusal;

impl PeerHandle {
    /// Seals a request with the next number, writes it to the front of `out`, and returns how many bytes it wrote. Its token is pending in this
    /// table from then on. If a number has to be saved first, it returns that number, and nothing changes, not even the clock. After a refusal by
    /// a `Client`, only the clock has moved.
    pub fn request<W: Waiting>(
        &mut self,
        pending: &mut W,
        now: u64,
        plain: &Message<'_>,
        out: &mut [u8],
    ) -> Result<usize, KeptRequestRefusal>
        requires { W.is_table pending.old }
        ensures answered { (a : asked.History) (old : Own) → AsksBehind self.old (W.requests pending.old) (W.room pending.old) old a
            → IfSome (entry_of_kept_request result out.new) (λ entry.
            StepsAsking self.old (W.room pending.old) a (asked.Request now (parts_of plain.now) (length out.old)) entry old self.new (W.requests pending.new)) }
        ensures refused { (number : ℕ) → result ≡ Err (refusals.SaveFirst number)
            → (number ≡ next_limit self.old.server.reserved) × HasToSave true (next_in self.old) self.old }
        ensures refuses { IsPeer self.old → HasToSave true (next_in self.old) self.old → result ≡ Err (refusals.SaveFirst (next_limit self.old.server.reserved)) }
        ensures bad { result ≡ Err refusals.BadHandle → IsPeer self.old → ⊥ }
        ensures accepted { result ≢ Err refusals.BadHandle → IsPeer self.old }
        ensures stays { IsSamePeer self.old self.new }
        ensures same { entry_of_kept_request result out.new ≡ None → (self.new ≡ self.old) × (pending.new ≡ pending.old) }
        ensures within { IfOk result (λ n. n ≤ length out.new) }
        ensures behind { IfOk result (λ n. drop n out.new ≡ drop n out.old) }
        ensures unchanged { OnErr result (out.new ≡ out.old) }
        ensures no_keeper_failed { result ≢ Err (refusals.Refused KeeperFailed) }
        ensures table { W.is_table pending.new }
        ensures room { W.room pending.new ≡ W.room pending.old }
        ensures lies { W.lies pending.new ≡ W.lies pending.old }
        ensures apart { TokensDiffer (W.requests pending.old) → TokensDiffer (W.requests pending.new) }
    {
        if !self.is_whole() {
            return Err(KeptRequestRefusal::BadHandle);
        }
        if let Some(number) = self.save_first(true) {
            return Err(KeptRequestRefusal::SaveFirst(number));
        }
        let mut state = self.asking();
        let sent = state.send(pending, now, plain, out);
        self.clock = state.clock();
        self.server.server.slot.next = state.next();
        match sent {
            Ok((_, len)) => Ok(len),
            Err(error) => Err(KeptRequestRefusal::Refused(error)),
        }
    }

    /// Decides the answer to a datagram that may be a response to a request of this table; this is the first half of `hear`. Needs no number.
    /// Returns `None` if the bytes can't have been written by a call.
    pub fn decide_response<W: Waiting>(
        &mut self,
        pending: &mut W,
        now: u64,
        datagram: &mut [u8],
    ) -> Option<ClientDecision>
        requires { W.is_table pending.old }
        ensures answered { IfSome result (λ decision. (a : asked.History) (old : Own) → AsksBehind self.old (W.requests pending.old) (W.room pending.old) old a
            → DecidesAsking self.old (W.room pending.old) a now datagram.old decision datagram.new old self.new (W.requests pending.new)) }
        ensures accepts { IsPeer self.old → IsSome result }
        ensures accepted { IsSome result → IsPeer self.old }
        ensures stays { IsSamePeer self.old self.new }
        ensures shown { IfSome result (λ decision. CanShow decision datagram.new) }
        ensures unchanged { IsNone result → (self.new ≡ self.old) × (pending.new ≡ pending.old) × (datagram.new ≡ datagram.old) }
        ensures table { W.is_table pending.new }
        ensures room { W.room pending.new ≡ W.room pending.old }
        ensures lies { W.lies pending.new ≡ W.lies pending.old }
        ensures apart { TokensDiffer (W.requests pending.old) → TokensDiffer (W.requests pending.new) }
    {
        if !self.is_whole() {
            return None;
        }
        let mut state = self.asking();
        let decision = state.decide(pending, now, datagram);
        self.clock = state.clock();
        Some(decision)
    }

    /// Decides, and lends the datagram for reading alone: from there on `hear` can't write to it any more.
    fn decide_response_and_lend<'b, W: Waiting>(
        &mut self,
        pending: &mut W,
        now: u64,
        datagram: &'b mut [u8],
    ) -> Left<'b, Option<ClientDecision>>
        requires { W.is_table pending.old }
        ensures answered { IfSome result.decided (λ decision. (a : asked.History) (old : Own) → AsksBehind self.old (W.requests pending.old) (W.room pending.old) old a
            → DecidesAsking self.old (W.room pending.old) a now datagram.old decision result.datagram.now old self.new (W.requests pending.new)) }
        ensures accepts { IsPeer self.old → IsSome result.decided }
        ensures accepted { IsSome result.decided → IsPeer self.old }
        ensures stays { IsSamePeer self.old self.new }
        ensures shown { IfSome result.decided (λ decision. CanShow decision result.datagram.now) }
        ensures unchanged { IsNone result.decided → (self.new ≡ self.old) × (pending.new ≡ pending.old) }
        ensures table { W.is_table pending.new }
        ensures room { W.room pending.new ≡ W.room pending.old }
        ensures lies { W.lies pending.new ≡ W.lies pending.old }
        ensures apart { TokensDiffer (W.requests pending.old) → TokensDiffer (W.requests pending.new) }
    {
        let decided = self.decide_response(pending, now, datagram);
        Left { decided, datagram }
    }

    /// Takes a datagram that may be a response in place (RFC 8613, 8.4): calls `decide_response`, and returns the decision as an outcome.
    /// Returns `None` if the bytes can't have been written by a call.
    pub fn hear<'b, W: Waiting>(
        &mut self,
        pending: &mut W,
        now: u64,
        datagram: &'b mut [u8],
    ) -> Option<ClientOutcome<'b>>
        requires { W.is_table pending.old }
        ensures answered { IfSome result (λ outcome. (a : asked.History) (old : Own) → AsksBehind self.old (W.requests pending.old) (W.room pending.old) old a
            → TakesAsking self.old (W.room pending.old) a now datagram.old outcome old self.new (W.requests pending.new)) }
        ensures accepts { IsPeer self.old → IsSome result }
        ensures accepted { IsSome result → IsPeer self.old }
        ensures stays { IsSamePeer self.old self.new }
        ensures unchanged { IsNone result → (self.new ≡ self.old) × (pending.new ≡ pending.old) }
        ensures table { W.is_table pending.new }
        ensures room { W.room pending.new ≡ W.room pending.old }
        ensures lies { W.lies pending.new ≡ W.lies pending.old }
        ensures apart { TokensDiffer (W.requests pending.old) → TokensDiffer (W.requests pending.new) }
    {
        let Left { decided, datagram } = self.decide_response_and_lend(pending, now, datagram);
        let Some(decision) = decided else {
            return None;
        };
        Some(decision.outcome(datagram))
    }

    /// Stops waiting for the response to the request of this table with this token. Returns whether the token was pending, or `None` if the
    /// bytes can't have been written by a call. Needs no number.
    pub fn forget<W: Waiting>(&mut self, pending: &mut W, token: &[u8]) -> Option<bool>
        requires { W.is_table pending.old }
        ensures answered { IfSome result (λ was. (a : asked.History) (old : Own) → AsksBehind self.old (W.requests pending.old) (W.room pending.old) old a
            → StepsAsking self.old (W.room pending.old) a (asked.Forget token.now) (asked.Forgot was) old self.new (W.requests pending.new)) }
        ensures accepts { IsPeer self.old → IsSome result }
        ensures accepted { IsSome result → IsPeer self.old }
        ensures stays { self.new ≡ self.old }
        ensures unchanged { IsNone result → pending.new ≡ pending.old }
        ensures table { W.is_table pending.new }
        ensures room { W.room pending.new ≡ W.room pending.old }
        ensures lies { W.lies pending.new ≡ W.lies pending.old }
        ensures apart { TokensDiffer (W.requests pending.old) → TokensDiffer (W.requests pending.new) }
    {
        if !self.is_whole() {
            return None;
        }
        Some(forget_in(pending, token))
    }
}
