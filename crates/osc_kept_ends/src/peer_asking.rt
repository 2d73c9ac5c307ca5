//! What a peer asks: requests of its own, and what comes back (RFC 8613, 8.1 and 8.4).

ghost use Rattle.std.specs.Prelude.{◌≡◌, ◌≢◌, ◌≤◌, ◌+◌, IfErr, IfOk, OnErr, length, drop};
ghost use Rattle.osc_coap.specs.Views.{parts_of};
ghost use Rattle.osc_client.specs.Agrees.{ClientAgrees};
ghost use Rattle.osc_client.specs.ClientAnswer.{ClientAnswer};
ghost use Rattle.osc_client.specs.ClientDeciding.{CanShow, ClientDecidesTo, ClientTakes, LeavesBy};
ghost use Rattle.osc_client.specs.ClientHistory as asked;
ghost use Rattle.osc_client.specs.Views.{apart_among, request_entry};
ghost use Rattle.osc_client.specs.declared.client_outcome.RequestError.TheVariants.{KeeperFailed};
ghost use Rattle.osc_kept_ends.specs.Numbering.{upcoming};
ghost use Rattle.osc_kept_ends.specs.PeerOwning.{ahead_in, own_in, received_in};
ghost use Rattle.osc_kept_ends.specs.Peering.{AskStep, ClientIsBehind};

use crate::kept_peer::{KeptPeer, pass_at_client};
use osc_coap::Message;
use osc_context::RecordKeeper;
use osc_endpoint::{ClientDecision, ClientOutcome, RequestError};

impl<R: RecordKeeper, const N: usize> KeptPeer<R, N> {
    /// Seals a request as `Client::request` does. If no number is in hand, it draws one before anything else. If the record fails then, it
    /// returns KeeperFailed, and only the clock of this role moves. After any other refusal the number stays in hand.
    pub fn request(
        &mut self,
        now: u64,
        plain: &Message<'_>,
        out: &mut [u8],
    ) -> Result<usize, RequestError>
        ensures answered { IfErr result (λ e. e ≢ KeeperFailed) → (k : asked.History) → ClientIsBehind self.old.client (upcoming (own_in self.old.source)) k
            → AskStep k (asked.Request now (parts_of plain.now) (length out.old)) (request_entry result out.new)
            (own_in self.old.source) (own_in self.new.source) self.new.client }
        ensures failed { IfErr result (λ e. e ≡ KeeperFailed → (own_in self.new.source ≡ own_in self.old.source)
            × ((k : asked.History) → ClientIsBehind self.old.client (upcoming (own_in self.old.source)) k
            → ClientIsBehind self.new.client (upcoming (own_in self.new.source)) (asked.Then k (asked.Advance now) asked.Advanced))
            × (R.failures self.new.source.keeper ≡ R.failures self.old.source.keeper + 1)) }
        ensures worked { IfErr result (λ e. e ≢ KeeperFailed) → R.failures self.new.source.keeper ≡ R.failures self.old.source.keeper }
        ensures received { (received_in self.new.source ≡ received_in self.old.source) × (ahead_in self.new.source ≡ ahead_in self.old.source) }
        ensures rises { R.received_floor self.old.source.keeper ≤ R.received_floor self.new.source.keeper }
        ensures server { self.new.server ≡ self.old.server }
        ensures within { IfOk result (λ n. n ≤ length out.new) }
        ensures behind { IfOk result (λ n. drop n out.new ≡ drop n out.old) }
        ensures unchanged { OnErr result (out.new ≡ out.old) }
    {
        let Ok(()) = self.source.draw() else {
            self.client.advance(now);
            return Err(RequestError::KeeperFailed);
        };
        pass_at_client(&mut self.client, self.source.upcoming());
        let len = match self.client.request(now, plain, out) {
            Ok(len) => len,
            Err(error) => return Err(error),
        };
        self.source.in_hand = None;
        Ok(len)
    }

    /// Decides the answer to a datagram that may be a response, as `Client::decide` does; this is the first half of `hear`. Draws no number.
    pub fn decide_response(&mut self, now: u64, datagram: &mut [u8]) -> ClientDecision
        ensures answered { (k : asked.History) → ClientAgrees self.old.client k → ClientDecidesTo k now datagram.old result datagram.new self.new.client }
        ensures shown { CanShow result datagram.new }
        ensures left { LeavesBy self.old.client result datagram.old datagram.new }
        ensures same { (self.new.server ≡ self.old.server) × (self.new.source ≡ self.old.source) }
    {
        self.client.decide(now, datagram)
    }

    /// Takes a datagram that may be a response in place, as `Client::take` does. Draws no number.
    pub fn hear<'b>(&mut self, now: u64, datagram: &'b mut [u8]) -> ClientOutcome<'b>
        ensures answered { (k : asked.History) → ClientAgrees self.old.client k → ClientTakes k now datagram.old result self.new.client }
        ensures same { (self.new.server ≡ self.old.server) × (self.new.source ≡ self.old.source) }
    {
        self.client.take(now, datagram)
    }

    /// Stops waiting for the response to the request with this token. Returns whether the token was pending. Draws no number.
    pub fn forget(&mut self, token: &[u8]) -> bool
        ensures answered { (k : asked.History) → ClientAgrees self.old.client k → ClientAnswer N k (asked.Forget token.now) (asked.Forgot result) }
        ensures follows { (k : asked.History) → ClientAgrees self.old.client k → ClientAgrees self.new.client (asked.Then k (asked.Forget token.now) (asked.Forgot result)) }
        ensures same { (self.new.server ≡ self.old.server) × (self.new.source ≡ self.old.source) }
    {
        self.client.forget(token)
    }

    /// Gives registrations places of their own, so many of the N, as `Client::set_apart` does. Draws no number.
    pub fn set_apart(&mut self, registrations: Option<usize>)
        ensures follows { (k : asked.History) → ClientAgrees self.old.client k
            → ClientAgrees self.new.client (asked.Then k (asked.SetApart (apart_among N registrations)) asked.IsSetApart) }
        ensures same { (self.new.server ≡ self.old.server) × (self.new.source ≡ self.old.source) }
    {
        self.client.set_apart(registrations);
    }
}
