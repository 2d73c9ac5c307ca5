//! What a client makes of a datagram. It decides, and says what it leaves in the datagram. The decision lends slices of what is left.

ghost use Rattle.std.specs.Prelude.{◌≡◌, ◌<◌, ℕ, Bool, Option, Some, IfOk, IfErr, OnOk};
ghost use Rattle.osc_protect.specs.StageViews.{CanLendResponse};
ghost use Rattle.osc_client.specs.ClientDeciding.{CanShow, ClientShowsDecided, LeavesAmong, OfWhatWasRead, wait_after};

use crate::client::Client;
use crate::client_outcome::ClientOutcome;
use crate::client_state::ClientState;
use crate::decision::ClientDecision;
use crate::pending::{Found, Wait};
use crate::waiting::Waiting;
use osc_coap::{one_datagram, parse};
use osc_observe::siblings::{is_notification, place_of};
use osc_protect::{
    DecryptedResponse, NoHead, ReadResponse, ResponseHead, decrypt_response, inspect_response,
    one_head, one_notification, one_response, protections_show_heads,
};

impl ClientDecision {
    /// Returns the decision as an outcome that lends slices of the datagram, as `take` returns it. Call this on the decision that
    /// `Client::decide` returned, and pass in the datagram as that call left it. Nothing is read again.
    #[must_use]
    pub fn outcome(self, datagram: &[u8]) -> ClientOutcome<'_>
        requires { CanShow self datagram.now }
        ensures { ClientShowsDecided self datagram.now result }
    {
        match self {
            ClientDecision::Malformed(error) => ClientOutcome::Malformed(error),
            ClientDecision::NotResponse => ClientOutcome::NotResponse,
            ClientDecision::UnknownToken => ClientOutcome::UnknownToken,
            ClientDecision::Unprotected => ClientOutcome::Unprotected,
            ClientDecision::Undecodable => ClientOutcome::Undecodable,
            ClientDecision::BadTag => ClientOutcome::BadTag,
            ClientDecision::BadInner => ClientOutcome::BadInner,
            ClientDecision::Old => ClientOutcome::Old,
            ClientDecision::Notified(read, number) => ClientOutcome::Notified(
                read.opened(datagram),
                number,
            ),
            ClientDecision::Deliver(read, number) => ClientOutcome::Deliver(
                read.opened(datagram),
                number,
            ),
        }
    }
}

/// Returns what a request waits for after a response that was read, if it is a notification for it. Any other response ends the wait.
fn continued(wait: Wait, datagram: &[u8], read: ReadResponse) -> Option<Wait>
    requires { (x : DecryptedResponse) × CanLendResponse datagram.now x read }
    ensures { OfWhatWasRead datagram.now read (λ own m. result ≡ wait_after wait own m) }
{
    // For the proof alone.
    one_response();
    one_notification();
    let opened = read.opened(datagram);
    if !wait.observes() {
        return None;
    }
    if !is_notification(opened.code, &opened.inner()) {
        return None;
    }
    Some(Wait::Observing {
        from: place_of(opened.piv) + 1,
    })
}

impl ClientState {
    ghost use Rattle.std.specs.Prelude.{length, max};
    ghost use Rattle.osc_coap.specs.Inner.{InnerParts};
    ghost use Rattle.osc_protect.specs.StageViews.{FitsResponse};
    ghost use Rattle.osc_client.specs.Agrees.{PartsAgree, TokensDiffer, parts_over};
    ghost use Rattle.osc_client.specs.ClientAnswer.{Hears};
    ghost use Rattle.osc_client.specs.ClientDeciding.{DecidesAmong, IsDecryptedFor, IsOpenedAmong};
    ghost use Rattle.osc_client.specs.ClientHistory.{History};
    ghost use Rattle.osc_client.specs.Views.{client_hearing_of};
    ghost use Rattle.osc_client.specs.declared.client_outcome.ClientOutcome.{ClientOutcome as OutcomeOf};

    /// Decrypts a response to a pending request in place, and returns which request that is. This is all of `decide` that comes before the
    /// plaintext is read. It checks Type, token, OSCORE option and own Partial IV in this order.
    fn decrypt<W: Waiting>(
        &mut self,
        pending: &mut W,
        now: u64,
        datagram: &mut [u8],
    ) -> Result<(DecryptedResponse, Found), ClientDecision>
        requires { W.is_table pending.old }
        ensures refused { IfErr result (λ x. (h : History) → PartsAgree (parts_over self.old (W.requests pending.old)) h
            → DecidesAmong h now datagram.old x datagram.new (parts_over self.new (W.requests pending.new))) }
        ensures shown { IfErr result (λ x. CanShow x datagram.new) }
        ensures left { IfErr result (λ x. LeavesAmong (parts_over self.old (W.requests pending.old)) x datagram.old datagram.new) }
        ensures answers { IfOk result (λ p. (h : History) → PartsAgree (parts_over self.old (W.requests pending.old)) h
            → IsDecryptedFor h now datagram.old p.0 p.1 datagram.new (parts_over self.new (W.requests pending.new))) }
        ensures opened { OnOk result (IsOpenedAmong (parts_over self.old (W.requests pending.old)) datagram.old datagram.new) }
        ensures fits { IfOk result (λ p. FitsResponse datagram.new p.0) }
        ensures within { IfOk result (λ p. p.1.place < length (W.requests pending.new)) }
        ensures table { W.is_table pending.new }
        ensures room { W.room pending.new ≡ W.room pending.old }
        ensures lies { W.lies pending.new ≡ W.lies pending.old }
        ensures apart { TokensDiffer (W.requests pending.old) → TokensDiffer (W.requests pending.new) }
    {
        // For the proof alone.
        one_datagram();
        self.clock = self.clock.max(now);
        pending.drop_expired(self.clock, self.life_ms);
        let message = match parse(datagram) {
            Ok(message) => message,
            Err(error) => return Err(ClientDecision::Malformed(error)),
        };
        if !message.is_response() {
            return Err(ClientDecision::NotResponse);
        }
        let found = pending.find(message.token.as_slice());
        let Some(found) = found else {
            return Err(ClientDecision::UnknownToken);
        };
        let head = match ResponseHead::read(&message) {
            Ok(head) => head,
            Err(NoHead::NotThatKind) => return Err(ClientDecision::NotResponse),
            Err(NoHead::NoOscore) => return Err(ClientDecision::Unprotected),
            Err(NoHead::Undecodable) => return Err(ClientDecision::Undecodable),
        };
        if found.is_passed(head.number) {
            return Err(ClientDecision::Old);
        }
        let (sealed, request) = (head.sealed(), found.request());
        let Ok(decrypted) = decrypt_response(&self.context, &request, datagram, sealed) else {
            return Err(ClientDecision::BadTag);
        };
        Ok((decrypted, found))
    }

    /// Decides the answer to a datagram.
    fn judge<W: Waiting>(
        &mut self,
        pending: &mut W,
        now: u64,
        datagram: &mut [u8],
    ) -> ClientDecision
        requires { W.is_table pending.old }
        ensures answered { (h : History) → PartsAgree (parts_over self.old (W.requests pending.old)) h
            → DecidesAmong h now datagram.old result datagram.new (parts_over self.new (W.requests pending.new)) }
        ensures shown { CanShow result datagram.new }
        ensures left { LeavesAmong (parts_over self.old (W.requests pending.old)) result datagram.old datagram.new }
        ensures table { W.is_table pending.new }
        ensures room { W.room pending.new ≡ W.room pending.old }
        ensures lies { W.lies pending.new ≡ W.lies pending.old }
        ensures apart { TokensDiffer (W.requests pending.old) → TokensDiffer (W.requests pending.new) }
    {
        // For the proof alone.
        one_datagram();
        one_head();
        one_response();
        one_notification();
        protections_show_heads();
        let (decrypted, found) = match self.decrypt(pending, now, datagram) {
            Ok(decrypted) => decrypted,
            Err(decision) => return decision,
        };
        let Ok(read) = inspect_response(datagram, decrypted) else {
            return ClientDecision::BadInner;
        };
        match continued(found.wait, datagram, read) {
            Some(wait) => {
                if wait.first_place() <= found.wait.first_place() {
                    return ClientDecision::Old;
                }
                pending.wait_at(found.place, wait);
                ClientDecision::Notified(read, found.number)
            }
            None => {
                pending.take_out(found.place);
                ClientDecision::Deliver(read, found.number)
            }
        }
    }

    /// Decides the answer to a datagram in place, with the pending requests in this table, as `Client::decide` does.
    pub fn decide<W: Waiting>(
        &mut self,
        pending: &mut W,
        now: u64,
        datagram: &mut [u8],
    ) -> ClientDecision
        requires { W.is_table pending.old }
        ensures answered { (h : History) → PartsAgree (parts_over self.old (W.requests pending.old)) h
            → DecidesAmong h now datagram.old result datagram.new (parts_over self.new (W.requests pending.new)) }
        ensures shown { CanShow result datagram.new }
        ensures left { LeavesAmong (parts_over self.old (W.requests pending.old)) result datagram.old datagram.new }
        // `ClientDecision::outcome` returns a notification, or a delivery, if and only if the datagram that was passed in is to be one.
        ensures heard { (h : History) (c : Bool) (n : ℕ) (own : Option ℕ) (m : InnerParts) (outcome : OutcomeOf)
            → PartsAgree (parts_over self.old (W.requests pending.old)) h
            → ClientShowsDecided result datagram.new outcome → client_hearing_of outcome ≡ Some (c, n, own, m) → Hears h now datagram.old c n own m }
        ensures hears { (h : History) (c : Bool) (n : ℕ) (own : Option ℕ) (m : InnerParts) (outcome : OutcomeOf)
            → PartsAgree (parts_over self.old (W.requests pending.old)) h
            → ClientShowsDecided result datagram.new outcome → Hears h now datagram.old c n own m → client_hearing_of outcome ≡ Some (c, n, own, m) }
        ensures table { W.is_table pending.new }
        ensures room { W.room pending.new ≡ W.room pending.old }
        ensures lies { W.lies pending.new ≡ W.lies pending.old }
        ensures apart { TokensDiffer (W.requests pending.old) → TokensDiffer (W.requests pending.new) }
    {
        // For the proof alone.
        one_datagram();
        one_head();
        one_response();
        one_notification();
        protections_show_heads();
        self.judge(pending, now, datagram)
    }
}

impl<const N: usize> Client<N> {
    ghost use Rattle.osc_coap.specs.Inner.{InnerParts};
    ghost use Rattle.osc_client.specs.Agrees.{ClientAgrees, HasTokensApart};
    ghost use Rattle.osc_client.specs.ClientAnswer.{Hears};
    ghost use Rattle.osc_client.specs.ClientDeciding.{ClientDecidesTo, ClientTakes, LeavesBy};
    ghost use Rattle.osc_client.specs.ClientHistory.{History};
    ghost use Rattle.osc_client.specs.Views.{client_hearing_of};
    ghost use Rattle.osc_client.specs.declared.client_outcome.ClientOutcome.{ClientOutcome as OutcomeOf};

    /// Decides the answer to a datagram in place (RFC 8613, 8.4), and says what it leaves in the datagram. Apart from time, only a delivery
    /// ends a pending request; a notification doesn't. The Message ID isn't compared. `ClientDecision::outcome` lends what was delivered.
    pub fn decide(&mut self, now: u64, datagram: &mut [u8]) -> ClientDecision
        ensures answered { (h : History) → ClientAgrees self.old h → ClientDecidesTo h now datagram.old result datagram.new self.new }
        ensures shown { CanShow result datagram.new }
        ensures left { LeavesBy self.old result datagram.old datagram.new }
        // `ClientDecision::outcome` returns a notification, or a delivery, if and only if the datagram that was passed in is to be one.
        ensures heard { (h : History) (c : Bool) (n : ℕ) (own : Option ℕ) (m : InnerParts) (outcome : OutcomeOf) → ClientAgrees self.old h
            → ClientShowsDecided result datagram.new outcome → client_hearing_of outcome ≡ Some (c, n, own, m) → Hears h now datagram.old c n own m }
        ensures hears { (h : History) (c : Bool) (n : ℕ) (own : Option ℕ) (m : InnerParts) (outcome : OutcomeOf) → ClientAgrees self.old h
            → ClientShowsDecided result datagram.new outcome → Hears h now datagram.old c n own m → client_hearing_of outcome ≡ Some (c, n, own, m) }
        ensures apart { HasTokensApart self.old → HasTokensApart self.new }
    {
        self.state.decide(&mut self.pending, now, datagram)
    }

    /// Takes a datagram in place (RFC 8613, 8.4): calls `decide`, and returns the decision as an outcome. `decide` says what the datagram
    /// holds afterwards.
    pub fn take<'b>(&mut self, now: u64, datagram: &'b mut [u8]) -> ClientOutcome<'b>
        ensures answered { (h : History) → ClientAgrees self.old h → ClientTakes h now datagram.old result self.new }
        ensures heard { (h : History) (c : Bool) (n : ℕ) (own : Option ℕ) (m : InnerParts) → ClientAgrees self.old h
            → client_hearing_of result ≡ Some (c, n, own, m) → Hears h now datagram.old c n own m }
        ensures hears { (h : History) (c : Bool) (n : ℕ) (own : Option ℕ) (m : InnerParts) → ClientAgrees self.old h
            → Hears h now datagram.old c n own m → client_hearing_of result ≡ Some (c, n, own, m) }
        ensures apart { HasTokensApart self.old → HasTokensApart self.new }
    {
        let decision = self.decide(now, datagram);
        decision.outcome(datagram)
    }
}
