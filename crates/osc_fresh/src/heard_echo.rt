//! The Echo value that a client heard last (RFC 9175, 2.3).

ghost use Rattle.std.specs.Prelude.{◌≡◌, ◌≢◌, ◌≤◌, ◌+◌, ℕ, List, None, Some, Err, true, false, IfErr, IfOk, OnErr, length, drop};
ghost use Rattle.std.specs.Option.{option_copied};
ghost use Rattle.osc_coap.specs.Interpreted.{interpreted};
ghost use Rattle.osc_coap.specs.OptionNumbers.{echo as echo_number};
ghost use Rattle.osc_coap.specs.Views.{parts_of};
ghost use Rattle.osc_protect.specs.Views.{message_of};
ghost use Rattle.osc_client.specs.Agrees.{ClientAgrees};
ghost use Rattle.osc_client.specs.ClientDeciding.{ClientTakes};
ghost use Rattle.osc_client.specs.ClientHistory as asked;
ghost use Rattle.osc_client.specs.Views.{request_entry};
ghost use Rattle.osc_client.specs.declared.client_outcome.RequestError.TheVariants as requests;
ghost use Rattle.osc_kept_ends.specs.Numbering.{upcoming};
ghost use Rattle.osc_kept_ends.specs.PeerOwning.{own_in};
ghost use Rattle.osc_kept_ends.specs.Peering.{AskStep, ClientIsBehind};
ghost use Rattle.osc_fresh.specs.Echoing.{EchoesOnly, echo_in, heard_after, latest};
ghost use Rattle.osc_fresh.specs.Following.{FollowsOne};

use crate::challenged::Challenged;
use crate::followed::Followed;
use arrayvec::ArrayVec;
use osc_coap::Message;
use osc_coap::option_numbers::ECHO;
use osc_context::RecordKeeper;
use osc_endpoint::{ClientOutcome, RequestError};
use osc_kept_ends::KeptPeer;
use osc_protect::Opened;

/// The most bytes of an Echo value (RFC 9175, 2.2.1).
const MOST: usize = 40;

/// Returns a vector with these bytes.
fn holding(bytes: &[u8]) -> ArrayVec<u8, MOST>
    requires { length bytes.now ≤ 40 }
    ensures { result.items ≡ bytes.now }
{
    let mut held = ArrayVec::new();
    held.try_extend_from_slice(bytes).unwrap();
    held
}

/// The Echo value that a client heard last, which its next requests may carry, and no other (RFC 9175, 2.3). It is for one peer. It stays
/// right over restarts of that peer.
#[derive(Debug, Drop)]
pub struct HeardEcho {
    value: Option<ArrayVec<u8, MOST>>,
}

impl HeardEcho {
    ghost use Rattle.osc_fresh.specs.Views.{heard_of};

    /// Heard nothing yet.
    #[must_use]
    pub fn new() -> HeardEcho
        ensures { heard_of result ≡ None }
    {
        HeardEcho { value: None }
    }

    /// Returns the value that was heard last, of 1 to 40 bytes, if there was one. `request_with_echo` adds it to a request; for `request`, write
    /// it into the plain message as its Echo option, 252.
    #[must_use]
    pub fn value(&self) -> Option<&[u8]>
        ensures { option_copied result ≡ heard_of self.now }
    {
        match &self.value {
            Some(value) => Some(value.as_slice()),
            None => None,
        }
    }

    /// Remembers the Echo value of a response that the client delivered, if it has one; `hear` calls it. Otherwise nothing changes.
    pub fn note(&mut self, opened: &Opened<'_>)
        ensures { heard_of self.new ≡ latest (interpreted echo_number (message_of opened.now).options) (heard_of self.old) }
    {
        let Some(value) = opened.inner().interpreted(ECHO) else {
            return;
        };
        self.value = Some(holding(value));
    }

    /// Takes a datagram that may be a response in place, as `KeptPeer::hear` does, and remembers the Echo value of what is delivered.
    pub fn hear<'b, R: RecordKeeper, const N: usize>(
        &mut self,
        peer: &mut KeptPeer<R, N>,
        now: u64,
        datagram: &'b mut [u8],
    ) -> ClientOutcome<'b>
        ensures answered { (k : asked.History) → ClientAgrees peer.old.client k → ClientTakes k now datagram.old result peer.new.client }
        ensures remembered { heard_of self.new ≡ heard_after result (heard_of self.old) }
        ensures same { (peer.new.server ≡ peer.old.server) × (peer.new.source ≡ peer.old.source) }
    {
        let outcome = peer.hear(now, datagram);
        match &outcome {
            ClientOutcome::Deliver(opened, _) | ClientOutcome::Notified(opened, _) => {
                self.note(opened);
            }
            _ => {}
        }
        outcome
    }

    /// Takes a datagram as `hear` does, and tells a challenge from every other response (RFC 9175, 2.3; own rule: what a challenge says of its
    /// request).
    pub fn follow<'b, R: RecordKeeper, const N: usize>(
        &mut self,
        peer: &mut KeptPeer<R, N>,
        now: u64,
        datagram: &'b mut [u8],
    ) -> Followed<'b>
        ensures followed { FollowsOne result (λ outcome. (heard_of self.new ≡ heard_after outcome (heard_of self.old))
            × ((k : asked.History) → ClientAgrees peer.old.client k → ClientTakes k now datagram.old outcome peer.new.client)) }
        ensures same { (peer.new.server ≡ peer.old.server) × (peer.new.source ≡ peer.old.source) }
    {
        let outcome = self.hear(peer, now, datagram);
        if let ClientOutcome::Deliver(opened, number) = &outcome {
            if let Some(challenged) = Challenged::heard(opened) {
                return Followed::Challenged(challenged, *number);
            }
        }
        Followed::Heard(outcome)
    }

    /// Returns whether a message has no Echo option, or the value that was heard last.
    fn allows(&self, plain: &Message<'_>) -> bool
        ensures yes { result ≡ true → EchoesOnly (heard_of self.now) (parts_of plain.now) }
        ensures no { result ≡ false → EchoesOnly (heard_of self.now) (parts_of plain.now) → ⊥ }
    {
        let Some(value) = plain.options().first(ECHO) else {
            return true;
        };
        match self.value() {
            Some(heard) => heard == value,
            None => false,
        }
    }

    /// Seals a request as `KeptPeer::request` does. A message with an Echo option that hasn't the value that was heard last is refused with
    /// `Unsupported` 252 before anything else, and nothing changes then (RFC 9175, 2.3: a client sends no value but one that it heard).
    pub fn request<R: RecordKeeper, const N: usize>(
        &self,
        peer: &mut KeptPeer<R, N>,
        now: u64,
        plain: &Message<'_>,
        out: &mut [u8],
    ) -> Result<usize, RequestError>
        ensures foreign { (value : List ℕ) → echo_in (parts_of plain.now) ≡ Some value → heard_of self.now ≢ Some value
            → (result ≡ Err (requests.Unsupported 252)) × (peer.new ≡ peer.old) × (out.new ≡ out.old) }
        ensures answered { EchoesOnly (heard_of self.now) (parts_of plain.now) → IfErr result (λ e. e ≢ requests.KeeperFailed)
            → (k : asked.History) → ClientIsBehind peer.old.client (upcoming (own_in peer.old.source)) k
            → AskStep k (asked.Request now (parts_of plain.now) (length out.old)) (request_entry result out.new)
            (own_in peer.old.source) (own_in peer.new.source) peer.new.client }
        ensures failed { IfErr result (λ e. e ≡ requests.KeeperFailed → (own_in peer.new.source ≡ own_in peer.old.source)
            × ((k : asked.History) → ClientIsBehind peer.old.client (upcoming (own_in peer.old.source)) k
            → ClientIsBehind peer.new.client (upcoming (own_in peer.new.source)) (asked.Then k (asked.Advance now) asked.Advanced))
            × (R.failures peer.new.source.keeper ≡ R.failures peer.old.source.keeper + 1)) }
        ensures worked { IfErr result (λ e. e ≢ requests.KeeperFailed) → R.failures peer.new.source.keeper ≡ R.failures peer.old.source.keeper }
        ensures rises { R.received_floor peer.old.source.keeper ≤ R.received_floor peer.new.source.keeper }
        ensures server { peer.new.server ≡ peer.old.server }
        ensures within { IfOk result (λ n. n ≤ length out.new) }
        ensures behind { IfOk result (λ n. drop n out.new ≡ drop n out.old) }
        ensures unchanged { OnErr result (out.new ≡ out.old) }
    {
        if !self.allows(plain) {
            return Err(RequestError::Unsupported(ECHO));
        }
        peer.request(now, plain, out)
    }
}
