//! A server that wants fresh requests (RFC 8613, 7.3; RFC 9175, 2.3).

ghost use Rattle.std.specs.Prelude.{◌≡◌, ◌≢◌, ◌<◌, ◌≤◌, ◌+◌, None, Some, true, false, IfErr, IfOk, IfNone, IfSome, OnErr, length, drop};
ghost use Rattle.std.specs.Option.{option_map};
ghost use Rattle.osc_coap.specs.Interpreted.{interpreted};
ghost use Rattle.osc_coap.specs.OptionNumbers.{echo as echo_number};
ghost use Rattle.osc_coap.specs.Views.{options_left};
ghost use Rattle.osc_protect.specs.Views.{message_of};
ghost use Rattle.osc_endpoint.specs.Views.{server_entry};
ghost use Rattle.osc_life.specs.LifeAnswer.{asks_own};
ghost use Rattle.osc_life.specs.ServerHistory as served;
ghost use Rattle.osc_life.specs.Views.{values_of};
ghost use Rattle.osc_life.specs.declared.server_error.ReplyError.TheVariants as replies;
ghost use Rattle.osc_kept_ends.specs.EchoNumber.{echo_of};
ghost use Rattle.osc_kept_ends.specs.Numbering.{upcoming};
ghost use Rattle.osc_kept_ends.specs.PeerOwning.{own_in};
ghost use Rattle.osc_kept_ends.specs.Peering.{PeerStep, ServerIsBehind};
ghost use Rattle.osc_fresh.specs.Wishing.{Asked, IsFresh, IsKnown, unobeyed_message};

use crate::asking::challenge;
use osc_coap::Options;
use osc_coap::option_numbers::ECHO;
use osc_context::RecordKeeper;
use osc_endpoint::{ReplyError, Ticket};
use osc_kept_ends::KeptPeer;
use osc_protect::Opened;

/// Returns whether a message with these options carries the Echo value of this number.
fn carries(options: &Options<'_>, number: u64) -> bool
    ensures yes { result ≡ true → interpreted echo_number (options_left options.now) ≡ Some (echo_of number) }
    ensures no { result ≡ false → interpreted echo_number (options_left options.now) ≢ Some (echo_of number) }
{
    match options.interpreted(ECHO) {
        Some(value) => value == number.to_be_bytes().as_slice(),
        None => false,
    }
}

/// The last challenge: the number that its Echo value is made of, and the moment at which it was sealed, in milliseconds.
#[derive(Clone, Copy, Debug, PartialEq, Eq)]
struct LastChallenge {
    number: u64,
    moment: u64,
}

/// How old a request may be that a server obeys, and the last challenge by which it asked for a fresh one. It is for one peer. It stays
/// right over restarts of the peer, and without it a request isn't known to be fresh.
#[derive(Clone, Copy, Debug, PartialEq, Eq)]
pub struct Wishes {
    /// How old a request may be, in milliseconds.
    pub fresh_ms: u64,
    last: Option<LastChallenge>,
}

impl Wishes {
    ghost use Rattle.osc_fresh.specs.Views.{last_of};

    /// Wants requests that are at most `fresh_ms` milliseconds old. No challenge was sealed yet.
    #[must_use]
    pub fn new(fresh_ms: u64) -> Wishes
        ensures wish { result.fresh_ms ≡ fresh_ms }
        ensures none { last_of result ≡ None }
    {
        Wishes {
            fresh_ms,
            last: None,
        }
    }

    /// Challenges a request that was delivered and isn't obeyed, as the function `challenge` does, and remembers the challenge. `now` is the
    /// moment of the call, in milliseconds, from which `age` counts (RFC 8613, 8.3; RFC 9175, 2.3 and A, method 3).
    pub fn challenge<R: RecordKeeper, const N: usize>(
        &mut self,
        peer: &mut KeptPeer<R, N>,
        ticket: Ticket,
        now: u64,
        mid: u16,
        out: &mut [u8],
    ) -> Result<usize, (ReplyError, Ticket)>
        ensures answered { IfErr result (λ e. e.0 ≢ replies.KeeperFailed) → (h : served.History) → ServerIsBehind peer.old.server (upcoming (own_in peer.old.source)) h
            → PeerStep h (served.Reply (values_of ticket) (asks_own (values_of ticket) true) mid (unobeyed_message (echo_of (upcoming (own_in peer.old.source)))) (length out.old))
            (server_entry result out.new) (own_in peer.old.source) (own_in peer.new.source) peer.new.server }
        ensures issued { IfOk result (λ n. last_of self.new ≡ Some (record { number = upcoming (own_in peer.old.source); moment = now })) }
        ensures wish { self.new.fresh_ms ≡ self.old.fresh_ms }
        ensures failed { IfErr result (λ e. e.0 ≡ replies.KeeperFailed → (peer.new.server ≡ peer.old.server) × (own_in peer.new.source ≡ own_in peer.old.source)
            × (R.failures peer.new.source.keeper ≡ R.failures peer.old.source.keeper + 1)) }
        ensures worked { IfErr result (λ e. e.0 ≢ replies.KeeperFailed) → R.failures peer.new.source.keeper ≡ R.failures peer.old.source.keeper }
        ensures rises { R.received_floor peer.old.source.keeper ≤ R.received_floor peer.new.source.keeper }
        ensures client { peer.new.client ≡ peer.old.client }
        ensures back { IfErr result (λ e. e.1 ≡ ticket) }
        ensures within { IfOk result (λ n. n ≤ length out.new) }
        ensures behind { IfOk result (λ n. drop n out.new ≡ drop n out.old) }
        ensures unchanged { OnErr result ((out.new ≡ out.old) × (self.new ≡ self.old)) }
    {
        let number = peer.upcoming();
        let len = match challenge(peer, ticket, mid, out) {
            Ok(len) => len,
            Err(refused) => return Err(refused),
        };
        self.last = Some(LastChallenge {
            number,
            moment: now,
        });
        Ok(len)
    }

    /// Returns the Sender Sequence Number with which the last challenge was sealed, of which its Echo value is made, if there was one.
    #[must_use]
    pub fn challenge_number(&self) -> Option<u64>
        ensures { result ≡ option_map (λ c. c.number) (last_of self.now) }
    {
        match self.last {
            Some(last) => Some(last.number),
            None => None,
        }
    }

    /// Returns how old a request is at most at `now`, in milliseconds, if it carries the Echo value of the last challenge: it was sealed after
    /// that. Returns nothing if it carries no such value, and also if `now` is before the moment of the challenge. The moments are of your
    /// clock: if it is set back in between, the age is too little by as much (RFC 8613, 7.3; RFC 9175, 2.3).
    #[must_use]
    pub fn age(&self, opened: &Opened<'_>, now: u64) -> Option<u64>
        ensures age { IfSome result (λ age. IsKnown (last_of self.now) (message_of opened.now) age now) }
        ensures no_age { IfNone result ((c : Asked) → last_of self.now ≡ Some c
            → interpreted echo_number (message_of opened.now).options ≡ Some (echo_of c.number) → now < c.moment) }
    {
        let Some(last) = self.last else {
            return None;
        };
        if !carries(&opened.inner(), last.number) {
            return None;
        }
        if now < last.moment {
            return None;
        }
        Some(now - last.moment)
    }

    /// Returns whether a request is at most as old at `now`, in milliseconds, as the server wants requests to be, as far as `age` knows.
    #[must_use]
    pub fn is_fresh(&self, opened: &Opened<'_>, now: u64) -> bool
        ensures yes { result ≡ true → IsFresh self.now.fresh_ms (last_of self.now) (message_of opened.now) now }
        ensures no { result ≡ false → IsFresh self.now.fresh_ms (last_of self.now) (message_of opened.now) now → ⊥ }
    {
        match self.age(opened, now) {
            Some(age) => age <= self.fresh_ms,
            None => false,
        }
    }
}
