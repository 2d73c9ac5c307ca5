//! A request with the Echo value that a client heard last (RFC 9175, 2.3).

ghost use Rattle.std.specs.Prelude.{◌≡◌, ◌≢◌, ◌≤◌, ◌+◌, ◌↔◌, ℕ, List, None, Some, Err, IfOk, OnErr, length, drop};
ghost use Rattle.std.specs.Option.{option_copied};
ghost use Rattle.osc_coap.specs.Views.{parts_of};
ghost use Rattle.osc_client.specs.ClientHistory as asked;
ghost use Rattle.osc_client.specs.declared.client_outcome.RequestError.TheVariants as requests;
ghost use Rattle.osc_kept_ends.specs.Numbering.{upcoming};
ghost use Rattle.osc_kept_ends.specs.PeerOwning.{own_in};
ghost use Rattle.osc_kept_ends.specs.Peering.{AskStep, ClientIsBehind};
ghost use Rattle.osc_fresh.specs.Echoing.{echo_in};
ghost use Rattle.osc_fresh.specs.Views.{echo_entry};
ghost use Rattle.osc_fresh.specs.WithEcho.{LacksEchoRoom, due, echoing};
ghost use Rattle.osc_fresh.specs.declared.echo_request_error.EchoRequestError.TheVariants as refusals;

use crate::echo_request_error::EchoRequestError;
use crate::heard_echo::HeardEcho;
use crate::with_echo::{has_echo, write_with_echo};
use osc_coap::option_numbers::ECHO;
use osc_coap::{Message, one_datagram, parse};
use osc_context::RecordKeeper;
use osc_endpoint::RequestError;
use osc_kept_ends::KeptPeer;

/// Seals a request as `KeptPeer::request` does.
fn seal<R: RecordKeeper, const N: usize>(
    peer: &mut KeptPeer<R, N>,
    now: u64,
    plain: &Message<'_>,
    out: &mut [u8],
) -> Result<usize, EchoRequestError>
    ensures no_room { result ≢ Err refusals.NoRoomForEcho }
    ensures answered { result ≢ Err (refusals.Refused requests.KeeperFailed) → (entry : asked.Entry) → echo_entry result out.new ≡ Some entry
        → (k : asked.History) → ClientIsBehind peer.old.client (upcoming (own_in peer.old.source)) k
        → AskStep k (asked.Request now (parts_of plain.now) (length out.old)) entry (own_in peer.old.source) (own_in peer.new.source) peer.new.client }
    ensures failed { result ≡ Err (refusals.Refused requests.KeeperFailed) → (own_in peer.new.source ≡ own_in peer.old.source)
        × ((k : asked.History) → ClientIsBehind peer.old.client (upcoming (own_in peer.old.source)) k
        → ClientIsBehind peer.new.client (upcoming (own_in peer.new.source)) (asked.Then k (asked.Advance now) asked.Advanced))
        × (R.failures peer.new.source.keeper ≡ R.failures peer.old.source.keeper + 1) }
    ensures worked { result ≢ Err (refusals.Refused requests.KeeperFailed) → R.failures peer.new.source.keeper ≡ R.failures peer.old.source.keeper }
    ensures rises { R.received_floor peer.old.source.keeper ≤ R.received_floor peer.new.source.keeper }
    ensures server { peer.new.server ≡ peer.old.server }
    ensures within { IfOk result (λ n. n ≤ length out.new) }
    ensures behind { IfOk result (λ n. drop n out.new ≡ drop n out.old) }
    ensures unchanged { OnErr result (out.new ≡ out.old) }
{
    match peer.request(now, plain, out) {
        Ok(len) => Ok(len),
        Err(error) => Err(EchoRequestError::Refused(error)),
    }
}

impl HeardEcho {
    ghost use Rattle.osc_fresh.specs.Views.{heard_of};

    /// Returns the value that is added to a plain message: none to an Empty one, which has no options (RFC 7252, 4.1).
    fn value_for(&self, plain: &Message<'_>) -> Option<&[u8]>
        ensures { option_copied result ≡ due (heard_of self.now) (parts_of plain.now) }
    {
        if plain.code == 0 {
            return None;
        }
        self.value()
    }

    /// Seals a request with the Echo value that was heard last, as `KeptPeer::request` seals it; if nothing was heard yet, without one. It
    /// writes the message with that value at the front of `room` first (`write_with_echo`), and seals what stands there, so a `room` of 43
    /// bytes more than the plain message has is enough. A message that has an Echo option is refused with `Unsupported` 252 before anything
    /// else, and then one for which `room` is too small; neither changes the peer or `out` (RFC 9175, 2.3).
    pub fn request_with_echo<R: RecordKeeper, const N: usize>(
        &self,
        peer: &mut KeptPeer<R, N>,
        now: u64,
        plain: &Message<'_>,
        room: &mut [u8],
        out: &mut [u8],
    ) -> Result<usize, EchoRequestError>
        ensures echoes { (value : List ℕ) → echo_in (parts_of plain.now) ≡ Some value
            → (result ≡ Err (refusals.Refused (requests.Unsupported 252))) × (peer.new ≡ peer.old) × (out.new ≡ out.old) × (room.new ≡ room.old) }
        ensures no_room { (result ≡ Err refusals.NoRoomForEcho) ↔ LacksEchoRoom (heard_of self.now) (parts_of plain.now) (length room.old) }
        ensures same { result ≡ Err refusals.NoRoomForEcho → (peer.new ≡ peer.old) × (out.new ≡ out.old) }
        ensures answered { echo_in (parts_of plain.now) ≡ None → result ≢ Err (refusals.Refused requests.KeeperFailed)
            → (entry : asked.Entry) → echo_entry result out.new ≡ Some entry
            → (k : asked.History) → ClientIsBehind peer.old.client (upcoming (own_in peer.old.source)) k
            → AskStep k (asked.Request now (echoing (heard_of self.now) (parts_of plain.now)) (length out.old)) entry
            (own_in peer.old.source) (own_in peer.new.source) peer.new.client }
        ensures failed { result ≡ Err (refusals.Refused requests.KeeperFailed) → (own_in peer.new.source ≡ own_in peer.old.source)
            × ((k : asked.History) → ClientIsBehind peer.old.client (upcoming (own_in peer.old.source)) k
            → ClientIsBehind peer.new.client (upcoming (own_in peer.new.source)) (asked.Then k (asked.Advance now) asked.Advanced))
            × (R.failures peer.new.source.keeper ≡ R.failures peer.old.source.keeper + 1) }
        ensures worked { result ≢ Err (refusals.Refused requests.KeeperFailed) → R.failures peer.new.source.keeper ≡ R.failures peer.old.source.keeper }
        ensures rises { R.received_floor peer.old.source.keeper ≤ R.received_floor peer.new.source.keeper }
        ensures server { peer.new.server ≡ peer.old.server }
        ensures within { IfOk result (λ n. n ≤ length out.new) }
        ensures behind { IfOk result (λ n. drop n out.new ≡ drop n out.old) }
        ensures unchanged { OnErr result (out.new ≡ out.old) }
    {
        // For the proof alone.
        one_datagram();
        if has_echo(plain) {
            return Err(EchoRequestError::Refused(RequestError::Unsupported(ECHO)));
        }
        let Some(value) = self.value_for(plain) else {
            return seal(peer, now, plain, out);
        };
        let Ok(len) = write_with_echo(plain, value, room) else {
            return Err(EchoRequestError::NoRoomForEcho);
        };
        let Ok(message) = parse(&room[..len]) else {
            unreachable!()
        };
        seal(peer, now, &message, out)
    }
}
