//! The requests that a peer makes in a run.

ghost use Rattle.std.specs.Prelude.{◌≡◌, List, Option, length};
ghost use Rattle.osc_client.specs.ClientHistory as asked;
ghost use Rattle.osc_life.specs.ServerHistory as served;
ghost use Rattle.osc_peer_runs.specs.PeerCalls.{IsBehind, unsealed_entry};
ghost use Rattle.osc_fresh.specs.Views.{heard_of};
ghost use Rattle.osc_peer_runs.specs.PeerRuns.{EchoStep, Echoes, RequestStep, peer_state, with_echoes};

use crate::peer_event::PeerEntry;
use osc_coap::parse;
use osc_context::{Piv, RecordKeeper};
use osc_endpoint::ClientEntry;
use osc_fresh::{EchoRequestError, HeardEcho};
use osc_kept_ends::KeptPeer;

/// Makes a request. Its entry borrows from the room for it. If the plain text isn't a message, only the clocks move.
pub(crate) fn make_request<'a, R: RecordKeeper, const N: usize>(
    peer: &mut KeptPeer<R, N>,
    now: u64,
    plain: &[u8],
    out: &'a mut [u8],
) -> ClientEntry<'a>
    ensures { (h : served.History) (k : asked.History) (ts us : List (Option served.TicketValues)) → IsBehind peer.old h k → (g : served.History) × (m : asked.History)
        × RequestStep N (peer_state h k peer.old.source ts) now plain.now (length out.old) result (peer_state g m peer.new.source us) × IsBehind peer.new g m }
{
    let message = match parse(plain) {
        Ok(message) => message,
        Err(error) => {
            peer.advance(now);
            return ClientEntry::BadPlain(error);
        }
    };
    let next = peer.upcoming();
    let len = match peer.request(now, &message, out) {
        Ok(len) => len,
        Err(error) => return ClientEntry::NotSent(error),
    };
    match Piv::new(next) {
        Some(number) => ClientEntry::Sent {
            number,
            datagram: &out[..len],
        },
        None => unreachable!(),
    }
}

/// Returns the entry of a request that isn't sealed. It borrows nothing.
fn unsealed<'a>(error: EchoRequestError) -> PeerEntry<'a>
    ensures { result ≡ unsealed_entry error }
{
    match error {
        EchoRequestError::NoRoomForEcho => PeerEntry::NoRoomForEcho,
        EchoRequestError::Refused(error) => PeerEntry::Asked(ClientEntry::NotSent(error)),
    }
}

/// Makes a request with the Echo value that was heard last. Its entry borrows from the room for it. If the plain text isn't a message, only the
/// clocks move.
pub(crate) fn make_echo_request<'a, R: RecordKeeper, const N: usize>(
    peer: &mut KeptPeer<R, N>,
    heard: &HeardEcho,
    now: u64,
    plain: &[u8],
    room: &mut [u8],
    out: &'a mut [u8],
) -> PeerEntry<'a>
    ensures { (q : Echoes) (h : served.History) (k : asked.History) (ts us : List (Option served.TicketValues)) → IsBehind peer.old h k → (g : served.History) × (m : asked.History)
        × EchoStep N (heard_of heard.now) (with_echoes q (peer_state h k peer.old.source ts)) now plain.now (length room.old) (length out.old) result
        (with_echoes q (peer_state g m peer.new.source us)) × IsBehind peer.new g m }
{
    let message = match parse(plain) {
        Ok(message) => message,
        Err(error) => {
            peer.advance(now);
            return PeerEntry::Asked(ClientEntry::BadPlain(error));
        }
    };
    let next = peer.upcoming();
    let len = match heard.request_with_echo(peer, now, &message, room, out) {
        Ok(len) => len,
        Err(error) => return unsealed(error),
    };
    match Piv::new(next) {
        Some(number) => PeerEntry::Asked(ClientEntry::Sent {
            number,
            datagram: &out[..len],
        }),
        None => unreachable!(),
    }
}
