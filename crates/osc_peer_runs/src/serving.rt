//! The events of a run that a peer serves: datagrams that may be requests, replies, challenges, notifications and dropped tickets.

ghost use Rattle.std.specs.Prelude.{◌≡◌, List, None, Option, length, ℕ};
ghost use Rattle.std.specs.Option.{option_map};
ghost use Rattle.osc_life.specs.ServerHistory.{History};
ghost use Rattle.osc_life.specs.Views.{values_of};
ghost use Rattle.osc_endpoint.specs.ServerRun.{DropStep, values_in};
ghost use Rattle.osc_kept_ends.specs.Numbering.{upcoming};
ghost use Rattle.osc_kept_ends.specs.Peering.{ServerIsBehind};
ghost use Rattle.osc_kept_ends.specs.PeerOwning.{own_in};
ghost use Rattle.osc_fresh.specs.Views.{last_of};
ghost use Rattle.osc_peer_runs.specs.PeerCalls.{Calls, CallsOver};
ghost use Rattle.osc_peer_runs.specs.PeerRuns.{ArrivalStep, ChallengeStep, FreshStep, NotifyStep, ReplyStep};

use crate::peer_event::{Challenging, PeerArrival, PeerEntry, PeerEvent};
use osc_coap::parse;
use osc_context::{KeeperError, RecordKeeper};
use osc_endpoint::siblings::{put_back, sealed_number, take_out, ticket_at};
use osc_endpoint::{
    Answering, Decided, Notifying, Outcome, SealedResponse, Seen, ServerEntry, Taken, Ticket,
};
use osc_fresh::{DecidedFresh, Wishes, challenge};
use osc_kept_ends::KeptPeer;

/// Takes a datagram. The entry borrows from its arrival.
fn take_arrival<'a, R: RecordKeeper, const N: usize>(
    peer: &mut KeptPeer<R, N>,
    arrival: &'a mut PeerArrival,
) -> (ServerEntry<'a>, Option<Ticket>)
    ensures served { (h : History) → ServerIsBehind peer.old.server (upcoming (own_in peer.old.source)) h
        → (g : History) × ArrivalStep h peer.old.source arrival.old result.0 g peer.new.source (option_map values_of result.1)
        × ServerIsBehind peer.new.server (upcoming (own_in peer.new.source)) g }
    ensures client { peer.new.client ≡ peer.old.client }
{
    let PeerArrival {
        now,
        mid,
        bytes,
        out,
    } = arrival;
    let Taken { outcome, reply } = peer.take(*now, *mid, bytes, out);
    if let Outcome::KeeperFailed = outcome {
        let entry = ServerEntry::Took {
            seen: Seen::KeeperFailed,
            reply: &[],
        };
        return (entry, None);
    }
    let (seen, ticket) = outcome.part();
    let entry = ServerEntry::Took {
        seen,
        reply: &out[..reply],
    };
    (entry, ticket)
}

/// Serves a datagram that may be a request. The entry borrows from its arrival.
pub(crate) fn serve_datagram<'a, R: RecordKeeper, const N: usize>(
    peer: &mut KeptPeer<R, N>,
    arrival: &'a mut PeerArrival,
    tickets: &[Option<Ticket>],
) -> (PeerEntry<'a>, Option<Ticket>)
    ensures { Calls peer.old tickets.now (PeerEvent.Datagram arrival.old) result.0 peer.new tickets.now result.1 }
{
    let (entry, ticket) = take_arrival(peer, arrival);
    (PeerEntry::Served(entry), ticket)
}

/// Takes a datagram of which no request is delivered that isn't known to be as fresh as is wished. The entry borrows from its arrival.
fn take_fresh<'a, R: RecordKeeper, const N: usize>(
    peer: &mut KeptPeer<R, N>,
    wishes: &mut Wishes,
    arrival: &'a mut PeerArrival,
) -> (PeerEntry<'a>, Option<Ticket>)
    ensures served { (h : History) → ServerIsBehind peer.old.server (upcoming (own_in peer.old.source)) h
        → (g : History) × FreshStep h peer.old.source (last_of wishes.old) wishes.old.fresh_ms arrival.old result.0
        g peer.new.source (last_of wishes.new) (option_map values_of result.1) × ServerIsBehind peer.new.server (upcoming (own_in peer.new.source)) g }
    ensures client { peer.new.client ≡ peer.old.client }
{
    let PeerArrival {
        now,
        mid,
        bytes,
        out,
    } = arrival;
    let Decided { decision, reply } = match wishes.decide(peer, *now, *mid, bytes, out) {
        Ok(DecidedFresh::Decided(decided)) => decided,
        Ok(DecidedFresh::Challenged(len)) => {
            let number = sealed_number(true, wishes.challenge_number());
            let datagram = &out[..len];
            let sealed = SealedResponse { number, datagram };
            return (PeerEntry::Challenged(Ok(sealed)), None);
        }
        Ok(DecidedFresh::Unanswered(error)) => return (PeerEntry::Challenged(Err(error)), None),
        Err(KeeperError) => {
            let entry = ServerEntry::Took {
                seen: Seen::KeeperFailed,
                reply: &[],
            };
            return (PeerEntry::Served(entry), None);
        }
    };
    let (seen, ticket) = decision.outcome(bytes).part();
    let entry = ServerEntry::Took {
        seen,
        reply: &out[..reply],
    };
    (PeerEntry::Served(entry), ticket)
}

/// Serves a datagram of which no request is delivered that isn't known to be so fresh. The entry borrows from its arrival.
pub(crate) fn serve_fresh<'a, R: RecordKeeper, const N: usize>(
    peer: &mut KeptPeer<R, N>,
    wishes: &mut Wishes,
    fresh_ms: u64,
    arrival: &'a mut PeerArrival,
    tickets: &[Option<Ticket>],
) -> (PeerEntry<'a>, Option<Ticket>)
    ensures { (heard : Option (List ℕ)) → CallsOver peer.old (record { last = last_of wishes.old; heard = heard }) tickets.now (PeerEvent.Fresh fresh_ms arrival.old) result.0
        peer.new (record { last = last_of wishes.new; heard = heard }) tickets.now result.1 }
{
    wishes.fresh_ms = fresh_ms;
    take_fresh(peer, wishes, arrival)
}

/// Seals a reply by the ticket at an index. The entry borrows from the room for the reply.
fn reply_at<'a, R: RecordKeeper, const N: usize>(
    peer: &mut KeptPeer<R, N>,
    tickets: &mut [Option<Ticket>],
    of: usize,
    own: bool,
    mid: u16,
    plain: &[u8],
    out: &'a mut [u8],
) -> ServerEntry<'a>
    ensures served { (h : History) → ServerIsBehind peer.old.server (upcoming (own_in peer.old.source)) h
        → (g : History) × ReplyStep h peer.old.source (values_in tickets.old) of own mid plain.now (length out.old) result g peer.new.source (values_in tickets.new)
        × ServerIsBehind peer.new.server (upcoming (own_in peer.new.source)) g }
    ensures client { peer.new.client ≡ peer.old.client }
{
    let Some(ticket) = take_out(tickets, of) else {
        return ServerEntry::NoTicket;
    };
    let message = match parse(plain) {
        Ok(message) => message,
        Err(error) => {
            put_back(tickets, of, ticket);
            return ServerEntry::BadPlain(error);
        }
    };
    let number = sealed_number(ticket.asks_own(own), Some(peer.upcoming()));
    match peer.reply(ticket, own, mid, &message, out) {
        Ok(len) => ServerEntry::Replied(Ok(SealedResponse {
            number,
            datagram: &out[..len],
        })),
        Err((error, ticket)) => {
            put_back(tickets, of, ticket);
            ServerEntry::Replied(Err(error))
        }
    }
}

/// Serves a reply. The entry borrows from the room for the reply.
pub(crate) fn serve_reply<'a, R: RecordKeeper, const N: usize>(
    peer: &mut KeptPeer<R, N>,
    answering: &'a mut Answering,
    tickets: &mut [Option<Ticket>],
) -> PeerEntry<'a>
    ensures { Calls peer.old tickets.old (PeerEvent.Reply answering.old) result peer.new tickets.new None }
{
    let Answering {
        of,
        own,
        mid,
        plain,
        out,
    } = answering;
    PeerEntry::Served(reply_at(peer, tickets, *of, *own, *mid, plain, out))
}

/// Seals a challenge by the ticket at an index, in place of a reply. The entry borrows from the room for it.
fn challenge_at<'a, R: RecordKeeper, const N: usize>(
    peer: &mut KeptPeer<R, N>,
    tickets: &mut [Option<Ticket>],
    of: usize,
    mid: u16,
    out: &'a mut [u8],
) -> ServerEntry<'a>
    ensures served { (h : History) → ServerIsBehind peer.old.server (upcoming (own_in peer.old.source)) h
        → (g : History) × ChallengeStep h peer.old.source (values_in tickets.old) of mid (length out.old) result g peer.new.source (values_in tickets.new)
        × ServerIsBehind peer.new.server (upcoming (own_in peer.new.source)) g }
    ensures client { peer.new.client ≡ peer.old.client }
{
    let Some(ticket) = take_out(tickets, of) else {
        return ServerEntry::NoTicket;
    };
    let number = sealed_number(true, Some(peer.upcoming()));
    match challenge(peer, ticket, mid, out) {
        Ok(len) => ServerEntry::Replied(Ok(SealedResponse {
            number,
            datagram: &out[..len],
        })),
        Err((error, ticket)) => {
            put_back(tickets, of, ticket);
            ServerEntry::Replied(Err(error))
        }
    }
}

/// Serves a challenge. The entry borrows from the room for it.
pub(crate) fn serve_challenge<'a, R: RecordKeeper, const N: usize>(
    peer: &mut KeptPeer<R, N>,
    challenging: &'a mut Challenging,
    tickets: &mut [Option<Ticket>],
) -> PeerEntry<'a>
    ensures { Calls peer.old tickets.old (PeerEvent.Challenge challenging.old) result peer.new tickets.new None }
{
    let Challenging { of, mid, out } = challenging;
    PeerEntry::Served(challenge_at(peer, tickets, *of, *mid, out))
}

/// Seals a notification by the ticket at an index, which stays there. The entry borrows from the room for the notification.
fn notify_at<'a, R: RecordKeeper, const N: usize>(
    peer: &mut KeptPeer<R, N>,
    tickets: &[Option<Ticket>],
    of: usize,
    plain: &[u8],
    out: &'a mut [u8],
) -> ServerEntry<'a>
    ensures served { (h : History) → ServerIsBehind peer.old.server (upcoming (own_in peer.old.source)) h
        → (g : History) × NotifyStep h peer.old.source (values_in tickets.now) of plain.now (length out.old) result g peer.new.source
        × ServerIsBehind peer.new.server (upcoming (own_in peer.new.source)) g }
    ensures client { peer.new.client ≡ peer.old.client }
{
    let Some(ticket) = ticket_at(tickets, of) else {
        return ServerEntry::NoTicket;
    };
    let message = match parse(plain) {
        Ok(message) => message,
        Err(error) => return ServerEntry::BadPlain(error),
    };
    let number = sealed_number(true, Some(peer.upcoming()));
    match peer.notify(ticket, &message, out) {
        Ok(len) => ServerEntry::Replied(Ok(SealedResponse {
            number,
            datagram: &out[..len],
        })),
        Err(error) => ServerEntry::Replied(Err(error)),
    }
}

/// Serves a notification. The entry borrows from the room for the notification.
pub(crate) fn serve_notification<'a, R: RecordKeeper, const N: usize>(
    peer: &mut KeptPeer<R, N>,
    notifying: &'a mut Notifying,
    tickets: &[Option<Ticket>],
) -> PeerEntry<'a>
    ensures { Calls peer.old tickets.now (PeerEvent.Notify notifying.old) result peer.new tickets.now None }
{
    let Notifying { of, plain, out } = notifying;
    PeerEntry::Served(notify_at(peer, tickets, *of, plain, out))
}

/// Drops the ticket at an index; the peer isn't told. The entry borrows nothing.
pub(crate) fn drop_ticket<'a>(tickets: &mut [Option<Ticket>], of: usize) -> ServerEntry<'a>
    ensures { (h : History) → DropStep h (values_in tickets.old) of result h (values_in tickets.new) }
{
    ServerEntry::Dropped(take_out(tickets, of).is_some())
}
