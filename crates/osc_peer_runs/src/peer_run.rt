//! A peer over a list of events.

ghost use Rattle.std.specs.Prelude.{◌≡◌, ◌<◌, ◌≤◌, [], All, List, Option, length, take, drop, vec_len, OnOk, OnErr};
ghost use Rattle.osc_client.specs.ClientHistory as asked;
ghost use Rattle.osc_life.specs.ServerHistory as served;
ghost use Rattle.osc_peer_runs.specs.PeerCalls.{CallsOver, IsBehind, echoes_of};
ghost use Rattle.osc_peer_runs.specs.PeerRuns.{DeliversBelow, Echoes, PeerRun, peer_state, with_echoes};

use crate::asking::{make_echo_request, make_request};
use crate::echo_memory::EchoMemory;
use crate::peer_event::{PeerEntry, PeerEvent};
use crate::serving::{
    drop_ticket, serve_challenge, serve_datagram, serve_fresh, serve_notification, serve_reply,
};
use osc_context::RecordKeeper;
use osc_endpoint::siblings::make_places;
use osc_endpoint::{ClientEntry, Ticket};
use osc_kept_ends::KeptPeer;
use std::alloc::{AllocError, Global};
use std::mem;

/// Runs one event, whose entry borrows from it. Returns the entry, and the ticket that it gives, if it gives one. `tickets` has a place for
/// each event before, with the ticket that is left of it.
pub fn run_peer_event<'a, R: RecordKeeper, const N: usize>(
    peer: &mut KeptPeer<R, N>,
    memory: &mut EchoMemory,
    event: &'a mut PeerEvent,
    tickets: &mut [Option<Ticket>],
) -> (PeerEntry<'a>, Option<Ticket>)
    ensures { CallsOver peer.old (echoes_of memory.old) tickets.old event.old result.0 peer.new (echoes_of memory.new) tickets.new result.1 }
{
    match event {
        PeerEvent::Datagram(arrival) => serve_datagram(peer, arrival, tickets),
        PeerEvent::Fresh { fresh_ms, arrival } => {
            serve_fresh(peer, &mut memory.wishes, *fresh_ms, arrival, tickets)
        }
        PeerEvent::Reply(answering) => (serve_reply(peer, answering, tickets), None),
        PeerEvent::Challenge(challenging) => (serve_challenge(peer, challenging, tickets), None),
        PeerEvent::Notify(notifying) => (serve_notification(peer, notifying, tickets), None),
        PeerEvent::Drop { of } => (PeerEntry::Served(drop_ticket(tickets, *of)), None),
        PeerEvent::Request { now, plain, out } => {
            (PeerEntry::Asked(make_request(peer, *now, plain, out)), None)
        }
        PeerEvent::Echo {
            now,
            plain,
            room,
            out,
        } => {
            let entry = make_echo_request(peer, &memory.heard, *now, plain, room, out);
            (entry, None)
        }
        PeerEvent::Response { now, bytes } => {
            let outcome = memory.heard.hear(peer, *now, bytes);
            (PeerEntry::Asked(ClientEntry::Took(outcome)), None)
        }
        PeerEvent::Follow { now, bytes } => {
            let followed = memory.heard.follow(peer, *now, bytes);
            (PeerEntry::Followed(followed), None)
        }
        PeerEvent::Forget { token } => {
            let was_pending = peer.forget(token);
            (PeerEntry::Asked(ClientEntry::Forgot(was_pending)), None)
        }
        PeerEvent::Advance { now } => {
            peer.advance(*now);
            (PeerEntry::Advanced, None)
        }
    }
}

/// Runs a peer over events. The log gets the entry of each event, at the event's index, and the entries borrow from the events. The run
/// keeps the tickets: an event names one by the index of the event that gave it. The run stops early only if memory for an entry is
/// refused. In that case the log has the entries of the events before, and `events` is what is left of them, as it was passed in. Each
/// request that the log delivers has a number below what the record holds at the end: no later life delivers it again.
pub fn run_kept_peer_on<'a, R: RecordKeeper, const N: usize>(
    alloc: Global,
    peer: &mut KeptPeer<R, N>,
    events: &mut &'a mut [PeerEvent],
    log: &mut Vec<PeerEntry<'a>>,
) -> Result<(), AllocError>
    requires { log.old.items ≡ [] }
    ensures run { (h : served.History) (k : asked.History) → IsBehind peer.old h k → (g : served.History) × (m : asked.History) × (us : List (Option served.TicketValues)) × (echoes : Echoes)
        × PeerRun N (peer_state h k peer.old.source []) (take (vec_len log.new) events.old.now) log.new.items (with_echoes echoes (peer_state g m peer.new.source us)) × IsBehind peer.new g m }
    ensures kept { All (DeliversBelow (R.received_floor peer.new.source.keeper)) log.new.items }
    ensures rises { R.received_floor peer.old.source.keeper ≤ R.received_floor peer.new.source.keeper }
    ensures rest { events.new.now ≡ drop (vec_len log.new) events.old.now }
    ensures all { OnOk result (vec_len log.new ≡ length events.old.now) }
    ensures fewer { OnErr result (vec_len log.new < length events.old.now) }
{
    let mut tickets = Vec::new(alloc);
    let mut memory = EchoMemory::new();
    let mut rest = mem::take(events);
    while !rest.is_empty() {
        if let Err(error) = make_places(log, &mut tickets) {
            *events = rest;
            return Err(error);
        }
        let (front, tail) = rest.split_at_mut(1);
        let (entry, ticket) = run_peer_event(peer, &mut memory, &mut front[0], &mut tickets);
        log.push_reserved(entry);
        tickets.push_reserved(ticket);
        rest = tail;
    }
    *events = rest;
    Ok(())
}

/// Runs a peer over events, as [`run_kept_peer_on`] does. It doesn't return what is left of them.
pub fn run_kept_peer<'a, R: RecordKeeper, const N: usize>(
    alloc: Global,
    peer: &mut KeptPeer<R, N>,
    events: &'a mut [PeerEvent],
    log: &mut Vec<PeerEntry<'a>>,
) -> Result<(), AllocError>
    requires { log.old.items ≡ [] }
    ensures run { (h : served.History) (k : asked.History) → IsBehind peer.old h k → (g : served.History) × (m : asked.History) × (us : List (Option served.TicketValues)) × (echoes : Echoes)
        × PeerRun N (peer_state h k peer.old.source []) (take (vec_len log.new) events.old) log.new.items (with_echoes echoes (peer_state g m peer.new.source us)) × IsBehind peer.new g m }
    ensures kept { All (DeliversBelow (R.received_floor peer.new.source.keeper)) log.new.items }
    ensures rises { R.received_floor peer.old.source.keeper ≤ R.received_floor peer.new.source.keeper }
    ensures all { OnOk result (vec_len log.new ≡ length events.old) }
    ensures fewer { OnErr result (vec_len log.new < length events.old) }
{
    let mut rest = events;
    run_kept_peer_on(alloc, peer, &mut rest, log)
}
