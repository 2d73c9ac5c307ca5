//! A kept server over a list of events.

ghost use Rattle.std.specs.Prelude.{◌≡◌, ◌<◌, [], List, Option, None, length, take, drop, vec_len, OnOk, OnErr};
ghost use Rattle.std.specs.Option.{option_map};
ghost use Rattle.osc_life.specs.ServerHistory.{History, TicketValues};
ghost use Rattle.osc_endpoint.specs.ServerRun.{DropStep, values_in};
ghost use Rattle.osc_life.specs.Views.{values_of};
ghost use Rattle.osc_kept_runs.specs.KeptRuns.{ArrivalStep, NotifyStep, ReplyStep, RestartStep, Serves, ServerRun, server_state};
ghost use Rattle.osc_kept_ends.specs.KeptServing.{IsKept};
ghost use Rattle.osc_kept_ends.specs.Numbering.{upcoming};
ghost use Rattle.osc_kept_ends.specs.Owning.{own_in};

use crate::kept_event::{KeptServerEntry, KeptServerEvent};
use osc_coap::parse;
use osc_context::Keeper;
use osc_endpoint::siblings::{make_places, put_back, sealed_number, take_out, ticket_at};
use osc_endpoint::{
    Answering, Arrival, Notifying, Outcome, SealedResponse, Seen, ServerEntry, Taken, Ticket,
};
use osc_kept_ends::KeptServer;
use std::alloc::{AllocError, Global};
use std::mem;

/// Serves a datagram. The entry borrows from its arrival.
fn serve_datagram<'a, K: Keeper>(
    server: &mut KeptServer<K>,
    arrival: &'a mut Arrival,
) -> (ServerEntry<'a>, Option<Ticket>)
    ensures { (h : History) → IsKept server.old.server (upcoming (own_in server.old.source)) h
        → (g : History) × ArrivalStep h server.old.source arrival.old result.0 g server.new.source (option_map values_of result.1)
        × IsKept server.new.server (upcoming (own_in server.new.source)) g }
{
    let Arrival {
        now,
        fresh,
        bytes,
        out,
    } = arrival;
    let Taken { outcome, reply } = server.take(*now, *fresh, bytes, out);
    if let Outcome::KeeperFailed = outcome {
        let entry = ServerEntry::Took {
            seen: Seen::KeeperFailed,
            reply: &[],
        };
        return (entry, None);
    }
    let (seen, ticket) = outcome.part();
    let entry = ServerEntry::Took {
        seen,
        reply: &out[..reply],
    };
    (entry, ticket)
}

/// Seals a reply by the ticket at an index. The entry borrows from the room for the reply.
fn serve_reply<'a, K: Keeper>(
    server: &mut KeptServer<K>,
    tickets: &mut [Option<Ticket>],
    of: usize,
    own: bool,
    mid: u16,
    plain: &[u8],
    out: &'a mut [u8],
) -> ServerEntry<'a>
    ensures { (h : History) → IsKept server.old.server (upcoming (own_in server.old.source)) h
        → (g : History) × ReplyStep h server.old.source (values_in tickets.old) of own mid plain.now (length out.old) result g server.new.source (values_in tickets.new)
        × IsKept server.new.server (upcoming (own_in server.new.source)) g }
{
    let Some(ticket) = take_out(tickets, of) else {
        return ServerEntry::NoTicket;
    };
    let message = match parse(plain) {
        Ok(message) => message,
        Err(error) => {
            put_back(tickets, of, ticket);
            return ServerEntry::BadPlain(error);
        }
    };
    let number = sealed_number(ticket.asks_own(own), Some(server.upcoming()));
    match server.reply(ticket, own, mid, &message, out) {
        Ok(len) => ServerEntry::Replied(Ok(SealedResponse {
            number,
            datagram: &out[..len],
        })),
        Err((error, ticket)) => {
            put_back(tickets, of, ticket);
            ServerEntry::Replied(Err(error))
        }
    }
}

/// Serves a reply. The entry borrows from the room for the reply.
fn serve_answering<'a, K: Keeper>(
    server: &mut KeptServer<K>,
    answering: &'a mut Answering,
    tickets: &mut [Option<Ticket>],
) -> KeptServerEntry<'a>
    ensures { (h : History) → IsKept server.old.server (upcoming (own_in server.old.source)) h
        → (g : History) × Serves (server_state h server.old.source (values_in tickets.old)) (KeptServerEvent.Reply answering.old) result
        g server.new.source (values_in tickets.new) None
        × IsKept server.new.server (upcoming (own_in server.new.source)) g }
{
    let Answering {
        of,
        own,
        mid,
        plain,
        out,
    } = answering;
    KeptServerEntry::Served(serve_reply(server, tickets, *of, *own, *mid, plain, out))
}

/// Seals a notification by the ticket at an index, which stays there. The entry borrows from the room for the notification.
fn serve_notify<'a, K: Keeper>(
    server: &mut KeptServer<K>,
    tickets: &[Option<Ticket>],
    of: usize,
    plain: &[u8],
    out: &'a mut [u8],
) -> ServerEntry<'a>
    ensures { (h : History) → IsKept server.old.server (upcoming (own_in server.old.source)) h
        → (g : History) × NotifyStep h server.old.source (values_in tickets.now) of plain.now (length out.old) result g server.new.source
        × IsKept server.new.server (upcoming (own_in server.new.source)) g }
{
    let Some(ticket) = ticket_at(tickets, of) else {
        return ServerEntry::NoTicket;
    };
    let message = match parse(plain) {
        Ok(message) => message,
        Err(error) => return ServerEntry::BadPlain(error),
    };
    let number = sealed_number(true, Some(server.upcoming()));
    match server.notify(ticket, &message, out) {
        Ok(len) => ServerEntry::Replied(Ok(SealedResponse {
            number,
            datagram: &out[..len],
        })),
        Err(error) => ServerEntry::Replied(Err(error)),
    }
}

/// Serves a notification. The entry borrows from the room for the notification.
fn serve_notifying<'a, K: Keeper>(
    server: &mut KeptServer<K>,
    notifying: &'a mut Notifying,
    tickets: &[Option<Ticket>],
) -> KeptServerEntry<'a>
    ensures { (h : History) → IsKept server.old.server (upcoming (own_in server.old.source)) h
        → (g : History) × Serves (server_state h server.old.source (values_in tickets.now)) (KeptServerEvent.Notify notifying.old) result
        g server.new.source (values_in tickets.now) None
        × IsKept server.new.server (upcoming (own_in server.new.source)) g }
{
    let Notifying { of, plain, out } = notifying;
    KeptServerEntry::Served(serve_notify(server, tickets, *of, plain, out))
}

/// Drops the ticket at an index. The entry borrows nothing.
fn drop_ticket<'a>(tickets: &mut [Option<Ticket>], of: usize) -> ServerEntry<'a>
    ensures { (h : History) → DropStep h (values_in tickets.old) of result h (values_in tickets.new) }
{
    ServerEntry::Dropped(take_out(tickets, of).is_some())
}

/// Serves a restart. The entry borrows nothing.
fn serve_restart<'a, K: Keeper>(server: &mut KeptServer<K>) -> KeptServerEntry<'a>
    ensures { (h : History) → IsKept server.old.server (upcoming (own_in server.old.source)) h
        → (g : History) × RestartStep h server.old.source result g server.new.source
        × IsKept server.new.server (upcoming (own_in server.new.source)) g }
{
    KeptServerEntry::Restarted(server.restart())
}

/// Serves one event, whose entry borrows from it. Returns the entry, and the ticket that a delivery gives. `tickets` has a place for each
/// event before, with the ticket that is left of it.
pub fn serve_kept_event<'a, K: Keeper>(
    server: &mut KeptServer<K>,
    event: &'a mut KeptServerEvent,
    tickets: &mut [Option<Ticket>],
) -> (KeptServerEntry<'a>, Option<Ticket>)
    ensures { (h : History) → IsKept server.old.server (upcoming (own_in server.old.source)) h
        → (g : History) × Serves (server_state h server.old.source (values_in tickets.old)) event.old result.0
        g server.new.source (values_in tickets.new) (option_map values_of result.1)
        × IsKept server.new.server (upcoming (own_in server.new.source)) g }
{
    match event {
        KeptServerEvent::Datagram(arrival) => {
            let (entry, ticket) = serve_datagram(server, arrival);
            (KeptServerEntry::Served(entry), ticket)
        }
        KeptServerEvent::Reply(answering) => (serve_answering(server, answering, tickets), None),
        KeptServerEvent::Notify(notifying) => (serve_notifying(server, notifying, tickets), None),
        KeptServerEvent::Drop { of } => (KeptServerEntry::Served(drop_ticket(tickets, *of)), None),
        KeptServerEvent::Restart => (serve_restart(server), None),
    }
}

/// Runs a kept server over events. The log gets the entry of each event, at the event's index, and the entries borrow from the
/// events. The run stops early only if memory for an entry is refused. In that case the log has the entries of the events before, and
/// `events` is what is left of them, as it was passed in.
pub fn run_kept_server_on<'a, K: Keeper>(
    alloc: Global,
    server: &mut KeptServer<K>,
    events: &mut &'a mut [KeptServerEvent],
    log: &mut Vec<KeptServerEntry<'a>>,
) -> Result<(), AllocError>
    requires { log.old.items ≡ [] }
    ensures run { (h : History) → IsKept server.old.server (upcoming (own_in server.old.source)) h
        → (g : History) × (us : List (Option TicketValues))
        × ServerRun (server_state h server.old.source []) (take (vec_len log.new) events.old.now) log.new.items (server_state g server.new.source us)
        × IsKept server.new.server (upcoming (own_in server.new.source)) g }
    ensures rest { events.new.now ≡ drop (vec_len log.new) events.old.now }
    ensures all { OnOk result (vec_len log.new ≡ length events.old.now) }
    ensures fewer { OnErr result (vec_len log.new < length events.old.now) }
{
    let mut tickets = Vec::new(alloc);
    let mut rest = mem::take(events);
    while !rest.is_empty() {
        if let Err(error) = make_places(log, &mut tickets) {
            *events = rest;
            return Err(error);
        }
        let (front, tail) = rest.split_at_mut(1);
        let (entry, ticket) = serve_kept_event(server, &mut front[0], &mut tickets);
        log.push_reserved(entry);
        tickets.push_reserved(ticket);
        rest = tail;
    }
    *events = rest;
    Ok(())
}

/// Runs a kept server over events, as [`run_kept_server_on`] does. It doesn't return what is left of them.
pub fn run_kept_server<'a, K: Keeper>(
    alloc: Global,
    server: &mut KeptServer<K>,
    events: &'a mut [KeptServerEvent],
    log: &mut Vec<KeptServerEntry<'a>>,
) -> Result<(), AllocError>
    requires { log.old.items ≡ [] }
    ensures run { (h : History) → IsKept server.old.server (upcoming (own_in server.old.source)) h
        → (g : History) × (us : List (Option TicketValues))
        × ServerRun (server_state h server.old.source []) (take (vec_len log.new) events.old) log.new.items (server_state g server.new.source us)
        × IsKept server.new.server (upcoming (own_in server.new.source)) g }
    ensures all { OnOk result (vec_len log.new ≡ length events.old) }
    ensures fewer { OnErr result (vec_len log.new < length events.old) }
{
    let mut rest = events;
    run_kept_server_on(alloc, server, &mut rest, log)
}
