//! Runs a server over a list of events.

ghost use Rattle.std.specs.Prelude.{◌≡◌, ◌<◌, ◌^◌, ℕ, [], List, Option, None, Some, true, if◌then◌else◌, length, take, drop, vec_len, OnOk, OnErr};
ghost use Rattle.std.specs.Option.{option_map};
ghost use Rattle.osc_context.specs.Views.{number_of};
ghost use Rattle.osc_endpoint.specs.Agrees.{Agrees};
ghost use Rattle.osc_endpoint.specs.Tickets.{TakesTickets};
ghost use Rattle.osc_life.specs.ServerHistory.{History, TicketValues};
ghost use Rattle.osc_endpoint.specs.ServerRun.{DropStep, NotifyStep, ReplyStep, Run, values_in};
ghost use Rattle.osc_endpoint.specs.Serving.{Serves};
ghost use Rattle.osc_life.specs.Views.{values_of};

use crate::server::ServerOf;
use crate::server_event::{
    Answering, Arrival, Notifying, SealedResponse, ServerEntry, ServerEvent,
};
use osc_coap::parse;
use osc_context::Piv;
use osc_life::siblings::{make_places, put_back, take_out, ticket_at};
use osc_life::{Taken, Ticket};
use std::alloc::{AllocError, Global};
use std::mem;

/// Runs a datagram, whose entry borrows from it.
fn serve_datagram<'a, const N: usize>(
    server: &mut ServerOf<N>,
    arrival: &'a mut Arrival,
) -> (ServerEntry<'a>, Option<Ticket>)
    ensures { (h : History) (ts : List (Option TicketValues)) → Agrees server.old h
        → (g : History) × Serves h ts (ServerEvent.Datagram arrival.old) result.0 (option_map values_of result.1) g ts
        × Agrees server.new g }
{
    let Arrival {
        now,
        fresh,
        bytes,
        out,
    } = arrival;
    let Taken { outcome, reply } = server.take(*now, *fresh, bytes, out);
    let (seen, ticket) = outcome.part();
    let entry = ServerEntry::Took {
        seen,
        reply: &out[..reply],
    };
    (entry, ticket)
}

/// Returns the Sender Sequence Number of the response that is sealed next, if it has a Partial IV of its own. `next` is the number with which
/// its context seals next (RFC 8613, 8.3).
#[must_use]
pub fn sealed_number(own: bool, next: Option<u64>) -> Option<Piv>
    ensures { (n : ℕ) → next ≡ Some n → (own ≡ true → n < 2 ^ 40) → option_map number_of result ≡ (if own then Some n else None) }
{
    match next {
        Some(next) if own => Piv::new(next),
        _ => None,
    }
}

/// Runs a reply by the ticket at an index. The entry borrows from the room for the reply.
fn serve_reply<'a, const N: usize>(
    server: &mut ServerOf<N>,
    tickets: &mut [Option<Ticket>],
    of: usize,
    own: bool,
    mid: u16,
    plain: &[u8],
    out: &'a mut [u8],
) -> ServerEntry<'a>
    ensures { (h : History) → Agrees server.old h
        → (g : History) × ReplyStep h (values_in tickets.old) of own mid plain.now (length out.old) result g (values_in tickets.new)
        × Agrees server.new g }
{
    let Some(ticket) = take_out(tickets, of) else {
        return ServerEntry::NoTicket;
    };
    let message = match parse(plain) {
        Ok(message) => message,
        Err(error) => {
            put_back(tickets, of, ticket);
            return ServerEntry::BadPlain(error);
        }
    };
    let number = sealed_number(ticket.asks_own(own), server.next(ticket.context()));
    match server.reply(ticket, own, mid, &message, out) {
        Ok(len) => ServerEntry::Replied(Ok(SealedResponse {
            number,
            datagram: &out[..len],
        })),
        Err((error, ticket)) => {
            put_back(tickets, of, ticket);
            ServerEntry::Replied(Err(error))
        }
    }
}

/// Runs a reply, whose entry borrows from the room for it.
fn serve_answering<'a, const N: usize>(
    server: &mut ServerOf<N>,
    answering: &'a mut Answering,
    tickets: &mut [Option<Ticket>],
) -> ServerEntry<'a>
    ensures { (h : History) → Agrees server.old h
        → (g : History) × Serves h (values_in tickets.old) (ServerEvent.Reply answering.old) result None g (values_in tickets.new)
        × Agrees server.new g }
{
    let Answering {
        of,
        own,
        mid,
        plain,
        out,
    } = answering;
    serve_reply(server, tickets, *of, *own, *mid, plain, out)
}

/// Runs a notification by the ticket at an index, which stays there. The entry borrows from the room for the notification.
fn serve_notify<'a, const N: usize>(
    server: &mut ServerOf<N>,
    tickets: &[Option<Ticket>],
    of: usize,
    plain: &[u8],
    out: &'a mut [u8],
) -> ServerEntry<'a>
    ensures { (h : History) → Agrees server.old h
        → (g : History) × NotifyStep h (values_in tickets.now) of plain.now (length out.old) result g × Agrees server.new g }
{
    let Some(ticket) = ticket_at(tickets, of) else {
        return ServerEntry::NoTicket;
    };
    let message = match parse(plain) {
        Ok(message) => message,
        Err(error) => return ServerEntry::BadPlain(error),
    };
    let number = sealed_number(true, server.next(ticket.context()));
    match server.notify(ticket, &message, out) {
        Ok(len) => ServerEntry::Replied(Ok(SealedResponse {
            number,
            datagram: &out[..len],
        })),
        Err(error) => ServerEntry::Replied(Err(error)),
    }
}

/// Runs a notification, whose entry borrows from the room for it.
fn serve_notifying<'a, const N: usize>(
    server: &mut ServerOf<N>,
    notifying: &'a mut Notifying,
    tickets: &[Option<Ticket>],
) -> ServerEntry<'a>
    ensures { (h : History) → Agrees server.old h
        → (g : History) × Serves h (values_in tickets.now) (ServerEvent.Notify notifying.old) result None g (values_in tickets.now)
        × Agrees server.new g }
{
    let Notifying { of, plain, out } = notifying;
    serve_notify(server, tickets, *of, plain, out)
}

/// Drops the ticket at an index. The entry borrows nothing.
fn drop_ticket<'a>(tickets: &mut [Option<Ticket>], of: usize) -> ServerEntry<'a>
    ensures { (h : History) → DropStep h (values_in tickets.old) of result h (values_in tickets.new) }
{
    ServerEntry::Dropped(take_out(tickets, of).is_some())
}

/// Runs a restart, whose entry borrows nothing.
fn serve_restart<'a, const N: usize>(
    server: &mut ServerOf<N>,
    context: usize,
    next: Piv,
) -> ServerEntry<'a>
    ensures { (h : History) (ts : List (Option TicketValues)) → Agrees server.old h
        → (g : History) × Serves h ts (ServerEvent.Restart context next) result None g ts × Agrees server.new g }
{
    ServerEntry::Restarted(server.restart(context, next))
}

/// Runs one event, whose entry borrows from it. Returns the entry, and the ticket that a delivery gives. `tickets` has a place for each event
/// before, with the ticket that is left of it.
pub fn serve_event<'a, const N: usize>(
    server: &mut ServerOf<N>,
    event: &'a mut ServerEvent,
    tickets: &mut [Option<Ticket>],
) -> (ServerEntry<'a>, Option<Ticket>)
    ensures { (h : History) → Agrees server.old h
        → (g : History) × Serves h (values_in tickets.old) event.old result.0 (option_map values_of result.1) g (values_in tickets.new)
        × Agrees server.new g }
{
    match event {
        ServerEvent::Datagram(arrival) => serve_datagram(server, arrival),
        ServerEvent::Reply(answering) => (serve_answering(server, answering, tickets), None),
        ServerEvent::Notify(notifying) => (serve_notifying(server, notifying, tickets), None),
        ServerEvent::Drop { of } => (drop_ticket(tickets, *of), None),
        ServerEvent::Restart { context, next } => (serve_restart(server, *context, *next), None),
    }
}

/// Runs a server over events. The log gets the entry of each event, at the event's index. The entries borrow from the events. The run stops
/// early only if memory for an entry is refused. In that case the log has the entries of the events before, and `events` is what is left of
/// them, as it was passed in.
pub fn run_server_on<'a, const N: usize>(
    alloc: Global,
    server: &mut ServerOf<N>,
    events: &mut &'a mut [ServerEvent],
    log: &mut Vec<ServerEntry<'a>>,
) -> Result<(), AllocError>
    requires { log.old.items ≡ [] }
    ensures run { (h : History) → Agrees server.old h → (g : History) × (us : List (Option TicketValues))
        × Run h [] (take (vec_len log.new) events.old.now) log.new.items g us × Agrees server.new g }
    ensures tickets { (h g : History) (us : List (Option TicketValues))
        → Run h [] (take (vec_len log.new) events.old.now) log.new.items g us → TakesTickets h → TakesTickets g }
    ensures rest { events.new.now ≡ drop (vec_len log.new) events.old.now }
    ensures all { OnOk result (vec_len log.new ≡ length events.old.now) }
    ensures fewer { OnErr result (vec_len log.new < length events.old.now) }
{
    let mut tickets = Vec::new(alloc);
    let mut rest = mem::take(events);
    while !rest.is_empty() {
        if let Err(error) = make_places(log, &mut tickets) {
            *events = rest;
            return Err(error);
        }
        let (front, tail) = rest.split_at_mut(1);
        let (entry, ticket) = serve_event(server, &mut front[0], &mut tickets);
        log.push_reserved(entry);
        tickets.push_reserved(ticket);
        rest = tail;
    }
    *events = rest;
    Ok(())
}

/// Runs a server over events, as [`run_server_on`] does. It doesn't return what is left of them.
pub fn run_server<'a, const N: usize>(
    alloc: Global,
    server: &mut ServerOf<N>,
    events: &'a mut [ServerEvent],
    log: &mut Vec<ServerEntry<'a>>,
) -> Result<(), AllocError>
    requires { log.old.items ≡ [] }
    ensures run { (h : History) → Agrees server.old h → (g : History) × (us : List (Option TicketValues))
        × Run h [] (take (vec_len log.new) events.old) log.new.items g us × Agrees server.new g }
    ensures tickets { (h g : History) (us : List (Option TicketValues))
        → Run h [] (take (vec_len log.new) events.old) log.new.items g us → TakesTickets h → TakesTickets g }
    ensures all { OnOk result (vec_len log.new ≡ length events.old) }
    ensures fewer { OnErr result (vec_len log.new < length events.old) }
{
    let mut rest = events;
    run_server_on(alloc, server, &mut rest, log)
}
