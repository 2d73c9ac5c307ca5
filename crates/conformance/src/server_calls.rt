//! The calls of a server's steps, over whichever server it is.

use crate::answer::Answer;
use crate::refusal::{Made, Refusal, show_word};
use crate::server_end::{Moment, Reply, ServerEnd};
use crate::server_entry::{number_in, show};
use crate::server_events::{addition, event_of, show_left};
use crate::steps::{Step, Way};
use osc_coap::parse;
use osc_endpoint::siblings::{put_back, take_out, ticket_at};
use osc_endpoint::{
    Answering, Arrival, Notifying, SealedResponse, ServerEntry, ServerEvent, Taken, Ticket,
};

/// Takes a datagram, by one call, by its two halves, or by the call that counts. Returns the ticket of a delivery too.
fn take<'a, S: ServerEnd>(
    server: &mut S,
    arrival: &'a mut Arrival,
    way: Way,
) -> Made<(ServerEntry<'a>, Option<Ticket>)> {
    let Arrival {
        now,
        fresh,
        bytes,
        out,
    } = arrival;
    let (now, fresh) = (*now, *fresh);
    let at = Moment { now, fresh };
    let Taken { outcome, reply } = match way {
        Way::ByHalves => server.halves(at, bytes, out)?,
        Way::Counted => server.counted(at, bytes, out)?,
        Way::CountedByHalves => server.counted_halves(at, bytes, out)?,
        _ => server.take(at, bytes, out)?,
    };
    let (seen, ticket) = outcome.part();
    let reply = out.get(..reply).ok_or(Refusal::Bad)?;
    Ok((ServerEntry::Took { seen, reply }, ticket))
}

/// Returns the entry of a message that was sealed into a room. The call returns only a length, so the number is read from the bytes.
fn sealed(len: usize, out: &[u8]) -> Made<ServerEntry<'_>> {
    let datagram = out.get(..len).ok_or(Refusal::Bad)?;
    let number = number_in(datagram);
    Ok(ServerEntry::Replied(Ok(SealedResponse { number, datagram })))
}

/// Replies to the request of an earlier event.
fn reply<'a, S: ServerEnd>(
    server: &mut S,
    tickets: &mut [Option<Ticket>],
    answering: &'a mut Answering,
) -> Made<ServerEntry<'a>> {
    let (of, own, mid) = (answering.of, answering.own, answering.mid);
    let Some(ticket) = take_out(tickets, of) else {
        return Ok(ServerEntry::NoTicket);
    };
    let plain = match parse(&answering.plain) {
        Ok(plain) => plain,
        Err(fault) => {
            put_back(tickets, of, ticket);
            return Ok(ServerEntry::BadPlain(fault));
        }
    };
    let (reply, out) = (Reply { own, mid, plain }, answering.out.as_mut_slice());
    let (len, ticket) = server.reply(ticket, &reply, out);
    if let Some(ticket) = ticket {
        put_back(tickets, of, ticket);
    }
    sealed(len?, out)
}

/// Notifies the requester of an earlier event. The ticket stays.
fn notify<'a, S: ServerEnd>(
    server: &mut S,
    tickets: &[Option<Ticket>],
    notifying: &'a mut Notifying,
) -> Made<ServerEntry<'a>> {
    let Some(ticket) = ticket_at(tickets, notifying.of) else {
        return Ok(ServerEntry::NoTicket);
    };
    let plain = match parse(&notifying.plain) {
        Ok(plain) => plain,
        Err(fault) => return Ok(ServerEntry::BadPlain(fault)),
    };
    let out = notifying.out.as_mut_slice();
    let len = server.notify(ticket, &plain, out)?;
    sealed(len, out)
}

/// Makes the call of an event. Returns the ticket of a delivery too.
fn call<'a, S: ServerEnd>(
    server: &mut S,
    tickets: &mut [Option<Ticket>],
    event: &'a mut ServerEvent,
    way: Way,
) -> Made<(ServerEntry<'a>, Option<Ticket>)> {
    match event {
        ServerEvent::Datagram(arrival) => take(server, arrival, way),
        ServerEvent::Reply(answering) => Ok((reply(server, tickets, answering)?, None)),
        ServerEvent::Notify(notifying) => Ok((notify(server, tickets, notifying)?, None)),
        ServerEvent::Drop { of } => {
            let dropped = take_out(tickets, *of).is_some();
            Ok((ServerEntry::Dropped(dropped), None))
        }
        ServerEvent::Restart { context, next } => {
            server.restart(*context, *next)?;
            Ok((ServerEntry::Restarted(Ok(())), None))
        }
    }
}

/// Adds a context, and shows its index.
fn add<S: ServerEnd>(server: &mut S, step: &Step<'_>, answer: &mut Answer) {
    let Some((context, start, size)) = addition(step) else {
        return;
    };
    let added = if step.verb == "add" {
        server.add(context, start, size)
    } else {
        server.add_distinct(context, start, size)
    };
    match added {
        Ok(index) => {
            answer.word("added");
            answer.print(index);
        }
        Err(refusal) => refusal.show(answer),
    }
}

/// Shows the next Sender Sequence Number of a context, or `none` if it isn't there.
fn show_next<S: ServerEnd>(server: &S, step: &Step<'_>, answer: &mut Answer) {
    step.fields.count(1);
    match server.next(step.fields.index(0)) {
        Ok(Some(number)) => answer.print(number),
        Ok(None) => answer.word("none"),
        Err(refusal) => refusal.show(answer),
    }
}

/// Makes an event, shows what came of it and what it leaves, and returns the ticket of a delivery.
fn make_event<S: ServerEnd>(
    server: &mut S,
    tickets: &mut [Option<Ticket>],
    step: &Step<'_>,
    way: Way,
    answer: &mut Answer,
    left: &mut Answer,
) -> Option<Ticket> {
    let Some(mut event) = event_of(step) else {
        show_word(server.other(step), answer);
        return None;
    };
    let way = if step.is_counted() {
        way.counted()
    } else {
        way
    };
    let ticket = match call(server, tickets, &mut event, way) {
        Ok((entry, ticket)) => {
            show(&entry, answer);
            ticket
        }
        Err(refusal) => {
            refusal.show(answer);
            None
        }
    };
    show_left(step, &event, left);
    ticket
}

/// Makes a step of a server. An event has a place for its ticket.
pub(crate) fn make_step<S: ServerEnd>(
    server: &mut S,
    tickets: &mut Vec<Option<Ticket>>,
    step: &Step<'_>,
    way: Way,
    answer: &mut Answer,
    left: &mut Answer,
) {
    match step.verb {
        "add" | "distinct" => add(server, step, answer),
        "advance" | "is-open" | "replace" | "skip" | "heed" | "errors" => {
            show_word(server.other(step), answer);
        }
        "next" => show_next(server, step, answer),
        _ => {
            let ticket = make_event(server, tickets, step, way, answer, left);
            if tickets.push(ticket).is_err() {
                answer.is_whole = false;
            }
        }
    }
}

/// Makes steps of a server, one call each, and returns what they leave.
pub(crate) fn make<S: ServerEnd>(
    server: &mut S,
    steps: &[Step<'_>],
    way: Way,
    answer: &mut Answer,
) -> Answer {
    let (mut tickets, mut left) = (Vec::new(answer.alloc), Answer::new(answer.alloc));
    for step in steps {
        make_step(server, &mut tickets, step, way, answer, &mut left);
        answer.word(";");
    }
    left
}
