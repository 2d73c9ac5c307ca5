//! The calls of a client's steps, over whichever client it is.

use crate::answer::Answer;
use crate::client_end::ClientEnd;
use crate::client_entry::show;
use crate::client_events::{event_of, show_left};
use crate::refusal::{Made, Refusal, show_word};
use crate::steps::{Step, Way};
use osc_coap::parse;
use osc_endpoint::{ClientEntry, ClientEvent};
use osc_protect::head_of_request;

/// Makes a request. The call returns only a length, so the number is read from the bytes.
fn request<'a, C: ClientEnd>(
    client: &mut C,
    now: u64,
    plain: &[u8],
    out: &'a mut [u8],
) -> Made<ClientEntry<'a>> {
    let plain = match parse(plain) {
        Ok(plain) => plain,
        Err(fault) => {
            // In a run the clock moves then too.
            let _moved = client.advance(now);
            return Ok(ClientEntry::BadPlain(fault));
        }
    };
    let len = client.request(now, &plain, out)?;
    let datagram = out.get(..len).ok_or(Refusal::Bad)?;
    match head_of_request(datagram) {
        Ok(head) => Ok(ClientEntry::Sent {
            number: head.number,
            datagram,
        }),
        Err(_) => Err(Refusal::Bad),
    }
}

/// Takes a datagram, by one call or by its two halves.
fn take<'a, C: ClientEnd>(
    client: &mut C,
    now: u64,
    bytes: &'a mut [u8],
    way: Way,
) -> Made<ClientEntry<'a>> {
    let outcome = if way == Way::ByHalves {
        client.halves(now, bytes)?
    } else {
        client.take(now, bytes)?
    };
    Ok(ClientEntry::Took(outcome))
}

/// Makes the call of an event.
fn call<'a, C: ClientEnd>(
    client: &mut C,
    event: &'a mut ClientEvent,
    way: Way,
) -> Made<ClientEntry<'a>> {
    match event {
        ClientEvent::Request { now, plain, out } => request(client, *now, plain, out),
        ClientEvent::Datagram { now, bytes } => take(client, *now, bytes, way),
        ClientEvent::Forget { token } => {
            let was_pending = client.forget(token)?;
            Ok(ClientEntry::Forgot(was_pending))
        }
        ClientEvent::Restart { next } => {
            client.restart(*next)?;
            Ok(ClientEntry::Restarted)
        }
    }
}

/// Makes a step that is no event.
fn make_other<C: ClientEnd>(client: &mut C, step: &Step<'_>, answer: &mut Answer) {
    match step.verb {
        "next" => match client.next() {
            Ok(number) => answer.print(number),
            Err(refusal) => refusal.show(answer),
        },
        "advance" => {
            let advanced = client.advance(step.fields.number(0));
            show_word(advanced.map(|()| "advanced"), answer);
        }
        _ => show_word(client.other(step), answer),
    }
}

/// Makes a step of a client.
pub(crate) fn make_step<C: ClientEnd>(
    client: &mut C,
    step: &Step<'_>,
    way: Way,
    answer: &mut Answer,
    left: &mut Answer,
) {
    let Some(mut event) = event_of(step) else {
        return make_other(client, step, answer);
    };
    match call(client, &mut event, way) {
        Ok(entry) => show(&entry, answer),
        Err(refusal) => refusal.show(answer),
    }
    show_left(step, &event, left);
}

/// Makes steps of a client, one call each, and returns what they leave.
pub(crate) fn make<C: ClientEnd>(
    client: &mut C,
    steps: &[Step<'_>],
    way: Way,
    answer: &mut Answer,
) -> Answer {
    let mut left = Answer::new(answer.alloc);
    for step in steps {
        make_step(client, step, way, answer, &mut left);
        answer.word(";");
    }
    left
}
