//! What the client does in an event.

use super::datagram::{Front, number_in, read};
use super::log::{Entry, Payload, Request, Response};
use super::messages::request_text;
use super::plan::End;
use super::world::{Job, World};
use crate::tests::kept::exchange::Client;
use osc_coap::option_numbers::ECHO;
use osc_coap::parse;
use osc_endpoint::{ClientOutcome, RequestError};
use osc_protect::Opened;
use std::process::Abort;

/// Has the client seal a request, and sends it. If the client's keeper failed, returns the client as the error.
pub fn ask(
    rt: &impl Abort,
    world: &mut World,
    client: &mut Client<'_>,
    token: u8,
    echo: Option<[u8; 8]>,
) -> Result<(), End> {
    let payload = Payload {
        token,
        event: world.events,
    };
    let text = request_text(world.alloc, payload, echo).expect(rt, "memory");
    let message = parse(&text).expect(rt, "a message");
    let mut out = [0u8; 64];
    let len = match client.request(world.events.into(), &message, &mut out) {
        Err(RequestError::KeeperFailed) => return Err(End::Client),
        answered => answered.expect(rt, "a request"),
    };
    let datagram = &out[..len];
    let number = number_in(datagram).expect(rt, "a number");
    world.note(rt, Entry::RequestSealed(Request { number, payload }));
    world.send(rt, End::Server, datagram);
    Ok(())
}

/// Takes a datagram that arrives at the client. A datagram that the client doesn't deliver changes nothing.
pub fn take_response(
    rt: &impl Abort,
    world: &mut World,
    client: &mut Client<'_>,
    mut datagram: Vec<u8>,
) {
    let front = read(&datagram);
    match client.take(world.events.into(), &mut datagram) {
        ClientOutcome::Deliver(opened, request) => {
            let front = front.expect(rt, "an OSCORE option");
            deliver(rt, world, front, request.number(), &opened);
        }
        ClientOutcome::UnknownToken | ClientOutcome::Unprotected | ClientOutcome::BadTag => {}
        _ => rt.abort(),
    }
}

/// Notes a response that the client delivered. After a challenge, this client asks again with the Echo value, by a new
/// request: here nothing is lost by doing a request twice.
fn deliver(rt: &impl Abort, world: &mut World, front: Front, request: u64, opened: &Opened<'_>) {
    let payload = Payload::read(opened.payload);
    world.note(
        rt,
        Entry::ResponseDelivered(Response {
            token: front.token,
            request,
            own: front.number,
            payload,
        }),
    );
    if payload.is_none() {
        let echo = echo_of(opened).expect(rt, "an Echo value");
        world.will(rt, Job::Ask(front.token, Some(echo)));
    }
}

/// Returns the Echo value of a challenge.
fn echo_of(opened: &Opened<'_>) -> Option<[u8; 8]> {
    match opened.inner().first(ECHO)? {
        [a, b, c, d, e, f, g, h] => Some([*a, *b, *c, *d, *e, *f, *g, *h]),
        _ => None,
    }
}
