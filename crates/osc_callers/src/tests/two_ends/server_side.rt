//! What the server does in an event. If the server's keeper failed, each call returns the server as its error.

use super::datagram::{number_in, read};
use super::log::{Entry, Payload, Request, Response};
use super::messages::reply_text;
use super::plan::End;
use super::world::{Job, World};
use crate::tests::kept::exchange::Server;
use osc_coap::parse;
use osc_endpoint::{Fresh, Outcome, ReplyError, Taken, Ticket};
use std::process::Abort;

/// Takes a datagram that arrives at the server. The server delivers or challenges the request, or refuses its number.
pub fn take_request(
    rt: &impl Abort,
    world: &mut World,
    server: &mut Server<'_>,
    mut datagram: Vec<u8>,
) -> Result<(), End> {
    let number = number_in(&datagram).expect(rt, "a number");
    let mut out = [0u8; 64];
    let fresh = Fresh {
        echo: [world.events; 8],
        mid: 0,
    };
    let Taken { outcome, reply } = server.take(world.events.into(), fresh, &mut datagram, &mut out);
    match outcome {
        Outcome::Deliver(opened, ticket) => {
            let payload = Payload::read(opened.payload).expect(rt, "a payload");
            let request = Request { number, payload };
            world.note(rt, Entry::RequestDelivered(request));
            world.will(rt, Job::Answer(request, ticket));
        }
        Outcome::Challenge { .. } => send_sealed(rt, world, number, None, &out[..reply]),
        Outcome::Replay => world.send(rt, End::Client, &out[..reply]),
        Outcome::KeeperFailed => return Err(End::Server),
        _ => rt.abort(),
    }
    Ok(())
}

/// Has the application answer a request. It answers the request with token 1 under a Partial IV of its own. A ticket of an earlier life is
/// refused.
pub fn answer(
    rt: &impl Abort,
    world: &mut World,
    server: &mut Server<'_>,
    request: Request,
    ticket: Ticket,
) -> Result<(), End> {
    let Request { number, payload } = request;
    let text = reply_text(payload);
    let message = parse(&text).expect(rt, "a message");
    let mut out = [0u8; 64];
    match server.reply(ticket, payload.token == 1, 0, &message, &mut out) {
        Ok(len) => send_sealed(rt, world, number, Some(payload), &out[..len]),
        Err((ReplyError::StaleTicket, _)) => {}
        Err((ReplyError::KeeperFailed, _)) => return Err(End::Server),
        Err(_) => rt.abort(),
    }
    Ok(())
}

/// Notes a response that the server sealed to the request with this number, and sends it.
fn send_sealed(
    rt: &impl Abort,
    world: &mut World,
    request: u64,
    payload: Option<Payload>,
    datagram: &[u8],
) {
    let front = read(datagram).expect(rt, "an OSCORE option");
    world.note(
        rt,
        Entry::ResponseSealed(Response {
            token: front.token,
            request,
            own: front.number,
            payload,
        }),
    );
    world.send(rt, End::Client, datagram);
}
