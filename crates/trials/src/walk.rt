//! One call of each operation that docs/WALK.md follows. `.ci/walks` counts what the first four functions call, each of which is called once.

use crate::example::{FRESH, PLAIN_RESPONSE, SEALED, SERVER, context_of};
use osc_coap::parse;
use osc_context::{Context, Features, NO_FEATURES, Piv};
use osc_endpoint::{Client, ClientOutcome, Outcome, Server, Start, Ticket};
use osc_window::WindowSize;

/// A request that registers an observation, and the first notification to it, before they are sealed.
const PLAIN_REGISTRATION: [u8; 11] = [
    0x41, 0x01, 0x01, 0x01, 0x4a, 0x60, 0x54, 0x74, 0x65, 0x6d, 0x70,
];

const PLAIN_NOTIFICATION: [u8; 12] = [
    0x60, 0x45, 0x01, 0x01, 0x61, 0x01, 0x60, 0xff, 0x32, 0x30, 0x2e, 0x31,
];

/// Takes a request that is delivered.
fn delivery(server: &mut Server, datagram: &mut [u8], out: &mut [u8; 64]) -> Option<Ticket> {
    match server.take(0, FRESH, datagram, out).outcome {
        Outcome::Deliver(_, ticket) => Some(ticket),
        _ => None,
    }
}

/// Replies to it.
fn reply(server: &mut Server, ticket: Ticket, out: &mut [u8]) -> Option<usize> {
    let plain = parse(&PLAIN_RESPONSE).ok()?;
    server.reply(ticket, false, 0, &plain, out).ok()
}

/// Notifies a client that registered an observation.
fn notify(server: &mut Server, ticket: &Ticket, out: &mut [u8]) -> Option<usize> {
    let plain = parse(&PLAIN_NOTIFICATION).ok()?;
    server.notify(ticket, &plain, out).ok()
}

/// Takes that notification at the client.
fn hear(client: &mut Client<1>, datagram: &mut [u8]) -> Option<u8> {
    match client.take(0, datagram) {
        ClientOutcome::Notified(opened, _) => Some(opened.code),
        _ => None,
    }
}

/// Adds a context to a server that has none.
fn add(server: &mut Server, context: Context) -> Option<usize> {
    let start = Start::Fresh(Piv::new(0)?);
    server.add(context, start, WindowSize::default()).ok()
}

/// Takes the request of RFC 8613, C.4, and replies as in C.7.
fn exchange() -> Option<usize> {
    let mut server = Server::new();
    add(&mut server, context_of(SERVER, &[]).ok()?)?;
    let (mut datagram, mut out) = (SEALED, [0; 64]);
    let ticket = delivery(&mut server, &mut datagram, &mut out)?;
    reply(&mut server, ticket, &mut out)
}

/// Returns the context of one end of C.1, with Observe.
fn observing<'a>(sender: &'a [u8], recipient: &'a [u8]) -> Option<Context> {
    let context = context_of(sender, recipient).ok()?;
    Some(context.with_features(Features {
        observe: true,
        ..NO_FEATURES
    }))
}

/// Registers an observation, and notifies the client once.
fn observation() -> Option<u8> {
    let mut client = Client::<1>::new(observing(&[], SERVER)?, Piv::new(20)?, 60_000);
    let mut server = Server::new();
    add(&mut server, observing(SERVER, &[])?)?;
    let plain = parse(&PLAIN_REGISTRATION).ok()?;
    let (mut request, mut out) = ([0; 64], [0; 64]);
    let len = client.request(0, &plain, &mut request).ok()?;
    let datagram = request.get_mut(..len)?;
    let Outcome::Deliver(_, ticket) = server.take(0, FRESH, datagram, &mut out).outcome else {
        return None;
    };
    let len = notify(&mut server, &ticket, &mut out)?;
    hear(&mut client, out.get_mut(..len)?)
}

/// Makes the calls, and returns the status: 0 where each does what its name says.
pub(crate) fn run() -> u8 {
    match (exchange(), observation()) {
        (Some(_), Some(_)) => 0,
        _ => 1,
    }
}
