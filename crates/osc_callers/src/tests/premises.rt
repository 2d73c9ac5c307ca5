//! The list of events over which all premises on two ends hold (`osc_kept::premises_can_be_met`), run by a client and a server:
//! an exchange, a restart of both ends, a challenge, and a delivery through it.

mod steps;

ghost use Rattle.std.specs.Prelude.{IfSome, IsSome};
ghost use Rattle.osc_callers.specs.Courses.{Exchange, GoesOn, Start};
ghost use Rattle.osc_callers.specs.PremisesMet.{PremisesAreMet};

use osc_coap::parse;
use osc_context::usable_contexts;
use osc_endpoint::{Client, ServerOf};
use osc_kept::premises_can_be_met;
use steps::{
    answer, ask, challenge, contexts, deliver, hear, plain, restart, start_client, start_server,
};

// The fresh Echo value of each datagram that arrives at the server.
const ECHO: [u8; 8] = [1, 2, 3, 4, 5, 6, 7, 8];

// CON, 0.01, token 1, Uri-Path tv1.
const FIRST: &[u8] = b"\x41\x01\x00\x00\x01\xb3tv1";

// The same with token 2.
const SECOND: &[u8] = b"\x41\x01\x00\x00\x02\xb3tv1";

// The same with the Echo value (option 252) after the path.
const AGAIN: &[u8] = b"\x41\x01\x00\x00\x02\xb3tv1\xd8\xe4\x01\x02\x03\x04\x05\x06\x07\x08";

// ACK, 2.05, Hello World!
const REPLY: &[u8] = b"\x60\x45\x00\x00\xffHello World!";

/// Starts both ends at 0, with the context of RFC 8613, C.1.
fn start() -> Option<(Client<8>, ServerOf<1>)>
    ensures { IfSome result (λ ends. Start ends.0 ends.1) }
{
    usable_contexts();
    let (of_client, of_server) = contexts()?;
    let client = start_client(of_client)?;
    let server = start_server(of_server)?;
    Some((client, server))
}

/// Has the client ask, the server deliver and reply, and the client hear the reply.
fn exchange(client: &mut Client<8>, server: &mut ServerOf<1>, echo: [u8; 8]) -> Option<()>
    ensures { IsSome result → Exchange client.old client.new server.old server.new echo }
{
    let first = plain(FIRST)?;
    let reply = parse(REPLY).ok()?;
    let (mut request, mut response) = ([0u8; 64], [0u8; 64]);
    let len = ask(client, &first, &mut request)?;
    let ticket = deliver(server, 0, echo, &mut request[..len])?;
    let len = answer(server, ticket, &reply, &mut response)?;
    hear(client, 0, &mut response[..len])
}

/// Has the client ask, the server challenge, the client hear the challenge and ask again, and the server deliver.
fn go_on(client: &mut Client<8>, server: &mut ServerOf<1>, echo: [u8; 8]) -> Option<()>
    ensures { IsSome result → GoesOn client.old client.new server.old server.new echo }
{
    let second = plain(SECOND)?;
    let again = parse(AGAIN).ok()?;
    let (mut request, mut response) = ([0u8; 64], [0u8; 64]);
    let len = ask(client, &second, &mut request)?;
    let len = challenge(server, echo, &mut request[..len], &mut response)?;
    hear(client, 64, &mut response[..len])?;
    let len = ask(client, &again, &mut request)?;
    deliver(server, 65, echo, &mut request[..len])?;
    Some(())
}

/// Takes both ends through the list. Returns `None` at the first call that isn't answered as the list says.
fn go_through() -> Option<()>
    ensures { IsSome result → PremisesAreMet 8 }
{
    premises_can_be_met();
    let (mut client, mut server) = start()?;
    exchange(&mut client, &mut server, ECHO)?;
    restart(&mut client, &mut server)?;
    go_on(&mut client, &mut server, ECHO)
}

#[test]
fn premises_are_met(rt: HostRuntime) {
    assert!(rt; go_through().is_some());
}
