//! Runs of a server and of a client that continue after a growth of memory is refused: what is left of the events runs into a new log.

use crate::example::{CLIENT_OF_C2, ID_CONTEXT, SERVER, params};
use osc_context::{Context, Params, Piv};
use osc_endpoint::{
    Answering, Arrival, Client, ClientEvent, Fresh, Server, ServerEvent, Start, run_client_on,
    run_server_on,
};
use osc_text::{Fault, Wrong};
use osc_window::WindowSize;
use std::alloc::Global;
use std::fmt::Debug;

/// The requests of RFC 8613, C.4 to C.6.
const C4: &str = "44025d1f00003974396c6f63616c686f7374620914ff612f1092f1776f1c1668b3825e";

const C5: &str = "440271c30000b932396c6f63616c686f737463091400ff4ed339a5a379b0b8bc731fffb0";

const C6: &str =
    "44022f8eef9bbf7a396c6f63616c686f73746b19140837cbf3210017a2d3ff72cd7273fd331ac45cffbe55c3";

/// The request of C.4 and the response of C.7 before they are sealed, and that response as it is sent.
const PLAIN_REQUEST: &str = "44015d1f00003974396c6f63616c686f737483747631";

const PLAIN_RESPONSE: &str = "64455d1f00003974ff48656c6c6f20576f726c6421";

const C7: &str = "64445d1f0000397490ffdbaad1e9a7e7b2a813d3c31524378303cdafae119106";

/// The token of C.4.
const TOKEN: &str = "00003974";

/// Returns the bytes that a text spells.
fn bytes(alloc: Global, text: &str) -> Result<Vec<u8>, Fault> {
    match hex::decode(alloc, text) {
        Ok(bytes) => Ok(bytes),
        Err(hex::FromHexError::OutOfMemory) => Err(Fault::Memory),
        Err(_) => Err(Fault::Input {
            word: "EVENT",
            wrong: Wrong::OddHex,
        }),
    }
}

/// Returns room for a sealed message.
fn room(alloc: Global) -> Result<Vec<u8>, Fault> {
    Ok([0; 64].to_vec(alloc)?)
}

/// Returns the event of a datagram that arrives at the server.
fn arrival(alloc: Global, text: &str) -> Result<ServerEvent, Fault> {
    Ok(ServerEvent::Datagram(Arrival {
        now: 0,
        fresh: Fresh {
            echo: [1, 2, 3, 4, 5, 6, 7, 8],
            mid: 1,
        },
        bytes: bytes(alloc, text)?,
        out: [0; 64],
    }))
}

/// Returns the event of a reply by the server to the request of an event.
fn answering(alloc: Global, of: usize) -> Result<ServerEvent, Fault> {
    Ok(ServerEvent::Reply(Answering {
        of,
        own: false,
        mid: 1,
        plain: bytes(alloc, PLAIN_RESPONSE)?,
        out: room(alloc)?,
    }))
}

/// Returns the event of a request by the client.
fn asking(alloc: Global) -> Result<ClientEvent, Fault> {
    Ok(ClientEvent::Request {
        now: 0,
        plain: bytes(alloc, PLAIN_REQUEST)?,
        out: room(alloc)?,
    })
}

/// Returns the event in which the response of C.7 arrives at the client.
fn response(alloc: Global) -> Result<ClientEvent, Fault> {
    Ok(ClientEvent::Datagram {
        now: 0,
        bytes: bytes(alloc, C7)?,
    })
}

/// Returns the event in which the client forgets the token.
fn forgetting(alloc: Global) -> Result<ClientEvent, Fault> {
    Ok(ClientEvent::Forget {
        token: bytes(alloc, TOKEN)?,
    })
}

/// Prints the entries of a log, one per line.
fn print_log<E: Debug>(rt: &impl Print, log: &[E]) -> Result<(), Fault> {
    for entry in log {
        println!(rt; "{entry:?}")?;
    }
    Ok(())
}

/// Counts anew which events the replies answer, from the first event that is left. Returns whether each of these events is left. A reply to
/// an event that isn't left names itself, and so has no ticket.
fn count_anew(events: &mut [ServerEvent], done: usize) -> bool {
    let mut all_left = true;
    for (index, event) in events.iter_mut().enumerate() {
        if let ServerEvent::Reply(answering) = event {
            all_left = all_left && answering.of >= done;
            answering.of = answering.of.checked_sub(done).unwrap_or(index);
        }
    }
    all_left
}

/// Makes the server of C.1 to C.3.
fn server_of() -> Option<Server> {
    let contexts = [
        params(SERVER, &[]),
        Params {
            salt: &[],
            ..params(SERVER, CLIENT_OF_C2)
        },
        Params {
            id_context: Some(&ID_CONTEXT),
            ..params(SERVER, &[])
        },
    ];
    let mut server = Server::new();
    for params in contexts {
        let context = Context::derive(params).ok()?;
        let start = Start::Fresh(Piv::new(0)?);
        let _index = server.add(context, start, WindowSize::default()).ok()?;
    }
    Some(server)
}

/// Something that happens to the server.
#[derive(Clone, Copy)]
enum Served {
    /// This datagram arrives.
    Take(&'static str),
    /// The request of this event is answered.
    Reply(usize),
    Restart,
}

/// Three requests, one of them twice, replies to the three, a restart, and two more datagrams.
const SERVED: [Served; 10] = [
    Served::Take(C4),
    Served::Reply(0),
    Served::Take(C4),
    Served::Take(C5),
    Served::Reply(3),
    Served::Take(C6),
    Served::Reply(5),
    Served::Restart,
    Served::Take(C4),
    Served::Take(TOKEN),
];

/// Returns what happens to the server.
fn server_events(alloc: Global) -> Result<Vec<ServerEvent>, Fault> {
    let mut events = Vec::with_capacity(alloc, SERVED.len())?;
    for served in SERVED {
        events.push(match served {
            Served::Take(text) => arrival(alloc, text)?,
            Served::Reply(of) => answering(alloc, of)?,
            Served::Restart => ServerEvent::Restart {
                context: 0,
                next: Piv::MAX,
            },
        })?;
    }
    Ok(events)
}

/// Runs the server, and returns whether each reply had a ticket of its own log.
pub(crate) fn serve<R: Print + Alloc<A = Global>>(rt: &R) -> Result<bool, Fault> {
    let (alloc, Some(server)) = (rt.alloc(), server_of()) else {
        return Ok(false);
    };
    let (mut server, mut events) = (server, server_events(alloc)?);
    let (mut rest, mut log) = (events.as_mut_slice(), Vec::new(alloc));
    let ran = run_server_on(alloc, &mut server, &mut rest, &mut log);
    print_log(rt, &log)?;
    if ran.is_ok() {
        return Ok(true);
    }
    let all_left = count_anew(rest, log.len());
    let mut log = Vec::new(alloc);
    run_server_on(alloc, &mut server, &mut rest, &mut log)?;
    print_log(rt, &log)?;
    Ok(all_left)
}

/// Something that happens to the client.
#[derive(Clone, Copy)]
enum Asked {
    Request,
    Response,
    Forget,
    Restart,
}

/// Requests, the response to the first, a token that is forgotten, and a restart.
const ASKED: [Asked; 10] = [
    Asked::Request,
    Asked::Response,
    Asked::Response,
    Asked::Request,
    Asked::Request,
    Asked::Response,
    Asked::Forget,
    Asked::Restart,
    Asked::Request,
    Asked::Response,
];

/// Returns what happens to the client.
fn client_events(alloc: Global, next: Piv) -> Result<Vec<ClientEvent>, Fault> {
    let mut events = Vec::with_capacity(alloc, ASKED.len())?;
    for asked in ASKED {
        events.push(match asked {
            Asked::Request => asking(alloc)?,
            Asked::Response => response(alloc)?,
            Asked::Forget => forgetting(alloc)?,
            Asked::Restart => ClientEvent::Restart { next },
        })?;
    }
    Ok(events)
}

/// Runs the client of C.1.
pub(crate) fn ask<R: Print + Alloc<A = Global>>(rt: &R) -> Result<(), Fault> {
    let alloc = rt.alloc();
    let (Ok(context), Some(first)) = (Context::derive(params(&[], SERVER)), Piv::new(20)) else {
        return Ok(());
    };
    let mut client = Client::<16>::new(context, first, 60_000);
    let mut events = client_events(alloc, first)?;
    let (mut rest, mut log) = (events.as_mut_slice(), Vec::new(alloc));
    let ran = run_client_on(alloc, &mut client, &mut rest, &mut log);
    print_log(rt, &log)?;
    if ran.is_ok() {
        return Ok(());
    }
    let mut log = Vec::new(alloc);
    run_client_on(alloc, &mut client, &mut rest, &mut log)?;
    print_log(rt, &log)
}
