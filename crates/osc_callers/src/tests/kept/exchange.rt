//! An exchange between one client and one server over keepers in memory, and what was seen of it.

ghost use Rattle.std.specs.Prelude.{◌≤◌, IfSome, length};

use super::memory::{Memory, Watch};
use osc_coap::parse;
use osc_context::{Context, Params};
use osc_endpoint::{ClientOutcome, Fresh, Outcome, ReplyError, RequestError, Taken, Ticket};
use osc_kept::{KeptClient, KeptServer};
use osc_protect::head_of_request;
use osc_window::WindowSize;
use std::alloc::Global;
use std::process::Abort;

// RFC 8613, C.1.1.
const SECRET: [u8; 16] = [1, 2, 3, 4, 5, 6, 7, 8, 9, 10, 11, 12, 13, 14, 15, 16];

const SALT: [u8; 8] = [0x9e, 0x7c, 0xa9, 0x22, 0x23, 0x78, 0x63, 0x40];

// RFC 8613, C.4: CON, 0.01, Message ID 5d1f, token 00003974, Uri-Host localhost, Uri-Path tv1.
const REQUEST: &[u8] = b"\x44\x01\x5d\x1f\x00\x00\x39\x74\x39localhost\x83tv1";

const TOKEN: [u8; 4] = [0, 0, 0x39, 0x74];

// What stands before the value of an Echo option (252) of eight bytes, after Uri-Path (11).
const ECHO_HEAD: &[u8] = b"\xd8\xe4";

// RFC 8613, C.7: ACK, 2.05, the same Message ID and token, Hello World!
const RESPONSE: &[u8] = b"\x64\x45\x5d\x1f\x00\x00\x39\x74\xffHello World!";

pub type Client<'a> = KeptClient<Memory<'a>, 2>;

pub type Server<'a> = KeptServer<Memory<'a>>;

/// What was seen of both ends, in order, and what is seen of their keepers.
#[derive(Drop)]
pub struct Seen<'a> {
    pub server: &'a Watch,
    pub client: &'a Watch,
    /// The numbers of the requests that were sent.
    pub sent: Vec<u64>,
    /// The server's Sender Sequence Numbers, in replies and challenges.
    pub own: Vec<u64>,
    /// The numbers of the requests that were delivered.
    pub delivered: Vec<u64>,
}

impl<'a> Seen<'a> {
    /// Begins with nothing seen.
    pub fn new(alloc: Global, server: &'a Watch, client: &'a Watch) -> Seen<'a> {
        Seen {
            server,
            client,
            sent: Vec::new(alloc),
            own: Vec::new(alloc),
            delivered: Vec::new(alloc),
        }
    }
}

fn context<'x>(rt: &impl Abort, sender: &'x [u8], recipient: &'x [u8]) -> Context {
    let params = Params {
        secret: &SECRET,
        salt: &SALT,
        id_context: None,
        sender,
        recipient,
    };
    Context::derive(params).expect(rt, "a context")
}

/// Starts a server. If the keeper goes wrong, starts it once more.
pub fn start_server<'a>(rt: &impl Abort, keeper: Memory<'a>) -> Server<'a> {
    keeper.start();
    let keeper = match Server::start(context(rt, &[1], &[]), keeper, WindowSize::default()) {
        Ok(server) => return server,
        Err((_, keeper)) => keeper,
    };
    keeper.start();
    match Server::start(context(rt, &[1], &[]), keeper, WindowSize::default()) {
        Ok(server) => server,
        Err(_) => rt.abort(),
    }
}

/// Starts a client. If the keeper goes wrong, starts it once more.
pub fn start_client<'a>(rt: &impl Abort, keeper: Memory<'a>) -> Client<'a> {
    keeper.start();
    let keeper = match Client::start(context(rt, &[], &[1]), keeper, 60_000) {
        Ok(client) => return client,
        Err((_, keeper)) => keeper,
    };
    keeper.start();
    match Client::start(context(rt, &[], &[1]), keeper, 60_000) {
        Ok(client) => client,
        Err(_) => rt.abort(),
    }
}

/// Returns the text of C.4, with an Echo value if there is one.
fn plain(rt: &(impl Abort + Alloc<A = Global>), echo: Option<[u8; 8]>) -> Vec<u8> {
    let mut text = Vec::new(rt.alloc());
    text.extend_from_slice(REQUEST).expect(rt, "memory");
    if let Some(echo) = echo {
        text.extend_from_slice(ECHO_HEAD).expect(rt, "memory");
        text.extend_from_slice(&echo).expect(rt, "memory");
    }
    text
}

/// Sends a request, and returns its length, or `None` if the keeper failed.
fn send(
    rt: &(impl Abort + Alloc<A = Global>),
    now: u64,
    echo: Option<[u8; 8]>,
    client: &mut Client<'_>,
    out: &mut [u8],
) -> Option<usize>
    ensures { IfSome result (λ len. len ≤ length out.new) }
{
    let text = plain(rt, echo);
    let message = parse(&text).expect(rt, "a message");
    match client.request(now, &message, out) {
        Err(RequestError::KeeperFailed) => None,
        answered => Some(answered.expect(rt, "a request")),
    }
}

/// Has the client take a response, and notes the response's own Partial IV, if it has one.
fn take_response(
    rt: &impl Abort,
    now: u64,
    client: &mut Client<'_>,
    datagram: &mut [u8],
    seen: &mut Seen<'_>,
) {
    let ClientOutcome::Deliver(opened, _) = client.take(now, datagram) else {
        rt.abort();
    };
    if let Some(piv) = opened.piv {
        seen.own.push(piv.number()).expect(rt, "memory");
    }
}

/// Has the server reply with a Partial IV of its own, a second time if the keeper failed. The client takes the reply. A server that was
/// stopped sends none.
fn reply(
    rt: &impl Abort,
    now: u64,
    ticket: Ticket,
    client: &mut Client<'_>,
    server: &mut Server<'_>,
    seen: &mut Seen<'_>,
) {
    let message = parse(RESPONSE).expect(rt, "a message");
    let mut out = [0u8; 64];
    let answered = match server.reply(ticket, true, 1, &message, &mut out) {
        Err((ReplyError::KeeperFailed, ticket)) if !seen.server.is_stopped.get() => {
            server.reply(ticket, true, 1, &message, &mut out)
        }
        answered => answered,
    };
    match answered {
        Ok(len) => take_response(rt, now, client, &mut out[..len], seen),
        Err((ReplyError::KeeperFailed, _)) => {
            client.forget(&TOKEN);
        }
        Err(_) => rt.abort(),
    }
}

/// Sends a request, which is answered unless a keeper fails. Returns the Echo value of a challenge.
pub fn exchange(
    rt: &(impl Abort + Alloc<A = Global>),
    now: u64,
    echo: Option<[u8; 8]>,
    client: &mut Client<'_>,
    server: &mut Server<'_>,
    seen: &mut Seen<'_>,
) -> Option<[u8; 8]> {
    let mut datagram = [0u8; 64];
    let len = send(rt, now, echo, client, &mut datagram)?;
    let request = &mut datagram[..len];
    let head = head_of_request(request).expect(rt, "a head");
    seen.sent.push(head.number.number()).expect(rt, "memory");
    let (mut out, fresh) = (
        [0u8; 64],
        Fresh {
            echo: now.to_be_bytes(),
            mid: 1,
        },
    );
    let Taken {
        outcome,
        reply: len,
    } = server.take(now, fresh, request, &mut out);
    match outcome {
        Outcome::Deliver(_, ticket) => {
            seen.delivered
                .push(ticket.number().number())
                .expect(rt, "memory");
            reply(rt, now, ticket, client, server, seen);
            None
        }
        Outcome::Challenge { echo, .. } => {
            take_response(rt, now, client, &mut out[..len], seen);
            Some(echo)
        }
        Outcome::KeeperFailed => {
            client.forget(&TOKEN);
            None
        }
        _ => rt.abort(),
    }
}
