//! The calls of both ends, after any histories. Each returns `None` if its end doesn't answer as the list says.

ghost use Rattle.std.specs.Prelude.{◌≡◌, ◌≤◌, IfSome, IsSome, length, take};
ghost use Rattle.osc_coap.specs.Views.{parts_of};
ghost use Rattle.osc_context.specs.SecurityContext.{SecurityContext};
ghost use Rattle.osc_context.specs.Views.{as_client, as_server, number_of};
ghost use Rattle.osc_context.specs.declared.partial_iv.Piv.{Piv as PartialIv};
ghost use Rattle.osc_window.specs.declared.window_size.WindowSize.TheVariants.{Places32};
ghost use Rattle.osc_life.specs.declared.start.Start.TheVariants as starts;
ghost use Rattle.osc_endpoint.specs.Agrees.{Agrees};
ghost use Rattle.osc_client.specs.Agrees.{ClientAgrees};
ghost use Rattle.osc_client.specs.ClientHistory as asking;
ghost use Rattle.osc_life.specs.ServerHistory as serving;
ghost use Rattle.osc_callers.specs.Calls.{Asks, Challenges, ClientGoes, Delivers, HasNoEcho, Hears, Replies, ServerGoes};

use osc_coap::{Message, option_numbers, parse};
use osc_context::{Context, Params, Piv};
use osc_endpoint::{Client, ClientOutcome, Fresh, Outcome, ServerOf, Start, Taken, Ticket};
use osc_protect::sealed_opens;
use osc_window::WindowSize;

// RFC 8613, C.1.1.
const SECRET: [u8; 16] = [1, 2, 3, 4, 5, 6, 7, 8, 9, 10, 11, 12, 13, 14, 15, 16];

const SALT: [u8; 8] = [0x9e, 0x7c, 0xa9, 0x22, 0x23, 0x78, 0x63, 0x40];

/// Derives the context of RFC 8613, C.1, as its client holds it, and as its server does.
pub fn contexts() -> Option<(Context, Context)>
    ensures { IfSome result (λ both. as_server both.1 ≡ as_client both.0) }
{
    let of_client = Params {
        secret: &SECRET,
        salt: &SALT,
        id_context: None,
        sender: &[],
        recipient: &[1],
    };
    let of_server = Params {
        sender: &[1],
        recipient: &[],
        ..of_client
    };
    let client = Context::derive(of_client).ok()?;
    let server = Context::derive(of_server).ok()?;
    Some((client, server))
}

/// Reads a message that has no Echo option.
pub fn plain(text: &[u8]) -> Option<Message<'_>>
    ensures { IfSome result (λ m. HasNoEcho (parts_of m)) }
{
    let Ok(message) = parse(text) else {
        return None;
    };
    match message.options().first(option_numbers::ECHO) {
        None => Some(message),
        Some(_) => None,
    }
}

/// Starts a client at 0. Its requests are pending for a minute.
pub fn start_client(context: Context) -> Option<Client<8>>
    ensures { IfSome result (λ client. ClientAgrees client (asking.New (as_client context) 0 60000)) }
{
    let zero = Piv::new(0)?;
    Some(Client::new(context, zero, 60_000))
}

/// Starts a server fresh at 0, with this context alone.
pub fn start_server(context: Context) -> Option<ServerOf<1>>
    ensures { IfSome result (λ server. (s : SecurityContext) → as_server context ≡ s → (zero : PartialIv) × (number_of zero ≡ 0)
        × ServerGoes serving.Begin (serving.Add s (starts.Fresh zero) Places32 1) (serving.Added 0) server) }
{
    let zero = Piv::new(0)?;
    let mut server = ServerOf::<1>::new();
    match server.add(context, Start::Fresh(zero), WindowSize::Places32) {
        Ok(_) => Some(server),
        Err(_) => None,
    }
}

/// Has the client seal a request. Returns how many bytes it takes at the front of `out`.
pub fn ask(client: &mut Client<8>, plain: &Message<'_>, out: &mut [u8]) -> Option<usize>
    ensures answered { IfSome result (λ len. Asks client.old (parts_of plain.now) (length out.old) (take len out.new) client.new) }
    ensures within { IfSome result (λ len. len ≤ length out.new) }
{
    match client.request(0, plain, out) {
        Ok(len) => Some(len),
        Err(_) => None,
    }
}

/// Passes a datagram to the client, which delivers it as a response to the request with this number.
pub fn hear(client: &mut Client<8>, number: u64, datagram: &mut [u8]) -> Option<()>
    ensures { IsSome result → Hears client.old number datagram.old client.new }
{
    match client.take(0, datagram) {
        ClientOutcome::Deliver(_, of) if of.number() == number => Some(()),
        _ => None,
    }
}

/// Passes a datagram to the server, which delivers it as the request with this number that registers nothing, and sends nothing.
pub fn deliver(
    server: &mut ServerOf<1>,
    number: u64,
    echo: [u8; 8],
    datagram: &mut [u8],
) -> Option<Ticket>
    ensures { IfSome result (λ ticket. Delivers server.old number echo datagram.old ticket server.new) }
{
    let (fresh, mut out) = (Fresh { echo, mid: 0 }, [0u8; 64]);
    match server.take(0, fresh, datagram, &mut out).outcome {
        Outcome::Deliver(_, ticket) if ticket.number().number() == number && !ticket.observes() => {
            Some(ticket)
        }
        _ => None,
    }
}

/// Passes a datagram to the server, which challenges it with the fresh Echo value. Returns how many bytes the challenge takes at the front
/// of `out`.
pub fn challenge(
    server: &mut ServerOf<1>,
    echo: [u8; 8],
    datagram: &mut [u8],
    out: &mut [u8; 64],
) -> Option<usize>
    ensures answered { IfSome result (λ len. Challenges server.old echo datagram.old (take len out.new) server.new) }
    ensures within { IfSome result (λ len. len ≤ 64) }
{
    sealed_opens();
    let Taken { outcome, reply } = server.take(0, Fresh { echo, mid: 0 }, datagram, out);
    let Outcome::Challenge {
        echo: given,
        issued,
    } = outcome
    else {
        return None;
    };
    if given == echo && issued == 0 {
        return Some(reply);
    }
    None
}

/// Has the server reply to the request of a ticket, without a Partial IV of its own. Returns how many bytes the reply takes at the front of
/// `out`.
pub fn answer(
    server: &mut ServerOf<1>,
    ticket: Ticket,
    plain: &Message<'_>,
    out: &mut [u8],
) -> Option<usize>
    ensures answered { IfSome result (λ len. Replies server.old ticket (parts_of plain.now) (length out.old) (take len out.new) server.new) }
    ensures within { IfSome result (λ len. len ≤ length out.new) }
{
    server.reply(ticket, false, 0, plain, out).ok()
}

/// Restarts both ends at 64.
pub fn restart(client: &mut Client<8>, server: &mut ServerOf<1>) -> Option<()>
    ensures client { IsSome result → (h : asking.History) → ClientAgrees client.old h
        → ClientGoes h (asking.Restart 64) asking.Restarted client.new }
    ensures server { IsSome result → (h : serving.History) → Agrees server.old h
        → ServerGoes h (serving.Restart 0 64) serving.Restarted server.new }
{
    let next = Piv::new(64)?;
    if server.restart(0, next).is_err() {
        return None;
    }
    client.restart(next);
    Some(())
}
