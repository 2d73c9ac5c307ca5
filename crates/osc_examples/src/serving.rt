//! The server of the first page: it answers one datagram at a time.

use osc_coap::Message;
use osc_context::{Context, Piv};
use osc_endpoint::{AddRefusal, Fresh, Outcome, ReplyError, Server, Start, Ticket};
use osc_window::WindowSize;

/// Returns a server of one context, which never received a request.
pub fn server_of(context: Context, next: Piv) -> Result<Server, AddRefusal> {
    let mut server = Server::new();
    // Use `Start::Restarted(next)` if the context may have received requests before.
    server.add_distinct(context, Start::Fresh(next), WindowSize::default())?;
    Ok(server)
}

/// Returns the bytes that go back to the sender of a datagram, or the refusal of a reply, with the ticket. A request whose payload is the
/// order is answered by `yes`, another one by `no`.
pub fn serve<'m, 'o>(
    server: &mut Server,
    now: u64,
    echo: [u8; 8],
    mid: u16,
    datagram: &mut [u8],
    order: &[u8],
    yes: &'m Message<'m>,
    no: &'m Message<'m>,
    out: &'o mut [u8; 64],
    buffer: &'o mut [u8],
) -> Result<&'o [u8], (ReplyError, Ticket)> {
    let decided = server.decide(now, Fresh { echo, mid }, datagram, out);
    if let Outcome::Deliver(request, ticket) = decided.decision.outcome(datagram) {
        // The request is new. Its ticket is for one reply (`false`: no Partial IV of its own). A refusal hands it back.
        let answer = if request.payload == order { yes } else { no };
        let len = server.reply(ticket, false, mid, answer, buffer)?;
        return Ok(&buffer[..len]);
    }
    Ok(&out[..decided.reply])
}
