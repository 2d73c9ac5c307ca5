//! Both ends of an observation, on the page for library users.

use osc_coap::Message;
use osc_context::{Context, Piv};
use osc_endpoint::{Client, ClientOutcome, ReplyError, Server, Ticket};
use osc_protect::{Opened, ProtectError, RequestRef, UnprotectError, open_response, seal_response};

/// Seals a notification, if the request of the ticket registers an observation. Returns how many bytes it takes at the front of `buffer`.
pub fn tell(
    server: &mut Server,
    ticket: &Ticket,
    note: &Message<'_>,
    buffer: &mut [u8],
) -> Result<Option<usize>, ReplyError> {
    if ticket.observes() {
        // `note` has a code of class 2 and Observe. To a CON the first one is an ACK with the registration's message ID. Each other
        // one is a NON or a CON with a new message ID. A refusal says why, and uses no number.
        let len = server.notify(ticket, note, buffer)?;
        // Send the first `len` bytes of `buffer`, and keep the ticket as long as the client observes.
        return Ok(Some(len));
    }
    Ok(None)
}

/// Returns a response to a pending request, if a datagram is one, the number of that request, and whether it stays pending.
pub fn hear_all<'b>(
    client: &mut Client<16>,
    now: u64,
    datagram: &'b mut [u8],
) -> Option<(Opened<'b>, Piv, bool)> {
    let decision = client.decide(now, datagram);
    match decision.outcome(datagram) {
        // A notification: request `number` stays pending.
        ClientOutcome::Notified(state, number) => Some((state, number, true)),
        // The observation is over: the response has no Observe, or isn't of class 2.
        ClientOutcome::Deliver(last, number) => Some((last, number, false)),
        // `Old`: an earlier response than the last that was notified, or the same once more. And all that is no response.
        _ => None,
    }
}

/// Seals a notification as a single message.
pub fn protect_notification(
    server: &Context,
    number: Piv,
    own: Piv,
    note: &Message<'_>,
    out: &mut [u8],
) -> Result<usize, ProtectError> {
    // At the server the registration opens as any request. Notify with a Partial IV of its own each time.
    let request = RequestRef::registering(number);
    let len = seal_response(server, &request, Some(own), note, out)?;
    Ok(len)
}

/// Opens a response to a registration as a single message.
pub fn unprotect_notification<'b>(
    client: &Context,
    number: Piv,
    datagram: &'b mut [u8],
) -> Result<Opened<'b>, UnprotectError> {
    // The client keeps the largest number heard for this request, and drops what isn't newer.
    let opened = open_response(client, &RequestRef::registering(number), datagram)?;
    Ok(opened)
}
