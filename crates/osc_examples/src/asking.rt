//! The client of the page for library users.

use osc_coap::Message;
use osc_context::{Context, Piv};
use osc_endpoint::{Client, ClientOutcome, RequestError};
use osc_protect::Opened;

/// Returns a client that sealed its first request, and how many bytes that takes at the front of `buffer`.
pub fn ask(
    context: Context,
    next: Piv,
    now: u64,
    plain: &Message<'_>,
    buffer: &mut [u8],
) -> Result<(Client<16>, usize), RequestError> {
    // Room for sixteen pending requests, each for EXCHANGE_LIFETIME, 247 s (RFC 7252, 4.8.2).
    let mut client = Client::<16>::new(context, next, 247_000);
    // Send the first `len` bytes of `buffer`. A refusal says why, and uses no number.
    let len = client.request(now, plain, buffer)?;
    Ok((client, len))
}

/// Returns the response to a pending request, if a datagram is one, and the number of that request.
pub fn hear<'b>(
    client: &mut Client<16>,
    now: u64,
    datagram: &'b mut [u8],
) -> Option<(Opened<'b>, Piv)> {
    let decision = client.decide(now, datagram);
    match decision.outcome(datagram) {
        // The response to request `number`, which is no longer pending. A 4.01 with an Echo value is delivered too: see below.
        ClientOutcome::Deliver(response, number) => Some((response, number)),
        _ => None,
    }
}
