//! Single messages, on the page for library users.

use osc_coap::Message;
use osc_coap::option_numbers::URI_PATH;
use osc_context::{Context, Piv};
use osc_protect::{
    KeyedContext, Opened, ProtectError, RequestRef, UnprotectError, open_request, open_response,
    seal_request, seal_response,
};

/// Seals a request, and returns how many bytes it takes at the front of `out`.
pub fn protect_request(
    client: &Context,
    number: Piv,
    plain: &Message<'_>,
    out: &mut [u8],
) -> Result<usize, ProtectError> {
    // The sealed request is the first `len` bytes of `out`.
    let len = seal_request(client, number, plain, out)?;
    Ok(len)
}

/// Opens a request, and returns the first segment of its path too.
pub fn unprotect_request<'b>(
    server: &Context,
    datagram: &'b mut [u8],
) -> Result<(Opened<'b>, Option<&'b [u8]>), UnprotectError> {
    // A refusal says why, by its name. `inner` has the numbers and values of the options that were protected.
    let opened = open_request(server, datagram)?;
    let path = opened.inner().first(URI_PATH);
    Ok((opened, path))
}

/// Seals the response to a request, and returns how many bytes it takes at the front of `out`.
pub fn protect_response(
    server: &Context,
    number: Piv,
    answer: &Message<'_>,
    out: &mut [u8],
) -> Result<usize, ProtectError> {
    // Set kind, message ID and token of the answer as CoAP wants them. With None it has no Partial IV of its own, and uses the request's
    // nonce.
    let len = seal_response(server, &RequestRef::new(number), None, answer, out)?;
    Ok(len)
}

/// Opens the response to a request.
pub fn unprotect_response<'b>(
    client: &Context,
    number: Piv,
    datagram: &'b mut [u8],
) -> Result<Opened<'b>, UnprotectError> {
    let opened = open_response(client, &RequestRef::new(number), datagram)?;
    Ok(opened)
}

/// Opens a request by the schedules of both keys.
pub fn unprotect_by_schedules<'b>(
    server: Context,
    datagram: &'b mut [u8],
) -> Result<Opened<'b>, UnprotectError> {
    // To seal and open more than one message, keep the schedules of both keys. The calls above are methods of a `KeyedContext` too.
    let server = KeyedContext::new(server);
    let opened = server.open_request(datagram)?;
    Ok(opened)
}
