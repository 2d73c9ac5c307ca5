//! The example of osc_protect.

ghost use Rattle.std.specs.Prelude.{◌≡◌, IfOk, IsOkAnd, Some};
ghost use Rattle.osc_coap.specs.Views.{parts_of};
ghost use Rattle.osc_context.specs.Views.{as_client, as_server, number_of};
ghost use Rattle.osc_protect.specs.Sealed.{inside};
ghost use Rattle.osc_protect.specs.Views.{message_of, opened_number};

use osc_coap::Message;
use osc_context::{Context, Piv};
use osc_protect::{Opened, ProtectError, UnprotectError, open_request, seal_request, sealed_opens};

/// Seals a request as its client, in a buffer with room for it, and opens it there as its server.
pub fn seal_and_open<'b>(
    client: &Context,
    server: &Context,
    number: Piv,
    plain: &Message<'_>,
    buf: &'b mut [u8],
) -> Result<Result<Opened<'b>, UnprotectError>, ProtectError>
    // It opens at the other end of the context, as this request, with its code, its inner options and its payload.
    ensures { as_client client.now ≡ as_server server.now → IfOk result (λ opened. IsOkAnd opened (λ o.
        (opened_number o ≡ Some (number_of number)) × (message_of o ≡ inside (parts_of plain.now)))) }
{
    sealed_opens();
    let len = seal_request(client, number, plain, buf)?;
    Ok(open_request(server, &mut buf[..len]))
}
