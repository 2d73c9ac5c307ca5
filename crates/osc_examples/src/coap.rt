//! The example of osc_coap.

ghost use Rattle.std.specs.Prelude.{◌≡◌, IfOk, take};
ghost use Rattle.std.specs.Option.{option_copied};
ghost use Rattle.osc_coap.specs.Datagram.{IsDatagram, Parts};
ghost use Rattle.osc_coap.specs.Search.{first_of, values_at};
ghost use Rattle.osc_coap.specs.Views.{parts_of};

use osc_coap::option_numbers::URI_PATH;
use osc_coap::{FormatError, parse};

/// Returns the first segment of the path that a request asks for, as a slice of its datagram, or why the datagram isn't a CoAP
/// message.
pub fn first_segment(datagram: &[u8]) -> Result<Option<&[u8]>, FormatError>
    ensures { IfOk result (λ segment. (parts : Parts) × IsDatagram parts datagram.now
        × (option_copied segment ≡ first_of (values_at 11 parts.options))) }
{
    let message = parse(datagram)?;
    Ok(message.options().first(URI_PATH))
}
