//! A reply in a message of its own.

ghost use Rattle.std.specs.Prelude.{◌≡◌, ◌<◌, length, if◌then◌else◌};
ghost use Rattle.osc_coap.specs.Datagram.{IsDatagram, Parts};
ghost use Rattle.osc_coap.specs.declared.message.Kind.TheVariants.{Con, Non};

use osc_message::{Separate, make_separate};

/// Makes a reply a message of its own, under the Message ID of the sender's: a CON if it is confirmable, and else a NON. Its token, code,
/// options and payload stay, and so do fewer than 4 bytes (RFC 7252, 5.2.2; RFC 8613, 4.2).
#[unsafe(no_mangle)]
pub extern "C" fn oscore_make_separate_v6(
    datagram: &mut [u8],
    is_confirmable: bool,
    message_id: u16,
)
    ensures message { (p : Parts) → IsDatagram p datagram.old
        → IsDatagram (record p { kind = if is_confirmable then Con else Non; message_id = message_id }) datagram.new }
    ensures short { length datagram.old < 4 → datagram.new ≡ datagram.old }
    ensures length { length datagram.new ≡ length datagram.old }
{
    let kind = if is_confirmable {
        Separate::Con
    } else {
        Separate::Non
    };
    make_separate(datagram, kind, message_id);
}
