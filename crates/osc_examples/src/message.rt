//! The example of osc_message.

ghost use Rattle.std.specs.Prelude.{◌≡◌};
ghost use Rattle.osc_coap.specs.Datagram.{IsDatagram, Parts};
ghost use Rattle.osc_coap.specs.declared.message.Kind.TheVariants.{Con};

use osc_message::{Separate, make_separate};

/// Makes a sealed reply a CON of its own, for a request whose ACK was sent empty since the answer took long.
pub fn answer_late(reply: &mut [u8], message_id: u16)
    ensures { (p : Parts) → IsDatagram p reply.old
        → IsDatagram (record p { kind = Con; message_id = message_id }) reply.new }
{
    make_separate(reply, Separate::Con, message_id);
}
