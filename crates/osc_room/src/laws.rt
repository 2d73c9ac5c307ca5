//! What holds of a buffer that has room. These functions are there for the proof of their caller: their contracts are laws.

ghost use Rattle.osc_context.specs.Views.{as_client};
ghost use Rattle.osc_room.specs.Laws.{RequestsHaveRoom, ResponsesHaveRoom};
ghost use Rattle.osc_room.specs.Room.{IdentifiersFit};

use osc_coap::{lengths_by_parts, options_ascend};
use osc_context::{Context, one_option_value, usable_contexts};

/// States that in a buffer with the room of `room_for` sealing is never refused with `NoRoom`: neither a request nor a response, a
/// notification among them (RFC 8613, 8.1 and 8.3).
pub fn enough_room()
    ensures request { RequestsHaveRoom }
    ensures response { ResponsesHaveRoom }
{
    lengths_by_parts();
    options_ascend();
    one_option_value();
}

/// States that the identifiers of a context have the lengths that `enough_room` asks of a request's (RFC 8613, 3.3; own rule: the ID
/// Context).
pub fn known_identifiers(context: &Context)
    ensures { IdentifiersFit (as_client context.now) }
{
    usable_contexts();
    if let Some(id_context) = context.id_context() {
        let _ = id_context.bytes();
    }
}
