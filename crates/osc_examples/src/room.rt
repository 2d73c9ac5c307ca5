//! The example of osc_room.

ghost use Rattle.std.specs.Prelude.{◌≢◌, IfErr, IfSome};
ghost use Rattle.osc_protect.specs.declared.protect_error.ProtectError.TheVariants.{NoRoom};

use osc_coap::parse;
use osc_context::{Context, Piv};
use osc_protect::{ProtectError, seal_request};
use osc_room::{enough_room, known_identifiers, room_for};

/// Seals a request, which is passed in as a datagram. Returns `None` if the datagram is no message, or if the buffer may be too short
/// for it. So nothing is refused with `NoRoom`.
pub fn seal(
    context: &Context,
    number: Piv,
    plain: &[u8],
    out: &mut [u8],
) -> Option<Result<usize, ProtectError>>
    ensures { IfSome result (λ sealed. IfErr sealed (λ e. e ≢ NoRoom)) }
{
    // For the proof alone.
    enough_room();
    known_identifiers(context);
    if out.len() < room_for(plain.len(), context.features().observe) {
        return None;
    }
    match parse(plain) {
        Ok(message) => Some(seal_request(context, number, &message, out)),
        Err(_) => None,
    }
}
