//! What tells one protected request from every other.

ghost use Rattle.std.specs.Prelude.{◌≡◌, ℕ, List, IfNone, IfSome};
ghost use Rattle.osc_coap.specs.Views.{parts_of};
ghost use Rattle.osc_context.specs.Views.{number_of};
ghost use Rattle.osc_replies.specs.Memory.{Asks};

use osc_coap::Message;
use osc_coap::option_numbers::OSCORE;
use osc_context::Piv;
use osc_protect::{RequestHead, one_head};

/// What tells one protected request from every other: its number, the value of its OSCORE option, and its ciphertext. OSCORE protects
/// neither its Type nor its Message ID, token or address (RFC 8613, 4.2), so none of these is asked.
#[derive(Clone, Copy)]
pub(crate) struct Identity<'a> {
    pub(crate) number: Piv,
    pub(crate) option: &'a [u8],
    pub(crate) text: &'a [u8],
}

/// Returns what tells a message from every other, if it is a protected request.
pub(crate) fn identity_of<'a>(message: &Message<'a>) -> Option<Identity<'a>>
    ensures asks { IfSome result (λ i. Asks (parts_of message.now) (number_of i.number) i.option.now i.text.now) }
    ensures none { IfNone result ((n : ℕ) (option text : List ℕ) → Asks (parts_of message.now) n option text → ⊥) }
{
    // For the proof alone.
    one_head();
    let Ok(head) = RequestHead::read(message) else {
        return None;
    };
    let Some(option) = message.options().first(OSCORE) else {
        unreachable!()
    };
    Some(Identity {
        number: head.number,
        option,
        text: message.payload(),
    })
}
