//! What can be remembered as a reply.

ghost use Rattle.std.specs.Prelude.{◌≡◌, true, false};
ghost use Rattle.osc_coap.specs.Datagram.{Parts};
ghost use Rattle.osc_replies.specs.Memory.{IsReply};

use osc_coap::{is_response_code, one_datagram, parse};

/// Returns whether the bytes are a datagram with a response's code (RFC 7252, 3 and 12.1).
pub(crate) fn is_reply(bytes: &[u8]) -> bool
    ensures yes { result ≡ true → (p : Parts) × IsReply p bytes.now }
    ensures no { result ≡ false → (p : Parts) → IsReply p bytes.now → ⊥ }
{
    // For the proof alone.
    one_datagram();
    match parse(bytes) {
        Ok(message) => is_response_code(message.code),
        Err(_) => false,
    }
}
