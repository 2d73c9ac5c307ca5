//! What holds of all memories. Calling one of these functions does nothing: its contract is there for the caller's proof.

ghost use Rattle.osc_replies.specs.Laws.{SameMessage, SameReply};

use osc_coap::one_datagram;
use osc_context::one_option_value;

/// States that the same request gets the same reply but for its head, whatever the heads of the datagrams in which it comes, and that a
/// client opens the same message from it (RFC 7252, 4.5; RFC 8613, 5.3).
pub fn same_reply()
    ensures bytes { SameReply }
    ensures message { SameMessage }
{
    one_datagram();
    one_option_value();
}
