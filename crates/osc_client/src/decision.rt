//! What a client decided about a datagram, before it lends slices of the datagram.

use osc_coap::FormatError;
use osc_context::Piv;
use osc_protect::ReadResponse;

/// What a client decided about a datagram: an outcome, except that a delivery says where the parts of its message lie.
#[derive(Debug, Drop)]
pub enum ClientDecision {
    Malformed(FormatError),
    NotResponse,
    UnknownToken,
    Unprotected,
    Undecodable,
    Old,
    BadTag,
    BadInner,
    Notified(ReadResponse, Piv),
    Deliver(ReadResponse, Piv),
}
