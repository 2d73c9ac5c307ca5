//! What the log of a run shows of an answer to a datagram.

use osc_coap::FormatError;
use osc_context::Piv;
use osc_protect::Opened;

/// What a server made of a datagram in a run: an `Outcome`, except that a delivery has no ticket.
#[derive(Debug, Drop)]
pub enum Seen<'a> {
    Malformed(FormatError),
    NotRequest,
    Plain,
    Undecodable,
    NoContext,
    Replay,
    BadTag,
    BadInner,
    Challenge {
        echo: [u8; 8],
        issued: u64,
    },
    SequenceExhausted,
    KeeperFailed,
    Deliver {
        opened: Opened<'a>,
        context: usize,
        number: Piv,
    },
}
