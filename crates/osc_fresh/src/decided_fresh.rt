//! What a peer that obeys fresh requests alone makes of a datagram.

use osc_endpoint::{Decided, ReplyError};

/// What was decided about a datagram.
#[derive(Debug, Drop)]
pub enum DecidedFresh {
    /// The request is new, and isn't known to be fresh: a challenge stands at the front of `out`, with this many bytes, and says that the
    /// request wasn't obeyed. No other answer to it is possible: its ticket is spent.
    Challenged(usize),
    /// The request is new, and isn't known to be fresh. No challenge could be sealed, for this reason, so there is no answer to it.
    Unanswered(ReplyError),
    /// What the peer decided. If it delivers a request, this is known to be fresh.
    Decided(Decided),
}
