//! What a node decided about a datagram.

use osc_endpoint::{ClientDecision, Decided};
use osc_message::{Acknowledged, Arrived, Call, Repeated};

/// What a datagram that came is, and what was done about it.
#[derive(Debug, Drop)]
pub enum NodeDecision {
    /// A request, and what the peer decided about it. If it was delivered or challenged it is in mind: keep what you send for it in the buffer of
    /// its place, since that is what it gets when it comes again. If it was delivered, `respond` to it.
    Request(Decided, Option<Arrived>),
    /// A response to the request of this call, and what the peer decided about it. If it was delivered, as a notification or as the last one, the
    /// call has ended; otherwise it goes on.
    Response(Call, ClientDecision),
    /// A message that came before. If its answer was sent in its ACK, send the bytes in the buffer of its place again.
    Repeated(Repeated),
    /// An empty ACK, and what it did.
    Acknowledged(Acknowledged),
    /// An RST, which ended this call. Nobody protects an RST: the request may have been obeyed all the same (RFC 8613, 4.2).
    Reset(Call),
    /// A ping, or what can't be used: it gets an RST.
    Rejected,
    /// Nothing was done.
    Ignored,
    /// A request that can't be kept in mind now, or to which no reply could be sent. It wasn't opened, so that it can come again.
    NoPlace,
    /// The record failed before the request was delivered, so that it can come again.
    KeeperFailed,
}

/// What a node decided, and how many bytes at the front of `out` are to be sent to where the datagram came from. Nothing is sent if that is 0.
#[derive(Debug, Drop)]
pub struct NodeDecided {
    pub decision: NodeDecision,
    pub send: usize,
}
