//! What a peer with a memory makes of a datagram.

use osc_endpoint::{Decided, Taken};

/// What was decided about a datagram.
#[derive(Debug, Drop)]
pub enum DecidedAgain {
    /// The request was answered before: the same reply stands at the front of `out`, with this many bytes. Nothing was opened, sealed or
    /// delivered.
    Again(usize),
    /// What the peer decided.
    Decided(Decided),
}

/// What was made of a datagram.
#[derive(Debug, Drop)]
pub enum TakenAgain<'b> {
    /// The request was answered before: the same reply stands at the front of `out`, with this many bytes. Nothing was opened, sealed or
    /// delivered.
    Again(usize),
    /// What the peer made of it.
    Taken(Taken<'b>),
}
