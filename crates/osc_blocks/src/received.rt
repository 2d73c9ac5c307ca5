//! What a body says of a block that it took.

use crate::block::Block;

/// What a body says of a block that it took.
#[derive(Clone, Copy, Debug, PartialEq, Eq)]
pub enum Received {
    /// More blocks follow. A client asks for this one next, in a Block2 option (RFC 7959, 2.4). A server doesn't send it: it
    /// acknowledges the block that it took, in a Block1 option with 2.31 (RFC 7959, 2.5 and 2.9.1).
    More(Block),
    /// The body is whole.
    Whole,
}
