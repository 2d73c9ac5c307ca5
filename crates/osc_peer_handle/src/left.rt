//! What a step decided, with the datagram as it is left.

/// What was decided of a datagram, and the datagram as it is left. It is lent for reading alone: who has this can't write to it any more.
pub(crate) struct Left<'b, D> {
    pub(crate) decided: D,
    pub(crate) datagram: &'b [u8],
}
