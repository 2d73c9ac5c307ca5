//! What a context is derived from.

/// What both ends agreed on, as one of them sees it (RFC 8613, 3.2). The other end has the sender and the recipient the
/// other way round, and everything else the same.
#[derive(Clone, Copy)]
pub struct Params<'a> {
    /// The Master Secret: 1 to 64 bytes, which nobody else knows.
    pub secret: &'a [u8],
    /// The Master Salt: 0 to 64 bytes. An absent salt is the same as an empty one.
    pub salt: &'a [u8],
    /// The ID Context, which tells contexts with the same identifiers apart: 1 to 32 bytes, if there is one.
    pub id_context: Option<&'a [u8]>,
    /// The identifier of this end: 0 to 7 bytes.
    pub sender: &'a [u8],
    /// The identifier of the other end: 0 to 7 bytes, different from this end's.
    pub recipient: &'a [u8],
}
