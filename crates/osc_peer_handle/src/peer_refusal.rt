//! Why a peer in bytes doesn't begin, or doesn't take a request.

/// Why a peer doesn't begin again. The variants stand in the order in which they are checked.
#[derive(Clone, Copy, Debug, PartialEq, Eq)]
pub enum BeginRefusal {
    /// The bytes of the context can't have been written by a call.
    BadHandle,
    /// The record is of another context, or can't have been written by a call.
    OldRecord,
    /// No Sender Sequence Number is left: the context can't be used any more.
    NumbersExhausted,
}

/// Why a datagram isn't taken. The variants stand in the order in which they are checked.
#[derive(Clone, Copy, Debug, PartialEq, Eq)]
pub enum PeerRefusal {
    /// The bytes of the peer can't have been written by a call.
    BadHandle,
    /// A record with this Sender Sequence Number has to be saved durably first. Save it, pass it to `saved`, and make the same call again.
    /// Nothing has changed.
    SaveFirst(u64),
    /// The datagram is a request to be delivered, and a record with this received number, the first one behind it, has to be saved durably
    /// first. Save it, pass it to `saved`, and make the same call again with the same datagram. Nothing has changed.
    KeepFirst(u64),
}
