//! Why a kept end in bytes doesn't do what it was asked to do.

use osc_endpoint::{ReplyError, RequestError};

/// Why a datagram isn't taken. The variants stand in the order in which they are checked.
#[derive(Clone, Copy, Debug, PartialEq, Eq)]
pub enum KeptRefusal {
    /// The bytes of the server can't have been written by a call.
    BadHandle,
    /// This number has to be saved durably first. Save it, pass it to `saved`, and make the same call again. Nothing has changed.
    SaveFirst(u64),
}

/// Why a reply isn't sealed. The variants stand in the order in which they are checked, except that a spent ticket comes after a
/// stale one.
#[derive(Clone, Copy, Debug, PartialEq, Eq)]
pub enum KeptReplyRefusal {
    /// The bytes of the server or of the ticket can't have been written by a call.
    BadHandle,
    /// The same as `KeptRefusal::SaveFirst`.
    SaveFirst(u64),
    /// The request has its answer, or a number at least 64 above was delivered since, or no request with this number was delivered.
    TicketSpent,
    /// A `Server` refuses the reply for this reason.
    Refused(ReplyError),
}

/// Why a request isn't sealed. The variants stand in the order in which they are checked.
#[derive(Clone, Copy, Debug, PartialEq, Eq)]
pub enum KeptRequestRefusal {
    /// The bytes of the client can't have been written by a call.
    BadHandle,
    /// The same as `KeptRefusal::SaveFirst`; the clock hasn't moved either.
    SaveFirst(u64),
    /// A `Client` refuses the request for this reason.
    Refused(RequestError),
}
