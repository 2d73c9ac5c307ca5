//! Why a server in bytes refuses a reply.

use osc_endpoint::ReplyError;

/// Why a reply isn't sealed. The variants stand in the order in which they are checked, except that a spent ticket comes after a
/// stale one.
#[derive(Clone, Copy, Debug, PartialEq, Eq)]
pub enum ReplyRefusal {
    /// The bytes of the server or of the ticket can't have been written by a call.
    BadHandle,
    /// The request has its answer, or a number at least 64 above was delivered since, or no request with this number was delivered.
    TicketSpent,
    /// A `Server` refuses the reply for this reason.
    Refused(ReplyError),
}
