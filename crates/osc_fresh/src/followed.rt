//! What a client hears that follows challenges (RFC 9175, 2.3).

use crate::challenged::Challenged;
use osc_context::Piv;
use osc_endpoint::ClientOutcome;

/// What a datagram came to at a client that follows challenges.
#[derive(Debug, Drop)]
pub enum Followed<'b> {
    /// The response is a challenge: seal the command anew, with its Echo value, if it says that the request with this number wasn't obeyed,
    /// and else ask for the state first. The request is no longer pending.
    Challenged(Challenged<'b>, Piv),
    /// Anything else.
    Heard(ClientOutcome<'b>),
}
