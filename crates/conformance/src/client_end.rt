//! A client, whichever it is.

use crate::refusal::{Made, Refusal};
use crate::steps::Step;
use osc_coap::Message;
use osc_context::Piv;
use osc_endpoint::ClientOutcome;

/// A client, of which each method makes one call. A step that a client doesn't have is bad.
pub(crate) trait ClientEnd {
    /// Makes a request, and returns its length.
    fn request(&mut self, now: u64, plain: &Message<'_>, out: &mut [u8]) -> Made<usize>;

    /// Takes a datagram.
    fn take<'b>(&mut self, now: u64, bytes: &'b mut [u8]) -> Made<ClientOutcome<'b>>;

    /// Takes a datagram, by the two halves of that call.
    fn halves<'b>(&mut self, now: u64, bytes: &'b mut [u8]) -> Made<ClientOutcome<'b>>;

    /// Stops waiting for the response to a request, and returns whether it was pending.
    fn forget(&mut self, token: &[u8]) -> Made<bool>;

    /// Drops every pending request, and goes on with this number.
    fn restart(&mut self, _next: Piv) -> Made<()> {
        Err(Refusal::Bad)
    }

    /// Moves the clock.
    fn advance(&mut self, _now: u64) -> Made<()> {
        Err(Refusal::Bad)
    }

    /// Returns the Sender Sequence Number of the next request.
    fn next(&self) -> Made<u64> {
        Err(Refusal::Bad)
    }

    /// Makes a step that only some clients have, and returns the word for what came of it.
    fn other(&mut self, _step: &Step<'_>) -> Made<&'static str> {
        Err(Refusal::Bad)
    }
}
