//! A server, whichever it is.

ghost use Rattle.osc_life.specs.Deciding.{CanShow};

use crate::refusal::{Made, Refusal};
use crate::steps::Step;
use osc_coap::Message;
use osc_context::{Context, Piv};
use osc_endpoint::{Decided, Fresh, Start, Taken, Ticket};
use osc_window::WindowSize;

/// When a datagram arrives: the time in milliseconds, and the values drawn afresh for it.
#[derive(Clone, Copy)]
pub(crate) struct Moment {
    pub(crate) now: u64,
    pub(crate) fresh: Fresh,
}

/// A reply: whether a Partial IV of its own is asked for, the Message ID if it isn't an ACK, and the plain message.
#[derive(Drop)]
pub(crate) struct Reply<'m> {
    pub(crate) own: bool,
    pub(crate) mid: u16,
    pub(crate) plain: Message<'m>,
}

/// The room for the reply to a datagram.
pub(crate) type Room = [u8; 64];

/// The length of a reply, and the ticket if it may be used again.
pub(crate) type Replied = (Made<usize>, Option<Ticket>);

/// A server, of which each method makes one call. A step that a server doesn't have is bad.
pub(crate) trait ServerEnd {
    /// Takes a datagram.
    fn take<'b>(&mut self, at: Moment, bytes: &'b mut [u8], out: &mut Room) -> Made<Taken<'b>>;

    /// Takes a datagram, by the two halves of that call.
    fn halves<'b>(&mut self, at: Moment, bytes: &'b mut [u8], out: &mut Room) -> Made<Taken<'b>>;

    /// Takes a datagram with an Echo value that the call makes of the next number.
    fn counted<'b>(&mut self, _at: Moment, _: &'b mut [u8], _out: &mut Room) -> Made<Taken<'b>> {
        Err(Refusal::Bad)
    }

    /// Takes a datagram in this way by the two halves of that call, if the server has them.
    fn counted_halves<'b>(
        &mut self,
        at: Moment,
        bytes: &'b mut [u8],
        out: &mut Room,
    ) -> Made<Taken<'b>> {
        self.counted(at, bytes, out)
    }

    /// Replies to the request of a ticket.
    fn reply(&mut self, ticket: Ticket, reply: &Reply<'_>, out: &mut [u8]) -> Replied;

    /// Notifies the requester of a ticket.
    fn notify(&mut self, ticket: &Ticket, plain: &Message<'_>, out: &mut [u8]) -> Made<usize>;

    /// Adds a context, and returns its index.
    fn add(&mut self, _context: Context, _start: Start, _size: WindowSize) -> Made<usize> {
        Err(Refusal::Bad)
    }

    /// Adds a context whose Sender Key no context that is there has.
    fn add_distinct(&mut self, _context: Context, _: Start, _size: WindowSize) -> Made<usize> {
        Err(Refusal::Bad)
    }

    /// Begins a new life of a context.
    fn restart(&mut self, _context: usize, _next: Piv) -> Made<()> {
        Err(Refusal::Bad)
    }

    /// Returns the Sender Sequence Number with which a context seals next, if it is there.
    fn next(&self, _context: usize) -> Made<Option<u64>> {
        Err(Refusal::Bad)
    }

    /// Makes a step that only some servers have, and returns the word for what came of it.
    fn other(&mut self, _step: &Step<'_>) -> Made<&'static str> {
        Err(Refusal::Bad)
    }
}

/// Returns what `take` returns, from its first half.
pub(crate) fn lent(decided: Decided, bytes: &[u8]) -> Taken<'_>
    requires { CanShow decided.decision bytes.now }
{
    let Decided { decision, reply } = decided;
    Taken {
        outcome: decision.outcome(bytes),
        reply,
    }
}
