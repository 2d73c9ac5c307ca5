//! The events of a server's run, and their results.

use osc_coap::FormatError;
use osc_context::Piv;
use osc_life::{Fresh, ReplyError, RestartError, Seen};

/// A datagram that arrives at a time in milliseconds, with the values drawn afresh for it and room for the reply.
#[derive(Drop)]
pub struct Arrival {
    pub now: u64,
    pub fresh: Fresh,
    pub bytes: Vec<u8>,
    pub out: [u8; 64],
}

/// An answer to the request of the event at an index: whether a Partial IV of its own is asked for, the Message ID of a reply that isn't an
/// ACK, the plain message, and room for the reply.
#[derive(Drop)]
pub struct Answering {
    pub of: usize,
    pub own: bool,
    pub mid: u16,
    pub plain: Vec<u8>,
    pub out: Vec<u8>,
}

/// A notification to the request of the event at an index: the plain message, and room for the notification.
#[derive(Drop)]
pub struct Notifying {
    pub of: usize,
    pub plain: Vec<u8>,
    pub out: Vec<u8>,
}

/// One event of a server's run.
#[derive(Drop)]
pub enum ServerEvent {
    /// A datagram arrives.
    Datagram(Arrival),
    /// The application answers a request.
    Reply(Answering),
    /// The application notifies a request that registers an observation.
    Notify(Notifying),
    /// The application drops the ticket of the event at an index: an observation is over.
    Drop { of: usize },
    /// A context begins a new life.
    Restart { context: usize, next: Piv },
}

/// A response that was sealed: its Sender Sequence Number, if it has a Partial IV of its own (RFC 8613, 8.3), and its datagram.
#[derive(Clone, Copy, Debug)]
pub struct SealedResponse<'a> {
    pub number: Option<Piv>,
    pub datagram: &'a [u8],
}

/// The result of one event of a server's run.
#[derive(Debug, Drop)]
pub enum ServerEntry<'a> {
    /// What the server made of a datagram, and the reply, which has no bytes if there is none.
    Took { seen: Seen<'a>, reply: &'a [u8] },
    /// The reply or the notification that was sealed, or why none was sealed.
    Replied(Result<SealedResponse<'a>, ReplyError>),
    /// No event at that index has a ticket left.
    NoTicket,
    /// The application's answer isn't a CoAP message.
    BadPlain(FormatError),
    /// Whether there was a ticket to drop.
    Dropped(bool),
    /// Whether the context was restarted.
    Restarted(Result<(), RestartError>),
}
