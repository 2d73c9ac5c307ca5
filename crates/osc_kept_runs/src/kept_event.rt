//! What happens in a run to an end whose numbers are kept, and what comes of it.

use osc_endpoint::{Answering, Arrival, ClientEntry, Notifying, ServerEntry};
use osc_kept_ends::KeptError;

/// One event of a kept server's run.
#[derive(Drop)]
pub enum KeptServerEvent {
    /// A datagram arrives.
    Datagram(Arrival),
    /// The application answers a request.
    Reply(Answering),
    /// The application notifies a request that registers an observation.
    Notify(Notifying),
    /// The application drops the ticket of the event at an index: an observation is over.
    Drop { of: usize },
    /// The context begins a new life, at the number that the keeper loads.
    Restart,
}

/// The result of one event of a kept server's run.
#[derive(Debug, Drop)]
pub enum KeptServerEntry<'a> {
    /// What became of a datagram, a reply, a notification or a ticket to drop, as in a server's run. KeeperFailed is possible too.
    Served(ServerEntry<'a>),
    /// Whether the context was restarted.
    Restarted(Result<(), KeptError>),
}

/// One event of a kept client's run.
#[derive(Drop)]
pub enum KeptClientEvent {
    /// The application makes a request at `now`, in milliseconds. `plain` is the plain message, and `out` is room for the request.
    Request {
        now: u64,
        plain: Vec<u8>,
        out: Vec<u8>,
    },
    /// A datagram arrives at `now`, in milliseconds.
    Datagram {
        now: u64,
        bytes: Vec<u8>,
    },
    /// The application stops waiting for the response to the request with this token.
    Forget {
        token: Vec<u8>,
    },
    /// The client drops every pending request, and continues at the number that the keeper loads.
    Restart,
}

/// The result of one event of a kept client's run.
#[derive(Debug, Drop)]
pub enum KeptClientEntry<'a> {
    /// What became of a request, a datagram or a forgotten token, as in a client's run. KeeperFailed is possible too.
    Asked(ClientEntry<'a>),
    /// Whether the client was restarted.
    Restarted(Result<(), KeptError>),
}
