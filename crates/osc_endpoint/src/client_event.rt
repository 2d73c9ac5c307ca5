//! The events of a client's run, and their results.

use osc_client::{ClientOutcome, RequestError};
use osc_coap::FormatError;
use osc_context::Piv;

/// One event of a client's run.
#[derive(Drop)]
pub enum ClientEvent {
    /// The application makes a request at `now`, in milliseconds. `plain` is the plain message, and `out` is room for the request.
    Request {
        now: u64,
        plain: Vec<u8>,
        out: Vec<u8>,
    },
    /// A datagram arrives at `now`, in milliseconds.
    Datagram {
        now: u64,
        bytes: Vec<u8>,
    },
    /// The application stops waiting for the response to the request with this token.
    Forget {
        token: Vec<u8>,
    },
    /// The client drops every pending request, and continues with `next` as the next Sender Sequence Number.
    Restart {
        next: Piv,
    },
}

/// The result of one event of a client's run.
#[derive(Debug, Drop)]
pub enum ClientEntry<'a> {
    /// The request that was sealed, and its number.
    Sent { number: Piv, datagram: &'a [u8] },
    /// Why no request was sealed.
    NotSent(RequestError),
    /// The application's request isn't a CoAP message.
    BadPlain(FormatError),
    /// What the client made of a datagram.
    Took(ClientOutcome<'a>),
    /// Whether the token was pending.
    Forgot(bool),
    /// The client was restarted.
    Restarted,
}
