//! A client of OSCORE: one context, and the requests that wait for their responses (RFC 8613, 8.1 and 8.4).
#![tactic(auto)]

mod apart;
mod client;
mod client_outcome;
mod client_request;
mod client_state;
mod client_take;
mod decision;
mod pending;
mod waiting;

pub use client::Client;
pub use client_outcome::{ClientOutcome, RequestError, SameSender, TooFewLeft};
pub use decision::ClientDecision;

/// A client in parts, for the crates that keep one elsewhere: all but its requests, and the table in which these lie. If you have a client,
/// you need none of it.
#[doc(hidden)]
pub mod siblings {
    pub use crate::apart::Apart;
    pub use crate::client_state::ClientState;
    pub use crate::pending::{Found, Pending, Wait};
    pub use crate::waiting::{Waiting, forget_in};
}
