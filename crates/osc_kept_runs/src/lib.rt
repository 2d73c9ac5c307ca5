//! A server and a client of osc_kept_ends over a list of events (RFC 8613, 7.2.1 and B.1.1): a run makes the call of each event, and its
//! log has what came of each.
#![tactic(auto)]

mod client_run;
mod kept_event;
mod server_run;

pub use client_run::{run_kept_client, run_kept_client_on};
pub use kept_event::{KeptClientEntry, KeptClientEvent, KeptServerEntry, KeptServerEvent};
pub use server_run::{run_kept_server, run_kept_server_on};

/// A run one event at a time, for the crates that print each entry at once. If you have the events, you need none of it.
#[doc(hidden)]
pub mod siblings {
    pub use crate::client_run::ask_kept_event;
    pub use crate::server_run::serve_kept_event;
}
