//! A peer of osc_kept_ends over a list of events (RFC 8613, 3.1, 7.2.1, 7.4 and B.1): a run makes the call of each event, and its log has
//! what came of each.
#![tactic(auto)]

mod asking;
mod echo_memory;
mod peer_event;
mod peer_run;
mod serving;

pub use peer_event::{Challenging, PeerArrival, PeerEntry, PeerEvent};
pub use peer_run::{run_kept_peer, run_kept_peer_on};

/// A run one event at a time, for the crates that print each entry at once. If you have the events, you need none of it.
#[doc(hidden)]
pub mod siblings {
    pub use crate::echo_memory::EchoMemory;
    pub use crate::peer_run::run_peer_event;
}
