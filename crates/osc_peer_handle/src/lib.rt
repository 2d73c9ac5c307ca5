//! A peer of OSCORE (RFC 8613) in plain bytes: one end that asks and answers under one context.
#![tactic(auto)]

mod answering;
mod asking;
mod laws;
mod left;
mod name;
mod peer_handle;
mod peer_refusal;
mod record_handle;

pub use laws::{peer_answers_once, peer_requests_once, peers_are_plain};
pub use name::name_of;
pub use peer_handle::PeerHandle;
pub use peer_refusal::{BeginRefusal, PeerRefusal};
pub use record_handle::RecordHandle;
