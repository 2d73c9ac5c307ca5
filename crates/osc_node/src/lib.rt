//! A node: an end of OSCORE that asks and answers (RFC 8613, 8) behind CoAP's message layer (RFC 7252, 4 and 5.2). It has no socket, no clock, no
//! random source and no buffers, and nothing allocates.
#![tactic(auto)]

mod deciding;
mod node;
mod node_decision;
mod notifying;
mod noting;
mod observing;
mod planning;
mod requesting;
mod responding;
mod send_error;

pub use node::Node;
pub use node_decision::{NodeDecided, NodeDecision};
pub use notifying::Notified;
pub use requesting::Sent;
pub use responding::Responded;
pub use send_error::{NotifyError, RespondError, SendError};
