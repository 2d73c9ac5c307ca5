//! The parts of a peer of OSCORE (RFC 8613) in plain bytes: a server of one context, with Sender Sequence Numbers that outlive it and no
//! callback, its tickets, and requests that wait for their responses.
#![tactic(auto)]

mod kept_refusal;
mod kept_server_handle;
mod pending_handle;
mod places;
mod reply_refusal;
mod reserving;
mod single_server_handle;
mod single_table;
mod slot_handle;
mod ticket_handle;
mod unanswered_handle;

pub use kept_refusal::{KeptRefusal, KeptReplyRefusal, KeptRequestRefusal};
pub use kept_server_handle::KeptServerHandle;
pub use osc_context_handle::ContextHandle;
pub use pending_handle::PendingHandle;
pub use places::{Places, are_pending};
pub use reply_refusal::ReplyRefusal;
pub use single_server_handle::SingleServerHandle;
pub use slot_handle::{SlotHandle, size_with};
pub use ticket_handle::TicketHandle;
pub use unanswered_handle::UnansweredHandle;

/// The base of the crate that keeps a peer in bytes. If you have a peer, you need none of it.
#[doc(hidden)]
pub mod siblings {
    pub use crate::reserving::{next_limit, save_first};
}
