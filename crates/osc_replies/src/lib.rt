//! What a server remembers of the requests that it answered, so that the same request gets the same reply again (RFC 7252, 4.5; RFC 8613, 7.4).
#![tactic(auto)]

mod again;
mod answering;
mod identity;
mod laws;
mod new_head;
mod remembered;
mod replies;
mod reply;
mod taking;

pub use again::{DecidedAgain, TakenAgain};
pub use laws::same_reply;
pub use remembered::Remembered;
pub use replies::{NotAgain, Replies};
