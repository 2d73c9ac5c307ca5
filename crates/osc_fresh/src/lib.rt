//! What a server asks for that obeys fresh requests alone, what a client hears then, which Echo values both seal, and which challenges and
//! errors are sent (RFC 8613, 7.3, 8.2 and B.1.2; RFC 9175, 2.3 and A, method 3).
#![tactic(auto)]

mod admitting;
mod answering;
mod asking;
mod budget;
mod challenged;
mod decided_fresh;
mod echo_request_error;
mod error_replies;
mod followed;
mod heard_echo;
mod laws;
mod requesting;
mod wishes;
mod with_echo;

pub use answering::{notify_without_echo, reply_without_echo};
pub use asking::challenge;
pub use budget::Budget;
pub use challenged::Challenged;
pub use decided_fresh::DecidedFresh;
pub use echo_request_error::EchoRequestError;
pub use error_replies::ErrorReplies;
pub use followed::Followed;
pub use heard_echo::HeardEcho;
pub use laws::budget_holds;
pub use wishes::Wishes;
pub use with_echo::write_with_echo;
