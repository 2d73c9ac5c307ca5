//! What both ends of OSCORE make of a message: whether it registers an observation or is a notification (RFC 7641; RFC 8613, 4.1.3.5), and
//! what a message says that was received.
#![tactic(auto)]

mod observing;
mod tokens;

/// All of it is for the crates beside this one. If you have a server or a client, you need none of it.
#[doc(hidden)]
pub mod siblings {
    pub use crate::observing::{cancels, is_notification, place_of, registers};
    pub use crate::tokens::copy_of;
}
