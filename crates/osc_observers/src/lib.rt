//! The list of observers of a resource (RFC 7641, 3.6, 4.1 and 4.5): who registered, what was sent to each last, and when the next notification has
//! to be a CON. It has no socket and reads no clock, and nothing allocates.
#![tactic(auto)]

mod laws;
mod observers;
mod places;
mod watch;

pub use laws::{confirmable_each_day, observers_end_once, one_entry_each};
pub use observers::{Observer, Observers, RegisterError};
