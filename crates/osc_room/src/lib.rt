//! How much room a sealed message takes (RFC 8613, 4.1, 4.2, 5.3 and 6.1): so much more than its plain message that sealing it is never
//! refused for want of room.
#![tactic(auto)]

mod laws;
mod room;

pub use laws::{enough_room, known_identifiers};
pub use room::room_for;
