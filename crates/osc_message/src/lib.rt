//! The message layer of CoAP over sealed messages (RFC 7252, 4 and 5.2): confirmable messages on their way, Message IDs, what a message does
//! that comes, and a reply in a message of its own. It reads no clock, and keeps no datagram.
#![tactic(auto)]

mod arrival;
mod arrivals;
mod exchange;
mod exchanges;
mod heard;
mod incoming;
mod laws;
mod message_ids;
mod messages;
mod place;
mod places;
mod separate;

pub use arrival::{Again, Way};
pub use arrivals::{Arrivals, Arrived, Incomer, NoteError, Repeated};
pub use exchange::{Address, Awaits};
pub use exchanges::{Acknowledged, BeginError, Call, Exchanges, Outgoing, Polled};
pub use incoming::{Incoming, empty_message, judge_incoming};
pub use laws::{
    arrivals_get_what_was_sent, message_ids_are_apart, messages_end, messages_end_once,
    messages_go_out_at_their_times, one_message_to_a_peer,
};
pub use message_ids::MessageIds;
pub use messages::{Due, Heading, Messages, Taken, reject_unreadable};
pub use separate::{Separate, make_separate};
