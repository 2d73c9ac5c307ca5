//! One context of a server, in its present life: what it answers to requests, what it seals by tickets, and how a new life of it begins (RFC
//! 8613, 7.4, 8.2, 8.3 and B.1).
#![tactic(auto)]

mod asker;
mod beginning;
mod challenge_reply;
mod decision;
mod doubt;
mod echo;
mod error_reply;
mod judging;
mod notifying;
mod outcome;
mod place;
mod replying;
mod seen;
mod server_error;
mod slot;
mod start;
mod ticket;
mod ticket_places;

pub use decision::{Decided, Decision};
pub use outcome::{Outcome, Taken};
pub use seen::Seen;
pub use server_error::{AddError, ReplaceError, ReplyError, RestartError, SkipError};
pub use start::{Fresh, Start};
pub use ticket::Ticket;

/// The base of the crates that keep contexts in a table. If you have a server, you need none of it.
#[doc(hidden)]
pub mod siblings {
    pub use crate::asker::Asker;
    pub use crate::doubt::Doubt;
    pub use crate::error_reply::{ErrorReply, write_error};
    pub use crate::judging::{Named, is_replay, refuse_replay};
    pub use crate::place::{
        check_place, gate_of_place, has_sender_in_place, is_for, is_open_place, judge_place,
        next_of_place, notify_place, replace_place, reply_place, restart_place, skip_place,
        take_back_place,
    };
    pub use crate::slot::Slot;
    pub use crate::ticket_places::{make_places, put_back, take_out, ticket_at};
}
