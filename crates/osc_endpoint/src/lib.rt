//! Both ends of OSCORE, a server and a client, over everything that happens to them (RFC 8613).
#![tactic(auto)]

mod add_refusal;
mod client_event;
mod client_run;
mod contexts;
mod server;
mod server_event;
mod server_notify;
mod server_replace;
mod server_reply;
mod server_restart;
mod server_run;
mod server_skip;
mod server_take;
mod server_take_back;
mod table;

pub use add_refusal::AddRefusal;
pub use client_event::{ClientEntry, ClientEvent};
pub use client_run::{run_client, run_client_on};
pub use osc_client::{Client, ClientDecision, ClientOutcome, RequestError, SameSender, TooFewLeft};
pub use osc_life::{
    AddError, Decided, Decision, Fresh, Outcome, ReplaceError, ReplyError, RestartError, Seen,
    SkipError, Start, Taken, Ticket,
};
pub use server::{Server, ServerOf};
pub use server_event::{Answering, Arrival, Notifying, SealedResponse, ServerEntry, ServerEvent};
pub use server_run::{run_server, run_server_on};

/// The base of the crates that keep an end elsewhere: a server's table and its contexts as values, the tickets of a run, and a run one event
/// at a time. If you have a server or a client, you need none of it.
#[doc(hidden)]
pub mod siblings {
    pub use crate::client_run::ask_event;
    pub use crate::contexts::Contexts;
    pub use crate::server_run::{sealed_number, serve_event};
    pub use crate::server_take::decide_over;
    pub use osc_life::siblings::{
        Asker, Named, Slot, is_replay, make_places, put_back, refuse_replay, take_out, ticket_at,
    };
}
