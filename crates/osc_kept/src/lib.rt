//! What holds of both ends of OSCORE over all their lives, if their Sender Sequence Numbers outlive them (RFC 8613, 7.2.1, 7.4 and B.1). The
//! ends are those of osc_kept_ends, and their runs those of osc_kept_runs, under the same names.
#![tactic(auto)]

mod in_world;
mod laws;

pub use in_world::{
    advance_in_world, decide_in_world, decide_response_in_world, forget_in_world, notify_in_world,
    reply_in_world, request_in_world, restart_client_in_world, restart_server_in_world,
    run_client_in_world, run_server_in_world, set_apart_in_world, start_client_in_world,
    start_server_in_world, take_counted_in_world, take_in_world, take_response_in_world,
};
pub use laws::{
    both_ends, each_context, echo_by_numbers, fresh_by_saving, kept_ends_are_plain,
    kept_ends_begin, kept_ends_go_on, kept_ends_in_world, kept_runs_in_world, premises_are_needed,
    premises_can_be_met, received_by_saving, shares_stay_like,
};
pub use osc_kept_ends::{KeptClient, KeptError, KeptPeer, KeptServer, ReplaceRefusal};
pub use osc_kept_runs::{
    KeptClientEntry, KeptClientEvent, KeptServerEntry, KeptServerEvent, run_kept_client,
    run_kept_client_on, run_kept_server, run_kept_server_on,
};
