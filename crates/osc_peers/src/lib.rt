//! What holds of devices that ask and answer under one security context, with one source of Sender Sequence Numbers for both roles (RFC
//! 8613, 3.1, 5.2 and 7.2.1), over the ends of osc_kept. These functions exist only for their contracts.
#![tactic(auto)]

mod laws;

pub use laws::{
    honest_peers, one_sender, one_source_in_turn, one_source_is_needed, peer_premises_can_be_met,
    roles_apart, rows_as_before, two_peers,
};
