//! The calls of a peer within the list of what happens at two devices that both ask and answer under one security context (RFC 8613, 3.1,
//! 7.2.1, 7.4, 8 and B.1), and the laws on which that stands. Each function makes one call of a peer, or exists only for its contract.
#![tactic(auto)]

mod answering;
mod asking;
mod beginning;
mod challenging;
mod echoing;
mod laws;
mod noding;
mod remembering;

pub use answering::{decide_in_list, notify_in_list, reply_in_list, take_in_list};
pub use asking::{
    decide_response_in_list, forget_in_list, hear_in_list, request_in_list, set_apart_in_list,
};
pub use beginning::{advance_in_list, start_in_list};
pub use challenging::{challenge_in_list, decide_fresh_in_list};
pub use echoing::{
    hear_echo_in_list, notify_without_echo_in_list, reply_without_echo_in_list,
    request_heard_in_list, request_with_echo_in_list,
};
pub use laws::{
    heard_stays, peer_calls_in_list, peers_are_alike, peers_are_fresh, peers_by_numbers,
};
pub use noding::decide_at_node_in_list;
pub use remembering::{reply_again_in_list, take_again_in_list};
