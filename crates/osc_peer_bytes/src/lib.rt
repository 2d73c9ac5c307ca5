//! The calls of a peer in bytes within the list of what happens at two devices that both ask and answer under one security context (RFC 8613,
//! 3.1, 7.2.1, 7.4, 8 and B.1). Each function makes one call of such a peer, with a contract on that list: where the list meets the premises
//! and this peer runs in it, the call adds to it, and all of the longer list is as `two_peers` says.
#![tactic(auto)]

mod answering;
mod asking;
mod beginning;

pub use answering::{
    decide_bytes_in_list, notify_bytes_in_list, reply_bytes_in_list, take_bytes_in_list,
};
pub use asking::{
    decide_response_bytes_in_list, forget_bytes_in_list, hear_bytes_in_list, request_bytes_in_list,
};
pub use beginning::{begin_again_in_list, begin_first_in_list, saved_in_list};
