//! What holds of the ends of osc_endpoint, over every history of a server and of a client and over what a network does between them (RFC
//! 8613, 5.2, 7.2.1, 7.4, 8.1 to 8.4 and B.1.2). These functions exist only for their contracts.
#![tactic(auto)]

mod headlines;
mod laws;

pub use headlines::{client_headline, client_rows, server_headline, server_rows};
pub use laws::{
    answered_once, contexts_stand_alone, delivered_once, ends_are_plain, honest_exchange,
    keys_or_nonces_once, nonces_once, one_client_answer, one_server_answer, own_numbers_once,
    ticket_once, what_is_sealed_arrives,
};
