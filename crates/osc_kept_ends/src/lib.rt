//! A server and a client of OSCORE with Sender Sequence Numbers that outlive them (RFC 8613, 7.2.1 and B.1.1).
#![tactic(auto)]

mod adopt_error;
mod drawn;
mod kept_client;
mod kept_error;
mod kept_peer;
mod kept_server;
mod moving;
mod peer_asking;
mod peer_serving;
mod peer_source;
mod replace_refusal;
mod sender_source;
mod shared_record;
mod source;

pub use adopt_error::AdoptError;
pub use kept_client::KeptClient;
pub use kept_error::KeptError;
pub use kept_peer::KeptPeer;
pub use kept_server::KeptServer;
pub use replace_refusal::ReplaceRefusal;
pub use sender_source::SenderSource;
pub use shared_record::SharedRecord;
