//! What both ends of OSCORE (RFC 8613) make from identifiers and numbers: nonces, additional data,
//! and the value of the OSCORE option.
//!
//! The request with number 20 of a client with the empty identifier (RFC 8613, C.4):
//!
//!     fn request(
//!         common_iv: &Nonce,
//!         value: &mut ArrayVec<u8, 255>,
//!     ) -> Option<(Nonce, ArrayVec<u8, 32>)> {
//!         let client = Kid::new(&[])?;
//!         let partial_iv = Piv::new(20)?;
//!         let option = OscoreOption {
//!             piv: Some(partial_iv),
//!             kid_context: None,
//!             kid: Some(client.bytes()),
//!         };
//!         option.write(value).ok()?; // 0914
//!         // 4622d4dd6d944168eefb549868
//!         let nonce = nonce(common_iv, &client, partial_iv);
//!         // 8368456e63727970743040488501810a40411440
//!         let additional_data = aad(&client, partial_iv);
//!         Some((nonce, additional_data))
//!     }
#![tactic(auto)]

mod additional_data;
mod cbor;
mod context;
mod context_error;
mod count;
mod derivation;
mod features;
mod fingerprint;
mod identifier;
mod keeper;
mod laws;
mod nonces;
mod numbers;
mod option_error;
mod option_parts;
mod oscore_option;
mod parameters;
mod partial_iv;
mod record_keeper;
mod same_key;

pub use additional_data::aad;
pub use context::Context;
pub use context_error::ContextError;
pub use count::Count;
pub use features::{Features, NO_FEATURES};
pub use identifier::{IdContext, Kid};
pub use keeper::{Keeper, KeeperError};
pub use laws::{
    known_lengths, one_additional_data, one_context_refusal, one_nonce, one_option_value,
    usable_contexts, value_or_refusal,
};
pub use nonces::nonce;
pub use numbers::{Numbers, NumbersError};
pub use option_error::OptionError;
pub use oscore_option::OscoreOption;
pub use parameters::Params;
pub use partial_iv::Piv;
pub use record_keeper::{KeptNumbers, RecordKeeper};
pub use same_key::is_same_key;
