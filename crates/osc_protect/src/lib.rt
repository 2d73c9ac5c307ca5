//! Seals and opens one request (RFC 8613, 8.1 and 8.2), or a response to it (8.3 and 8.4), without any state. A message is opened
//! in the datagram that carries it.
//!
//! ```
//! let context = KeyedContext::new(Context::derive(Params { secret, salt, id_context: None, sender, recipient })?);
//! let opened = context.open_request(&mut datagram)?;
//! for (number, value) in opened.inner() { .. }
//!
//! let len = context.seal_response(&RequestRef::new(number), None, &plain, &mut out)?;
//! ```
//!
//! If the request registers an observation, `RequestRef::registering(number)` names it, and a response to it may have Observe (4.1.3.5).
//!
//! `open_request`, for example, is a call. `open_request_by` does the work, over the end whose key it takes, for a `Context` and a
//! `KeyedContext` alike. All three have one contract, the record `OpensExactly`, whose fields are its clauses; so have the calls that seal, by
//! `Seals`, and those that open and borrow nothing, by `UnprotectsExactly`.
#![tactic(auto)]

mod aead;
mod checked;
mod checks;
mod context_cipher;
mod decrypting;
mod ends;
mod family;
mod head_error;
mod keyed_context;
mod laws;
mod lengths;
mod opened;
mod opening;
mod option_search;
mod option_sets;
mod oscore_head;
mod protect_error;
mod reading;
mod request_head;
mod request_ref;
mod response_head;
mod sealing;
mod split;
mod stage_error;
mod stages;
mod unprotect_error;
mod usage;

pub use checks::{check_request, check_response};
pub use decrypting::{decrypt_request, decrypt_response, encrypt_again};
pub use head_error::{HeadError, NoHead};
pub use keyed_context::KeyedContext;
pub use laws::{
    named_refusals, one_cipher_input, one_client, one_head, one_notification, one_observe,
    one_reading, one_request, one_response, one_sealed, options_left_out, protections_show_heads,
    sealed_opens,
};
pub use opened::Opened;
pub use opening::{open_request, open_response, unprotect_request, unprotect_response};
pub use protect_error::ProtectError;
pub use reading::{inspect_request, inspect_response, read_request, read_response};
pub use request_head::{RequestHead, head_of_request};
pub use request_ref::RequestRef;
pub use response_head::ResponseHead;
pub use sealing::{seal_request, seal_response};
pub use stage_error::{BadInner, BadTag};
pub use stages::{
    DecryptedRequest, DecryptedResponse, ReadRequest, ReadResponse, SealedRequest, SealedResponse,
};
pub use unprotect_error::UnprotectError;

/// The base of the crates that seal notifications: a response that was checked, so that it isn't checked a second time. If you seal messages,
/// you need none of it.
#[doc(hidden)]
pub mod siblings {
    pub use crate::checked::Checked;
}
