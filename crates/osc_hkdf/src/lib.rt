//! HMAC and HKDF with SHA-256 (RFC 2104, RFC 5869). The SHA-256 is that of the crate `sha2`.
//!
//! ```
//! let prk = extract(salt, secret);
//! expand(&prk, info, &mut key)?;
//! ```
#![tactic(auto)]

mod derivation;
mod laws;
mod mac;

pub use derivation::{MOST_OUTPUT, TooLong, expand, extract};
pub use laws::known_lengths;
pub use mac::hmac_sha256;
