//! AES-CCM (RFC 3610) with a tag of 8 bytes and a nonce of 13 bytes, in the caller's buffer: AES-CCM-16-64-128 of
//! RFC 8152. Sealing makes `ccm key nonce aad m`, the standard's own text in `specs/`. Opening gives back m if and only
//! if the whole buffer is that.
//!
//! ```
//! let cipher = PlaneAes::new(&key);
//! let sealed_len = seal(&cipher, &nonce, aad, &mut buf, plaintext_len)?;
//! let plaintext_len = open(&cipher, &nonce, aad, &mut buf[..sealed_len])?;
//! ```
#![tactic(auto)]

mod algorithm;
mod blocks;
mod key_stream;
mod laws;
mod message;
mod opening;
mod sealing;
mod tag;

pub use algorithm::{AesCcm16_64_128, Key, Nonce, Tag};
pub use blocks::{MOST_AAD, MOST_PLAINTEXT};
pub use laws::{one_plaintext, protection_length};
pub use opening::{OpenError, open};
pub use sealing::{SealError, seal};
