//! AES-128 (FIPS 197). Each cipher turns a block into `aes128 key block`; `aes128` is the standard's own text, in
//! `specs/`.
//!
//! ```
//! let cipher = PlaneAes::new(&key);
//! cipher.encrypt(&mut block);
//! ```
#![tactic(auto)]

mod block_cipher;
mod key_schedule;
mod laws;
mod narrow_planes;
mod plain;
mod plane_keys;
mod plane_packing;
mod plane_steps;
mod plane_substitution;
mod planes;
mod round_words;
mod substitution_box;
mod table;

pub use block_cipher::BlockCipher;
pub use laws::{encrypted_length, product_with_inverse};
pub use narrow_planes::NarrowPlanes;
pub use plain::PlainAes;
pub use planes::PlaneAes;
pub use table::TableAes;
