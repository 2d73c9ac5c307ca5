//! A schedule in planes at half of its size.

ghost use Rattle.std.specs.Prelude.{◌≡◌, length};
ghost use Rattle.osc_aes.specs.Aes128.{expanded_key};
ghost use Rattle.osc_aes.specs.Lanes.{KeepKeys};
ghost use Rattle.osc_aes.specs.Views.{key_of_narrow};

use crate::plane_keys::round_keys;
use crate::plane_packing::{narrowed, widened};
use crate::planes::PlaneAes;

/// The schedule of a `PlaneAes`, for whoever keeps it: the lanes of one block alone, two planes in a word. That is 176 bytes. To use it, widen
/// it once for a message, which takes far less than making it.
#[derive(Drop)]
pub struct NarrowPlanes {
    keys: [[u32; 4]; 11],
    ghost kept: { KeepKeys keys (expanded_key (key_of_narrow keys)) },
    ghost key_len: { length (key_of_narrow keys) ≡ 16 },
}

impl NarrowPlanes {
    ghost use Rattle.osc_aes.specs.Keyed.{narrow_key_of, plane_key_of};

    /// Expands a key of 16 bytes, which are in the order in which FIPS 197 prints them (5.2).
    #[must_use]
    pub fn new(key: &[u8; 16]) -> NarrowPlanes
        ensures { narrow_key_of result ≡ key.now }
    {
        let planes = round_keys(key);
        let mut keys = [[0u32; 4]; 11];
        for round in 0..11 {
            keys[round] = narrowed(&planes[round]);
        }
        NarrowPlanes { keys }
    }

    /// Returns the cipher of this key.
    #[must_use]
    pub fn widened(&self) -> PlaneAes
        ensures { plane_key_of result ≡ narrow_key_of self.now }
    {
        let mut keys = [[0u32; 8]; 11];
        for round in 0..11 {
            keys[round] = widened(&self.keys[round]);
        }
        PlaneAes { keys }
    }
}
