//! AES-128 on two blocks at once, in planes of bits. Plane k is a word, and its bit i is bit k of the byte in lane i.
//! Lane 8r + 2c + b holds row r and column c of block b. No step shifts rows: after n rounds, row r of the state is
//! rotated right by n times r columns.
//!
//!     lanes                 0 1  2 3  4 5  6 7 | 8 9  10 11  12 13  14 15 | 16 17  ..
//!     row                   0    0    0    0   | 1    1      1      1     | 2
//!     column, at first      0    1    2    3   | 0    1      2      3     | 0
//!     after one round       0    1    2    3   | 3    0      1      2     | 2

ghost use Rattle.std.specs.Prelude.{◌≡◌, ◌<◌, ◌+◌, ◌%◌, ℕ, List, length};
ghost use Rattle.osc_aes.specs.Aes128.{after_rounds, aes128, cipher, expanded_key};
ghost use Rattle.osc_aes.specs.Views.{key_of_planes};
ghost use Rattle.osc_aes.specs.Lanes.{AreKeysOf, IsKeyOf, block_in};

use crate::block_cipher::BlockCipher;
use crate::plane_keys::round_keys;
use crate::plane_packing::{pack, unpack};
use crate::plane_steps::{add_planes, mix_columns};
use crate::plane_substitution::sub_bytes;

/// AES-128 under one key, with no look-up and no branch that depends on a bit of the key or of a block. It keeps the
/// eleven round keys in planes, each for both blocks: 352 bytes.
#[derive(Drop)]
pub struct PlaneAes {
    pub(crate) keys: [[u32; 8]; 11],
    ghost expanded: { AreKeysOf keys (expanded_key (key_of_planes keys)) },
    ghost key_len: { length (key_of_planes keys) ≡ 16 },
}

impl PlaneAes {
    /// Expands a key of 16 bytes, which are in the order in which FIPS 197 prints them (5.2).
    #[must_use]
    pub fn new(key: &[u8; 16]) -> PlaneAes
        ensures { ⟦<PlaneAes as BlockCipher>⟧.cipher_key result ≡ key.now }
    {
        PlaneAes {
            keys: round_keys(key),
        }
    }
}

impl BlockCipher for PlaneAes {
    ghost cipher_key = { λ s. key_of_planes s.keys };

    fn encrypt(&self, block: &mut [u8; 16]) {
        let mut other = [0u8; 16];
        encrypt_both(&self.keys, block, &mut other);
    }

    fn encrypt_two(&self, first: &mut [u8; 16], second: &mut [u8; 16]) {
        encrypt_both(&self.keys, first, second);
    }

    ghost key_len = { λ s. s.key_len };
}

/// Encrypts two blocks, each in place. It is never inlined, so that code that uses tables sets aside no room for its
/// planes.
#[inline(never)]
fn encrypt_both(keys: &[[u32; 8]; 11], first: &mut [u8; 16], second: &mut [u8; 16])
    ensures first { (key : List ℕ) → AreKeysOf keys.now (expanded_key key) → first.new ≡ aes128 key first.old }
    ensures second { (key : List ℕ) → AreKeysOf keys.now (expanded_key key) → second.new ≡ aes128 key second.old }
{
    let planes = cipher(pack(first, second), keys);
    unpack(planes, first, second);
}

/// Returns the planes after all rounds.
fn cipher(planes: [u32; 8], keys: &[[u32; 8]; 11]) -> [u32; 8]
    ensures { (w : List ℕ) → AreKeysOf keys.now w → (b : ℕ) → b < 2
        → block_in 10 result b ≡ cipher w (block_in 0 planes b) }
{
    let mut state = add_planes(planes, keys[0]);
    for four in 0..2 {
        let next = four_rounds(state, keys, 4 * four);
        state = next;
    }
    let mixed = round(state, keys[9], 1);
    add_planes(sub_bytes(mixed), keys[10])
}

/// Runs four rounds after the first `done`. They are written out, because the rows are rotated differently in each.
#[inline(always)]
fn four_rounds(planes: [u32; 8], keys: &[[u32; 8]; 11], done: usize) -> [u32; 8]
    requires fours { done % 4 ≡ 0 }
    requires few { done < 7 }
    ensures { (w block : List ℕ) → AreKeysOf keys.now w → (b : ℕ) → b < 2
        → block_in done planes b ≡ after_rounds w block done → block_in (done + 4) result b ≡ after_rounds w block (done + 4) }
{
    let one = round(planes, keys[done + 1], 1);
    let two = round(one, keys[done + 2], 2);
    let three = round(two, keys[done + 3], 3);
    round(three, keys[done + 4], 0)
}

/// Runs a round with a key. `turned` is how many rounds are done after it, modulo 4.
#[inline(always)]
fn round(planes: [u32; 8], key: [u32; 8], turned: usize) -> [u32; 8]
    requires { turned < 4 }
    ensures { (w block : List ℕ) (n m b : ℕ) → m ≡ n + 1 → m % 4 ≡ turned → IsKeyOf m key w → b < 2
        → block_in n planes b ≡ after_rounds w block n → block_in m result b ≡ after_rounds w block m }
{
    let substituted = sub_bytes(planes);
    let mixed = mix_columns(substituted, turned);
    add_planes(mixed, key)
}
