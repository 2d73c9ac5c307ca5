//! AES-128 byte by byte, as FIPS 197 prints it. A step reads the byte at a row and a column from index
//! `row + 4 * column`.

ghost use Rattle.std.specs.Prelude.{◌≡◌, ◌<◌, length, take};
ghost use Rattle.osc_aes.specs.Field.{mul};
ghost use Rattle.osc_aes.specs.Aes128.{add_round_key, block_of, cipher, expanded_key, mix_columns, shift_rows, state_of, sub_bytes};

use crate::block_cipher::BlockCipher;
use crate::key_schedule::expand;
use crate::substitution_box::substitute_byte;

/// AES-128 under one key, byte by byte: slow, and close to the standard. It keeps the words w0 to w43.
#[derive(Drop)]
pub struct PlainAes {
    words: [u8; 176],
    ghost expanded: { words ≡ expanded_key (take 16 words) },
    ghost key_len: { length (take 16 words) ≡ 16 },
}

impl PlainAes {
    /// Expands a key of 16 bytes, which are in the order in which FIPS 197 prints them (5.2).
    #[must_use]
    pub fn new(key: &[u8; 16]) -> PlainAes
        ensures { ⟦<PlainAes as BlockCipher>⟧.cipher_key result ≡ key.now }
    {
        PlainAes { words: expand(key) }
    }
}

impl BlockCipher for PlainAes {
    ghost cipher_key = { λ s. take 16 s.words };

    fn encrypt(&self, block: &mut [u8; 16]) {
        *block = cipher(&self.words, block);
    }

    ghost key_len = { λ s. s.key_len };
}

/// Returns the block after all rounds (FIPS 197, 5.1).
fn cipher(words: &[u8; 176], block: &[u8; 16]) -> [u8; 16]
    ensures { result ≡ cipher words.now block.now }
{
    let mut state = add_round_key(block, words, 0);
    for round in 0..9 {
        let substituted = sub_bytes(&state);
        let shifted = shift_rows(&substituted);
        let mixed = mix_columns(&shifted);
        state = add_round_key(&mixed, words, round + 1);
    }
    let substituted = sub_bytes(&state);
    let shifted = shift_rows(&substituted);
    add_round_key(&shifted, words, 10)
}

/// Substitutes each byte (FIPS 197, 5.1.1).
fn sub_bytes(block: &[u8; 16]) -> [u8; 16]
    ensures { result ≡ block_of (sub_bytes (state_of block.now)) }
{
    let mut out = [0u8; 16];
    for k in 0..16 {
        out[k] = substitute_byte(block[k]);
    }
    out
}

/// Rotates row r left by r columns (FIPS 197, 5.1.2).
fn shift_rows(block: &[u8; 16]) -> [u8; 16]
    ensures { result ≡ block_of (shift_rows (state_of block.now)) }
{
    let mut out = [0u8; 16];
    for k in 0..16 {
        let row = k % 4;
        let column = k / 4;
        out[k] = block[row + 4 * ((column + row) % 4)];
    }
    out
}

/// Multiplies each column by the matrix whose first row is 02 03 01 01 (FIPS 197, 5.1.3).
fn mix_columns(block: &[u8; 16]) -> [u8; 16]
    ensures { result ≡ block_of (mix_columns (state_of block.now)) }
{
    let mut out = [0u8; 16];
    for k in 0..16 {
        let row = k % 4;
        let top = 4 * (k / 4);
        let a = double(block[row + top]);
        let b = triple(block[(row + 1) % 4 + top]);
        let c = block[(row + 2) % 4 + top];
        let d = block[(row + 3) % 4 + top];
        out[k] = (a ^ b) ^ (c ^ d);
    }
    out
}

/// Adds a round key (FIPS 197, 5.1.4).
fn add_round_key(block: &[u8; 16], words: &[u8; 176], round: usize) -> [u8; 16]
    requires { round < 11 }
    ensures { result ≡ block_of (add_round_key words.now round (state_of block.now)) }
{
    let mut out = [0u8; 16];
    for k in 0..16 {
        out[k] = block[k] ^ words[16 * round + k];
    }
    out
}

/// Multiplies an element of the field by 02.
#[inline(always)]
fn double(element: u8) -> u8
    ensures { result ≡ mul 2 element }
{
    (element << 1) ^ ((element >> 7) * 0x1b)
}

/// Multiplies an element of the field by 03.
#[inline(always)]
fn triple(element: u8) -> u8
    ensures { result ≡ mul 3 element }
{
    double(element) ^ element
}
