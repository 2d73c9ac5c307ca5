//! The key schedule (FIPS 197, 5.2) with no look-up that depends on the key: words are substituted in planes.

ghost use Rattle.std.specs.Prelude.{◌≡◌, ◌<◌, ◌+◌, ◌*◌, ℕ, List, length, slice_index};
ghost use Rattle.osc_aes.specs.Aes128.{added_word, expanded_key, sub_word};
ghost use Rattle.osc_aes.specs.Views.{lane};
ghost use Rattle.osc_aes.specs.Lanes.{AreKeysOf, block_at, state_in};

use crate::key_schedule::{round_constant, word_at, xor_word};
use crate::plane_packing::pack;
use crate::plane_substitution::sub_bytes;
use byteorder::{ByteOrder, LittleEndian};

/// Lanes 0, 8, 16 and 24, which hold the bytes of a word.
const LANES: u32 = 0x0101_0101;

/// Returns round keys 0 to 10 of a key, each in the lanes of both blocks and rotated like the state that it is added to.
/// It isn't inlined, and neither is the call that runs the rounds.
#[inline(never)]
pub(crate) fn round_keys(key: &[u8; 16]) -> [[u32; 8]; 11]
    ensures { AreKeysOf result (expanded_key key.now) }
{
    let mut keys = [[0u32; 8]; 11];
    keys[0] = turned_planes(key, 0);
    let mut round_key = *key;
    for round in 0..10 {
        let next = next_round_key(&round_key, round);
        keys[round + 1] = turned_planes(&next, round + 1);
        round_key = next;
    }
    keys
}

/// Puts a round key into the lanes of both blocks, with row r rotated right by `round` times r columns.
fn turned_planes(round_key: &[u8; 16], round: usize) -> [u32; 8]
    requires { round < 11 }
    ensures { (b row column : ℕ) → b < 2 → row < 4 → column < 4
        → state_in round result b row column ≡ slice_index round_key.now (row + 4 * column) }
{
    let mut turned = [0u8; 16];
    for n in 0..16 {
        let row = n % 4;
        turned[n] = round_key[row + 4 * ((n / 4 + 3 * (round * row)) % 4)];
    }
    pack(&turned, &turned)
}

/// Computes round key `round + 1` from the one before it, word by word.
fn next_round_key(round_key: &[u8; 16], round: usize) -> [u8; 16]
    requires { round < 10 }
    ensures { (key : List ℕ) → length key ≡ 16 → round_key.now ≡ block_at (expanded_key key) round
        → result ≡ block_at (expanded_key key) (round + 1) }
{
    let last = word_at(round_key, 3);
    let a = xor_word(word_at(round_key, 0), added_word(last, round));
    let b = xor_word(word_at(round_key, 1), a);
    let c = xor_word(word_at(round_key, 2), b);
    let d = xor_word(last, c);
    [
        a[0], a[1], a[2], a[3], b[0], b[1], b[2], b[3], c[0], c[1], c[2], c[3], d[0], d[1], d[2],
        d[3],
    ]
}

/// Returns what is added to the first word of round key `round` to make the first word of the next round key. `last` is
/// the last word of round key `round`.
fn added_word(last: [u8; 4], round: usize) -> [u8; 4]
    requires { round < 10 }
    ensures { result ≡ added_word last (4 * round + 4) }
{
    // RotWord and Rcon in one line: only the first byte of Rcon isn't zero.
    let [a, b, c, d] = sub_word(last);
    [b ^ round_constant(round), c, d, a]
}

/// Applies the substitution box to each byte of a word.
fn sub_word(word: [u8; 4]) -> [u8; 4]
    ensures { result ≡ sub_word word }
{
    let planes = sub_bytes(word_planes(&word));
    word_in(&planes)
}

/// Returns planes whose lane 8n is byte n of a word. They are the word itself, shifted.
#[inline(always)]
fn word_planes(word: &[u8; 4]) -> [u32; 8]
    ensures { (n : ℕ) → n < 4 → lane result (8 * n) ≡ slice_index word.now n }
{
    let number = LittleEndian::read_u32(word);
    [
        number,
        number >> 1,
        number >> 2,
        number >> 3,
        number >> 4,
        number >> 5,
        number >> 6,
        number >> 7,
    ]
}

/// Returns the word whose byte n is lane 8n of planes.
#[inline(always)]
fn word_in(planes: &[u32; 8]) -> [u8; 4]
    ensures { (n : ℕ) → n < 4 → slice_index result n ≡ lane planes.now (8 * n) }
{
    let [p0, p1, p2, p3, p4, p5, p6, p7] = *planes;
    let low = (p0 & LANES) ^ ((p1 & LANES) << 1) ^ ((p2 & LANES) << 2) ^ ((p3 & LANES) << 3);
    let high = ((p4 & LANES) << 4)
        ^ ((p5 & LANES) << 5)
        ^ ((p6 & LANES) << 6)
        ^ ((p7 & LANES) << 7);
    let mut bytes = [0u8; 4];
    LittleEndian::write_u32(&mut bytes, low ^ high);
    bytes
}
