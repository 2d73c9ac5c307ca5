//! The key schedule (FIPS 197, 5.2): the words w0 to w43, of four bytes each, one after the other.

ghost use Rattle.std.specs.Prelude.{◌≡◌, ◌<◌, ◌≤◌, ◌+◌, ◌*◌, length};
ghost use Rattle.osc_aes.specs.Field.{power};
ghost use Rattle.osc_aes.specs.Aes128.{added_word, expanded_key, next_word, word_at, xor_word};

use crate::substitution_box::substitute_byte;

/// The first bytes of Rcon(1) to Rcon(10); their other three bytes are zero.
const ROUND_CONSTANTS: [u8; 10] = [0x01, 0x02, 0x04, 0x08, 0x10, 0x20, 0x40, 0x80, 0x1b, 0x36];

/// Returns the first byte of Rcon(round + 1).
#[inline(always)]
pub(crate) fn round_constant(round: usize) -> u8
    requires { round < 10 }
    ensures { result ≡ power 2 round }
{
    ROUND_CONSTANTS[round]
}

/// Expands a key into all its words.
pub(crate) fn expand(key: &[u8; 16]) -> [u8; 176]
    ensures { result ≡ expanded_key key.now }
{
    let mut words = [0u8; 176];
    words[..16].copy_from_slice(key);
    for n in 0..40 {
        let word = next_word(&words, n + 4);
        words[16 + 4 * n..20 + 4 * n].copy_from_slice(&word);
    }
    words
}

/// Computes word `index` from the words before it.
fn next_word(words: &[u8; 176], index: usize) -> [u8; 4]
    requires low { 4 ≤ index }
    requires high { index < 44 }
    ensures { result ≡ next_word words.now index }
{
    let added = added_word(word_at(words, index - 1), index);
    xor_word(word_at(words, index - 4), added)
}

/// Returns what is added to word `index - 4` to make word `index`. `last` is word `index - 1`.
fn added_word(last: [u8; 4], index: usize) -> [u8; 4]
    requires low { 4 ≤ index }
    requires high { index < 44 }
    ensures { result ≡ added_word last index }
{
    let [a, b, c, d] = last;
    if index % 4 == 0 {
        // RotWord, SubWord and Rcon in one line: only the first byte of Rcon isn't zero.
        [
            substitute_byte(b) ^ round_constant(index / 4 - 1),
            substitute_byte(c),
            substitute_byte(d),
            substitute_byte(a),
        ]
    } else {
        last
    }
}

/// Returns word `index` of some bytes.
pub(crate) fn word_at(words: &[u8], index: usize) -> [u8; 4]
    requires { 4 * index + 4 ≤ length words.now }
    ensures { result ≡ word_at words.now index }
{
    let start = 4 * index;
    [
        words[start],
        words[start + 1],
        words[start + 2],
        words[start + 3],
    ]
}

/// Adds two words, byte by byte.
pub(crate) fn xor_word(u: [u8; 4], v: [u8; 4]) -> [u8; 4]
    ensures { result ≡ xor_word u v }
{
    [u[0] ^ v[0], u[1] ^ v[1], u[2] ^ v[2], u[3] ^ v[3]]
}
