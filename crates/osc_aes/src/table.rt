//! AES-128 with a table of words (Daemen and Rijmen, AES Proposal: Rijndael, 5.2.1). A column is a word, and its highest
//! byte is in row 0.

ghost use Rattle.std.specs.Prelude.{◌≡◌, ◌+◌, ◌*◌, ◌<◌, ◌≤◌, ℕ, List, [], ◌∷◌, length, slice_index};
ghost use Rattle.std.specs.Int.{byte_at, to_be_bytes, w32};
ghost use Rattle.osc_aes.specs.Aes128.{added_word, block_of, cipher, expanded_key, mix_columns, shift_rows, state_of, sub_bytes, sub_word, word_at, xor_word};
ghost use Rattle.osc_aes.specs.RoundWords.{AreRoundKey, AreWordsOf, AreWordsTo, add_round_words, block_of_words, mixed_column, one_row_down};
ghost use Rattle.osc_aes.specs.Views.{key_of_words};

use crate::block_cipher::BlockCipher;
use crate::key_schedule::round_constant;
use crate::round_words::{substituted, table_word};
use byteorder::{BigEndian, ByteOrder};

/// AES-128 under one key, with tables. It keeps the words w0 to w43 of the key as numbers.
#[derive(Drop)]
pub struct TableAes {
    // Word w(4i + c) is at index 11c + i. With the words of a column side by side, the rounds stay in general
    // registers.
    words: [u32; 44],
    ghost expanded: { AreWordsOf words (expanded_key (key_of_words words)) },
    ghost key_len: { length (key_of_words words) ≡ 16 },
}

impl TableAes {
    /// Expands a key of 16 bytes, which are in the order in which FIPS 197 prints them (5.2).
    #[must_use]
    pub fn new(key: &[u8; 16]) -> TableAes
        ensures { ⟦<TableAes as BlockCipher>⟧.cipher_key result ≡ key.now }
    {
        TableAes {
            words: round_key_words(key),
        }
    }
}

impl BlockCipher for TableAes {
    ghost cipher_key = { λ s. key_of_words s.words };

    fn encrypt(&self, block: &mut [u8; 16]) {
        let columns = cipher(&self.words, block);
        BigEndian::write_u32_into(&columns, block);
    }

    ghost key_len = { λ s. s.key_len };
}

/// Expands a key into all its words, column by column.
fn round_key_words(key: &[u8; 16]) -> [u32; 44]
    ensures { AreWordsOf result (expanded_key key.now) }
{
    let mut words = [0u32; 44];
    words[0] = read_word(key, 0);
    words[11] = read_word(key, 1);
    words[22] = read_word(key, 2);
    words[33] = read_word(key, 3);
    for round in 0..10 {
        let [a, b, c, d] = next_words(&words, round);
        words[round + 1] = a;
        words[round + 12] = b;
        words[round + 23] = c;
        words[round + 34] = d;
    }
    words
}

/// Computes the four words of round key `round + 1` from the words before them.
#[inline(always)]
fn next_words(words: &[u32; 44], round: usize) -> [u32; 4]
    requires { round < 10 }
    ensures { (key : List ℕ) → length key ≡ 16 → AreWordsTo round words.now (expanded_key key)
        → AreRoundKey (round + 1) result (expanded_key key) }
{
    let last = key_word(words, round, 3);
    let a = key_word(words, round, 0) ^ added_word(last, round);
    let b = key_word(words, round, 1) ^ a;
    let c = key_word(words, round, 2) ^ b;
    [a, b, c, last ^ c]
}

/// Returns what is added to the first word of round key `round` to make the first word of the next round key: RotWord,
/// SubWord and Rcon on `last`, the last word of round key `round`.
#[inline(always)]
fn added_word(last: u32, round: usize) -> u32
    requires { round < 10 }
    ensures { to_be_bytes w32 result ≡ added_word (to_be_bytes w32 last) (4 * round + 4) }
{
    let row0 = substituted(byte2(last)) ^ round_constant(round);
    let row1 = substituted(byte1(last));
    let row2 = substituted(byte0(last));
    let row3 = substituted(byte3(last));
    word_of(row0, row1, row2, row3)
}

/// Returns word `index` of some bytes.
#[inline(always)]
fn read_word(bytes: &[u8], index: usize) -> u32
    requires { 4 * index + 4 ≤ length bytes.now }
    ensures { to_be_bytes w32 result ≡ word_at bytes.now index }
{
    BigEndian::read_u32(&bytes[4 * index..])
}

/// Returns the word of round key `round` that is added to a column.
#[inline(always)]
fn key_word(words: &[u32; 44], round: usize, column: usize) -> u32
    requires round { round < 11 }
    requires column { column < 4 }
    ensures { result ≡ slice_index words.now (11 * column + round) }
{
    words[11 * column + round]
}

/// Returns the columns of the block after all rounds. Each round has a line of its own, because a loop would move the
/// columns around in each.
fn cipher(words: &[u32; 44], block: &[u8; 16]) -> [u32; 4]
    ensures { (w : List ℕ) → AreWordsOf words.now w
        → block_of_words result ≡ cipher w block.now }
{
    let columns = first_columns(block, words);
    let columns = next_columns(columns, words, 1);
    let columns = next_columns(columns, words, 2);
    let columns = next_columns(columns, words, 3);
    let columns = next_columns(columns, words, 4);
    let columns = next_columns(columns, words, 5);
    let columns = next_columns(columns, words, 6);
    let columns = next_columns(columns, words, 7);
    let columns = next_columns(columns, words, 8);
    let columns = next_columns(columns, words, 9);
    last_columns(columns, words)
}

/// Returns the block's columns with the first round key added.
#[inline(always)]
fn first_columns(block: &[u8; 16], words: &[u32; 44]) -> [u32; 4]
    ensures { block_of_words result
        ≡ block_of (add_round_words words.now 0 (state_of block.now)) }
{
    [
        first_word(block, 0, key_word(words, 0, 0)),
        first_word(block, 1, key_word(words, 0, 1)),
        first_word(block, 2, key_word(words, 0, 2)),
        first_word(block, 3, key_word(words, 0, 3)),
    ]
}

/// Returns a column of the block with its word of the key added.
#[inline(always)]
fn first_word(block: &[u8; 16], column: usize, key: u32) -> u32
    requires { column < 4 }
    ensures { to_be_bytes w32 result ≡ xor_word (word_at block.now column) (to_be_bytes w32 key) }
{
    read_word(block, column) ^ key
}

/// Returns the columns after one more round of all four steps.
#[inline(always)]
fn next_columns(columns: [u32; 4], words: &[u32; 44], round: usize) -> [u32; 4]
    requires { round < 11 }
    ensures { block_of_words result
        ≡ block_of (add_round_words words.now round
        (mix_columns (shift_rows (sub_bytes (state_of (block_of_words columns)))))) }
{
    let [a, b, c, d] = columns;
    [
        mixed_word(a, b, c, d, key_word(words, round, 0)),
        mixed_word(b, c, d, a, key_word(words, round, 1)),
        mixed_word(c, d, a, b, key_word(words, round, 2)),
        mixed_word(d, a, b, c, key_word(words, round, 3)),
    ]
}

/// Returns a column of a round. Rows 0 to 3 come from the columns a, b, c and d, because row r is rotated left by r.
#[inline(always)]
fn mixed_word(a: u32, b: u32, c: u32, d: u32, key: u32) -> u32
    ensures { to_be_bytes w32 result
        ≡ xor_word (mixed_column (byte_at 3 a) (byte_at 2 b) (byte_at 1 c) (byte_at 0 d)) (to_be_bytes w32 key) }
{
    let row3 = table_word(byte0(d));
    let rows23 = table_word(byte1(c)) ^ one_row_down(row3);
    let rows123 = table_word(byte2(b)) ^ one_row_down(rows23);
    table_word(byte3(a)) ^ one_row_down(rows123) ^ key
}

/// Moves the bytes of a column one row down, and the lowest to row 0.
#[inline(always)]
fn one_row_down(column: u32) -> u32
    ensures { to_be_bytes w32 result ≡ one_row_down (to_be_bytes w32 column) }
{
    column.rotate_right(8)
}

/// Returns the columns after the last round, which doesn't mix columns.
#[inline(always)]
fn last_columns(columns: [u32; 4], words: &[u32; 44]) -> [u32; 4]
    ensures { block_of_words result
        ≡ block_of (add_round_words words.now 10
        (shift_rows (sub_bytes (state_of (block_of_words columns))))) }
{
    let [a, b, c, d] = columns;
    [
        last_word(a, b, c, d, key_word(words, 10, 0)),
        last_word(b, c, d, a, key_word(words, 10, 1)),
        last_word(c, d, a, b, key_word(words, 10, 2)),
        last_word(d, a, b, c, key_word(words, 10, 3)),
    ]
}

/// Returns a column of the last round.
#[inline(always)]
fn last_word(a: u32, b: u32, c: u32, d: u32, key: u32) -> u32
    ensures { to_be_bytes w32 result
        ≡ xor_word (sub_word (byte_at 3 a ∷ byte_at 2 b ∷ byte_at 1 c ∷ byte_at 0 d ∷ [])) (to_be_bytes w32 key) }
{
    let row0 = substituted(byte3(a));
    let row1 = substituted(byte2(b));
    let row2 = substituted(byte1(c));
    let row3 = substituted(byte0(d));
    word_of(row0, row1, row2, row3) ^ key
}

/// Returns the word with these bytes, the highest first. It calls std, whose law gives the bytes back.
#[inline(always)]
fn word_of(row0: u8, row1: u8, row2: u8, row3: u8) -> u32
    ensures { to_be_bytes w32 result ≡ row0 ∷ row1 ∷ row2 ∷ row3 ∷ [] }
{
    u32::from_be_bytes([row0, row1, row2, row3])
}

/// Returns the highest byte of a word.
#[inline(always)]
fn byte3(word: u32) -> u8
    ensures { result ≡ byte_at 3 word }
{
    (word >> 24) as u8
}

/// Returns the byte below the highest.
#[inline(always)]
fn byte2(word: u32) -> u8
    ensures { result ≡ byte_at 2 word }
{
    ((word >> 16) & 0xff) as u8
}

/// Returns the byte above the lowest.
#[inline(always)]
fn byte1(word: u32) -> u8
    ensures { result ≡ byte_at 1 word }
{
    ((word >> 8) & 0xff) as u8
}

/// Returns the lowest byte of a word.
#[inline(always)]
fn byte0(word: u32) -> u8
    ensures { result ≡ byte_at 0 word }
{
    (word & 0xff) as u8
}
