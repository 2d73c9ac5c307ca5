//! Turns two blocks into eight planes, and back. Word 2c + b is column c of block b, and its byte r is row r. Bit t of
//! that byte becomes bit 8r + 2c + b of plane t.

ghost use Rattle.std.specs.Prelude.{◌≡◌, ◌<◌, ◌+◌, ◌*◌, ◌/◌, ◌%◌, ℕ, slice_index};
ghost use Rattle.std.specs.Int.{bit_at};
ghost use Rattle.osc_aes.specs.Lanes.{block_in, exchanged, pairs_exchanged};
ghost use Rattle.osc_aes.specs.Views.{key_lane, lane};

use byteorder::{ByteOrder, LittleEndian};

/// The even bits of a word, in which the first block has its lanes.
const FIRST_BLOCK: u32 = 0x5555_5555;

/// Returns the planes of two blocks, before any round.
pub(crate) fn pack(first: &[u8; 16], second: &[u8; 16]) -> [u32; 8]
    ensures first { block_in 0 result 0 ≡ first.now }
    ensures second { block_in 0 result 1 ≡ second.now }
{
    let mut a = [0u32; 4];
    LittleEndian::read_u32_into(first, &mut a);
    let mut b = [0u32; 4];
    LittleEndian::read_u32_into(second, &mut b);
    transpose(&[a[0], b[0], a[1], b[1], a[2], b[2], a[3], b[3]])
}

/// Writes the two blocks that planes hold after ten rounds.
pub(crate) fn unpack(planes: [u32; 8], first: &mut [u8; 16], second: &mut [u8; 16])
    ensures first { first.new ≡ block_in 10 planes 0 }
    ensures second { second.new ≡ block_in 10 planes 1 }
{
    let [w0, w1, w2, w3, w4, w5, w6, w7] = turn_back(&transpose(&planes));
    LittleEndian::write_u32_into(&[w0, w2, w4, w6], first);
    LittleEndian::write_u32_into(&[w1, w3, w5, w7], second);
}

/// Returns the planes of the first block in four words: word j has plane 2j in the even bits, and plane 2j + 1 in the odd ones.
pub(crate) fn narrowed(planes: &[u32; 8]) -> [u32; 4]
    ensures { (i : ℕ) → i < 32 → key_lane result i ≡ lane planes.now (2 * (i / 2)) }
{
    let [w0, _, w2, _, w4, _, w6, _] = exchange_pairs(*planes, 1, FIRST_BLOCK);
    [w0, w2, w4, w6]
}

/// Returns the planes that have the block of such words in the lanes of both blocks.
#[inline(always)]
pub(crate) fn widened(words: &[u32; 4]) -> [u32; 8]
    ensures { (i : ℕ) → i < 32 → lane result i ≡ key_lane words.now i }
{
    let [a, b, c, d] = *words;
    exchange_pairs([a, a, b, b, c, c, d, d], 1, FIRST_BLOCK)
}

/// Transposes the bits of eight words, byte by byte: bit t of a byte of word k becomes bit k of the same byte of word t.
/// Each exchange swaps one binary digit of a word's number with one binary digit of a bit's number.
#[inline(always)]
fn transpose(words: &[u32; 8]) -> [u32; 8]
    ensures { (t i : ℕ) → t < 8 → i < 32
        → bit_at (slice_index result t) i ≡ bit_at (slice_index words.now (i % 8)) (8 * (i / 8) + t) }
{
    let [w0, w1, w2, w3, w4, w5, w6, w7] = exchange_pairs(*words, 1, FIRST_BLOCK);
    let words = [w0, w2, w1, w3, w4, w6, w5, w7];
    let [w0, w2, w1, w3, w4, w6, w5, w7] = exchange_pairs(words, 2, 0x3333_3333);
    let words = [w0, w4, w1, w5, w2, w6, w3, w7];
    let [w0, w4, w1, w5, w2, w6, w3, w7] = exchange_pairs(words, 4, 0x0f0f_0f0f);
    [w0, w1, w2, w3, w4, w5, w6, w7]
}

/// Rotates back eight columns whose row r is rotated by ten times r columns: rows 1 and 3 move two columns.
#[inline(always)]
fn turn_back(words: &[u32; 8]) -> [u32; 8]
    ensures { (k p : ℕ) → k < 8 → p < 32
        → bit_at (slice_index result k) p ≡ bit_at (slice_index words.now (2 * ((k / 2 + 2 * (p / 8)) % 4) + k % 2)) p }
{
    let [w0, w1, w2, w3, w4, w5, w6, w7] = *words;
    let words = [w0, w4, w1, w5, w2, w6, w3, w7];
    let [w0, w4, w1, w5, w2, w6, w3, w7] = exchange_pairs(words, 0, 0xff00_ff00);
    [w0, w1, w2, w3, w4, w5, w6, w7]
}

/// Exchanges the bits of four pairs of neighbours.
#[inline(always)]
fn exchange_pairs(words: [u32; 8], distance: u32, mask: u32) -> [u32; 8]
    requires { distance < 32 }
    ensures { result ≡ pairs_exchanged words distance mask }
{
    let [w0, w1, w2, w3, w4, w5, w6, w7] = words;
    let [w0, w1] = exchange(w0, w1, distance, mask);
    let [w2, w3] = exchange(w2, w3, distance, mask);
    let [w4, w5] = exchange(w4, w5, distance, mask);
    let [w6, w7] = exchange(w6, w7, distance, mask);
    [w0, w1, w2, w3, w4, w5, w6, w7]
}

/// Returns two words after the bits of `second` under the mask have swapped with the bits of `first` that are `distance`
/// places higher.
#[inline(always)]
fn exchange(first: u32, second: u32, distance: u32, mask: u32) -> [u32; 2]
    requires { distance < 32 }
    ensures { result ≡ exchanged first second distance mask }
{
    let differing = ((first >> distance) ^ second) & mask;
    [first ^ (differing << distance), second ^ differing]
}
