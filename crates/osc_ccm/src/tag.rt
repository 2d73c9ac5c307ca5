//! The tag (RFC 3610, 2.2): the last state of a chain of blocks. Each block is added to the previous state, and the sum
//! is encrypted.

ghost use Rattle.std.specs.Prelude.{◌≡◌, ◌↔◌, ◌<◌, ◌≤◌, ℕ, List, fold, length, replicate, take, IsTrue};
ghost use Rattle.osc_ccm.specs.Ccm.{encoded_aad, first_block, mac_step, padded_block, padded_blocks, stream_block, tag_length, xor_bytes};

use crate::algorithm::{Nonce, Tag};
use crate::blocks::{
    COUNTER_FLAGS, FLAGS, FLAGS_WITH_AAD, TAG_LEN, aad_block, numbered_block, xor_front,
};
use osc_aes::BlockCipher;

/// Returns the state after B_0 and the additional data, for a message of `len` bytes, and S_i, which is made together
/// with B_0.
pub(crate) fn begin<C: BlockCipher>(
    cipher: &C,
    nonce: &Nonce,
    aad: &[u8],
    len: usize,
    i: usize,
) -> ([u8; 16], [u8; 16])
    requires aad { length aad.now ≤ 65279 }
    requires len { len ≤ 65535 }
    requires number { i < 65536 }
    ensures state { (m : List ℕ) → length m ≡ len → result.0
        ≡ fold (mac_step (C.cipher_key cipher.now)) (mac_step (C.cipher_key cipher.now) (replicate 16 0) (first_block nonce.now aad.now m)) (padded_blocks (encoded_aad aad.now)) }
    ensures stream { result.1 ≡ stream_block (C.cipher_key cipher.now) nonce.now i }
{
    let flags = if aad.is_empty() {
        FLAGS
    } else {
        FLAGS_WITH_AAD
    };
    let first = numbered_block(flags, nonce, len as u16);
    let mut state = [0u8; 16];
    let stream = absorb_beside(cipher, nonce, &mut state, &first, i);
    absorb_aad(cipher, &mut state, aad);
    (state, stream)
}

/// Takes up to 16 bytes into the state, as a block padded with zeros, and makes S_i together with it.
pub(crate) fn absorb_beside<C: BlockCipher>(
    cipher: &C,
    nonce: &Nonce,
    state: &mut [u8; 16],
    part: &[u8],
    i: usize,
) -> [u8; 16]
    requires part { length part.now ≤ 16 }
    requires number { i < 65536 }
    ensures state { state.new ≡ mac_step (C.cipher_key cipher.now) state.old (padded_block part.now 0) }
    ensures stream { result ≡ stream_block (C.cipher_key cipher.now) nonce.now i }
{
    xor_front(state, part);
    let mut stream = numbered_block(COUNTER_FLAGS, nonce, i as u16);
    cipher.encrypt_two(state, &mut stream);
    stream
}

/// Takes the length of the additional data into the state, and then the data.
fn absorb_aad<C: BlockCipher>(cipher: &C, state: &mut [u8; 16], aad: &[u8])
    requires { length aad.now ≤ 65279 }
    ensures { state.new ≡ fold (mac_step (C.cipher_key cipher.now)) state.old (padded_blocks (encoded_aad aad.now)) }
{
    if aad.is_empty() {
        return;
    }
    let (block, taken) = aad_block(aad);
    absorb_block(cipher, state, &block);
    absorb(cipher, state, &aad[taken..]);
}

/// Takes bytes into the state, block by block.
fn absorb<C: BlockCipher>(cipher: &C, state: &mut [u8; 16], bytes: &[u8])
    requires { length bytes.now ≤ 65535 }
    ensures { state.new ≡ fold (mac_step (C.cipher_key cipher.now)) state.old (padded_blocks bytes.now) }
{
    for i in 0..bytes.len().div_ceil(16) {
        let start = 16 * i;
        let end = (start + 16).min(bytes.len());
        absorb_block(cipher, state, &bytes[start..end]);
    }
}

/// Takes up to 16 bytes into the state, as a block padded with zeros. Adding zeros changes nothing.
fn absorb_block<C: BlockCipher>(cipher: &C, state: &mut [u8; 16], part: &[u8])
    requires { length part.now ≤ 16 }
    ensures { state.new ≡ mac_step (C.cipher_key cipher.now) state.old (padded_block part.now 0) }
{
    xor_front(state, part);
    cipher.encrypt(state);
}

/// Returns the tag as it is sent: the front of the last state, added to the front of S_0.
pub(crate) fn hidden_tag(state: &[u8; 16], stream: &[u8; 16]) -> Tag
    ensures { result ≡ xor_bytes (take tag_length state.now) (take tag_length stream.now) }
{
    let mut tag = [0u8; 8];
    for k in 0..tag.len() {
        tag[k] = state[k] ^ stream[k];
    }
    tag
}

/// Returns whether two tags are equal. It gathers the differences of all bytes, and tests them once.
pub(crate) fn is_same_tag(tag: &Tag, received: &[u8]) -> bool
    requires { length received.now ≡ 8 }
    ensures { IsTrue result ↔ (tag.now ≡ received.now) }
{
    let mut differences = 0;
    for k in 0..TAG_LEN {
        differences |= tag[k] ^ received[k];
    }
    differences == 0
}
