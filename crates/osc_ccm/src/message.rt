//! Runs a message through the chain of the tag and the key stream at once (RFC 3610, 2.2 and 2.3): one call of the
//! cipher makes a block of each.

ghost use Rattle.std.specs.Prelude.{◌≡◌, ◌<◌, ◌≤◌, ◌+◌, ℕ, length};
ghost use Rattle.osc_ccm.specs.Ccm.{encrypted, encrypted_tag};

use crate::algorithm::{Nonce, Tag};
use crate::blocks::xor_front;
use crate::tag::{absorb_beside, begin, hidden_tag};
use osc_aes::{BlockCipher, encrypted_length};

/// Encrypts a message in place, and returns its tag as it is sent. S_0 is made together with B_0, and S_i together with
/// block i.
pub(crate) fn seal_message<C: BlockCipher>(
    cipher: &C,
    nonce: &Nonce,
    aad: &[u8],
    message: &mut [u8],
) -> Tag
    requires aad { length aad.now ≤ 65279 }
    requires message { length message.old ≤ 65535 }
    ensures message { message.new ≡ encrypted (C.cipher_key cipher.now) nonce.now message.old }
    ensures tag { result ≡ encrypted_tag (C.cipher_key cipher.now) nonce.now aad.now message.old }
{
    // For the proof alone: a block of the key stream has 16 bytes.
    encrypted_length();
    let (mut state, hiding) = begin(cipher, nonce, aad, message.len(), 0);
    for i in 0..message.len().div_ceil(16) {
        let start = 16 * i;
        let end = (start + 16).min(message.len());
        let stream = absorb_beside(cipher, nonce, &mut state, &message[start..end], i + 1);
        xor_front(&mut message[start..end], &stream[..end - start]);
    }
    hidden_tag(&state, &hiding)
}

/// Decrypts a message in place, and returns the tag that it must have. A block is decrypted before it goes into the
/// chain. So S_1 is made together with B_0, each block of the key stream together with the block before its own, and S_0
/// together with the last.
pub(crate) fn open_message<C: BlockCipher>(
    cipher: &C,
    nonce: &Nonce,
    aad: &[u8],
    message: &mut [u8],
) -> Tag
    requires aad { length aad.now ≤ 65279 }
    requires message { length message.old ≤ 65535 }
    ensures message { message.new ≡ encrypted (C.cipher_key cipher.now) nonce.now message.old }
    ensures tag { result ≡ encrypted_tag (C.cipher_key cipher.now) nonce.now aad.now message.new }
{
    // For the proof alone: a block of the key stream has 16 bytes.
    encrypted_length();
    let blocks = message.len().div_ceil(16);
    let (mut state, mut stream) = begin(cipher, nonce, aad, message.len(), wanted(0, blocks));
    for i in 0..blocks {
        let start = 16 * i;
        let end = (start + 16).min(message.len());
        xor_front(&mut message[start..end], &stream[..end - start]);
        stream = absorb_beside(
            cipher,
            nonce,
            &mut state,
            &message[start..end],
            wanted(i + 1, blocks),
        );
    }
    hidden_tag(&state, &stream)
}

/// Returns which block of the key stream is needed next after `decrypted` of a message's `blocks` are decrypted: S_0
/// after the last.
#[inline(always)]
fn wanted(decrypted: usize, blocks: usize) -> usize
    requires { blocks < 65536 }
    ensures more { decrypted < blocks → result ≡ decrypted + 1 }
    ensures last { blocks ≤ decrypted → result ≡ 0 }
    ensures few { result < 65536 }
{
    if decrypted < blocks { decrypted + 1 } else { 0 }
}
