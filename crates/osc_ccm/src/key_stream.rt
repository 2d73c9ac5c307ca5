//! The key stream (RFC 3610, 2.3).

ghost use Rattle.std.specs.Prelude.{◌≡◌, ◌<◌, ◌≤◌, length};
ghost use Rattle.osc_ccm.specs.Ccm.{encrypted, stream_block};

use crate::algorithm::Nonce;
use crate::blocks::{COUNTER_FLAGS, numbered_block, xor_front};
use osc_aes::{BlockCipher, encrypted_length};

/// Returns S_i. S_0 hides the tag, and the message begins at S_1.
pub(crate) fn stream_block<C: BlockCipher>(cipher: &C, nonce: &Nonce, i: usize) -> [u8; 16]
    requires { i < 65536 }
    ensures { result ≡ stream_block (C.cipher_key cipher.now) nonce.now i }
{
    let mut block = numbered_block(COUNTER_FLAGS, nonce, i as u16);
    cipher.encrypt(&mut block);
    block
}

/// Adds the key stream to a message. Adding it twice gives the message back.
pub(crate) fn add_key_stream<C: BlockCipher>(cipher: &C, nonce: &Nonce, message: &mut [u8])
    requires { length message.old ≤ 65535 }
    ensures { message.new ≡ encrypted (C.cipher_key cipher.now) nonce.now message.old }
{
    // For the proof alone: a block of the key stream has 16 bytes.
    encrypted_length();
    for i in 0..message.len().div_ceil(16) {
        let block = stream_block(cipher, nonce, i + 1);
        let start = 16 * i;
        let end = (start + 16).min(message.len());
        xor_front(&mut message[start..end], &block[..end - start]);
    }
}
