//! Sealing (RFC 3610, 2.2 to 2.4).

ghost use Rattle.std.specs.Prelude.{◌≡◌, ◌↔◌, ◌+◌, ◌++◌, ◌<◌, ◌≤◌, length, take, drop, IsOk, IfOk, OnOk, OnErr};
ghost use Rattle.osc_ccm.specs.Ccm.{ccm, tag_length};

use crate::algorithm::Nonce;
use crate::blocks::{MOST_PLAINTEXT, TAG_LEN};
use crate::message::seal_message;
use osc_aes::{BlockCipher, encrypted_length};
use std::error::Error;
use std::fmt;

/// Why nothing was sealed. The reasons are in the order in which they are judged.
#[derive(Clone, Copy, Debug, PartialEq, Eq)]
pub enum SealError {
    /// The plaintext has more than 65,535 bytes.
    TooLong,
    /// The buffer has no room for the tag after the plaintext.
    NoRoom,
}

/// Replaces the first `len` bytes of `buf`, the plaintext, with their protection, and returns its length, which is
/// `len + 8` (RFC 3610, 2.4). The bytes after it stay as they are. The caller must never use a nonce twice under one
/// key.
pub fn seal<C: BlockCipher>(
    cipher: &C,
    nonce: &Nonce,
    aad: &[u8],
    buf: &mut [u8],
    len: usize,
) -> Result<usize, SealError>
    requires aad { length aad.now ≤ 65279 }
    requires plaintext { len ≤ length buf.old }

    ensures length { IfOk result (λ sealed_len. sealed_len ≡ len + tag_length) }
    ensures sealed { OnOk result (buf.new
        ≡ ccm (C.cipher_key cipher.now) nonce.now aad.now (take len buf.old) ++ drop (len + tag_length) buf.old) }

    ensures too_long { (result ≡ Err SealError.TooLong) ↔ (65535 < len) }
    ensures no_room { (result ≡ Err SealError.NoRoom)
        ↔ ((len ≤ 65535) × (length buf.old < len + tag_length)) }
    ensures accepts { len ≤ 65535 → len + tag_length ≤ length buf.old → IsOk result }
    ensures unchanged { OnErr result (buf.new ≡ buf.old) }
{
    // For the proof alone: a block of the key stream has 16 bytes.
    encrypted_length();
    if len > MOST_PLAINTEXT {
        return Err(SealError::TooLong);
    }
    if buf.len() - len < TAG_LEN {
        return Err(SealError::NoRoom);
    }
    let tag = seal_message(cipher, nonce, aad, &mut buf[..len]);
    buf[len..len + TAG_LEN].copy_from_slice(&tag);
    Ok(len + TAG_LEN)
}

impl fmt::Display for SealError {
    ghost use Rattle.std.specs.Prelude.{Some};
    ghost use Rattle.osc_ccm.specs.Text.{seal_error_name};

    ghost output = { λ error. Some (seal_error_name error) };

    fn fmt<W: fmt::Write>(&self, f: &mut fmt::Formatter<W>) -> fmt::Result {
        f.write_str(match self {
            SealError::TooLong => "TooLong",
            SealError::NoRoom => "NoRoom",
        })
    }
}

impl Error for SealError {}
