//! Opening (RFC 3610, 2.5), specified by what sealing makes.

ghost use Rattle.std.specs.Prelude.{◌≡◌, ◌↔◌, ℕ, List, ◌+◌, ◌<◌, ◌≤◌, length, take, drop, IsOkAnd, IfOk, OnErr};
ghost use Rattle.osc_ccm.specs.Ccm.{ccm, tag_length};

use crate::algorithm::Nonce;
use crate::blocks::{MOST_PLAINTEXT, TAG_LEN};
use crate::key_stream::add_key_stream;
use crate::message::open_message;
use crate::tag::is_same_tag;
use osc_aes::{BlockCipher, encrypted_length};
use std::error::Error;
use std::fmt;

/// Why nothing was opened. The reasons are in the order in which they are judged.
#[derive(Clone, Copy, Debug, PartialEq, Eq)]
pub enum OpenError {
    /// The buffer has fewer bytes than a tag.
    Short,
    /// The buffer has more bytes than the longest plaintext and its tag.
    TooLong,
    /// The buffer isn't the protection of any plaintext under this key, nonce and additional data.
    BadTag,
}

/// Opens the whole of `buf` in place. Leaves the plaintext at the front and returns its length; the last 8 bytes stay
/// as they are (RFC 3610, 2.5). A refusal tells nothing about how far the bytes agreed.
pub fn open<C: BlockCipher>(
    cipher: &C,
    nonce: &Nonce,
    aad: &[u8],
    buf: &mut [u8],
) -> Result<usize, OpenError>
    requires { length aad.now ≤ 65279 }

    ensures length { IfOk result (λ len. len + tag_length ≡ length buf.old) }
    ensures opened { IfOk result (λ len. buf.old
        ≡ ccm (C.cipher_key cipher.now) nonce.now aad.now (take len buf.new)) }
    ensures tag_stays { IfOk result (λ len. drop len buf.new ≡ drop len buf.old) }

    // If the buffer protects a plaintext, that plaintext opens.
    ensures accepts { (m : List ℕ) → length m ≤ 65535
        → buf.old ≡ ccm (C.cipher_key cipher.now) nonce.now aad.now m
        → IsOkAnd result (λ len. take len buf.new ≡ m) }

    ensures short { (result ≡ Err OpenError.Short) ↔ (length buf.old < tag_length) }
    ensures too_long { (result ≡ Err OpenError.TooLong) ↔ (65535 + tag_length < length buf.old) }
    ensures bad_tag { (result ≡ Err OpenError.BadTag)
        ↔ ((tag_length ≤ length buf.old) × (length buf.old ≤ 65535 + tag_length)
        × ((m : List ℕ) → buf.old ≡ ccm (C.cipher_key cipher.now) nonce.now aad.now m → ⊥)) }
    ensures unchanged { OnErr result (buf.new ≡ buf.old) }
{
    // For the proof alone: a block of the key stream has 16 bytes.
    encrypted_length();
    if buf.len() < TAG_LEN {
        return Err(OpenError::Short);
    }
    if buf.len() > MOST_PLAINTEXT + TAG_LEN {
        return Err(OpenError::TooLong);
    }
    let len = buf.len() - TAG_LEN;
    let tag = open_message(cipher, nonce, aad, &mut buf[..len]);
    if is_same_tag(&tag, &buf[len..]) {
        return Ok(len);
    }
    // Adding the key stream again restores the bytes.
    add_key_stream(cipher, nonce, &mut buf[..len]);
    Err(OpenError::BadTag)
}

impl fmt::Display for OpenError {
    ghost use Rattle.std.specs.Prelude.{Some};
    ghost use Rattle.osc_ccm.specs.Text.{open_error_name};

    ghost output = { λ error. Some (open_error_name error) };

    fn fmt<W: fmt::Write>(&self, f: &mut fmt::Formatter<W>) -> fmt::Result {
        f.write_str(match self {
            OpenError::Short => "Short",
            OpenError::TooLong => "TooLong",
            OpenError::BadTag => "BadTag",
        })
    }
}

impl Error for OpenError {}
