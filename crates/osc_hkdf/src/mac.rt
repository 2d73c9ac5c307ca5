//! HMAC-SHA-256 (RFC 2104).

ghost use Rattle.std.specs.Prelude.{◌≡◌, ◌≤◌, ◌++◌, ℕ, length, slice_index};
ghost use Rattle.std.specs.List.{flat_map};
ghost use Rattle.osc_hkdf.specs.Hmac.{hmac, padded_key, short_key};
ghost use Rattle.sha2.specs.Sha256.{sha256};

use sha2::{Digest, Sha256};

/// The length of a SHA-256 block in bytes.
const BLOCK_LEN: usize = 64;

const INNER_PAD: u8 = 0x36;

const OUTER_PAD: u8 = 0x5c;

/// Computes the code of a message under a key of any length. You pass in the message as parts, one after the other. The
/// parts are never put together (RFC 2104, 2).
#[must_use]
pub fn hmac_sha256(key: &[u8], parts: &[&[u8]]) -> [u8; 32]
    ensures { result ≡ hmac key.now (flat_map (λ part. part.now) parts.now) }
{
    let short = short_key(key);
    let inner = keyed_digest(&padded_key(&short, INNER_PAD), parts);
    keyed_digest(&padded_key(&short, OUTER_PAD), &[inner.as_slice()])
}

/// Pads a key with zeros to one block. A longer key is hashed first.
fn short_key(key: &[u8]) -> [u8; 64]
    ensures { (i : ℕ) → slice_index result i ≡ slice_index (short_key key.now) i }
{
    if key.len() > BLOCK_LEN {
        let digest: [u8; 32] = Sha256::digest(key);
        filled(&digest)
    } else {
        filled(key)
    }
}

/// Returns up to 64 bytes, with zeros after them.
fn filled(bytes: &[u8]) -> [u8; 64]
    requires { length bytes.now ≤ 64 }
    ensures { (i : ℕ) → slice_index result i ≡ slice_index bytes.now i }
{
    let mut block = [0u8; 64];
    for i in 0..bytes.len() {
        block[i] = bytes[i];
    }
    block
}

/// Adds a pad to each byte of a key.
fn padded_key(short: &[u8; 64], pad: u8) -> [u8; 64]
    ensures { result ≡ padded_key short.now pad }
{
    let mut padded = [0u8; 64];
    for i in 0..BLOCK_LEN {
        padded[i] = short[i] ^ pad;
    }
    padded
}

/// Returns the digest of a padded key and the parts of a message.
fn keyed_digest(key: &[u8; 64], parts: &[&[u8]]) -> [u8; 32]
    ensures { result ≡ sha256 (key.now ++ flat_map (λ part. part.now) parts.now) }
{
    let mut hasher = Sha256::new();
    hasher.update(key.as_slice());
    for part in parts {
        hasher.update(*part);
    }
    hasher.finalize()
}
