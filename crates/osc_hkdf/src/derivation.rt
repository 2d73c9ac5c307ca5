//! HKDF (RFC 5869).

ghost use Rattle.std.specs.Prelude.{◌≡◌, ◌<◌, length, IsErr, OnOk, OnErr};
ghost use Rattle.osc_hkdf.specs.Hkdf.{expand_of, extract_of};

use crate::mac::hmac_sha256;
use std::error::Error;
use std::fmt;

/// The length of an output block in bytes.
const OUTPUT_BLOCK_LEN: usize = 32;

/// The most bytes of output: as many blocks as one byte can count (RFC 5869, 2.3).
pub const MOST_OUTPUT: usize = 255 * 32;

/// The caller asked for more blocks of output than one byte can count.
#[derive(Clone, Copy, Debug, PartialEq, Eq)]
pub struct TooLong;

/// Extracts the pseudorandom key from a salt and a secret. An absent salt is the same as an empty one, because both are
/// padded with zeros (RFC 5869, 2.2).
#[must_use]
pub fn extract(salt: &[u8], secret: &[u8]) -> [u8; 32]
    ensures { result ≡ extract_of salt.now secret.now }
{
    hmac_sha256(salt, &[secret])
}

/// Fills `out` with the output of a pseudorandom key in a context. If it refuses, `out` stays as it is (RFC 5869, 2.3).
pub fn expand(prk: &[u8; 32], info: &[u8], out: &mut [u8]) -> Result<(), TooLong>
    ensures filled { OnOk result (out.new ≡ expand_of prk.now info.now (length out.old)) }
    ensures refused { IsErr result → 8160 < length out.old }
    ensures refuses { 8160 < length out.old → IsErr result }
    ensures unchanged { OnErr result (out.new ≡ out.old) }
{
    if out.len() > MOST_OUTPUT {
        return Err(TooLong);
    }
    let mut last = [0u8; 32];
    let mut used = 0;
    for i in 0..out.len().div_ceil(OUTPUT_BLOCK_LEN) {
        let counter = [(i + 1) as u8];
        let block = hmac_sha256(prk, &[&last[..used], info, &counter]);
        let start = OUTPUT_BLOCK_LEN * i;
        let end = (start + OUTPUT_BLOCK_LEN).min(out.len());
        out[start..end].copy_from_slice(&block[..end - start]);
        last = block;
        used = OUTPUT_BLOCK_LEN;
    }
    Ok(())
}

impl fmt::Display for TooLong {
    ghost use Rattle.std.specs.Prelude.{Some};
    ghost use Rattle.osc_hkdf.specs.Text.{too_long_name};

    ghost output = { λ _. Some too_long_name };

    fn fmt<W: fmt::Write>(&self, f: &mut fmt::Formatter<W>) -> fmt::Result {
        f.write_str("TooLong")
    }
}

impl Error for TooLong {}
