//! Keys and the Common IV, derived with HKDF (RFC 8613, 3.2.1).
//!
//!     info      [identifier, ID Context or nil, 10, "Key" or "IV", length]

ghost use Rattle.std.specs.Prelude.{◌≡◌, ◌≤◌, ◌<◌, [], length, codes, IfSome};
ghost use Rattle.std.specs.Option.{option_copied};
ghost use Rattle.osc_hkdf.specs.Hkdf.{expand_of};
ghost use Rattle.osc_context.specs.Algorithm.{key_length, nonce_length};
ghost use Rattle.osc_context.specs.Derivation.{info_of};

use crate::cbor::{begin_array, push_bytes, push_nil, push_number, push_text};
use arrayvec::ArrayVec;
use osc_ccm::{AesCcm16_64_128, Key, Nonce};
use osc_hkdf::expand;

/// The type of a key in its info.
const KEY_TYPE: &str = "Key";

/// The type of the Common IV in its info.
const COMMON_IV_TYPE: &str = "IV";

/// Returns the info of an output: whose it is, in which ID Context, of which type, and its length in bytes.
pub(crate) fn info(
    id: &[u8],
    id_context: Option<&[u8]>,
    output_type: &str,
    len: u8,
) -> ArrayVec<u8, 64>
    requires id { length id.now ≤ 7 }
    requires id_context { IfSome (option_copied id_context) (λ bytes. length bytes ≤ 32) }
    requires output_type { length output_type.now ≤ 3 }
    requires len { len < 24 }
    ensures { result.items ≡ info_of id.now (option_copied id_context.entry) output_type.now len }
{
    let mut out = ArrayVec::new();
    begin_array(&mut out, 5);
    push_bytes(&mut out, id);
    match id_context {
        Some(bytes) => push_bytes(&mut out, bytes),
        None => push_nil(&mut out),
    }
    push_number(&mut out, AesCcm16_64_128::NUMBER);
    push_text(&mut out, output_type);
    push_number(&mut out, len);
    out
}

/// Derives the key of the end with this identifier, under the pseudorandom key from salt and secret.
pub(crate) fn derive_key(prk: &[u8; 32], id_context: Option<&[u8]>, id: &[u8]) -> Key
    requires id { length id.now ≤ 7 }
    requires id_context { IfSome (option_copied id_context) (λ bytes. length bytes ≤ 32) }
    ensures { result ≡ expand_of prk.now (info_of id.now (option_copied id_context.entry) (codes "Key") key_length) key_length }
{
    let mut key = [0u8; AesCcm16_64_128::KEY_LEN];
    match expand(
        prk,
        info(id, id_context, KEY_TYPE, AesCcm16_64_128::KEY_LEN as u8).as_slice(),
        &mut key,
    ) {
        Ok(()) => key,
        Err(_) => unreachable!(),
    }
}

/// Derives the Common IV, under the pseudorandom key from salt and secret.
pub(crate) fn derive_common_iv(prk: &[u8; 32], id_context: Option<&[u8]>) -> Nonce
    requires { IfSome (option_copied id_context) (λ bytes. length bytes ≤ 32) }
    ensures { result ≡ expand_of prk.now (info_of [] (option_copied id_context.entry) (codes "IV") nonce_length) nonce_length }
{
    let mut common_iv = [0u8; AesCcm16_64_128::NONCE_LEN];
    match expand(
        prk,
        info(
            &[],
            id_context,
            COMMON_IV_TYPE,
            AesCcm16_64_128::NONCE_LEN as u8,
        )
        .as_slice(),
        &mut common_iv,
    ) {
        Ok(()) => common_iv,
        Err(_) => unreachable!(),
    }
}
