//! The nonce (RFC 8613, 5.2): the Partial IV and the identifier of the end that generated it, xor the Common IV.

ghost use Rattle.std.specs.Prelude.{◌≡◌, ◌++◌, ◌-◌, ◌≤◌, take, drop, length};
ghost use Rattle.osc_context.specs.Nonce.{nonce_of, nonce_text};
ghost use Rattle.osc_context.specs.Views.{number_of};

use crate::identifier::Kid;
use crate::partial_iv::Piv;
use osc_ccm::{AesCcm16_64_128, Nonce};

/// Returns the nonce. The identifier is that of the end that generated the Partial IV, in a response too
/// (RFC 8613, 5.2).
#[must_use]
pub fn nonce(common_iv: &Nonce, owner: &Kid, partial_iv: Piv) -> Nonce
    ensures { result ≡ nonce_of common_iv.now owner.now (number_of partial_iv) }
{
    let text = nonce_text(owner, partial_iv);
    let mut nonce = [0u8; AesCcm16_64_128::NONCE_LEN];
    for i in 0..AesCcm16_64_128::NONCE_LEN {
        nonce[i] = common_iv[i] ^ text[i];
    }
    nonce
}

/// Returns the length of the identifier, then the identifier and the Partial IV, each at the end of its field.
fn nonce_text(owner: &Kid, partial_iv: Piv) -> Nonce
    ensures { result ≡ nonce_text owner.now (number_of partial_iv) }
{
    let id = owner.bytes();
    let partial_iv = partial_iv.bytes();
    let mut text = [0u8; AesCcm16_64_128::NONCE_LEN];
    text[0] = id.len() as u8;
    put_before(&mut text, 8, id);
    put_before(&mut text, AesCcm16_64_128::NONCE_LEN, partial_iv.as_slice());
    text
}

/// Copies the bytes so that they end just before a place.
fn put_before(text: &mut [u8], end: usize, bytes: &[u8])
    requires starts { length bytes.now ≤ end }
    requires ends { end ≤ length text.old }
    ensures { text.new ≡ take (end - length bytes.now) text.old ++ (bytes.now ++ drop end text.old) }
{
    text[end - bytes.len()..end].copy_from_slice(bytes);
}
