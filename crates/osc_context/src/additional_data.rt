//! The additional data (RFC 8613, 5.4): two arrays, one inside the other.
//!
//!     external_aad      [1, [10], kid, Partial IV, h'']        RFC 8613, 5.4
//!     additional data   ["Encrypt0", h'', external_aad]        RFC 8152, 5.3; external_aad as a byte string

ghost use Rattle.std.specs.Prelude.{◌≡◌, ◌≤◌};
ghost use Rattle.arrayvec.specs.ArrayVec.{array_vec_len};
ghost use Rattle.osc_context.specs.AdditionalData.{external_aad_of, additional_data_of};
ghost use Rattle.osc_context.specs.Views.{number_of};

use crate::cbor::{begin_array, push_bytes, push_number, push_text};
use crate::identifier::Kid;
use crate::partial_iv::Piv;
use arrayvec::ArrayVec;
use osc_ccm::AesCcm16_64_128;

/// The version of OSCORE (RFC 8613, 5.4).
const OSCORE_VERSION: u8 = 1;

/// Returns the additional data of a request and of its response. The identifier and the number are those of the
/// request, for the response too (RFC 8613, 5.4).
#[must_use]
pub fn aad(kid: &Kid, partial_iv: Piv) -> ArrayVec<u8, 32>
    ensures value { result.items ≡ additional_data_of kid.now (number_of partial_iv) }
    ensures most { array_vec_len result ≤ 31 }
{
    let external = external_aad(kid, partial_iv);
    let mut out = ArrayVec::new();
    begin_array(&mut out, 3);
    push_text(&mut out, "Encrypt0");
    push_bytes(&mut out, &[]);
    push_bytes(&mut out, external.as_slice());
    out
}

/// Returns the inner array. It has no class I options, because none exists.
fn external_aad(kid: &Kid, partial_iv: Piv) -> ArrayVec<u8, 20>
    ensures value { result.items ≡ external_aad_of kid.now (number_of partial_iv) }
    ensures most { array_vec_len result ≤ 19 }
{
    let mut out = ArrayVec::new();
    begin_array(&mut out, 5);
    push_number(&mut out, OSCORE_VERSION);
    begin_array(&mut out, 1);
    push_number(&mut out, AesCcm16_64_128::NUMBER);
    push_bytes(&mut out, kid.bytes());
    push_bytes(&mut out, partial_iv.bytes().as_slice());
    push_bytes(&mut out, &[]);
    out
}
