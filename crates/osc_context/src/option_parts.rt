//! The parts of a value of the OSCORE option (RFC 8613, 6.1), cut out of its bytes.
//! Each function refuses for its own reasons.

ghost use Rattle.std.specs.Prelude.{◌≡◌, ◌≢◌, ℕ, ◌+◌, ◌*◌, ◌/◌, ◌%◌, ◌^◌, ◌<◌, ◌≤◌, ◌++◌, ◌∷◌, ◌↔◌, List, Option, length, slice_index, IfSome, IfNone, IfOk, IfErr, OnOk, OnErr, IsTrue};
ghost use Rattle.std.specs.Option.{option_copied, option_map};
ghost use Rattle.osc_context.specs.declared.option_error.OptionError.{OptionError};
ghost use Rattle.osc_context.specs.OscoreValue.{piv_bytes, kid_context_bytes, kid_bytes, flag_if_some};
ghost use Rattle.osc_context.specs.OptionRefusal.{IsFirstValueRefusal, front_len};
ghost use Rattle.osc_context.specs.Views.{number_of};

use crate::option_error::OptionError;
use crate::oscore_option::{
    KID_CONTEXT_FLAG, KID_FLAG, MOST_PARTIAL_IV_LEN, PARTIAL_IV_LENGTH_MASK, RESERVED_FLAGS,
};
use crate::partial_iv::Piv;

/// Refuses a flag byte that no value begins with.
pub(crate) fn check_flag(flag: u8) -> Result<(), OptionError>
    ensures plain { OnOk result (flag / 32 ≡ 0) }
    ensures piv_len { OnOk result (flag % 8 ≤ 5) }
    ensures written { OnOk result (flag ≢ 0) }
    ensures refused { IfErr result (λ e. (rest : List ℕ) → length rest < 255
        → IsFirstValueRefusal (flag ∷ rest) e) }
{
    if flag & RESERVED_FLAGS != 0 {
        return Err(OptionError::Reserved);
    }
    if flag & PARTIAL_IV_LENGTH_MASK > MOST_PARTIAL_IV_LEN {
        return Err(OptionError::PivLength);
    }
    if flag == 0 {
        return Err(OptionError::ZeroFlag);
    }
    Ok(())
}

/// What follows the flag byte. The rest is the kid, if its flag is set.
#[derive(Clone, Copy)]
pub(crate) struct Parts<'a> {
    pub(crate) piv: &'a [u8],
    pub(crate) kid_context: Option<&'a [u8]>,
    pub(crate) rest: &'a [u8],
}

/// Cuts what follows the flag byte into its parts, or refuses if one reaches past the end.
pub(crate) fn parse_parts(flag: u8, bytes: &[u8]) -> Result<Parts<'_>, OptionError>
    ensures spelled { IfOk result (λ x. bytes.now
        ≡ x.piv.now ++ (kid_context_bytes (option_copied x.kid_context) ++ x.rest.now)) }
    ensures len { IfOk result (λ x. length x.piv.now ≡ flag % 8) }
    ensures present { IfOk result (λ x. flag_if_some 16 (option_copied x.kid_context)
        ≡ 16 * (flag / 16 % 2)) }
    ensures refused { IfErr result (λ e. e ≡ OptionError.Cut) }
    ensures cut { OnErr result (1 + length bytes.now < front_len (flag ∷ bytes.now)) }
{
    let piv_len = (flag & PARTIAL_IV_LENGTH_MASK) as usize;
    if bytes.len() < piv_len {
        return Err(OptionError::Cut);
    }
    let (piv, bytes) = bytes.split_at(piv_len);
    let Some(cut) = parse_kid_context(flag, bytes) else {
        return Err(OptionError::Cut);
    };
    Ok(Parts {
        piv,
        kid_context: cut.kid_context,
        rest: cut.rest,
    })
}

/// A kid context and what follows it.
#[derive(Clone, Copy)]
struct ContextCut<'a> {
    kid_context: Option<&'a [u8]>,
    rest: &'a [u8],
}

/// Takes a length and a kid context off the front, if the flag says that there is one.
#[tactic(auto, using(crate::proofs::Masks::mask_kid_context))]
fn parse_kid_context(flag: u8, bytes: &[u8]) -> Option<ContextCut<'_>>
    ensures spelled { IfSome result (λ x. bytes.now
        ≡ kid_context_bytes (option_copied x.kid_context) ++ x.rest.now) }
    ensures present { IfSome result (λ x. flag_if_some 16 (option_copied x.kid_context)
        ≡ 16 * (flag / 16 % 2)) }
    ensures cut { IfNone result ((flag / 16 % 2 ≡ 1) × (length bytes.now < 1 + slice_index bytes.now 0)) }
{
    if flag & KID_CONTEXT_FLAG == 0 {
        return Some(ContextCut {
            kid_context: None,
            rest: bytes,
        });
    }
    let [len, rest @ ..] = bytes else {
        return None;
    };
    let len = *len as usize;
    if rest.len() < len {
        return None;
    }
    let (kid_context, rest) = rest.split_at(len);
    Some(ContextCut {
        kid_context: Some(kid_context),
        rest,
    })
}

/// Returns the Partial IV of these bytes, if there are any. A Partial IV with a leading zero byte too many is refused.
pub(crate) fn piv_of(bytes: &[u8]) -> Result<Option<Piv>, OptionError>
    requires { length bytes.now ≤ 5 }
    ensures spelled { IfOk result (λ piv. piv_bytes (option_map number_of piv) ≡ bytes.now) }
    ensures number { IfOk result (λ piv. IfSome (option_map number_of piv) (λ n. n < 2 ^ 40)) }
    ensures refused { IfErr result (λ e. e ≡ OptionError.LeadingZero) }
    ensures leading_zero { OnErr result ((1 < length bytes.now) × (slice_index bytes.now 0 ≡ 0)) }
{
    if bytes.is_empty() {
        return Ok(None);
    }
    if has_leading_zero(bytes) {
        return Err(OptionError::LeadingZero);
    }
    Ok(Some(Piv::of_bytes(bytes)))
}

/// Returns whether there are two or more bytes and the first is 0.
fn has_leading_zero(bytes: &[u8]) -> bool
    ensures { IsTrue result ↔ ((1 < length bytes.now) × (slice_index bytes.now 0 ≡ 0)) }
{
    bytes.len() > 1 && bytes[0] == 0
}

/// Returns the kid, if its flag says that there is one. Bytes without that flag are refused.
#[tactic(auto, using(crate::proofs::Masks::mask_kid))]
pub(crate) fn kid_of(flag: u8, rest: &[u8]) -> Result<Option<&[u8]>, OptionError>
    ensures spelled { IfOk result (λ kid. kid_bytes (option_copied kid) ≡ rest.now) }
    ensures present { IfOk result (λ kid. flag_if_some 8 (option_copied kid) ≡ 8 * (flag / 8 % 2)) }
    ensures refused { IfErr result (λ e. e ≡ OptionError.Trailing) }
    ensures trailing { OnErr result ((flag / 8 % 2 ≡ 0) × (0 < length rest.now)) }
{
    if flag & KID_FLAG != 0 {
        return Ok(Some(rest));
    }
    if rest.is_empty() {
        Ok(None)
    } else {
        Err(OptionError::Trailing)
    }
}
