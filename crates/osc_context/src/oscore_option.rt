//! The value of the OSCORE option (RFC 8613, 6.1).
//!
//!      7 6 5   4   3   2 1 0
//!     +-----+---+---+-------+     n, the length of the Partial IV: 0 absent, 1 to 5, 6 and 7 reserved
//!     |0 0 0| h | k |   n   |     k: a kid is present
//!     +-----+---+---+-------+     h: a kid context is present
//!
//!     flag byte | Partial IV (n bytes) | length, kid context (if h) | kid (if k), all that remains

ghost use Rattle.std.specs.Prelude.{◌≡◌, ◌+◌, ◌^◌, ◌<◌, ◌≤◌, ◌++◌, ◌↔◌, length, IsTrue, IfSome, IfOk, IfErr, OnOk, OnErr, IsOk, IsErrOf};
ghost use Rattle.std.specs.Option.{option_copied, option_map};
ghost use Rattle.arrayvec.specs.ArrayVec.{array_vec_len};
ghost use Rattle.osc_context.specs.declared.option_error.OptionError.{OptionError};
ghost use Rattle.osc_context.specs.OscoreValue.{OscoreParts, IsOscoreValue, flag_byte, piv_bytes, kid_context_bytes, kid_bytes, flag_if_some, value_of, most_len};
ghost use Rattle.osc_context.specs.OptionRefusal.{IsFirstValueRefusal};
ghost use Rattle.osc_context.specs.PrivateWords.{parts_len};
ghost use Rattle.osc_context.specs.Views.{number_of, oscore_parts_of, IsRead};

use crate::option_error::OptionError;
use crate::option_parts::{check_flag, kid_of, parse_parts, piv_of};
use crate::partial_iv::{Piv, byte_len};
use arrayvec::ArrayVec;

/// The most bytes that a value can have (RFC 8613, 2).
const MOST_LEN: usize = 255;

/// The most bytes that a Partial IV can have (RFC 8613, 6.1).
pub(crate) const MOST_PARTIAL_IV_LEN: u8 = 5;

/// The bits of the flag byte that hold the length of the Partial IV.
pub(crate) const PARTIAL_IV_LENGTH_MASK: u8 = 0x07;

/// The bit of the flag byte that says that there is a kid.
pub(crate) const KID_FLAG: u8 = 0x08;

/// The bit of the flag byte that says that there is a kid context.
pub(crate) const KID_CONTEXT_FLAG: u8 = 0x10;

/// The bits of the flag byte that must be 0.
pub(crate) const RESERVED_FLAGS: u8 = 0xe0;

/// What a value of the OSCORE option says. The kid context comes before the kid, as on the wire.
#[derive(Clone, Copy, Debug, PartialEq, Eq)]
pub struct OscoreOption<'a> {
    pub piv: Option<Piv>,
    pub kid_context: Option<&'a [u8]>,
    pub kid: Option<&'a [u8]>,
}

impl<'a> OscoreOption<'a> {
    /// Reads a whole value. It is refused for the first reason that holds, in the order of [`OptionError`].
    pub fn read(bytes: &'a [u8]) -> Result<OscoreOption<'a>, OptionError>
        ensures accepted { IfOk result (λ option. IsOscoreValue (oscore_parts_of option) bytes.entry.now) }
        ensures accepts { (p : OscoreParts) → IsOscoreValue p bytes.entry.now → IsRead result p }
        ensures refused { IfErr result (λ e. IsFirstValueRefusal bytes.entry.now e) }
        ensures refuses { (e : OptionError) → IsFirstValueRefusal bytes.entry.now e → IsErrOf result e }
    {
        OscoreOption::read_value(bytes)
    }

    /// Writes the one value that says this, in place of what the vector holds. If it refuses, with TooLong, the vector
    /// stays as it is.
    pub fn write(&self, value: &mut ArrayVec<u8, 255>) -> Result<(), OptionError>
        ensures written { OnOk result (IsOscoreValue (oscore_parts_of self.now) value.new.items) }
        ensures most { OnOk result (array_vec_len value.new ≤ most_len (oscore_parts_of self.now)) }
        ensures accepts { most_len (oscore_parts_of self.now) ≤ 255 → IsOk result }
        ensures refused { IfErr result (λ e. (e ≡ OptionError.TooLong)
            × (255 < length (value_of (oscore_parts_of self.now)))) }
        ensures unchanged { OnErr result (value.new ≡ value.old) }
    {
        if !self.fits() {
            return Err(OptionError::TooLong);
        }
        self.put(value);
        Ok(())
    }

    /// Reads a value in one pass.
    fn read_value(bytes: &'a [u8]) -> Result<OscoreOption<'a>, OptionError>
        ensures accepted { IfOk result (λ option. IsOscoreValue (oscore_parts_of option) bytes.entry.now) }
        ensures refused { IfErr result (λ e. IsFirstValueRefusal bytes.entry.now e) }
    {
        if bytes.len() > MOST_LEN {
            return Err(OptionError::TooLong);
        }
        let [flag, rest @ ..] = bytes else {
            return Ok(OscoreOption {
                piv: None,
                kid_context: None,
                kid: None,
            });
        };
        let flag = *flag;
        check_flag(flag)?;
        let parts = parse_parts(flag, rest)?;
        let piv = piv_of(parts.piv)?;
        let kid = kid_of(flag, parts.rest)?;
        Ok(OscoreOption {
            piv,
            kid_context: parts.kid_context,
            kid,
        })
    }

    /// Returns whether the value has at most 255 bytes.
    fn fits(&self) -> bool
        ensures { IsTrue result ↔ (parts_len (oscore_parts_of self.now) ≤ 255) }
    {
        let room = MOST_LEN - 1 - piv_len(self.piv) as usize;
        let kid_len = self.kid.map_or(0, |kid| kid.len());
        match self.kid_context {
            None => kid_len <= room,
            Some(kid_context) => kid_context.len() < room && kid_len < room - kid_context.len(),
        }
    }

    /// Writes the value in place of what the vector holds.
    fn put(&self, value: &mut ArrayVec<u8, 255>)
        requires { parts_len (oscore_parts_of self.now) ≤ 255 }
        ensures { IsOscoreValue (oscore_parts_of self.now) value.new.items }
    {
        value.clear();
        let flag = self.flag_byte();
        if flag != 0 {
            value.push(flag);
            push_piv(value, self.piv);
            push_kid_context(value, self.kid_context);
            push_kid(value, self.kid);
        }
    }

    /// Returns the flag byte of these parts, even if it is 0.
    fn flag_byte(&self) -> u8
        ensures value { result ≡ flag_byte (oscore_parts_of self.now) }
        ensures number { IfSome (oscore_parts_of self.now).piv (λ n. n < 2 ^ 40) }
    {
        piv_len(self.piv)
            + (flag_if_some(KID_FLAG, self.kid) + flag_if_some(KID_CONTEXT_FLAG, self.kid_context))
    }
}

/// Returns the length of a Partial IV, or 0 if there is none.
fn piv_len(piv: Option<Piv>) -> u8
    ensures value { result ≡ length (piv_bytes (option_map number_of piv)) }
    ensures number { IfSome (option_map number_of piv) (λ n. n < 2 ^ 40) }
    ensures most { result ≤ 5 }
{
    match piv {
        None => 0,
        Some(piv) => byte_len(piv.number()) as u8,
    }
}

/// Returns the flag of a part, or 0 if there is no such part.
fn flag_if_some(flag: u8, part: Option<&[u8]>) -> u8
    ensures value { result ≡ flag_if_some flag (option_copied part.entry) }
    ensures most { result ≤ flag }
{
    match part {
        None => 0,
        Some(_) => flag,
    }
}

/// Appends a Partial IV, if there is one.
fn push_piv(value: &mut ArrayVec<u8, 255>, piv: Option<Piv>)
    requires { array_vec_len value.old + length (piv_bytes (option_map number_of piv)) ≤ 255 }
    ensures { value.new.items ≡ value.old.items ++ piv_bytes (option_map number_of piv) }
{
    if let Some(piv) = piv {
        value.try_extend_from_slice(piv.bytes().as_slice()).unwrap();
    }
}

/// Appends the length of a kid context and then the kid context, if there is one.
fn push_kid_context(value: &mut ArrayVec<u8, 255>, kid_context: Option<&[u8]>)
    requires { array_vec_len value.old
        + length (kid_context_bytes (option_copied kid_context)) ≤ 255 }
    ensures { value.new.items
        ≡ value.old.items ++ kid_context_bytes (option_copied kid_context.entry) }
{
    if let Some(kid_context) = kid_context {
        value.push(kid_context.len() as u8);
        value.try_extend_from_slice(kid_context).unwrap();
    }
}

/// Appends a kid, if there is one.
fn push_kid(value: &mut ArrayVec<u8, 255>, kid: Option<&[u8]>)
    requires { array_vec_len value.old + length (kid_bytes (option_copied kid)) ≤ 255 }
    ensures { value.new.items ≡ value.old.items ++ kid_bytes (option_copied kid.entry) }
{
    if let Some(kid) = kid {
        value.try_extend_from_slice(kid).unwrap();
    }
}
