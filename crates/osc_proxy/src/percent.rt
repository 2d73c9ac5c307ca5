//! Percent-encoding (RFC 3986, 2.1).

ghost use Rattle.std.specs.Prelude.{◌≡◌, ◌≤◌, ◌<◌, ◌∷◌, [], length, false, IfOk, IfErr, IfNone, IfSome};
ghost use Rattle.osc_proxy.specs.Uri.{character, decoded, hex_value};

use arrayvec::ArrayVec;
use std::error::Error;
use std::fmt;

/// The value of Uri-Host, Uri-Path or Uri-Query: at most 255 bytes (RFC 7252, 5.10).
pub type PartValue = ArrayVec<u8, 255>;

/// A part of a URI stands for more than 255 bytes, which no option can have (RFC 7252, 5.10).
#[derive(Clone, Copy, Debug, PartialEq, Eq)]
pub struct PartTooLong;

impl fmt::Display for PartTooLong {
    ghost use Rattle.std.specs.Prelude.{Some, codes};

    ghost output = { λ error. Some (codes "PartTooLong") };

    fn fmt<W: fmt::Write>(&self, f: &mut fmt::Formatter<W>) -> fmt::Result {
        f.write_str("PartTooLong")
    }
}

impl Error for PartTooLong {}

/// Returns the number that a digit in base 16 stands for.
fn hex_value(byte: u8) -> u8
    ensures value { result ≡ hex_value byte }
    ensures small { result < 16 }
{
    match byte {
        b'0'..=b'9' => byte - b'0',
        b'A'..=b'F' => byte - b'A' + 10,
        b'a'..=b'f' => byte - b'a' + 10,
        _ => 0,
    }
}

/// Returns a character as it stands, or in lower case.
fn character(lowers: bool, byte: u8) -> u8
    ensures { result ≡ character lowers byte }
{
    if lowers {
        byte.to_ascii_lowercase()
    } else {
        byte
    }
}

/// Returns the first byte that a part stands for, and what follows it.
fn first_byte(part: &[u8], lowers: bool) -> Option<(u8, &[u8])>
    ensures none { IfNone result (part.now ≡ []) }
    ensures first { IfSome result (λ x. decoded lowers part.now ≡ x.0 ∷ decoded lowers x.1.now) }
    ensures less { IfSome result (λ x. length x.1.now < length part.now) }
{
    match part {
        [] => None,
        [b'%', high, low, rest @ ..] => Some((16 * hex_value(*high) + hex_value(*low), rest)),
        [first, rest @ ..] => Some((character(lowers, *first), rest)),
    }
}

/// Returns the bytes that a part stands for.
pub(crate) fn decode(part: &[u8], lowers: bool) -> Result<PartValue, PartTooLong>
    ensures accepted { IfOk result (λ value. value.items ≡ decoded lowers part.now) }
    ensures too_long { IfErr result (λ e. 255 < length (decoded lowers part.now)) }
{
    let mut value = ArrayVec::new();
    let mut rest = part;
    while let Some((byte, behind)) = first_byte(rest, lowers) {
        if value.try_push(byte).is_err() {
            return Err(PartTooLong);
        }
        rest = behind;
    }
    Ok(value)
}

/// Returns the bytes that a segment of a path, or an argument of a query, stands for: the value of a Uri-Path or a Uri-Query option (RFC
/// 7252, 6.4, steps 8 and 9).
pub fn percent_decoded(part: &[u8]) -> Result<PartValue, PartTooLong>
    ensures accepted { IfOk result (λ value. value.items ≡ decoded false part.now) }
    ensures too_long { IfErr result (λ e. 255 < length (decoded false part.now)) }
{
    decode(part, false)
}
