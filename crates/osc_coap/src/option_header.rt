//! What comes before an option's value, and the value (RFC 7252, 3.1). This is the only place that knows what the
//! nibbles 13, 14 and 15 mean.
//!
//!     | delta nibble, length nibble | extended delta | extended length | value |

ghost use Rattle.std.specs.Prelude.{◌≡◌, ◌<◌, ◌≤◌, ◌+◌, ℕ, length, IfSome};
ghost use Rattle.std.specs.Option.{option_map};
ghost use Rattle.osc_coap.specs.Reading.{number_at, pieces_at};
ghost use Rattle.osc_coap.specs.Seen.{seen_number, seen_pieces};
ghost use Rattle.osc_coap.specs.OptionSpelling.{extended_length, option_length};
ghost use Rattle.osc_coap.specs.OptionText.{placed, nibble, extended, option_text};

use crate::placing::put;
use byteorder::{BigEndian, ByteOrder};

/// One extended byte follows, and stands for itself plus `ONE_BYTE_BASE`.
const ONE_BYTE: u8 = 13;

/// Two extended bytes follow, high byte first, and stand for their number plus `TWO_BYTES_BASE`.
const TWO_BYTES: u8 = 14;

/// Stands for no number: it is reserved for the payload marker.
pub(crate) const RESERVED_NIBBLE: u8 = 15;

/// The least number that takes one extended byte.
const ONE_BYTE_BASE: u32 = 13;

/// The least number that takes two extended bytes.
const TWO_BYTES_BASE: u32 = 13 + 256;

/// The most bytes that a value can have: two extended bytes can't say a larger length.
pub(crate) const MOST_VALUE: usize = 13 + 256 + 65_535;

/// The delta of an option, its value, and the bytes after it.
#[derive(Clone, Copy)]
pub(crate) struct Pieces<'a> {
    pub(crate) delta: u32,
    pub(crate) value: &'a [u8],
    pub(crate) rest: &'a [u8],
}

/// Returns the number that a nibble stands for, together with the extended bytes at the front of `bytes`, and the bytes
/// after those.
#[tactic(auto, unfolding(crate::specs::Reading::number_at))]
fn number_of(nibble: u8, bytes: &[u8]) -> Option<(u32, &[u8])>
    ensures value { option_map seen_number result ≡ number_at nibble bytes.now }
    ensures small { IfSome result (λ x. x.0 < 65805) }
{
    if nibble < ONE_BYTE {
        return Some((u32::from(nibble), bytes));
    }
    match (nibble, bytes) {
        (ONE_BYTE, [x, rest @ ..]) => Some((u32::from(*x) + ONE_BYTE_BASE, rest)),
        (TWO_BYTES, [_, _, rest @ ..]) => {
            Some((u32::from(BigEndian::read_u16(bytes)) + TWO_BYTES_BASE, rest))
        }
        _ => None,
    }
}

/// Takes the bytes after an option byte apart. Returns `None` if they end too early.
#[tactic(auto, unfolding(crate::specs::Reading::pieces_at))]
pub(crate) fn pieces_of(delta_nibble: u8, length_nibble: u8, bytes: &[u8]) -> Option<Pieces<'_>>
    ensures value { option_map seen_pieces result ≡ pieces_at delta_nibble length_nibble bytes.now }
    ensures small { IfSome result (λ x. x.delta < 65805) }
{
    let (delta, rest) = number_of(delta_nibble, bytes)?;
    let (value_len, rest) = number_of(length_nibble, rest)?;
    let value_len = value_len as usize;
    if rest.len() < value_len {
        return None;
    }
    let (value, rest) = rest.split_at(value_len);
    Some(Pieces { delta, value, rest })
}

/// Returns the nibble that stands for a number.
fn nibble_of(n: u32) -> u8
    ensures value { result ≡ nibble n }
    ensures small { result < 15 }
{
    if n < ONE_BYTE_BASE {
        n as u8
    } else if n < TWO_BYTES_BASE {
        ONE_BYTE
    } else {
        TWO_BYTES
    }
}

/// Returns how many extended bytes a number takes.
fn extended_len(n: u32) -> usize
    ensures value { result ≡ extended_length n }
    ensures small { result ≤ 2 }
{
    if n < ONE_BYTE_BASE {
        0
    } else if n < TWO_BYTES_BASE {
        1
    } else {
        2
    }
}

/// Returns how many bytes an option takes, including its value. The delta is its number minus the number of the option
/// before (or 0), and the length is that of its value in bytes (RFC 7252, 3.1).
#[must_use]
pub fn option_len(delta: u16, length: u16) -> usize
    ensures { result ≡ option_length delta length }
{
    let headers = 1 + extended_len(u32::from(delta)) + extended_len(u32::from(length));
    headers + usize::from(length)
}

/// Writes the extended bytes of a number, and returns where they end.
fn put_extended(buf: &mut [u8], place: usize, n: u32) -> usize
    requires small { n < 65805 }
    requires room { place + extended_length n ≤ length buf.old }
    ensures written { buf.new ≡ placed place (extended n) buf.old }
    ensures end { result ≡ place + length (extended n) }
{
    if n < ONE_BYTE_BASE {
        place
    } else if n < TWO_BYTES_BASE {
        put(buf, place, &[(n - ONE_BYTE_BASE) as u8])
    } else {
        let rest = n - TWO_BYTES_BASE;
        put(buf, place, &[(rest / 256) as u8, (rest % 256) as u8])
    }
}

/// Writes an option: option byte, extended delta, extended length, value. Returns where it ends.
pub(crate) fn put_option(buf: &mut [u8], place: usize, delta: u16, value: &[u8]) -> usize
    requires short { length value.now ≤ 65804 }
    requires room { place + option_length delta (length value.now) ≤ length buf.old }
    ensures written { buf.new ≡ placed place (option_text delta value.now) buf.old }
    ensures end { result ≡ place + option_length delta (length value.now) }
{
    let delta = u32::from(delta);
    let value_len = value.len() as u32;
    let end = put(buf, place, &[16 * nibble_of(delta) + nibble_of(value_len)]);
    let end = put_extended(buf, end, delta);
    let end = put_extended(buf, end, value_len);
    put(buf, end, value)
}
