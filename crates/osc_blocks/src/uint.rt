//! Numbers as values of options (RFC 7252, 3.2): high byte first. These have at most 3 bytes.

ghost use Rattle.std.specs.Prelude.{◌≡◌, ◌^◌, ◌<◌, ◌≤◌, ℕ, List, length};
ghost use Rattle.arrayvec.specs.ArrayVec.{array_vec_len};
ghost use Rattle.osc_blocks.specs.Uint.{SpellsNumber};
ghost use Rattle.osc_context.specs.PartialIv.{spelled_number};

use arrayvec::ArrayVec;

/// Returns the number that up to 3 bytes spell. Leading zero bytes change nothing (RFC 7252, 3.2).
pub(crate) fn read_uint(bytes: &[u8]) -> u32
    requires { length bytes.now ≤ 3 }
    ensures value { result ≡ spelled_number bytes.now }
    ensures most { result < 2 ^ 24 }
{
    let mut number = 0u32;
    for byte in bytes {
        number = number * 256 + u32::from(*byte);
    }
    number
}

/// Returns the fewest bytes that spell a number, which are none for 0 (RFC 7252, 3.2).
pub(crate) fn write_uint(number: u32) -> ArrayVec<u8, 3>
    requires { number < 2 ^ 24 }
    ensures spells { SpellsNumber result.items number }
    ensures most { array_vec_len result ≤ 3 }
    ensures shortest { (other : List ℕ) → SpellsNumber other number → array_vec_len result ≤ length other }
{
    let high = (number / 0x1_0000) as u8;
    let middle = (number / 0x100 % 0x100) as u8;
    let low = (number % 0x100) as u8;
    if number == 0 {
        holding(&[])
    } else if number < 0x100 {
        holding(&[low])
    } else if number < 0x1_0000 {
        holding(&[middle, low])
    } else {
        holding(&[high, middle, low])
    }
}

/// Returns a vector with these bytes.
fn holding(bytes: &[u8]) -> ArrayVec<u8, 3>
    requires { length bytes.now ≤ 3 }
    ensures { result.items ≡ bytes.now }
{
    let mut held = ArrayVec::new();
    held.try_extend_from_slice(bytes).unwrap();
    held
}
