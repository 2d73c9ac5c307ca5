//! The forms of CBOR that OSCORE uses (RFC 8949, 3), each appended to a vector that has room for it.

ghost use Rattle.std.specs.Prelude.{◌≡◌, ◌+◌, ◌<◌, ◌≤◌, ◌++◌, length};
ghost use Rattle.arrayvec.specs.ArrayVec.{array_vec_len};
ghost use Rattle.osc_context.specs.Cbor.{cbor_head, cbor_bytes, cbor_text, cbor_number, cbor_nil};

use arrayvec::ArrayVec;

/// The major type of a byte string.
const BYTES: u8 = 0x40;

/// The major type of a text.
const TEXT: u8 = 0x60;

/// The major type of an array.
const ARRAY: u8 = 0x80;

/// What is written if there is no value.
const NIL: u8 = 0xf6;

/// From this length on, a length is written in a byte of its own.
const LONG: u8 = 24;

/// Appends the head of an array of `n` items.
pub(crate) fn begin_array<const CAP: usize>(out: &mut ArrayVec<u8, CAP>, n: u8)
    requires { array_vec_len out.old + 2 ≤ CAP }
    ensures { out.new.items ≡ out.old.items ++ cbor_head 0x80 n }
{
    push_head(out, ARRAY, n);
}

/// Appends a byte string.
pub(crate) fn push_bytes<const CAP: usize>(out: &mut ArrayVec<u8, CAP>, bytes: &[u8])
    requires short { length bytes.now < 256 }
    requires room { array_vec_len out.old + 2 + length bytes.now ≤ CAP }
    ensures { out.new.items ≡ out.old.items ++ cbor_bytes bytes.now }
{
    push_head(out, BYTES, bytes.len() as u8);
    push_all(out, bytes);
}

/// Appends a text.
pub(crate) fn push_text<const CAP: usize>(out: &mut ArrayVec<u8, CAP>, text: &str)
    requires short { length text.now < 256 }
    requires room { array_vec_len out.old + 2 + length text.now ≤ CAP }
    ensures { out.new.items ≡ out.old.items ++ cbor_text text.now }
{
    push_head(out, TEXT, text.len() as u8);
    push_all(out, text.as_bytes());
}

/// Appends a number below 24.
pub(crate) fn push_number<const CAP: usize>(out: &mut ArrayVec<u8, CAP>, n: u8)
    requires small { n < 24 }
    requires room { array_vec_len out.old < CAP }
    ensures { out.new.items ≡ out.old.items ++ cbor_number n }
{
    out.push(n);
}

/// Appends nil.
pub(crate) fn push_nil<const CAP: usize>(out: &mut ArrayVec<u8, CAP>)
    requires room { array_vec_len out.old < CAP }
    ensures { out.new.items ≡ out.old.items ++ cbor_nil }
{
    out.push(NIL);
}

/// Appends a major type with its length.
fn push_head<const CAP: usize>(out: &mut ArrayVec<u8, CAP>, major: u8, n: u8)
    requires room { array_vec_len out.old + 2 ≤ CAP }
    requires major { major < 232 }
    ensures { out.new.items ≡ out.old.items ++ cbor_head major n }
{
    if n < LONG {
        out.push(major + n);
    } else {
        out.push(major + LONG);
        out.push(n);
    }
}

/// Appends bytes as they are.
fn push_all<const CAP: usize>(out: &mut ArrayVec<u8, CAP>, bytes: &[u8])
    requires { array_vec_len out.old + length bytes.now ≤ CAP }
    ensures { out.new.items ≡ out.old.items ++ bytes.now }
{
    out.try_extend_from_slice(bytes).unwrap();
}
