//! The value of Request-Tag, by which a client tells its bodies apart (RFC 9175, 3).

ghost use Rattle.std.specs.Prelude.{◌≡◌, ◌≤◌};
ghost use Rattle.arrayvec.specs.ArrayVec.{array_vec_len};
ghost use Rattle.osc_blocks.specs.RequestTag.{request_tag_of};
ghost use Rattle.osc_context.specs.Views.{number_of};

use arrayvec::ArrayVec;
use osc_context::Piv;

/// Returns the value of Request-Tag, option 292, for a body that a client sends in blocks: the bytes of `first`, the Partial IV
/// of the request that carries block number 0. Each request that carries a block of that body has it. No two bodies of one
/// client have the same, so none is recycled (RFC 9175, 3.2.1, 3.4 and 3.5.1).
#[must_use]
pub fn request_tag(first: Piv) -> ArrayVec<u8, 5>
    ensures value { result.items ≡ request_tag_of (number_of first) }
    ensures most { array_vec_len result ≤ 5 }
{
    first.bytes()
}
