//! Takes apart a datagram, or a plaintext, that was read before, by the length of its payload. It doesn't read the
//! options a second time. So code that keeps that length doesn't need to borrow anything.
//!
//!     a datagram (RFC 7252, 3)     | head, 4 bytes | token | options | ff, payload |
//!     a plaintext (RFC 8613, 5.3)  | code | options | ff, payload |

ghost use Rattle.std.specs.Prelude.{◌≡◌, ◌≤◌, ℕ, length};
ghost use Rattle.osc_coap.specs.Datagram.{Parts, IsDatagram};
ghost use Rattle.osc_coap.specs.Inner.{InnerParts, IsInner};
ghost use Rattle.osc_coap.specs.PayloadLength.{marked_length};
ghost use Rattle.osc_coap.specs.Views.{parts_of, inner_parts_of};

use crate::head::{HEAD_LEN, read_head};
use crate::inner::Inner;
use crate::message::Message;
use crate::parsing::{CODE_LEN, token_of};

/// Returns how many bytes a payload of this length and its marker take.
fn marked_len(payload_len: usize) -> usize
    requires { payload_len ≤ 65535 }
    ensures { result ≡ marked_length payload_len }
{
    if payload_len == 0 { 0 } else { 1 + payload_len }
}

/// Returns the message of a datagram that `parse` accepts and whose payload has this length, in bytes: the message that
/// `parse` returns (RFC 7252, 3).
#[must_use]
pub fn parsed(datagram: &[u8], payload_len: usize) -> Message<'_>
    requires { (p : Parts) × IsDatagram p datagram.now × (payload_len ≡ length p.payload) }
    ensures { IsDatagram (parts_of result) datagram.now }
{
    let Ok(head) = read_head(datagram) else {
        unreachable!()
    };
    let token_end = HEAD_LEN + head.token_len;
    let options_end = datagram.len() - marked_len(payload_len);
    Message {
        kind: head.kind,
        code: head.code,
        message_id: head.message_id,
        token: token_of(&datagram[HEAD_LEN..token_end]),
        options: &datagram[token_end..options_end],
        payload: &datagram[datagram.len() - payload_len..],
    }
}

/// Takes a plaintext that `parse_inner` accepts and whose payload has this length, in bytes, and returns what it says:
/// what `parse_inner` returns (RFC 8613, 5.3).
#[must_use]
pub fn parsed_inner(plaintext: &[u8], payload_len: usize) -> Inner<'_>
    requires { (p : InnerParts) × IsInner p plaintext.now × (payload_len ≡ length p.payload) }
    ensures { IsInner (inner_parts_of result) plaintext.now }
{
    let options_end = plaintext.len() - marked_len(payload_len);
    Inner {
        code: plaintext[0],
        options: &plaintext[CODE_LEN..options_end],
        payload: &plaintext[plaintext.len() - payload_len..],
    }
}
