//! Reading a datagram and a plaintext.
//!
//!     a datagram (RFC 7252, 3)     | head, 4 bytes | token | options | ff, payload |
//!     a plaintext (RFC 8613, 5.3)  | code | options | ff, payload |

ghost use Rattle.std.specs.Prelude.{◌≡◌, ◌≤◌, ℕ, length, IfOk, IfErr, IsOkAnd, IsErrAnd};
ghost use Rattle.osc_coap.specs.Datagram.{Parts, IsDatagram};
ghost use Rattle.osc_coap.specs.Inner.{InnerParts, IsInner};
ghost use Rattle.osc_coap.specs.Fault.{HasFault, HasInnerFault};
ghost use Rattle.osc_coap.specs.Views.{parts_of, inner_parts_of};

use crate::body::body_behind;
use crate::format_error::{Fault, FormatError, MOST_DATAGRAM};
use crate::head::{HEAD_LEN, read_head, token_end};
use crate::inner::Inner;
use crate::message::{Message, Token};

/// The number of bytes before a plaintext's options.
pub(crate) const CODE_LEN: usize = 1;

/// Copies the token's bytes.
pub(crate) fn token_of(bytes: &[u8]) -> Token
    requires { length bytes.now ≤ 8 }
    ensures { result.items ≡ bytes.now }
{
    let mut token = Token::new();
    token.try_extend_from_slice(bytes).unwrap();
    token
}

/// Reads a datagram piece by piece.
fn read_datagram(bytes: &[u8]) -> Result<Message<'_>, FormatError>
    ensures accepted { IfOk result (λ m. IsDatagram (parts_of m) bytes.now) }
    ensures refused { IfErr result (λ e. HasFault bytes.now e.fault e.place) }
{
    let head = read_head(bytes)?;
    let end = token_end(&head, bytes)?;
    let body = body_behind(bytes, end)?;
    Ok(Message {
        kind: head.kind,
        code: head.code,
        message_id: head.message_id,
        token: token_of(&bytes[HEAD_LEN..end]),
        options: body.options,
        payload: body.payload,
    })
}

/// Reads a whole datagram. If it refuses, it returns the first fault in the order of `Fault`, with the place counted
/// from the front of the datagram (RFC 7252, 3; own rules: at most 65,535 bytes, and option numbers up to 65,535).
pub fn parse(bytes: &[u8]) -> Result<Message<'_>, FormatError>
    ensures accepted { IfOk result (λ m. IsDatagram (parts_of m) bytes.now) }
    ensures refused { IfErr result (λ e. HasFault bytes.now e.fault e.place) }
    ensures accepts { (p : Parts) → IsDatagram p bytes.now → IsOkAnd result (λ m. parts_of m ≡ p) }
    ensures refuses { (fault : Fault) (place : ℕ) → HasFault bytes.now fault place
        → IsErrAnd result (λ e. (e.fault ≡ fault) × (e.place ≡ place)) }
{
    read_datagram(bytes)
}

/// Reads a plaintext piece by piece.
fn read_plaintext(bytes: &[u8]) -> Result<Inner<'_>, FormatError>
    ensures accepted { IfOk result (λ m. IsInner (inner_parts_of m) bytes.now) }
    ensures refused { IfErr result (λ e. HasInnerFault bytes.now e.fault e.place) }
{
    if bytes.len() > MOST_DATAGRAM {
        return Err(Fault::DatagramTooLong.at(MOST_DATAGRAM));
    }
    let [code, ..] = bytes else {
        return Err(Fault::Short.at(0));
    };
    let body = body_behind(bytes, CODE_LEN)?;
    Ok(Inner {
        code: *code,
        options: body.options,
        payload: body.payload,
    })
}

/// Reads a whole plaintext. Its code can be any code, even 0.00. The faults are those of `parse` except the four of a
/// head, and a place is counted from the front of the plaintext (RFC 8613, 5.3; own rules: at most 65,535 bytes, and
/// option numbers up to 65,535).
pub fn parse_inner(bytes: &[u8]) -> Result<Inner<'_>, FormatError>
    ensures accepted { IfOk result (λ m. IsInner (inner_parts_of m) bytes.now) }
    ensures refused { IfErr result (λ e. HasInnerFault bytes.now e.fault e.place) }
    ensures accepts { (p : InnerParts) → IsInner p bytes.now → IsOkAnd result (λ m. inner_parts_of m ≡ p) }
    ensures refuses { (fault : Fault) (place : ℕ) → HasInnerFault bytes.now fault place
        → IsErrAnd result (λ e. (e.fault ≡ fault) × (e.place ≡ place)) }
{
    read_plaintext(bytes)
}
