//! The head of a datagram: its first four bytes (RFC 7252, 3).
//!
//!     | version 2, Type 2, token length 4 bits | code | Message ID, high byte first, two bytes |

ghost use Rattle.std.specs.Prelude.{◌≡◌, ◌<◌, ◌≤◌, ◌+◌, ◌++◌, length, IfOk, IfErr};
ghost use Rattle.arrayvec.specs.ArrayVec.{array_vec_len};
ghost use Rattle.osc_coap.specs.Datagram.{kind_number, head};
ghost use Rattle.osc_coap.specs.OptionSpelling.{AreBytes};
ghost use Rattle.osc_coap.specs.OptionText.{placed};
ghost use Rattle.osc_coap.specs.Writing.{bare};
ghost use Rattle.osc_coap.specs.Fault.{HasFault};
ghost use Rattle.osc_coap.specs.Seen.{ReadsHead};

use crate::format_error::{Fault, FormatError, MOST_DATAGRAM};
use crate::message::{Kind, Token};
use crate::placing::put;
use byteorder::{BigEndian, ByteOrder};

/// The number of bytes before the token.
pub(crate) const HEAD_LEN: usize = 4;

/// The most bytes that a token can have; the lengths 9 to 15 are reserved.
const MOST_TOKEN: usize = 8;

/// The fields in the first four bytes.
#[derive(Clone, Copy)]
pub(crate) struct Head {
    pub(crate) kind: Kind,
    pub(crate) code: u8,
    pub(crate) message_id: u16,
    pub(crate) token_len: usize,
}

/// Returns the Type that two bits of the head name.
fn kind_of(bits: u8) -> Kind
    requires { bits < 4 }
    ensures { kind_number result ≡ bits }
{
    match bits {
        0 => Kind::Con,
        1 => Kind::Non,
        2 => Kind::Ack,
        _ => Kind::Rst,
    }
}

/// Reads the first four bytes.
pub(crate) fn read_head(bytes: &[u8]) -> Result<Head, FormatError>
    ensures read { IfOk result (λ h. ReadsHead h bytes.now) }
    ensures fault { IfErr result (λ e. HasFault bytes.now e.fault e.place) }
{
    if bytes.len() > MOST_DATAGRAM {
        return Err(Fault::DatagramTooLong.at(MOST_DATAGRAM));
    }
    if bytes.len() < HEAD_LEN {
        return Err(Fault::Short.at(0));
    }
    let first = bytes[0];
    if first / 64 != 1 {
        return Err(Fault::Version.at(0));
    }
    let token_len = usize::from(first % 16);
    if token_len > MOST_TOKEN {
        return Err(Fault::TokenLength.at(0));
    }
    Ok(Head {
        kind: kind_of(first / 16 % 4),
        code: bytes[1],
        message_id: BigEndian::read_u16(&bytes[2..HEAD_LEN]),
        token_len,
    })
}

/// Returns where the token ends. An Empty message, with code 0.00, is only a head (RFC 7252, 4.1).
pub(crate) fn token_end(head: &Head, bytes: &[u8]) -> Result<usize, FormatError>
    requires { ReadsHead head.now bytes.now }
    ensures end { IfOk result (λ end. (end ≡ 4 + head.now.token_len) × (end ≤ length bytes.now)) }
    ensures alone { IfOk result (λ end. head.now.code ≡ 0 → length bytes.now ≡ 4) }
    ensures fault { IfErr result (λ e. HasFault bytes.now e.fault e.place) }
{
    if head.code == 0 && head.token_len != 0 {
        return Err(Fault::EmptyWithRest.at(0));
    }
    if head.code == 0 && bytes.len() > HEAD_LEN {
        return Err(Fault::EmptyWithRest.at(HEAD_LEN));
    }
    let end = HEAD_LEN + head.token_len;
    if bytes.len() < end {
        return Err(Fault::TokenCut.at(HEAD_LEN));
    }
    Ok(end)
}

/// Returns the two bits of the head that name a Type.
fn bits_of(kind: Kind) -> u8
    ensures value { result ≡ kind_number kind }
    ensures small { result < 4 }
{
    match kind {
        Kind::Con => 0,
        Kind::Non => 1,
        Kind::Ack => 2,
        Kind::Rst => 3,
    }
}

/// Returns how many bytes a head and a token take, 4 to 12. `Writer::begin` requires that much room (RFC 7252, 3).
#[must_use]
pub fn head_len(token: &Token) -> usize
    ensures value { result ≡ 4 + array_vec_len token.now }
    ensures most { result ≤ 12 }
{
    HEAD_LEN + token.len()
}

/// Writes a head and a token at the front, and returns where they end.
pub(crate) fn put_head(
    buf: &mut [u8],
    kind: Kind,
    code: u8,
    message_id: u16,
    token: &Token,
) -> usize
    requires { 4 + array_vec_len token.now ≤ length buf.old }
    ensures written { buf.new
        ≡ placed 0 (head (bare kind code message_id token.now.items) ++ token.now.items) buf.old }
    ensures end { result ≡ 4 + array_vec_len token.now }
    ensures short { array_vec_len token.now ≤ 8 }
    ensures bytes { AreBytes buf.new }
{
    let first = 64 + 16 * bits_of(kind) + token.len() as u8;
    let id = message_id.to_be_bytes();
    let end = put(buf, 0, &[first, code, id[0], id[1]]);
    put(buf, end, token.as_slice())
}
