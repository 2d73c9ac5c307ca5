//! The same reply under the head of a reply to another datagram.
//!
//!     a datagram (RFC 7252, 3)     | head, 4 bytes | token | options | ff, payload |
//!                                  | of today              | as remembered         |

ghost use Rattle.std.specs.Prelude.{◌≡◌, ◌≢◌, ◌≤◌, ◌+◌, IfSome, IfNone, length, take, drop};
ghost use Rattle.osc_coap.specs.Datagram.{Parts, IsDatagram, datagram_length};
ghost use Rattle.osc_coap.specs.OptionText.{placed};
ghost use Rattle.osc_coap.specs.Views.{parts_of};
ghost use Rattle.osc_coap.specs.Writing.{LacksRoom, bare};
ghost use Rattle.osc_life.specs.Replies.{as_reply, reply_id, reply_kind};
ghost use Rattle.osc_replies.specs.Memory.{IsReply};

use osc_coap::{
    Kind, MOST_DATAGRAM, Message, Writer, head_len, lengths_by_parts, one_datagram, parse,
};

/// Returns the Type of a reply: ACK to a CON, NON to a NON (RFC 7252, 5.2).
fn kind_of_reply(kind: Kind) -> Kind
    ensures { result ≡ reply_kind kind }
{
    match kind {
        Kind::Con => Kind::Ack,
        Kind::Non | Kind::Ack | Kind::Rst => Kind::Non,
    }
}

/// Returns the Message ID of a reply: an ACK has the request's, a NON has the one passed in (RFC 7252, 4.2 and 4.3).
fn id_of_reply(kind: Kind, message_id: u16, mid: u16) -> u16
    ensures { result ≡ reply_id kind message_id mid }
{
    match kind {
        Kind::Con => message_id,
        Kind::Non | Kind::Ack | Kind::Rst => mid,
    }
}

/// Writes the head and the token of a reply with this code to the front of `out`, and returns where they end.
fn put_head(request: &Message<'_>, mid: u16, code: u8, out: &mut [u8]) -> usize
    requires room { 4 + length (parts_of request.now).token ≤ length out.old }
    requires some { code ≢ 0 }
    ensures written { IsDatagram (bare (reply_kind (parts_of request.now).kind) code
        (reply_id (parts_of request.now).kind (parts_of request.now).message_id mid) (parts_of request.now).token) (take result out.new) }
    ensures behind { drop result out.new ≡ drop result out.old }
    ensures end { result ≡ 4 + length (parts_of request.now).token }
    ensures same_room { length out.new ≡ length out.old }
{
    let kind = kind_of_reply(request.kind);
    let id = id_of_reply(request.kind, request.message_id, mid);
    let writer = Writer::begin(out, kind, code, id, &request.token);
    writer.finish()
}

/// Copies the bytes to a place, and returns where they end.
pub(crate) fn put(out: &mut [u8], place: usize, bytes: &[u8]) -> usize
    requires { place + length bytes.now ≤ length out.old }
    ensures written { out.new ≡ placed place bytes.now out.old }
    ensures end { result ≡ place + length bytes.now }
{
    let end = place + bytes.len();
    out[place..end].copy_from_slice(bytes);
    end
}

/// Writes a reply under the head of a reply to the request at hand, at the front of `out`, and returns its length. Returns `None` if it
/// has more bytes than `out`, or than a datagram may have. `mid` is the Message ID of a reply to a NON.
pub(crate) fn write_under_new_head(
    request: &Message<'_>,
    mid: u16,
    reply: &[u8],
    out: &mut [u8],
) -> Option<usize>
    requires { (p : Parts) × IsReply p reply.now }
    ensures written { IfSome result (λ n. (p : Parts) × IsReply p reply.now
        × IsDatagram (as_reply (parts_of request.now).kind (parts_of request.now).message_id (parts_of request.now).token mid p) (take n out.new)) }
    ensures within { IfSome result (λ n. n ≤ length out.new) }
    ensures behind { IfSome result (λ n. drop n out.new ≡ drop n out.old) }
    ensures full { IfNone result ((p : Parts) × IsReply p reply.now × LacksRoom (length out.old)
        (datagram_length (as_reply (parts_of request.now).kind (parts_of request.now).message_id (parts_of request.now).token mid p))) }
    ensures unchanged { IfNone result (out.new ≡ out.old) }
{
    // For the proof alone.
    lengths_by_parts();
    one_datagram();
    let Ok(remembered) = parse(reply) else {
        unreachable!()
    };
    let (_, rest) = reply.split_at(head_len(&remembered.token));
    let end = head_len(&request.token) + rest.len();
    if out.len() < end || MOST_DATAGRAM < end {
        return None;
    }
    let start = put_head(request, mid, remembered.code, out);
    Some(put(out, start, rest))
}
