//! Errors that a server sends as unprotected replies (RFC 8613, 7.4 and 8.2).

ghost use Rattle.std.specs.Prelude.{◌≡◌, ◌≤◌, length, take, drop};
ghost use Rattle.osc_coap.specs.Datagram.{IsDatagram};
ghost use Rattle.osc_life.specs.Replies.{as_reply, error_message};
ghost use Rattle.osc_life.specs.ErrorReplies.{text_of};

use crate::asker::Asker;
use osc_coap::option_numbers::MAX_AGE;
use osc_coap::{Writer, head_len};

/// An error that a server sends as an unprotected reply.
#[derive(Clone, Copy)]
pub enum ErrorReply {
    Undecodable,
    NoContext,
    Replay,
    BadTag,
}

impl ErrorReply {
    fn code(self) -> u8
        ensures { result ≡ (text_of self).code }
    {
        match self {
            ErrorReply::Undecodable => 0x82,
            ErrorReply::NoContext | ErrorReply::Replay => 0x81,
            ErrorReply::BadTag => 0x80,
        }
    }

    fn text(self) -> &'static [u8]
        ensures text { result.now ≡ (text_of self).text }
        ensures short { length result.now ≤ 26 }
    {
        match self {
            ErrorReply::Undecodable => b"Failed to decode COSE",
            ErrorReply::NoContext => b"Security context not found",
            ErrorReply::Replay => b"Replay detected",
            ErrorReply::BadTag => b"Decryption failed",
        }
    }
}

/// Writes the error to the front of `out`, and returns its length.
pub fn write_error(asker: &Asker, mid: u16, error: ErrorReply, out: &mut [u8; 64]) -> usize
    ensures written { IsDatagram (as_reply asker.now.kind asker.now.message_id asker.now.token.items mid
        (error_message (text_of error))) (take result out.new) }
    ensures behind { drop result out.new ≡ drop result out.old }
    ensures within { result ≤ 64 }
{
    let (kind, id) = (asker.reply_kind(), asker.reply_id(mid));
    // The head has room: its length follows from the length of its token.
    let _ = head_len(&asker.token);
    let mut writer = Writer::begin(out, kind, error.code(), id, &asker.token);
    let Ok(()) = writer.option(MAX_AGE, &[]) else {
        unreachable!()
    };
    let Ok(()) = writer.payload(error.text()) else {
        unreachable!()
    };
    writer.finish()
}
