//! The reply that challenges a request: 4.01 with an Echo value, protected (RFC 8613, B.1.2; RFC 9175, 2.3).

ghost use Rattle.std.specs.Prelude.{◌≡◌, ◌≤◌, Some, take, drop};
ghost use Rattle.osc_coap.specs.Datagram.{IsDatagram};
ghost use Rattle.osc_context.specs.Views.{as_server, number_of};
ghost use Rattle.osc_protect.specs.Sealed.{SealsResponse};
ghost use Rattle.osc_protect.specs.Views.{context_of};
ghost use Rattle.osc_life.specs.Replies.{as_reply, challenge_message};

use crate::asker::Asker;
use osc_coap::option_numbers::ECHO;
use osc_coap::{Writer, head_len, one_datagram, parse};
use osc_context::{Piv, one_option_value};
use osc_protect::{KeyedContext, RequestRef};

/// The code of a challenge, 4.01 (RFC 9175, 2.3).
const UNAUTHORIZED: u8 = 0x81;

/// Room for the plain message: the head, the token, and the Echo option with two bytes in front of its value.
const PLAIN_ROOM: usize = 4 + 8 + 2 + 8;

/// Writes the plain message, and returns its length.
fn write_plain(asker: &Asker, mid: u16, echo: &[u8; 8], plain: &mut [u8; 22]) -> usize
    ensures written { IsDatagram (as_reply asker.now.kind asker.now.message_id asker.now.token.items mid
        (challenge_message echo.now)) (take result plain.new) }
    ensures within { result ≤ 22 }
{
    let (kind, id) = (asker.reply_kind(), asker.reply_id(mid));
    // The head has room: its length follows from the length of its token.
    let _ = head_len(&asker.token);
    let mut writer = Writer::begin(plain, kind, UNAUTHORIZED, id, &asker.token);
    let Ok(()) = writer.option(ECHO, echo.as_slice()) else {
        unreachable!()
    };
    writer.finish()
}

/// Seals the challenge with an own Partial IV at the front of `out`, and returns its length.
pub(crate) fn write_challenge(
    context: &KeyedContext,
    request: Piv,
    own: Piv,
    asker: &Asker,
    mid: u16,
    echo: &[u8; 8],
    out: &mut [u8; 64],
) -> usize
    ensures sealed { SealsResponse (as_server (context_of context.now)) (number_of request) (Some (number_of own))
        (as_reply asker.now.kind asker.now.message_id asker.now.token.items mid (challenge_message echo.now))
        (take result out.new) }
    ensures behind { drop result out.new ≡ drop result out.old }
    ensures within { result ≤ 64 }
{
    // For the proof alone.
    one_datagram();
    one_option_value();
    let mut plain = [0; PLAIN_ROOM];
    // The token has at most 8 bytes, so the whole message has room.
    let _ = head_len(&asker.token);
    let len = write_plain(asker, mid, echo, &mut plain);
    let Ok(message) = parse(&plain[..len]) else {
        unreachable!()
    };
    let request = RequestRef::new(request);
    match context.seal_response(&request, Some(own), &message, out) {
        Ok(len) => len,
        Err(_) => unreachable!(),
    }
}
