//! A challenge in place of a reply (RFC 8613, 7.3; RFC 9175, 2.3).

ghost use Rattle.std.specs.Prelude.{◌≡◌, ◌≢◌, ◌≤◌, ◌+◌, true, IfErr, IfOk, OnErr, length, take, drop};
ghost use Rattle.osc_coap.specs.Datagram.{IsDatagram};
ghost use Rattle.osc_endpoint.specs.Views.{server_entry};
ghost use Rattle.osc_life.specs.LifeAnswer.{asks_own};
ghost use Rattle.osc_life.specs.ServerHistory as served;
ghost use Rattle.osc_life.specs.Views.{values_of};
ghost use Rattle.osc_life.specs.declared.server_error.ReplyError.TheVariants as replies;
ghost use Rattle.osc_kept_ends.specs.EchoNumber.{echo_of};
ghost use Rattle.osc_kept_ends.specs.Numbering.{upcoming};
ghost use Rattle.osc_kept_ends.specs.PeerOwning.{own_in};
ghost use Rattle.osc_kept_ends.specs.Peering.{PeerStep, ServerIsBehind};
ghost use Rattle.osc_fresh.specs.Wishing.{unobeyed_message};

use osc_coap::option_numbers::ECHO;
use osc_coap::{Kind, Token, Writer, head_len, one_datagram, parse};
use osc_context::RecordKeeper;
use osc_endpoint::{ReplyError, Ticket};
use osc_kept_ends::KeptPeer;

/// The code of a challenge, 4.01 (RFC 9175, 2.3).
pub(crate) const UNAUTHORIZED: u8 = 0x81;

/// The text of a challenge that says that its request wasn't obeyed; own rule.
pub(crate) const NOT_OBEYED: &[u8] = b"not obeyed";

/// Room for the plain message: the head, the Echo option with two bytes in front of its value, the marker and the text.
const PLAIN_ROOM: usize = 4 + 2 + 8 + 1 + 10;

/// Writes the plain message of a challenge with this Echo value, and returns its length.
fn write_plain(echo: &[u8; 8], plain: &mut [u8; 25]) -> usize
    ensures written { IsDatagram (unobeyed_message echo.now) (take result plain.new) }
    ensures within { result ≤ 25 }
{
    let token = Token::new();
    // The head has room: its length follows from the length of its token.
    let _ = head_len(&token);
    let mut writer = Writer::begin(plain, Kind::Non, UNAUTHORIZED, 0, &token);
    let Ok(()) = writer.option(ECHO, echo.as_slice()) else {
        unreachable!()
    };
    let Ok(()) = writer.payload(NOT_OBEYED) else {
        unreachable!()
    };
    writer.finish()
}

/// Challenges a request that was delivered and isn't obeyed, in place of a reply: seals 4.01 with an Echo value and the text `not obeyed`, as
/// `KeptPeer::reply` does with `own`, at the front of `out`, and returns its length in bytes. The value is the Sender Sequence Number with
/// which the challenge is sealed (`KeptPeer::upcoming` before the call), its eight bytes, high byte first. So a request that carries it was
/// sealed after this call. `mid` is the Message ID of a reply to a NON (RFC 8613, 8.3; RFC 9175, 2.3 and A, method 3; own rule: the text).
pub fn challenge<R: RecordKeeper, const N: usize>(
    peer: &mut KeptPeer<R, N>,
    ticket: Ticket,
    mid: u16,
    out: &mut [u8],
) -> Result<usize, (ReplyError, Ticket)>
    ensures answered { IfErr result (λ e. e.0 ≢ replies.KeeperFailed) → (h : served.History) → ServerIsBehind peer.old.server (upcoming (own_in peer.old.source)) h
        → PeerStep h (served.Reply (values_of ticket) (asks_own (values_of ticket) true) mid (unobeyed_message (echo_of (upcoming (own_in peer.old.source)))) (length out.old))
        (server_entry result out.new) (own_in peer.old.source) (own_in peer.new.source) peer.new.server }
    ensures failed { IfErr result (λ e. e.0 ≡ replies.KeeperFailed → (peer.new.server ≡ peer.old.server) × (own_in peer.new.source ≡ own_in peer.old.source)
        × (R.failures peer.new.source.keeper ≡ R.failures peer.old.source.keeper + 1)) }
    ensures worked { IfErr result (λ e. e.0 ≢ replies.KeeperFailed) → R.failures peer.new.source.keeper ≡ R.failures peer.old.source.keeper }
    ensures rises { R.received_floor peer.old.source.keeper ≤ R.received_floor peer.new.source.keeper }
    ensures client { peer.new.client ≡ peer.old.client }
    ensures back { IfErr result (λ e. e.1 ≡ ticket) }
    ensures within { IfOk result (λ n. n ≤ length out.new) }
    ensures behind { IfOk result (λ n. drop n out.new ≡ drop n out.old) }
    ensures unchanged { OnErr result (out.new ≡ out.old) }
{
    // For the proof alone.
    one_datagram();
    let number = peer.upcoming();
    let mut plain = [0; PLAIN_ROOM];
    let len = write_plain(&number.to_be_bytes(), &mut plain);
    let Ok(message) = parse(&plain[..len]) else {
        unreachable!()
    };
    peer.reply(ticket, true, mid, &message, out)
}
