//! A peer that lets no Echo value through but those that are due, within the list of what happens at two devices (RFC 9175, 2.3).

ghost use Rattle.std.specs.Prelude.{◌≡◌, ◌≢◌, ◌+◌, ◌↔◌, ℕ, List, None, Some, Err, IfErr, length};
ghost use Rattle.osc_coap.specs.Views.{parts_of};
ghost use Rattle.osc_context.specs.SecurityContext.{SecurityContext};
ghost use Rattle.osc_client.specs.ClientHistory as asked;
ghost use Rattle.osc_client.specs.Views.{request_entry};
ghost use Rattle.osc_client.specs.declared.client_outcome.RequestError.TheVariants as requests;
ghost use Rattle.osc_life.specs.LifeAnswer.{asks_own};
ghost use Rattle.osc_life.specs.ServerHistory as served;
ghost use Rattle.osc_life.specs.Views.{reply_entry, values_of};
ghost use Rattle.osc_life.specs.declared.server_error.ReplyError.TheVariants as replies;
ghost use Rattle.osc_endpoint.specs.Views.{server_entry};
ghost use Rattle.osc_fresh.specs.Echoing.{EchoesOnly, echo_in};
ghost use Rattle.osc_fresh.specs.Views.{echo_entry, heard_of};
ghost use Rattle.osc_fresh.specs.WithEcho.{LacksEchoRoom, echoing};
ghost use Rattle.osc_fresh.specs.declared.echo_request_error.EchoRequestError.TheVariants as refusals;
ghost use Rattle.osc_peers.specs.Peers.{Peers};
ghost use Rattle.osc_peer_calls.specs.Counting.{AreCounted};
ghost use Rattle.osc_peer_calls.specs.Hearing.{HearsEcho, WasHeard};
ghost use Rattle.osc_peer_calls.specs.PeerCalls.{AnswersAfter, AsksAfter, HoldsTicket, NobodyForgesBack, RunsIn};

use crate::laws::{heard_stays, peer_calls_in_list};
use osc_coap::Message;
use osc_context::RecordKeeper;
use osc_endpoint::{ClientOutcome, ReplyError, RequestError, Ticket};
use osc_fresh::{EchoRequestError, HeardEcho, notify_without_echo, reply_without_echo};
use osc_kept_ends::KeptPeer;

/// Calls `osc_fresh::reply_without_echo`. Its claim about that list assumes a ticket that a delivery gave and that no reply took.
pub fn reply_without_echo_in_list<R: RecordKeeper, const N: usize>(
    peer: &mut KeptPeer<R, N>,
    ticket: Ticket,
    own: bool,
    mid: u16,
    plain: &Message<'_>,
    out: &mut [u8],
) -> Result<usize, (ReplyError, Ticket)>
    ensures echoes { (value : List ℕ) → echo_in (parts_of plain.now) ≡ Some value
        → (result ≡ Err (replies.Unsupported 252, ticket)) × (peer.new ≡ peer.old) × (out.new ≡ out.old) }
    ensures answered { echo_in (parts_of plain.now) ≡ None → IfErr result (λ e. e.0 ≢ replies.KeeperFailed) → (s : SecurityContext) (w : Peers) → AreCounted N s w → RunsIn s w peer.old
        → HoldsTicket s w (values_of ticket)
        → AnswersAfter s w (served.Reply (values_of ticket) (asks_own (values_of ticket) own) mid (parts_of plain.now) (length out.old)) (server_entry result out.new) peer.new }
    ensures unchanged { IfErr result (λ e. e.0 ≡ replies.KeeperFailed → (s : SecurityContext) (w : Peers) → RunsIn s w peer.old → RunsIn s w peer.new) }
    ensures failed { IfErr result (λ e. e.0 ≡ replies.KeeperFailed → R.failures peer.new.source.keeper ≡ R.failures peer.old.source.keeper + 1) }
    ensures worked { IfErr result (λ e. e.0 ≢ replies.KeeperFailed) → R.failures peer.new.source.keeper ≡ R.failures peer.old.source.keeper }
{
    // For the proof alone.
    peer_calls_in_list();
    reply_without_echo(peer, ticket, own, mid, plain, out)
}

/// Calls `osc_fresh::notify_without_echo`. Its claim about that list assumes what that of `reply_without_echo_in_list` does.
pub fn notify_without_echo_in_list<R: RecordKeeper, const N: usize>(
    peer: &mut KeptPeer<R, N>,
    ticket: &Ticket,
    plain: &Message<'_>,
    out: &mut [u8],
) -> Result<usize, ReplyError>
    ensures echoes { (value : List ℕ) → echo_in (parts_of plain.now) ≡ Some value
        → (result ≡ Err (replies.Unsupported 252)) × (peer.new ≡ peer.old) × (out.new ≡ out.old) }
    ensures answered { echo_in (parts_of plain.now) ≡ None → IfErr result (λ e. e ≢ replies.KeeperFailed) → (s : SecurityContext) (w : Peers) → AreCounted N s w → RunsIn s w peer.old
        → HoldsTicket s w (values_of ticket.now)
        → AnswersAfter s w (served.Notify (values_of ticket.now) (parts_of plain.now) (length out.old)) (reply_entry result out.new) peer.new }
    ensures unchanged { IfErr result (λ e. e ≡ replies.KeeperFailed → (s : SecurityContext) (w : Peers) → RunsIn s w peer.old → RunsIn s w peer.new) }
    ensures failed { IfErr result (λ e. e ≡ replies.KeeperFailed → R.failures peer.new.source.keeper ≡ R.failures peer.old.source.keeper + 1) }
    ensures worked { IfErr result (λ e. e ≢ replies.KeeperFailed) → R.failures peer.new.source.keeper ≡ R.failures peer.old.source.keeper }
{
    // For the proof alone.
    peer_calls_in_list();
    notify_without_echo(peer, ticket, plain, out)
}

/// Calls `HeardEcho::request`. Its claim about that list assumes that the value which is remembered was heard in it, as `hear_echo_in_list`
/// says of it.
pub fn request_heard_in_list<R: RecordKeeper, const N: usize>(
    heard: &HeardEcho,
    peer: &mut KeptPeer<R, N>,
    now: u64,
    plain: &Message<'_>,
    out: &mut [u8],
) -> Result<usize, RequestError>
    ensures foreign { (value : List ℕ) → echo_in (parts_of plain.now) ≡ Some value → heard_of heard.now ≢ Some value
        → (result ≡ Err (requests.Unsupported 252)) × (peer.new ≡ peer.old) × (out.new ≡ out.old) }
    ensures answered { EchoesOnly (heard_of heard.now) (parts_of plain.now) → IfErr result (λ e. e ≢ requests.KeeperFailed) → (s : SecurityContext) (w : Peers) → AreCounted N s w
        → RunsIn s w peer.old → WasHeard w (heard_of heard.now)
        → AsksAfter s w (asked.Request now (parts_of plain.now) (length out.old)) (request_entry result out.new) peer.new }
    ensures clock_alone { IfErr result (λ e. e ≡ requests.KeeperFailed → (s : SecurityContext) (w : Peers) → AreCounted N s w → RunsIn s w peer.old
        → AsksAfter s w (asked.Advance now) asked.Advanced peer.new) }
    ensures failed { IfErr result (λ e. e ≡ requests.KeeperFailed → R.failures peer.new.source.keeper ≡ R.failures peer.old.source.keeper + 1) }
    ensures worked { IfErr result (λ e. e ≢ requests.KeeperFailed) → R.failures peer.new.source.keeper ≡ R.failures peer.old.source.keeper }
{
    // For the proof alone.
    peer_calls_in_list();
    heard.request(peer, now, plain, out)
}

/// Calls `HeardEcho::request_with_echo`. Its claim about that list assumes what that of `request_heard_in_list` does.
pub fn request_with_echo_in_list<R: RecordKeeper, const N: usize>(
    heard: &HeardEcho,
    peer: &mut KeptPeer<R, N>,
    now: u64,
    plain: &Message<'_>,
    room: &mut [u8],
    out: &mut [u8],
) -> Result<usize, EchoRequestError>
    ensures echoes { (value : List ℕ) → echo_in (parts_of plain.now) ≡ Some value
        → (result ≡ Err (refusals.Refused (requests.Unsupported 252))) × (peer.new ≡ peer.old) × (out.new ≡ out.old) × (room.new ≡ room.old) }
    ensures no_room { (result ≡ Err refusals.NoRoomForEcho) ↔ LacksEchoRoom (heard_of heard.now) (parts_of plain.now) (length room.old) }
    ensures same { result ≡ Err refusals.NoRoomForEcho → (peer.new ≡ peer.old) × (out.new ≡ out.old) }
    ensures answered { echo_in (parts_of plain.now) ≡ None → result ≢ Err (refusals.Refused requests.KeeperFailed)
        → (entry : asked.Entry) → echo_entry result out.new ≡ Some entry → (s : SecurityContext) (w : Peers) → AreCounted N s w → RunsIn s w peer.old → WasHeard w (heard_of heard.now)
        → AsksAfter s w (asked.Request now (echoing (heard_of heard.now) (parts_of plain.now)) (length out.old)) entry peer.new }
    ensures clock_alone { result ≡ Err (refusals.Refused requests.KeeperFailed) → (s : SecurityContext) (w : Peers) → AreCounted N s w → RunsIn s w peer.old
        → AsksAfter s w (asked.Advance now) asked.Advanced peer.new }
    ensures failed { result ≡ Err (refusals.Refused requests.KeeperFailed) → R.failures peer.new.source.keeper ≡ R.failures peer.old.source.keeper + 1 }
    ensures worked { result ≢ Err (refusals.Refused requests.KeeperFailed) → R.failures peer.new.source.keeper ≡ R.failures peer.old.source.keeper }
{
    // For the proof alone.
    peer_calls_in_list();
    heard.request_with_echo(peer, now, plain, room, out)
}

/// Calls `HeardEcho::hear`. Its claim about that list assumes that nobody forged the datagram, and that the value which was remembered was
/// heard in it; `heard_stays` says that this is so still, whatever happened since.
pub fn hear_echo_in_list<'b, R: RecordKeeper, const N: usize>(
    heard: &mut HeardEcho,
    peer: &mut KeptPeer<R, N>,
    now: u64,
    datagram: &'b mut [u8],
) -> ClientOutcome<'b>
    ensures { (s : SecurityContext) (w : Peers) → AreCounted N s w → RunsIn s w peer.old → NobodyForgesBack s w now datagram.old → WasHeard w (heard_of heard.old)
        → HearsEcho s w now datagram.old result (heard_of heard.new) peer.new }
{
    // For the proof alone.
    peer_calls_in_list();
    heard_stays();
    heard.hear(peer, now, datagram)
}
