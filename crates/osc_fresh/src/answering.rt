//! What a server answers without an Echo value of the application's (RFC 9175, 2.3).

ghost use Rattle.std.specs.Prelude.{◌≡◌, ◌≢◌, ◌≤◌, ◌+◌, ℕ, List, None, Some, Err, IfErr, IfOk, OnErr, length, drop};
ghost use Rattle.osc_coap.specs.Views.{parts_of};
ghost use Rattle.osc_endpoint.specs.Views.{server_entry};
ghost use Rattle.osc_life.specs.LifeAnswer.{asks_own};
ghost use Rattle.osc_life.specs.ServerHistory as served;
ghost use Rattle.osc_life.specs.Views.{reply_entry, values_of};
ghost use Rattle.osc_life.specs.declared.server_error.ReplyError.TheVariants as replies;
ghost use Rattle.osc_kept_ends.specs.Numbering.{upcoming};
ghost use Rattle.osc_kept_ends.specs.PeerOwning.{own_in};
ghost use Rattle.osc_kept_ends.specs.Peering.{PeerStep, ServerIsBehind};
ghost use Rattle.osc_fresh.specs.Echoing.{echo_in};

use osc_coap::Message;
use osc_coap::option_numbers::ECHO;
use osc_context::RecordKeeper;
use osc_endpoint::{ReplyError, Ticket};
use osc_kept_ends::KeptPeer;

/// Seals a reply as `KeptPeer::reply` does. A message with an Echo option is refused with `Unsupported` 252 before anything else, and nothing
/// changes then: the Echo values of a peer are its numbers, and `Wishes::challenge` gives them (RFC 9175, 2.3 and A, method 3).
pub fn reply_without_echo<R: RecordKeeper, const N: usize>(
    peer: &mut KeptPeer<R, N>,
    ticket: Ticket,
    own: bool,
    mid: u16,
    plain: &Message<'_>,
    out: &mut [u8],
) -> Result<usize, (ReplyError, Ticket)>
    ensures echoes { (value : List ℕ) → echo_in (parts_of plain.now) ≡ Some value
        → (result ≡ Err (replies.Unsupported 252, ticket)) × (peer.new ≡ peer.old) × (out.new ≡ out.old) }
    ensures answered { echo_in (parts_of plain.now) ≡ None → IfErr result (λ e. e.0 ≢ replies.KeeperFailed) → (h : served.History) → ServerIsBehind peer.old.server (upcoming (own_in peer.old.source)) h
        → PeerStep h (served.Reply (values_of ticket) (asks_own (values_of ticket) own) mid (parts_of plain.now) (length out.old)) (server_entry result out.new)
        (own_in peer.old.source) (own_in peer.new.source) peer.new.server }
    ensures failed { IfErr result (λ e. e.0 ≡ replies.KeeperFailed → (peer.new.server ≡ peer.old.server) × (own_in peer.new.source ≡ own_in peer.old.source)
        × (R.failures peer.new.source.keeper ≡ R.failures peer.old.source.keeper + 1)) }
    ensures worked { IfErr result (λ e. e.0 ≢ replies.KeeperFailed) → R.failures peer.new.source.keeper ≡ R.failures peer.old.source.keeper }
    ensures rises { R.received_floor peer.old.source.keeper ≤ R.received_floor peer.new.source.keeper }
    ensures client { peer.new.client ≡ peer.old.client }
    ensures back { IfErr result (λ e. e.1 ≡ ticket) }
    ensures within { IfOk result (λ n. n ≤ length out.new) }
    ensures behind { IfOk result (λ n. drop n out.new ≡ drop n out.old) }
    ensures unchanged { OnErr result (out.new ≡ out.old) }
{
    match plain.options().first(ECHO) {
        Some(_) => Err((ReplyError::Unsupported(ECHO), ticket)),
        None => peer.reply(ticket, own, mid, plain, out),
    }
}

/// Seals a notification as `KeptPeer::notify` does. A message with an Echo option is refused as by `reply_without_echo`.
pub fn notify_without_echo<R: RecordKeeper, const N: usize>(
    peer: &mut KeptPeer<R, N>,
    ticket: &Ticket,
    plain: &Message<'_>,
    out: &mut [u8],
) -> Result<usize, ReplyError>
    ensures echoes { (value : List ℕ) → echo_in (parts_of plain.now) ≡ Some value
        → (result ≡ Err (replies.Unsupported 252)) × (peer.new ≡ peer.old) × (out.new ≡ out.old) }
    ensures answered { echo_in (parts_of plain.now) ≡ None → IfErr result (λ e. e ≢ replies.KeeperFailed) → (h : served.History) → ServerIsBehind peer.old.server (upcoming (own_in peer.old.source)) h
        → PeerStep h (served.Notify (values_of ticket.now) (parts_of plain.now) (length out.old)) (reply_entry result out.new)
        (own_in peer.old.source) (own_in peer.new.source) peer.new.server }
    ensures failed { IfErr result (λ e. e ≡ replies.KeeperFailed → (peer.new.server ≡ peer.old.server) × (own_in peer.new.source ≡ own_in peer.old.source)
        × (R.failures peer.new.source.keeper ≡ R.failures peer.old.source.keeper + 1)) }
    ensures worked { IfErr result (λ e. e ≢ replies.KeeperFailed) → R.failures peer.new.source.keeper ≡ R.failures peer.old.source.keeper }
    ensures rises { R.received_floor peer.old.source.keeper ≤ R.received_floor peer.new.source.keeper }
    ensures client { peer.new.client ≡ peer.old.client }
    ensures within { IfOk result (λ n. n ≤ length out.new) }
    ensures behind { IfOk result (λ n. drop n out.new ≡ drop n out.old) }
    ensures unchanged { OnErr result (out.new ≡ out.old) }
{
    match plain.options().first(ECHO) {
        Some(_) => Err(ReplyError::Unsupported(ECHO)),
        None => peer.notify(ticket, plain, out),
    }
}
