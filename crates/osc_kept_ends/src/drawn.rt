//! What a kept server does with its endpoint and its numbers: it draws a number if an event asks for one, and then handles the event.

ghost use Rattle.std.specs.Prelude.{◌≡◌, ◌≢◌, ◌≤◌, ◌+◌, ℕ, not, true, IsOk, IsErr, IfOk, IfErr, OnErr, length, take, drop};
ghost use Rattle.osc_coap.specs.Views.{parts_of};
ghost use Rattle.osc_endpoint.specs.Agrees.{Agrees};
ghost use Rattle.osc_life.specs.Deciding.{CanShow};
ghost use Rattle.osc_endpoint.specs.Deciding.{LeavesBy};
ghost use Rattle.osc_life.specs.Life.{is_open_life};
ghost use Rattle.osc_life.specs.LifeAnswer.{asks_own};
ghost use Rattle.osc_life.specs.ServerHistory.{History, Notify, Reply, life};
ghost use Rattle.osc_life.specs.Views.{reply_entry, values_of};
ghost use Rattle.osc_endpoint.specs.Views.{server_entry};
ghost use Rattle.osc_life.specs.declared.server_error.ReplyError.TheVariants.{KeeperFailed};
ghost use Rattle.osc_kept_ends.specs.KeptServing.{IsKept, KeptDecides, KeptStep};
ghost use Rattle.osc_kept_ends.specs.Numbering.{Own, Draws, upcoming};
ghost use Rattle.osc_kept_ends.specs.Owning.{own_in};
ghost use Rattle.osc_kept_ends.specs.Views.{IsLastDrawn, IsUsedUp, own_at};

use crate::source::Source;
use osc_coap::Message;
use osc_context::{Keeper, KeeperError, Piv};
use osc_endpoint::{Decided, Decision, Fresh, ReplyError, ServerOf, Ticket};

/// Draws a number for a challenge, if the gate is closed.
pub(crate) fn draw_for_datagram<K: Keeper>(
    server: &ServerOf<1>,
    source: &mut Source<K>,
) -> Result<(), KeeperError>
    ensures drawn { IsOk result → (h : History) → Agrees server.now h → Draws (not (is_open_life (life h 0))) (own_in source.old) (own_in source.new) }
    ensures left { IsErr result → own_in source.new ≡ own_in source.old }
    ensures failed { IsErr result → K.failures source.new.keeper ≡ K.failures source.old.keeper + 1 }
    ensures worked { IsOk result → K.failures source.new.keeper ≡ K.failures source.old.keeper }
{
    if server.is_open(0) {
        return Ok(());
    }
    source.draw()
}

/// Returns whether a reply has a Partial IV of its own: one is asked for, or the ticket's request registers an observation (RFC 8613,
/// 4.1.3.5).
fn has_own(ticket: &Ticket, own: bool) -> bool
    ensures { result ≡ asks_own (values_of ticket.now) own }
{
    ticket.observes() || own
}

/// Draws a number for a reply, if the reply has a Partial IV of its own.
pub(crate) fn draw_for_reply<K: Keeper>(
    ticket: &Ticket,
    own: bool,
    source: &mut Source<K>,
) -> Result<(), KeeperError>
    ensures drawn { IsOk result → Draws (asks_own (values_of ticket.now) own) (own_in source.old) (own_in source.new) }
    ensures left { IsErr result → own_in source.new ≡ own_in source.old }
    ensures failed { IsErr result → K.failures source.new.keeper ≡ K.failures source.old.keeper + 1 }
    ensures worked { IsOk result → K.failures source.new.keeper ≡ K.failures source.old.keeper }
{
    if has_own(ticket, own) {
        return source.draw();
    }
    Ok(())
}

/// Decides the answer to a datagram, after the draw for it. A challenge uses the number in hand.
pub(crate) fn decide_drawn(
    server: &mut ServerOf<1>,
    in_hand: &mut Option<Piv>,
    now: u64,
    fresh: Fresh,
    datagram: &mut [u8],
    out: &mut [u8; 64],
) -> Decided
    ensures answered { (h : History) (old : Own) (floor next limit : ℕ) → IsKept server.old (upcoming old) h
        → Draws (not (is_open_life (life h 0))) old (own_at floor next limit in_hand.old) → IsLastDrawn in_hand.old next
        → KeptDecides h now fresh datagram.old result datagram.new (take result.reply out.new) old (own_at floor next limit in_hand.new) server.new }
    ensures hand { IsUsedUp in_hand.old in_hand.new }
    ensures shown { CanShow result.decision datagram.new }
    ensures left { LeavesBy server.old result.decision datagram.old datagram.new }
    ensures within { result.reply ≤ 64 }
    ensures behind { drop result.reply out.new ≡ drop result.reply out.old }
{
    let decided = server.decide(now, fresh, datagram, out);
    if let Decision::Challenge { .. } = decided.decision {
        *in_hand = None;
        return decided;
    }
    decided
}

/// Seals a reply, after the draw for it. A reply with a Partial IV of its own uses the number in hand.
pub(crate) fn reply_drawn(
    server: &mut ServerOf<1>,
    in_hand: &mut Option<Piv>,
    ticket: Ticket,
    own: bool,
    mid: u16,
    plain: &Message<'_>,
    out: &mut [u8],
) -> Result<usize, (ReplyError, Ticket)>
    ensures answered { (h : History) (old : Own) (floor next limit : ℕ) → IsKept server.old (upcoming old) h
        → Draws (asks_own (values_of ticket) own) old (own_at floor next limit in_hand.old) → IsLastDrawn in_hand.old next
        → KeptStep h (Reply (values_of ticket) (asks_own (values_of ticket) own) mid (parts_of plain.now) (length out.old)) (server_entry result out.new)
        old (own_at floor next limit in_hand.new) server.new }
    ensures hand { IsUsedUp in_hand.old in_hand.new }
    ensures back { IfErr result (λ e. e.1 ≡ ticket) }
    ensures within { IfOk result (λ n. n ≤ length out.new) }
    ensures behind { IfOk result (λ n. drop n out.new ≡ drop n out.old) }
    ensures unchanged { OnErr result ((out.new ≡ out.old) × (server.new ≡ server.old)) }
    ensures no_keeper_failed { IfErr result (λ e. e.0 ≢ KeeperFailed) }
{
    let has_own = has_own(&ticket, own);
    let len = match server.reply(ticket, own, mid, plain, out) {
        Ok(len) => len,
        Err(refused) => return Err(refused),
    };
    if has_own {
        *in_hand = None;
        return Ok(len);
    }
    Ok(len)
}

/// Seals a notification, after the draw for it. It uses the number in hand.
pub(crate) fn notify_drawn(
    server: &mut ServerOf<1>,
    in_hand: &mut Option<Piv>,
    ticket: &Ticket,
    plain: &Message<'_>,
    out: &mut [u8],
) -> Result<usize, ReplyError>
    ensures answered { (h : History) (old : Own) (floor next limit : ℕ) → IsKept server.old (upcoming old) h
        → Draws true old (own_at floor next limit in_hand.old) → IsLastDrawn in_hand.old next
        → KeptStep h (Notify (values_of ticket.now) (parts_of plain.now) (length out.old)) (reply_entry result out.new) old (own_at floor next limit in_hand.new) server.new }
    ensures hand { IsUsedUp in_hand.old in_hand.new }
    ensures within { IfOk result (λ n. n ≤ length out.new) }
    ensures behind { IfOk result (λ n. drop n out.new ≡ drop n out.old) }
    ensures unchanged { OnErr result ((out.new ≡ out.old) × (server.new ≡ server.old)) }
    ensures no_keeper_failed { IfErr result (λ e. e ≢ KeeperFailed) }
{
    let len = match server.notify(ticket, plain, out) {
        Ok(len) => len,
        Err(error) => return Err(error),
    };
    *in_hand = None;
    Ok(len)
}
