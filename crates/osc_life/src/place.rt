//! A place of a server's table: a context, or none. It answers for the context there.

ghost use Rattle.std.specs.Prelude.{◌≡◌, ◌≢◌, ◌≤◌, IsOk, ℕ, List, Option, None, Some, Ok, Result, IfNone, IfOk, IfErr, OnErr, Err, length, slice_get, take, drop, true, false};
ghost use Rattle.osc_context.specs.Senders.{HaveSameSender};
ghost use Rattle.osc_context.specs.Views.{as_server, number_of};
ghost use Rattle.osc_coap.specs.Views.{parts_of};
ghost use Rattle.osc_protect.specs.Views.{context_of, shown};
ghost use Rattle.osc_life.specs.Agrees.{GateAgrees, HasGate, HoldsLife};
ghost use Rattle.osc_life.specs.Deciding.{CanShow, Leaves};
ghost use Rattle.osc_life.specs.Judging.{IsAskerOf, IsNamedAt, JudgesTo, LooksUp};
ghost use Rattle.osc_life.specs.Life.{Delivered, Life, is_open, marked, next_own, succeeding};
ghost use Rattle.osc_life.specs.LifeAnswer.{LifeReplace, LifeRestart, LifeSkip, as_notification};
ghost use Rattle.osc_life.specs.Replies.{as_reply};
ghost use Rattle.osc_life.specs.Replying.{PlaceNotify, PlaceReply, reply_mark};
ghost use Rattle.osc_life.specs.Restarting.{HasLifeLeft, life_after, skip_mark};
ghost use Rattle.osc_life.specs.Views.{replaced_entry, reply_entry, restarted_entry, skipped_entry, values_of};
ghost use Rattle.osc_life.specs.declared.server_error.ReplyError.TheVariants.{KeeperFailed, StaleTicket};
ghost use Rattle.osc_life.specs.declared.server_error.ReplaceError.TheVariants as replaces;
ghost use Rattle.osc_life.specs.declared.server_error.RestartError.TheVariants.{NoSuchContext};
ghost use Rattle.osc_life.specs.declared.server_error.SkipError.TheVariants as skips;
ghost use Rattle.osc_life.specs.declared.slot.Slot.{Slot};

use crate::decision::Decided;
use crate::judging::Named;
use crate::server_error::{ReplaceError, ReplyError, RestartError, SkipError};
use crate::slot::Slot;
use crate::start::Start;
use crate::ticket::Ticket;
use osc_coap::Message;
use osc_context::{Context, Piv};
use osc_protect::KeyedContext;
use osc_window::{Gate, WindowSize};

/// Returns whether the context has this kid, and this kid context or none.
pub fn is_for(place: &Option<Slot>, kid: &[u8], kid_context: Option<&[u8]>) -> bool
    ensures yes { result ≡ true → LooksUp place.now kid.now (shown kid_context.entry) }
    ensures no { result ≡ false → LooksUp place.now kid.now (shown kid_context.entry) → ⊥ }
{
    match place {
        Some(slot) => slot.context.context().answers_to(kid, kid_context),
        None => false,
    }
}

/// Processes a request that names the context in a place.
pub fn judge_place(
    place: &mut Option<Slot>,
    request: Named,
    datagram: &mut [u8],
    out: &mut [u8; 64],
) -> Decided
    requires named { IsNamedAt place.old request datagram.old }
    requires asker { IsAskerOf request.asker datagram.old }
    ensures decided { (l : Life) → HoldsLife place.old l
        → JudgesTo l request datagram.old result datagram.new (take result.reply out.new) place.new }
    ensures shown { CanShow result.decision datagram.new }
    ensures leaves { (slots : List (Option Slot)) (i : ℕ) → slice_get slots i ≡ Some place.old
        → Leaves slots result.decision datagram.old datagram.new }
    ensures within { result.reply ≤ 64 }
    ensures behind { drop result.reply out.new ≡ drop result.reply out.old }
{
    match place {
        Some(slot) => slot.judge(request, datagram, out),
        None => unreachable!(),
    }
}

/// Returns whether a ticket is of another life of the context than the present one.
fn is_stale(slot: &Slot, ticket: &Ticket) -> bool
    ensures yes { result ≡ true → (values_of ticket.now).life ≢ slot.now.life }
    ensures no { result ≡ false → (values_of ticket.now).life ≡ slot.now.life }
{
    slot.life != ticket.life
}

/// Seals a reply by a ticket of the context in a place.
pub fn reply_place(
    place: &mut Option<Slot>,
    ticket: &Ticket,
    own: bool,
    mid: u16,
    plain: &Message<'_>,
    out: &mut [u8],
) -> Result<usize, ReplyError>
    ensures kept { (l : Life) → HoldsLife place.old l
        → PlaceReply l (values_of ticket.now) own
        (as_reply (values_of ticket.now).kind (values_of ticket.now).message_id (values_of ticket.now).token mid (parts_of plain.now))
        (length out.old) (reply_entry result out.new)
        × HoldsLife place.new (marked (reply_mark result own) l) }
    ensures within { IfOk result (λ n. n ≤ length out.new) }
    ensures behind { IfOk result (λ n. drop n out.new ≡ drop n out.old) }
    ensures unchanged { OnErr result (out.new ≡ out.old) }
    ensures same { OnErr result (place.new ≡ place.old) }
    ensures no_keeper_failed { IfErr result (λ e. e ≢ KeeperFailed) }
    ensures none { IfNone place.old (result ≡ Err StaleTicket) }
{
    match place {
        Some(slot) => {
            if is_stale(slot, ticket) {
                return Err(ReplyError::StaleTicket);
            }
            slot.reply_to(ticket.number, &ticket.asker, own, mid, plain, out)
        }
        None => Err(ReplyError::StaleTicket),
    }
}

/// Seals a notification by a ticket of the context in a place.
pub fn notify_place(
    place: &mut Option<Slot>,
    ticket: &Ticket,
    plain: &Message<'_>,
    out: &mut [u8],
) -> Result<usize, ReplyError>
    ensures kept { (l : Life) → HoldsLife place.old l
        → PlaceNotify l (values_of ticket.now) (as_notification (values_of ticket.now).token (parts_of plain.now)) (length out.old)
        (reply_entry result out.new)
        × HoldsLife place.new (marked (reply_mark result true) l) }
    ensures within { IfOk result (λ n. n ≤ length out.new) }
    ensures behind { IfOk result (λ n. drop n out.new ≡ drop n out.old) }
    ensures unchanged { OnErr result (out.new ≡ out.old) }
    ensures same { OnErr result (place.new ≡ place.old) }
    ensures no_keeper_failed { IfErr result (λ e. e ≢ KeeperFailed) }
    ensures none { IfNone place.old (result ≡ Err StaleTicket) }
{
    match place {
        Some(slot) => {
            if is_stale(slot, ticket) {
                return Err(ReplyError::StaleTicket);
            }
            if !ticket.asker.observes {
                return Err(ReplyError::NotObserving);
            }
            slot.notify_to(ticket.number, &ticket.asker.token, plain, out)
        }
        None => Err(ReplyError::StaleTicket),
    }
}

/// Returns whether the context in a place is open.
pub fn is_open_place(place: &Option<Slot>) -> bool
    ensures some { (l : Life) → HoldsLife place.now l → result ≡ is_open l }
    ensures none { IfNone place.now (result ≡ false) }
{
    match place {
        Some(slot) => slot.gate.is_open(),
        None => false,
    }
}

/// Returns the next Sender Sequence Number of the context in a place, or 2^40 if none is left.
pub fn next_of_place(place: &Option<Slot>) -> Option<u64>
    ensures some { (l : Life) → HoldsLife place.now l → result ≡ Some (next_own l) }
    ensures none { IfNone place.now (result ≡ None) }
{
    match place {
        Some(slot) => Some(slot.next),
        None => None,
    }
}

/// Returns whether a context in a place has the Sender Key of this one.
pub fn has_sender_in_place(place: &Option<Slot>, context: &Context) -> bool
    ensures yes { result ≡ true → (l : Life) → HoldsLife place.now l → HaveSameSender l.context (as_server context.now) }
    ensures no { result ≡ false → (l : Life) → HoldsLife place.now l → HaveSameSender l.context (as_server context.now) → ⊥ }
{
    match place {
        Some(slot) => slot.context.context().has_sender_of(context),
        None => false,
    }
}

/// Begins a new life of the context in a place.
pub fn restart_place(place: &mut Option<Slot>, next: Piv) -> Result<(), RestartError>
    ensures answered { (l : Life) → HoldsLife place.old l → LifeRestart (Some l) (restarted_entry result) }
    ensures kept { (l : Life) → HoldsLife place.old l → HoldsLife place.new (life_after result (number_of next) l) }
    ensures same { OnErr result (place.new ≡ place.old) }
    ensures none { IfNone place.old (result ≡ Err NoSuchContext) }
{
    match place {
        Some(slot) => {
            if slot.life == u64::MAX {
                return Err(RestartError::LivesExhausted);
            }
            slot.renew(next);
            Ok(())
        }
        None => Err(RestartError::NoSuchContext),
    }
}

/// Returns why no other context can take the place of the one that is there, if none can.
pub fn check_place(place: &Option<Slot>) -> Result<(), ReplaceError>
    ensures answered { (l : Life) → HoldsLife place.now l → LifeReplace (Some l) (replaced_entry result) }
    ensures left { IsOk result → HasLifeLeft place.now }
    ensures none { IfNone place.now (result ≡ Err replaces.NoSuchContext) }
{
    match place {
        Some(slot) if slot.life == u64::MAX => Err(ReplaceError::LivesExhausted),
        Some(_) => Ok(()),
        None => Err(ReplaceError::NoSuchContext),
    }
}

/// Puts another context in the place of the one that is there.
pub fn replace_place(
    place: &mut Option<Slot>,
    context: KeyedContext,
    start: Start,
    size: WindowSize,
)
    requires { HasLifeLeft place.old }
    ensures { (l : Life) → HoldsLife place.old l
        → HoldsLife place.new (succeeding (as_server (context_of context)) start size l) }
{
    match place {
        Some(slot) => slot.succeed(context, start, size),
        None => unreachable!(),
    }
}

/// Passes over Sender Sequence Numbers of the context in a place.
pub fn skip_place(place: &mut Option<Slot>, count: u64) -> Result<(), SkipError>
    ensures answered { (l : Life) → HoldsLife place.old l → LifeSkip (Some l) count (skipped_entry result) }
    ensures kept { (l : Life) → HoldsLife place.old l → HoldsLife place.new (marked (skip_mark result count) l) }
    ensures same { OnErr result (place.new ≡ place.old) }
    ensures none { IfNone place.old (result ≡ Err skips.NoSuchContext) }
{
    match place {
        Some(slot) => slot.skip(count),
        None => Err(SkipError::NoSuchContext),
    }
}

/// Returns the gate of the context in a place.
pub fn gate_of_place(place: &Option<Slot>) -> Option<Gate>
    ensures some { (l : Life) → HoldsLife place.now l → HasGate result l }
    ensures none { IfNone place.now (result ≡ None) }
{
    match place {
        Some(slot) => Some(slot.gate),
        None => None,
    }
}

/// Takes back the delivery of a request: the context in a place has the gate again that it had before.
pub fn take_back_place(place: &mut Option<Slot>, gate: Gate)
    ensures kept { (l : Life) (n : ℕ) → HoldsLife place.old (marked (Some (Delivered n)) l) → GateAgrees gate l → HoldsLife place.new l }
    ensures none { IfNone place.old (place.new ≡ place.old) }
{
    if let Some(slot) = place {
        slot.gate = gate;
    }
}
