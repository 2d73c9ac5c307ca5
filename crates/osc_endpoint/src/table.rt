//! The contexts of a server, as a table.

ghost use Rattle.osc_context.specs.Senders.{HaveSameSender};
ghost use Rattle.osc_context.specs.Views.{as_server};
ghost use Rattle.std.specs.Prelude.{◌≡◌, ◌≢◌, ◌<◌, ◌≤◌, ℕ, Option, Some, None, IfSome, IfNone, IfOk, IfErr, OnErr, Err, length, slice_get, take, drop, true, false};
ghost use Rattle.osc_protect.specs.Views.{shown};
ghost use Rattle.osc_endpoint.specs.Agrees.{TableAgrees};
ghost use Rattle.osc_life.specs.Deciding.{CanShow, Leaves};
ghost use Rattle.osc_life.specs.Judging.{IsAskerOf, IsNamedAt, LooksUp};
ghost use Rattle.std.specs.Option.{option_map};
ghost use Rattle.osc_coap.specs.Views.{parts_of};
ghost use Rattle.osc_life.specs.Life.{Life, is_open_life, marked, next_own};
ghost use Rattle.osc_life.specs.Replies.{as_reply};
ghost use Rattle.osc_endpoint.specs.Replying.{TableNotify, TableReply, marks_at};
ghost use Rattle.osc_endpoint.specs.ServerAnswer.{HaveSameLookup, IsTakenIn};
ghost use Rattle.osc_life.specs.Views.{reply_entry, values_of};
ghost use Rattle.osc_life.specs.LifeAnswer.{as_notification};
ghost use Rattle.osc_endpoint.specs.Table.{TableJudges};
ghost use Rattle.osc_life.specs.declared.server_error.ReplyError.TheVariants.{KeeperFailed, StaleTicket};
ghost use Rattle.osc_life.specs.declared.slot.Slot.{Slot};

use osc_coap::Message;
use osc_context::Context;
use osc_life::siblings::{
    Named, Slot, has_sender_in_place, is_for, is_open_place, judge_place, next_of_place,
    notify_place, reply_place,
};
use osc_life::{Decided, ReplyError, Ticket};

/// Returns the index of the context that has this kid, and this kid context or none.
pub(crate) fn find(slots: &[Option<Slot>], kid: &[u8], kid_context: Option<&[u8]>) -> Option<usize>
    ensures found { IfSome result (λ i. (s : Option Slot) × (slice_get slots.now i ≡ Some s)
        × LooksUp s kid.now (shown kid_context.entry)) }
    ensures none { IfNone result ((i : ℕ) (s : Option Slot) → slice_get slots.now i ≡ Some s
        → LooksUp s kid.now (shown kid_context.entry) → ⊥) }
{
    for index in 0..slots.len() {
        if is_for(&slots[index], kid, kid_context) {
            return Some(index);
        }
    }
    None
}

/// Returns the index of the context that requests for this one would name, if one is there (RFC 8613, 3.3).
pub(crate) fn find_same(slots: &[Option<Slot>], context: &Context) -> Option<usize>
    ensures found { IfSome result (λ i. (lives : ℕ → Option Life) → TableAgrees slots.now lives
        → (of : Life) × (lives i ≡ Some of) × HaveSameLookup of.context (as_server context.now)) }
    ensures none { IfNone result ((lives : ℕ → Option Life) → TableAgrees slots.now lives → IsTakenIn lives (as_server context.now) → ⊥) }
{
    let recipient = context.recipient().bytes();
    let id_context = context.id_context().map(|id_context| id_context.bytes());
    find(slots, recipient, id_context)
}

/// Processes a request that names the context at its index.
pub(crate) fn judge_at(
    slots: &mut [Option<Slot>],
    request: Named,
    datagram: &mut [u8],
    out: &mut [u8; 64],
) -> Decided
    requires there { request.index < length slots.old }
    requires named { (s : Option Slot) → slice_get slots.old request.index ≡ Some s → IsNamedAt s request datagram.old }
    requires asker { IsAskerOf request.asker datagram.old }
    ensures len { length slots.new ≡ length slots.old }
    ensures decided { (lives : ℕ → Option Life) → TableAgrees slots.old lives
        → TableJudges lives request datagram.old result datagram.new (take result.reply out.new) slots.new }
    ensures shown { CanShow result.decision datagram.new }
    ensures leaves { Leaves slots.old result.decision datagram.old datagram.new }
    ensures within { result.reply ≤ 64 }
    ensures behind { drop result.reply out.new ≡ drop result.reply out.old }
{
    let index = request.index;
    judge_place(&mut slots[index], request, datagram, out)
}

/// Seals a reply by a ticket.
pub(crate) fn reply_at(
    slots: &mut [Option<Slot>],
    ticket: &Ticket,
    own: bool,
    mid: u16,
    plain: &Message<'_>,
    out: &mut [u8],
) -> Result<usize, ReplyError>
    ensures answer { (lives : ℕ → Option Life) → TableAgrees slots.old lives
        → TableReply lives (values_of ticket.now) own
        (as_reply (values_of ticket.now).kind (values_of ticket.now).message_id (values_of ticket.now).token mid (parts_of plain.now))
        (length out.old) (reply_entry result out.new) }
    ensures agrees { (lives : ℕ → Option Life) → TableAgrees slots.old lives
        → TableAgrees slots.new (λ i. option_map (marked (marks_at result i (values_of ticket.now) own)) (lives i)) }
    ensures within { IfOk result (λ n. n ≤ length out.new) }
    ensures behind { IfOk result (λ n. drop n out.new ≡ drop n out.old) }
    ensures unchanged { OnErr result (out.new ≡ out.old) }
    ensures same { OnErr result (slots.new ≡ slots.old) }
    ensures no_keeper_failed { IfErr result (λ e. e ≢ KeeperFailed) }
{
    let index = ticket.context();
    if index >= slots.len() {
        return Err(ReplyError::StaleTicket);
    }
    reply_place(&mut slots[index], ticket, own, mid, plain, out)
}

/// Seals a notification by a ticket.
pub(crate) fn notify_at(
    slots: &mut [Option<Slot>],
    ticket: &Ticket,
    plain: &Message<'_>,
    out: &mut [u8],
) -> Result<usize, ReplyError>
    ensures answer { (lives : ℕ → Option Life) → TableAgrees slots.old lives
        → TableNotify lives (values_of ticket.now) (as_notification (values_of ticket.now).token (parts_of plain.now)) (length out.old)
        (reply_entry result out.new) }
    ensures agrees { (lives : ℕ → Option Life) → TableAgrees slots.old lives
        → TableAgrees slots.new (λ i. option_map (marked (marks_at result i (values_of ticket.now) true)) (lives i)) }
    ensures within { IfOk result (λ n. n ≤ length out.new) }
    ensures behind { IfOk result (λ n. drop n out.new ≡ drop n out.old) }
    ensures unchanged { OnErr result (out.new ≡ out.old) }
    ensures same { OnErr result (slots.new ≡ slots.old) }
    ensures no_keeper_failed { IfErr result (λ e. e ≢ KeeperFailed) }
{
    let index = ticket.context();
    if index >= slots.len() {
        return Err(ReplyError::StaleTicket);
    }
    notify_place(&mut slots[index], ticket, plain, out)
}

/// Returns whether one of the contexts has the Sender Key of this one.
pub(crate) fn has_sender_at(slots: &[Option<Slot>], context: &Context) -> bool
    ensures has { result ≡ true → (lives : ℕ → Option Life) → TableAgrees slots.now lives
        → (i : ℕ) × (of : Life) × (lives i ≡ Some of) × HaveSameSender of.context (as_server context.now) }
    ensures has_not { result ≡ false → (lives : ℕ → Option Life) → TableAgrees slots.now lives
        → (i : ℕ) (of : Life) → lives i ≡ Some of → HaveSameSender of.context (as_server context.now) → ⊥ }
{
    for index in 0..slots.len() {
        if has_sender_in_place(&slots[index], context) {
            return true;
        }
    }
    false
}

/// Returns whether the context at an index is there and open.
pub(crate) fn is_open_at(slots: &[Option<Slot>], context: usize) -> bool
    ensures { (lives : ℕ → Option Life) → TableAgrees slots.now lives → result ≡ is_open_life (lives context) }
{
    context < slots.len() && is_open_place(&slots[context])
}

/// Returns the next Sender Sequence Number of the context at an index, if it is there.
pub(crate) fn next_at(slots: &[Option<Slot>], context: usize) -> Option<u64>
    ensures { (lives : ℕ → Option Life) → TableAgrees slots.now lives → result ≡ option_map next_own (lives context) }
{
    if context < slots.len() {
        next_of_place(&slots[context])
    } else {
        None
    }
}
