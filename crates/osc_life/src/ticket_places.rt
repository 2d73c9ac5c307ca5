//! The tickets of a run. Each event has one place, which holds the ticket that its delivery gave until a reply takes it.

ghost use Rattle.std.specs.Prelude.{◌≡◌, ◌<◌, Some, None, slice_get, slice_set, vec_capacity, vec_len, OnOk};
ghost use Rattle.std.specs.Option.{option_and_then, option_copied};

use crate::ticket::Ticket;
use std::alloc::AllocError;

/// Makes room for one more entry of a run, and for the ticket at its place. If memory is refused, both lists keep what they had.
pub fn make_places<T>(log: &mut Vec<T>, tickets: &mut Vec<Option<Ticket>>) -> Result<(), AllocError>
    ensures entries { (log.new.items ≡ log.old.items) × (vec_len log.new ≡ vec_len log.old) }
    ensures tickets { (tickets.new.items ≡ tickets.old.items) × (vec_len tickets.new ≡ vec_len tickets.old) }
    ensures room { OnOk result ((vec_len log.new < vec_capacity log.new) × (vec_len tickets.new < vec_capacity tickets.new)) }
{
    log.reserve(1)?;
    tickets.reserve(1)
}

/// Puts a ticket back into its place, if there is one.
pub fn put_back(tickets: &mut [Option<Ticket>], of: usize, ticket: Ticket)
    ensures { tickets.new ≡ slice_set tickets.old of (Some ticket) }
{
    if of < tickets.len() {
        tickets[of] = Some(ticket);
    }
}

/// Returns the ticket at an index, if one is left.
#[must_use]
pub fn ticket_at(tickets: &[Option<Ticket>], of: usize) -> Option<&Ticket>
    ensures { option_copied result ≡ option_and_then (λ t. t) (slice_get tickets.now of) }
{
    if of < tickets.len() {
        tickets[of].as_ref()
    } else {
        None
    }
}

/// Takes out the ticket at an index, if one is left.
pub fn take_out(tickets: &mut [Option<Ticket>], of: usize) -> Option<Ticket>
    ensures ticket { result ≡ option_and_then (λ t. t) (slice_get tickets.old of) }
    ensures rest { tickets.new ≡ slice_set tickets.old of None }
{
    if of < tickets.len() {
        tickets[of].take()
    } else {
        None
    }
}
