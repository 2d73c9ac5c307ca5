//! A kept client over a list of events.

ghost use Rattle.std.specs.Prelude.{◌≡◌, ◌<◌, [], length, take, drop, vec_len, OnOk, OnErr};
ghost use Rattle.osc_client.specs.ClientHistory.{History};
ghost use Rattle.osc_kept_ends.specs.KeptAsking.{IsKept};
ghost use Rattle.osc_kept_runs.specs.KeptRuns.{ClientRestartStep, ClientRun, ClientStep, RequestStep, client_state};
ghost use Rattle.osc_kept_ends.specs.Numbering.{upcoming};
ghost use Rattle.osc_kept_ends.specs.Owning.{own_in};

use crate::kept_event::{KeptClientEntry, KeptClientEvent};
use osc_coap::parse;
use osc_context::Keeper;
use osc_endpoint::ClientEntry;
use osc_kept_ends::KeptClient;
use std::alloc::{AllocError, Global};
use std::mem;

/// Runs a request. Its entry borrows from the room for it. If the plain text isn't a message, only the clock moves.
fn run_request<'a, K: Keeper, const N: usize>(
    client: &mut KeptClient<K, N>,
    now: u64,
    plain: &[u8],
    out: &'a mut [u8],
) -> ClientEntry<'a>
    ensures { (h : History) → IsKept client.old.client (upcoming (own_in client.old.source)) h
        → (g : History) × RequestStep N (client_state h client.old.source) now plain.now (length out.old) result (client_state g client.new.source)
        × IsKept client.new.client (upcoming (own_in client.new.source)) g }
{
    let message = match parse(plain) {
        Ok(message) => message,
        Err(error) => {
            client.advance(now);
            return ClientEntry::BadPlain(error);
        }
    };
    match client.send(now, &message, out) {
        Ok((number, len)) => ClientEntry::Sent {
            number,
            datagram: &out[..len],
        },
        Err(error) => ClientEntry::NotSent(error),
    }
}

/// Runs a restart. Its entry borrows nothing.
fn run_restart<'a, K: Keeper, const N: usize>(client: &mut KeptClient<K, N>) -> KeptClientEntry<'a>
    ensures { (h : History) → IsKept client.old.client (upcoming (own_in client.old.source)) h
        → (g : History) × ClientRestartStep N (client_state h client.old.source) result (client_state g client.new.source)
        × IsKept client.new.client (upcoming (own_in client.new.source)) g }
{
    KeptClientEntry::Restarted(client.restart())
}

/// Runs one event. Its entry borrows from the event.
pub fn ask_kept_event<'a, K: Keeper, const N: usize>(
    client: &mut KeptClient<K, N>,
    event: &'a mut KeptClientEvent,
) -> KeptClientEntry<'a>
    ensures { (h : History) → IsKept client.old.client (upcoming (own_in client.old.source)) h
        → (g : History) × ClientStep N (client_state h client.old.source) event.old result (client_state g client.new.source)
        × IsKept client.new.client (upcoming (own_in client.new.source)) g }
{
    match event {
        KeptClientEvent::Request { now, plain, out } => {
            KeptClientEntry::Asked(run_request(client, *now, plain, out))
        }
        KeptClientEvent::Datagram { now, bytes } => {
            KeptClientEntry::Asked(ClientEntry::Took(client.take(*now, bytes)))
        }
        KeptClientEvent::Forget { token } => {
            KeptClientEntry::Asked(ClientEntry::Forgot(client.forget(token)))
        }
        KeptClientEvent::Restart => run_restart(client),
    }
}

/// Runs a kept client over events. The log gets the entry of each event, at the event's index, and the entries borrow from the
/// events. The run stops early only if memory for an entry is refused. In that case the log has the entries of the events before, and
/// `events` is what is left of them, as it was passed in. `alloc` is here because [`crate::run_kept_server_on`] has it, for tickets:
/// a client keeps none.
pub fn run_kept_client_on<'a, K: Keeper, const N: usize>(
    alloc: Global,
    client: &mut KeptClient<K, N>,
    events: &mut &'a mut [KeptClientEvent],
    log: &mut Vec<KeptClientEntry<'a>>,
) -> Result<(), AllocError>
    requires { log.old.items ≡ [] }
    ensures run { (h : History) → IsKept client.old.client (upcoming (own_in client.old.source)) h
        → (g : History) × ClientRun N (client_state h client.old.source) (take (vec_len log.new) events.old.now) log.new.items (client_state g client.new.source)
        × IsKept client.new.client (upcoming (own_in client.new.source)) g }
    ensures rest { events.new.now ≡ drop (vec_len log.new) events.old.now }
    ensures all { OnOk result (vec_len log.new ≡ length events.old.now) }
    ensures fewer { OnErr result (vec_len log.new < length events.old.now) }
{
    let mut rest = mem::take(events);
    while !rest.is_empty() {
        if let Err(error) = log.reserve(1) {
            *events = rest;
            return Err(error);
        }
        let (front, tail) = rest.split_at_mut(1);
        let entry = ask_kept_event(client, &mut front[0]);
        log.push_reserved(entry);
        rest = tail;
    }
    *events = rest;
    Ok(())
}

/// Runs a kept client over events, as [`run_kept_client_on`] does. It doesn't return what is left of them.
pub fn run_kept_client<'a, K: Keeper, const N: usize>(
    alloc: Global,
    client: &mut KeptClient<K, N>,
    events: &'a mut [KeptClientEvent],
    log: &mut Vec<KeptClientEntry<'a>>,
) -> Result<(), AllocError>
    requires { log.old.items ≡ [] }
    ensures run { (h : History) → IsKept client.old.client (upcoming (own_in client.old.source)) h
        → (g : History) × ClientRun N (client_state h client.old.source) (take (vec_len log.new) events.old) log.new.items (client_state g client.new.source)
        × IsKept client.new.client (upcoming (own_in client.new.source)) g }
    ensures all { OnOk result (vec_len log.new ≡ length events.old) }
    ensures fewer { OnErr result (vec_len log.new < length events.old) }
{
    let mut rest = events;
    run_kept_client_on(alloc, client, &mut rest, log)
}
