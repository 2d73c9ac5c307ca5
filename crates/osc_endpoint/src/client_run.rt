//! Runs a client over a list of events.

ghost use Rattle.std.specs.Prelude.{◌≡◌, ◌<◌, [], length, take, drop, vec_len, OnOk, OnErr};
ghost use Rattle.osc_client.specs.Agrees.{ClientAgrees};
ghost use Rattle.osc_client.specs.ClientHistory.{History};
ghost use Rattle.osc_endpoint.specs.ClientRun.{RequestStep, Run, ClientRunStep};

use crate::client_event::{ClientEntry, ClientEvent};
use osc_client::Client;
use osc_coap::parse;
use std::alloc::{AllocError, Global};
use std::mem;

/// Runs a request, whose entry borrows from the room for it. If the request isn't a message, this moves the clock alone.
fn run_request<'a, const N: usize>(
    client: &mut Client<N>,
    now: u64,
    plain: &[u8],
    out: &'a mut [u8],
) -> ClientEntry<'a>
    ensures { (h : History) → ClientAgrees client.old h
        → (g : History) × RequestStep N h now plain.now (length out.old) result g × ClientAgrees client.new g }
{
    let message = match parse(plain) {
        Ok(message) => message,
        Err(error) => {
            client.advance(now);
            return ClientEntry::BadPlain(error);
        }
    };
    match client.send(now, &message, out) {
        Ok((number, len)) => ClientEntry::Sent {
            number,
            datagram: &out[..len],
        },
        Err(error) => ClientEntry::NotSent(error),
    }
}

/// Runs one event, whose entry borrows from it.
pub fn ask_event<'a, const N: usize>(
    client: &mut Client<N>,
    event: &'a mut ClientEvent,
) -> ClientEntry<'a>
    ensures { (h : History) → ClientAgrees client.old h
        → (g : History) × ClientRunStep N h event.old result g × ClientAgrees client.new g }
{
    match event {
        ClientEvent::Request { now, plain, out } => run_request(client, *now, plain, out),
        ClientEvent::Datagram { now, bytes } => ClientEntry::Took(client.take(*now, bytes)),
        ClientEvent::Forget { token } => ClientEntry::Forgot(client.forget(token)),
        ClientEvent::Restart { next } => {
            client.restart(*next);
            ClientEntry::Restarted
        }
    }
}

/// Runs a client over events. The log gets the entry of each event, at the event's index. The entries borrow from the events. The run stops
/// early only if memory for an entry is refused. In that case the log has the entries of the events before, and `events` is what is left of
/// them, as it was passed in. `alloc` is here because [`crate::run_server_on`] has it, for tickets: a client keeps none.
pub fn run_client_on<'a, const N: usize>(
    alloc: Global,
    client: &mut Client<N>,
    events: &mut &'a mut [ClientEvent],
    log: &mut Vec<ClientEntry<'a>>,
) -> Result<(), AllocError>
    requires { log.old.items ≡ [] }
    ensures run { (h : History) → ClientAgrees client.old h
        → (g : History) × Run N h (take (vec_len log.new) events.old.now) log.new.items g × ClientAgrees client.new g }
    ensures rest { events.new.now ≡ drop (vec_len log.new) events.old.now }
    ensures all { OnOk result (vec_len log.new ≡ length events.old.now) }
    ensures fewer { OnErr result (vec_len log.new < length events.old.now) }
{
    let mut rest = mem::take(events);
    while !rest.is_empty() {
        if let Err(error) = log.reserve(1) {
            *events = rest;
            return Err(error);
        }
        let (front, tail) = rest.split_at_mut(1);
        let entry = ask_event(client, &mut front[0]);
        log.push_reserved(entry);
        rest = tail;
    }
    *events = rest;
    Ok(())
}

/// Runs a client over events, as [`run_client_on`] does. It doesn't return what is left of them.
pub fn run_client<'a, const N: usize>(
    alloc: Global,
    client: &mut Client<N>,
    events: &'a mut [ClientEvent],
    log: &mut Vec<ClientEntry<'a>>,
) -> Result<(), AllocError>
    requires { log.old.items ≡ [] }
    ensures run { (h : History) → ClientAgrees client.old h
        → (g : History) × Run N h (take (vec_len log.new) events.old) log.new.items g × ClientAgrees client.new g }
    ensures all { OnOk result (vec_len log.new ≡ length events.old) }
    ensures fewer { OnErr result (vec_len log.new < length events.old) }
{
    let mut rest = events;
    run_client_on(alloc, client, &mut rest, log)
}
