//! Rows of clients.

ghost use Rattle.std.specs.Prelude.{◌≡◌, ◌≤◌, []};

use crate::answer::Answer;
use crate::client_calls::make;
use crate::client_entry::show;
use crate::client_events::{event_of, show_left};
use crate::ends::{Begins, End, Left, in_all_ways, in_both_ways};
use crate::peer_alike::AskingPeer;
use crate::server::are_of_one_life;
use crate::steps::{Step, Way};
use osc_context::{Context, Piv};
use osc_endpoint::{Client, ClientEntry, ClientEvent, run_client, run_client_on};
use std::alloc::{AllocError, Global};

/// Reads `new CONTEXT ROOM NEXT LIFE`: the context, the next number, and how long a request is pending.
pub(crate) fn read_new(step: &Step<'_>) -> Option<(Context, Piv, u64)> {
    if step.verb != "new" {
        return None;
    }
    let fields = &step.fields;
    fields.count(4);
    let context = step.context()?;
    Some((context, fields.sequence_number(2), fields.number(3)))
}

/// Makes events by one of the two runs.
fn log_events<'e, const N: usize>(
    client: &mut Client<N>,
    events: &'e mut [ClientEvent],
    way: Way,
    alloc: Global,
    log: &mut Vec<ClientEntry<'e>>,
) -> Result<(), AllocError>
    requires { log.old.items ≡ [] }
{
    if way == Way::ByRun {
        return run_client(alloc, client, events, log);
    }
    let mut rest = events;
    run_client_on(alloc, client, &mut rest, log)
}

/// Makes events by one of the two runs, and shows the log.
fn run<const N: usize>(
    client: &mut Client<N>,
    events: &mut [ClientEvent],
    way: Way,
    answer: &mut Answer,
) -> Result<(), AllocError> {
    let mut log = Vec::new(answer.alloc);
    log_events(client, events, way, answer.alloc, &mut log)?;
    for entry in &log {
        show(entry, answer);
        answer.word(";");
    }
    Ok(())
}

impl<const N: usize> Begins for Client<N> {
    fn begin(first: &Step<'_>, _answer: &mut Answer) -> Option<Client<N>> {
        let (context, next, life) = read_new(first)?;
        Some(Client::new(context, next, life))
    }
}

impl<const N: usize> End for Client<N> {
    fn make(&mut self, steps: &[Step<'_>], way: Way, answer: &mut Answer) -> Left {
        if way.calls(steps) {
            return Ok(Some(make(self, steps, way, answer)));
        }
        let events = steps.iter().filter_map(event_of);
        let mut events: Vec<ClientEvent> = events.collect(answer.alloc)?;
        run(self, &mut events, way, answer)?;
        let mut left = Answer::new(answer.alloc);
        for (step, event) in steps.iter().zip(events.iter()) {
            show_left(step, event, &mut left);
        }
        Ok(Some(left))
    }
}

/// Makes a row's steps over a client that has room for N pending requests, and if all of them are events of one life, over a peer that has as
/// much too.
fn over_room<const N: usize>(first: &Step<'_>, steps: &[Step<'_>], answer: &mut Answer)
    requires { N ≤ 16 }
{
    in_all_ways::<Client<N>>(first, steps, answer);
    if are_of_one_life(steps) {
        answer.again();
        in_both_ways::<AskingPeer<N>>(first, steps, answer);
    }
}

/// Makes a row's steps over a client with the room that the first step says.
pub(crate) fn over_all(first: &Step<'_>, steps: &[Step<'_>], answer: &mut Answer) {
    match first.fields.word(1) {
        "0" => over_room::<0>(first, steps, answer),
        "1" => over_room::<1>(first, steps, answer),
        "2" => over_room::<2>(first, steps, answer),
        "8" => over_room::<8>(first, steps, answer),
        "16" => over_room::<16>(first, steps, answer),
        _ => first.fields.refuse(),
    }
}
