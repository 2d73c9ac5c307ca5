//! Rows of servers.

ghost use Rattle.std.specs.Prelude.{◌≡◌, []};

use crate::answer::Answer;
use crate::ends::{Begins, End, Left, in_all_ways, in_both_ways};
use crate::peer_alike::{AnsweringPeer, can_answer};
use crate::server_calls::make;
use crate::server_entry::show;
use crate::server_events::{event_of, show_left};
use crate::steps::{Step, Way, are_events};
use osc_endpoint::{Server, ServerEntry, ServerEvent, run_server, run_server_on};
use std::alloc::{AllocError, Global};

/// Returns how many steps at the front add contexts.
fn additions(steps: &[Step<'_>]) -> usize {
    match steps.iter().position(|step| step.verb != "add") {
        Some(place) => place,
        None => steps.len(),
    }
}

/// Makes events by one of the two runs.
fn log_events<'e>(
    server: &mut Server,
    events: &'e mut [ServerEvent],
    way: Way,
    alloc: Global,
    log: &mut Vec<ServerEntry<'e>>,
) -> Result<(), AllocError>
    requires { log.old.items ≡ [] }
{
    if way == Way::ByRun {
        return run_server(alloc, server, events, log);
    }
    let mut rest = events;
    run_server_on(alloc, server, &mut rest, log)
}

/// Makes events by one of the two runs, and shows the log.
fn run(
    server: &mut Server,
    events: &mut [ServerEvent],
    way: Way,
    answer: &mut Answer,
) -> Result<(), AllocError> {
    let mut log = Vec::new(answer.alloc);
    log_events(server, events, way, answer.alloc, &mut log)?;
    for entry in &log {
        show(entry, answer);
        answer.word(";");
    }
    Ok(())
}

impl Begins for Server {
    fn begin(_first: &Step<'_>, _answer: &mut Answer) -> Option<Server> {
        Some(Server::new())
    }
}

impl End for Server {
    /// A run is over the events after the contexts.
    fn make(&mut self, steps: &[Step<'_>], way: Way, answer: &mut Answer) -> Left {
        let added = additions(steps);
        let steps_after = steps.get(added..).unwrap_or(&[]);
        if way.calls(steps_after) {
            return Ok(Some(make(self, steps, way, answer)));
        }
        let mut left = make(self, steps.get(..added).unwrap_or(&[]), way, answer);
        let events = steps_after.iter().filter_map(event_of);
        let mut events: Vec<ServerEvent> = events.collect(answer.alloc)?;
        run(self, &mut events, way, answer)?;
        for (step, event) in steps_after.iter().zip(events.iter()) {
            show_left(step, event, &mut left);
        }
        Ok(Some(left))
    }
}

/// Returns whether all of these are events over one life.
pub(crate) fn are_of_one_life(steps: &[Step<'_>]) -> bool {
    are_events(steps) && steps.iter().all(|step| step.verb != "restart")
}

/// Makes a row's steps over a server. If the first step adds a context as a peer can begin, and the others are events of one life, makes them
/// over a peer too. `all` is the first step and those after it.
pub(crate) fn over_all(
    first: &Step<'_>,
    steps: &[Step<'_>],
    all: &[Step<'_>],
    answer: &mut Answer,
) {
    in_all_ways::<Server>(first, all, answer);
    if can_answer(first) && are_of_one_life(steps) {
        answer.again();
        in_both_ways::<AnsweringPeer>(first, steps, answer);
    }
}
