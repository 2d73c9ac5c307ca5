//! Rows of ends over a keeper in memory, from one start to the next.

ghost use Rattle.std.specs.Prelude.{◌≡◌, []};

use crate::answer::Answer;
use crate::client_events::kept_client_event;
use crate::ends::{End, Left};
use crate::fields::Fields;
use crate::keeper::Memory;
use crate::refusal::{Refusal, restarted, show_word};
use crate::server_events::kept_server_event;
use crate::steps::{Step, Way, up_to_start};
use crate::{client_calls, client_entry, server_calls, server_entry};
use osc_context::Context;
use osc_kept::{
    KeptClient, KeptClientEntry, KeptClientEvent, KeptError, KeptServer, KeptServerEntry,
    KeptServerEvent, run_kept_client, run_kept_client_on, run_kept_server, run_kept_server_on,
};
use std::alloc::{AllocError, Global};

/// An end whose numbers are kept by a keeper in memory.
pub(crate) trait KeptEnd<'t>: End {
    /// Starts an end: `start CONTEXT ..`, with the context of the first field.
    fn start(
        context: Context,
        fields: &Fields<'_>,
        keeper: Memory<'t>,
    ) -> Result<Self, (KeptError, Memory<'t>)>;

    fn into_keeper(self) -> Memory<'t>;
}

/// Makes events by one of the two runs.
fn log_server<'e>(
    server: &mut KeptServer<Memory<'_>>,
    events: &'e mut [KeptServerEvent],
    way: Way,
    alloc: Global,
    log: &mut Vec<KeptServerEntry<'e>>,
) -> Result<(), AllocError>
    requires { log.old.items ≡ [] }
{
    if way == Way::ByRun {
        return run_kept_server(alloc, server, events, log);
    }
    let mut rest = events;
    run_kept_server_on(alloc, server, &mut rest, log)
}

/// Makes events of a server by one of the two runs, and shows the log.
fn run_server(
    server: &mut KeptServer<Memory<'_>>,
    events: &mut [KeptServerEvent],
    way: Way,
    answer: &mut Answer,
) -> Result<(), AllocError> {
    let mut log = Vec::new(answer.alloc);
    log_server(server, events, way, answer.alloc, &mut log)?;
    for entry in &log {
        match entry {
            KeptServerEntry::Served(entry) => server_entry::show(entry, answer),
            KeptServerEntry::Restarted(kept) => show_word(restarted(*kept), answer),
        }
        answer.word(";");
    }
    Ok(())
}

impl<'t> End for KeptServer<Memory<'t>> {
    fn make(&mut self, steps: &[Step<'_>], way: Way, answer: &mut Answer) -> Left {
        if way.calls(steps) {
            return Ok(Some(server_calls::make(self, steps, way, answer)));
        }
        let events = steps.iter().filter_map(kept_server_event);
        let mut events: Vec<KeptServerEvent> = events.collect(answer.alloc)?;
        run_server(self, &mut events, way, answer)?;
        Ok(None)
    }
}

impl<'t> KeptEnd<'t> for KeptServer<Memory<'t>> {
    fn start(
        context: Context,
        fields: &Fields<'_>,
        keeper: Memory<'t>,
    ) -> Result<Self, (KeptError, Memory<'t>)> {
        KeptServer::start(context, keeper, fields.window_size(1))
    }

    fn into_keeper(self) -> Memory<'t> {
        KeptServer::into_keeper(self)
    }
}

/// Makes events by one of the two runs.
fn log_client<'e>(
    client: &mut KeptClient<Memory<'_>, 2>,
    events: &'e mut [KeptClientEvent],
    way: Way,
    alloc: Global,
    log: &mut Vec<KeptClientEntry<'e>>,
) -> Result<(), AllocError>
    requires { log.old.items ≡ [] }
{
    if way == Way::ByRun {
        return run_kept_client(alloc, client, events, log);
    }
    let mut rest = events;
    run_kept_client_on(alloc, client, &mut rest, log)
}

/// Makes events of a client by one of the two runs, and shows the log.
fn run_client(
    client: &mut KeptClient<Memory<'_>, 2>,
    events: &mut [KeptClientEvent],
    way: Way,
    answer: &mut Answer,
) -> Result<(), AllocError> {
    let mut log = Vec::new(answer.alloc);
    log_client(client, events, way, answer.alloc, &mut log)?;
    for entry in &log {
        match entry {
            KeptClientEntry::Asked(entry) => client_entry::show(entry, answer),
            KeptClientEntry::Restarted(kept) => show_word(restarted(*kept), answer),
        }
        answer.word(";");
    }
    Ok(())
}

impl<'t> End for KeptClient<Memory<'t>, 2> {
    fn make(&mut self, steps: &[Step<'_>], way: Way, answer: &mut Answer) -> Left {
        if way.calls(steps) {
            return Ok(Some(client_calls::make(self, steps, way, answer)));
        }
        let events = steps.iter().filter_map(kept_client_event);
        let mut events: Vec<KeptClientEvent> = events.collect(answer.alloc)?;
        run_client(self, &mut events, way, answer)?;
        Ok(None)
    }
}

impl<'t> KeptEnd<'t> for KeptClient<Memory<'t>, 2> {
    fn start(
        context: Context,
        fields: &Fields<'_>,
        keeper: Memory<'t>,
    ) -> Result<Self, (KeptError, Memory<'t>)> {
        KeptClient::start(context, keeper, fields.number(1))
    }

    fn into_keeper(self) -> Memory<'t> {
        KeptClient::into_keeper(self)
    }
}

/// Makes the steps of an end that is started. Returns its keeper.
fn started<'t, E: KeptEnd<'t>>(
    end: E,
    steps: &[Step<'_>],
    way: Way,
    answer: &mut Answer,
) -> Memory<'t> {
    let mut end = end;
    answer.word("started ;");
    if end.make(steps, way, answer).is_err() {
        answer.is_whole = false;
    }
    end.into_keeper()
}

/// Makes a start and the steps up to the next start. Returns the keeper for the next start.
fn one_start<'t, E: KeptEnd<'t>>(
    keeper: Memory<'t>,
    start: &Step<'_>,
    steps: &[Step<'_>],
    way: Way,
    answer: &mut Answer,
) -> Memory<'t> {
    start.fields.count(2);
    let Some(context) = start.context() else {
        return keeper;
    };
    match E::start(context, &start.fields, keeper) {
        Ok(end) => started(end, steps, way, answer),
        Err((refusal, keeper)) => {
            Refusal::Kept(refusal).show(answer);
            answer.word(";");
            if !steps.is_empty() {
                start.fields.refuse();
            }
            keeper
        }
    }
}

/// Makes all steps in one way. The first step is `keeper KEPT PLAN`.
fn in_a_way<'t, E: KeptEnd<'t>>(steps: &[Step<'t>], way: Way, answer: &mut Answer) {
    let Some((first, behind)) = steps.split_first() else {
        return;
    };
    let plan = first.fields.word(1);
    let mut keeper = Memory::new(answer.alloc, first.fields.number(0), plan);
    for (place, start) in behind.iter().enumerate() {
        if start.verb == "start" {
            let after = behind.get(place + 1..).unwrap_or(&[]);
            keeper = one_start::<E>(keeper, start, up_to_start(after), way, answer);
        }
    }
    keeper.show(answer);
}

/// Makes a row's steps: by `take`, by its halves, and by both runs.
pub(crate) fn over_all<'t, E: KeptEnd<'t>>(steps: &[Step<'t>], answer: &mut Answer) {
    in_a_way::<E>(steps, Way::ByTake, answer);
    answer.again();
    in_a_way::<E>(steps, Way::ByHalves, answer);
    answer.again();
    in_a_way::<E>(steps, Way::ByRun, answer);
    answer.again();
    in_a_way::<E>(steps, Way::ByRunOn, answer);
}
