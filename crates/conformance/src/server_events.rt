//! The steps of a server's row: its events, and the contexts that are added.

ghost use Rattle.std.specs.Prelude.{◌≤◌};

use crate::answer::Answer;
use crate::fields::Fields;
use crate::steps::{FILLED_WITH, Step};
use osc_context::Context;
use osc_endpoint::{Answering, Arrival, Fresh, Notifying, ServerEvent, Start};
use osc_kept::KeptServerEvent;
use osc_window::WindowSize;

/// Reads from this field on how a context begins, behind which nothing stands: `fresh NEXT SIZE`, `restarted NEXT SIZE`, `received NEXT SIZE
/// HIGHEST` or `reserved NEXT SIZE HIGHEST AHEAD`.
fn beginning(fields: &Fields<'_>, from: usize) -> Start
    requires { from ≤ 2 }
{
    let next = fields.sequence_number(from + 1);
    if fields.word(from) == "received" {
        fields.count(from + 4);
        let highest = fields.sequence_number(from + 3);
        return Start::Received { next, highest };
    }
    if fields.word(from) == "reserved" {
        fields.count(from + 5);
        return Start::Reserved {
            next,
            highest: fields.sequence_number(from + 3),
            ahead: fields.number(from + 4),
        };
    }
    fields.count(from + 3);
    if fields.word(from) == "fresh" {
        Start::Fresh(next)
    } else {
        Start::Restarted(next)
    }
}

/// Reads `add CONTEXT ..`: the context, how it begins, and the size of its window.
pub(crate) fn addition(step: &Step<'_>) -> Option<(Context, Start, WindowSize)> {
    let context = step.context()?;
    Some((
        context,
        beginning(&step.fields, 1),
        step.fields.window_size(3),
    ))
}

/// Reads `replace CONTEXT INDEX ..`: the context, the index of the one in whose place it is put, how it begins, and the size of its window.
pub(crate) fn replacement(step: &Step<'_>) -> Option<(Context, usize, Start, WindowSize)> {
    let context = step.context()?;
    let start = beginning(&step.fields, 2);
    Some((
        context,
        step.fields.index(1),
        start,
        step.fields.window_size(4),
    ))
}

/// Reads `take NOW ECHO MID DATAGRAM`. The value `counted` is made by the call.
fn arrival(fields: &Fields<'_>) -> Arrival {
    fields.count(4);
    let echo = if fields.word(1) == "counted" {
        [0; 8]
    } else {
        fields.array::<8>(1)
    };
    let mid = fields.message_id(2);
    let fresh = Fresh { echo, mid };
    Arrival {
        now: fields.number(0),
        fresh,
        bytes: fields.copy(3),
        out: [FILLED_WITH; 64],
    }
}

/// Reads `reply EVENT own|shared MID PLAIN ROOM`.
fn answering(fields: &Fields<'_>) -> Answering {
    fields.count(5);
    Answering {
        of: fields.index(0),
        own: fields.word(1) == "own",
        mid: fields.message_id(2),
        plain: fields.copy(3),
        out: fields.room(4, FILLED_WITH),
    }
}

/// Reads `notify EVENT PLAIN ROOM`.
fn notifying(fields: &Fields<'_>) -> Notifying {
    fields.count(3);
    Notifying {
        of: fields.index(0),
        plain: fields.copy(1),
        out: fields.room(2, FILLED_WITH),
    }
}

/// Returns the event of a step, if the step is one of a server that keeps no numbers.
pub(crate) fn event_of(step: &Step<'_>) -> Option<ServerEvent> {
    let fields = &step.fields;
    match step.verb {
        "take" => Some(ServerEvent::Datagram(arrival(fields))),
        "reply" => Some(ServerEvent::Reply(answering(fields))),
        "notify" => Some(ServerEvent::Notify(notifying(fields))),
        "drop" => Some(ServerEvent::Drop {
            of: fields.index(0),
        }),
        "restart" if !step.restarts_at_kept() => Some(ServerEvent::Restart {
            context: fields.index(0),
            next: fields.sequence_number(1),
        }),
        _ => None,
    }
}

/// Returns the event of a step, if the step is one of a kept server.
pub(crate) fn kept_server_event(step: &Step<'_>) -> Option<KeptServerEvent> {
    if step.restarts_at_kept() {
        return Some(KeptServerEvent::Restart);
    }
    match event_of(step)? {
        ServerEvent::Datagram(arrival) => Some(KeptServerEvent::Datagram(arrival)),
        ServerEvent::Reply(answering) => Some(KeptServerEvent::Reply(answering)),
        ServerEvent::Notify(notifying) => Some(KeptServerEvent::Notify(notifying)),
        ServerEvent::Drop { of } => Some(KeptServerEvent::Drop { of }),
        ServerEvent::Restart { .. } => None,
    }
}

/// Shows what is left of an event: of a datagram its bytes, of a reply whether nothing was written into its room.
pub(crate) fn show_left(step: &Step<'_>, event: &ServerEvent, left: &mut Answer) {
    match event {
        ServerEvent::Datagram(arrival) => left.left(step.fields.bytes(3), &arrival.bytes),
        ServerEvent::Reply(answering) => left.rest(&answering.out, FILLED_WITH),
        ServerEvent::Notify(notifying) => left.rest(&notifying.out, FILLED_WITH),
        ServerEvent::Drop { .. } | ServerEvent::Restart { .. } => {}
    }
}
