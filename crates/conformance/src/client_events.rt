//! The events of a client's row.

use crate::answer::Answer;
use crate::fields::Fields;
use crate::steps::{FILLED_WITH, Step};
use osc_endpoint::ClientEvent;
use osc_kept::KeptClientEvent;

/// Reads `request NOW PLAIN ROOM`.
fn request(fields: &Fields<'_>) -> ClientEvent {
    fields.count(3);
    ClientEvent::Request {
        now: fields.number(0),
        plain: fields.copy(1),
        out: fields.room(2, FILLED_WITH),
    }
}

/// Reads `take NOW DATAGRAM`.
fn datagram(fields: &Fields<'_>) -> ClientEvent {
    fields.count(2);
    ClientEvent::Datagram {
        now: fields.number(0),
        bytes: fields.copy(1),
    }
}

/// Returns the event of a step, if the step is one of a client that keeps no numbers.
pub(crate) fn event_of(step: &Step<'_>) -> Option<ClientEvent> {
    let fields = &step.fields;
    match step.verb {
        "request" => Some(request(fields)),
        "take" | "hear" => Some(datagram(fields)),
        "forget" => Some(ClientEvent::Forget {
            token: fields.copy(0),
        }),
        "restart" if !step.restarts_at_kept() => Some(ClientEvent::Restart {
            next: fields.sequence_number(0),
        }),
        _ => None,
    }
}

/// Returns the event of a step, if the step is one of a kept client.
pub(crate) fn kept_client_event(step: &Step<'_>) -> Option<KeptClientEvent> {
    if step.restarts_at_kept() {
        return Some(KeptClientEvent::Restart);
    }
    match event_of(step)? {
        ClientEvent::Request { now, plain, out } => {
            Some(KeptClientEvent::Request { now, plain, out })
        }
        ClientEvent::Datagram { now, bytes } => Some(KeptClientEvent::Datagram { now, bytes }),
        ClientEvent::Forget { token } => Some(KeptClientEvent::Forget { token }),
        ClientEvent::Restart { .. } => None,
    }
}

/// Shows what is left of an event: of a datagram its bytes, of a request whether nothing was written into its room.
pub(crate) fn show_left(step: &Step<'_>, event: &ClientEvent, left: &mut Answer) {
    match event {
        ClientEvent::Request { out, .. } => left.rest(out, FILLED_WITH),
        ClientEvent::Datagram { bytes, .. } => left.left(step.fields.bytes(1), bytes),
        ClientEvent::Forget { .. } | ClientEvent::Restart { .. } => {}
    }
}
