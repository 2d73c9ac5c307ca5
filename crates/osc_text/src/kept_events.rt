//! Reads the lines of an input as events of an end whose numbers are kept.

ghost use Rattle.std.specs.Prelude.{◌≡◌, IfSome, option_map};
ghost use Rattle.osc_text.specs.AskedEvents.{SpellsKeptAsked};
ghost use Rattle.osc_text.specs.AskedReading.{HasRoom, SpellsKeptClient, asked_seen, kept_asked_of};
ghost use Rattle.osc_text.specs.InputEvents.{SpellsKept};
ghost use Rattle.osc_text.specs.InputReading.{SpellsNone};
ghost use Rattle.osc_text.specs.KeptSeen.{IsRoomy, IsRoomyAsked, kept_asked_seen, kept_seen};
ghost use Rattle.osc_text.specs.ServedReading.{IsOfRun, SpellsKeptServed, event_seen, kept_of};

use crate::input_lines::LineEvent;
use osc_endpoint::{ClientEvent, ServerEvent};
use osc_kept_runs::{KeptClientEvent, KeptServerEvent};
use std::alloc::{AllocError, Global};

/// The line of a restart.
const RESTART: &[u8] = b"restart";

/// Turns a server's event into an event of a kept server. Returns `None` for a restart with a number, which a kept server doesn't have.
fn kept_event(event: ServerEvent) -> Option<KeptServerEvent>
    ensures seen { option_map kept_seen result ≡ kept_of (event_seen event) }
    ensures room { IsOfRun event → IfSome result IsRoomy }
{
    match event {
        ServerEvent::Datagram(arrival) => Some(KeptServerEvent::Datagram(arrival)),
        ServerEvent::Reply(answering) => Some(KeptServerEvent::Reply(answering)),
        ServerEvent::Notify(notifying) => Some(KeptServerEvent::Notify(notifying)),
        ServerEvent::Drop { of } => Some(KeptServerEvent::Drop { of }),
        ServerEvent::Restart { .. } => None,
    }
}

impl LineEvent for KeptServerEvent {
    ghost spells = { SpellsKeptServed };

    ghost is_bad = { SpellsNone SpellsKept };

    fn from_line(alloc: Global, line: &[u8]) -> Result<Option<KeptServerEvent>, AllocError> {
        if line == RESTART {
            return Ok(Some(KeptServerEvent::Restart));
        }
        match ServerEvent::from_line(alloc, line)? {
            Some(event) => Ok(kept_event(event)),
            None => Ok(None),
        }
    }
}

/// Turns a client's event into an event of a kept client. Returns `None` for a restart with a number, which a kept client doesn't have.
fn kept_asked(event: ClientEvent) -> Option<KeptClientEvent>
    ensures seen { option_map kept_asked_seen result ≡ kept_asked_of (asked_seen event) }
    ensures room { HasRoom event → IfSome result IsRoomyAsked }
{
    match event {
        ClientEvent::Request { now, plain, out } => {
            Some(KeptClientEvent::Request { now, plain, out })
        }
        ClientEvent::Datagram { now, bytes } => Some(KeptClientEvent::Datagram { now, bytes }),
        ClientEvent::Forget { token } => Some(KeptClientEvent::Forget { token }),
        ClientEvent::Restart { .. } => None,
    }
}

impl LineEvent for KeptClientEvent {
    ghost spells = { SpellsKeptClient };

    ghost is_bad = { SpellsNone SpellsKeptAsked };

    fn from_line(alloc: Global, line: &[u8]) -> Result<Option<KeptClientEvent>, AllocError> {
        if line == RESTART {
            return Ok(Some(KeptClientEvent::Restart));
        }
        match ClientEvent::from_line(alloc, line)? {
            Some(event) => Ok(kept_asked(event)),
            None => Ok(None),
        }
    }
}
