//! Reads the lines of an input as events of a server.

ghost use Rattle.std.specs.Prelude.{◌≡◌, ◌^◌, IfOk, IfSome, option_map};
ghost use Rattle.osc_text.specs.InputEvents.{Drop, Notify, Restart, SpellsEvent};
ghost use Rattle.osc_text.specs.InputReading.{SpellsNone, number_read, numbered_read};
ghost use Rattle.osc_text.specs.ServedReading.{IsOfRun, SpellsServed, event_seen, reply_read, take_read, verb_read};

use crate::input_lines::LineEvent;
use crate::input_words::{
    MOST_ADDED, four_words, read_bytes, read_fixed, read_message_id, read_moment, read_next,
    read_numbered, read_own, split_once,
};
use osc_endpoint::{Answering, Arrival, Fresh, Notifying, ServerEvent};
use std::alloc::{AllocError, Global};

/// Reads the event of a datagram that arrives: `NOW ECHO MID DATAGRAM`.
#[tactic(auto, unfolding(crate::specs::ServedReading::take_read))]
fn read_take(alloc: Global, fields: &[u8]) -> Result<Option<ServerEvent>, AllocError>
    ensures seen { IfOk result (λ event. option_map event_seen event ≡ take_read fields.now) }
    ensures room { IfOk result (λ event. IfSome event IsOfRun) }
{
    let Some((now, echo, mid, datagram)) = four_words(fields) else {
        return Ok(None);
    };
    let (Some(now), Some(echo), Some(mid)) = (
        read_moment(now),
        read_fixed::<8>(echo),
        read_message_id(mid),
    ) else {
        return Ok(None);
    };
    let Some(bytes) = read_bytes(alloc, datagram)? else {
        return Ok(None);
    };
    Ok(Some(ServerEvent::Datagram(Arrival {
        now,
        fresh: Fresh { echo, mid },
        bytes,
        out: [0; 64],
    })))
}

/// Reads the event of a reply: `EVENT own|shared MID PLAIN`.
#[tactic(auto, unfolding(crate::specs::ServedReading::reply_read))]
fn read_reply(alloc: Global, fields: &[u8]) -> Result<Option<ServerEvent>, AllocError>
    ensures seen { IfOk result (λ event. option_map event_seen event ≡ reply_read fields.now) }
    ensures room { IfOk result (λ event. IfSome event IsOfRun) }
{
    let Some((of, own, mid, plain)) = four_words(fields) else {
        return Ok(None);
    };
    let (Some(of), Some(own), Some(mid)) = (read_moment(of), read_own(own), read_message_id(mid))
    else {
        return Ok(None);
    };
    let Some(plain) = read_bytes(alloc, plain)? else {
        return Ok(None);
    };
    let out = vec![in alloc; 0u8; plain.len() + MOST_ADDED]?;
    Ok(Some(ServerEvent::Reply(Answering {
        of: of as usize,
        own,
        mid,
        plain,
        out,
    })))
}

/// Reads the event of a notification: `EVENT PLAIN`.
fn read_notify(alloc: Global, fields: &[u8]) -> Result<Option<ServerEvent>, AllocError>
    ensures seen { IfOk result (λ event. option_map event_seen event
        ≡ option_map (λ r. Notify r.0 r.1) (numbered_read fields.now)) }
    ensures room { IfOk result (λ event. IfSome event IsOfRun) }
{
    let Some((of, plain)) = read_numbered(alloc, fields)? else {
        return Ok(None);
    };
    let out = vec![in alloc; 0u8; plain.len() + MOST_ADDED]?;
    Ok(Some(ServerEvent::Notify(Notifying {
        of: of as usize,
        plain,
        out,
    })))
}

/// Reads the event of a ticket that is dropped: `EVENT`.
fn read_drop(fields: &[u8]) -> Option<ServerEvent>
    ensures seen { option_map event_seen result ≡ option_map Drop (number_read (2 ^ 64) fields.now) }
    ensures room { IfSome result IsOfRun }
{
    match read_moment(fields) {
        Some(of) => Some(ServerEvent::Drop { of: of as usize }),
        None => None,
    }
}

/// Reads the event of a restart: `NEXT`.
fn read_restart(fields: &[u8]) -> Option<ServerEvent>
    ensures seen { option_map event_seen result ≡ option_map Restart (number_read (2 ^ 40) fields.now) }
    ensures room { IfSome result IsOfRun }
{
    match read_next(fields) {
        Some(next) => Some(ServerEvent::Restart { context: 0, next }),
        None => None,
    }
}

/// Reads the event of a verb and its fields.
#[tactic(auto, unfolding(crate::specs::ServedReading::verb_read))]
fn read_fields(alloc: Global, verb: &[u8], fields: &[u8]) -> Result<Option<ServerEvent>, AllocError>
    ensures seen { IfOk result (λ event. option_map event_seen event ≡ verb_read verb.now fields.now) }
    ensures room { IfOk result (λ event. IfSome event IsOfRun) }
{
    if verb == b"take".as_slice() {
        return read_take(alloc, fields);
    }
    if verb == b"reply".as_slice() {
        return read_reply(alloc, fields);
    }
    if verb == b"notify".as_slice() {
        return read_notify(alloc, fields);
    }
    if verb == b"drop".as_slice() {
        return Ok(read_drop(fields));
    }
    if verb == b"restart".as_slice() {
        return Ok(read_restart(fields));
    }
    Ok(None)
}

impl LineEvent for ServerEvent {
    ghost spells = { SpellsServed };

    ghost is_bad = { SpellsNone SpellsEvent };

    fn from_line(alloc: Global, line: &[u8]) -> Result<Option<ServerEvent>, AllocError> {
        match split_once(line, b' ') {
            Some((verb, fields)) => read_fields(alloc, verb, fields),
            None => Ok(None),
        }
    }
}
