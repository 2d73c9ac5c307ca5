//! Reads the lines of an input as events of a client.

ghost use Rattle.std.specs.Prelude.{◌≡◌, ◌^◌, IfOk, IfSome, option_map};
ghost use Rattle.osc_text.specs.AskedEvents.{Forget, Request, Restart, SpellsAsked, Take};
ghost use Rattle.osc_text.specs.AskedReading.{HasRoom, SpellsClient, asked_seen, asked_verb_read};
ghost use Rattle.osc_text.specs.InputReading.{SpellsNone, bytes_read, number_read, numbered_read};

use crate::input_lines::LineEvent;
use crate::input_words::{MOST_ADDED, read_bytes, read_next, read_numbered, split_once};
use osc_endpoint::ClientEvent;
use std::alloc::{AllocError, Global};

/// Reads the event of a request: `NOW PLAIN`.
fn read_request(alloc: Global, fields: &[u8]) -> Result<Option<ClientEvent>, AllocError>
    ensures seen { IfOk result (λ event. option_map asked_seen event
        ≡ option_map (λ t. Request t.0 t.1) (numbered_read fields.now)) }
    ensures room { IfOk result (λ event. IfSome event HasRoom) }
{
    let Some((now, plain)) = read_numbered(alloc, fields)? else {
        return Ok(None);
    };
    let out = vec![in alloc; 0u8; plain.len() + MOST_ADDED]?;
    Ok(Some(ClientEvent::Request { now, plain, out }))
}

/// Reads the event of a datagram that arrives: `NOW DATAGRAM`.
fn read_take(alloc: Global, fields: &[u8]) -> Result<Option<ClientEvent>, AllocError>
    ensures seen { IfOk result (λ event. option_map asked_seen event
        ≡ option_map (λ t. Take t.0 t.1) (numbered_read fields.now)) }
    ensures room { IfOk result (λ event. IfSome event HasRoom) }
{
    let Some((now, bytes)) = read_numbered(alloc, fields)? else {
        return Ok(None);
    };
    Ok(Some(ClientEvent::Datagram { now, bytes }))
}

/// Reads the event in which the client stops waiting for a token: `TOKEN`.
fn read_forget(alloc: Global, fields: &[u8]) -> Result<Option<ClientEvent>, AllocError>
    ensures seen { IfOk result (λ event. option_map asked_seen event ≡ option_map Forget (bytes_read fields.now)) }
    ensures room { IfOk result (λ event. IfSome event HasRoom) }
{
    let Some(token) = read_bytes(alloc, fields)? else {
        return Ok(None);
    };
    Ok(Some(ClientEvent::Forget { token }))
}

/// Reads the event of a restart: `NEXT`.
fn read_restart(fields: &[u8]) -> Option<ClientEvent>
    ensures seen { option_map asked_seen result ≡ option_map Restart (number_read (2 ^ 40) fields.now) }
    ensures room { IfSome result HasRoom }
{
    match read_next(fields) {
        Some(next) => Some(ClientEvent::Restart { next }),
        None => None,
    }
}

/// Reads the event of a verb and its fields.
#[tactic(auto, unfolding(crate::specs::AskedReading::asked_verb_read))]
fn read_fields(alloc: Global, verb: &[u8], fields: &[u8]) -> Result<Option<ClientEvent>, AllocError>
    ensures seen { IfOk result (λ event. option_map asked_seen event ≡ asked_verb_read verb.now fields.now) }
    ensures room { IfOk result (λ event. IfSome event HasRoom) }
{
    if verb == b"request".as_slice() {
        read_request(alloc, fields)
    } else if verb == b"take".as_slice() {
        read_take(alloc, fields)
    } else if verb == b"forget".as_slice() {
        read_forget(alloc, fields)
    } else if verb == b"restart".as_slice() {
        Ok(read_restart(fields))
    } else {
        Ok(None)
    }
}

impl LineEvent for ClientEvent {
    ghost spells = { SpellsClient };

    ghost is_bad = { SpellsNone SpellsAsked };

    fn from_line(alloc: Global, line: &[u8]) -> Result<Option<ClientEvent>, AllocError> {
        match split_once(line, b' ') {
            Some((verb, fields)) => read_fields(alloc, verb, fields),
            None => Ok(None),
        }
    }
}
