//! Reads the lines of an input as events of a peer.

ghost use Rattle.std.specs.Prelude.{◌≡◌, ◌^◌, IfNone, IfOk, IfSome, option_map};
ghost use Rattle.osc_text.specs.AskedEvents.{SpellsAsked};
ghost use Rattle.osc_text.specs.AskedReading.{HasRoom, asked_seen};
ghost use Rattle.osc_text.specs.InputEvents.{SpellsEvent};
ghost use Rattle.osc_text.specs.InputReading.{SpellsNone, number_read, numbered_read};
ghost use Rattle.osc_text.specs.PeerEvents.{Advance, Echo, Follow, Hear, SpellsPeer};
ghost use Rattle.osc_text.specs.PeerReading.{SpellsAs, SpellsOwn, SpellsPeerEvent, arrival_read, asked_of, challenge_read, fresh_read, own_verb_read, served_of};
ghost use Rattle.osc_text.specs.PeerSeen.{IsRoomyPeer, peer_seen};
ghost use Rattle.osc_text.specs.ServedReading.{IsOfRun, event_seen};

use crate::input_lines::LineEvent;
use crate::input_words::{
    MOST_ADDED, four_words, read_bytes, read_message_id, read_moment, read_numbered, split_once,
    three_words,
};
use osc_endpoint::{ClientEvent, ServerEvent};
use osc_peer_runs::{Challenging, PeerArrival, PeerEvent};
use std::alloc::{AllocError, Global};

/// The length of the plain message of a challenge: a head without a token, the Echo option, the marker and the text `not obeyed`.
const PLAIN_CHALLENGE: usize = 25;

/// How many bytes longer a plain message can be with an Echo option: the option's first byte, two bytes for its number and its length, and a
/// value of 40 bytes.
const ECHO_ADDED: usize = 1 + 2 + 40;

/// Reads the event of a datagram that may be a request: `NOW MID DATAGRAM`.
#[tactic(auto, unfolding(crate::specs::PeerReading::arrival_read))]
fn read_take(alloc: Global, fields: &[u8]) -> Result<Option<PeerEvent>, AllocError>
    ensures seen { IfOk result (λ event. option_map peer_seen event ≡ arrival_read fields.now) }
    ensures room { IfOk result (λ event. IfSome event IsRoomyPeer) }
{
    let Some((now, mid, datagram)) = three_words(fields) else {
        return Ok(None);
    };
    let (Some(now), Some(mid)) = (read_moment(now), read_message_id(mid)) else {
        return Ok(None);
    };
    let Some(bytes) = read_bytes(alloc, datagram)? else {
        return Ok(None);
    };
    Ok(Some(PeerEvent::Datagram(PeerArrival {
        now,
        mid,
        bytes,
        out: [0; 64],
    })))
}

/// Reads the event of a datagram of which no request is delivered that isn't known to be fresh: `MS NOW MID DATAGRAM`.
#[tactic(auto, unfolding(crate::specs::PeerReading::fresh_read))]
fn read_fresh(alloc: Global, fields: &[u8]) -> Result<Option<PeerEvent>, AllocError>
    ensures seen { IfOk result (λ event. option_map peer_seen event ≡ fresh_read fields.now) }
    ensures room { IfOk result (λ event. IfSome event IsRoomyPeer) }
{
    let Some((fresh_ms, now, mid, datagram)) = four_words(fields) else {
        return Ok(None);
    };
    let (Some(fresh_ms), Some(now)) = (read_moment(fresh_ms), read_moment(now)) else {
        return Ok(None);
    };
    let Some(mid) = read_message_id(mid) else {
        return Ok(None);
    };
    let Some(bytes) = read_bytes(alloc, datagram)? else {
        return Ok(None);
    };
    let out = [0; 64];
    let arrival = PeerArrival {
        now,
        mid,
        bytes,
        out,
    };
    Ok(Some(PeerEvent::Fresh { fresh_ms, arrival }))
}

/// Reads the event of a datagram that may be a response: `NOW DATAGRAM`.
fn read_hear(alloc: Global, fields: &[u8]) -> Result<Option<PeerEvent>, AllocError>
    ensures seen { IfOk result (λ event. option_map peer_seen event
        ≡ option_map (λ t. Hear t.0 t.1) (numbered_read fields.now)) }
    ensures room { IfOk result (λ event. IfSome event IsRoomyPeer) }
{
    let Some((now, bytes)) = read_numbered(alloc, fields)? else {
        return Ok(None);
    };
    Ok(Some(PeerEvent::Response { now, bytes }))
}

/// Reads the event of a datagram that may be a response, of which a challenge is told from every other response: `NOW DATAGRAM`.
fn read_follow(alloc: Global, fields: &[u8]) -> Result<Option<PeerEvent>, AllocError>
    ensures seen { IfOk result (λ event. option_map peer_seen event
        ≡ option_map (λ t. Follow t.0 t.1) (numbered_read fields.now)) }
    ensures room { IfOk result (λ event. IfSome event IsRoomyPeer) }
{
    let Some((now, bytes)) = read_numbered(alloc, fields)? else {
        return Ok(None);
    };
    Ok(Some(PeerEvent::Follow { now, bytes }))
}

/// Reads the event of a request with the Echo value that was heard last: `NOW PLAIN`.
fn read_echo(alloc: Global, fields: &[u8]) -> Result<Option<PeerEvent>, AllocError>
    ensures seen { IfOk result (λ event. option_map peer_seen event
        ≡ option_map (λ t. Echo t.0 t.1) (numbered_read fields.now)) }
    ensures room { IfOk result (λ event. IfSome event IsRoomyPeer) }
{
    let Some((now, plain)) = read_numbered(alloc, fields)? else {
        return Ok(None);
    };
    let room = vec![in alloc; 0u8; plain.len() + ECHO_ADDED]?;
    let out = vec![in alloc; 0u8; plain.len() + ECHO_ADDED + MOST_ADDED]?;
    Ok(Some(PeerEvent::Echo {
        now,
        plain,
        room,
        out,
    }))
}

/// Reads the event of a challenge: `EVENT MID`.
#[tactic(auto, unfolding(crate::specs::PeerReading::challenge_read))]
fn read_challenge(alloc: Global, fields: &[u8]) -> Result<Option<PeerEvent>, AllocError>
    ensures seen { IfOk result (λ event. option_map peer_seen event ≡ challenge_read fields.now) }
    ensures room { IfOk result (λ event. IfSome event IsRoomyPeer) }
{
    let Some((of, mid)) = split_once(fields, b' ') else {
        return Ok(None);
    };
    let (Some(of), Some(mid)) = (read_moment(of), read_message_id(mid)) else {
        return Ok(None);
    };
    let out = vec![in alloc; 0u8; PLAIN_CHALLENGE + MOST_ADDED]?;
    Ok(Some(PeerEvent::Challenge(Challenging {
        of: of as usize,
        mid,
        out,
    })))
}

/// Reads the event in which the clocks move: `NOW`.
fn read_advance(fields: &[u8]) -> Option<PeerEvent>
    ensures seen { option_map peer_seen result ≡ option_map Advance (number_read (2 ^ 64) fields.now) }
    ensures room { IfSome result IsRoomyPeer }
{
    match read_moment(fields) {
        Some(now) => Some(PeerEvent::Advance { now }),
        None => None,
    }
}

/// Reads the event of a verb and its fields, in a line that only a peer has.
#[tactic(auto, unfolding(crate::specs::PeerReading::own_verb_read))]
fn read_fields(alloc: Global, verb: &[u8], fields: &[u8]) -> Result<Option<PeerEvent>, AllocError>
    ensures seen { IfOk result (λ event. option_map peer_seen event ≡ own_verb_read verb.now fields.now) }
    ensures room { IfOk result (λ event. IfSome event IsRoomyPeer) }
{
    if verb == b"take".as_slice() {
        read_take(alloc, fields)
    } else if verb == b"fresh".as_slice() {
        read_fresh(alloc, fields)
    } else if verb == b"hear".as_slice() {
        read_hear(alloc, fields)
    } else if verb == b"follow".as_slice() {
        read_follow(alloc, fields)
    } else if verb == b"echo".as_slice() {
        read_echo(alloc, fields)
    } else if verb == b"challenge".as_slice() {
        read_challenge(alloc, fields)
    } else if verb == b"advance".as_slice() {
        Ok(read_advance(fields))
    } else {
        Ok(None)
    }
}

/// Reads the event of a line that only a peer has.
fn read_own(alloc: Global, line: &[u8]) -> Result<Option<PeerEvent>, AllocError>
    ensures read { IfOk result (λ event. IfSome event (SpellsPeerEvent line.now)) }
    ensures refused { IfOk result (λ event. IfNone event (SpellsNone SpellsOwn line.now)) }
{
    match split_once(line, b' ') {
        Some((verb, fields)) => read_fields(alloc, verb, fields),
        None => Ok(None),
    }
}

/// Turns a server's event into a peer's. Returns `None` for a datagram and for a restart, which are no events of a peer in a server's words.
fn served_event(event: ServerEvent) -> Option<PeerEvent>
    ensures seen { option_map peer_seen result ≡ served_of (event_seen event) }
    ensures room { IsOfRun event → IfSome result IsRoomyPeer }
{
    match event {
        ServerEvent::Reply(answering) => Some(PeerEvent::Reply(answering)),
        ServerEvent::Notify(notifying) => Some(PeerEvent::Notify(notifying)),
        ServerEvent::Drop { of } => Some(PeerEvent::Drop { of }),
        ServerEvent::Datagram(_arrival) => None,
        ServerEvent::Restart { .. } => None,
    }
}

/// Reads the event of a line that a server has too.
fn read_served(alloc: Global, line: &[u8]) -> Result<Option<PeerEvent>, AllocError>
    ensures read { IfOk result (λ event. IfSome event (SpellsPeerEvent line.now)) }
    ensures refused { IfOk result (λ event. IfNone event (SpellsNone (SpellsAs SpellsEvent served_of) line.now)) }
{
    match ServerEvent::from_line(alloc, line)? {
        Some(event) => Ok(served_event(event)),
        None => Ok(None),
    }
}

/// Turns a client's event into a peer's. Returns `None` for a datagram and for a restart, which are no events of a peer in a client's words.
fn asked_event(event: ClientEvent) -> Option<PeerEvent>
    ensures seen { option_map peer_seen result ≡ asked_of (asked_seen event) }
    ensures room { HasRoom event → IfSome result IsRoomyPeer }
{
    match event {
        ClientEvent::Request { now, plain, out } => Some(PeerEvent::Request { now, plain, out }),
        ClientEvent::Forget { token } => Some(PeerEvent::Forget { token }),
        ClientEvent::Datagram { .. } => None,
        ClientEvent::Restart { .. } => None,
    }
}

/// Reads the event of a line that a client has too.
fn read_asked(alloc: Global, line: &[u8]) -> Result<Option<PeerEvent>, AllocError>
    ensures read { IfOk result (λ event. IfSome event (SpellsPeerEvent line.now)) }
    ensures refused { IfOk result (λ event. IfNone event (SpellsNone (SpellsAs SpellsAsked asked_of) line.now)) }
{
    match ClientEvent::from_line(alloc, line)? {
        Some(event) => Ok(asked_event(event)),
        None => Ok(None),
    }
}

impl LineEvent for PeerEvent {
    ghost spells = { SpellsPeerEvent };

    ghost is_bad = { SpellsNone SpellsPeer };

    fn from_line(alloc: Global, line: &[u8]) -> Result<Option<PeerEvent>, AllocError> {
        if let Some(event) = read_own(alloc, line)? {
            return Ok(Some(event));
        }
        if let Some(event) = read_served(alloc, line)? {
            return Ok(Some(event));
        }
        read_asked(alloc, line)
    }
}
