//! How an end begins by the words of `run`, and its input.

use crate::event_faults::{CLIENT, Forms, KEPT_CLIENT, KEPT_SERVER, PEER, SERVER};
use crate::words::{input_fault, optional_number};
use clap::ArgMatches;
use osc_context::Piv;
use osc_text::{Asking, Fault, Peering, Serving, Wrong, read_decimal};
use osc_window::WindowSize;
use std::alloc::Global;
use std::io::{ErrorKind, Read};

/// How long a request is pending, in milliseconds, if the words don't say.
const LIFE_MS: u64 = 60_000;

/// How an end whose numbers are kept begins. The file says the first one.
#[derive(Clone, Copy)]
pub(crate) enum KeptBeginning {
    Server(WindowSize),
    /// How many milliseconds a request is pending.
    Client(u64),
}

/// How a peer begins, and whether its record is made now, as that of an end that was never used.
#[derive(Clone, Copy)]
pub(crate) struct PeerBeginning {
    pub(crate) peering: Peering,
    pub(crate) is_first: bool,
}

/// How an end begins.
#[derive(Clone, Copy)]
pub(crate) enum Beginning {
    Server(Serving),
    Client(Asking),
    Kept(KeptBeginning),
    Peer(PeerBeginning),
}

impl Beginning {
    /// Returns the events that the end takes.
    pub(crate) fn forms(self) -> Forms {
        match self {
            Beginning::Server(_) => SERVER,
            Beginning::Client(_) => CLIENT,
            Beginning::Kept(KeptBeginning::Server(_)) => KEPT_SERVER,
            Beginning::Kept(KeptBeginning::Client(_)) => KEPT_CLIENT,
            Beginning::Peer(_) => PEER,
        }
    }
}

/// Reads the next Sender Sequence Number.
fn read_next(matches: &ArgMatches<'_>) -> Result<Piv, Fault> {
    match optional_number(matches, "sequence", "--sequence")? {
        Some(next) => Ok(next),
        None => Err(input_fault("--sequence", Wrong::Missing)),
    }
}

/// Reads the size of a window.
fn window_of(matches: &ArgMatches<'_>) -> WindowSize {
    match matches.get_str("window") {
        Some("1") => WindowSize::Place1,
        Some("64") => WindowSize::Places64,
        _ => WindowSize::default(),
    }
}

/// Reads the size of the server's window. The option that a server doesn't have is a fault.
fn read_window(matches: &ArgMatches<'_>) -> Result<WindowSize, Fault> {
    if matches.get_str("life").is_some() {
        return Err(input_fault("--life", Wrong::Role));
    }
    Ok(window_of(matches))
}

/// Reads how many milliseconds a request is pending.
fn life_of(matches: &ArgMatches<'_>) -> Result<u64, Fault> {
    let Some(word) = matches.get_str("life") else {
        return Ok(LIFE_MS);
    };
    match read_decimal(word) {
        Some(life_ms) => Ok(life_ms),
        None => Err(input_fault("--life", Wrong::Moment)),
    }
}

/// Reads how many milliseconds a client's request is pending. The options that a client doesn't have are faults.
fn read_life(matches: &ArgMatches<'_>) -> Result<u64, Fault> {
    if matches.get_flag("restarted") {
        return Err(input_fault("--restarted", Wrong::Role));
    }
    if matches.get_str("window").is_some() {
        return Err(input_fault("--window", Wrong::Role));
    }
    life_of(matches)
}

/// Reads how the server begins.
fn read_server(matches: &ArgMatches<'_>, is_kept: bool) -> Result<Beginning, Fault> {
    if is_kept {
        return Ok(Beginning::Kept(KeptBeginning::Server(read_window(matches)?)));
    }
    let next = read_next(matches)?;
    let window = read_window(matches)?;
    Ok(Beginning::Server(Serving {
        next,
        is_restarted: matches.get_flag("restarted"),
        window,
    }))
}

/// Reads how the client begins.
fn read_client(matches: &ArgMatches<'_>, is_kept: bool) -> Result<Beginning, Fault> {
    if is_kept {
        return Ok(Beginning::Kept(KeptBeginning::Client(read_life(matches)?)));
    }
    let next = read_next(matches)?;
    let life_ms = read_life(matches)?;
    Ok(Beginning::Client(Asking { next, life_ms }))
}

/// Reads how many received numbers a peer keeps ahead.
fn read_ahead(matches: &ArgMatches<'_>) -> Result<u64, Fault> {
    match optional_number(matches, "ahead", "--ahead")? {
        Some(ahead) => Ok(ahead.number()),
        None => Ok(0),
    }
}

/// Reads how the peer begins. It needs a record, and the option that a peer doesn't have is a fault.
fn read_peer(matches: &ArgMatches<'_>, is_kept: bool) -> Result<Beginning, Fault> {
    if is_kept {
        return Err(input_fault("--numbers", Wrong::Role));
    }
    if matches.get_str("record").is_none() {
        return Err(input_fault("--record", Wrong::Missing));
    }
    let window = window_of(matches);
    let life_ms = life_of(matches)?;
    let ahead = read_ahead(matches)?;
    Ok(Beginning::Peer(PeerBeginning {
        peering: Peering {
            window,
            life_ms,
            ahead,
        },
        is_first: matches.get_flag("first"),
    }))
}

/// Reads which end it is, and how it begins. A server and a client have no record, and keep nothing ahead.
pub(crate) fn read_beginning(matches: &ArgMatches<'_>) -> Result<Beginning, Fault> {
    let is_kept = matches.get_str("numbers").is_some();
    let role = matches.get_str("role");
    if role == Some("peer") {
        return read_peer(matches, is_kept);
    }
    if matches.get_str("record").is_some() {
        return Err(input_fault("--record", Wrong::Role));
    }
    if matches.get_str("ahead").is_some() {
        return Err(input_fault("--ahead", Wrong::Role));
    }
    if role == Some("client") {
        read_client(matches, is_kept)
    } else {
        read_server(matches, is_kept)
    }
}

/// Reads the whole input.
pub(crate) fn read_input<R: Read>(alloc: Global, input: &mut R) -> Result<Vec<u8>, Fault> {
    let mut bytes = Vec::new(alloc);
    match input.read_to_end(&mut bytes) {
        Ok(_len) => Ok(bytes),
        Err(error) if error.kind() == ErrorKind::OutOfMemory => Err(Fault::Memory),
        Err(error) => Err(Fault::Read(error)),
    }
}
