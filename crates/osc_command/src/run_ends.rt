//! What `run` asks for: an end over the events of an input, which is read whole, or line by line.

ghost use Rattle.std.specs.Prelude.{◌≡◌, ◌⊎◌, IfOk, Ok};

use crate::event_faults::{Forms, event_fault, last_fault};
use crate::run_words::{Beginning, KeptBeginning, PeerBeginning, read_beginning, read_input};
use crate::running::Keepers;
use clap::ArgMatches;
use osc_context::{Keeper, RecordKeeper};
use osc_text::{
    Agreed, Asking, Fault, Serving, ask_following, ask_kept_following, ask_kept_text, ask_text,
    derive_text, peer_following, peer_text, serve_following, serve_kept_following, serve_kept_text,
    serve_text,
};
use std::alloc::Global;
use std::io::{BufRead, BufReader, Read, Write};

/// The events of an end.
#[derive(Drop)]
enum Events<'a, R> {
    /// All lines, which are read before the first event runs.
    Whole(&'a [u8]),
    /// A reader whose lines run one by one, and room for a line.
    Lines(&'a mut R, &'a mut Vec<u8>),
}

/// Runs a server.
fn serve<R: BufRead, W: Write>(
    alloc: Global,
    agreed: Agreed<'_>,
    serving: Serving,
    events: Events<'_, R>,
    out: &mut W,
) -> Result<u8, Fault>
    ensures { IfOk result (λ s. (s ≡ 0) ⊎ (s ≡ 2)) }
{
    match events {
        Events::Whole(input) => serve_text(alloc, agreed, serving, input, out),
        Events::Lines(input, line) => serve_following(alloc, agreed, serving, input, line, out),
    }
}

/// Runs a client.
fn ask<R: BufRead, W: Write>(
    alloc: Global,
    agreed: Agreed<'_>,
    asking: Asking,
    events: Events<'_, R>,
    out: &mut W,
) -> Result<u8, Fault>
    ensures { IfOk result (λ s. (s ≡ 0) ⊎ (s ≡ 2)) }
{
    match events {
        Events::Whole(input) => ask_text(alloc, agreed, asking, input, out),
        Events::Lines(input, line) => ask_following(alloc, agreed, asking, input, line, out),
    }
}

/// Runs an end whose numbers are kept.
fn run_kept<R: BufRead, W: Write, K: Keeper + Drop>(
    alloc: Global,
    beginning: KeptBeginning,
    keeper: K,
    agreed: Agreed<'_>,
    events: Events<'_, R>,
    out: &mut W,
) -> Result<u8, Fault>
    ensures { IfOk result (λ s. (s ≡ 0) ⊎ (s ≡ 2)) }
{
    match (beginning, events) {
        (KeptBeginning::Server(window), Events::Whole(input)) => {
            serve_kept_text(alloc, agreed, keeper, window, input, out)
        }
        (KeptBeginning::Server(window), Events::Lines(input, line)) => {
            serve_kept_following(alloc, agreed, keeper, window, input, line, out)
        }
        (KeptBeginning::Client(life_ms), Events::Whole(input)) => {
            ask_kept_text(alloc, agreed, keeper, life_ms, input, out)
        }
        (KeptBeginning::Client(life_ms), Events::Lines(input, line)) => {
            ask_kept_following(alloc, agreed, keeper, life_ms, input, line, out)
        }
    }
}

/// Runs a peer. The keeper of the record is made only if the context isn't refused.
fn run_peer<R: BufRead, W: Write, P, G>(
    alloc: Global,
    agreed: Agreed<'_>,
    beginning: PeerBeginning,
    file: &str,
    make: G,
    events: Events<'_, R>,
    out: &mut W,
) -> Result<u8, Fault>
where
    P: RecordKeeper + Drop,
    G: FnOnce(&str, [u8; 8], bool) -> P + Drop,
    requires { G.IsAlwaysCallable make }
    ensures { IfOk result (λ s. (s ≡ 0) ⊎ (s ≡ 2)) }
{
    let Ok(fingerprint) = agreed.fingerprint() else {
        // This prints the refusal.
        return derive_text(alloc, agreed, out);
    };
    let keeper = make(file, fingerprint, beginning.is_first);
    let peering = beginning.peering;
    match events {
        Events::Whole(input) => peer_text(alloc, agreed, keeper, peering, input, out),
        Events::Lines(input, line) => {
            peer_following(alloc, agreed, keeper, peering, input, line, out)
        }
    }
}

/// Runs an end. The keeper of a file is made only for an end that has one.
fn run_end<R: BufRead, W: Write, K, P, F, G>(
    alloc: Global,
    agreed: Agreed<'_>,
    beginning: Beginning,
    matches: &ArgMatches<'_>,
    keepers: Keepers<F, G>,
    events: Events<'_, R>,
    out: &mut W,
) -> Result<u8, Fault>
where
    K: Keeper + Drop,
    P: RecordKeeper + Drop,
    F: FnOnce(&str) -> K + Drop,
    G: FnOnce(&str, [u8; 8], bool) -> P + Drop,
    requires numbers { F.IsAlwaysCallable keepers.numbers }
    requires records { G.IsAlwaysCallable keepers.records }
    ensures { IfOk result (λ s. (s ≡ 0) ⊎ (s ≡ 2)) }
{
    let Keepers { numbers, records } = keepers;
    match beginning {
        Beginning::Server(serving) => serve(alloc, agreed, serving, events, out),
        Beginning::Client(asking) => ask(alloc, agreed, asking, events, out),
        Beginning::Kept(kept) => {
            let file = matches.get_str("numbers").unwrap_or("");
            run_kept(alloc, kept, numbers(file), agreed, events, out)
        }
        Beginning::Peer(peer) => {
            let file = matches.get_str("record").unwrap_or("");
            run_peer(alloc, agreed, peer, file, records, events, out)
        }
    }
}

/// If a line isn't an event, returns the fault that says what is wrong with it.
fn told(alloc: Global, done: Result<u8, Fault>, forms: Forms, input: &[u8]) -> Result<u8, Fault>
    ensures { IfOk result (λ s. done ≡ Ok s) }
{
    match done {
        Err(Fault::Line(line)) => Err(Fault::Usage(event_fault(alloc, line, forms, input)?)),
        done => done,
    }
}

/// If the last line isn't an event, returns the fault that says what is wrong with it.
fn last_told(alloc: Global, done: Result<u8, Fault>, forms: Forms, last: &[u8]) -> Result<u8, Fault>
    ensures { IfOk result (λ s. done ≡ Ok s) }
{
    match done {
        Err(Fault::Line(line)) => Err(Fault::Usage(last_fault(alloc, line, forms, last)?)),
        done => done,
    }
}

/// Runs an end over the lines of an input, one by one.
fn follow_role<R: Read, W: Write, K, P, F, G>(
    alloc: Global,
    agreed: Agreed<'_>,
    matches: &ArgMatches<'_>,
    input: &mut R,
    out: &mut W,
    keepers: Keepers<F, G>,
) -> Result<u8, Fault>
where
    K: Keeper + Drop,
    P: RecordKeeper + Drop,
    F: FnOnce(&str) -> K + Drop,
    G: FnOnce(&str, [u8; 8], bool) -> P + Drop,
    requires numbers { F.IsAlwaysCallable keepers.numbers }
    requires records { G.IsAlwaysCallable keepers.records }
    ensures { IfOk result (λ s. (s ≡ 0) ⊎ (s ≡ 2)) }
{
    let beginning = read_beginning(matches)?;
    let Ok(mut input) = BufReader::new(alloc, input) else {
        return Err(Fault::Memory);
    };
    let mut line = Vec::new(alloc);
    let events = Events::Lines(&mut input, &mut line);
    let done = run_end(alloc, agreed, beginning, matches, keepers, events, out);
    last_told(alloc, done, beginning.forms(), &line)
}

/// Does what `run` asks for, under a context. If the words name a file, the end's numbers are kept in it. Reads the whole input first, if
/// the words don't ask for each entry as soon as its line is read.
pub(crate) fn run_role<R: Read, W: Write, K, P, F, G>(
    alloc: Global,
    agreed: Agreed<'_>,
    matches: &ArgMatches<'_>,
    input: &mut R,
    out: &mut W,
    keepers: Keepers<F, G>,
) -> Result<u8, Fault>
where
    K: Keeper + Drop,
    P: RecordKeeper + Drop,
    F: FnOnce(&str) -> K + Drop,
    G: FnOnce(&str, [u8; 8], bool) -> P + Drop,
    requires numbers { F.IsAlwaysCallable keepers.numbers }
    requires records { G.IsAlwaysCallable keepers.records }
    ensures { IfOk result (λ s. (s ≡ 0) ⊎ (s ≡ 2)) }
{
    if matches.get_flag("follow") {
        return follow_role(alloc, agreed, matches, input, out, keepers);
    }
    let beginning = read_beginning(matches)?;
    let bytes = read_input(alloc, input)?;
    let input = bytes.as_slice();
    let events = Events::<&[u8]>::Whole(input);
    let done = run_end(alloc, agreed, beginning, matches, keepers, events, out);
    told(alloc, done, beginning.forms(), input)
}
