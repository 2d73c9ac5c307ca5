//! The command on any streams.

ghost use Rattle.std.specs.Prelude.{◌≡◌, ◌≢◌, ◌⊎◌, IfOk, Ok, true};
ghost use Rattle.clap.specs.Matches.{has_subcommand};

use crate::context_words::ContextWords;
use crate::fault_text::{put_fault, put_help, usage_text};
use crate::quoting::quoted_words;
use crate::run_ends::run_role;
use crate::words::{input_fault, optional_number, read_words, required_bytes};
use clap::error::ErrorKind;
use clap::{ArgMatches, Error};
use osc_context::{Keeper, Piv, RecordKeeper};
use osc_protect::RequestRef;
use osc_text::{
    Agreed, Fault, Opening, Sealing, Wrong, derive_text, explain_text, forward_text, open_text,
    protect_text,
};
use std::alloc::Global;
use std::io::{Read, Write};

/// What makes the keepers of the files that the words of a call name. Each is called only if the words name such a file.
#[derive(Drop)]
pub struct Keepers<F, G> {
    /// Makes the keeper of a file of `--numbers`.
    pub numbers: F,
    /// Makes the keeper of a record of `--record`, which is marked with this fingerprint of a context. The record is opened, or made for an
    /// end that was never used if this says so.
    pub records: G,
}

/// Returns the request of this number, as the words name it.
fn named_request(matches: &ArgMatches<'_>, number: Piv) -> RequestRef {
    if matches.get_flag("registers") {
        RequestRef::registering(number)
    } else {
        RequestRef::new(number)
    }
}

/// Reads what a datagram has to be opened as: a response, if the words name the request that it answers.
fn read_opening(matches: &ArgMatches<'_>) -> Result<Opening, Fault> {
    match optional_number(matches, "request", "--request")? {
        Some(number) => Ok(Opening::Response(named_request(matches, number))),
        None => Ok(Opening::Request),
    }
}

/// Reads what a plain datagram has to be sealed as: a response if the words name the request that it answers, otherwise a request. A
/// request needs a number.
fn read_sealing(matches: &ArgMatches<'_>) -> Result<Sealing, Fault> {
    let own = optional_number(matches, "sequence", "--sequence")?;
    match (optional_number(matches, "request", "--request")?, own) {
        (Some(number), own) => Ok(Sealing::Response {
            request: named_request(matches, number),
            own,
        }),
        (None, Some(number)) => Ok(Sealing::Request(number)),
        (None, None) => Err(input_fault("--sequence", Wrong::Missing)),
    }
}

/// What a call does with its datagram, under a context.
#[derive(Clone, Copy)]
enum What {
    Open(Opening),
    Protect(Sealing),
    /// Seals a request with this number, which goes through a forward proxy.
    Forward(Piv),
}

/// Reads what a call seals its datagram as, and whether that goes through a forward proxy.
fn read_protecting(matches: &ArgMatches<'_>) -> Result<What, Fault> {
    match read_sealing(matches)? {
        Sealing::Request(number) if matches.get_flag("proxy") => Ok(What::Forward(number)),
        sealing => Ok(What::Protect(sealing)),
    }
}

/// Opens or seals the datagram of a call.
fn run_datagram<W: Write>(
    alloc: Global,
    agreed: Agreed<'_>,
    what: What,
    matches: &ArgMatches<'_>,
    out: &mut W,
) -> Result<u8, Fault>
    ensures { IfOk result (λ s. (s ≡ 0) ⊎ (s ≡ 2)) }
{
    let mut datagram = required_bytes(alloc, matches, "datagram", "DATAGRAM")?;
    match what {
        What::Open(opening) => open_text(alloc, agreed, opening, datagram.as_mut_slice(), out),
        What::Protect(sealing) => protect_text(alloc, agreed, sealing, datagram.as_slice(), out),
        What::Forward(number) => forward_text(alloc, agreed, number, datagram.as_slice(), out),
    }
}

/// Does what `explain` asks for.
fn run_explain<W: Write>(alloc: Global, matches: &ArgMatches<'_>, out: &mut W) -> Result<u8, Fault>
    ensures { IfOk result (λ s. (s ≡ 0) ⊎ (s ≡ 2)) }
{
    let datagram = required_bytes(alloc, matches, "datagram", "DATAGRAM")?;
    explain_text(alloc, datagram.as_slice(), out)
}

/// Does what a call with this name asks for, under a context.
fn run_under<W: Write>(
    alloc: Global,
    agreed: Agreed<'_>,
    name: &str,
    matches: &ArgMatches<'_>,
    out: &mut W,
) -> Result<u8, Fault>
    ensures { IfOk result (λ s. (s ≡ 0) ⊎ (s ≡ 2)) }
{
    match name {
        "derive" => derive_text(alloc, agreed, out),
        "open" => {
            let what = What::Open(read_opening(matches)?);
            run_datagram(alloc, agreed, what, matches, out)
        }
        "protect" => {
            let what = read_protecting(matches)?;
            run_datagram(alloc, agreed, what, matches, out)
        }
        // There is no other call. clap answers `help` by itself.
        _ => Err(input_fault("the call", Wrong::Unknown)),
    }
}

/// Does what a call over one datagram, or over none, asks for.
fn run_once<W: Write>(
    alloc: Global,
    name: &str,
    matches: &ArgMatches<'_>,
    out: &mut W,
) -> Result<u8, Fault>
    ensures { IfOk result (λ s. (s ≡ 0) ⊎ (s ≡ 2)) }
{
    if name == "explain" {
        return run_explain(alloc, matches, out);
    }
    let context = ContextWords::read(alloc, matches)?;
    run_under(alloc, context.agreed(), name, matches, out)
}

/// Does what a call asks for, depending on its name.
fn run_called<R: Read, W: Write, K, P, F, G>(
    alloc: Global,
    matches: &ArgMatches<'_>,
    input: &mut R,
    out: &mut W,
    keepers: Keepers<F, G>,
) -> Result<u8, Fault>
where
    K: Keeper + Drop,
    P: RecordKeeper + Drop,
    F: FnOnce(&str) -> K + Drop,
    G: FnOnce(&str, [u8; 8], bool) -> P + Drop,
    requires named { has_subcommand matches.now ≡ true }
    requires numbers { F.IsAlwaysCallable keepers.numbers }
    requires records { G.IsAlwaysCallable keepers.records }
    ensures { IfOk result (λ s. (s ≡ 0) ⊎ (s ≡ 2)) }
{
    match matches.subcommand() {
        Some(("run", inner)) => {
            let context = ContextWords::read(alloc, inner)?;
            run_role(alloc, context.agreed(), inner, input, out, keepers)
        }
        Some((name, inner)) => run_once(alloc, name, inner, out),
        None => unreachable!(),
    }
}

/// Returns the fault of words that are no call. clap quotes a word as it was read. So the words are read once more, spelled as a fault
/// quotes them: they are no call then either.
fn usage_fault(alloc: Global, words: &[String]) -> Result<Fault, Fault> {
    let words = quoted_words(alloc, words)?;
    match read_words(alloc, words.as_slice()) {
        Ok(_) => Ok(input_fault("the call", Wrong::Unknown)),
        Err(error) => Ok(Fault::Usage(usage_text(alloc, &error)?)),
    }
}

/// Prints the help or the version that was asked for, or returns the fault of the words.
fn answer_no_call<W: Write>(
    alloc: Global,
    words: &[String],
    error: &Error,
    out: &mut W,
) -> Result<u8, Fault>
    ensures { IfOk result (λ s. s ≡ 0) }
{
    match error.kind() {
        ErrorKind::OutOfMemory => Err(Fault::Memory),
        ErrorKind::DisplayHelp | ErrorKind::DisplayVersion => {
            put_help(alloc, error, out)?;
            Ok(0)
        }
        _ => Err(usage_fault(alloc, words)?),
    }
}

/// Does what the words ask for.
fn run<R: Read, W: Write, K, P, F, G>(
    alloc: Global,
    words: &[String],
    input: &mut R,
    out: &mut W,
    keepers: Keepers<F, G>,
) -> Result<u8, Fault>
where
    K: Keeper + Drop,
    P: RecordKeeper + Drop,
    F: FnOnce(&str) -> K + Drop,
    G: FnOnce(&str, [u8; 8], bool) -> P + Drop,
    requires numbers { F.IsAlwaysCallable keepers.numbers }
    requires records { G.IsAlwaysCallable keepers.records }
    ensures { IfOk result (λ s. (s ≡ 0) ⊎ (s ≡ 2)) }
{
    match read_words(alloc, words) {
        Ok(matches) => run_called(alloc, &matches, input, out, keepers),
        Err(error) => answer_no_call(alloc, words, &error, out),
    }
}

/// Prints a fault in one line, and returns its status.
pub fn report<E: Write>(fault: &Fault, err: &mut E) -> u8
    ensures { result ≡ 1 }
{
    put_fault(fault, err);
    1
}

/// Does what the words ask for. The first word is the program's name. Returns the status: 0 if the call is done, 2 if what it was applied
/// to is refused, 1 if there is a fault, which stands on `err` in one line. `keepers` makes the keeper of a file, if the words name one.
pub fn command<R: Read, W: Write, E: Write, K, P, F, G>(
    alloc: Global,
    words: &[String],
    input: &mut R,
    out: &mut W,
    err: &mut E,
    keepers: Keepers<F, G>,
) -> u8
where
    K: Keeper + Drop,
    P: RecordKeeper + Drop,
    F: FnOnce(&str) -> K + Drop,
    G: FnOnce(&str, [u8; 8], bool) -> P + Drop,
    requires numbers { F.IsAlwaysCallable keepers.numbers }
    requires records { G.IsAlwaysCallable keepers.records }
    ensures status { (result ≡ 0) ⊎ ((result ≡ 1) ⊎ (result ≡ 2)) }
    ensures quiet { result ≢ 1 → err.new ≡ err.old }
{
    match run(alloc, words, input, out, keepers) {
        Ok(status) => status,
        Err(fault) => report(&fault, err),
    }
}
