//! What the printed entries of a server's log and of a client's log have in common. They print one per line.

ghost use Rattle.std.specs.Prelude.{◌≡◌, ◌∷◌, ◌++◌, [], ℕ, List, IfOk, IfSome, IsOk, map, string_bytes};
ghost use Rattle.osc_coap.specs.Views.{options_left};
ghost use Rattle.osc_protect.specs.Views.{message_of};
ghost use Rattle.osc_text.specs.EntryLines.{entry_line, fault_text, message_text, more_options_text, not_done_line, option_text, options_text, replaced_line};
ghost use Rattle.osc_text.specs.Written.{Writes};

use crate::fault::Fault;
use crate::lines::{bytes_text, code_text, named, put_line, refused_text};
use osc_coap::{FormatError, Options};
use osc_protect::Opened;
use std::alloc::{AllocError, Global};
use std::fmt::Display;
use std::io::Write;

/// A log entry, which prints as one line.
pub(crate) trait LogEntry {
    // The entry's line, without the newline.
    ghost text_of: { Self → List ℕ };

    fn text(&self, alloc: Global) -> Result<String, AllocError>
        ensures { IfOk result (λ text. string_bytes text ≡ text_of self.now) };
}

/// Returns the text of a fault and its place.
pub(crate) fn fault_text(alloc: Global, error: FormatError) -> Result<String, AllocError>
    ensures { IfOk result (λ text. string_bytes text ≡ fault_text error.fault error.place) }
{
    let (fault, place) = (error.fault, error.place);
    format!(in alloc; "{fault} {place}")
}

/// Returns the text of an option: its number and its value.
fn option_text(alloc: Global, number: u16, value: &[u8]) -> Result<String, AllocError>
    ensures { IfOk result (λ text. string_bytes text ≡ option_text (number, value.now)) }
{
    let value = bytes_text(alloc, value)?;
    format!(in alloc; "{number}:{value}")
}

/// Appends the options after the first one to the first one's text, with a comma before each.
fn with_more_options(
    alloc: Global,
    mut text: String,
    options: Options<'_>,
) -> Result<String, AllocError>
    ensures { IfOk result (λ whole. string_bytes whole ≡ string_bytes text ++ more_options_text (options_left options.entry)) }
{
    for (number, value) in options {
        let option = option_text(alloc, number, value)?;
        text.push_str(",")?;
        text.push_str(option.as_str())?;
    }
    Ok(text)
}

/// Returns the options joined by commas, or a dash if there are none.
fn options_text(alloc: Global, mut options: Options<'_>) -> Result<String, AllocError>
    ensures { IfOk result (λ text. string_bytes text ≡ options_text (options_left options.entry)) }
{
    match options.next() {
        Some((number, value)) => {
            let first = option_text(alloc, number, value)?;
            with_more_options(alloc, first, options)
        }
        None => String::from_str(alloc, "-"),
    }
}

/// Returns the text of what a delivery says: code, options and payload.
pub(crate) fn message_text(alloc: Global, opened: &Opened<'_>) -> Result<String, AllocError>
    ensures { IfOk result (λ text. string_bytes text ≡ message_text (message_of opened.now)) }
{
    let code = code_text(alloc, opened.code)?;
    let options = options_text(alloc, opened.inner())?;
    let payload = bytes_text(alloc, opened.payload);
    named(
        alloc,
        code.as_str(),
        named(alloc, options.as_str(), payload),
    )
}

/// Writes the line of an entry.
pub(crate) fn put_entry<L: LogEntry, W: Write>(
    alloc: Global,
    entry: &L,
    out: &mut W,
) -> Result<(), Fault>
    ensures { Writes (W.contents out.old) (W.contents out.new) (entry_line (L.text_of entry.now) ∷ []) result }
{
    put_line(alloc, entry.text(alloc), out)
}

/// Writes the line of another context in the place of an end's.
pub(crate) fn put_replaced<W: Write>(alloc: Global, out: &mut W) -> Result<(), Fault>
    ensures { Writes (W.contents out.old) (W.contents out.new) (replaced_line ∷ []) result }
{
    put_line(alloc, String::from_str(alloc, "replaced"), out)
}

/// Writes the line of what an end refused.
pub(crate) fn put_not_done<D: Display + Drop, W: Write>(
    alloc: Global,
    refusal: D,
    out: &mut W,
) -> Result<(), Fault>
    ensures { IfSome (D.output refusal)
        (λ name. Writes (W.contents out.old) (W.contents out.new) (not_done_line name ∷ []) result) }
{
    put_line(alloc, refused_text(alloc, refusal), out)
}

/// Writes the line of each entry, in order.
fn put_entries<L: LogEntry, W: Write>(alloc: Global, log: &[L], out: &mut W) -> Result<(), Fault>
    ensures { Writes (W.contents out.old) (W.contents out.new) (map (λ entry. entry_line (L.text_of entry)) log.now) result }
{
    for entry in log {
        put_entry(alloc, entry, out)?;
    }
    Ok(())
}

/// Writes the lines of a log, and returns status 0 if the run that made the log came to its end.
pub(crate) fn write_log<L: LogEntry, W: Write>(
    alloc: Global,
    log: &[L],
    ran: Result<(), AllocError>,
    out: &mut W,
) -> Result<u8, Fault>
    ensures written { Writes (W.contents out.old) (W.contents out.new)
        (map (λ entry. entry_line (L.text_of entry)) log.now) result }
    ensures whole { IfOk result (λ status. (status ≡ 0) × IsOk ran) }
{
    put_entries(alloc, log, out)?;
    ran?;
    Ok(0)
}
