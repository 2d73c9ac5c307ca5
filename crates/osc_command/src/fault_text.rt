//! What the command itself prints: help, and the line of a fault.

use osc_text::Fault;
use std::alloc::{AllocError, Global};
use std::io::Write;

/// Writes the help or the version that was asked for.
pub(crate) fn put_help<W: Write>(
    alloc: Global,
    help: &clap::Error,
    out: &mut W,
) -> Result<(), Fault> {
    let text = format!(in alloc; "{help}")?;
    out.write_all(text.as_bytes())?;
    Ok(())
}

/// Returns what is wrong with the words, on one line: the first lines of clap's text, up to an empty one, and its tips.
pub(crate) fn usage_text(alloc: Global, error: &clap::Error) -> Result<String, AllocError> {
    let text = format!(in alloc; "{error}")?;
    let text = text.as_str();
    let mut joined = String::new(alloc);
    let mut is_over = false;
    for line in text.strip_prefix("error: ").unwrap_or(text).lines() {
        if line.is_empty() {
            is_over = true;
            continue;
        }
        let is_tip = line.starts_with("  tip: ");
        if is_over && !is_tip {
            return Ok(joined);
        }
        joined.push_str(before(is_tip, joined.is_empty()))?;
        joined.push_str(line.trim())?;
    }
    Ok(joined)
}

/// Returns what stands before a line of clap's text that is joined to the lines before it.
fn before(is_tip: bool, is_first: bool) -> &'static str {
    match (is_tip, is_first) {
        (true, _) => "; ",
        (false, true) => "",
        (false, false) => " ",
    }
}

/// Writes the line of a fault. If the writer fails here, nobody is told.
pub(crate) fn put_fault<W: Write>(fault: &Fault, err: &mut W) {
    let _ = writeln!(err, "oscore: {fault}");
}
