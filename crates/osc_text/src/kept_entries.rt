//! How the log entries of an end whose numbers are kept print, one per line.

ghost use Rattle.std.specs.Prelude.{◌≡◌, IfOk, string_bytes};
ghost use Rattle.osc_text.specs.KeptLog.{kept_asked_text, kept_text, restart_text};

use crate::entry_lines::LogEntry;
use crate::lines::refused_text;
use osc_kept_ends::KeptError;
use osc_kept_runs::{KeptClientEntry, KeptServerEntry};
use std::alloc::{AllocError, Global};

/// Returns the text that says whether an end was restarted.
fn restart_text(alloc: Global, restarted: Result<(), KeptError>) -> Result<String, AllocError>
    ensures { IfOk result (λ text. string_bytes text ≡ restart_text restarted) }
{
    match restarted {
        Ok(()) => String::from_str(alloc, "restarted"),
        Err(refusal) => refused_text(alloc, refusal),
    }
}

impl LogEntry for KeptServerEntry<'_> {
    ghost text_of = { kept_text };

    fn text(&self, alloc: Global) -> Result<String, AllocError> {
        match self {
            KeptServerEntry::Served(entry) => entry.text(alloc),
            KeptServerEntry::Restarted(restarted) => restart_text(alloc, *restarted),
        }
    }
}

impl LogEntry for KeptClientEntry<'_> {
    ghost text_of = { kept_asked_text };

    fn text(&self, alloc: Global) -> Result<String, AllocError> {
        match self {
            KeptClientEntry::Asked(entry) => entry.text(alloc),
            KeptClientEntry::Restarted(restarted) => restart_text(alloc, *restarted),
        }
    }
}
