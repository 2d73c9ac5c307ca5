//! How the entries of a peer's log print, one per line.

ghost use Rattle.std.specs.Prelude.{◌≡◌, IfOk, string_bytes};
ghost use Rattle.osc_context.specs.Views.{number_of};
ghost use Rattle.osc_text.specs.PeerLog.{challenge_text, peer_entry_text};

use crate::asked_entries::outcome_text;
use crate::entry_lines::LogEntry;
use crate::lines::{bytes_text, named, refused_text};
use osc_context::Piv;
use osc_fresh::{Challenged, EchoRequestError, Followed};
use osc_peer_runs::PeerEntry;
use std::alloc::{AllocError, Global};

/// Returns the text of a challenge that a client heard: whether it says that its request wasn't obeyed, the number of that request, and the
/// Echo value.
fn challenge_text(
    alloc: Global,
    challenged: &Challenged<'_>,
    number: Piv,
) -> Result<String, AllocError>
    ensures { IfOk result (λ text. string_bytes text
        ≡ challenge_text challenged.now.unobeyed (number_of number) challenged.now.echo.now) }
{
    let number = number.number();
    let echo = bytes_text(alloc, challenged.echo)?;
    if challenged.unobeyed {
        format!(in alloc; "unobeyed {number} {echo}")
    } else {
        format!(in alloc; "perhaps-obeyed {number} {echo}")
    }
}

impl LogEntry for PeerEntry<'_> {
    ghost text_of = { peer_entry_text };

    fn text(&self, alloc: Global) -> Result<String, AllocError> {
        match self {
            PeerEntry::Served(entry) => entry.text(alloc),
            PeerEntry::Challenged(Ok(sealed)) => named(
                alloc,
                "challenged",
                bytes_text(alloc, sealed.datagram),
            ),
            PeerEntry::Challenged(Err(refusal)) => refused_text(alloc, *refusal),
            PeerEntry::Asked(entry) => entry.text(alloc),
            PeerEntry::NoRoomForEcho => refused_text(alloc, EchoRequestError::NoRoomForEcho),
            PeerEntry::Followed(Followed::Challenged(challenged, number)) => {
                challenge_text(alloc, challenged, *number)
            }
            PeerEntry::Followed(Followed::Heard(outcome)) => outcome_text(alloc, outcome),
            PeerEntry::Advanced => String::from_str(alloc, "advanced"),
        }
    }
}
