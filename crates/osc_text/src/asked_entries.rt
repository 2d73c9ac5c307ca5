//! How the entries of a client's log print, one per line.

ghost use Rattle.std.specs.Prelude.{◌≡◌, IfOk, string_bytes};
ghost use Rattle.osc_context.specs.Views.{number_of};
ghost use Rattle.osc_protect.specs.Views.{message_of, opened_number};
ghost use Rattle.osc_text.specs.ClientLines.{response_text, sent_text};
ghost use Rattle.osc_text.specs.ClientLog.{asked_text, outcome_text};

use crate::entry_lines::{LogEntry, fault_text, message_text};
use crate::lines::{bytes_text, named, number_text, refused_text};
use osc_context::Piv;
use osc_endpoint::{ClientEntry, ClientOutcome};
use osc_protect::Opened;
use std::alloc::{AllocError, Global};

/// Returns the text of a response: the request's number, its own Partial IV or a dash if it has none, code, options and payload.
fn response_text(alloc: Global, opened: &Opened<'_>, number: Piv) -> Result<String, AllocError>
    ensures { IfOk result (λ text. string_bytes text
        ≡ response_text (number_of number) (opened_number opened.now) (message_of opened.now)) }
{
    let number = number.number();
    let own = number_text(alloc, opened.piv)?;
    let message = message_text(alloc, opened)?;
    format!(in alloc; "{number} {own} {message}")
}

/// Returns the text for what the client made of a datagram.
pub(crate) fn outcome_text(alloc: Global, outcome: &ClientOutcome<'_>) -> Result<String, AllocError>
    ensures { IfOk result (λ text. string_bytes text ≡ outcome_text outcome.now) }
{
    match outcome {
        ClientOutcome::Malformed(error) => named(alloc, "malformed", fault_text(alloc, *error)),
        ClientOutcome::NotResponse => String::from_str(alloc, "not-response"),
        ClientOutcome::UnknownToken => String::from_str(alloc, "unknown-token"),
        ClientOutcome::Unprotected => String::from_str(alloc, "unprotected"),
        ClientOutcome::Undecodable => String::from_str(alloc, "undecodable"),
        ClientOutcome::BadTag => String::from_str(alloc, "bad-tag"),
        ClientOutcome::BadInner => String::from_str(alloc, "bad-inner"),
        ClientOutcome::Old => String::from_str(alloc, "old"),
        ClientOutcome::Notified(opened, number) => {
            named(alloc, "notified", response_text(alloc, opened, *number))
        }
        ClientOutcome::Deliver(opened, number) => {
            named(alloc, "deliver", response_text(alloc, opened, *number))
        }
    }
}

/// Returns the text of a sealed request: its number and its bytes.
fn sent_text(alloc: Global, number: Piv, datagram: &[u8]) -> Result<String, AllocError>
    ensures { IfOk result (λ text. string_bytes text ≡ sent_text (number_of number) datagram.now) }
{
    let number = number.number();
    let bytes = bytes_text(alloc, datagram)?;
    format!(in alloc; "sent {number} {bytes}")
}

impl LogEntry for ClientEntry<'_> {
    ghost text_of = { asked_text };

    fn text(&self, alloc: Global) -> Result<String, AllocError> {
        match self {
            ClientEntry::Sent { number, datagram } => sent_text(alloc, *number, datagram),
            ClientEntry::NotSent(refusal) => refused_text(alloc, *refusal),
            ClientEntry::BadPlain(error) => named(alloc, "bad-plain", fault_text(alloc, *error)),
            ClientEntry::Took(outcome) => outcome_text(alloc, outcome),
            ClientEntry::Forgot(true) => String::from_str(alloc, "forgotten"),
            ClientEntry::Forgot(false) => String::from_str(alloc, "not-pending"),
            ClientEntry::Restarted => String::from_str(alloc, "restarted"),
        }
    }
}
