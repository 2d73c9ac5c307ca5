//! How the entries of a server's log print, one per line.

ghost use Rattle.std.specs.Prelude.{◌≡◌, ◌++◌, IfOk, string_bytes};
ghost use Rattle.osc_context.specs.Views.{number_of};
ghost use Rattle.osc_protect.specs.Views.{message_of};
ghost use Rattle.osc_text.specs.ServerLines.{delivery_text, reply_text};
ghost use Rattle.osc_text.specs.ServerLog.{entry_text, seen_text};

use crate::entry_lines::{LogEntry, fault_text, message_text};
use crate::lines::{bytes_text, named, refused_text};
use osc_context::Piv;
use osc_endpoint::{Seen, ServerEntry};
use osc_protect::Opened;
use std::alloc::{AllocError, Global};

/// Returns the text of a delivery: context, number, code, options and payload.
fn delivery_text(
    alloc: Global,
    opened: &Opened<'_>,
    context: usize,
    number: Piv,
) -> Result<String, AllocError>
    ensures { IfOk result (λ text. string_bytes text ≡ delivery_text context (number_of number) (message_of opened.now)) }
{
    let number = number.number();
    let message = message_text(alloc, opened)?;
    format!(in alloc; "deliver {context} {number} {message}")
}

/// Returns the text for what the server made of a datagram.
fn seen_text(alloc: Global, seen: &Seen<'_>) -> Result<String, AllocError>
    ensures { IfOk result (λ text. string_bytes text ≡ seen_text seen.now) }
{
    match seen {
        Seen::Malformed(error) => named(alloc, "malformed", fault_text(alloc, *error)),
        Seen::NotRequest => String::from_str(alloc, "not-request"),
        Seen::Plain => String::from_str(alloc, "plain"),
        Seen::Undecodable => String::from_str(alloc, "undecodable"),
        Seen::NoContext => String::from_str(alloc, "no-context"),
        Seen::Replay => String::from_str(alloc, "replay"),
        Seen::BadTag => String::from_str(alloc, "bad-tag"),
        Seen::BadInner => String::from_str(alloc, "bad-inner"),
        Seen::Challenge { echo, .. } => named(alloc, "challenge", bytes_text(alloc, echo)),
        Seen::SequenceExhausted => String::from_str(alloc, "exhausted"),
        Seen::KeeperFailed => String::from_str(alloc, "keeper-failed"),
        Seen::Deliver {
            opened,
            context,
            number,
        } => delivery_text(alloc, opened, *context, *number),
    }
}

/// Returns the text for what the server made of a datagram, and for the reply, if there is one.
fn took_text(alloc: Global, seen: &Seen<'_>, reply: &[u8]) -> Result<String, AllocError>
    ensures { IfOk result (λ text. string_bytes text ≡ seen_text seen.now ++ reply_text reply.now) }
{
    if reply.is_empty() {
        return seen_text(alloc, seen);
    }
    let seen = seen_text(alloc, seen)?;
    named(alloc, seen.as_str(), bytes_text(alloc, reply))
}

impl LogEntry for ServerEntry<'_> {
    ghost text_of = { entry_text };

    fn text(&self, alloc: Global) -> Result<String, AllocError> {
        match self {
            ServerEntry::Took { seen, reply } => took_text(alloc, seen, reply),
            ServerEntry::Replied(Ok(sealed)) => {
                named(alloc, "replied", bytes_text(alloc, sealed.datagram))
            }
            ServerEntry::Replied(Err(refusal)) => refused_text(alloc, *refusal),
            ServerEntry::NoTicket => String::from_str(alloc, "no-ticket"),
            ServerEntry::BadPlain(error) => named(alloc, "bad-plain", fault_text(alloc, *error)),
            ServerEntry::Dropped(true) => String::from_str(alloc, "dropped"),
            ServerEntry::Dropped(false) => String::from_str(alloc, "no-ticket"),
            ServerEntry::Restarted(Ok(())) => String::from_str(alloc, "restarted"),
            ServerEntry::Restarted(Err(refusal)) => refused_text(alloc, *refusal),
        }
    }
}
