//! What `explain` prints.

ghost use Rattle.std.specs.Prelude.{◌≡◌, ◌⊎◌, ℕ, List, IfOk};
ghost use Rattle.osc_coap.specs.Views.{parts_of};
ghost use Rattle.osc_text.specs.Explanation.{ExplainText, MessageText, message_lines};
ghost use Rattle.osc_text.specs.Written.{Writes};

use crate::fault::Fault;
use crate::lines::{put_bytes, put_head, put_options, put_refused};
use crate::oscore_lines::put_values;
use osc_coap::{Message, one_datagram, parse};
use osc_context::value_or_refusal;
use std::alloc::Global;
use std::io::Write;

/// Reads a datagram, and writes what it shows without a key, one part per line, and one more line for each OSCORE option, or writes the one
/// line of a refusal. Returns the status: 0 if the datagram is read, 2 if it is refused. A refused OSCORE option gives a line, and isn't a
/// refusal of the datagram. Builds each line completely before writing it.
pub fn explain_text<W: Write>(alloc: Global, datagram: &[u8], out: &mut W) -> Result<u8, Fault>
    // Each datagram has a text. The next two clauses say that this text is what is written.
    ensures told { (lines : List (List ℕ)) × (status : ℕ) × ExplainText datagram.now lines status }
    ensures written { (lines : List (List ℕ)) (status : ℕ) → ExplainText datagram.now lines status
        → Writes (W.contents out.old) (W.contents out.new) lines result }
    ensures status { (lines : List (List ℕ)) (status : ℕ) → ExplainText datagram.now lines status
        → IfOk result (λ s. s ≡ status) }
    ensures two { IfOk result (λ s. (s ≡ 0) ⊎ (s ≡ 2)) }
{
    // For the proof alone.
    one_datagram();
    value_or_refusal();
    write_explanation(alloc, datagram, out)
}

/// Writes what a datagram shows, or its refusal.
fn write_explanation<W: Write>(alloc: Global, datagram: &[u8], out: &mut W) -> Result<u8, Fault>
    ensures { (lines : List (List ℕ)) (status : ℕ) → ExplainText datagram.now lines status
        → Writes (W.contents out.old) (W.contents out.new) lines result × IfOk result (λ s. s ≡ status) }
{
    match parse(datagram) {
        Ok(message) => {
            put_explained(alloc, &message, out)?;
            Ok(0)
        }
        Err(refusal) => put_refused(alloc, refusal, out),
    }
}

/// Writes what a message says, and then what its OSCORE options say.
fn put_explained<W: Write>(alloc: Global, message: &Message<'_>, out: &mut W) -> Result<(), Fault>
    ensures { (lines : List (List ℕ)) → MessageText (parts_of message.now) lines
        → Writes (W.contents out.old) (W.contents out.new) lines result }
{
    put_message(alloc, message, out)?;
    put_values(alloc, message.options(), out)
}

/// Writes what a message says, one part per line.
fn put_message<W: Write>(alloc: Global, message: &Message<'_>, out: &mut W) -> Result<(), Fault>
    ensures { Writes (W.contents out.old) (W.contents out.new) (message_lines (parts_of message.now)) result }
{
    put_head(
        alloc,
        message.kind,
        message.message_id,
        &message.token,
        message.code,
        out,
    )?;
    put_options(alloc, message.options(), out)?;
    put_bytes(alloc, "payload", message.payload(), out)
}
