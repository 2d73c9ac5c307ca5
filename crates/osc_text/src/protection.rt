//! What `protect` prints.

ghost use Rattle.std.specs.Prelude.{◌≡◌, ◌≤◌, ◌⊎◌, ℕ, List, length, IfOk};
ghost use Rattle.osc_coap.specs.Views.{parts_of};
ghost use Rattle.osc_context.specs.Views.{as_client, as_server};

use crate::agreed::Agreed;
use crate::fault::Fault;
use crate::lines::{put_hex, put_refused};
use osc_coap::{MOST_DATAGRAM, Message, one_datagram, parse};
use osc_context::{Context, Piv, one_context_refusal};
use osc_protect::{ProtectError, RequestRef, one_sealed, seal_request, seal_response};
use std::alloc::Global;
use std::io::Write;

/// What a plain datagram is sealed as.
#[derive(Clone, Copy, Debug)]
pub enum Sealing {
    /// A request with this number, sealed by its client.
    Request(Piv),
    /// A response to a request, under a Partial IV of its own of the server or under none.
    Response {
        request: RequestRef,
        own: Option<Piv>,
    },
}

ghost use Rattle.osc_text.specs.Protecting.{PlainText, ProtectText, SealingText};
ghost use Rattle.osc_text.specs.Outcomes.{seal_lines, seal_status};
ghost use Rattle.osc_text.specs.Written.{Writes};

/// Derives a context, and seals a plain datagram as a request or as a response. Writes the sealed datagram in hex, on one line, or the one
/// line of a refusal: the context's refusal comes before the datagram's. This end is the sender of the context. Returns the status: 0 if
/// the datagram is sealed, 2 if it or the context is refused. Builds the line completely before writing it. The caller keeps each number
/// fresh, and seals at most one response without a Partial IV of its own to a request.
pub fn protect_text<W: Write>(
    alloc: Global,
    agreed: Agreed<'_>,
    what: Sealing,
    plain: &[u8],
    out: &mut W,
) -> Result<u8, Fault>
    // Each datagram has a text. The next two clauses say that this text is what is written.
    ensures told { (lines : List (List ℕ)) × (status : ℕ) × ProtectText agreed.entry what plain.now lines status }
    ensures written { (lines : List (List ℕ)) (status : ℕ) → ProtectText agreed.entry what plain.now lines status
        → Writes (W.contents out.old) (W.contents out.new) lines result }
    ensures status { (lines : List (List ℕ)) (status : ℕ) → ProtectText agreed.entry what plain.now lines status
        → IfOk result (λ s. s ≡ status) }
    ensures two { IfOk result (λ s. (s ≡ 0) ⊎ (s ≡ 2)) }
{
    // For the proof alone.
    one_context_refusal();
    one_sealed();
    one_datagram();
    write_protection(alloc, agreed, what, plain, out)
}

/// Writes what a plain datagram is sealed to, or the refusal of the datagram or of the context.
fn write_protection<W: Write>(
    alloc: Global,
    agreed: Agreed<'_>,
    what: Sealing,
    plain: &[u8],
    out: &mut W,
) -> Result<u8, Fault>
    ensures { (lines : List (List ℕ)) × (status : ℕ) × ProtectText agreed.entry what plain.now lines status
        × Writes (W.contents out.old) (W.contents out.new) lines result × IfOk result (λ s. s ≡ status) }
{
    match agreed.derive() {
        Ok(context) => write_plain(alloc, &context, what, plain, out),
        Err(refusal) => put_refused(alloc, refusal, out),
    }
}

/// Writes what a plain datagram is sealed to under a context, or its refusal.
fn write_plain<W: Write>(
    alloc: Global,
    context: &Context,
    what: Sealing,
    plain: &[u8],
    out: &mut W,
) -> Result<u8, Fault>
    ensures { (lines : List (List ℕ)) × (status : ℕ)
        × PlainText (SealingText (as_client context.now) (as_server context.now) what) plain.now lines status
        × Writes (W.contents out.old) (W.contents out.new) lines result × IfOk result (λ s. s ≡ status) }
{
    match parse(plain) {
        Ok(message) => write_message(alloc, context, what, &message, out),
        Err(refusal) => put_refused(alloc, refusal, out),
    }
}

/// Writes what a message is sealed to under a context, or its refusal. There is room for any datagram.
fn write_message<W: Write>(
    alloc: Global,
    context: &Context,
    what: Sealing,
    message: &Message<'_>,
    out: &mut W,
) -> Result<u8, Fault>
    ensures { (lines : List (List ℕ)) × (status : ℕ)
        × SealingText (as_client context.now) (as_server context.now) what (parts_of message.now) lines status
        × Writes (W.contents out.old) (W.contents out.new) lines result × IfOk result (λ s. s ≡ status) }
{
    let mut sealed = [0u8; MOST_DATAGRAM];
    match what {
        Sealing::Request(number) => {
            let outcome = seal_request(context, number, message, &mut sealed);
            write_outcome(alloc, outcome, &sealed, out)
        }
        Sealing::Response { request, own } => {
            let outcome = seal_response(context, &request, own, message, &mut sealed);
            write_outcome(alloc, outcome, &sealed, out)
        }
    }
}

/// Writes the result of sealing: the sealed bytes, which are at the front of the buffer, or the refusal.
fn write_outcome<W: Write>(
    alloc: Global,
    outcome: Result<usize, ProtectError>,
    buffer: &[u8],
    out: &mut W,
) -> Result<u8, Fault>
    requires within { IfOk outcome (λ len. len ≤ length buffer.now) }
    ensures written { Writes (W.contents out.old) (W.contents out.new) (seal_lines buffer.now outcome) result }
    ensures status { IfOk result (λ s. s ≡ seal_status outcome) }
{
    match outcome {
        Ok(len) => {
            put_hex(alloc, &buffer[..len], out)?;
            Ok(0)
        }
        Err(refusal) => put_refused(alloc, refusal, out),
    }
}
