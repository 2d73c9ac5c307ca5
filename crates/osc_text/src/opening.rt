//! What `open` prints.

ghost use Rattle.std.specs.Prelude.{◌≡◌, ◌⊎◌, ℕ, List, IfOk};
ghost use Rattle.osc_context.specs.Views.{as_client, as_server};

use crate::agreed::Agreed;
use crate::fault::Fault;
use crate::lines::{put_opened, put_refused};
use osc_coap::one_datagram;
use osc_context::{Context, one_context_refusal};
use osc_protect::{
    Opened, RequestRef, UnprotectError, one_notification, one_request, one_response, open_request,
    open_response,
};
use std::alloc::Global;
use std::io::Write;

/// What a datagram is opened as.
#[derive(Clone, Copy, Debug)]
pub enum Opening {
    /// A request, opened by its server.
    Request,
    /// A response to this request, opened by its client.
    Response(RequestRef),
}

ghost use Rattle.osc_text.specs.Opening.{OpenText, OpeningText};
ghost use Rattle.osc_text.specs.Outcomes.{open_lines, open_status};
ghost use Rattle.osc_text.specs.Written.{Writes};

/// Derives a context, and opens a request or a response in its datagram. Writes what it says, one part per line, or the one line of a
/// refusal: the context's refusal comes before the datagram's. This end is the sender of the context. Returns the status: 0 if the datagram
/// opens, 2 if it or the context is refused. Builds each line completely before writing it. Leaves the datagram as `open_request` and
/// `open_response` leave it.
pub fn open_text<W: Write>(
    alloc: Global,
    agreed: Agreed<'_>,
    what: Opening,
    datagram: &mut [u8],
    out: &mut W,
) -> Result<u8, Fault>
    // Each datagram has a text. The next two clauses say that this text is what is written.
    ensures told { (lines : List (List ℕ)) × (status : ℕ) × OpenText agreed.entry what datagram.old lines status }
    ensures written { (lines : List (List ℕ)) (status : ℕ) → OpenText agreed.entry what datagram.old lines status
        → Writes (W.contents out.old) (W.contents out.new) lines result }
    ensures status { (lines : List (List ℕ)) (status : ℕ) → OpenText agreed.entry what datagram.old lines status
        → IfOk result (λ s. s ≡ status) }
    ensures two { IfOk result (λ s. (s ≡ 0) ⊎ (s ≡ 2)) }
{
    // For the proof alone.
    one_context_refusal();
    one_request();
    one_response();
    one_notification();
    one_datagram();
    write_opening(alloc, agreed, what, datagram, out)
}

/// Writes what a datagram says, or the refusal of the datagram or of the context.
fn write_opening<W: Write>(
    alloc: Global,
    agreed: Agreed<'_>,
    what: Opening,
    datagram: &mut [u8],
    out: &mut W,
) -> Result<u8, Fault>
    ensures { (lines : List (List ℕ)) × (status : ℕ) × OpenText agreed.entry what datagram.old lines status
        × Writes (W.contents out.old) (W.contents out.new) lines result × IfOk result (λ s. s ≡ status) }
{
    match agreed.derive() {
        Ok(context) => write_datagram(alloc, &context, what, datagram, out),
        Err(refusal) => put_refused(alloc, refusal, out),
    }
}

/// Writes what a datagram says under a context, or its refusal.
fn write_datagram<W: Write>(
    alloc: Global,
    context: &Context,
    what: Opening,
    datagram: &mut [u8],
    out: &mut W,
) -> Result<u8, Fault>
    ensures { (lines : List (List ℕ)) × (status : ℕ)
        × OpeningText (as_client context.now) (as_server context.now) what datagram.old lines status
        × Writes (W.contents out.old) (W.contents out.new) lines result × IfOk result (λ s. s ≡ status) }
{
    match what {
        Opening::Request => write_outcome(alloc, open_request(context, datagram), out),
        Opening::Response(request) => {
            write_outcome(alloc, open_response(context, &request, datagram), out)
        }
    }
}

/// Writes the result of opening: what was opened, or the refusal.
fn write_outcome<W: Write>(
    alloc: Global,
    outcome: Result<Opened<'_>, UnprotectError>,
    out: &mut W,
) -> Result<u8, Fault>
    ensures written { Writes (W.contents out.old) (W.contents out.new) (open_lines outcome.entry) result }
    ensures status { IfOk result (λ s. s ≡ open_status outcome.entry) }
{
    match outcome {
        Ok(opened) => {
            put_opened(alloc, &opened, out)?;
            Ok(0)
        }
        Err(refusal) => put_refused(alloc, refusal, out),
    }
}
