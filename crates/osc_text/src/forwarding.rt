//! What `protect --proxy` prints.

ghost use Rattle.std.specs.Prelude.{◌≡◌, ◌≤◌, ◌⊎◌, ℕ, List, length, IfOk};
ghost use Rattle.osc_coap.specs.Datagram.{IsDatagram, Parts};
ghost use Rattle.osc_context.specs.Views.{as_client, number_of};
ghost use Rattle.osc_text.specs.Forwarding.{AskedText, ForwardText, RoutedText, SplitText};
ghost use Rattle.osc_text.specs.Outcomes.{ask_lines, ask_status};
ghost use Rattle.osc_text.specs.Written.{Writes};

use crate::agreed::Agreed;
use crate::fault::Fault;
use crate::lines::{put_hex, put_refused};
use osc_coap::{MOST_DATAGRAM, one_datagram, parse};
use osc_context::{Context, Piv};
use osc_protect::seal_request;
use osc_proxy::{AskProxyError, ask_proxy, split_proxy_uri};
use std::alloc::Global;
use std::io::Write;

/// Derives a context, splits the Proxy-Uri of a plain request, seals the request that this makes as the client, and puts the URI's scheme
/// in as Proxy-Scheme (RFC 8613, 4.1.3.3). Writes the datagram for a forward proxy in hex, on one line, or the one line of a refusal: the
/// context's comes before that of the splitting, that before the sealing's, and last the asking's. Returns the status: 0 if the datagram is
/// made, 2 if one of these is refused. Builds the line completely before writing it. The caller keeps each number fresh.
pub fn forward_text<W: Write>(
    alloc: Global,
    agreed: Agreed<'_>,
    number: Piv,
    plain: &[u8],
    out: &mut W,
) -> Result<u8, Fault>
    ensures written { (lines : List (List ℕ)) × (status : ℕ) × ForwardText agreed.entry (number_of number) plain.now lines status
        × Writes (W.contents out.old) (W.contents out.new) lines result × IfOk result (λ s. s ≡ status) }
    ensures two { IfOk result (λ s. (s ≡ 0) ⊎ (s ≡ 2)) }
{
    match agreed.derive() {
        Ok(context) => write_routed(alloc, &context, number, plain, out),
        Err(refusal) => put_refused(alloc, refusal, out),
    }
}

/// Writes what a plain request with Proxy-Uri becomes under a context, or its refusal.
fn write_routed<W: Write>(
    alloc: Global,
    context: &Context,
    number: Piv,
    plain: &[u8],
    out: &mut W,
) -> Result<u8, Fault>
    ensures { (lines : List (List ℕ)) × (status : ℕ) × RoutedText (as_client context.now) (number_of number) plain.now lines status
        × Writes (W.contents out.old) (W.contents out.new) lines result × IfOk result (λ s. s ≡ status) }
{
    let mut split = [0u8; MOST_DATAGRAM];
    match split_proxy_uri(plain, &mut split) {
        Ok((len, scheme)) => {
            let name = scheme.name().as_bytes();
            write_split(alloc, context, number, &split[..len], name, out)
        }
        Err(refusal) => put_refused(alloc, refusal, out),
    }
}

/// Writes what a request whose Proxy-Uri was split becomes under a context, or its refusal. `name` is that of the scheme.
fn write_split<W: Write>(
    alloc: Global,
    context: &Context,
    number: Piv,
    split: &[u8],
    name: &[u8],
    out: &mut W,
) -> Result<u8, Fault>
    requires { (q : Parts) × IsDatagram q split.now }
    ensures { (q : Parts) → IsDatagram q split.now → (lines : List (List ℕ)) × (status : ℕ)
        × SplitText (as_client context.now) (number_of number) name.now q lines status
        × Writes (W.contents out.old) (W.contents out.new) lines result × IfOk result (λ s. s ≡ status) }
{
    // For the proof alone.
    one_datagram();
    let Ok(message) = parse(split) else {
        unreachable!()
    };
    let mut sealed = [0u8; MOST_DATAGRAM];
    match seal_request(context, number, &message, &mut sealed) {
        Ok(len) => write_asked(alloc, &sealed[..len], name, out),
        Err(refusal) => put_refused(alloc, refusal, out),
    }
}

/// Writes a sealed request that asks a proxy by this scheme, or its refusal.
fn write_asked<W: Write>(
    alloc: Global,
    sealed: &[u8],
    name: &[u8],
    out: &mut W,
) -> Result<u8, Fault>
    ensures { (lines : List (List ℕ)) × (status : ℕ) × AskedText name.now sealed.now lines status
        × Writes (W.contents out.old) (W.contents out.new) lines result × IfOk result (λ s. s ≡ status) }
{
    let mut asked = [0u8; MOST_DATAGRAM];
    let outcome = ask_proxy(sealed, name, &mut asked);
    write_outcome(alloc, outcome, &asked, out)
}

/// Writes the result of asking: the request, which is at the front of the buffer, or the refusal.
fn write_outcome<W: Write>(
    alloc: Global,
    outcome: Result<usize, AskProxyError>,
    buffer: &[u8],
    out: &mut W,
) -> Result<u8, Fault>
    requires within { IfOk outcome (λ len. len ≤ length buffer.now) }
    ensures written { Writes (W.contents out.old) (W.contents out.new) (ask_lines buffer.now outcome) result }
    ensures status { IfOk result (λ s. s ≡ ask_status outcome) }
{
    match outcome {
        Ok(len) => {
            put_hex(alloc, &buffer[..len], out)?;
            Ok(0)
        }
        Err(refusal) => put_refused(alloc, refusal, out),
    }
}
