//! Seals one request or one response for C.

ghost use Rattle.std.specs.Prelude.{◌≡◌, ◌≢◌, ◌≤◌, ◌<◌, ◌+◌, ◌^◌, ℕ, IsSome, IfSome, IsOk, IfOk, IfErr, IsErrAnd, OnErr, take, drop, length};
ghost use Rattle.std.specs.Option.{option_map};
ghost use Rattle.osc_context.specs.Views.{number_of};
ghost use Rattle.osc_coap.specs.Datagram.{Parts, IsDatagram};
ghost use Rattle.osc_protect.specs.Protection.{requests, responses};
ghost use Rattle.osc_protect.specs.SealRefusals.{FitsToSeal};
ghost use Rattle.osc_protect.specs.Sealed.{SealsRequest, SealsResponse};
ghost use Rattle.osc_c.specs.Calls.{AreNumbers, IsOwnPartialIv, RefusesSealing};
ghost use Rattle.osc_c.specs.Opened.{number_given};
ghost use Rattle.osc_context_handle.specs.ContextBytes.{client_in, server_in, IsContext};
ghost use Rattle.osc_status.specs.Statuses.{code};
ghost use Rattle.osc_status.specs.declared.status.Status.{Status as StatusOf};
ghost use Rattle.osc_status.specs.declared.status.Status.TheVariants.{NoRoom};
ghost use Rattle.osc_room.specs.Room.{HasRoomFor};

use osc_coap::{one_datagram, parse};
use osc_context::Piv;
use osc_handle::ContextHandle;
use osc_protect::{RequestRef, seal_request, seal_response};
use osc_room::enough_room;
use osc_status::{DONE, Refusal, Status};

/// Seals a plain request, which is passed in as a datagram.
fn seal_request_in(
    context: &ContextHandle,
    number: u64,
    plain: &[u8],
    out: &mut [u8],
) -> Result<usize, Refusal>
    ensures sealed { IfOk result (λ n. (p : Parts) × IsDatagram p plain.now × SealsRequest (client_in context.now) number p (take n out.new)) }
    ensures within { IfOk result (λ n. n ≤ length out.new) }
    ensures behind { IfOk result (λ n. drop n out.new ≡ drop n out.old) }
    ensures accepts { (p : Parts) → IsContext context.now → number < 2 ^ 40 → IsDatagram p plain.now
        → FitsToSeal (requests (client_in context.now)) number p (length out.old) → IsOk result }
    ensures refused { IfErr result (λ r. RefusesSealing (IsContext context.now) (number < 2 ^ 40) (requests (client_in context.now)) number plain.now (length out.old) r.status r.detail) }
    ensures refuses { (status : StatusOf) (why : ℕ)
        → RefusesSealing (IsContext context.now) (number < 2 ^ 40) (requests (client_in context.now)) number plain.now (length out.old) status why
        → IsErrAnd result (λ r. (r.status ≡ status) × (r.detail ≡ why)) }
    ensures unchanged { OnErr result (out.new ≡ out.old) }
{
    // For the proof alone.
    one_datagram();
    let Some(context) = context.context() else {
        return Err(Status::BadHandle.into());
    };
    let Some(number) = Piv::new(number) else {
        return Err(Status::BadNumber.into());
    };
    let message = match parse(plain) {
        Ok(message) => message,
        Err(error) => return Err(error.into()),
    };
    match seal_request(&context, number, &message, out) {
        Ok(len) => Ok(len),
        Err(error) => Err(error.into()),
    }
}

/// Seals a request (RFC 8613, 8.1) under this Sender Sequence Number, as the context's client. `plain` is its datagram. The first `out_len`
/// bytes of `out` are the sealed datagram. A refusal is BadHandle, BadNumber, one of the datagram's faults with its place, NotThatKind,
/// Unsupported with the lowest number of such an option, TooLong or NoRoom, in this order. A buffer that has 60 bytes more than `plain` has
/// room; if the context allows Observe and `plain` has it, Observe stands inside and outside, and takes its own bytes more.
#[unsafe(no_mangle)]
pub extern "C" fn oscore_seal_request_v5(
    context: &ContextHandle,
    number: u64,
    plain: &[u8],
    out: &mut [u8],
    out_len: &mut usize,
    detail: &mut usize,
) -> u32
    ensures sealed { result ≡ 0 → (p : Parts) × IsDatagram p plain.now × SealsRequest (client_in context.now) number p (take out_len.new out.new) }
    ensures within { result ≡ 0 → out_len.new ≤ length out.new }
    ensures behind { result ≡ 0 → drop out_len.new out.new ≡ drop out_len.new out.old }
    ensures room { HasRoomFor (client_in context.now).features.observe plain.now (length out.old) → result ≢ code NoRoom }
    ensures accepts { (p : Parts) → IsContext context.now → number < 2 ^ 40 → IsDatagram p plain.now
        → FitsToSeal (requests (client_in context.now)) number p (length out.old) → result ≡ 0 }
    ensures refused { result ≢ 0 → (status : StatusOf) × (result ≡ code status)
        × RefusesSealing (IsContext context.now) (number < 2 ^ 40) (requests (client_in context.now)) number plain.now (length out.old) status detail.new }
    ensures refuses { (status : StatusOf) (why : ℕ)
        → RefusesSealing (IsContext context.now) (number < 2 ^ 40) (requests (client_in context.now)) number plain.now (length out.old) status why
        → (result ≡ code status) × (detail.new ≡ why) }
    ensures unchanged { result ≢ 0 → (out.new ≡ out.old) × (out_len.new ≡ out_len.old) }
{
    // For the proof alone.
    enough_room();
    match seal_request_in(context, number, plain, out) {
        Ok(len) => {
            *out_len = len;
            DONE
        }
        Err(refusal) => {
            *detail = refusal.detail;
            refusal.status.code()
        }
    }
}

/// Returns a message's own Partial IV, or `Some(None)` if it has none. Returns `None` if the number is 2^40 or above.
fn own_number(has_own: bool, own: u64) -> Option<Option<Piv>>
    ensures made { IfSome result (λ piv. option_map number_of piv ≡ number_given has_own own) }
    ensures accepted { IsSome result → IsOwnPartialIv has_own own }
    ensures accepts { IsOwnPartialIv has_own own → IsSome result }
{
    if has_own {
        Piv::new(own).map(Some)
    } else {
        Some(None)
    }
}

/// Seals a plain response to a request. The response is passed in as a datagram.
fn seal_response_in(
    context: &ContextHandle,
    request: u64,
    has_own: bool,
    own: u64,
    plain: &[u8],
    out: &mut [u8],
) -> Result<usize, Refusal>
    ensures sealed { IfOk result (λ n. (p : Parts) × IsDatagram p plain.now
        × SealsResponse (server_in context.now) request (number_given has_own own) p (take n out.new)) }
    ensures within { IfOk result (λ n. n ≤ length out.new) }
    ensures behind { IfOk result (λ n. drop n out.new ≡ drop n out.old) }
    ensures accepts { (p : Parts) → IsContext context.now → AreNumbers request has_own own → IsDatagram p plain.now
        → FitsToSeal (responses (server_in context.now) request) (number_given has_own own) p (length out.old) → IsOk result }
    ensures refused { IfErr result (λ r. RefusesSealing (IsContext context.now) (AreNumbers request has_own own)
        (responses (server_in context.now) request) (number_given has_own own) plain.now (length out.old) r.status r.detail) }
    ensures refuses { (status : StatusOf) (why : ℕ) → RefusesSealing (IsContext context.now) (AreNumbers request has_own own)
        (responses (server_in context.now) request) (number_given has_own own) plain.now (length out.old) status why
        → IsErrAnd result (λ r. (r.status ≡ status) × (r.detail ≡ why)) }
    ensures unchanged { OnErr result (out.new ≡ out.old) }
{
    // For the proof alone.
    one_datagram();
    let Some(context) = context.context() else {
        return Err(Status::BadHandle.into());
    };
    let Some(request) = Piv::new(request) else {
        return Err(Status::BadNumber.into());
    };
    let Some(own) = own_number(has_own, own) else {
        return Err(Status::BadNumber.into());
    };
    let message = match parse(plain) {
        Ok(message) => message,
        Err(error) => return Err(error.into()),
    };
    match seal_response(&context, &RequestRef::new(request), own, &message, out) {
        Ok(len) => Ok(len),
        Err(error) => Err(error.into()),
    }
}

/// Seals a response (RFC 8613, 8.3) to the request with this number, as the context's server, with its own Partial IV or under the
/// Partial IV of the request. `plain` is its datagram. The first `out_len` bytes of `out` are the sealed datagram. The refusals are
/// those of `oscore_seal_request_v5`.
#[unsafe(no_mangle)]
pub extern "C" fn oscore_seal_response_v5(
    context: &ContextHandle,
    request: u64,
    has_own: bool,
    own: u64,
    plain: &[u8],
    out: &mut [u8],
    out_len: &mut usize,
    detail: &mut usize,
) -> u32
    ensures sealed { result ≡ 0 → (p : Parts) × IsDatagram p plain.now
        × SealsResponse (server_in context.now) request (number_given has_own own) p (take out_len.new out.new) }
    ensures within { result ≡ 0 → out_len.new ≤ length out.new }
    ensures behind { result ≡ 0 → drop out_len.new out.new ≡ drop out_len.new out.old }
    ensures room { length plain.now + 60 ≤ length out.old → result ≢ code NoRoom }
    ensures accepts { (p : Parts) → IsContext context.now → AreNumbers request has_own own → IsDatagram p plain.now
        → FitsToSeal (responses (server_in context.now) request) (number_given has_own own) p (length out.old) → result ≡ 0 }
    ensures refused { result ≢ 0 → (status : StatusOf) × (result ≡ code status)
        × RefusesSealing (IsContext context.now) (AreNumbers request has_own own)
        (responses (server_in context.now) request) (number_given has_own own) plain.now (length out.old) status detail.new }
    ensures refuses { (status : StatusOf) (why : ℕ) → RefusesSealing (IsContext context.now) (AreNumbers request has_own own)
        (responses (server_in context.now) request) (number_given has_own own) plain.now (length out.old) status why
        → (result ≡ code status) × (detail.new ≡ why) }
    ensures unchanged { result ≢ 0 → (out.new ≡ out.old) × (out_len.new ≡ out_len.old) }
{
    // For the proof alone.
    enough_room();
    match seal_response_in(context, request, has_own, own, plain, out) {
        Ok(len) => {
            *out_len = len;
            DONE
        }
        Err(refusal) => {
            *detail = refusal.detail;
            refusal.status.code()
        }
    }
}
