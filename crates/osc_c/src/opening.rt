//! Opens one request or one response for C, in the datagram that carries it.

ghost use Rattle.std.specs.Prelude.{◌≡◌, ◌≢◌, ◌<◌, ◌^◌, ℕ, IfOk, IsOk, IfErr, IsErrAnd, Option, true, false, take, map, length};
ghost use Rattle.osc_protect.specs.Opening.{Opens};
ghost use Rattle.osc_protect.specs.Protection.{ProtectsRequest, ProtectsResponse, requests, responses};
ghost use Rattle.osc_coap.specs.Inner.{InnerParts};
ghost use Rattle.osc_protect.specs.StageViews.{LendsRequest, LendsResponse};
ghost use Rattle.osc_protect.specs.Views.{message_of};
ghost use Rattle.osc_protect.specs.declared.opened.Opened.{Opened as OpenedOf};
ghost use Rattle.osc_c.specs.Calls.{RefusesOpening};
ghost use Rattle.osc_context_handle.specs.ContextBytes.{client_in, server_in, IsContext};
ghost use Rattle.osc_c.specs.Opened.{LeavesRequestIn, LeavesResponseIn, option_in, Shows};
ghost use Rattle.osc_status.specs.Statuses.{code};
ghost use Rattle.osc_status.specs.declared.status.Status.{Status as StatusOf};

use crate::opened_view::{OpenedView, OptionView, show};
use osc_context::Piv;
use osc_handle::ContextHandle;
use osc_protect::{ReadRequest, ReadResponse, RequestRef, unprotect_request, unprotect_response};
use osc_status::{DONE, Refusal, Status};

/// What was read of a datagram, or the refusal that C reads, and the datagram as it is left. It is lent for reading alone: the call that
/// has this can't write to it any more, and no clause of its own has to say so.
struct Left<'b, R> {
    read: Result<R, Refusal>,
    datagram: &'b [u8],
}

/// Opens a request as the context's server.
fn open_request_in<'b>(context: &ContextHandle, datagram: &'b mut [u8]) -> Left<'b, ReadRequest>
    ensures lends { IfOk result.read (λ x. LendsRequest (requests (server_in context.now)) datagram.old x result.datagram.now) }
    ensures accepts { (n : ℕ) (m : InnerParts) → IsContext context.now → ProtectsRequest (server_in context.now) n m datagram.old → IsOk result.read }
    ensures refused { IfErr result.read (λ r. RefusesOpening (IsContext context.now) Unit (requests (server_in context.now)) datagram.old r.status r.detail) }
    ensures refuses { (status : StatusOf) (why : ℕ) → RefusesOpening (IsContext context.now) Unit (requests (server_in context.now)) datagram.old status why
        → IsErrAnd result.read (λ r. (r.status ≡ status) × (r.detail ≡ why)) }
    ensures left { IfErr result.read (λ r. LeavesRequestIn (requests (server_in context.now)) datagram.old r.status result.datagram.now) }
{
    let Some(context) = context.context() else {
        return Left {
            read: Err(Status::BadHandle.into()),
            datagram,
        };
    };
    match unprotect_request(&context, datagram) {
        Ok(read) => Left {
            read: Ok(read),
            datagram,
        },
        Err(error) => Left {
            read: Err(error.into()),
            datagram,
        },
    }
}

/// Opens a request in its datagram (RFC 8613, 8.2), as the context's server. `options` has room for a number of options; `view` says
/// whether there are more. A refusal is BadHandle, one of the datagram's faults with its place, NotThatKind, NoOscore, Undecodable,
/// WrongContext, Tag or Inner, in this order. At Inner and when it is done, the payload has become the plaintext, with the old tag
/// after it. Any refusal before Inner leaves the datagram unchanged: `open_request_in` says so, and from there on this call has the datagram
/// for reading alone.
#[unsafe(no_mangle)]
pub extern "C" fn oscore_open_request_v5<'b>(
    context: &ContextHandle,
    datagram: &'b mut [u8],
    options: &mut [OptionView<'b>],
    view: &mut OpenedView<'b>,
    detail: &mut usize,
) -> u32
    ensures opened { result ≡ 0 → (o : OpenedOf) × Opens (requests (server_in context.now)) datagram.old o × Shows view.new o
        × (view.new.has_more_options ≡ false → map option_in (take view.new.option_count options.new) ≡ (message_of o).options)
        × (view.new.has_more_options ≡ true → map option_in options.new ≡ take (length options.old) (message_of o).options) }
    ensures accepts { (n : ℕ) (m : InnerParts) → IsContext context.now → ProtectsRequest (server_in context.now) n m datagram.old → result ≡ 0 }
    ensures refused { result ≢ 0 → (status : StatusOf) × (result ≡ code status)
        × RefusesOpening (IsContext context.now) Unit (requests (server_in context.now)) datagram.old status detail.new }
    ensures refuses { (status : StatusOf) (why : ℕ) → RefusesOpening (IsContext context.now) Unit (requests (server_in context.now)) datagram.old status why
        → (result ≡ code status) × (detail.new ≡ why) }
    ensures unchanged { result ≢ 0 → (view.new ≡ view.old) × (options.new ≡ options.old) }
{
    let Left { read, datagram } = open_request_in(context, datagram);
    match read {
        Ok(read) => {
            show(&read.opened(datagram), options, view);
            DONE
        }
        Err(refusal) => {
            *detail = refusal.detail;
            refusal.status.code()
        }
    }
}

/// Opens a response as the context's client.
fn open_response_in<'b>(
    context: &ContextHandle,
    request: u64,
    datagram: &'b mut [u8],
) -> Left<'b, ReadResponse>
    ensures lends { IfOk result.read (λ x. LendsResponse (responses (client_in context.now) request) datagram.old x result.datagram.now) }
    ensures accepts { (own : Option ℕ) (m : InnerParts) → IsContext context.now → request < 2 ^ 40
        → ProtectsResponse (client_in context.now) request own m datagram.old → IsOk result.read }
    ensures refused { IfErr result.read (λ r. RefusesOpening (IsContext context.now) (request < 2 ^ 40) (responses (client_in context.now) request) datagram.old r.status r.detail) }
    ensures refuses { (status : StatusOf) (why : ℕ) → RefusesOpening (IsContext context.now) (request < 2 ^ 40) (responses (client_in context.now) request) datagram.old status why
        → IsErrAnd result.read (λ r. (r.status ≡ status) × (r.detail ≡ why)) }
    ensures left { IfErr result.read (λ r. LeavesResponseIn (responses (client_in context.now) request) datagram.old r.status result.datagram.now) }
{
    let Some(context) = context.context() else {
        return Left {
            read: Err(Status::BadHandle.into()),
            datagram,
        };
    };
    let Some(request) = Piv::new(request) else {
        return Left {
            read: Err(Status::BadNumber.into()),
            datagram,
        };
    };
    match unprotect_response(&context, &RequestRef::new(request), datagram) {
        Ok(read) => Left {
            read: Ok(read),
            datagram,
        },
        Err(error) => Left {
            read: Err(error.into()),
            datagram,
        },
    }
}

/// Opens a response to the request with this number in its datagram (RFC 8613, 8.4), as the context's client. Everything else is as
/// in `oscore_open_request_v5`, but BadNumber comes after BadHandle, and WrongContext never comes.
#[unsafe(no_mangle)]
pub extern "C" fn oscore_open_response_v5<'b>(
    context: &ContextHandle,
    request: u64,
    datagram: &'b mut [u8],
    options: &mut [OptionView<'b>],
    view: &mut OpenedView<'b>,
    detail: &mut usize,
) -> u32
    ensures opened { result ≡ 0 → (o : OpenedOf) × Opens (responses (client_in context.now) request) datagram.old o × Shows view.new o
        × (view.new.has_more_options ≡ false → map option_in (take view.new.option_count options.new) ≡ (message_of o).options)
        × (view.new.has_more_options ≡ true → map option_in options.new ≡ take (length options.old) (message_of o).options) }
    ensures accepts { (own : Option ℕ) (m : InnerParts) → IsContext context.now → request < 2 ^ 40
        → ProtectsResponse (client_in context.now) request own m datagram.old → result ≡ 0 }
    ensures refused { result ≢ 0 → (status : StatusOf) × (result ≡ code status)
        × RefusesOpening (IsContext context.now) (request < 2 ^ 40) (responses (client_in context.now) request) datagram.old status detail.new }
    ensures refuses { (status : StatusOf) (why : ℕ) → RefusesOpening (IsContext context.now) (request < 2 ^ 40) (responses (client_in context.now) request) datagram.old status why
        → (result ≡ code status) × (detail.new ≡ why) }
    ensures unchanged { result ≢ 0 → (view.new ≡ view.old) × (options.new ≡ options.old) }
{
    let Left { read, datagram } = open_response_in(context, request, datagram);
    match read {
        Ok(read) => {
            show(&read.opened(datagram), options, view);
            DONE
        }
        Err(refusal) => {
            *detail = refusal.detail;
            refusal.status.code()
        }
    }
}
