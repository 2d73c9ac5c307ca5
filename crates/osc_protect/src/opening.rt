//! Opens a request or a response in the datagram that carries it (RFC 8613, 8.2 and 8.4). Each call runs the stages one after the other
//! over a context, and makes the schedule of one of its keys.

ghost use Rattle.std.specs.Prelude.{◌≡◌, ◌≢◌, ℕ, Bool, IfOk, IfErr};
ghost use Rattle.osc_context.specs.SecurityContext.{SecurityContext};
ghost use Rattle.osc_protect.specs.Opening.{OpensExactly};
ghost use Rattle.osc_protect.specs.Protection.{responses_to};
ghost use Rattle.osc_protect.specs.Refusals.{RefusesToOpen};
ghost use Rattle.osc_protect.specs.StageViews.{IsSealedRequest, IsSealedResponse, UnprotectsRequest, UnprotectsResponse};
ghost use Rattle.osc_protect.specs.Views.{opened_requests, opened_responses};
ghost use Rattle.osc_protect.specs.declared.unprotect_error.UnprotectError.TheVariants.{Inner, WrongContext};

use crate::decrypting::{decrypt_request_by, decrypt_response_by};
use crate::ends::Recipient;
use crate::laws::{one_notification, one_request, one_response};
use crate::opened::Opened;
use crate::reading::{inspect_request, inspect_response};
use crate::request_head::head_of_request;
use crate::request_ref::RequestRef;
use crate::response_head::head_of_response;
use crate::stages::{ReadRequest, ReadResponse, SealedRequest, SealedResponse};
use crate::unprotect_error::UnprotectError;
use osc_context::Context;

/// Opens a request in its datagram: reads the head, checks whether it names the context, decrypts and reads. Returns the first refusal in
/// the order of `UnprotectError`. `decrypt_request` says what the datagram holds afterwards.
pub fn open_request<'b>(
    context: &Context,
    datagram: &'b mut [u8],
) -> Result<Opened<'b>, UnprotectError>
    ensures { OpensExactly (opened_requests context.now) datagram.old result }
{
    open_request_by(Recipient::of(context), datagram)
}

/// Opens a response to a request in its datagram: reads the head, decrypts and reads. Returns the first refusal in the order of
/// `UnprotectError`. `decrypt_response` says what the datagram holds afterwards.
pub fn open_response<'b>(
    context: &Context,
    request: &RequestRef,
    datagram: &'b mut [u8],
) -> Result<Opened<'b>, UnprotectError>
    ensures { OpensExactly (opened_responses context.now request.now) datagram.old result }
{
    open_response_by(Recipient::of(context), request, datagram)
}

/// Opens a request under the recipient's key.
pub(crate) fn open_request_by<'b>(
    recipient: Recipient<'_>,
    datagram: &'b mut [u8],
) -> Result<Opened<'b>, UnprotectError>
    ensures { OpensExactly (opened_requests recipient.entry.context.now) datagram.old result }
{
    // For the proof alone.
    one_request();
    let Unprotected { read, datagram } = unprotect_and_lend_request(recipient, datagram);
    match read {
        Ok(read) => Ok(read.opened(datagram)),
        Err(error) => Err(error),
    }
}

/// Opens a response under the recipient's key.
pub(crate) fn open_response_by<'b>(
    recipient: Recipient<'_>,
    request: &RequestRef,
    datagram: &'b mut [u8],
) -> Result<Opened<'b>, UnprotectError>
    ensures { OpensExactly (opened_responses recipient.entry.context.now request.now) datagram.old result }
{
    // For the proof alone.
    one_response();
    one_notification();
    let Unprotected { read, datagram } = unprotect_and_lend_response(recipient, request, datagram);
    match read {
        Ok(read) => Ok(read.opened(datagram)),
        Err(error) => Err(error),
    }
}

/// What was read of a datagram, or why it doesn't open, and the datagram as it is left. It is lent for reading alone: whoever has this
/// can't write to it any more, and no clause has to say so.
struct Unprotected<'b, R> {
    read: Result<R, UnprotectError>,
    datagram: &'b [u8],
}

/// Runs the stages of a request, and lends the datagram as they leave it.
fn unprotect_and_lend_request<'b>(
    recipient: Recipient<'_>,
    datagram: &'b mut [u8],
) -> Unprotected<'b, ReadRequest>
    ensures { UnprotectsRequest (opened_requests recipient.entry.context.now) datagram.old result.datagram.now result.read }
{
    let read = unprotect_request_by(recipient, datagram);
    Unprotected { read, datagram }
}

/// Opens a request in its datagram as [`open_request`] does, and borrows nothing: `ReadRequest::opened` lends what was read, without
/// reading it again. A refusal leaves the datagram as it was; for `Inner` it was decrypted, as [`crate::decrypt_request`] says.
pub fn unprotect_request(
    context: &Context,
    datagram: &mut [u8],
) -> Result<ReadRequest, UnprotectError>
    ensures { UnprotectsRequest (opened_requests context.now) datagram.old datagram.new result }
{
    unprotect_request_by(Recipient::of(context), datagram)
}

/// Opens a request under the recipient's key, and borrows nothing.
pub(crate) fn unprotect_request_by(
    recipient: Recipient<'_>,
    datagram: &mut [u8],
) -> Result<ReadRequest, UnprotectError>
    ensures { UnprotectsRequest (opened_requests recipient.entry.context.now) datagram.old datagram.new result }
{
    // For the proof alone.
    one_request();
    let sealed = find_request(recipient.context, datagram)?;
    let Ok(decrypted) = decrypt_request_by(recipient, datagram, sealed) else {
        return Err(UnprotectError::Tag);
    };
    match inspect_request(datagram, decrypted) {
        Ok(read) => Ok(read),
        Err(_) => Err(UnprotectError::Inner),
    }
}

/// Runs the stages of a response, and lends the datagram as they leave it.
fn unprotect_and_lend_response<'b>(
    recipient: Recipient<'_>,
    request: &RequestRef,
    datagram: &'b mut [u8],
) -> Unprotected<'b, ReadResponse>
    ensures { UnprotectsResponse (opened_responses recipient.entry.context.now request.now) datagram.old result.datagram.now result.read }
{
    let read = unprotect_response_by(recipient, request, datagram);
    Unprotected { read, datagram }
}

/// Opens a response in its datagram as [`open_response`] does, and borrows nothing: `ReadResponse::opened` lends what was read, without
/// reading it again. A refusal leaves the datagram as it was; for `Inner` it was decrypted, as [`crate::decrypt_response`] says.
pub fn unprotect_response(
    context: &Context,
    request: &RequestRef,
    datagram: &mut [u8],
) -> Result<ReadResponse, UnprotectError>
    ensures { UnprotectsResponse (opened_responses context.now request.now) datagram.old datagram.new result }
{
    unprotect_response_by(Recipient::of(context), request, datagram)
}

/// Opens a response under the recipient's key, and borrows nothing.
pub(crate) fn unprotect_response_by(
    recipient: Recipient<'_>,
    request: &RequestRef,
    datagram: &mut [u8],
) -> Result<ReadResponse, UnprotectError>
    ensures { UnprotectsResponse (opened_responses recipient.entry.context.now request.now) datagram.old datagram.new result }
{
    // For the proof alone.
    one_response();
    one_notification();
    let sealed = find_response(datagram)?;
    let Ok(decrypted) = decrypt_response_by(recipient, request, datagram, sealed) else {
        return Err(UnprotectError::Tag);
    };
    match inspect_response(datagram, decrypted) {
        Ok(read) => Ok(read),
        Err(_) => Err(UnprotectError::Inner),
    }
}

/// Reads the head of a request, and checks whether it names the context.
fn find_request(context: &Context, datagram: &[u8]) -> Result<SealedRequest, UnprotectError>
    ensures found { IfOk result (λ x. IsSealedRequest (opened_requests context.now) datagram.now x) }
    ensures refused { IfErr result (λ e. RefusesToOpen (opened_requests context.now) datagram.now e) }
    ensures early { IfErr result (λ e. e ≢ Inner) }
{
    let head = match head_of_request(datagram) {
        Ok(head) => head,
        Err(error) => return Err(UnprotectError::from(error)),
    };
    // The context is checked before the tag (RFC 8613, 8.2).
    if !head.names(context) {
        return Err(UnprotectError::WrongContext);
    }
    Ok(head.sealed())
}

/// Reads the head of a response, which names no context.
fn find_response(datagram: &[u8]) -> Result<SealedResponse, UnprotectError>
    ensures found { IfOk result (λ x. (s : SecurityContext) (r : Bool) (n : ℕ) → IsSealedResponse (responses_to s r n) datagram.now x) }
    ensures refused { IfErr result (λ e. (s : SecurityContext) (r : Bool) (n : ℕ) → RefusesToOpen (responses_to s r n) datagram.now e) }
    ensures no_wrong_context { IfErr result (λ e. e ≢ WrongContext) }
    ensures early { IfErr result (λ e. e ≢ Inner) }
{
    match head_of_response(datagram) {
        Ok(head) => Ok(head.sealed()),
        Err(error) => Err(UnprotectError::from(error)),
    }
}
