//! Calls of osc_protect.

ghost use Rattle.std.specs.Prelude.{Bool, ℕ, IfOk};
ghost use Rattle.osc_context.specs.SecurityContext.{SecurityContext};
ghost use Rattle.osc_protect.specs.Protection.{responses_to};
ghost use Rattle.osc_protect.specs.StageViews.{IsSealedResponse};

use crate::answer::Answer;
use crate::fields::Fields;
use osc_coap::parse;
use osc_context::{Context, Piv};
use osc_protect::{
    HeadError, KeyedContext, Opened, ProtectError, RequestHead, RequestRef, ResponseHead,
    SealedResponse, UnprotectError, check_request, check_response, decrypt_request,
    decrypt_response, encrypt_again, head_of_request, inspect_request, inspect_response,
    open_request, open_response, seal_request, seal_response,
};
use osc_room::room_for;

/// What a buffer to seal into is filled with.
const FILLED_WITH: u8 = 0xaa;

/// Shows what the head of a request says.
fn shown(head: &RequestHead<'_>, answer: &mut Answer) {
    answer.kind(head.kind);
    answer.bytes(&head.message_id.to_be_bytes());
    answer.bytes(head.token.as_slice());
    answer.print(head.number.number());
    answer.bytes(head.kid);
    answer.part(head.kid_context);
}

/// Shows the head of a message, which is read first.
fn head_of_message(datagram: &[u8], answer: &mut Answer) {
    match parse(datagram) {
        Ok(message) => match RequestHead::read(&message) {
            Ok(head) => shown(&head, answer),
            Err(none) => answer.refused(none),
        },
        Err(fault) => answer.refused(fault),
    }
}

/// Shows the head of a request, read from its datagram and from its message.
pub(crate) fn head(fields: &Fields<'_>, answer: &mut Answer) {
    fields.count(1);
    match head_of_request(fields.bytes(0)) {
        Ok(head) => shown(&head, answer),
        Err(refusal) => answer.refused(refusal),
    }
    answer.again();
    head_of_message(fields.bytes(0), answer);
}

/// Shows the head of a response.
pub(crate) fn response_head(fields: &Fields<'_>, answer: &mut Answer) {
    fields.count(1);
    let Some(message) = fields.message(0) else {
        return;
    };
    match ResponseHead::read(&message) {
        Ok(head) => {
            answer.kind(head.kind);
            answer.bytes(&head.message_id.to_be_bytes());
            answer.bytes(head.token.as_slice());
            answer.number(head.number);
        }
        Err(none) => answer.refused(none),
    }
}

/// Shows whether the head of a request names the context.
pub(crate) fn named(fields: &Fields<'_>, context: &KeyedContext, answer: &mut Answer) {
    fields.count(2);
    match head_of_request(fields.bytes(1)) {
        Ok(head) => answer.word(if head.names(context.context()) {
            "named"
        } else {
            "other"
        }),
        Err(refusal) => answer.refused(refusal),
    }
}

/// Shows whether a message can be sealed.
fn told(outcome: Result<(), ProtectError>, answer: &mut Answer) {
    match outcome {
        Ok(()) => answer.word("ok"),
        Err(refusal) => answer.refused(refusal),
    }
}

pub(crate) fn checked_request(fields: &Fields<'_>, answer: &mut Answer) {
    let features = fields.features(1);
    if let Some(plain) = fields.message(0) {
        told(check_request(&plain, features), answer);
    }
}

pub(crate) fn checked_response(fields: &Fields<'_>, answer: &mut Answer) {
    let features = fields.features(1);
    if let Some(plain) = fields.message(0) {
        told(check_response(&plain, features), answer);
    }
}

/// Prints how much room is enough for a sealed message, by the length of its plain datagram.
pub(crate) fn room(fields: &Fields<'_>, answer: &mut Answer) {
    let features = fields.features(1);
    answer.print(room_for(fields.index(0), features.observe));
}

/// Shows what sealing returned, and what became of the bytes after it.
fn sealed(outcome: Result<usize, ProtectError>, out: &[u8], answer: &mut Answer) {
    match outcome {
        Ok(len) => answer.written(out, len, FILLED_WITH),
        Err(refusal) => {
            answer.refused(refusal);
            answer.rest(out, FILLED_WITH);
        }
    }
}

/// Seals a request over a context, and then over one that keeps its schedules.
pub(crate) fn sealed_request(fields: &Fields<'_>, context: &KeyedContext, answer: &mut Answer) {
    fields.count(4);
    let (Some(number), Some(plain)) = (fields.partial_iv(1), fields.message(2)) else {
        return;
    };
    let mut out = fields.room(3, FILLED_WITH);
    let outcome = seal_request(context.context(), number, &plain, out.as_mut_slice());
    sealed(outcome, out.as_slice(), answer);
    answer.again();
    let mut out = fields.room(3, FILLED_WITH);
    let outcome = context.seal_request(number, &plain, out.as_mut_slice());
    sealed(outcome, out.as_slice(), answer);
}

/// What the request of a response does.
#[derive(Clone, Copy)]
pub(crate) enum Asked {
    /// It registers no observation.
    Once,
    /// It registers one.
    Registers,
}

/// Names the request of a response.
fn request_of(number: Piv, asked: Asked) -> RequestRef {
    match asked {
        Asked::Once => RequestRef::new(number),
        Asked::Registers => RequestRef::registering(number),
    }
}

/// Seals a response over a context, and then over one that keeps its schedules.
pub(crate) fn sealed_response(
    fields: &Fields<'_>,
    context: &KeyedContext,
    asked: Asked,
    answer: &mut Answer,
) {
    fields.count(5);
    let own = fields.partial_iv(2);
    let (Some(number), Some(plain)) = (fields.partial_iv(1), fields.message(3)) else {
        return;
    };
    let request = request_of(number, asked);
    let mut out = fields.room(4, FILLED_WITH);
    let outcome = seal_response(context.context(), &request, own, &plain, out.as_mut_slice());
    sealed(outcome, out.as_slice(), answer);
    answer.again();
    let mut out = fields.room(4, FILLED_WITH);
    let outcome = context.seal_response(&request, own, &plain, out.as_mut_slice());
    sealed(outcome, out.as_slice(), answer);
}

/// Shows what an opened message says.
pub(crate) fn show_opened(opened: &Opened<'_>, answer: &mut Answer) {
    answer.kind(opened.kind);
    answer.bytes(&opened.message_id.to_be_bytes());
    answer.bytes(opened.token.as_slice());
    answer.code(opened.code);
    answer.number(opened.piv);
    answer.part(opened.uri_host);
    answer.part(opened.uri_port);
    answer.options(opened.inner());
    answer.bytes(opened.payload);
}

/// Shows what an opened message says, or why none opened.
fn opened(outcome: Result<Opened<'_>, UnprotectError>, answer: &mut Answer) {
    match outcome {
        Ok(opened) => show_opened(&opened, answer),
        Err(refusal) => answer.refused(refusal),
    }
    answer.word("left");
}

/// Opens a request in stages.
fn request_in_stages<'b>(
    context: &KeyedContext,
    datagram: &'b mut [u8],
) -> Result<Opened<'b>, UnprotectError> {
    let head = match head_of_request(datagram) {
        Ok(head) => head,
        Err(error) => return Err(UnprotectError::from(error)),
    };
    if !head.names(context.context()) {
        return Err(UnprotectError::WrongContext);
    }
    let sealed = head.sealed();
    let Ok(decrypted) = decrypt_request(context, datagram, sealed) else {
        return Err(UnprotectError::Tag);
    };
    match inspect_request(datagram, decrypted) {
        Ok(read) => Ok(read.opened(datagram)),
        Err(_) => Err(UnprotectError::Inner),
    }
}

/// Decrypts a request that names the context, and encrypts it again.
fn decrypt_and_encrypt(context: &KeyedContext, datagram: &mut [u8]) {
    let Ok(head) = head_of_request(datagram) else {
        return;
    };
    if !head.names(context.context()) {
        return;
    }
    let sealed = head.sealed();
    if decrypt_request(context, datagram, sealed).is_ok() {
        encrypt_again(context, datagram);
    }
}

/// Opens a request by one call over a context, by one over the context that keeps its schedules, and in stages. Encrypted again, it is as
/// it came.
pub(crate) fn opened_request(fields: &Fields<'_>, context: &KeyedContext, answer: &mut Answer) {
    fields.count(2);
    let came = fields.bytes(1);
    let mut datagram = fields.copy(1);
    let outcome = open_request(context.context(), datagram.as_mut_slice());
    opened(outcome, answer);
    answer.left(came, datagram.as_slice());
    answer.again();
    let mut datagram = fields.copy(1);
    opened(context.open_request(datagram.as_mut_slice()), answer);
    answer.left(came, datagram.as_slice());
    answer.again();
    let mut datagram = fields.copy(1);
    opened(request_in_stages(context, datagram.as_mut_slice()), answer);
    answer.left(came, datagram.as_slice());
    let mut datagram = fields.copy(1);
    decrypt_and_encrypt(context, datagram.as_mut_slice());
    answer.is_whole = answer.is_whole && datagram.as_slice() == came;
}

/// Returns what has to be decrypted of a response.
fn sealed_of_response(datagram: &[u8]) -> Result<SealedResponse, UnprotectError>
    ensures { IfOk result (λ x. (s : SecurityContext) (r : Bool) (n : ℕ) → IsSealedResponse (responses_to s r n) datagram.now x) }
{
    let message = match parse(datagram) {
        Ok(message) => message,
        Err(fault) => return Err(UnprotectError::Format(fault)),
    };
    match ResponseHead::read(&message) {
        Ok(head) => Ok(head.sealed()),
        Err(none) => Err(UnprotectError::from(HeadError::from(none))),
    }
}

/// Opens a response in stages.
fn response_in_stages<'b>(
    context: &KeyedContext,
    request: &RequestRef,
    datagram: &'b mut [u8],
) -> Result<Opened<'b>, UnprotectError> {
    let sealed = sealed_of_response(datagram)?;
    let Ok(decrypted) = decrypt_response(context, request, datagram, sealed) else {
        return Err(UnprotectError::Tag);
    };
    match inspect_response(datagram, decrypted) {
        Ok(read) => Ok(read.opened(datagram)),
        Err(_) => Err(UnprotectError::Inner),
    }
}

/// Opens a response by one call over a context, by one over the context that keeps its schedules, and in stages.
pub(crate) fn opened_response(
    fields: &Fields<'_>,
    context: &KeyedContext,
    asked: Asked,
    answer: &mut Answer,
) {
    fields.count(3);
    let Some(number) = fields.partial_iv(1) else {
        return fields.refuse();
    };
    let (request, came) = (request_of(number, asked), fields.bytes(2));
    let mut datagram = fields.copy(2);
    let outcome = open_response(context.context(), &request, datagram.as_mut_slice());
    opened(outcome, answer);
    answer.left(came, datagram.as_slice());
    answer.again();
    let mut datagram = fields.copy(2);
    let outcome = context.open_response(&request, datagram.as_mut_slice());
    opened(outcome, answer);
    answer.left(came, datagram.as_slice());
    answer.again();
    let mut datagram = fields.copy(2);
    let outcome = response_in_stages(context, &request, datagram.as_mut_slice());
    opened(outcome, answer);
    answer.left(came, datagram.as_slice());
}

/// Shows the text that `Debug` prints for a context that keeps its schedules.
pub(crate) fn debug(fields: &Fields<'_>, answer: &mut Answer) {
    match Context::derive(fields.params()) {
        Ok(context) => answer.debugged(&KeyedContext::new(context)),
        Err(refusal) => answer.refused(refusal),
    }
}
