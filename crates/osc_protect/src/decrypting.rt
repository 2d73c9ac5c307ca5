//! The stage of opening that needs a key: it decrypts a payload in place (RFC 8613, 8.2 and 8.4). The head was read before, and it names
//! the context, so the only refusal is a bad tag.

ghost use Rattle.std.specs.Prelude.{◌≡◌, ℕ, List, IfOk, IsErr, IsOk, OnErr};
ghost use Rattle.osc_protect.specs.Refusals.{RefusesTag};
ghost use Rattle.osc_protect.specs.Stages.{Decrypts, HoldsPlaintext};
ghost use Rattle.osc_protect.specs.StageViews.{DecryptsRequest, DecryptsResponse, FitsRequest, FitsResponse, IsSealedRequest, IsSealedResponse};
ghost use Rattle.osc_protect.specs.Views.{context_of, opened_requests, opened_responses};

use crate::aead::Aead;
use crate::ends::Recipient;
use crate::keyed_context::KeyedContext;
use crate::laws::one_head;
use crate::request_head::head_of_request;
use crate::request_ref::RequestRef;
use crate::stage_error::BadTag;
use crate::stages::{DecryptedRequest, DecryptedResponse, SealedRequest, SealedResponse};
use osc_ccm::{AesCcm16_64_128, protection_length};
use osc_coap::{one_text, payload_stands_last};

/// Decrypts a request in its datagram. `sealed` comes from the datagram's head, and this head names the context. On `Ok` the payload is the
/// plaintext, followed by the old tag (RFC 8613, 8.2, steps 3 to 6).
pub fn decrypt_request(
    context: &KeyedContext,
    datagram: &mut [u8],
    sealed: SealedRequest,
) -> Result<DecryptedRequest, BadTag>
    requires { IsSealedRequest (opened_requests (context_of context.now)) datagram.old sealed }
    ensures decrypted { IfOk result (λ x. DecryptsRequest (opened_requests (context_of context.now)) datagram.old x datagram.new) }
    ensures placed { IfOk result (λ x. FitsRequest datagram.new x) }
    ensures accepts { HoldsPlaintext (opened_requests (context_of context.now)) datagram.old → IsOk result }
    ensures refused { OnErr result (RefusesTag (opened_requests (context_of context.now)) datagram.old) }
    ensures refuses { RefusesTag (opened_requests (context_of context.now)) datagram.old → IsErr result }
    ensures unchanged { OnErr result (datagram.new ≡ datagram.old) }
{
    // For the proof alone.
    one_head();
    decrypt_request_by(context.recipient(), datagram, sealed)
}

/// Decrypts a response in its datagram. `sealed` comes from the datagram's head. On `Ok` the payload is the plaintext, followed by the old
/// tag (RFC 8613, 8.4, steps 3 to 6).
pub fn decrypt_response(
    context: &KeyedContext,
    request: &RequestRef,
    datagram: &mut [u8],
    sealed: SealedResponse,
) -> Result<DecryptedResponse, BadTag>
    requires { IsSealedResponse (opened_responses (context_of context.now) request.now) datagram.old sealed }
    ensures decrypted { IfOk result (λ x. DecryptsResponse (opened_responses (context_of context.now) request.now) datagram.old x datagram.new) }
    ensures placed { IfOk result (λ x. FitsResponse datagram.new x) }
    ensures accepts { HoldsPlaintext (opened_responses (context_of context.now) request.now) datagram.old → IsOk result }
    ensures refused { OnErr result (RefusesTag (opened_responses (context_of context.now) request.now) datagram.old) }
    ensures refuses { RefusesTag (opened_responses (context_of context.now) request.now) datagram.old → IsErr result }
    ensures unchanged { OnErr result (datagram.new ≡ datagram.old) }
{
    // For the proof alone.
    one_head();
    decrypt_response_by(context.recipient(), request, datagram, sealed)
}

/// Encrypts a request again that was decrypted in its datagram, so that the datagram is as it came: an end that can't obey a request yet takes
/// it anew later. The head, which decrypting left, says the number and where the plaintext lies. The payload of any other request is encrypted
/// too, but for one that has no room for a tag; what has no head of a request stays as it is (RFC 8613, 5.3).
pub fn encrypt_again(context: &KeyedContext, datagram: &mut [u8])
    ensures { (came : List ℕ) (n len : ℕ) → Decrypts (opened_requests (context_of context.now)) came n len datagram.old → datagram.new ≡ came }
{
    // For the proof alone.
    one_head();
    one_text();
    payload_stands_last();
    protection_length();
    let Ok(head) = head_of_request(datagram) else {
        return;
    };
    let (number, len) = (head.number, head.payload.len());
    if len < AesCcm16_64_128::TAG_LEN {
        return;
    }
    let recipient = context.recipient();
    let common_iv = recipient.context.common_iv();
    let aead = Aead::of_request(recipient.end(), common_iv, number);
    aead.seal_payload(datagram, len);
}

/// Decrypts a request under the recipient's key.
pub(crate) fn decrypt_request_by(
    recipient: Recipient<'_>,
    datagram: &mut [u8],
    sealed: SealedRequest,
) -> Result<DecryptedRequest, BadTag>
    requires { IsSealedRequest (opened_requests recipient.context.now) datagram.old sealed }
    ensures decrypted { IfOk result (λ x. DecryptsRequest (opened_requests recipient.entry.context.now) datagram.old x datagram.new) }
    ensures placed { IfOk result (λ x. FitsRequest datagram.new x) }
    ensures refused { OnErr result (RefusesTag (opened_requests recipient.entry.context.now) datagram.old) }
    ensures unchanged { OnErr result (datagram.new ≡ datagram.old) }
{
    let number = sealed.number;
    let aead = Aead::of_request(recipient.end(), recipient.context.common_iv(), number);
    match aead.open_payload(datagram, sealed.len) {
        Some(len) => Ok(DecryptedRequest {
            features: recipient.context.features(),
            number,
            len,
        }),
        None => Err(BadTag),
    }
}

/// Decrypts a response under the recipient's key.
pub(crate) fn decrypt_response_by(
    recipient: Recipient<'_>,
    request: &RequestRef,
    datagram: &mut [u8],
    sealed: SealedResponse,
) -> Result<DecryptedResponse, BadTag>
    requires { IsSealedResponse (opened_responses recipient.context.now request.now) datagram.old sealed }
    ensures decrypted { IfOk result (λ x. DecryptsResponse (opened_responses recipient.entry.context.now request.now) datagram.old x datagram.new) }
    ensures placed { IfOk result (λ x. FitsResponse datagram.new x) }
    ensures refused { OnErr result (RefusesTag (opened_responses recipient.entry.context.now request.now) datagram.old) }
    ensures unchanged { OnErr result (datagram.new ≡ datagram.old) }
{
    let context = recipient.context;
    let number = sealed.number;
    let client = context.sender();
    let aead = Aead::of_response(
        recipient.end(),
        context.common_iv(),
        client,
        request.number,
        number,
    );
    match aead.open_payload(datagram, sealed.len) {
        Some(len) => Ok(DecryptedResponse {
            features: request.features(context),
            number,
            len,
        }),
        None => Err(BadTag),
    }
}
