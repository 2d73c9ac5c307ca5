//! The last stage of opening: it reads the plaintext of a decrypted datagram, and lends slices of the datagram (RFC 8613, 8.2 and 8.4). The
//! only refusal is a bad plaintext.

ghost use Rattle.std.specs.Prelude.{◌≡◌, ℕ, Bool, List, Option, Some, IfOk, IsErr, IsOk, IsOkAnd, OnErr, OnOk};
ghost use Rattle.osc_coap.specs.Inner.{InnerParts};
ghost use Rattle.osc_context.specs.SecurityContext.{SecurityContext};
ghost use Rattle.osc_context.specs.Views.{number_of};
ghost use Rattle.osc_context.specs.declared.features.Features.{Features};
ghost use Rattle.osc_protect.specs.Halves.{ReadsInner, RefusesInner};
ghost use Rattle.osc_protect.specs.Protection.{Protects, ProtectsRequest, requests, responses_to};
ghost use Rattle.osc_protect.specs.Refusals.{RefusesPlaintext};
ghost use Rattle.osc_protect.specs.Stages.{HasPayloadOf, HasPlaintext};
ghost use Rattle.osc_protect.specs.StageViews.{AcceptsRequestAfter, AcceptsResponseAfter, DecryptsRequest, DecryptsResponse, FitsRequest, FitsResponse, OpensRequestAfter, OpensResponseAfter, RefusesRequestAfter, RefusesResponseAfter, CanLendRequest, CanLendResponse};
ghost use Rattle.osc_protect.specs.Views.{message_of, opened_number};

use crate::laws::{one_notification, one_request, one_response};
use crate::opened::Opened;
use crate::option_search::{OuterUri, has_barred};
use crate::stage_error::BadInner;
use crate::stages::{DecryptedRequest, DecryptedResponse, ReadRequest, ReadResponse};
use crate::usage::{Usage, is_code_of};
use osc_ccm::AesCcm16_64_128;
use osc_coap::{one_datagram, one_inner, parse_inner, parsed, parsed_inner, payload_stands_last};
use osc_context::{Features, Piv};

/// Reads a decrypted request, and borrows nothing: `ReadRequest::opened` lends what was read, without reading it again. Pass in the
/// datagram as `decrypt_request` left it, and the value that it returned (RFC 8613, 8.2).
pub fn inspect_request(
    datagram: &[u8],
    decrypted: DecryptedRequest,
) -> Result<ReadRequest, BadInner>
    requires { FitsRequest datagram.now decrypted }
    ensures placed { IfOk result (λ x. CanLendRequest datagram.now decrypted x) }
    ensures accepted { OnOk result (AcceptsRequestAfter datagram.now decrypted) }
    ensures accepts { (s : SecurityContext) (old : List ℕ) (n : ℕ) (m : InnerParts) → DecryptsRequest (requests s) old decrypted datagram.now
        → ProtectsRequest s n m old → IsOk result }
    ensures refused { OnErr result (RefusesRequestAfter datagram.now decrypted) }
    ensures refuses { (s : SecurityContext) (old : List ℕ) → DecryptsRequest (requests s) old decrypted datagram.now
        → RefusesPlaintext (requests s) old → IsErr result }
{
    // For the proof alone.
    one_datagram();
    one_request();
    let (number, len) = (decrypted.number, decrypted.len);
    match inspect(Usage::Request, decrypted.features, datagram, len) {
        Ok(payload_len) => Ok(ReadRequest {
            number,
            len,
            payload_len,
        }),
        Err(error) => Err(error),
    }
}

impl ReadRequest {
    /// Lends the message, in slices of the datagram. The datagram must be as it was when the value was read from it.
    #[must_use]
    pub fn opened(self, datagram: &[u8]) -> Opened<'_>
        requires { (x : DecryptedRequest) × CanLendRequest datagram.now x self }
        ensures { (x : DecryptedRequest) → CanLendRequest datagram.now x self → OpensRequestAfter datagram.now x result }
    {
        // For the proof alone.
        one_datagram();
        let number = Some(self.number);
        lend(Usage::Request, datagram, number, self.len, self.payload_len)
    }
}

/// Reads a decrypted request. Pass in the datagram as `decrypt_request` left it, and the value that it returned.
pub fn read_request(datagram: &[u8], decrypted: DecryptedRequest) -> Result<Opened<'_>, BadInner>
    requires { FitsRequest datagram.now decrypted }
    ensures opened { IfOk result (λ o. OpensRequestAfter datagram.now decrypted o) }
    ensures accepts { (s : SecurityContext) (old : List ℕ) (n : ℕ) (m : InnerParts) → DecryptsRequest (requests s) old decrypted datagram.now
        → ProtectsRequest s n m old → IsOkAnd result (λ o. (opened_number o ≡ Some n) × (message_of o ≡ m)) }
    ensures refused { OnErr result (RefusesRequestAfter datagram.now decrypted) }
    ensures refuses { (s : SecurityContext) (old : List ℕ) → DecryptsRequest (requests s) old decrypted datagram.now
        → RefusesPlaintext (requests s) old → IsErr result }
{
    // For the proof alone.
    one_request();
    match inspect_request(datagram, decrypted) {
        Ok(read) => Ok(read.opened(datagram)),
        Err(error) => Err(error),
    }
}

/// Reads a decrypted response, and borrows nothing: `ReadResponse::opened` lends what was read, without reading it again. Pass in the
/// datagram as `decrypt_response` left it, and the value that it returned (RFC 8613, 8.4).
pub fn inspect_response(
    datagram: &[u8],
    decrypted: DecryptedResponse,
) -> Result<ReadResponse, BadInner>
    requires { FitsResponse datagram.now decrypted }
    ensures placed { IfOk result (λ x. CanLendResponse datagram.now decrypted x) }
    ensures accepted { OnOk result (AcceptsResponseAfter datagram.now decrypted) }
    ensures accepts { (s : SecurityContext) (r : Bool) (n : ℕ) (old : List ℕ) (own : Option ℕ) (m : InnerParts)
        → DecryptsResponse (responses_to s r n) old decrypted datagram.now → Protects (responses_to s r n) own m old → IsOk result }
    ensures refused { OnErr result (RefusesResponseAfter datagram.now decrypted) }
    ensures refuses { (s : SecurityContext) (r : Bool) (n : ℕ) (old : List ℕ) → DecryptsResponse (responses_to s r n) old decrypted datagram.now
        → RefusesPlaintext (responses_to s r n) old → IsErr result }
{
    // For the proof alone.
    one_datagram();
    one_response();
    one_notification();
    let (number, len) = (decrypted.number, decrypted.len);
    match inspect(Usage::Response, decrypted.features, datagram, len) {
        Ok(payload_len) => Ok(ReadResponse {
            number,
            len,
            payload_len,
        }),
        Err(error) => Err(error),
    }
}

impl ReadResponse {
    /// Lends the message, in slices of the datagram. The datagram must be as it was when the value was read from it.
    #[must_use]
    pub fn opened(self, datagram: &[u8]) -> Opened<'_>
        requires { (x : DecryptedResponse) × CanLendResponse datagram.now x self }
        ensures { (x : DecryptedResponse) → CanLendResponse datagram.now x self → OpensResponseAfter datagram.now x result }
    {
        // For the proof alone.
        one_datagram();
        let number = self.number;
        lend(
            Usage::Response,
            datagram,
            number,
            self.len,
            self.payload_len,
        )
    }
}

/// Reads a decrypted response. Pass in the datagram as `decrypt_response` left it, and the value that it returned.
pub fn read_response(datagram: &[u8], decrypted: DecryptedResponse) -> Result<Opened<'_>, BadInner>
    requires { FitsResponse datagram.now decrypted }
    ensures opened { IfOk result (λ o. OpensResponseAfter datagram.now decrypted o) }
    ensures accepts { (s : SecurityContext) (r : Bool) (n : ℕ) (old : List ℕ) (own : Option ℕ) (m : InnerParts)
        → DecryptsResponse (responses_to s r n) old decrypted datagram.now → Protects (responses_to s r n) own m old → IsOkAnd result (λ o. (opened_number o ≡ own) × (message_of o ≡ m)) }
    ensures refused { OnErr result (RefusesResponseAfter datagram.now decrypted) }
    ensures refuses { (s : SecurityContext) (r : Bool) (n : ℕ) (old : List ℕ) → DecryptsResponse (responses_to s r n) old decrypted datagram.now
        → RefusesPlaintext (responses_to s r n) old → IsErr result }
{
    // For the proof alone.
    one_response();
    one_notification();
    match inspect_response(datagram, decrypted) {
        Ok(read) => Ok(read.opened(datagram)),
        Err(error) => Err(error),
    }
}

/// Reads the plaintext of `len` bytes at the front of the payload, and returns the length of the plaintext's own payload.
fn inspect(usage: Usage, features: Features, datagram: &[u8], len: usize) -> Result<usize, BadInner>
    requires { HasPayloadOf datagram.now len }
    ensures accepted { IfOk result (λ n. HasPlaintext usage features datagram.now len n) }
    ensures refused { OnErr result (RefusesInner usage features datagram.now len) }
{
    // For the proof alone.
    payload_stands_last();
    let start = datagram.len() - (len + AesCcm16_64_128::TAG_LEN);
    let Ok(inner) = parse_inner(&datagram[start..start + len]) else {
        return Err(BadInner);
    };
    if !is_code_of(usage, inner.code) {
        return Err(BadInner);
    }
    if has_barred(inner.options(), features) {
        return Err(BadInner);
    }
    Ok(inner.payload().len())
}

/// Lends the parts of a plaintext that was read.
fn lend(
    usage: Usage,
    datagram: &[u8],
    number: Option<Piv>,
    len: usize,
    payload_len: usize,
) -> Opened<'_>
    requires { (x : Features) × HasPlaintext usage x datagram.now len payload_len }
    ensures { (x : Features) → HasPlaintext usage x datagram.now len payload_len → ReadsInner usage x datagram.now number len result }
{
    // For the proof alone.
    one_datagram();
    one_inner();
    let message = parsed(datagram, len + AesCcm16_64_128::TAG_LEN);
    let inner = parsed_inner(&message.payload()[..len], payload_len);
    let uri = OuterUri::of(message.options());
    Opened {
        kind: message.kind,
        message_id: message.message_id,
        uri_host: uri.host,
        uri_port: uri.port,
        token: message.token,
        code: inner.code,
        payload: inner.payload(),
        piv: number,
        inner: inner.options(),
    }
}
