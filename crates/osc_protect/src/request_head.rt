//! What a protected request shows to a reader without the key (RFC 8613, 8.2, steps 1 and 2). It is read separately, because a server needs
//! it to find the context that opens the rest.

ghost use Rattle.std.specs.Prelude.{IfOk, IfErr, IsOkAnd, IsErrOf, List, ℕ, ◌≡◌, ◌≢◌, true, false};
ghost use Rattle.osc_context.specs.Views.{as_server, number_of, oscore_parts_of};
ghost use Rattle.osc_protect.specs.declared.head_error.HeadError.{HeadError};

use crate::head_error::{HeadError, NoHead};
use crate::laws::one_head;
use crate::oscore_head::{OscoreHead, head_of, read_head};
use crate::stages::SealedRequest;
use crate::usage::Usage;
use osc_coap::{Kind, Message, Token};
use osc_context::{Context, Piv};

/// The head of a protected request. None of it counts as protected yet.
#[derive(Debug, Drop)]
pub struct RequestHead<'a> {
    pub kind: Kind,
    pub message_id: u16,
    pub token: Token,
    /// The client's identifier, as the request gives it.
    pub kid: &'a [u8],
    pub kid_context: Option<&'a [u8]>,
    pub number: Piv,
    pub(crate) payload: &'a [u8],
}

ghost use Rattle.osc_protect.specs.Head.{Head, HasNoRequestHead, HasRequestHead};
ghost use Rattle.osc_protect.specs.Usage.{is_complete};
ghost use Rattle.osc_protect.specs.Views.{head_of, seen_head, shown};
ghost use Rattle.osc_protect.specs.declared.usage.Usage.TheVariants.{Request};

impl<'a> RequestHead<'a> {
    ghost use Rattle.osc_context.specs.SecurityContext.{SecurityContext};
    ghost use Rattle.osc_coap.specs.Views.{parts_of};
    ghost use Rattle.osc_protect.specs.Head.{ShowsNoRequestHead, ShowsRequestHead};
    ghost use Rattle.osc_protect.specs.Protection.{requests};
    ghost use Rattle.osc_protect.specs.Refusals.{Names};
    ghost use Rattle.osc_protect.specs.StageViews.{IsSealedRequest};
    ghost use Rattle.osc_protect.specs.Views.{opened_requests};
    ghost use Rattle.osc_protect.specs.declared.head_error.NoHead.{NoHead};

    /// Reads what a message, as a protected request, shows to a reader without the key. Returns the first refusal in the order of `NoHead`
    /// (RFC 8613, 8.2, steps 1 and 2). The Type, Message ID and token of a refused message are those of the message itself.
    pub fn read(message: &Message<'a>) -> Result<RequestHead<'a>, NoHead>
        ensures head { IfOk result (λ h. ShowsRequestHead (parts_of message.now) (seen_head h)) }
        ensures refused { IfErr result (λ e. ShowsNoRequestHead (parts_of message.now) e) }
        ensures accepts { (h : Head) → ShowsRequestHead (parts_of message.now) h → IsOkAnd result (λ x. seen_head x ≡ h) }
        ensures refuses { (e : NoHead) → ShowsNoRequestHead (parts_of message.now) e → IsErrOf result e }
    {
        // For the proof alone.
        one_head();
        match head_of(Usage::Request, message) {
            Ok(head) => Ok(of_request(head)),
            Err(none) => Err(none),
        }
    }

    /// Returns what `decrypt_request` needs from the head: where the ciphertext lies, and the Partial IV.
    #[must_use]
    pub fn sealed(&self) -> SealedRequest
        ensures { (s : SecurityContext) (d : List ℕ) → HasRequestHead d (seen_head self.now) → Names (requests s) (seen_head self.now) (number_of self.now.number)
            → IsSealedRequest (requests s) d result }
    {
        SealedRequest {
            number: self.number,
            len: self.payload.len(),
        }
    }

    /// Returns whether the head names the context of this end, which is the server. [`Context::answers_to`] decides this (RFC 8613, 8.2,
    /// step 2).
    #[must_use]
    pub fn names(&self, context: &Context) -> bool
        ensures yes { result ≡ true → Names (opened_requests context.now) (seen_head self.now) (number_of self.now.number) }
        ensures no { result ≡ false → (n : ℕ) → Names (opened_requests context.now) (seen_head self.now) n → ⊥ }
    {
        context.answers_to(self.kid, self.kid_context)
    }
}

/// Converts the head of a request, which has a Partial IV and a kid.
fn of_request(head: OscoreHead<'_>) -> RequestHead<'_>
    requires { is_complete Request (oscore_parts_of head.option) ≡ true }
    ensures { seen_head result ≡ head_of head.entry }
{
    let (Some(number), Some(kid)) = (head.option.piv, head.option.kid) else {
        unreachable!()
    };
    RequestHead {
        kind: head.kind,
        message_id: head.message_id,
        token: head.token,
        kid,
        kid_context: head.option.kid_context,
        number,
        payload: head.payload,
    }
}

/// Reads what a protected request shows to a reader without the key: Type, Message ID, token, kid, kid context and Partial IV. It does what
/// `parse` and then `RequestHead::read` do. Returns the first refusal in the order of `HeadError` (RFC 8613, 8.2).
pub fn head_of_request(datagram: &[u8]) -> Result<RequestHead<'_>, HeadError>
    ensures head { IfOk result (λ h. HasRequestHead datagram.now (seen_head h)) }
    ensures refused { IfErr result (λ e. HasNoRequestHead datagram.now e) }
    ensures accepts { (h : Head) → HasRequestHead datagram.now h → IsOkAnd result (λ x. seen_head x ≡ h) }
    ensures refuses { (e : HeadError) → HasNoRequestHead datagram.now e → IsErrOf result e }
{
    // For the proof alone.
    one_head();
    match read_head(Usage::Request, datagram) {
        Ok(head) => Ok(of_request(head)),
        Err(error) => Err(error),
    }
}
