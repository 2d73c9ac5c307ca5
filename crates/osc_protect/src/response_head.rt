//! What a protected response shows to a reader without the key (RFC 8613, 8.4, steps 1 and 2).

ghost use Rattle.std.specs.Prelude.{IfOk, IfErr, IsOkAnd, IsErrOf, Bool, List, ℕ, ◌≡◌, true};
ghost use Rattle.osc_coap.specs.Views.{parts_of};
ghost use Rattle.osc_context.specs.Views.{oscore_parts_of};
ghost use Rattle.osc_protect.specs.declared.head_error.NoHead.{NoHead};
ghost use Rattle.osc_protect.specs.declared.usage.Usage.TheVariants.{Response};

use crate::head_error::{HeadError, NoHead};
use crate::laws::one_head;
use crate::oscore_head::{OscoreHead, head_of, read_head};
use crate::stages::SealedResponse;
use crate::usage::Usage;
use osc_coap::{Kind, Message, Token};
use osc_context::Piv;

/// The head of a protected response. None of it counts as protected yet. Its token tells which request it answers.
#[derive(Debug, Drop)]
pub struct ResponseHead<'a> {
    pub kind: Kind,
    pub message_id: u16,
    pub token: Token,
    /// The Partial IV of the response, if it has one of its own.
    pub number: Option<Piv>,
    pub(crate) payload: &'a [u8],
}

ghost use Rattle.osc_protect.specs.Head.{Head, HasNoResponseHead, HasResponseHead, ShowsNoResponseHead, ShowsResponseHead};
ghost use Rattle.osc_protect.specs.Usage.{is_complete};
ghost use Rattle.osc_protect.specs.Views.{head_of, seen_response_head};

impl<'a> ResponseHead<'a> {
    ghost use Rattle.osc_context.specs.SecurityContext.{SecurityContext};
    ghost use Rattle.osc_protect.specs.Protection.{responses_to};
    ghost use Rattle.osc_protect.specs.StageViews.{IsSealedResponse};

    /// Reads what a message, as a protected response, shows to a reader without the key. Returns the first refusal in the order of `NoHead`
    /// (RFC 8613, 8.4, steps 1 and 2).
    pub fn read(message: &Message<'a>) -> Result<ResponseHead<'a>, NoHead>
        ensures head { IfOk result (λ h. ShowsResponseHead (parts_of message.now) (seen_response_head h)) }
        ensures refused { IfErr result (λ e. ShowsNoResponseHead (parts_of message.now) e) }
        ensures accepts { (h : Head) → ShowsResponseHead (parts_of message.now) h → IsOkAnd result (λ x. seen_response_head x ≡ h) }
        ensures refuses { (e : NoHead) → ShowsNoResponseHead (parts_of message.now) e → IsErrOf result e }
    {
        // For the proof alone.
        one_head();
        match head_of(Usage::Response, message) {
            Ok(head) => Ok(of_response(head)),
            Err(none) => Err(none),
        }
    }

    /// Returns what `decrypt_response` needs from the head: where the ciphertext lies, and the Partial IV if there is one.
    #[must_use]
    pub fn sealed(&self) -> SealedResponse
        ensures { (s : SecurityContext) (r : Bool) (n : ℕ) (d : List ℕ) → HasResponseHead d (seen_response_head self.now) → IsSealedResponse (responses_to s r n) d result }
    {
        SealedResponse {
            number: self.number,
            len: self.payload.len(),
        }
    }
}

/// Converts the head of a response, which has no kid and no kid context.
fn of_response(head: OscoreHead<'_>) -> ResponseHead<'_>
    requires { is_complete Response (oscore_parts_of head.option) ≡ true }
    ensures { seen_response_head result ≡ head_of head.entry }
{
    ResponseHead {
        kind: head.kind,
        message_id: head.message_id,
        token: head.token,
        number: head.option.piv,
        payload: head.payload,
    }
}

/// Reads the head of a response's datagram.
pub(crate) fn head_of_response(datagram: &[u8]) -> Result<ResponseHead<'_>, HeadError>
    ensures head { IfOk result (λ h. HasResponseHead datagram.now (seen_response_head h)) }
    ensures refused { IfErr result (λ e. HasNoResponseHead datagram.now e) }
{
    match read_head(Usage::Response, datagram) {
        Ok(head) => Ok(of_response(head)),
        Err(error) => Err(error),
    }
}
