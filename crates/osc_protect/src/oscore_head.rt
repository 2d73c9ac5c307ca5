//! What a protected message shows to a reader without the key (RFC 8613, 8.2 and 8.4, steps 1 and 2).

ghost use Rattle.std.specs.Prelude.{◌≡◌, IfOk, IfErr};
ghost use Rattle.osc_coap.specs.Views.{parts_of};

use crate::head_error::{HeadError, NoHead};
use crate::option_search::{Found, OuterOptions};
use crate::usage::{Usage, is_complete, is_used};
use osc_coap::{Kind, Message, Token, parse};
use osc_context::OscoreOption;

/// The head of a protected message.
#[derive(Drop)]
pub(crate) struct OscoreHead<'a> {
    pub(crate) kind: Kind,
    pub(crate) message_id: u16,
    pub(crate) token: Token,
    pub(crate) option: OscoreOption<'a>,
    pub(crate) payload: &'a [u8],
}

ghost use Rattle.osc_protect.specs.Head.{HasHead, HasNoHead, ShowsNoHead, ShowsHead};
ghost use Rattle.osc_protect.specs.Views.{head_of};

/// Returns a copy of the token.
fn copy_of(token: &Token) -> Token
    ensures { result.items ≡ token.now.items }
{
    let mut copy = Token::new();
    copy.try_extend_from_slice(token.as_slice()).unwrap();
    copy
}

/// Reads the head of a message.
pub(crate) fn head_of<'a>(usage: Usage, message: &Message<'a>) -> Result<OscoreHead<'a>, NoHead>
    ensures head { IfOk result (λ h. ShowsHead usage (parts_of message.now) (head_of h)) }
    ensures refused { IfErr result (λ e. ShowsNoHead usage (parts_of message.now) e) }
{
    if !is_used(usage, message) {
        return Err(NoHead::NotThatKind);
    }
    let outer = OuterOptions::of(message.options());
    let value = match outer.oscore {
        Found::Nothing => return Err(NoHead::NoOscore),
        Found::One(value) => value,
        Found::More => return Err(NoHead::Undecodable),
    };
    let Ok(option) = OscoreOption::read(value) else {
        return Err(NoHead::Undecodable);
    };
    if !is_complete(usage, option) {
        return Err(NoHead::Undecodable);
    }
    let payload = message.payload();
    if payload.is_empty() || outer.has_proxy {
        return Err(NoHead::Undecodable);
    }
    Ok(OscoreHead {
        kind: message.kind,
        message_id: message.message_id,
        token: copy_of(&message.token),
        option,
        payload,
    })
}

/// Reads the head of a datagram.
pub(crate) fn read_head(usage: Usage, datagram: &[u8]) -> Result<OscoreHead<'_>, HeadError>
    ensures head { IfOk result (λ h. HasHead usage datagram.now (head_of h)) }
    ensures refused { IfErr result (λ e. HasNoHead usage datagram.now e) }
{
    match parse(datagram) {
        Ok(message) => match head_of(usage, &message) {
            Ok(head) => Ok(head),
            Err(none) => Err(HeadError::from(none)),
        },
        Err(error) => Err(HeadError::Format(error)),
    }
}
