//! What tells a request from a response.

ghost use Rattle.std.specs.Prelude.{◌≡◌, if◌then◌else◌};
ghost use Rattle.osc_context.specs.Views.{oscore_parts_of};

use osc_coap::{Message, is_request_code, is_response_code};
use osc_context::{Features, OscoreOption};

/// The outer code of a sealed request: 0.02, POST (RFC 8613, 4.2).
const OUTER_REQUEST_CODE: u8 = 0x02;

/// The outer code of a sealed response: 2.04, Changed (RFC 8613, 4.2).
const OUTER_RESPONSE_CODE: u8 = 0x44;

/// The outer code of a sealed request with Observe: 0.05, FETCH (RFC 8613, 4.1.3.5).
const OBSERVING_REQUEST_CODE: u8 = 0x05;

/// The outer code of a sealed response with Observe: 2.05, Content (RFC 8613, 4.1.3.5).
const OBSERVING_RESPONSE_CODE: u8 = 0x45;

/// What a message is in an exchange: a request or a response.
#[derive(Clone, Copy)]
pub(crate) enum Usage {
    Request,
    Response,
}

ghost use Rattle.osc_protect.specs.Usage.{is_code_of, is_complete, is_used, observing_code_of, plain_code_of, sealing_features};

/// Returns whether the code belongs to this usage.
pub(crate) fn is_code_of(usage: Usage, code: u8) -> bool
    ensures { result ≡ is_code_of usage code }
{
    match usage {
        Usage::Request => is_request_code(code),
        Usage::Response => is_response_code(code),
    }
}

/// Returns whether the Type and code belong to this usage.
pub(crate) fn is_used(usage: Usage, message: &Message<'_>) -> bool
    ensures { result ≡ is_used usage message.now.kind message.now.code }
{
    match usage {
        Usage::Request => message.is_request(),
        Usage::Response => message.is_response(),
    }
}

/// Returns the features with which a message of this code is sealed: a response whose code isn't of class 2 has no Observe (RFC 7641, 4.2).
pub(crate) fn sealing_features(usage: Usage, features: Features, code: u8) -> Features
    ensures { result ≡ sealing_features usage features code }
{
    match usage {
        Usage::Response if code / 32 != 2 => features.unobserved(),
        Usage::Request | Usage::Response => features,
    }
}

/// Returns the outer code of a sealed message, of which one option counts as Observe or none does.
pub(crate) fn outer_code(usage: Usage, observes: bool) -> u8
    ensures { result ≡ (if observes then observing_code_of usage else plain_code_of usage) }
{
    match (usage, observes) {
        (Usage::Request, false) => OUTER_REQUEST_CODE,
        (Usage::Response, false) => OUTER_RESPONSE_CODE,
        (Usage::Request, true) => OBSERVING_REQUEST_CODE,
        (Usage::Response, true) => OBSERVING_RESPONSE_CODE,
    }
}

/// Returns whether the OSCORE option says what it has to, and no more: in a request a Partial IV and a kid, in a response neither kid nor
/// kid context; own rule: the response (RFC 8613, 5 and 8.3).
pub(crate) fn is_complete(usage: Usage, option: OscoreOption<'_>) -> bool
    ensures { result ≡ is_complete usage (oscore_parts_of option.entry) }
{
    match usage {
        Usage::Request => option.piv.is_some() && option.kid.is_some(),
        Usage::Response => option.kid.is_none() && option.kid_context.is_none(),
    }
}
