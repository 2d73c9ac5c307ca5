//! Which messages can be sealed (RFC 8613, 8.1 and 8.3).

ghost use Rattle.std.specs.Prelude.{◌≡◌, IfErr, IsOk, IsErrOf};
ghost use Rattle.osc_coap.specs.Views.{parts_of};
ghost use Rattle.osc_protect.specs.SealRefusals.{CanBeSealed, IsPlainRequest, IsPlainResponse, RefusesPlain, RefusesPlainRequest, RefusesPlainResponse};
ghost use Rattle.osc_protect.specs.declared.protect_error.ProtectError.{ProtectError};

use crate::option_search::first_unsupported;
use crate::protect_error::ProtectError;
use crate::usage::{Usage, is_used};
use osc_coap::{Message, options_ascend};
use osc_context::Features;

/// Checks whether a context with these features can seal a message as a request, whatever its length. It must be CON or NON with a request
/// code, and must have none of the options 9, 35 and 39, nor 6 unless the context has `observe`, nor 23 and 27 unless it has `blocks`. A
/// refusal names the lowest of these options (RFC 8613, 8.1; own rule: the options).
pub fn check_request(plain: &Message<'_>, features: Features) -> Result<(), ProtectError>
    ensures accepted { IsOk result → IsPlainRequest features (parts_of plain.now) }
    ensures accepts { IsPlainRequest features (parts_of plain.now) → IsOk result }
    ensures refused { IfErr result (λ e. RefusesPlainRequest features (parts_of plain.now) e) }
    ensures refuses { (e : ProtectError) → RefusesPlainRequest features (parts_of plain.now) e → IsErrOf result e }
{
    judge(Usage::Request, features, plain)
}

/// Checks whether a context with these features can seal a message as a response, whatever its length. It must be CON, NON or ACK with a
/// response code, and must have none of the options that a request may not have. For a response to a request that registers no observation,
/// and for one whose code isn't of class 2, pass the features without Observe, as [`Features::unobserved`] returns them (RFC 7641, 4.2;
/// RFC 8613, 4.1.3.5 and 8.3; own rule: the options).
pub fn check_response(plain: &Message<'_>, features: Features) -> Result<(), ProtectError>
    ensures accepted { IsOk result → IsPlainResponse features (parts_of plain.now) }
    ensures accepts { IsPlainResponse features (parts_of plain.now) → IsOk result }
    ensures refused { IfErr result (λ e. RefusesPlainResponse features (parts_of plain.now) e) }
    ensures refuses { (e : ProtectError) → RefusesPlainResponse features (parts_of plain.now) e → IsErrOf result e }
{
    judge(Usage::Response, features, plain)
}

/// Checks the Type and the code, and then the options.
pub(crate) fn judge(
    usage: Usage,
    features: Features,
    plain: &Message<'_>,
) -> Result<(), ProtectError>
    ensures accepted { IsOk result → CanBeSealed usage features (parts_of plain.now) }
    ensures refused { IfErr result (λ e. RefusesPlain usage features (parts_of plain.now) e) }
{
    // For the proof alone.
    options_ascend();
    if !is_used(usage, plain) {
        return Err(ProtectError::NotThatKind);
    }
    match first_unsupported(plain.options(), features) {
        Some(number) => Err(ProtectError::Unsupported(number)),
        None => Ok(()),
    }
}
