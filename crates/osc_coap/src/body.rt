//! The options and the payload after a message's head.

ghost use Rattle.std.specs.Prelude.{◌≡◌, ◌≤◌, length, drop, IfOk, IfErr};
ghost use Rattle.osc_coap.specs.Reading.{AreOptions, options_in};
ghost use Rattle.osc_coap.specs.Ends.{EndsOptions, IsBody};
ghost use Rattle.osc_coap.specs.Fault.{HasItemFault, HasFaultFrom};

use crate::format_error::{Fault, FormatError};
use crate::options::take_option;

/// The byte before a payload (RFC 7252, 3).
pub(crate) const PAYLOAD_MARKER: u8 = 0xff;

/// The bytes of the options, and the payload.
#[derive(Clone, Copy)]
pub(crate) struct Body<'a> {
    pub(crate) options: &'a [u8],
    pub(crate) payload: &'a [u8],
}

/// Returns how many bytes the options at the front take.
fn options_len(bytes: &[u8]) -> Result<usize, FormatError>
    ensures ends { IfOk result (EndsOptions bytes.now) }
    ensures fault { IfErr result (λ e. HasItemFault bytes.now e.fault e.place) }
{
    let mut number = 0;
    let mut rest = bytes;
    while !rest.is_empty() {
        let place = bytes.len() - rest.len();
        if rest[0] == PAYLOAD_MARKER {
            return Ok(place);
        }
        match take_option(number, rest) {
            Ok(item) => {
                number = item.number;
                rest = item.rest;
            }
            Err(fault) => return Err(fault.at(place)),
        }
    }
    Ok(bytes.len())
}

/// Separates the options from the payload.
fn split(bytes: &[u8]) -> Result<Body<'_>, FormatError>
    ensures spelled { IfOk result (λ x. AreOptions 0 x.options.now) }
    ensures body { IfOk result (λ x. IsBody (options_in 0 x.options.now) x.payload.now bytes.now) }
    ensures fault { IfErr result (λ e. HasItemFault bytes.now e.fault e.place) }
{
    let place = options_len(bytes)?;
    let (options, tail) = bytes.split_at(place);
    match tail {
        [] => Ok(Body {
            options,
            payload: tail,
        }),
        [_] => Err(Fault::EmptyPayload.at(place)),
        [_, payload @ ..] => Ok(Body { options, payload }),
    }
}

/// Reads the body after the first `start` bytes. The place of a fault is counted from the front of all the bytes.
pub(crate) fn body_behind(bytes: &[u8], start: usize) -> Result<Body<'_>, FormatError>
    requires { start ≤ length bytes.now }
    ensures spelled { IfOk result (λ x. AreOptions 0 x.options.now) }
    ensures body { IfOk result (λ x. IsBody (options_in 0 x.options.now) x.payload.now (drop start bytes.now)) }
    ensures fault { IfErr result (λ e. HasFaultFrom start bytes.now e.fault e.place) }
{
    let (_, rest) = bytes.split_at(start);
    match split(rest) {
        Ok(body) => Ok(body),
        Err(error) => Err(error.fault.at(start + error.place)),
    }
}
