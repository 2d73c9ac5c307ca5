//! Seals a request or a response into the caller's buffer (RFC 8613, 8.1 and 8.3). The length of the sealed message is known before a
//! byte is written.
//!
//!     head, outer code | token | options of class U and Observe, the OSCORE option among them | ff | plaintext, sealed in place | tag

ghost use Rattle.std.specs.Prelude.{◌≡◌, ◌≢◌, ◌≤◌, ◌+◌, [], ℕ, List, length, take, drop, IfOk, IfErr, IsErrOf, IsOk, OnErr, false};
ghost use Rattle.std.specs.Option.{option_map};
ghost use Rattle.arrayvec.specs.ArrayVec.{array_vec_len};
ghost use Rattle.osc_coap.specs.Datagram.{Parts, IsDatagram, datagram_length};
ghost use Rattle.osc_coap.specs.Inner.{IsInner, inner_length};
ghost use Rattle.osc_coap.specs.Views.{parts_of};
ghost use Rattle.osc_context.specs.OscoreValue.{IsOscoreValue, most_len};
ghost use Rattle.osc_context.specs.Views.{as_client, as_server, number_of, oscore_parts_of};
ghost use Rattle.osc_context.specs.declared.features.Features.{Features};
ghost use Rattle.osc_coap.specs.Search.{has_number};
ghost use Rattle.osc_protect.specs.OptionSets.{is_unsupported};
ghost use Rattle.osc_protect.specs.Sealed.{HoldsSealed, inside, outside, sealed_length};
ghost use Rattle.osc_protect.specs.Sealing.{Seals};
ghost use Rattle.osc_protect.specs.SealRefusals.{RefusesSize};
ghost use Rattle.osc_protect.specs.Checks.{Checks, ChecksResponse};
ghost use Rattle.osc_protect.specs.Split.{said};
ghost use Rattle.osc_protect.specs.Usage.{outer_code_of, value_of_response};
ghost use Rattle.osc_protect.specs.Views.{cipher_of, sealed_requests, sealed_responses};
ghost use Rattle.osc_protect.specs.declared.protect_error.ProtectError.{ProtectError};

use crate::aead::Aead;
use crate::checked::{Checked, check};
use crate::ends::Sender;
use crate::family::Family;
use crate::lengths::check_length;
use crate::protect_error::ProtectError;
use crate::request_ref::RequestRef;
use crate::split::{write_behind, write_options};
use crate::usage::{Usage, outer_code};
use arrayvec::ArrayVec;
use osc_ccm::protection_length;
use osc_coap::option_numbers::OSCORE;
use osc_coap::{Message, Writer, options_ascend, payload_stands_last};
use osc_context::{Context, Features, OscoreOption, Piv, one_option_value};

/// The byte in front of a payload.
const MARKER: u8 = 0xff;

/// Writes what stands outside the protection, and the plaintext, each into its buffer. Returns how long each is.
fn write_parts(
    family: Family,
    code: u8,
    value: &[u8],
    plain: &Message<'_>,
    front: &mut [u8],
    buf: &mut [u8],
) -> (usize, usize)
    requires code { code ≢ 0 }
    requires supported { has_number (is_unsupported family.features) (parts_of plain.now).options ≡ false }
    requires value { length value.now ≤ 255 }
    requires outer_room { datagram_length (outside family.features (parts_of plain.now) code value.now []) ≤ length front.old }
    requires outer_fits { datagram_length (outside family.features (parts_of plain.now) code value.now []) ≤ 65535 }
    requires inner_room { inner_length (inside (said family.notifies (parts_of plain.now))) ≤ length buf.old }
    requires inner_fits { inner_length (inside (said family.notifies (parts_of plain.now))) ≤ 65535 }
    ensures outside { IsDatagram (outside family.features (parts_of plain.now) code value.now [])
        (take result.0 front.new) }
    ensures outer_length { result.0 ≡ datagram_length (outside family.features (parts_of plain.now) code value.now []) }
    ensures inside { IsInner (inside (said family.notifies (parts_of plain.now))) (take result.1 buf.new) }
    ensures inner_length { result.1 ≡ inner_length (inside (said family.notifies (parts_of plain.now))) }
    ensures behind { drop result.1 buf.new ≡ drop result.1 buf.old }
    ensures same_front { length front.new ≡ length front.old }
    ensures same_buf { length buf.new ≡ length buf.old }
{
    // For the proof alone.
    options_ascend();
    let mut outer = Writer::begin(front, plain.kind, code, plain.message_id, &plain.token);
    let mut inner = Writer::begin_inner(buf, plain.code);
    write_options(&mut outer, &mut inner, plain.options(), family.sought());
    outer.add_option(OSCORE, value);
    write_behind(&mut outer, plain.options());
    let Ok(()) = inner.payload(plain.payload()) else {
        unreachable!()
    };
    (outer.finish(), inner.finish())
}

/// Seals a plaintext in place. It lies after a message and the place of a marker, and becomes the message's payload.
fn seal_behind(aead: &Aead<'_>, out: &mut [u8], at: usize, len: usize) -> usize
    requires room { at + 9 + len ≤ length out.old }
    requires fits { at + 9 + len ≤ 65535 }
    ensures end { result ≡ at + 9 + len }
    ensures sealed { (p : Parts) → IsDatagram p (take at out.old) → p.payload ≡ [] → p.code ≢ 0
        → IsDatagram (record p { payload = cipher_of aead.now (take len (drop (at + 1) out.old)) })
        (take (at + 9 + len) out.new) }
    ensures behind { drop (at + 9 + len) out.new ≡ drop (at + 9 + len) out.old }
{
    // For the proof alone.
    payload_stands_last();
    protection_length();
    out[at] = MARKER;
    let sealed = aead.seal(&mut out[at + 1..], len);
    at + 1 + sealed
}

/// Writes the value of this OSCORE option.
fn write_value(option: OscoreOption<'_>, value: &mut ArrayVec<u8, 255>)
    requires { most_len (oscore_parts_of option) ≤ 255 }
    ensures reads { IsOscoreValue (oscore_parts_of option.entry) value.new.items }
    ensures short { array_vec_len value.new ≤ 255 }
{
    let Ok(()) = option.write(value) else {
        unreachable!()
    };
}

/// Writes the value of a request's OSCORE option: Partial IV, ID Context and the sender's identifier (RFC 8613, 6.1).
fn write_request_value(context: &Context, number: Piv, value: &mut ArrayVec<u8, 255>)
    ensures reads { IsOscoreValue ((sealed_requests context.now).parts (number_of number)) value.new.items }
    ensures short { array_vec_len value.new ≤ 255 }
{
    let option = OscoreOption {
        piv: Some(number),
        kid_context: context.id_context().map(|id_context| id_context.bytes()),
        kid: Some(context.sender().bytes()),
    };
    write_value(option, value);
}

/// Writes the value of a response's OSCORE option: its own Partial IV, if it has one (RFC 8613, 6.1 and 8.3).
fn write_response_value(own: Option<Piv>, value: &mut ArrayVec<u8, 255>)
    ensures reads { IsOscoreValue (value_of_response (option_map number_of own)) value.new.items }
    ensures short { array_vec_len value.new ≤ 255 }
{
    let option = OscoreOption {
        piv: own,
        kid_context: None,
        kid: None,
    };
    write_value(option, value);
}

/// Seals a message that passed the checks: there is room for it, with the marker at this place.
fn seal_parts(
    family: Family,
    marker: usize,
    code: u8,
    value: &[u8],
    aead: &Aead<'_>,
    plain: &Message<'_>,
    out: &mut [u8],
) -> usize
    requires supported { has_number (is_unsupported family.features) (parts_of plain.now).options ≡ false }
    requires code { code ≡ outer_code_of family.usage family.features (parts_of plain.now).options }
    requires short { length value.now ≤ 255 }
    requires marker { marker ≡ datagram_length (outside family.features (parts_of plain.now) code value.now []) }
    requires fits { sealed_length family.features (said family.notifies) (parts_of plain.now) value.now ≤ 65535 }
    requires room { sealed_length family.features (said family.notifies) (parts_of plain.now) value.now ≤ length out.old }
    ensures sealed { HoldsSealed family.features (said family.notifies) (parts_of plain.now) (outer_code_of family.usage family.features (parts_of plain.now).options) value.now (cipher_of aead.now) (take result out.new) }
    ensures length { result ≡ sealed_length family.features (said family.notifies) (parts_of plain.now) value.now }
    ensures behind { drop result out.new ≡ drop result out.old }
{
    let (front, buf) = out.split_at_mut(marker + 1);
    let (at, len) = write_parts(family, code, value, plain, front, buf);
    seal_behind(aead, out, at, len)
}

/// Checks the length of a message that can be sealed, then seals it.
#[inline(always)]
fn seal_in_room(
    family: Family,
    checked: Checked,
    value: &[u8],
    aead: &Aead<'_>,
    plain: &Message<'_>,
    out: &mut [u8],
) -> Result<usize, ProtectError>
    requires checked { Checks family (parts_of plain.now) checked }
    requires short { length value.now ≤ 255 }
    ensures sealed { IfOk result (λ n. HoldsSealed family.features (said family.notifies) (parts_of plain.now) (outer_code_of family.usage family.features (parts_of plain.now).options) value.now (cipher_of aead.now) (take n out.new)) }
    ensures length { IfOk result (λ n. n ≡ sealed_length family.features (said family.notifies) (parts_of plain.now) value.now) }
    ensures fits { IfOk result (λ n. n ≤ 65535) }
    ensures room { IfOk result (λ n. n ≤ length out.old) }
    ensures within { IfOk result (λ n. n ≤ length out.new) }
    ensures behind { IfOk result (λ n. drop n out.new ≡ drop n out.old) }
    ensures refused { IfErr result (λ e. RefusesSize (sealed_length family.features (said family.notifies) (parts_of plain.now) value.now) (length out.old) e) }
    ensures unchanged { OnErr result (out.new ≡ out.old) }
{
    let layout = check_length(family, checked, plain, value, out.len())?;
    let code = outer_code(family.usage, layout.observes);
    let len = seal_parts(family, layout.marker, code, value, aead, plain, out);
    Ok(len)
}

/// Seals a request with the sender's next Sender Sequence Number, and returns how many bytes it takes at the front of `out`. The bytes
/// after them stay unchanged. Type, Message ID and token are the plain message's; the outer code is 0.02, or 0.05 if the message has
/// Observe. An Observe that isn't the first, or has more than 3 bytes, is as if it weren't one (RFC 7252, 5.4.3 and 5.4.5; RFC 7641, 2).
/// Returns the first refusal in the order of `ProtectError`. A refusal leaves `out` unchanged. The caller keeps the number fresh: no two
/// messages may be sealed with the same one (RFC 8613, 8.1).
pub fn seal_request(
    context: &Context,
    number: Piv,
    plain: &Message<'_>,
    out: &mut [u8],
) -> Result<usize, ProtectError>
    ensures { Seals (sealed_requests context.now) (number_of number) (parts_of plain.now) out.old out.new result }
{
    seal_request_by(Sender::of(context), number, plain, out)
}

/// Seals a response to a request, with the server's own Partial IV or else with the request's nonce. Returns how many bytes it takes at the
/// front of `out`; the bytes after them stay unchanged. Type, Message ID and token are the plain message's; the outer code is 2.04, or 2.05
/// if the message has Observe. A response may have Observe only if its code is of class 2 and the request registers an observation; its
/// value then stands outside alone. What counts as Observe is as for a request. Returns the first refusal in the order of `ProtectError`. A
/// refusal leaves `out` unchanged. The caller keeps that Partial IV fresh, and seals at most one response without one to each request (RFC
/// 8613, 4.1.3.5.2 and 8.3).
pub fn seal_response(
    context: &Context,
    request: &RequestRef,
    own: Option<Piv>,
    plain: &Message<'_>,
    out: &mut [u8],
) -> Result<usize, ProtectError>
    ensures { Seals (sealed_responses context.now request.now) (option_map number_of own) (parts_of plain.now) out.old out.new result }
{
    seal_response_by(Sender::of(context), request, own, plain, out)
}

/// Seals a request under the sender's key.
pub(crate) fn seal_request_by(
    sender: Sender<'_>,
    number: Piv,
    plain: &Message<'_>,
    out: &mut [u8],
) -> Result<usize, ProtectError>
    ensures { Seals (sealed_requests sender.entry.context.now) (number_of number) (parts_of plain.now) out.old out.new result }
{
    // For the proof alone.
    one_option_value();
    let context = sender.context;
    let family = Family {
        usage: Usage::Request,
        features: context.features(),
        notifies: false,
    };
    let checked = check(family, plain)?;
    let mut value = ArrayVec::new();
    write_request_value(context, number, &mut value);
    let aead = Aead::of_request(sender.end(), context.common_iv(), number);
    seal_in_room(family, checked, value.as_slice(), &aead, plain, out)
}

/// Seals a response under the sender's key.
pub(crate) fn seal_response_by(
    sender: Sender<'_>,
    request: &RequestRef,
    own: Option<Piv>,
    plain: &Message<'_>,
    out: &mut [u8],
) -> Result<usize, ProtectError>
    ensures { Seals (sealed_responses sender.entry.context.now request.now) (option_map number_of own) (parts_of plain.now) out.old out.new result }
{
    // For the proof alone.
    one_option_value();
    let family = Family::of_response(sender.context, request);
    let checked = check(family, plain)?;
    seal_checked_response(sender, request, own, checked, plain, out)
}

/// Seals a response that was checked, if it isn't too long and there is room for it.
pub(crate) fn seal_checked_response(
    sender: Sender<'_>,
    request: &RequestRef,
    own: Option<Piv>,
    checked: Checked,
    plain: &Message<'_>,
    out: &mut [u8],
) -> Result<usize, ProtectError>
    requires { ChecksResponse sender.context.now request.now (parts_of plain.now) checked }
    ensures { Seals (sealed_responses sender.entry.context.now request.now) (option_map number_of own) (parts_of plain.now) out.old out.new result }
{
    // For the proof alone.
    one_option_value();
    let family = Family::of_response(sender.context, request);
    let context = sender.context;
    let mut value = ArrayVec::new();
    write_response_value(own, &mut value);
    let aead = Aead::of_response(
        sender.end(),
        context.common_iv(),
        context.recipient(),
        request.number,
        own,
    );
    seal_in_room(family, checked, value.as_slice(), &aead, plain, out)
}
