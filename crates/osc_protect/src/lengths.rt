//! The length of a sealed message, known before a byte is written.

ghost use Rattle.std.specs.Prelude.{◌≡◌, ◌+◌, ◌++◌, ◌<◌, ◌≤◌, [], List, length, option_copied, IfErr, IfNone, IfOk, IfSome, IsOk};
ghost use Rattle.osc_coap.specs.Datagram.{datagram_length};
ghost use Rattle.osc_coap.specs.OptionSpelling.{Entry, last_number, marked, spelling_length};
ghost use Rattle.osc_coap.specs.Views.{parts_of};
ghost use Rattle.osc_protect.specs.Checks.{Checks};
ghost use Rattle.osc_protect.specs.Sealed.{outside, sealed_length};
ghost use Rattle.osc_protect.specs.SealRefusals.{RefusesSize};
ghost use Rattle.osc_protect.specs.Split.{has_observe, option_with, said};

use crate::checked::Checked;
use crate::family::Family;
use crate::protect_error::ProtectError;
use osc_ccm::AesCcm16_64_128;
use osc_coap::option_numbers::OSCORE;
use osc_coap::{MOST_DATAGRAM, Message, head_len, option_len};

/// A count over the options of one side, up to a place: the number of the last one, and their bytes.
#[derive(Clone, Copy)]
pub(crate) struct Tally {
    pub(crate) number: u16,
    pub(crate) len: usize,
}

impl Tally {
    /// The count before the first option.
    pub(crate) fn new() -> Tally
        ensures { (result.number ≡ 0) × (result.len ≡ 0) }
    {
        Tally { number: 0, len: 0 }
    }

    /// The count before the first option behind the OSCORE option.
    pub(crate) fn behind_oscore() -> Tally
        ensures { (result.number ≡ 9) × (result.len ≡ 0) }
    {
        Tally {
            number: OSCORE,
            len: 0,
        }
    }

    /// Adds one option, if it stands on the side. Returns `None` if the sum is more than a datagram can hold.
    #[inline(always)]
    pub(crate) fn and(self, number: u16, placed: Option<&[u8]>) -> Option<Tally>
        requires { self.len ≤ 65535 }
        ensures length { IfSome result (λ t. (rest : List Entry) → t.len + spelling_length t.number rest
            ≡ self.len + spelling_length self.number (option_with number (option_copied placed.entry) ++ rest)) }
        ensures last { IfSome result (λ t. (rest : List Entry) → last_number t.number rest
            ≡ last_number self.number (option_with number (option_copied placed.entry) ++ rest)) }
        ensures fits { IfSome result (λ t. t.len ≤ 65535) }
        ensures too_long { IfNone result ((rest : List Entry)
            → 65535 < self.len + spelling_length self.number (option_with number (option_copied placed.entry) ++ rest)) }
    {
        let Some(value) = placed else {
            return Some(self);
        };
        if value.len() > MOST_DATAGRAM {
            return None;
        }
        let len = self.len + option_len(number.saturating_sub(self.number), value.len() as u16);
        if len > MOST_DATAGRAM {
            return None;
        }
        Some(Tally { number, len })
    }
}

/// Returns how many bytes a marker and the payload take, or 0 if the payload is empty.
fn marked_len(payload: &[u8]) -> usize
    ensures { result ≡ length (marked payload.now) }
{
    if payload.is_empty() {
        0
    } else {
        1 + payload.len()
    }
}

/// Where a message is sealed: the place of the marker before its plaintext, and whether Observe stands outside.
#[derive(Clone, Copy)]
pub(crate) struct Layout {
    pub(crate) marker: usize,
    pub(crate) observes: bool,
}

/// Checks the length that a message with these lists of options has once it is sealed with this value of the OSCORE option, for a buffer
/// of `room` bytes.
#[inline(always)]
pub(crate) fn check_length(
    family: Family,
    checked: Checked,
    plain: &Message<'_>,
    value: &[u8],
    room: usize,
) -> Result<Layout, ProtectError>
    requires value { length value.now ≤ 255 }
    requires checked { Checks family (parts_of plain.now) checked }
    ensures marker { IfOk result (λ l. l.marker ≡ datagram_length (outside family.features (parts_of plain.now) (parts_of plain.now).code value.now [])) }
    ensures observes { IfOk result (λ l. l.observes ≡ has_observe family.features.observe (parts_of plain.now).options) }
    ensures short { IsOk result → sealed_length family.features (said family.notifies) (parts_of plain.now) value.now ≤ 65535 }
    ensures room { IsOk result → sealed_length family.features (said family.notifies) (parts_of plain.now) value.now ≤ room }
    ensures refused { IfErr result (λ e. RefusesSize (sealed_length family.features (said family.notifies) (parts_of plain.now) value.now) room e) }
{
    let Some(lists) = checked.lists else {
        return Err(ProtectError::TooLong);
    };
    let delta = OSCORE.saturating_sub(lists.outer.number);
    let option = option_len(delta, value.len() as u16);
    let marker = head_len(&plain.token) + lists.outer.len + option + lists.behind.len;
    let plaintext = 1 + lists.inner.len + marked_len(plain.payload());
    let sealed = marker + 1 + plaintext + AesCcm16_64_128::TAG_LEN;
    if sealed > MOST_DATAGRAM {
        return Err(ProtectError::TooLong);
    }
    if sealed > room {
        return Err(ProtectError::NoRoom);
    }
    Ok(Layout {
        marker,
        observes: checked.observes,
    })
}
