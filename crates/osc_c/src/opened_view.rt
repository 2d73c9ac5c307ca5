//! What was opened, as C reads it. Its slices lie in the caller's datagram.

ghost use Rattle.std.specs.Prelude.{◌≡◌, ◌<◌, ◌≤◌, true, false, length, map, take};
ghost use Rattle.std.specs.Option.{option_map};
ghost use Rattle.osc_coap.specs.Datagram.{kind_number};
ghost use Rattle.osc_coap.specs.Views.{options_left};
ghost use Rattle.osc_context.specs.Views.{number_of};
ghost use Rattle.osc_protect.specs.Views.{message_of, opened_number, shown};
ghost use Rattle.osc_c.specs.Opened.{bytes_given, number_given, option_in, Shows};

use osc_coap::{Kind, Options};
use osc_protect::Opened;

/// An option that was opened, or that is to be written.
#[repr(C)]
#[derive(Clone, Copy)]
pub struct OptionView<'b> {
    pub number: u16,
    pub value: &'b [u8],
}

/// A message that was opened. Its Type, Message ID, token, Uri-Host and Uri-Port are those of the datagram, and weren't protected;
/// its code, options and payload were. Its slices lie in the datagram.
#[repr(C)]
#[derive(Clone, Copy)]
pub struct OpenedView<'b> {
    /// 0 for CON, 1 for NON, 2 for ACK.
    pub kind: u8,
    pub code: u8,
    pub message_id: u16,
    pub token: [u8; 8],
    pub token_len: u8,
    pub has_number: bool,
    pub number: u64,
    pub has_uri_host: bool,
    pub uri_host: &'b [u8],
    pub has_uri_port: bool,
    pub uri_port: &'b [u8],
    pub payload: &'b [u8],
    /// How many options were put into the caller's array.
    pub option_count: usize,
    /// Whether there are more options than the array has room for.
    pub has_more_options: bool,
    /// Whether a client heard a notification, so that its request stays pending.
    pub is_notification: bool,
}

/// Returns the number of a kind, as the Type field of a datagram has it (RFC 7252, 3).
pub(crate) fn kind_code(kind: Kind) -> u8
    ensures { result ≡ kind_number kind }
{
    match kind {
        Kind::Con => 0,
        Kind::Non => 1,
        Kind::Ack => 2,
        Kind::Rst => 3,
    }
}

/// Puts options into places until there are no more options or no more places. Returns how many it put, and whether options are left.
fn put_options<'b>(options: Options<'b>, places: &mut [OptionView<'b>]) -> (usize, bool)
    ensures all { result.1 ≡ false → map option_in (take result.0 places.new) ≡ options_left options.entry }
    ensures first { result.1 ≡ true → (map option_in places.new ≡ take (length places.old) (options_left options.entry))
        × (length places.old < length (options_left options.entry)) × (result.0 ≡ length places.old) }
    ensures len { length places.new ≡ length places.old }
{
    let mut count = 0;
    for (number, value) in options {
        if count == places.len() {
            return (count, true);
        }
        places[count] = OptionView { number, value };
        count += 1;
    }
    (count, false)
}

/// Shows a message to C, with its options in these places.
pub(crate) fn show<'b>(
    opened: &Opened<'b>,
    places: &mut [OptionView<'b>],
    view: &mut OpenedView<'b>,
)
    ensures shows { Shows view.new opened.now }
    ensures all { view.new.has_more_options ≡ false → map option_in (take view.new.option_count places.new) ≡ (message_of opened.now).options }
    ensures first { view.new.has_more_options ≡ true → (map option_in places.new ≡ take (length places.old) (message_of opened.now).options)
        × (length places.old < length (message_of opened.now).options) }
{
    let token = opened.token.as_slice();
    view.token[..token.len()].copy_from_slice(token);
    view.token_len = token.len() as u8;
    view.kind = kind_code(opened.kind);
    view.code = opened.code;
    view.message_id = opened.message_id;
    view.has_number = opened.piv.is_some();
    view.number = opened.piv.map_or(0, |piv| piv.number());
    view.has_uri_host = opened.uri_host.is_some();
    view.uri_host = opened.uri_host.unwrap_or(&[]);
    view.has_uri_port = opened.uri_port.is_some();
    view.uri_port = opened.uri_port.unwrap_or(&[]);
    view.payload = opened.payload;
    let (count, more) = put_options(opened.inner(), places);
    view.option_count = count;
    view.has_more_options = more;
    view.is_notification = false;
}
