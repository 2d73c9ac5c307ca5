//! A plain message with an Echo option more (RFC 7252, 3.1; RFC 9175, 2.3).
//!
//!     head, token | options up to 252, as they are | Echo, 252 | options from 253 on, as they are | ff, payload

ghost use Rattle.std.specs.Prelude.{◌≡◌, ◌≢◌, ◌≤◌, ℕ, List, [], ◌∷◌, false, true, None, IsOk, IfOk, IfErr, IsErrOf, OnOk, length, take, drop};
ghost use Rattle.osc_coap.specs.Datagram.{IsDatagram, datagram_length};
ghost use Rattle.osc_coap.specs.Views.{options_left, parts_of};
ghost use Rattle.osc_coap.specs.Writer.{Holds, buffer_of};
ghost use Rattle.osc_coap.specs.Writing.{Datagram, Draft, IsFirstReason, with_options};
ghost use Rattle.osc_protect.specs.Split.{TakesAll};
ghost use Rattle.osc_fresh.specs.Echoing.{echo_in};
ghost use Rattle.osc_fresh.specs.Sides.{head_only, is_on, side};
ghost use Rattle.osc_fresh.specs.WithEcho.{RefusesEcho, TakesEcho, with_echo};

use osc_coap::option_numbers::ECHO;
use osc_coap::{Message, Options, WriteError, Writer, head_len, options_ascend};

/// Returns whether a message has an Echo option.
pub(crate) fn has_echo(plain: &Message<'_>) -> bool
    ensures yes { result ≡ true → echo_in (parts_of plain.now) ≡ None → ⊥ }
    ensures no { result ≡ false → echo_in (parts_of plain.now) ≡ None }
{
    plain.options().first(ECHO).is_some()
}

/// Returns whether an option of this number stands on a side of the Echo option: behind it, or else in front of it.
fn is_on_side(behind: bool, number: u16) -> bool
    ensures { result ≡ is_on behind number }
{
    if behind {
        number > ECHO
    } else {
        number <= ECHO
    }
}

/// Writes an option, if it stands on this side of the Echo option.
fn write_option(
    writer: &mut Writer<'_>,
    behind: bool,
    number: u16,
    value: &[u8],
) -> Result<(), WriteError>
    ensures same_reference { buffer_of writer.new ≡ buffer_of writer.old }
    ensures taken { OnOk result ((draft : Draft) (old : List ℕ) → Holds writer.old draft old
        → Holds writer.new (with_options draft (side behind ((number, value.now) ∷ []))) old) }
    ensures accepts { (draft : Draft) (old : List ℕ) → Holds writer.old draft old
        → TakesAll (length old) draft (side behind ((number, value.now) ∷ [])) → IsOk result }
{
    if is_on_side(behind, number) {
        return writer.option(number, value);
    }
    Ok(())
}

/// Writes the options on one side of the Echo option, in order.
fn write_side(writer: &mut Writer<'_>, behind: bool, options: Options<'_>) -> Result<(), WriteError>
    ensures same_reference { buffer_of writer.new ≡ buffer_of writer.old }
    ensures taken { OnOk result ((draft : Draft) (old : List ℕ) → Holds writer.old draft old
        → Holds writer.new (with_options draft (side behind (options_left options.entry))) old) }
    ensures accepts { (draft : Draft) (old : List ℕ) → Holds writer.old draft old
        → TakesAll (length old) draft (side behind (options_left options.entry)) → IsOk result }
{
    for (number, value) in options {
        write_option(writer, behind, number, value)?;
    }
    Ok(())
}

/// Writes what comes behind the head: the options with the Echo option among them, and the payload.
fn write_behind_head(
    writer: &mut Writer<'_>,
    plain: &Message<'_>,
    echo: &[u8],
) -> Result<(), WriteError>
    ensures same_reference { buffer_of writer.new ≡ buffer_of writer.old }
    ensures taken { OnOk result ((old : List ℕ) → Holds writer.old (head_only (parts_of plain.now)) old
        → Holds writer.new (Datagram (with_echo echo.now (parts_of plain.now))) old) }
    ensures accepts { (old : List ℕ) → Holds writer.old (head_only (parts_of plain.now)) old
        → TakesEcho (length old) echo.now (parts_of plain.now) → IsOk result }
{
    // For the proof alone.
    options_ascend();
    let options = plain.options();
    write_side(writer, false, options)?;
    writer.option(ECHO, echo)?;
    write_side(writer, true, options)?;
    writer.payload(plain.payload())
}

/// Writes a plain message with an Echo option of this value more at the front of `room`, and returns its length in bytes. The option stands
/// behind those of a lower number, and behind an Echo option that the message has; all else of the message stays. The bytes behind it stay
/// too. Refuses an Empty message with EmptyWithRest, and with NoRoom what would have more bytes than `room`, or more than 65,535; what is at
/// the front of `room` then may have changed (RFC 7252, 3.1 and 4.1; RFC 9175, 2.3).
pub fn write_with_echo(
    plain: &Message<'_>,
    echo: &[u8],
    room: &mut [u8],
) -> Result<usize, WriteError>
    ensures written { IfOk result (λ n. IsDatagram (with_echo echo.now (parts_of plain.now)) (take n room.new)) }
    ensures length { IfOk result (λ n. n ≡ datagram_length (with_echo echo.now (parts_of plain.now))) }
    ensures within { IfOk result (λ n. n ≤ length room.new) }
    ensures behind { IfOk result (λ n. drop n room.new ≡ drop n room.old) }
    ensures accepted { IsOk result → TakesEcho (length room.old) echo.now (parts_of plain.now) }
    ensures accepts { TakesEcho (length room.old) echo.now (parts_of plain.now) → IsOk result }
    ensures refused { IfErr result (IsFirstReason (RefusesEcho (length room.old) echo.now (parts_of plain.now))) }
    ensures refuses { (e : WriteError) → IsFirstReason (RefusesEcho (length room.old) echo.now (parts_of plain.now)) e
        → IsErrOf result e }
{
    if plain.code == 0 {
        return Err(WriteError::EmptyWithRest);
    }
    if room.len() < head_len(&plain.token) {
        return Err(WriteError::NoRoom);
    }
    let mut writer = Writer::begin(room, plain.kind, plain.code, plain.message_id, &plain.token);
    let Ok(()) = write_behind_head(&mut writer, plain, echo) else {
        return Err(WriteError::NoRoom);
    };
    Ok(writer.finish())
}
