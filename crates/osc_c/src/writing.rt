//! Writes a plain message for C, so that nobody has to write the deltas of options by hand.

ghost use Rattle.std.specs.Prelude.{◌≡◌, ◌≢◌, ◌≤◌, ◌<◌, ◌+◌, ℕ, List, IfNone, IfSome, IsSome, IsOk, IfOk, IfErr, true, false, take, drop, length, map, []};
ghost use Rattle.osc_coap.specs.Datagram.{IsDatagram, datagram_length};
ghost use Rattle.osc_coap.specs.OptionSpelling.{Ascends, spelling_length, marked};
ghost use Rattle.osc_coap.specs.Writer.{Holds, buffer_of};
ghost use Rattle.osc_coap.specs.Writing.{Draft, HasRoom, with_options};
ghost use Rattle.osc_c.specs.Opened.{option_in};
ghost use Rattle.osc_status.specs.Statuses.{code as status_code};
ghost use Rattle.osc_c.specs.Writing.{HaveLengths, IsAloneWhereEmpty, IsFirstBad, RefusesWriting, kind_at, message_asked, message_of_kind};
ghost use Rattle.osc_c.specs.WritingSteps.{CanBeWritten, TakesAll};
ghost use Rattle.osc_status.specs.declared.status.Status.{Status as StatusOf};

use crate::opened_view::OptionView;
use osc_coap::{
    Kind, MOST_DATAGRAM, Token, Writer, head_len, lengths_by_parts, option_len, options_ascend,
};
use osc_status::{DONE, Refusal, Status};

/// The greatest length of an option's value in bytes (RFC 7252, 3.1).
const MOST_VALUE: usize = 13 + 256 + 65_535;

/// Returns the kind that has this number in the Type field of a datagram (RFC 7252, 3), if there is one.
fn kind_of(number: u8) -> Option<Kind>
    ensures made { IfSome result (λ kind. kind ≡ kind_at number) }
    ensures accepted { IsSome result → number ≤ 3 }
    ensures accepts { number ≤ 3 → IsSome result }
{
    match number {
        0 => Some(Kind::Con),
        1 => Some(Kind::Non),
        2 => Some(Kind::Ack),
        3 => Some(Kind::Rst),
        _ => None,
    }
}

/// Returns the token of these bytes, or `None` if there are too many.
fn token_of(bytes: &[u8]) -> Option<Token>
    ensures made { IfSome result (λ token. token.items ≡ bytes.now) }
    ensures accepted { IsSome result → length bytes.now ≤ 8 }
    ensures accepts { length bytes.now ≤ 8 → IsSome result }
{
    let mut token = Token::new();
    match token.try_extend_from_slice(bytes) {
        Ok(()) => Some(token),
        Err(_) => None,
    }
}

/// Returns the index of the first option whose number is below the number of the one before it.
fn late_option(options: &[OptionView<'_>]) -> Option<usize>
    ensures none { IfNone result (Ascends 0 (map option_in options.now)) }
    ensures some { IfSome result (λ n. IsFirstBad (Ascends 0) (map option_in options.now) n) }
{
    let mut number = 0;
    for index in 0..options.len() {
        if options[index].number < number {
            return Some(index);
        }
        number = options[index].number;
    }
    None
}

/// Returns the index of the first option whose value is longer than an option can encode.
fn long_option(options: &[OptionView<'_>]) -> Option<usize>
    ensures none { IfNone result (HaveLengths (map option_in options.now)) }
    ensures some { IfSome result (λ n. IsFirstBad HaveLengths (map option_in options.now) n) }
{
    for index in 0..options.len() {
        if options[index].value.len() > MOST_VALUE {
            return Some(index);
        }
    }
    None
}

/// Returns how many bytes the options take, or `None` if a datagram can't hold that many.
fn spelled_len(options: &[OptionView<'_>]) -> Option<usize>
    ensures value { IfSome result (λ n. n ≡ spelling_length 0 (map option_in options.now)) }
    ensures most { IfSome result (λ n. n ≤ 65535) }
    ensures none { IfNone result (65535 < spelling_length 0 (map option_in options.now)) }
{
    let mut number = 0;
    let mut len = 0;
    for index in 0..options.len() {
        let option = options[index];
        if option.value.len() > MOST_DATAGRAM {
            return None;
        }
        len += option_len(
            option.number.saturating_sub(number),
            option.value.len() as u16,
        );
        if len > MOST_DATAGRAM {
            return None;
        }
        number = option.number;
    }
    Some(len)
}

/// Returns whether a message of these parts fits into `room` bytes, and into a datagram.
fn has_room(token: &Token, options: &[OptionView<'_>], payload: &[u8], room: usize) -> bool
    ensures yes { result ≡ true → HasRoom room (4 + length token.now.items + spelling_length 0 (map option_in options.now) + length (marked payload.now)) }
    ensures no { result ≡ false → HasRoom room (4 + length token.now.items + spelling_length 0 (map option_in options.now) + length (marked payload.now)) → ⊥ }
{
    let Some(spelled) = spelled_len(options) else {
        return false;
    };
    if payload.len() > MOST_DATAGRAM {
        return false;
    }
    let marked = if payload.is_empty() {
        0
    } else {
        1 + payload.len()
    };
    let len = head_len(token) + spelled + marked;
    len <= room && len <= MOST_DATAGRAM
}

/// Returns whether a message with this code is only its header, if it has to be (RFC 7252, 4.1).
fn is_alone(code: u8, token: &[u8], options: &[OptionView<'_>], payload: &[u8]) -> bool
    ensures yes { result ≡ true → code ≡ 0 → (token.now ≡ []) × (options.now ≡ []) × (payload.now ≡ []) }
    ensures no { result ≡ false → (code ≡ 0 → (token.now ≡ []) × (map option_in options.now ≡ []) × (payload.now ≡ [])) → ⊥ }
{
    code != 0 || token.is_empty() && options.is_empty() && payload.is_empty()
}

/// Returns the kind and the token of a message that can be written into `room` bytes, or the first refusal of it.
fn judge(
    kind: u8,
    code: u8,
    token: &[u8],
    options: &[OptionView<'_>],
    payload: &[u8],
    room: usize,
) -> Result<(Kind, Token), Refusal>
    ensures kind { IfOk result (λ x. x.0 ≡ kind_at kind) }
    ensures token { IfOk result (λ x. x.1.items ≡ token.now) }
    ensures accepted { IsOk result → CanBeWritten kind (message_asked kind code 0 token.now options.now payload.now) }
    ensures room { IsOk result → HasRoom room (datagram_length (message_asked kind code 0 token.now options.now payload.now)) }
    ensures refused { IfErr result (λ r. RefusesWriting kind (message_asked kind code 0 token.now options.now payload.now) room r.status r.detail) }
{
    let Some(kind) = kind_of(kind) else {
        return Err(Status::BadNumber.into());
    };
    let Some(copy) = token_of(token) else {
        return Err(Status::TokenLength.into());
    };
    if !is_alone(code, token, options, payload) {
        return Err(Status::EmptyWithRest.into());
    }
    if let Some(detail) = late_option(options) {
        let status = Status::OptionOrder;
        return Err(Refusal { status, detail });
    }
    if let Some(detail) = long_option(options) {
        let status = Status::ValueTooLong;
        return Err(Refusal { status, detail });
    }
    if !has_room(&copy, options, payload, room) {
        return Err(Status::NoRoom.into());
    }
    Ok((kind, copy))
}

/// Writes options after a message that can have them.
fn write_options(writer: &mut Writer<'_>, options: &[OptionView<'_>])
    requires { (draft : Draft) × (old : List ℕ) × Holds writer.old draft old
        × TakesAll (length old) draft (map option_in options.now) }
    ensures same_reference { buffer_of writer.new ≡ buffer_of writer.old }
    ensures written { (draft : Draft) (old : List ℕ) → Holds writer.old draft old
        → Holds writer.new (with_options draft (map option_in options.now)) old }
{
    for index in 0..options.len() {
        let option = options[index];
        let Ok(()) = writer.option(option.number, option.value) else {
            unreachable!()
        };
    }
}

/// Writes a message that was judged, and returns its length.
fn write_judged(
    kind: Kind,
    code: u8,
    message_id: u16,
    token: &Token,
    options: &[OptionView<'_>],
    payload: &[u8],
    out: &mut [u8],
) -> usize
    requires alone { IsAloneWhereEmpty (message_of_kind kind code message_id token.now.items options.now payload.now) }
    requires order { Ascends 0 (map option_in options.now) }
    requires room { HasRoom (length out.old) (datagram_length (message_of_kind kind code message_id token.now.items options.now payload.now)) }
    ensures written { IsDatagram (message_of_kind kind code message_id token.now.items options.now payload.now) (take result out.new) }
    ensures behind { drop result out.new ≡ drop result out.old }
    ensures within { result ≤ length out.new }
{
    let mut writer = Writer::begin(out, kind, code, message_id, token);
    write_options(&mut writer, options);
    let Ok(()) = writer.payload(payload) else {
        unreachable!()
    };
    writer.finish()
}

/// Writes a message of these parts into the first `out_len` bytes of `out`: the one datagram that has these parts (RFC 7252, 3). The
/// options have to be in ascending order of their numbers. A refusal is BadNumber for a kind above 3, TokenLength, EmptyWithRest for
/// a message of code 0.00 with anything in it, OptionOrder or ValueTooLong with the index of the first such option, or NoRoom, in
/// this order. None of them writes a byte.
#[unsafe(no_mangle)]
pub extern "C" fn oscore_write_message_v5(
    kind: u8,
    code: u8,
    message_id: u16,
    token: &[u8],
    options: &[OptionView<'_>],
    payload: &[u8],
    out: &mut [u8],
    out_len: &mut usize,
    detail: &mut usize,
) -> u32
    ensures accepted { result ≡ 0 → kind ≤ 3 }
    ensures written { result ≡ 0 → IsDatagram (message_asked kind code message_id token.now options.now payload.now) (take out_len.new out.new) }
    ensures within { result ≡ 0 → out_len.new ≤ length out.new }
    ensures behind { result ≡ 0 → drop out_len.new out.new ≡ drop out_len.new out.old }
    ensures accepts { (bytes : List ℕ) → kind ≤ 3 → IsDatagram (message_asked kind code message_id token.now options.now payload.now) bytes
        → length bytes ≤ length out.old → result ≡ 0 }
    ensures refused { result ≢ 0 → (status : StatusOf) × (result ≡ status_code status)
        × RefusesWriting kind (message_asked kind code message_id token.now options.now payload.now) (length out.old) status detail.new }
    ensures refuses { (status : StatusOf) (why : ℕ)
        → RefusesWriting kind (message_asked kind code message_id token.now options.now payload.now) (length out.old) status why
        → (result ≡ status_code status) × (detail.new ≡ why) }
    ensures unchanged { result ≢ 0 → (out.new ≡ out.old) × (out_len.new ≡ out_len.old) }
{
    // For the proof alone.
    lengths_by_parts();
    options_ascend();
    match judge(kind, code, token, options, payload, out.len()) {
        Ok((kind, token)) => {
            *out_len = write_judged(kind, code, message_id, &token, options, payload, out);
            DONE
        }
        Err(refusal) => {
            *detail = refusal.detail;
            refusal.status.code()
        }
    }
}
