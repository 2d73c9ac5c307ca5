//! Callers that write, and prove what their own buffer holds from the public contracts alone.

ghost use Rattle.std.specs.Prelude.{◌≡◌, ℕ, List, take, drop, IfOk, IfSome, OnOk};
ghost use Rattle.osc_coap.specs.Datagram.{IsDatagram};
ghost use Rattle.osc_coap.specs.Writing.{Draft, with_options};
ghost use Rattle.osc_coap.specs.Writer.{Holds, buffer_of};
ghost use Rattle.osc_coap.specs.Views.{parts_of, options_left};
ghost use Rattle.osc_callers.specs.Callers.{a_get};

use osc_coap::option_numbers::URI_PATH;
use osc_coap::{
    Kind, Message, Options, Token, WriteError, Writer, head_len, one_text, option_len, parse,
};
use std::process::Abort;
use std::test::Fail;

/// Writes a GET with one path segment and a payload.
fn write_get(
    buf: &mut [u8],
    message_id: u16,
    token: &Token,
    segment: &[u8],
    payload: &[u8],
) -> Result<usize, WriteError>
    ensures written { IfOk result (λ n.
        IsDatagram (a_get message_id token.now.items segment.now payload.now) (take n buf.new)) }
    ensures behind { IfOk result (λ n. drop n buf.new ≡ drop n buf.old) }
{
    if buf.len() < head_len(token) {
        return Err(WriteError::NoRoom);
    }
    let mut writer = Writer::begin(buf, Kind::Con, 1, message_id, token);
    writer.option(URI_PATH, segment)?;
    writer.payload(payload)?;
    Ok(writer.finish())
}

/// Writes a GET with one path segment, into a buffer whose length was checked. So the writer never refuses.
fn write_short_get(
    buf: &mut [u8],
    message_id: u16,
    token: &Token,
    segment: &[u8],
) -> Option<usize> {
    let segment_len = u16::try_from(segment.len()).ok()?;
    let size = head_len(token) + option_len(URI_PATH, segment_len);
    if buf.len() < size || size > 65_535 {
        return None;
    }
    let mut writer = Writer::begin(buf, Kind::Con, 1, message_id, token);
    match writer.option(URI_PATH, segment) {
        Ok(()) => Some(writer.finish()),
        Err(_) => unreachable!(),
    }
}

/// Adds the options.
fn copy_all(writer: &mut Writer<'_>, options: Options<'_>) -> Result<(), WriteError>
    ensures same_reference { buffer_of writer.new ≡ buffer_of writer.old }
    ensures copied { OnOk result ((draft : Draft) (old : List ℕ) → Holds writer.old draft old
        → Holds writer.new (with_options draft (options_left options.entry)) old) }
{
    for (number, value) in options {
        writer.option(number, value)?;
    }
    Ok(())
}

/// Writes a message anew, as it was read.
fn write_message(message: &Message<'_>, out: &mut [u8]) -> Result<usize, WriteError>
    ensures written { IfOk result (λ n. IsDatagram (parts_of message.now) (take n out.new)) }
{
    if message.code == 0 && !message.token.is_empty() {
        return Err(WriteError::EmptyWithRest);
    }
    if out.len() < head_len(&message.token) {
        return Err(WriteError::NoRoom);
    }
    let mut writer = Writer::begin(
        out,
        message.kind,
        message.code,
        message.message_id,
        &message.token,
    );
    copy_all(&mut writer, message.options())?;
    writer.payload(message.payload())?;
    Ok(writer.finish())
}

/// Reads a datagram and writes it anew, which gives the same bytes.
fn write_again(datagram: &[u8], out: &mut [u8]) -> Option<usize>
    ensures { IfSome result (λ n. take n out.new ≡ datagram.now) }
{
    one_text();
    let message = parse(datagram).ok()?;
    write_message(&message, out).ok()
}

/// Makes a token of these bytes, at most 8.
fn token_of(rt: &impl Abort, bytes: &[u8]) -> Token {
    let mut token = Token::new();
    let copied = token.try_extend_from_slice(bytes);
    assert!(rt; copied.is_ok(), "a token of at most 8 bytes");
    token
}

// The protected request and response of RFC 8613, C.4 and C.7. Reading and writing them again gives the same bytes.
#[test]
fn datagrams_of_the_standard(rt: HostRuntime) {
    let rows = [
        b"D\x02\x5d\x1f\x00\x009t9localhostb\x09\x14\xffa\x2f\x10\x92\xf1wo\x1c\x16h\xb3\x82\x5e".as_slice(),
        b"dD\x5d\x1f\x00\x009t\x90\xff\xdb\xaa\xd1\xe9\xa7\xe7\xb2\xa8\x13\xd3\xc3\x15\x247\x83\x03\xcd\xaf\xae\x11\x91\x06".as_slice(),
    ];
    let mut out = [0; 64];
    for datagram in rows {
        let len = write_again(datagram, &mut out);
        assert_eq!(rt; len, Some(datagram.len()));
        assert_eq!(rt; &out[..datagram.len()], datagram);
    }
}

// The Message ID and the token of RFC 8613, C.4, its path as C.4's plaintext has it (b3 74 76 31), and a payload after its marker
// (RFC 7252, 3), worked by hand.
#[test]
fn a_get_with_a_payload(rt: HostRuntime) -> Result<(), Fail> {
    let token = token_of(&rt, b"\x00\x00\x39\x74");
    let mut buf = [0xee; 15];
    let len = write_get(&mut buf, 0x5d1f, &token, b"tv1", b"p")?;
    assert_eq!(rt; len, 14);
    assert_eq!(rt;
        buf.as_slice(),
        b"\x44\x01\x5d\x1f\x00\x00\x39\x74\xb3tv1\xffp\xee".as_slice()
    );
    Ok(())
}

// The same without a payload (RFC 8613, C.4; RFC 7252, 3), in a buffer of exactly its length and in one that is one byte shorter.
#[test]
fn a_get_in_a_buffer_of_its_length(rt: HostRuntime) {
    let token = token_of(&rt, b"\x00\x00\x39\x74");
    let mut buf = [0xee; 12];
    let len = write_short_get(&mut buf, 0x5d1f, &token, b"tv1");
    assert_eq!(rt; len, Some(12));
    assert_eq!(rt;
        buf.as_slice(),
        b"\x44\x01\x5d\x1f\x00\x00\x39\x74\xb3tv1".as_slice()
    );
    let refused = write_short_get(&mut buf[..11], 0x5d1f, &token, b"tv1");
    assert_eq!(rt; refused, None);
}
