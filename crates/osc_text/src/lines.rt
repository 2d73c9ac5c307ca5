//! How values print: each line is built completely, and then written.

ghost use Rattle.std.specs.Fmt.{decimal};
ghost use Rattle.std.specs.Prelude.{◌≡◌, ◌∷◌, ◌++◌, [], ℕ, List, IfErr, IfOk, IfSome, IsOkAnd, string_bytes, map, option_map, codes};
ghost use Rattle.osc_coap.specs.Views.{options_left};
ghost use Rattle.osc_context.specs.Views.{number_of};
ghost use Rattle.osc_protect.specs.Views.{message_of, shown};
ghost use Rattle.osc_text.specs.EntryLines.{entry_line};
ghost use Rattle.osc_text.specs.Lines.{bytes_text, kind_text, code_text, number_text, hex_line, bytes_line, kind_line, message_id_line, code_line, head_lines, number_line, part_lines, option_line, refused_line};
ghost use Rattle.osc_text.specs.Opening.{opened_lines};
ghost use Rattle.osc_text.specs.Outcomes.{seen};
ghost use Rattle.osc_text.specs.Written.{Writes};

use crate::fault::Fault;
use osc_coap::{Kind, Options, Token};
use osc_context::Piv;
use osc_protect::Opened;
use std::alloc::{AllocError, Global};
use std::fmt::Display;
use std::io::Write;

/// Returns the bytes in hex, or a dash if there are none.
pub(crate) fn bytes_text(alloc: Global, bytes: &[u8]) -> Result<String, AllocError>
    ensures { IfOk result (λ text. string_bytes text ≡ bytes_text bytes.now) }
{
    if bytes.is_empty() {
        return String::from_str(alloc, "-");
    }
    hex::encode(alloc, bytes)
}

/// Returns the name of a Type.
fn kind_text(kind: Kind) -> &'static str
    ensures { result.now ≡ kind_text kind }
{
    match kind {
        Kind::Con => "CON",
        Kind::Non => "NON",
        Kind::Ack => "ACK",
        Kind::Rst => "RST",
    }
}

/// Returns a code as class, dot and two digits of detail.
pub(crate) fn code_text(alloc: Global, code: u8) -> Result<String, AllocError>
    ensures { IfOk result (λ text. string_bytes text ≡ code_text code) }
{
    let class = code / 32;
    let tens = code % 32 / 10;
    let ones = code % 32 % 10;
    format!(in alloc; "{class}.{tens}{ones}")
}

/// Returns a number in decimal, or a dash if there is none.
pub(crate) fn number_text(alloc: Global, number: Option<Piv>) -> Result<String, AllocError>
    ensures { IfOk result (λ text. string_bytes text ≡ number_text (option_map number_of number)) }
{
    match number {
        Some(piv) => {
            let number = piv.number();
            format!(in alloc; "{number}")
        }
        None => String::from_str(alloc, "-"),
    }
}

/// Returns a word and a text, with one space between them.
pub(crate) fn named(
    alloc: Global,
    word: &str,
    text: Result<String, AllocError>,
) -> Result<String, AllocError>
    ensures { IfOk result (λ whole. IsOkAnd text (λ t. string_bytes whole ≡ word.now ++ (codes " " ++ string_bytes t))) }
{
    let text = text?;
    format!(in alloc; "{word} {text}")
}

/// Returns the text of a refusal behind the word that says that there is one.
pub(crate) fn refused_text<D: Display + Drop>(
    alloc: Global,
    refusal: D,
) -> Result<String, AllocError>
    ensures { IfSome (D.output refusal) (λ name. IfOk result (λ text. string_bytes text ≡ codes "refused: " ++ name)) }
{
    format!(in alloc; "refused: {refusal}")
}

/// Writes a text and a newline. If there was no memory for the text, writes nothing.
pub(crate) fn put_line<W: Write>(
    alloc: Global,
    text: Result<String, AllocError>,
    out: &mut W,
) -> Result<(), Fault>
    ensures written { IfOk text (λ t. Writes (W.contents out.old) (W.contents out.new) (entry_line (string_bytes t) ∷ []) result) }
    ensures failed { IfErr text (λ e. (lines : List (List ℕ)) → Writes (W.contents out.old) (W.contents out.new) lines result) }
{
    let text = text?;
    let line = format!(in alloc; "{text}\n")?;
    out.write_all(line.as_bytes())?;
    Ok(())
}

/// Writes the line with bytes in hex only.
pub(crate) fn put_hex<W: Write>(alloc: Global, bytes: &[u8], out: &mut W) -> Result<(), Fault>
    ensures { Writes (W.contents out.old) (W.contents out.new) (hex_line bytes.now ∷ []) result }
{
    put_line(alloc, bytes_text(alloc, bytes), out)
}

/// Writes the line with a name and bytes in hex.
pub(crate) fn put_bytes<W: Write>(
    alloc: Global,
    name: &str,
    bytes: &[u8],
    out: &mut W,
) -> Result<(), Fault>
    ensures { Writes (W.contents out.old) (W.contents out.new) (bytes_line name.now bytes.now ∷ []) result }
{
    put_line(alloc, named(alloc, name, bytes_text(alloc, bytes)), out)
}

/// Writes the line with a name and bytes in hex, if the part is there.
pub(crate) fn put_part<W: Write>(
    alloc: Global,
    name: &str,
    part: Option<&[u8]>,
    out: &mut W,
) -> Result<(), Fault>
    ensures { Writes (W.contents out.old) (W.contents out.new) (part_lines name.now (shown part.entry)) result }
{
    match part {
        Some(bytes) => put_bytes(alloc, name, bytes, out),
        None => Ok(()),
    }
}

fn put_kind<W: Write>(alloc: Global, kind: Kind, out: &mut W) -> Result<(), Fault>
    ensures { Writes (W.contents out.old) (W.contents out.new) (kind_line kind ∷ []) result }
{
    let text = String::from_str(alloc, kind_text(kind));
    put_line(alloc, named(alloc, "kind", text), out)
}

fn put_message_id<W: Write>(alloc: Global, message_id: u16, out: &mut W) -> Result<(), Fault>
    ensures { Writes (W.contents out.old) (W.contents out.new) (message_id_line message_id ∷ []) result }
{
    put_bytes(alloc, "mid", &message_id.to_be_bytes(), out)
}

fn put_token<W: Write>(alloc: Global, token: &Token, out: &mut W) -> Result<(), Fault>
    ensures { Writes (W.contents out.old) (W.contents out.new) (bytes_line (codes "token") token.now.items ∷ []) result }
{
    put_bytes(alloc, "token", token.as_slice(), out)
}

fn put_code<W: Write>(alloc: Global, code: u8, out: &mut W) -> Result<(), Fault>
    ensures { Writes (W.contents out.old) (W.contents out.new) (code_line code ∷ []) result }
{
    put_line(alloc, named(alloc, "code", code_text(alloc, code)), out)
}

/// Writes the lines with the head, the token and the code.
pub(crate) fn put_head<W: Write>(
    alloc: Global,
    kind: Kind,
    message_id: u16,
    token: &Token,
    code: u8,
    out: &mut W,
) -> Result<(), Fault>
    ensures { Writes (W.contents out.old) (W.contents out.new) (head_lines kind message_id token.now.items code) result }
{
    put_kind(alloc, kind, out)?;
    put_message_id(alloc, message_id, out)?;
    put_token(alloc, token, out)?;
    put_code(alloc, code, out)
}

fn put_number<W: Write>(alloc: Global, number: Option<Piv>, out: &mut W) -> Result<(), Fault>
    ensures { Writes (W.contents out.old) (W.contents out.new) (number_line (option_map number_of number) ∷ []) result }
{
    put_line(
        alloc,
        named(alloc, "number", number_text(alloc, number)),
        out,
    )
}

/// Returns the text of an option: its number and its value.
fn option_text(alloc: Global, number: u16, value: &[u8]) -> Result<String, AllocError>
    ensures { IfOk result (λ text. string_bytes text ≡ decimal number ++ (codes " " ++ bytes_text value.now)) }
{
    let value = bytes_text(alloc, value)?;
    format!(in alloc; "{number} {value}")
}

fn put_option<W: Write>(alloc: Global, number: u16, value: &[u8], out: &mut W) -> Result<(), Fault>
    ensures { Writes (W.contents out.old) (W.contents out.new) (option_line (number, value.now) ∷ []) result }
{
    put_line(
        alloc,
        named(alloc, "option", option_text(alloc, number, value)),
        out,
    )
}

/// Writes a line for each option, in order.
pub(crate) fn put_options<W: Write>(
    alloc: Global,
    options: Options<'_>,
    out: &mut W,
) -> Result<(), Fault>
    ensures { Writes (W.contents out.old) (W.contents out.new) (map option_line (options_left options.entry)) result }
{
    for (number, value) in options {
        put_option(alloc, number, value, out)?;
    }
    Ok(())
}

/// Writes a line for each inner option.
fn put_inner<W: Write>(alloc: Global, opened: &Opened<'_>, out: &mut W) -> Result<(), Fault>
    ensures { Writes (W.contents out.old) (W.contents out.new) (map option_line (message_of opened.now).options) result }
{
    put_options(alloc, opened.inner(), out)
}

/// Writes what an opened datagram says, one part per line.
pub(crate) fn put_opened<W: Write>(
    alloc: Global,
    opened: &Opened<'_>,
    out: &mut W,
) -> Result<(), Fault>
    ensures { Writes (W.contents out.old) (W.contents out.new) (opened_lines (seen opened.now)) result }
{
    put_head(
        alloc,
        opened.kind,
        opened.message_id,
        &opened.token,
        opened.code,
        out,
    )?;
    put_number(alloc, opened.piv, out)?;
    put_part(alloc, "uri-host", opened.uri_host, out)?;
    put_part(alloc, "uri-port", opened.uri_port, out)?;
    put_inner(alloc, opened, out)?;
    put_bytes(alloc, "payload", opened.payload, out)
}

/// Writes the line of a refusal, with its name, and returns its status.
pub(crate) fn put_refused<D: Display + Drop, W: Write>(
    alloc: Global,
    refusal: D,
    out: &mut W,
) -> Result<u8, Fault>
    ensures written { IfSome (D.output refusal)
        (λ text. Writes (W.contents out.old) (W.contents out.new) (refused_line text ∷ []) result) }
    ensures status { IfOk result (λ s. s ≡ 2) }
{
    put_line(alloc, refused_text(alloc, refusal), out)?;
    Ok(2)
}
