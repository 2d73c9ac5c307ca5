//! How OSCORE options print.

ghost use Rattle.std.specs.Prelude.{◌≡◌, ℕ, List, [], ◌∷◌, IfOk, codes, string_bytes, option_map};
ghost use Rattle.std.specs.Option.{option_copied};
ghost use Rattle.osc_coap.specs.OptionNumbers.{oscore};
ghost use Rattle.osc_coap.specs.Search.{values_at};
ghost use Rattle.osc_coap.specs.Views.{options_left};
ghost use Rattle.osc_context.specs.PartialIv.{partial_iv_of};
ghost use Rattle.osc_context.specs.Views.{number_of, oscore_parts_of};
ghost use Rattle.osc_text.specs.Explanation.{ValueLine, ValueLines};
ghost use Rattle.osc_text.specs.Lines.{optional_text, oscore_line, text_line};
ghost use Rattle.osc_text.specs.Written.{Writes};

use crate::fault::Fault;
use crate::lines::{bytes_text, named, put_line};
use osc_coap::Options;
use osc_coap::option_numbers::OSCORE;
use osc_context::{OscoreOption, Piv};
use std::alloc::{AllocError, Global};
use std::io::Write;

/// Returns the bytes of a part in hex, a dash if it has no bytes, or `none` if there is no such part.
fn optional_text(alloc: Global, part: Option<&[u8]>) -> Result<String, AllocError>
    ensures { IfOk result (λ text. string_bytes text ≡ optional_text (option_copied part.entry)) }
{
    match part {
        Some(bytes) => bytes_text(alloc, bytes),
        None => String::from_str(alloc, "none"),
    }
}

/// Returns the bytes of a Partial IV in hex, or `none` if there is no Partial IV.
fn piv_text(alloc: Global, piv: Option<Piv>) -> Result<String, AllocError>
    ensures { IfOk result (λ text. string_bytes text ≡ optional_text (option_map partial_iv_of (option_map number_of piv))) }
{
    match piv {
        Some(piv) => bytes_text(alloc, piv.bytes().as_slice()),
        None => String::from_str(alloc, "none"),
    }
}

/// Returns what an OSCORE option says: Partial IV, kid context and kid.
fn said_text(alloc: Global, said: OscoreOption<'_>) -> Result<String, AllocError>
    ensures { IfOk result (λ text. text_line (codes "oscore") (string_bytes text) ≡ oscore_line (oscore_parts_of said.entry)) }
{
    let piv = named(alloc, "piv", piv_text(alloc, said.piv))?;
    let context = named(alloc, "context", optional_text(alloc, said.kid_context))?;
    let kid = named(alloc, "kid", optional_text(alloc, said.kid));
    named(alloc, piv.as_str(), named(alloc, context.as_str(), kid))
}

/// Returns what the value of an OSCORE option says, or why it is refused.
fn value_text(alloc: Global, value: &[u8]) -> Result<String, AllocError>
    ensures { IfOk result (λ text. (line : List ℕ) → ValueLine value.now line → line ≡ text_line (codes "oscore") (string_bytes text)) }
{
    match OscoreOption::read(value) {
        Ok(said) => said_text(alloc, said),
        Err(refusal) => format!(in alloc; "fault {refusal}"),
    }
}

/// Writes the line for the value of an OSCORE option.
fn put_value<W: Write>(alloc: Global, value: &[u8], out: &mut W) -> Result<(), Fault>
    ensures { (line : List ℕ) → ValueLine value.now line
        → Writes (W.contents out.old) (W.contents out.new) (line ∷ []) result }
{
    put_line(alloc, named(alloc, "oscore", value_text(alloc, value)), out)
}

/// Writes the line for an option, if it is an OSCORE option.
fn put_if_oscore<W: Write>(
    alloc: Global,
    number: u16,
    value: &[u8],
    out: &mut W,
) -> Result<(), Fault>
    ensures { (lines : List (List ℕ)) → ValueLines (values_at oscore ((number, value.now) ∷ [])) lines
        → Writes (W.contents out.old) (W.contents out.new) lines result }
{
    if number == OSCORE {
        return put_value(alloc, value, out);
    }
    Ok(())
}

/// Writes a line for each OSCORE option, in order.
pub(crate) fn put_values<W: Write>(
    alloc: Global,
    options: Options<'_>,
    out: &mut W,
) -> Result<(), Fault>
    ensures { (lines : List (List ℕ)) → ValueLines (values_at oscore (options_left options.entry)) lines
        → Writes (W.contents out.old) (W.contents out.new) lines result }
{
    for (number, value) in options {
        put_if_oscore(alloc, number, value, out)?;
    }
    Ok(())
}
