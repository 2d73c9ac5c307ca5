//! The lines of an input, and the events that they spell.

ghost use Rattle.std.specs.Prelude.{◌≡◌, ◌≢◌, ◌∷◌, ◌<◌, ◌+◌, ◌^◌, [], ℕ, List, IfOk, IfErr, IfSome, IfNone, length};
ghost use Rattle.osc_text.specs.declared.fault.Fault.TheVariants.{Line};
ghost use Rattle.osc_text.specs.Inputs.{SpellEvents};
ghost use Rattle.osc_text.specs.InputReading.{Misreads, lines_of};

use crate::fault::Fault;
use crate::input_words::split_once;
use std::alloc::{AllocError, Global};

/// An event that a line of an input spells.
pub(crate) trait LineEvent: Drop + Sized {
    // The line spells the event, and the other parts of the event are right.
    ghost spells: { List ℕ → Self → Type 0 };

    // The line spells no event.
    ghost is_bad: { List ℕ → Type 0 };

    /// Reads the event of a line, if the line spells one.
    fn from_line(alloc: Global, line: &[u8]) -> Result<Option<Self>, AllocError>
        ensures read { IfOk result (λ event. IfSome event (spells line.now)) }
        ensures refused { IfOk result (λ event. IfNone event (is_bad line.now)) };
}

/// Returns the first line, without its newline, and what comes after it.
pub(crate) fn first_line(rest: &[u8]) -> (&[u8], &[u8])
    requires { rest.now ≢ [] }
    ensures lines { lines_of rest.now ≡ result.0.now ∷ lines_of result.1.now }
    ensures shorter { length result.1.now < length rest.now }
{
    match split_once(rest, b'\n') {
        Some(parts) => parts,
        None => (rest, &[]),
    }
}

/// Returns the fault that the line after `good` good ones is bad. The first line is line 1.
pub(crate) fn line_behind(good: usize) -> Fault
    requires { good < 2 ^ 63 }
    ensures { result ≡ Line (good + 1) }
{
    Fault::Line(good + 1)
}

/// Reads the events that an input spells, one per line. If a line spells none, returns the number of the first such line as a fault.
pub(crate) fn read_events<E: LineEvent>(alloc: Global, input: &[u8]) -> Result<Vec<E>, Fault>
    ensures read { IfOk result (λ events. SpellEvents E.spells (lines_of input.now) events.items) }
    ensures refused { IfErr result (λ fault. Misreads E.spells E.is_bad input.now fault) }
{
    let mut events = Vec::new(alloc);
    let mut rest = input;
    while !rest.is_empty() {
        let (line, behind) = first_line(rest);
        match E::from_line(alloc, line)? {
            Some(event) => events.push(event)?,
            None => return Err(line_behind(events.len())),
        }
        rest = behind;
    }
    Ok(events)
}
