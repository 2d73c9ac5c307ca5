//! An input whose lines run one by one, as they come.

ghost use Rattle.std.specs.Prelude.{◌≡◌, ◌<◌, ◌^◌, Some, IfErr, IfSome, IfOk, IsOk, List, ℕ};
ghost use Rattle.std.specs.Io.BufRead.{drop_through, take_through};
ghost use Rattle.osc_text.specs.Feeding.{Feed, IsReadFault, NextEvent, RanFrom, RunsFeed};

use crate::ends::{Done, End, Input};
use crate::fault::Fault;
use crate::input_lines::{LineEvent, first_line, line_behind};
use std::alloc::Global;
use std::io::{BufRead, ErrorKind, Write};

/// So many lines are read at most. No input has more.
const MOST_LINES: usize = isize::MAX as usize;

/// An input that is read line by line, and the line that was read last.
#[derive(Drop)]
pub(crate) struct Lines<'a, R> {
    pub(crate) input: &'a mut R,
    pub(crate) line: &'a mut Vec<u8>,
}

/// Reads the next line in place of the last one, with its newline. At the end of the input the line is empty.
fn read_line<R: BufRead>(input: &mut R, line: &mut Vec<u8>) -> Result<(), Fault>
    ensures read { IsOk result → IfSome (R.remaining input.old)
        (λ bytes. (line.new.items ≡ take_through 10 bytes) × (R.remaining input.new ≡ Some (drop_through 10 bytes))) }
    ensures failed { IfErr result IsReadFault }
{
    line.clear();
    match input.read_until(b'\n', line) {
        Ok(_len) => Ok(()),
        Err(error) if error.kind() == ErrorKind::OutOfMemory => Err(Fault::Memory),
        Err(error) => Err(Fault::Read(error)),
    }
}

/// Reads the event of the next line, if there is a line. `good` lines were read before.
fn next_event<E: LineEvent, R: BufRead>(
    alloc: Global,
    input: &mut R,
    line: &mut Vec<u8>,
    good: usize,
) -> Result<Option<E>, Fault>
    requires { good < 2 ^ 63 }
    ensures { NextEvent E.spells E.is_bad good (R.remaining input.old) (R.remaining input.new) result }
{
    read_line(input, line)?;
    if line.is_empty() {
        return Ok(None);
    }
    let (words, _rest) = first_line(line);
    match E::from_line(alloc, words)? {
        Some(event) => Ok(Some(event)),
        None => Err(line_behind(good)),
    }
}

/// Runs an end over the lines of an input, one by one.
fn follow_input<E: End, R: BufRead, W: Write>(
    alloc: Global,
    end: &mut E,
    input: &mut R,
    line: &mut Vec<u8>,
    out: &mut W,
) -> Result<u8, Fault>
    ensures { RunsFeed W.contents E.Event.spells E.Event.is_bad (E.are_lines_of end.old) (RanFrom E.is_new E.does end.old)
        (Feed.read_by_line (R.remaining input.old)) out.old out.new result }
{
    let mut memory = E::memory(alloc);
    for good in 0..MOST_LINES {
        let Some(mut event) = next_event::<E::Event, R>(alloc, input, line, good)? else {
            return Ok(0);
        };
        end.follow(alloc, &mut memory, &mut event, out)?;
    }
    Err(Fault::Memory)
}

impl<R: BufRead> Input for Lines<'_, R> {
    ghost feed = { λ lines. Feed.read_by_line (R.remaining lines.input.now) };

    fn run<E: End, W: Write>(self, alloc: Global, end: &mut E, out: &mut W) -> Done {
        let Lines { input, line } = self;
        follow_input(alloc, end, input, line, out)
    }
}
