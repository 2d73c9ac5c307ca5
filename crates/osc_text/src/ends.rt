//! What everything that `run` prints has in common: a context is derived, an end begins under it and runs over the events that an input
//! spells, and each entry of the end's log is one line.

ghost use Rattle.std.specs.Prelude.{ℕ, List};
ghost use Rattle.osc_context.specs.SecurityContext.{SecurityContext};
ghost use Rattle.osc_context.specs.Views.{as_client, as_server};
ghost use Rattle.osc_text.specs.Contexts.{agreed_client, agreed_server};
ghost use Rattle.osc_text.specs.Feeding.{Feed, RanFrom, RunsEvent, RunsFeed};
ghost use Rattle.osc_text.specs.Printing.{Promised, RunsContext, RunsEvents, RunsInput};

use crate::agreed::Agreed;
use crate::fault::Fault;
use crate::input_lines::{LineEvent, read_events};
use crate::lines::put_refused;
use osc_context::{Context, one_context_refusal};
use std::alloc::Global;
use std::io::Write;

/// The status of what was printed, or why it ended before.
pub(crate) type Done = Result<u8, Fault>;

/// How an end begins under a context.
pub(crate) trait Beginning: Drop {
    // What is promised of a call over an input, given the context as a client's and as a server's.
    ghost promised: { Self → SecurityContext → SecurityContext → Feed → Promised };

    /// Writes what the end prints under a context, or the refusal of its start.
    fn begin<I: Input, W: Write>(
        self,
        alloc: Global,
        context: Context,
        input: I,
        out: &mut W,
    ) -> Done
        ensures { promised self (as_client context) (as_server context) (I.feed input) W W.contents out.old out.new result };
}

/// An input of events, which is read whole before the first event runs, or line by line.
pub(crate) trait Input: Drop {
    // How it is read, and what it is.
    ghost feed: { Self → Feed };

    /// Runs an end over the events of the input, and writes the lines of their entries.
    fn run<E: End, W: Write>(self, alloc: Global, end: &mut E, out: &mut W) -> Done
        ensures { RunsFeed W.contents E.Event.spells E.Event.is_bad (E.are_lines_of end.old) (RanFrom E.is_new E.does end.old) (feed self) out.old out.new result };
}

/// An end that runs over events.
pub(crate) trait End {
    type Event: LineEvent;

    /// What a run remembers of the events before.
    type Memory: Drop;

    // These are the lines of the entries of these events, if the events run from this end on.
    ghost are_lines_of: { Self → List Self.Event → List (List ℕ) → Type 0 };

    // Nothing is remembered yet.
    ghost is_new: { Self.Memory → Type 0 };

    // An event runs from this end and memory on, with the line of its entry, and leaves that end and memory.
    ghost does: { Self → Self.Memory → Self.Event → List ℕ → Self → Self.Memory → Type 0 };

    /// Runs over events, and writes the lines of their entries. If there is no memory left for an entry, writes the lines of the entries
    /// before it.
    fn print<W: Write>(&mut self, alloc: Global, events: &mut [Self::Event], out: &mut W) -> Done
        ensures { RunsEvents (are_lines_of self.old) events.old (W.contents out.old) (W.contents out.new) result };

    /// Returns the memory of a run that begins.
    fn memory(alloc: Global) -> Self::Memory
        ensures { is_new result };

    /// Runs one event, and writes the line of its entry.
    fn follow<W: Write>(
        &mut self,
        alloc: Global,
        memory: &mut Self::Memory,
        event: &mut Self::Event,
        out: &mut W,
    ) -> Result<(), Fault>
        ensures { RunsEvent (λ line. does self.old memory.old event.old line self.new memory.new) (W.contents out.old) (W.contents out.new) result };
}

/// Derives a context, and writes what an end that begins under it prints, or the refusal of the context.
pub(crate) fn write_run<B: Beginning, I: Input, W: Write>(
    alloc: Global,
    agreed: Agreed<'_>,
    beginning: B,
    input: I,
    out: &mut W,
) -> Result<u8, Fault>
    ensures { RunsContext agreed.entry.params (W.contents out.old) (W.contents out.new) result
        (B.promised beginning (agreed_client agreed.entry) (agreed_server agreed.entry) (I.feed input) W W.contents out.old out.new result) }
{
    // For the proof alone.
    one_context_refusal();
    match agreed.derive() {
        Ok(context) => beginning.begin(alloc, context, input, out),
        Err(refusal) => put_refused(alloc, refusal, out),
    }
}

/// Reads the events of an input, runs an end over them, and writes the lines of their entries.
pub(crate) fn write_input<E: End, W: Write>(
    alloc: Global,
    end: &mut E,
    input: &[u8],
    out: &mut W,
) -> Result<u8, Fault>
    ensures { RunsInput W.contents E.Event.spells E.Event.is_bad (E.are_lines_of end.old) input.now out.old out.new result }
{
    let mut events = read_events(alloc, input)?;
    end.print(alloc, events.as_mut_slice(), out)
}

impl Input for &[u8] {
    ghost feed = { λ bytes. Feed.read_whole bytes.now };

    fn run<E: End, W: Write>(self, alloc: Global, end: &mut E, out: &mut W) -> Done {
        write_input(alloc, end, self, out)
    }
}
