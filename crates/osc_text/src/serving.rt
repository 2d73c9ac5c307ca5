//! What `run` prints for a server.

ghost use Rattle.std.specs.Prelude.{◌≡◌, ◌⊎◌, ◌++◌, ◌∷◌, ℕ, [], List, All, Err, IfOk, IfSome, None, map};
ghost use Rattle.osc_context.specs.Views.{as_server};
ghost use Rattle.osc_endpoint.specs.Agrees.{Agrees};
ghost use Rattle.osc_life.specs.ServerHistory.{History};

use crate::agreed::Agreed;
use crate::ends::{Beginning, Done, End, Input, write_run};
use crate::entry_lines::{put_entry, put_not_done, put_replaced};
use crate::fault::Fault;
use crate::following::Lines;
use crate::lines::put_refused;
use crate::replacing::{Common, ServedLine};
use osc_coap::one_datagram;
use osc_context::{Context, Piv};
use osc_endpoint::siblings::serve_event;
use osc_endpoint::{ServerEvent, ServerOf, Start, Ticket};
use osc_laws::one_server_answer;
use osc_window::WindowSize;
use std::alloc::Global;
use std::io::{BufRead, Write};
use std::mem;

/// How a server begins.
#[derive(Clone, Copy, Debug)]
pub struct Serving {
    /// The next Sender Sequence Number.
    pub next: Piv,
    /// Whether the context may have received requests before.
    pub is_restarted: bool,
    /// The size of its window.
    pub window: WindowSize,
}

ghost use Rattle.osc_text.specs.Feeding.{ByFeed, EndsWell, FollowedUnder, Follows, RunsEvent};
ghost use Rattle.osc_text.specs.Following.{ServeFollowed, StartsServer};
ghost use Rattle.osc_text.specs.InputText.{EventLines, RefusesLine};
ghost use Rattle.osc_endpoint.specs.ServerAnswer.{ServerAnswer};
ghost use Rattle.osc_endpoint.specs.ServerRun.{values_in};
ghost use Rattle.osc_life.specs.ServerHistory.{Add, Added, Begin};
ghost use Rattle.osc_text.specs.Printing.{BeginsBadly, Prints};
ghost use Rattle.osc_text.specs.ReplaceEvents.{SpellsServing};
ghost use Rattle.osc_text.specs.ReplaceReading.{IsServed, served_seen};
ghost use Rattle.osc_text.specs.RunEnds.{serving_state};
ghost use Rattle.osc_text.specs.ServedReading.{IsOfRun, event_seen};
ghost use Rattle.osc_text.specs.Serving.{EventLine, HasBadLine, ReplaceLine, ServeText, ServerLine, ServerText, start_of};
ghost use Rattle.osc_text.specs.Written.{Writes};
ghost use Rattle.osc_text.specs.declared.fault.Fault.TheVariants.{Line};

impl Serving {
    /// Returns how the server's context begins.
    fn start(self) -> Start
        ensures { result ≡ start_of self }
    {
        if self.is_restarted {
            Start::Restarted(self.next)
        } else {
            Start::Fresh(self.next)
        }
    }
}

/// Derives a context, and runs a server of this context alone over the events that an input spells, one per line. Writes the line of each
/// event's entry. If the context or its start is refused, writes the one line of that refusal instead, before looking at a line of the
/// input. Reads all lines before the first event runs. This end is the sender of the context. Returns the status: 0 if the events ran, 2 if
/// the context or its start is refused. The first line that spells no event is a fault, and then nothing is written. Builds each line
/// completely before writing it.
pub fn serve_text<W: Write>(
    alloc: Global,
    agreed: Agreed<'_>,
    serving: Serving,
    input: &[u8],
    out: &mut W,
) -> Result<u8, Fault>
    // If a status is returned, there is a text. The next two clauses say that this text is what is written.
    ensures told { IfOk result (λ s. (lines : List (List ℕ)) × ServeText agreed.entry serving input.now lines s) }
    ensures written { (lines : List (List ℕ)) (status : ℕ) → ServeText agreed.entry serving input.now lines status
        → Writes (W.contents out.old) (W.contents out.new) lines result }
    ensures status { (lines : List (List ℕ)) (status : ℕ) → ServeText agreed.entry serving input.now lines status
        → IfOk result (λ s. s ≡ status) }
    ensures two { IfOk result (λ s. (s ≡ 0) ⊎ (s ≡ 2)) }
    ensures refused { (n : ℕ) → result ≡ Err (Line n) → HasBadLine agreed.entry serving input.now n }
    ensures refuses { (n : ℕ) → HasBadLine agreed.entry serving input.now n → RefusesLine n result }
    ensures quiet { (n : ℕ) → HasBadLine agreed.entry serving input.now n → out.new ≡ out.old }
{
    write_run(alloc, agreed, serving, input, out)
}

/// Derives a context, and runs a server of this context alone, as [`serve_text`] does, but writes the line of each event's entry as soon as
/// its line was read: each line by one call of the writer. So a line that spells no event is a fault with the lines of the events before it
/// written. `line` has the line that was read last, with its newline.
pub fn serve_following<R: BufRead, W: Write>(
    alloc: Global,
    agreed: Agreed<'_>,
    serving: Serving,
    input: &mut R,
    line: &mut Vec<u8>,
    out: &mut W,
) -> Result<u8, Fault>
    ensures written { IfSome (R.remaining input.old) (λ bytes. ServeFollowed W.contents agreed.entry serving bytes out.old out.new result) }
    ensures two { IfOk result (λ s. (s ≡ 0) ⊎ (s ≡ 2)) }
{
    write_run(alloc, agreed, serving, Lines { input, line }, out)
}

impl Beginning for Serving {
    ghost promised = { λ serving client server feed X contents before after r. ByFeed
        (λ input. Prints contents (ServerText server (start_of serving) serving.window input)
        (BeginsBadly (λ i. ServerAnswer Begin (Add server (start_of serving) serving.window 1) (Added i)) SpellsServing input) before after r)
        (λ input. FollowedUnder contents (ServerText server (start_of serving) serving.window input)
        (StartsServer server (start_of serving) serving.window) SpellsServing ServerLine input before after r) (EndsWell r) feed };

    fn begin<I: Input, W: Write>(
        self,
        alloc: Global,
        context: Context,
        input: I,
        out: &mut W,
    ) -> Done {
        // For the proof alone.
        one_server_answer();
        one_datagram();
        let common = Common::of(&context);
        let window = self.window;
        let mut server = ServerOf::<1>::new();
        match server.add(context, self.start(), window) {
            Ok(_index) => {
                let mut end = ServingEnd {
                    server,
                    window,
                    common,
                };
                input.run(alloc, &mut end, out)
            }
            Err(refusal) => put_refused(alloc, refusal, out),
        }
    }
}

/// Runs an event of a server, and writes the line of its entry. `memory` has a place for each event before, with the ticket that is left of
/// it.
fn follow_event<W: Write>(
    alloc: Global,
    server: &mut ServerOf<1>,
    memory: &mut Vec<Option<Ticket>>,
    event: &mut ServerEvent,
    out: &mut W,
) -> Result<(), Fault>
    ensures { RunsEvent (λ line. (h : History) → Agrees server.old h → IsOfRun event.old
        → (k : History) × EventLine h (values_in memory.old.items) (event_seen event.old) line k (values_in memory.new.items) × Agrees server.new k)
        (W.contents out.old) (W.contents out.new) result }
{
    memory.reserve(1)?;
    let (entry, ticket) = serve_event(server, event, memory);
    memory.push_reserved(ticket);
    put_entry(alloc, &entry, out)
}

/// Puts another context in the place of a server's, and writes the line of the entry. `memory` gets a place without a ticket.
fn follow_replace<W: Write>(
    alloc: Global,
    server: &mut ServerOf<1>,
    memory: &mut Vec<Option<Ticket>>,
    context: Context,
    start: Start,
    size: WindowSize,
    out: &mut W,
) -> Result<(), Fault>
    ensures { RunsEvent (λ line. (h : History) → Agrees server.old h
        → (k : History) × ReplaceLine h (as_server context) start size line k × Agrees server.new k
        × (values_in memory.new.items ≡ values_in memory.old.items ++ None ∷ []))
        (W.contents out.old) (W.contents out.new) result }
{
    memory.reserve(1)?;
    memory.push_reserved(None);
    match server.replace(0, context, start, size) {
        Ok(()) => put_replaced(alloc, out),
        Err(refusal) => put_not_done(alloc, refusal, out),
    }
}

/// A server of a run, the size of its window, and what its contexts have in common.
#[derive(Drop)]
pub(crate) struct ServingEnd {
    server: ServerOf<1>,
    window: WindowSize,
    common: Common,
}

/// Runs what a line asks of a server of a run, and writes the line of the entry.
fn follow_line<W: Write>(
    alloc: Global,
    end: &mut ServingEnd,
    memory: &mut Vec<Option<Ticket>>,
    line: &mut ServedLine,
    out: &mut W,
) -> Result<(), Fault>
    ensures { RunsEvent (λ text. (h : History) → Agrees end.old.server h → IsServed line.old
        → (k : History) × ServerLine (serving_state end.old (values_in memory.old.items) h) (served_seen line.old) text
        (serving_state end.new (values_in memory.new.items) k) × Agrees end.new.server k)
        (W.contents out.old) (W.contents out.new) result }
{
    // A context is moved out of its line, which runs once.
    let moved = mem::replace(line, ServedLine::Event(ServerEvent::Drop { of: 0 }));
    match moved {
        ServedLine::Event(mut event) => {
            follow_event(alloc, &mut end.server, memory, &mut event, out)
        }
        ServedLine::Replace { context, start } => {
            let context = end.common.give(context);
            follow_replace(
                alloc,
                &mut end.server,
                memory,
                context,
                start,
                end.window,
                out,
            )
        }
    }
}

impl End for ServingEnd {
    type Event = ServedLine;

    type Memory = Vec<Option<Ticket>>;

    ghost are_lines_of = { λ end events lines. (h : History) → Agrees end.server h → All IsServed events
        → EventLines ServerLine (serving_state end [] h) (map served_seen events) lines };

    ghost is_new = { λ tickets. tickets.items ≡ [] };

    ghost does = { Follows (λ end h. Agrees end.server h) (λ end tickets h. serving_state end (values_in tickets.items) h)
        served_seen IsServed ServerLine };

    fn print<W: Write>(&mut self, alloc: Global, events: &mut [Self::Event], out: &mut W) -> Done {
        let mut memory = Vec::new(alloc);
        for event in events.iter_mut() {
            follow_line(alloc, self, &mut memory, event, out)?;
        }
        Ok(0)
    }

    fn memory(alloc: Global) -> Vec<Option<Ticket>> {
        Vec::new(alloc)
    }

    fn follow<W: Write>(
        &mut self,
        alloc: Global,
        memory: &mut Vec<Option<Ticket>>,
        event: &mut ServedLine,
        out: &mut W,
    ) -> Result<(), Fault> {
        follow_line(alloc, self, memory, event, out)
    }
}
