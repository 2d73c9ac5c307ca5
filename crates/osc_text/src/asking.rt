//! What `run` prints for a client.

ghost use Rattle.std.specs.Prelude.{◌≡◌, ◌⊎◌, ℕ, List, All, Err, IfOk, IfSome, map};
ghost use Rattle.osc_context.specs.Views.{as_client, number_of};
ghost use Rattle.osc_client.specs.Agrees.{ClientAgrees};
ghost use Rattle.osc_client.specs.ClientHistory.{History};

use crate::agreed::Agreed;
use crate::ends::{Beginning, Done, End, Input, write_run};
use crate::entry_lines::{put_entry, put_not_done, put_replaced};
use crate::fault::Fault;
use crate::following::Lines;
use crate::replacing::{AskedLine, Common};
use osc_coap::one_datagram;
use osc_context::{Context, Piv};
use osc_endpoint::siblings::ask_event;
use osc_endpoint::{Client, ClientEvent};
use osc_laws::one_client_answer;
use std::alloc::Global;
use std::io::{BufRead, Write};
use std::mem;

/// How a client begins.
#[derive(Clone, Copy, Debug)]
pub struct Asking {
    /// The next Sender Sequence Number.
    pub next: Piv,
    /// How long a request is pending, in milliseconds.
    pub life_ms: u64,
}

ghost use Rattle.osc_text.specs.AskedReading.{HasRoom, asked_seen};
ghost use Rattle.osc_text.specs.Asking.{AskText, ClientLine, EventLine, HasBadAskedLine, ReplaceLine, asking_from};
ghost use Rattle.osc_text.specs.Feeding.{ByFeed, EndsWell, FollowedUnder, Follows, RunsEvent};
ghost use Rattle.osc_text.specs.Following.{AskFollowed, IsNewClient};
ghost use Rattle.osc_text.specs.InputText.{EventLines, InputText, RefusesLine};
ghost use Rattle.osc_text.specs.Inputs.{IsFirstBadLine};
ghost use Rattle.osc_text.specs.Printing.{Prints};
ghost use Rattle.osc_text.specs.ReplaceEvents.{SpellsAsking};
ghost use Rattle.osc_text.specs.ReplaceReading.{IsAsked, asking_seen};
ghost use Rattle.osc_text.specs.RunEnds.{asking_state};
ghost use Rattle.osc_text.specs.Written.{Writes};
ghost use Rattle.osc_text.specs.declared.fault.Fault.TheVariants.{Line};

/// Derives a context, and runs a client of it over the events that an input spells, one per line. Writes the line of each event's entry. If
/// the context is refused, writes the one line of that refusal instead, before looking at a line of the input. Reads all lines before the
/// first event runs. This end is the sender of the context, and up to 16 of its requests are pending at once. Returns the status: 0 if the
/// events ran, 2 if the context is refused. The first line that spells no event is a fault, and then nothing is written. Builds each line
/// completely before writing it.
pub fn ask_text<W: Write>(
    alloc: Global,
    agreed: Agreed<'_>,
    asking: Asking,
    input: &[u8],
    out: &mut W,
) -> Result<u8, Fault>
    // If a status is returned, there is a text. The next two clauses say that this text is what is written.
    ensures told { IfOk result (λ s. (lines : List (List ℕ)) × AskText agreed.entry asking input.now lines s) }
    ensures written { (lines : List (List ℕ)) (status : ℕ) → AskText agreed.entry asking input.now lines status
        → Writes (W.contents out.old) (W.contents out.new) lines result }
    ensures status { (lines : List (List ℕ)) (status : ℕ) → AskText agreed.entry asking input.now lines status
        → IfOk result (λ s. s ≡ status) }
    ensures two { IfOk result (λ s. (s ≡ 0) ⊎ (s ≡ 2)) }
    ensures refused { (n : ℕ) → result ≡ Err (Line n) → HasBadAskedLine agreed.entry input.now n }
    ensures refuses { (n : ℕ) → HasBadAskedLine agreed.entry input.now n → RefusesLine n result }
    ensures quiet { (n : ℕ) → HasBadAskedLine agreed.entry input.now n → out.new ≡ out.old }
{
    write_run(alloc, agreed, asking, input, out)
}

/// Derives a context, and runs a client of it, as [`ask_text`] does, but writes the line of each event's entry as soon as its line was read:
/// each line by one call of the writer. So a line that spells no event is a fault with the lines of the events before it written. `line` has
/// the line that was read last, with its newline.
pub fn ask_following<R: BufRead, W: Write>(
    alloc: Global,
    agreed: Agreed<'_>,
    asking: Asking,
    input: &mut R,
    line: &mut Vec<u8>,
    out: &mut W,
) -> Result<u8, Fault>
    ensures written { IfSome (R.remaining input.old) (λ bytes. AskFollowed W.contents agreed.entry asking bytes out.old out.new result) }
    ensures two { IfOk result (λ s. (s ≡ 0) ⊎ (s ≡ 2)) }
{
    write_run(alloc, agreed, asking, Lines { input, line }, out)
}

impl Beginning for Asking {
    ghost promised = { λ asking client server feed X contents before after r. ByFeed
        (λ input. Prints contents (InputText SpellsAsking ClientLine (asking_from client asking) input)
        (IsFirstBadLine SpellsAsking input) before after r)
        (λ input. FollowedUnder contents (InputText SpellsAsking ClientLine (asking_from client asking) input)
        (IsNewClient client asking) SpellsAsking ClientLine input before after r) (EndsWell r) feed };

    fn begin<I: Input, W: Write>(
        self,
        alloc: Global,
        context: Context,
        input: I,
        out: &mut W,
    ) -> Done {
        // For the proof alone.
        one_client_answer();
        one_datagram();
        let common = Common::of(&context);
        let client = Client::<16>::new(context, self.next, self.life_ms);
        let mut end = AskingEnd { client, common };
        input.run(alloc, &mut end, out)
    }
}

/// Runs an event of a client, and writes the line of its entry.
fn follow_event<W: Write>(
    alloc: Global,
    client: &mut Client<16>,
    event: &mut ClientEvent,
    out: &mut W,
) -> Result<(), Fault>
    ensures { RunsEvent (λ line. (h : History) → ClientAgrees client.old h → HasRoom event.old
        → (k : History) × EventLine h (asked_seen event.old) line k × ClientAgrees client.new k)
        (W.contents out.old) (W.contents out.new) result }
{
    let entry = ask_event(client, event);
    put_entry(alloc, &entry, out)
}

/// Puts another context in the place of a client's, and writes the line of the entry.
fn follow_replace<W: Write>(
    alloc: Global,
    client: &mut Client<16>,
    context: Context,
    next: Piv,
    out: &mut W,
) -> Result<(), Fault>
    ensures { RunsEvent (λ line. (h : History) → ClientAgrees client.old h
        → (k : History) × ReplaceLine h (as_client context) (number_of next) line k × ClientAgrees client.new k)
        (W.contents out.old) (W.contents out.new) result }
{
    match client.replace(context, next) {
        Ok(()) => put_replaced(alloc, out),
        Err(refusal) => put_not_done(alloc, refusal, out),
    }
}

/// A client of a run, and what its contexts have in common.
#[derive(Drop)]
pub(crate) struct AskingEnd {
    client: Client<16>,
    common: Common,
}

/// Runs what a line asks of a client of a run, and writes the line of the entry.
fn follow_line<W: Write>(
    alloc: Global,
    end: &mut AskingEnd,
    line: &mut AskedLine,
    out: &mut W,
) -> Result<(), Fault>
    ensures { RunsEvent (λ text. (h : History) → ClientAgrees end.old.client h → IsAsked line.old
        → (k : History) × ClientLine (asking_state end.old h) (asking_seen line.old) text (asking_state end.new k) × ClientAgrees end.new.client k)
        (W.contents out.old) (W.contents out.new) result }
{
    let token = Vec::new(alloc);
    // A context is moved out of its line, which runs once.
    let moved = mem::replace(line, AskedLine::Event(ClientEvent::Forget { token }));
    match moved {
        AskedLine::Event(mut event) => follow_event(alloc, &mut end.client, &mut event, out),
        AskedLine::Replace { context, next } => {
            let context = end.common.give(context);
            follow_replace(alloc, &mut end.client, context, next, out)
        }
    }
}

impl End for AskingEnd {
    type Event = AskedLine;

    type Memory = ();

    ghost are_lines_of = { λ end events lines. (h : History) → ClientAgrees end.client h → All IsAsked events
        → EventLines ClientLine (asking_state end h) (map asking_seen events) lines };

    ghost is_new = { λ none. none ≡ tt };

    ghost does = { Follows (λ end h. ClientAgrees end.client h) (λ end none h. asking_state end h) asking_seen IsAsked ClientLine };

    fn print<W: Write>(&mut self, alloc: Global, events: &mut [Self::Event], out: &mut W) -> Done {
        for event in events.iter_mut() {
            follow_line(alloc, self, event, out)?;
        }
        Ok(0)
    }

    fn memory(_alloc: Global) {}

    fn follow<W: Write>(
        &mut self,
        alloc: Global,
        _memory: &mut (),
        event: &mut AskedLine,
        out: &mut W,
    ) -> Result<(), Fault> {
        follow_line(alloc, self, event, out)
    }
}
