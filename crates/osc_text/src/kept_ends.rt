//! What `run` prints for a server and for a client whose numbers are kept.

ghost use Rattle.std.specs.Mem.{FitsInMemory};
ghost use Rattle.std.specs.Prelude.{◌≡◌, ◌⊎◌, ◌↔◌, [], All, IfOk, IfSome, map, true};
ghost use Rattle.osc_client.specs.ClientHistory.{History as ClientHistory};
ghost use Rattle.osc_life.specs.ServerHistory.{History as ServerHistory};
ghost use Rattle.osc_kept_ends.specs.KeptAsking.{IsKept as IsKeptClient};
ghost use Rattle.osc_endpoint.specs.ServerRun.{values_in};
ghost use Rattle.osc_kept_runs.specs.KeptRuns.{client_state, server_state};
ghost use Rattle.osc_kept_ends.specs.KeptServing.{IsKept as IsKeptServer};
ghost use Rattle.osc_kept_ends.specs.Numbering.{upcoming};
ghost use Rattle.osc_kept_ends.specs.Owning.{own_in};
ghost use Rattle.osc_text.specs.Asking.{places};
ghost use Rattle.osc_text.specs.Feeding.{ByFeed, EndsWell, FollowedAround, Follows};
ghost use Rattle.osc_text.specs.Following.{KeptAskFollowed, KeptServeFollowed};
ghost use Rattle.osc_text.specs.InputText.{EventLines};
ghost use Rattle.osc_text.specs.AskedEvents.{SpellsKeptAsked};
ghost use Rattle.osc_text.specs.KeptAsking.{HasBadKeptAskedLine, KeptAskFront, KeptAskText, KeptAskedLine, StartsClient};
ghost use Rattle.osc_text.specs.InputEvents.{SpellsKept};
ghost use Rattle.osc_text.specs.KeptSeen.{IsRoomy, IsRoomyAsked, kept_asked_seen, kept_seen};
ghost use Rattle.osc_text.specs.KeptServing.{HasBadKeptLine, KeptLine, KeptServeFront, KeptServeText, Starts};
ghost use Rattle.osc_text.specs.KeptText.{NotStarted, StartText, WroteBy};
ghost use Rattle.osc_text.specs.Printing.{BeginsBadly, WroteAround};

use crate::agreed::Agreed;
use crate::ends::{Beginning, Done, End, Input, write_run};
use crate::entry_lines::{put_entry, write_log};
use crate::fault::Fault;
use crate::following::Lines;
use crate::lines::put_refused;
use osc_context::{Context, Keeper};
use osc_endpoint::Ticket;
use osc_kept_ends::{KeptClient, KeptServer};
use osc_kept_runs::siblings::{ask_kept_event, serve_kept_event};
use osc_kept_runs::{KeptClientEvent, KeptServerEvent, run_kept_client, run_kept_server};
use osc_window::WindowSize;
use std::alloc::Global;
use std::io::{BufRead, Write};
use std::mem::{self, ManuallyDrop};

/// How an end whose numbers are kept begins: the keeper that loads them, and what else is given for the end.
#[derive(Drop)]
pub(crate) struct Kept<K, T>(pub(crate) K, pub(crate) T);

/// Derives a context, starts a server of this context alone at the number that the keeper loads, and runs it over the events that an input
/// spells, one per line. Writes the line of each event's entry. If the context or the start is refused, writes the one line of that refusal
/// instead, before looking at a line of the input. Reads all lines before the first event runs. This end is the sender of the context.
/// Returns the status: 0 if the events ran, 2 if the context or the start is refused. The first line that spells no event is a fault, and
/// then nothing is written. Builds each line completely before writing it.
pub fn serve_kept_text<K: Keeper + Drop, W: Write>(
    alloc: Global,
    agreed: Agreed<'_>,
    keeper: K,
    window: WindowSize,
    input: &[u8],
    out: &mut W,
) -> Result<u8, Fault>
    ensures written { WroteBy W.contents (KeptServeText K.Keeper agreed.entry window keeper input.now)
        (KeptServeFront K.Keeper agreed.entry window keeper input.now)
        (HasBadKeptLine K.Keeper agreed.entry window keeper input.now) out.old out.new result }
    ensures two { IfOk result (λ s. (s ≡ 0) ⊎ (s ≡ 2)) }
{
    write_run(alloc, agreed, Kept(keeper, window), input, out)
}

/// Derives a context, and runs a server of this context alone, as [`serve_kept_text`] does, but writes the line of each event's entry as
/// soon as its line was read: each line by one call of the writer. So a line that spells no event is a fault with the lines of the events
/// before it written. `line` has the line that was read last, with its newline.
pub fn serve_kept_following<K: Keeper + Drop, R: BufRead, W: Write>(
    alloc: Global,
    agreed: Agreed<'_>,
    keeper: K,
    window: WindowSize,
    input: &mut R,
    line: &mut Vec<u8>,
    out: &mut W,
) -> Result<u8, Fault>
    ensures written { IfSome (R.remaining input.old)
        (λ bytes. KeptServeFollowed K.Keeper W.contents agreed.entry window keeper bytes out.old out.new result) }
    ensures two { IfOk result (λ s. (s ≡ 0) ⊎ (s ≡ 2)) }
{
    write_run(
        alloc,
        agreed,
        Kept(keeper, window),
        Lines { input, line },
        out,
    )
}

impl<K: Keeper + Drop> Beginning for Kept<K, WindowSize> {
    ghost promised = { λ kept client server feed X contents before after r. ByFeed
        (λ input. WroteAround SpellsKept KeptLine (StartText (NotStarted K.Keeper kept.0) (Starts K.Keeper server kept.1 kept.0))
        (BeginsBadly (Starts K.Keeper server kept.1 kept.0) SpellsKept input) input X contents before after r)
        (λ input. FollowedAround (NotStarted K.Keeper kept.0) (Starts K.Keeper server kept.1 kept.0) SpellsKept KeptLine
        contents input before after r) (EndsWell r) feed };

    fn begin<I: Input, W: Write>(
        self,
        alloc: Global,
        context: Context,
        input: I,
        out: &mut W,
    ) -> Done {
        let Kept(keeper, window) = self;
        match KeptServer::start(context, keeper, window) {
            Ok(mut server) => input.run(alloc, &mut server, out),
            Err((refusal, _keeper)) => put_refused(alloc, refusal, out),
        }
    }
}

impl<K: Keeper + Drop> End for KeptServer<K> {
    type Event = KeptServerEvent;

    type Memory = Vec<Option<Ticket>>;

    ghost are_lines_of = { λ server events lines. (h : ServerHistory) → IsKeptServer server.server (upcoming (own_in server.source)) h
        → All IsRoomy events → EventLines KeptLine (server_state h server.source []) (map kept_seen events) lines };

    ghost is_new = { λ tickets. tickets.items ≡ [] };

    ghost does = { Follows (λ server h. IsKeptServer server.server (upcoming (own_in server.source)) h)
        (λ server tickets h. server_state h server.source (values_in tickets.items)) kept_seen IsRoomy KeptLine };

    fn print<W: Write>(&mut self, alloc: Global, events: &mut [Self::Event], out: &mut W) -> Done {
        let mut log = Vec::new(alloc);
        let ran = run_kept_server(alloc, self, events, &mut log);
        write_log(alloc, log.as_slice(), ran, out)
    }

    fn memory(alloc: Global) -> Vec<Option<Ticket>> {
        Vec::new(alloc)
    }

    fn follow<W: Write>(
        &mut self,
        alloc: Global,
        memory: &mut Vec<Option<Ticket>>,
        event: &mut KeptServerEvent,
        out: &mut W,
    ) -> Result<(), Fault> {
        memory.reserve(1)?;
        let (entry, ticket) = serve_kept_event(self, event, memory);
        memory.push_reserved(ticket);
        put_entry(alloc, &entry, out)
    }
}

/// Derives a context, starts a client of it at the number that the keeper loads, and runs it over the events that an input spells, one per
/// line. Writes the line of each event's entry. If the context or the start is refused, writes the one line of that refusal instead, before
/// looking at a line of the input. Reads all lines before the first event runs. This end is the sender of the context. Up to 16 of its
/// requests are pending at once, each for `life_ms` milliseconds. Returns the status: 0 if the events ran, 2 if the context or the start is
/// refused. The first line that spells no event is a fault, and then nothing is written. Builds each line completely before writing it.
pub fn ask_kept_text<K: Keeper + Drop, W: Write>(
    alloc: Global,
    agreed: Agreed<'_>,
    keeper: K,
    life_ms: u64,
    input: &[u8],
    out: &mut W,
) -> Result<u8, Fault>
    ensures written { WroteBy W.contents (KeptAskText K.Keeper agreed.entry life_ms keeper input.now)
        (KeptAskFront K.Keeper agreed.entry life_ms keeper input.now)
        (HasBadKeptAskedLine K.Keeper agreed.entry life_ms keeper input.now) out.old out.new result }
    ensures two { IfOk result (λ s. (s ≡ 0) ⊎ (s ≡ 2)) }
{
    write_run(alloc, agreed, Kept(keeper, life_ms), input, out)
}

/// Returns whether a value of this type takes fewer than 2^63 bytes.
pub(crate) fn is_of_a_size<T>(value: &T) -> bool
    ensures { result ≡ true ↔ FitsInMemory T.row }
{
    mem::size_of_val(value) <= isize::MAX as usize
}

/// Derives a context, and runs a client of it, as [`ask_kept_text`] does, but writes the line of each event's entry as soon as its line was
/// read: each line by one call of the writer. So a line that spells no event is a fault with the lines of the events before it written.
/// `line` has the line that was read last, with its newline.
pub fn ask_kept_following<K: Keeper + Drop, R: BufRead, W: Write>(
    alloc: Global,
    agreed: Agreed<'_>,
    keeper: K,
    life_ms: u64,
    input: &mut R,
    line: &mut Vec<u8>,
    out: &mut W,
) -> Result<u8, Fault>
    ensures written { IfSome (R.remaining input.old)
        (λ bytes. KeptAskFollowed K.Keeper W.contents agreed.entry life_ms keeper bytes out.old out.new result) }
    ensures two { IfOk result (λ s. (s ≡ 0) ⊎ (s ≡ 2)) }
{
    write_run(
        alloc,
        agreed,
        Kept(keeper, life_ms),
        Lines { input, line },
        out,
    )
}

impl<K: Keeper + Drop> Beginning for Kept<K, u64> {
    ghost promised = { λ kept client server feed X contents before after r. ByFeed
        (λ input. WroteAround SpellsKeptAsked (KeptAskedLine places)
        (StartText (NotStarted K.Keeper kept.0) (StartsClient K.Keeper client kept.1 kept.0))
        (BeginsBadly (StartsClient K.Keeper client kept.1 kept.0) SpellsKeptAsked input) input X contents before after r)
        (λ input. FollowedAround (NotStarted K.Keeper kept.0) (StartsClient K.Keeper client kept.1 kept.0) SpellsKeptAsked (KeptAskedLine places)
        contents input before after r) (EndsWell r) feed };

    fn begin<I: Input, W: Write>(
        self,
        alloc: Global,
        context: Context,
        input: I,
        out: &mut W,
    ) -> Done {
        // No type is larger, so this isn't a branch in the program. It tells the proof that a client over this keeper fits.
        let none: Option<ManuallyDrop<KeptClient<K, 16>>> = None;
        if !is_of_a_size(&none) {
            return Err(Fault::Memory);
        }
        let Kept(keeper, life_ms) = self;
        match KeptClient::<K, 16>::start(context, keeper, life_ms) {
            Ok(mut client) => input.run(alloc, &mut client, out),
            Err((refusal, _keeper)) => put_refused(alloc, refusal, out),
        }
    }
}

impl<K: Keeper + Drop, const N: usize> End for KeptClient<K, N> {
    type Event = KeptClientEvent;

    type Memory = ();

    ghost are_lines_of = { λ client events lines. (h : ClientHistory) → IsKeptClient client.client (upcoming (own_in client.source)) h
        → All IsRoomyAsked events → EventLines (KeptAskedLine N) (client_state h client.source) (map kept_asked_seen events) lines };

    ghost is_new = { λ none. none ≡ tt };

    ghost does = { Follows (λ client h. IsKeptClient client.client (upcoming (own_in client.source)) h)
        (λ client none h. client_state h client.source) kept_asked_seen IsRoomyAsked (KeptAskedLine N) };

    fn print<W: Write>(&mut self, alloc: Global, events: &mut [Self::Event], out: &mut W) -> Done {
        let mut log = Vec::new(alloc);
        let ran = run_kept_client(alloc, self, events, &mut log);
        write_log(alloc, log.as_slice(), ran, out)
    }

    fn memory(_alloc: Global) {}

    fn follow<W: Write>(
        &mut self,
        alloc: Global,
        _memory: &mut (),
        event: &mut KeptClientEvent,
        out: &mut W,
    ) -> Result<(), Fault> {
        let entry = ask_kept_event(self, event);
        put_entry(alloc, &entry, out)
    }
}
