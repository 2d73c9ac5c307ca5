//! What `run` prints for a peer, which asks and answers under one context.

use crate::agreed::Agreed;
use crate::ends::{Beginning, Done, End, Input, write_run};
use crate::entry_lines::{put_entry, write_log};
use crate::fault::Fault;
use crate::following::Lines;
use crate::kept_ends::{Kept, is_of_a_size};
use crate::lines::put_refused;
use osc_context::{Context, RecordKeeper};
use osc_endpoint::Ticket;
use osc_kept_ends::KeptPeer;
use osc_peer_runs::siblings::{EchoMemory, run_peer_event};
use osc_peer_runs::{PeerEvent, run_kept_peer};
use osc_window::WindowSize;
use std::alloc::Global;
use std::io::{BufRead, Write};
use std::mem::ManuallyDrop;

/// How a peer begins.
#[derive(Clone, Copy, Debug)]
pub struct Peering {
    /// The size of its window.
    pub window: WindowSize,
    /// How long each of its requests is pending, in milliseconds.
    pub life_ms: u64,
    /// So many received numbers more are kept with each save.
    pub ahead: u64,
}

ghost use Rattle.std.specs.Prelude.{◌≡◌, ◌⊎◌, [], All, IfOk, IfSome, map};
ghost use Rattle.osc_client.specs.ClientHistory.{History as ClientHistory};
ghost use Rattle.osc_kept_ends.specs.Refusals.{RefusesPeer};
ghost use Rattle.osc_life.specs.ServerHistory.{History as ServerHistory};
ghost use Rattle.osc_endpoint.specs.ServerRun.{values_in};
ghost use Rattle.osc_peer_runs.specs.PeerCalls.{IsBehind, echoes_of};
ghost use Rattle.osc_peer_runs.specs.PeerRuns.{no_echoes, peer_state, with_echoes};
ghost use Rattle.osc_text.specs.Asking.{places};
ghost use Rattle.osc_text.specs.Feeding.{ByFeed, EndsWell, FollowedAround, Follows};
ghost use Rattle.osc_text.specs.Following.{PeerFollowed};
ghost use Rattle.osc_text.specs.InputText.{EventLines};
ghost use Rattle.osc_text.specs.KeptText.{StartText, WroteBy};
ghost use Rattle.osc_text.specs.PeerEvents.{SpellsPeer};
ghost use Rattle.osc_text.specs.PeerSeen.{IsRoomyPeer, peer_seen};
ghost use Rattle.osc_text.specs.Peering.{HasBadPeerLine, PeerFront, PeerLine, PeerText, StartsPeer};
ghost use Rattle.osc_text.specs.Printing.{BeginsBadly, WroteAround};

/// Derives a context, starts a peer of it at the two numbers that the record loads, and runs it over the events that an input spells, one
/// per line. Writes the line of each event's entry. If the context or the start is refused, writes the one line of that refusal instead,
/// before looking at a line of the input. Reads all lines before the first event runs. This end is the sender of the context. Up to 16 of
/// its requests are pending at once. Returns the status: 0 if the events ran, 2 if the context or the start is refused. The first line that
/// spells no event is a fault, and then nothing is written. Builds each line completely before writing it.
pub fn peer_text<R: RecordKeeper + Drop, W: Write>(
    alloc: Global,
    agreed: Agreed<'_>,
    keeper: R,
    peering: Peering,
    input: &[u8],
    out: &mut W,
) -> Result<u8, Fault>
    ensures written { WroteBy W.contents (PeerText R.RecordKeeper agreed.entry peering keeper input.now)
        (PeerFront R.RecordKeeper agreed.entry peering keeper input.now)
        (HasBadPeerLine R.RecordKeeper agreed.entry peering keeper input.now) out.old out.new result }
    ensures two { IfOk result (λ s. (s ≡ 0) ⊎ (s ≡ 2)) }
{
    write_run(alloc, agreed, Kept(keeper, peering), input, out)
}

/// Derives a context, and runs a peer of it, as [`peer_text`] does, but writes the line of each event's entry as soon as its line was read:
/// each line by one call of the writer. So a line that spells no event is a fault with the lines of the events before it written. `line` has
/// the line that was read last, with its newline.
pub fn peer_following<K: RecordKeeper + Drop, R: BufRead, W: Write>(
    alloc: Global,
    agreed: Agreed<'_>,
    keeper: K,
    peering: Peering,
    input: &mut R,
    line: &mut Vec<u8>,
    out: &mut W,
) -> Result<u8, Fault>
    ensures written { IfSome (R.remaining input.old)
        (λ bytes. PeerFollowed K.RecordKeeper W.contents agreed.entry peering keeper bytes out.old out.new result) }
    ensures two { IfOk result (λ s. (s ≡ 0) ⊎ (s ≡ 2)) }
{
    write_run(
        alloc,
        agreed,
        Kept(keeper, peering),
        Lines { input, line },
        out,
    )
}

impl<R: RecordKeeper + Drop> Beginning for Kept<R, Peering> {
    ghost promised = { λ kept client server feed X contents before after r. ByFeed
        (λ input. WroteAround SpellsPeer (PeerLine places)
        (StartText (RefusesPeer R.loads R.failures kept.0) (StartsPeer R.RecordKeeper server client kept.1 kept.0))
        (BeginsBadly (StartsPeer R.RecordKeeper server client kept.1 kept.0) SpellsPeer input) input X contents before after r)
        (λ input. FollowedAround (RefusesPeer R.loads R.failures kept.0) (StartsPeer R.RecordKeeper server client kept.1 kept.0) SpellsPeer (PeerLine places)
        contents input before after r) (EndsWell r) feed };

    fn begin<I: Input, W: Write>(
        self,
        alloc: Global,
        context: Context,
        input: I,
        out: &mut W,
    ) -> Done {
        // No type is larger, so this isn't a branch in the program. It tells the proof that a peer over this record fits.
        let none: Option<ManuallyDrop<KeptPeer<R, 16>>> = None;
        if !is_of_a_size(&none) {
            return Err(Fault::Memory);
        }
        let Kept(
            keeper,
            Peering {
                window,
                life_ms,
                ahead,
            },
        ) = self;
        match KeptPeer::<R, 16>::start_ahead(context, keeper, window, life_ms, ahead) {
            Ok(mut peer) => input.run(alloc, &mut peer, out),
            Err((refusal, _keeper)) => put_refused(alloc, refusal, out),
        }
    }
}

/// What a peer's run remembers of the events before: Echo values, and the ticket that is left of each event.
#[derive(Drop)]
pub(crate) struct PeerMemory {
    echoes: EchoMemory,
    tickets: Vec<Option<Ticket>>,
}

impl<R: RecordKeeper + Drop, const N: usize> End for KeptPeer<R, N> {
    type Event = PeerEvent;

    type Memory = PeerMemory;

    ghost are_lines_of = { λ peer events lines. (h : ServerHistory) (k : ClientHistory) → IsBehind peer h k
        → All IsRoomyPeer events → EventLines (PeerLine N) (peer_state h k peer.source []) (map peer_seen events) lines };

    ghost is_new = { λ memory. (echoes_of memory.echoes ≡ no_echoes) × (memory.tickets.items ≡ []) };

    ghost does = { Follows {H = ServerHistory × ClientHistory} (λ peer h. IsBehind peer h.0 h.1)
        (λ peer memory h. with_echoes (echoes_of memory.echoes) (peer_state h.0 h.1 peer.source (values_in memory.tickets.items)))
        peer_seen IsRoomyPeer (PeerLine N) };

    fn print<W: Write>(&mut self, alloc: Global, events: &mut [Self::Event], out: &mut W) -> Done {
        let mut log = Vec::new(alloc);
        let ran = run_kept_peer(alloc, self, events, &mut log);
        write_log(alloc, log.as_slice(), ran, out)
    }

    fn memory(alloc: Global) -> PeerMemory {
        PeerMemory {
            echoes: EchoMemory::new(),
            tickets: Vec::new(alloc),
        }
    }

    fn follow<W: Write>(
        &mut self,
        alloc: Global,
        memory: &mut PeerMemory,
        event: &mut PeerEvent,
        out: &mut W,
    ) -> Result<(), Fault> {
        let PeerMemory { echoes, tickets } = memory;
        tickets.reserve(1)?;
        let (entry, ticket) = run_peer_event(self, echoes, event, tickets);
        tickets.push_reserved(ticket);
        put_entry(alloc, &entry, out)
    }
}
