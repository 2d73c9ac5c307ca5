//! A peer as bytes in the place of a server or of a client: whatever a row asks of these, it answers. What it has to save first is saved before
//! each call, with all received numbers, so no call asks for a save.

use crate::answer::Answer;
use crate::client::read_new;
use crate::client_end::ClientEnd;
use crate::ends::{Begins, End, Left};
use crate::refusal::{Made, Refusal};
use crate::server_end::{Moment, Replied, Reply, Room, ServerEnd, lent};
use crate::server_events::addition;
use crate::steps::{Step, Way};
use crate::{client_calls, server_calls};
use arrayvec::ArrayVec;
use osc_client::siblings::Pending;
use osc_coap::Message;
use osc_context::{Context, Piv};
use osc_endpoint::{ClientOutcome, Start, Taken, Ticket};
use osc_handle::{ContextHandle, KeptReplyRefusal};
use osc_peer_handle::{PeerHandle, RecordHandle, name_of};
use osc_window::WindowSize;

/// No number is this large (RFC 8613, 7.2.1).
const NUMBER_LIMIT: u64 = 1 << 40;

/// Begins a peer behind a record of these numbers.
fn begun_at(
    context: &Context,
    sender: Piv,
    received: u64,
    size: WindowSize,
    life: u64,
) -> Option<PeerHandle> {
    let context = ContextHandle::of(context);
    let record = RecordHandle {
        name: name_of(&context),
        generation: 1,
        sender: sender.number(),
        received,
    };
    PeerHandle::begin_again(&context, &record, size, life).ok()
}

/// Saves what has to be saved before the next call, if there is something.
fn save_ahead(peer: &mut PeerHandle) {
    let (next, reserved) = (peer.server.server.slot.next, peer.server.reserved);
    if next < reserved && peer.generation >= peer.life {
        return;
    }
    let more = if next == reserved && reserved < NUMBER_LIMIT {
        64
    } else {
        0
    };
    let sender = reserved.saturating_add(more).min(NUMBER_LIMIT);
    if let Some(record) = peer.record(sender, NUMBER_LIMIT) {
        peer.saved(&record);
    }
}

/// A peer that answers.
#[derive(Drop)]
pub(crate) struct AnsweringPeer {
    peer: PeerHandle,
}

/// Returns the received number of the record behind which a peer begins in this way, if there is such a record: it has no words for a context that
/// sealed before and knows no number, and its Echo values are no row's.
fn received_of(start: Start) -> Option<(Piv, u64)> {
    match start {
        Start::Fresh(next) if next.number() == 0 => Some((next, 0)),
        Start::Received { next, highest } => Some((next, highest.number() + 1)),
        _ => None,
    }
}

/// Returns whether a peer can stand in the place of a server that begins with this step.
pub(crate) fn can_answer(first: &Step<'_>) -> bool {
    if first.verb != "add" {
        return false;
    }
    match addition(first) {
        Some((_, start, _)) => received_of(start).is_some(),
        None => false,
    }
}

impl Begins for AnsweringPeer {
    /// Begins with the context that the first step adds.
    fn begin(first: &Step<'_>, answer: &mut Answer) -> Option<AnsweringPeer> {
        let (context, start, size) = addition(first)?;
        let (next, received) = received_of(start)?;
        answer.word("added 0 ;");
        let peer = begun_at(&context, next, received, size, 60_000)?;
        Some(AnsweringPeer { peer })
    }
}

impl ServerEnd for AnsweringPeer {
    fn take<'b>(&mut self, at: Moment, bytes: &'b mut [u8], out: &mut Room) -> Made<Taken<'b>> {
        save_ahead(&mut self.peer);
        let taken = PeerHandle::take(&mut self.peer, at.now, at.fresh.mid, bytes, out);
        taken.map_err(Refusal::Peer)
    }

    fn halves<'b>(&mut self, at: Moment, bytes: &'b mut [u8], out: &mut Room) -> Made<Taken<'b>> {
        save_ahead(&mut self.peer);
        match PeerHandle::decide(&mut self.peer, at.now, at.fresh.mid, bytes, out) {
            Ok(decided) => Ok(lent(decided, bytes)),
            Err(refusal) => Err(Refusal::Peer(refusal)),
        }
    }

    /// A second reply, under the request's nonce, shows that the ticket is spent.
    fn reply(&mut self, ticket: Ticket, reply: &Reply<'_>, out: &mut [u8]) -> Replied {
        let of = self.peer.ticket(&ticket);
        let Reply { own, mid, plain } = reply;
        save_ahead(&mut self.peer);
        match PeerHandle::reply(&mut self.peer, &of, *own, *mid, plain, out) {
            Ok(len) => {
                save_ahead(&mut self.peer);
                match PeerHandle::reply(&mut self.peer, &of, false, *mid, plain, &mut []) {
                    Err(KeptReplyRefusal::TicketSpent) => (Ok(len), None),
                    _ => (Err(Refusal::Bad), None),
                }
            }
            Err(refusal) => (Err(Refusal::Reply(refusal)), Some(ticket)),
        }
    }

    fn notify(&mut self, ticket: &Ticket, plain: &Message<'_>, out: &mut [u8]) -> Made<usize> {
        let of = self.peer.ticket(ticket);
        save_ahead(&mut self.peer);
        PeerHandle::notify(&mut self.peer, &of, plain, out).map_err(Refusal::Reply)
    }
}

impl End for AnsweringPeer {
    fn make(&mut self, steps: &[Step<'_>], way: Way, answer: &mut Answer) -> Left {
        Ok(Some(server_calls::make(self, steps, way, answer)))
    }
}

/// A peer that asks, with room for N pending requests.
#[derive(Drop)]
pub(crate) struct AskingPeer<const N: usize> {
    peer: PeerHandle,
    pending: ArrayVec<Pending, N>,
}

impl<const N: usize> Begins for AskingPeer<N> {
    fn begin(first: &Step<'_>, _answer: &mut Answer) -> Option<AskingPeer<N>> {
        let (context, next, life) = read_new(first)?;
        Some(AskingPeer {
            peer: begun_at(&context, next, 0, WindowSize::Places32, life)?,
            pending: ArrayVec::new(),
        })
    }
}

impl<const N: usize> ClientEnd for AskingPeer<N> {
    fn request(&mut self, now: u64, plain: &Message<'_>, out: &mut [u8]) -> Made<usize> {
        save_ahead(&mut self.peer);
        let sealed = PeerHandle::request(&mut self.peer, &mut self.pending, now, plain, out);
        sealed.map_err(Refusal::Request)
    }

    fn take<'b>(&mut self, now: u64, bytes: &'b mut [u8]) -> Made<ClientOutcome<'b>> {
        let heard = PeerHandle::hear(&mut self.peer, &mut self.pending, now, bytes);
        heard.ok_or(Refusal::Bad)
    }

    fn halves<'b>(&mut self, now: u64, bytes: &'b mut [u8]) -> Made<ClientOutcome<'b>> {
        match PeerHandle::decide_response(&mut self.peer, &mut self.pending, now, bytes) {
            Some(decision) => Ok(decision.outcome(bytes)),
            None => Err(Refusal::Bad),
        }
    }

    fn forget(&mut self, token: &[u8]) -> Made<bool> {
        let was_pending = PeerHandle::forget(&mut self.peer, &mut self.pending, token);
        was_pending.ok_or(Refusal::Bad)
    }
}

impl<const N: usize> End for AskingPeer<N> {
    fn make(&mut self, steps: &[Step<'_>], way: Way, answer: &mut Answer) -> Left {
        Ok(Some(client_calls::make(self, steps, way, answer)))
    }
}
