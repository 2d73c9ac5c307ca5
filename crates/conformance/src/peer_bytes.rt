//! Rows of a peer as bytes.

use crate::answer::Answer;
use crate::client_end::ClientEnd;
use crate::ends::{Begins, End, Left};
use crate::fields::Fields;
use crate::refusal::{Made, Refusal};
use crate::server_end::{Moment, Replied, Reply, Room, ServerEnd, lent};
use crate::steps::{Step, Way};
use crate::{client_calls, server_calls};
use arrayvec::ArrayVec;
use osc_client::siblings::Pending;
use osc_coap::Message;
use osc_context::Context;
use osc_endpoint::{ClientOutcome, Taken, Ticket};
use osc_handle::{ContextHandle, TicketHandle};
use osc_peer_handle::{BeginRefusal, PeerHandle, RecordHandle, name_of};
use osc_window::WindowSize;

/// A peer as bytes, room for two pending requests, and what its tickets name, if that isn't this peer.
#[derive(Drop)]
pub(crate) struct PeerBytes {
    peer: PeerHandle,
    pending: ArrayVec<Pending, 2>,
    shown: Option<(u64, u64)>,
}

impl PeerBytes {
    /// Returns the bytes of a ticket, with another name and another life if a step said so.
    fn bytes_of(&self, ticket: &Ticket) -> TicketHandle {
        let bytes = self.peer.ticket(ticket);
        match self.shown {
            Some((name, life)) => TicketHandle {
                context: name as usize,
                life,
                ..bytes
            },
            None => bytes,
        }
    }

    /// Makes `saved NAME GENERATION SENDER RECEIVED`, with the peer's own name for `own`.
    fn save(&mut self, step: &Step<'_>) -> Made<&'static str> {
        step.fields.count(4);
        let name = if step.fields.word(0) == "own" {
            self.peer.name
        } else {
            u64::from_be_bytes(step.fields.array(0))
        };
        let (generation, sender) = (step.fields.number(1), step.fields.number(2));
        let record = RecordHandle {
            name,
            generation,
            sender,
            received: step.fields.number(3),
        };
        step.was_asked(self.peer.saved(&record))
    }
}

/// Shows the record that a peer saves next, by `record SENDER RECEIVED`.
fn show_record(peer: &PeerHandle, fields: &Fields<'_>, answer: &mut Answer) {
    fields.count(2);
    match peer.record(fields.number(0), fields.number(1)) {
        Some(record) => {
            answer.bytes(&record.name.to_be_bytes());
            answer.print(record.generation);
            answer.print(record.sender);
            answer.print(record.received);
        }
        None => answer.word("none"),
    }
}

/// Shows the name of a context.
pub(crate) fn name(fields: &Fields<'_>, context: &Context, answer: &mut Answer) {
    fields.count(1);
    answer.bytes(&name_of(&ContextHandle::of(context)).to_be_bytes());
}

/// Shows how a peer begins behind a record: `peer-again CONTEXT NAME GENERATION SENDER RECEIVED`.
pub(crate) fn again(fields: &Fields<'_>, context: &Context, answer: &mut Answer) {
    fields.count(5);
    let record = RecordHandle {
        name: u64::from_be_bytes(fields.array(1)),
        generation: fields.number(2),
        sender: fields.number(3),
        received: fields.number(4),
    };
    let context = ContextHandle::of(context);
    match PeerHandle::begin_again(&context, &record, WindowSize::Places32, 60_000) {
        Ok(peer) => {
            answer.word("begun");
            answer.print(peer.life);
        }
        Err(BeginRefusal::OldRecord) => answer.refused("OldRecord"),
        Err(BeginRefusal::NumbersExhausted) => answer.refused("NumbersExhausted"),
        Err(BeginRefusal::BadHandle) => answer.is_whole = false,
    }
}

impl ServerEnd for PeerBytes {
    /// A peer makes its Echo values itself.
    fn take<'b>(&mut self, _at: Moment, _: &'b mut [u8], _out: &mut Room) -> Made<Taken<'b>> {
        Err(Refusal::Bad)
    }

    fn halves<'b>(&mut self, _at: Moment, _: &'b mut [u8], _out: &mut Room) -> Made<Taken<'b>> {
        Err(Refusal::Bad)
    }

    fn counted<'b>(&mut self, at: Moment, bytes: &'b mut [u8], out: &mut Room) -> Made<Taken<'b>> {
        let taken = PeerHandle::take(&mut self.peer, at.now, at.fresh.mid, bytes, out);
        taken.map_err(Refusal::Peer)
    }

    fn counted_halves<'b>(
        &mut self,
        at: Moment,
        bytes: &'b mut [u8],
        out: &mut Room,
    ) -> Made<Taken<'b>> {
        match PeerHandle::decide(&mut self.peer, at.now, at.fresh.mid, bytes, out) {
            Ok(decided) => Ok(lent(decided, bytes)),
            Err(refusal) => Err(Refusal::Peer(refusal)),
        }
    }

    /// The ticket stays: a row shows that it is spent.
    fn reply(&mut self, ticket: Ticket, reply: &Reply<'_>, out: &mut [u8]) -> Replied {
        let of = self.bytes_of(&ticket);
        let Reply { own, mid, plain } = reply;
        let sealed = PeerHandle::reply(&mut self.peer, &of, *own, *mid, plain, out);
        (sealed.map_err(Refusal::Reply), Some(ticket))
    }

    fn notify(&mut self, ticket: &Ticket, plain: &Message<'_>, out: &mut [u8]) -> Made<usize> {
        let of = self.bytes_of(ticket);
        PeerHandle::notify(&mut self.peer, &of, plain, out).map_err(Refusal::Reply)
    }

    fn other(&mut self, step: &Step<'_>) -> Made<&'static str> {
        match step.verb {
            "saved" => self.save(step),
            "shown" => {
                step.fields.count(2);
                let name = u64::from_be_bytes(step.fields.array(0));
                self.shown = Some((name, step.fields.number(1)));
                Ok("shown")
            }
            _ => Err(Refusal::Bad),
        }
    }
}

impl ClientEnd for PeerBytes {
    fn request(&mut self, now: u64, plain: &Message<'_>, out: &mut [u8]) -> Made<usize> {
        let sealed = PeerHandle::request(&mut self.peer, &mut self.pending, now, plain, out);
        sealed.map_err(Refusal::Request)
    }

    fn take<'b>(&mut self, now: u64, bytes: &'b mut [u8]) -> Made<ClientOutcome<'b>> {
        let heard = PeerHandle::hear(&mut self.peer, &mut self.pending, now, bytes);
        heard.ok_or(Refusal::Bad)
    }

    fn halves<'b>(&mut self, now: u64, bytes: &'b mut [u8]) -> Made<ClientOutcome<'b>> {
        match PeerHandle::decide_response(&mut self.peer, &mut self.pending, now, bytes) {
            Some(decision) => Ok(decision.outcome(bytes)),
            None => Err(Refusal::Bad),
        }
    }

    fn forget(&mut self, token: &[u8]) -> Made<bool> {
        let was_pending = PeerHandle::forget(&mut self.peer, &mut self.pending, token);
        was_pending.ok_or(Refusal::Bad)
    }
}

impl End for PeerBytes {
    /// Makes steps in either role. An event of the server has a place for its ticket.
    fn make(&mut self, steps: &[Step<'_>], way: Way, answer: &mut Answer) -> Left {
        let (mut tickets, mut left) = (Vec::new(answer.alloc), Answer::new(answer.alloc));
        for step in steps {
            match step.verb {
                "request" | "hear" | "forget" => {
                    client_calls::make_step(self, step, way, answer, &mut left);
                }
                "record" => show_record(&self.peer, &step.fields, answer),
                _ => server_calls::make_step(self, &mut tickets, step, way, answer, &mut left),
            }
            answer.word(";");
        }
        answer.is_whole = answer.is_whole && self.peer.is_whole();
        Ok(None)
    }
}

/// Begins a peer: `first CONTEXT SIZE LIFE`, or `again CONTEXT GENERATION SENDER RECEIVED SIZE LIFE` behind a record with its name.
fn begun(first: &Step<'_>) -> Option<PeerHandle> {
    let fields = &first.fields;
    let context = ContextHandle::of(&first.context()?);
    if first.verb == "first" {
        fields.count(3);
        return PeerHandle::begin_first(&context, fields.window_size(1), fields.number(2));
    }
    fields.count(6);
    let record = RecordHandle {
        name: name_of(&context),
        generation: fields.number(1),
        sender: fields.number(2),
        received: fields.number(3),
    };
    let (size, life) = (fields.window_size(4), fields.number(5));
    PeerHandle::begin_again(&context, &record, size, life).ok()
}

impl Begins for PeerBytes {
    fn begin(first: &Step<'_>, answer: &mut Answer) -> Option<PeerBytes> {
        let peer = begun(first)?;
        answer.word("begun ;");
        Some(PeerBytes {
            peer,
            pending: ArrayVec::new(),
            shown: None,
        })
    }
}
