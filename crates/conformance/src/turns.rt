//! Rows of two peers of one Sender Key, which have the source of its Sender Sequence Numbers in turn, over keepers in memory.

use crate::answer::Answer;
use crate::freshening::show_sent;
use crate::keeper::Memory;
use crate::server_entry::show;
use crate::steps::{FILLED_WITH, Step};
use osc_context::Context;
use osc_endpoint::{ServerEntry, Taken};
use osc_kept_ends::{KeptPeer, SenderSource, SharedRecord};
use osc_window::WindowSize;

/// How long a request is pending, in milliseconds.
const LIFE_MS: u64 = 60_000;

/// A peer over keepers in memory, with room for two pending requests.
type Peer<'t> = KeptPeer<SharedRecord<Memory<'t>, Memory<'t>>, 2>;

/// Shows what the keepers of a record were asked to save: `source` and that of the Sender Sequence Numbers, if it is here, and the received
/// number's.
fn show_saves(record: SharedRecord<Memory<'_>, Memory<'_>>, answer: &mut Answer) {
    let (sender, received) = record.into_keepers();
    if let Some(sender) = sender {
        answer.word("source");
        sender.show(answer);
    }
    received.show(answer);
}

/// Starts a peer that rests.
fn rest<'t>(context: Context, received: Memory<'t>, answer: &mut Answer) -> Option<Peer<'t>> {
    match Peer::start_resting(context, received, WindowSize::default(), LIFE_MS, 0) {
        Ok(peer) => Some(peer),
        Err((refusal, keeper)) => {
            answer.refused(refusal);
            keeper.show(answer);
            None
        }
    }
}

/// Starts a peer that rests, and adopts a source that begins at what its keeper loads.
fn adopt<'t>(
    context: Context,
    sender: Memory<'t>,
    received: Memory<'t>,
    answer: &mut Answer,
) -> Option<Peer<'t>> {
    let source = match SenderSource::start(&context, sender) {
        Ok(source) => source,
        Err((refusal, keeper)) => {
            answer.refused(refusal);
            keeper.show(answer);
            return None;
        }
    };
    let Some(mut peer) = rest(context, received, answer) else {
        source.into_keeper().show(answer);
        return None;
    };
    match peer.adopt(source) {
        Ok(()) => Some(peer),
        Err((refusal, _)) => {
            answer.refused(refusal);
            None
        }
    }
}

/// Starts the peer that has the source: `start CONTEXT RECEIVED PLAN` by its record, and `adopt CONTEXT RECEIVED PLAN` at rest, and then by the
/// source.
fn begin<'t>(step: &Step<'t>, sender: Memory<'t>, answer: &mut Answer) -> Option<Peer<'t>> {
    step.fields.count(3);
    let context = step.context()?;
    let received = Memory::new(answer.alloc, step.fields.number(1), step.fields.word(2));
    if step.verb == "adopt" {
        return adopt(context, sender, received, answer);
    }
    let record = SharedRecord::new(&context, sender, received);
    match Peer::start(context, record, WindowSize::default(), LIFE_MS) {
        Ok(peer) => Some(peer),
        Err((refusal, record)) => {
            answer.refused(refusal);
            show_saves(record, answer);
            None
        }
    }
}

/// Makes `request PEER NOW PLAIN ROOM`.
fn request(peer: &mut Peer<'_>, step: &Step<'_>, answer: &mut Answer) {
    let fields = &step.fields;
    fields.count(4);
    let Some(plain) = fields.message(2) else {
        return;
    };
    let mut out = fields.room(3, FILLED_WITH);
    match peer.request(fields.number(1), &plain, &mut out) {
        Ok(len) => show_sent(out.get(..len).unwrap_or(&[]), answer),
        Err(refusal) => answer.refused(refusal),
    }
}

/// Makes `take PEER NOW MID DATAGRAM`.
fn take(peer: &mut Peer<'_>, step: &Step<'_>, answer: &mut Answer) {
    let fields = &step.fields;
    fields.count(4);
    let mut bytes = fields.copy(3);
    let mut out = [FILLED_WITH; 64];
    let (now, mid) = (fields.number(1), fields.message_id(2));
    let Taken { outcome, reply } = peer.take(now, mid, &mut bytes, &mut out);
    let (seen, _ticket) = outcome.part();
    let reply = out.get(..reply).unwrap_or(&[]);
    show(&ServerEntry::Took { seen, reply }, answer);
}

/// Makes `turn PEER`: the peer takes the source over from the other one.
fn take_over<'t>(peer: &mut Peer<'t>, other: &mut Peer<'t>, answer: &mut Answer) {
    match peer.take_over(other) {
        Ok(()) => answer.word("taken"),
        Err(refusal) => answer.refused(refusal),
    }
}

/// Makes `carry PEER`: the other one releases the source, and the peer adopts it, or else the other one adopts it again.
fn carry<'t>(peer: &mut Peer<'t>, other: &mut Peer<'t>, answer: &mut Answer) {
    let Some(source) = other.release() else {
        answer.word("none");
        return;
    };
    answer.print(source.upcoming());
    match peer.adopt(source) {
        Ok(()) => answer.word("adopted"),
        Err((refusal, source)) => {
            answer.refused(refusal);
            answer.is_whole = other.adopt(source).is_ok() && answer.is_whole;
        }
    }
}

/// Makes a step of a peer, beside which the other one stands.
fn make_step<'t>(peer: &mut Peer<'t>, other: &mut Peer<'t>, step: &Step<'_>, answer: &mut Answer) {
    match step.verb {
        "request" => request(peer, step, answer),
        "take" => take(peer, step, answer),
        "turn" => take_over(peer, other, answer),
        "carry" => carry(peer, other, answer),
        "next" => answer.print(peer.upcoming()),
        "has-source" => answer.word(if peer.has_source() { "yes" } else { "no" }),
        _ => step.fields.refuse(),
    }
}

/// Makes a row's steps. The first three are `source KEPT PLAN`, `start` or `adopt` of the first peer, and `rest CONTEXT RECEIVED PLAN` of the
/// second one.
pub(crate) fn make<'t>(steps: &[Step<'t>], answer: &mut Answer) {
    let (Some(source), Some(one), Some(two)) = (steps.first(), steps.get(1), steps.get(2)) else {
        answer.is_whole = false;
        return;
    };
    source.fields.count(2);
    let sender = Memory::new(answer.alloc, source.fields.number(0), source.fields.word(1));
    let Some(mut first) = begin(one, sender, answer) else {
        return;
    };
    two.fields.count(3);
    let Some(context) = two.context() else {
        return;
    };
    let received = Memory::new(answer.alloc, two.fields.number(1), two.fields.word(2));
    let Some(mut second) = rest(context, received, answer) else {
        return;
    };
    answer.word("started ;");
    for step in steps.get(3..).unwrap_or(&[]) {
        match step.fields.number(0) {
            0 => make_step(&mut first, &mut second, step, answer),
            _ => make_step(&mut second, &mut first, step, answer),
        }
        answer.word(";");
    }
    show_saves(first.into_keeper(), answer);
    show_saves(second.into_keeper(), answer);
}
