//! Rows of nodes: each step is a call of osc_node, over a record in memory.

ghost use Rattle.osc_life.specs.Deciding.{CanShow};

use crate::answer::Answer;
use crate::fields::Fields;
use crate::messages::{address, again, poll, show_acknowledged, show_arrived, show_call, wake};
use crate::peer_record::RecordMemory;
use crate::protection::show_opened;
use crate::steps::{FILLED_WITH, Step};
use osc_context::KeptNumbers;
use osc_endpoint::{ClientOutcome, Decided, Decision, Outcome, Ticket};
use osc_kept_ends::KeptPeer;
use osc_message::{Address, Again, Arrived, Messages, Repeated, Separate};
use osc_node::{Node, NodeDecided, NodeDecision, Notified, Responded};
use osc_window::WindowSize;

/// How long a request of a node is pending, in milliseconds.
const LIFE_MS: u64 = 93_000;

/// How many bytes a message of a row has at most.
const MOST_BYTES: usize = 128;

/// A node with two places for messages on their way, and two for messages that came, and the ticket of the request that it delivered last.
#[derive(Drop)]
struct Serving<'t> {
    node: Node<RecordMemory<'t>, 2, 2>,
    ticket: Option<Ticket>,
}

/// Shows the first bytes of a buffer.
fn show_front(out: &[u8], len: usize, answer: &mut Answer) {
    answer.bytes(out.get(..len).unwrap_or(&[]));
}

/// Makes `request NOW TO RANDOM PLAIN`: a request is sent.
fn request(serving: &mut Serving<'_>, fields: &Fields<'_>, answer: &mut Answer) {
    fields.count(4);
    let Some(plain) = fields.message(3) else {
        return fields.refuse();
    };
    let mut out = [FILLED_WITH; MOST_BYTES];
    let (now, random) = (fields.number(0), fields.message_id(2));
    match serving
        .node
        .request(now, address(fields, 1), random, &plain, &mut out)
    {
        Ok(sent) => {
            show_call("call", sent.call, answer);
            show_front(&out, sent.len, answer);
        }
        Err(refusal) => answer.refused(refusal),
    }
}

/// Shows what was decided about a request, and returns its ticket if it was delivered.
fn show_request(decision: Decision, datagram: &[u8], answer: &mut Answer) -> Option<Ticket>
    requires { CanShow decision datagram.now }
{
    match decision.outcome(datagram) {
        Outcome::Deliver(opened, ticket) => {
            answer.word("deliver");
            answer.print(ticket.number().number());
            show_opened(&opened, answer);
            return Some(ticket);
        }
        Outcome::Challenge { .. } => answer.word("challenge"),
        Outcome::Replay => answer.word("replay"),
        Outcome::NoContext => answer.word("no-context"),
        Outcome::BadTag => answer.word("bad-tag"),
        _ => answer.word("refused"),
    }
    None
}

/// Shows a place in mind, or nothing.
fn show_noted(noted: Option<Arrived>, answer: &mut Answer) {
    match noted {
        Some(arrived) => show_arrived("noted", arrived, answer),
        None => answer.word("not-noted"),
    }
}

/// Shows what was decided about a response.
fn show_response(outcome: &ClientOutcome<'_>, answer: &mut Answer) {
    match outcome {
        ClientOutcome::Deliver(opened, number) | ClientOutcome::Notified(opened, number) => {
            answer.word("hear");
            answer.print(number.number());
            show_opened(opened, answer);
        }
        ClientOutcome::BadTag => answer.word("bad-tag"),
        _ => answer.word("refused"),
    }
}

/// Shows what a message gets that came before.
fn show_repeated(repeated: Repeated, answer: &mut Answer) {
    answer.word("again");
    answer.word(again(repeated.again));
    if let Again::Resend = repeated.again {
        answer.print(repeated.place);
    }
}

/// Takes a datagram, and shows what was decided, and what is sent at once.
fn decide(
    serving: &mut Serving<'_>,
    now: u64,
    from: Address,
    datagram: &mut [u8],
    answer: &mut Answer,
) {
    let mut out = [FILLED_WITH; 64];
    let NodeDecided { decision, send } = serving.node.decide(now, from, datagram, &mut out);
    match decision {
        NodeDecision::Request(Decided { decision, .. }, noted) => {
            serving.ticket = show_request(decision, datagram, answer);
            show_noted(noted, answer);
        }
        NodeDecision::Response(call, decision) => {
            show_call("response", call, answer);
            show_response(&decision.outcome(datagram), answer);
        }
        NodeDecision::Repeated(repeated) => show_repeated(repeated, answer),
        NodeDecision::Acknowledged(acknowledged) => show_acknowledged(acknowledged, answer),
        NodeDecision::Reset(call) => show_call("reset", call, answer),
        NodeDecision::Rejected => answer.word("rejected"),
        NodeDecision::Ignored => answer.word("ignored"),
        NodeDecision::NoPlace => answer.word("no-place"),
        NodeDecision::KeeperFailed => answer.word("keeper-failed"),
    }
    show_front(&out, send, answer);
}

/// Makes `take NOW FROM DATAGRAM`: a datagram comes.
fn take(serving: &mut Serving<'_>, fields: &Fields<'_>, answer: &mut Answer) {
    fields.count(3);
    let mut datagram = fields.copy(2);
    let (now, from) = (fields.number(0), address(fields, 1));
    decide(serving, now, from, &mut datagram, answer);
}

/// Shows how a response was sent, and its bytes.
fn show_responded(responded: Responded, out: &[u8], answer: &mut Answer) {
    let len = match responded {
        Responded::InAck(len) => {
            answer.word("in-ack");
            len
        }
        Responded::Non(len) => {
            answer.word("non");
            len
        }
        Responded::Con(sent) => {
            show_call("con", sent.call, answer);
            sent.len
        }
    };
    show_front(out, len, answer);
}

/// Makes `respond NOW NUMBER PLACE RANDOM PLAIN`: the request that was delivered last is answered, as the message with this number at this place.
fn respond(serving: &mut Serving<'_>, fields: &Fields<'_>, answer: &mut Answer) {
    fields.count(5);
    let (Some(plain), Some(ticket)) = (fields.message(4), serving.ticket.take()) else {
        return fields.refuse();
    };
    let arrived = Arrived {
        number: fields.number(1),
        place: fields.index(2),
    };
    let (now, random) = (fields.number(0), fields.message_id(3));
    let mut out = [FILLED_WITH; MOST_BYTES];
    match serving
        .node
        .respond(now, arrived, ticket, false, random, &plain, &mut out)
    {
        Ok(responded) => show_responded(responded, &out, answer),
        Err((refusal, ticket)) => {
            serving.ticket = Some(ticket);
            answer.refused(refusal);
        }
    }
}

/// Makes `observe NOW NUMBER PLACE RANDOM PLAIN`: the registration that was delivered last gets its first notification, as the message with this
/// number at this place, and its ticket stays.
fn observe(serving: &mut Serving<'_>, fields: &Fields<'_>, answer: &mut Answer) {
    fields.count(5);
    let (Some(plain), Some(ticket)) = (fields.message(4), serving.ticket.as_ref()) else {
        return fields.refuse();
    };
    let arrived = Arrived {
        number: fields.number(1),
        place: fields.index(2),
    };
    let (now, random) = (fields.number(0), fields.message_id(3));
    let mut out = [FILLED_WITH; MOST_BYTES];
    match serving
        .node
        .begin_observation(now, arrived, ticket, random, &plain, &mut out)
    {
        Ok(responded) => show_responded(responded, &out, answer),
        Err(refusal) => answer.refused(refusal),
    }
}

/// Makes `notify NOW TO con|non RANDOM PLAIN`: who registered by the request that was delivered last is notified.
fn notify(serving: &mut Serving<'_>, fields: &Fields<'_>, answer: &mut Answer) {
    fields.count(5);
    let (Some(plain), Some(ticket)) = (fields.message(4), serving.ticket.as_ref()) else {
        return fields.refuse();
    };
    let separate = if fields.word(2) == "con" {
        Separate::Con
    } else {
        Separate::Non
    };
    let (now, to, random) = (fields.number(0), address(fields, 1), fields.message_id(3));
    let mut out = [FILLED_WITH; MOST_BYTES];
    match serving
        .node
        .notify(now, to, ticket, separate, random, &plain, &mut out)
    {
        Ok(Notified::Non(len)) => {
            answer.word("non");
            show_front(&out, len, answer);
        }
        Ok(Notified::Con(sent)) => {
            show_call("con", sent.call, answer);
            show_front(&out, sent.len, answer);
        }
        Err(refusal) => answer.refused(refusal),
    }
}

/// Makes one step of a row.
fn step(serving: &mut Serving<'_>, step: &Step<'_>, answer: &mut Answer) {
    let fields = &step.fields;
    match step.verb {
        "request" => request(serving, fields, answer),
        "take" => take(serving, fields, answer),
        "respond" => respond(serving, fields, answer),
        "observe" => observe(serving, fields, answer),
        "notify" => notify(serving, fields, answer),
        "poll" => poll(&mut serving.node.layer, fields, answer),
        "wake" => wake(&serving.node.layer, answer),
        _ => fields.refuse(),
    }
}

/// Begins a node by `begin CONTEXT SENDER RECEIVED RANDOM NOW`: its record has these numbers, and its Message IDs begin behind RANDOM.
fn begin<'t>(first: &Step<'t>, answer: &Answer) -> Option<Serving<'t>> {
    let fields = &first.fields;
    fields.count(5);
    let context = first.context()?;
    let (sender, received) = (fields.number(1), fields.number(2));
    let keeper = RecordMemory::new(answer.alloc, KeptNumbers { sender, received }, "-");
    match KeptPeer::start(context, keeper, WindowSize::default(), LIFE_MS) {
        Ok(peer) => Some(Serving {
            node: Node {
                peer,
                layer: Messages::new(fields.message_id(3), fields.number(4)),
            },
            ticket: None,
        }),
        Err(_) => None,
    }
}

/// Makes `node begin CONTEXT SENDER RECEIVED RANDOM NOW ; STEP ; ..`.
pub(crate) fn make(steps: &[Step<'_>], answer: &mut Answer) {
    let Some((first, rest)) = steps.split_first() else {
        return;
    };
    let Some(mut serving) = begin(first, answer) else {
        return first.fields.refuse();
    };
    for (place, it) in rest.iter().enumerate() {
        if place > 0 {
            answer.word(";");
        }
        step(&mut serving, it, answer);
    }
}
