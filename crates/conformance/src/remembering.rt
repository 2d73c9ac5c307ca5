//! The steps of a peer with a memory of the requests that it answered.

use crate::answer::Answer;
use crate::peer::Peer;
use crate::server_end::lent;
use crate::server_entry::show;
use crate::steps::{FILLED_WITH, Step, Way};
use osc_endpoint::siblings::{put_back, take_out};
use osc_endpoint::{Outcome, ServerEntry, Taken, Ticket};
use osc_replies::{DecidedAgain, Replies, TakenAgain};

/// A memory of two requests, each with at most 256 bytes of ciphertext and of reply.
pub(crate) type Remembered = Replies<2, 256>;

/// Takes a datagram by the two halves of that call.
fn by_halves<'b>(
    peer: &mut Peer<'_>,
    replies: &mut Remembered,
    now: u64,
    mid: u16,
    bytes: &'b mut [u8],
    out: &mut [u8; 128],
) -> TakenAgain<'b> {
    match replies.decide(peer, now, mid, bytes, out) {
        Ok(DecidedAgain::Again(len)) => TakenAgain::Again(len),
        Ok(DecidedAgain::Decided(decided)) => TakenAgain::Taken(lent(decided, bytes)),
        Err(_) => TakenAgain::Taken(Taken {
            outcome: Outcome::KeeperFailed,
            reply: 0,
        }),
    }
}

/// Makes `again NOW MID DATAGRAM`: a datagram comes to a peer with a memory, and there are 128 bytes of room for the reply. Shows the same
/// reply behind `again`, or else what the peer makes of it. Returns the ticket of a delivery.
pub(crate) fn take(
    peer: &mut Peer<'_>,
    replies: &mut Remembered,
    step: &Step<'_>,
    way: Way,
    answer: &mut Answer,
) -> Option<Ticket> {
    let fields = &step.fields;
    fields.count(3);
    let (now, mid) = (fields.number(0), fields.message_id(1));
    let (mut bytes, mut out) = (fields.copy(2), [FILLED_WITH; 128]);
    let taken = match way {
        Way::ByHalves => by_halves(peer, replies, now, mid, &mut bytes, &mut out),
        _ => replies.take(peer, now, mid, &mut bytes, &mut out),
    };
    match taken {
        TakenAgain::Again(len) => {
            answer.word("again");
            answer.bytes(out.get(..len).unwrap_or(&[]));
            None
        }
        TakenAgain::Taken(Taken { outcome, reply }) => {
            let (seen, ticket) = outcome.part();
            let reply = out.get(..reply).unwrap_or(&[]);
            show(&ServerEntry::Took { seen, reply }, answer);
            ticket
        }
    }
}

/// Makes `answer EVENT own|shared MID PLAIN ROOM`: the reply to the request of an event, which is remembered.
pub(crate) fn reply(
    peer: &mut Peer<'_>,
    replies: &mut Remembered,
    tickets: &mut [Option<Ticket>],
    step: &Step<'_>,
    answer: &mut Answer,
) {
    let fields = &step.fields;
    fields.count(5);
    let (of, own, mid) = (
        fields.index(0),
        fields.word(1) == "own",
        fields.message_id(2),
    );
    let mut out = fields.room(4, FILLED_WITH);
    let Some(plain) = fields.message(3) else {
        return;
    };
    let Some(ticket) = take_out(tickets, of) else {
        answer.word("no-ticket");
        return;
    };
    match replies.reply(peer, ticket, own, mid, &plain, &mut out) {
        Ok(len) => {
            answer.word("replied");
            answer.bytes(out.get(..len).unwrap_or(&[]));
        }
        Err((refusal, ticket)) => {
            put_back(tickets, of, ticket);
            answer.refused(refusal);
        }
    }
}
