//! The steps of a peer that wants fresh requests, and of one that hears a challenge; and budgets.

ghost use Rattle.std.specs.Prelude.{IfOk};
ghost use Rattle.osc_life.specs.Deciding.{CanShow};
ghost use Rattle.osc_fresh.specs.Admitting.{IfDecided};

use crate::answer::Answer;
use crate::client_entry;
use crate::fields::Fields;
use crate::peer::Peer;
use crate::server_end::lent;
use crate::server_entry::show;
use crate::steps::{FILLED_WITH, Step, Way};
use osc_context::KeeperError;
use osc_endpoint::siblings::{put_back, take_out};
use osc_endpoint::{ClientEntry, ClientOutcome, Outcome, ServerEntry, Taken, Ticket};
use osc_fresh::{Budget, DecidedFresh, Followed, HeardEcho, Wishes};
use osc_protect::head_of_request;

/// Shows how old the request of a delivery is at most, if the wishes know that.
fn show_age(wishes: &Wishes, now: u64, outcome: &Outcome<'_>, answer: &mut Answer) {
    let Outcome::Deliver(opened, _) = outcome else {
        return;
    };
    answer.word("age");
    match wishes.age(opened, now) {
        Some(age) => answer.print(age),
        None => answer.word("unknown"),
    }
}

/// Decides about a datagram by one call, or by the two that it is made of.
fn decide(
    peer: &mut Peer<'_>,
    wishes: &mut Wishes,
    now: u64,
    mid: u16,
    bytes: &mut [u8],
    out: &mut [u8; 64],
    way: Way,
) -> Result<DecidedFresh, KeeperError>
    ensures { IfOk result (λ x. IfDecided x (λ d. CanShow d.decision bytes.new)) }
{
    if way != Way::ByHalves {
        return wishes.decide(peer, now, mid, bytes, out);
    }
    match peer.decide(now, mid, bytes, out) {
        Ok(decided) => Ok(wishes.admit(peer, now, mid, decided, bytes, out)),
        Err(error) => Err(error),
    }
}

/// Makes `fresh NOW MID DATAGRAM`: a datagram comes to a peer that wants fresh requests. Shows what it makes of it, or `challenged` and the
/// challenge, or `unanswered` and why. Returns the ticket of a delivery.
pub(crate) fn take(
    peer: &mut Peer<'_>,
    wishes: &mut Wishes,
    step: &Step<'_>,
    way: Way,
    answer: &mut Answer,
) -> Option<Ticket> {
    let fields = &step.fields;
    fields.count(3);
    let (now, mid) = (fields.number(0), fields.message_id(1));
    let (mut bytes, mut out) = (fields.copy(2), [FILLED_WITH; 64]);
    let before = *wishes;
    let taken = match decide(peer, wishes, now, mid, &mut bytes, &mut out, way) {
        Ok(DecidedFresh::Challenged(len)) => {
            answer.word("challenged");
            answer.bytes(out.get(..len).unwrap_or(&[]));
            return None;
        }
        Ok(DecidedFresh::Unanswered(error)) => {
            answer.word("unanswered");
            answer.print(error);
            return None;
        }
        Ok(DecidedFresh::Decided(decided)) => lent(decided, &bytes),
        Err(_) => Taken {
            outcome: Outcome::KeeperFailed,
            reply: 0,
        },
    };
    let Taken { outcome, reply } = taken;
    show_age(&before, now, &outcome, answer);
    let (seen, ticket) = outcome.part();
    let reply = out.get(..reply).unwrap_or(&[]);
    show(&ServerEntry::Took { seen, reply }, answer);
    ticket
}

/// Makes `age NOW MID DATAGRAM`: a datagram comes to a peer, and a delivery is shown with its age. Returns the ticket of a delivery.
pub(crate) fn age(
    peer: &mut Peer<'_>,
    wishes: &Wishes,
    step: &Step<'_>,
    answer: &mut Answer,
) -> Option<Ticket> {
    let fields = &step.fields;
    fields.count(3);
    let (now, mid) = (fields.number(0), fields.message_id(1));
    let (mut bytes, mut out) = (fields.copy(2), [FILLED_WITH; 64]);
    let Taken { outcome, reply } = Peer::take(peer, now, mid, &mut bytes, &mut out);
    show_age(wishes, now, &outcome, answer);
    let (seen, ticket) = outcome.part();
    let reply = out.get(..reply).unwrap_or(&[]);
    show(&ServerEntry::Took { seen, reply }, answer);
    ticket
}

/// Makes `ask EVENT NOW MID ROOM`: the request of an event is challenged.
pub(crate) fn ask(
    peer: &mut Peer<'_>,
    wishes: &mut Wishes,
    tickets: &mut [Option<Ticket>],
    step: &Step<'_>,
    answer: &mut Answer,
) {
    let fields = &step.fields;
    fields.count(4);
    let (of, now, mid) = (fields.index(0), fields.number(1), fields.message_id(2));
    let mut out = fields.room(3, FILLED_WITH);
    let Some(ticket) = take_out(tickets, of) else {
        answer.word("no-ticket");
        return;
    };
    match wishes.challenge(peer, ticket, now, mid, &mut out) {
        Ok(len) => {
            answer.word("asked");
            answer.bytes(out.get(..len).unwrap_or(&[]));
        }
        Err((refusal, ticket)) => {
            put_back(tickets, of, ticket);
            answer.refused(refusal);
        }
    }
}

/// Makes `listen NOW DATAGRAM`: a datagram comes that may be a response. Shows a challenge with its value, and whether it says that its
/// request wasn't obeyed.
pub(crate) fn listen(
    peer: &mut Peer<'_>,
    heard: &mut HeardEcho,
    step: &Step<'_>,
    answer: &mut Answer,
) {
    let fields = &step.fields;
    fields.count(2);
    let (now, mut bytes) = (fields.number(0), fields.copy(1));
    match heard.follow(peer, now, &mut bytes) {
        Followed::Challenged(challenged, _) => {
            answer.word(if challenged.unobeyed {
                "unobeyed"
            } else {
                "perhaps"
            });
            answer.bytes(challenged.echo);
        }
        Followed::Heard(ClientOutcome::Deliver(_, _) | ClientOutcome::Notified(_, _)) => {
            answer.word("no-challenge");
        }
        Followed::Heard(_) => answer.word("nothing"),
    }
}

/// Makes `heard`: shows the Echo value that was heard last, or none.
pub(crate) fn heard(heard: &HeardEcho, answer: &mut Answer) {
    match heard.value() {
        Some(value) => answer.bytes(value),
        None => answer.bytes(&[]),
    }
}

/// Shows a request that was sealed. The call returns only a length, so the number is read from the bytes.
pub(crate) fn show_sent(datagram: &[u8], answer: &mut Answer) {
    match head_of_request(datagram) {
        Ok(head) => {
            let number = head.number;
            client_entry::show(&ClientEntry::Sent { number, datagram }, answer);
        }
        Err(_) => answer.is_whole = false,
    }
}

/// Makes `echo NOW PLAIN WRITTEN ROOM`: seals a request with the Echo value that was heard last. The plain message with that value has room of
/// WRITTEN bytes.
pub(crate) fn echo(peer: &mut Peer<'_>, heard: &HeardEcho, step: &Step<'_>, answer: &mut Answer) {
    let fields = &step.fields;
    fields.count(4);
    let Some(plain) = fields.message(1) else {
        return;
    };
    let mut written = fields.room(2, FILLED_WITH);
    let mut out = fields.room(3, FILLED_WITH);
    match heard.request_with_echo(peer, fields.number(0), &plain, &mut written, &mut out) {
        Ok(len) => show_sent(out.get(..len).unwrap_or(&[]), answer),
        Err(refusal) => answer.refused(refusal),
    }
}

/// Asks a budget of so many numbers in a period for one at each of the moments.
pub(crate) fn budget(fields: &Fields<'_>, answer: &mut Answer) {
    let Ok(most) = u32::try_from(fields.number(0)) else {
        fields.refuse();
        return;
    };
    let mut budget = Budget::new(most);
    for place in 1..fields.len() {
        let grants = budget.grants(fields.number(place));
        answer.word(if grants { "yes" } else { "no" });
    }
}
