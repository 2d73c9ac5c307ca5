//! The entries of a client's run, as the corpus spells them.

use crate::answer::Answer;
use crate::protection::show_opened;
use osc_endpoint::{ClientEntry, ClientOutcome};

/// Returns the word for what the client made of a datagram.
fn word_of(outcome: &ClientOutcome<'_>) -> &'static str {
    match outcome {
        ClientOutcome::Malformed(_) => "malformed",
        ClientOutcome::NotResponse => "not-response",
        ClientOutcome::UnknownToken => "unknown-token",
        ClientOutcome::Unprotected => "unprotected",
        ClientOutcome::Undecodable => "undecodable",
        ClientOutcome::BadTag => "bad-tag",
        ClientOutcome::BadInner => "bad-inner",
        ClientOutcome::Old => "old",
        ClientOutcome::Notified(..) => "notified",
        ClientOutcome::Deliver(..) => "deliver",
    }
}

/// Shows what the client made of a datagram.
fn show_outcome(outcome: &ClientOutcome<'_>, answer: &mut Answer) {
    answer.word(word_of(outcome));
    match outcome {
        ClientOutcome::Malformed(fault) => answer.print(*fault),
        ClientOutcome::Notified(opened, number) | ClientOutcome::Deliver(opened, number) => {
            answer.print(number.number());
            show_opened(opened, answer);
        }
        _ => {}
    }
}

/// Shows an entry.
pub(crate) fn show(entry: &ClientEntry<'_>, answer: &mut Answer) {
    match entry {
        ClientEntry::Sent { number, datagram } => {
            answer.word("sent");
            answer.print(number.number());
            answer.bytes(datagram);
        }
        ClientEntry::NotSent(refusal) => answer.refused(*refusal),
        ClientEntry::BadPlain(fault) => {
            answer.word("bad-plain");
            answer.print(*fault);
        }
        ClientEntry::Took(outcome) => show_outcome(outcome, answer),
        ClientEntry::Forgot(was_pending) => answer.word(if *was_pending {
            "forgotten"
        } else {
            "not-pending"
        }),
        ClientEntry::Restarted => answer.word("restarted"),
    }
}
