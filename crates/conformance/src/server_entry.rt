//! The entries of a server's run, as the corpus spells them.

use crate::answer::Answer;
use crate::protection::show_opened;
use osc_coap::option_numbers::OSCORE;
use osc_coap::parse;
use osc_context::{OscoreOption, Piv};
use osc_endpoint::{Seen, ServerEntry};

/// Returns the word for what the server made of a datagram.
fn word_of(seen: &Seen<'_>) -> &'static str {
    match seen {
        Seen::Malformed(_) => "malformed",
        Seen::NotRequest => "not-request",
        Seen::Plain => "plain",
        Seen::Undecodable => "undecodable",
        Seen::NoContext => "no-context",
        Seen::Replay => "replay",
        Seen::BadTag => "bad-tag",
        Seen::BadInner => "bad-inner",
        Seen::Challenge { .. } => "challenge",
        Seen::SequenceExhausted => "exhausted",
        Seen::KeeperFailed => "keeper-failed",
        Seen::Deliver { .. } => "deliver",
    }
}

/// Shows what the server made of a datagram.
fn show_seen(seen: &Seen<'_>, answer: &mut Answer) {
    answer.word(word_of(seen));
    match seen {
        Seen::Malformed(fault) => answer.print(*fault),
        Seen::Challenge { echo, issued } => {
            answer.bytes(echo);
            answer.print(*issued);
        }
        Seen::Deliver {
            opened,
            context,
            number,
        } => {
            answer.print(*context);
            answer.print(number.number());
            show_opened(opened, answer);
        }
        _ => {}
    }
}

/// Returns the Partial IV that a datagram has in its OSCORE option.
pub(crate) fn number_in(datagram: &[u8]) -> Option<Piv> {
    let Ok(message) = parse(datagram) else {
        return None;
    };
    let value = message.options().first(OSCORE)?;
    match OscoreOption::read(value) {
        Ok(option) => option.piv,
        Err(_) => None,
    }
}

/// Shows an entry. A datagram's entry ends with the reply. That of a response says so if its number isn't the one in the datagram.
pub(crate) fn show(entry: &ServerEntry<'_>, answer: &mut Answer) {
    match entry {
        ServerEntry::Took { seen, reply } => {
            show_seen(seen, answer);
            answer.bytes(reply);
        }
        ServerEntry::Replied(Ok(sealed)) => {
            answer.word("replied");
            answer.bytes(sealed.datagram);
            if sealed.number != number_in(sealed.datagram) {
                answer.word("of-another-number");
            }
        }
        ServerEntry::Replied(Err(refusal)) => answer.refused(*refusal),
        ServerEntry::NoTicket => answer.word("no-ticket"),
        ServerEntry::BadPlain(fault) => {
            answer.word("bad-plain");
            answer.print(*fault);
        }
        ServerEntry::Dropped(true) => answer.word("dropped"),
        ServerEntry::Dropped(false) => answer.word("no-ticket"),
        ServerEntry::Restarted(Ok(())) => answer.word("restarted"),
        ServerEntry::Restarted(Err(refusal)) => answer.refused(*refusal),
    }
}
