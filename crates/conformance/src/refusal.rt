//! Why an end doesn't make a step.

use crate::answer::Answer;
use osc_endpoint::{
    AddRefusal, ReplaceError, ReplyError, RequestError, RestartError, SameSender, SkipError,
    TooFewLeft,
};
use osc_handle::{KeptReplyRefusal, KeptRequestRefusal};
use osc_kept::{KeptError, ReplaceRefusal};
use osc_peer_handle::PeerRefusal;

/// Why an end doesn't make a step, whichever end it is.
#[derive(Clone, Copy)]
pub(crate) enum Refusal {
    Add(AddRefusal),
    Restart(RestartError),
    Replace(ReplaceError),
    SameSender(SameSender),
    ReplaceKept(ReplaceRefusal),
    Skip(SkipError),
    TooFewLeft(TooFewLeft),
    Kept(KeptError),
    Peer(PeerRefusal),
    Reply(KeptReplyRefusal),
    Request(KeptRequestRefusal),
    /// The end has no such step, or takes its own bytes for bad ones. No row expects that.
    Bad,
}

/// What a step comes to, or why it isn't made.
pub(crate) type Made<T> = Result<T, Refusal>;

impl Refusal {
    /// Returns the refusal of a reply by a server that is no bytes.
    pub(crate) fn of_reply(refusal: ReplyError) -> Refusal {
        Refusal::Reply(KeptReplyRefusal::Refused(refusal))
    }

    /// Returns the refusal of a request by a client, in bytes or not.
    pub(crate) fn of_request(refusal: RequestError) -> Refusal {
        Refusal::Request(KeptRequestRefusal::Refused(refusal))
    }

    /// Shows the refusal. A bad step makes the row differ.
    pub(crate) fn show(self, answer: &mut Answer) {
        match self {
            Refusal::Add(refusal) => answer.refused(refusal),
            Refusal::Restart(refusal) => answer.refused(refusal),
            Refusal::Replace(refusal) => answer.refused(refusal),
            Refusal::SameSender(refusal) => answer.refused(refusal),
            Refusal::ReplaceKept(refusal) => answer.refused(refusal),
            Refusal::Skip(refusal) => answer.refused(refusal),
            Refusal::TooFewLeft(refusal) => answer.refused(refusal),
            Refusal::Kept(refusal) => answer.refused(refusal),
            Refusal::Reply(KeptReplyRefusal::Refused(refusal)) => answer.refused(refusal),
            Refusal::Reply(KeptReplyRefusal::TicketSpent) => answer.refused("TicketSpent"),
            Refusal::Request(KeptRequestRefusal::Refused(refusal)) => answer.refused(refusal),
            Refusal::Peer(PeerRefusal::KeepFirst(number)) => {
                answer.word("keep-first");
                answer.print(number);
            }
            Refusal::Peer(PeerRefusal::SaveFirst(number))
            | Refusal::Reply(KeptReplyRefusal::SaveFirst(number))
            | Refusal::Request(KeptRequestRefusal::SaveFirst(number)) => {
                answer.word("save-first");
                answer.print(number);
            }
            Refusal::Peer(PeerRefusal::BadHandle)
            | Refusal::Reply(KeptReplyRefusal::BadHandle)
            | Refusal::Request(KeptRequestRefusal::BadHandle)
            | Refusal::Bad => answer.is_whole = false,
        }
    }
}

/// Returns the word for a restart at the number that is kept.
pub(crate) fn restarted(kept: Result<(), KeptError>) -> Made<&'static str> {
    match kept {
        Ok(()) => Ok("restarted"),
        Err(refusal) => Err(Refusal::Kept(refusal)),
    }
}

/// Returns the word for another context in the place of an end's, whose keeper nobody needs any more.
pub(crate) fn replaced<K>(kept: Result<K, (ReplaceRefusal, K)>) -> Made<&'static str>
where
    K: Drop,
{
    match kept {
        Ok(_) => Ok("replaced"),
        Err((refusal, _)) => Err(Refusal::ReplaceKept(refusal)),
    }
}

/// Shows the word for what a step came to, or why it wasn't made.
pub(crate) fn show_word(made: Made<&str>, answer: &mut Answer) {
    match made {
        Ok(word) => answer.word(word),
        Err(refusal) => refusal.show(answer),
    }
}
