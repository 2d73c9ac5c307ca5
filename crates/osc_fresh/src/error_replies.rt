//! What a server says of datagrams that it doesn't take (RFC 8613, 8.2).

ghost use Rattle.std.specs.Prelude.{◌≡◌};
ghost use Rattle.osc_fresh.specs.Errors.{said, sent_after, sent_for};

use osc_endpoint::{Decided, Decision, Outcome, Taken};

/// Which errors a server sends. They have no protection, and whoever has a datagram, or makes one up, gets one for each copy (RFC 8613, 8.2;
/// own rule: all but the last).
#[derive(Clone, Copy, Debug, PartialEq, Eq)]
pub enum ErrorReplies {
    /// None: who has no key hears nothing.
    Silent,
    /// Those that aren't longer than the datagram: so nobody makes the server send more bytes than it got.
    NoLonger,
    /// Each one.
    Any,
}

impl ErrorReplies {
    /// Returns how many bytes of an error to send, of a reply of this length to a datagram of that.
    fn len_of_error(self, reply: usize, asked: usize) -> usize
        ensures { result ≡ said self reply asked }
    {
        match self {
            ErrorReplies::Silent => 0,
            ErrorReplies::NoLonger => { if reply <= asked { reply } else { 0 } }
            ErrorReplies::Any => reply,
        }
    }

    /// Returns how many bytes at the front of `out` to send after `decide`, where the datagram has `asked` bytes. A challenge is protected,
    /// and sent.
    #[must_use]
    pub fn sent_for(self, decided: &Decided, asked: usize) -> usize
        ensures { result ≡ sent_for self decided.now asked }
    {
        match &decided.decision {
            Decision::Challenge { .. } => decided.reply,
            _ => self.len_of_error(decided.reply, asked),
        }
    }

    /// Returns how many bytes at the front of `out` to send after `take`, where the datagram has `asked` bytes. A challenge is protected, and
    /// sent.
    #[must_use]
    pub fn sent_after(self, taken: &Taken<'_>, asked: usize) -> usize
        ensures { result ≡ sent_after self taken.now asked }
    {
        match &taken.outcome {
            Outcome::Challenge { .. } => taken.reply,
            _ => self.len_of_error(taken.reply, asked),
        }
    }
}
