//! What a server decided about a datagram, before it lends slices of the datagram.

ghost use Rattle.std.specs.Prelude.{◌≢◌};
ghost use Rattle.osc_life.specs.Deciding.{CanShow, ShowsDecided};
ghost use Rattle.osc_life.specs.declared.outcome.Outcome.TheVariants.{KeeperFailed};

use crate::outcome::Outcome;
use crate::ticket::Ticket;
use osc_coap::FormatError;
use osc_protect::ReadRequest;

/// What a server decided about a datagram: an outcome, except that a delivery says where the parts of its message lie.
#[derive(Debug, Drop)]
pub enum Decision {
    Malformed(FormatError),
    NotRequest,
    Plain,
    Undecodable,
    NoContext,
    Replay,
    BadTag,
    BadInner,
    Challenge { echo: [u8; 8], issued: u64 },
    SequenceExhausted,
    Deliver(ReadRequest, Ticket),
}

impl Decision {
    /// Returns the decision as an outcome that lends slices of the datagram, as `take` returns it. Call this on the decision that
    /// `Server::decide` returned, and pass in the datagram as that call left it. Nothing is read again.
    #[must_use]
    pub fn outcome(self, datagram: &[u8]) -> Outcome<'_>
        requires { CanShow self datagram.now }
        ensures shows { ShowsDecided self datagram.now result }
        ensures no_keeper_failed { result ≢ KeeperFailed }
    {
        match self {
            Decision::Malformed(error) => Outcome::Malformed(error),
            Decision::NotRequest => Outcome::NotRequest,
            Decision::Plain => Outcome::Plain,
            Decision::Undecodable => Outcome::Undecodable,
            Decision::NoContext => Outcome::NoContext,
            Decision::Replay => Outcome::Replay,
            Decision::BadTag => Outcome::BadTag,
            Decision::BadInner => Outcome::BadInner,
            Decision::Challenge { echo, issued } => Outcome::Challenge { echo, issued },
            Decision::SequenceExhausted => Outcome::SequenceExhausted,
            Decision::Deliver(read, ticket) => Outcome::Deliver(read.opened(datagram), ticket),
        }
    }
}

/// What a server decided, and how many bytes of reply stand at the front of `out`. There is no reply if that is 0.
#[derive(Debug, Drop)]
pub struct Decided {
    pub decision: Decision,
    pub reply: usize,
}
