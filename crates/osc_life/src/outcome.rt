//! What a server makes of a datagram.

use crate::seen::Seen;
use crate::ticket::Ticket;
use osc_coap::FormatError;
use osc_protect::Opened;

/// What a server makes of a datagram: the first of these variants whose condition holds.
#[derive(Debug, Drop)]
pub enum Outcome<'b> {
    /// The bytes aren't a CoAP message.
    Malformed(FormatError),
    /// The message is not CON or NON with a request code.
    NotRequest,
    /// There is no OSCORE option.
    Plain,
    /// The OSCORE option can't be used, or there is no payload, or there is an option for proxies.
    Undecodable,
    /// No context has this kid and kid context.
    NoContext,
    /// The number isn't new.
    Replay,
    /// The payload protects no plaintext.
    BadTag,
    /// The plaintext isn't a request that may stand inside the protection.
    BadInner,
    /// The context was restarted, and the request doesn't carry the Echo value in force. The reply gives that value.
    Challenge { echo: [u8; 8], issued: u64 },
    /// The same, but no Sender Sequence Number is left for the reply.
    SequenceExhausted,
    /// The keeper of the Sender Sequence Numbers failed. A `Server` never returns this.
    KeeperFailed,
    /// The request is delivered, with the right to reply to it.
    Deliver(Opened<'b>, Ticket),
}

impl<'b> Outcome<'b> {
    ghost use Rattle.std.specs.Prelude.{◌≡◌, None};
    ghost use Rattle.std.specs.Option.{option_map};
    ghost use Rattle.osc_life.specs.ServerHistory.{Answer};
    ghost use Rattle.osc_life.specs.Logged.{Logs, ticket_of};
    ghost use Rattle.osc_life.specs.Views.{Shows, values_of};
    ghost use Rattle.osc_life.specs.declared.outcome.Outcome.TheVariants.{KeeperFailed};
    ghost use Rattle.osc_life.specs.declared.seen.Seen.TheVariants as seen;

    /// Returns the outcome as the log of a run shows it, and its ticket.
    #[must_use]
    pub fn part(self) -> (Seen<'b>, Option<Ticket>)
        ensures shown { (answer : Answer) → Shows self.entry answer
            → Logs result.0 answer × (option_map values_of result.1 ≡ ticket_of answer) }
        ensures keeper_failed { self.entry ≡ KeeperFailed → (result.0 ≡ seen.KeeperFailed) × (result.1 ≡ None) }
    {
        match self {
            Outcome::Malformed(error) => (Seen::Malformed(error), None),
            Outcome::NotRequest => (Seen::NotRequest, None),
            Outcome::Plain => (Seen::Plain, None),
            Outcome::Undecodable => (Seen::Undecodable, None),
            Outcome::NoContext => (Seen::NoContext, None),
            Outcome::Replay => (Seen::Replay, None),
            Outcome::BadTag => (Seen::BadTag, None),
            Outcome::BadInner => (Seen::BadInner, None),
            Outcome::Challenge { echo, issued } => (Seen::Challenge { echo, issued }, None),
            Outcome::SequenceExhausted => (Seen::SequenceExhausted, None),
            Outcome::KeeperFailed => (Seen::KeeperFailed, None),
            Outcome::Deliver(opened, ticket) => {
                let (context, number) = (ticket.context(), ticket.number());
                let seen = Seen::Deliver {
                    opened,
                    context,
                    number,
                };
                (seen, Some(ticket))
            }
        }
    }
}

/// What a server made of a datagram, and how many bytes of reply stand at the front of `out`. There is no reply if that is 0.
#[derive(Debug, Drop)]
pub struct Taken<'b> {
    pub outcome: Outcome<'b>,
    pub reply: usize,
}
