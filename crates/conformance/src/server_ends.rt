//! The servers.

use crate::keeper::Memory;
use crate::refusal::{Made, Refusal, replaced, restarted};
use crate::server_end::{Moment, Replied, Reply, Room, ServerEnd, lent};
use crate::server_events::replacement;
use crate::steps::Step;
use osc_coap::Message;
use osc_context::{Context, Piv};
use osc_endpoint::{AddRefusal, Outcome, ReplyError, Server, Start, Taken, Ticket};
use osc_kept::KeptServer;
use osc_window::WindowSize;

/// Returns the length of a reply, or the ticket that a refusal gives back.
pub(crate) fn answered(sealed: Result<usize, (ReplyError, Ticket)>) -> Replied {
    match sealed {
        Ok(len) => (Ok(len), None),
        Err((refusal, ticket)) => (Err(Refusal::of_reply(refusal)), Some(ticket)),
    }
}

impl ServerEnd for Server {
    fn take<'b>(&mut self, at: Moment, bytes: &'b mut [u8], out: &mut Room) -> Made<Taken<'b>> {
        Ok(Server::take(self, at.now, at.fresh, bytes, out))
    }

    fn halves<'b>(&mut self, at: Moment, bytes: &'b mut [u8], out: &mut Room) -> Made<Taken<'b>> {
        let decided = Server::decide(self, at.now, at.fresh, bytes, out);
        Ok(lent(decided, bytes))
    }

    fn reply(&mut self, ticket: Ticket, reply: &Reply<'_>, out: &mut [u8]) -> Replied {
        answered(Server::reply(self, ticket, reply.own, reply.mid, &reply.plain, out))
    }

    fn notify(&mut self, ticket: &Ticket, plain: &Message<'_>, out: &mut [u8]) -> Made<usize> {
        Server::notify(self, ticket, plain, out).map_err(Refusal::of_reply)
    }

    fn add(&mut self, context: Context, start: Start, size: WindowSize) -> Made<usize> {
        let added = Server::add(self, context, start, size);
        added.map_err(|refusal| Refusal::Add(AddRefusal::Refused(refusal)))
    }

    fn add_distinct(&mut self, context: Context, start: Start, size: WindowSize) -> Made<usize> {
        Server::add_distinct(self, context, start, size).map_err(Refusal::Add)
    }

    fn restart(&mut self, context: usize, next: Piv) -> Made<()> {
        Server::restart(self, context, next).map_err(Refusal::Restart)
    }

    fn next(&self, context: usize) -> Made<Option<u64>> {
        Ok(Server::next(self, context))
    }

    fn other(&mut self, step: &Step<'_>) -> Made<&'static str> {
        match step.verb {
            "advance" => {
                self.advance(step.fields.number(0));
                Ok("advanced")
            }
            "is-open" => {
                let is_open = self.is_open(step.fields.index(0));
                Ok(if is_open { "open" } else { "closed" })
            }
            "replace" => {
                let Some((context, index, start, size)) = replacement(step) else {
                    return Err(Refusal::Bad);
                };
                let replaced = self.replace(index, context, start, size);
                replaced.map_err(Refusal::Replace).map(|()| "replaced")
            }
            "skip" => {
                step.fields.count(2);
                let skipped = self.skip(step.fields.index(0), step.fields.number(1));
                skipped.map_err(Refusal::Skip).map(|()| "skipped")
            }
            _ => Err(Refusal::Bad),
        }
    }
}

impl ServerEnd for KeptServer<Memory<'_>> {
    fn take<'b>(&mut self, at: Moment, bytes: &'b mut [u8], out: &mut Room) -> Made<Taken<'b>> {
        Ok(KeptServer::take(self, at.now, at.fresh, bytes, out))
    }

    fn halves<'b>(&mut self, at: Moment, bytes: &'b mut [u8], out: &mut Room) -> Made<Taken<'b>> {
        match KeptServer::decide(self, at.now, at.fresh, bytes, out) {
            Ok(decided) => Ok(lent(decided, bytes)),
            Err(_) => Ok(Taken {
                outcome: Outcome::KeeperFailed,
                reply: 0,
            }),
        }
    }

    fn counted<'b>(&mut self, at: Moment, bytes: &'b mut [u8], out: &mut Room) -> Made<Taken<'b>> {
        Ok(KeptServer::take_counted(self, at.now, at.fresh.mid, bytes, out))
    }

    fn reply(&mut self, ticket: Ticket, reply: &Reply<'_>, out: &mut [u8]) -> Replied {
        answered(KeptServer::reply(self, ticket, reply.own, reply.mid, &reply.plain, out))
    }

    fn notify(&mut self, ticket: &Ticket, plain: &Message<'_>, out: &mut [u8]) -> Made<usize> {
        KeptServer::notify(self, ticket, plain, out).map_err(Refusal::of_reply)
    }

    fn next(&self, _context: usize) -> Made<Option<u64>> {
        Ok(Some(self.upcoming()))
    }

    fn other(&mut self, step: &Step<'_>) -> Made<&'static str> {
        match step.verb {
            "restart" => restarted(KeptServer::restart(self)),
            "replace" => {
                step.fields.count(3);
                let Some(context) = step.context() else {
                    return Err(Refusal::Bad);
                };
                let keeper = Memory::new(step.fields.alloc, step.fields.number(2), "-");
                replaced(self.replace(context, keeper, step.fields.window_size(1)))
            }
            _ => Err(Refusal::Bad),
        }
    }
}
