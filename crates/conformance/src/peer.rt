//! Rows of peers, which ask and answer under one context, over a record in memory, from one start to the next.

use crate::answer::Answer;
use crate::client_end::ClientEnd;
use crate::fields::Fields;
use crate::peer_record::RecordMemory;
use crate::refusal::{Made, Refusal, replaced};
use crate::remembering::{self, Remembered};
use crate::server_end::{Moment, Replied, Reply, Room, ServerEnd, lent};
use crate::server_ends::answered;
use crate::steps::{Step, Way, up_to_start};
use crate::{client_calls, freshening, server_calls};
use osc_coap::Message;
use osc_context::{Context, KeptNumbers};
use osc_endpoint::{ClientOutcome, Outcome, Taken, Ticket};
use osc_fresh::{ErrorReplies, HeardEcho, Wishes, notify_without_echo, reply_without_echo};
use osc_kept::{KeptError, KeptPeer};

/// How old a request may be that a peer obeys which wants fresh ones, in milliseconds.
const FRESH_MS: u64 = 5_000;

/// A peer over a record in memory, with room for two pending requests.
pub(crate) type Peer<'t> = KeptPeer<RecordMemory<'t>, 2>;

/// A peer, and what its caller asked for: that no Echo value goes out but one that is due, which errors are sent, a memory of requests that it
/// answered, and fresh requests.
#[derive(Drop)]
struct Asking<'t> {
    peer: Peer<'t>,
    heeds: bool,
    heard: HeardEcho,
    errors: ErrorReplies,
    replies: Remembered,
    wishes: Wishes,
}

impl ServerEnd for Asking<'_> {
    /// A peer makes its Echo values itself.
    fn take<'b>(&mut self, _at: Moment, _: &'b mut [u8], _out: &mut Room) -> Made<Taken<'b>> {
        Err(Refusal::Bad)
    }

    fn halves<'b>(&mut self, _at: Moment, _: &'b mut [u8], _out: &mut Room) -> Made<Taken<'b>> {
        Err(Refusal::Bad)
    }

    fn counted<'b>(&mut self, at: Moment, bytes: &'b mut [u8], out: &mut Room) -> Made<Taken<'b>> {
        let asked = bytes.len();
        let taken = KeptPeer::take(&mut self.peer, at.now, at.fresh.mid, bytes, out);
        let reply = self.errors.sent_after(&taken, asked);
        Ok(Taken { reply, ..taken })
    }

    fn counted_halves<'b>(
        &mut self,
        at: Moment,
        bytes: &'b mut [u8],
        out: &mut Room,
    ) -> Made<Taken<'b>> {
        let asked = bytes.len();
        match KeptPeer::decide(&mut self.peer, at.now, at.fresh.mid, bytes, out) {
            Ok(decided) => {
                let reply = self.errors.sent_for(&decided, asked);
                let taken = lent(decided, bytes);
                Ok(Taken { reply, ..taken })
            }
            Err(_) => Ok(Taken {
                outcome: Outcome::KeeperFailed,
                reply: 0,
            }),
        }
    }

    fn reply(&mut self, ticket: Ticket, reply: &Reply<'_>, out: &mut [u8]) -> Replied {
        let (peer, plain) = (&mut self.peer, &reply.plain);
        answered(if self.heeds {
            reply_without_echo(peer, ticket, reply.own, reply.mid, plain, out)
        } else {
            KeptPeer::reply(peer, ticket, reply.own, reply.mid, plain, out)
        })
    }

    fn notify(&mut self, ticket: &Ticket, plain: &Message<'_>, out: &mut [u8]) -> Made<usize> {
        let len = if self.heeds {
            notify_without_echo(&mut self.peer, ticket, plain, out)
        } else {
            KeptPeer::notify(&mut self.peer, ticket, plain, out)
        };
        len.map_err(Refusal::of_reply)
    }

    fn next(&self, _context: usize) -> Made<Option<u64>> {
        Ok(Some(self.peer.upcoming()))
    }

    fn other(&mut self, step: &Step<'_>) -> Made<&'static str> {
        match step.verb {
            "advance" => {
                KeptPeer::advance(&mut self.peer, step.fields.number(0));
                Ok("advanced")
            }
            "is-open" => Ok(if self.peer.is_open() {
                "open"
            } else {
                "closed"
            }),
            "replace" => {
                step.fields.count(4);
                let Some(context) = step.context() else {
                    return Err(Refusal::Bad);
                };
                let (sender, received) = (step.fields.number(2), step.fields.number(3));
                let kept = KeptNumbers { sender, received };
                let keeper = RecordMemory::new(step.fields.alloc, kept, "-");
                replaced(
                    self.peer
                        .replace(context, keeper, step.fields.window_size(1)),
                )
            }
            "heed" => {
                self.heeds = true;
                Ok("heeds")
            }
            "errors" => {
                self.errors = errors_named(step.fields.word(0))?;
                Ok("set")
            }
            _ => Err(Refusal::Bad),
        }
    }
}

/// Returns which errors are sent, by a word of a row.
fn errors_named(word: &str) -> Made<ErrorReplies> {
    match word {
        "silent" => Ok(ErrorReplies::Silent),
        "no-longer" => Ok(ErrorReplies::NoLonger),
        "any" => Ok(ErrorReplies::Any),
        _ => Err(Refusal::Bad),
    }
}

impl ClientEnd for Asking<'_> {
    fn request(&mut self, now: u64, plain: &Message<'_>, out: &mut [u8]) -> Made<usize> {
        let len = if self.heeds {
            self.heard.request(&mut self.peer, now, plain, out)
        } else {
            KeptPeer::request(&mut self.peer, now, plain, out)
        };
        len.map_err(Refusal::of_request)
    }

    fn take<'b>(&mut self, now: u64, bytes: &'b mut [u8]) -> Made<ClientOutcome<'b>> {
        Ok(self.heard.hear(&mut self.peer, now, bytes))
    }

    fn halves<'b>(&mut self, now: u64, bytes: &'b mut [u8]) -> Made<ClientOutcome<'b>> {
        let decision = KeptPeer::decide_response(&mut self.peer, now, bytes);
        let outcome = decision.outcome(bytes);
        if let ClientOutcome::Deliver(opened, _) | ClientOutcome::Notified(opened, _) = &outcome {
            self.heard.note(opened);
        }
        Ok(outcome)
    }

    fn forget(&mut self, token: &[u8]) -> Made<bool> {
        Ok(KeptPeer::forget(&mut self.peer, token))
    }

    fn other(&mut self, step: &Step<'_>) -> Made<&'static str> {
        match step.verb {
            "apart" => {
                KeptPeer::set_apart(&mut self.peer, step.registrations());
                Ok("apart")
            }
            _ => Err(Refusal::Bad),
        }
    }
}

/// Makes an event of the server's role with a memory of the requests that it answered, or with a wish for fresh requests. Returns the place
/// for its ticket, or nothing for any other step.
fn event(
    asking: &mut Asking<'_>,
    tickets: &mut [Option<Ticket>],
    step: &Step<'_>,
    way: Way,
    answer: &mut Answer,
) -> Option<Option<Ticket>> {
    let Asking {
        peer,
        replies,
        wishes,
        ..
    } = asking;
    match step.verb {
        "again" => Some(remembering::take(peer, replies, step, way, answer)),
        "fresh" => Some(freshening::take(peer, wishes, step, way, answer)),
        "age" => Some(freshening::age(peer, wishes, step, answer)),
        "answer" => {
            remembering::reply(peer, replies, tickets, step, answer);
            Some(None)
        }
        "ask" => {
            freshening::ask(peer, wishes, tickets, step, answer);
            Some(None)
        }
        _ => None,
    }
}

/// Makes the steps of a peer, in either role. An event of its server has a place for its ticket.
fn make(asking: &mut Asking<'_>, steps: &[Step<'_>], way: Way, answer: &mut Answer) {
    let (mut tickets, mut left) = (Vec::new(answer.alloc), Answer::new(answer.alloc));
    for step in steps {
        if let Some(ticket) = event(asking, &mut tickets, step, way, answer) {
            answer.is_whole = tickets.push(ticket).is_ok() && answer.is_whole;
        } else {
            match step.verb {
                "request" | "hear" | "forget" | "apart" => {
                    client_calls::make_step(asking, step, way, answer, &mut left);
                }
                "listen" => freshening::listen(&mut asking.peer, &mut asking.heard, step, answer),
                "heard" => freshening::heard(&asking.heard, answer),
                "echo" => freshening::echo(&mut asking.peer, &asking.heard, step, answer),
                _ => server_calls::make_step(asking, &mut tickets, step, way, answer, &mut left),
            }
        }
        answer.word(";");
    }
}

/// Starts a peer by `start CONTEXT SIZE LIFE`, or by `start CONTEXT SIZE LIFE AHEAD`, which keeps received numbers ahead.
fn begin<'t>(
    context: Context,
    keeper: RecordMemory<'t>,
    fields: &Fields<'_>,
) -> Result<Peer<'t>, (KeptError, RecordMemory<'t>)> {
    let (size, life) = (fields.window_size(1), fields.number(2));
    if fields.len() == 3 {
        return Peer::start(context, keeper, size, life);
    }
    fields.count(4);
    Peer::start_ahead(context, keeper, size, life, fields.number(3))
}

/// Makes a start, and the steps up to the next one. Returns the record for the next start.
fn one_start<'t>(
    keeper: RecordMemory<'t>,
    start: &Step<'_>,
    steps: &[Step<'_>],
    way: Way,
    answer: &mut Answer,
) -> RecordMemory<'t> {
    let Some(context) = start.context() else {
        return keeper;
    };
    match begin(context, keeper, &start.fields) {
        Ok(peer) => {
            answer.word("started ;");
            let mut asking = Asking {
                peer,
                heeds: false,
                heard: HeardEcho::new(),
                errors: ErrorReplies::Any,
                replies: Remembered::new(),
                wishes: Wishes::new(FRESH_MS),
            };
            make(&mut asking, steps, way, answer);
            let Asking { peer, .. } = asking;
            peer.into_keeper()
        }
        Err((refusal, keeper)) => {
            Refusal::Kept(refusal).show(answer);
            answer.word(";");
            keeper
        }
    }
}

/// Makes all steps in one way. The first step is `record SENDER RECEIVED PLAN`.
fn in_a_way(steps: &[Step<'_>], way: Way, answer: &mut Answer) {
    let Some((first, behind)) = steps.split_first() else {
        return;
    };
    first.fields.count(3);
    let (sender, received) = (first.fields.number(0), first.fields.number(1));
    let kept = KeptNumbers { sender, received };
    let mut keeper = RecordMemory::new(answer.alloc, kept, first.fields.word(2));
    for (place, start) in behind.iter().enumerate() {
        if start.verb == "start" {
            let after = behind.get(place + 1..).unwrap_or(&[]);
            keeper = one_start(keeper, start, up_to_start(after), way, answer);
        }
    }
    keeper.show(answer);
}

/// Makes a row's steps: by `take` and `hear`, and by the halves of both.
pub(crate) fn over_both(steps: &[Step<'_>], answer: &mut Answer) {
    in_a_way(steps, Way::ByTake, answer);
    answer.again();
    in_a_way(steps, Way::ByHalves, answer);
}
