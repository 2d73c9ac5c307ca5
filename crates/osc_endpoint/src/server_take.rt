//! What a server makes of a datagram. It decides, and says what it leaves in the datagram. The decision lends slices of what is left.

ghost use Rattle.std.specs.Prelude.{◌≡◌, ◌≢◌, ◌≤◌, ℕ, List, Option, Some, take, drop};
ghost use Rattle.osc_life.specs.Deciding.{CanShow, Decides, Leaves, ShowsDecided};
ghost use Rattle.osc_endpoint.specs.Deciding.{DecidesTo};
ghost use Rattle.osc_endpoint.specs.Heads.{head_answer, HeadReply};
ghost use Rattle.osc_life.specs.Judging.{IsAskerOf};
ghost use Rattle.osc_life.specs.declared.slot.Slot.{Slot};
ghost use Rattle.osc_life.specs.declared.outcome.Outcome.TheVariants.{KeeperFailed};
ghost use Rattle.osc_endpoint.specs.Agrees.{Agrees, server_of};
ghost use Rattle.osc_life.specs.ServerHistory.{History};

use crate::contexts::Contexts;
use crate::server::ServerOf;
use osc_coap::parse;
use osc_life::siblings::{Asker, ErrorReply, Named, write_error};
use osc_life::{Decided, Decision, Fresh, Taken};
use osc_protect::{NoHead, RequestHead, one_reading, one_request};

/// Refuses a message that has no request head.
fn refuse_head(none: NoHead, asker: &Asker, mid: u16, out: &mut [u8; 64]) -> Decided
    ensures decides { (new : List ℕ) → Decides result.decision new (head_answer none) }
    ensures shown { (new : List ℕ) → CanShow result.decision new }
    ensures leaves { (slots : List (Option Slot)) (d : List ℕ) → Leaves slots result.decision d d }
    ensures reply { (d : List ℕ) → IsAskerOf asker.now d → HeadReply none d mid (take result.reply out.new) }
    ensures within { result.reply ≤ 64 }
    ensures behind { drop result.reply out.new ≡ drop result.reply out.old }
{
    let decision = match none {
        NoHead::NotThatKind => Decision::NotRequest,
        NoHead::NoOscore => Decision::Plain,
        NoHead::Undecodable => {
            let reply = write_error(asker, mid, ErrorReply::Undecodable, out);
            return Decided {
                decision: Decision::Undecodable,
                reply,
            };
        }
    };
    Decided { decision, reply: 0 }
}

/// Decides the answer to a datagram for a server with this clock and these contexts, wherever they lie. It does what `Server::decide` does.
pub fn decide_over<T: Contexts>(
    clock: &mut u64,
    contexts: &mut T,
    now: u64,
    fresh: Fresh,
    datagram: &mut [u8],
    out: &mut [u8; 64],
) -> Decided
    requires { T.is_table contexts.old }
    ensures answered { (h : History) (slots : List (Option Slot)) → T.holds contexts.old slots → Agrees (server_of T.places clock.old slots) h
        → (new : List (Option Slot)) × T.holds contexts.new new
        × DecidesTo h now fresh datagram.old result datagram.new (take result.reply out.new) (server_of T.places clock.new new) }
    ensures table { T.is_table contexts.new }
    ensures shown { CanShow result.decision datagram.new }
    ensures left { (slots : List (Option Slot)) → T.holds contexts.old slots → Leaves slots result.decision datagram.old datagram.new }
    ensures within { result.reply ≤ 64 }
    ensures behind { drop result.reply out.new ≡ drop result.reply out.old }
{
    *clock = (*clock).max(now);
    let message = match parse(datagram) {
        Ok(message) => message,
        Err(error) => {
            return Decided {
                decision: Decision::Malformed(error),
                reply: 0,
            };
        }
    };
    let read = RequestHead::read(&message);
    let asker = Asker::of(message);
    let head = match read {
        Ok(head) => head,
        Err(none) => return refuse_head(none, &asker, fresh.mid, out),
    };
    let Some(index) = contexts.find(head.kid, head.kid_context) else {
        let reply = write_error(&asker, fresh.mid, ErrorReply::NoContext, out);
        return Decided {
            decision: Decision::NoContext,
            reply,
        };
    };
    let (number, sealed) = (head.number, head.sealed());
    let request = Named {
        index,
        number,
        clock: *clock,
        fresh,
        asker,
        sealed,
    };
    contexts.judge_at(request, datagram, out)
}

impl<const N: usize> ServerOf<N> {
    ghost use Rattle.osc_endpoint.specs.Agrees.{Agrees};
    ghost use Rattle.osc_life.specs.ServerHistory.{History};
    ghost use Rattle.osc_endpoint.specs.Deciding.{DecidesTo, LeavesBy, Takes};
    ghost use Rattle.osc_endpoint.specs.ServerAnswer.{Delivers};
    ghost use Rattle.osc_life.specs.Views.{delivery_of};
    ghost use Rattle.osc_life.specs.declared.outcome.Outcome.{Outcome as OutcomeOf};
    ghost use Rattle.osc_coap.specs.Inner.{InnerParts};

    /// Decides the answer to a datagram in place (RFC 8613, 8.2), and says what it leaves in the datagram. The first `reply` bytes of `out`
    /// are the reply; the rest of `out` stays unchanged. `Decision::outcome` lends what was delivered.
    pub fn decide(
        &mut self,
        now: u64,
        fresh: Fresh,
        datagram: &mut [u8],
        out: &mut [u8; 64],
    ) -> Decided
        ensures answered { (h : History) → Agrees self.old h
            → DecidesTo h now fresh datagram.old result datagram.new (take result.reply out.new) self.new }
        ensures shown { CanShow result.decision datagram.new }
        ensures left { LeavesBy self.old result.decision datagram.old datagram.new }
        // `Decision::outcome` returns a delivery if and only if the datagram that was passed in is to be delivered.
        ensures delivered { (h : History) (i n : ℕ) (m : InnerParts) (outcome : OutcomeOf) → Agrees self.old h
            → ShowsDecided result.decision datagram.new outcome → delivery_of outcome ≡ Some (i, n, m) → Delivers h now datagram.old i n m }
        ensures delivers { (h : History) (i n : ℕ) (m : InnerParts) (outcome : OutcomeOf) → Agrees self.old h
            → ShowsDecided result.decision datagram.new outcome → Delivers h now datagram.old i n m → delivery_of outcome ≡ Some (i, n, m) }
        ensures within { result.reply ≤ 64 }
        ensures behind { drop result.reply out.new ≡ drop result.reply out.old }
    {
        // For the proof alone.
        one_reading();
        one_request();
        decide_over(&mut self.clock, &mut self.slots, now, fresh, datagram, out)
    }

    /// Takes a datagram in place (RFC 8613, 8.2): calls `decide`, and returns the decision as an outcome. The first `reply` bytes of `out`
    /// are the reply; the rest of `out` stays unchanged. `decide` says what the datagram holds afterwards.
    pub fn take<'b>(
        &mut self,
        now: u64,
        fresh: Fresh,
        datagram: &'b mut [u8],
        out: &mut [u8; 64],
    ) -> Taken<'b>
        ensures answered { (h : History) → Agrees self.old h
            → Takes h now fresh datagram.old result.outcome (take result.reply out.new) self.new }
        ensures delivered { (h : History) (i n : ℕ) (m : InnerParts) → Agrees self.old h
            → delivery_of result.outcome ≡ Some (i, n, m) → Delivers h now datagram.old i n m }
        ensures delivers { (h : History) (i n : ℕ) (m : InnerParts) → Agrees self.old h
            → Delivers h now datagram.old i n m → delivery_of result.outcome ≡ Some (i, n, m) }
        ensures no_keeper_failed { result.outcome ≢ KeeperFailed }
        ensures within { result.reply ≤ 64 }
        ensures behind { drop result.reply out.new ≡ drop result.reply out.old }
    {
        let Decided { decision, reply } = self.decide(now, fresh, datagram, out);
        Taken {
            outcome: decision.outcome(datagram),
            reply,
        }
    }
}
