//! Replies to requests that were delivered.

ghost use Rattle.std.specs.Prelude.{◌≡◌, ◌≢◌, ◌≤◌, IfOk, IfErr, OnErr, length, drop};
ghost use Rattle.osc_coap.specs.Views.{parts_of};

use crate::server::ServerOf;
use crate::table::reply_at;
use osc_coap::Message;
use osc_life::{ReplyError, Ticket};

impl<const N: usize> ServerOf<N> {
    ghost use Rattle.osc_endpoint.specs.Agrees.{Agrees};
    ghost use Rattle.osc_endpoint.specs.ServerAnswer.{ServerAnswer};
    ghost use Rattle.osc_life.specs.LifeAnswer.{asks_own};
    ghost use Rattle.osc_life.specs.ServerHistory.{History, Then, Reply};
    ghost use Rattle.osc_endpoint.specs.Views.{server_entry};
    ghost use Rattle.osc_life.specs.Views.{values_of};
    ghost use Rattle.osc_life.specs.declared.server_error.ReplyError.TheVariants.{KeeperFailed};

    /// Seals a reply to the request of a ticket into `out`, and returns how many bytes it takes at the front of `out` (RFC 8613, 8.3). It
    /// uses the code, options and payload of the plain message. If the ticket's request registers an observation, the reply has a Partial
    /// IV of its own in any case, and ends the observation (RFC 8613, 4.1.3.5). Returns the first refusal in the order of `ReplyError`. A
    /// refusal changes nothing, leaves `out` unchanged, and returns the ticket.
    pub fn reply(
        &mut self,
        ticket: Ticket,
        own: bool,
        mid: u16,
        plain: &Message<'_>,
        out: &mut [u8],
    ) -> Result<usize, (ReplyError, Ticket)>
        ensures answered { (h : History) → Agrees self.old h
            → ServerAnswer h (Reply (values_of ticket) (asks_own (values_of ticket) own) mid (parts_of plain.now) (length out.old)) (server_entry result out.new) }
        ensures follows { (h : History) → Agrees self.old h → Agrees self.new
            (Then h (Reply (values_of ticket) (asks_own (values_of ticket) own) mid (parts_of plain.now) (length out.old)) (server_entry result out.new)) }
        ensures back { IfErr result (λ e. e.1 ≡ ticket) }
        ensures within { IfOk result (λ n. n ≤ length out.new) }
        ensures behind { IfOk result (λ n. drop n out.new ≡ drop n out.old) }
        ensures unchanged { OnErr result ((out.new ≡ out.old) × (self.new ≡ self.old)) }
        ensures no_keeper_failed { IfErr result (λ e. e.0 ≢ KeeperFailed) }
    {
        let own = ticket.asks_own(own);
        match reply_at(self.slots.as_mut_slice(), &ticket, own, mid, plain, out) {
            Ok(len) => Ok(len),
            Err(error) => Err((error, ticket)),
        }
    }
}
