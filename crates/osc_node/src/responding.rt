//! A response that a node sends (RFC 7252, 5.2; RFC 8613, 8.3).

ghost use Rattle.std.specs.Prelude.{◌≡◌, ◌≢◌, ◌≤◌, ◌+◌, ℕ, List, IfErr, IfOk, IsErr, OnErr, length, drop, take};
ghost use Rattle.osc_coap.specs.Views.{parts_of};
ghost use Rattle.osc_life.specs.LifeAnswer.{asks_own};
ghost use Rattle.osc_life.specs.ServerHistory as served;
ghost use Rattle.osc_life.specs.Views.{values_of};
ghost use Rattle.osc_life.specs.declared.server_error.ReplyError.TheVariants.{KeeperFailed};
ghost use Rattle.osc_kept_ends.specs.Numbering.{upcoming};
ghost use Rattle.osc_kept_ends.specs.PeerOwning.{ahead_in, own_in, received_in};
ghost use Rattle.osc_kept_ends.specs.Peering.{PeerStep, ServerIsBehind};
ghost use Rattle.osc_message.specs.LayerViews.{layer_of};
ghost use Rattle.osc_message.specs.Views.{counted_of};
ghost use Rattle.osc_node.specs.Responding.{GivesUnsent, HasId, IfNotAsked, IfRefused, IsUnsent, Responds, length_of};

use crate::node::Node;
use crate::planning::{carry_out, plan_response};
use crate::requesting::Sent;
use crate::send_error::RespondError;
use osc_coap::Message;
use osc_context::RecordKeeper;
use osc_endpoint::Ticket;
use osc_message::Arrived;
use osc_observe::siblings::copy_of;

/// How a response is sent. It is at the front of `out`.
#[derive(Clone, Copy, Debug, PartialEq, Eq)]
pub enum Responded {
    /// In the ACK of its request, with so many bytes. Keep them in the buffer of the request's place: the request gets them if it comes again.
    InAck(usize),
    /// In a NON, with so many bytes.
    Non(usize),
    /// In a CON of its own, which is on its way.
    Con(Sent),
}

impl<R: RecordKeeper, const N: usize, const M: usize> Node<R, N, M> {
    /// Sends the response to a request that was delivered and is in mind: in the ACK of the request as long as that wasn't sent; later a CON gets a
    /// CON in a message of its own, and a NON always gets a NON. `own` asks for a Partial IV of its own; `now` is in milliseconds, and `random`,
    /// drawn anew each time, makes the first wait of a CON. Of `plain` the code, the options and the payload count. Returns the first refusal in
    /// the order of `RespondError`, with the ticket; then the request is still to be answered.
    pub fn respond(
        &mut self,
        now: u64,
        arrived: Arrived,
        ticket: Ticket,
        own: bool,
        random: u16,
        plain: &Message<'_>,
        out: &mut [u8],
    ) -> Result<Responded, (RespondError, Ticket)>
        ensures sent { IfOk result (λ r. (id : ℕ) × HasId (counted_of self.old.layer.ids) (counted_of self.new.layer.ids) now (values_of ticket).message_id id r × (sealed : List ℕ)
            × Responds (layer_of self.old.layer) (layer_of self.new.layer) now random arrived (values_of ticket).kind id sealed (take (length_of r) out.new) r
            × ((h : served.History) → ServerIsBehind self.old.peer.server (upcoming (own_in self.old.peer.source)) h
            → PeerStep h (served.Reply (values_of ticket) (asks_own (values_of ticket) own) id (parts_of plain.now) (length out.old)) (served.Replied sealed)
            (own_in self.old.peer.source) (own_in self.new.peer.source) self.new.peer.server)) }
        ensures unsent { IfErr result (λ e. IsUnsent (layer_of self.old.layer) (counted_of self.old.layer.ids) now arrived (values_of ticket).kind e.0) }
        ensures same { IfErr result (λ e. IfNotAsked e.0 (self.new.peer ≡ self.old.peer)) }
        ensures refused { IfErr result (λ e. IfRefused e.0 (λ r. r ≢ KeeperFailed → (id : ℕ)
            × ((h : served.History) → ServerIsBehind self.old.peer.server (upcoming (own_in self.old.peer.source)) h
            → PeerStep h (served.Reply (values_of ticket) (asks_own (values_of ticket) own) id (parts_of plain.now) (length out.old)) (served.NotReplied r)
            (own_in self.old.peer.source) (own_in self.new.peer.source) self.new.peer.server))) }
        ensures failed { IfErr result (λ e. IfRefused e.0 (λ r. r ≡ KeeperFailed → (self.new.peer.server ≡ self.old.peer.server)
            × (own_in self.new.peer.source ≡ own_in self.old.peer.source) × (R.failures self.new.peer.source.keeper ≡ R.failures self.old.peer.source.keeper + 1))) }
        ensures ids { IfErr result (λ e. GivesUnsent (counted_of self.old.layer.ids) (counted_of self.new.layer.ids) now e.0) }
        ensures back { IfErr result (λ e. e.1 ≡ ticket) }
        ensures table { IsErr result → layer_of self.new.layer ≡ layer_of self.old.layer }
        ensures received { (received_in self.new.peer.source ≡ received_in self.old.peer.source) × (ahead_in self.new.peer.source ≡ ahead_in self.old.peer.source) }
        ensures rises { R.received_floor self.old.peer.source.keeper ≤ R.received_floor self.new.peer.source.keeper }
        ensures client { self.new.peer.client ≡ self.old.peer.client }
        ensures within { IfOk result (λ r. length_of r ≤ length out.new) }
        ensures behind { IfOk result (λ r. drop (length_of r) out.new ≡ drop (length_of r) out.old) }
        ensures unchanged { OnErr result (out.new ≡ out.old) }
    {
        let (kind, request) = (ticket.asker().kind, ticket.asker().message_id);
        let plan = match plan_response(&mut self.layer, now, arrived, kind, request) {
            Ok(plan) => plan,
            Err(error) => return Err((error, ticket)),
        };
        let token = copy_of(&ticket.asker().token);
        let len = match self.peer.reply(ticket, own, plan.message_id(), plain, out) {
            Ok(len) => len,
            Err((error, ticket)) => return Err((RespondError::Refused(error), ticket)),
        };
        let (sealed, _) = out.split_at_mut(len);
        Ok(carry_out(&mut self.layer, now, random, arrived, plan, token, sealed))
    }
}
