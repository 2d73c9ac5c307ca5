//! The first notification that a node sends, as the response to a registration (RFC 7641, 4.1 and 4.2; RFC 8613, 8.3.1).

ghost use Rattle.std.specs.Prelude.{◌≡◌, ◌≢◌, ◌≤◌, ◌+◌, ℕ, List, IfErr, IfOk, IsErr, OnErr, length, drop, take};
ghost use Rattle.osc_coap.specs.Views.{parts_of};
ghost use Rattle.osc_coap.specs.declared.message.Kind.{Kind as KindOf};
ghost use Rattle.osc_life.specs.ServerHistory as served;
ghost use Rattle.osc_life.specs.Views.{values_of};
ghost use Rattle.osc_life.specs.declared.server_error.ReplyError.TheVariants.{KeeperFailed};
ghost use Rattle.osc_kept_ends.specs.Numbering.{upcoming};
ghost use Rattle.osc_kept_ends.specs.PeerOwning.{ahead_in, own_in, received_in};
ghost use Rattle.osc_kept_ends.specs.Peering.{PeerStep, ServerIsBehind};
ghost use Rattle.osc_message.specs.LayerViews.{layer_of};
ghost use Rattle.osc_message.specs.Views.{counted_of};
ghost use Rattle.osc_node.specs.Responding.{GivesUnsent, HasId, IfNotAsked, IfRefused, IsUnsent, Responds, length_of, sent_as};

use crate::node::Node;
use crate::planning::{carry_out, plan_response};
use crate::responding::Responded;
use crate::send_error::RespondError;
use osc_coap::Message;
use osc_context::RecordKeeper;
use osc_endpoint::Ticket;
use osc_message::Arrived;
use osc_observe::siblings::copy_of;

impl<R: RecordKeeper, const N: usize, const M: usize> Node<R, N, M> {
    /// Sends the first notification as the response to a registration that was delivered and is in mind, as `respond` sends a response, and leaves
    /// the ticket for the notifications to come (`notify`). `now` is in milliseconds, and `random`, drawn anew each time, makes the first wait of a
    /// CON. Of `plain` the code, the options and the payload count. Returns the first refusal in the order of `RespondError`; then the request is
    /// still to be answered.
    pub fn begin_observation(
        &mut self,
        now: u64,
        arrived: Arrived,
        ticket: &Ticket,
        random: u16,
        plain: &Message<'_>,
        out: &mut [u8],
    ) -> Result<Responded, RespondError>
        ensures sent { IfOk result (λ r. (id : ℕ) × HasId (counted_of self.old.layer.ids) (counted_of self.new.layer.ids) now (values_of ticket.now).message_id id r × (sealed : List ℕ)
            × Responds (layer_of self.old.layer) (layer_of self.new.layer) now random arrived (values_of ticket.now).kind id sealed (take (length_of r) out.new) r
            × ((h : served.History) → ServerIsBehind self.old.peer.server (upcoming (own_in self.old.peer.source)) h
            → PeerStep h (served.Notify (values_of ticket.now) (record (parts_of plain.now) { kind = sent_as r; message_id = id }) (length out.old)) (served.Replied sealed)
            (own_in self.old.peer.source) (own_in self.new.peer.source) self.new.peer.server)) }
        ensures unsent { IfErr result (λ e. IsUnsent (layer_of self.old.layer) (counted_of self.old.layer.ids) now arrived (values_of ticket.now).kind e) }
        ensures same { IfErr result (λ e. IfNotAsked e (self.new.peer ≡ self.old.peer)) }
        ensures refused { IfErr result (λ e. IfRefused e (λ r. r ≢ KeeperFailed → (id : ℕ) × (kind : KindOf)
            × ((h : served.History) → ServerIsBehind self.old.peer.server (upcoming (own_in self.old.peer.source)) h
            → PeerStep h (served.Notify (values_of ticket.now) (record (parts_of plain.now) { kind = kind; message_id = id }) (length out.old)) (served.NotReplied r)
            (own_in self.old.peer.source) (own_in self.new.peer.source) self.new.peer.server))) }
        ensures failed { IfErr result (λ e. IfRefused e (λ r. r ≡ KeeperFailed → (self.new.peer.server ≡ self.old.peer.server)
            × (own_in self.new.peer.source ≡ own_in self.old.peer.source) × (R.failures self.new.peer.source.keeper ≡ R.failures self.old.peer.source.keeper + 1))) }
        ensures ids { IfErr result (λ e. GivesUnsent (counted_of self.old.layer.ids) (counted_of self.new.layer.ids) now e) }
        ensures table { IsErr result → layer_of self.new.layer ≡ layer_of self.old.layer }
        ensures received { (received_in self.new.peer.source ≡ received_in self.old.peer.source) × (ahead_in self.new.peer.source ≡ ahead_in self.old.peer.source) }
        ensures rises { R.received_floor self.old.peer.source.keeper ≤ R.received_floor self.new.peer.source.keeper }
        ensures client { self.new.peer.client ≡ self.old.peer.client }
        ensures within { IfOk result (λ r. length_of r ≤ length out.new) }
        ensures behind { IfOk result (λ r. drop (length_of r) out.new ≡ drop (length_of r) out.old) }
        ensures unchanged { OnErr result (out.new ≡ out.old) }
    {
        let (kind, request) = (ticket.asker().kind, ticket.asker().message_id);
        let plan = plan_response(&mut self.layer, now, arrived, kind, request)?;
        let message = plain.with_head(plan.kind(), plan.message_id(), copy_of(&plain.token));
        let len = match self.peer.notify(ticket, &message, out) {
            Ok(len) => len,
            Err(error) => return Err(RespondError::Refused(error)),
        };
        let token = copy_of(&ticket.asker().token);
        let (sealed, _) = out.split_at_mut(len);
        Ok(carry_out(&mut self.layer, now, random, arrived, plan, token, sealed))
    }
}
