//! Notifications that a node sends (RFC 7641, 4.2 and 4.5; RFC 8613, 8.3.1).

ghost use Rattle.std.specs.Prelude.{◌≡◌, ◌≢◌, ◌≤◌, ◌+◌, ℕ, List, IfErr, IfOk, IsErr, OnErr, length, drop, take};
ghost use Rattle.osc_coap.specs.Views.{parts_of};
ghost use Rattle.osc_life.specs.ServerHistory as served;
ghost use Rattle.osc_life.specs.Views.{values_of};
ghost use Rattle.osc_life.specs.declared.server_error.ReplyError.TheVariants.{KeeperFailed};
ghost use Rattle.osc_kept_ends.specs.Numbering.{upcoming};
ghost use Rattle.osc_kept_ends.specs.PeerOwning.{ahead_in, own_in, received_in};
ghost use Rattle.osc_kept_ends.specs.Peering.{PeerStep, ServerIsBehind};
ghost use Rattle.osc_message.specs.LayerViews.{layer_of};
ghost use Rattle.osc_message.specs.MessageIds.{Gives};
ghost use Rattle.osc_message.specs.Views.{counted_of};
ghost use Rattle.osc_node.specs.Notifying.{CanNotify, IfNotAsked, IfRefused, IsUnsent, Notifies, headed, kind_of, length_of};

use crate::node::Node;
use crate::requesting::Sent;
use crate::send_error::NotifyError;
use osc_coap::{Kind, Message};
use osc_context::RecordKeeper;
use osc_endpoint::Ticket;
use osc_message::{Address, Awaits, Messages, Outgoing, Separate};
use osc_observe::siblings::copy_of;

/// How a notification is sent. It is at the front of `out`.
#[derive(Clone, Copy, Debug, PartialEq, Eq)]
pub enum Notified {
    /// In a NON, with so many bytes.
    Non(usize),
    /// In a CON, which is on its way.
    Con(Sent),
}

/// Returns the Type of a message of its own.
fn type_of(separate: Separate) -> Kind
    ensures { result ≡ kind_of separate }
{
    match separate {
        Separate::Con => Kind::Con,
        Separate::Non => Kind::Non,
    }
}

/// Checks whether a notification can be sent to this address now, and gives its Message ID.
fn plan_notification<const N: usize, const M: usize>(
    layer: &mut Messages<N, M>,
    now: u64,
    to: &[u8],
    separate: Separate,
) -> Result<u16, NotifyError>
    ensures planned { IfOk result (λ id. CanNotify (layer_of layer.new) to.now separate × Gives (counted_of layer.old.ids) (counted_of layer.new.ids) now id) }
    ensures unsent { IfErr result (λ e. IsUnsent (layer_of layer.old) (counted_of layer.old.ids) (counted_of layer.new.ids) now to.now separate e) }
    ensures unasked { IfErr result (λ e. IfRefused e (λ r. ⊥)) }
    ensures same { layer_of layer.new ≡ layer_of layer.old }
{
    if let Separate::Con = separate {
        if let Err(error) = layer.exchanges.check_begin(to) {
            return Err(NotifyError::Layer(error));
        }
    }
    match layer.ids.give(now) {
        Some(id) => Ok(id),
        None => Err(NotifyError::NoMessageId),
    }
}

impl<R: RecordKeeper, const N: usize, const M: usize> Node<R, N, M> {
    /// Sends a notification, as a CON or as a NON, to the address whose request of this ticket registered: seals it with the next Sender Sequence
    /// Number and the next Message ID, and a CON is then on its way, until its ACK comes. `now` is in milliseconds, and `random`, drawn anew each
    /// time, makes the first wait of a CON. Of `plain` the code, the options and the payload count. Send a CON at least each 24 hours, and forget
    /// who answers by an RST, or not at all (RFC 7641, 4.5). Returns the first refusal in the order of `NotifyError`; one of the message layer
    /// changes nothing, and one of the peer leaves of the layer that a Message ID is given.
    pub fn notify(
        &mut self,
        now: u64,
        to: Address,
        ticket: &Ticket,
        separate: Separate,
        random: u16,
        plain: &Message<'_>,
        out: &mut [u8],
    ) -> Result<Notified, NotifyError>
        ensures sent { IfOk result (λ n. (id : ℕ) × Gives (counted_of self.old.layer.ids) (counted_of self.new.layer.ids) now id
            × Notifies (layer_of self.old.layer) (layer_of self.new.layer) now random to.items id separate n
            × ((h : served.History) → ServerIsBehind self.old.peer.server (upcoming (own_in self.old.peer.source)) h
            → PeerStep h (served.Notify (values_of ticket.now) (headed separate id (parts_of plain.now)) (length out.old)) (served.Replied (take (length_of n) out.new))
            (own_in self.old.peer.source) (own_in self.new.peer.source) self.new.peer.server)) }
        ensures unsent { IfErr result (λ e. IsUnsent (layer_of self.old.layer) (counted_of self.old.layer.ids) (counted_of self.new.layer.ids) now to.items separate e) }
        ensures same { IfErr result (λ e. IfNotAsked e (self.new.peer ≡ self.old.peer)) }
        ensures refused { IfErr result (λ e. IfRefused e (λ r. r ≢ KeeperFailed → (id : ℕ) × Gives (counted_of self.old.layer.ids) (counted_of self.new.layer.ids) now id
            × ((h : served.History) → ServerIsBehind self.old.peer.server (upcoming (own_in self.old.peer.source)) h
            → PeerStep h (served.Notify (values_of ticket.now) (headed separate id (parts_of plain.now)) (length out.old)) (served.NotReplied r)
            (own_in self.old.peer.source) (own_in self.new.peer.source) self.new.peer.server))) }
        ensures failed { IfErr result (λ e. IfRefused e (λ r. r ≡ KeeperFailed → (self.new.peer.server ≡ self.old.peer.server)
            × (own_in self.new.peer.source ≡ own_in self.old.peer.source) × (R.failures self.new.peer.source.keeper ≡ R.failures self.old.peer.source.keeper + 1))) }
        ensures table { IsErr result → layer_of self.new.layer ≡ layer_of self.old.layer }
        ensures received { (received_in self.new.peer.source ≡ received_in self.old.peer.source) × (ahead_in self.new.peer.source ≡ ahead_in self.old.peer.source) }
        ensures rises { R.received_floor self.old.peer.source.keeper ≤ R.received_floor self.new.peer.source.keeper }
        ensures client { self.new.peer.client ≡ self.old.peer.client }
        ensures within { IfOk result (λ n. length_of n ≤ length out.new) }
        ensures behind { IfOk result (λ n. drop (length_of n) out.new ≡ drop (length_of n) out.old) }
        ensures unchanged { OnErr result (out.new ≡ out.old) }
    {
        let id = plan_notification(&mut self.layer, now, to.as_slice(), separate)?;
        let message = plain.with_head(type_of(separate), id, copy_of(&plain.token));
        let len = match self.peer.notify(ticket, &message, out) {
            Ok(len) => len,
            Err(error) => return Err(NotifyError::Refused(error)),
        };
        let Separate::Con = separate else {
            return Ok(Notified::Non(len));
        };
        let outgoing = Outgoing {
            to,
            message_id: id,
            token: copy_of(&ticket.asker().token),
            awaits: Awaits::Acknowledgement,
        };
        match self.layer.exchanges.begin(outgoing, now, random) {
            Ok(call) => Ok(Notified::Con(Sent { call, len })),
            Err(_) => unreachable!(),
        }
    }
}
