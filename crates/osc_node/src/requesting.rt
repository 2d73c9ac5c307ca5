//! A request that a node sends (RFC 7252, 4.2 and 5.2; RFC 8613, 8.1).

ghost use Rattle.std.specs.Prelude.{◌≡◌, ◌≢◌, ◌≤◌, ◌+◌, ℕ, IfErr, IfOk, IsErr, OnErr, length, drop, take};
ghost use Rattle.osc_coap.specs.Views.{parts_of};
ghost use Rattle.osc_client.specs.ClientHistory as asked;
ghost use Rattle.osc_client.specs.declared.client_outcome.RequestError.TheVariants.{KeeperFailed};
ghost use Rattle.osc_kept_ends.specs.Numbering.{upcoming};
ghost use Rattle.osc_kept_ends.specs.PeerOwning.{ahead_in, own_in, received_in};
ghost use Rattle.osc_kept_ends.specs.Peering.{AskStep, ClientIsBehind};
ghost use Rattle.osc_message.specs.MessageIds.{Gives};
ghost use Rattle.osc_node.specs.Requesting.{IfNotAsked, IfRefused, IsUnsent, SendsRequest, confirmable};
ghost use Rattle.osc_message.specs.LayerViews.{layer_of};
ghost use Rattle.osc_message.specs.Views.{counted_of};

use crate::node::Node;
use crate::send_error::SendError;
use osc_coap::{Kind, Message};
use osc_context::RecordKeeper;
use osc_message::{Address, Awaits, Call, Outgoing};
use osc_observe::siblings::copy_of;

/// A message of its own that is sent first: its call, and how many bytes at the front of `out` it has. Keep them in the buffer of the call's place:
/// they are sent again as they are.
#[derive(Clone, Copy, Debug, PartialEq, Eq)]
pub struct Sent {
    pub call: Call,
    pub len: usize,
}

impl<R: RecordKeeper, const N: usize, const M: usize> Node<R, N, M> {
    /// Sends a request as a CON to this address: seals it with the next Sender Sequence Number and the next Message ID, and notes that it is on its
    /// way. Of `plain` the code, the token, the options and the payload count. `now` is in milliseconds, and `random` is drawn anew each time; it
    /// makes the first wait. The call ends when its response was delivered, by an RST, or when it was given up. Returns the first refusal in the
    /// order of `SendError`; one of the message layer changes nothing, and one of the peer leaves of the layer that a Message ID is given.
    pub fn request(
        &mut self,
        now: u64,
        to: Address,
        random: u16,
        plain: &Message<'_>,
        out: &mut [u8],
    ) -> Result<Sent, SendError>
        ensures sent { IfOk result (λ s. (id : ℕ) × SendsRequest (layer_of self.old.layer) (layer_of self.new.layer) (counted_of self.old.layer.ids) (counted_of self.new.layer.ids)
            now random to.items (parts_of plain.now) id s.call
            × ((k : asked.History) → ClientIsBehind self.old.peer.client (upcoming (own_in self.old.peer.source)) k
            → AskStep k (asked.Request now (confirmable id (parts_of plain.now)) (length out.old)) (asked.Sent (take s.len out.new))
            (own_in self.old.peer.source) (own_in self.new.peer.source) self.new.peer.client)) }
        ensures unsent { IfErr result (λ e. IsUnsent (layer_of self.old.layer) (counted_of self.old.layer.ids) (counted_of self.new.layer.ids) now to.items e) }
        ensures same { IfErr result (λ e. IfNotAsked e (self.new.peer ≡ self.old.peer)) }
        ensures refused { IfErr result (λ e. IfRefused e (λ r. r ≢ KeeperFailed → (id : ℕ) × Gives (counted_of self.old.layer.ids) (counted_of self.new.layer.ids) now id
            × ((k : asked.History) → ClientIsBehind self.old.peer.client (upcoming (own_in self.old.peer.source)) k
            → AskStep k (asked.Request now (confirmable id (parts_of plain.now)) (length out.old)) (asked.NotSent r)
            (own_in self.old.peer.source) (own_in self.new.peer.source) self.new.peer.client))) }
        ensures failed { IfErr result (λ e. IfRefused e (λ r. r ≡ KeeperFailed → (own_in self.new.peer.source ≡ own_in self.old.peer.source)
            × ((k : asked.History) → ClientIsBehind self.old.peer.client (upcoming (own_in self.old.peer.source)) k
            → ClientIsBehind self.new.peer.client (upcoming (own_in self.new.peer.source)) (asked.Then k (asked.Advance now) asked.Advanced))
            × (R.failures self.new.peer.source.keeper ≡ R.failures self.old.peer.source.keeper + 1))) }
        ensures table { IsErr result → layer_of self.new.layer ≡ layer_of self.old.layer }
        ensures received { (received_in self.new.peer.source ≡ received_in self.old.peer.source) × (ahead_in self.new.peer.source ≡ ahead_in self.old.peer.source) }
        ensures rises { R.received_floor self.old.peer.source.keeper ≤ R.received_floor self.new.peer.source.keeper }
        ensures server { self.new.peer.server ≡ self.old.peer.server }
        ensures within { IfOk result (λ s. s.len ≤ length out.new) }
        ensures behind { IfOk result (λ s. drop s.len out.new ≡ drop s.len out.old) }
        ensures unchanged { OnErr result (out.new ≡ out.old) }
    {
        if let Err(error) = self.layer.exchanges.check_begin(to.as_slice()) {
            return Err(SendError::Layer(error));
        }
        let Some(message_id) = self.layer.ids.give(now) else {
            return Err(SendError::NoMessageId);
        };
        let message = plain.with_head(Kind::Con, message_id, copy_of(&plain.token));
        let len = match self.peer.request(now, &message, out) {
            Ok(len) => len,
            Err(error) => return Err(SendError::Refused(error)),
        };
        let outgoing = Outgoing {
            to,
            message_id,
            token: copy_of(&plain.token),
            awaits: Awaits::Response,
        };
        match self.layer.exchanges.begin(outgoing, now, random) {
            Ok(call) => Ok(Sent { call, len }),
            Err(_) => unreachable!(),
        }
    }
}
