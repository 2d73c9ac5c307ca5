//! What a node makes of a datagram that came (RFC 7252, 4.2 to 4.5 and 5.2; RFC 8613, 8.2 and 8.4).

ghost use Rattle.std.specs.Prelude.{◌≡◌, ◌≤◌, ◌+◌, ℕ, List, Some, take, true};
ghost use Rattle.osc_coap.specs.Datagram.{IsDatagram, Parts};
ghost use Rattle.osc_client.specs.Agrees.{ClientAgrees};
ghost use Rattle.osc_client.specs.ClientDeciding.{CanShow as CanShowResponse, ClientDecidesTo, LeavesBy};
ghost use Rattle.osc_client.specs.ClientHistory as asked;
ghost use Rattle.osc_life.specs.Deciding.{CanShow};
ghost use Rattle.osc_life.specs.ServerHistory as served;
ghost use Rattle.osc_kept_ends.specs.EchoNumber.{echo_of};
ghost use Rattle.osc_kept_ends.specs.Numbering.{upcoming};
ghost use Rattle.osc_kept_ends.specs.PeerOwning.{ahead_in, own_in, received_in};
ghost use Rattle.osc_kept_ends.specs.Peering.{DeliversBelow, PeerDecides, ServerIsBehind, ServerWaits, received_by};
ghost use Rattle.osc_message.specs.Calls.{IsOnItsWay};
ghost use Rattle.osc_message.specs.HearingCalls.{Recalls};
ghost use Rattle.osc_message.specs.LayerViews.{layer_of};
ghost use Rattle.osc_message.specs.Taking.{heading_of};
ghost use Rattle.osc_message.specs.Views.{counted_of};
ghost use Rattle.osc_node.specs.Settling.{IsAbout, IsSettled, Settles};
ghost use Rattle.osc_node.specs.Deciding.{AsksBy, Comes, ComesUnread, HearsBy, IfKeeperFailed, IfLayerAlone, IfRequest, IfResponse, IsReplyId, Sends, SendsAck, SendsAgain, SendsReply, is_heard, sent_of, settled_as};

use crate::node::Node;
use crate::node_decision::{NodeDecided, NodeDecision};
use crate::noting::{note_request, note_response, reply_id};
use osc_coap::Kind;
use osc_context::{KeeperError, RecordKeeper};
use osc_endpoint::ClientDecision;
use osc_message::{
    Address, Again, Arrived, Call, Heading, Messages, Repeated, Taken, empty_message,
};

/// Returns whether a response was delivered, as a notification or as the last one.
fn was_heard(decision: &ClientDecision) -> bool
    ensures { result ≡ is_heard decision.now }
{
    matches!(
        decision,
        ClientDecision::Notified(_, _) | ClientDecision::Deliver(_, _)
    )
}

/// Writes an empty message to the front of a buffer, and returns how many bytes it has.
fn put(out: &mut [u8; 64], message: [u8; 4]) -> usize
    ensures { take result out.new ≡ message }
{
    out[..4].copy_from_slice(&message);
    4
}

/// Says what the message layer decided alone, and writes what it sends.
fn settle<const N: usize, const M: usize>(
    layer: &Messages<N, M>,
    taken: Taken,
    out: &mut [u8; 64],
) -> NodeDecided
    requires { IsSettled taken }
    ensures decision { result.decision ≡ settled_as taken }
    ensures sends { Settles (layer_of layer.now) taken result.send (take result.send out.new) }
{
    match taken {
        Taken::Request(_) | Taken::Response(_, _) => unreachable!(),
        Taken::Repeated(repeated) => NodeDecided {
            send: send_again(layer, repeated, out),
            decision: NodeDecision::Repeated(repeated),
        },
        Taken::Acknowledged(acknowledged) => NodeDecided {
            decision: NodeDecision::Acknowledged(acknowledged),
            send: 0,
        },
        Taken::Reset(call) => NodeDecided {
            decision: NodeDecision::Reset(call),
            send: 0,
        },
        Taken::Reject(reset) => NodeDecided {
            send: put(out, reset),
            decision: NodeDecision::Rejected,
        },
        Taken::Ignored => NodeDecided {
            decision: NodeDecision::Ignored,
            send: 0,
        },
    }
}

/// Writes the ACK of a CON that was heard to the front of a buffer, and returns how many bytes it has: none for a NON.
fn acknowledge(heading: Heading, out: &mut [u8; 64]) -> usize
    ensures { SendsAck heading true (take result out.new) }
{
    if !heading.confirmable {
        return 0;
    }
    put(out, empty_message(Kind::Ack, heading.message_id))
}

/// Returns how many bytes of the peer's reply to a request are sent.
fn reply_sent(heading: Heading, noted: Option<Arrived>, reply: usize) -> usize
    ensures { result ≡ sent_of heading noted reply }
{
    if heading.confirmable || noted.is_some() {
        reply
    } else {
        0
    }
}

impl<R: RecordKeeper, const N: usize, const M: usize> Node<R, N, M> {
    /// Decides about a request.
    fn decide_request(
        &mut self,
        now: u64,
        from: Address,
        heading: Heading,
        datagram: &mut [u8],
        out: &mut [u8; 64],
    ) -> NodeDecided
        ensures layer { AsksBy (layer_of self.old.layer) (layer_of self.new.layer) (counted_of self.old.layer.ids) (counted_of self.new.layer.ids) from.items heading now result.decision }
        ensures sends { SendsReply heading result.decision result.send }
        ensures requested { IfRequest result.decision (λ d. (id : ℕ) × IsReplyId (counted_of self.old.layer.ids) now heading id
            × ((h : served.History) → ServerIsBehind self.old.peer.server (upcoming (own_in self.old.peer.source)) h
            → PeerDecides h now (record { echo = echo_of (upcoming (own_in self.old.peer.source)); mid = id }) datagram.old d datagram.new (take d.reply out.new)
            (own_in self.old.peer.source) (own_in self.new.peer.source) self.new.peer.server)) }
        ensures kept { IfRequest result.decision (λ d. DeliversBelow d.decision (R.received_floor self.new.peer.source.keeper)) }
        ensures received { IfRequest result.decision (λ d. received_in self.new.peer.source ≤ received_by (ahead_in self.old.peer.source) (received_in self.old.peer.source) d.decision) }
        ensures shown { IfRequest result.decision (λ d. CanShow d.decision datagram.new) }
        ensures within { IfRequest result.decision (λ d. d.reply ≤ 64) }
        ensures worked { IfRequest result.decision (λ d. R.failures self.new.peer.source.keeper ≡ R.failures self.old.peer.source.keeper) }
        ensures waits { IfKeeperFailed result.decision ((h : served.History) → ServerIsBehind self.old.peer.server (upcoming (own_in self.old.peer.source)) h
            → ServerWaits h now (own_in self.old.peer.source) (own_in self.new.peer.source) self.new.peer.server) }
        ensures failed { IfKeeperFailed result.decision ((R.failures self.new.peer.source.keeper ≡ R.failures self.old.peer.source.keeper + 1)
            × (received_in self.new.peer.source ≡ received_in self.old.peer.source) × (self.new.peer.client ≡ self.old.peer.client)) }
        ensures alone { IfLayerAlone result.decision ((self.new.peer ≡ self.old.peer) × (datagram.new ≡ datagram.old)) }
        ensures ahead { ahead_in self.new.peer.source ≡ ahead_in self.old.peer.source }
        ensures rises { R.received_floor self.old.peer.source.keeper ≤ R.received_floor self.new.peer.source.keeper }
        ensures client { IfRequest result.decision (λ d. self.new.peer.client ≡ self.old.peer.client) }
    {
        if let Err(_error) = self.layer.arrivals.check_note() {
            return NodeDecided {
                decision: NodeDecision::NoPlace,
                send: 0,
            };
        }
        let Some(id) = reply_id(&self.layer, now, heading) else {
            return NodeDecided {
                decision: NodeDecision::NoPlace,
                send: 0,
            };
        };
        let decided = match self.peer.decide(now, id, datagram, out) {
            Ok(decided) => decided,
            Err(KeeperError) => {
                return NodeDecided {
                    decision: NodeDecision::KeeperFailed,
                    send: 0,
                };
            }
        };
        let noted = note_request(&mut self.layer, now, from, heading, &decided.decision);
        let send = reply_sent(heading, noted, decided.reply);
        NodeDecided {
            decision: NodeDecision::Request(decided, noted),
            send,
        }
    }

    /// Decides about a response to the request of a call.
    fn decide_response(
        &mut self,
        now: u64,
        from: Address,
        call: Call,
        heading: Heading,
        datagram: &mut [u8],
        out: &mut [u8; 64],
    ) -> NodeDecided
        ensures about { IsAbout call result.decision }
        ensures layer { IsOnItsWay (layer_of self.old.layer).sent call → HearsBy (layer_of self.old.layer) (layer_of self.new.layer) (counted_of self.old.layer.ids) (counted_of self.new.layer.ids) from.items heading now call result.decision }
        ensures heard { IfResponse result.decision (λ d. (k : asked.History) → ClientAgrees self.old.peer.client k
            → ClientDecidesTo k now datagram.old d datagram.new self.new.peer.client) }
        ensures shown { IfResponse result.decision (λ d. CanShowResponse d datagram.new) }
        ensures left { IfResponse result.decision (λ d. LeavesBy self.old.peer.client d datagram.old datagram.new) }
        ensures sends { IfResponse result.decision (λ d. SendsAck heading (is_heard d) (take result.send out.new)) }
        ensures same { IfResponse result.decision (λ d. (self.new.peer.server ≡ self.old.peer.server) × (self.new.peer.source ≡ self.old.peer.source)) }
        ensures source { self.new.peer.source ≡ self.old.peer.source }
    {
        let decision = self.peer.decide_response(now, datagram);
        if !was_heard(&decision) {
            return NodeDecided {
                decision: NodeDecision::Response(call, decision),
                send: 0,
            };
        }
        let _ended = self.layer.exchanges.end(call);
        note_response(&mut self.layer, now, from, heading);
        let send = acknowledge(heading, out);
        NodeDecided {
            decision: NodeDecision::Response(call, decision),
            send,
        }
    }
}

/// Sends again what a message got that came before, if that is an ACK by itself, and returns how many bytes it has.
fn send_again<const N: usize, const M: usize>(
    layer: &Messages<N, M>,
    repeated: Repeated,
    out: &mut [u8; 64],
) -> usize
    ensures { (from : List ℕ) (id now : ℕ) → Recalls (layer_of layer.now).came from id now (Some repeated) → SendsAgain repeated.again id (take result out.new) }
{
    let Again::Acknowledge = repeated.again else {
        return 0;
    };
    match layer.arrivals.sender(repeated.place) {
        Some((_, message_id)) => put(out, empty_message(Kind::Ack, message_id)),
        None => 0,
    }
}

impl<R: RecordKeeper, const N: usize, const M: usize> Node<R, N, M> {
    /// Decides about a datagram from this address, at this moment, in milliseconds: says what it is, hands a request or a response to the peer, does
    /// what a message layer does by itself, and writes what is to be sent at once to the front of `out`. What the peer didn't open is kept in mind
    /// nowhere, and ends no call; of an ACK and an RST, which nobody protects, each ends at most one. Read a message that was delivered by
    /// `Decision::outcome` or `ClientDecision::outcome`, from the datagram as this call left it (RFC 7252, 4.2 to 4.5 and 5.2; RFC 8613, 8.2 and
    /// 8.4).
    pub fn decide(
        &mut self,
        now: u64,
        from: Address,
        datagram: &mut [u8],
        out: &mut [u8; 64],
    ) -> NodeDecided
        ensures message { (p : Parts) → IsDatagram p datagram.old
            → Comes (layer_of self.old.layer) (layer_of self.new.layer) (counted_of self.old.layer.ids) (counted_of self.new.layer.ids) from.items now p result.decision }
        ensures sends { (p : Parts) → IsDatagram p datagram.old → Sends p result.decision result.send (take result.send out.new) }
        ensures none { ((p : Parts) → IsDatagram p datagram.old → ⊥) → (layer_of self.new.layer ≡ layer_of self.old.layer)
            × (counted_of self.new.layer.ids ≡ counted_of self.old.layer.ids) × ComesUnread datagram.old result.decision (take result.send out.new) }
        ensures requested { (p : Parts) → IsDatagram p datagram.old → IfRequest result.decision (λ d. (id : ℕ) × IsReplyId (counted_of self.old.layer.ids) now (heading_of p) id
            × ((h : served.History) → ServerIsBehind self.old.peer.server (upcoming (own_in self.old.peer.source)) h
            → PeerDecides h now (record { echo = echo_of (upcoming (own_in self.old.peer.source)); mid = id }) datagram.old d datagram.new (take d.reply out.new)
            (own_in self.old.peer.source) (own_in self.new.peer.source) self.new.peer.server)) }
        ensures kept { IfRequest result.decision (λ d. DeliversBelow d.decision (R.received_floor self.new.peer.source.keeper)) }
        ensures received { IfRequest result.decision (λ d. received_in self.new.peer.source ≤ received_by (ahead_in self.old.peer.source) (received_in self.old.peer.source) d.decision) }
        ensures shown { IfRequest result.decision (λ d. CanShow d.decision datagram.new) }
        ensures within { IfRequest result.decision (λ d. d.reply ≤ 64) }
        ensures worked { IfRequest result.decision (λ d. R.failures self.new.peer.source.keeper ≡ R.failures self.old.peer.source.keeper) }
        ensures client { IfRequest result.decision (λ d. self.new.peer.client ≡ self.old.peer.client) }
        ensures waits { IfKeeperFailed result.decision ((h : served.History) → ServerIsBehind self.old.peer.server (upcoming (own_in self.old.peer.source)) h
            → ServerWaits h now (own_in self.old.peer.source) (own_in self.new.peer.source) self.new.peer.server) }
        ensures failed { IfKeeperFailed result.decision ((R.failures self.new.peer.source.keeper ≡ R.failures self.old.peer.source.keeper + 1)
            × (received_in self.new.peer.source ≡ received_in self.old.peer.source) × (self.new.peer.client ≡ self.old.peer.client)) }
        ensures heard { IfResponse result.decision (λ d. (k : asked.History) → ClientAgrees self.old.peer.client k
            → ClientDecidesTo k now datagram.old d datagram.new self.new.peer.client) }
        ensures shown_response { IfResponse result.decision (λ d. CanShowResponse d datagram.new) }
        ensures left { IfResponse result.decision (λ d. LeavesBy self.old.peer.client d datagram.old datagram.new) }
        ensures same { IfResponse result.decision (λ d. (self.new.peer.server ≡ self.old.peer.server) × (self.new.peer.source ≡ self.old.peer.source)) }
        ensures alone { IfLayerAlone result.decision ((self.new.peer ≡ self.old.peer) × (datagram.new ≡ datagram.old)) }
        ensures ahead { ahead_in self.new.peer.source ≡ ahead_in self.old.peer.source }
        ensures rises { R.received_floor self.old.peer.source.keeper ≤ R.received_floor self.new.peer.source.keeper }
    {
        match self.layer.take(now, from.as_slice(), datagram) {
            Taken::Request(heading) => self.decide_request(now, from, heading, datagram, out),
            Taken::Response(call, heading) => {
                self.decide_response(now, from, call, heading, datagram, out)
            }
            taken => settle(&self.layer, taken, out),
        }
    }
}
