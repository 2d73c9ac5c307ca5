//! The message layer of an endpoint: the messages on their way, those that came, and the Message IDs (RFC 7252, 4).

ghost use Rattle.std.specs.Prelude.{ℕ, ◌≡◌, ◌≤◌, ◌<◌, ◌-◌, ◌^◌, IfErr, IfOk, IfSome, OnErr, OnOk, List, None, Some};
ghost use Rattle.osc_coap.specs.Datagram.{IsDatagram, Parts};
ghost use Rattle.osc_coap.specs.Views.{parts_of};
ghost use Rattle.osc_message.specs.Incoming.{empty};
ghost use Rattle.osc_message.specs.Taking.{acked_by, heading_of, unreadable};
ghost use Rattle.osc_coap.specs.declared.message.Kind.TheVariants.{Rst};

use crate::arrivals::{Arrivals, Arrived, Repeated};
use crate::exchanges::{Acknowledged, Call, Exchanges, Polled};
use crate::incoming::{Incoming, empty_message, judge_incoming};
use crate::message_ids::MessageIds;
use osc_coap::{Kind, Message, one_datagram, parse};

/// What an ACK of a message that came needs: its Message ID, high byte first on the wire, and whether it is a CON (RFC 7252, 3 and 4.2).
#[derive(Clone, Copy, Debug, PartialEq, Eq)]
pub struct Heading {
    pub message_id: u16,
    /// Whether it is a CON: any other message gets no ACK.
    pub confirmable: bool,
}

/// What a datagram that came is, and what is to be done about it.
#[derive(Clone, Copy, Debug, PartialEq, Eq)]
pub enum Taken {
    /// A request, and what an ACK of it needs. Open it, `note` it if it is delivered, and `answer` it.
    Request(Heading),
    /// A response to the request of this call, and what an ACK of it needs. Open it, and `end` the call if it is delivered; one that is a CON gets
    /// an ACK then, and is noted.
    Response(Call, Heading),
    /// A message that came before, and what it gets.
    Repeated(Repeated),
    /// An empty ACK, and what it did.
    Acknowledged(Acknowledged),
    /// An RST, which ended this call.
    Reset(Call),
    /// A ping, or what can't be used: send this RST.
    Reject([u8; 4]),
    /// Nothing is to be done.
    Ignored,
}

/// What is to be sent, or has ended.
#[derive(Clone, Copy, Debug, PartialEq, Eq)]
pub enum Due {
    /// Nothing now.
    Nothing,
    /// The datagram of this call's place is to be sent again, as it is.
    Resend(Call),
    /// This call has ended: no ACK came, or no response. Whether the message arrived nobody knows.
    Failed(Call),
    /// The ACK of this message is to be sent by itself.
    Acknowledge(Arrived),
}

/// Returns the Message ID that a response acknowledges: that of an ACK (RFC 7252, 5.2.1).
fn acked_by_message(message: &Message<'_>) -> Option<u16>
    ensures { result ≡ acked_by (parts_of message.now) }
{
    match message.kind {
        Kind::Ack => Some(message.message_id),
        Kind::Con | Kind::Non | Kind::Rst => None,
    }
}

/// Returns what an ACK of a message needs.
fn read_heading(message: &Message<'_>) -> Heading
    ensures { result ≡ heading_of (parts_of message.now) }
{
    Heading {
        message_id: message.message_id,
        confirmable: matches!(message.kind, Kind::Con),
    }
}

/// Returns the RST that a datagram gets which is no message: one that begins as a CON of version 1 gets one (RFC 7252, 3 and 4.2; own rule).
#[must_use]
pub fn reject_unreadable(datagram: &[u8]) -> Option<[u8; 4]>
    ensures some { IfSome result (λ bytes. (id : ℕ) × (unreadable datagram.now ≡ Some id) × IsDatagram (empty Rst id) bytes) }
    ensures none { result ≡ None → unreadable datagram.now ≡ None }
{
    if datagram.len() < 4 || datagram[0] / 16 != 4 {
        return None;
    }
    let id = u16::from_be_bytes([datagram[2], datagram[3]]);
    Some(empty_message(Kind::Rst, id))
}

/// The message layer of an endpoint, with places for N messages on their way and M that came. It keeps no datagram: keep one for each place, and
/// send it again as it is. Moments are in milliseconds, of a clock of yours that doesn't go back.
#[derive(Drop)]
pub struct Messages<const N: usize, const M: usize> {
    pub ids: MessageIds,
    pub exchanges: Exchanges<N>,
    pub arrivals: Arrivals<M>,
}

impl<const N: usize, const M: usize> Messages<N, M> {
    ghost use Rattle.osc_message.specs.Taking.{IsFor, IsUnreadable, PollsLayer, RestsLayer, Takes};
    ghost use Rattle.osc_message.specs.Arriving.{arrived};
    ghost use Rattle.osc_message.specs.Arriving as arriving;
    ghost use Rattle.osc_message.specs.LayerViews.{layer_of};
    ghost use Rattle.osc_message.specs.MessageIds.{counted};
    ghost use Rattle.osc_message.specs.MessageIds as given;
    ghost use Rattle.osc_message.specs.Table.{table};
    ghost use Rattle.osc_message.specs.Table as sending;
    ghost use Rattle.osc_message.specs.Views.{counted_of};

    /// Makes a layer with free places alone, whose Message IDs begin behind a number that you drew at random, at this moment.
    #[must_use]
    pub fn new(random: u16, now: u64) -> Messages<N, M>
        ensures sent { (layer_of result).sent ≡ table (sending.Start N) }
        ensures came { (layer_of result).came ≡ arrived (arriving.Start M) }
        ensures ids { counted_of result.ids ≡ counted (given.Start random now) }
    {
        Messages {
            ids: MessageIds::new(random, now),
            exchanges: Exchanges::new(),
            arrivals: Arrivals::new(),
        }
    }

    /// Returns the call that a message is for: by its Message ID if it is empty, else by its token.
    fn call_of(&self, from: &[u8], message: &Message<'_>) -> Option<Call>
        ensures { IsFor (layer_of self.now).sent from.now (parts_of message.now) result }
    {
        if message.code == 0 {
            self.exchanges.call_for(from, message.message_id)
        } else {
            self.exchanges
                .awaited(from, &message.token, acked_by_message(message))
        }
    }

    /// Does what is to be done about a message that came.
    fn take_message(&mut self, now: u64, from: &[u8], message: &Message<'_>) -> Taken
        ensures taken { Takes (layer_of self.old) (layer_of self.new) from.now now (parts_of message.now) result }
        ensures ids { self.new.ids ≡ self.old.ids }
    {
        let waits = self.call_of(from, message);
        let came = self.arrivals.recall(from, message.message_id, now);
        let row = judge_incoming(message.kind, message.code, came.is_some(), waits.is_some());
        match row {
            Incoming::Again => match came {
                Some(repeated) => Taken::Repeated(repeated),
                None => unreachable!(),
            },
            Incoming::Request => Taken::Request(read_heading(message)),
            Incoming::Response => match waits {
                Some(call) => Taken::Response(call, read_heading(message)),
                None => unreachable!(),
            },
            Incoming::Acknowledged => {
                Taken::Acknowledged(self.exchanges.acknowledge(from, message.message_id))
            }
            Incoming::Reset => match self.exchanges.reset(from, message.message_id) {
                Some(call) => Taken::Reset(call),
                None => unreachable!(),
            },
            Incoming::Reject => Taken::Reject(empty_message(Kind::Rst, message.message_id)),
            Incoming::Ignore => Taken::Ignored,
        }
    }

    /// Takes a datagram from this address, at this moment: says what it is, and does what a message layer does by itself (RFC 7252, 4). What
    /// nobody protects, an ACK or an RST, ends at most that a message is sent again, or its call; a request or a response ends nothing here.
    pub fn take(&mut self, now: u64, from: &[u8], datagram: &[u8]) -> Taken
        ensures message { (p : Parts) → IsDatagram p datagram.now → Takes (layer_of self.old) (layer_of self.new) from.now now p result }
        ensures none { ((p : Parts) → IsDatagram p datagram.now → ⊥) → (layer_of self.new ≡ layer_of self.old) × IsUnreadable datagram.now result }
        ensures ids { self.new.ids ≡ self.old.ids }
    {
        // For the proof alone.
        one_datagram();
        match parse(datagram) {
            Ok(message) => self.take_message(now, from, &message),
            Err(_) => match reject_unreadable(datagram) {
                Some(reset) => Taken::Reject(reset),
                None => Taken::Ignored,
            },
        }
    }

    /// Does the first thing that is to be done at this moment. Call it until it returns `Nothing`.
    pub fn poll(&mut self, now: u64) -> Due
        ensures { PollsLayer (layer_of self.old) (layer_of self.new) now result }
    {
        match self.exchanges.poll(now) {
            Polled::Resend(call) => Due::Resend(call),
            Polled::Failed(call) => Due::Failed(call),
            Polled::Rest => match self.arrivals.acknowledge_late(now) {
                Some(arrived) => Due::Acknowledge(arrived),
                None => Due::Nothing,
            },
        }
    }

    /// Returns the moment until which `poll` returns `Nothing`, in milliseconds: sleep until then. From it on something is to be done, however late
    /// you ask (RFC 7252, 4.2 and 5.2.2). It is `u64::MAX` if nothing is to come.
    #[must_use]
    pub fn wake(&self) -> u64
        ensures until { (now : ℕ) → now < result → RestsLayer (layer_of self.now) now }
        ensures due { result < 2 ^ 64 - 1 → (now : ℕ) → result ≤ now → RestsLayer (layer_of self.now) now → ⊥ }
    {
        self.exchanges.wake().min(self.arrivals.wake())
    }
}
