//! One confirmable message on its way (RFC 7252, 4.2).
//!
//!     sent  1st wait  again  2 waits  again  4 waits  again  8 waits  again  16 waits  given up

ghost use Rattle.std.specs.Prelude.{ℕ, ◌≡◌, ◌≤◌, ◌<◌, ◌-◌, ◌^◌, false};
ghost use Rattle.osc_message.specs.Sending.{again, is_awaited, is_for, is_unacknowledged, step, stopped, wait};
ghost use Rattle.osc_message.specs.declared.exchange.Step.TheVariants as steps;

use arrayvec::ArrayVec;
use osc_coap::Token;

/// MAX_TRANSMIT_WAIT, in milliseconds (RFC 7252, 4.8.2).
const MAX_TRANSMIT_WAIT_MS: u64 = 93_000;

/// MAX_RETRANSMIT (RFC 7252, 4.8).
const MAX_RETRANSMIT: u8 = 4;

/// An address, in bytes that you alone read: an IPv6 address with its port and scope has at most 28.
pub type Address = ArrayVec<u8, 28>;

/// What ends a confirmable message (RFC 7252, 4.2 and 5.2).
#[derive(Clone, Copy, Debug, PartialEq, Eq)]
pub enum Awaits {
    /// A response, as for a request. An ACK alone only ends that it is sent again.
    Response,
    /// An ACK, as for a response or a notification in a message of its own.
    Acknowledgement,
}

/// What is to be done about a message at a moment.
#[derive(Clone, Copy, Debug, PartialEq, Eq)]
pub enum Step {
    /// Nothing.
    Rest,
    /// It is to be sent again.
    Resend,
    /// It is to be given up: it was sent as often as it may be, or waited too long.
    GiveUp,
}

/// A confirmable message on its way. It keeps no bytes: a caller keeps the datagram at the place that the message has.
#[derive(Drop)]
pub struct Exchange {
    pub(crate) call: u64,
    pub(crate) to: Address,
    pub(crate) message_id: u16,
    pub(crate) token: Token,
    pub(crate) awaits: Awaits,
    pub(crate) begun: u64,
    pub(crate) last: u64,
    pub(crate) first_wait: u64,
    pub(crate) resent: u8,
    pub(crate) acked: bool,
    ghost few: { resent ≤ 4 },
    ghost least: { 2000 ≤ first_wait },
    ghost most: { first_wait ≤ 3000 },
}

impl Exchange {
    ghost use Rattle.osc_message.specs.Views.{sending_of};

    /// Returns how long the present wait is, in milliseconds: it doubles each time (RFC 7252, 4.2).
    fn wait(&self) -> u64
        ensures value { result ≡ wait (sending_of self.now) }
        ensures least { 2000 ≤ result }
        ensures most { result ≤ 48000 }
    {
        match self.resent {
            0 => self.first_wait,
            1 => 2 * self.first_wait,
            2 => 4 * self.first_wait,
            3 => 8 * self.first_wait,
            _ => 16 * self.first_wait,
        }
    }

    /// Returns what is to be done about the message at this moment (RFC 7252, 4.2).
    pub(crate) fn step(&self, now: u64) -> Step
        ensures { result ≡ step (sending_of self.now) now }
    {
        if now.saturating_sub(self.begun) >= MAX_TRANSMIT_WAIT_MS {
            return Step::GiveUp;
        }
        if self.acked || now.saturating_sub(self.last) < self.wait() {
            return Step::Rest;
        }
        if self.resent < MAX_RETRANSMIT {
            Step::Resend
        } else {
            Step::GiveUp
        }
    }

    /// Returns the moment from which on something is to be done about the message, in milliseconds, or `u64::MAX`.
    pub(crate) fn wake(&self) -> u64
        ensures until { (now : ℕ) → now < result → step (sending_of self.now) now ≡ steps.Rest }
        ensures due { result < 2 ^ 64 - 1 → (now : ℕ) → result ≤ now → step (sending_of self.now) now ≡ steps.Rest → ⊥ }
    {
        let end = self.begun.saturating_add(MAX_TRANSMIT_WAIT_MS);
        if self.acked {
            end
        } else {
            end.min(self.last.saturating_add(self.wait()))
        }
    }

    /// Notes that the message is sent again at this moment.
    pub(crate) fn send_again(&mut self, now: u64)
        requires { self.old.resent < 4 }
        ensures { sending_of self.new ≡ again (sending_of self.old) now }
    {
        self.last = now;
        self.resent += 1;
    }

    /// Notes an ACK: the message isn't sent again.
    pub(crate) fn stop(&mut self)
        ensures { sending_of self.new ≡ stopped (sending_of self.old) }
    {
        self.acked = true;
    }

    /// Returns whether an ACK or RST with this Message ID from this address is for the message (RFC 7252, 4.2).
    pub(crate) fn is_for(&self, from: &[u8], message_id: u16) -> bool
        ensures { result ≡ is_for from.now message_id (sending_of self.now) }
    {
        self.to.as_slice() == from && self.message_id == message_id
    }

    /// Returns whether the message went to this address, and no ACK came for it yet.
    pub(crate) fn is_unacknowledged(&self, to: &[u8]) -> bool
        ensures { result ≡ is_unacknowledged to.now (sending_of self.now) }
    {
        !self.acked && self.to.as_slice() == to
    }

    /// Returns whether a response with this token from this address is for the message. One in an ACK has the Message ID of that, too (RFC
    /// 7252, 5.3.2).
    pub(crate) fn is_awaited(&self, from: &[u8], token: &[u8], acked: Option<u16>) -> bool
        ensures { result ≡ is_awaited from.now token.now acked (sending_of self.now) }
    {
        let fits = match acked {
            Some(message_id) => self.message_id == message_id,
            None => true,
        };
        matches!(self.awaits, Awaits::Response)
            && fits
            && self.to.as_slice() == from
            && self.token.as_slice() == token
    }
}
