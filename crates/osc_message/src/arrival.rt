//! One message that came, and what was sent for it (RFC 7252, 4.5 and 5.2).
//!
//!     came  1,500 ms  ACK  ..  a response of its own
//!     came  a response in its ACK

ghost use Rattle.std.specs.Prelude.{◌≡◌, ℕ, ◌≤◌, ◌<◌, ◌-◌, ◌^◌, false, true};
ghost use Rattle.osc_message.specs.Hearing.{acknowledged, answered, again_of, is_due, is_done, is_same, way_of};

use crate::exchange::Address;

/// EXCHANGE_LIFETIME, in milliseconds: so long a CON may come again (RFC 7252, 4.5 and 4.8.2).
const EXCHANGE_LIFETIME_MS: u64 = 247_000;

/// NON_LIFETIME, in milliseconds: so long a NON may come again (RFC 7252, 4.5 and 4.8.2).
const NON_LIFETIME_MS: u64 = 145_000;

/// Own rule: so long an answer may take until the ACK is sent by itself, in milliseconds. The other end sends its request again after 2 s at the
/// earliest (RFC 7252, 4.8 and 5.2.2).
const LATE_MS: u64 = 1_500;

/// What was sent for a message that came.
#[derive(Clone, Copy, Debug, PartialEq, Eq)]
pub enum Stage {
    /// Nothing yet.
    Waiting,
    /// An empty ACK. The answer is still to come.
    Acknowledged,
    /// The answer, in the ACK.
    Answered,
    /// An ACK, if it is a CON, and all that was to be sent besides.
    Done,
}

/// How an answer is sent.
#[derive(Clone, Copy, Debug, PartialEq, Eq)]
pub enum Way {
    /// In the ACK, with the Message ID of the request (RFC 7252, 5.2.1).
    InAck,
    /// In a message of its own, a CON or a NON, with a Message ID of yours (RFC 7252, 5.2.2 and 5.2.3).
    Separate,
}

/// What a message gets that comes again.
#[derive(Clone, Copy, Debug, PartialEq, Eq)]
pub enum Again {
    /// Nothing, or nothing yet.
    Nothing,
    /// An empty ACK.
    Acknowledge,
    /// The answer that was sent in its ACK, byte by byte.
    Resend,
}

/// A message that came.
#[derive(Drop)]
pub struct Arrival {
    pub(crate) number: u64,
    pub(crate) from: Address,
    pub(crate) message_id: u16,
    pub(crate) confirmable: bool,
    pub(crate) moment: u64,
    pub(crate) stage: Stage,
}

impl Arrival {
    ghost use Rattle.osc_message.specs.HearingViews.{heard_of};

    /// Returns whether a CON or NON with this Message ID from this address is the same message, come again (RFC 7252, 4.5).
    pub(crate) fn is_same(&self, from: &[u8], message_id: u16, now: u64) -> bool
        ensures { result ≡ is_same from.now message_id now (heard_of self.now) }
    {
        let life = if self.confirmable {
            EXCHANGE_LIFETIME_MS
        } else {
            NON_LIFETIME_MS
        };
        self.from.as_slice() == from
            && self.message_id == message_id
            && now.saturating_sub(self.moment) < life
    }

    /// Returns what the message gets when it comes again (RFC 7252, 4.5).
    pub(crate) fn again(&self) -> Again
        ensures { result ≡ again_of (heard_of self.now) }
    {
        match self.stage {
            _ if !self.confirmable => Again::Nothing,
            Stage::Waiting => Again::Nothing,
            Stage::Acknowledged | Stage::Done => Again::Acknowledge,
            Stage::Answered => Again::Resend,
        }
    }

    /// Returns how its answer is sent, or `None` if there is nothing more to send.
    pub(crate) fn way(&self) -> Option<Way>
        ensures { result ≡ way_of (heard_of self.now) }
    {
        match self.stage {
            Stage::Waiting if self.confirmable => Some(Way::InAck),
            Stage::Waiting | Stage::Acknowledged => Some(Way::Separate),
            Stage::Answered | Stage::Done => None,
        }
    }

    /// Returns whether all was sent for it.
    pub(crate) fn is_done(&self) -> bool
        ensures { result ≡ is_done (heard_of self.now) }
    {
        matches!(self.stage, Stage::Answered | Stage::Done)
    }

    /// Returns whether its ACK is to be sent by itself.
    pub(crate) fn is_due(&self, now: u64) -> bool
        ensures { result ≡ is_due now (heard_of self.now) }
    {
        self.confirmable
            && matches!(self.stage, Stage::Waiting)
            && now.saturating_sub(self.moment) >= LATE_MS
    }

    /// Returns the moment from which on its ACK is to be sent by itself, in milliseconds, or `u64::MAX`.
    pub(crate) fn wake(&self) -> u64
        ensures until { (now : ℕ) → now < result → is_due now (heard_of self.now) ≡ false }
        ensures due { result < 2 ^ 64 - 1 → (now : ℕ) → result ≤ now → is_due now (heard_of self.now) ≡ true }
    {
        if self.confirmable && matches!(self.stage, Stage::Waiting) {
            self.moment.saturating_add(LATE_MS)
        } else {
            u64::MAX
        }
    }

    /// Notes an empty ACK.
    pub(crate) fn acknowledge(&mut self)
        ensures { heard_of self.new ≡ acknowledged (heard_of self.old) }
    {
        self.stage = Stage::Acknowledged;
    }

    /// Notes an answer.
    pub(crate) fn answer(&mut self)
        ensures { heard_of self.new ≡ answered (heard_of self.old) }
    {
        self.stage = match self.stage {
            Stage::Waiting if self.confirmable => Stage::Answered,
            _ => Stage::Done,
        };
    }
}
