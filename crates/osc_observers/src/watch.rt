//! One observer (RFC 7641, 4.1 and 4.5).
//!
//!     registered  NON  NON  ..  24 hours  CON  NON  ..

ghost use Rattle.std.specs.Prelude.{◌≡◌};
ghost use Rattle.osc_observers.specs.Watching.{is_failed, is_of, is_reset, needs_con, noted};

use osc_coap::Token;
use osc_message::Address;

/// So long an observer may be sent NONs alone, in milliseconds: 24 hours (RFC 7641, 4.5).
const DAY_MS: u64 = 86_400_000;

/// An observer. It keeps no notification: a caller keeps what it sends.
#[derive(Drop)]
pub struct Watch {
    pub(crate) number: u64,
    pub(crate) from: Address,
    pub(crate) token: Token,
    /// The Message ID of the last notification.
    pub(crate) last_message_id: Option<u16>,
    /// The call of the last CON.
    pub(crate) call: Option<u64>,
    /// When it registered, or when the last CON was sent.
    pub(crate) confirmed: u64,
}

impl Watch {
    ghost use Rattle.osc_observers.specs.Views.{watching_of};

    /// Returns whether it is the observer of this address and token (RFC 7641, 4.1).
    pub(crate) fn is_of(&self, from: &[u8], token: &[u8]) -> bool
        ensures { result ≡ is_of from.now token.now (watching_of self.now) }
    {
        self.from.as_slice() == from && self.token.as_slice() == token
    }

    /// Returns whether an RST with this Message ID from this address rejects its last notification (RFC 7641, 3.6 and 4.5).
    pub(crate) fn is_reset(&self, from: &[u8], message_id: u16) -> bool
        ensures { result ≡ is_reset from.now message_id (watching_of self.now) }
    {
        let is_last = match self.last_message_id {
            Some(last) => last == message_id,
            None => false,
        };
        self.from.as_slice() == from && is_last
    }

    /// Returns whether its last CON is that of this call.
    pub(crate) fn is_failed(&self, call: u64) -> bool
        ensures { result ≡ is_failed call (watching_of self.now) }
    {
        match self.call {
            Some(last) => last == call,
            None => false,
        }
    }

    /// Returns whether its next notification has to be a CON (RFC 7641, 4.5).
    pub(crate) fn needs_con(&self, now: u64) -> bool
        ensures { result ≡ needs_con now (watching_of self.now) }
    {
        now.saturating_sub(self.confirmed) >= DAY_MS
    }

    /// Notes a notification: the call of a CON, or `None` for a NON.
    pub(crate) fn note(&mut self, message_id: u16, call: Option<u64>, now: u64)
        ensures { watching_of self.new ≡ noted (watching_of self.old) message_id call now }
    {
        self.last_message_id = Some(message_id);
        if let Some(number) = call {
            self.call = Some(number);
            self.confirmed = now;
        }
    }
}
