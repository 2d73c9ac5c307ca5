//! Message IDs that don't come again in EXCHANGE_LIFETIME (RFC 7252, 4.4).

ghost use Rattle.std.specs.Prelude.{◌≡◌, ◌<◌, ◌+◌, ◌^◌, IfNone, IfSome};
ghost use Rattle.osc_message.specs.MessageIds.{Gives, IsNext, Waits};

/// EXCHANGE_LIFETIME, in milliseconds (RFC 7252, 4.8.2).
const EXCHANGE_LIFETIME_MS: u64 = 247_000;

/// How many Message IDs a half has.
const HALF: u64 = 1 << 15;

/// The Message IDs of an endpoint, over all its peers. They count up by one. Own rule: each half of the 65,536 begins at least
/// EXCHANGE_LIFETIME after the half before it, so at most 32,768 are given in 247 s.
#[derive(Clone, Copy, Debug, PartialEq, Eq)]
pub struct MessageIds {
    count: u64,
    // When the present half was begun.
    entered: u64,
}

impl MessageIds {
    ghost use Rattle.osc_message.specs.Views.{counted_of};

    /// Begins behind a number that you drew at random, at this moment, in milliseconds: so a stranger can't guess the next one, and those of an
    /// earlier life hardly come again (RFC 7252, 4.4).
    #[must_use]
    pub fn new(random: u16, now: u64) -> MessageIds
        ensures count { (counted_of result).count ≡ random + 1 }
        ensures entered { (counted_of result).entered ≡ now }
    {
        MessageIds {
            count: u64::from(random) + 1,
            entered: now,
        }
    }

    /// Returns the Message ID that `give` would give at this moment, in milliseconds, and gives none. Returns `None` if the next half can't begin
    /// yet, and after 2^64 - 1 of them (RFC 7252, 4.4).
    #[must_use]
    pub fn next(&self, now: u64) -> Option<u16>
        ensures some { IfSome result (λ id. IsNext (counted_of self.now) now id) }
        ensures none { IfNone result (Waits (counted_of self.now) (counted_of self.now) now) }
    {
        let count = self.count;
        let waits = count % HALF == 0 && now.saturating_sub(self.entered) < EXCHANGE_LIFETIME_MS;
        if waits || count == u64::MAX {
            return None;
        }
        Some((count % (2 * HALF)) as u16)
    }

    /// Gives the next Message ID. Returns `None` if the next half can't begin yet, and after 2^64 - 1 of them. The moments that you hand in must
    /// not go back.
    pub fn give(&mut self, now: u64) -> Option<u16>
        ensures gives { IfSome result (λ id. Gives (counted_of self.old) (counted_of self.new) now id) }
        ensures waits { IfNone result (Waits (counted_of self.old) (counted_of self.new) now) }
    {
        let id = self.next(now)?;
        if self.count % HALF == 0 {
            self.entered = now;
        }
        self.count += 1;
        Some(id)
    }
}
