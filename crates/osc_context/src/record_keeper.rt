//! What keeps two numbers in one record across restarts.

ghost use Rattle.std.specs.Prelude.{◌≡◌, ℕ, ◌+◌, ◌≤◌, IsOk, IsErr, IfOk};

use crate::keeper::KeeperError;

/// The two numbers of an end that sends and receives.
#[derive(Clone, Copy, Debug, PartialEq, Eq)]
pub struct KeptNumbers {
    /// The Sender Sequence Numbers below it may have been used (RFC 8613, B.1.1).
    pub sender: u64,
    /// The numbers of all requests that were received are below it (RFC 8613, 7.4 and 7.5).
    pub received: u64,
}

/// Keeps the two numbers of one end across all restarts, in one record, so that one save keeps both. It has a floor for
/// each number, below which none is loaded, and a count of its failures, which only clauses read.
pub trait RecordKeeper {
    ghost sender_floor: { Self → ℕ };

    ghost received_floor: { Self → ℕ };

    ghost failures: { Self → ℕ };

    // What a load may return, the sender's number first, and what it leaves.
    ghost loads: { Self → ℕ → ℕ → Self → Type 0 };

    /// Returns the numbers that are kept. Neither is ever below its floor.
    fn load(&mut self) -> Result<KeptNumbers, KeeperError>
        ensures loaded { IfOk result (λ kept. loads self.old kept.sender kept.received self.new) }
        ensures least { IfOk result (λ kept. (sender_floor self.old ≤ kept.sender) × (received_floor self.old ≤ kept.received)) }
        ensures floor_stays { (sender_floor self.new ≡ sender_floor self.old) × (received_floor self.new ≡ received_floor self.old) }
        ensures worked { IsOk result → failures self.new ≡ failures self.old }
        ensures failed { IsErr result → failures self.new ≡ failures self.old + 1 };

    /// Makes the numbers the floors. A save that fails, or is stopped, leaves the floors as they were: the next life loads
    /// the numbers of before, or these.
    fn save(&mut self, kept: KeptNumbers) -> Result<(), KeeperError>
        requires sender { sender_floor self.old ≤ kept.sender }
        requires received { received_floor self.old ≤ kept.received }
        ensures saved { IsOk result → (sender_floor self.new ≡ kept.sender) × (received_floor self.new ≡ kept.received) }
        ensures floor_stays { IsErr result → (sender_floor self.new ≡ sender_floor self.old) × (received_floor self.new ≡ received_floor self.old) }
        ensures worked { IsOk result → failures self.new ≡ failures self.old }
        ensures failed { IsErr result → failures self.new ≡ failures self.old + 1 };
}
