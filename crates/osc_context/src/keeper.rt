//! What keeps a number across restarts.

ghost use Rattle.std.specs.Prelude.{◌≡◌, ℕ, ◌+◌, ◌≤◌, IsOk, IsErr, IfOk};

/// The keeper failed.
#[derive(Clone, Copy, Debug, PartialEq, Eq)]
pub struct KeeperError;

/// Keeps one number across all restarts. The numbers below it may have been used (RFC 8613, B.1.1). A keeper has a
/// floor, below which no number is loaded, and a count of its failures, which only clauses read.
pub trait Keeper {
    ghost floor: { Self → ℕ };

    ghost failures: { Self → ℕ };

    // What a load may return, and what it leaves.
    ghost loads: { Self → ℕ → Self → Type 0 };

    /// Returns the number that is kept. It is never below the floor.
    fn load(&mut self) -> Result<u64, KeeperError>
        ensures loaded { IfOk result (λ n. loads self.old n self.new) }
        ensures least { IfOk result (λ n. floor self.old ≤ n) }
        ensures floor_stays { floor self.new ≡ floor self.old }
        ensures worked { IsOk result → failures self.new ≡ failures self.old }
        ensures failed { IsErr result → failures self.new ≡ failures self.old + 1 };

    /// Makes the number the floor. A save that fails, or is stopped, leaves the floor as it was.
    fn save(&mut self, next: u64) -> Result<(), KeeperError>
        requires { floor self.old ≤ next }
        ensures saved { IsOk result → floor self.new ≡ next }
        ensures floor_stays { IsErr result → floor self.new ≡ floor self.old }
        ensures worked { IsOk result → failures self.new ≡ failures self.old }
        ensures failed { IsErr result → failures self.new ≡ failures self.old + 1 };
}
