//! How many challenges a peer seals while its gate is closed (RFC 8613, B.1.2).

ghost use Rattle.std.specs.Prelude.{◌≡◌, ◌+◌, List, ℕ, ◌∷◌, [], nat_le};
ghost use Rattle.osc_fresh.specs.Budgeting.{entered, gives, period_ms, periods};

/// How long a period lasts at least, in milliseconds: as long as an Echo value is in force.
const PERIOD_MS: u64 = 30_000;

/// The present period: when it began, and how many numbers it gave.
#[derive(Clone, Copy, Debug, PartialEq, Eq)]
struct Period {
    since: u64,
    used: u32,
}

impl Period {
    /// Returns whether another period may begin at `now`.
    fn is_over(self, now: u64) -> bool
        ensures { result ≡ nat_le (self.since + period_ms) now }
    {
        match now.checked_sub(self.since) {
            Some(age) => age >= PERIOD_MS,
            None => false,
        }
    }
}

/// How many Sender Sequence Numbers the challenges of a closed peer may take: at most `most` in a period, and periods begin at least 30 s
/// apart (own rule). It is for one peer and one life.
#[derive(Clone, Copy, Debug, PartialEq, Eq)]
pub struct Budget {
    /// The most numbers in a period.
    pub most: u32,
    period: Option<Period>,
}

impl Budget {
    ghost use Rattle.osc_fresh.specs.Views.{Counts};

    /// Gives at most `most` numbers in a period. None was wanted yet.
    #[must_use]
    pub fn new(most: u32) -> Budget
        ensures wish { result.most ≡ most }
        ensures wanted { Counts result [] }
    {
        Budget { most, period: None }
    }

    /// Returns whether a number may be taken at `now`, in milliseconds, and counts it if so. Where it may not, drop the datagram, and pass it
    /// to no call: ask while `KeptPeer::is_open` is false, before `decide` or `take`. Otherwise whoever recorded requests of an earlier life
    /// has a number used up by each of them, and each 64 cost a save.
    pub fn grants(&mut self, now: u64) -> bool
        ensures granted { (ts : List ℕ) → Counts self.old ts → result ≡ gives self.old.most (entered now (periods self.old.most ts)) }
        ensures wanted { (ts : List ℕ) → Counts self.old ts → Counts self.new (now ∷ ts) }
        ensures wish { self.new.most ≡ self.old.most }
    {
        let period = match self.period {
            Some(period) if !period.is_over(now) => period,
            _ => Period {
                since: now,
                used: 0,
            },
        };
        let grants = period.used < self.most;
        let used = if grants { period.used + 1 } else { period.used };
        self.period = Some(Period {
            since: period.since,
            used,
        });
        grants
    }
}
