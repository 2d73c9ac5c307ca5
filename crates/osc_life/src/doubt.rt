//! Numbers of requests of which a server doesn't know whether an earlier life of it received them (RFC 8613, 7.5).

ghost use Rattle.std.specs.Prelude.{◌≡◌, ◌+◌, ◌-◌, true, false};
ghost use Rattle.osc_context.specs.Views.{number_of};
ghost use Rattle.osc_life.specs.Doubting.{IsBelow, IsBeyond, IsNotBelow, IsNotBeyond};

use osc_context::Piv;

/// The numbers that earlier lives kept ahead of those that they received: from `least` on, below `limit`. A request with one of them may
/// have been received. One with a number from `limit` on wasn't, and one with a number below `least` is a replay (own rule).
#[derive(Clone, Copy, Debug, PartialEq, Eq)]
pub struct Doubt {
    pub least: u64,
    pub limit: u64,
}

impl Doubt {
    /// The last `ahead` numbers up to `highest`.
    #[must_use]
    pub fn up_to(highest: Piv, ahead: u64) -> Doubt
        ensures limit { result.limit ≡ number_of highest + 1 }
        ensures least { result.least ≡ number_of highest + 1 - ahead }
    {
        let limit = highest.number() + 1;
        Doubt {
            least: limit.saturating_sub(ahead),
            limit,
        }
    }
}

/// Returns whether a number is below all that are in doubt.
pub(crate) fn is_below(doubt: Option<Doubt>, number: Piv) -> bool
    ensures yes { result ≡ true → IsBelow doubt (number_of number) }
    ensures no { result ≡ false → IsNotBelow doubt (number_of number) }
{
    match doubt {
        Some(doubt) => number.number() < doubt.least,
        None => false,
    }
}

/// Returns whether a number is above all that are in doubt: no earlier life kept it.
pub(crate) fn is_beyond(doubt: Option<Doubt>, number: Piv) -> bool
    ensures yes { result ≡ true → IsBeyond doubt (number_of number) }
    ensures no { result ≡ false → IsNotBeyond doubt (number_of number) }
{
    match doubt {
        Some(doubt) => doubt.limit <= number.number(),
        None => false,
    }
}
