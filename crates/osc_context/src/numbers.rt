//! The Sender Sequence Numbers of a sender across all its lives (RFC 8613, 7.2.1 and B.1.1).

ghost use Rattle.std.specs.Prelude.{◌≡◌, ◌⊎◌, ℕ, ◌+◌, ◌<◌, ◌≤◌, ◌^◌, ◌↔◌, IsOk, IfOk, IfSome, IfNone, IsErrOf};

use crate::keeper::Keeper;
use crate::partial_iv::{NUMBER_LIMIT, Piv};
use std::error::Error;
use std::fmt;

/// How many numbers one save reserves.
const STEP: u64 = 64;

/// Why there is no number, in the order in which the reasons are judged.
#[derive(Clone, Copy, Debug, PartialEq, Eq)]
pub enum NumbersError {
    /// The keeper failed in this call.
    KeeperFailed,
    /// The number that is kept is above 2^40.
    KeptTooLarge,
    /// No number below 2^40 is left (RFC 8613, 7.2.1).
    NumbersExhausted,
}

/// The next Sender Sequence Number, and the first number that isn't reserved.
#[derive(Drop)]
pub struct Numbers {
    pub(crate) next: u64,
    pub(crate) limit: u64,
    pub ghost ordered: { next ≤ limit },
    pub ghost in_range: { limit ≤ 2 ^ 40 },
}

impl Numbers {
    ghost use Rattle.osc_context.specs.Reserving.{Covers, next_limit};
    ghost use Rattle.osc_context.specs.Views.{limit_of, next_of, number_of};
    ghost use Rattle.osc_context.specs.declared.numbers.NumbersError.TheVariants.{KeeperFailed, KeptTooLarge, NumbersExhausted};

    /// Begins at the number that the keeper loads. No number is reserved yet. If it refuses, it returns the first
    /// reason in the order of `NumbersError`.
    pub fn start<K: Keeper>(keeper: &mut K) -> Result<Numbers, NumbersError>
        ensures begins { IfOk result (λ n. K.loads keeper.old (next_of n) keeper.new × (limit_of n ≡ next_of n)) }
        ensures in_range { IfOk result (λ n. next_of n < 2 ^ 40) }
        ensures least { IfOk result (λ n. K.floor keeper.old ≤ next_of n) }
        ensures covered { IfOk result (λ n. Covers (K.floor keeper.new) (next_of n) (limit_of n)) }
        ensures exhausted { IsErrOf result NumbersExhausted → K.loads keeper.old (2 ^ 40) keeper.new }
        ensures too_large { IsErrOf result KeptTooLarge → (v : ℕ) × (2 ^ 40 < v) × K.loads keeper.old v keeper.new }
        ensures failed { IsErrOf result KeeperFailed → K.failures keeper.new ≡ K.failures keeper.old + 1 }
        ensures worked { (IsErrOf result KeeperFailed → ⊥) → K.failures keeper.new ≡ K.failures keeper.old }
        ensures floor_stays { K.floor keeper.new ≡ K.floor keeper.old }
    {
        match keeper.load() {
            Ok(kept) => Numbers::begin(kept),
            Err(_) => Err(NumbersError::KeeperFailed),
        }
    }

    /// Begins at a number that was loaded. No number is reserved yet. If it refuses, it returns the first reason in the order of
    /// `NumbersError`.
    #[doc(hidden)]
    pub fn begin(kept: u64) -> Result<Numbers, NumbersError>
        ensures begins { IfOk result (λ n. (next_of n ≡ kept) × (limit_of n ≡ kept)) }
        ensures in_range { IsOk result → kept < 2 ^ 40 }
        ensures exhausted { IsErrOf result NumbersExhausted → kept ≡ 2 ^ 40 }
        ensures too_large { IsErrOf result KeptTooLarge → 2 ^ 40 < kept }
        ensures no_keeper_failed { IsErrOf result KeeperFailed → ⊥ }
    {
        if kept > NUMBER_LIMIT {
            return Err(NumbersError::KeptTooLarge);
        }
        if kept == NUMBER_LIMIT {
            return Err(NumbersError::NumbersExhausted);
        }
        Ok(Numbers {
            next: kept,
            limit: kept,
        })
    }

    /// Returns the next number, or 2^40 if none is left.
    #[must_use]
    pub fn upcoming(&self) -> u64
        ensures { result ≡ next_of self.now }
    {
        let Numbers { next, .. } = self;
        *next
    }

    /// Returns the number that has to be saved before the next one is given: the limit with 64 more reserved, or with as many as are left
    /// below 2^40. Returns `None` if one is reserved, or none is left.
    #[doc(hidden)]
    #[must_use]
    pub fn to_save(&self) -> Option<u64>
        ensures some { IfSome result (λ limit. (next_of self.now ≡ limit_of self.now) × (limit_of self.now < 2 ^ 40) × (limit ≡ next_limit (limit_of self.now))) }
        ensures none { IfNone result ((next_of self.now < limit_of self.now) ⊎ (next_of self.now ≡ 2 ^ 40)) }
    {
        if self.next < self.limit || self.limit == NUMBER_LIMIT {
            return None;
        }
        Some((self.limit + STEP).min(NUMBER_LIMIT))
    }

    /// Reserves the numbers below what was saved, which is the number that `to_save` returned.
    #[doc(hidden)]
    pub fn reserve(&mut self, limit: u64)
        requires { limit ≡ next_limit (limit_of self.old) }
        ensures { (next_of self.new ≡ next_of self.old) × (limit_of self.new ≡ limit) }
    {
        self.limit = limit;
    }

    /// Returns the next number if it is reserved.
    #[doc(hidden)]
    pub fn give(&mut self) -> Option<Piv>
        ensures some { IfSome result (λ p. (next_of self.old < limit_of self.old) × (number_of p ≡ next_of self.old) × (next_of self.new ≡ next_of self.old + 1)) }
        ensures none { IfNone result ((next_of self.old ≡ limit_of self.old) × (next_of self.new ≡ next_of self.old)) }
        ensures limit { limit_of self.new ≡ limit_of self.old }
    {
        if self.next == self.limit {
            return None;
        }
        let Some(number) = Piv::new(self.next) else {
            unreachable!()
        };
        self.next += 1;
        Some(number)
    }

    /// Returns the first number that isn't reserved.
    #[doc(hidden)]
    #[must_use]
    pub fn limit(&self) -> u64
        ensures { result ≡ limit_of self.now }
    {
        let Numbers { limit, .. } = self;
        *limit
    }

    /// Returns the next number. If none is reserved, it first reserves 64 more, or as many as are left below 2^40. If
    /// that fails, the numbers don't change.
    pub fn next<K: Keeper>(&mut self, keeper: &mut K) -> Result<Piv, NumbersError>
        requires { Covers (K.floor keeper.old) (next_of self.old) (limit_of self.old) }
        ensures gives { IfOk result (λ p. number_of p ≡ next_of self.old) }
        ensures reserved { IfOk result (λ p. number_of p < K.floor keeper.new) }
        ensures counted { IsOk result → next_of self.new ≡ next_of self.old + 1 }
        ensures saved { IsOk result → next_of self.old ≡ limit_of self.old
            → (limit_of self.new ≡ next_limit (limit_of self.old)) × (K.floor keeper.new ≡ limit_of self.new) }
        ensures no_call { next_of self.old < limit_of self.old → IsOk result × (limit_of self.new ≡ limit_of self.old) × (keeper.new ≡ keeper.old) }
        ensures covered { Covers (K.floor keeper.new) (next_of self.new) (limit_of self.new) }
        ensures exhausted { IsErrOf result NumbersExhausted ↔ (next_of self.old ≡ 2 ^ 40) }
        ensures failed { IsErrOf result KeeperFailed → K.failures keeper.new ≡ K.failures keeper.old + 1 }
        ensures worked { (IsErrOf result KeeperFailed → ⊥) → K.failures keeper.new ≡ K.failures keeper.old }
        ensures no_kept_too_large { IsErrOf result KeptTooLarge → ⊥ }
        ensures unchanged { (IsOk result → ⊥) → (next_of self.new ≡ next_of self.old) × (limit_of self.new ≡ limit_of self.old)
            × (K.floor keeper.new ≡ K.floor keeper.old) }
    {
        if let Some(limit) = self.to_save() {
            let Ok(()) = keeper.save(limit) else {
                return Err(NumbersError::KeeperFailed);
            };
            self.reserve(limit);
        }
        match self.give() {
            Some(number) => Ok(number),
            None => Err(NumbersError::NumbersExhausted),
        }
    }
}

impl fmt::Display for NumbersError {
    ghost use Rattle.std.specs.Prelude.{Some};
    ghost use Rattle.osc_context.specs.Reserving.{numbers_error_text};

    ghost output = { λ e. Some (numbers_error_text e) };

    fn fmt<W: fmt::Write>(&self, f: &mut fmt::Formatter<W>) -> fmt::Result {
        match self {
            NumbersError::KeeperFailed => f.write_str("KeeperFailed"),
            NumbersError::KeptTooLarge => f.write_str("KeptTooLarge"),
            NumbersError::NumbersExhausted => f.write_str("NumbersExhausted"),
        }
    }
}

impl Error for NumbersError {}
