//! The numbers of one end: its keeper, what it reserved, and at most one number that was drawn and isn't used yet.

ghost use Rattle.std.specs.Prelude.{◌≡◌, ◌≤◌, ◌+◌, ℕ, true, IsOk, IsErr, IfOk, IfErr};
ghost use Rattle.std.specs.Option.{ForSome};
ghost use Rattle.osc_context.specs.Reserving.{Covers};
ghost use Rattle.osc_context.specs.Views.{limit_of, next_of, number_of};
ghost use Rattle.osc_kept_ends.specs.Numbering.{Draws, Goes, Load, Use, after, nothing_drawn, upcoming};
ghost use Rattle.osc_kept_ends.specs.Refusals.{Loaded, RefusesAt};
ghost use Rattle.osc_kept_ends.specs.Views.{lifted};

use osc_context::{Keeper, KeeperError, Numbers, NumbersError, Piv};

/// The numbers of one end.
#[derive(Drop)]
pub(crate) struct Source<K: Keeper> {
    pub(crate) keeper: K,
    pub(crate) numbers: Numbers,
    // Drawn, and not used yet.
    pub(crate) in_hand: Option<Piv>,
    pub ghost covered: { Covers (K.floor keeper) (next_of numbers) (limit_of numbers) },
    pub ghost last_drawn: { ForSome in_hand (λ p. number_of p + 1 ≡ next_of numbers) },
}

/// Loads the numbers of a life, and returns them with the first number. Returns the first refusal in the order of `NumbersError`.
fn load<K: Keeper>(keeper: &mut K) -> Result<(Numbers, Piv), NumbersError>
    ensures begins { IfOk result (λ r. Loaded K.loads K.failures keeper.old (number_of r.1) keeper.new
        × (next_of r.0 ≡ number_of r.1) × (limit_of r.0 ≡ number_of r.1)) }
    ensures least { IfOk result (λ r. K.floor keeper.old ≤ number_of r.1) }
    ensures refused { IfErr result (λ e. RefusesAt K.loads K.failures keeper.old (lifted e) keeper.new) }
    ensures floor_stays { K.floor keeper.new ≡ K.floor keeper.old }
{
    let numbers = Numbers::start(keeper)?;
    match Piv::new(numbers.upcoming()) {
        Some(first) => Ok((numbers, first)),
        None => unreachable!(),
    }
}

/// Ends the numbers of an end, and returns their keeper.
pub(crate) fn keeper_of<K: Keeper>(source: Source<K>) -> K
    ensures { result ≡ source.keeper }
{
    let Source { keeper, .. } = source;
    keeper
}

impl<K: Keeper> Source<K> {
    ghost use Rattle.osc_kept_ends.specs.Owning.{own_in};

    /// Begins at the number that the keeper loads, and returns this first number too. A refusal gives the keeper back.
    pub(crate) fn start(mut keeper: K) -> Result<(Source<K>, Piv), (NumbersError, K)>
        ensures begins { IfOk result (λ r. Loaded K.loads K.failures keeper (number_of r.1) r.0.keeper
            × Goes (Load (number_of r.1)) (nothing_drawn (K.floor keeper)) (own_in r.0)) }
        ensures refused { IfErr result (λ r. RefusesAt K.loads K.failures keeper (lifted r.0) r.1) }
        ensures floor_stays { IfErr result (λ r. K.floor r.1 ≡ K.floor keeper) }
    {
        match load(&mut keeper) {
            Ok((numbers, first)) => {
                let source = Source {
                    keeper,
                    numbers,
                    in_hand: None,
                };
                Ok((source, first))
            }
            Err(error) => Err((error, keeper)),
        }
    }

    /// Loads the numbers of a further life, and returns them with its first number. The numbers of the present life stay.
    pub(crate) fn reload(&mut self) -> Result<(Numbers, Piv), NumbersError>
        ensures begins { IfOk result (λ r. Loaded K.loads K.failures self.old.keeper (number_of r.1) self.new.keeper
            × (next_of r.0 ≡ number_of r.1) × (limit_of r.0 ≡ number_of r.1)) }
        ensures least { IfOk result (λ r. K.floor self.old.keeper ≤ number_of r.1) }
        ensures refused { IfErr result (λ e. RefusesAt K.loads K.failures self.old.keeper (lifted e) self.new.keeper) }
        ensures left { (own_in self.new ≡ own_in self.old) × (self.new.numbers ≡ self.old.numbers) × (self.new.in_hand ≡ self.old.in_hand) }
    {
        load(&mut self.keeper)
    }

    /// Begins a life with numbers that were loaded, and drops the number in hand.
    pub(crate) fn begin(&mut self, numbers: Numbers)
        requires least { K.floor self.old.keeper ≤ next_of numbers }
        requires none_reserved { limit_of numbers ≡ next_of numbers }
        ensures numbers { own_in self.new ≡ after (Load (next_of numbers)) (own_in self.old) }
        ensures keeper { self.new.keeper ≡ self.old.keeper }
    {
        self.numbers = numbers;
        self.in_hand = None;
    }

    /// Returns the number with which the end seals next, or 2^40 if none is left.
    pub(crate) fn upcoming(&self) -> u64
        ensures { result ≡ upcoming (own_in self.now) }
    {
        match self.in_hand {
            Some(number) => number.number(),
            None => self.numbers.upcoming(),
        }
    }

    /// Draws the next number if none is in hand, unless none is left. If the keeper fails, the numbers don't change.
    pub(crate) fn draw(&mut self) -> Result<(), KeeperError>
        ensures drawn { IsOk result → Draws true (own_in self.old) (own_in self.new) }
        ensures left { IsErr result → own_in self.new ≡ own_in self.old }
        ensures failed { IsErr result → K.failures self.new.keeper ≡ K.failures self.old.keeper + 1 }
        ensures worked { IsOk result → K.failures self.new.keeper ≡ K.failures self.old.keeper }
    {
        if self.in_hand.is_some() {
            return Ok(());
        }
        match self.numbers.next(&mut self.keeper) {
            Ok(number) => {
                self.in_hand = Some(number);
                Ok(())
            }
            Err(NumbersError::KeeperFailed) => Err(KeeperError),
            Err(_) => Ok(()),
        }
    }

    /// Uses up the number in hand, and returns it.
    pub(crate) fn spend(&mut self) -> Option<Piv>
        ensures number { result ≡ self.old.in_hand }
        ensures used { (n : ℕ) → own_in self.new ≡ after (Use n) (own_in self.old) }
        ensures keeper { self.new.keeper ≡ self.old.keeper }
    {
        self.in_hand.take()
    }
}
