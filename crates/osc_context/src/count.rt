//! A count without a largest value. Only clauses read it. It takes no memory.

ghost use Rattle.std.specs.Prelude.{◌≡◌, ℕ, ◌+◌};
ghost use Rattle.std.specs.Borrow.{ftrue};

use std::marker::Model;

/// How often something happened, for the ghost members of a `Keeper`: a whole number that no machine type bounds.
#[derive(Drop)]
pub struct Count {
    pub ghost value: { ℕ },
}

impl Model for Count {
    ghost also_owns = { λ _. ftrue };
}

impl Count {
    /// Returns the count of something that never happened.
    #[must_use]
    pub fn none() -> Count
        ensures { result.value ≡ 0 }
    {
        Count {}
    }

    /// Returns the count after it happened once more.
    #[must_use]
    pub fn one_more(_before: &Count) -> Count
        ensures { result.value ≡ _before.now.value + 1 }
    {
        Count {}
    }
}
