//! The replay window of one context in one life (RFC 8613, 7.4).
//!
//!     too old | 31 .. 2 1 0 | new        bit i of the mask stands for the number highest - i,
//!                         ^ highest      with 64 places from i = 63 on

ghost use Rattle.std.specs.Prelude.{◌≡◌, ◌+◌, ◌-◌, ◌<◌, ◌≤◌, ◌==◌, ◌&&◌, ◌||◌, ◌∷◌, [], ℕ, List, IsTrue, not, nat_lt};
ghost use Rattle.osc_context.specs.Views.{number_of};
ghost use Rattle.osc_window.specs.declared.window_size.WindowSize.{WindowSize};
ghost use Rattle.osc_window.specs.declared.window.Window.{Window};
ghost use Rattle.osc_window.specs.SpentMask.{unspent_at};
ghost use Rattle.osc_window.specs.Views.{takes, size_of, parts_of};
ghost use Rattle.osc_window.specs.Taken.{IsFresh, IsFromFloor, Spends, AgreesWith};

use crate::window_size::WindowSize;
use osc_context::Piv;

/// Which numbers of one context are new in one life (RFC 8613, 7.4). `==` compares what two windows keep, which can
/// differ even if they take the same numbers.
#[derive(Clone, Copy, Debug, PartialEq, Eq)]
pub struct Window {
    // The highest marked number, if one is marked.
    highest: Option<Piv>,
    // Which numbers from there down are refused. The lowest bit stands for the highest number.
    spent_mask: u64,
    size: WindowSize,
}

/// What a window keeps, as plain values, for code that keeps it elsewhere. The lowest bit of the mask stands for the
/// highest number. A bit that is set refuses its number.
#[derive(Clone, Copy, Debug, PartialEq, Eq)]
pub struct WindowParts {
    pub highest: Option<Piv>,
    pub spent_mask: u64,
    pub size: WindowSize,
}

impl Window {
    /// Returns what the window keeps.
    #[must_use]
    pub fn parts(&self) -> WindowParts
        ensures { result ≡ parts_of self.now }
    {
        WindowParts {
            highest: self.highest,
            spent_mask: self.spent_mask,
            size: self.size,
        }
    }

    /// Makes the window that keeps these values.
    #[must_use]
    pub fn from_parts(parts: WindowParts) -> Window
        ensures made { parts_of result ≡ parts }
        ensures same { (window : Window) → parts_of window ≡ parts → result ≡ window }
    {
        Window {
            highest: parts.highest,
            spent_mask: parts.spent_mask,
            size: parts.size,
        }
    }

    /// Makes the window of a context that has never restarted: no number is spent (RFC 8613, 3.2.2).
    #[tactic(auto, unfolding(crate::specs::Views::takes, crate::specs::Views::size_of))]
    #[must_use]
    pub fn fresh(size: WindowSize) -> Window
        ensures made { IsFresh result size }
        ensures agrees { AgreesWith result size 0 [] }
    {
        Window {
            highest: None,
            spent_mask: 0,
            size,
        }
    }

    /// Makes the window of a restarted context after a request with this number has shown that it is fresh. The number
    /// is spent, and all numbers below it are too old (RFC 8613, B.1.2). So this is also the window of a context that received
    /// requests with numbers up to this one at most.
    #[tactic(auto, unfolding(crate::specs::Views::takes, crate::specs::Views::size_of))]
    #[must_use]
    pub fn from_floor(floor: Piv, size: WindowSize) -> Window
        ensures made { IsFromFloor result (number_of floor) size }
        ensures agrees { AgreesWith result size (number_of floor) (number_of floor ∷ []) }
        ensures unspent { AgreesWith result size (number_of floor + 1) [] }
    {
        Window {
            highest: Some(floor),
            spent_mask: u64::MAX,
            size,
        }
    }

    /// Returns the size that the window was made with.
    #[tactic(auto, unfolding(crate::specs::Views::size_of))]
    #[must_use]
    pub fn size(&self) -> WindowSize
        ensures { result ≡ size_of self.now }
    {
        self.size
    }

    /// Returns whether the number is new: neither spent nor too old (RFC 8613, 7.4). A number that isn't new is a
    /// replay.
    #[tactic(auto, unfolding(crate::specs::Views::takes), using(crate::proofs::Masks::taken_above, crate::proofs::Masks::taken_below))]
    #[must_use]
    pub fn is_new(&self, number: Piv) -> bool
        ensures { result ≡ takes self.now (number_of number) }
    {
        match self.highest {
            None => true,
            Some(highest) => {
                let (highest, number) = (highest.number(), number.number());
                highest < number
                    || is_unspent(self.spent_mask, highest - number, self.size.places())
            }
        }
    }

    /// Spends a number. Call it after the request has opened, never before its tag is checked (RFC 8613, 7.4).
    pub fn mark(&mut self, number: Piv)
        requires { IsTrue (takes self.old (number_of number)) }
        ensures spends { Spends self.old self.new (number_of number) }
        ensures agrees { (size : WindowSize) (floor : ℕ) (spent : List ℕ) →
            AgreesWith self.old size floor spent → AgreesWith self.new size floor (number_of number ∷ spent) }
    {
        let Some(highest) = self.highest else {
            self.highest = Some(number);
            self.spent_mask = 1;
            return;
        };
        let (from, to) = (highest.number(), number.number());
        if from < to {
            // The number is above the highest: it becomes the highest, and the mask moves up by the jump.
            self.highest = Some(number);
            self.spent_mask = moved_up(self.spent_mask, to - from, self.size.places());
        } else {
            // The number is in the window: its bit is set, and nothing moves.
            // It is never too old, because no such number is new.
            self.spent_mask = with_bit(self.spent_mask, from - to);
        }
    }
}

/// Returns whether the number that is this far below the highest one is in the window and not marked.
fn is_unspent(spent_mask: u64, below: u64, places: u64) -> bool
    requires { places ≤ 64 }
    ensures { result ≡ unspent_at spent_mask below places }
{
    below < places && spent_mask >> below & 1 == 0
}

/// Returns the mask after the highest number has grown by this jump and is itself marked. A jump of the window's size
/// or more leaves no older bit.
#[tactic(auto, using(crate::proofs::Masks::unspent_near, crate::proofs::Masks::unspent_far))]
fn moved_up(spent_mask: u64, jump: u64, places: u64) -> u64
    requires jump { 0 < jump }
    requires places { places ≤ 64 }
    ensures { (below : ℕ) → unspent_at result below places ≡ (nat_lt 0 below && nat_lt below places
        && (nat_lt below jump || unspent_at spent_mask (below - jump) places)) }
{
    if jump < places {
        spent_mask << jump | 1
    } else {
        1
    }
}

/// Returns the mask after the number that is this far below the highest one is marked.
#[tactic(auto, using(crate::proofs::Masks::unspent_set))]
fn with_bit(spent_mask: u64, below: u64) -> u64
    requires { below < 64 }
    ensures { (other places : ℕ) →
        unspent_at result other places ≡ (unspent_at spent_mask other places && not (other == below)) }
{
    spent_mask | 1 << below
}
