//! The requests of one context that are waiting for their answers, as bytes.
//!
//!     forgotten | 63 .. 2 1 0 |        bit i of the mask is the number highest - i
//!                           ^ highest

ghost use Rattle.std.specs.Prelude.{◌≡◌, ◌<◌, ◌+◌, ◌-◌, ◌==◌, ◌&&◌, ◌||◌, ℕ, max, nat_le, nat_lt, not, false};
ghost use Rattle.osc_handle.specs.UnansweredBytes.{holds, has_bit};

/// The numbers of the requests of one context's present life that were delivered and aren't answered yet, as far as they are less
/// than 64 below the highest number that was delivered.
#[repr(C)]
#[derive(Clone, Copy)]
pub struct UnansweredHandle {
    pub highest: u64,
    pub mask: u64,
}

impl UnansweredHandle {
    /// Returns bytes that hold no number.
    #[must_use]
    pub fn none() -> UnansweredHandle
        ensures holds { (n : ℕ) → holds result n ≡ false }
        ensures highest { result.highest ≡ 0 }
    {
        UnansweredHandle {
            highest: 0,
            mask: 0,
        }
    }

    /// Returns whether this is one of the numbers.
    #[must_use]
    pub fn has(&self, number: u64) -> bool
        ensures { result ≡ holds self.now number }
    {
        number <= self.highest
            && self.highest - number < 64
            && self.mask >> (self.highest - number) & 1 == 1
    }

    /// Returns whether a reply to the request with this number is due: the number is one of these; or it lies 64 or more below the highest one,
    /// and the reply has a Partial IV of its own, so that no nonce is used twice even if it isn't the first.
    #[must_use]
    pub fn is_due(&self, number: u64, own: bool) -> bool
        ensures { result ≡ (holds self.now number || (own && nat_le (number + 64) self.now.highest)) }
    {
        self.has(number) || own && number < self.highest && self.highest - number >= 64
    }

    /// Adds the number of a request that was delivered, and forgets the numbers that are 64 or more below it.
    #[tactic(auto, using(crate::proofs::Bits::added_above, crate::proofs::Bits::added_inside))]
    pub fn add(&mut self, number: u64)
        ensures holds { self.old.highest < number + 64 → (n : ℕ)
            → holds self.new n ≡ ((n == number) || (holds self.old n && not (nat_le (n + 64) number))) }
        ensures highest { self.new.highest ≡ max self.old.highest number }
    {
        if self.highest < number {
            self.mask = moved_up(self.mask, number - self.highest);
            self.highest = number;
        } else if self.highest - number < 64 {
            self.mask = with_bit(self.mask, self.highest - number);
        }
    }

    /// Removes a number once its request is answered.
    #[tactic(auto, using(crate::proofs::Bits::removed_inside, crate::proofs::Bits::removed_outside))]
    pub fn remove(&mut self, number: u64)
        ensures holds { (n : ℕ) → holds self.new n ≡ (not (n == number) && holds self.old n) }
        ensures highest { self.new.highest ≡ self.old.highest }
    {
        if number <= self.highest && self.highest - number < 64 {
            self.mask = without_bit(self.mask, self.highest - number);
        }
    }
}

/// Returns the mask once the highest number has grown by this jump, and is one of the numbers itself.
#[tactic(auto, using(crate::proofs::Bits::moved_near, crate::proofs::Bits::moved_far))]
fn moved_up(mask: u64, jump: u64) -> u64
    requires { 0 < jump }
    ensures { (below : ℕ) → has_bit result below ≡ (nat_lt below 64 && ((below == 0) || (nat_le jump below && has_bit mask (below - jump)))) }
{
    if jump < 64 { mask << jump | 1 } else { 1 }
}

/// Returns the mask with the bit of one more number.
#[tactic(auto, using(crate::proofs::Bits::bit_set))]
fn with_bit(mask: u64, below: u64) -> u64
    requires { below < 64 }
    ensures { (other : ℕ) → has_bit result other ≡ ((other == below) || has_bit mask other) }
{
    mask | 1 << below
}

/// Returns the mask without the bit of one number.
#[tactic(auto, using(crate::proofs::Bits::bit_cleared))]
fn without_bit(mask: u64, below: u64) -> u64
    requires { below < 64 }
    ensures { (other : ℕ) → has_bit result other ≡ (not (other == below) && has_bit mask other) }
{
    mask & !(1 << below)
}
