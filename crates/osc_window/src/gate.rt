//! The gate of one context. It is closed from a restart until a request shows, by an Echo value that it carries, that
//! it is fresh (RFC 8613, B.1.2, and RFC 9175, 2.3). Moments are in milliseconds.

ghost use Rattle.std.specs.Prelude.{◌≡◌, ◌∷◌, [], ℕ, List, Option, false};
ghost use Rattle.osc_context.specs.Views.{number_of};
ghost use Rattle.osc_window.specs.Taken.{IsFromFloor, AgreesWith};
ghost use Rattle.osc_window.specs.Gate.{IsInForce, challenge_in_force};
ghost use Rattle.osc_window.specs.Views.{is_open, challenge_of, IsOpenAnd};

use crate::window::Window;
use crate::window_size::WindowSize;
use osc_context::Piv;

/// Own rule: how long a challenge is in force, in milliseconds, including the last one.
const CHALLENGE_LIFE_MS: u64 = 30_000;

/// How the requests of one context are judged in one life (RFC 8613, B.1.2).
#[derive(Clone, Copy, Debug, PartialEq, Eq)]
pub enum Gate {
    /// Closed since a restart: requests are judged by the Echo value that they carry. The challenge is the value that
    /// was issued last, with the moment of its issue in milliseconds.
    Restarted { challenge: Option<([u8; 8], u64)> },
    /// Requests are judged by their number.
    Open(Window),
}

impl Gate {
    /// Returns whether requests are judged by their number.
    #[must_use]
    pub fn is_open(&self) -> bool
        ensures { result ≡ is_open self.now }
    {
        matches!(self, Gate::Open(_))
    }

    /// Returns the challenge (its value and its moment of issue) if the gate is closed and the clock is at most
    /// 30,000 ms past that moment. A clock before that moment counts as 0 past it (RFC 9175, 2.3; own rule: the time).
    #[must_use]
    pub fn in_force(&self, clock: u64) -> Option<([u8; 8], u64)>
        ensures value { result ≡ challenge_in_force (challenge_of self.now) clock }
        ensures accepted { (echo : List ℕ) (issued : ℕ) → result ≡ Some (echo, issued)
            → (challenge_of self.now ≡ Some (echo, issued)) × IsInForce issued clock }
        ensures accepts { (echo : List ℕ) (issued : ℕ) → challenge_of self.now ≡ Some (echo, issued)
            → IsInForce issued clock → result ≡ Some (echo, issued) }
    {
        match self {
            Gate::Restarted {
                challenge: Some(challenge),
            } if clock.saturating_sub(challenge.1) <= CHALLENGE_LIFE_MS => Some(*challenge),
            _ => None,
        }
    }

    /// Makes this value the challenge, issued at this moment, in place of any earlier one. The caller makes sure that
    /// the value is unpredictable (RFC 9175, 2.3).
    pub fn issue(&mut self, echo: [u8; 8], clock: u64)
        requires { is_open self.old ≡ false }
        ensures { self.new ≡ Gate.Restarted (Some (echo, clock)) }
    {
        *self = Gate::Restarted {
            challenge: Some((echo, clock)),
        };
    }

    /// Opens the gate at the number of a request that carried the challenge. This spends that number and makes all
    /// numbers below it too old (RFC 8613, B.1.2).
    pub fn open_at(&mut self, number: Piv, size: WindowSize)
        requires { is_open self.old ≡ false }
        ensures made { IsOpenAnd self.new (λ window. IsFromFloor window (number_of number) size) }
        ensures agrees { IsOpenAnd self.new (λ window.
            AgreesWith window size (number_of number) (number_of number ∷ [])) }
    {
        *self = Gate::Open(Window::from_floor(number, size));
    }
}
