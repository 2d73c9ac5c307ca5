//! A request that is waiting for its response, as bytes.

ghost use Rattle.std.specs.Prelude.{◌≡◌, ◌≤◌, ◌==◌, if◌then◌else◌, true, false};
ghost use Rattle.osc_client.specs.ClientHistory.{is_alive as alive_still};
ghost use Rattle.osc_client.specs.Views.{asked_of};
ghost use Rattle.osc_client.specs.declared.pending.Wait.TheVariants.{Once, Observing};
ghost use Rattle.osc_context.specs.Views.{number_of};
ghost use Rattle.osc_handle.specs.PendingBytes.{IsPending, IsWait, asked_at, wait_in};

use osc_client::siblings::{Found, Pending, Wait};
use osc_context::Piv;
use osc_context_handle::siblings::padded;

/// A request that is waiting for its response: its number, the clock in milliseconds when it was sealed, its token, and whether it
/// registers an observation.
#[repr(C)]
#[derive(Clone, Copy)]
pub struct PendingHandle {
    pub number: u64,
    pub moment: u64,
    /// The first place at which a response to a registration isn't old, and 0 for any other request.
    pub from: u64,
    pub token: [u8; 8],
    pub token_len: u8,
    /// 1 if the request registers an observation, and 0 if not.
    pub observes: u8,
}

/// Returns the bytes of what a request waits for: whether it registers an observation, and the first place at which a response isn't old.
fn bytes_of(wait: Wait) -> (u8, u64)
    ensures made { (if result.0 == 0 then Once else Observing result.1) ≡ wait }
    ensures flag { result.0 ≤ 1 }
    ensures none { result.0 ≡ 0 → result.1 ≡ 0 }
{
    match wait {
        Wait::Once => (0, 0),
        Wait::Observing { from } => (1, from),
    }
}

impl PendingHandle {
    /// Returns the bytes of a pending request.
    pub fn of(pending: &Pending) -> PendingHandle
        ensures made { asked_at result ≡ asked_of pending.now }
        ensures whole { IsPending result }
    {
        let (token, token_len) = padded(pending.token.as_slice());
        let (observes, from) = bytes_of(pending.wait);
        PendingHandle {
            number: pending.number.number(),
            moment: pending.moment,
            from,
            token,
            token_len,
            observes,
        }
    }

    /// Returns whether a call may have written the bytes of what the request waits for.
    fn has_wait(&self) -> bool
        ensures yes { result ≡ true → IsWait self.now }
        ensures no { result ≡ false → IsWait self.now → ⊥ }
    {
        match self.observes {
            0 => self.from == 0,
            1 => true,
            _ => false,
        }
    }

    /// Returns what the request waits for.
    pub(crate) fn wait(&self) -> Wait
        ensures { result ≡ wait_in self.now }
    {
        if self.observes == 0 {
            return Wait::Once;
        }
        Wait::Observing { from: self.from }
    }

    /// Returns whether a call may have written the bytes.
    pub fn is_whole(&self) -> bool
        ensures yes { result ≡ true → IsPending self.now }
        ensures no { result ≡ false → IsPending self.now → ⊥ }
    {
        self.token_len <= 8 && self.number < 1 << 40 && self.has_wait()
    }

    /// Returns the token.
    pub(crate) fn token(&self) -> &[u8]
        ensures { result.now ≡ (asked_at self.now).token }
    {
        let len = usize::from(self.token_len);
        &self.token[..len.min(8)]
    }

    /// Returns the request as one that was found at this place.
    pub(crate) fn found_at(&self, place: usize) -> Found
        requires { IsPending self.now }
        ensures place { result.place ≡ place }
        ensures number { (asked_at self.now).number ≡ number_of result.number }
        ensures wait { (asked_at self.now).wait ≡ result.wait }
    {
        let Some(number) = Piv::new(self.number) else {
            unreachable!();
        };
        Found {
            place,
            number,
            wait: self.wait(),
        }
    }

    /// Returns whether the request is still pending at this time, as that of a `Client` is.
    pub(crate) fn is_alive(&self, clock: u64, life_ms: u64) -> bool
        ensures { result ≡ alive_still clock life_ms (asked_at self.now) }
    {
        self.wait().first_place() > 0 || clock.saturating_sub(self.moment) <= life_ms
    }

    /// Returns the bytes of the same request, which waits for this.
    pub(crate) fn waiting_for(&self, wait: Wait) -> PendingHandle
        ensures made { asked_at result ≡ record (asked_at self.now) { wait = wait } }
        ensures whole { IsPending self.now → IsPending result }
    {
        let (observes, from) = bytes_of(wait);
        PendingHandle {
            observes,
            from,
            ..*self
        }
    }
}
