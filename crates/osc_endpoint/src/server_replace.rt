//! Another security context in the place of one of a server's, as when keys are made anew (RFC 8613, 3.3).

ghost use Rattle.std.specs.Prelude.{◌≡◌, ℕ, IsOk, Option, OnErr, true, false};
ghost use Rattle.osc_context.specs.Views.{as_server};
ghost use Rattle.osc_endpoint.specs.Agrees.{OneEachIn, TableAgrees};
ghost use Rattle.osc_endpoint.specs.Restarting.{HasLifeLeftAt, lives_with};
ghost use Rattle.osc_endpoint.specs.ServerAnswer.{IsTakenBeside, ReplaceAnswer};
ghost use Rattle.osc_life.specs.Life.{Life};
ghost use Rattle.osc_life.specs.Views.{replaced_entry};

use crate::server::ServerOf;
use crate::table::{find_same, has_sender_at};
use osc_context::Context;
use osc_life::siblings::{Slot, check_place, replace_place};
use osc_life::{ReplaceError, Start};
use osc_protect::KeyedContext;
use osc_window::WindowSize;

/// Returns whether requests for this context would also name another one than that at an index.
fn is_taken_beside(slots: &[Option<Slot>], index: usize, context: &Context) -> bool
    ensures yes { result ≡ true → (lives : ℕ → Option Life) → TableAgrees slots.now lives → IsTakenBeside lives index (as_server context.now) }
    ensures no { result ≡ false → (lives : ℕ → Option Life) → TableAgrees slots.now lives → OneEachIn lives
        → IsTakenBeside lives index (as_server context.now) → ⊥ }
{
    match find_same(slots, context) {
        Some(found) => found != index,
        None => false,
    }
}

/// Returns why this context can't take the place of the one at an index, if it can't.
fn check_at(slots: &[Option<Slot>], index: usize, context: &Context) -> Result<(), ReplaceError>
    ensures answer { (lives : ℕ → Option Life) → TableAgrees slots.now lives → OneEachIn lives
        → ReplaceAnswer lives index (as_server context.now) (replaced_entry result) }
    ensures left { IsOk result → HasLifeLeftAt slots.now index }
{
    if index >= slots.len() {
        return Err(ReplaceError::NoSuchContext);
    }
    if let Err(error) = check_place(&slots[index]) {
        return Err(error);
    }
    if is_taken_beside(slots, index, context) {
        return Err(ReplaceError::SameLookup);
    }
    if has_sender_at(slots, context) {
        return Err(ReplaceError::SameSender);
    }
    Ok(())
}

/// Puts a context in the place of the one at an index.
fn put_at(
    slots: &mut [Option<Slot>],
    index: usize,
    context: Context,
    start: Start,
    size: WindowSize,
)
    requires { HasLifeLeftAt slots.old index }
    ensures { (lives : ℕ → Option Life) → TableAgrees slots.old lives
        → TableAgrees slots.new (lives_with index (as_server context) start size lives) }
{
    replace_place(&mut slots[index], KeyedContext::new(context), start, size);
}

impl<const N: usize> ServerOf<N> {
    ghost use Rattle.osc_endpoint.specs.Agrees.{Agrees};
    ghost use Rattle.osc_endpoint.specs.ServerAnswer.{ServerAnswer};
    ghost use Rattle.osc_life.specs.ServerHistory.{History, Then, Replace, Replaced, life};

    /// Returns why this context can't take the place of the one at an index, if it can't: the first refusal in the order of `ReplaceError`.
    #[doc(hidden)]
    pub fn check_replace(&self, index: usize, context: &Context) -> Result<(), ReplaceError>
        ensures answered { (h : History) → Agrees self.now h → ReplaceAnswer (life h) index (as_server context.now) (replaced_entry result) }
        ensures left { IsOk result → HasLifeLeftAt self.now.slots.items index }
    {
        check_at(self.slots.as_slice(), index, context)
    }

    /// Puts a context in the place of the one at an index, for which `check_replace` found no refusal.
    #[doc(hidden)]
    pub fn replace_checked(
        &mut self,
        index: usize,
        context: Context,
        start: Start,
        size: WindowSize,
    )
        requires { HasLifeLeftAt self.old.slots.items index }
        ensures { (h : History) → Agrees self.old h → ReplaceAnswer (life h) index (as_server context) Replaced
            → Agrees self.new (Then h (Replace index (as_server context) start size) Replaced) }
    {
        put_at(self.slots.as_mut_slice(), index, context, start, size);
    }

    /// Puts a context in the place of the one at an index, as when both ends have made new keys. It has that index from then on, begins as
    /// one that is added, with a window and Sender Sequence Numbers of its own, and older tickets are stale. Returns the first refusal in
    /// the order of `ReplaceError`. A refusal drops the context and changes nothing. It looks at the contexts that are there: you must not
    /// bring back one that was there before (RFC 8613, 3.3).
    pub fn replace(
        &mut self,
        index: usize,
        context: Context,
        start: Start,
        size: WindowSize,
    ) -> Result<(), ReplaceError>
        ensures answered { (h : History) → Agrees self.old h
            → ServerAnswer h (Replace index (as_server context) start size) (replaced_entry result) }
        ensures follows { (h : History) → Agrees self.old h
            → Agrees self.new (Then h (Replace index (as_server context) start size) (replaced_entry result)) }
        ensures unchanged { OnErr result (self.new ≡ self.old) }
    {
        // For the proof alone.
        let (_sender, _recipient) = (context.sender().bytes(), context.recipient().bytes());
        self.check_replace(index, &context)?;
        self.replace_checked(index, context, start, size);
        Ok(())
    }
}
