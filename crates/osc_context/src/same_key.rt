//! Contexts that seal under one key (RFC 8613, 3.1).

ghost use Rattle.std.specs.Prelude.{◌≡◌, ◌↔◌, IsTrue};
ghost use Rattle.osc_context.specs.Senders.{HaveSameSender};
ghost use Rattle.osc_context.specs.Views.{as_server};

use crate::context::Context;
use osc_ccm::Key;

/// Returns whether two keys are equal. It gathers the differences of all bytes, and tests them once.
#[must_use]
pub fn is_same_key(key: &Key, other: &Key) -> bool
    ensures { IsTrue result ↔ (key.now ≡ other.now) }
{
    let mut differences = 0;
    for k in 0..key.len() {
        differences |= key[k] ^ other[k];
    }
    differences == 0
}

impl Context {
    /// Returns whether both contexts have the same Sender Key, whatever else they have.
    #[must_use]
    pub fn has_sender_of(&self, other: &Context) -> bool
        ensures { IsTrue result ↔ HaveSameSender (as_server self.now) (as_server other.now) }
    {
        is_same_key(self.sender_key(), other.sender_key())
    }
}
