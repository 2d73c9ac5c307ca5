//! What outlives a peer, as bytes.

ghost use Rattle.std.specs.Prelude.{◌≡◌, true, false};
ghost use Rattle.osc_peer_handle.specs.RecordBytes.{IsRecordOf};

use crate::name::name_of;
use osc_context_handle::ContextHandle;

/// No number is this large (RFC 8613, 7.2.1).
const NUMBER_LIMIT: u64 = 1 << 40;

/// The two numbers of a peer, the name of its context, and how often they were saved. It has no key. Save it durably, in the place of the one
/// before.
#[repr(C)]
#[derive(Clone, Copy, Debug, PartialEq, Eq)]
pub struct RecordHandle {
    /// The name of the context, as `name_of` makes it.
    pub name: u64,
    /// One more with each save. A store refuses a record that isn't behind the one that it has.
    pub generation: u64,
    /// The first Sender Sequence Number that isn't reserved.
    pub sender: u64,
    /// The received number: each request that was delivered has a lower one.
    pub received: u64,
}

impl RecordHandle {
    /// Returns whether a call over a peer of this context may have written the record.
    #[must_use]
    pub fn is_of(&self, context: &ContextHandle) -> bool
        ensures yes { result ≡ true → IsRecordOf context.now self.now }
        ensures no { result ≡ false → IsRecordOf context.now self.now → ⊥ }
    {
        self.name == name_of(context)
            && self.generation > 0
            && self.generation < u64::MAX
            && self.sender <= NUMBER_LIMIT
            && self.received <= NUMBER_LIMIT
    }
}
