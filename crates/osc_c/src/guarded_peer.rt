//! A peer as C has it.

use osc_peer_handle::PeerHandle;

/// A peer, and behind it the word by which C's header sees that a call of the peer runs. No call of the library reads or writes the word.
#[repr(C)]
#[derive(Clone, Copy)]
pub struct GuardedPeer {
    pub inside: PeerHandle,
    pub busy: u32,
}
