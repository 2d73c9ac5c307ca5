//! What a node is made of.

use osc_context::RecordKeeper;
use osc_kept_ends::KeptPeer;
use osc_message::Messages;

/// An end of one context that asks and answers, behind a message layer with places for N messages on their way and M that came. What no call of a
/// node does, as forgetting a request, waking up, or sending again what is due, its two parts do: `peer` and `layer`.
#[derive(Drop)]
pub struct Node<R: RecordKeeper, const N: usize, const M: usize> {
    pub peer: KeptPeer<R, N>,
    pub layer: Messages<N, M>,
}
