//! What a run remembers of Echo values (RFC 9175, 2.3).

ghost use Rattle.std.specs.Prelude.{◌≡◌};
ghost use Rattle.osc_peer_runs.specs.PeerRuns.{no_echoes};

use osc_fresh::{HeardEcho, Wishes};

/// The last challenge of the server that asked for a fresh request, and the Echo value that the client heard last.
#[derive(Drop)]
pub struct EchoMemory {
    pub(crate) wishes: Wishes,
    pub(crate) heard: HeardEcho,
}

impl EchoMemory {
    ghost use Rattle.osc_peer_runs.specs.PeerCalls.{echoes_of};

    /// Nothing was asked for or heard yet.
    pub fn new() -> EchoMemory
        ensures { echoes_of result ≡ no_echoes }
    {
        EchoMemory {
            wishes: Wishes::new(0),
            heard: HeardEcho::new(),
        }
    }
}
