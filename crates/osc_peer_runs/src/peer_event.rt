//! What happens in a run to a peer, and what comes of it.

use osc_endpoint::{Answering, ClientEntry, Notifying, ReplyError, SealedResponse, ServerEntry};
use osc_fresh::Followed;

/// A datagram that may be a request. It arrives at `now`, in milliseconds, with the Message ID of a reply that isn't an ACK, and room for
/// the reply. The peer makes the Echo value of a challenge itself, of the number with which it seals next.
#[derive(Drop)]
pub struct PeerArrival {
    pub now: u64,
    pub mid: u16,
    pub bytes: Vec<u8>,
    pub out: [u8; 64],
}

/// A challenge in place of a reply to the request of the event at `of`, whose command isn't obeyed: `mid` is the Message ID of a challenge to a
/// NON, and `out` is room for it.
#[derive(Drop)]
pub struct Challenging {
    pub of: usize,
    pub mid: u16,
    pub out: Vec<u8>,
}

/// One event of a peer's run.
#[derive(Drop)]
pub enum PeerEvent {
    /// A datagram arrives that may be a request.
    Datagram(PeerArrival),
    /// A datagram arrives that may be a request, of which none is delivered that isn't known to be at most `fresh_ms` milliseconds old: it is
    /// challenged in place of that (RFC 8613, 7.3).
    Fresh {
        fresh_ms: u64,
        arrival: PeerArrival,
    },
    /// The application answers a request.
    Reply(Answering),
    /// The application challenges a request that it doesn't obey, in place of a reply.
    Challenge(Challenging),
    /// The application notifies a request that registers an observation.
    Notify(Notifying),
    /// The application drops the ticket of the event at an index: an observation is over.
    Drop {
        of: usize,
    },
    /// The application makes a request at `now`, in milliseconds. `plain` is the plain message, and `out` is room for the request.
    Request {
        now: u64,
        plain: Vec<u8>,
        out: Vec<u8>,
    },
    /// The application makes a request at `now`, in milliseconds, with the Echo value that was heard last, if one was (RFC 9175, 2.3). `plain`
    /// is the plain message without that, `room` is room for it with that, and `out` is room for the request.
    Echo {
        now: u64,
        plain: Vec<u8>,
        room: Vec<u8>,
        out: Vec<u8>,
    },
    /// A datagram arrives at `now`, in milliseconds, that may be a response.
    Response {
        now: u64,
        bytes: Vec<u8>,
    },
    /// A datagram arrives at `now`, in milliseconds, that may be a response. A challenge is told from every other response (RFC 9175, 2.3).
    Follow {
        now: u64,
        bytes: Vec<u8>,
    },
    /// The application stops waiting for the response to the request with this token.
    Forget {
        token: Vec<u8>,
    },
    /// The clocks of both roles move to `now`, in milliseconds, if that is later.
    Advance {
        now: u64,
    },
}

/// The result of one event of a peer's run.
#[derive(Debug, Drop)]
pub enum PeerEntry<'a> {
    /// What became of a datagram, a reply, a challenge, a notification or a ticket to drop, as in a server's run. KeeperFailed is possible too.
    Served(ServerEntry<'a>),
    /// A request was new, and isn't known to be fresh. It isn't delivered: this is the challenge, or why none could be sealed.
    Challenged(Result<SealedResponse<'a>, ReplyError>),
    /// What became of a request, a response or a forgotten token, as in a client's run. KeeperFailed is possible too.
    Asked(ClientEntry<'a>),
    /// There is no room for a request's plain message with the Echo value that was heard last. Nothing was asked for.
    NoRoomForEcho,
    /// What became of a datagram at a client that follows challenges.
    Followed(Followed<'a>),
    /// The clocks were moved.
    Advanced,
}
