//! What holds of a peer in bytes, with no premise on its tickets. A call does nothing: its contract is there for the proof of its caller.

ghost use Rattle.osc_peer_handle.specs.PeerLaws.{PeerAnswersApart, PeerAnswersOnce, PeerNumbersRise, PeerRequestsApart, PeersArePlain};

use osc_laws::{answered_once, ends_are_plain, nonces_once, own_numbers_once};

/// States that each request is answered at most once as long as it doesn't lie far back, and that no two texts that a peer seals to answer in
/// one life share a nonce, even if its tickets are copied or altered (RFC 8613, 5.2 and 8.3).
pub fn peer_answers_once()
    ensures once { PeerAnswersOnce }
    ensures nonces { PeerAnswersApart }
{
    answered_once();
}

/// States that no two requests that a peer seals in one life share a nonce, and that their numbers rise; they are consecutive where none was
/// passed over, as those that it answers with are (RFC 8613, 5.2 and 7.2.1).
pub fn peer_requests_once()
    ensures nonces { PeerRequestsApart }
    ensures client { PeerNumbersRise }
{
    nonces_once();
    own_numbers_once();
}

/// States what a peer does whose context takes no part in Observe, whatever its history is: no ticket observes, nothing is notified, a reply
/// has a Partial IV of its own exactly if one is asked for, each request waits for one response, and no response is old or a notification
/// (RFC 8613, 4.1.3.5).
pub fn peers_are_plain()
    ensures { PeersArePlain }
{
    ends_are_plain();
}
