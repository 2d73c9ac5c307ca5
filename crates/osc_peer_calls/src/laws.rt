//! What holds of devices that both ask and answer, and make their Echo values of their Sender Sequence Numbers. These functions exist only
//! for their contracts.

ghost use Rattle.osc_peer_calls.specs.Counting.{PeersAreAlike, PeersAreFresh, PeersByNumbers, PeersObeyOnce};
ghost use Rattle.osc_peer_calls.specs.GoingOn.{AnswersInList, AsksInList, StartsInList};
ghost use Rattle.osc_peer_calls.specs.Hearing.{StaysHeard};

use osc_kept::echo_by_numbers;
use osc_obeyed::{fresh_on_demand, one_command};
use osc_peers::two_peers;

/// States that two devices need no random source (RFC 9175, A, method 3): if both make their Echo values of their numbers, in challenges and
/// in replies, no notification has one, and requests carry only Echo values that were heard (`AreCounted`), then no value comes again, and
/// all is as `two_peers` says.
pub fn peers_by_numbers()
    ensures { PeersByNumbers }
{
    two_peers();
    echo_by_numbers();
}

/// States that such a device delivers no request that is older than the challenge whose Echo value it carries, and obeys a command at most
/// once, over all lives of both devices, if the other device seals it anew only where it heard that it wasn't obeyed (RFC 8613, 7.3 and 7.4;
/// RFC 9175, 2.3).
pub fn peers_are_fresh()
    ensures since { PeersAreFresh }
    ensures once { PeersObeyOnce }
{
    echo_by_numbers();
    fresh_on_demand();
    one_command();
}

/// States that the premises are the same for both devices: the list as the far device sees it meets them too. So what is said of the near
/// device's calls is said of the far device's as well.
pub fn peers_are_alike()
    ensures { PeersAreAlike }
{}

/// States that what one device does, in either role, and each of its starts, extends a list that meets the premises to one that does so too,
/// if others do their part (`ServerTrusts`, `ClientTrusts`); so all of it is as `two_peers` says.
pub fn peer_calls_in_list()
    ensures server { AnswersInList }
    ensures client { AsksInList }
    ensures starts { StartsInList }
{
    peers_by_numbers();
}

/// States that an Echo value which a device heard stays heard, whatever happens then at both devices. So what `HeardEcho` remembers may be
/// sealed by a later call, and by a later life (RFC 9175, 2.3).
pub fn heard_stays()
    ensures { StaysHeard }
{}
