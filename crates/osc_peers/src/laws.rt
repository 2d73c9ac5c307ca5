//! What holds of devices that ask and answer under one security context (RFC 8613, 3.1, 5.2, 5.4 and 7.2.1). These functions exist only
//! for their contracts.

ghost use Rattle.osc_peers.specs.Examples.{OneSourceIsNeeded, PeerPremisesCanBeMet};
ghost use Rattle.osc_peers.specs.Peers.{HonestPeers, TwoPeers};
ghost use Rattle.osc_peers.specs.Roles.{RolesApart};
ghost use Rattle.osc_peers.specs.Rows.{RowsAsBefore};
ghost use Rattle.osc_peers.specs.Sender.{OneSender};
ghost use Rattle.osc_peers.specs.Turns.{OneSourceInTurn};

use osc_coap::one_datagram;
use osc_context::{one_additional_data, one_nonce, one_option_value};
use osc_kept::both_ends;
use osc_laws::ticket_once;
use osc_protect::{one_cipher_input, one_notification, sealed_opens};

/// States that no two texts sealed under one Sender Key have one nonce, whatever their roles, their contexts and their lives. For that,
/// all Sender Sequence Numbers have to come from one source (`IsKept`): each is the number in hand, at most one is in hand, and no life of
/// an end begins below the floor. And the nonce of each request is used at most once, as a server does that delivers each request once.
pub fn one_sender()
    ensures { OneSender }
{
    one_nonce();
}

/// States that ends which have one source of numbers in turn use no number twice: what they do could be done with one source that never
/// moves, and each number is above all that were used before. Each end does what its own numbers allow, and the one that takes the source has
/// the numbers of the one that had it, as `KeptPeer::release` and `KeptPeer::adopt` ensure. All begins with nothing drawn.
pub fn one_source_in_turn()
    ensures { OneSourceInTurn }
{}

/// States that in a context that a device uses in both roles, the cipher never takes one input for a request of the device and for a
/// response that it gives, even if they share key and nonce: the additional data differ. So no text of one role opens in the other. The
/// context is one that can be used (`usable_contexts`), and the numbers are below 2^40.
pub fn roles_apart()
    ensures { RolesApart }
{
    one_additional_data();
}

/// States what holds of two devices that both ask and answer under one context, over all that happens at both and between them: each of
/// the two exchanges is as `both_ends` says, and no device seals twice under one nonce, in whatever roles. The list has to meet the
/// premises (`ArePeers`): in each exchange both ends answer by their tables, what opens was sealed by the other device in that exchange,
/// Echo values are new, and a server starts fresh only while nothing was delivered; and each device takes the numbers of both its roles
/// from one source (`SourcesAreKept`). Where an end comes to a number that the other role of its device has used, it passes over it
/// (`Client::skip`, `Server::skip`).
pub fn two_peers()
    ensures { TwoPeers }
{
    both_ends();
    one_datagram();
    ticket_once();
    one_cipher_input();
    one_option_value();
    one_nonce();
}

/// States the same where it is only known that what opens at a device was sealed by the other one, in either role (`AreHonestPeers`): a
/// device's requests and its responses have one key, which doesn't tell the roles apart. The other premises stay.
pub fn honest_peers()
    ensures { HonestPeers }
{
    two_peers();
    roles_apart();
    one_datagram();
    ticket_once();
    one_cipher_input();
    one_option_value();
    one_nonce();
}

/// States that the premises of both these laws can be met. Two devices each ask and answer with numbers of their own, and pass over those
/// that their other role has used; both are restarted in both roles, and one then delivers through a challenge. That meets all premises,
/// over any datagrams that the ends answer in this way.
pub fn peer_premises_can_be_met()
    ensures { PeerPremisesCanBeMet }
{
    one_datagram();
    sealed_opens();
    one_notification();
}

/// States that one source of numbers is needed. Where each end of a device has one of its own, each exchange by itself can meet all
/// premises of `both_ends`, with kept numbers, and the device seals a request and a response under one nonce.
pub fn one_source_is_needed()
    ensures { OneSourceIsNeeded }
{
    one_datagram();
    sealed_opens();
    one_notification();
}

/// States that an end of a device whose other role has used no number answers by exactly the rows by which it answers without another role:
/// each life of a server that passed over no number, and each client that did. So a `KeptPeer` whose client never asked answers requests
/// as a server without a client, and one whose server never took a number asks as a client without a server.
pub fn rows_as_before()
    ensures { RowsAsBefore }
{}
