//! What holds of both ends of a security context over all their lives (RFC 8613, 5.2, 7.2.1, 7.4 and 8.4), and how the calls of the
//! kept ends add to a list of what happens at both ends. These functions exist only for their contracts.

ghost use Rattle.osc_kept.specs.Among.{EachContext, StaysLike};
ghost use Rattle.osc_kept.specs.Claims.{TwoEnds};
ghost use Rattle.osc_kept.specs.EchoNumbers.{CountedGoesOn, EchoByNumbers, NumberIsUnseen};
ghost use Rattle.osc_kept.specs.Examples.{NoneCanBeLeftOut, ObservationCanBeMet, PremisesCanBeMet};
ghost use Rattle.osc_kept.specs.GoingOn.{ClientBegins, ClientGoesOn, FreshBySaving, ServerBegins, ServerGoesOn};
ghost use Rattle.osc_kept.specs.InWorld.{ClientInWorld, ClientStartsInWorld, ServerInWorld, ServerStartsInWorld};
ghost use Rattle.osc_kept.specs.KeptPlainness.{KeptEndsArePlain};
ghost use Rattle.osc_kept.specs.Premises.{KeptBeginAbove};
ghost use Rattle.osc_kept.specs.Receiving.{ReceivedBySaving};
ghost use Rattle.osc_kept.specs.RunsInWorld.{ClientRunInWorld, ServerRunInWorld};

use osc_coap::one_datagram;
use osc_context::{Keeper, one_nonce, one_option_value};
use osc_laws::{contexts_stand_alone, ends_are_plain, ticket_once};
use osc_protect::{one_cipher_input, one_notification, sealed_opens};

/// States what holds for each list of what happens at both ends and between them, including restarts and lost memory of either end. A
/// request is delivered at most once, and the client sealed it. A response is delivered for the very request that it answers, and the
/// server sealed it for that request. Each response is delivered at most once, and those to one request in the order in which they were
/// sealed. A notification is delivered for a request that registers an observation. A request that registers nothing has at most one
/// response, and behind the last response to a request nothing is delivered for it. What opens a restarted life of the server was sealed at
/// most 30,000 ms before, by the server's clock; of a life that starts with numbers in doubt (`Start::Reserved`) that holds of a request
/// whose number isn't above them. No end seals twice under one nonce. The list has to meet the premises (`IsLawful`): both ends answer by
/// their tables, nobody else makes texts that open, Echo values are new, each life of an end begins above all numbers with which it sealed
/// before, and a server starts fresh only while nothing was delivered, or above all that was.
pub fn both_ends()
    ensures { TwoEnds }
{
    one_datagram();
    ticket_once();
    one_cipher_input();
    one_option_value();
    one_nonce();
}

/// States that Echo values needn't be drawn at random (RFC 9175, A, method 3). If a challenge that gives a new value makes it of the Sender
/// Sequence Number with which it is sealed (`KeptServer::take_counted`), so does a reply that has one, no notification has one, and requests
/// carry only Echo values that the client heard, then each new value is one that no request carries, and all is as `both_ends` says.
/// `unseen` says it of the server's next number. `goes_on` says that a server that counts so keeps to it.
pub fn echo_by_numbers()
    ensures ends { EchoByNumbers }
    ensures unseen { NumberIsUnseen }
    ensures goes_on { CountedGoesOn }
{
    both_ends();
}

/// States the same of each context of a server of many, and of its client (`IsLawfulAmong`). What happens to the context is its share of
/// what happens to that server, whose replies take tickets that its deliveries gave. A context may be added at any time; its clock is then
/// set to the server's.
pub fn each_context()
    ensures { EachContext }
{
    contexts_stand_alone();
    both_ends();
}

/// States that the share of a context that is added to a server of many is like the history of a server that has the context alone, once
/// the clock of that is set, and stays so by whatever happens: `each_context` asks for that.
pub fn shares_stay_like()
    ensures { StaysLike }
{
    contexts_stand_alone();
}

/// States what both ends of a context that takes no part in Observe do, over all their lives: no ticket observes, nothing is notified,
/// a reply has a Partial IV of its own exactly if one is asked for, each request waits for one response, and no response is old or a
/// notification. Of the premises this takes one alone: both ends answer by their tables (`Answers`).
pub fn kept_ends_are_plain()
    ensures { KeptEndsArePlain }
{
    ends_are_plain();
}

/// States that a call of a kept end adds zero or one draw to such a list, and then its event, and that the numbers stay kept (RFC
/// 8613, B.1.1).
pub fn kept_ends_go_on()
    ensures server { ServerGoesOn }
    ensures client { ClientGoesOn }
{}

/// States that the start of a kept end adds to such a list too, and that the numbers stay kept if its keeper loads no number below
/// the floor; and that each life then begins above all numbers with which its end sealed before (RFC 8613, B.1.1 and B.1.2).
pub fn kept_ends_begin()
    ensures server { ServerBegins }
    ensures client { ClientBegins }
    ensures above { KeptBeginAbove }
{}

/// States that a server that starts fresh only at 0, and for which a number is saved before it takes a datagram in a life that may deliver
/// without a challenge, starts fresh only while nothing was delivered (RFC 8613, B.1.1 and B.1.2).
pub fn fresh_by_saving()
    ensures { FreshBySaving }
{}

/// States that a server whose numbers of received requests are kept starts fresh only while nothing was delivered, and open, or with numbers
/// in doubt, only above all that was, if a greater number is kept before each delivery reaches the application, and each start is by what
/// is kept. That is the premise of `both_ends` on starts: so no request is delivered in two lives, and from the life after its first
/// delivery on the server needs no challenge, but for a number that is in doubt (RFC 8613, 7.4, 7.5 and B.1.2).
pub fn received_by_saving()
    ensures { ReceivedBySaving }
{}

/// States that the premises can be met. An exchange, a restart of both ends, and a challenge with a delivery through it meet them
/// all, over any datagrams that both ends answer in this way. So does an observation: a registration, three notifications of which
/// one is lost, one heard and one so late that it is old, and a last response.
pub fn premises_can_be_met()
    ensures plain { PremisesCanBeMet }
    ensures registering { ObservationCanBeMet }
{
    one_datagram();
    sealed_opens();
    one_notification();
}

/// States that four of the premises are needed. With forged requests alone, with an Echo value that a request carried before, with
/// numbers out of order (of the client, each used once, or of both ends), or with a server that starts fresh again, what `both_ends`
/// says fails of a list that meets all the others.
pub fn premises_are_needed()
    ensures { NoneCanBeLeftOut }
{
    one_datagram();
    sealed_opens();
    one_notification();
}

/// States that each answer and each start of a kept end adds to a list that meets the premises, with kept numbers (`IsKept`). If others do
/// their part (`ServerTrusts`, `ClientTrusts`), the longer list does so too, and all of it is as `both_ends` says.
pub fn kept_ends_in_world()
    ensures server { ServerInWorld }
    ensures client { ClientInWorld }
    ensures server_starts { ServerStartsInWorld }
    ensures client_starts { ClientStartsInWorld }
{
    both_ends();
}

/// States that each run of a kept end does so too, over any keeper, if others do their part in it (`ServerRunTrusts`,
/// `ClientRunTrusts`). They needn't see to it that a reply takes a ticket that is left: a run takes only the tickets that its own
/// deliveries gave.
pub fn kept_runs_in_world<K: Keeper>()
    ensures server { ServerRunInWorld K.Keeper }
    ensures client { ClientRunInWorld K.Keeper }
{
    both_ends();
}
