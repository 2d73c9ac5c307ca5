//! What holds for every history of a server, or of a client, whose entries are all its answers. Calling one of these functions does
//! nothing: its contract is there for the proof of its caller.

ghost use Rattle.osc_laws.specs.Arriving.{WhatIsSealedArrives};
ghost use Rattle.osc_laws.specs.ClientLaws.{ClientNoncesOnce, OneClientAnswer, RequestNumbersOnce};
ghost use Rattle.osc_laws.specs.Exchange.{ExchangeInTime, HonestExchange};
ghost use Rattle.osc_laws.specs.ExchangeRuns.{RunsAreHonest};
ghost use Rattle.osc_laws.specs.Laws.{DeliveredOnce, OneServerAnswer, OwnNumbersOnce, ServerNoncesOnce, TicketOnce};
ghost use Rattle.osc_laws.specs.OneContext.{ContextsStandAlone};
ghost use Rattle.osc_laws.specs.Plainness.{EndsArePlain};
ghost use Rattle.osc_laws.specs.Senders.{ServerKeysOrNoncesOnce, WaitingKeysOrNoncesOnce};
ghost use Rattle.osc_laws.specs.Waiting.{AnsweredOnce, WaitingHasLife, WaitingNoncesOnce};

use crate::headlines::{client_rows, server_headline, server_rows};
use osc_coap::{one_datagram, one_text};
use osc_context::{one_nonce, one_option_value};
use osc_protect::{
    one_head, one_notification, one_request, one_response, one_sealed, protections_show_heads,
    sealed_opens,
};

/// States that an event has at most one answer after each history of answers: the rows of the table don't overlap, and each row fixes its
/// bytes (RFC 8613, 8.2 and 8.3).
pub fn one_server_answer()
    ensures { OneServerAnswer }
{
    one_datagram();
    one_text();
    one_head();
    one_request();
    one_sealed();
}

/// States the same for a client: the rows of its table don't overlap, and each row fixes its bytes (RFC 8613, 8.1 and 8.4).
pub fn one_client_answer()
    ensures { OneClientAnswer }
{
    one_datagram();
    one_head();
    one_response();
    one_notification();
    one_sealed();
    protections_show_heads();
}

/// States that no number is delivered twice in one life of a context (RFC 8613, 7.4).
pub fn delivered_once()
    ensures { DeliveredOnce }
{}

/// States that the Sender Sequence Numbers of a life rise, so that none is used twice, and that they are consecutive where none was passed
/// over. The same holds for those of a client's requests between two restarts (RFC 8613, 7.2.1).
pub fn own_numbers_once()
    ensures server { OwnNumbersOnce }
    ensures client { RequestNumbersOnce }
{
    protections_show_heads();
}

/// States that a ticket gives at most one reply: no two replies are to one number in one life of one context, and no ticket is left of a
/// number that has its reply (RFC 8613, 8.3). Each accepted reply has to take a ticket that a delivery gave and that no earlier reply
/// took, as it does in a run. Notifications aren't counted.
pub fn ticket_once()
    ensures { TicketOnce }
{
    delivered_once();
}

/// States that no two texts that a server seals in one life under one context share a nonce (RFC 8613, 5.2), under the condition of
/// [`ticket_once`]. No two requests that a client seals between two restarts share a nonce either.
pub fn nonces_once()
    ensures server { ServerNoncesOnce }
    ensures client { ClientNoncesOnce }
{
    delivered_once();
    one_nonce();
    one_option_value();
    protections_show_heads();
}

/// States what holds even if tickets may be copied or altered, as long as each accepted reply is due: its request waits for the answer, or
/// lies far back, and the reply has a Partial IV of its own. Each request that doesn't lie far back is answered at most once,
/// notifications aside, and no two texts that a server seals in one life under one context share a nonce (RFC 8613, 5.2 and 8.3).
pub fn answered_once()
    ensures once { AnsweredOnce }
    ensures nonces { WaitingNoncesOnce }
    ensures life { WaitingHasLife }
{
    one_nonce();
    one_option_value();
    protections_show_heads();
}

/// States that no two texts that a server seals share both key and nonce, under whichever of its contexts, except texts of two lives of one
/// context. This holds if no two of its contexts have the same Sender Key, nor one that came later and one that was replaced before (RFC
/// 8613, 3.3 and 5.2), under the condition of [`ticket_once`] or of [`answered_once`].
pub fn keys_or_nonces_once()
    ensures server { ServerKeysOrNoncesOnce }
    ensures nonces { WaitingKeysOrNoncesOnce }
{
    nonces_once();
    answered_once();
    protections_show_heads();
}

/// States what both ends do whose contexts take no part in Observe: no ticket observes, nothing is notified, each request waits for one
/// response, and none is old (RFC 8613, 4.1.3.5).
pub fn ends_are_plain()
    ensures { EndsArePlain }
{}

/// States that what one end seals the other end delivers: a request whose number or Echo value is admitted, the response to a pending
/// request, and an awaited notification to a pending registration (RFC 8613, 8.2, 8.4 and 8.4.2).
pub fn what_is_sealed_arrives()
    ensures { WhatIsSealedArrives }
{
    sealed_opens();
    protections_show_heads();
}

/// States what becomes of the requests, replies and notifications of two applications over a network that loses, delays, swaps and repeats
/// their datagrams, and brings others, from a client and a server on that are in step. A request that the network brings is delivered, as
/// it was said, if and only if its number is new or, after a restart of the server, it carries the value of the challenge in force; else a
/// restarted server challenges it. Where some numbers are in doubt after the restart, one below them is a replay, and one above them is
/// delivered without a value. A reply or a notification that the network brings is heard, as it was said, if and only if the client still
/// waits for it. A new client and a context that is added fresh are in step, and both ends stay so. The logs of `run_client` and
/// `run_server` are such an exchange, and show what arrived (RFC 8613, 7.4, 8.1 to 8.4 and B.1.2).
pub fn honest_exchange()
    ensures exchange { HonestExchange }
    ensures in_time { ExchangeInTime }
    ensures runs { RunsAreHonest }
{
    what_is_sealed_arrives();
    server_rows();
    client_rows();
    server_headline();
    sealed_opens();
    protections_show_heads();
    one_request();
    one_datagram();
}

/// States that each context of a server is answered as if it were alone under the server's clock: what happens to the others leaves its
/// life and its answers as they are, but for the moment that each datagram sets.
pub fn contexts_stand_alone()
    ensures { ContextsStandAlone }
{}
