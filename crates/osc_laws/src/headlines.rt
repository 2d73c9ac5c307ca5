//! What all answers of a server, or of a client, amount to: one statement each, over all histories and all runs. Calling one of these
//! functions does nothing: its contract is there for the proof of its caller.

ghost use Rattle.osc_laws.specs.ClientHeadline.{ClientHeadline, ClientRowsExclude};
ghost use Rattle.osc_laws.specs.Headline.{ServerHeadline, ServerRowsExclude};

use crate::laws::{one_client_answer, one_server_answer};
use osc_coap::{one_datagram, one_text};
use osc_protect::{
    one_head, one_notification, one_reading, one_request, one_response, one_sealed,
    protections_show_heads,
};

/// States that the conditions of a server's rows exclude each other. A row's condition holds if and only if that row is the answer, and the
/// answer is a delivery if and only if the datagram is to be delivered (RFC 8613, 8.2). Each other event has at most one entry.
pub fn server_rows()
    ensures { ServerRowsExclude }
{
    one_server_answer();
    one_datagram();
    one_head();
    one_reading();
    one_request();
    one_sealed();
    one_text();
}

/// States the same for a client (RFC 8613, 8.1 and 8.4).
pub fn client_rows()
    ensures { ClientRowsExclude }
{
    one_client_answer();
    one_datagram();
    one_head();
    one_response();
    one_notification();
    protections_show_heads();
}

/// States the headline, for every list of events after every history of answers, as `Server::new` and each call leave it. An entry of
/// the log is a delivery of a message under a context and a number if and only if the datagram protects that message under both, and the
/// entries before admit it. Every other entry's condition holds, and no condition of another row does (RFC 8613, 8.2 and 8.3).
pub fn server_headline()
    ensures { ServerHeadline }
{
    server_rows();
}

/// States the headline of a client, for every list of events after every history of answers. An entry is a delivery if and only if the
/// datagram protects that message for the request that is pending under its token. Every other entry's condition holds, and no condition of
/// another row does (RFC 8613, 8.1 and 8.4).
pub fn client_headline()
    ensures { ClientHeadline }
{
    client_rows();
}
