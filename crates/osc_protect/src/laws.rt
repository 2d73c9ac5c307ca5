//! What holds for all datagrams. Calling one of these functions does nothing: its contract is there for the proof of its
//! caller.

ghost use Rattle.osc_protect.specs.CipherLaws.{OneRequestInput, OneResponseInput};
ghost use Rattle.osc_protect.specs.Laws.{LeavesOut, NamedNotificationRefusals, NamedRequestRefusals, NamedResponseRefusals, NamesOneClient, NotificationsShowHeads, OneNotification, OneNotificationReading, OneObserve, OneRequest, OneRequestHead, OneRequestReading, OneResponse, OneResponseHead, OneResponseReading, OneSealed, RequestsShowHeads, ResponsesShowHeads, SealedOpens};
ghost use Rattle.osc_protect.specs.Layers.{LayerLaws};

use osc_ccm::{one_plaintext, protection_length};
use osc_coap::{lengths_by_parts, one_datagram, one_inner, one_text};
use osc_context::{one_additional_data, one_nonce, one_option_value};

/// States what the layers below promise for all bytes.
pub(crate) fn layer_laws()
    ensures { LayerLaws }
{
    one_datagram();
    one_inner();
    one_option_value();
    one_plaintext();
    protection_length();
}

/// States that a datagram has at most one head of a request and at most one refusal of one, and never both. It states the same for a
/// response (RFC 8613, 8.2 and 8.4).
pub fn one_head()
    ensures request { OneRequestHead }
    ensures response { OneResponseHead }
{
    layer_laws();
}

/// States which options are left out: by a context without features Observe, Block1, Block2, Q-Block1 and Q-Block2, by one with blocks
/// Observe alone, and by one with Observe those of block-wise transfer. Without Observe, a sealed message has outside the options of class U
/// alone, and the code 0.02 or 2.04 (own rule; RFC 8613, 4.1.2 and 4.2).
pub fn options_left_out()
    ensures { LeavesOut }
{}

/// States that of the Observe options of a message the first one counts, if its value has at most 3 bytes: it alone stands outside, and in
/// a notification it has an empty value inside. Where none counts, the message is sealed as one without Observe (RFC 7252, 5.4.3 and 5.4.5;
/// RFC 7641, 2; RFC 8613, 4.1.3.5).
pub fn one_observe()
    ensures { OneObserve }
{}

/// States that two contexts that one request head names have the same client, and the same ID Context or both none (RFC 8613, 8.2).
pub fn one_client()
    ensures { NamesOneClient }
{}

/// States that a protected request or response, notification or not, has a head that says what the context says under the message's number.
/// If the datagram was sealed, this head has the Type, Message ID and token of the plain message (RFC 8613, 8.1 and 8.3).
pub fn protections_show_heads()
    ensures request { RequestsShowHeads }
    ensures response { ResponsesShowHeads }
    ensures notification { NotificationsShowHeads }
{
    layer_laws();
}

/// States that a datagram whose head names the context is refused, if at all, for its tag or for its plaintext (RFC 8613, 8.2 and 8.4).
pub fn named_refusals()
    ensures request { NamedRequestRefusals }
    ensures response { NamedResponseRefusals }
    ensures notification { NamedNotificationRefusals }
{
    one_head();
}

/// States that a datagram protects at most one request under one number, or has at most one refusal, never both (RFC 8613, 8.2).
pub fn one_request()
    ensures { OneRequest }
{
    layer_laws();
}

/// States that a datagram protects at most one response to a request, under one Partial IV or none, or has at most one refusal,
/// never both (RFC 8613, 8.4).
pub fn one_response()
    ensures { OneResponse }
{
    layer_laws();
}

/// States the same of the responses to a request that registers an observation: a datagram protects at most one of them, under one
/// Partial IV of its own or none, or has at most one refusal, never both (RFC 8613, 8.4).
pub fn one_notification()
    ensures { OneNotification }
{
    layer_laws();
}

/// States that everyone who reads a datagram reads the same. If its head names one context and it protects a message under another, both
/// contexts say the same in the OSCORE option. A datagram that opens has one head, one number, one pair of Uri-Host and Uri-Port, and one
/// message (RFC 8613, 8.2 and 8.4).
pub fn one_reading()
    ensures request { OneRequestReading }
    ensures response { OneResponseReading }
    ensures notification { OneNotificationReading }
{
    layer_laws();
}

/// States that what one end seals, a request or a response to it, opens at the other end as the plain message's code, inner options and
/// payload, and as no other message. Of a response to a request that registers an observation, the Observe option opens empty (RFC 8613,
/// 4.1.3.5.2 and 8.1 to 8.4).
pub fn sealed_opens()
    ensures { SealedOpens }
{
    one_request();
    one_response();
    one_notification();
}

/// States that a plain request has at most one sealed form under one number and at most one refusal, and never both if there is room for
/// that form. It states the same for a plain response, notification or not (RFC 8613, 8.1 and 8.3).
pub fn one_sealed()
    ensures { OneSealed }
{
    one_option_value();
    one_plaintext();
    one_text();
    lengths_by_parts();
    protection_length();
}

/// States what the input of a message's cipher fixes: the key, the nonce and the additional data, which the cipher takes besides the
/// plaintext. In a usable context this input belongs to one request number, and for a response also to one Partial IV or none.
/// There, the nonce of a response's own Partial IV is never the nonce of a request. In all contexts and datagrams, one payload protects one
/// message under the same input (RFC 8613, 5 and 5.2).
pub fn one_cipher_input()
    ensures request { OneRequestInput }
    ensures response { OneResponseInput }
{
    layer_laws();
    one_nonce();
    one_additional_data();
}
