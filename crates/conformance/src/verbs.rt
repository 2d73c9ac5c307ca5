//! The verbs: one for each public call, layer by layer.

use crate::answer::Answer;
use crate::fields::{Fields, NamedContext};
use crate::protection::Asked;
use crate::{
    blocks, ciphers, context, freshening, numbers, peer_bytes, protection, proxying, reading,
    window, writing,
};
use osc_protect::KeyedContext;

/// Makes a call of osc_aes, osc_ccm or osc_hkdf, or of a layer above.
pub(crate) fn make(
    verb: &str,
    fields: &Fields<'_>,
    contexts: &[NamedContext<'_>],
    answer: &mut Answer,
) {
    match verb {
        "aes128" | "ccm-seal" | "ccm-open" => ciphers::with_all(verb, fields, answer),
        "hmac-sha256" => ciphers::hmac(fields, answer),
        "hkdf-extract" => ciphers::hkdf_extract(fields, answer),
        "hkdf-expand" => ciphers::hkdf_expand(fields, answer),
        _ => of_messages(verb, fields, contexts, answer),
    }
}

/// Makes a call of osc_coap or osc_message, or of a layer above.
fn of_messages(
    verb: &str,
    fields: &Fields<'_>,
    contexts: &[NamedContext<'_>],
    answer: &mut Answer,
) {
    match verb {
        "parse" => reading::read_datagram(fields, answer),
        "parse-inner" => reading::read_plaintext(fields, answer),
        "head-length" => reading::head_length(fields, answer),
        "request-or-response" => reading::usage(fields, answer),
        "code" => reading::code_usage(fields, answer),
        "write" => writing::write(fields, answer),
        "write-inner" => writing::write_inner(fields, answer),
        "write-again" => writing::write_again(fields, answer),
        "write-under-head" => writing::write_under_head(fields, answer),
        "separate" => writing::separate(fields, answer),
        _ => of_proxies(verb, fields, contexts, answer),
    }
}

/// Makes a call of osc_proxy, or of a layer above.
fn of_proxies(verb: &str, fields: &Fields<'_>, contexts: &[NamedContext<'_>], answer: &mut Answer) {
    match verb {
        "ask-proxy" => proxying::ask(fields, answer),
        "split-proxy-uri" => proxying::split(fields, answer),
        "uri" => proxying::read_uri(fields, answer),
        "percent-decoded" => proxying::decoded(fields, answer),
        _ => of_options(verb, fields, contexts, answer),
    }
}

/// Makes a call of osc_coap about options, or of a layer above.
fn of_options(verb: &str, fields: &Fields<'_>, contexts: &[NamedContext<'_>], answer: &mut Answer) {
    match verb {
        "option-length" => reading::option_length(fields, answer),
        "class" => reading::class(fields, answer),
        "option-number" => reading::option_number(fields, answer),
        "first-option" => reading::first_option(fields, answer),
        "interpreted-option" => reading::interpreted_option(fields, answer),
        _ => of_contexts(verb, fields, contexts, answer),
    }
}

/// Makes a call of osc_context, or of a layer above.
fn of_contexts(
    verb: &str,
    fields: &Fields<'_>,
    contexts: &[NamedContext<'_>],
    answer: &mut Answer,
) {
    match verb {
        "kid" => context::kid(fields, answer),
        "id-context" => context::id_context(fields, answer),
        "partial-iv" => context::partial_iv(fields, answer),
        "next-number" => context::next_number(fields, answer),
        "compare-numbers" => context::compare_numbers(fields, answer),
        "nonce" => context::nonce_of(fields, answer),
        "aad" => context::aad_of(fields, answer),
        "read-option" => context::read_option(fields, answer),
        "write-option" => context::write_option(fields, answer),
        "numbers" => numbers::numbers(fields, answer),
        _ => of_windows(verb, fields, contexts, answer),
    }
}

/// Makes a derivation of osc_context, or a call of osc_window or of a layer above.
fn of_windows(verb: &str, fields: &Fields<'_>, contexts: &[NamedContext<'_>], answer: &mut Answer) {
    match verb {
        "derive" => context::derive(fields, answer),
        "from-derived" => context::from_derived(fields, answer),
        "debug-context" => context::debug(fields, answer),
        "debug-keyed-context" => protection::debug(fields, answer),
        "window" => window::window(fields, answer),
        "gate" => window::gate(fields, answer),
        "challenge" => window::challenge(fields, answer),
        "budget" => freshening::budget(fields, answer),
        _ => of_blocks(verb, fields, contexts, answer),
    }
}

/// Makes a call of osc_blocks, or of a layer above.
fn of_blocks(verb: &str, fields: &Fields<'_>, contexts: &[NamedContext<'_>], answer: &mut Answer) {
    match verb {
        "read-block" => blocks::read(fields, answer),
        "write-block" => blocks::write(fields, answer),
        "cut-block" => blocks::cut(fields, answer),
        "join-blocks" => blocks::body(fields, answer),
        "request-tag" => blocks::tag(fields, answer),
        _ => of_protection(verb, fields, contexts, answer),
    }
}

/// Makes a call of osc_protect or osc_room that needs no context, or a call that needs one.
fn of_protection(
    verb: &str,
    fields: &Fields<'_>,
    contexts: &[NamedContext<'_>],
    answer: &mut Answer,
) {
    match verb {
        "head" => protection::head(fields, answer),
        "response-head" => protection::response_head(fields, answer),
        "check-request" => protection::checked_request(fields, answer),
        "check-response" => protection::checked_response(fields, answer),
        "room-for" => protection::room(fields, answer),
        _ => under_a_context(verb, fields, contexts, answer),
    }
}

/// Returns what the request of a response or a notification does.
fn asked(verb: &str) -> Asked {
    if verb == "seal-notification" || verb == "open-notification" {
        Asked::Registers
    } else {
        Asked::Once
    }
}

/// Makes a call of osc_context or osc_protect under a context.
fn under_this(verb: &str, fields: &Fields<'_>, context: &KeyedContext, answer: &mut Answer) {
    match verb {
        "answers-to" => context::answers_to(fields, context.context(), answer),
        "fingerprint" => context::fingerprint(fields, context.context(), answer),
        "peer-name" => peer_bytes::name(fields, context.context(), answer),
        "peer-again" => peer_bytes::again(fields, context.context(), answer),
        "names" => protection::named(fields, context, answer),
        "seal-request" => protection::sealed_request(fields, context, answer),
        "seal-response" | "seal-notification" => {
            protection::sealed_response(fields, context, asked(verb), answer);
        }
        "open-request" => protection::opened_request(fields, context, answer),
        "open-response" | "open-notification" => {
            protection::opened_response(fields, context, asked(verb), answer);
        }
        _ => fields.refuse(),
    }
}

/// Makes such a call under a context that keeps its schedules, again under one that keeps none, and again under one that goes by tables.
fn under_a_context(
    verb: &str,
    fields: &Fields<'_>,
    contexts: &[NamedContext<'_>],
    answer: &mut Answer,
) {
    let (Some(context), Some(again), Some(third)) = (
        fields.context(contexts),
        fields.context(contexts),
        fields.context(contexts),
    ) else {
        return fields.refuse();
    };
    let third = third.tables();
    if !context.is_constant_time() || third.is_constant_time() {
        return fields.refuse();
    }
    under_this(verb, fields, &KeyedContext::new(context), answer);
    answer.again();
    let context = KeyedContext::for_one_message(again);
    under_this(verb, fields, &context, answer);
    answer.again();
    under_this(verb, fields, &KeyedContext::new(third), answer);
}
