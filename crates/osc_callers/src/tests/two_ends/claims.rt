//! What must hold for each run. Only the log is checked.

use super::log::{Entry, Request, Response};

/// What an entry of a log can break.
#[derive(Clone, Copy, Debug, PartialEq, Eq)]
pub enum Claim {
    /// Each request that is delivered was sealed before, with that number and payload, and no number is delivered twice.
    Requests,
    /// Each response that is delivered was sealed before, for the very request that the client sealed last under its token.
    Responses,
    /// No end seals twice under one nonce (RFC 8613, 5.2).
    Nonces,
}

/// Returns the first claim that a log breaks, if it breaks one.
pub fn first_broken(log: &[Entry]) -> Option<Claim> {
    for place in 0..log.len() {
        let broken = broken_by(log[place], &log[..place]);
        if broken.is_some() {
            return broken;
        }
    }
    None
}

/// Returns the claim that an entry breaks after the entries before it, if it breaks one.
fn broken_by(entry: Entry, before: &[Entry]) -> Option<Claim> {
    let (claim, holds) = match entry {
        Entry::RequestSealed(request) => (Claim::Nonces, !is_number_used(request.number, before)),
        Entry::RequestDelivered(request) => (Claim::Requests, may_deliver(request, before)),
        Entry::ResponseSealed(response) => (Claim::Nonces, !is_nonce_used(response, before)),
        Entry::ResponseDelivered(response) => (Claim::Responses, may_answer(response, before)),
    };
    if holds { None } else { Some(claim) }
}

/// Returns whether the client sealed a request with this number.
fn is_number_used(number: u64, before: &[Entry]) -> bool {
    for entry in before {
        if let Entry::RequestSealed(request) = entry
            && request.number == number
        {
            return true;
        }
    }
    false
}

/// Returns whether the server delivered a request with this number.
fn is_delivered(number: u64, before: &[Entry]) -> bool {
    for entry in before {
        if let Entry::RequestDelivered(request) = entry
            && request.number == number
        {
            return true;
        }
    }
    false
}

/// Returns whether a request was sealed, and none with its number was delivered.
fn may_deliver(request: Request, before: &[Entry]) -> bool {
    !is_delivered(request.number, before) && before.contains(&Entry::RequestSealed(request))
}

/// Returns whether the server sealed a response with the same Partial IV or, for a response without one, another without one to
/// the same request: that one is under the nonce of the request.
fn is_nonce_used(response: Response, before: &[Entry]) -> bool {
    for entry in before {
        if let Entry::ResponseSealed(other) = entry
            && other.own == response.own
            && (other.own.is_some() || other.request == response.request)
        {
            return true;
        }
    }
    false
}

/// Returns whether a response was sealed, for the request that the client waits for.
fn may_answer(response: Response, before: &[Entry]) -> bool {
    let Some(asked) = last_asked(response.token, before) else {
        return false;
    };
    let is_for_it = match response.payload {
        Some(payload) => payload == asked.payload,
        None => true,
    };
    is_for_it
        && response.request == asked.number
        && before.contains(&Entry::ResponseSealed(response))
}

/// Returns the last request that the client sealed under a token.
fn last_asked(token: u8, before: &[Entry]) -> Option<Request> {
    let mut last = None;
    for entry in before {
        if let Entry::RequestSealed(request) = entry
            && request.payload.token == token
        {
            last = Some(*request);
        }
    }
    last
}
