//! What each stage of opening passes to the next: small values that borrow nothing from the datagram they describe. A value of a response
//! doesn't pass for one of a request.

use osc_context::{Features, Piv};

/// A protected request whose head was read. `RequestHead::sealed` returns it, for `decrypt_request`.
#[derive(Clone, Copy, Debug)]
pub struct SealedRequest {
    pub(crate) number: Piv,
    pub(crate) len: usize,
}

/// A protected response whose head was read. `ResponseHead::sealed` returns it, for `decrypt_response`.
#[derive(Clone, Copy, Debug)]
pub struct SealedResponse {
    pub(crate) number: Option<Piv>,
    pub(crate) len: usize,
}

/// A request whose payload was decrypted. `decrypt_request` returns it, for `read_request`.
#[derive(Clone, Copy, Debug)]
pub struct DecryptedRequest {
    pub(crate) features: Features,
    pub(crate) number: Piv,
    pub(crate) len: usize,
}

/// A response whose payload was decrypted. `decrypt_response` returns it, for `read_response`.
#[derive(Clone, Copy, Debug)]
pub struct DecryptedResponse {
    pub(crate) features: Features,
    pub(crate) number: Option<Piv>,
    pub(crate) len: usize,
}

/// A request whose plaintext was read. `inspect_request` returns it. Together with the datagram it is the opened message.
#[derive(Clone, Copy, Debug)]
pub struct ReadRequest {
    pub(crate) number: Piv,
    pub(crate) len: usize,
    pub(crate) payload_len: usize,
}

/// A response whose plaintext was read. `inspect_response` returns it. Together with the datagram it is the opened message.
#[derive(Clone, Copy, Debug)]
pub struct ReadResponse {
    pub(crate) number: Option<Piv>,
    pub(crate) len: usize,
    pub(crate) payload_len: usize,
}
