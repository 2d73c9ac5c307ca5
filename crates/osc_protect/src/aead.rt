//! The cipher of one message (RFC 8613, 5): the only place that makes a nonce and the additional data.
//!
//!                                  key of    nonce from                       additional data from
//!     request                      client    client, its number               client, its number
//!     response                     server    client, the request's number     client, the request's number
//!     response with its number     server    server, its number               client, the request's number

ghost use Rattle.std.specs.Prelude.{◌≡◌, ◌≢◌, ◌≤◌, ◌+◌, ◌-◌, ◌++◌, [], ℕ, List, length, take, drop, IfSome, IfNone};
ghost use Rattle.std.specs.Option.{option_map};
ghost use Rattle.osc_ccm.specs.Ccm.{tag_length};
ghost use Rattle.osc_coap.specs.Datagram.{Parts, IsDatagram};
ghost use Rattle.osc_context.specs.SecurityContext.{SecurityContext};
ghost use Rattle.osc_context.specs.Views.{number_of};
ghost use Rattle.osc_protect.specs.Ends.{IsClientOf, IsServerOf};
ghost use Rattle.osc_protect.specs.Protection.{request_cipher, response_cipher, response_nonce};

use crate::context_cipher::ContextCipher;
use crate::ends::End;
use arrayvec::ArrayVec;
use osc_ccm::{AesCcm16_64_128, Nonce, protection_length};
use osc_coap::payload_stands_last;
use osc_context::{Kid, Piv, aad, nonce};

/// What protects one message, besides its plaintext: the cipher under a key, the nonce and the additional data.
#[derive(Drop)]
pub(crate) struct Aead<'a> {
    cipher: ContextCipher<'a>,
    nonce: Nonce,
    additional_data: ArrayVec<u8, 32>,
}

ghost use Rattle.osc_protect.specs.Views.{cipher_of};
ghost use Rattle.osc_protect.specs.Halves.{HasPayload, DecryptsPayload};

/// Returns the nonce of a response. It comes from the server's own Partial IV if the response has one, and otherwise from the client's
/// request (RFC 8613, 5.2).
fn nonce_of_response(
    common_iv: &Nonce,
    client: &Kid,
    server: &Kid,
    request: Piv,
    own: Option<Piv>,
) -> Nonce
    ensures { result ≡ response_nonce common_iv.now client.now server.now (number_of request) (option_map number_of own) }
{
    match own {
        Some(number) => nonce(common_iv, server, number),
        None => nonce(common_iv, client, request),
    }
}

impl<'a> Aead<'a> {
    /// Makes the cipher of a request. The nonce and the additional data come from the client and its number (RFC 8613, 5.2 and 5.4).
    pub(crate) fn of_request(client: End<'a>, common_iv: &Nonce, number: Piv) -> Aead<'a>
        ensures { (s : SecurityContext) (m : List ℕ) → IsClientOf s client.entry → common_iv.now ≡ s.common_iv
            → cipher_of result m ≡ request_cipher s (number_of number) m }
    {
        Aead {
            cipher: client.cipher,
            nonce: nonce(common_iv, client.kid, number),
            additional_data: aad(client.kid, number),
        }
    }

    /// Makes the cipher of a response to a client's request. The nonce comes from the server's own Partial IV if the response has one, and
    /// is otherwise the request's. The additional data is the request's (RFC 8613, 5.2 and 5.4).
    pub(crate) fn of_response(
        server: End<'a>,
        common_iv: &Nonce,
        client: &Kid,
        request: Piv,
        own: Option<Piv>,
    ) -> Aead<'a>
        ensures { (s : SecurityContext) (m : List ℕ) → IsServerOf s server.entry → common_iv.now ≡ s.common_iv → client.now ≡ s.client
            → cipher_of result m ≡ response_cipher s (number_of request) (option_map number_of own) m }
    {
        Aead {
            cipher: server.cipher,
            nonce: nonce_of_response(common_iv, client, server.kid, request, own),
            additional_data: aad(client, request),
        }
    }

    /// Seals the plaintext at the front of `payload` in place, and returns its length with the tag.
    #[tactic(auto, unfolding(crate::specs::Views::cipher_of))]
    pub(crate) fn seal(&self, payload: &mut [u8], len: usize) -> usize
        requires room { len + tag_length ≤ length payload.old }
        requires fits { len ≤ 65535 }
        ensures end { result ≡ len + tag_length }
        ensures sealed { payload.new ≡ cipher_of self.now (take len payload.old) ++ drop (len + tag_length) payload.old }
    {
        let additional_data = self.additional_data.as_slice();
        let sealed = self.cipher.seal(&self.nonce, additional_data, payload, len);
        match sealed {
            Ok(sealed) => sealed,
            Err(_) => unreachable!(),
        }
    }

    /// Opens `payload` in place, and returns the length of the plaintext, or `None` if `payload` protects none.
    #[tactic(auto, unfolding(crate::specs::Views::cipher_of))]
    fn open(&self, payload: &mut [u8]) -> Option<usize>
        requires { length payload.old ≤ 65535 }
        ensures long { IfSome result (λ n. n + tag_length ≡ length payload.old) }
        ensures sealed { IfSome result (λ n. payload.old ≡ cipher_of self.now (take n payload.new)) }
        ensures tag { IfSome result (λ n. drop n payload.new ≡ drop n payload.old) }
        ensures refused { IfNone result ((m : List ℕ) → payload.old ≢ cipher_of self.now m) }
        ensures unchanged { IfNone result (payload.new ≡ payload.old) }
    {
        // For the proof alone.
        protection_length();
        let additional_data = self.additional_data.as_slice();
        let opened = self.cipher.open(&self.nonce, additional_data, payload);
        opened.ok()
    }

    /// Opens the payload of a datagram, its last `len` bytes, in place.
    pub(crate) fn open_payload(&self, datagram: &mut [u8], len: usize) -> Option<usize>
        requires { (p : Parts) × HasPayload p datagram.old len }
        ensures decrypted { (p : Parts) → HasPayload p datagram.old len
            → IfSome result (λ n. DecryptsPayload (cipher_of self.now) p n datagram.new) }
        ensures long { IfSome result (λ n. n + tag_length ≡ len) }
        ensures refused { (p : Parts) → HasPayload p datagram.old len
            → IfNone result ((m : List ℕ) → p.payload ≢ cipher_of self.now m) }
        ensures unchanged { IfNone result (datagram.new ≡ datagram.old) }
    {
        // For the proof alone.
        payload_stands_last();
        let start = datagram.len() - len;
        self.open(&mut datagram[start..])
    }

    /// Seals the payload of a datagram, its last `len` bytes, in place: a plaintext, and behind it room for the tag.
    pub(crate) fn seal_payload(&self, datagram: &mut [u8], len: usize)
        requires payload { (p : Parts) × HasPayload p datagram.old len }
        requires room { tag_length ≤ len }
        ensures { datagram.new ≡ take (length datagram.old - len) datagram.old
            ++ cipher_of self.now (take (len - tag_length) (drop (length datagram.old - len) datagram.old)) }
    {
        // For the proof alone.
        payload_stands_last();
        let start = datagram.len() - len;
        self.seal(&mut datagram[start..], len - AesCcm16_64_128::TAG_LEN);
    }
}
