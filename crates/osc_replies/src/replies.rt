//! A memory of requests and their replies.

ghost use Rattle.std.specs.Prelude.{◌≡◌, ◌≢◌, ◌<◌, ◌≤◌, ◌⊎◌, true, false, Some, slice_get, ◌++◌, ◌∷◌, [], Err, IfNone, IfSome, IfOk, OnErr, length, take, drop};
ghost use Rattle.osc_coap.specs.Datagram.{Parts, IsDatagram, datagram_length};
ghost use Rattle.osc_coap.specs.Writing.{LacksRoom};
ghost use Rattle.std.specs.List.{Contains};
ghost use Rattle.arrayvec.specs.ArrayVec.{array_vec_len};
ghost use Rattle.osc_context.specs.Views.{number_of};
ghost use Rattle.osc_replies.specs.Asked.{IsAnswered};
ghost use Rattle.osc_replies.specs.Memory.{IsReply, IsReplyKept, Kept, NumbersDiffer, Recalls, kept_after, newest, others};

use crate::identity::{Identity, identity_of};
use crate::new_head::write_under_new_head;
use crate::remembered::Remembered;
use crate::reply::is_reply;
use arrayvec::ArrayVec;
use osc_coap::{one_datagram, parse};
use osc_context::Piv;
use osc_protect::one_head;

/// Why there is no reply again.
#[derive(Clone, Copy, Debug, PartialEq, Eq)]
pub enum NotAgain {
    /// The datagram is no protected request that the memory has a reply for.
    Unknown,
    /// There is a reply, but it has more bytes than `out`, or than a datagram may have.
    NoRoom,
}

/// A memory with room for COUNT requests to one context, each with at most LEN bytes of ciphertext and LEN bytes of reply. The oldest is
/// forgotten first. LEN is at most 65,535, the most bytes that a datagram has.
#[derive(Drop)]
pub struct Replies<const COUNT: usize, const LEN: usize> {
    entries: ArrayVec<Remembered<LEN>, COUNT>,
    ghost short: { LEN ≤ 65535 },
}

impl<const COUNT: usize, const LEN: usize> Replies<COUNT, LEN> {
    ghost use Rattle.osc_replies.specs.Views.{kept_of, memory_of};

    /// Makes a memory of no request.
    #[must_use]
    pub fn new() -> Replies<COUNT, LEN>
        requires { LEN ≤ 65535 }
        ensures empty { memory_of result ≡ [] }
        ensures apart { NumbersDiffer (memory_of result) }
    {
        Replies {
            entries: ArrayVec::new(),
        }
    }

    /// Finds a request with this number.
    fn place_of(&self, number: u64) -> Option<usize>
        ensures found { IfSome result (λ place. (k : Kept) × (slice_get (memory_of self.now) place ≡ Some k) × (k.number ≡ number)) }
        ensures within { IfSome result (λ place. place < array_vec_len self.now.entries) }
        ensures none { IfNone result ((k : Kept) → Contains (memory_of self.now) k → k.number ≢ number) }
    {
        let entries = self.entries.as_slice();
        for place in 0..entries.len() {
            if entries[place].number() == number {
                return Some(place);
            }
        }
        None
    }

    /// Forgets the requests with this number.
    fn forget(&mut self, number: u64)
        ensures { memory_of self.new ≡ others number (memory_of self.old) }
    {
        while let Some(place) = self.place_of(number) {
            let _forgotten = self.entries.remove(place);
        }
    }

    /// Adds a request after the others. If the memory is full, it forgets the oldest one.
    fn add(&mut self, request: Remembered<LEN>)
        ensures { memory_of self.new ≡ newest COUNT (memory_of self.old ++ kept_of request.entry ∷ []) }
    {
        if self.entries.is_full() {
            // There is no room at all if COUNT is 0.
            if self.entries.is_empty() {
                return;
            }
            let _oldest = self.entries.remove(0);
        }
        self.entries.push(request);
    }

    /// Remembers one more request, in the place of one with its number. If the memory is full, it forgets the oldest one.
    pub fn keep_request(&mut self, request: Remembered<LEN>)
        ensures kept { memory_of self.new ≡ kept_after COUNT (memory_of self.old) (kept_of request.entry) }
        ensures apart { NumbersDiffer (memory_of self.old) → NumbersDiffer (memory_of self.new) }
    {
        self.forget(request.number());
        self.add(request);
    }

    /// Remembers the reply to the request with this number, whole as it was sent, and returns whether it does. It doesn't if it keeps no such
    /// request, or if the bytes are no datagram with a response's code, or more than LEN.
    pub fn keep_reply(&mut self, number: Piv, reply: &[u8]) -> bool
        ensures kept { result ≡ true → IsReplyKept (number_of number) reply.now (memory_of self.old) (memory_of self.new) }
        ensures is_reply { result ≡ true → (p : Parts) × IsReply p reply.now }
        ensures refused { result ≡ false → ((k : Kept) → Contains (memory_of self.old) k → k.number ≢ number_of number)
            ⊎ (LEN < length reply.now) ⊎ ((p : Parts) → IsReply p reply.now → ⊥) }
        ensures unchanged { result ≡ false → self.new ≡ self.old }
        ensures apart { NumbersDiffer (memory_of self.old) → NumbersDiffer (memory_of self.new) }
    {
        let Some(place) = self.place_of(number.number()) else {
            return false;
        };
        if LEN < reply.len() || !is_reply(reply) {
            return false;
        }
        self.entries[place].answer(reply);
        true
    }

    /// Finds the reply to this request.
    fn find(&self, identity: Identity<'_>) -> Option<&[u8]>
        ensures found { IfSome result (λ reply. (k : Kept) × Contains (memory_of self.now) k
            × IsAnswered k (number_of identity.entry.number) identity.entry.option.now identity.entry.text.now × (reply.now ≡ k.reply)) }
        ensures none { IfNone result ((k : Kept) → Contains (memory_of self.now) k
            → IsAnswered k (number_of identity.entry.number) identity.entry.option.now identity.entry.text.now → ⊥) }
    {
        let entries = self.entries.as_slice();
        for place in 0..entries.len() {
            let entry = &entries[place];
            if entry.is_answered(identity) {
                return Some(entry.reply());
            }
        }
        None
    }

    /// Answers a request again that the memory has a reply for, whatever Type, Message ID and token it has this time: writes that reply, under
    /// the head of a reply to the datagram at hand, to the front of `out`, and returns its length in bytes. `mid` is the Message ID of a reply
    /// to a NON (RFC 7252, 4.5 and 5.2).
    pub fn again(&self, mid: u16, datagram: &[u8], out: &mut [u8]) -> Result<usize, NotAgain>
        ensures recalled { IfOk result (λ n. (p : Parts) × IsDatagram p datagram.now × (answer : Parts) × Recalls (memory_of self.now) p mid answer
            × IsDatagram answer (take n out.new)) }
        ensures within { IfOk result (λ n. n ≤ length out.new) }
        ensures behind { IfOk result (λ n. drop n out.new ≡ drop n out.old) }
        ensures unknown { result ≡ Err NotAgain.Unknown → (p answer : Parts) → IsDatagram p datagram.now → Recalls (memory_of self.now) p mid answer → ⊥ }
        ensures no_room { result ≡ Err NotAgain.NoRoom → (p : Parts) × IsDatagram p datagram.now × (answer : Parts) × Recalls (memory_of self.now) p mid answer
            × LacksRoom (length out.old) (datagram_length answer) }
        ensures unchanged { OnErr result (out.new ≡ out.old) }
    {
        // For the proof alone.
        one_datagram();
        one_head();
        let Ok(message) = parse(datagram) else {
            return Err(NotAgain::Unknown);
        };
        let Some(identity) = identity_of(&message) else {
            return Err(NotAgain::Unknown);
        };
        let Some(reply) = self.find(identity) else {
            return Err(NotAgain::Unknown);
        };
        match write_under_new_head(&message, mid, reply, out) {
            Some(len) => Ok(len),
            None => Err(NotAgain::NoRoom),
        }
    }
}
