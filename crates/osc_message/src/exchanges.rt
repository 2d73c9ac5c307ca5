//! The confirmable messages of an endpoint that are on their way (RFC 7252, 4.2 and 4.7).

ghost use Rattle.std.specs.Prelude.{ℕ, ◌≡◌, ◌≤◌, ◌<◌, ◌-◌, ◌^◌, IfErr, IfNone, IfOk, IfSome, IsOk, OnErr, length, true, false};

use crate::exchange::{Address, Awaits, Exchange};
use crate::place::{AckedAt, acknowledge_at, address_at, end_at, number_at, send_again_at};
use crate::places::{
    Found, earliest, find_awaited, find_due, find_for, find_free, is_idle, is_on_its_way,
};
use arrayvec::ArrayVec;
use osc_coap::Token;
use std::error::Error;
use std::fmt;

/// The shortest first wait: ACK_TIMEOUT, in milliseconds (RFC 7252, 4.8).
const ACK_TIMEOUT_MS: u64 = 2_000;

/// How much longer the first wait can be: ACK_RANDOM_FACTOR is 1.5 (RFC 7252, 4.8).
const MOST_RANDOM_MS: u64 = 1_000;

/// A confirmable message that is to be sent: to whom, and what its datagram says.
#[derive(Drop)]
pub struct Outgoing {
    pub to: Address,
    pub message_id: u16,
    pub token: Token,
    /// What ends it.
    pub awaits: Awaits,
}

/// A message on its way: which call sent it, and its place, from 0 on. Keep the datagram in a buffer of your own for that place, until the call has
/// ended: it is what you send again, byte by byte.
#[derive(Clone, Copy, Debug, PartialEq, Eq)]
pub struct Call {
    pub number: u64,
    pub place: usize,
}

/// Why a message can't be sent now.
#[derive(Clone, Copy, Debug, PartialEq, Eq)]
pub enum BeginError {
    /// Another message to this address waits for its ACK: at most one does (RFC 7252, 4.7: NSTART).
    Busy,
    /// No place is free.
    Full,
    /// All numbers of calls are used.
    CallsExhausted,
}

impl fmt::Display for BeginError {
    ghost use Rattle.std.specs.Prelude.{Some};
    ghost use Rattle.osc_message.specs.Calls.{begin_error_text};

    ghost output = { λ error. Some (begin_error_text error) };

    fn fmt<W: fmt::Write>(&self, f: &mut fmt::Formatter<W>) -> fmt::Result {
        f.write_str(match self {
            BeginError::Busy => "Busy",
            BeginError::Full => "Full",
            BeginError::CallsExhausted => "CallsExhausted",
        })
    }
}

impl Error for BeginError {}

/// What an empty ACK did.
#[derive(Clone, Copy, Debug, PartialEq, Eq)]
pub enum Acknowledged {
    /// Nothing: no message has its Message ID, or it came from elsewhere.
    Nothing,
    /// The message of this call isn't sent again, and awaits its response.
    Stopped(Call),
    /// This call has ended: its message has arrived, and awaited no more.
    Ended(Call),
}

/// What is to be done.
#[derive(Clone, Copy, Debug, PartialEq, Eq)]
pub enum Polled {
    /// Nothing now.
    Rest,
    /// Send the datagram of this call's place again, as it is.
    Resend(Call),
    /// This call has ended: no ACK came, or no response. Whether the message arrived nobody knows.
    Failed(Call),
}

/// The confirmable messages of an endpoint that are on their way, with a place for each of N. Moments are in milliseconds, of a clock of yours
/// that doesn't go back.
#[derive(Drop)]
pub struct Exchanges<const N: usize> {
    places: ArrayVec<Option<Exchange>, N>,
    next_call: u64,
}

impl<const N: usize> Exchanges<N> {
    ghost use Rattle.osc_message.specs.Calls.{Acknowledges, AwaitsBy, BeginsBy, CallsFor, EndsCall, IsFirstReason, MayBegin, Polls, Resets};
    ghost use Rattle.osc_message.specs.declared.exchanges.BeginError.{BeginError};
    ghost use Rattle.osc_message.specs.Sending.{Sending};
    ghost use Rattle.osc_message.specs.Slots.{IsAt};
    ghost use Rattle.osc_message.specs.Table.{Rests, Start, table};
    ghost use Rattle.osc_message.specs.Views.{table_of};

    /// Makes a table with N free places.
    #[must_use]
    pub fn new() -> Exchanges<N>
        ensures { table_of result ≡ table (Start N) }
    {
        let mut places = ArrayVec::new();
        for _ in 0..N {
            places.push(None);
        }
        Exchanges {
            places,
            next_call: 0,
        }
    }

    /// Returns the free place of a message to this address, or the first refusal in the order of `BeginError`.
    fn place_for(&self, to: &[u8]) -> Result<usize, BeginError>
        ensures found { IfOk result (λ place. MayBegin (table_of self.now) to.now place) }
        ensures refused { IfErr result (λ e. IsFirstReason (table_of self.now) to.now e) }
    {
        if !is_idle(self.places.as_slice(), to) {
            return Err(BeginError::Busy);
        }
        let Some(place) = find_free(self.places.as_slice()) else {
            return Err(BeginError::Full);
        };
        if self.next_call == u64::MAX {
            return Err(BeginError::CallsExhausted);
        }
        Ok(place)
    }

    /// Says whether `begin` would take a message to this address now, and changes nothing: so you know it before you seal one. Returns the first
    /// refusal in the order of `BeginError`: another message to it is without its ACK, no place is free, no number is left (RFC 7252, 4.7).
    pub fn check_begin(&self, to: &[u8]) -> Result<(), BeginError>
        ensures accepted { IsOk result → (e : BeginError) → IsFirstReason (table_of self.now) to.now e → ⊥ }
        ensures refused { IfErr result (λ e. IsFirstReason (table_of self.now) to.now e) }
    {
        self.place_for(to)?;
        Ok(())
    }

    /// Notes that a confirmable message is sent first, at this moment, and returns its call. The first wait is 2 to 3 seconds long, by `random`,
    /// which you draw anew each time (RFC 7252, 4.2). Returns the first refusal in the order of `BeginError`, which changes nothing: then don't
    /// send it.
    pub fn begin(&mut self, message: Outgoing, now: u64, random: u16) -> Result<Call, BeginError>
        ensures begun { IfOk result (λ call. BeginsBy (table_of self.old) (table_of self.new) message now random call) }
        ensures refused { IfErr result (λ e. IsFirstReason (table_of self.old) message.to.items e) }
        ensures unchanged { OnErr result (self.new ≡ self.old) }
    {
        let place = self.place_for(&message.to)?;
        let number = self.next_call;
        self.places[place] = Some(Exchange {
            call: number,
            to: message.to,
            message_id: message.message_id,
            token: message.token,
            awaits: message.awaits,
            begun: now,
            last: now,
            first_wait: ACK_TIMEOUT_MS + u64::from(random) % (MOST_RANDOM_MS + 1),
            resent: 0,
            acked: false,
        });
        self.next_call = number + 1;
        Ok(Call { number, place })
    }

    /// Returns the call whose message an ACK or RST with this Message ID from this address is for, if there is one (RFC 7252, 4.2).
    #[must_use]
    pub fn call_for(&self, from: &[u8], message_id: u16) -> Option<Call>
        ensures { CallsFor (table_of self.now) from.now message_id result }
    {
        let place = find_for(self.places.as_slice(), from, message_id)?;
        let number = number_at(&self.places[place])?;
        Some(Call { number, place })
    }

    /// Takes an empty ACK with this Message ID from this address (RFC 7252, 4.2). Nobody protects an ACK: one that is forged only ends that the
    /// message is sent again.
    pub fn acknowledge(&mut self, from: &[u8], message_id: u16) -> Acknowledged
        ensures { Acknowledges (table_of self.old) (table_of self.new) from.now message_id result }
    {
        let Some(place) = find_for(self.places.as_slice(), from, message_id) else {
            return Acknowledged::Nothing;
        };
        match acknowledge_at(&mut self.places[place]) {
            AckedAt::Stopped(number) => Acknowledged::Stopped(Call { number, place }),
            AckedAt::Ended(number) => Acknowledged::Ended(Call { number, place }),
            AckedAt::Nothing => unreachable!(),
        }
    }

    /// Takes an RST with this Message ID from this address, and returns the call that it ends, if there is one (RFC 7252, 4.2). Nobody protects an
    /// RST: the message may have been obeyed all the same.
    pub fn reset(&mut self, from: &[u8], message_id: u16) -> Option<Call>
        ensures { Resets (table_of self.old) (table_of self.new) from.now message_id result }
    {
        let place = find_for(self.places.as_slice(), from, message_id)?;
        let Some(number) = end_at(&mut self.places[place]) else {
            unreachable!();
        };
        Some(Call { number, place })
    }

    /// Returns the call that a response with this token from this address is for, if there is one; `acked` is the Message ID of a response in an
    /// ACK, and `None` of one in a message of its own (RFC 7252, 5.3.2). Open the response then, and call `end` once it has opened: what anyone
    /// could have sent ends no call.
    #[must_use]
    pub fn awaited(&self, from: &[u8], token: &[u8], acked: Option<u16>) -> Option<Call>
        ensures { AwaitsBy (table_of self.now) from.now token.now acked result }
    {
        let place = find_awaited(self.places.as_slice(), from, token, acked)?;
        let number = number_at(&self.places[place])?;
        Some(Call { number, place })
    }

    /// Returns the address that the message at a place went to, or `None` if the place is free.
    #[must_use]
    pub fn address(&self, place: usize) -> Option<&[u8]>
        ensures to { IfSome result (λ to. (x : Sending) × IsAt (table_of self.now).places place x × (to.now ≡ x.to)) }
        ensures free { IfNone result ((x : Sending) → IsAt (table_of self.now).places place x → ⊥) }
    {
        if place >= self.places.len() {
            return None;
        }
        address_at(&self.places[place])
    }

    /// Ends a call whose response was opened, or that you give up, and returns whether it was on its way.
    pub fn end(&mut self, call: Call) -> bool
        ensures { EndsCall (table_of self.old) (table_of self.new) call result }
    {
        if !is_on_its_way(self.places.as_slice(), call.number, call.place) {
            return false;
        }
        self.places[call.place] = None;
        true
    }

    /// Does the first thing that is to be done at this moment. Call it until it returns `Rest`.
    pub fn poll(&mut self, now: u64) -> Polled
        ensures { Polls (table_of self.old) (table_of self.new) now result }
    {
        match find_due(self.places.as_slice(), now) {
            Found::Rest => Polled::Rest,
            Found::Resend(place) => {
                let Some(number) = send_again_at(&mut self.places[place], now) else {
                    unreachable!();
                };
                Polled::Resend(Call { number, place })
            }
            Found::GiveUp(place) => {
                let Some(number) = end_at(&mut self.places[place]) else {
                    unreachable!();
                };
                Polled::Failed(Call { number, place })
            }
        }
    }

    /// Returns the moment until which `poll` returns `Rest`, in milliseconds: sleep until then. From it on something is to be done: a message is
    /// to be sent again or given up (RFC 7252, 4.2). It is `u64::MAX` if nothing is on its way.
    #[must_use]
    pub fn wake(&self) -> u64
        ensures until { (now : ℕ) → now < result → Rests (table_of self.now).places now }
        ensures due { result < 2 ^ 64 - 1 → (now : ℕ) → result ≤ now → Rests (table_of self.now).places now → ⊥ }
    {
        earliest(self.places.as_slice())
    }
}
