//! The observers of a resource (RFC 7641, 4.1).

ghost use Rattle.std.specs.Prelude.{◌≡◌, ◌≤◌, IfErr, IfNone, IfOk, IfSome, OnErr, length};

use crate::places::{
    address_at, end_at, find_failed, find_from, find_of, find_place, find_reset, is_there,
    needs_con_at, note_at, number_at, token_at,
};
use crate::watch::Watch;
use arrayvec::ArrayVec;
use osc_coap::Token;
use osc_message::Address;
use std::error::Error;
use std::fmt;

/// An observer: its number among all of them, which never comes again, and its place, from 0 on.
#[derive(Clone, Copy, Debug, PartialEq, Eq)]
pub struct Observer {
    pub number: u64,
    pub place: usize,
}

/// Why a registration can't be kept.
#[derive(Clone, Copy, Debug, PartialEq, Eq)]
pub enum RegisterError {
    /// No place is free, and none has an observer of this address and token.
    Full,
    /// All numbers are used.
    NumbersExhausted,
}

impl fmt::Display for RegisterError {
    ghost use Rattle.std.specs.Prelude.{Some};
    ghost use Rattle.osc_observers.specs.Calls.{register_error_text};

    ghost output = { λ error. Some (register_error_text error) };

    fn fmt<W: fmt::Write>(&self, f: &mut fmt::Formatter<W>) -> fmt::Result {
        f.write_str(match self {
            RegisterError::Full => "Full",
            RegisterError::NumbersExhausted => "NumbersExhausted",
        })
    }
}

impl Error for RegisterError {}

/// The observers of a resource, with a place for each of N. Moments are in milliseconds, of a clock of yours that doesn't go back.
#[derive(Drop)]
pub struct Observers<const N: usize> {
    places: ArrayVec<Option<Watch>, N>,
    next_number: u64,
}

impl<const N: usize> Observers<N> {
    ghost use Rattle.osc_observers.specs.Calls.{Fails, FindsBy, Forgets, IsFirstReason, IsListed, IsNext, IsUnlisted, MayRegister, NeedsBy, NotesBy, RegistersBy, Resets};
    ghost use Rattle.osc_observers.specs.Table.{Start, table};
    ghost use Rattle.osc_observers.specs.Views.{table_of};
    ghost use Rattle.osc_observers.specs.Watching.{Watching};

    /// Makes a list with N free places.
    #[must_use]
    pub fn new() -> Observers<N>
        ensures { table_of result ≡ table (Start N) }
    {
        let mut places = ArrayVec::new();
        for _ in 0..N {
            places.push(None);
        }
        Observers {
            places,
            next_number: 0,
        }
    }

    /// Returns the place of a registration, or the first refusal in the order of `RegisterError`.
    fn place_for(&self, from: &[u8], token: &[u8]) -> Result<usize, RegisterError>
        ensures found { IfOk result (λ place. MayRegister (table_of self.now) from.now token.now place) }
        ensures refused { IfErr result (λ e. IsFirstReason (table_of self.now) from.now token.now e) }
    {
        let Some(place) = find_place(self.places.as_slice(), from, token) else {
            return Err(RegisterError::Full);
        };
        if self.next_number == u64::MAX {
            return Err(RegisterError::NumbersExhausted);
        }
        Ok(place)
    }

    /// Keeps who registered, at this moment in milliseconds, once its registration was opened. One that is there under the same address and token is
    /// replaced, with a new number (RFC 7641, 4.1). Returns the first refusal in the order of `RegisterError`, which changes nothing: no place is
    /// free for it, no number is left (own rule).
    pub fn register(
        &mut self,
        from: Address,
        token: Token,
        now: u64,
    ) -> Result<Observer, RegisterError>
        ensures registered { IfOk result (λ o. RegistersBy (table_of self.old) (table_of self.new) from.items token.items now o) }
        ensures refused { IfErr result (λ e. IsFirstReason (table_of self.old) from.items token.items e) }
        ensures unchanged { OnErr result (self.new ≡ self.old) }
    {
        let place = self.place_for(from.as_slice(), token.as_slice())?;
        let number = self.next_number;
        self.places[place] = Some(Watch {
            number,
            from,
            token,
            last_message_id: None,
            call: None,
            confirmed: now,
        });
        self.next_number = number + 1;
        Ok(Observer { number, place })
    }

    /// Returns whether the next notification to an observer has to be a CON at this moment: 24 hours (86,400,000 ms) have passed since its
    /// registration or its last CON (RFC 7641, 4.5). Returns `None` if it is forgotten.
    #[must_use]
    pub fn needs_con(&self, observer: Observer, now: u64) -> Option<bool>
        ensures { NeedsBy (table_of self.now) observer now result }
    {
        if !is_there(self.places.as_slice(), observer.number, observer.place) {
            return None;
        }
        needs_con_at(&self.places[observer.place], now)
    }

    /// Notes that a notification is sent now, under this Message ID; `call` is the number of the CON's call, and `None` for a NON. The call of a CON
    /// stays noted where a NON follows it (RFC 7641, 4.5). Returns `false`, and changes nothing, if the observer is forgotten.
    pub fn note(&mut self, observer: Observer, message_id: u16, call: Option<u64>, now: u64) -> bool
        ensures { NotesBy (table_of self.old) (table_of self.new) observer message_id call now result }
    {
        if !is_there(self.places.as_slice(), observer.number, observer.place) {
            return false;
        }
        note_at(&mut self.places[observer.place], message_id, call, now);
        true
    }

    /// Takes an RST with this Message ID from this address: forgets the observer whose last notification has it, and returns it (RFC 7641, 3.6 and
    /// 4.5). Nobody protects an RST: one that is forged ends an observation.
    pub fn reset(&mut self, from: &[u8], message_id: u16) -> Option<Observer>
        ensures { Resets (table_of self.old) (table_of self.new) from.now message_id result }
    {
        let place = find_reset(self.places.as_slice(), from, message_id)?;
        let Some(number) = end_at(&mut self.places[place]) else {
            unreachable!();
        };
        Some(Observer { number, place })
    }

    /// Forgets the observer whose CON of this call wasn't acknowledged, and returns it (RFC 7641, 4.5).
    pub fn fail(&mut self, call: u64) -> Option<Observer>
        ensures { Fails (table_of self.old) (table_of self.new) call result }
    {
        let place = find_failed(self.places.as_slice(), call)?;
        let Some(number) = end_at(&mut self.places[place]) else {
            unreachable!();
        };
        Some(Observer { number, place })
    }

    /// Returns the observer of this address and token, e.g. for a cancellation (RFC 7641, 4.1).
    #[must_use]
    pub fn find(&self, from: &[u8], token: &[u8]) -> Option<Observer>
        ensures { FindsBy (table_of self.now) from.now token.now result }
    {
        let place = find_of(self.places.as_slice(), from, token)?;
        let number = number_at(&self.places[place])?;
        Some(Observer { number, place })
    }

    /// Forgets an observer, and returns whether it was there: behind a cancellation, or a notification of another class than 2 (RFC 7641, 3.6 and 4.2).
    pub fn forget(&mut self, observer: Observer) -> bool
        ensures { Forgets (table_of self.old) (table_of self.new) observer result }
    {
        if !is_there(self.places.as_slice(), observer.number, observer.place) {
            return false;
        }
        self.places[observer.place] = None;
        true
    }

    /// Returns the first observer at this place or at a later one: begin at 0, and go on behind the place that is returned, and so go through all of
    /// them.
    #[must_use]
    pub fn next(&self, place: usize) -> Option<Observer>
        ensures { IsNext (table_of self.now) place result }
    {
        let found = find_from(self.places.as_slice(), place)?;
        let number = number_at(&self.places[found])?;
        Some(Observer {
            number,
            place: found,
        })
    }

    /// Returns the address of an observer, where its notifications go, or `None` if it is forgotten.
    #[must_use]
    pub fn address(&self, observer: Observer) -> Option<&[u8]>
        ensures to { IfSome result (λ to. (x : Watching) × IsListed (table_of self.now) observer x × (to.now ≡ x.from)) }
        ensures forgotten { IfNone result (IsUnlisted (table_of self.now) observer) }
        ensures within { IfSome result (λ to. length to.now ≤ 28) }
    {
        if !is_there(self.places.as_slice(), observer.number, observer.place) {
            return None;
        }
        address_at(&self.places[observer.place])
    }

    /// Returns the token of an observer, which its notifications have, or `None` if it is forgotten.
    #[must_use]
    pub fn token(&self, observer: Observer) -> Option<&[u8]>
        ensures token { IfSome result (λ token. (x : Watching) × IsListed (table_of self.now) observer x × (token.now ≡ x.token)) }
        ensures forgotten { IfNone result (IsUnlisted (table_of self.now) observer) }
        ensures within { IfSome result (λ token. length token.now ≤ 8) }
    {
        if !is_there(self.places.as_slice(), observer.number, observer.place) {
            return None;
        }
        token_at(&self.places[observer.place])
    }
}
