//! The messages that came to an endpoint, and what was sent for each (RFC 7252, 4.5 and 5.2).

ghost use Rattle.std.specs.Prelude.{ℕ, ◌≡◌, ◌≤◌, ◌<◌, ◌-◌, ◌^◌, IfErr, IfNone, IfOk, IfSome, IsOk, OnErr, false, length};
ghost use Rattle.osc_message.specs.HearingCalls.{first_stage_of};

use crate::arrival::{Again, Arrival, Stage, Way};
use crate::exchange::Address;
use crate::heard::{
    acknowledge_late_at, again_at, answer_at, earliest_due, find_due_ack, find_heard, find_unused,
    is_there, sender_at, way_at,
};
use arrayvec::ArrayVec;
use std::error::Error;
use std::fmt;

/// A message that came, and was opened.
#[derive(Drop)]
pub struct Incomer {
    pub from: Address,
    pub message_id: u16,
    pub confirmable: bool,
    /// Whether it is a request, whose answer is still to come. Of a response its ACK is all that is sent.
    pub awaits_answer: bool,
}

/// A message that came: its number among all of them, and its place, from 0 on. Keep what you answer in its ACK in a buffer of your own for that
/// place: it is what you send again, byte by byte.
#[derive(Clone, Copy, Debug, PartialEq, Eq)]
pub struct Arrived {
    pub number: u64,
    pub place: usize,
}

/// Why a message that came can't be kept in mind.
#[derive(Clone, Copy, Debug, PartialEq, Eq)]
pub enum NoteError {
    /// No place is free, and none has a message for which all was sent.
    Full,
    /// All numbers are used.
    NumbersExhausted,
}

impl fmt::Display for NoteError {
    ghost use Rattle.std.specs.Prelude.{Some};
    ghost use Rattle.osc_message.specs.HearingCalls.{note_error_text};

    ghost output = { λ error. Some (note_error_text error) };

    fn fmt<W: fmt::Write>(&self, f: &mut fmt::Formatter<W>) -> fmt::Result {
        f.write_str(match self {
            NoteError::Full => "Full",
            NoteError::NumbersExhausted => "NumbersExhausted",
        })
    }
}

impl Error for NoteError {}

/// A message that came before: its place, and what it gets.
#[derive(Clone, Copy, Debug, PartialEq, Eq)]
pub struct Repeated {
    pub place: usize,
    pub again: Again,
}

/// Returns what was sent for a message that comes now.
fn first_stage(awaits_answer: bool) -> Stage
    ensures { result ≡ first_stage_of awaits_answer }
{
    if awaits_answer {
        Stage::Waiting
    } else {
        Stage::Done
    }
}

/// The messages that came to an endpoint, with a place for each of N. Moments are in milliseconds, of a clock of yours that doesn't go back.
#[derive(Drop)]
pub struct Arrivals<const N: usize> {
    places: ArrayVec<Option<Arrival>, N>,
    next_number: u64,
}

impl<const N: usize> Arrivals<N> {
    ghost use Rattle.osc_message.specs.Arriving.{Start, arrived};
    ghost use Rattle.osc_message.specs.Hearing.{Heard, is_due};
    ghost use Rattle.osc_message.specs.HearingCalls.{AcksBy, AnswersBy, IsFirstReason, MayNote, NotesBy, Recalls, WayBy};
    ghost use Rattle.osc_message.specs.declared.arrivals.NoteError.{NoteError};
    ghost use Rattle.osc_message.specs.HearingViews.{came_of};
    ghost use Rattle.osc_message.specs.Slots.{IsAt, NonePasses};

    /// Makes a table with N free places.
    #[must_use]
    pub fn new() -> Arrivals<N>
        ensures { came_of result ≡ arrived (Start N) }
    {
        let mut places = ArrayVec::new();
        for _ in 0..N {
            places.push(None);
        }
        Arrivals {
            places,
            next_number: 0,
        }
    }

    /// Returns what a CON or NON with this Message ID from this address gets if it came before, and `None` if it didn't, or if it is forgotten
    /// (RFC 7252, 4.5). It keeps no application from being asked twice: that a request is new, an end of OSCORE says by its number.
    #[must_use]
    pub fn recall(&self, from: &[u8], message_id: u16, now: u64) -> Option<Repeated>
        ensures { Recalls (came_of self.now) from.now message_id now result }
    {
        let place = find_heard(self.places.as_slice(), from, message_id, now)?;
        let again = again_at(&self.places[place]);
        Some(Repeated { place, again })
    }

    /// Returns the address that the message at a place came from, and its Message ID, or `None` if the place is free.
    #[must_use]
    pub fn sender(&self, place: usize) -> Option<(&[u8], u16)>
        ensures from { IfSome result (λ r. (x : Heard) × IsAt (came_of self.now).places place x × (r.0.now ≡ x.from) × (r.1 ≡ x.message_id)) }
        ensures free { IfNone result ((x : Heard) → IsAt (came_of self.now).places place x → ⊥) }
        ensures within { IfSome result (λ r. length r.0.now ≤ 28) }
    {
        if place >= self.places.len() {
            return None;
        }
        sender_at(&self.places[place])
    }

    /// Returns the place of the next message, or the first refusal in the order of `NoteError`.
    fn next_place(&self) -> Result<usize, NoteError>
        ensures found { IfOk result (λ place. MayNote (came_of self.now) place) }
        ensures refused { IfErr result (λ e. IsFirstReason (came_of self.now) e) }
    {
        let Some(place) = find_unused(self.places.as_slice()) else {
            return Err(NoteError::Full);
        };
        if self.next_number == u64::MAX {
            return Err(NoteError::NumbersExhausted);
        }
        Ok(place)
    }

    /// Says whether `note` would keep a message in mind now, and changes nothing: so you know it before you deliver one. Returns the first refusal
    /// in the order of `NoteError`: no place can be used anew, no number is left (own rule).
    pub fn check_note(&self) -> Result<(), NoteError>
        ensures accepted { IsOk result → (e : NoteError) → IsFirstReason (came_of self.now) e → ⊥ }
        ensures refused { IfErr result (λ e. IsFirstReason (came_of self.now) e) }
    {
        self.next_place()?;
        Ok(())
    }

    /// Keeps a message in mind that has opened, at this moment. What didn't open isn't kept: else anyone could put something in the place of a
    /// message to come, by its Message ID. It gets a free place, or that of the message for which all was sent and that came first. Returns the
    /// first refusal in the order of `NoteError`, which changes nothing.
    pub fn note(&mut self, message: Incomer, now: u64) -> Result<Arrived, NoteError>
        ensures noted { IfOk result (λ a. NotesBy (came_of self.old) (came_of self.new) message now a) }
        ensures refused { IfErr result (λ e. IsFirstReason (came_of self.old) e) }
        ensures unchanged { OnErr result (self.new ≡ self.old) }
    {
        let place = self.next_place()?;
        let number = self.next_number;
        let stage = first_stage(message.awaits_answer);
        self.places[place] = Some(Arrival {
            number,
            from: message.from,
            message_id: message.message_id,
            confirmable: message.confirmable,
            moment: now,
            stage,
        });
        self.next_number = number + 1;
        Ok(Arrived { number, place })
    }

    /// Returns how an answer to a message is sent, as `answer` would return it now, and changes nothing: `None` if it was answered before, or is
    /// forgotten (RFC 7252, 5.2).
    #[must_use]
    pub fn way(&self, arrived: Arrived) -> Option<Way>
        ensures { WayBy (came_of self.now) arrived result }
    {
        if !is_there(self.places.as_slice(), arrived.number, arrived.place) {
            return None;
        }
        way_at(&self.places[arrived.place])
    }

    /// Notes that a message is answered now, and returns how. Returns `None` if it was answered before, or is forgotten, and then changes nothing
    /// (RFC 7252, 5.2).
    pub fn answer(&mut self, arrived: Arrived) -> Option<Way>
        ensures { AnswersBy (came_of self.old) (came_of self.new) arrived result }
    {
        if !is_there(self.places.as_slice(), arrived.number, arrived.place) {
            return None;
        }
        answer_at(&mut self.places[arrived.place])
    }

    /// Notes that the ACK of a request is sent by itself, if one is due at this moment: its answer takes long (RFC 7252, 5.2.2). Returns the
    /// message. Call it until it returns `None`.
    pub fn acknowledge_late(&mut self, now: u64) -> Option<Arrived>
        ensures { AcksBy (came_of self.old) (came_of self.new) now result }
    {
        let place = find_due_ack(self.places.as_slice(), now)?;
        let Some(number) = acknowledge_late_at(&mut self.places[place]) else {
            unreachable!();
        };
        Some(Arrived { number, place })
    }

    /// Returns the moment until which no ACK is due, in milliseconds: sleep until then. From it on one is to be sent by itself (RFC 7252, 5.2.2).
    /// It is `u64::MAX` if no request waits.
    #[must_use]
    pub fn wake(&self) -> u64
        ensures until { (now : ℕ) → now < result → NonePasses (is_due now) (came_of self.now).places }
        ensures due { result < 2 ^ 64 - 1 → (now : ℕ) → result ≤ now → NonePasses (is_due now) (came_of self.now).places → ⊥ }
    {
        earliest_due(self.places.as_slice())
    }
}
