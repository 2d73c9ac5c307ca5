//! What is to happen in a run: in which order datagrams are delivered, what becomes of one of them, when an end begins a new
//! life, and which call of a keeper goes wrong.

use crate::tests::kept::memory::Wrong;

/// One of the two ends.
#[derive(Clone, Copy, Debug, PartialEq, Eq)]
pub enum End {
    Client,
    Server,
}

/// The order in which sealed datagrams are delivered.
#[derive(Clone, Copy, Debug)]
pub enum Order {
    AsSealed,
    Reverse,
}

/// What becomes of a datagram that isn't just delivered.
#[derive(Clone, Copy, Debug)]
pub enum Fate {
    Lost,
    /// It is delivered twice, one delivery right after the other.
    Twice,
    /// It is delivered, and again when nothing else is left to happen.
    TwiceAtTheEnd,
}

/// How an end begins a new life.
#[derive(Clone, Copy, Debug)]
pub enum Beginning {
    /// By a restart: the application keeps the tickets that it holds.
    Restart,
    /// Its process ends, and the next one starts it over its keeper. The tickets are gone.
    Start,
}

/// A new life that an end begins after a number of events.
#[derive(Clone, Copy, Debug)]
pub struct NewLife {
    pub end: End,
    pub by: Beginning,
    pub after: u8,
}

/// What is to happen in a run.
#[derive(Clone, Copy, Debug)]
pub struct Plan {
    pub order: Order,
    /// What becomes of a datagram, which is given by its index among those that are sent.
    pub fate: Option<(u64, Fate)>,
    pub new_life: Option<NewLife>,
    /// The call of an end's keeper that goes wrong, which is given by its index.
    pub wrong: Option<(End, u64, Wrong)>,
}

impl Plan {
    /// Returns what becomes of the datagram with this index.
    pub fn fate_of(&self, datagram: u64) -> Option<Fate> {
        match self.fate {
            Some((index, fate)) if index == datagram => Some(fate),
            _ => None,
        }
    }

    /// Returns the new life that an end begins after this many events.
    pub fn new_life_after(&self, events: u8) -> Option<NewLife> {
        match self.new_life {
            Some(new_life) if new_life.after == events => Some(new_life),
            _ => None,
        }
    }

    /// Returns the call of an end's keeper that goes wrong.
    pub fn wrong_of(&self, end: End) -> Option<(u64, Wrong)> {
        match self.wrong {
            Some((other, call, wrong)) if other == end => Some((call, wrong)),
            _ => None,
        }
    }
}

/// Returns `None` at 0, and then each fate of each datagram.
pub fn fate_at(place: u64) -> Option<(u64, Fate)> {
    let index = place.checked_sub(1)?;
    let fate = match index % 3 {
        0 => Fate::Lost,
        1 => Fate::Twice,
        _ => Fate::TwiceAtTheEnd,
    };
    Some((index / 3, fate))
}

/// Returns `None` at 0, and then each new life of an end, after no event and after each.
pub fn new_life_at(end: End, place: u8) -> Option<NewLife> {
    let index = place.checked_sub(1)?;
    let by = match index % 2 {
        0 => Beginning::Restart,
        _ => Beginning::Start,
    };
    let after = index / 2;
    Some(NewLife { end, by, after })
}

/// Returns `None` at 0, and then each way in which each call of an end's keeper goes wrong.
pub fn wrong_at(end: End, place: u64) -> Option<(End, u64, Wrong)> {
    let index = place.checked_sub(1)?;
    let wrong = match index % 2 {
        0 => Wrong::Fails,
        _ => Wrong::Stops,
    };
    Some((end, index / 2, wrong))
}
