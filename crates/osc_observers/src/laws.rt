//! Laws about the definitions. Each is the contract of a function that does nothing.

ghost use Rattle.osc_observers.specs.Laws.{EndsOnce, IsGone, NoneNotedAfter, OneEntryEach, WithinADay};

/// States that each observer that registered is listed or has ended, once, over every history: by an RST, a CON that failed, a registration in its
/// place, or since it was forgotten. Then it is at no place any more, and no notification is noted for it (RFC 7641, 3.6, 4.1 and 4.5).
pub fn observers_end_once()
    ensures each { EndsOnce }
    ensures gone { IsGone }
    ensures unnoted { NoneNotedAfter }
{}

/// States that an address and a token have one entry at most, over every history (RFC 7641, 4.1).
pub fn one_entry_each()
    ensures { OneEntryEach }
{}

/// States that an observer gets a CON at least every 24 hours, over every history whose moments don't go back, where each NON is sent only while
/// `needs_con` says no: its registration or a CON to it lies less than 86,400,000 ms before each NON (RFC 7641, 4.5).
pub fn confirmable_each_day()
    ensures { WithinADay }
{}
