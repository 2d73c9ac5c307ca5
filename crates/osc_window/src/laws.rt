//! Laws about the definitions alone. Each is the contract of a function that does nothing.

ghost use Rattle.osc_window.specs.Laws.{FreshTakesNew, FloorTakesNew, InOrder};

/// States that after any marks, each of a number that was new, a window takes exactly the new numbers (RFC 8613, 7.4).
pub fn takes_new_numbers()
    ensures fresh { FreshTakesNew }
    ensures from_floor { FloorTakesNew }
{}

/// States that a window of one place takes numbers in order alone: what it takes is above all that was marked.
pub fn in_order()
    ensures { InOrder }
{}
