//! Calls of osc_window.

use crate::answer::Answer;
use crate::fields::Fields;
use osc_window::{Gate, Window, WindowSize};

/// Returns the size that a field says: `default`, 32, or else 64.
fn size(fields: &Fields<'_>) -> WindowSize {
    if fields.word(0) == "default" {
        return WindowSize::default();
    }
    fields.window_size(0)
}

/// Takes numbers as they come, from the third field on: asks for each whether it is new, and marks it if it is. After a field `?` it only
/// asks.
fn asked(window: &mut Window, fields: &Fields<'_>, answer: &mut Answer) {
    let mut marks = true;
    for place in 2..fields.len() {
        if fields.word(place) == "?" {
            marks = false;
        } else if let Some(number) = fields.partial_iv(place) {
            let is_new = window.is_new(number);
            if is_new && marks {
                window.mark(number);
            }
            answer.word(if is_new { "new" } else { "old" });
        }
    }
    answer.print(window.size().places());
}

pub(crate) fn window(fields: &Fields<'_>, answer: &mut Answer) {
    let size = size(fields);
    let mut window = match fields.partial_iv(1) {
        Some(floor) => Window::from_floor(floor, size),
        None => Window::fresh(size),
    };
    asked(&mut window, fields, answer);
}

/// Shows whether a gate is open, and the challenge that is in force at a moment.
fn told(gate: &Gate, clock: u64, answer: &mut Answer) {
    answer.word(if gate.is_open() { "open" } else { "closed" });
    let in_force = gate.in_force(clock);
    match &in_force {
        Some(challenge) => {
            answer.bytes(&challenge.0);
            answer.print(challenge.1);
        }
        None => answer.word("none"),
    }
}

/// Opens a gate, and then takes the numbers that come to its window.
pub(crate) fn gate(fields: &Fields<'_>, answer: &mut Answer) {
    let mut gate = Gate::Restarted { challenge: None };
    told(&gate, 0, answer);
    if let Some(number) = fields.partial_iv(1) {
        gate.open_at(number, size(fields));
    }
    told(&gate, 0, answer);
    if let Gate::Open(opened) = gate {
        let mut window = opened;
        asked(&mut window, fields, answer);
    }
}

/// Issues two challenges one after the other, and shows the one that is in force at a moment.
pub(crate) fn challenge(fields: &Fields<'_>, answer: &mut Answer) {
    fields.count(5);
    let mut gate = Gate::Restarted { challenge: None };
    gate.issue(fields.array::<8>(0), fields.number(1));
    if !gate.is_open() {
        gate.issue(fields.array::<8>(2), fields.number(3));
    }
    told(&gate, fields.number(4), answer);
}
