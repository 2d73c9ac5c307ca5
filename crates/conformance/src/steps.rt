//! The steps of an endpoint's row.

use crate::answer::Answer;
use crate::fields::{Fields, NamedContext};
use crate::refusal::{Made, Refusal};
use osc_context::Context;

/// What the room for a message is filled with.
pub(crate) const FILLED_WITH: u8 = 0xaa;

/// How a row's steps are made.
#[derive(Clone, Copy, PartialEq, Eq)]
pub(crate) enum Way {
    ByTake,
    ByHalves,
    /// By the call that makes the Echo value of the next number.
    Counted,
    /// By the two halves of that call.
    CountedByHalves,
    ByRun,
    ByRunOn,
}

impl Way {
    /// Returns whether these steps are made this way by calls, which is so if one of them is no event.
    pub(crate) fn calls(self, steps: &[Step<'_>]) -> bool {
        !matches!(self, Way::ByRun | Way::ByRunOn) || !are_events(steps)
    }

    /// Returns the way of a step whose Echo value is that of the next number.
    pub(crate) fn counted(self) -> Way {
        if self == Way::ByHalves {
            Way::CountedByHalves
        } else {
            Way::Counted
        }
    }
}

/// A step of a row: its verb, and its fields.
#[derive(Drop)]
pub(crate) struct Step<'t> {
    pub(crate) verb: &'t str,
    pub(crate) fields: Fields<'t>,
    /// The contexts that the first field may name.
    contexts: &'t [NamedContext<'t>],
}

impl Step<'_> {
    /// Returns the context that the first field names.
    pub(crate) fn context(&self) -> Option<Context> {
        let context = self.fields.context(self.contexts);
        if context.is_none() {
            self.fields.refuse();
        }
        context
    }

    /// Returns whether the step is an event, which runs know.
    pub(crate) fn is_event(&self) -> bool {
        !matches!(
            self.verb,
            "add" | "advance" | "apart" | "distinct" | "is-open" | "next" | "replace" | "skip"
        ) && !self.is_counted()
    }

    /// Returns whether the step is `take NOW counted MID DATAGRAM`: the server makes the Echo value of its next number.
    pub(crate) fn is_counted(&self) -> bool {
        self.verb == "take" && self.fields.word(1) == "counted"
    }

    /// Returns whether the step is `restart` without a number: the end goes on at the number that is kept.
    pub(crate) fn restarts_at_kept(&self) -> bool {
        self.verb == "restart" && self.fields.word(0).is_empty()
    }

    /// Reads `apart COUNT`: how many places registrations have of their own, or `none`.
    pub(crate) fn registrations(&self) -> Option<usize> {
        self.fields.count(1);
        match self.fields.word(0) {
            "none" => None,
            _ => Some(self.fields.index(0)),
        }
    }

    /// Makes `saved NUMBER` by a call that returns whether that was the number to save.
    pub(crate) fn saved(&self, was_asked: Option<bool>) -> Made<&'static str> {
        self.fields.count(1);
        self.was_asked(was_asked)
    }

    /// Returns the word for what came of a save, by a call that returns whether it was the one that was asked for.
    pub(crate) fn was_asked(&self, was_asked: Option<bool>) -> Made<&'static str> {
        match was_asked {
            Some(true) => Ok("saved"),
            Some(false) => Ok("not-asked"),
            None => Err(Refusal::Bad),
        }
    }
}

/// Returns whether all steps are events.
pub(crate) fn are_events(steps: &[Step<'_>]) -> bool {
    steps.iter().all(|step| step.is_event())
}

/// Returns the steps up to the next start.
pub(crate) fn up_to_start<'s, 't>(steps: &'s [Step<'t>]) -> &'s [Step<'t>] {
    match steps.iter().position(|step| step.verb == "start") {
        Some(place) => &steps[..place],
        None => steps,
    }
}

/// Returns the steps of a row, which are separated by semicolons.
pub(crate) fn steps_of<'t>(
    text: &'t str,
    contexts: &'t [NamedContext<'t>],
    answer: &mut Answer,
) -> Vec<Step<'t>> {
    let mut steps = Vec::new(answer.alloc);
    for step in text.split(';') {
        let step = step.trim();
        let (verb, rest) = step.split_once(' ').unwrap_or((step, ""));
        let fields = Fields::read(answer.alloc, rest);
        let step = Step {
            verb,
            fields,
            contexts,
        };
        if steps.push(step).is_err() {
            answer.is_whole = false;
        }
    }
    steps
}
