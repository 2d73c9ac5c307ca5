//! Calls of osc_context about numbers that a keeper keeps.

ghost use Rattle.osc_context.specs.Reserving.{Covers};
ghost use Rattle.osc_context.specs.Views.{limit_of, next_of};

use crate::answer::Answer;
use crate::fields::Fields;
use crate::keeper::Memory;
use osc_context::{Numbers, NumbersError, Piv};

/// A sender's keeper, and the numbers of its present life.
#[derive(Drop)]
struct Sender<'t> {
    keeper: Memory<'t>,
    numbers: Numbers,
    ghost covered: { Covers keeper.saved (next_of numbers) (limit_of numbers) },
}

impl<'t> Sender<'t> {
    fn start(mut keeper: Memory<'t>) -> Result<Sender<'t>, (NumbersError, Memory<'t>)> {
        match Numbers::start(&mut keeper) {
            Ok(numbers) => Ok(Sender { keeper, numbers }),
            Err(refusal) => Err((refusal, keeper)),
        }
    }

    fn next(&mut self) -> Result<Piv, NumbersError> {
        self.numbers.next(&mut self.keeper)
    }
}

/// A keeper, with or without a sender that is started over it.
#[derive(Drop)]
enum Life<'t> {
    Stopped(Memory<'t>),
    Started(Sender<'t>),
}

impl<'t> Life<'t> {
    fn into_keeper(self) -> Memory<'t> {
        match self {
            Life::Stopped(keeper) => keeper,
            Life::Started(sender) => {
                let Sender { keeper, .. } = sender;
                keeper
            }
        }
    }

    /// Stops the sender, if one is started, and starts one.
    fn start(self, answer: &mut Answer) -> Life<'t> {
        match Sender::start(self.into_keeper()) {
            Ok(sender) => {
                answer.print(sender.numbers.upcoming());
                Life::Started(sender)
            }
            Err((refusal, keeper)) => {
                answer.refused(refusal);
                Life::Stopped(keeper)
            }
        }
    }

    /// Shows the number that the sender gives.
    fn next(&mut self, fields: &Fields<'_>, answer: &mut Answer) {
        match self {
            Life::Started(sender) => match sender.next() {
                Ok(number) => answer.print(number.number()),
                Err(refusal) => answer.refused(refusal),
            },
            Life::Stopped(_) => fields.refuse(),
        }
    }
}

/// Runs a sender over a keeper, step by step, from the third field on. A step is `start` or `next`.
pub(crate) fn numbers(fields: &Fields<'_>, answer: &mut Answer) {
    let keeper = Memory::new(answer.alloc, fields.number(0), fields.word(1));
    let mut life = Life::Stopped(keeper);
    for place in 2..fields.len() {
        match fields.word(place) {
            "start" => life = life.start(answer),
            "next" => life.next(fields, answer),
            _ => fields.refuse(),
        }
    }
    life.into_keeper().show(answer);
}
