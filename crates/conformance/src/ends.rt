//! Rows of ends: their steps are read once, and made over each of the ends that the verb names.

use crate::answer::Answer;
use crate::fields::NamedContext;
use crate::keeper::Memory;
use crate::peer_bytes::PeerBytes;
use crate::steps::{Step, Way, steps_of};
use crate::{client, kept, messages, nodes, observing, peer, server, turns};
use osc_kept::{KeptClient, KeptServer};
use std::alloc::AllocError;

/// What the steps of a row left, if the row shows it.
pub(crate) type Left = Result<Option<Answer>, AllocError>;

/// An end that a row begins or starts.
pub(crate) trait End: Drop + Sized {
    /// Makes steps of a row in one way.
    fn make(&mut self, steps: &[Step<'_>], way: Way, answer: &mut Answer) -> Left;
}

/// An end that the first step of a row begins.
pub(crate) trait Begins: End {
    fn begin(first: &Step<'_>, answer: &mut Answer) -> Option<Self>;
}

/// Begins an end of one kind, and makes steps over it in one way.
fn in_a_way<E: Begins>(first: &Step<'_>, steps: &[Step<'_>], way: Way, answer: &mut Answer) {
    let Some(mut end) = E::begin(first, answer) else {
        return first.fields.refuse();
    };
    match end.make(steps, way, answer) {
        Ok(Some(left)) => answer.leave(&left),
        Ok(None) => {}
        Err(_) => answer.is_whole = false,
    }
}

/// Makes steps over an end of one kind, by `take` and by its halves.
pub(crate) fn in_both_ways<E: Begins>(first: &Step<'_>, steps: &[Step<'_>], answer: &mut Answer) {
    in_a_way::<E>(first, steps, Way::ByTake, answer);
    answer.again();
    in_a_way::<E>(first, steps, Way::ByHalves, answer);
}

/// Makes steps in these ways, and by both runs.
pub(crate) fn in_all_ways<E: Begins>(first: &Step<'_>, steps: &[Step<'_>], answer: &mut Answer) {
    in_both_ways::<E>(first, steps, answer);
    answer.again();
    in_a_way::<E>(first, steps, Way::ByRun, answer);
    answer.again();
    in_a_way::<E>(first, steps, Way::ByRunOn, answer);
}

/// Makes the calls of a row's steps.
pub(crate) fn make<'t>(
    verb: &str,
    text: &'t str,
    contexts: &'t [NamedContext<'t>],
    answer: &mut Answer,
) {
    let steps = steps_of(text, contexts, answer);
    let Some((first, rest)) = steps.split_first() else {
        return;
    };
    match verb {
        "server" => server::over_all(first, rest, &steps, answer),
        "client" => client::over_all(first, rest, answer),
        "kept-server" => kept::over_all::<KeptServer<Memory<'_>>>(&steps, answer),
        "kept-client" => kept::over_all::<KeptClient<Memory<'_>, 2>>(&steps, answer),
        "kept-peer" => peer::over_both(&steps, answer),
        "peers-in-turn" => turns::make(&steps, answer),
        "messages" => messages::make(&steps, answer),
        "node" => nodes::make(&steps, answer),
        "observers" => observing::make(&steps, answer),
        "peer-bytes" => in_both_ways::<PeerBytes>(first, rest, answer),
        _ => answer.is_whole = false,
    }
    for step in &steps {
        answer.is_whole = answer.is_whole && !step.fields.is_bad();
    }
}
