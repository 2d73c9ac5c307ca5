//! The example of osc_file.

ghost use Rattle.std.specs.Prelude.{◌≡◌, ◌+◌, IfOk};
ghost use Rattle.osc_context.specs.Views.{number_of};

use osc_context::{Numbers, NumbersError, Piv};
use osc_file::{FileKeeper, TryLock};
use std::rt::Files;

/// Returns the next two Sender Sequence Numbers, over all runs of a program: 0 and 1 in the first run, which leaves 64 in the file,
/// and 64 and 65 in the next one.
pub fn next_two<R: Files + Alloc>(rt: &R) -> Result<(Piv, Piv), NumbersError>
where
    R::File: TryLock,
    ensures { IfOk result (λ two. number_of two.1 ≡ number_of two.0 + 1) }
{
    let mut keeper = FileKeeper::new(rt, "numbers");
    let mut numbers = Numbers::start(&mut keeper)?;
    let first = numbers.next(&mut keeper)?;
    Ok((first, numbers.next(&mut keeper)?))
}
