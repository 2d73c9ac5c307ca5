//! The example of osc_file's record.

ghost use Rattle.std.specs.Prelude.{◌≡◌, IfOk};
ghost use Rattle.osc_context.specs.declared.record_keeper.KeptNumbers.{KeptNumbers};

use osc_context::{Context, KeptNumbers};
use osc_file::{RecordFile, RecordTrouble, TryLock};
use std::rt::Files;

/// Makes the record of an end that was never used. It is called once, when the end gets its context.
pub fn provision<R: Files + Alloc>(rt: &R, context: &Context) -> Result<KeptNumbers, RecordTrouble>
where
    R::File: TryLock,
    ensures { IfOk result (λ kept. kept ≡ record { sender = 0; received = 0 }) }
{
    let keeper = RecordFile::first(rt, "record", context.fingerprint())?;
    Ok(keeper.numbers())
}

/// Opens the record in each later run.
pub fn numbers_of_this_run<R: Files + Alloc>(
    rt: &R,
    context: &Context,
) -> Result<KeptNumbers, RecordTrouble>
where
    R::File: TryLock,
{
    let keeper = RecordFile::open(rt, "record", context.fingerprint())?;
    Ok(keeper.numbers())
}
