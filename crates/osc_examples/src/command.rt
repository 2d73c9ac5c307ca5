//! The example of osc_command.

ghost use Rattle.std.specs.Prelude.{◌≡◌, IsTrue};

use osc_command::{Keepers, command};
use osc_context::{Keeper, RecordKeeper};
use std::alloc::Global;
use std::io::{Read, Write};

/// Runs the command over one keeper and one record, whatever files its words name. Returns whether there was no fault; if there was none,
/// nothing was written to `err`.
pub fn works<R: Read, W: Write, E: Write, K: Keeper + Drop, P: RecordKeeper + Drop>(
    alloc: Global,
    words: &[String],
    input: &mut R,
    out: &mut W,
    err: &mut E,
    keeper: K,
    kept_record: P,
) -> bool
    ensures { IsTrue result → err.new ≡ err.old }
{
    let keepers = Keepers {
        numbers: |_: &str| keeper,
        records: |_: &str, _: [u8; 8], _: bool| kept_record,
    };
    command(alloc, words, input, out, err, keepers) != 1
}
