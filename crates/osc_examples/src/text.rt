//! The example of osc_text.

ghost use Rattle.std.specs.Prelude.{ℕ, List, IfSome};
ghost use Rattle.osc_text.specs.Hex.{SpellsBytes};
ghost use Rattle.osc_text.specs.Opening.{OpenText};
ghost use Rattle.osc_text.specs.declared.opening.Opening.TheVariants.{Request};

use osc_text::{Agreed, Opening, open_text, read_hex};
use std::alloc::Global;
use std::io::Write;

/// Prints what a request says, one part per line, or the one line of a refusal. The request is a word of hex. The status is 0 if it
/// opens, and 2 if it is refused.
pub fn print_request<W: Write>(
    alloc: Global,
    agreed: Agreed<'_>,
    word: &str,
    out: &mut W,
) -> Option<u8>
    ensures { IfSome result (λ s. (datagram : List ℕ) × (lines : List (List ℕ)) × SpellsBytes word.now datagram
        × OpenText agreed.entry Request datagram lines s) }
{
    let Ok(mut datagram) = read_hex(alloc, word) else {
        return None;
    };
    open_text(alloc, agreed, Opening::Request, &mut datagram, out).ok()
}
