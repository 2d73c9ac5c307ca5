//! What `derive` prints.

ghost use Rattle.std.specs.Prelude.{◌≡◌, ◌⊎◌, ℕ, List, IfOk};
ghost use Rattle.osc_context.specs.Views.{as_client};
ghost use Rattle.osc_text.specs.Contexts.{DeriveText, key_lines};
ghost use Rattle.osc_text.specs.Written.{Writes};

use crate::agreed::Agreed;
use crate::fault::Fault;
use crate::lines::{put_bytes, put_refused};
use osc_context::{Context, one_context_refusal};
use std::alloc::Global;
use std::io::Write;

/// Derives a context, and writes its keys and its Common IV, one per line, or the one line of a refusal. Returns the status: 0 if the
/// context is derived, 2 if it is refused. Builds each line completely before writing it.
pub fn derive_text<W: Write>(alloc: Global, agreed: Agreed<'_>, out: &mut W) -> Result<u8, Fault>
    // Each context has a text. The next two clauses say that this text is what is written.
    ensures told { (lines : List (List ℕ)) × (status : ℕ) × DeriveText agreed.entry lines status }
    ensures written { (lines : List (List ℕ)) (status : ℕ) → DeriveText agreed.entry lines status
        → Writes (W.contents out.old) (W.contents out.new) lines result }
    ensures status { (lines : List (List ℕ)) (status : ℕ) → DeriveText agreed.entry lines status
        → IfOk result (λ s. s ≡ status) }
    ensures two { IfOk result (λ s. (s ≡ 0) ⊎ (s ≡ 2)) }
{
    // For the proof alone.
    one_context_refusal();
    write_derivation(alloc, agreed, out)
}

/// Writes what is derived, or the refusal.
fn write_derivation<W: Write>(alloc: Global, agreed: Agreed<'_>, out: &mut W) -> Result<u8, Fault>
    ensures { (lines : List (List ℕ)) × (status : ℕ) × DeriveText agreed.entry lines status
        × Writes (W.contents out.old) (W.contents out.new) lines result × IfOk result (λ s. s ≡ status) }
{
    match agreed.derive() {
        Ok(context) => {
            put_keys(alloc, &context, out)?;
            Ok(0)
        }
        Err(refusal) => put_refused(alloc, refusal, out),
    }
}

/// Writes the keys and the Common IV of a context.
fn put_keys<W: Write>(alloc: Global, context: &Context, out: &mut W) -> Result<(), Fault>
    ensures { Writes (W.contents out.old) (W.contents out.new) (key_lines (as_client context.now)) result }
{
    put_bytes(alloc, "sender key", context.sender_key(), out)?;
    put_bytes(alloc, "recipient key", context.recipient_key(), out)?;
    put_bytes(alloc, "common iv", context.common_iv(), out)
}
