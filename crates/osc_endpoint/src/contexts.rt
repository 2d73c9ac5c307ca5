//! Where a server keeps its contexts.

ghost use Rattle.std.specs.Prelude.{◌≡◌, ◌≤◌, ℕ, List, Option, IfSome, IfNone, length, take, drop};
ghost use Rattle.std.proofs.Common.{ap};
ghost use Rattle.osc_protect.specs.Views.{shown};
ghost use Rattle.osc_endpoint.specs.Agrees.{TableAgrees};
ghost use Rattle.osc_life.specs.Deciding.{CanShow, Leaves};
ghost use Rattle.osc_context.specs.SecurityContext.{SecurityContext};
ghost use Rattle.osc_life.specs.Judging.{IsAskerOf};
ghost use Rattle.osc_life.specs.Life.{Life};
ghost use Rattle.osc_endpoint.specs.Table.{FindsAt, NamesAt, TableJudges, context_in};
ghost use Rattle.osc_life.specs.declared.slot.Slot.{Slot};

use crate::table;
use arrayvec::ArrayVec;
use osc_life::Decided;
use osc_life::siblings::{Named, Slot};

/// A table of contexts, wherever it lies. Only clauses read how many it has room for, its places and the context at each place, and whether
/// its bytes are such a table at all.
pub trait Contexts {
    ghost places: { ℕ };

    ghost is_table: { Self → Type 0 };

    ghost holds: { Self → List (Option Slot) → Type 0 };

    ghost context_at: { Self → ℕ → Option SecurityContext };

    /// Returns the index of the context that has this kid, and this kid context or none.
    fn find(&self, kid: &[u8], kid_context: Option<&[u8]>) -> Option<usize>
        requires { is_table self.now }
        ensures found { IfSome result (λ i. FindsAt (context_at self.now) i kid.now (shown kid_context.entry)) }
        ensures none { IfNone result ((i : ℕ) → FindsAt (context_at self.now) i kid.now (shown kid_context.entry) → ⊥) };

    /// Processes a request that names the context at its index.
    fn judge_at(&mut self, request: Named, datagram: &mut [u8], out: &mut [u8; 64]) -> Decided
        requires table { is_table self.old }
        requires named { NamesAt (context_at self.old) request datagram.old }
        requires asker { IsAskerOf request.asker datagram.old }
        ensures decided { (slots : List (Option Slot)) (lives : ℕ → Option Life) → holds self.old slots → TableAgrees slots lives
            → (new : List (Option Slot)) × holds self.new new × (length new ≡ length slots)
            × TableJudges lives request datagram.old result datagram.new (take result.reply out.new) new }
        ensures table { is_table self.new }
        ensures shown { CanShow result.decision datagram.new }
        ensures leaves { (slots : List (Option Slot)) → holds self.old slots → Leaves slots result.decision datagram.old datagram.new }
        ensures within { result.reply ≤ 64 }
        ensures behind { drop result.reply out.new ≡ drop result.reply out.old };

    ghost held: { (t : Self) (slots : List (Option Slot)) (i : ℕ) → holds t slots → context_at t i ≡ context_in slots i };
}

impl<const N: usize> Contexts for ArrayVec<Option<Slot>, N> {
    ghost places = { N };

    ghost is_table = { λ _. Unit {0} };

    ghost holds = { λ table slots. table.items ≡ slots };

    ghost context_at = { λ table i. context_in table.items i };

    fn find(&self, kid: &[u8], kid_context: Option<&[u8]>) -> Option<usize> {
        table::find(self.as_slice(), kid, kid_context)
    }

    fn judge_at(&mut self, request: Named, datagram: &mut [u8], out: &mut [u8; 64]) -> Decided {
        table::judge_at(self.as_mut_slice(), request, datagram, out)
    }

    ghost held = { λ table slots i same. ap (λ (xs : List (Option Slot)). context_in xs i) same };
}
