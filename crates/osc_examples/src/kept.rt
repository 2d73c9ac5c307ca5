//! The example of osc_kept.

ghost use Rattle.std.specs.Prelude.{IfOk, IfErr};
ghost use Rattle.osc_context.specs.Views.{as_server};
ghost use Rattle.osc_life.specs.ServerHistory.{Add, Added, Begin, Then};
ghost use Rattle.osc_life.specs.declared.start.Start.{Start};
ghost use Rattle.osc_kept_ends.specs.KeptServing.{IsKept};
ghost use Rattle.osc_kept_ends.specs.Numbering.{upcoming};
ghost use Rattle.osc_kept_ends.specs.Owning.{own_in};
ghost use Rattle.osc_kept_ends.specs.Refusals.{RefusesAt};
ghost use Rattle.osc_window.specs.declared.window_size.WindowSize.TheVariants.{Places64};

use osc_context::{Context, Keeper};
use osc_kept::{KeptError, KeptServer};
use osc_window::WindowSize;

/// Starts a server whose Sender Sequence Numbers outlive it, over any keeper: fresh if the keeper holds 0, and otherwise as after
/// a restart, above each number that an earlier life may have used. Gives the keeper back if it fails, or has no number left.
pub fn server_over<K: Keeper + Drop>(
    context: Context,
    keeper: K,
) -> Result<KeptServer<K>, (KeptError, K)>
    ensures begins { IfOk result (λ s. (start : Start) × IsKept s.server (upcoming (own_in s.source))
        (Then Begin (Add (as_server context) start Places64 1) (Added 0))) }
    ensures refused { IfErr result (λ e. RefusesAt K.loads K.failures keeper e.0 e.1) }
{
    KeptServer::start(context, keeper, WindowSize::Places64)
}
