//! The example of osc_observers.

ghost use Rattle.std.specs.Prelude.{◌≡◌, IfSome};
ghost use Rattle.osc_observers.specs.Calls.{IsListed};
ghost use Rattle.osc_observers.specs.Views.{table_of};
ghost use Rattle.osc_observers.specs.Watching.{Watching, needs_con};

use osc_observers::{Observer, Observers};

/// Notes that a notification is sent now, with this call if it has to be a CON, and returns whether it has to be one.
pub fn note_next<const N: usize>(
    observers: &mut Observers<N>,
    observer: Observer,
    message_id: u16,
    call: u64,
    now: u64,
) -> Option<bool>
    ensures { IfSome result (λ confirmable. (x : Watching) × IsListed (table_of observers.old) observer x
        × (confirmable ≡ needs_con now x)) }
{
    let confirmable = observers.needs_con(observer, now)?;
    let call = if confirmable { Some(call) } else { None };
    observers.note(observer, message_id, call, now);
    Some(confirmable)
}
