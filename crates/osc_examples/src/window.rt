//! The example of osc_window.

ghost use Rattle.std.specs.Prelude.{◌≡◌, IsTrue, not};
ghost use Rattle.osc_context.specs.Views.{number_of};
ghost use Rattle.osc_window.specs.Views.{takes};

use osc_context::Piv;
use osc_window::Window;

/// Returns whether a request's number is new. If it is, the number is spent, and is a replay from then on. The request was opened
/// before, and its tag is right.
pub fn spend(window: &mut Window, number: Piv) -> bool
    ensures { (result ≡ takes window.old (number_of number)) × IsTrue (not (takes window.new (number_of number))) }
{
    let is_new = window.is_new(number);
    if is_new {
        window.mark(number);
    }
    is_new
}
