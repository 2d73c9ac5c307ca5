//! How a life of a context begins (RFC 8613, B.1).

ghost use Rattle.std.specs.Prelude.{◌≡◌, ◌<◌, ◌+◌, ◌^◌, None};
ghost use Rattle.osc_context.specs.Views.{as_server, number_of};
ghost use Rattle.osc_protect.specs.Views.{context_of};

use crate::doubt::Doubt;
use crate::slot::Slot;
use crate::start::Start;
use osc_context::Piv;
use osc_protect::KeyedContext;
use osc_window::{Gate, Window, WindowSize};

impl Slot {
    ghost use Rattle.osc_life.specs.Agrees.{SlotAgrees};
    ghost use Rattle.osc_life.specs.Life.{Life, born, renewed, succeeding};

    /// Begins a context, which keeps its key schedules if it is one that does.
    #[must_use]
    pub fn begin(context: KeyedContext, start: Start, size: WindowSize) -> Slot
        ensures context { result.context ≡ context }
        ensures agrees { SlotAgrees result (born (as_server (context_of context)) start size) }
    {
        let closed = Gate::Restarted { challenge: None };
        let (gate, doubt, next) = match start {
            Start::Fresh(next) => (Gate::Open(Window::fresh(size)), None, next),
            Start::Restarted(next) => (closed, None, next),
            Start::Received { next, highest } => {
                (Gate::Open(Window::from_floor(highest, size)), None, next)
            }
            Start::Reserved {
                next,
                highest,
                ahead,
            } => (closed, Some(Doubt::up_to(highest, ahead)), next),
        };
        Slot {
            context,
            size,
            gate,
            doubt,
            next: next.number(),
            life: 0,
        }
    }

    /// Begins a new life.
    pub fn renew(&mut self, next: Piv)
        requires { self.old.life + 1 < 2 ^ 64 }
        ensures context { self.new.context ≡ self.old.context }
        ensures doubt { self.new.doubt ≡ None }
        ensures kept { (l : Life) → SlotAgrees self.old l → SlotAgrees self.new (renewed (number_of next) l) }
    {
        self.gate = Gate::Restarted { challenge: None };
        self.doubt = None;
        self.next = next.number();
        self.life += 1;
    }

    /// Puts another context in the place of this one. Its life begins as that of a context that is added, but that older tickets are stale.
    pub fn succeed(&mut self, context: KeyedContext, start: Start, size: WindowSize)
        requires { self.old.life + 1 < 2 ^ 64 }
        ensures { (l : Life) → SlotAgrees self.old l → SlotAgrees self.new (succeeding (as_server (context_of context)) start size l) }
    {
        let life = self.life + 1;
        *self = Slot::begin(context, start, size);
        self.life = life;
    }
}
