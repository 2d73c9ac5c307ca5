//! One context of a server, in its present life, as bytes.

ghost use Rattle.std.specs.Prelude.{◌≡◌, ◌≢◌, ◌≤◌, ◌<◌, ◌^◌, ◌⊎◌, IfSome, IsSome, IfOk, IfErr, OnErr, None, true, false, length, drop};
ghost use Rattle.std.specs.Option.{option_map};
ghost use Rattle.osc_context.specs.Views.{as_server, is_constant_time, number_of};
ghost use Rattle.osc_window.specs.Views.{places_of};
ghost use Rattle.osc_window.specs.Window.{HasPlaces};
ghost use Rattle.osc_coap.specs.Views.{parts_of};
ghost use Rattle.osc_protect.specs.Views.{context_of};
ghost use Rattle.osc_life.specs.Agrees.{SlotAgrees};
ghost use Rattle.osc_life.specs.Life.{Life, marked};
ghost use Rattle.osc_life.specs.Replies.{as_reply};
ghost use Rattle.osc_life.specs.Replying.{reply_mark};
ghost use Rattle.osc_life.specs.LifeAnswer.{LifeNotify, LifeReply, as_notification};
ghost use Rattle.osc_life.specs.Views.{reply_entry};
ghost use Rattle.osc_life.specs.declared.server_error.ReplyError.TheVariants.{KeeperFailed};
ghost use Rattle.osc_context_handle.specs.ContextBytes.{IsContext, is_constant_time_in, server_in};
ghost use Rattle.osc_handle.specs.SlotBytes.{HoldsIn, IsGateBytes, IsGateIn, IsHighestIn, IsSlotBytes, IsSlotIn, SameBut};
ghost use Rattle.osc_life.specs.declared.slot.Slot.{Slot as SlotOf};

use osc_coap::{Message, Token};
use osc_context::Piv;
use osc_context_handle::ContextHandle;
use osc_endpoint::ReplyError;
use osc_endpoint::siblings::{Asker, Slot};
use osc_protect::KeyedContext;
use osc_window::{Gate, Window, WindowParts, WindowSize};

/// One context of a server, in its present life.
#[repr(C)]
#[derive(Clone, Copy)]
pub struct SlotHandle {
    pub context: ContextHandle,
    /// The number of places in the window that the context gets: 1, 32 or 64.
    pub places: u8,
    /// The number of places in the window that is open.
    pub window_places: u8,
    /// 0: closed, 1: closed with a challenge, 2: open with no number, 3: open.
    pub gate: u8,
    /// The Echo value of the challenge.
    pub echo: [u8; 8],
    /// The moment of the challenge, or the highest number.
    pub at: u64,
    pub spent_mask: u64,
    pub next: u64,
    pub life: u64,
}

/// Returns the size of a window with this number of places, 1, 32 or 64, or `None` for any other number.
#[must_use]
pub fn size_with(places: u8) -> Option<WindowSize>
    ensures made { IfSome result (λ size. places_of size ≡ places) }
    ensures accepts { HasPlaces places → IsSome result }
    ensures accepted { IsSome result → HasPlaces places }
{
    match places {
        1 => Some(WindowSize::Place1),
        32 => Some(WindowSize::Places32),
        64 => Some(WindowSize::Places64),
        _ => None,
    }
}

impl SlotHandle {
    /// Returns the highest number of the open window, or `Some(None)` if it has none. Returns `None` if the bytes hold no such
    /// number, or if the gate isn't open.
    fn highest(&self) -> Option<Option<Piv>>
        ensures made { IfSome result (λ highest. IsHighestIn self.now (option_map number_of highest)) }
        ensures accepts_none { self.now.gate ≡ 2 → IsSome result }
        ensures accepts_some { self.now.gate ≡ 3 → self.now.at < 2 ^ 40 → IsSome result }
        ensures accepted { IsSome result → (self.now.gate ≡ 2) ⊎ ((self.now.gate ≡ 3) × (self.now.at < 2 ^ 40)) }
    {
        match self.gate {
            2 => Some(None),
            3 => Piv::new(self.at).map(Some),
            _ => None,
        }
    }

    /// Returns the gate, or `None` if the bytes aren't a gate.
    pub(crate) fn gate(&self) -> Option<Gate>
        ensures made { IfSome result (λ gate. IsGateIn self.now gate) }
        ensures accepts { IsGateBytes self.now → IsSome result }
        ensures accepted { IsSome result → IsGateBytes self.now }
    {
        match self.gate {
            0 => Some(Gate::Restarted { challenge: None }),
            1 => Some(Gate::Restarted {
                challenge: Some((self.echo, self.at)),
            }),
            _ => {
                let highest = self.highest()?;
                let size = size_with(self.window_places)?;
                Some(Gate::Open(Window::from_parts(WindowParts {
                    highest,
                    spent_mask: self.spent_mask,
                    size,
                })))
            }
        }
    }

    /// Keeps a gate.
    fn keep_gate(&mut self, gate: &Gate)
        ensures kept { IsGateIn self.new gate.now }
        ensures rest { SameBut self.old self.new }
        ensures bytes { IsGateBytes self.new }
    {
        match gate {
            Gate::Restarted { challenge: None } => self.gate = 0,
            Gate::Restarted {
                challenge: Some(challenge),
            } => {
                self.gate = 1;
                self.echo = challenge.0;
                self.at = challenge.1;
            }
            Gate::Open(window) => {
                let parts = window.parts();
                self.window_places = parts.size.places() as u8;
                self.spent_mask = parts.spent_mask;
                match parts.highest {
                    None => self.gate = 2,
                    Some(highest) => {
                        self.gate = 3;
                        self.at = highest.number();
                    }
                }
            }
        }
    }

    /// Keeps the new state of a context: the gate, the next Sender Sequence Number and the life. The context and the size stay.
    pub(crate) fn keep(&mut self, slot: &Slot)
        ensures kept { (before : SlotOf) → IsSlotIn self.old before → slot.now.context ≡ before.context → slot.now.size ≡ before.size → slot.now.doubt ≡ None
            → IsSlotIn self.new slot.now }
        ensures bytes { IsSlotBytes self.old → IsSlotBytes self.new }
        ensures context { self.new.context ≡ self.old.context }
    {
        self.keep_gate(&slot.gate);
        self.next = slot.next;
        self.life = slot.life;
    }

    /// Returns whether a call may have written the bytes.
    #[must_use]
    pub fn is_whole(&self) -> bool
        ensures yes { result ≡ true → IsSlotBytes self.now }
        ensures no { result ≡ false → IsSlotBytes self.now → ⊥ }
    {
        self.context.is_whole()
            && size_with(self.places).is_some()
            && self.gate().is_some()
            && self.next <= 1 << 40
    }

    /// Returns the context in its life, with this gate.
    #[inline(always)]
    pub(crate) fn slot_with(&self, gate: Gate) -> Slot
        requires bytes { IsSlotBytes self.now }
        requires gate { IsGateIn self.now gate }
        ensures made { IsSlotIn self.now result }
        ensures gate { result.gate ≡ gate }
        ensures chosen { is_constant_time (context_of result.context) ≡ is_constant_time_in self.now.context }
    {
        let Some(size) = size_with(self.places) else {
            unreachable!();
        };
        let Some(context) = self.context.context() else {
            unreachable!();
        };
        Slot {
            context: KeyedContext::for_one_message(context),
            size,
            gate,
            doubt: None,
            next: self.next,
            life: self.life,
        }
    }

    /// Returns the context in its life.
    pub(crate) fn slot(&self) -> Slot
        requires { IsSlotBytes self.now }
        ensures { IsSlotIn self.now result }
    {
        let Some(gate) = self.gate() else {
            unreachable!();
        };
        self.slot_with(gate)
    }

    /// Returns the bytes of a context in its life.
    pub(crate) fn of(context: &ContextHandle, slot: &Slot) -> SlotHandle
        requires handle { IsContext context.now }
        requires same { as_server (context_of slot.now.context) ≡ server_in context.now }
        requires doubt { slot.now.doubt ≡ None }
        ensures made { IsSlotIn result slot.now }
        ensures bytes { IsSlotBytes result }
        ensures context { result.context ≡ context.now }
    {
        let places = slot.size.places() as u8;
        let mut bytes = SlotHandle {
            context: *context,
            places,
            window_places: places,
            gate: 0,
            echo: [0; 8],
            at: 0,
            spent_mask: 0,
            next: slot.next,
            life: slot.life,
        };
        bytes.keep_gate(&slot.gate);
        bytes
    }

    /// Seals a reply to the request of the present life with this number from this requester, writes it to the front of `out`, and
    /// returns how many bytes it wrote.
    pub(crate) fn reply_to(
        &mut self,
        number: Piv,
        asker: &Asker,
        own: bool,
        mid: u16,
        plain: &Message<'_>,
        out: &mut [u8],
    ) -> Result<usize, ReplyError>
        requires { IsSlotBytes self.old }
        ensures answer { (before : SlotOf) (l : Life) → IsSlotIn self.old before → SlotAgrees before l → LifeReply l (number_of number) own
            (as_reply asker.now.kind asker.now.message_id asker.now.token.items mid (parts_of plain.now)) (length out.old) (reply_entry result out.new) }
        ensures kept { (before : SlotOf) (l : Life) → IsSlotIn self.old before → SlotAgrees before l → HoldsIn self.new (marked (reply_mark result own) l) }
        ensures bytes { IsSlotBytes self.new }
        ensures within { IfOk result (λ n. n ≤ length out.new) }
        ensures behind { IfOk result (λ n. drop n out.new ≡ drop n out.old) }
        ensures unchanged { OnErr result (out.new ≡ out.old) }
        ensures same { OnErr result (self.new ≡ self.old) }
        ensures no_keeper_failed { IfErr result (λ e. e ≢ KeeperFailed) }
    {
        let Some(gate) = self.gate() else {
            unreachable!();
        };
        let mut slot = self.slot_with(gate);
        match slot.reply_to(number, asker, own, mid, plain, out) {
            Ok(len) => {
                self.keep(&slot);
                Ok(len)
            }
            Err(error) => Err(error),
        }
    }

    /// Seals a notification to the request of the present life with this number and this token, which registered an observation, writes
    /// it to the front of `out`, and returns how many bytes it wrote.
    pub(crate) fn notify_to(
        &mut self,
        number: Piv,
        token: &Token,
        plain: &Message<'_>,
        out: &mut [u8],
    ) -> Result<usize, ReplyError>
        requires { IsSlotBytes self.old }
        ensures answer { (before : SlotOf) (l : Life) → IsSlotIn self.old before → SlotAgrees before l → LifeNotify l (number_of number)
            (as_notification token.now.items (parts_of plain.now)) (length out.old) (reply_entry result out.new) }
        ensures kept { (before : SlotOf) (l : Life) → IsSlotIn self.old before → SlotAgrees before l → HoldsIn self.new (marked (reply_mark result true) l) }
        ensures bytes { IsSlotBytes self.new }
        ensures within { IfOk result (λ n. n ≤ length out.new) }
        ensures behind { IfOk result (λ n. drop n out.new ≡ drop n out.old) }
        ensures unchanged { OnErr result (out.new ≡ out.old) }
        ensures same { OnErr result (self.new ≡ self.old) }
        ensures no_keeper_failed { IfErr result (λ e. e ≢ KeeperFailed) }
    {
        let Some(gate) = self.gate() else {
            unreachable!();
        };
        let mut slot = self.slot_with(gate);
        match slot.notify_to(number, token, plain, out) {
            Ok(len) => {
                self.keep(&slot);
                Ok(len)
            }
            Err(error) => Err(error),
        }
    }
}
