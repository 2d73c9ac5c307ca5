//! How a context processes a request that names it, from the check of the window on.

ghost use Rattle.std.specs.Prelude.{◌≡◌, ◌≤◌, ℕ, List, Option, Some, slice_get, take, drop, true, false};
ghost use Rattle.osc_life.specs.Agrees.{SlotAgrees};
ghost use Rattle.osc_life.specs.Deciding.{CanShow, Leaves};
ghost use Rattle.osc_life.specs.Doubting.{OpensBy, StaysBy};
ghost use Rattle.osc_life.specs.Judging.{GatePasses, GateRefuses, IsAskerOf, JudgesTo, OfWhatWasRead};
ghost use Rattle.osc_life.specs.Life.{Carries, Life, in_force, is_open};
ghost use Rattle.osc_observe.specs.Observing.{registers as registering};
ghost use Rattle.osc_life.specs.declared.slot.Slot.{Slot};
ghost use Rattle.osc_context.specs.Views.{as_server, number_of};
ghost use Rattle.osc_window.specs.Views.{is_open as is_open_gate};
ghost use Rattle.osc_protect.specs.Protection.{requests};
ghost use Rattle.osc_protect.specs.StageViews.{CanLendRequest, DecryptsRequest, FitsRequest, IsSealedRequest};
ghost use Rattle.osc_protect.specs.Views.{context_of};

use crate::asker::Asker;
use crate::challenge_reply::write_challenge;
use crate::decision::{Decided, Decision};
use crate::doubt::{Doubt, is_below};
use crate::error_reply::{ErrorReply, write_error};
use crate::slot::Slot;
use crate::start::Fresh;
use crate::ticket::Ticket;
use osc_coap::one_datagram;
use osc_context::{Features, Piv};
use osc_observe::siblings::registers;
use osc_protect::{
    DecryptedRequest, ReadRequest, SealedRequest, decrypt_request, inspect_request, one_reading,
    one_request,
};
use osc_window::Gate;

/// A request that names a context: the context's index, the request's number, what is passed in with it, the requester that a reply goes
/// to, and what has to be decrypted.
#[derive(Drop)]
pub struct Named {
    pub index: usize,
    pub number: Piv,
    pub clock: u64,
    pub fresh: Fresh,
    pub asker: Asker,
    pub sealed: SealedRequest,
}

/// Returns whether the gate is open and the number isn't new, or it is closed and the number is below those in doubt.
#[must_use]
pub fn is_replay(gate: &Gate, doubt: Option<Doubt>, number: Piv) -> bool
    ensures yes { result ≡ true → GateRefuses gate.now doubt (number_of number) }
    ensures no { result ≡ false → GatePasses gate.now doubt (number_of number) }
{
    match gate {
        Gate::Open(window) => !window.is_new(number),
        Gate::Restarted { .. } => is_below(doubt, number),
    }
}

/// Refuses a request whose number isn't new (RFC 8613, 7.4).
pub fn refuse_replay(request: &Named, out: &mut [u8; 64]) -> Decided
    ensures decided { (s : Slot) (l : Life) (d : List ℕ) → SlotAgrees s l → GateRefuses s.gate s.doubt (number_of request.now.number)
        → IsAskerOf request.now.asker d → JudgesTo l request.now d result d (take result.reply out.new) (Some s) }
    ensures shown { (d : List ℕ) → CanShow result.decision d }
    ensures leaves { (slots : List (Option Slot)) (d : List ℕ) → Leaves slots result.decision d d }
    ensures within { result.reply ≤ 64 }
    ensures behind { drop result.reply out.new ≡ drop result.reply out.old }
{
    let reply = write_error(&request.asker, request.fresh.mid, ErrorReply::Replay, out);
    Decided {
        decision: Decision::Replay,
        reply,
    }
}

/// Returns whether the request that was read registers an observation, under a context with these features.
fn registers_read(features: Features, datagram: &[u8], read: ReadRequest) -> bool
    requires { (x : DecryptedRequest) × CanLendRequest datagram.now x read }
    ensures { OfWhatWasRead datagram.now read (λ m. result ≡ registering features m.code m.options) }
{
    if !features.observe {
        return false;
    }
    // For the proof alone.
    one_request();
    let opened = read.opened(datagram);
    registers(features, opened.code, &opened.inner())
}

impl Slot {
    ghost use Rattle.osc_life.specs.Deciding.{IsOpenedIn};
    ghost use Rattle.osc_life.specs.Judging.{IsNamed, RefusesEcho};

    /// Answers a request that doesn't carry the challenge in force. The answer is a challenge, if a Sender Sequence Number is left.
    fn demand(&mut self, request: &Named, out: &mut [u8; 64]) -> Decided
        requires { is_open_gate self.old.gate ≡ false }
        ensures context { self.new.context ≡ self.old.context }
        ensures doubt { self.new.doubt ≡ self.old.doubt }
        ensures decided { (l : Life) (d new : List ℕ) → SlotAgrees self.old l → RefusesEcho l request.now d
            → IsAskerOf request.now.asker d
            → JudgesTo l request.now d result new (take result.reply out.new) (Some self.new) }
        ensures shown { (new : List ℕ) → CanShow result.decision new }
        ensures leaves { (slots : List (Option Slot)) (d new : List ℕ) → IsOpenedIn slots d new → Leaves slots result.decision d new }
        ensures within { result.reply ≤ 64 }
        ensures behind { drop result.reply out.new ≡ drop result.reply out.old }
    {
        let Some(own) = Piv::new(self.next) else {
            return Decided {
                decision: Decision::SequenceExhausted,
                reply: 0,
            };
        };
        let (echo, issued) = self.challenge(request.clock, request.fresh.echo);
        let mid = request.fresh.mid;
        let reply = write_challenge(
            &self.context,
            request.number,
            own,
            &request.asker,
            mid,
            &echo,
            out,
        );
        Decided {
            decision: Decision::Challenge { echo, issued },
            reply,
        }
    }

    /// Returns whether the gate is open, or the number of the request that was read is above those in doubt, or it carries the challenge in
    /// force.
    fn admits_read(&self, clock: u64, number: Piv, datagram: &[u8], read: ReadRequest) -> bool
        requires { (x : DecryptedRequest) × CanLendRequest datagram.now x read }
        ensures yes { result ≡ true → (l : Life) → SlotAgrees self.now l → is_open l ≡ false
            → OfWhatWasRead datagram.now read (λ m. OpensBy l.doubt (number_of number) (Carries (in_force l clock) m)) }
        ensures no { result ≡ false → (l : Life) → SlotAgrees self.now l → (is_open l ≡ false)
            × OfWhatWasRead datagram.now read (λ m. StaysBy l.doubt (number_of number) (Carries (in_force l clock) m)) }
        ensures closed { result ≡ false → is_open_gate self.now.gate ≡ false }
    {
        // For the proof alone.
        one_request();
        if self.gate.is_open() {
            return true;
        }
        self.admits(clock, number, &read.opened(datagram))
    }

    /// Processes a request that was decrypted.
    fn judge_opened(
        &mut self,
        request: Named,
        datagram: &[u8],
        decrypted: DecryptedRequest,
        out: &mut [u8; 64],
    ) -> Decided
        requires placed { FitsRequest datagram.now decrypted }
        requires passes { GatePasses self.old.gate self.old.doubt (number_of request.number) }
        ensures context { self.new.context ≡ self.old.context }
        ensures doubt { self.new.doubt ≡ self.old.doubt }
        ensures decided { (l : Life) (d : List ℕ) → SlotAgrees self.old l
            → DecryptsRequest (requests (as_server (context_of self.old.context))) d decrypted datagram.now
            → IsNamed (as_server (context_of self.old.context)) (number_of request.number) d → IsAskerOf request.asker d
            → JudgesTo l request d result datagram.now (take result.reply out.new) (Some self.new) }
        ensures shown { (d : List ℕ) → DecryptsRequest (requests (as_server (context_of self.old.context))) d decrypted datagram.now
            → CanShow result.decision datagram.now }
        ensures leaves { (slots : List (Option Slot)) (i : ℕ) (d : List ℕ) → slice_get slots i ≡ Some (Some self.old)
            → DecryptsRequest (requests (as_server (context_of self.old.context))) d decrypted datagram.now
            → Leaves slots result.decision d datagram.now }
        ensures within { result.reply ≤ 64 }
        ensures behind { drop result.reply out.new ≡ drop result.reply out.old }
    {
        // For the proof alone.
        one_datagram();
        one_reading();
        one_request();
        let Ok(read) = inspect_request(datagram, decrypted) else {
            self.spoil(request.number);
            return Decided {
                decision: Decision::BadInner,
                reply: 0,
            };
        };
        if !self.admits_read(request.clock, request.number, datagram, read) {
            return self.demand(&request, out);
        }
        let observes = registers_read(self.context.context().features(), datagram, read);
        self.deliver(request.number);
        let mut asker = request.asker;
        asker.observes = observes;
        let ticket = Ticket {
            context: request.index,
            life: self.life,
            number: request.number,
            asker,
        };
        Decided {
            decision: Decision::Deliver(read, ticket),
            reply: 0,
        }
    }

    /// Returns whether a number is known not to be new.
    fn refuses(&self, number: Piv) -> bool
        ensures yes { result ≡ true → GateRefuses self.now.gate self.now.doubt (number_of number) }
        ensures no { result ≡ false → GatePasses self.now.gate self.now.doubt (number_of number) }
    {
        is_replay(&self.gate, self.doubt, number)
    }

    /// Processes a request that names this context, in its datagram.
    pub(crate) fn judge(
        &mut self,
        request: Named,
        datagram: &mut [u8],
        out: &mut [u8; 64],
    ) -> Decided
        requires named { IsNamed (as_server (context_of self.old.context)) (number_of request.number) datagram.old }
        requires asker { IsAskerOf request.asker datagram.old }
        requires sealed { IsSealedRequest (requests (as_server (context_of self.old.context))) datagram.old request.sealed }
        ensures context { self.new.context ≡ self.old.context }
        ensures doubt { self.new.doubt ≡ self.old.doubt }
        ensures decided { (l : Life) → SlotAgrees self.old l
            → JudgesTo l request datagram.old result datagram.new (take result.reply out.new) (Some self.new) }
        ensures shown { CanShow result.decision datagram.new }
        ensures leaves { (slots : List (Option Slot)) (i : ℕ) → slice_get slots i ≡ Some (Some self.old)
            → Leaves slots result.decision datagram.old datagram.new }
        ensures within { result.reply ≤ 64 }
        ensures behind { drop result.reply out.new ≡ drop result.reply out.old }
    {
        // The window is checked before the tag.
        if self.refuses(request.number) {
            return refuse_replay(&request, out);
        }
        self.judge_new(request, datagram, out)
    }

    /// Processes a request that names this context, in its datagram. The request's number is new, or the Echo value decides.
    pub fn judge_new(&mut self, request: Named, datagram: &mut [u8], out: &mut [u8; 64]) -> Decided
        requires passes { GatePasses self.old.gate self.old.doubt (number_of request.number) }
        requires named { IsNamed (as_server (context_of self.old.context)) (number_of request.number) datagram.old }
        requires asker { IsAskerOf request.asker datagram.old }
        requires sealed { IsSealedRequest (requests (as_server (context_of self.old.context))) datagram.old request.sealed }
        ensures context { self.new.context ≡ self.old.context }
        ensures doubt { self.new.doubt ≡ self.old.doubt }
        ensures decided { (l : Life) → SlotAgrees self.old l
            → JudgesTo l request datagram.old result datagram.new (take result.reply out.new) (Some self.new) }
        ensures shown { CanShow result.decision datagram.new }
        ensures leaves { (slots : List (Option Slot)) (i : ℕ) → slice_get slots i ≡ Some (Some self.old)
            → Leaves slots result.decision datagram.old datagram.new }
        ensures within { result.reply ≤ 64 }
        ensures behind { drop result.reply out.new ≡ drop result.reply out.old }
    {
        let Ok(decrypted) = decrypt_request(&self.context, datagram, request.sealed) else {
            let reply = write_error(&request.asker, request.fresh.mid, ErrorReply::BadTag, out);
            return Decided {
                decision: Decision::BadTag,
                reply,
            };
        };
        self.judge_opened(request, datagram, decrypted, out)
    }
}
