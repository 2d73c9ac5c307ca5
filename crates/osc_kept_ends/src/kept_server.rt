//! A server of one context whose Sender Sequence Numbers outlive it (RFC 8613, 7.2.1 and B.1.1).

ghost use Rattle.std.specs.Prelude.{◌≡◌, ◌≢◌, ◌≤◌, ◌+◌, ℕ, Ok, Err, IsOk, IsErr, IfOk, IfErr, OnErr, length, take, drop};
ghost use Rattle.osc_coap.specs.Views.{parts_of};
ghost use Rattle.osc_context.specs.Views.{as_server};
ghost use Rattle.osc_life.specs.Deciding.{CanShow};
ghost use Rattle.osc_endpoint.specs.Deciding.{LeavesBy};
ghost use Rattle.osc_life.specs.Life.{born};
ghost use Rattle.osc_endpoint.specs.ServerAnswer.{ReplaceAnswer, ServerAnswer};
ghost use Rattle.osc_life.specs.LifeAnswer.{asks_own};
ghost use Rattle.osc_life.specs.ServerHistory.{History, Begin, Then, Add, Added, Advance, Advanced, Notify, Replace, Replaced, NotReplaced, Reply, Restart, Restarted, NotRestarted, life};
ghost use Rattle.osc_life.specs.Views.{reply_entry, values_of};
ghost use Rattle.osc_endpoint.specs.Views.{server_entry};
ghost use Rattle.osc_life.specs.declared.server_error.ReplyError.TheVariants as replies;
ghost use Rattle.osc_life.specs.declared.server_error.RestartError.TheVariants as restarts;
ghost use Rattle.osc_life.specs.declared.start.Start.{Start as StartOf};
ghost use Rattle.osc_context.specs.SecurityContext.{SecurityContext};
ghost use Rattle.osc_window.specs.declared.window_size.WindowSize.{WindowSize as Size};
ghost use Rattle.osc_kept_ends.specs.declared.kept_error.KeptError.TheVariants.{LivesExhausted};
ghost use Rattle.osc_kept_ends.specs.EchoNumber.{echo_of};
ghost use Rattle.osc_kept_ends.specs.KeptServing.{IsKept, IsStart, KeptDecides, KeptStep, started};
ghost use Rattle.osc_kept_ends.specs.Numbering.{Allowed, Goes, Load, nothing_drawn, upcoming};
ghost use Rattle.osc_kept_ends.specs.Owning.{own_in};
ghost use Rattle.osc_kept_ends.specs.Refusals.{Loaded, RefusesAt};
ghost use Rattle.osc_kept_ends.specs.Replacing.{RefusesReplacement};
ghost use Rattle.osc_kept_ends.specs.Views.{upcoming_of};

use crate::drawn::{decide_drawn, draw_for_datagram, draw_for_reply, notify_drawn, reply_drawn};
use crate::kept_error::{KeptError, lift};
use crate::replace_refusal::ReplaceRefusal;
use crate::source::{Source, keeper_of};
use osc_coap::Message;
use osc_context::{Context, Keeper, KeeperError};
use osc_endpoint::{Decided, Fresh, Outcome, ReplyError, ServerOf, Start, Taken, Ticket};
use osc_window::WindowSize;
use std::mem;

/// A server of one context, and the keeper of its Sender Sequence Numbers. It seals only with numbers that it has drawn, and the keeper
/// reserved each of them before. No later life begins at a number below what was saved.
#[derive(Drop)]
pub struct KeptServer<K: Keeper> {
    pub(crate) server: ServerOf<1>,
    pub(crate) source: Source<K>,
    pub ghost kept: { ∥ ((h : History) × IsKept server (upcoming_of source.numbers source.in_hand) h) ∥₁ },
}

/// Loads the numbers of a server that starts, and returns them with how it starts: fresh if and only if the number is 0; then the first
/// number is drawn.
fn load_start<K: Keeper>(keeper: K) -> Result<(Source<K>, Start), (KeptError, K)>
    ensures begins { IfOk result (λ r. (loaded : ℕ) × (mid : K) × Loaded K.loads K.failures keeper loaded mid × IsStart r.1 loaded
        × (own_in r.0 ≡ started r.1 loaded (nothing_drawn (K.floor keeper))) × (K.failures r.0.keeper ≡ K.failures keeper)
        × Allowed (Load loaded) (nothing_drawn (K.floor keeper))) }
    ensures first { IfOk result (λ r. (s : SecurityContext) (size : Size) → upcoming (own_in r.0) ≡ (born s r.1 size).first) }
    ensures refused { IfErr result (λ e. RefusesAt K.loads K.failures keeper e.0 e.1) }
    ensures floor_stays { IfErr result (λ e. K.floor e.1 ≡ K.floor keeper) }
    ensures no_lives_exhausted { IfErr result (λ e. e.0 ≢ LivesExhausted) }
{
    let (mut source, first) = match Source::start(keeper) {
        Ok(started) => started,
        Err((error, keeper)) => return Err((lift(error), keeper)),
    };
    if first.number() > 0 {
        return Ok((source, Start::Restarted(first)));
    }
    let Ok(()) = source.draw() else {
        return Err((KeptError::KeeperFailed, keeper_of(source)));
    };
    Ok((source, Start::Fresh(first)))
}

impl<K: Keeper> KeptServer<K> {
    ghost use Rattle.osc_kept_ends.specs.KeptTaking.{TakesDatagram};

    /// Starts a server of a context at the number that the keeper loads. It starts fresh if and only if that number is 0; then the
    /// first number is drawn before `start` returns, so that no later start is fresh. Otherwise it starts as after a restart. Returns
    /// the first refusal in the order of `KeptError`; a refusal gives the keeper back and drops the context.
    pub fn start(
        context: Context,
        keeper: K,
        size: WindowSize,
    ) -> Result<KeptServer<K>, (KeptError, K)>
        ensures begins { IfOk result (λ s. (loaded : ℕ) × (mid : K) × (start : StartOf)
            × Loaded K.loads K.failures keeper loaded mid × IsStart start loaded
            × (own_in s.source ≡ started start loaded (nothing_drawn (K.floor keeper))) × (K.failures s.source.keeper ≡ K.failures keeper)
            × IsKept s.server (upcoming (own_in s.source)) (Then Begin (Add (as_server context) start size 1) (Added 0))
            × Allowed (Load loaded) (nothing_drawn (K.floor keeper))) }
        ensures refused { IfErr result (λ e. RefusesAt K.loads K.failures keeper e.0 e.1) }
        ensures floor_stays { IfErr result (λ e. K.floor e.1 ≡ K.floor keeper) }
        ensures no_lives_exhausted { IfErr result (λ e. e.0 ≢ LivesExhausted) }
    {
        match load_start(keeper) {
            Ok((source, start)) => Ok(KeptServer::begin(context, source, start, size)),
            Err(refused) => Err(refused),
        }
    }

    /// Makes a server of a context that starts at the number with which the source goes on.
    fn begin(context: Context, source: Source<K>, start: Start, size: WindowSize) -> KeptServer<K>
        requires { upcoming (own_in source) ≡ (born (as_server context) start size).first }
        ensures kept { IsKept result.server (upcoming (own_in source)) (Then Begin (Add (as_server context) start size 1) (Added 0)) }
        ensures source { result.source ≡ source }
    {
        let mut server = ServerOf::new();
        match server.add(context, start, size) {
            Ok(_) => KeptServer { server, source },
            Err(_) => unreachable!(),
        }
    }

    /// Begins a new life of the context at the number that the keeper loads, as after a restart, and drops the number in hand.
    /// Returns the first refusal in the order of `KeptError`; a refusal changes nothing but the keeper.
    pub fn restart(&mut self) -> Result<(), KeptError>
        ensures begins { IsOk result → (loaded : ℕ) × Loaded K.loads K.failures self.old.source.keeper loaded self.new.source.keeper
            × Goes (Load loaded) (own_in self.old.source) (own_in self.new.source)
            × ((h : History) → IsKept self.old.server (upcoming (own_in self.old.source)) h
            → ServerAnswer h (Restart 0 loaded) Restarted
            × IsKept self.new.server (upcoming (own_in self.new.source)) (Then h (Restart 0 loaded) Restarted)) }
        ensures refused { IfErr result (λ e. RefusesAt K.loads K.failures self.old.source.keeper e self.new.source.keeper) }
        ensures lives_exhausted { result ≡ Err LivesExhausted → (loaded : ℕ) (h : History)
            → IsKept self.old.server (upcoming (own_in self.old.source)) h
            → ServerAnswer h (Restart 0 loaded) (NotRestarted restarts.LivesExhausted) }
        ensures unchanged { OnErr result ((self.new.server ≡ self.old.server) × (own_in self.new.source ≡ own_in self.old.source)) }
    {
        let (numbers, first) = match self.source.reload() {
            Ok(loaded) => loaded,
            Err(error) => return Err(lift(error)),
        };
        let Ok(()) = self.server.restart(0, first) else {
            return Err(KeptError::LivesExhausted);
        };
        self.source.begin(numbers);
        Ok(())
    }

    /// Puts another context in the place of the server's, as when both ends have made new keys, and returns the keeper of the old one. Its
    /// numbers are those of `keeper`, at which it starts as `start` does, and older tickets are stale. Returns the first refusal in the order
    /// of `ReplaceRefusal`, with the keeper that was passed in; a refusal drops the context, and changes nothing but that keeper. You must not
    /// bring back a context that was there before, and no keeper keeps the numbers of two contexts (RFC 8613, 3.3).
    pub fn replace(
        &mut self,
        context: Context,
        keeper: K,
        size: WindowSize,
    ) -> Result<K, (ReplaceRefusal, K)>
        ensures begins { IsOk result → (loaded : ℕ) × (mid : K) × (start : StartOf) × Loaded K.loads K.failures keeper loaded mid × IsStart start loaded
            × (own_in self.new.source ≡ started start loaded (nothing_drawn (K.floor keeper))) × (K.failures self.new.source.keeper ≡ K.failures keeper)
            × Allowed (Load loaded) (nothing_drawn (K.floor keeper))
            × ((h : History) → IsKept self.old.server (upcoming (own_in self.old.source)) h
            → ServerAnswer h (Replace 0 (as_server context) start size) Replaced
            × IsKept self.new.server (upcoming (own_in self.new.source)) (Then h (Replace 0 (as_server context) start size) Replaced)) }
        ensures given { IfOk result (λ old. old ≡ self.old.source.keeper) }
        ensures refused { IfErr result (λ e. RefusesReplacement (λ r. (h : History) → IsKept self.old.server (upcoming (own_in self.old.source)) h
            → ReplaceAnswer (life h) 0 (as_server context) (NotReplaced r)) K.loads K.failures keeper e.0 e.1) }
        ensures unchanged { OnErr result (self.new ≡ self.old) }
    {
        // For the proof alone.
        let (_sender, _recipient) = (context.sender().bytes(), context.recipient().bytes());
        if let Err(error) = self.server.check_replace(0, &context) {
            return Err((ReplaceRefusal::Refused(error), keeper));
        }
        let (source, start) = match load_start(keeper) {
            Ok(loaded) => loaded,
            Err((error, keeper)) => return Err((ReplaceRefusal::Kept(error), keeper)),
        };
        self.server.replace_checked(0, context, start, size);
        Ok(keeper_of(mem::replace(&mut self.source, source)))
    }

    /// Decides the answer to a datagram, as `Server::decide` does; this is the first half of `take`. If the gate is closed and no
    /// number is in hand, it draws one before anything else. If the keeper fails then, only the clock moves.
    pub fn decide(
        &mut self,
        now: u64,
        fresh: Fresh,
        datagram: &mut [u8],
        out: &mut [u8; 64],
    ) -> Result<Decided, KeeperError>
        ensures answered { IfOk result (λ d. (h : History) → IsKept self.old.server (upcoming (own_in self.old.source)) h
            → KeptDecides h now fresh datagram.old d datagram.new (take d.reply out.new) (own_in self.old.source) (own_in self.new.source) self.new.server) }
        ensures failed { IsErr result → K.failures self.new.source.keeper ≡ K.failures self.old.source.keeper + 1 }
        ensures worked { IsOk result → K.failures self.new.source.keeper ≡ K.failures self.old.source.keeper }
        ensures clock_alone { IsErr result → (h : History) → IsKept self.old.server (upcoming (own_in self.old.source)) h
            → IsKept self.new.server (upcoming (own_in self.new.source)) (Then h (Advance now) Advanced) }
        ensures unchanged { IsErr result → (own_in self.new.source ≡ own_in self.old.source) × (datagram.new ≡ datagram.old) × (out.new ≡ out.old) }
        ensures shown { IfOk result (λ d. CanShow d.decision datagram.new) }
        ensures left { IfOk result (λ d. LeavesBy self.old.server d.decision datagram.old datagram.new) }
        ensures within { IfOk result (λ d. d.reply ≤ 64) }
        ensures behind { IfOk result (λ d. drop d.reply out.new ≡ drop d.reply out.old) }
    {
        let Ok(()) = draw_for_datagram(&self.server, &mut self.source) else {
            self.server.advance(now);
            return Err(KeeperError);
        };
        let (server, in_hand) = (&mut self.server, &mut self.source.in_hand);
        Ok(decide_drawn(server, in_hand, now, fresh, datagram, out))
    }

    /// Takes a datagram in place, as `Server::take` does: it calls `decide`, and returns the decision as an outcome. KeeperFailed
    /// comes before all other outcomes; then only the clock has moved, and `out` is unchanged. Of the datagram, which is lent, a clause of
    /// `decide` says what it holds; of this call it is only tested.
    pub fn take<'b>(
        &mut self,
        now: u64,
        fresh: Fresh,
        datagram: &'b mut [u8],
        out: &mut [u8; 64],
    ) -> Taken<'b>
        ensures { TakesDatagram now fresh datagram.old self.old self.new result out.old out.new }
    {
        match self.decide(now, fresh, datagram, out) {
            Ok(Decided { decision, reply }) => {
                let outcome = decision.outcome(datagram);
                Taken { outcome, reply }
            }
            Err(KeeperError) => Taken {
                outcome: Outcome::KeeperFailed,
                reply: 0,
            },
        }
    }

    /// Takes a datagram in place as `take` does. The fresh Echo value is made of the number with which a challenge would be sealed: its
    /// eight bytes, high byte first (RFC 9175, A, method 3). So no random source is asked for.
    pub fn take_counted<'b>(
        &mut self,
        now: u64,
        mid: u16,
        datagram: &'b mut [u8],
        out: &mut [u8; 64],
    ) -> Taken<'b>
        ensures { TakesDatagram now (record { echo = echo_of (upcoming (own_in self.old.source)); mid = mid }) datagram.old self.old self.new result out.old out.new }
    {
        let echo = self.upcoming().to_be_bytes();
        self.take(now, Fresh { echo, mid }, datagram, out)
    }

    /// Seals a reply as `Server::reply` does. With `own`, or if the ticket's request registers an observation, it draws a number before
    /// anything else if none is in hand. If the keeper fails then, it returns KeeperFailed, and nothing changes. Each refusal gives the
    /// ticket back, and the number stays in hand.
    pub fn reply(
        &mut self,
        ticket: Ticket,
        own: bool,
        mid: u16,
        plain: &Message<'_>,
        out: &mut [u8],
    ) -> Result<usize, (ReplyError, Ticket)>
        ensures answered { IfErr result (λ e. e.0 ≢ replies.KeeperFailed) → (h : History)
            → IsKept self.old.server (upcoming (own_in self.old.source)) h
            → KeptStep h (Reply (values_of ticket) (asks_own (values_of ticket) own) mid (parts_of plain.now) (length out.old)) (server_entry result out.new)
            (own_in self.old.source) (own_in self.new.source) self.new.server }
        ensures failed { IfErr result (λ e. e.0 ≡ replies.KeeperFailed
            → (own_in self.new.source ≡ own_in self.old.source) × (K.failures self.new.source.keeper ≡ K.failures self.old.source.keeper + 1)) }
        ensures worked { IfErr result (λ e. e.0 ≢ replies.KeeperFailed) → K.failures self.new.source.keeper ≡ K.failures self.old.source.keeper }
        ensures back { IfErr result (λ e. e.1 ≡ ticket) }
        ensures within { IfOk result (λ n. n ≤ length out.new) }
        ensures behind { IfOk result (λ n. drop n out.new ≡ drop n out.old) }
        ensures unchanged { OnErr result ((out.new ≡ out.old) × (self.new.server ≡ self.old.server)) }
    {
        let Ok(()) = draw_for_reply(&ticket, own, &mut self.source) else {
            return Err((ReplyError::KeeperFailed, ticket));
        };
        let (server, in_hand) = (&mut self.server, &mut self.source.in_hand);
        reply_drawn(server, in_hand, ticket, own, mid, plain, out)
    }

    /// Seals a notification as `Server::notify` does. It draws a number before anything else if none is in hand. If the keeper fails
    /// then, it returns KeeperFailed, and nothing changes. Each refusal leaves the number in hand.
    pub fn notify(
        &mut self,
        ticket: &Ticket,
        plain: &Message<'_>,
        out: &mut [u8],
    ) -> Result<usize, ReplyError>
        ensures answered { IfErr result (λ e. e ≢ replies.KeeperFailed) → (h : History)
            → IsKept self.old.server (upcoming (own_in self.old.source)) h
            → KeptStep h (Notify (values_of ticket.now) (parts_of plain.now) (length out.old)) (reply_entry result out.new)
            (own_in self.old.source) (own_in self.new.source) self.new.server }
        ensures failed { IfErr result (λ e. e ≡ replies.KeeperFailed
            → (own_in self.new.source ≡ own_in self.old.source) × (K.failures self.new.source.keeper ≡ K.failures self.old.source.keeper + 1)) }
        ensures worked { IfErr result (λ e. e ≢ replies.KeeperFailed) → K.failures self.new.source.keeper ≡ K.failures self.old.source.keeper }
        ensures within { IfOk result (λ n. n ≤ length out.new) }
        ensures behind { IfOk result (λ n. drop n out.new ≡ drop n out.old) }
        ensures unchanged { OnErr result ((out.new ≡ out.old) × (self.new.server ≡ self.old.server)) }
    {
        let Ok(()) = self.source.draw() else {
            return Err(ReplyError::KeeperFailed);
        };
        let (server, in_hand) = (&mut self.server, &mut self.source.in_hand);
        notify_drawn(server, in_hand, ticket, plain, out)
    }

    /// Returns the Sender Sequence Number with which the server seals next, or 2^40 if none is left.
    #[must_use]
    pub fn upcoming(&self) -> u64
        ensures { result ≡ upcoming (own_in self.now.source) }
    {
        self.source.upcoming()
    }

    /// Ends the server, and returns its keeper.
    pub fn into_keeper(self) -> K
        ensures { result ≡ self.source.keeper }
    {
        let KeptServer { source, .. } = self;
        keeper_of(source)
    }
}
