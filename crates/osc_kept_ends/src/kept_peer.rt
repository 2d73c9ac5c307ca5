//! An end of one context that both asks and answers, and keeps what it needs to do so over all its lives (RFC 8613, 3.1, 7.2.1, 7.4 and
//! B.1).

ghost use Rattle.std.specs.Prelude.{◌≡◌, ◌<◌, ◌≤◌, ◌^◌, ℕ, IfOk, IfErr, IsOk, OnErr};
ghost use Rattle.osc_context.specs.Views.{as_client, as_server, number_of};
ghost use Rattle.osc_client.specs.Agrees.{ClientAgrees};
ghost use Rattle.osc_client.specs.ClientHistory as asked;
ghost use Rattle.osc_endpoint.specs.Agrees.{Agrees};
ghost use Rattle.osc_life.specs.Life.{born, is_open_life};
ghost use Rattle.osc_life.specs.ServerHistory as served;
ghost use Rattle.osc_life.specs.declared.start.Start.{Start as StartOf};
ghost use Rattle.osc_context.specs.SecurityContext.{SecurityContext};
ghost use Rattle.osc_window.specs.declared.window_size.WindowSize.{WindowSize as Size};
ghost use Rattle.osc_kept_ends.specs.KeptAsking as asking;
ghost use Rattle.osc_kept_ends.specs.KeptServing as serving;
ghost use Rattle.osc_kept_ends.specs.Numbering.{Allowed, Load, nothing_drawn, upcoming};
ghost use Rattle.osc_kept_ends.specs.PeerOwning.{ahead_in, own_in, received_in};
ghost use Rattle.osc_kept_ends.specs.Peering.{ClientIsBehind, ClientPasses, IsPeerStart, ServerIsBehind, ServerPasses};
ghost use Rattle.osc_kept_ends.specs.declared.kept_error.KeptError.TheVariants.{KeptTooLarge};
ghost use Rattle.osc_kept_ends.specs.Refusals.{RefusesPeer};
ghost use Rattle.osc_kept_ends.specs.Replacing.{RefusesPeerReplacement};
ghost use Rattle.osc_endpoint.specs.ServerAnswer.{ReplaceAnswer, ServerAnswer};
ghost use Rattle.osc_kept_ends.specs.Views.{upcoming_of};

use crate::kept_error::KeptError;
use crate::peer_source::PeerSource;
use crate::replace_refusal::ReplaceRefusal;
use osc_context::{Context, IdContext, Kid, Piv, RecordKeeper};
use osc_endpoint::{Client, ServerOf, Start};
use osc_window::WindowSize;
use std::mem;

/// An end of one context in both roles: a server and a client with one source of Sender Sequence Numbers, and a record that keeps its next
/// number and what it received. It seals only with numbers that it has drawn, whichever role asks for them, and the record reserved each of
/// them before. Before it delivers a request, the record has a greater number: so no later life delivers that request again.
#[derive(Drop)]
pub struct KeptPeer<R: RecordKeeper, const N: usize> {
    pub(crate) server: ServerOf<1>,
    pub(crate) client: Client<N>,
    pub(crate) source: PeerSource<R>,
    pub ghost served: { ∥ ((h : served.History) × ServerIsBehind server (upcoming_of source.numbers source.in_hand) h) ∥₁ },
    pub ghost asked: { ∥ ((k : asked.History) × ClientIsBehind client (upcoming_of source.numbers source.in_hand) k) ∥₁ },
}

/// Makes an identifier once more.
fn kid_of(kid: &Kid) -> Kid
    ensures { result ≡ kid.now }
{
    match Kid::new(kid.bytes()) {
        Some(copy) => copy,
        None => unreachable!(),
    }
}

/// Makes the ID Context of a context once more, if it has one.
fn id_context_of(context: &Context) -> Option<IdContext>
    ensures { result ≡ (as_client context.now).id_context }
{
    match context.id_context() {
        Some(id_context) => match IdContext::new(id_context.bytes()) {
            Some(copy) => Some(copy),
            None => unreachable!(),
        },
        None => None,
    }
}

/// Makes the same context once more, for the other role.
fn copy_of(context: &Context) -> Context
    ensures client { as_client result ≡ as_client context.now }
    ensures server { as_server result ≡ as_server context.now }
{
    let made = Context::from_derived(
        kid_of(context.sender()),
        kid_of(context.recipient()),
        id_context_of(context),
        *context.sender_key(),
        *context.recipient_key(),
        *context.common_iv(),
    );
    let Some(copy) = made else { unreachable!() };
    let copy = copy.with_features(context.features());
    if context.is_constant_time() {
        copy
    } else {
        copy.tables()
    }
}

/// Passes over the numbers of a server's context that the client has used.
pub(crate) fn pass_at_server(server: &mut ServerOf<1>, next: u64)
    requires behind { ∥ ((h : served.History) × ServerIsBehind server.old next h) ∥₁ }
    requires most { next ≤ 2 ^ 40 }
    ensures { (h : served.History) → ServerIsBehind server.old next h
        → (g : served.History) × ServerPasses h g × serving.IsKept server.new next g × (is_open_life (served.life g 0) ≡ is_open_life (served.life h 0)) }
{
    let Some(reached) = server.next(0) else {
        unreachable!()
    };
    let Ok(()) = server.skip(0, next - reached) else {
        unreachable!()
    };
}

/// Passes over the numbers of a client that the server has used.
pub(crate) fn pass_at_client<const N: usize>(client: &mut Client<N>, next: u64)
    requires behind { ∥ ((k : asked.History) × ClientIsBehind client.old next k) ∥₁ }
    requires most { next ≤ 2 ^ 40 }
    ensures { (k : asked.History) → ClientIsBehind client.old next k
        → (m : asked.History) × ClientPasses N k m × asking.IsKept client.new next m }
{
    let Ok(()) = client.skip(next - client.next()) else {
        unreachable!()
    };
}

/// Returns how a life begins with the two numbers that were loaded, if received numbers are kept so many ahead.
fn start_at(first: Piv, received: u64, ahead: u64) -> Result<Start, KeptError>
    ensures begins { IfOk result (λ start. IsPeerStart ahead start (number_of first) received) }
    ensures refused { IfErr result (λ e. (e ≡ KeptTooLarge) × (2 ^ 40 < received)) }
{
    match received {
        0 if first.number() == 0 => Ok(Start::Fresh(first)),
        0 => Ok(Start::Restarted(first)),
        received => match Piv::new(received - 1) {
            Some(highest) if ahead == 0 => Ok(Start::Received {
                next: first,
                highest,
            }),
            Some(highest) => Ok(Start::Reserved {
                next: first,
                highest,
                ahead,
            }),
            None => Err(KeptError::KeptTooLarge),
        },
    }
}

/// Ends a source, and returns its record.
fn keeper_of<R: RecordKeeper>(source: PeerSource<R>) -> R
    ensures { result ≡ source.keeper }
{
    let PeerSource { keeper, .. } = source;
    keeper
}

/// Loads the numbers of a peer that starts, and returns them with the first Sender Sequence Number and how the peer starts: if that is fresh,
/// the first number is drawn.
fn load_record<R: RecordKeeper>(
    keeper: R,
    ahead: u64,
) -> Result<(PeerSource<R>, Piv, Start), (KeptError, R)>
    ensures begins { IfOk result (λ r. (received : ℕ) × (mid : R) × R.loads keeper (number_of r.1) received mid
        × (R.received_floor keeper ≤ received) × (R.received_floor keeper ≤ R.received_floor r.0.keeper) × IsPeerStart ahead r.2 (number_of r.1) received
        × (own_in r.0 ≡ serving.started r.2 (number_of r.1) (nothing_drawn (R.sender_floor keeper)))
        × Allowed (Load (number_of r.1)) (nothing_drawn (R.sender_floor keeper)) × (R.failures r.0.keeper ≡ R.failures keeper) × (received_in r.0 ≡ received)) }
    ensures ahead { IfOk result (λ r. ahead_in r.0 ≡ ahead) }
    ensures next { IfOk result (λ r. upcoming (own_in r.0) ≡ number_of r.1) }
    ensures first { IfOk result (λ r. (s : SecurityContext) (size : Size) → (born s r.2 size).first ≡ number_of r.1) }
    ensures refused { IfErr result (λ e. RefusesPeer R.loads R.failures keeper e.0 e.1) }
{
    let (mut source, first, received) = PeerSource::start(keeper, ahead)?;
    let start = match start_at(first, received, ahead) {
        Ok(start) => start,
        Err(error) => return Err((error, keeper_of(source))),
    };
    let Start::Fresh(_) = start else {
        return Ok((source, first, start));
    };
    let Ok(()) = source.draw() else {
        return Err((KeptError::KeeperFailed, keeper_of(source)));
    };
    Ok((source, first, start))
}

impl<R: RecordKeeper, const N: usize> KeptPeer<R, N> {
    /// Starts a peer of a context with the two numbers that the record loads, and with nothing pending. If both are 0 it starts fresh, and
    /// draws its first number before `start` returns, so that no later start is fresh. If no received number was kept, but numbers were, it
    /// starts as after a restart: a challenge decides about the first request. Otherwise each request above what was received is new, and no
    /// challenge is needed. Each request of its own is pending for `life_ms` milliseconds, except a registration that was notified. Returns
    /// the first refusal in the order of `KeptError`; a refusal gives the record back and drops the context.
    pub fn start(
        context: Context,
        keeper: R,
        size: WindowSize,
        life_ms: u64,
    ) -> Result<KeptPeer<R, N>, (KeptError, R)>
        ensures begins { IfOk result (λ p. (sender : ℕ) × (received : ℕ) × (mid : R) × (start : StartOf) × R.loads keeper sender received mid
            × (R.received_floor keeper ≤ received) × (R.received_floor keeper ≤ R.received_floor p.source.keeper) × IsPeerStart 0 start sender received
            × (own_in p.source ≡ serving.started start sender (nothing_drawn (R.sender_floor keeper))) × Allowed (Load sender) (nothing_drawn (R.sender_floor keeper))
            × (R.failures p.source.keeper ≡ R.failures keeper)
            × ServerIsBehind p.server (upcoming (own_in p.source)) (served.Then served.Begin (served.Add (as_server context) start size 1) (served.Added 0))
            × ClientIsBehind p.client (upcoming (own_in p.source)) (asked.New (as_client context) sender life_ms)
            × (received_in p.source ≡ received)) }
        ensures ahead { IfOk result (λ p. ahead_in p.source ≡ 0) }
        ensures refused { IfErr result (λ e. RefusesPeer R.loads R.failures keeper e.0 e.1) }
    {
        KeptPeer::start_ahead(context, keeper, size, life_ms, 0)
    }

    /// Starts a peer as `start` does, which keeps `ahead` received numbers more with each save: so it saves for one request in `ahead` + 1. In
    /// exchange it doesn't know, once it is started again, which of the last `ahead` numbers below the kept one it received. Until a request
    /// is delivered, a challenge decides about those; greater numbers are new, and smaller ones are replays. `ahead` stays the same over all
    /// lives: a smaller one refuses requests that were never received (RFC 8613, 7.5 and B.1.2; own rule: what is in doubt).
    pub fn start_ahead(
        context: Context,
        keeper: R,
        size: WindowSize,
        life_ms: u64,
        ahead: u64,
    ) -> Result<KeptPeer<R, N>, (KeptError, R)>
        ensures begins { IfOk result (λ p. (sender : ℕ) × (received : ℕ) × (mid : R) × (start : StartOf) × R.loads keeper sender received mid
            × (R.received_floor keeper ≤ received) × (R.received_floor keeper ≤ R.received_floor p.source.keeper) × IsPeerStart ahead start sender received
            × (own_in p.source ≡ serving.started start sender (nothing_drawn (R.sender_floor keeper))) × Allowed (Load sender) (nothing_drawn (R.sender_floor keeper))
            × (R.failures p.source.keeper ≡ R.failures keeper)
            × ServerIsBehind p.server (upcoming (own_in p.source)) (served.Then served.Begin (served.Add (as_server context) start size 1) (served.Added 0))
            × ClientIsBehind p.client (upcoming (own_in p.source)) (asked.New (as_client context) sender life_ms)
            × (received_in p.source ≡ received)) }
        ensures ahead { IfOk result (λ p. ahead_in p.source ≡ ahead) }
        ensures refused { IfErr result (λ e. RefusesPeer R.loads R.failures keeper e.0 e.1) }
    {
        let (source, first, start) = load_record(keeper, ahead)?;
        Ok(KeptPeer::begin(context, source, start, first, size, life_ms))
    }

    /// Makes a peer of a context that starts at the number with which the source goes on.
    pub(crate) fn begin(
        context: Context,
        source: PeerSource<R>,
        start: Start,
        first: Piv,
        size: WindowSize,
        life_ms: u64,
    ) -> KeptPeer<R, N>
        requires next { upcoming (own_in source) ≡ number_of first }
        requires first { (born (as_server context) start size).first ≡ number_of first }
        ensures server { ServerIsBehind result.server (upcoming (own_in source)) (served.Then served.Begin (served.Add (as_server context) start size 1) (served.Added 0)) }
        ensures client { ClientIsBehind result.client (upcoming (own_in source)) (asked.New (as_client context) (number_of first) life_ms) }
        ensures source { result.source ≡ source }
    {
        let client = Client::new(copy_of(&context), first, life_ms);
        let mut server = ServerOf::new();
        match server.add(context, start, size) {
            Ok(_) => KeptPeer {
                server,
                client,
                source,
            },
            Err(_) => unreachable!(),
        }
    }

    /// Puts another context in the place of the peer's, in both roles, as when both ends have made new keys, and returns the record of the old
    /// one. Its numbers are those of `keeper`, at which it starts as `start` does, with as many received numbers kept ahead as before. Older
    /// tickets are stale, every pending request is dropped, and the clocks go on. Returns the first refusal in the order of
    /// `ReplaceRefusal`, with the record that was passed in; a refusal drops the context, and changes nothing but that record. You must not
    /// bring back a context that was there before, and no record keeps the numbers of two contexts (RFC 8613, 3.3).
    pub fn replace(
        &mut self,
        context: Context,
        keeper: R,
        size: WindowSize,
    ) -> Result<R, (ReplaceRefusal, R)>
        ensures begins { IsOk result → (sender : ℕ) × (received : ℕ) × (mid : R) × (start : StartOf) × R.loads keeper sender received mid
            × (R.received_floor keeper ≤ received) × (R.received_floor keeper ≤ R.received_floor self.new.source.keeper)
            × IsPeerStart (ahead_in self.old.source) start sender received
            × (own_in self.new.source ≡ serving.started start sender (nothing_drawn (R.sender_floor keeper))) × Allowed (Load sender) (nothing_drawn (R.sender_floor keeper))
            × (R.failures self.new.source.keeper ≡ R.failures keeper) × (received_in self.new.source ≡ received)
            × ((h : served.History) → ServerIsBehind self.old.server (upcoming (own_in self.old.source)) h
            → ServerAnswer h (served.Replace 0 (as_server context) start size) served.Replaced
            × serving.IsKept self.new.server (upcoming (own_in self.new.source)) (served.Then h (served.Replace 0 (as_server context) start size) served.Replaced))
            × ((k : asked.History) → ClientIsBehind self.old.client (upcoming (own_in self.old.source)) k
            → asking.IsKept self.new.client (upcoming (own_in self.new.source)) (asked.replaced (as_client context) sender k)) }
        ensures ahead { IsOk result → ahead_in self.new.source ≡ ahead_in self.old.source }
        ensures given { IfOk result (λ old. old ≡ self.old.source.keeper) }
        ensures refused { IfErr result (λ e. RefusesPeerReplacement (λ r. (h : served.History) → ServerIsBehind self.old.server (upcoming (own_in self.old.source)) h
            → ReplaceAnswer (served.life h) 0 (as_server context) (served.NotReplaced r)) R.loads R.failures keeper e.0 e.1) }
        ensures unchanged { OnErr result (self.new ≡ self.old) }
    {
        // For the proof alone.
        let (_sender, _recipient) = (context.sender().bytes(), context.recipient().bytes());
        if let Err(error) = self.server.check_replace(0, &context) {
            return Err((ReplaceRefusal::Refused(error), keeper));
        }
        let (source, first, start) = match load_record(keeper, self.source.ahead()) {
            Ok(loaded) => loaded,
            Err((error, keeper)) => return Err((ReplaceRefusal::Kept(error), keeper)),
        };
        self.client.replace_checked(copy_of(&context), first);
        self.server.replace_checked(0, context, start, size);
        Ok(keeper_of(mem::replace(&mut self.source, source)))
    }

    /// Moves the clocks of both roles to `now`, in milliseconds, if that is later. Draws no number.
    pub fn advance(&mut self, now: u64)
        ensures server { (h : served.History) → Agrees self.old.server h → Agrees self.new.server (served.Then h (served.Advance now) served.Advanced) }
        ensures client { (k : asked.History) → ClientAgrees self.old.client k → ClientAgrees self.new.client (asked.Then k (asked.Advance now) asked.Advanced) }
        ensures source { self.new.source ≡ self.old.source }
    {
        self.server.advance(now);
        self.client.advance(now);
    }

    /// Returns the Sender Sequence Number with which the peer seals next, in either role, or 2^40 if none is left.
    #[must_use]
    pub fn upcoming(&self) -> u64
        ensures { result ≡ upcoming (own_in self.now.source) }
    {
        self.source.upcoming()
    }

    /// Returns whether requests are checked by their number: they are unless the peer started with its gate closed, until one is delivered.
    #[must_use]
    pub fn is_open(&self) -> bool
        ensures { (h : served.History) → Agrees self.now.server h → result ≡ is_open_life (served.life h 0) }
    {
        self.server.is_open(0)
    }

    /// Ends the peer, and returns its record.
    pub fn into_keeper(self) -> R
        ensures { result ≡ self.source.keeper }
    {
        let KeptPeer { source, .. } = self;
        keeper_of(source)
    }
}
