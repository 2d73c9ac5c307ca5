//! The calls and runs of kept ends within the list of what happened at both ends (RFC 8613, 7.4, 8.1 to 8.4 and B.1). Each function
//! makes the call that it is named for, and nothing else; its contract is about that list. If the list meets the premises, with kept
//! numbers, and this end runs in it, the call adds to the list, the longer list does so too, and all of it is as `both_ends` says.

ghost use Rattle.std.specs.Prelude.{◌≡◌, ◌≢◌, ◌≤◌, ◌<◌, ◌+◌, ℕ, [], Err, IsErr, IsOk, IfErr, IfOk, IsErrOf, OnErr, OnOk, drop, length, take, vec_len};
ghost use Rattle.osc_coap.specs.Views.{parts_of};
ghost use Rattle.osc_context.specs.SecurityContext.{SecurityContext};
ghost use Rattle.osc_context.specs.Views.{as_client, as_server};
ghost use Rattle.osc_client.specs.ClientHistory as asked;
ghost use Rattle.osc_life.specs.ServerHistory as served;
ghost use Rattle.osc_life.specs.LifeAnswer.{asks_own};
ghost use Rattle.osc_life.specs.Views.{reply_entry, values_of};
ghost use Rattle.osc_client.specs.Views.{apart_among, request_entry};
ghost use Rattle.osc_endpoint.specs.Views.{server_entry};
ghost use Rattle.osc_client.specs.declared.client_outcome.RequestError.TheVariants as requests;
ghost use Rattle.osc_life.specs.declared.outcome.Outcome.TheVariants as outcomes;
ghost use Rattle.osc_life.specs.declared.server_error.ReplyError.TheVariants as replies;
ghost use Rattle.osc_life.specs.declared.start.Start.{Start as StartOf};
ghost use Rattle.osc_kept.specs.CallsInWorld.{AsksInWorld, ClientAfter, ClientDecidesInWorld, ClientRestartsInWorld, ClientRunsIn, ClientStartsInWorld, ClientTakesInWorld, CountsInWorld, DecidesInWorld, HoldsTicket, NobodyForgesTo, RestartsInWorld, RunsIn, ServerAfter, ServesInWorld, StartsInWorld, TakesInWorld};
ghost use Rattle.osc_kept.specs.EchoNumbers.{EchoesAreNumbers};
ghost use Rattle.osc_kept.specs.GoingOn.{HasSavedFirst};
ghost use Rattle.osc_kept.specs.InWorld.{IsUnseen};
ghost use Rattle.osc_kept_ends.specs.KeptServing.{IsStart};
ghost use Rattle.osc_kept.specs.Premises.{IsKept, NobodyForgesRequests};
ghost use Rattle.osc_kept_ends.specs.Refusals.{Loaded, RefusesAt};
ghost use Rattle.osc_kept_ends.specs.declared.kept_error.KeptError.TheVariants.{LivesExhausted};
ghost use Rattle.osc_kept.specs.World.{World, Client as ClientEnd, Server as ServerEnd, numbers};

use crate::laws::{echo_by_numbers, kept_ends_in_world, kept_runs_in_world};
use osc_coap::Message;
use osc_context::{Context, Keeper, KeeperError};
use osc_endpoint::{
    ClientDecision, ClientOutcome, Decided, Fresh, ReplyError, RequestError, Taken, Ticket,
};
use osc_kept_ends::{KeptClient, KeptError, KeptServer};
use osc_kept_runs::{
    KeptClientEntry, KeptClientEvent, KeptServerEntry, KeptServerEvent, run_kept_client_on,
    run_kept_server_on,
};
use osc_window::WindowSize;
use std::alloc::{AllocError, Global};

/// Calls `KeptServer::start`. The keeper needn't know the floor of that list, as the keeper of a later process doesn't. Its claim
/// about that list assumes that the number that the keeper loads isn't below that floor.
pub fn start_server_in_world<K: Keeper>(
    context: Context,
    keeper: K,
    size: WindowSize,
) -> Result<KeptServer<K>, (KeptError, K)>
    ensures begins { IfOk result (λ new. (loaded : ℕ) × (mid : K) × (start : StartOf) × Loaded K.loads K.failures keeper loaded mid
        × (K.floor keeper ≤ loaded) × IsStart start loaded
        × ((n : ℕ) (w : World) → IsKept n (as_server context) w → HasSavedFirst (as_server context) w
        → (numbers ServerEnd (as_server context) w).floor ≤ loaded → StartsInWorld n (as_server context) w start size new)) }
    ensures refused { IfErr result (λ e. RefusesAt K.loads K.failures keeper e.0 e.1) }
    ensures no_lives_exhausted { IfErr result (λ e. e.0 ≢ LivesExhausted) }
{
    // For the proof alone.
    kept_ends_in_world();
    KeptServer::start(context, keeper, size)
}

/// Calls `KeptServer::restart`. Its claim about that list assumes that the number that the keeper loads isn't below the list's floor.
pub fn restart_server_in_world<K: Keeper>(server: &mut KeptServer<K>) -> Result<(), KeptError>
    ensures begins { IsOk result → (loaded : ℕ) × Loaded K.loads K.failures server.old.source.keeper loaded server.new.source.keeper
        × ((n : ℕ) (s : SecurityContext) (w : World) → IsKept n s w → RunsIn s w server.old → RestartsInWorld n s w loaded server.old server.new) }
    ensures refused { IfErr result (λ e. RefusesAt K.loads K.failures server.old.source.keeper e server.new.source.keeper) }
    ensures unchanged { OnErr result ((s : SecurityContext) (w : World) → RunsIn s w server.old → RunsIn s w server.new) }
{
    // For the proof alone.
    kept_ends_in_world();
    server.restart()
}

/// Calls `KeptServer::decide`. Its claim about that list assumes that nobody forged the datagram, and that no request carries the
/// fresh Echo value yet.
pub fn decide_in_world<K: Keeper>(
    server: &mut KeptServer<K>,
    now: u64,
    fresh: Fresh,
    datagram: &mut [u8],
    out: &mut [u8; 64],
) -> Result<Decided, KeeperError>
    ensures answered { IfOk result (λ d. (n : ℕ) (s : SecurityContext) (w : World) → IsKept n s w → RunsIn s w server.old
        → NobodyForgesRequests s w datagram.old → IsUnseen s w fresh.echo
        → DecidesInWorld n s w now fresh datagram.old d.decision datagram.new (take d.reply out.new) server.old server.new) }
    ensures clock_alone { IsErr result → (n : ℕ) (s : SecurityContext) (w : World) → IsKept n s w → RunsIn s w server.old
        → ServerAfter n s w (served.Advance now) served.Advanced server.old server.new }
    ensures failed { IsErr result → K.failures server.new.source.keeper ≡ K.failures server.old.source.keeper + 1 }
    ensures worked { IsOk result → K.failures server.new.source.keeper ≡ K.failures server.old.source.keeper }
{
    // For the proof alone.
    kept_ends_in_world();
    server.decide(now, fresh, datagram, out)
}

/// Calls `KeptServer::take`. Its claim about that list assumes that nobody forged the datagram, and that no request carries the fresh
/// Echo value yet.
pub fn take_in_world<'b, K: Keeper>(
    server: &mut KeptServer<K>,
    now: u64,
    fresh: Fresh,
    datagram: &'b mut [u8],
    out: &mut [u8; 64],
) -> Taken<'b>
    ensures answered { result.outcome ≢ outcomes.KeeperFailed → (n : ℕ) (s : SecurityContext) (w : World) → IsKept n s w → RunsIn s w server.old
        → NobodyForgesRequests s w datagram.old → IsUnseen s w fresh.echo
        → TakesInWorld n s w now fresh datagram.old result.outcome (take result.reply out.new) server.old server.new }
    ensures clock_alone { result.outcome ≡ outcomes.KeeperFailed → (n : ℕ) (s : SecurityContext) (w : World) → IsKept n s w → RunsIn s w server.old
        → ServerAfter n s w (served.Advance now) served.Advanced server.old server.new }
    ensures failed { result.outcome ≡ outcomes.KeeperFailed → K.failures server.new.source.keeper ≡ K.failures server.old.source.keeper + 1 }
    ensures worked { result.outcome ≢ outcomes.KeeperFailed → K.failures server.new.source.keeper ≡ K.failures server.old.source.keeper }
{
    // For the proof alone.
    kept_ends_in_world();
    server.take(now, fresh, datagram, out)
}

/// Calls `KeptServer::take_counted`. Its claim about that list assumes that nobody forged the datagram, and that all Echo values of the
/// list are made of numbers (`EchoesAreNumbers`); of the longer list it claims that too.
pub fn take_counted_in_world<'b, K: Keeper>(
    server: &mut KeptServer<K>,
    now: u64,
    mid: u16,
    datagram: &'b mut [u8],
    out: &mut [u8; 64],
) -> Taken<'b>
    ensures answered { result.outcome ≢ outcomes.KeeperFailed → (n : ℕ) (s : SecurityContext) (w : World) → IsKept n s w → EchoesAreNumbers s w → RunsIn s w server.old
        → NobodyForgesRequests s w datagram.old
        → CountsInWorld n s w now mid datagram.old result.outcome (take result.reply out.new) server.old server.new }
    ensures clock_alone { result.outcome ≡ outcomes.KeeperFailed → (n : ℕ) (s : SecurityContext) (w : World) → IsKept n s w → RunsIn s w server.old
        → ServerAfter n s w (served.Advance now) served.Advanced server.old server.new }
    ensures failed { result.outcome ≡ outcomes.KeeperFailed → K.failures server.new.source.keeper ≡ K.failures server.old.source.keeper + 1 }
    ensures worked { result.outcome ≢ outcomes.KeeperFailed → K.failures server.new.source.keeper ≡ K.failures server.old.source.keeper }
{
    // For the proof alone.
    echo_by_numbers();
    kept_ends_in_world();
    server.take_counted(now, mid, datagram, out)
}

/// Calls `KeptServer::reply`. Its claim about that list assumes a ticket that a delivery gave and that no reply took.
pub fn reply_in_world<K: Keeper>(
    server: &mut KeptServer<K>,
    ticket: Ticket,
    own: bool,
    mid: u16,
    plain: &Message<'_>,
    out: &mut [u8],
) -> Result<usize, (ReplyError, Ticket)>
    ensures answered { IfErr result (λ e. e.0 ≢ replies.KeeperFailed) → (n : ℕ) (s : SecurityContext) (w : World) → IsKept n s w → RunsIn s w server.old
        → HoldsTicket s w (values_of ticket)
        → ServerAfter n s w (served.Reply (values_of ticket) (asks_own (values_of ticket) own) mid (parts_of plain.now) (length out.old)) (server_entry result out.new)
        server.old server.new }
    ensures unchanged { IfErr result (λ e. e.0 ≡ replies.KeeperFailed → (s : SecurityContext) (w : World) → RunsIn s w server.old → RunsIn s w server.new) }
    ensures failed { IfErr result (λ e. e.0 ≡ replies.KeeperFailed → K.failures server.new.source.keeper ≡ K.failures server.old.source.keeper + 1) }
    ensures worked { IfErr result (λ e. e.0 ≢ replies.KeeperFailed) → K.failures server.new.source.keeper ≡ K.failures server.old.source.keeper }
{
    // For the proof alone.
    kept_ends_in_world();
    server.reply(ticket, own, mid, plain, out)
}

/// Calls `KeptServer::notify`. Its claim about that list assumes a ticket that a delivery gave and that no reply took.
pub fn notify_in_world<K: Keeper>(
    server: &mut KeptServer<K>,
    ticket: &Ticket,
    plain: &Message<'_>,
    out: &mut [u8],
) -> Result<usize, ReplyError>
    ensures answered { IfErr result (λ e. e ≢ replies.KeeperFailed) → (n : ℕ) (s : SecurityContext) (w : World) → IsKept n s w → RunsIn s w server.old
        → HoldsTicket s w (values_of ticket.now)
        → ServerAfter n s w (served.Notify (values_of ticket.now) (parts_of plain.now) (length out.old)) (reply_entry result out.new) server.old server.new }
    ensures unchanged { IfErr result (λ e. e ≡ replies.KeeperFailed → (s : SecurityContext) (w : World) → RunsIn s w server.old → RunsIn s w server.new) }
    ensures failed { IfErr result (λ e. e ≡ replies.KeeperFailed → K.failures server.new.source.keeper ≡ K.failures server.old.source.keeper + 1) }
    ensures worked { IfErr result (λ e. e ≢ replies.KeeperFailed) → K.failures server.new.source.keeper ≡ K.failures server.old.source.keeper }
{
    // For the proof alone.
    kept_ends_in_world();
    server.notify(ticket, plain, out)
}

/// Calls `run_kept_server_on`. Its claim about that list assumes that others do their part at each of its events (`ServerRunTrusts`).
pub fn run_server_in_world<'a, K: Keeper>(
    alloc: Global,
    server: &mut KeptServer<K>,
    events: &mut &'a mut [KeptServerEvent],
    log: &mut Vec<KeptServerEntry<'a>>,
) -> Result<(), AllocError>
    requires { log.old.items ≡ [] }
    ensures run { (n : ℕ) (s : SecurityContext) (w : World) → IsKept n s w → RunsIn s w server.old
        → ServesInWorld n s w (take (vec_len log.new) events.old.now) log.new.items server.old server.new }
    ensures rest { events.new.now ≡ drop (vec_len log.new) events.old.now }
    ensures all { OnOk result (vec_len log.new ≡ length events.old.now) }
    ensures fewer { OnErr result (vec_len log.new < length events.old.now) }
{
    kept_runs_in_world::<K>();
    run_kept_server_on(alloc, server, events, log)
}

/// Calls `KeptClient::start`. The keeper needn't know the floor of that list, as the keeper of a later process doesn't. Its claim
/// about that list assumes that the number that the keeper loads isn't below that floor.
pub fn start_client_in_world<K: Keeper, const N: usize>(
    context: Context,
    keeper: K,
    life_ms: u64,
) -> Result<KeptClient<K, N>, (KeptError, K)>
    ensures begins { IfOk result (λ new. (loaded : ℕ) × Loaded K.loads K.failures keeper loaded new.source.keeper × (K.floor keeper ≤ loaded)
        × ((w : World) → IsKept N (as_client context) w → (numbers ClientEnd (as_client context) w).floor ≤ loaded
        → ClientStartsInWorld (as_client context) w loaded life_ms new)) }
    ensures refused { IfErr result (λ e. RefusesAt K.loads K.failures keeper e.0 e.1) }
    ensures no_lives_exhausted { IfErr result (λ e. e.0 ≢ LivesExhausted) }
{
    // For the proof alone.
    kept_ends_in_world();
    KeptClient::start(context, keeper, life_ms)
}

/// Calls `KeptClient::restart`. Its claim about that list assumes that the number that the keeper loads isn't below the list's floor.
pub fn restart_client_in_world<K: Keeper, const N: usize>(
    client: &mut KeptClient<K, N>,
) -> Result<(), KeptError>
    ensures begins { IsOk result → (loaded : ℕ) × Loaded K.loads K.failures client.old.source.keeper loaded client.new.source.keeper
        × ((s : SecurityContext) (w : World) → IsKept N s w → ClientRunsIn s w client.old → ClientRestartsInWorld s w loaded client.old client.new) }
    ensures refused { IfErr result (λ e. RefusesAt K.loads K.failures client.old.source.keeper e client.new.source.keeper) }
    ensures no_lives_exhausted { result ≢ Err LivesExhausted }
    ensures unchanged { OnErr result ((s : SecurityContext) (w : World) → ClientRunsIn s w client.old → ClientRunsIn s w client.new) }
{
    // For the proof alone.
    kept_ends_in_world();
    client.restart()
}

/// Calls `KeptClient::request`.
pub fn request_in_world<K: Keeper, const N: usize>(
    client: &mut KeptClient<K, N>,
    now: u64,
    plain: &Message<'_>,
    out: &mut [u8],
) -> Result<usize, RequestError>
    ensures answered { (IsErrOf result requests.KeeperFailed → ⊥) → (s : SecurityContext) (w : World) → IsKept N s w → ClientRunsIn s w client.old
        → ClientAfter s w (asked.Request now (parts_of plain.now) (length out.old)) (request_entry result out.new) client.old client.new }
    ensures clock_alone { IsErrOf result requests.KeeperFailed → (s : SecurityContext) (w : World) → IsKept N s w → ClientRunsIn s w client.old
        → ClientAfter s w (asked.Advance now) asked.Advanced client.old client.new }
    ensures failed { IsErrOf result requests.KeeperFailed → K.failures client.new.source.keeper ≡ K.failures client.old.source.keeper + 1 }
    ensures worked { (IsErrOf result requests.KeeperFailed → ⊥) → K.failures client.new.source.keeper ≡ K.failures client.old.source.keeper }
{
    // For the proof alone.
    kept_ends_in_world();
    client.request(now, plain, out)
}

/// Calls `KeptClient::decide`. Its claim about that list assumes that nobody forged the datagram.
pub fn decide_response_in_world<K: Keeper, const N: usize>(
    client: &mut KeptClient<K, N>,
    now: u64,
    datagram: &mut [u8],
) -> ClientDecision
    ensures answered { (s : SecurityContext) (w : World) → IsKept N s w → ClientRunsIn s w client.old → NobodyForgesTo s w now datagram.old
        → ClientDecidesInWorld s w now datagram.old result datagram.new client.old client.new }
{
    // For the proof alone.
    kept_ends_in_world();
    client.decide(now, datagram)
}

/// Calls `KeptClient::take`. Its claim about that list assumes that nobody forged the datagram.
pub fn take_response_in_world<'b, K: Keeper, const N: usize>(
    client: &mut KeptClient<K, N>,
    now: u64,
    datagram: &'b mut [u8],
) -> ClientOutcome<'b>
    ensures answered { (s : SecurityContext) (w : World) → IsKept N s w → ClientRunsIn s w client.old → NobodyForgesTo s w now datagram.old
        → ClientTakesInWorld s w now datagram.old result client.old client.new }
{
    // For the proof alone.
    kept_ends_in_world();
    client.take(now, datagram)
}

/// Calls `KeptClient::forget`.
pub fn forget_in_world<K: Keeper, const N: usize>(
    client: &mut KeptClient<K, N>,
    token: &[u8],
) -> bool
    ensures answered { (s : SecurityContext) (w : World) → IsKept N s w → ClientRunsIn s w client.old
        → ClientAfter s w (asked.Forget token.now) (asked.Forgot result) client.old client.new }
{
    // For the proof alone.
    kept_ends_in_world();
    client.forget(token)
}

/// Calls `KeptClient::set_apart`.
pub fn set_apart_in_world<K: Keeper, const N: usize>(
    client: &mut KeptClient<K, N>,
    registrations: Option<usize>,
)
    ensures answered { (s : SecurityContext) (w : World) → IsKept N s w → ClientRunsIn s w client.old
        → ClientAfter s w (asked.SetApart (apart_among N registrations)) asked.IsSetApart client.old client.new }
{
    // For the proof alone.
    kept_ends_in_world();
    client.set_apart(registrations);
}

/// Calls `KeptClient::advance`.
pub fn advance_in_world<K: Keeper, const N: usize>(client: &mut KeptClient<K, N>, now: u64)
    ensures advanced { (s : SecurityContext) (w : World) → IsKept N s w → ClientRunsIn s w client.old
        → ClientAfter s w (asked.Advance now) asked.Advanced client.old client.new }
{
    // For the proof alone.
    kept_ends_in_world();
    client.advance(now);
}

/// Calls `run_kept_client_on`. Its claim about that list assumes that others do their part at each of its events (`ClientRunTrusts`).
pub fn run_client_in_world<'a, K: Keeper, const N: usize>(
    alloc: Global,
    client: &mut KeptClient<K, N>,
    events: &mut &'a mut [KeptClientEvent],
    log: &mut Vec<KeptClientEntry<'a>>,
) -> Result<(), AllocError>
    requires { log.old.items ≡ [] }
    ensures run { (s : SecurityContext) (w : World) → IsKept N s w → ClientRunsIn s w client.old
        → AsksInWorld s w (take (vec_len log.new) events.old.now) log.new.items client.old client.new }
    ensures rest { events.new.now ≡ drop (vec_len log.new) events.old.now }
    ensures all { OnOk result (vec_len log.new ≡ length events.old.now) }
    ensures fewer { OnErr result (vec_len log.new < length events.old.now) }
{
    kept_runs_in_world::<K>();
    run_kept_client_on(alloc, client, events, log)
}
