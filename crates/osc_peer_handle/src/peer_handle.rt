//! A peer, as bytes: one end of one context in both roles.

ghost use Rattle.std.specs.Prelude.{◌≡◌, ◌≢◌, ◌≤◌, ◌<◌, ◌+◌, ◌^◌, ◌⊎◌, ℕ, List, [], IfErr, IfOk, IfSome, IsOk, IsSome, None, Some, true, false};
ghost use Rattle.osc_context.specs.Reserving.{next_limit};
ghost use Rattle.osc_context.specs.Views.{number_of};
ghost use Rattle.osc_client.specs.Agrees.{parts_over};
ghost use Rattle.osc_client.specs.ClientHistory as asked;
ghost use Rattle.osc_life.specs.ServerHistory as served;
ghost use Rattle.osc_life.specs.declared.start.Start.{Start as StartOf};
ghost use Rattle.osc_context_handle.specs.ContextBytes.{IsContext, client_in, server_in};
ghost use Rattle.osc_kept_ends.specs.Numbering.{Allowed, Load, Own, Reserve, after, nothing_drawn};
ghost use Rattle.osc_kept_ends.specs.Peering.{IsPeerStart};
ghost use Rattle.osc_life.specs.Views.{values_of};
ghost use Rattle.osc_handle.specs.TicketBytes.{IsTicket, ticket_in};
ghost use Rattle.osc_peer_handle.specs.PeerBytes.{AsksBehind, HasNumbers, HasToClaim, HasToSave, IsPeer, IsSavedAs, IsTicketOf, ServesBehind, inside_of, next_in};
ghost use Rattle.osc_peer_handle.specs.RecordBytes.{IsRecordOf, RefusesToBegin, name_in};

use crate::name::name_of;
use crate::peer_refusal::BeginRefusal;
use crate::record_handle::RecordHandle;
use osc_client::siblings::ClientState;
use osc_context::Piv;
use osc_context_handle::ContextHandle;
use osc_endpoint::{Start, Ticket};
use osc_handle::siblings::{next_limit, save_first};
use osc_handle::{KeptServerHandle, SingleServerHandle, TicketHandle};
use osc_window::WindowSize;

/// No number is this large (RFC 8613, 7.2.1).
const NUMBER_LIMIT: u64 = 1 << 40;

/// One end of one context in both roles. It seals only with Sender Sequence Numbers that are reserved, whichever role asks for them, and it
/// delivers only requests whose numbers are below one that was saved; it tells its caller which record has to be saved first. Its pending
/// requests lie elsewhere, and are passed to each call that needs them. Moments are in milliseconds.
#[repr(C)]
#[derive(Clone, Copy)]
pub struct PeerHandle {
    /// The server's role, the next Sender Sequence Number of both roles, and the first one that isn't reserved.
    pub server: KeptServerHandle,
    /// The received number that was saved: each request that was delivered has a lower one.
    pub received: u64,
    /// How long a request of its own is pending, except a registration that was notified.
    pub life_ms: u64,
    /// The clock of the client's role.
    pub clock: u64,
    /// The name of the context.
    pub name: u64,
    /// The generation of the record by which this life began. It has to be saved before anything is sealed or taken.
    pub life: u64,
    /// The generation of the record that was saved last.
    pub generation: u64,
}

/// Returns how a life begins with the two numbers that were loaded, or `None` if the received one is too large.
fn start_at(sender: Piv, received: u64) -> Option<Start>
    ensures begins { IfSome result (λ start. IsPeerStart 0 start (number_of sender) received) }
    ensures accepts { received ≤ 2 ^ 40 → IsSome result }
    ensures accepted { IsSome result → received ≤ 2 ^ 40 }
{
    match received {
        0 if sender.number() == 0 => Some(Start::Fresh(sender)),
        0 => Some(Start::Restarted(sender)),
        received => match Piv::new(received - 1) {
            Some(highest) => Some(Start::Received {
                next: sender,
                highest,
            }),
            None => None,
        },
    }
}

impl PeerHandle {
    /// Makes a peer of a context that starts at the two numbers that were loaded, with nothing pending, behind the record of this generation.
    fn begin(
        context: &ContextHandle,
        sender: Piv,
        received: u64,
        generation: u64,
        size: WindowSize,
        life_ms: u64,
    ) -> Option<PeerHandle>
        requires { generation + 1 < 2 ^ 64 }
        ensures server { IfSome result (λ p. (start : StartOf) × IsPeerStart 0 start (number_of sender) received
            × ((floor : ℕ) → floor ≤ number_of sender → ServesBehind p (after (Load (number_of sender)) (nothing_drawn floor))
            (served.Then served.Begin (served.Add (server_in context.now) start size 1) (served.Added 0)))) }
        ensures client { IfSome result (λ p. (floor room : ℕ) → floor ≤ number_of sender → AsksBehind p [] room (after (Load (number_of sender)) (nothing_drawn floor))
            (asked.New (client_in context.now) (number_of sender) life_ms)) }
        ensures received { IfSome result (λ p. p.received ≡ received) }
        ensures named { IfSome result (λ p. (p.name ≡ name_in context.now) × (p.life ≡ generation + 1) × (p.generation ≡ generation)) }
        ensures accepts { IsContext context.now → received ≤ 2 ^ 40 → IsSome result }
        ensures accepted { IsSome result → IsContext context.now × (received ≤ 2 ^ 40) }
    {
        let Some(start) = start_at(sender, received) else {
            return None;
        };
        let Some(server) = SingleServerHandle::begin(context, start, size) else {
            return None;
        };
        Some(PeerHandle {
            server: KeptServerHandle {
                server,
                reserved: sender.number(),
            },
            received,
            life_ms,
            clock: 0,
            name: name_of(context),
            life: generation + 1,
            generation,
        })
    }

    /// Makes a peer of a context that was never used, with nothing pending: at its provisioning, once. Its first record has to be saved before
    /// it seals or takes anything. Each request of its own is pending for `life_ms` milliseconds, except a registration that was notified.
    /// Returns `None` if the context bytes can't have been written by a call (RFC 8613, B.1).
    #[must_use]
    pub fn begin_first(
        context: &ContextHandle,
        size: WindowSize,
        life_ms: u64,
    ) -> Option<PeerHandle>
        ensures server { IfSome result (λ p. (start : StartOf) × IsPeerStart 0 start 0 0
            × ((floor : ℕ) → floor ≤ 0 → ServesBehind p (after (Load 0) (nothing_drawn floor))
            (served.Then served.Begin (served.Add (server_in context.now) start size 1) (served.Added 0)))) }
        ensures client { IfSome result (λ p. (floor room : ℕ) → floor ≤ 0 → AsksBehind p [] room (after (Load 0) (nothing_drawn floor))
            (asked.New (client_in context.now) 0 life_ms)) }
        ensures received { IfSome result (λ p. p.received ≡ 0) }
        ensures named { IfSome result (λ p. (p.name ≡ name_in context.now) × (p.life ≡ 1) × (p.generation ≡ 0)) }
        ensures accepts { IsContext context.now → IsSome result }
        ensures accepted { IsSome result → IsContext context.now }
    {
        let Some(sender) = Piv::new(0) else {
            unreachable!();
        };
        PeerHandle::begin(context, sender, 0, 0, size, life_ms)
    }

    /// Makes a peer of a context behind the record that was saved last, with nothing pending. A record of the next generation has to be saved
    /// before it seals or takes anything, so that whoever began from an older one is told. If no received number was saved yet, a challenge
    /// decides about the first request. Each request of its own is pending as `begin_first` says. Returns the first refusal in the order of
    /// `BeginRefusal` (RFC 8613, 7.5 and B.1).
    pub fn begin_again(
        context: &ContextHandle,
        kept: &RecordHandle,
        size: WindowSize,
        life_ms: u64,
    ) -> Result<PeerHandle, BeginRefusal>
        ensures server { IfOk result (λ p. (start : StartOf) × IsPeerStart 0 start kept.now.sender kept.now.received
            × ((floor : ℕ) → floor ≤ kept.now.sender → ServesBehind p (after (Load kept.now.sender) (nothing_drawn floor))
            (served.Then served.Begin (served.Add (server_in context.now) start size 1) (served.Added 0)))) }
        ensures client { IfOk result (λ p. (floor room : ℕ) → floor ≤ kept.now.sender → AsksBehind p [] room (after (Load kept.now.sender) (nothing_drawn floor))
            (asked.New (client_in context.now) kept.now.sender life_ms)) }
        ensures received { IfOk result (λ p. p.received ≡ kept.now.received) }
        ensures named { IfOk result (λ p. (p.name ≡ name_in context.now) × (p.life ≡ kept.now.generation + 1) × (p.generation ≡ kept.now.generation)) }
        ensures accepts { IsContext context.now → IsRecordOf context.now kept.now → kept.now.sender < 2 ^ 40 → IsOk result }
        ensures accepted { IsOk result → IsContext context.now × IsRecordOf context.now kept.now × (kept.now.sender < 2 ^ 40) }
        ensures refused { IfErr result (λ e. RefusesToBegin context.now kept.now e) }
    {
        if !context.is_whole() {
            return Err(BeginRefusal::BadHandle);
        }
        if !kept.is_of(context) {
            return Err(BeginRefusal::OldRecord);
        }
        let Some(sender) = Piv::new(kept.sender) else {
            return Err(BeginRefusal::NumbersExhausted);
        };
        let (received, generation) = (kept.received, kept.generation);
        match PeerHandle::begin(context, sender, received, generation, size, life_ms) {
            Some(peer) => Ok(peer),
            None => unreachable!(),
        }
    }

    /// Returns whether a call may have written the bytes.
    #[must_use]
    pub fn is_whole(&self) -> bool
        ensures yes { result ≡ true → IsPeer self.now }
        ensures no { result ≡ false → IsPeer self.now → ⊥ }
    {
        self.server.is_whole() && self.received <= NUMBER_LIMIT
    }

    /// Returns the Sender Sequence Number to save with the record by which the peer's life began, if that wasn't saved yet.
    pub(crate) fn claim_first(&self) -> Option<u64>
        requires { IsPeer self.now }
        ensures refused { IfSome result (λ number. (number ≡ next_limit self.now.server.reserved) × HasToClaim self.now) }
        ensures accepted { result ≡ None → HasToClaim self.now → ⊥ }
    {
        if self.generation < self.life {
            return Some(next_limit(self.server.reserved));
        }
        None
    }

    /// Returns the Sender Sequence Number to save before the peer goes on, if there is one: for the record by which its life began, or if the
    /// peer needs a number, which `asked` says.
    pub(crate) fn save_first(&self, asked: bool) -> Option<u64>
        requires { IsPeer self.now }
        ensures refused { IfSome result (λ number. (number ≡ next_limit self.now.server.reserved) × HasToSave asked (next_in self.now) self.now) }
        ensures accepted { result ≡ None → HasToSave asked (next_in self.now) self.now → ⊥ }
    {
        if let Some(number) = self.claim_first() {
            return Some(number);
        }
        save_first(asked, self.server.server.slot.next, self.server.reserved)
    }

    /// Returns the record of these two numbers, which has to be saved next, or `None` if it would be saved too often for a count of 64 bits.
    #[must_use]
    pub fn record(&self, sender: u64, received: u64) -> Option<RecordHandle>
        ensures made { IfSome result (λ r. r ≡ record { name = self.now.name; generation = self.now.generation + 1; sender = sender; received = received }) }
        ensures accepts { self.now.generation + 1 < 2 ^ 64 → IsSome result }
        ensures accepted { IsSome result → self.now.generation + 1 < 2 ^ 64 }
    {
        if self.generation == u64::MAX {
            return None;
        }
        Some(RecordHandle {
            name: self.name,
            generation: self.generation + 1,
            sender,
            received,
        })
    }

    /// Goes on after a record was saved durably. It has the name of the context, and the generation behind that of the last one. Its Sender
    /// Sequence Number is the one that has to be saved next, or the one that was saved before; its received number isn't below the one that was
    /// saved before, and at most 2^40. Returns whether it is such a record; if it isn't, nothing changes. Returns `None` if the bytes can't
    /// have been written by a call.
    pub fn saved(&mut self, kept: &RecordHandle) -> Option<bool>
        ensures saved { result ≡ Some true → (o : Own) → HasNumbers self.old o → (new : Own) × IsSavedAs kept.now.sender o new
            × ((h : served.History) → ServesBehind self.old o h → ServesBehind self.new new h)
            × ((requests : List asked.Asked) (room : ℕ) (a : asked.History) → AsksBehind self.old requests room o a → AsksBehind self.new requests room new a) }
        ensures received { result ≡ Some true → (self.new.received ≡ kept.now.received) × (self.old.received ≤ kept.now.received) }
        ensures named { result ≡ Some true → (kept.now.name ≡ self.old.name) × (kept.now.generation ≡ self.old.generation + 1)
            × (self.new.name ≡ self.old.name) × (self.new.life ≡ self.old.life) × (self.new.generation ≡ kept.now.generation) }
        ensures refused { result ≡ Some false → (o : Own) → HasNumbers self.old o → (kept.now.name ≢ self.old.name) ⊎ (kept.now.generation ≢ self.old.generation + 1)
            ⊎ (kept.now.received < self.old.received) ⊎ (2 ^ 40 < kept.now.received)
            ⊎ ((kept.now.sender ≢ o.limit) × (Allowed Reserve o → kept.now.sender ≢ next_limit o.limit)) }
        ensures accepts { IsPeer self.old → IsSome result }
        ensures accepted { IsSome result → IsPeer self.old }
        ensures unchanged { result ≢ Some true → self.new ≡ self.old }
    {
        if !self.is_whole() {
            return None;
        }
        if kept.name != self.name || kept.generation.checked_sub(1) != Some(self.generation) {
            return Some(false);
        }
        if kept.received < self.received || kept.received > NUMBER_LIMIT {
            return Some(false);
        }
        if kept.sender != self.server.reserved {
            let next = self.server.server.slot.next;
            let Some(wanted) = save_first(true, next, self.server.reserved) else {
                return Some(false);
            };
            if kept.sender != wanted {
                return Some(false);
            }
        }
        self.server.reserved = kept.sender;
        self.received = kept.received;
        self.generation = kept.generation;
        Some(true)
    }

    /// Returns the client's role, but for its pending requests, with the next Sender Sequence Number of both roles.
    pub(crate) fn asking(&self) -> ClientState
        requires { IsPeer self.now }
        ensures { parts_over result []
            ≡ record { context = client_in self.now.server.server.slot.context; life_ms = self.now.life_ms; clock = self.now.clock; next = next_in self.now; apart = None; pending = [] } }
    {
        let Some(context) = self.server.server.slot.context.context() else {
            unreachable!();
        };
        let next = Piv::new(self.server.server.slot.next);
        ClientState::resumed(context, self.life_ms, self.clock, next)
    }

    /// Returns the bytes of a ticket that a delivery gave in this life. They name the context and the life.
    #[must_use]
    pub fn ticket(&self, ticket: &Ticket) -> TicketHandle
        ensures named { IsTicketOf self.now result }
        ensures inside { (values_of ticket.now).context ≡ 0 → (values_of ticket.now).life ≡ self.now.server.server.slot.life
            → ticket_in (inside_of self.now result) ≡ values_of ticket.now }
        ensures bytes { IsTicket result }
    {
        TicketHandle {
            context: self.name as usize,
            life: self.life,
            ..TicketHandle::of(ticket)
        }
    }

    /// Returns the ticket as the server's role has it, or `None` if it names another context or another life.
    pub(crate) fn inside(&self, ticket: &TicketHandle) -> Option<TicketHandle>
        ensures some { IfSome result (λ inside. (inside ≡ inside_of self.now ticket.now) × IsTicketOf self.now ticket.now) }
        ensures none { result ≡ None → IsTicketOf self.now ticket.now → ⊥ }
    {
        if ticket.context as u64 != self.name || ticket.life != self.life {
            return None;
        }
        Some(TicketHandle {
            context: 0,
            life: self.server.server.slot.life,
            ..*ticket
        })
    }
}
