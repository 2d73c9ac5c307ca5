//! The right to answer one request, as bytes. The bytes can be copied, but the right can't: the server keeps track of which requests
//! are waiting for their answers. Each notification has a new number, so the right to notify needs no track.

ghost use Rattle.std.specs.Prelude.{◌≡◌, ◌≤◌, IfSome, IsSome, take, true, false};
ghost use Rattle.osc_context.specs.Views.{number_of};
ghost use Rattle.osc_life.specs.LifeAnswer.{asks_own};
ghost use Rattle.osc_life.specs.Views.{values_of};
ghost use Rattle.osc_handle.specs.TicketBytes.{IsTicket, kind_in, ticket_in};

use osc_coap::{Kind, Token};
use osc_context::Piv;
use osc_endpoint::Ticket;
use osc_endpoint::siblings::Asker;

/// The ticket of a request that was delivered.
#[repr(C)]
#[derive(Clone, Copy)]
pub struct TicketHandle {
    /// The index of the context.
    pub context: usize,
    /// How often the context had been restarted.
    pub life: u64,
    pub number: u64,
    /// 0 for CON, 1 for NON.
    pub kind: u8,
    pub message_id: u16,
    pub token: [u8; 8],
    pub token_len: u8,
    /// 1 if the request registers an observation, and 0 if not.
    pub observes: u8,
}

/// Returns the number of a kind, as the Type field of a datagram has it (RFC 7252, 3).
fn number_of_kind(kind: Kind) -> u8
    ensures is { kind_in result ≡ kind }
    ensures within { result ≤ 3 }
{
    match kind {
        Kind::Con => 0,
        Kind::Non => 1,
        Kind::Ack => 2,
        Kind::Rst => 3,
    }
}

/// Returns the kind that has this number, or `None` if no kind has it.
fn kind_with(number: u8) -> Option<Kind>
    ensures is { IfSome result (λ kind. kind ≡ kind_in number) }
    ensures accepts { number ≤ 3 → IsSome result }
    ensures accepted { IsSome result → number ≤ 3 }
{
    match number {
        0 => Some(Kind::Con),
        1 => Some(Kind::Non),
        2 => Some(Kind::Ack),
        3 => Some(Kind::Rst),
        _ => None,
    }
}

impl TicketHandle {
    /// Returns the bytes of a ticket.
    #[must_use]
    pub fn of(ticket: &Ticket) -> TicketHandle
        ensures ticket { ticket_in result ≡ values_of ticket.now }
        ensures bytes { IsTicket result }
    {
        let asker = ticket.asker();
        let mut token = [0; 8];
        token[..asker.token.len()].copy_from_slice(asker.token.as_slice());
        TicketHandle {
            context: ticket.context(),
            life: ticket.life(),
            number: ticket.number().number(),
            kind: number_of_kind(asker.kind),
            message_id: asker.message_id,
            token,
            token_len: asker.token.len() as u8,
            observes: u8::from(ticket.observes()),
        }
    }

    /// Returns the requester that the reply goes to. Returns `None` if the bytes can't have been written by a call.
    fn asker(&self) -> Option<Asker>
        ensures kind { IfSome result (λ asker. asker.kind ≡ kind_in self.now.kind) }
        ensures observes { IfSome result (λ asker. asker.observes ≡ (ticket_in self.now).observes) }
        ensures message_id { IfSome result (λ asker. asker.message_id ≡ self.now.message_id) }
        ensures token { IfSome result (λ asker. asker.token.items ≡ take self.now.token_len self.now.token) }
        ensures accepts { self.now.kind ≤ 3 → self.now.token_len ≤ 8 → IsSome result }
        ensures accepted { IsSome result → (self.now.kind ≤ 3) × (self.now.token_len ≤ 8) }
    {
        let kind = kind_with(self.kind)?;
        let bytes = self.token.get(..usize::from(self.token_len))?;
        let mut token = Token::new();
        token.try_extend_from_slice(bytes).unwrap();
        Some(Asker {
            kind,
            observes: self.is_observing(),
            message_id: self.message_id,
            token,
        })
    }

    /// Returns the number of the request, and the requester that the reply goes to. Returns `None` if the bytes can't have been
    /// written by a call.
    #[must_use]
    pub fn parts(&self) -> Option<(Piv, Asker)>
        ensures number { IfSome result (λ parts. number_of parts.0 ≡ self.now.number) }
        ensures kind { IfSome result (λ parts. parts.1.kind ≡ (ticket_in self.now).kind) }
        ensures observes { IfSome result (λ parts. parts.1.observes ≡ (ticket_in self.now).observes) }
        ensures message_id { IfSome result (λ parts. parts.1.message_id ≡ (ticket_in self.now).message_id) }
        ensures token { IfSome result (λ parts. parts.1.token.items ≡ (ticket_in self.now).token) }
        ensures accepts { IsTicket self.now → IsSome result }
        ensures accepted { IsSome result → IsTicket self.now }
    {
        if self.observes > 1 {
            return None;
        }
        let number = Piv::new(self.number)?;
        let asker = self.asker()?;
        Some((number, asker))
    }

    /// Returns whether a call may have written the bytes.
    #[must_use]
    pub fn is_whole(&self) -> bool
        ensures yes { result ≡ true → IsTicket self.now }
        ensures no { result ≡ false → IsTicket self.now → ⊥ }
    {
        self.parts().is_some()
    }

    /// Returns whether the request registers an observation, so that a notification can answer it (RFC 8613, 4.1.3.5.1).
    pub(crate) fn is_observing(&self) -> bool
        ensures { result ≡ (ticket_in self.now).observes }
    {
        self.observes != 0
    }

    /// Returns whether a reply has a Partial IV of its own: one is asked for, or the request registers an observation (RFC 8613, 4.1.3.5).
    #[doc(hidden)]
    #[must_use]
    pub fn asks_own(&self, own: bool) -> bool
        ensures { result ≡ asks_own (ticket_in self.now) own }
    {
        self.is_observing() || own
    }
}
