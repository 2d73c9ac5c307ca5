//! A security context that keeps the schedules of its two keys, or makes each one when it needs it.

ghost use Rattle.std.specs.Prelude.{◌≡◌, is_some, IfOk, IfErr, IsOk, IsErrOf};
ghost use Rattle.std.specs.Option.{ForSome, option_map};
ghost use Rattle.osc_coap.specs.Interpreted.{interpreted};
ghost use Rattle.osc_coap.specs.OptionNumbers.{observe};
ghost use Rattle.osc_coap.specs.Views.{parts_of};
ghost use Rattle.osc_context.specs.Views.{as_client, as_server, is_constant_time, number_of};
ghost use Rattle.osc_protect.specs.ContextCipher.{keeps_constant_time, kept_key};
ghost use Rattle.osc_protect.specs.declared.protect_error.ProtectError.{ProtectError};

use crate::checked::{Checked, check};
use crate::context_cipher::KeptSchedule;
use crate::ends::{Recipient, Sender};
use crate::family::Family;
use crate::opened::Opened;
use crate::opening::{
    open_request_by, open_response_by, unprotect_request_by, unprotect_response_by,
};
use crate::protect_error::ProtectError;
use crate::request_ref::RequestRef;
use crate::sealing::{seal_checked_response, seal_request_by, seal_response_by};
use crate::stages::{ReadRequest, ReadResponse};
use crate::unprotect_error::UnprotectError;
use osc_coap::Message;
use osc_context::{Context, Piv};
use std::fmt;

/// A security context with the schedules of its two keys, for an end that seals and opens more than one message. Its `Debug` shows no key
/// and no schedule.
#[derive(Drop)]
pub struct KeyedContext {
    context: Context,
    schedules: Option<Schedules>,
    ghost sender_keyed: { ForSome schedules (λ kept. (kept_key kept.sender ≡ (as_client context).client_key)
        × (keeps_constant_time kept.sender ≡ is_constant_time context)) },
    ghost recipient_keyed: { ForSome schedules (λ kept. (kept_key kept.recipient ≡ (as_server context).client_key)
        × (keeps_constant_time kept.recipient ≡ is_constant_time context)) },
}

/// The schedules of a context's two keys.
#[derive(Drop)]
struct Schedules {
    sender: KeptSchedule,
    recipient: KeptSchedule,
}

impl KeyedContext {
    ghost use Rattle.osc_protect.specs.Checks.{ChecksResponse, observes};
    ghost use Rattle.osc_protect.specs.Opening.{OpensExactly};
    ghost use Rattle.osc_protect.specs.Sealed.{features_for};
    ghost use Rattle.osc_protect.specs.Sealing.{Seals};
    ghost use Rattle.osc_protect.specs.SealRefusals.{IsPlainResponse, RefusesPlainResponse};
    ghost use Rattle.osc_protect.specs.StageViews.{UnprotectsRequest, UnprotectsResponse};
    ghost use Rattle.osc_protect.specs.Views.{context_of, opened_requests, opened_responses, sealed_requests, sealed_responses};

    /// Makes both schedules, and keeps them.
    #[must_use]
    pub fn new(context: Context) -> KeyedContext
        ensures { context_of result ≡ context }
    {
        KeyedContext {
            schedules: Some(Schedules {
                sender: Sender::schedule_of(&context),
                recipient: Recipient::schedule_of(&context),
            }),
            context,
        }
    }

    /// Keeps no schedule. Each call makes the schedule that it needs, as the calls over a `Context` do. Use this for an end that exists for
    /// one message.
    #[inline(always)]
    #[must_use]
    pub fn for_one_message(context: Context) -> KeyedContext
        ensures { context_of result ≡ context }
    {
        KeyedContext {
            schedules: None,
            context,
        }
    }

    /// Returns the context.
    #[must_use]
    pub fn context(&self) -> &Context
        ensures { result.now ≡ context_of self.now }
    {
        &self.context
    }

    /// Returns what this end seals with.
    fn sender(&self) -> Sender<'_>
        ensures { result.context.now ≡ context_of self.now }
    {
        match &self.schedules {
            Some(kept) => Sender::new(&self.context, kept.sender.cipher()),
            None => Sender::of(&self.context),
        }
    }

    /// Returns what this end opens with.
    pub(crate) fn recipient(&self) -> Recipient<'_>
        ensures { result.context.now ≡ context_of self.now }
    {
        match &self.schedules {
            Some(kept) => Recipient::new(&self.context, kept.recipient.cipher()),
            None => Recipient::of(&self.context),
        }
    }

    /// Seals a request as [`crate::seal_request`] does, under the kept schedule or under one that it makes.
    pub fn seal_request(
        &self,
        number: Piv,
        plain: &Message<'_>,
        out: &mut [u8],
    ) -> Result<usize, ProtectError>
        ensures { Seals (sealed_requests (context_of self.now)) (number_of number) (parts_of plain.now) out.old out.new result }
    {
        seal_request_by(self.sender(), number, plain, out)
    }

    /// Seals a response as [`crate::seal_response`] does, under the kept schedule or under one that it makes.
    pub fn seal_response(
        &self,
        request: &RequestRef,
        own: Option<Piv>,
        plain: &Message<'_>,
        out: &mut [u8],
    ) -> Result<usize, ProtectError>
        ensures { Seals (sealed_responses (context_of self.now) request.now) (option_map number_of own) (parts_of plain.now) out.old out.new result }
    {
        seal_response_by(self.sender(), request, own, plain, out)
    }

    /// Checks whether a response to a request can be sealed, whatever its length, as [`crate::seal_response`] does before anything else. Refuses
    /// with `NotThatKind` or `Unsupported`, in this order (RFC 8613, 8.3; own rule: the options).
    #[doc(hidden)]
    pub fn check_response(
        &self,
        request: &RequestRef,
        plain: &Message<'_>,
    ) -> Result<Checked, ProtectError>
        ensures made { IfOk result (λ c. ChecksResponse (context_of self.now) request.now (parts_of plain.now) c) }
        ensures observes { IfOk result (λ c. observes c ≡ is_some (interpreted observe (parts_of plain.now).options)) }
        ensures accepted { IsOk result → IsPlainResponse (features_for (sealed_responses (context_of self.now) request.now) (parts_of plain.now)) (parts_of plain.now) }
        ensures accepts { IsPlainResponse (features_for (sealed_responses (context_of self.now) request.now) (parts_of plain.now)) (parts_of plain.now) → IsOk result }
        ensures refused { IfErr result
            (λ e. RefusesPlainResponse (features_for (sealed_responses (context_of self.now) request.now) (parts_of plain.now)) (parts_of plain.now) e) }
        ensures refuses { (e : ProtectError)
            → RefusesPlainResponse (features_for (sealed_responses (context_of self.now) request.now) (parts_of plain.now)) (parts_of plain.now) e
            → IsErrOf result e }
    {
        check(Family::of_response(&self.context, request), plain)
    }

    /// Seals a response that was checked, to the request that it was checked for, as [`KeyedContext::seal_response`] does: so the plain message
    /// isn't checked a second time. Refuses with `TooLong` or `NoRoom`, in this order, and then leaves `out` unchanged. The caller keeps the
    /// Partial IV fresh, and seals at most one response without one to each request (RFC 8613, 8.3).
    #[doc(hidden)]
    pub fn seal_checked(
        &self,
        request: &RequestRef,
        own: Option<Piv>,
        checked: Checked,
        plain: &Message<'_>,
        out: &mut [u8],
    ) -> Result<usize, ProtectError>
        requires { ChecksResponse (context_of self.now) request.now (parts_of plain.now) checked }
        ensures { Seals (sealed_responses (context_of self.now) request.now) (option_map number_of own) (parts_of plain.now) out.old out.new result }
    {
        seal_checked_response(self.sender(), request, own, checked, plain, out)
    }

    /// Opens a request as [`crate::open_request`] does, under the kept schedule or under one that it makes.
    pub fn open_request<'b>(&self, datagram: &'b mut [u8]) -> Result<Opened<'b>, UnprotectError>
        ensures { OpensExactly (opened_requests (context_of self.now)) datagram.old result }
    {
        open_request_by(self.recipient(), datagram)
    }

    /// Opens a response as [`crate::open_response`] does, under the kept schedule or under one that it makes.
    pub fn open_response<'b>(
        &self,
        request: &RequestRef,
        datagram: &'b mut [u8],
    ) -> Result<Opened<'b>, UnprotectError>
        ensures { OpensExactly (opened_responses (context_of self.now) request.now) datagram.old result }
    {
        open_response_by(self.recipient(), request, datagram)
    }

    /// Opens a request as [`crate::unprotect_request`] does, under the kept schedule or under one that it makes.
    pub fn unprotect_request(&self, datagram: &mut [u8]) -> Result<ReadRequest, UnprotectError>
        ensures { UnprotectsRequest (opened_requests (context_of self.now)) datagram.old datagram.new result }
    {
        unprotect_request_by(self.recipient(), datagram)
    }

    /// Opens a response as [`crate::unprotect_response`] does, under the kept schedule or under one that it makes.
    pub fn unprotect_response(
        &self,
        request: &RequestRef,
        datagram: &mut [u8],
    ) -> Result<ReadResponse, UnprotectError>
        ensures { UnprotectsResponse (opened_responses (context_of self.now) request.now) datagram.old datagram.new result }
    {
        unprotect_response_by(self.recipient(), request, datagram)
    }
}

impl fmt::Debug for KeyedContext {
    /// Shows the context as the context's own `Debug` does, and leaves the schedules out.
    fn fmt<W: fmt::Write>(&self, f: &mut fmt::Formatter<W>) -> fmt::Result {
        f.debug_struct("KeyedContext")
            .field("context", &self.context)
            .finish_non_exhaustive()
    }
}
