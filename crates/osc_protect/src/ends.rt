//! The ends of a context (RFC 8613, 3.1), each with the cipher under its key. Identifier and key travel together, so a key never meets the
//! identifier of the other end.

ghost use Rattle.std.specs.Prelude.{◌≡◌};
ghost use Rattle.osc_context.specs.Views.{as_client, as_server, is_constant_time};
ghost use Rattle.osc_protect.specs.ContextCipher.{is_in_constant_time, key_under, keeps_constant_time, kept_key};

use crate::context_cipher::{ContextCipher, KeptSchedule};
use osc_context::{Context, Kid};

/// An end, as a message needs it: its identifier, and the cipher under its key.
#[derive(Clone, Copy)]
pub(crate) struct End<'a> {
    pub(crate) kid: &'a Kid,
    pub(crate) cipher: ContextCipher<'a>,
}

/// A context with the cipher under the Sender Key. This end seals with it.
#[derive(Clone, Copy)]
pub(crate) struct Sender<'a> {
    pub(crate) context: &'a Context,
    cipher: ContextCipher<'a>,
    ghost keyed: { key_under cipher ≡ (as_client context.now).client_key },
    ghost chosen: { is_in_constant_time cipher ≡ is_constant_time context.now },
}

/// A context with the cipher under the Recipient Key. This end opens with it.
#[derive(Clone, Copy)]
pub(crate) struct Recipient<'a> {
    pub(crate) context: &'a Context,
    cipher: ContextCipher<'a>,
    ghost keyed: { key_under cipher ≡ (as_server context.now).client_key },
    ghost chosen: { is_in_constant_time cipher ≡ is_constant_time context.now },
}

impl<'a> Sender<'a> {
    ghost use Rattle.osc_protect.specs.Ends.{IsClientOf, IsServerOf};

    /// Makes the schedule of the Sender Key that the context asks for.
    pub(crate) fn schedule_of(context: &Context) -> KeptSchedule
        ensures key { kept_key result ≡ (as_client context.now).client_key }
        ensures chosen { keeps_constant_time result ≡ is_constant_time context.now }
    {
        KeptSchedule::of_key(context.sender_key(), context.is_constant_time())
    }

    /// Pairs a context with the cipher under its Sender Key, whose schedule isn't kept.
    pub(crate) fn of(context: &'a Context) -> Sender<'a>
        ensures { result.context.now ≡ context.entry.now }
    {
        let cipher = ContextCipher::of_key(context.sender_key(), context.is_constant_time());
        Sender::new(context, cipher)
    }

    /// Pairs a context with the cipher under its Sender Key.
    pub(crate) fn new(context: &'a Context, cipher: ContextCipher<'a>) -> Sender<'a>
        requires keyed { key_under cipher ≡ (as_client context.now).client_key }
        requires chosen { is_in_constant_time cipher ≡ is_constant_time context.now }
        ensures { result.context.now ≡ context.entry.now }
    {
        Sender { context, cipher }
    }

    /// Returns this end. It is the client of requests, and the server of responses.
    pub(crate) fn end(self) -> End<'a>
        ensures client { IsClientOf (as_client self.entry.context.now) result }
        ensures server { IsServerOf (as_server self.entry.context.now) result }
    {
        End {
            kid: self.context.sender(),
            cipher: self.cipher,
        }
    }
}

impl<'a> Recipient<'a> {
    ghost use Rattle.osc_protect.specs.Ends.{IsClientOf, IsServerOf};

    /// Makes the schedule of the Recipient Key that the context asks for.
    pub(crate) fn schedule_of(context: &Context) -> KeptSchedule
        ensures key { kept_key result ≡ (as_server context.now).client_key }
        ensures chosen { keeps_constant_time result ≡ is_constant_time context.now }
    {
        KeptSchedule::of_key(context.recipient_key(), context.is_constant_time())
    }

    /// Pairs a context with the cipher under its Recipient Key, whose schedule isn't kept.
    pub(crate) fn of(context: &'a Context) -> Recipient<'a>
        ensures { result.context.now ≡ context.entry.now }
    {
        let cipher = ContextCipher::of_key(context.recipient_key(), context.is_constant_time());
        Recipient::new(context, cipher)
    }

    /// Pairs a context with the cipher under its Recipient Key.
    pub(crate) fn new(context: &'a Context, cipher: ContextCipher<'a>) -> Recipient<'a>
        requires keyed { key_under cipher ≡ (as_server context.now).client_key }
        requires chosen { is_in_constant_time cipher ≡ is_constant_time context.now }
        ensures { result.context.now ≡ context.entry.now }
    {
        Recipient { context, cipher }
    }

    /// Returns the other end. It is the client of requests, and the server of responses.
    pub(crate) fn end(self) -> End<'a>
        ensures client { IsClientOf (as_server self.entry.context.now) result }
        ensures server { IsServerOf (as_client self.entry.context.now) result }
    {
        End {
            kid: self.context.recipient(),
            cipher: self.cipher,
        }
    }
}
