//! A security context, as one of its two ends holds it (RFC 8613, 3.1).

ghost use Rattle.std.specs.Prelude.{◌≡◌, ◌≢◌, IfSome, IsSome, IsNone, IfOk, IfErr, IsOk, IsErrOf, true, false};
ghost use Rattle.std.specs.Option.{option_copied, option_map};
ghost use Rattle.osc_context.specs.ContextRefusal.{IsFirstParamsRefusal, RefusesParams};
ghost use Rattle.osc_context.specs.Features.{no_features};
ghost use Rattle.osc_context.specs.Fingerprint.{fingerprint_of};
ghost use Rattle.osc_context.specs.PrivateWords.{PassesBelow};
ghost use Rattle.osc_context.specs.SecurityContext.{AnswersTo, IsUsable};
ghost use Rattle.osc_context.specs.declared.context_error.ContextError.{ContextError};

use crate::context_error::ContextError;
use crate::derivation::{derive_common_iv, derive_key};
use crate::features::{Features, NO_FEATURES};
use crate::fingerprint::fingerprint;
use crate::identifier::{IdContext, Kid};
use crate::parameters::Params;
use osc_ccm::{Key, Nonce};
use osc_hkdf::extract;
use std::fmt;

/// The most bytes that a Master Secret can have; own rule.
const MOST_SECRET: usize = 64;

/// The most bytes that a Master Salt can have; own rule.
const MOST_SALT: usize = 64;

/// A security context: the identifiers and keys of both ends, the Common IV, and the ID Context if there is one. This
/// end is the sender. Its `Debug` leaves out the keys and the Common IV, so that they aren't printed by accident.
#[derive(Drop)]
pub struct Context {
    sender_id: Kid,
    recipient_id: Kid,
    id_context: Option<IdContext>,
    sender_key: Key,
    recipient_key: Key,
    common_iv: Nonce,
    constant_time: bool,
    features: Features,
    pub ghost usable: { IsUsable (record {
      client = sender_id;
      client_key = sender_key;
      server = recipient_id;
      server_key = recipient_key;
      common_iv = common_iv;
      id_context = id_context;
      features = features;
    }) },
}

impl Context {
    ghost use Rattle.osc_context.specs.Views.{as_client, as_server, client_context_of, is_constant_time, server_context_of};

    /// Derives the keys and the Common IV with HKDF (RFC 8613, 3.2.1). If it refuses, it returns the first reason in
    /// the order of [`ContextError`].
    pub fn derive(params: Params<'_>) -> Result<Context, ContextError>
        ensures client { IfOk result (λ c. as_client c ≡ client_context_of params.entry) }
        ensures server { IfOk result (λ c. as_server c ≡ server_context_of params.entry) }
        ensures chosen { IfOk result (λ c. is_constant_time c ≡ true) }
        ensures accepted { IsOk result → (e : ContextError) → ¬ RefusesParams params.entry e }
        ensures accepts { ((e : ContextError) → ¬ RefusesParams params.entry e) → IsOk result }
        ensures refused { IfErr result (λ e. IsFirstParamsRefusal params.entry e) }
        ensures refuses { (e : ContextError) → IsFirstParamsRefusal params.entry e → IsErrOf result e }
    {
        Context::derive_judged(params)
    }

    /// Derives a context, or finds why it can't.
    fn derive_judged(params: Params<'_>) -> Result<Context, ContextError>
        ensures client { IfOk result (λ c. as_client c ≡ client_context_of params.entry) }
        ensures chosen { IfOk result (λ c. is_constant_time c ≡ true) }
        ensures passed { IsOk result → PassesBelow 5 params.entry }
        ensures refused { IfErr result (λ e. IsFirstParamsRefusal params.entry e) }
    {
        check_lengths(params)?;
        let (sender, recipient) = identifiers(params)?;
        let id_context = id_context_of(params)?;
        let prk = extract(params.salt, params.secret);
        Ok(Context {
            sender_key: derive_key(&prk, params.id_context, params.sender),
            recipient_key: derive_key(&prk, params.id_context, params.recipient),
            common_iv: derive_common_iv(&prk, params.id_context),
            sender_id: sender,
            recipient_id: recipient,
            id_context,
            constant_time: true,
            features: NO_FEATURES,
        })
    }

    /// Makes the context of what was derived before, as the calls below return it: the identifiers, the ID Context if
    /// there is one, both keys and the Common IV. Returns `None` if both ends have the same identifier (RFC 8613, 3.3).
    /// Nothing can tell whether the keys were derived for it.
    #[must_use]
    pub fn from_derived(
        sender: Kid,
        recipient: Kid,
        id_context: Option<IdContext>,
        sender_key: Key,
        recipient_key: Key,
        common_iv: Nonce,
    ) -> Option<Context>
        ensures client { IfSome result (λ c. as_client c ≡ record {
          client = sender;
          client_key = sender_key;
          server = recipient;
          server_key = recipient_key;
          common_iv = common_iv;
          id_context = id_context;
          features = no_features;
        }) }
        ensures server { IfSome result (λ c. as_server c ≡ record {
          client = recipient;
          client_key = recipient_key;
          server = sender;
          server_key = sender_key;
          common_iv = common_iv;
          id_context = id_context;
          features = no_features;
        }) }
        ensures chosen { IfSome result (λ c. is_constant_time c ≡ true) }
        ensures accepts { sender ≢ recipient → IsSome result }
        ensures refuses { sender ≡ recipient → IsNone result }
    {
        if sender == recipient {
            return None;
        }
        Some(Context {
            sender_id: sender,
            recipient_id: recipient,
            id_context,
            sender_key,
            recipient_key,
            common_iv,
            constant_time: true,
            features: NO_FEATURES,
        })
    }

    /// Returns whether its keys are used in constant time, as they are unless `tables` was called.
    #[must_use]
    pub fn is_constant_time(&self) -> bool
        ensures { result ≡ is_constant_time self.now }
    {
        self.constant_time
    }

    /// Returns the same context, but its keys are used by the cipher with tables, which it looks up by bytes that depend on
    /// the key. That cipher is faster, but its times may tell of the key to whoever shares the processor. Unless you call
    /// this, a context uses a cipher with no look-up and no branch that depends on a key. What is sent is the same.
    #[inline(always)]
    #[must_use]
    pub fn tables(mut self) -> Context
        ensures client { as_client result ≡ as_client self }
        ensures server { as_server result ≡ as_server self }
        ensures chosen { is_constant_time result ≡ false }
    {
        self.constant_time = false;
        self
    }

    /// Returns the same context, but it takes part in these features and in no others. Both ends must have the same ones:
    /// an end without `blocks` refuses what has a Block option inside, and one without `observe` what has Observe inside.
    /// A context has none unless you call this.
    #[inline(always)]
    #[must_use]
    pub fn with_features(self, features: Features) -> Context
        ensures client { as_client result ≡ record (as_client self) { features = features } }
        ensures server { as_server result ≡ record (as_server self) { features = features } }
        ensures chosen { is_constant_time result ≡ is_constant_time self }
    {
        let Context {
            sender_id,
            recipient_id,
            id_context,
            sender_key,
            recipient_key,
            common_iv,
            constant_time,
            ..
        } = self;
        Context {
            sender_id,
            recipient_id,
            id_context,
            sender_key,
            recipient_key,
            common_iv,
            constant_time,
            features,
        }
    }

    /// Returns the features that the context takes part in.
    #[must_use]
    pub fn features(&self) -> Features
        ensures client { result ≡ (as_client self.now).features }
        ensures server { result ≡ (as_server self.now).features }
    {
        self.features
    }

    /// Returns the identifier of this end.
    #[must_use]
    pub fn sender(&self) -> &Kid
        ensures value { result.now ≡ (as_client self.now).client }
        ensures differ { (as_client self.now).client ≢ (as_client self.now).server }
    {
        &self.sender_id
    }

    /// Returns the identifier of the other end.
    #[must_use]
    pub fn recipient(&self) -> &Kid
        ensures value { result.now ≡ (as_server self.now).client }
        ensures differ { (as_server self.now).client ≢ (as_server self.now).server }
    {
        &self.recipient_id
    }

    /// Returns the ID Context, if there is one.
    #[must_use]
    pub fn id_context(&self) -> Option<&IdContext>
        ensures { option_copied result ≡ (as_client self.now).id_context }
    {
        self.id_context.as_ref()
    }

    /// Returns whether requests with this kid, and with this kid context or none, are for this end of the context, the
    /// server. They are if the kid is the other end's identifier, and the kid context is the ID Context or both are
    /// absent (RFC 8613, 8.2, step 2; own rule: a kid context if and only if there is an ID Context).
    #[must_use]
    pub fn answers_to(&self, kid: &[u8], kid_context: Option<&[u8]>) -> bool
        ensures yes { result ≡ true → AnswersTo (as_server self.now) kid.now (option_map (λ bytes. bytes.now) kid_context.entry) }
        ensures no { result ≡ false → AnswersTo (as_server self.now) kid.now (option_map (λ bytes. bytes.now) kid_context.entry) → ⊥ }
    {
        self.recipient_id.bytes() == kid && self.is_in(kid_context)
    }

    /// Returns whether the kid context and the ID Context have the same bytes, or are both absent.
    fn is_in(&self, kid_context: Option<&[u8]>) -> bool
        ensures yes { result ≡ true → (as_server self.now).id_context ≡ option_map (λ bytes. bytes.now) kid_context.entry }
        ensures no { result ≡ false → (as_server self.now).id_context ≢ option_map (λ bytes. bytes.now) kid_context.entry }
    {
        match (kid_context, self.id_context()) {
            (None, None) => true,
            (Some(kid_context), Some(id_context)) => kid_context == id_context.bytes(),
            _ => false,
        }
    }

    /// Returns the Sender Key, under which this end seals.
    #[must_use]
    pub fn sender_key(&self) -> &Key
        ensures { result.now ≡ (as_client self.now).client_key }
    {
        &self.sender_key
    }

    /// Returns the Recipient Key, under which the other end seals.
    #[must_use]
    pub fn recipient_key(&self) -> &Key
        ensures { result.now ≡ (as_server self.now).client_key }
    {
        &self.recipient_key
    }

    /// Returns the Common IV, from which each nonce is made.
    #[must_use]
    pub fn common_iv(&self) -> &Nonce
        ensures { result.now ≡ (as_client self.now).common_iv }
    {
        &self.common_iv
    }

    /// Returns what tells this sending end from another: 8 bytes of a code under the Sender Key, of the Sender ID (own
    /// rule). They don't tell the key, and what is kept of this end can be marked with them.
    #[must_use]
    pub fn fingerprint(&self) -> [u8; 8]
        ensures { result ≡ fingerprint_of (as_client self.now).client_key (as_client self.now).client }
    {
        fingerprint(&self.sender_key, &self.sender_id)
    }
}

impl fmt::Debug for Context {
    /// Shows both identifiers and the ID Context. It leaves out the keys and the Common IV.
    fn fmt<W: fmt::Write>(&self, f: &mut fmt::Formatter<W>) -> fmt::Result {
        f.debug_struct("Context")
            .field("sender", self.sender())
            .field("recipient", self.recipient())
            .field("id_context", &self.id_context())
            .finish_non_exhaustive()
    }
}

/// Judges the lengths of the secret and the salt.
fn check_lengths(params: Params<'_>) -> Result<(), ContextError>
    ensures passed { IsOk result → PassesBelow 2 params.entry }
    ensures refused { IfErr result (λ e. IsFirstParamsRefusal params.entry e) }
{
    if params.secret.is_empty() || params.secret.len() > MOST_SECRET {
        return Err(ContextError::SecretLength);
    }
    if params.salt.len() > MOST_SALT {
        return Err(ContextError::SaltLength);
    }
    Ok(())
}

/// Returns the two identifiers, the sender's first.
fn identifiers(params: Params<'_>) -> Result<(Kid, Kid), ContextError>
    requires { PassesBelow 2 params }
    ensures sender { IfOk result (λ ids. ids.0 ≡ params.entry.sender.now) }
    ensures recipient { IfOk result (λ ids. ids.1 ≡ params.entry.recipient.now) }
    ensures differ { IfOk result (λ ids. ids.0 ≢ ids.1) }
    ensures passed { IsOk result → PassesBelow 4 params.entry }
    ensures refused { IfErr result (λ e. IsFirstParamsRefusal params.entry e) }
{
    let Some(sender) = Kid::new(params.sender) else {
        return Err(ContextError::IdTooLong);
    };
    let Some(recipient) = Kid::new(params.recipient) else {
        return Err(ContextError::IdTooLong);
    };
    if sender == recipient {
        return Err(ContextError::SameIds);
    }
    Ok((sender, recipient))
}

/// Returns the ID Context, if one is given.
fn id_context_of(params: Params<'_>) -> Result<Option<IdContext>, ContextError>
    requires { PassesBelow 4 params }
    ensures value { IfOk result (λ id_context. id_context ≡ option_copied params.entry.id_context) }
    ensures passed { IsOk result → PassesBelow 5 params.entry }
    ensures refused { IfErr result (λ e. IsFirstParamsRefusal params.entry e) }
{
    match params.id_context {
        None => Ok(None),
        Some(bytes) => match IdContext::new(bytes) {
            None => Err(ContextError::IdContextLength),
            id_context => Ok(id_context),
        },
    }
}
