//! The context that a call names.

ghost use Rattle.std.specs.Prelude.{◌≡◌, IfErr, IfOk, IsOk, not};
ghost use Rattle.osc_context.specs.ContextRefusal.{IsFirstParamsRefusal, RefusesParams};
ghost use Rattle.osc_context.specs.Views.{as_client, as_server, is_constant_time};
ghost use Rattle.osc_context.specs.declared.context_error.ContextError.{ContextError as ContextErrorOf};

use osc_context::{Context, ContextError, Features, Params};

/// What both ends of a context agreed on, as one of them sees it: what the context is derived from, and the features that it takes part in.
/// Beside it, what this end chose alone: whether its keys are used by the cipher with tables.
#[derive(Clone, Copy)]
pub struct Agreed<'a> {
    pub params: Params<'a>,
    pub features: Features,
    pub tables: bool,
}

impl<'a> Agreed<'a> {
    ghost use Rattle.osc_context.specs.Fingerprint.{fingerprint_of};
    ghost use Rattle.osc_text.specs.Contexts.{agreed_client, agreed_server};

    /// Derives the context, and returns its fingerprint ([`Context::fingerprint`]), with which a record of it is marked, or why the context
    /// is refused.
    pub fn fingerprint(self) -> Result<[u8; 8], ContextError>
        ensures fingerprint { IfOk result (λ f. f ≡ fingerprint_of (agreed_client self.entry).client_key (agreed_client self.entry).client) }
        ensures refused { IfErr result (λ e. IsFirstParamsRefusal self.entry.params e) }
    {
        let context = self.derive()?;
        Ok(context.fingerprint())
    }

    /// Derives the context, with these features and that cipher.
    pub(crate) fn derive(self) -> Result<Context, ContextError>
        ensures client { IfOk result (λ c. as_client c ≡ agreed_client self.entry) }
        ensures server { IfOk result (λ c. as_server c ≡ agreed_server self.entry) }
        ensures chosen { IfOk result (λ c. is_constant_time c ≡ not self.entry.tables) }
        ensures accepted { IsOk result → (e : ContextErrorOf) → ¬ RefusesParams self.entry.params e }
        ensures refused { IfErr result (λ e. IsFirstParamsRefusal self.entry.params e) }
    {
        let context = match Context::derive(self.params) {
            Ok(context) => context.with_features(self.features),
            Err(refusal) => return Err(refusal),
        };
        Ok(if self.tables {
            context.tables()
        } else {
            context
        })
    }
}
