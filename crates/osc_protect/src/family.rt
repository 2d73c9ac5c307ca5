//! What a message is sealed as.

ghost use Rattle.std.specs.Prelude.{◌≡◌};
ghost use Rattle.osc_protect.specs.declared.usage.Usage.TheVariants.{Response};

use crate::request_ref::RequestRef;
use crate::split::Sought;
use crate::usage::Usage;
use osc_context::{Context, Features};

/// What a message is sealed as: a request, or a response to a request that registers an observation or doesn't. The features are those that
/// count for it.
#[derive(Clone, Copy)]
pub(crate) struct Family {
    pub(crate) usage: Usage,
    pub(crate) features: Features,
    pub(crate) notifies: bool,
}

impl Family {
    ghost use Rattle.osc_protect.specs.Views.{registers, sealed_responses};

    /// Returns what a response to a request is sealed as.
    pub(crate) fn of_response(context: &Context, request: &RequestRef) -> Family
        ensures { result ≡ record { usage = Response; features = (sealed_responses context.now request.now).features; notifies = registers request.now } }
    {
        Family {
            usage: Usage::Response,
            features: request.features(context),
            notifies: request.registers,
        }
    }

    /// Returns where Observe is sought, before the first option.
    pub(crate) fn sought(self) -> Sought
        ensures outside { result.outside ≡ self.features.observe }
        ensures inside { result.inside ≡ self.notifies }
    {
        Sought {
            outside: self.features.observe,
            inside: self.notifies,
        }
    }
}
