//! The request that a response answers.

use osc_context::{Context, Features, Piv};

/// A request, named by its number, for sealing or opening a response to it. The request is the client's: the client is the context's other
/// end for `seal_response`, and this end for `open_response`.
#[derive(Clone, Copy, Debug)]
pub struct RequestRef {
    pub(crate) number: Piv,
    pub(crate) registers: bool,
}

impl RequestRef {
    ghost use Rattle.std.specs.Prelude.{◌≡◌, true, false};
    ghost use Rattle.osc_context.specs.Views.{number_of};
    ghost use Rattle.osc_protect.specs.Views.{opened_responses, registers, request_number, sealed_responses};

    /// Names the request of this number, which registers no observation. No response to it may have Observe.
    #[must_use]
    pub fn new(number: Piv) -> RequestRef
        ensures number { request_number result ≡ number_of number }
        ensures plain { registers result ≡ false }
    {
        RequestRef {
            number,
            registers: false,
        }
    }

    /// Names the request of this number, which registers an observation. A response to it may have Observe, if the context takes part in
    /// that (RFC 7641, 3.1; RFC 8613, 4.1.3.5).
    #[must_use]
    pub fn registering(number: Piv) -> RequestRef
        ensures number { request_number result ≡ number_of number }
        ensures registering { registers result ≡ true }
    {
        RequestRef {
            registers: true,
            ..RequestRef::new(number)
        }
    }

    /// Returns the features that count for a response to it: those of the context, without Observe unless it registers an observation.
    pub(crate) fn features(&self, context: &Context) -> Features
        ensures sealed { result ≡ (sealed_responses context.now self.now).features }
        ensures opened { result ≡ (opened_responses context.now self.now).features }
    {
        if self.registers {
            context.features()
        } else {
            context.features().unobserved()
        }
    }
}
