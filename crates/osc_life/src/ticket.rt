//! The right to answer one request.

use crate::asker::Asker;
use osc_context::Piv;

/// The right to reply once to a request that was delivered. If the request registers an observation, it is the right to notify as well. It
/// can't be cloned: only a delivery makes one, and a sealed reply uses it up.
#[derive(Debug, Drop)]
pub struct Ticket {
    pub(crate) context: usize,
    // The life of the context in which the request was delivered.
    pub(crate) life: u64,
    pub(crate) number: Piv,
    pub(crate) asker: Asker,
}

impl Ticket {
    ghost use Rattle.std.specs.Prelude.{◌≡◌};
    ghost use Rattle.osc_context.specs.Views.{number_of};
    ghost use Rattle.osc_life.specs.LifeAnswer.{asks_own};
    ghost use Rattle.osc_life.specs.Views.{values_of};

    /// Returns the request's number.
    #[must_use]
    pub fn number(&self) -> Piv
        ensures { number_of result ≡ (values_of self.now).number }
    {
        self.number
    }

    /// Returns the index of the context.
    #[must_use]
    pub fn context(&self) -> usize
        ensures { result ≡ (values_of self.now).context }
    {
        self.context
    }

    /// Returns how often the context had been restarted when the request was delivered.
    #[must_use]
    pub fn life(&self) -> u64
        ensures { result ≡ (values_of self.now).life }
    {
        self.life
    }

    /// Returns the requester that the reply goes to.
    #[must_use]
    pub fn asker(&self) -> &Asker
        ensures kind { result.now.kind ≡ (values_of self.now).kind }
        ensures observes { result.now.observes ≡ (values_of self.now).observes }
        ensures message_id { result.now.message_id ≡ (values_of self.now).message_id }
        ensures token { result.now.token.items ≡ (values_of self.now).token }
    {
        &self.asker
    }

    /// Returns whether the request registers an observation, so that `Server::notify` can answer it (RFC 8613, 4.1.3.5.1).
    #[must_use]
    pub fn observes(&self) -> bool
        ensures { result ≡ (values_of self.now).observes }
    {
        self.asker.observes
    }

    /// Returns whether a reply has a Partial IV of its own: one is asked for, or the request registers an observation (RFC 8613, 4.1.3.5).
    #[doc(hidden)]
    #[must_use]
    pub fn asks_own(&self, own: bool) -> bool
        ensures { result ≡ asks_own (values_of self.now) own }
    {
        self.asker.observes || own
    }
}
