//! Notifications to requests that register an observation.

ghost use Rattle.std.specs.Prelude.{◌≡◌, ◌≢◌, ◌≤◌, IfOk, IfErr, OnErr, length, drop};
ghost use Rattle.osc_coap.specs.Views.{parts_of};

use crate::server::ServerOf;
use crate::table::notify_at;
use osc_coap::Message;
use osc_life::{ReplyError, Ticket};

impl<const N: usize> ServerOf<N> {
    ghost use Rattle.osc_endpoint.specs.Agrees.{Agrees};
    ghost use Rattle.osc_endpoint.specs.ServerAnswer.{ServerAnswer};
    ghost use Rattle.osc_life.specs.ServerHistory.{History, Then, Notify};
    ghost use Rattle.osc_life.specs.Views.{reply_entry, values_of};
    ghost use Rattle.osc_life.specs.declared.server_error.ReplyError.TheVariants.{KeeperFailed};

    /// Seals a notification to the request of a ticket into `out`, and returns how many bytes it takes at the front of `out` (RFC 8613,
    /// 8.3.1). It uses the plain message, except the token, which is the ticket's: Type and Message ID are yours. The ticket stays. The
    /// observation is over when you drop the ticket, or when a reply uses it up. Returns the first refusal in the order of `ReplyError`. A
    /// refusal changes nothing and leaves `out` unchanged.
    pub fn notify(
        &mut self,
        ticket: &Ticket,
        plain: &Message<'_>,
        out: &mut [u8],
    ) -> Result<usize, ReplyError>
        ensures answered { (h : History) → Agrees self.old h
            → ServerAnswer h (Notify (values_of ticket.now) (parts_of plain.now) (length out.old)) (reply_entry result out.new) }
        ensures follows { (h : History) → Agrees self.old h
            → Agrees self.new (Then h (Notify (values_of ticket.now) (parts_of plain.now) (length out.old)) (reply_entry result out.new)) }
        ensures within { IfOk result (λ n. n ≤ length out.new) }
        ensures behind { IfOk result (λ n. drop n out.new ≡ drop n out.old) }
        ensures unchanged { OnErr result ((out.new ≡ out.old) × (self.new ≡ self.old)) }
        ensures no_keeper_failed { IfErr result (λ e. e ≢ KeeperFailed) }
    {
        notify_at(self.slots.as_mut_slice(), ticket, plain, out)
    }
}
