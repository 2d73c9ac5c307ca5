//! The example of osc_endpoint.

ghost use Rattle.std.specs.Prelude.{◌≡◌, ℕ, IsTrue};
ghost use Rattle.osc_coap.specs.Inner.{InnerParts};
ghost use Rattle.osc_endpoint.specs.Agrees.{Agrees};
ghost use Rattle.osc_endpoint.specs.ServerAnswer.{Delivers};
ghost use Rattle.osc_life.specs.ServerHistory.{History};

use osc_endpoint::{Decided, Fresh, Outcome, Server};

/// Returns whether a datagram gives this order to a lock, and how many bytes the reply has. If there is a reply, the front of `out`
/// goes back to the sender.
pub fn obeys(
    server: &mut Server,
    now: u64,
    fresh: Fresh,
    datagram: &mut [u8],
    out: &mut [u8; 64],
    order: &[u8],
) -> (bool, usize)
    // The first result is true only if the datagram protects that order, as a request that is new after all that the server was asked
    // before.
    ensures { IsTrue result.0 → (h : History) → Agrees server.old h
        → (i n : ℕ) × (m : InnerParts) × Delivers h now datagram.old i n m × (m.payload ≡ order.now) }
{
    let Decided { decision, reply } = server.decide(now, fresh, datagram, out);
    let obeys = match decision.outcome(datagram) {
        Outcome::Deliver(request, _) => request.payload == order,
        _ => false,
    };
    (obeys, reply)
}
