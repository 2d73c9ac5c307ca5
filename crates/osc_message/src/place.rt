//! One place of a table: a message on its way, or none.

ghost use Rattle.std.specs.Prelude.{◌≡◌, ◌<◌, IfNone, IfSome, ℕ, None, Option, Some};
ghost use Rattle.std.specs.Option.{ForSome, option_map};
ghost use Rattle.osc_message.specs.Places.{AcknowledgesAt, call_at, MaySendAgain, sent_again_at};
ghost use Rattle.osc_message.specs.Sending.{Sending};
ghost use Rattle.osc_message.specs.Views.{place_of};

use crate::exchange::{Awaits, Exchange};

/// What an ACK did to the message at a place.
#[derive(Clone, Copy)]
pub(crate) enum AckedAt {
    Nothing,
    Stopped(u64),
    Ended(u64),
}

/// Returns the number of the call whose message is at a place.
pub(crate) fn number_at(place: &Option<Exchange>) -> Option<u64>
    ensures { result ≡ call_at (place_of place.now) }
{
    match place {
        Some(exchange) => Some(exchange.call),
        None => None,
    }
}

/// Returns the address that the message at a place went to.
pub(crate) fn address_at(place: &Option<Exchange>) -> Option<&[u8]>
    ensures to { IfSome result (λ to. (x : Sending) × (place_of place.now ≡ Some x) × (to.now ≡ x.to)) }
    ensures free { IfNone result (place_of place.now ≡ None) }
{
    match place {
        Some(exchange) => Some(exchange.to.as_slice()),
        None => None,
    }
}

/// Notes an ACK for the message at a place: one that awaits nothing more leaves it (RFC 7252, 4.2).
pub(crate) fn acknowledge_at(place: &mut Option<Exchange>) -> AckedAt
    ensures { AcknowledgesAt (place_of place.old) (place_of place.new) result }
{
    let Some(exchange) = place else {
        return AckedAt::Nothing;
    };
    let call = exchange.call;
    match exchange.awaits {
        Awaits::Response => {
            exchange.stop();
            AckedAt::Stopped(call)
        }
        Awaits::Acknowledgement => {
            *place = None;
            AckedAt::Ended(call)
        }
    }
}

/// Takes the message out of a place, and returns the number of its call.
pub(crate) fn end_at(place: &mut Option<Exchange>) -> Option<u64>
    ensures number { result ≡ call_at (place_of place.old) }
    ensures gone { place_of place.new ≡ None }
{
    match place.take() {
        Some(exchange) => Some(exchange.call),
        None => None,
    }
}

/// Notes that the message at a place is sent again at this moment, and returns the number of its call.
pub(crate) fn send_again_at(place: &mut Option<Exchange>, now: u64) -> Option<u64>
    requires { MaySendAgain (place_of place.old) }
    ensures number { result ≡ call_at (place_of place.old) }
    ensures sent { place_of place.new ≡ sent_again_at (place_of place.old) now }
{
    match place {
        Some(exchange) => {
            exchange.send_again(now);
            Some(exchange.call)
        }
        None => None,
    }
}
