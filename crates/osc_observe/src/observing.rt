//! Which requests register an observation, and which responses are notifications (RFC 7641, 2 and 3.2; RFC 8613, 4.1.3.5).

ghost use Rattle.std.specs.Prelude.{◌≡◌};
ghost use Rattle.std.specs.Option.{option_map};
ghost use Rattle.osc_coap.specs.Views.{options_left};
ghost use Rattle.osc_context.specs.Views.{number_of};
ghost use Rattle.osc_observe.specs.Observing.{cancels as cancelling, is_notification as notification, is_one as one, is_zero as zero, place_of as place, registers as registering};

use osc_coap::Options;
use osc_coap::option_numbers::OBSERVE;
use osc_context::{Features, Piv};

/// Returns whether bytes are the number 0, with any count of leading zero bytes (RFC 7252, 3.2).
fn is_zero(value: &[u8]) -> bool
    ensures { result ≡ zero value.now }
{
    value.iter().all(|byte| *byte == 0)
}

/// Returns whether bytes are the number 1, with any count of leading zero bytes (RFC 7252, 3.2).
fn is_one(value: &[u8]) -> bool
    ensures { result ≡ one value.now }
{
    match value.split_last() {
        Some((last, leading)) => is_zero(leading) && *last == 1,
        None => false,
    }
}

/// Returns whether a request with this code and these options registers an observation: a GET or FETCH whose first Observe option is 0, in
/// at most 3 bytes, under a context that takes part in Observe.
#[must_use]
pub fn registers(features: Features, code: u8, options: &Options<'_>) -> bool
    ensures { result ≡ registering features code (options_left options.now) }
{
    if !features.observe || (code != 1 && code != 5) {
        return false;
    }
    match options.interpreted(OBSERVE) {
        Some(value) => is_zero(value),
        None => false,
    }
}

/// Returns whether a request with this code and these options cancels an observation: a GET or FETCH whose first Observe option is 1, in at
/// most 3 bytes, under a context that takes part in Observe.
#[must_use]
pub fn cancels(features: Features, code: u8, options: &Options<'_>) -> bool
    ensures { result ≡ cancelling features code (options_left options.now) }
{
    if !features.observe || (code != 1 && code != 5) {
        return false;
    }
    match options.interpreted(OBSERVE) {
        Some(value) => is_one(value),
        None => false,
    }
}

/// Returns whether a response with this code and these options continues an observation: of class 2, with an Observe option of at most 3
/// bytes.
#[must_use]
pub fn is_notification(code: u8, options: &Options<'_>) -> bool
    ensures { result ≡ notification code (options_left options.now) }
{
    code / 32 == 2 && options.interpreted(OBSERVE).is_some()
}

/// Returns the place of a response among those to a registration: 0 without a Partial IV of its own, and else that number plus 1.
#[must_use]
pub fn place_of(own: Option<Piv>) -> u64
    ensures { result ≡ place (option_map number_of own) }
{
    match own {
        Some(own) => own.number() + 1,
        None => 0,
    }
}
