//! The Echo value that a request carries (RFC 9175, 2.3).

ghost use Rattle.std.specs.Prelude.{◌≡◌, ◌≢◌, Some, true, false};
ghost use Rattle.osc_coap.specs.Interpreted.{interpreted};
ghost use Rattle.osc_coap.specs.OptionNumbers.{echo as echo_number};
ghost use Rattle.osc_coap.specs.Views.{options_left};

use osc_coap::Options;
use osc_coap::option_numbers::ECHO;

/// Returns whether the first Echo option has this value. An Echo of no bytes, or of more than 40, isn't looked at (RFC 9175, 2.2.1).
pub(crate) fn carries(options: &Options<'_>, echo: &[u8; 8]) -> bool
    ensures yes { result ≡ true → interpreted echo_number (options_left options.now) ≡ Some echo.now }
    ensures no { result ≡ false → interpreted echo_number (options_left options.now) ≢ Some echo.now }
{
    match options.interpreted(ECHO) {
        Some(value) => value == echo.as_slice(),
        None => false,
    }
}
