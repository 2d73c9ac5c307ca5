//! How long the value of an option may be that an end interprets (RFC 7252, 5.4.3).

ghost use Rattle.std.specs.Prelude.{◌≡◌};
ghost use Rattle.osc_coap.specs.Interpreted.{is_valid_length as valid_length};

use crate::option_numbers::{BLOCK1, BLOCK2, ECHO, OBSERVE};

/// The most bytes of Observe (RFC 7641, 2), and of Block2 and Block1 (RFC 7959, 2.1).
const MOST_NUMBER: usize = 3;

/// The most bytes of Echo (RFC 9175, 2.2.1).
const MOST_ECHO: usize = 40;

/// Returns whether the option with this number may have a value of this length.
pub(crate) fn is_valid_length(number: u16, len: usize) -> bool
    ensures { result ≡ valid_length number len }
{
    match number {
        OBSERVE | BLOCK2 | BLOCK1 => len <= MOST_NUMBER,
        ECHO => 1 <= len && len <= MOST_ECHO,
        _ => true,
    }
}
