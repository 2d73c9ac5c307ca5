//! Why a writer refuses.

ghost use Rattle.std.specs.Prelude.{◌≡◌, Some};
ghost use Rattle.osc_coap.specs.Text.{refusal_name};

use std::{error, fmt};

/// Why something can't be written. The reasons are in the order in which they are judged.
#[derive(Clone, Copy, Debug, PartialEq, Eq)]
pub enum WriteError {
    /// A message with code 0.00 would get a token, an option, or a payload that isn't empty (RFC 7252, 4.1).
    EmptyWithRest,
    /// The number is below the last one, or something would follow a payload (RFC 7252, 3.1).
    Order,
    /// The value has more than 65,804 bytes, which is more than the length of an option can say (RFC 7252, 3.1).
    ValueTooLong,
    /// What is written would pass the end of the buffer, or 65,535 bytes in all (own rule).
    NoRoom,
}

impl fmt::Display for WriteError {
    ghost output = { λ e. Some (refusal_name e) };

    fn fmt<W: fmt::Write>(&self, f: &mut fmt::Formatter<W>) -> fmt::Result {
        f.write_str(match self {
            WriteError::EmptyWithRest => "EmptyWithRest",
            WriteError::Order => "Order",
            WriteError::ValueTooLong => "ValueTooLong",
            WriteError::NoRoom => "NoRoom",
        })
    }
}

impl error::Error for WriteError {}
