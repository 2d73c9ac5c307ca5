//! Why a message isn't sealed.

use std::error::Error;
use std::fmt;

/// Why a message isn't sealed. The variants stand in the order in which they are checked.
#[derive(Clone, Copy, Debug, PartialEq, Eq)]
pub enum ProtectError {
    /// A request isn't CON or NON with a request code, or a response isn't CON, NON or ACK with a response code.
    NotThatKind,
    /// The message has an option that can't be sealed. The value is the lowest number that it has of OSCORE, Proxy-Uri, Proxy-Scheme and,
    /// unless the features that count allow them, Observe, Block1, Block2, Q-Block1 and Q-Block2. A response to a request that registers
    /// nothing never has Observe; own rule.
    Unsupported(u16),
    /// The sealed message would have more than 65,535 bytes; own rule.
    TooLong,
    /// The sealed message would have more bytes than the buffer.
    NoRoom,
}

impl fmt::Display for ProtectError {
    ghost use Rattle.std.specs.Prelude.{Some};
    ghost use Rattle.osc_protect.specs.Text.{protect_error_text};

    ghost output = { λ error. Some (protect_error_text error) };

    fn fmt<W: fmt::Write>(&self, f: &mut fmt::Formatter<W>) -> fmt::Result {
        match self {
            ProtectError::NotThatKind => f.write_str("NotThatKind"),
            ProtectError::Unsupported(number) => write!(f, "Unsupported {number}"),
            ProtectError::TooLong => f.write_str("TooLong"),
            ProtectError::NoRoom => f.write_str("NoRoom"),
        }
    }
}

impl Error for ProtectError {}
