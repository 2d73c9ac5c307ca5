//! Why bytes aren't a value of the OSCORE option (RFC 8613, 6.1).

use std::error::Error;
use std::fmt;

/// Why bytes aren't a value of the OSCORE option. The reasons are in the order in which they are judged.
#[derive(Clone, Copy, Debug, PartialEq, Eq)]
pub enum OptionError {
    /// There are more than 255 bytes (RFC 8613, 2).
    TooLong,
    /// One of the top three bits of the flag byte is set.
    Reserved,
    /// The length of the Partial IV is 6 or 7.
    PivLength,
    /// The flag byte is written, but it is 0; own rule.
    ZeroFlag,
    /// The Partial IV, the length byte or the kid context reaches past the end.
    Cut,
    /// A Partial IV of more than one byte begins with 0; own rule.
    LeadingZero,
    /// Bytes are left, but there is no kid flag; own rule.
    Trailing,
}

impl fmt::Display for OptionError {
    ghost use Rattle.std.specs.Prelude.{Some};
    ghost use Rattle.osc_context.specs.OptionRefusal.{option_error_text};

    ghost output = { λ e. Some (option_error_text e) };

    fn fmt<W: fmt::Write>(&self, f: &mut fmt::Formatter<W>) -> fmt::Result {
        match self {
            OptionError::TooLong => f.write_str("TooLong"),
            OptionError::Reserved => f.write_str("Reserved"),
            OptionError::PivLength => f.write_str("PivLength"),
            OptionError::ZeroFlag => f.write_str("ZeroFlag"),
            OptionError::Cut => f.write_str("Cut"),
            OptionError::LeadingZero => f.write_str("LeadingZero"),
            OptionError::Trailing => f.write_str("Trailing"),
        }
    }
}

impl Error for OptionError {}
