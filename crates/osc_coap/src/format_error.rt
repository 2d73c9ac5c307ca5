//! Why bytes aren't a datagram, or aren't a plaintext, and where.

ghost use Rattle.std.specs.Prelude.{◌≡◌, Some};
ghost use Rattle.osc_coap.specs.Text.{error_text, fault_name};

use std::{error, fmt};

/// The most bytes that a datagram or a plaintext can have. Own rule: the most that UDP could carry.
pub const MOST_DATAGRAM: usize = 65_535;

/// What is wrong with the bytes. The faults are in the order in which they are judged. The last four are faults of an
/// option or of the marker; these items are judged one by one, from left to right.
#[derive(Clone, Copy, Debug, PartialEq, Eq)]
pub enum Fault {
    /// There are more than 65,535 bytes (own rule); the place is 65,535.
    DatagramTooLong,
    /// The head, or the code of a plaintext, isn't whole; the place is 0.
    Short,
    /// The version isn't 1; the place is 0.
    Version,
    /// The token length is 9 to 15, which are reserved; the place is 0.
    TokenLength,
    /// The code is 0.00, and there is a token (the place is 0) or anything after the head (the place is 4).
    EmptyWithRest,
    /// The token reaches past the end; the place is 4, its first byte.
    TokenCut,
    /// A nibble of an option byte is 15, which is reserved; the place is the option byte.
    Nibble15,
    /// The extended bytes or the value reach past the end; the place is the option byte.
    OptionCut,
    /// The option's number is above 65,535 (own rule); the place is the option byte.
    NumberTooLarge,
    /// No payload follows the marker; the place is the marker.
    EmptyPayload,
}

/// The first fault of bytes that were refused.
#[derive(Clone, Copy, Debug, PartialEq, Eq)]
pub struct FormatError {
    /// The first fault in the order of `Fault`.
    pub fault: Fault,
    /// The faulty item's first byte, counted from 0 at the front of the bytes that were read.
    pub place: usize,
}

impl Fault {
    /// Returns this fault, at a place.
    pub(crate) fn at(self, place: usize) -> FormatError
        ensures fault { result.fault ≡ self }
        ensures place { result.place ≡ place }
    {
        FormatError { fault: self, place }
    }
}

impl fmt::Display for Fault {
    ghost output = { λ fault. Some (fault_name fault) };

    fn fmt<W: fmt::Write>(&self, f: &mut fmt::Formatter<W>) -> fmt::Result {
        f.write_str(match self {
            Fault::DatagramTooLong => "DatagramTooLong",
            Fault::Short => "Short",
            Fault::Version => "Version",
            Fault::TokenLength => "TokenLength",
            Fault::EmptyWithRest => "EmptyWithRest",
            Fault::TokenCut => "TokenCut",
            Fault::Nibble15 => "Nibble15",
            Fault::OptionCut => "OptionCut",
            Fault::NumberTooLarge => "NumberTooLarge",
            Fault::EmptyPayload => "EmptyPayload",
        })
    }
}

impl fmt::Display for FormatError {
    ghost output = { λ e. Some (error_text e) };

    fn fmt<W: fmt::Write>(&self, f: &mut fmt::Formatter<W>) -> fmt::Result {
        write!(f, "{} at {}", self.fault, self.place)
    }
}

impl error::Error for Fault {}

impl error::Error for FormatError {}
