//! The plaintext of a protected message as it was read (RFC 8613, 5.3).

ghost use Rattle.std.specs.Prelude.{◌≡◌};
ghost use Rattle.osc_coap.specs.Reading.{AreOptions};

use crate::options::Options;

/// What a protected message says. Its options and its payload lie in the plaintext that it was read from.
#[derive(Clone, Copy, Debug, PartialEq, Eq)]
pub struct Inner<'a> {
    /// The code as one byte: class in the upper three bits, detail in the lower five.
    pub code: u8,
    pub(crate) options: &'a [u8],
    pub(crate) payload: &'a [u8],
    ghost spelled: { AreOptions 0 options.now },
}

impl<'a> Inner<'a> {
    ghost use Rattle.osc_coap.specs.Views.{inner_parts_of, options_left};

    /// Returns the options in the order of the plaintext, each with its number and its value.
    #[must_use]
    pub fn options(&self) -> Options<'a>
        ensures { options_left result ≡ (inner_parts_of self.now).options }
    {
        Options::new(self.options)
    }

    /// Returns the bytes after the marker, or no bytes if there is no marker.
    #[must_use]
    pub fn payload(&self) -> &'a [u8]
        ensures { result.now ≡ (inner_parts_of self.now).payload }
    {
        self.payload
    }
}
