//! An opened message.

use osc_coap::{Kind, Options, Token};
use osc_context::Piv;

/// An opened message, in the datagram that carried it. The Type, Message ID and token are the datagram's. The code, inner options and
/// payload were protected. `uri_host` and `uri_port` are the first outer Uri-Host and Uri-Port: they were **not** protected. Every other
/// outer option is dropped.
#[derive(Debug, Drop)]
pub struct Opened<'b> {
    pub kind: Kind,
    pub message_id: u16,
    pub token: Token,
    /// The code as one byte: class in the upper three bits, detail in the lower five.
    pub code: u8,
    pub uri_host: Option<&'b [u8]>,
    pub uri_port: Option<&'b [u8]>,
    pub payload: &'b [u8],
    /// The Partial IV of the message. A request always has one; a response has one only if it has its own.
    pub piv: Option<Piv>,
    pub(crate) inner: Options<'b>,
}

impl<'b> Opened<'b> {
    ghost use Rattle.std.specs.Prelude.{◌≡◌};
    ghost use Rattle.osc_coap.specs.Views.{options_left};
    ghost use Rattle.osc_protect.specs.Views.{message_of};

    /// Returns the inner options in ascending order of their numbers, each with its number and value.
    #[must_use]
    pub fn inner(&self) -> Options<'b>
        ensures { options_left result ≡ (message_of self.now).options }
    {
        self.inner
    }
}
