//! Why a sealed request can't ask a proxy.

use osc_coap::FormatError;
use std::error::Error;
use std::fmt;

/// Why a sealed request can't ask a proxy. The variants stand in the order in which they are judged.
#[derive(Clone, Copy, Debug, PartialEq, Eq)]
pub enum AskProxyError {
    /// The bytes aren't a CoAP message.
    Format(FormatError),
    /// The message isn't a request: CON or NON, with a code of 0.01 to 0.31.
    NotRequest,
    /// The request asks a proxy already: it has Proxy-Uri or Proxy-Scheme.
    Asked,
    /// The scheme doesn't have 1 to 255 bytes (RFC 7252, 5.10).
    SchemeLength,
    /// The request would have more than 65,535 bytes; own rule.
    TooLong,
    /// The request would have more bytes than the buffer.
    NoRoom,
}

impl fmt::Display for AskProxyError {
    ghost use Rattle.std.specs.Prelude.{Some};
    ghost use Rattle.osc_proxy.specs.Text.{ask_error_text};

    ghost output = { λ error. Some (ask_error_text error) };

    fn fmt<W: fmt::Write>(&self, f: &mut fmt::Formatter<W>) -> fmt::Result {
        match self {
            AskProxyError::Format(error) => write!(f, "{error}"),
            AskProxyError::NotRequest => f.write_str("NotRequest"),
            AskProxyError::Asked => f.write_str("Asked"),
            AskProxyError::SchemeLength => f.write_str("SchemeLength"),
            AskProxyError::TooLong => f.write_str("TooLong"),
            AskProxyError::NoRoom => f.write_str("NoRoom"),
        }
    }
}

impl Error for AskProxyError {}
