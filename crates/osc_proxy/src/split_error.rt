//! Why the Proxy-Uri of a request can't be split.

use crate::uri_error::UriError;
use osc_coap::FormatError;
use std::error::Error;
use std::fmt;

/// Why the Proxy-Uri of a request can't be split. The variants stand in the order in which they are judged.
#[derive(Clone, Copy, Debug, PartialEq, Eq)]
pub enum SplitError {
    /// The bytes aren't a CoAP message.
    Format(FormatError),
    /// The message isn't a request: CON or NON, with a code of 0.01 to 0.31.
    NotRequest,
    /// The request has no Proxy-Uri, or more than one.
    NotOneProxyUri,
    /// The request has an option of which Proxy-Uri takes the place: Uri-Host, Uri-Port, Uri-Path, Uri-Query or Proxy-Scheme.
    Mixed,
    /// The value of Proxy-Uri isn't a URI of CoAP.
    Uri(UriError),
    /// The host, a segment or an argument stands for more than 255 bytes.
    PartTooLong,
    /// The request would have more than 65,535 bytes; own rule.
    TooLong,
    /// The request would have more bytes than the buffer.
    NoRoom,
}

impl fmt::Display for SplitError {
    ghost use Rattle.std.specs.Prelude.{Some};
    ghost use Rattle.osc_proxy.specs.Text.{split_error_text};

    ghost output = { λ error. Some (split_error_text error) };

    fn fmt<W: fmt::Write>(&self, f: &mut fmt::Formatter<W>) -> fmt::Result {
        match self {
            SplitError::Format(error) => write!(f, "{error}"),
            SplitError::NotRequest => f.write_str("NotRequest"),
            SplitError::NotOneProxyUri => f.write_str("NotOneProxyUri"),
            SplitError::Mixed => f.write_str("Mixed"),
            SplitError::Uri(error) => write!(f, "{error}"),
            SplitError::PartTooLong => f.write_str("PartTooLong"),
            SplitError::TooLong => f.write_str("TooLong"),
            SplitError::NoRoom => f.write_str("NoRoom"),
        }
    }
}

impl Error for SplitError {}
