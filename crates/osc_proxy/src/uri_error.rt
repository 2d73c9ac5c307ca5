//! Why bytes are no URI of CoAP.

use std::error::Error;
use std::fmt;

/// Why bytes are no URI of CoAP. The variants stand in the order in which they are judged.
#[derive(Clone, Copy, Debug, PartialEq, Eq)]
pub enum UriError {
    /// What stands in front of the first colon isn't `coap` or `coaps`, in any letter case.
    Scheme,
    /// The URI has a fragment.
    Fragment,
    /// A byte isn't one that a URI can have, or a percent sign has no two digits in base 16 behind it.
    Character,
    /// No colon and two slashes follow the scheme.
    Authority,
    /// There is user information in front of the host.
    Userinfo,
    /// There is no host, or its bracket isn't closed.
    Host,
    /// What follows the host isn't a colon and a number of at most 65,535.
    Port,
}

impl fmt::Display for UriError {
    ghost use Rattle.std.specs.Prelude.{Some};
    ghost use Rattle.osc_proxy.specs.Text.{uri_error_text};

    ghost output = { λ error. Some (uri_error_text error) };

    fn fmt<W: fmt::Write>(&self, f: &mut fmt::Formatter<W>) -> fmt::Result {
        f.write_str(match self {
            UriError::Scheme => "Scheme",
            UriError::Fragment => "Fragment",
            UriError::Character => "Character",
            UriError::Authority => "Authority",
            UriError::Userinfo => "Userinfo",
            UriError::Host => "Host",
            UriError::Port => "Port",
        })
    }
}

impl Error for UriError {}
