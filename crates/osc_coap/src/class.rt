//! How an option is protected (RFC 8613, 4.1).

ghost use Rattle.std.specs.Prelude.{◌≡◌};
ghost use Rattle.osc_coap.specs.Class.{class};

use crate::option_numbers::{
    BLOCK1, BLOCK2, ECHO, EDHOC, HOP_LIMIT, MAX_AGE, NO_RESPONSE, OBSERVE, OSCORE, PROXY_SCHEME,
    PROXY_URI, Q_BLOCK1, Q_BLOCK2, REQUEST_TAG, SIZE1, SIZE2, URI_HOST, URI_PORT,
};

/// Where an option goes in a protected message (RFC 8613, 4.1).
#[derive(Clone, Copy, Debug, PartialEq, Eq)]
pub enum Class {
    /// In the plaintext: encrypted and integrity protected.
    E,
    /// Outside of the plaintext, where a proxy can read it: unprotected.
    U,
    /// The option has a meaning in either place. Own rule: it is written only in the plaintext, and dropped if it comes
    /// outside.
    Both,
}

/// Returns the class of the option with this number. Own rule: the table, and E for every number outside it
/// (RFC 8613, 4.1).
#[must_use]
pub fn class_of(number: u16) -> Class
    ensures { result ≡ class number }
{
    match number {
        URI_HOST | URI_PORT | OSCORE | HOP_LIMIT | EDHOC | PROXY_URI | PROXY_SCHEME => Class::U,
        OBSERVE
        | MAX_AGE
        | Q_BLOCK1
        | BLOCK2
        | BLOCK1
        | SIZE2
        | Q_BLOCK2
        | SIZE1
        | ECHO
        | NO_RESPONSE
        | REQUEST_TAG => Class::Both,
        _ => Class::E,
    }
}
