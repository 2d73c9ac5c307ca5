//! Laws about the definitions alone. Each is the contract of a function that does nothing.

ghost use Rattle.osc_hkdf.specs.Laws.{HmacLen, ExtractLen, ExpandLen};

/// States how long codes, pseudorandom keys and outputs are (RFC 2104, 2, and RFC 5869, 2).
pub fn known_lengths()
    ensures hmac { HmacLen }
    ensures extract { ExtractLen }
    ensures expand { ExpandLen }
{}
