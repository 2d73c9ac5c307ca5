//! Identifiers: of the two ends of a context (RFC 8613, 3.1), and of the context itself.

ghost use Rattle.std.specs.Prelude.{◌≡◌, ℕ, List, ◌<◌, ◌≤◌, ◌⊎◌, length, IsSome, IfSome, IfNone};

use arrayvec::ArrayVec;
use std::marker::Model;

/// The identifier of one end, its kid: 0 to 7 bytes, as many as the nonce has room for (RFC 8613, 3.3).
#[derive(Clone, Drop, PartialEq, Eq, Debug)]
pub struct Kid {
    kid: ArrayVec<u8, 7>,
}

impl Model for Kid {
    ghost Value = { List ℕ };

    ghost view = { λ k. k.kid.items };

    ghost invariant = { λ k. length k.kid.items ≤ 7 };

    ghost inverse = { λ xs. record { kid = record { items = xs } } };
}

impl Kid {
    /// Makes the identifier of these bytes. Returns `None` if there are more than 7 (RFC 8613, 3.3).
    #[must_use]
    pub fn new(bytes: &[u8]) -> Option<Kid>
        ensures made { IfSome result (λ kid. kid ≡ bytes.now) }
        ensures accepted { IsSome result → length bytes.now ≤ 7 }
        ensures refused { IfNone result (7 < length bytes.now) }
    {
        let mut kept = ArrayVec::new();
        match kept.try_extend_from_slice(bytes) {
            Ok(()) => Some(Kid { kid: kept }),
            Err(_) => None,
        }
    }

    /// Returns the bytes, as they appear in a message.
    #[must_use]
    pub fn bytes(&self) -> &[u8]
        ensures value { result.now ≡ self.now }
        ensures most { length self.now ≤ 7 }
    {
        self.kid.as_slice()
    }
}

/// The identifier of a context, its ID Context: 1 to 32 bytes (RFC 8613, 3.1; own rule: the limits).
#[derive(Clone, Drop, PartialEq, Eq, Debug)]
pub struct IdContext {
    id_context: ArrayVec<u8, 32>,
}

impl Model for IdContext {
    ghost Value = { List ℕ };

    ghost view = { λ c. c.id_context.items };

    ghost invariant = { λ c. (0 < length c.id_context.items) × (length c.id_context.items ≤ 32) };

    ghost inverse = { λ xs. record { id_context = record { items = xs } } };
}

impl IdContext {
    /// Makes the identifier of these bytes. Returns `None` if there are none, or more than 32 (own rule).
    #[must_use]
    pub fn new(bytes: &[u8]) -> Option<IdContext>
        ensures made { IfSome result (λ id_context. id_context ≡ bytes.now) }
        ensures accepted { IsSome result → (0 < length bytes.now) × (length bytes.now ≤ 32) }
        ensures refused { IfNone result ((length bytes.now ≡ 0) ⊎ (32 < length bytes.now)) }
    {
        if bytes.is_empty() {
            return None;
        }
        let mut kept = ArrayVec::new();
        match kept.try_extend_from_slice(bytes) {
            Ok(()) => Some(IdContext { id_context: kept }),
            Err(_) => None,
        }
    }

    /// Returns the bytes, as they appear in a message.
    #[must_use]
    pub fn bytes(&self) -> &[u8]
        ensures value { result.now ≡ self.now }
        ensures least { 0 < length self.now }
        ensures most { length self.now ≤ 32 }
    {
        self.id_context.as_slice()
    }
}
