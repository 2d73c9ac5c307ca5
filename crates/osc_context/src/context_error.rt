//! Why no context is derived.

use std::error::Error;
use std::fmt;

/// Why no context is derived, in the order in which the reasons are judged.
#[derive(Clone, Copy, Debug, PartialEq, Eq)]
pub enum ContextError {
    /// The Master Secret has no bytes, or more than 64; own rule.
    SecretLength,
    /// The Master Salt has more than 64 bytes; own rule.
    SaltLength,
    /// The identifier of the sender or of the recipient has more than 7 bytes (RFC 8613, 3.3).
    IdTooLong,
    /// The sender and the recipient have the same identifier, and so would have the same key (RFC 8613, 3.3).
    SameIds,
    /// The ID Context is present and has no bytes, or more than 32; own rule.
    IdContextLength,
}

impl fmt::Display for ContextError {
    ghost use Rattle.std.specs.Prelude.{Some};
    ghost use Rattle.osc_context.specs.ContextRefusal.{context_error_text};

    ghost output = { λ e. Some (context_error_text e) };

    fn fmt<W: fmt::Write>(&self, f: &mut fmt::Formatter<W>) -> fmt::Result {
        match self {
            ContextError::SecretLength => f.write_str("SecretLength"),
            ContextError::SaltLength => f.write_str("SaltLength"),
            ContextError::IdTooLong => f.write_str("IdTooLong"),
            ContextError::SameIds => f.write_str("SameIds"),
            ContextError::IdContextLength => f.write_str("IdContextLength"),
        }
    }
}

impl Error for ContextError {}
