//! The only refusal of each stage of opening that works on the ciphertext or on the plaintext.

use std::error::Error;
use std::fmt;

/// The payload protects no plaintext. This is the only refusal of decrypting.
#[derive(Clone, Copy, Debug, PartialEq, Eq)]
pub struct BadTag;

impl fmt::Display for BadTag {
    ghost use Rattle.std.specs.Prelude.{Some};
    ghost use Rattle.osc_protect.specs.Text.{bad_tag_text};

    ghost output = { λ none. Some bad_tag_text };

    fn fmt<W: fmt::Write>(&self, f: &mut fmt::Formatter<W>) -> fmt::Result {
        f.write_str("Tag")
    }
}

impl Error for BadTag {}

/// The plaintext isn't a message; or a request's code isn't a request code, or a response's code isn't a response code; or it has an option
/// that may not stand inside the protection. This is the only refusal of reading.
#[derive(Clone, Copy, Debug, PartialEq, Eq)]
pub struct BadInner;

impl fmt::Display for BadInner {
    ghost use Rattle.std.specs.Prelude.{Some};
    ghost use Rattle.osc_protect.specs.Text.{bad_inner_text};

    ghost output = { λ none. Some bad_inner_text };

    fn fmt<W: fmt::Write>(&self, f: &mut fmt::Formatter<W>) -> fmt::Result {
        f.write_str("Inner")
    }
}

impl Error for BadInner {}
