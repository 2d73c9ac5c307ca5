//! Copies of tokens.

ghost use Rattle.std.specs.Prelude.{◌≡◌};

use osc_coap::Token;

/// Returns a copy of the token.
#[must_use]
pub fn copy_of(token: &Token) -> Token
    ensures { result.items ≡ token.now.items }
{
    let mut copy = Token::new();
    copy.try_extend_from_slice(token.as_slice()).unwrap();
    copy
}
