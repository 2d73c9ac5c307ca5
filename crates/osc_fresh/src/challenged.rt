//! A challenge, as a client hears it (RFC 9175, 2.3).

ghost use Rattle.std.specs.Prelude.{◌≡◌, Some, true, false, IfNone, IfSome};
ghost use Rattle.std.specs.Prelude.{List, ℕ};
ghost use Rattle.osc_coap.specs.Interpreted.{interpreted};
ghost use Rattle.osc_coap.specs.OptionNumbers.{echo as echo_number};
ghost use Rattle.osc_protect.specs.Views.{message_of};
ghost use Rattle.osc_fresh.specs.Wishing.{SaysUnobeyed};

use crate::asking::{NOT_OBEYED, UNAUTHORIZED};
use osc_coap::option_numbers::ECHO;
use osc_protect::Opened;

/// A challenge, as a client hears it. To answer it, seal a request with the Echo value.
#[derive(Clone, Copy, Debug)]
pub struct Challenged<'m> {
    /// The Echo value, of 1 to 40 bytes.
    pub echo: &'m [u8],
    /// Whether the server says that it didn't obey the request, and won't: then the same command can be sealed anew. If it doesn't say so, an
    /// earlier life of the server may have obeyed it: ask for the state first.
    pub unobeyed: bool,
}

impl<'m> Challenged<'m> {
    /// Reads the challenge from a response that the client delivered, if it is one: a 4.01 with an Echo value (RFC 9175, 2.3).
    #[must_use]
    pub fn heard(opened: &Opened<'m>) -> Option<Challenged<'m>>
        ensures value { IfSome result (λ c. ((message_of opened.now).code ≡ 129) × (interpreted echo_number (message_of opened.now).options ≡ Some c.echo.now)) }
        ensures yes { IfSome result (λ c. c.unobeyed ≡ true → SaysUnobeyed (message_of opened.now)) }
        ensures no { IfSome result (λ c. c.unobeyed ≡ false → SaysUnobeyed (message_of opened.now) → ⊥) }
        ensures none { IfNone result ((value : List ℕ) → (message_of opened.now).code ≡ 129 → interpreted echo_number (message_of opened.now).options ≡ Some value → ⊥) }
    {
        if opened.code != UNAUTHORIZED {
            return None;
        }
        let echo = opened.inner().interpreted(ECHO)?;
        let unobeyed = opened.payload == NOT_OBEYED;
        Some(Challenged { echo, unobeyed })
    }
}
