//! The example of osc_context.

ghost use Rattle.std.specs.Prelude.{◌≡◌, IfOk};
ghost use Rattle.osc_context.specs.Views.{as_client, as_server};

use osc_context::{Context, ContextError, Params};

/// Derives both ends of a context from one secret and one salt. The client has an empty identifier, the server the identifier 01.
/// Each sends under its own identifier, and the server opens with what the client seals with.
pub fn both_ends<'a>(secret: &'a [u8], salt: &'a [u8]) -> Result<(Context, Context), ContextError>
    ensures { IfOk result (λ ends. as_client ends.0 ≡ as_server ends.1) }
{
    let at_client = Params {
        secret,
        salt,
        id_context: None,
        sender: &[],
        recipient: &[1],
    };
    let at_server = Params {
        sender: &[1],
        recipient: &[],
        ..at_client
    };
    Ok((Context::derive(at_client)?, Context::derive(at_server)?))
}
