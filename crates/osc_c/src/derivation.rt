//! Deriving a context into the caller's memory.

ghost use Rattle.std.specs.Prelude.{◌≡◌, ◌≢◌, ◌≤◌, ◌&&◌, Bool, List, ℕ, length, not, take};
ghost use Rattle.osc_context.specs.ContextRefusal.{IsFirstParamsRefusal};
ghost use Rattle.osc_context.specs.Views.{as_client, client_context_of, is_constant_time};
ghost use Rattle.osc_context.specs.declared.context_error.ContextError.{ContextError};
ghost use Rattle.osc_c.specs.Handle.{allowing, given};
ghost use Rattle.osc_context_handle.specs.ContextBytes.{client_in, is_constant_time_in, IsContext};
ghost use Rattle.osc_status.specs.Statuses.{code, context_status};

use osc_context::{Context, Features, Params};
use osc_handle::ContextHandle;
use osc_status::{DONE, Status};

/// Derives a context by HKDF (RFC 8613, 3.2.1) and writes it into the handle. Without `has_id_context` there is no ID Context,
/// whatever the bytes of `id_context` are. The keys of the context are used in constant time, but with `tables` by the cipher with tables.
/// With `blocks` the options of block-wise transfer pass inside the protection, and with `observe` Observe does; both ends must have
/// the same of each.
#[unsafe(no_mangle)]
pub extern "C" fn oscore_derive_v5(
    out: &mut ContextHandle,
    secret: &[u8],
    salt: &[u8],
    has_id_context: bool,
    id_context: &[u8],
    sender: &[u8],
    recipient: &[u8],
    tables: bool,
    blocks: bool,
    observe: bool,
) -> u32
    ensures client { result ≡ 0 → IsContext out.new × (client_in out.new ≡ allowing blocks observe (client_context_of (given secret.entry salt.entry has_id_context id_context.entry sender.entry recipient.entry))) }
    ensures chosen { result ≡ 0 → is_constant_time_in out.new ≡ not tables }
    ensures refused { result ≢ 0 → (e : ContextError) × (result ≡ code (context_status e)) × IsFirstParamsRefusal (given secret.entry salt.entry has_id_context id_context.entry sender.entry recipient.entry) e }
    ensures unchanged { result ≢ 0 → out.new ≡ out.old }
{
    let params = Params {
        secret,
        salt,
        id_context: if has_id_context {
            Some(id_context)
        } else {
            None
        },
        sender,
        recipient,
    };
    match Context::derive(params) {
        Ok(context) => {
            *out = handle_of(context, tables, blocks, observe);
            DONE
        }
        Err(error) => Status::from(error).code(),
    }
}

/// Returns the bytes of a context that allows blocks and Observe, each if that is asked for, and whose keys are used by the cipher with
/// tables if that is.
fn handle_of(context: Context, tables: bool, blocks: bool, observe: bool) -> ContextHandle
    ensures client { client_in result ≡ allowing blocks observe (as_client context) }
    ensures handle { IsContext result }
    ensures chosen { is_constant_time_in result ≡ (not tables && is_constant_time context) }
{
    let context = context.with_features(Features { observe, blocks });
    let context = if tables { context.tables() } else { context };
    ContextHandle::of(&context)
}
