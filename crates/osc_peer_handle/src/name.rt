//! The name of a context in bytes.

ghost use Rattle.std.specs.Prelude.{◌≡◌};
ghost use Rattle.osc_peer_handle.specs.RecordBytes.{name_in};

use osc_context_handle::ContextHandle;
use osc_hkdf::hmac_sha256;

/// Returns the name of a context: the first eight bytes of a code of its Recipient Key and its Common IV under its Sender Key, high byte
/// first. It tells a device's contexts apart, and their keys don't follow from it (RFC 2104, 2; own rule: the name).
#[must_use]
pub fn name_of(context: &ContextHandle) -> u64
    ensures { result ≡ name_in context.now }
{
    let code = hmac_sha256(
        &context.sender_key,
        &[&context.recipient_key, &context.common_iv],
    );
    let mut first = [0; 8];
    first.copy_from_slice(&code[..8]);
    u64::from_be_bytes(first)
}
