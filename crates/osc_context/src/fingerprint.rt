//! What tells one sending end from another, without its key (own rule).

ghost use Rattle.std.specs.Prelude.{◌≡◌};
ghost use Rattle.osc_context.specs.Fingerprint.{fingerprint_of};

use crate::identifier::Kid;
use osc_ccm::Key;
use osc_hkdf::hmac_sha256;

/// The text that comes before the Sender ID.
const FINGERPRINT_TEXT: &[u8] = b"OSCORE numbers";

/// Returns the fingerprint of the end with this Sender Key and Sender ID.
pub(crate) fn fingerprint(sender_key: &Key, sender: &Kid) -> [u8; 8]
    ensures { result ≡ fingerprint_of sender_key.now sender.now }
{
    let code = hmac_sha256(sender_key, &[FINGERPRINT_TEXT, sender.bytes()]);
    let mut front = [0u8; 8];
    front.copy_from_slice(&code[..8]);
    front
}
