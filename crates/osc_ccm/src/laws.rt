//! What follows from the definition of `ccm` alone, for anyone who builds on it.

ghost use Rattle.osc_ccm.specs.Laws.{OnePlaintext, ProtectionLength};

use osc_aes::encrypted_length;

/// States that no two plaintexts have the same protection under the same key, nonce and additional data
/// (RFC 3610, 2.5).
pub fn one_plaintext()
    ensures { OnePlaintext }
{
    encrypted_length();
}

/// States that a protection is 8 bytes longer than its plaintext (RFC 3610, 2.4).
pub fn protection_length()
    ensures { ProtectionLength }
{
    encrypted_length();
}
