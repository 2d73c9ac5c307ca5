//! The example of osc_hkdf.

ghost use Rattle.std.specs.Prelude.{◌≡◌};
ghost use Rattle.osc_hkdf.specs.Hkdf.{expand_of, extract_of};

use osc_hkdf::{expand, extract};

/// Returns a key of 16 bytes from a salt and a secret, for what `info` names.
pub fn key_of(salt: &[u8], secret: &[u8], info: &[u8]) -> [u8; 16]
    ensures { result ≡ expand_of (extract_of salt.now secret.now) info.now 16 }
{
    let mut key = [0; 16];
    let Ok(()) = expand(&extract(salt, secret), info, &mut key) else {
        unreachable!()
    };
    key
}
