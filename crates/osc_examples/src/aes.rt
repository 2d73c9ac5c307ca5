//! The example of osc_aes.

ghost use Rattle.std.specs.Prelude.{◌≡◌};
ghost use Rattle.osc_aes.specs.Aes128.{aes128};

use osc_aes::{BlockCipher, PlaneAes};

/// Encrypts two blocks of 16 bytes under one key, both at once. The key schedule is made once.
pub fn encrypt_both(key: &[u8; 16], first: &mut [u8; 16], second: &mut [u8; 16])
    ensures { (first.new ≡ aes128 key.now first.old) × (second.new ≡ aes128 key.now second.old) }
{
    let cipher = PlaneAes::new(key);
    cipher.encrypt_two(first, second);
}
