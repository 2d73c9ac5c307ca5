//! A block cipher, as a mode of operation sees it.

ghost use Rattle.std.specs.Prelude.{◌≡◌, ℕ, List, length};
ghost use Rattle.osc_aes.specs.Aes128.{aes128};

/// AES-128 (FIPS 197, 5.1) under one key, however the key is kept.
pub trait BlockCipher {
    /// The 16 bytes of the key.
    ghost cipher_key: { Self → List ℕ };

    /// Encrypts one block in place. Its bytes are in the order in which they are sent (FIPS 197, 3.4).
    fn encrypt(&self, block: &mut [u8; 16])
        ensures { block.new ≡ aes128 (cipher_key self.now) block.old };

    /// Encrypts two blocks, each in place. A cipher that works on two blocks at a time does this for the cost of one.
    fn encrypt_two(&self, first: &mut [u8; 16], second: &mut [u8; 16])
        ensures first { first.new ≡ aes128 (cipher_key self.now) first.old }
        ensures second { second.new ≡ aes128 (cipher_key self.now) second.old }
    {
        self.encrypt(first);
        self.encrypt(second);
    }

    /// A key has 16 bytes (FIPS 197, 5).
    ghost key_len: { (cipher : Self) → length (cipher_key cipher) ≡ 16 };
}
