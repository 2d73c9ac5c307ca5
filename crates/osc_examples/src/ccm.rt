//! The example of osc_ccm.

ghost use Rattle.std.specs.Prelude.{◌≡◌, ◌++◌, [], IfSome, take, drop};
ghost use Rattle.osc_ccm.specs.Ccm.{ccm};

use osc_aes::PlaneAes;
use osc_ccm::{Key, Nonce, open, seal};

/// Seals the first 64 bytes of a buffer. With their tag they are 72 bytes, and the rest of the buffer stays.
pub fn seal_block(key: &Key, nonce: &Nonce, buf: &mut [u8; 128])
    ensures { buf.new ≡ ccm key.now nonce.now [] (take 64 buf.old) ++ drop 72 buf.old }
{
    let Ok(_) = seal(&PlaneAes::new(key), nonce, &[], buf, 64) else {
        unreachable!()
    };
}

/// Opens a buffer that holds a plaintext sealed under this key and nonce. Puts the plaintext at the front, and returns its length.
pub fn open_all(key: &Key, nonce: &Nonce, buf: &mut [u8]) -> Option<usize>
    ensures { IfSome result (λ len. buf.old ≡ ccm key.now nonce.now [] (take len buf.new)) }
{
    open(&PlaneAes::new(key), nonce, &[], buf).ok()
}
