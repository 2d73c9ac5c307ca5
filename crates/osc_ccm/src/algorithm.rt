//! The AEAD algorithm of a security context (RFC 8613, 3.1), by its name in COSE.

/// AES-CCM-16-64-128 (RFC 8152, 10.2): AES-CCM with a length field of 16 bits, a tag of 64 bits and a key of 128 bits.
#[derive(Clone, Copy, Debug)]
pub struct AesCcm16_64_128;

impl AesCcm16_64_128 {
    /// Its number among the algorithms of COSE.
    pub const NUMBER: u8 = 10;

    /// The length of a key in bytes.
    pub const KEY_LEN: usize = 16;

    /// The length of a nonce in bytes: 15 minus RFC 3610's L, which is 2.
    pub const NONCE_LEN: usize = 15 - 2;

    /// The length of a tag in bytes: RFC 3610's M.
    pub const TAG_LEN: usize = 8;
}

/// A key of AES-CCM-16-64-128.
pub type Key = [u8; AesCcm16_64_128::KEY_LEN];

/// A nonce of AES-CCM-16-64-128, or the Common IV from which a context makes its nonces (RFC 8613, 3.1 and 5.2).
pub type Nonce = [u8; AesCcm16_64_128::NONCE_LEN];

/// A tag of AES-CCM-16-64-128.
pub type Tag = [u8; AesCcm16_64_128::TAG_LEN];
