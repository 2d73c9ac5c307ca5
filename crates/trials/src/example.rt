//! The example of RFC 8613 that the trials take: the context of C.1, what the contexts of C.2 and C.3 have in place of its parts, and the
//! messages of C.4 and C.7.

use osc_context::{Context, ContextError, Params};
use osc_endpoint::Fresh;

const SECRET: [u8; 16] = [1, 2, 3, 4, 5, 6, 7, 8, 9, 10, 11, 12, 13, 14, 15, 16];

const SALT: [u8; 8] = [0x9e, 0x7c, 0xa9, 0x22, 0x23, 0x78, 0x63, 0x40];

/// The server's identifier in all three.
pub(crate) const SERVER: &[u8] = &[1];

/// The client's identifier in C.2, whose context has no Master Salt.
pub(crate) const CLIENT_OF_C2: &[u8] = &[0];

/// The ID Context of C.3.
pub(crate) const ID_CONTEXT: [u8; 8] = [0x37, 0xcb, 0xf3, 0x21, 0x00, 0x17, 0xa2, 0xd3];

/// The request of C.4 as it is sent.
pub(crate) const SEALED: [u8; 35] = [
    0x44, 0x02, 0x5d, 0x1f, 0x00, 0x00, 0x39, 0x74, 0x39, 0x6c, 0x6f, 0x63, 0x61, 0x6c, 0x68, 0x6f,
    0x73, 0x74, 0x62, 0x09, 0x14, 0xff, 0x61, 0x2f, 0x10, 0x92, 0xf1, 0x77, 0x6f, 0x1c, 0x16, 0x68,
    0xb3, 0x82, 0x5e,
];

/// The response of C.7 before it is sealed.
pub(crate) const PLAIN_RESPONSE: [u8; 21] = [
    0x64, 0x45, 0x5d, 0x1f, 0x00, 0x00, 0x39, 0x74, 0xff, 0x48, 0x65, 0x6c, 0x6c, 0x6f, 0x20, 0x57,
    0x6f, 0x72, 0x6c, 0x64, 0x21,
];

/// What a server draws afresh for each datagram.
pub(crate) const FRESH: Fresh = Fresh {
    echo: [1, 2, 3, 4, 5, 6, 7, 8],
    mid: 1,
};

/// Returns what the context of one end of C.1 is derived from, for these identifiers of its sender and its recipient.
pub(crate) fn params<'a>(sender: &'a [u8], recipient: &'a [u8]) -> Params<'a> {
    Params {
        secret: &SECRET,
        salt: &SALT,
        id_context: None,
        sender,
        recipient,
    }
}

/// Derives the context of one end.
pub(crate) fn context_of<'a>(
    sender: &'a [u8],
    recipient: &'a [u8],
) -> Result<Context, ContextError> {
    Context::derive(params(sender, recipient))
}
