//! The messages of the applications.

use super::log::Payload;
use std::alloc::{AllocError, Global};

// What stands before the value of an Echo option (252) of eight bytes, if no option is in front of it.
const ECHO_HEAD: [u8; 2] = [0xd8, 0xef];

// What stands before a payload.
const MARKER: u8 = 0xff;

/// Returns a request: CON, 0.02, with a token of one byte, and with an Echo value if there is one.
pub fn request_text(
    alloc: Global,
    payload: Payload,
    echo: Option<[u8; 8]>,
) -> Result<Vec<u8>, AllocError> {
    let Payload { token, event } = payload;
    let mut text = Vec::new(alloc);
    text.extend_from_slice(&[0x41, 0x02, 0, token, token])?;
    if let Some(echo) = echo {
        text.extend_from_slice(&ECHO_HEAD)?;
        text.extend_from_slice(&echo)?;
    }
    text.extend_from_slice(&[MARKER, token, event])?;
    Ok(text)
}

/// Returns a reply, 2.04, that says what its request said. The server gives it its Type, Message ID and token.
pub fn reply_text(payload: Payload) -> [u8; 7] {
    let Payload { token, event } = payload;
    [0x60, 0x44, 0, 0, MARKER, token, event]
}
