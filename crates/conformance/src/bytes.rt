//! Bytes as the corpus spells them.

use sha2::{Digest, Sha256};
use std::alloc::{AllocError, Global};

/// The most bytes that an answer shows whole.
const MOST_SHOWN: usize = 512;

/// Returns the bytes of a word: `-` for none, otherwise pieces of hex joined by `+`. Each piece stands once, or as often as it says, as in
/// `aa*3`.
pub(crate) fn bytes_of(alloc: Global, word: &str) -> Option<Vec<u8>> {
    let mut bytes = Vec::new(alloc);
    if word == "-" {
        return Some(bytes);
    }
    for piece in word.split('+') {
        push_piece(alloc, &mut bytes, piece)?;
    }
    Some(bytes)
}

/// Appends a piece.
fn push_piece(alloc: Global, bytes: &mut Vec<u8>, piece: &str) -> Option<()> {
    let (digits, times) = piece.split_once('*').unwrap_or((piece, "1"));
    if digits.is_empty() {
        return None;
    }
    let times = times.parse::<u32>().ok()?;
    let once = hex::decode(alloc, digits).ok()?;
    for _ in 0..times {
        bytes.extend_from_slice(once.as_slice()).ok()?;
    }
    Some(())
}

/// Returns the bytes in hex, or `-` if there are none. Of more than `MOST_SHOWN` bytes, returns their digest and their number.
pub(crate) fn spelled(alloc: Global, bytes: &[u8]) -> Result<String, AllocError> {
    if bytes.is_empty() {
        return String::from_str(alloc, "-");
    }
    if bytes.len() <= MOST_SHOWN {
        return hex::encode(alloc, bytes);
    }
    let digest = hex::encode(alloc, Sha256::digest(bytes).as_slice())?;
    let len = bytes.len();
    format!(in alloc; "sha256:{digest}:{len}")
}
