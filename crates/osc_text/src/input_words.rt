//! The words of a line of input.

ghost use Rattle.std.specs.Prelude.{◌≡◌, ◌^◌, ◌<◌, IfOk, IfSome, length, option_map};
ghost use Rattle.std.specs.Int.{from_be_bytes, w16};
ghost use Rattle.osc_text.specs.InputReading.{split_once, number_read, numbered_read, hex_decoded, bytes_read, fixed_read, parts};
ghost use Rattle.osc_text.specs.PeerReading.{three_parts, three_read};
ghost use Rattle.osc_text.specs.ServedReading.{message_id_read, own_read, four_read, four_parts};
ghost use Rattle.osc_context.specs.Views.{number_of};
ghost use Rattle.hex.specs.Hex.{decode_of};

use crate::number_word::{read_decimal, read_number};
use hex::{FromHexError, decode, decode_to_slice};
use osc_context::Piv;
use std::alloc::{AllocError, Global};
use std::str;

/// How many bytes longer a protected message can be than the plain one.
pub(crate) const MOST_ADDED: usize = 128;

/// Three words.
pub(crate) type Three<'a> = (&'a [u8], &'a [u8], &'a [u8]);

/// Four words.
pub(crate) type Four<'a> = (&'a [u8], &'a [u8], &'a [u8], &'a [u8]);

/// Returns the bytes before the first `mark` and the bytes after it, if there is one.
pub(crate) fn split_once(bytes: &[u8], mark: u8) -> Option<(&[u8], &[u8])>
    ensures { option_map parts result ≡ split_once mark bytes.now }
{
    match bytes.iter().position(|&byte| byte == mark) {
        Some(place) => Some((&bytes[..place], &bytes[place + 1..])),
        None => None,
    }
}

/// Splits the fields into three words, separated by one space. The last word is everything after the second space.
#[tactic(auto, unfolding(crate::specs::PeerReading::three_read))]
pub(crate) fn three_words(fields: &[u8]) -> Option<Three<'_>>
    ensures { option_map three_parts result ≡ three_read fields.now }
{
    let (first, rest) = split_once(fields, b' ')?;
    let (second, third) = split_once(rest, b' ')?;
    Some((first, second, third))
}

/// Splits the fields into four words, separated by one space. The last word is everything after the third space.
#[tactic(auto, unfolding(crate::specs::ServedReading::four_read))]
pub(crate) fn four_words(fields: &[u8]) -> Option<Four<'_>>
    ensures { option_map four_parts result ≡ four_read fields.now }
{
    let (first, rest) = split_once(fields, b' ')?;
    let (second, rest) = split_once(rest, b' ')?;
    let (third, fourth) = split_once(rest, b' ')?;
    Some((first, second, third, fourth))
}

/// Reads the number below 2^64 that a word of decimal digits says. Leading zeros are allowed, and a sign isn't.
pub(crate) fn read_moment(word: &[u8]) -> Option<u64>
    ensures { result ≡ number_read (2 ^ 64) word.now }
{
    match str::from_utf8(word) {
        Ok(word) => read_decimal(word),
        Err(_) => None,
    }
}

/// Reads the number below 2^40 that a word of decimal digits says. Leading zeros are allowed, and a sign isn't.
pub(crate) fn read_next(word: &[u8]) -> Option<Piv>
    ensures { option_map number_of result ≡ number_read (2 ^ 40) word.now }
{
    match str::from_utf8(word) {
        Ok(word) => read_number(word),
        Err(_) => None,
    }
}

/// Reads the `N` bytes of a word of hex.
pub(crate) fn read_fixed<const N: usize>(word: &[u8]) -> Option<[u8; N]>
    ensures { result ≡ fixed_read N word.now }
{
    let mut bytes = [0u8; N];
    match decode_to_slice(word, &mut bytes) {
        Ok(()) => Some(bytes),
        Err(_) => None,
    }
}

/// Reads the Message ID of a word of four hex digits.
pub(crate) fn read_message_id(word: &[u8]) -> Option<u16>
    ensures { result ≡ message_id_read word.now }
{
    match read_fixed::<2>(word) {
        Some(bytes) => Some(u16::from_be_bytes(bytes)),
        None => None,
    }
}

/// Returns whether a word asks for a Partial IV of its own.
#[tactic(auto, unfolding(crate::specs::ServedReading::own_read))]
pub(crate) fn read_own(word: &[u8]) -> Option<bool>
    ensures { result ≡ own_read word.now }
{
    if word == b"own".as_slice() {
        Some(true)
    } else if word == b"shared".as_slice() {
        Some(false)
    } else {
        None
    }
}

/// Reads the bytes of a word of hex that isn't empty. A dash stands for no bytes.
#[tactic(auto, unfolding(crate::specs::InputReading::bytes_read))]
pub(crate) fn read_bytes(alloc: Global, word: &[u8]) -> Result<Option<Vec<u8>>, AllocError>
    ensures { IfOk result (λ read. option_map (λ bytes. bytes.items) read ≡ bytes_read word.now) }
{
    if word.is_empty() {
        return Ok(None);
    }
    if word == b"-".as_slice() {
        return Ok(Some(Vec::new(alloc)));
    }
    match decode(alloc, word) {
        Ok(bytes) => Ok(Some(bytes)),
        Err(FromHexError::OutOfMemory) => Err(AllocError),
        Err(_) => Ok(None),
    }
}

/// Reads a number below 2^64 and bytes: `NUMBER HEX`.
#[tactic(auto, unfolding(crate::specs::InputReading::numbered_read))]
pub(crate) fn read_numbered(
    alloc: Global,
    fields: &[u8],
) -> Result<Option<(u64, Vec<u8>)>, AllocError>
    ensures { IfOk result (λ read. option_map (λ r. (r.0, r.1.items)) read ≡ numbered_read fields.now) }
{
    let Some((number, bytes)) = split_once(fields, b' ') else {
        return Ok(None);
    };
    let Some(number) = read_moment(number) else {
        return Ok(None);
    };
    let Some(bytes) = read_bytes(alloc, bytes)? else {
        return Ok(None);
    };
    Ok(Some((number, bytes)))
}
