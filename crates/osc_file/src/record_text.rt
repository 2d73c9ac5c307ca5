//! The text of a record: one line of fields and a checksum (own rule).

ghost use Rattle.std.specs.Prelude.{◌≡◌, ℕ, ◌<◌, ◌^◌, List, ◌∷◌, ◌++◌, length, Some, IfOk, IfSome, string_bytes};
ghost use Rattle.std.specs.Fmt.{decimal};
ghost use Rattle.std.specs.Option.{IsSomeAnd};
ghost use Rattle.hex.specs.Hex.{IsBytes, encode_lower};
ghost use Rattle.osc_file.specs.RecordText.{Fits, checksum_of, line_of};
ghost use Rattle.osc_file.specs.declared.record.Record.{Record};

use crate::record::{Owner, Record};
use hex::FromHex;
use osc_context::KeptNumbers;
use sha2::{Digest, Sha256};
use std::alloc::AllocError;

/// Reads a record from its text. Anything but exactly a record's line is damage, and gives `None`.
pub(crate) fn parse<R: Alloc>(rt: &R, text: &str) -> Result<Option<Record>, AllocError>
    ensures accepted { IfOk result (λ found. IfSome found (λ r. text.now ≡ line_of r)) }
    ensures accepts { (r : Record) → Fits r → text.now ≡ line_of r → IfOk result (λ found. found ≡ Some r) }
{
    let Some(record) = fields(text) else {
        return Ok(None);
    };
    let line = spell(rt, &record)?;
    Ok(if line.as_str() == text {
        Some(record)
    } else {
        None
    })
}

/// Writes a record's text.
#[tactic(auto, unfolding(crate::specs::RecordText::fields_of, crate::specs::RecordText::line_of))]
pub(crate) fn spell<R: Alloc>(rt: &R, record: &Record) -> Result<String<R::A>, AllocError>
    ensures { IfOk result (λ text. string_bytes text ≡ line_of record.now) }
{
    let Record {
        generation,
        numbers: KeptNumbers { sender, received },
        owner,
    } = record;
    let Owner { device, inode, .. } = owner;
    let fingerprint = hex::encode(rt.alloc(), owner.fingerprint.as_slice())?;
    let fields = format!(in rt.alloc();
        "{generation} {sender} {received} {fingerprint} {device} {inode}"
    )?;
    let checksum = checksum(rt, fields.as_bytes())?;
    format!(in rt.alloc(); "{fields} {checksum}\n")
}

/// Returns the first 8 bytes of the SHA-256 of a text, as hex digits.
#[tactic(auto, unfolding(crate::specs::RecordText::checksum_of))]
fn checksum<R: Alloc>(rt: &R, text: &[u8]) -> Result<String<R::A>, AllocError>
    ensures { IfOk result (λ sum. string_bytes sum ≡ checksum_of text.now) }
{
    let digest: [u8; 32] = Sha256::digest(text);
    hex::encode(rt.alloc(), &digest[..8])
}

/// Reads the fields in front of the checksum. It judges neither the checksum nor how the fields are spelled.
fn fields(text: &str) -> Option<Record>
    ensures { (r : Record) → Fits r → text.now ≡ line_of r → result ≡ Some r }
{
    let (generation, rest) = number(text)?;
    let (sender, rest) = number(rest)?;
    let (received, rest) = number(rest)?;
    let (fingerprint, rest) = fingerprint(rest)?;
    let (device, rest) = number(rest)?;
    let (inode, _) = number(rest)?;
    Some(Record {
        generation,
        numbers: KeptNumbers { sender, received },
        owner: Owner {
            fingerprint,
            device,
            inode,
        },
    })
}

/// Reads the number in front of the first space, and returns what stands behind the space too.
fn number(text: &str) -> Option<(u64, &str)>
    ensures { (n : ℕ) (rest : List ℕ) → n < 2 ^ 64 → text.now ≡ decimal n ++ 32 ∷ rest
        → IsSomeAnd result (λ found. (found.0 ≡ n) × (found.1.now ≡ rest)) }
{
    let (word, rest) = text.split_once(' ')?;
    let number = word.parse().ok()?;
    Some((number, rest))
}

/// Reads the fingerprint in front of the first space, and returns what stands behind the space too.
fn fingerprint(text: &str) -> Option<([u8; 8], &str)>
    ensures { (bytes : List ℕ) (rest : List ℕ) → length bytes ≡ 8 → IsBytes bytes → text.now ≡ encode_lower bytes ++ 32 ∷ rest
        → IsSomeAnd result (λ found. (found.0 ≡ bytes) × (found.1.now ≡ rest)) }
{
    let (word, rest) = text.split_once(' ')?;
    let fingerprint = FromHex::from_hex(word).ok()?;
    Some((fingerprint, rest))
}
