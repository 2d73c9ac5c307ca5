//! Calls of osc_aes, osc_ccm and osc_hkdf. Each call of a cipher is made with all three ciphers, and with one that is widened.

ghost use Rattle.std.specs.Prelude.{◌≤◌, length};

use crate::answer::Answer;
use crate::fields::Fields;
use osc_aes::{BlockCipher, NarrowPlanes, PlainAes, PlaneAes, TableAes};
use osc_ccm::{MOST_AAD, open, seal};
use osc_hkdf::{expand, extract, hmac_sha256};

/// Encrypts a block alone, and as either one of two.
fn encrypted<C: BlockCipher>(cipher: &C, fields: &Fields<'_>, answer: &mut Answer) {
    fields.count(2);
    let mut block = fields.array::<16>(1);
    cipher.encrypt(&mut block);
    answer.bytes(&block);
    answer.again();
    let mut first = fields.array::<16>(1);
    cipher.encrypt_two(&mut first, &mut [0u8; 16]);
    answer.bytes(&first);
    answer.again();
    let mut second = fields.array::<16>(1);
    cipher.encrypt_two(&mut [0u8; 16], &mut second);
    answer.bytes(&second);
}

/// Returns the additional data, at most as much as CCM takes.
fn additional_data<'f>(fields: &'f Fields<'_>) -> &'f [u8]
    ensures { length result.now ≤ 65279 }
{
    let aad = fields.bytes(2);
    if aad.len() <= MOST_AAD {
        return aad;
    }
    fields.refuse();
    &[]
}

fn sealed<C: BlockCipher>(cipher: &C, fields: &Fields<'_>, answer: &mut Answer) {
    fields.count(5);
    let nonce = fields.array::<13>(1);
    let aad = additional_data(fields);
    let mut buf = fields.copy(3);
    let len = fields.number(4) as usize;
    if len > buf.len() {
        return fields.refuse();
    }
    match seal(cipher, &nonce, aad, buf.as_mut_slice(), len) {
        Ok(len) => answer.print(len),
        Err(refusal) => answer.refused(refusal),
    }
    answer.left(fields.bytes(3), buf.as_slice());
}

fn opened<C: BlockCipher>(cipher: &C, fields: &Fields<'_>, answer: &mut Answer) {
    fields.count(4);
    let nonce = fields.array::<13>(1);
    let aad = additional_data(fields);
    let mut buf = fields.copy(3);
    match open(cipher, &nonce, aad, buf.as_mut_slice()) {
        Ok(len) => answer.print(len),
        Err(refusal) => answer.refused(refusal),
    }
    answer.left(fields.bytes(3), buf.as_slice());
}

/// Makes a call with one of the ciphers.
fn with<C: BlockCipher>(cipher: &C, verb: &str, fields: &Fields<'_>, answer: &mut Answer) {
    match verb {
        "aes128" => encrypted(cipher, fields, answer),
        "ccm-seal" => sealed(cipher, fields, answer),
        _ => opened(cipher, fields, answer),
    }
}

/// Makes a call of osc_aes or osc_ccm with each of the three ciphers, and with one whose schedule was kept.
pub(crate) fn with_all(verb: &str, fields: &Fields<'_>, answer: &mut Answer) {
    let key = fields.array::<16>(0);
    with(&PlainAes::new(&key), verb, fields, answer);
    answer.again();
    with(&TableAes::new(&key), verb, fields, answer);
    answer.again();
    with(&PlaneAes::new(&key), verb, fields, answer);
    answer.again();
    with(&NarrowPlanes::new(&key).widened(), verb, fields, answer);
}

/// Computes the code of a message that comes in three parts.
pub(crate) fn hmac(fields: &Fields<'_>, answer: &mut Answer) {
    fields.count(4);
    let parts = [fields.bytes(1), fields.bytes(2), fields.bytes(3)];
    answer.bytes(&hmac_sha256(fields.bytes(0), &parts));
}

pub(crate) fn hkdf_extract(fields: &Fields<'_>, answer: &mut Answer) {
    fields.count(2);
    answer.bytes(&extract(fields.bytes(0), fields.bytes(1)));
}

pub(crate) fn hkdf_expand(fields: &Fields<'_>, answer: &mut Answer) {
    fields.count(3);
    let key = fields.array::<32>(0);
    let mut output = fields.room(2, 0xaa);
    match expand(&key, fields.bytes(1), output.as_mut_slice()) {
        Ok(()) => answer.bytes(output.as_slice()),
        Err(refusal) => {
            answer.refused(refusal);
            answer.rest(output.as_slice(), 0xaa);
        }
    }
}
