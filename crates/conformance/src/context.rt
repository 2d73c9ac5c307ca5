//! Calls of osc_context.

use crate::answer::Answer;
use crate::fields::Fields;
use arrayvec::ArrayVec;
use osc_context::{Context, IdContext, Kid, OscoreOption, Piv, aad, nonce};
use std::cmp::Ordering;

pub(crate) fn kid(fields: &Fields<'_>, answer: &mut Answer) {
    fields.count(1);
    match Kid::new(fields.bytes(0)) {
        Some(kid) => answer.bytes(kid.bytes()),
        None => answer.word("refused"),
    }
}

pub(crate) fn id_context(fields: &Fields<'_>, answer: &mut Answer) {
    fields.count(1);
    match IdContext::new(fields.bytes(0)) {
        Some(id_context) => answer.bytes(id_context.bytes()),
        None => answer.word("refused"),
    }
}

pub(crate) fn partial_iv(fields: &Fields<'_>, answer: &mut Answer) {
    fields.count(1);
    match Piv::new(fields.number(0)) {
        Some(piv) => {
            answer.bytes(piv.bytes().as_slice());
            answer.print(piv.number());
        }
        None => answer.word("refused"),
    }
}

/// Shows the number after this one, and whether this one is the largest.
pub(crate) fn next_number(fields: &Fields<'_>, answer: &mut Answer) {
    fields.count(1);
    if let Some(piv) = fields.partial_iv(0) {
        answer.number(piv.next());
        answer.word(if piv == Piv::MAX {
            "largest"
        } else {
            "smaller"
        });
    }
}

pub(crate) fn compare_numbers(fields: &Fields<'_>, answer: &mut Answer) {
    fields.count(2);
    if let (Some(one), Some(other)) = (fields.partial_iv(0), fields.partial_iv(1)) {
        answer.word(match one.cmp(&other) {
            Ordering::Less => "less",
            Ordering::Equal => "equal",
            Ordering::Greater => "greater",
        });
    }
}

pub(crate) fn nonce_of(fields: &Fields<'_>, answer: &mut Answer) {
    fields.count(3);
    let common_iv = fields.array::<13>(0);
    if let (Some(owner), Some(piv)) = (fields.kid(1), fields.partial_iv(2)) {
        answer.bytes(&nonce(&common_iv, &owner, piv));
    }
}

pub(crate) fn aad_of(fields: &Fields<'_>, answer: &mut Answer) {
    fields.count(2);
    if let (Some(kid), Some(piv)) = (fields.kid(0), fields.partial_iv(1)) {
        answer.bytes(aad(&kid, piv).as_slice());
    }
}

pub(crate) fn read_option(fields: &Fields<'_>, answer: &mut Answer) {
    fields.count(1);
    match OscoreOption::read(fields.bytes(0)) {
        Ok(option) => {
            answer.number(option.piv);
            answer.part(option.kid_context);
            answer.part(option.kid);
        }
        Err(refusal) => answer.refused(refusal),
    }
}

/// Writes an option over a vector that holds one byte, 01.
pub(crate) fn write_option(fields: &Fields<'_>, answer: &mut Answer) {
    fields.count(3);
    let option = OscoreOption {
        piv: fields.partial_iv(0),
        kid_context: fields.part(1),
        kid: fields.part(2),
    };
    let mut value = ArrayVec::<u8, 255>::new();
    value.push(1);
    if let Err(refusal) = option.write(&mut value) {
        answer.refused(refusal);
    }
    answer.left(&[1], value.as_slice());
}

fn show(context: &Context, answer: &mut Answer) {
    answer.bytes(context.sender_key());
    answer.bytes(context.recipient_key());
    answer.bytes(context.common_iv());
    answer.bytes(context.sender().bytes());
    answer.bytes(context.recipient().bytes());
    match context.id_context() {
        Some(id_context) => answer.bytes(id_context.bytes()),
        None => answer.word("none"),
    }
}

pub(crate) fn derive(fields: &Fields<'_>, answer: &mut Answer) {
    match Context::derive(fields.params()) {
        Ok(context) => show(&context, answer),
        Err(refusal) => answer.refused(refusal),
    }
}

/// Shows the context of both keys, a Common IV, both identifiers, and an ID Context or none.
pub(crate) fn from_derived(fields: &Fields<'_>, answer: &mut Answer) {
    fields.count(6);
    let id_context = match fields.part(5) {
        Some(bytes) => IdContext::new(bytes),
        None => None,
    };
    if let (Some(sender), Some(recipient)) = (fields.kid(3), fields.kid(4)) {
        let (sender_key, recipient_key) = (fields.array::<16>(0), fields.array::<16>(1));
        let common_iv = fields.array::<13>(2);
        match Context::from_derived(
            sender,
            recipient,
            id_context,
            sender_key,
            recipient_key,
            common_iv,
        ) {
            Some(context) => show(&context, answer),
            None => answer.word("none"),
        }
    }
}

/// Shows the text that `Debug` prints for a context.
pub(crate) fn debug(fields: &Fields<'_>, answer: &mut Answer) {
    match Context::derive(fields.params()) {
        Ok(context) => answer.debugged(&context),
        Err(refusal) => answer.refused(refusal),
    }
}

/// Shows whether requests with a kid, and a kid context or none, are for the context.
pub(crate) fn answers_to(fields: &Fields<'_>, context: &Context, answer: &mut Answer) {
    fields.count(3);
    answer.word(if context.answers_to(fields.bytes(1), fields.part(2)) {
        "answers"
    } else {
        "other"
    });
}

/// Shows the fingerprint of this end of the context.
pub(crate) fn fingerprint(fields: &Fields<'_>, context: &Context, answer: &mut Answer) {
    fields.count(1);
    answer.bytes(&context.fingerprint());
}
