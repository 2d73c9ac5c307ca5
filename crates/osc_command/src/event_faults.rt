//! What is wrong with a line of input that isn't an event, in one line.

use self::Field::{
    Datagram, Echo, Event, IdContext, Mid, Ms, Next, Now, Own, Plain, Recipient, Salt, Secret,
    Sender, Start, Token,
};
use osc_text::{read_decimal, read_number};
use std::alloc::{AllocError, Global};
use std::str;

/// A field of an event.
pub(crate) enum Field {
    Ms,
    Now,
    Echo,
    Mid,
    Datagram,
    Event,
    Own,
    Plain,
    Token,
    Secret,
    Salt,
    Sender,
    Recipient,
    IdContext,
    Start,
    Next,
}

/// An event's first word, the fields that follow it, and their names.
pub(crate) struct Form {
    word: &'static str,
    fields: &'static [Field],
    names: &'static str,
}

/// The events of an end, and the words that begin their lines.
#[derive(Clone, Copy)]
pub(crate) struct Forms {
    forms: &'static [Form],
    words: &'static str,
}

#[rattlefmt::skip]
const TAKE: Form = Form { word: "take", fields: &[Now, Echo, Mid, Datagram], names: "followed by NOW ECHO MID DATAGRAM" };

#[rattlefmt::skip]
const REPLY: Form = Form { word: "reply", fields: &[Event, Own, Mid, Plain], names: "followed by EVENT own|shared MID PLAIN" };

#[rattlefmt::skip]
const NOTIFY: Form = Form { word: "notify", fields: &[Event, Plain], names: "followed by EVENT PLAIN" };

#[rattlefmt::skip]
const DROP: Form = Form { word: "drop", fields: &[Event], names: "followed by EVENT" };

#[rattlefmt::skip]
const CHALLENGE: Form = Form { word: "challenge", fields: &[Event, Mid], names: "followed by EVENT MID" };

#[rattlefmt::skip]
const REQUEST: Form = Form { word: "request", fields: &[Now, Plain], names: "followed by NOW PLAIN" };

#[rattlefmt::skip]
const TAKE_RESPONSE: Form = Form { word: "take", fields: &[Now, Datagram], names: "followed by NOW DATAGRAM" };

#[rattlefmt::skip]
const FORGET: Form = Form { word: "forget", fields: &[Token], names: "followed by TOKEN" };

#[rattlefmt::skip]
const TAKE_BY_PEER: Form = Form { word: "take", fields: &[Now, Mid, Datagram], names: "followed by NOW MID DATAGRAM" };

#[rattlefmt::skip]
const FRESH: Form = Form { word: "fresh", fields: &[Ms, Now, Mid, Datagram], names: "followed by MS NOW MID DATAGRAM" };

#[rattlefmt::skip]
const HEAR: Form = Form { word: "hear", fields: &[Now, Datagram], names: "followed by NOW DATAGRAM" };

#[rattlefmt::skip]
const FOLLOW: Form = Form { word: "follow", fields: &[Now, Datagram], names: "followed by NOW DATAGRAM" };

#[rattlefmt::skip]
const ECHO: Form = Form { word: "echo", fields: &[Now, Plain], names: "followed by NOW PLAIN" };

#[rattlefmt::skip]
const ADVANCE: Form = Form { word: "advance", fields: &[Now], names: "followed by NOW" };

#[rattlefmt::skip]
const RESTART: Form = Form { word: "restart", fields: &[Next], names: "followed by NEXT" };

#[rattlefmt::skip]
const RESTART_ALONE: Form = Form { word: "restart", fields: &[], names: "followed by nothing with --numbers" };

/// The word of a line that puts another context in the place of an end's.
const REPLACE_WORD: &str = "replace";

#[rattlefmt::skip]
const REPLACE: Form = Form { word: REPLACE_WORD, fields: &[Secret, Salt, Sender, Recipient, IdContext, Start, Next], names: "followed by SECRET SALT SENDER RECIPIENT ID-CONTEXT fresh|restarted NEXT" };

#[rattlefmt::skip]
const REPLACE_BY_CLIENT: Form = Form { word: REPLACE_WORD, fields: &[Secret, Salt, Sender, Recipient, IdContext, Next], names: "followed by SECRET SALT SENDER RECIPIENT ID-CONTEXT NEXT" };

/// The events of a server.
pub(crate) const SERVER: Forms = Forms {
    forms: &[TAKE, REPLY, NOTIFY, DROP, RESTART, REPLACE],
    words: "take, reply, notify, drop, restart and replace",
};

/// The events of a server whose numbers are kept in a file.
pub(crate) const KEPT_SERVER: Forms = Forms {
    forms: &[TAKE, REPLY, NOTIFY, DROP, RESTART_ALONE],
    words: "take, reply, notify, drop and restart",
};

/// The events of a client.
pub(crate) const CLIENT: Forms = Forms {
    forms: &[REQUEST, TAKE_RESPONSE, FORGET, RESTART, REPLACE_BY_CLIENT],
    words: "request, take, forget, restart and replace",
};

/// The events of a client whose numbers are kept in a file.
pub(crate) const KEPT_CLIENT: Forms = Forms {
    forms: &[REQUEST, TAKE_RESPONSE, FORGET, RESTART_ALONE],
    words: "request, take, forget and restart",
};

/// The events of a peer.
pub(crate) const PEER: Forms = Forms {
    forms: &[
        TAKE_BY_PEER,
        FRESH,
        REPLY,
        CHALLENGE,
        NOTIFY,
        DROP,
        REQUEST,
        ECHO,
        HEAR,
        FOLLOW,
        FORGET,
        ADVANCE,
    ],
    words: "take, fresh, reply, challenge, notify, drop, request, echo, hear, follow, forget and advance",
};

/// Returns whether a word is hex digits.
fn is_hex(word: &str) -> bool {
    word.bytes().all(|byte| byte.is_ascii_hexdigit())
}

/// Returns whether a word is whole bytes in hex, or the dash that stands for no bytes.
fn is_bytes(word: &str) -> bool {
    word == "-" || (word.len().is_multiple_of(2) && is_hex(word))
}

/// Returns whether a word is so many bytes in hex at most, or the dash that stands for no bytes.
fn is_up_to(word: &str, most: usize) -> bool {
    is_bytes(word) && word.len() / 2 <= most
}

impl Field {
    /// Returns whether a word can be this field.
    fn takes(&self, word: &str) -> bool {
        match self {
            Field::Ms | Field::Now | Field::Event => read_decimal(word).is_some(),
            Field::Next => read_number(word).is_some(),
            Field::Echo => word.len() == 16 && is_hex(word),
            Field::Mid => word.len() == 4 && is_hex(word),
            Field::Own => word == "own" || word == "shared",
            Field::Datagram | Field::Plain | Field::Token => is_bytes(word),
            Field::Secret => word != "-" && is_up_to(word, 64),
            Field::Salt => is_up_to(word, 64),
            Field::Sender | Field::Recipient => is_up_to(word, 7),
            Field::IdContext => word == "none" || (word != "-" && is_up_to(word, 32)),
            Field::Start => word == "fresh" || word == "restarted",
        }
    }

    /// Returns what this field must be.
    fn rule(&self) -> &'static str {
        match self {
            Field::Ms => "MS must be a number below 2^64",
            Field::Now => "NOW must be a number below 2^64",
            Field::Echo => "ECHO must be 16 hex digits",
            Field::Mid => "MID must be 4 hex digits",
            Field::Datagram => "DATAGRAM must be bytes in hex, or - for none",
            Field::Event => "EVENT must be a number below 2^64",
            Field::Own => "own or shared must come after EVENT",
            Field::Plain => "PLAIN must be bytes in hex, or - for none",
            Field::Token => "TOKEN must be bytes in hex, or - for none",
            Field::Secret => "SECRET must be 1 to 64 bytes in hex",
            Field::Salt => "SALT must be at most 64 bytes in hex, or - for none",
            Field::Sender => "SENDER must be at most 7 bytes in hex, or - for none",
            Field::Recipient => "RECIPIENT must be at most 7 bytes in hex, or - for none",
            Field::IdContext => "ID-CONTEXT must be 1 to 32 bytes in hex, or none",
            Field::Start => "fresh or restarted must come before NEXT",
            Field::Next => "NEXT must be a number below 2^40",
        }
    }
}

/// Returns what the line has that no line may have, in whatever field.
fn spelling_fault(line: &str) -> Option<&'static str> {
    if line.starts_with('\u{feff}') {
        Some("it begins with a byte order mark")
    } else if line.ends_with('\r') {
        Some("it ends in a carriage return")
    } else if line.contains('\t') {
        Some("it has a tab")
    } else if line.is_empty() {
        Some("it is empty")
    } else if line.starts_with(' ') || line.ends_with(' ') || line.contains("  ") {
        Some("one space stands between two fields, and no other")
    } else {
        None
    }
}

/// Returns what the first wrong field of an event must be.
fn field_fault(form: &Form, line: &str) -> Option<&'static str> {
    let mut words = line.split(' ').skip(1);
    for field in form.fields {
        match words.next() {
            Some(word) if field.takes(word) => {}
            _ => return Some(field.rule()),
        }
    }
    None
}

/// Returns whether a line begins with the word of a form.
fn begins(form: &Form, line: &str) -> bool {
    line.split(' ').next() == Some(form.word)
}

/// Returns what is wrong with a line.
fn line_fault(alloc: Global, forms: Forms, line: &str) -> Result<String, AllocError> {
    if let Some(fault) = spelling_fault(line) {
        return String::from_str(alloc, fault);
    }
    let Some(form) = forms.forms.iter().find(|form| begins(form, line)) else {
        return not_an_event(alloc, forms);
    };
    if line.split(' ').count() != form.fields.len() + 1 {
        return format!(in alloc; "{} is {}", form.word, form.names);
    }
    match field_fault(form, line) {
        Some(rule) => String::from_str(alloc, rule),
        // Of two identifiers that each may stand there, this is what no context can have.
        None if form.word == REPLACE_WORD => {
            String::from_str(alloc, "SENDER and RECIPIENT must differ")
        }
        None => not_an_event(alloc, forms),
    }
}

/// Returns the fault that names the words which begin an event, for when nothing better can be said.
fn not_an_event(alloc: Global, forms: Forms) -> Result<String, AllocError> {
    format!(in alloc; "not an event: {} are", forms.words)
}

/// Returns what is wrong with the line of an input that has this number, counted from 1.
fn numbered_fault(
    alloc: Global,
    number: usize,
    forms: Forms,
    input: &[u8],
) -> Result<String, AllocError> {
    let Ok(text) = str::from_utf8(input) else {
        return not_an_event(alloc, forms);
    };
    match text.split('\n').nth(number.saturating_sub(1)) {
        Some(line) => line_fault(alloc, forms, line),
        None => not_an_event(alloc, forms),
    }
}

/// Returns what is wrong with the line of an input that has this number, counted from 1, and the number. The text is one line.
pub(crate) fn event_fault(
    alloc: Global,
    number: usize,
    forms: Forms,
    input: &[u8],
) -> Result<String, AllocError> {
    let fault = numbered_fault(alloc, number, forms, input)?;
    format!(in alloc; "line {number}: {fault}")
}

/// Returns what is wrong with a line, which has its newline, if it has one, and its number. The text is one line.
pub(crate) fn last_fault(
    alloc: Global,
    number: usize,
    forms: Forms,
    line: &[u8],
) -> Result<String, AllocError> {
    let fault = numbered_fault(alloc, 1, forms, line)?;
    format!(in alloc; "line {number}: {fault}")
}
