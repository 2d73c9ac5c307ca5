//! The answer of a call, as the corpus spells it.

use crate::bytes::spelled;
use osc_coap::{Kind, Options};
use osc_context::Piv;
use std::alloc::{AllocError, Global};
use std::fmt::{Debug, Display};
use std::mem;

/// The words of an answer so far. If an allocation is refused, that is remembered: the answer is then not whole.
#[derive(Drop)]
pub(crate) struct Answer {
    pub(crate) alloc: Global,
    pub(crate) text: String,
    /// The answers of earlier calls, if several have to agree.
    pub(crate) earlier: Vec<String>,
    pub(crate) is_whole: bool,
}

impl Answer {
    pub(crate) fn new(alloc: Global) -> Answer {
        Answer {
            alloc,
            text: String::new(alloc),
            earlier: Vec::new(alloc),
            is_whole: true,
        }
    }

    /// Begins again: what comes next has to be the same as what came so far.
    pub(crate) fn again(&mut self) {
        let earlier = mem::replace(&mut self.text, String::new(self.alloc));
        if self.earlier.push(earlier).is_err() {
            self.is_whole = false;
        }
    }

    /// Returns the first answer that is other than the wanted one, if there is one.
    pub(crate) fn other_than(&self, wanted: &str) -> Option<&str> {
        for earlier in &self.earlier {
            if earlier.as_str() != wanted {
                return Some(earlier.as_str());
            }
        }
        if self.text.as_str() == wanted {
            None
        } else {
            Some(self.text.as_str())
        }
    }

    /// Appends to the last word.
    pub(crate) fn push(&mut self, text: &str) {
        if self.text.push_str(text).is_err() {
            self.is_whole = false;
        }
    }

    pub(crate) fn word(&mut self, word: &str) {
        self.push(" ");
        self.push(word);
    }

    /// Adds a word that was made. If it wasn't made, the answer isn't whole.
    fn made(&mut self, word: Result<String, AllocError>) {
        match word {
            Ok(word) => self.word(word.as_str()),
            Err(_) => self.is_whole = false,
        }
    }

    /// Adds a value that prints, as a word.
    pub(crate) fn print<D: Display + Drop>(&mut self, value: D) {
        self.made(format!(in self.alloc; "{value}"));
    }

    /// Adds the text that `Debug` prints for a value, in quotes.
    pub(crate) fn debugged<D: Debug + Drop>(&mut self, value: D) {
        match format!(in self.alloc; "{value:?}") {
            Ok(text) => self.quoted(text.as_bytes()),
            Err(_) => self.is_whole = false,
        }
    }

    /// Adds a refusal by its name.
    pub(crate) fn refused<D: Display + Drop>(&mut self, refusal: D) {
        self.word("refused");
        self.print(refusal);
    }

    pub(crate) fn bytes(&mut self, bytes: &[u8]) {
        self.made(spelled(self.alloc, bytes));
    }

    /// Adds bytes that may be absent.
    pub(crate) fn part(&mut self, part: Option<&[u8]>) {
        match part {
            Some(bytes) => self.bytes(bytes),
            None => self.word("none"),
        }
    }

    /// Adds what a buffer holds, or `same` if that is what it held before.
    pub(crate) fn left(&mut self, before: &[u8], after: &[u8]) {
        if before == after {
            self.word("same");
        } else {
            self.bytes(after);
        }
    }

    /// Adds what the steps of a row left, as another answer spells it.
    pub(crate) fn leave(&mut self, left: &Answer) {
        self.word("left");
        self.push(left.text.as_str());
        self.is_whole = self.is_whole && left.is_whole;
    }

    /// Adds the bytes at the front of a filled buffer, and whether the bytes after them are still what it was filled with.
    pub(crate) fn written(&mut self, buf: &[u8], len: usize, filled_with: u8) {
        let (front, behind) = buf.split_at(len.min(buf.len()));
        self.bytes(front);
        self.rest(behind, filled_with);
    }

    pub(crate) fn rest(&mut self, rest: &[u8], filled_with: u8) {
        let is_same = rest.iter().all(|byte| *byte == filled_with);
        self.word(if is_same { "same" } else { "changed" });
    }

    pub(crate) fn kind(&mut self, kind: Kind) {
        self.word(match kind {
            Kind::Con => "CON",
            Kind::Non => "NON",
            Kind::Ack => "ACK",
            Kind::Rst => "RST",
        });
    }

    /// Adds whether something belongs to a request, and whether it belongs to a response.
    pub(crate) fn usage(&mut self, is_request: bool, is_response: bool) {
        self.word(if is_request { "request" } else { "no-request" });
        self.word(if is_response {
            "response"
        } else {
            "no-response"
        });
    }

    /// Adds a code as class, dot and two digits of detail.
    pub(crate) fn code(&mut self, code: u8) {
        let class = code / 32;
        let detail = code % 32;
        self.made(format!(in self.alloc; "{class}.{detail:02}"));
    }

    /// Adds a number that may be absent.
    pub(crate) fn number(&mut self, number: Option<Piv>) {
        match number {
            Some(piv) => self.print(piv.number()),
            None => self.word("none"),
        }
    }

    /// Adds the number and the value of each option, in brackets.
    pub(crate) fn options(&mut self, options: Options<'_>) {
        self.word("[");
        for (number, value) in options {
            self.print(number);
            self.bytes(value);
        }
        self.word("]");
    }

    /// Adds a text in quotes, in which `\n`, `\"` and `\\` each stand for one character.
    pub(crate) fn quoted(&mut self, text: &[u8]) {
        self.word("\"");
        for byte in text {
            match *byte {
                b'\n' => self.push("\\n"),
                b'"' => self.push("\\\""),
                b'\\' => self.push("\\\\"),
                other => self.character(char::from(other)),
            }
        }
        self.push("\"");
    }

    /// Appends a character.
    fn character(&mut self, character: char) {
        if self.text.push(character).is_err() {
            self.is_whole = false;
        }
    }
}
