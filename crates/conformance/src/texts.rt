//! The texts of a call of the command: words, or texts in quotes, separated by spaces.

use std::alloc::Global;

/// The texts that were read, and the one that is being read.
#[derive(Drop)]
pub(crate) struct Texts {
    pub(crate) done: Vec<String>,
    current: String,
    is_quoted: bool,
    is_escaped: bool,
    pub(crate) is_whole: bool,
}

impl Texts {
    /// Reads the texts. After a backslash, `n` stands for a newline, `r` for a carriage return, `e` for U+001B, the escape character, `o` for
    /// U+202E, the right-to-left override, and every other character for itself.
    pub(crate) fn read(alloc: Global, call: &str) -> Texts {
        let mut texts = Texts {
            done: Vec::new(alloc),
            current: String::new(alloc),
            is_quoted: false,
            is_escaped: false,
            is_whole: true,
        };
        for character in call.chars() {
            texts.take(alloc, character);
        }
        texts.end(alloc);
        texts
    }

    fn take(&mut self, alloc: Global, character: char) {
        if self.is_escaped {
            self.is_escaped = false;
            self.push(match character {
                'n' => '\n',
                'r' => '\r',
                'e' => '\u{1b}',
                'o' => '\u{202e}',
                other => other,
            });
        } else if character == '\\' {
            self.is_escaped = true;
        } else if character == '"' {
            self.is_quoted = !self.is_quoted;
        } else if character == ' ' && !self.is_quoted {
            self.end(alloc);
        } else {
            self.push(character);
        }
    }

    fn push(&mut self, character: char) {
        if self.current.push(character).is_err() {
            self.is_whole = false;
        }
    }

    /// Ends a text. It is whole, unless a quote is open.
    fn end(&mut self, alloc: Global) {
        let text = std::mem::replace(&mut self.current, String::new(alloc));
        if self.is_quoted || self.done.push(text).is_err() {
            self.is_whole = false;
        }
    }
}
