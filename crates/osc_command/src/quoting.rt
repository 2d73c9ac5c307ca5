//! How a fault quotes the words of a call.

use osc_text::Fault;
use std::alloc::{AllocError, Global};

/// How many characters of a word are quoted.
const MOST_QUOTED: usize = 80;

/// Returns whether a character changes in which direction the text around it is shown.
fn is_bidirectional(character: char) -> bool {
    matches!(
        character,
        '\u{61c}' | '\u{200e}' | '\u{200f}' | '\u{202a}'..='\u{202e}' | '\u{2066}'..='\u{2069}'
    )
}

/// Appends a character to a quoted word. A control character, or one that changes the direction, is spelled by its number, as `\u{1b}`.
fn push_quoted(text: &mut String, character: char) -> Result<(), AllocError> {
    if !character.is_control() && !is_bidirectional(character) {
        return text.push(character);
    }
    for part in character.escape_unicode() {
        text.push(part)?;
    }
    Ok(())
}

/// Returns a word as a fault quotes it: on one line, and at most 80 characters of it, followed by `..` if it has more.
fn quoted(alloc: Global, word: &str) -> Result<String, AllocError> {
    let mut text = String::new(alloc);
    for (place, character) in word.chars().enumerate() {
        if place == MOST_QUOTED {
            text.push_str("..")?;
            return Ok(text);
        }
        push_quoted(&mut text, character)?;
    }
    Ok(text)
}

/// Returns the words of a call as a fault quotes them.
pub(crate) fn quoted_words(alloc: Global, words: &[String]) -> Result<Vec<String>, Fault> {
    let mut all = Vec::new(alloc);
    for word in words {
        all.push(quoted(alloc, word.as_str())?)?;
    }
    Ok(all)
}
