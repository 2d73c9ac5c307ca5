//! What a number's file holds.

use crate::file_trouble::FileTrouble;
use crate::lock::is_link;
use crate::number_text::parse;
use std::fs;
use std::io::ErrorKind;
use std::rt::Files;

#[derive(Clone, Copy)]
pub(crate) enum Held {
    /// The file is missing.
    Nothing,
    Number(u64),
}

/// Reads the file. A symbolic link is refused: a save would put a file in the link's place and leave what it leads to.
pub(crate) fn read<R: Files + Alloc>(rt: &R, name: &str) -> Result<Held, FileTrouble> {
    match is_link(rt, name) {
        Ok(false) => {}
        Ok(true) => return Err(FileTrouble::Link),
        Err(error) => return Err(FileTrouble::Read(error.kind())),
    }
    match fs::read_to_string(rt, name) {
        Ok(text) => match parse(text.as_str()) {
            Some(number) => Ok(Held::Number(number)),
            None => Err(FileTrouble::NoNumber),
        },
        Err(error) if error.kind() == ErrorKind::NotFound => Ok(Held::Nothing),
        Err(error) => Err(FileTrouble::Read(error.kind())),
    }
}
