//! Calls of the command. The first text is its standard input, and the others are its words. If the standard output refuses writes, the
//! number of writes that it takes comes before all of them. If a keeper is asked for, what it keeps and how its calls end come before all
//! of them; a record keeps the sender's number and the received one.

use crate::answer::Answer;
use crate::bytes::bytes_of;
use crate::keeper::{Lent, Memory};
use crate::peer_record::{LentRecord, RecordMemory};
use crate::texts::Texts;
use osc_command::{Keepers, command};
use osc_context::KeptNumbers;
use std::alloc::Global;
use std::io;
use std::io::{ErrorKind, Read, Write};

/// A standard input that gives its bytes, and then ends or fails.
#[derive(Drop)]
struct Input<'i> {
    rest: &'i [u8],
    fails: bool,
}

impl Read for Input<'_> {
    fn read(&mut self, buf: &mut [u8]) -> io::Result<usize> {
        if self.fails && self.rest.is_empty() {
            return Err(io::Error::from(ErrorKind::ConnectionReset));
        }
        self.rest.read(buf)
    }
}

/// A standard output that takes some writes, and refuses the others.
#[derive(Drop)]
struct Output {
    left: u64,
    refused: u32,
    written: Vec<u8>,
}

impl Write for Output {
    fn write(&mut self, buf: &[u8]) -> io::Result<usize> {
        if self.left == 0 {
            self.refused = self.refused.saturating_add(1);
            return Err(io::Error::from(ErrorKind::BrokenPipe));
        }
        self.left -= 1;
        self.written.extend_from_slice(buf)?;
        Ok(buf.len())
    }

    fn flush(&mut self) -> io::Result<()> {
        Ok(())
    }
}

fn is_one_line(text: &[u8]) -> bool {
    text.ends_with(b"\n") && text.iter().filter(|&&c| c == b'\n').count() == 1
}

/// What a call of the command returned and wrote.
#[derive(Drop)]
struct Called {
    status: u8,
    out: Output,
    err: Vec<u8>,
}

impl Called {
    /// Makes the call over a standard output that takes `writes` writes.
    fn make(
        alloc: Global,
        words: &[String],
        input: &mut Input<'_>,
        writes: u64,
        keeper: &mut Memory<'_>,
        record: &mut RecordMemory<'_>,
    ) -> Called {
        let mut out = Output {
            left: writes,
            refused: 0,
            written: Vec::new(alloc),
        };
        let mut err = Vec::new(alloc);
        let lent = Lent::new(keeper);
        let lent_record = LentRecord::new(record);
        let keepers = Keepers {
            numbers: |name: &str| lent.of_file(alloc, name),
            records: |name: &str, _fingerprint: [u8; 8], is_first: bool| {
                lent_record.of_file(alloc, name, is_first)
            },
        };
        let status = command(alloc, words, input, &mut out, &mut err, keepers);
        Called { status, out, err }
    }

    /// Shows the status, standard output and standard error. `help` shows standard output as `text`, if there is some. `command`, `input`,
    /// `help`, `kept-command` and `peer-command` show standard error. The others show `line` instead, if standard error is one line. `cut-off` also shows
    /// how many writes were refused.
    fn show(&self, verb: &str, answer: &mut Answer) {
        answer.print(self.status);
        if verb == "help" && !self.out.written.is_empty() {
            answer.word("text");
        } else {
            answer.quoted(self.out.written.as_slice());
        }
        if !matches!(
            verb,
            "command" | "input" | "help" | "kept-command" | "peer-command"
        ) && is_one_line(self.err.as_slice())
        {
            answer.word("line");
        } else {
            answer.quoted(self.err.as_slice());
        }
        if verb == "cut-off" {
            answer.print(self.out.refused);
        }
    }
}

/// Returns the number that a text spells, or 0 if it spells none.
fn number_of(text: &str) -> u64 {
    text.parse().unwrap_or(0)
}

/// Returns the bytes of a standard input. For `input` and `failing-input` they are spelled as the corpus spells bytes, otherwise as a text.
fn input_bytes(alloc: Global, verb: &str, text: &str) -> Option<Vec<u8>> {
    if matches!(verb, "input" | "failing-input") {
        return bytes_of(alloc, text);
    }
    let mut bytes = Vec::new(alloc);
    bytes.extend_from_slice(text.as_bytes()).ok()?;
    Some(bytes)
}

/// What comes before the input in a row of a call: how many writes the standard output takes, and what the keepers keep and how their
/// calls end, if they are asked for.
#[derive(Drop)]
struct Before<'t> {
    writes: u64,
    kept: Option<(u64, &'t str)>,
    recorded: Option<(KeptNumbers, &'t str)>,
}

impl<'t> Before<'t> {
    /// Reads it, and returns it with the texts behind it.
    fn read(verb: &str, texts: &'t [String]) -> (Before<'t>, &'t [String]) {
        let mut before = Before {
            writes: u64::MAX,
            kept: None,
            recorded: None,
        };
        match texts {
            [writes, rest @ ..] if verb == "cut-off" => {
                before.writes = number_of(writes);
                (before, rest)
            }
            [kept, plan, rest @ ..] if matches!(verb, "kept-command" | "kept-usage") => {
                before.kept = Some((number_of(kept), plan));
                (before, rest)
            }
            [sender, received, plan, rest @ ..] if verb == "peer-command" => {
                let (sender, received) = (number_of(sender), number_of(received));
                before.recorded = Some((KeptNumbers { sender, received }, plan));
                (before, rest)
            }
            all => (before, all),
        }
    }
}

/// Makes the call and shows its answer. For `cut-off` the first text, before the input, is how many writes the standard output takes. For
/// `kept-command` and `kept-usage` the first two texts are what a keeper keeps and how its calls end, for `peer-command` the first three are
/// what a record keeps and how its calls end; what it was asked to save is shown last.
pub(crate) fn run(verb: &str, call: &str, answer: &mut Answer) {
    let alloc = answer.alloc;
    let texts = Texts::read(alloc, call);
    let (before, texts_left) = Before::read(verb, texts.done.as_slice());
    let (kept, plan) = before.kept.unwrap_or((0, ""));
    let mut keeper = Memory::new(alloc, kept, plan);
    let none = KeptNumbers {
        sender: 0,
        received: 0,
    };
    let (numbers, plan) = before.recorded.unwrap_or((none, ""));
    let mut record = RecordMemory::new(alloc, numbers, plan);
    let [input, words @ ..] = texts_left else {
        answer.is_whole = false;
        return;
    };
    let Some(bytes) = input_bytes(alloc, verb, input) else {
        answer.is_whole = false;
        return;
    };
    let (rest, fails) = (bytes.as_slice(), verb == "failing-input");
    let mut input = Input { rest, fails };
    let called = Called::make(
        alloc,
        words,
        &mut input,
        before.writes,
        &mut keeper,
        &mut record,
    );
    called.show(verb, answer);
    if before.kept.is_some() {
        keeper.show_file(answer);
        keeper.show(answer);
    }
    if before.recorded.is_some() {
        record.show_file(answer);
        record.show(answer);
    }
    answer.is_whole = answer.is_whole && texts.is_whole;
}
