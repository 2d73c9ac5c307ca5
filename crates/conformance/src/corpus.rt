//! The corpus, line by line.

use crate::answer::Answer;
use crate::fields::{Fields, NamedContext};
use crate::{command, ends, verbs};
use std::alloc::Global;
use std::io;

/// A row as it stands in the corpus: `NAME: VERB FIELD.. = ANSWER`.
#[derive(Clone, Copy)]
struct Row<'t> {
    name: &'t str,
    verb: &'t str,
    fields: &'t str,
    /// The wanted answer, with a space before it.
    wanted: &'t str,
}

/// Returns the row of a line, or `None` if the line isn't a row.
fn row_of(line: &str) -> Option<Row<'_>> {
    let (name, rest) = line.split_once(": ")?;
    let (call, wanted) = rest.split_once(" =")?;
    let (verb, fields) = call.split_once(' ')?;
    Some(Row {
        name,
        verb,
        fields,
        wanted,
    })
}

/// A section, and how many rows it has so far.
#[derive(Clone, Copy)]
struct Section<'t> {
    name: &'t str,
    rows: u32,
}

/// What was read so far.
#[derive(Drop)]
pub(crate) struct Corpus<'t> {
    alloc: Global,
    contexts: Vec<NamedContext<'t>>,
    sections: Vec<Section<'t>>,
    differ: u32,
}

impl<'t> Corpus<'t> {
    /// Begins with nothing read.
    pub(crate) fn new(alloc: Global) -> Corpus<'t> {
        Corpus {
            alloc,
            contexts: Vec::new(alloc),
            sections: Vec::new(alloc),
            differ: 0,
        }
    }

    /// Takes a line: a section, a context or a row. An empty line, or one that begins with `#`, says nothing.
    pub(crate) fn take(&mut self, rt: &impl Print, line: &'t str) -> io::Result<()> {
        if line.is_empty() || line.starts_with('#') {
            return Ok(());
        }
        match line.split_once(' ') {
            Some(("section", name)) => self.sections.push(Section { name, rows: 0 })?,
            Some(("context", rest)) => {
                let (name, fields) = rest.split_once(' ').unwrap_or((rest, ""));
                self.contexts.push(NamedContext { name, fields })?;
            }
            _ => return self.take_row(rt, line),
        }
        Ok(())
    }

    /// Makes the call of a row, and compares its answer.
    fn take_row(&mut self, rt: &impl Print, line: &'t str) -> io::Result<()> {
        if let Some(section) = self.sections.last_mut() {
            section.rows = section.rows.saturating_add(1);
        }
        let Some(row) = row_of(line) else {
            return self.differs(rt, line, " can't be read");
        };
        let answer = self.answer(row);
        if !answer.is_whole {
            return self.differs(rt, row.name, " can't be read");
        }
        match answer.other_than(row.wanted) {
            Some(came) => self.differs(rt, line, came),
            None => Ok(()),
        }
    }

    /// Returns the answer of a row's call.
    fn answer<'s>(&'s self, row: Row<'s>) -> Answer {
        let (mut answer, contexts) = (Answer::new(self.alloc), self.contexts.as_slice());
        match row.verb {
            "command"
            | "usage"
            | "help"
            | "cut-off"
            | "input"
            | "failing-input"
            | "kept-command"
            | "kept-usage"
            | "peer-command" => {
                command::run(row.verb, row.fields, &mut answer);
            }
            "server"
            | "client"
            | "kept-server"
            | "kept-client"
            | "kept-peer"
            | "peers-in-turn"
            | "peer-bytes"
            | "messages"
            | "node"
            | "observers" => {
                ends::make(row.verb, row.fields, contexts, &mut answer);
            }
            verb => {
                let fields = Fields::read(self.alloc, row.fields);
                verbs::make(verb, &fields, contexts, &mut answer);
                answer.is_whole = answer.is_whole && !fields.is_bad();
            }
        }
        answer
    }

    /// Reports that a row can't be read, or has a different answer.
    fn differs(&mut self, rt: &impl Print, row: &str, came: &str) -> io::Result<()> {
        self.differ = self.differ.saturating_add(1);
        println!(rt; "{row}, but came{came}")
    }

    /// Reports how many rows there are, in each section and in all, and returns the status.
    pub(crate) fn report(&self, rt: &impl Print) -> io::Result<u8> {
        let mut rows = 0u32;
        for section in &self.sections {
            rows = rows.saturating_add(section.rows);
            let (count, name) = (section.rows, section.name);
            println!(rt; "{count} {name}")?;
        }
        let differ = self.differ;
        println!(rt; "{rows} rows, {differ} differ")?;
        Ok(if differ == 0 { 0 } else { 1 })
    }
}
