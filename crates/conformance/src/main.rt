//! The corpus: rows from standard input, each a call and its answer. The program makes each call, and prints each row whose answer differs,
//! with the wanted answer and the one that came. Then it prints the number of rows of each section. The status is 1 if a row differs or
//! can't be read. docs/CORPUS.md has the format.
#![tactic(auto)]

mod answer;
mod blocks;
mod bytes;
mod ciphers;
mod client;
mod client_calls;
mod client_end;
mod client_ends;
mod client_entry;
mod client_events;
mod command;
mod context;
mod corpus;
mod ends;
mod fields;
mod freshening;
mod keeper;
mod kept;
mod messages;
mod nodes;
mod numbers;
mod observing;
mod peer;
mod peer_alike;
mod peer_bytes;
mod peer_record;
mod protection;
mod proxying;
mod reading;
mod refusal;
mod remembering;
mod server;
mod server_calls;
mod server_end;
mod server_ends;
mod server_entry;
mod server_events;
mod steps;
mod texts;
mod turns;
mod verbs;
mod window;
mod writing;

use crate::corpus::Corpus;
use std::alloc::Global;
use std::io;
use std::process::ExitCode;

/// Makes all calls, and returns the status.
fn run<R: Input + Print + Alloc<A = Global>>(rt: &R) -> io::Result<u8> {
    let text = io::read_to_string(rt.alloc(), rt.reader())?;
    let mut corpus = Corpus::new(rt.alloc());
    for line in text.as_str().lines() {
        corpus.take(rt, line)?;
    }
    corpus.report(rt)
}

fn main(rt: HostRuntime) -> io::Result<ExitCode> {
    let status = run(&rt)?;
    Ok(ExitCode::from(status))
}
