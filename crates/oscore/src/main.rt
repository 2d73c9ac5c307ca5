//! The program `oscore`: the command of `osc_command` on the standard streams.
//!
//! ```sh
//! oscore open --secret 0102030405060708090a0b0c0d0e0f10 --salt 9e7ca92223786340 --sender 01 44025d1f00003974396c6f63616c686f7374620914ff612f1092f1776f1c1668b3825e
//! ```
#![tactic(auto)]

use osc_command::{Keepers, command, report};
use osc_file::{FileKeeper, RecordFile, TellingKeeper, TellingRecord};
use osc_text::Fault;
use std::alloc::Global;
use std::env;
use std::process::ExitCode;
use std::rt::Env;

fn main(rt: HostRuntime) -> ExitCode {
    let alloc = rt.alloc();
    let (mut out, mut err) = (rt.stdout(), rt.stderr());
    let keepers = Keepers {
        numbers: |name: &str| {
            TellingKeeper::new(FileKeeper::new(&rt, name), "oscore: --numbers", rt.stderr())
        },
        records: |name: &str, fingerprint: [u8; 8], is_first: bool| {
            let record = if is_first {
                RecordFile::first(&rt, name, fingerprint)
            } else {
                RecordFile::open(&rt, name, fingerprint)
            };
            TellingRecord::new(record, "oscore: --record", rt.stderr())
        },
    };
    let status = match program_words(&rt) {
        Ok(words) => command(alloc, &words, &mut rt.stdin(), &mut out, &mut err, keepers),
        Err(fault) => report(&fault, &mut err),
    };
    ExitCode::from(status)
}

/// Returns the words that this program was called with, its own name first.
fn program_words<R: Env + Alloc<A = Global>>(rt: &R) -> Result<Vec<String>, Fault> {
    match env::args(rt) {
        Ok(words) => Ok(words.collect(rt.alloc())?),
        Err(error) => Err(Fault::Words(error)),
    }
}
