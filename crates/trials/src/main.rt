//! Trials of the layers that no row can make: runs whose memory is refused, and the calls that docs/WALK.md follows.
//! README.md says what each does, and how to run it.
#![tactic(auto)]

mod example;
mod scarce;
mod walk;

use std::process::ExitCode;
use std::{env, io};

const USAGE: &str = "usage: trials [scarce | walk]";

/// Prints how the program is called, and returns its status.
fn usage(rt: &impl Eprint) -> io::Result<u8> {
    eprintln!(rt; "{USAGE}")?;
    Ok(2)
}

/// Makes the trial that the program's words name, and returns the status. Without a word, as the gate runs it, the trial is `scarce`.
fn run(rt: &HostRuntime) -> io::Result<u8> {
    let mut words = env::args(rt)?;
    let _name = words.next();
    let Some(trial) = words.next() else {
        return scarce::run(rt);
    };
    match (trial.as_str(), words.next()) {
        ("scarce", None) => scarce::run(rt),
        ("walk", None) => Ok(walk::run()),
        _ => usage(rt),
    }
}

fn main(rt: HostRuntime) -> io::Result<ExitCode> {
    let status = run(&rt)?;
    Ok(ExitCode::from(status))
}
