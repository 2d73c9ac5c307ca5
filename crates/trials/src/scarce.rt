//! A run of a server and one of a client over fixed inputs, small enough that each of their growths of memory can be refused in turn. If
//! one is refused, the status is 1, standard error has one line, and standard output has whole lines from the front of what the runs print,
//! which is `stdout`. Before the runs, memory grows once for each byte of standard input, so that one number can refuse each growth of the
//! runs.

mod runs;

use crate::example::{SERVER, params};
use osc_context::{NO_FEATURES, Piv};
use osc_text::{Agreed, Asking, Fault, Serving, ask_text, serve_text};
use osc_window::WindowSize;
use std::alloc::Global;
use std::io;
use std::io::{Read, Write};

/// The request of RFC 8613, C.4, the same request again, and the response of C.7 to the first.
const REQUESTS: &[u8] =
    b"take 1000 0102030405060708 0001 44025d1f00003974396c6f63616c686f7374620914ff612f1092f1776f1c1668b3825e
take 1001 0102030405060708 0001 44025d1f00003974396c6f63616c686f7374620914ff612f1092f1776f1c1668b3825e
reply 0 shared 0001 64455d1f00003974ff48656c6c6f20576f726c6421
";

/// The plain request of RFC 8613, C.4, its response under the last number, the same response again, and its token.
const RESPONSES: &[u8] = b"request 0 44015d1f00003974396c6f63616c686f737483747631
take 1 64445d1f0000397490ff40a006fe1a53a6b1ded204996ac88a1095ba803aa4c7
take 2 64445d1f0000397490ff40a006fe1a53a6b1ded204996ac88a1095ba803aa4c7
forget 00003974
";

/// Returns what the context of one end of C.1 is derived from, with no features, as a call of the command names it.
fn agreed<'a>(sender: &'a [u8], recipient: &'a [u8]) -> Agreed<'a> {
    Agreed {
        params: params(sender, recipient),
        features: NO_FEATURES,
        tables: false,
    }
}

/// Grows memory once for each byte of standard input, at most 99 times.
fn grow(rt: &HostRuntime) -> Result<(), Fault> {
    let mut bytes = [0; 99];
    let count = rt.stdin().read(&mut bytes).map_err(Fault::Read)?;
    for byte in &bytes[..count] {
        Vec::new(rt.alloc()).push(*byte)?;
    }
    Ok(())
}

/// Prints the runs of the server and of the client, as the command prints them.
fn print<W: Write>(alloc: Global, out: &mut W) -> Result<u8, Fault> {
    let serving = Serving {
        next: Piv::MAX,
        is_restarted: false,
        window: WindowSize::default(),
    };
    serve_text(alloc, agreed(SERVER, &[]), serving, REQUESTS, out)?;
    let asking = Asking {
        next: Piv::MAX,
        life_ms: 60_000,
    };
    ask_text(alloc, agreed(&[], SERVER), asking, RESPONSES, out)
}

/// Prints those runs, and then two that continue after a growth of theirs is refused. Returns the status.
fn run_all(rt: &HostRuntime) -> Result<u8, Fault> {
    grow(rt)?;
    let _status = print(rt.alloc(), &mut rt.stdout())?;
    let all_left = runs::serve(rt)?;
    runs::ask(rt)?;
    Ok(if all_left { 0 } else { 2 })
}

/// Makes the runs, and returns the status. A fault goes to standard error.
pub(crate) fn run(rt: &HostRuntime) -> io::Result<u8> {
    match run_all(rt) {
        Ok(status) => Ok(status),
        Err(fault) => {
            eprintln!(rt; "{fault}")?;
            Ok(1)
        }
    }
}
