//! What no clause and no run of the command says of a keeper of a record: what it loads after a save that stopped at any step, and that it
//! can save again.

mod counted;

use super::checks::is;
use super::faults::{Fault, Faulty, Stop};
use super::folder::{begin, end};
use osc_context::{KeeperError, KeptNumbers, RecordKeeper};
use osc_file::{Place, RecordFile, TryLock};
use std::fmt::Debug;
use std::fs;
use std::process::Abort;
use std::rt::Files;

const FINGERPRINT: [u8; 8] = [0x01, 0x23, 0x45, 0x67, 0x89, 0xab, 0xcd, 0xef];

const OLD: KeptNumbers = KeptNumbers {
    sender: 64,
    received: 7,
};

const NEW: KeptNumbers = KeptNumbers {
    sender: 128,
    received: 9,
};

const LATER: KeptNumbers = KeptNumbers {
    sender: 192,
    received: 9,
};

/// A file beside a record: a place, the lock, or a copy of a place that a test keeps.
#[derive(Clone, Copy)]
enum Beside {
    A,
    B,
    Lock,
    Copy,
}

/// Checks what a save of the keeper returns. Numbers below its floors aren't saved.
fn saves<R: Files + Alloc>(
    rt: &impl Abort,
    keeper: &mut RecordFile<'_, R>,
    next: KeptNumbers,
    wanted: Result<(), KeeperError>,
    case: &impl Debug,
)
where
    R::File: TryLock,
{
    let floors = keeper.numbers();
    let saved = if floors.sender <= next.sender && floors.received <= next.received {
        keeper.save(next)
    } else {
        Err(KeeperError)
    };
    is(rt, &saved, &wanted, case);
}

/// Checks what a load of the keeper returns.
fn loads<R: Files + Alloc>(
    rt: &impl Abort,
    keeper: &mut RecordFile<'_, R>,
    wanted: Result<KeptNumbers, KeeperError>,
    case: &impl Debug,
)
where
    R::File: TryLock,
{
    is(rt, &keeper.load(), &wanted, case);
}

/// Checks the floors of the keeper, and which place is damaged.
fn has<R: Files + Alloc>(
    rt: &impl Abort,
    keeper: &RecordFile<'_, R>,
    numbers: KeptNumbers,
    damaged: Option<Place>,
    case: &impl Debug,
)
where
    R::File: TryLock,
{
    is(rt, &keeper.numbers(), &numbers, case);
    is(rt, &keeper.damaged(), &damaged, case);
}

/// Makes the first record of this name, and saves the old numbers in it.
fn begin_record<R: Files + Alloc + Abort>(rt: &R, name: &str)
where
    R::File: TryLock,
{
    let mut keeper = RecordFile::first(rt, name, FINGERPRINT).expect(rt, "a first record");
    saves(rt, &mut keeper, OLD, Ok(()), &name);
}

/// Opens the record of this name.
fn opened<'a, R: Files + Alloc + Abort>(rt: &'a R, name: &str) -> RecordFile<'a, R>
where
    R::File: TryLock,
{
    RecordFile::open(rt, name, FINGERPRINT).expect(rt, "a record")
}

/// Checks what the next run finds, that it can save, and that both places are alike and whole afterwards.
fn goes_on<R: Files + Alloc + Abort>(
    rt: &R,
    name: &str,
    numbers: KeptNumbers,
    damaged: Option<Place>,
    case: &impl Debug,
)
where
    R::File: TryLock,
{
    let mut keeper = opened(rt, name);
    has(rt, &keeper, numbers, damaged, case);
    loads(rt, &mut keeper, Ok(numbers), case);
    saves(rt, &mut keeper, LATER, Ok(()), case);
    loads(rt, &mut keeper, Ok(LATER), case);
    has(rt, &keeper, LATER, None, case);
    are_alike(rt, name, case);
}

/// Checks that both places hold the same.
fn are_alike<R: Files + Alloc + Abort>(rt: &R, name: &str, case: &impl Debug) {
    is(
        rt,
        &text_of(rt, name, Beside::A),
        &text_of(rt, name, Beside::B),
        case,
    );
}

/// Returns the name of a file beside a record.
fn path<R: Alloc + Abort>(rt: &R, name: &str, file: Beside) -> String<R::A> {
    let ending = match file {
        Beside::A => "a",
        Beside::B => "b",
        Beside::Lock => "lock",
        Beside::Copy => "copy",
    };
    format!(in rt.alloc(); "{name}.{ending}").expect(rt, "a name")
}

/// Returns what a file holds.
fn text_of<R: Files + Alloc + Abort>(rt: &R, name: &str, file: Beside) -> Vec<u8, R::A> {
    fs::read(rt, path(rt, name, file).as_str()).expect(rt, "a file")
}

/// Makes a file hold these bytes.
fn put(rt: &(impl Files + Alloc + Abort), name: &str, file: Beside, bytes: &[u8]) {
    fs::write(rt, path(rt, name, file).as_str(), bytes).expect(rt, "a file");
}

/// Makes a file hold what another one holds.
fn copy(rt: &(impl Files + Alloc + Abort), name: &str, from: Beside, to: Beside) {
    put(rt, name, to, &text_of(rt, name, from));
}

/// Removes a file.
fn remove(rt: &(impl Files + Alloc + Abort), name: &str, file: Beside) {
    fs::remove_file(rt, path(rt, name, file).as_str()).expect(rt, "a file");
}

/// Stops a save at a step, and checks that what wasn't confirmed isn't the floor, whatever stands in the files. The same keeper may save
/// again.
fn stop_save(
    rt: &impl Abort,
    host: &HostRuntime,
    name: &str,
    (step, stop, again): (u64, Stop, bool),
) {
    let case = (step, stop, again);
    let faulty = Faulty::new(host, "stops", Fault::From(step, stop));
    let mut keeper = RecordFile::open(&faulty, name, FINGERPRINT).expect(rt, "a record");
    saves(rt, &mut keeper, NEW, Err(KeeperError), &case);
    loads(rt, &mut keeper, Ok(OLD), &case);
    if again {
        faulty.mend();
        saves(rt, &mut keeper, NEW, Ok(()), &case);
    }
}

/// What a save leaves that stops at a step: the numbers, and which place is damaged. The fourth step renames the first place, and the ninth
/// the second one.
fn left_by(step: u64, stop: Stop) -> (KeptNumbers, Option<Place>) {
    match (step, stop) {
        (4, Stop::Half) => (OLD, Some(Place::A)),
        (9, Stop::Half) => (NEW, Some(Place::B)),
        (4, Stop::After) => (NEW, None),
        _ if step > 4 => (NEW, None),
        _ => (OLD, None),
    }
}

/// Stops a save at a step, and checks what is left. The tenth step is the last.
fn stops<R: Files + Alloc + Abort>(
    rt: &R,
    host: &HostRuntime,
    name: &str,
    (step, stop, again): (u64, Stop, bool),
)
where
    R::File: TryLock,
{
    let case = (step, stop, again);
    begin_record(rt, name);
    stop_save(rt, host, name, case);
    let (numbers, damaged) = if again {
        (NEW, None)
    } else {
        left_by(step, stop)
    };
    goes_on(rt, name, numbers, damaged, &case);
    remove(rt, name, Beside::A);
    remove(rt, name, Beside::B);
    remove(rt, name, Beside::Lock);
}

// A save that stops at each of its steps, five for each place: create, write, sync, rename, sync of the folder. The next run loads the old
// numbers or the new ones, and the same keeper can save again.
#[test]
fn a_save_that_stops(rt: HostRuntime) {
    let (folder, name) = ("stops", "stops/record");
    begin(&rt, folder);
    for step in 1..11 {
        for stop in [Stop::Before, Stop::Half, Stop::After] {
            stops(&rt, &rt, name, (step, stop, false));
            stops(&rt, &rt, name, (step, stop, true));
        }
    }
    end(&rt, folder);
}
