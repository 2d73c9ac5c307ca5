//! What no clause says: what a keeper does if another program changes its file or has its name, and what a refused step leaves.

use super::checks::is;
use super::faults::{CREATE, Fault, Faulty, RENAME, SYNC_FILE, SYNC_FOLDER, WRITE};
use super::folder::{begin, end};
use osc_context::{Keeper, KeeperError};
use osc_file::{FileKeeper, TryLock};
use std::fmt::Debug;
use std::fs;
use std::process::Abort;
use std::rt::Files;

/// Checks what a load of the keeper returns.
fn loads<R: Files + Alloc>(
    rt: &impl Abort,
    keeper: &mut FileKeeper<'_, R>,
    wanted: Result<u64, KeeperError>,
    case: &impl Debug,
)
where
    R::File: TryLock,
{
    is(rt, &keeper.load(), &wanted, case);
}

/// Checks what a save of the keeper returns. A number below its floor isn't saved.
fn saves<R: Files + Alloc>(
    rt: &impl Abort,
    keeper: &mut FileKeeper<'_, R>,
    next: u64,
    wanted: Result<(), KeeperError>,
    case: &impl Debug,
)
where
    R::File: TryLock,
{
    let saved = if keeper.floor() <= next {
        keeper.save(next)
    } else {
        Err(KeeperError)
    };
    is(rt, &saved, &wanted, case);
}

/// Makes the file hold this text, or removes the file if the text is empty.
fn put(rt: &(impl Files + Alloc + Abort), name: &str, text: &str) {
    if text.is_empty() {
        let _ = fs::remove_file(rt, name);
    } else {
        fs::write(rt, name, text).expect(rt, "a file");
    }
}

/// Returns whether the file holds this text, or is missing if the text is empty.
fn holds(rt: &(impl Files + Alloc), name: &str, text: &str) -> bool {
    match fs::read_to_string(rt, name) {
        Ok(found) => found.as_str() == text,
        Err(_) => text.is_empty(),
    }
}

/// Checks that each call of the keeper fails and leaves the file while the file is a different one, and that the keeper can save when the
/// file is as before.
fn insists<R: Files + Alloc + Abort>(
    rt: &R,
    keeper: &mut FileKeeper<'_, R>,
    kept: &str,
    changed: &str,
)
where
    R::File: TryLock,
{
    let name = "changes/number";
    put(rt, name, changed);
    loads(rt, keeper, Err(KeeperError), &changed);
    saves(rt, keeper, 256, Err(KeeperError), &changed);
    is(rt, &holds(rt, name, changed), &true, &changed);
    put(rt, name, kept);
    saves(rt, keeper, 192, Ok(()), &changed);
}

/// Checks that a keeper insists on the file that it found, and on the file that it saved itself.
fn insists_twice<R: Files + Alloc + Abort>(rt: &R, found: &str, number: u64, changed: &str)
where
    R::File: TryLock,
{
    let name = "changes/number";
    put(rt, name, found);
    let mut keeper = FileKeeper::new(rt, name);
    loads(rt, &mut keeper, Ok(number), &found);
    insists(rt, &mut keeper, found, changed);
    loads(rt, &mut keeper, Ok(192), &found);
    insists(rt, &mut keeper, "192\n", changed);
}

// What a file holds, its number, and what it is changed to. An empty text means that there is no file.
const CHANGES: [(&str, u64, &str); 7] = [
    ("", 0, "0\n"),
    ("", 0, "64\n"),
    ("0\n", 0, ""),
    ("64\n", 64, ""),
    ("64\n", 64, "0\n"),
    ("64\n", 64, "128\n"),
    ("64\n", 64, "64"),
];

// A file that another program changes, makes or removes.
#[test]
fn a_file_that_changes(rt: HostRuntime) {
    let folder = "changes";
    begin(&rt, folder);
    for (found, number, changed) in CHANGES {
        insists_twice(&rt, found, number, changed);
    }
    end(&rt, folder);
}

/// Checks that a second keeper of the name is refused.
fn is_alone<R: Files + Alloc + Abort>(rt: &R, name: &str)
where
    R::File: TryLock,
{
    let case = "refused";
    let mut refused = FileKeeper::new(rt, name);
    loads(rt, &mut refused, Err(KeeperError), &case);
    saves(rt, &mut refused, 64, Err(KeeperError), &case);
}

/// Takes the lock of a keeper away, and checks that of two keepers the first to save keeps its number.
fn outruns<R: Files + Alloc + Abort>(rt: &R, name: &str, first: &mut FileKeeper<'_, R>)
where
    R::File: TryLock,
{
    let case = "second";
    fs::remove_file(rt, "two/number.lock").expect(rt, "a file");
    let mut second = FileKeeper::new(rt, name);
    loads(rt, &mut second, Ok(0), &case);
    saves(rt, first, 64, Ok(()), &"first");
    saves(rt, &mut second, 64, Err(KeeperError), &case);
}

/// Checks a keeper beside others of its name.
fn take_turns<R: Files + Alloc + Abort>(rt: &R, name: &str)
where
    R::File: TryLock,
{
    let mut first = FileKeeper::new(rt, name);
    loads(rt, &mut first, Ok(0), &"first");
    is_alone(rt, name);
    outruns(rt, name, &mut first);
}

// Own rule: a name belongs to one keeper. If its lock is taken away, the keeper that saves second finds what it didn't read.
#[test]
fn two_keepers(rt: HostRuntime) {
    let folder = "two";
    begin(&rt, folder);
    take_turns(&rt, "two/number");
    end(&rt, folder);
}

/// Checks what a load and a save return whose runtime refuses a step, and what the next run loads.
fn is_refused(
    stop: &impl Abort,
    rt: &HostRuntime,
    (folder, name): (&str, &str),
    fault: Fault,
    loaded: Result<u64, KeeperError>,
    number: u64,
) {
    let case = (name, fault);
    fs::write(rt, name, "64\n").expect(stop, "a file");
    let faulty = Faulty::new(rt, folder, fault);
    let mut keeper = FileKeeper::new(&faulty, name);
    loads(stop, &mut keeper, loaded, &case);
    saves(stop, &mut keeper, 128, Err(KeeperError), &case);
    drop(keeper);
    loads(stop, &mut FileKeeper::new(rt, name), Ok(number), &case);
}

// What a load and a save return whose runtime refuses a step. A row says what the load returns. The save fails, and the next run loads the old
// number if the step is the rename or an earlier one, and the new number if it is a later one.
const STEPS: [(Fault, Result<u64, KeeperError>, u64); 10] = [
    (Fault::Look, Err(KeeperError), 64),
    (Fault::Lock, Err(KeeperError), 64),
    (Fault::Open, Err(KeeperError), 64),
    (Fault::OpenFolder, Ok(64), 64),
    (Fault::Remove, Ok(64), 64),
    (Fault::Step(CREATE), Ok(64), 64),
    (Fault::Step(WRITE), Ok(64), 64),
    (Fault::Step(SYNC_FILE), Ok(64), 64),
    (Fault::Step(RENAME), Ok(64), 64),
    (Fault::Step(SYNC_FOLDER), Ok(64), 128),
];

/// Checks each step, for one name.
fn are_refused(stop: &impl Abort, rt: &HostRuntime, place: (&str, &str)) {
    for (fault, loaded, number) in STEPS {
        is_refused(stop, rt, place, fault, loaded, number);
    }
}

/// Removes what keepers leave of a name.
fn remove<R: Files + Alloc + Abort>(rt: &R) {
    for left in ["steps_number", "steps_number.lock"] {
        fs::remove_file(rt, left).expect(rt, "a file");
    }
}

// Each step is refused in turn, for a name in a folder and for one in the working folder.
#[test]
fn refused_steps(rt: HostRuntime) {
    let folder = "steps";
    begin(&rt, folder);
    are_refused(&rt, &rt, (folder, "steps/number"));
    are_refused(&rt, &rt, (".", "steps_number"));
    remove(&rt);
    end(&rt, folder);
}
