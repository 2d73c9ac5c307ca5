//! What no clause says of a record beside a counter: an older copy of both places is told, and a counter that fails leaves the floors.

use super::{Beside, FINGERPRINT, LATER, NEW, OLD, copy};
use crate::tests::checks::is;
use crate::tests::folder::{begin, end};
use osc_context::{KeeperError, KeptNumbers, RecordKeeper};
use osc_file::{CountedRecord, MonotonicCounter, RecordTrouble, TryLock};
use std::process::Abort;
use std::rt::Files;

/// A counter that never goes back, and that fails at a count.
#[derive(Clone, Copy, Debug)]
struct Counting {
    count: u64,
    /// The last count: at it the counter can't advance.
    last: u64,
}

impl MonotonicCounter for Counting {
    fn count(&mut self) -> Result<u64, KeeperError> {
        Ok(self.count)
    }

    fn advance(&mut self) -> Result<u64, KeeperError> {
        if self.count >= self.last {
            return Err(KeeperError);
        }
        self.count += 1;
        Ok(self.count)
    }
}

/// Checks what a save of a counted record returns.
fn saves_counted<R: Files + Alloc>(
    rt: &impl Abort,
    keeper: &mut CountedRecord<'_, R, Counting>,
    next: KeptNumbers,
    wanted: Result<(), KeeperError>,
)
where
    R::File: TryLock,
{
    let floors = keeper.file().numbers();
    let saved = if floors.sender <= next.sender && floors.received <= next.received {
        keeper.save(next)
    } else {
        Err(KeeperError)
    };
    is(rt, &saved, &wanted, &next);
}

/// Makes a counted record whose counter begins at 1,000, saves twice, and returns the counter.
fn count_twice<R: Files + Alloc + Abort>(rt: &R, name: &str) -> Counting
where
    R::File: TryLock,
{
    let counter = Counting {
        count: 1000,
        last: u64::MAX,
    };
    let mut keeper = CountedRecord::first(rt, name, FINGERPRINT, counter).expect(rt, "a record");
    saves_counted(rt, &mut keeper, OLD, Ok(()));
    copy(rt, name, Beside::A, Beside::Copy);
    saves_counted(rt, &mut keeper, NEW, Ok(()));
    is(rt, &keeper.counter().count, &1002, &counter);
    *keeper.counter()
}

/// Opens a counted record.
fn counted<'a, R: Files + Alloc + Abort>(
    rt: &'a R,
    name: &str,
    counter: Counting,
) -> CountedRecord<'a, R, Counting>
where
    R::File: TryLock,
{
    CountedRecord::open(rt, name, FINGERPRINT, counter).expect(rt, "a record")
}

/// Checks that a counter which fails leaves the floors.
fn counter_fails<R: Files + Alloc + Abort>(rt: &R, name: &str, counter: Counting)
where
    R::File: TryLock,
{
    let stuck = Counting {
        last: counter.count,
        ..counter
    };
    let mut keeper = counted(rt, name, stuck);
    saves_counted(rt, &mut keeper, LATER, Err(KeeperError));
    is(
        rt,
        &keeper.file().trouble(),
        &Some(RecordTrouble::Counter),
        &stuck,
    );
    is(rt, &keeper.load(), &Ok(NEW), &stuck);
    is(rt, &keeper.file().numbers(), &NEW, &stuck);
}

/// Checks that the next run has what was written, and that its counter comes up to the generation, however far behind it was.
fn counter_comes_up<R: Files + Alloc + Abort>(rt: &R, name: &str, counter: Counting)
where
    R::File: TryLock,
{
    let mut keeper = counted(rt, name, counter);
    is(rt, &keeper.file().numbers(), &LATER, &counter);
    saves_counted(rt, &mut keeper, LATER, Ok(()));
    is(
        rt,
        &keeper.counter().count,
        &counter.count.saturating_add(2),
        &counter,
    );
}

/// Puts an older copy back in both places, and checks that it is told.
fn put_back<R: Files + Alloc + Abort>(rt: &R, name: &str, counter: Counting)
where
    R::File: TryLock,
{
    copy(rt, name, Beside::Copy, Beside::A);
    copy(rt, name, Beside::Copy, Beside::B);
    let why = CountedRecord::open(rt, name, FINGERPRINT, counter).err();
    is(rt, &why, &Some(RecordTrouble::Older), &counter);
}

// With a counter, an older copy of both places is told too.
#[test]
fn an_older_copy(rt: HostRuntime) {
    let (folder, name) = ("counted", "counted/record");
    begin(&rt, folder);
    let counter = count_twice(&rt, name);
    counter_fails(&rt, name, counter);
    counter_comes_up(&rt, name, counter);
    put_back(&rt, name, counter);
    end(&rt, folder);
}
