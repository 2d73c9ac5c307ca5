//! A runtime whose calls on files fail: one call, one step of a save, or a step and all that come after it.

ghost use Rattle.std.specs.Prelude.{IsErr};

use osc_file::TryLock;
use std::alloc::{Allocator, Global};
use std::cell::Cell;
use std::fs::{self, File, Metadata, OpenFile, OpenOptions};
use std::io::{self, ErrorKind, Read, Seek, SeekFrom, Write};
use std::rt::Files;

// A step is each call that changes a file or a folder, or syncs it. A save takes these for each file that it writes, so its second file
// begins with step 6.
pub const CREATE: u64 = 1;

pub const WRITE: u64 = 2;

pub const SYNC_FILE: u64 = 3;

pub const RENAME: u64 = 4;

pub const SYNC_FOLDER: u64 = 5;

/// What fails.
#[derive(Clone, Copy, Debug)]
pub enum Fault {
    Nothing,
    /// The look whether a name is a link's.
    Look,
    Lock,
    Open,
    OpenFolder,
    Remove,
    /// This step alone.
    Step(u64),
    /// This step, which goes so, and all that come after it.
    From(u64, Stop),
}

/// How a step goes at which everything stops.
#[derive(Clone, Copy, Debug)]
pub enum Stop {
    /// It isn't done.
    Before,
    /// A write, or the rename of a file system that has no rename in one step, is half done. Other steps aren't done.
    Half,
    /// It is done, but not confirmed.
    After,
}

/// What is done of a step.
#[derive(Clone, Copy)]
enum Part {
    All,
    /// Nothing, or what `Stop` says.
    Stopped(Stop),
}

#[derive(Drop)]
pub struct Faulty<'a> {
    rt: &'a HostRuntime,
    /// The folder that holds the files.
    folder: &'a str,
    fault: Cell<Fault>,
    /// How many steps were called.
    passed: Cell<u64>,
}

#[derive(Drop)]
pub struct FaultyFile {
    file: File,
    is_locked: bool,
    write: Part,
    sync: Part,
}

impl<'a> Faulty<'a> {
    /// Returns a runtime over the files of the folder, in which this fails.
    pub fn new(rt: &'a HostRuntime, folder: &'a str, fault: Fault) -> Faulty<'a> {
        Faulty {
            rt,
            folder,
            fault: Cell::new(fault),
            passed: Cell::new(0),
        }
    }

    /// From here on nothing fails.
    pub fn mend(&self) {
        self.fault.set(Fault::Nothing);
    }

    /// What is done of the step that comes at this place from here on.
    fn part(&self, place: u64) -> Part {
        let step = self.passed.get().saturating_add(place);
        match self.fault.get() {
            Fault::Step(failing) if step == failing => Part::Stopped(Stop::Before),
            Fault::From(first, stop) if step == first => Part::Stopped(stop),
            Fault::From(first, _) if step > first => Part::Stopped(Stop::Before),
            _ => Part::All,
        }
    }

    /// Goes on behind so many steps.
    fn pass(&self, steps: u64) {
        self.passed.set(self.passed.get().saturating_add(steps));
    }

    /// Makes a new file, which knows its next two steps.
    fn create(&self, how: &OpenOptions, path: &str) -> io::Result<FaultyFile> {
        let (write, sync) = (self.part(WRITE), self.part(SYNC_FILE));
        if !matches!(self.part(CREATE), Part::All | Part::Stopped(Stop::After)) {
            return stopped();
        }
        self.pass(SYNC_FILE);
        Ok(FaultyFile {
            file: how.open(self.rt, path)?,
            is_locked: false,
            write,
            sync,
        })
    }

    /// Puts the first half of the one file in the other.
    fn put_half(&self, from: &str, to: &str) {
        if let Ok(text) = fs::read(self.rt, from) {
            let _ = fs::write(self.rt, to, &text[..text.len() / 2]);
        }
    }
}

fn stopped<T>() -> io::Result<T>
    ensures { IsErr result }
{
    Err(io::Error::from(ErrorKind::Other))
}

fn unsupported<T>() -> io::Result<T> {
    Err(io::Error::from(ErrorKind::Unsupported))
}

impl Alloc for Faulty<'_> {
    type A = Global;

    fn alloc(&self) -> Global {
        self.rt.alloc()
    }
}

impl Files for Faulty<'_> {
    type File = FaultyFile;

    type Dir = FaultyFile;

    fn open_file(&self, how: &OpenOptions, path: &str) -> io::Result<FaultyFile> {
        if how.asks_create_new() {
            return self.create(how, path);
        }
        let is_folder = path == self.folder;
        match self.fault.get() {
            Fault::OpenFolder if is_folder => return stopped(),
            Fault::Open if !is_folder && !how.asks_write() => return stopped(),
            _ => {}
        }
        Ok(FaultyFile {
            file: how.open(self.rt, path)?,
            is_locked: matches!(self.fault.get(), Fault::Lock),
            write: Part::All,
            // The folder is opened before the first step.
            sync: if is_folder {
                self.part(SYNC_FOLDER)
            } else {
                Part::All
            },
        })
    }

    fn rename(&self, from: &str, to: &str) -> io::Result<()> {
        let part = self.part(1);
        // The folder knows its own step.
        self.pass(2);
        match part {
            Part::All => self.rt.rename(from, to),
            Part::Stopped(Stop::Before) => stopped(),
            Part::Stopped(Stop::Half) => {
                self.put_half(from, to);
                stopped()
            }
            Part::Stopped(Stop::After) => {
                self.rt.rename(from, to)?;
                stopped()
            }
        }
    }

    fn open_dir(&self, _path: &str) -> io::Result<FaultyFile> {
        unsupported()
    }

    fn metadata(&self, _path: &str) -> io::Result<Metadata> {
        unsupported()
    }

    fn symlink_metadata(&self, path: &str) -> io::Result<Metadata> {
        if matches!(self.fault.get(), Fault::Look) {
            return stopped();
        }
        self.rt.symlink_metadata(path)
    }

    fn copy(&self, _from: &str, _to: &str) -> io::Result<u64> {
        unsupported()
    }

    // Most often there is nothing to remove, so it is no step.
    fn remove_file(&self, path: &str) -> io::Result<()> {
        if matches!(self.fault.get(), Fault::Remove) {
            return stopped();
        }
        self.rt.remove_file(path)
    }

    fn create_dir(&self, _path: &str) -> io::Result<()> {
        unsupported()
    }

    fn remove_dir(&self, _path: &str) -> io::Result<()> {
        unsupported()
    }

    fn remove_dir_all<B: Allocator>(&self, _alloc: B, _path: &str) -> io::Result<()> {
        unsupported()
    }
}

impl OpenFile for FaultyFile {
    fn metadata(&self) -> io::Result<Metadata> {
        self.file.metadata()
    }

    fn set_len(&self, size: u64) -> io::Result<()> {
        self.file.set_len(size)
    }

    fn sync_all(&self) -> io::Result<()> {
        match self.sync {
            Part::All => self.file.sync_all(),
            Part::Stopped(_) => stopped(),
        }
    }

    fn sync_data(&self) -> io::Result<()> {
        self.sync_all()
    }
}

impl TryLock for FaultyFile {
    fn try_lock(&self) -> io::Result<()> {
        if self.is_locked {
            return stopped();
        }
        TryLock::try_lock(&self.file)
    }
}

impl Read for FaultyFile {
    fn read(&mut self, buf: &mut [u8]) -> io::Result<usize> {
        self.file.read(buf)
    }
}

impl Write for FaultyFile {
    fn write(&mut self, buf: &[u8]) -> io::Result<usize> {
        match self.write {
            Part::All => self.file.write(buf),
            Part::Stopped(Stop::Before) => stopped(),
            Part::Stopped(Stop::Half) => {
                self.file.write_all(&buf[..buf.len() / 2])?;
                stopped()
            }
            Part::Stopped(Stop::After) => {
                self.file.write_all(buf)?;
                stopped()
            }
        }
    }

    fn flush(&mut self) -> io::Result<()> {
        self.file.flush()
    }
}

impl Seek for FaultyFile {
    fn seek(&mut self, to: SeekFrom) -> io::Result<u64> {
        self.file.seek(to)
    }
}
