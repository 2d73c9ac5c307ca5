//! The lock of a number's file: a file beside it, which only one open at a time has locked.

use std::fs::{self, File, OpenFile, OpenOptions};
use std::io::{self, ErrorKind};
use std::rt::Files;

/// An open file that can be locked. Only one open of the file at a time has the lock, until that open is closed: at the latest when
/// its program ends, however it ends.
pub trait TryLock {
    /// Takes the lock, or fails if another open of the file has it. It never waits.
    fn try_lock(&self) -> io::Result<()>;
}

impl TryLock for File {
    fn try_lock(&self) -> io::Result<()> {
        Ok(File::try_lock(self)?)
    }
}

/// Returns whether the name belongs to a symbolic link.
pub(crate) fn is_link<R: Files>(rt: &R, name: &str) -> io::Result<bool> {
    match fs::symlink_metadata(rt, name) {
        Ok(found) => Ok(found.is_symlink()),
        Err(error) if error.kind() == ErrorKind::NotFound => Ok(false),
        Err(error) => Err(error),
    }
}

/// Opens the file NAME.lock and locks it. The file is made if it is missing, and is never written.
// NAME itself is another file after each save, so a lock on it would be lost. NAME.lock stays: if it were removed, a run that opened
// it before would lock a file that the next run doesn't find.
pub(crate) fn locked<R: Files + Alloc>(rt: &R, name: &str) -> io::Result<R::File>
where
    R::File: TryLock,
{
    locked_as(rt, name, OpenOptions::new().write(true).create(true))
}

/// Makes the file NAME.lock, which must be missing, and locks it.
pub(crate) fn locked_first<R: Files + Alloc>(rt: &R, name: &str) -> io::Result<R::File>
where
    R::File: TryLock,
{
    let file = locked_as(rt, name, OpenOptions::new().write(true).create_new(true))?;
    file.sync_all()?;
    Ok(file)
}

/// Opens the file NAME.lock, which must be there, and locks it.
pub(crate) fn locked_again<R: Files + Alloc>(rt: &R, name: &str) -> io::Result<R::File>
where
    R::File: TryLock,
{
    locked_as(rt, name, OpenOptions::new().write(true))
}

/// Opens the file NAME.lock in this way and locks it.
fn locked_as<R: Files + Alloc>(rt: &R, name: &str, how: &OpenOptions) -> io::Result<R::File>
where
    R::File: TryLock,
{
    let lock_name = format!(in rt.alloc(); "{name}.lock")?;
    if is_link(rt, lock_name.as_str())? {
        return Err(io::Error::from(ErrorKind::PermissionDenied));
    }
    let file = how.open(rt, lock_name.as_str())?;
    file.try_lock()?;
    Ok(file)
}
