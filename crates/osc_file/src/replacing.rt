//! Puts a file in the place of another, in one step or not at all.

ghost use Rattle.std.specs.Prelude.{◌≡◌, ◌<◌, IfSome, codes, length};
ghost use Rattle.std.specs.Path.{path_parent};

use std::fs::{self, File, OpenFile};
use std::io::{self, ErrorKind, Write};
use std::path::Path;
use std::rt::Files;

/// Replaces what the file holds with this text.
// NAME.new takes the name only once its text is on the disk, and a rename is one step (POSIX, rename). Whenever this stops, NAME is
// the old file, or missing as before, or the new file. The folder holds the name, so without a sync of the folder a power cut may
// bring the old file back after Ok. `fs::open` opens a folder for reading, and `sync_all` syncs it. The folder is opened before the
// rename, so that after the rename only the sync can fail.
pub(crate) fn replace<R: Files + Alloc>(rt: &R, name: &str, text: &str) -> io::Result<()> {
    let new_name = format!(in rt.alloc(); "{name}.new")?;
    let folder = fs::open(rt, folder_of(name))?;
    let mut file = made_anew(rt, new_name.as_str())?;
    file.write_all(text.as_bytes())?;
    file.sync_all()?;
    fs::rename(rt, new_name.as_str(), name)?;
    folder.sync_all()
}

/// Makes a new file of this name, in place of what an interrupted save left there. A link there is removed, and not followed.
fn made_anew<R: Files>(rt: &R, name: &str) -> io::Result<R::File> {
    match fs::remove_file(rt, name) {
        Err(error) if error.kind() != ErrorKind::NotFound => Err(error),
        _ => File::create_new(rt, name),
    }
}

/// Returns the folder that holds this name.
fn folder_of(name: &str) -> &str
    ensures above { IfSome (path_parent name.now) (λ folder. 0 < length folder → result.now ≡ folder) }
    ensures here { IfSome (path_parent name.now) (λ folder. length folder ≡ 0 → result.now ≡ codes ".") }
{
    match Path::new(name).parent() {
        Some(folder) if !folder.as_str().is_empty() => folder.as_str(),
        _ => ".",
    }
}
