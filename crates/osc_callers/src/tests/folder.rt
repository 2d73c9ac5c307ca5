//! A test's own folder.

use std::fs;
use std::process::Abort;
use std::rt::Files;

/// Makes an empty folder. A run that failed may have left one.
pub fn begin(rt: &(impl Files + Alloc + Abort), folder: &str) {
    let _ = fs::remove_dir_all(rt, folder);
    fs::create_dir(rt, folder).expect(rt, "a new folder");
}

/// Removes the folder.
pub fn end(rt: &(impl Files + Alloc + Abort), folder: &str) {
    fs::remove_dir_all(rt, folder).expect(rt, "a folder");
}
