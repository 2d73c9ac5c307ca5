//! Checks that several tests make.

use std::fmt::Debug;
use std::process::Abort;

/// Checks that what a case found is what it wants.
pub fn is<T: PartialEq + Debug>(rt: &impl Abort, found: &T, wanted: &T, case: &impl Debug) {
    assert_eq!(rt; found, wanted, "{case:?}");
}
