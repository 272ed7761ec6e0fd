//! How the tests compare. A comparison within a test costs its proof a second or more, and a call costs next to nothing.

use std::fmt::Debug;
use std::process::Abort;

/// Both are equal.
pub(crate) fn same<T: Copy + PartialEq + Debug>(rt: &impl Abort, got: T, wanted: T) {
    assert_eq!(rt; got, wanted);
}

/// It is so.
pub(crate) fn holds(rt: &impl Abort, fact: bool) {
    assert!(rt; fact);
}
