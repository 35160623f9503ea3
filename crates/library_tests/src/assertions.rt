//! What a test asserts, as calls that promise nothing. A test is proved safe before it runs, in a fraction of the time
//! where it calls these than where it asserts by itself. A failure names the line of the test.

use std::fmt::Debug;
use std::process::Abort;

pub fn holds(rt: &impl Abort, fact: bool) {
    assert!(rt; fact);
}

/// The last tells of which case it is.
pub fn holds_at(rt: &impl Abort, fact: bool, case: &impl Debug) {
    assert!(rt; fact, "at {case:?}");
}

pub fn equal<T: PartialEq + Debug>(rt: &impl Abort, found: &T, wanted: &T) {
    assert_eq!(rt; found, wanted);
}
