//! Comparisons that end a test. Each is proved once, so a test that calls one is soon checked; a message of its own would make it slow.
use std::fmt::Debug;
use std::process::Abort;

/// Ends the test where the two differ.
pub(crate) fn assert_same<T: PartialEq + Debug>(rt: &impl Abort, left: &T, right: &T) {
    assert_eq!(rt; *left, *right);
}

/// Ends the test where the two differ, and shows at which case.
pub(crate) fn assert_same_at<T: PartialEq + Debug, P: Debug>(
    rt: &impl Abort,
    left: &T,
    right: &T,
    place: &P,
) {
    assert_eq!(rt; *left, *right, "at {place:?}");
}

/// Ends the test where this does not hold, and shows at which case.
pub(crate) fn assert_at<P: Debug>(rt: &impl Abort, holds: bool, place: &P) {
    assert!(rt; holds, "at {place:?}");
}
