//! Comparisons of the tests. Each stands here once, since a comparison in a test's own body is proved anew there,
//! beside all that the test has to let go.
use std::fmt::Debug;
use std::process::Abort;

/// The two are equal.
pub(crate) fn same<T: PartialEq + Debug>(rt: &impl Abort, found: &T, wanted: &T) {
    assert_eq!(rt; *found, *wanted);
}

/// The bytes are these.
pub(crate) fn are_bytes(rt: &impl Abort, bytes: &[u8], wanted: &[u8]) {
    assert_eq!(rt; bytes, wanted);
}

/// The items are these.
pub(crate) fn are<T: PartialEq + Debug>(rt: &impl Abort, items: &[T], wanted: &[T]) {
    assert_eq!(rt; items, wanted);
}

/// A call answered this, and wrote this text.
pub(crate) fn wrote<A: PartialEq + Debug + Drop>(
    rt: &impl Abort,
    found: (A, Vec<u8>),
    answer: A,
    text: &str,
) {
    same(rt, &found.0, &answer);
    are_bytes(rt, &found.1, text.as_bytes());
}
