//! Comparisons of the tests. Each stands here once, since a comparison in a test's own body is proved anew there,
//! beside all that the test has to let go.
use std::fmt::Debug;
use std::process::Abort;

/// The two are equal.
pub(crate) fn same<T: PartialEq + Debug>(rt: &impl Abort, found: &T, wanted: &T) {
    assert_eq!(rt; *found, *wanted);
}

/// The bytes are these.
pub(crate) fn are_bytes(rt: &impl Abort, bytes: &[u8], wanted: &[u8]) {
    same(rt, &bytes, &wanted);
}

/// The text is this.
pub(crate) fn reads(rt: &impl Abort, text: &str, wanted: &str) {
    same(rt, &text, &wanted);
}

/// Puts bytes behind a file.
pub(crate) fn put(rt: &impl Abort, file: &mut Vec<u8>, bytes: &[u8]) {
    file.extend_from_slice(bytes).expect(rt, "memory");
}
