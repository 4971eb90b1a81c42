//! Comparisons of the tests. Each stands here once, since a comparison in a test's own body is proved anew there,
//! beside all that the test has to let go.
use std::fmt::Debug;
use std::process::Abort;

/// The two are equal.
pub(crate) fn same<T: PartialEq + Debug>(rt: &impl Abort, found: &T, wanted: &T) {
    assert_eq!(rt; *found, *wanted);
}

/// The two are equal; a failure names the row.
pub(crate) fn same_in<T: PartialEq + Debug>(rt: &impl Abort, row: &str, found: &T, wanted: &T) {
    assert_eq!(rt; *found, *wanted, "{row}");
}

/// The bytes are those of a text.
pub(crate) fn reads(rt: &impl Abort, bytes: &[u8], wanted: &str) {
    assert_eq!(rt; bytes, wanted.as_bytes());
}

/// What stands behind a text with which the bytes begin.
pub(crate) fn behind<'a>(rt: &impl Abort, bytes: &'a [u8], text: &str) -> &'a [u8] {
    let (front, rest) = bytes.split_at(text.len().min(bytes.len()));
    reads(rt, front, text);
    rest
}

/// The bytes are those of these texts, one behind the other.
pub(crate) fn reads_all(rt: &impl Abort, bytes: &[u8], wanted: &[&str]) {
    let mut left = bytes;
    for text in wanted {
        left = behind(rt, left, text);
    }
    reads(rt, left, "");
}
