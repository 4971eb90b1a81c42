//! Comparisons of the tests. Each stands here once, since a comparison in a test's own body is proved anew there,
//! beside all that the test has to let go.
use std::alloc::Global;
use std::fmt::{Debug, Display};
use std::process::Abort;

/// The two are equal; a failure names the row.
pub(crate) fn same_in<T: PartialEq + Debug>(rt: &impl Abort, row: &str, found: &T, wanted: &T) {
    assert_eq!(rt; *found, *wanted, "{row}");
}

/// The bytes are these; a failure names the row.
pub(crate) fn are_bytes(rt: &impl Abort, row: &str, bytes: &[u8], wanted: &[u8]) {
    assert_eq!(rt; bytes, wanted, "{row}");
}

/// The text is this; a failure names the row.
pub(crate) fn reads(rt: &impl Abort, row: &str, text: &str, wanted: &str) {
    assert_eq!(rt; text, wanted, "{row}");
}

/// The text as which a value is printed.
pub(crate) fn printed<T: Display>(rt: &impl Abort, alloc: Global, value: &T) -> String {
    value.to_string(alloc).expect(rt, "memory")
}
