//! Comparisons of the tests. Each stands here once, since a comparison in a test's own body is proved anew there,
//! beside all that the test has to let go.
use std::alloc::Global;
use std::fmt::{Debug, Display};
use std::process::Abort;

/// The two are equal.
pub(crate) fn same<T: PartialEq + Debug>(rt: &impl Abort, found: &T, wanted: &T) {
    assert_eq!(rt; *found, *wanted);
}

/// The two are equal; a failure names the row.
pub(crate) fn same_in<T: PartialEq + Debug>(rt: &impl Abort, row: &str, found: &T, wanted: &T) {
    assert_eq!(rt; *found, *wanted, "{row}");
}

/// The bytes are these.
pub(crate) fn are_bytes(rt: &impl Abort, bytes: &[u8], wanted: &[u8]) {
    same(rt, &bytes, &wanted);
}

/// The text is this; a failure names the row.
pub(crate) fn reads(rt: &impl Abort, row: &str, text: &str, wanted: &str) {
    same_in(rt, row, &text, &wanted);
}

/// The value is printed as this text; a failure names the row.
pub(crate) fn prints<T: Display>(
    rt: &impl Abort,
    alloc: Global,
    row: &str,
    value: &T,
    wanted: &str,
) {
    let text = format!(in alloc; "{value}").expect(rt, "memory");
    reads(rt, row, text.as_str(), wanted);
}

/// A fault is printed as this text, and none as `none`; a failure names the row.
pub(crate) fn is_fault<T: Copy + Display>(
    rt: &impl Abort,
    alloc: Global,
    row: &str,
    found: Option<T>,
    wanted: &str,
) {
    match found {
        Some(fault) => prints(rt, alloc, row, &fault, wanted),
        None => reads(rt, row, "none", wanted),
    }
}

/// Each value of a table is printed as the letters beside it.
pub(crate) fn each_prints<T: Display>(rt: &impl Abort, alloc: Global, table: &[(T, &str)]) {
    for (value, letters) in table {
        prints(rt, alloc, letters, value, letters);
    }
}
