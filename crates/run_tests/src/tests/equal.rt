//! Comparisons of the tests. Each stands here once, since a comparison in a test's own body is proved anew there,
//! beside all that the test has to let go.
use std::alloc::Global;
use std::fmt::{Debug, Display};
use std::process::Abort;

/// The two are equal; a failure names the row.
pub(crate) fn same_in<T: PartialEq + Debug>(rt: &impl Abort, row: &str, found: &T, wanted: &T) {
    assert_eq!(rt; *found, *wanted, "{row}");
}

/// A value is printed as this text.
pub(crate) fn prints<T: Display>(rt: &impl Abort, alloc: Global, value: &T, wanted: &str) {
    let text = value.to_string(alloc).expect(rt, wanted);
    assert_eq!(rt; text.as_str(), wanted);
}
