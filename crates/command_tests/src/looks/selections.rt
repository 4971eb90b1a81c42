//! Bounds that no message reaches, as they are written, worked out by hand.
use crate::looks::equal::same_in;
use bench_select::{Bound, read_bound};
use std::process::Abort;

/// A text is this bound.
fn is_bound(rt: &impl Abort, text: &str, wanted: Bound) {
    same_in(rt, text, &read_bound(text.as_bytes()), &Some(wanted));
}

#[test]
fn bounds_are_read(rt: HostRuntime) {
    is_bound(&rt, "9999999999", Bound::Number(9_999_999_999));
    let last = Bound::Time(99_999_999_999_999_999);
    is_bound(&rt, "9999999999.9999999s", last);
}
