//! Reasons as lines of text.

use crate::places::{Place, line_of};
use crate::reason::Reason;
use crate::view::part_shown;
use std::alloc::{AllocError, Global};
use std::fmt::Write;

/// Puts a line of a text with a mark below it, under the name of its file.
pub fn put_place(
    out: &mut String,
    name: &str,
    text: &[u8],
    place: Place,
    width: usize,
) -> Result<(), AllocError> {
    let number = place.line;
    write!(out, "  {name}:{number}\n  | ")?;
    let shown = part_shown(line_of(text, number), place.column, width);
    for byte in shown.bytes {
        let is_plain = (b' '..=b'~').contains(byte);
        out.push(if is_plain { char::from(*byte) } else { '?' })?;
    }
    out.push_str("\n  | ")?;
    for _ in 0..shown.before {
        out.push(' ')?;
    }
    for _ in 0..shown.width {
        out.push('^')?;
    }
    out.push('\n')
}

/// The lines that explain a fault of a text: the name of its file, its line at fault with a mark, and the reason.
pub fn explained(
    alloc: Global,
    name: &str,
    text: &[u8],
    reason: &Reason,
) -> Result<String, AllocError> {
    let mut out = String::new(alloc);
    put_place(&mut out, name, text, reason.place, reason.width)?;
    let (why, remedy) = (reason.why, reason.remedy);
    write!(out, "  {why}; {remedy}\n")?;
    if let Some(other) = reason.other {
        put_place(&mut out, name, text, other.place, other.width)?;
        let why = other.why;
        write!(out, "  {why}\n")?;
    }
    Ok(out)
}
