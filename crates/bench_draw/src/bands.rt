//! Names over time, as bands.

use crate::canvas::Canvas;
use crate::plot::{BAND, Column};
use crate::scale::{LEFT, WIDTH};
use signal_dictionary::Kind;
use signal_values::{Reading, put_reading};
use std::alloc::AllocError;
use std::str;

/// How many pixels a letter of a name takes, and what stands beside a name.
const LETTER: u64 = 6;

/// A number that stands from a pixel on.
#[derive(Clone, Copy)]
struct Band {
    begin: u64,
    number: u32,
}

/// The color of a number: eight of them take turns.
fn color(number: u32) -> &'static str {
    match number % 8 {
        0 => "#dfe3e8",
        1 => "#bfe0c8",
        2 => "#f8dca5",
        3 => "#c9d4f3",
        4 => "#f3c6c8",
        5 => "#c3e5ec",
        6 => "#e3cdec",
        _ => "#e2e0a8",
    }
}

/// Draws the names of a signal under a place: each stands until the next.
pub(crate) fn put_bands(
    canvas: &mut Canvas<'_>,
    kind: &Kind,
    top: u64,
    columns: &[Column],
) -> Result<(), AllocError> {
    let mut now = None;
    for (pixel, column) in columns.iter().enumerate() {
        let x = LEFT.saturating_add(pixel as u64);
        let next = behind(now, x, *column);
        if let Some(band) = now
            && !is_same(band, next)
        {
            put_band(canvas, kind, top, band, x)?;
        }
        now = next;
    }
    match now {
        Some(band) => put_band(canvas, kind, top, band, LEFT + WIDTH),
        None => Ok(()),
    }
}

/// Whether a band goes on.
fn is_same(band: Band, next: Option<Band>) -> bool {
    match next {
        Some(next) => next.begin == band.begin,
        None => false,
    }
}

/// The band behind a pixel, in front of which another stood, if any.
fn behind(before: Option<Band>, x: u64, column: Column) -> Option<Band> {
    if column.ended {
        return None;
    }
    let Some(span) = column.span else {
        return before;
    };
    match before {
        Some(band) if band.number == span.last => before,
        _ => Some(Band {
            begin: x,
            number: span.last,
        }),
    }
}

/// Draws a band up to a pixel, with its name where it has the room and where the mouse rests on it.
fn put_band(
    canvas: &mut Canvas<'_>,
    kind: &Kind,
    top: u64,
    band: Band,
    end: u64,
) -> Result<(), AllocError> {
    let (x, wide) = (band.begin, end.saturating_sub(band.begin));
    let fill = color(band.number);
    let mut told = Vec::new(canvas.alloc);
    put_reading(&mut told, kind, Reading::Named(band.number))?;
    let name = str::from_utf8(told.as_slice()).unwrap_or("");
    let mut text = String::new(canvas.alloc);
    write!(
        text,
        "<rect x=\"{x}\" y=\"{top}\" width=\"{wide}\" height=\"{BAND}\" fill=\"{fill}\"><title>{name}</title></rect>\n"
    )?;
    if wide
        > LETTER
            .saturating_mul(name.len() as u64)
            .saturating_add(LETTER)
    {
        let (at, y) = (x.saturating_add(3), top.saturating_add(13));
        write!(text, "<text x=\"{at}\" y=\"{y}\">{name}</text>\n")?;
    }
    canvas.picture.put(text.as_str())
}
