//! Begins of frames as lines over the lanes of a channel.

use crate::axis::{Unit, put_time};
use crate::picture::Picture;
use crate::rhythm::Frames;
use crate::scale::{LEFT, Scale};
use std::alloc::{AllocError, Global};

/// Draws a line over the lanes of a channel, from one height to another, where a frame begins, and the period of the
/// frames under the name of the channel.
pub(crate) fn draw_frames(
    alloc: Global,
    picture: &mut Picture,
    scale: &Scale,
    top: u64,
    low: u64,
    frames: &Frames,
) -> Result<(), AllocError> {
    draw_period(alloc, picture, top, frames.period)?;
    for begin in frames.begins.iter() {
        let left = scale.tenths(*begin);
        let (x, part) = (LEFT.saturating_add(left / 10), left % 10);
        let text = format!(in alloc; "<path class=\"f\" d=\"M{x}.{part} {top}V{low}\"/>\n")?;
        picture.put(text.as_str())?;
    }
    Ok(())
}

/// Draws the period in the unit that it reaches.
fn draw_period(
    alloc: Global,
    picture: &mut Picture,
    top: u64,
    period: u64,
) -> Result<(), AllocError> {
    let unit = Unit::of(period);
    let least = least_step(unit);
    let rounded = (period.saturating_add(least / 2) / least.max(1)).saturating_mul(least);
    let y = top.saturating_add(24);
    let mut text = String::new(alloc);
    write!(text, "<text x=\"8\" y=\"{y}\" class=\"g\">")?;
    put_time(&mut text, unit, tenfold_in(rounded, least), rounded)?;
    let name = unit.name();
    write!(text, " {name}</text>\n")?;
    picture.put(text.as_str())
}

/// How many ticks the last decimal place of a period has: a millisecond of seconds, ten microseconds of milliseconds, a
/// tick of microseconds.
fn least_step(unit: Unit) -> u64 {
    match unit {
        Unit::Seconds => 10_000,
        Unit::Milliseconds => 100,
        Unit::Microseconds => 1,
    }
}

/// The step, one of ticks or a power of ten of these, that goes into a time whole, so that no decimal at its end is 0.
fn tenfold_in(time: u64, least: u64) -> u64 {
    let mut step = least;
    for _ in 0..7 {
        let next = step.saturating_mul(10);
        if next == 0 || time % next != 0 {
            return step;
        }
        step = next;
    }
    step
}
