//! The axis: its unit, its steps and what stands there.
ghost use Rattle.bench_draw.specs.Axis.{IsRound, unit_of};
ghost use Rattle.std.specs.Prelude.{◌≡◌, ◌<◌, ◌≤◌, ◌*◌, ◌+◌, ◌^◌, ℕ};

use crate::picture::Picture;
use crate::scale::{LEFT, Scale};
use bench_clock::TimeOfDay;
use bench_decode::Time;
use ch11_layout::StampKind;
use std::alloc::{AllocError, Global};
use std::str;

/// How many ticks of 0.1 µs a second has.
const SECOND: u64 = 10_000_000;

/// How many ticks a millisecond has.
const MILLISECOND: u64 = 10_000;

/// How many ticks a microsecond has.
const MICROSECOND: u64 = 10;

/// What the times of an axis are told in.
#[derive(Clone, Copy, Debug, PartialEq, Eq)]
pub enum Unit {
    Seconds,
    Milliseconds,
    Microseconds,
}

impl Unit {
    /// The unit for so many ticks.
    pub fn of(span: u64) -> Unit
        ensures { result ≡ unit_of span }
    {
        if span < MILLISECOND {
            Unit::Microseconds
        } else if span < SECOND {
            Unit::Milliseconds
        } else {
            Unit::Seconds
        }
    }

    /// How many ticks it has.
    fn ticks(self) -> u64 {
        match self {
            Unit::Seconds => SECOND,
            Unit::Milliseconds => MILLISECOND,
            Unit::Microseconds => MICROSECOND,
        }
    }

    /// The symbol of the unit, as the axis of a picture shows it.
    pub(crate) fn name(self) -> &'static str {
        match self {
            Unit::Seconds => "s",
            Unit::Milliseconds => "ms",
            Unit::Microseconds => "\u{b5}s",
        }
    }
}

/// A round step, in ticks, of which at most ten go into a span of ticks, and four at least if it has so many.
pub fn step_of(span: u64) -> u64
    ensures round { IsRound result }
    ensures at_most_ten { span < 11 * result }
    ensures at_least_four { 4 ≤ span → 4 * result ≤ span }
{
    let mut power = 1u64;
    'powers: while span / 55 >= power {
        power *= 10;
    }
    if span / 11 < power {
        power
    } else if span / 22 < power {
        2 * power
    } else {
        5 * power
    }
}

/// The first tick at or behind one that is a number of steps from tick 0.
pub fn first_step(begin: u64, step: u64) -> u64
    requires { 0 < step }
    ensures whole { begin + step < 2 ^ 64 → (count : ℕ) × (result ≡ step * count) }
    ensures behind { begin + step < 2 ^ 64 → begin ≤ result }
    ensures next { begin + step < 2 ^ 64 → result < begin + step }
{
    let over = begin % step;
    if over == 0 {
        begin
    } else {
        begin.saturating_add(step - over)
    }
}

/// What is known of the first message that is drawn: what its stamp is, and its time of day.
#[derive(Clone, Copy)]
pub(crate) struct Begin {
    pub(crate) kind: StampKind,
    pub(crate) day: Option<TimeOfDay>,
}

impl Begin {
    /// From where its time counts.
    fn origin(&self) -> &'static str {
        match self.kind {
            StampKind::TimeOfDay => "1970-01-01T00:00:00",
            StampKind::Counter | StampKind::Unknown => "tick 0 of the recording",
        }
    }
}

/// Draws the axis above the channels in the time of the recording: a line at each step from its tick 0 on down to a
/// place, and when the first message began, with the time of day if it is known.
pub(crate) fn draw_axis(
    alloc: Global,
    picture: &mut Picture,
    scale: &Scale,
    first: Begin,
    low: u64,
) -> Result<(), AllocError> {
    let end = scale.begin.saturating_add(scale.span);
    let unit = Unit::of(end);
    let step = step_of(scale.span);
    let least = first_step(scale.begin, step);
    for number in 0..=10u64 {
        let tick = least.saturating_add(step.saturating_mul(number));
        if tick <= end {
            let x = LEFT.saturating_add(scale.tenths(tick) / 10);
            let mut text = String::new(alloc);
            write!(
                text,
                "<path d=\"M{x} 82V{low}\" stroke=\"#e4e4e4\"/>\n<text x=\"{x}\" y=\"78\" class=\"t\">"
            )?;
            put_time(&mut text, unit, step, tick)?;
            text.push_str("</text>\n")?;
            picture.put(text.as_str())?;
        }
    }
    draw_begin(alloc, picture, scale, unit, first)
}

/// How many decimal places a second has at most, down to a tick.
const DECIMALS: usize = 7;

/// Puts a time in a unit, with as many decimals as the steps have.
pub(crate) fn put_time(
    text: &mut String,
    unit: Unit,
    step: u64,
    time: u64,
) -> Result<(), AllocError> {
    let mut part = unit.ticks();
    let whole = time / part.max(1);
    let mut rest = time % part.max(1);
    write!(text, "{whole}")?;
    for place in 0..DECIMALS {
        if part <= step || part < 10 {
            return Ok(());
        }
        part /= 10;
        let digit = rest / part.max(1);
        rest %= part.max(1);
        if place == 0 {
            text.push('.')?;
        }
        write!(text, "{digit}")?;
    }
    Ok(())
}

/// Puts a time of day, of which one with a date is UTC.
fn put_day(text: &mut String, time: &TimeOfDay) -> Result<(), AllocError> {
    let written = time.text();
    text.push_str(", ")?;
    text.push_str(str::from_utf8(written.as_bytes()).unwrap_or(""))?;
    match time {
        TimeOfDay::Utc(_) => text.push_str(" UTC"),
        TimeOfDay::OfYear(_) => Ok(()),
    }
}

/// Draws the unit, and when the first message that is drawn began.
fn draw_begin(
    alloc: Global,
    picture: &mut Picture,
    scale: &Scale,
    unit: Unit,
    first: Begin,
) -> Result<(), AllocError> {
    let (name, origin) = (unit.name(), first.origin());
    let begin = Time::of(scale.begin);
    let (seconds, ticks) = (begin.seconds, begin.ticks);
    let mut text = String::new(alloc);
    write!(
        text,
        "<text x=\"90\" y=\"60\">time in {name} from {origin}; the first message begins at {seconds}.{ticks:07} s"
    )?;
    if let Some(time) = first.day {
        put_day(&mut text, &time)?;
    }
    text.push_str("</text>\n")?;
    picture.put(text.as_str())
}
