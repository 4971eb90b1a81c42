//! UTC times as text.
ghost use Rattle.bench_clock.specs.Calendar.{day_numbered};
ghost use Rattle.bench_clock.specs.TimeText as spec;
ghost use Rattle.std.specs.Prelude.{◌≡◌, ◌<◌, ◌≤◌};

use crate::body::{DAY, date_of};
use crate::time::{SECOND, UtcTime};

/// The last decimal digit of a number.
pub(crate) fn digit(number: u32) -> u8
    ensures { result ≡ spec.digit number }
{
    b'0' + (number % 10) as u8
}

/// The hours, minutes and seconds of a second of a day, and ticks of it.
#[inline]
pub(crate) fn hours_text(second: u32, ticks: u32) -> [u8; 16]
    ensures { result ≡ spec.hours_text second ticks }
{
    let (minutes, seconds) = (second / 60 % 60, second % 60);
    [
        digit(second / 36_000),
        digit(second / 3600),
        b':',
        digit(minutes / 10),
        digit(minutes),
        b':',
        digit(seconds / 10),
        digit(seconds),
        b'.',
        digit(ticks / 1_000_000),
        digit(ticks / 100_000),
        digit(ticks / 10_000),
        digit(ticks / 1000),
        digit(ticks / 100),
        digit(ticks / 10),
        digit(ticks),
    ]
}

/// A day, in front of a second of it.
#[inline]
fn date_text(day: u64) -> [u8; 11]
    requires { day ≤ 2932896 }
    ensures { result ≡ spec.date_text (day_numbered day) }
{
    let date = date_of(day);
    let (year, month, day) = (date.year as u32, u32::from(date.month), u32::from(date.day));
    [
        digit(year / 1000),
        digit(year / 100),
        digit(year / 10),
        digit(year),
        b'-',
        digit(month / 10),
        digit(month),
        b'-',
        digit(day / 10),
        digit(day),
        b'T',
    ]
}

/// A day, a second of it, and ticks of that second.
fn text_of(day: u64, second: u32, ticks: u32) -> [u8; 27]
    requires { day ≤ 2932896 }
    ensures { result ≡ spec.time_of_day_text (day_numbered day) second ticks }
{
    let mut text = [0; 27];
    text[..11].copy_from_slice(&date_text(day));
    text[11..].copy_from_slice(&hours_text(second, ticks));
    text
}

impl UtcTime {
    /// The time as text, YYYY-MM-DDTHH:MM:SS and seven digits of a second behind a point. No memory is taken.
    pub fn text(&self) -> [u8; 27]
        ensures { result ≡ spec.time_text self.now.ticks }
    {
        let second = self.ticks / SECOND;
        text_of(
            second / DAY,
            (second % DAY) as u32,
            (self.ticks % SECOND) as u32,
        )
    }
}
