//! Times of a year as text.
ghost use Rattle.bench_clock.specs.TimeText as spec;
ghost use Rattle.std.specs.Prelude.{◌≡◌, ◌<◌, ◌≤◌};

use crate::body::DAY;
use crate::time::{SECOND, YearTime};
use crate::utc_text::{digit, hours_text};

/// A day of a year, a second of it, and ticks of that second.
fn year_text_of(day: u32, second: u32, ticks: u32) -> [u8; 20]
    ensures { result ≡ spec.day_of_year_text day second ticks }
{
    let mut text = [0; 20];
    text[..4].copy_from_slice(&[digit(day / 100), digit(day / 10), digit(day), b':']);
    text[4..].copy_from_slice(&hours_text(second, ticks));
    text
}

impl YearTime {
    /// The time as text, DDD:HH:MM:SS and seven digits of a second behind a point; DDD is the day of the year, 001 its
    /// first. No memory is taken.
    pub fn text(&self) -> [u8; 20]
        ensures { result ≡ spec.year_text self.now.ticks }
    {
        let second = self.ticks / SECOND;
        year_text_of(
            (second / DAY + 1) as u32,
            (second % DAY) as u32,
            (self.ticks % SECOND) as u32,
        )
    }
}
