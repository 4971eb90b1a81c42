//! The body of a time packet, written (IRIG 106-17 Chapter 11, time data packets, Format 1; its layout is a profile of
//! ours).
ghost use Rattle.bench_clock.specs.Calendar.{day_numbered};
ghost use Rattle.bench_clock.specs.TimeBody as spec;
ghost use Rattle.std.specs.Prelude.{◌≡◌, ◌<◌, ◌≤◌, pos};

use crate::bcd::two_digits;
use jiff_core::civil::{Date, is_leap_year};

/// The seconds of a day.
pub(crate) const DAY: u64 = 86_400;

/// The date so many days behind 1 January 1970.
pub(crate) fn date_of(day: u64) -> Date
    requires { day ≤ 2932896 }
    ensures year { result.year ≡ pos (day_numbered day).year }
    ensures month { result.month ≡ (day_numbered day).month }
    ensures day { result.day ≡ (day_numbered day).day }
{
    Date::from_unix_epoch_day(day as i64).unwrap()
}

/// A day and a second of it.
fn body_at(day: u64, second: u32) -> [u8; 12]
    requires day { day ≤ 2932896 }
    requires second { second < 86400 }
    ensures { result ≡ spec.time_body (day_numbered day) second }
{
    let date = date_of(day);
    let leap = if is_leap_year(date.year) { 3 } else { 2 };
    let year = date.year as u16;
    [
        0x30,
        leap,
        0,
        0,
        0,
        two_digits((second % 60) as u8),
        two_digits((second / 60 % 60) as u8),
        two_digits((second / 3600) as u8),
        two_digits(date.day),
        two_digits(date.month),
        two_digits((year % 100) as u8),
        two_digits((year / 100) as u8),
    ]
}

/// The body of the time packet of a UTC second, which is counted from 1970-01-01T00:00:00: a word for time source and
/// format, then hundredths, seconds, minutes, hours, day, month and year in binary coded decimals. Condition: the
/// second is of the years 1970 to
/// 9999.
pub fn body_of(second: u64) -> [u8; 12]
    requires { second < 253402300800 }
    ensures { result ≡ spec.body_of second }
{
    body_at(second / DAY, (second % DAY) as u32)
}
