//! The body of a time packet with the day of the year, read.
ghost use Rattle.bench_clock.specs.TimeBody as spec;
ghost use Rattle.std.specs.Prelude.{◌≡◌, ◌<◌, ◌≤◌, ℕ, length, Some, IfSome};
ghost use Rattle.std.specs.Str.{bytes_eq};

use crate::bcd::{number_of, two_digits};
use crate::body::DAY;

/// The seconds of a year.
pub(crate) fn year_seconds(leap: bool) -> u64
    ensures { result ≡ spec.year_seconds leap }
{
    if leap { 31_622_400 } else { 31_536_000 }
}

/// The body of a second of a year, which is counted from its begin.
fn year_body(leap: bool, second: u32) -> [u8; 10]
    requires { second < 31622400 }
    ensures { result ≡ spec.year_body leap second }
{
    let day = second / 86_400 + 1;
    [
        0x30,
        if leap { 1 } else { 0 },
        0,
        0,
        0,
        two_digits((second % 60) as u8),
        two_digits((second / 60 % 60) as u8),
        two_digits((second % 86_400 / 3600) as u8),
        two_digits((day % 100) as u8),
        (day / 100) as u8,
    ]
}

/// The second of a year that the digits of a body spell, if there is such a second.
fn spelled(body: &[u8], leap: bool) -> Option<u64>
    requires { length body.now ≡ 10 }
    ensures found { (t : ℕ) → t < spec.year_seconds leap → body.now ≡ spec.year_body leap t → result ≡ Some t }
    ensures small { IfSome result (λ t. t < spec.year_seconds leap) }
{
    let day = u64::from(body[9]) * 100 + u64::from(number_of(body[8]));
    let hours = u64::from(number_of(body[7]));
    let minutes = u64::from(number_of(body[6]));
    let second = hours * 3600 + minutes * 60 + u64::from(number_of(body[5]));
    let behind = day.saturating_sub(1) * DAY + second;
    if behind < year_seconds(leap) {
        Some(behind)
    } else {
        None
    }
}

/// Whether this is the body of a second of a year.
fn is_year_body(body: &[u8], leap: bool, second: u64) -> bool
    requires { second < 31622400 }
    ensures { result ≡ bytes_eq body.now (spec.year_body leap second) }
{
    body == year_body(leap, second as u32).as_slice()
}

/// The second of a year that has this body.
pub(crate) fn read_year_second(body: &[u8], leap: bool) -> Option<u64>
    requires { length body.now ≡ 10 }
    ensures second { result ≡ spec.year_second_of leap body.now }
    ensures small { IfSome result (λ t. t < spec.year_seconds leap) }
{
    match spelled(body, leap) {
        Some(second) if is_year_body(body, leap, second) => Some(second),
        _ => None,
    }
}
