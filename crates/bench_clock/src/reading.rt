//! The body of a time packet, read.
ghost use Rattle.bench_clock.specs.Calendar.{day_numbered};
ghost use Rattle.bench_clock.specs.TimeBody as spec;
ghost use Rattle.jiff_core.specs.Date.{epoch_day};
ghost use Rattle.std.specs.Prelude.{◌≡◌, ◌<◌, ◌≤◌, ℕ, pos, length, Some, IfSome};
ghost use Rattle.std.specs.Str.{bytes_eq};

use crate::bcd::number_of;
use crate::body::{DAY, body_of};
use jiff_core::civil::Date;

/// The number of the day with this date, counted from 1 January 1970; None where the calendar has no such day, or an
/// earlier one.
fn day_of(year: u16, month: u8, day: u8) -> Option<u64>
    requires { year ≤ 20000 }
    ensures found { (n : ℕ) → n ≤ 2932896 → year ≡ (day_numbered n).year → month ≡ (day_numbered n).month
        → day ≡ (day_numbered n).day → result ≡ Some n }
    ensures small { IfSome result (λ n. n ≤ 2932896) }
{
    if month > 12 || day > 31 {
        return None;
    }
    match Date::new(year as i16, month as i8, day as i8) {
        Ok(date) => count_of(date),
        Err(_) => None,
    }
}

/// The number of a day, counted from 1 January 1970; None for an earlier one.
fn count_of(date: Date) -> Option<u64>
    ensures found { (n : ℕ) → epoch_day date ≡ pos n → result ≡ Some n }
    ensures small { IfSome result (λ n. n ≤ 2932896) }
{
    match u64::try_from(date.to_unix_epoch_day()) {
        Ok(day) => Some(day),
        Err(_) => None,
    }
}

/// The second that the digits of a body spell, if there is such a day and such a second of it.
fn spelled(body: &[u8]) -> Option<u64>
    requires { length body.now ≡ 12 }
    ensures found { (t : ℕ) → t < 253402300800 → body.now ≡ spec.body_of t → result ≡ Some t }
    ensures small { IfSome result (λ t. t < 253402300800) }
{
    let year = u16::from(number_of(body[11])) * 100 + u16::from(number_of(body[10]));
    let day = day_of(year, number_of(body[9]), number_of(body[8]))?;
    let hours = u64::from(number_of(body[7]));
    let minutes = u64::from(number_of(body[6]));
    let second = hours * 3600 + minutes * 60 + u64::from(number_of(body[5]));
    if second >= DAY {
        return None;
    }
    Some(day * DAY + second)
}

/// Whether this is the body of a second.
fn is_body_of(body: &[u8], second: u64) -> bool
    requires { second < 253402300800 }
    ensures { result ≡ bytes_eq body.now (spec.body_of second) }
{
    body == body_of(second).as_slice()
}

/// The UTC second of the body of a time packet, counted from 1970-01-01T00:00:00: the one for which `body_of` writes
/// these bytes. None for any other bytes, as those of another format.
pub(crate) fn read_second(body: &[u8]) -> Option<u64>
    ensures second { result ≡ spec.second_of body.now }
    ensures small { IfSome result (λ t. t < 253402300800) }
{
    if body.len() != 12 {
        return None;
    }
    match spelled(body) {
        Some(second) if is_body_of(body, second) => Some(second),
        _ => None,
    }
}
