//! UTC times as texts.
ghost use Rattle.bench_clock.specs.Calendar.{day_numbered};
ghost use Rattle.bench_clock.specs.TimeText.{digit};
ghost use Rattle.bench_complete.specs.UtcText.{second_text};
ghost use Rattle.jiff_core.specs.Date.{epoch_day};
ghost use Rattle.std.specs.Prelude.{◌≡◌, ◌/◌, ◌<◌, ◌≤◌, ℕ, pos, length, Some, IfSome, option_map};
ghost use Rattle.std.specs.Str.{bytes_eq};

use crate::additions::UtcSecond;
use bench_clock::UtcTime;
use jiff_core::civil::Date;

/// The number of two decimal digits.
fn pair(tens: u8, ones: u8) -> u64
    ensures number { (n : ℕ) → n < 100 → tens ≡ digit (n / 10) → ones ≡ digit n → result ≡ n }
    ensures small { result ≤ 2277 }
{
    u64::from(tens.saturating_sub(b'0')) * 10 + u64::from(ones.saturating_sub(b'0'))
}

/// The number of a day of the years 1970 to 2099, counted from 1 January 1970; None for any other.
fn count_of(date: Date) -> Option<u64>
    ensures found { (n : ℕ) → n < 47482 → epoch_day date ≡ pos n → result ≡ Some n }
    ensures small { IfSome result (λ n. n < 47482) }
{
    match u64::try_from(date.to_unix_epoch_day()) {
        Ok(day) if day < 47_482 => Some(day),
        _ => None,
    }
}

/// The number of the day with this date, counted from 1 January 1970; None where the calendar has no such day of the
/// years 1970 to 2099.
fn day_of(year: u64, month: u64, day: u64) -> Option<u64>
    ensures found { (n : ℕ) → n < 47482 → year ≡ (day_numbered n).year → month ≡ (day_numbered n).month
        → day ≡ (day_numbered n).day → result ≡ Some n }
    ensures small { IfSome result (λ n. n < 47482) }
{
    if year > 9999 || month > 12 || day > 31 {
        return None;
    }
    match Date::new(year as i16, month as i8, day as i8) {
        Ok(date) => count_of(date),
        Err(_) => None,
    }
}

/// The second that the digits of a text spell, if there is such a day and such a second of it.
fn spelled(text: &[u8]) -> Option<u64>
    requires { length text.now ≡ 19 }
    ensures found { (s : ℕ) → s < 4102444800 → text.now ≡ second_text s → result ≡ Some s }
    ensures small { IfSome result (λ s. s < 4102444800) }
{
    let year = pair(text[0], text[1]) * 100 + pair(text[2], text[3]);
    let day = day_of(year, pair(text[5], text[6]), pair(text[8], text[9]))?;
    let hours = pair(text[11], text[12]);
    let minutes = pair(text[14], text[15]);
    let second = hours * 3600 + minutes * 60 + pair(text[17], text[18]);
    if second >= 86_400 {
        return None;
    }
    Some(day * 86_400 + second)
}

/// Whether this is the text of a second.
fn is_text_of(text: &[u8], second: u64) -> bool
    requires { second < 4102444800 }
    ensures { result ≡ bytes_eq text.now (second_text second) }
{
    let written = UtcTime {
        ticks: second * 10_000_000,
    }
    .text();
    text == &written[..19]
}

impl UtcSecond {
    /// The second of a text YYYY-MM-DDTHH:MM:SS of the years 1970 to 2099; None for another text.
    pub fn read(text: &str) -> Option<UtcSecond>
        ensures found { (s : ℕ) → s < 4102444800 → text.now ≡ second_text s
            → option_map (λ u. u.second) result ≡ Some s }
        ensures written { IfSome result (λ u. text.now ≡ second_text u.second) }
    {
        let bytes = text.as_bytes();
        if bytes.len() != 19 {
            return None;
        }
        match spelled(bytes) {
            Some(second) if is_text_of(bytes, second) => Some(UtcSecond { second }),
            _ => None,
        }
    }
}
