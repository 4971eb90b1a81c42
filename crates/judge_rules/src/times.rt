//! Times in ticks of 0.1 µs, as they are written.
ghost use Rattle.judge_rules.specs.Times as spec;
ghost use Rattle.std.specs.List.{position_or_len};
ghost use Rattle.std.specs.Prelude.{◌≡◌, ◌≤◌, ◌<◌, ◌^◌, length, IfSome};

use numerals::spelled;

/// How many decimal places of a microsecond, a millisecond and a second are told in ticks.
const OF_MICROSECOND: usize = 1;

const OF_MILLISECOND: usize = 4;

const OF_SECOND: usize = 7;

/// How many digits stand before the point at most.
const DIGITS: usize = 10;

/// The ticks of 0.1 µs that a time with its unit spells, as `1.2s`, `350ms` or `12us`: one to ten digits, and perhaps a
/// point and more of them, down to 0.1 µs. `None` where it spells none.
#[tactic(auto, unfolding(crate::specs::Times::ticks_spelled))]
pub fn read_time(text: &[u8]) -> Option<u64>
    ensures { result ≡ spec.ticks_spelled text.now }
{
    if ends_in(text, b"us") {
        ticks_of(OF_MICROSECOND, without(text, 2))
    } else if ends_in(text, b"ms") {
        ticks_of(OF_MILLISECOND, without(text, 2))
    } else if ends_in(text, b"s") {
        ticks_of(OF_SECOND, without(text, 1))
    } else {
        None
    }
}

/// Whether a text ends in a unit.
fn ends_in(text: &[u8], unit: &[u8]) -> bool
    ensures { result ≡ spec.ends_in unit.now text.now }
{
    let (_, end) = text.split_at(text.len().saturating_sub(unit.len()));
    end == unit
}

/// A text without its last bytes.
fn without(text: &[u8], count: usize) -> &[u8]
    ensures { result.now ≡ spec.without count text.now }
{
    let (front, _) = text.split_at(text.len().saturating_sub(count));
    front
}

/// How many ticks a number of units of 10 ^ `places` ticks is.
fn ticks_of(places: usize, text: &[u8]) -> Option<u64>
    requires { places ≤ 7 }
    ensures { result ≡ spec.ticks_of places text.now }
{
    let (whole, decimals) = parts_at_point(text);
    let units = spelled(10, 1, DIGITS, whole)?;
    let ticks = decimal_ticks(places, decimals)?;
    let whole_ticks = units * scale(places);
    Some(whole_ticks + ticks)
}

/// Where the point stands, or the length where there is none.
fn point_at(text: &[u8]) -> usize
    ensures value { result ≡ position_or_len spec.is_point text.now }
    ensures within { result ≤ length text.now }
{
    for (i, byte) in text.iter().enumerate() {
        if *byte == b'.' {
            return i;
        }
    }
    text.len()
}

/// What stands in front of the point of a text, and what from the point on: nothing where there is none.
pub fn parts_at_point(text: &[u8]) -> (&[u8], &[u8])
    ensures front { result.0.now ≡ spec.whole_part text.now }
    ensures rest { result.1.now ≡ spec.decimal_part text.now }
{
    text.split_at(point_at(text))
}

/// How many ticks the decimal places behind a point are; none where there is no point.
fn decimal_ticks(places: usize, text: &[u8]) -> Option<u64>
    requires { places ≤ 7 }
    ensures value { result ≡ spec.decimal_ticks places text.now }
    ensures small { IfSome result (λ n. n < 2 ^ 52) }
{
    let Some((_, digits)) = text.split_first() else {
        return Some(0);
    };
    let number = spelled(10, 1, places, digits)?;
    Some(number * scale(places.saturating_sub(digits.len())))
}

/// How many ticks a unit with so many decimal places has.
fn scale(places: usize) -> u64
    requires { places ≤ 7 }
    ensures value { result ≡ 10 ^ places }
    ensures small { result ≤ 10 ^ 7 }
{
    10u64.pow(places as u32)
}
