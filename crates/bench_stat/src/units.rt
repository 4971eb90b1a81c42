//! Times and rates as people read them.
ghost use Rattle.bench_clock.specs.Time.{time_of};
ghost use Rattle.bench_stat.specs.UnitText as spec;
ghost use Rattle.std.specs.Io.KnownBytes.{Appends};
ghost use Rattle.std.specs.Prelude.{◌≡◌, ◌/◌, ◌%◌, OnOk, option_map};

use bench_clock::TimeOfDay;
use std::io;
use std::io::Write;

/// How many ticks of 0.1 µs a millisecond and a second have.
const MILLISECOND: u64 = 10_000;

const SECOND: u64 = 10_000_000;

/// Writes a time in ticks as µs, ms or s by its size.
#[tactic(auto, unfolding(crate::specs::UnitText::time_text))]
pub(crate) fn write_time<W: Write>(out: &mut W, ticks: u64) -> io::Result<()>
    ensures { OnOk result (Appends (W.contents out.old) (W.contents out.new) (spec.time_text ticks)) }
{
    if ticks < MILLISECOND {
        let (whole, part) = tenths(ticks);
        write!(out, "{whole}.{part} us")
    } else if ticks < SECOND {
        let (whole, part) = (ticks / MILLISECOND, ticks % MILLISECOND);
        write!(out, "{whole}.{part:04} ms")
    } else {
        let (whole, part) = (ticks / SECOND, ticks % SECOND);
        write!(out, "{whole}.{part:07} s")
    }
}

/// Writes a time of day, and in place of none this text.
pub(crate) fn write_time_of_day<W: Write>(
    out: &mut W,
    time: Option<TimeOfDay>,
    none: &str,
) -> io::Result<()>
    ensures { OnOk result (Appends (W.contents out.old) (W.contents out.new)
        (spec.day_text none.now (option_map (λ t. time_of t) time))) }
{
    match time {
        Some(time) => out.write_all(time.text().as_bytes()),
        None => write!(out, "{none}"),
    }
}

/// A number of tenths, as ticks are tenths of a µs: what stands in front of the point, and the digit behind it.
pub(crate) fn tenths(number: u64) -> (u64, u64)
    ensures { result ≡ (number / 10, number % 10) }
{
    (number / 10, number % 10)
}

/// A number of hundredths: what stands in front of the point, and the two digits behind it.
pub(crate) fn hundredths(number: u64) -> (u64, u64)
    ensures { result ≡ (number / 100, number % 100) }
{
    (number / 100, number % 100)
}

/// Writes a number of hundredths.
pub(crate) fn write_hundredths<W: Write>(out: &mut W, number: u64) -> io::Result<()>
    ensures { OnOk result (Appends (W.contents out.old) (W.contents out.new) (spec.hundredths_text number)) }
{
    let (whole, part) = hundredths(number);
    write!(out, "{whole}.{part:02}")
}

/// Writes a time in ticks as µs, without the unit.
pub(crate) fn write_us<W: Write>(out: &mut W, ticks: u64) -> io::Result<()>
    ensures { OnOk result (Appends (W.contents out.old) (W.contents out.new) (spec.tenths_text ticks)) }
{
    let (whole, part) = tenths(ticks);
    write!(out, "{whole}.{part}")
}

/// Hundredths of messages a second, rounded down; None where no time passed or the span is not known.
pub(crate) fn rate_in(messages: u64, span: Option<u64>) -> Option<u64>
    ensures { result ≡ spec.rate_within messages span }
{
    match span {
        Some(span) => rate(messages, span),
        None => None,
    }
}

/// Hundredths of messages a second, rounded down; None where no time passed.
pub(crate) fn rate(messages: u64, span: u64) -> Option<u64>
    ensures { result ≡ spec.rate_of messages span }
{
    if span == 0 {
        return None;
    }
    let rate = u128::from(messages) * 100 * u128::from(SECOND) / u128::from(span);
    if rate > u128::from(u64::MAX) {
        return Some(u64::MAX);
    }
    Some(rate as u64)
}
