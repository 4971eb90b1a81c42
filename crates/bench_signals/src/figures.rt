//! The figures of a signal in a channel.
ghost use Rattle.bench_signals.specs.Counting as spec;
ghost use Rattle.bench_signals.specs.Figures.{greater_by, is_at_most as is_number_at_most, is_number as is_some_number};
ghost use Rattle.bench_signals.specs.Figures.{greater as greater_moment, lesser as lesser_moment, lesser_by};
ghost use Rattle.bench_signals.specs.Figures.{moment_of, number_of, one_if, said_by};
ghost use Rattle.ch11_reader.specs.Contents.{capped};
ghost use Rattle.signal_values.specs.Readings.{value_of};
ghost use Rattle.std.specs.Prelude.{◌≡◌, ◌+◌, option_map};

use signal_values::Reading;

/// A value, and when it was, in ticks of 0.1 µs where that is known.
#[derive(Clone, Copy, Debug)]
pub struct Told {
    pub value: Reading,
    pub time: Option<u64>,
}

/// The figures of a signal in a channel.
#[derive(Clone, Copy, Debug)]
pub struct SignalFigures {
    /// The place of the signal in its dictionary, counted from 0.
    pub signal: usize,
    pub channel: u16,
    /// How many selected messages have it.
    pub messages: u64,
    /// How many of them have another value than the one before.
    pub changes: u64,
    /// The first of the least values and of the greatest; none of names.
    pub least: Option<Told>,
    pub greatest: Option<Told>,
    pub first: Told,
    pub last: Told,
}

/// Whether a value is a number: no name, and not none.
fn is_number(value: Reading) -> bool
    ensures { result ≡ is_some_number (number_of (value_of value)) }
{
    match value {
        Reading::Number(_) => true,
        Reading::Nothing => false,
        Reading::Named(_) => false,
    }
}

/// Whether two values are numbers, the first of them at most the second.
fn is_at_most(one: Reading, other: Reading) -> bool
    ensures { result ≡ is_number_at_most (number_of (value_of one)) (number_of (value_of other)) }
{
    match one {
        Reading::Number(number) => match other {
            Reading::Number(most) => number.is_at_most(most),
            Reading::Nothing => false,
            Reading::Named(_) => false,
        },
        Reading::Nothing => false,
        Reading::Named(_) => false,
    }
}

/// The lesser of two numbers, the first of two that are equal.
fn lesser_of(least: Option<Told>, told: Told) -> Option<Told>
    ensures { option_map moment_of result ≡ lesser_by (option_map moment_of least) (moment_of told) }
{
    match least {
        Some(before) => {
            if is_at_most(before.value, told.value) {
                Some(before)
            } else {
                Some(told)
            }
        }
        None => Some(told),
    }
}

/// The same with one value more, which may be none.
fn lesser(least: Option<Told>, told: Told) -> Option<Told>
    ensures { option_map moment_of result ≡ lesser_moment (option_map moment_of least) (moment_of told) }
{
    if is_number(told.value) {
        lesser_of(least, told)
    } else {
        least
    }
}

/// The greater of two numbers, the first of two that are equal.
fn greater_of(greatest: Option<Told>, told: Told) -> Option<Told>
    ensures { option_map moment_of result ≡ greater_by (option_map moment_of greatest) (moment_of told) }
{
    match greatest {
        Some(before) => {
            if is_at_most(told.value, before.value) {
                Some(before)
            } else {
                Some(told)
            }
        }
        None => Some(told),
    }
}

/// The same with one value more, which may be none.
fn greater(greatest: Option<Told>, told: Told) -> Option<Told>
    ensures { option_map moment_of result ≡ greater_moment (option_map moment_of greatest) (moment_of told) }
{
    if is_number(told.value) {
        greater_of(greatest, told)
    } else {
        greatest
    }
}

/// One more where it holds, at most 2^64 - 1.
fn counted(count: u64, holds: bool) -> u64
    ensures { result ≡ capped (count + one_if holds) }
{
    if holds {
        count.saturating_add(1)
    } else {
        count
    }
}

impl SignalFigures {
    /// Those of the first value.
    pub(crate) fn begin(signal: usize, channel: u16, told: Told) -> SignalFigures
        ensures { said_by result ≡ spec.begun signal channel (moment_of told) }
    {
        SignalFigures {
            signal,
            channel,
            messages: 1,
            changes: 0,
            least: lesser(None, told),
            greatest: greater(None, told),
            first: told,
            last: told,
        }
    }

    /// The same with one more value, which is another than the one before, or is not.
    pub(crate) fn with(&self, told: Told, changed: bool) -> SignalFigures
        ensures { said_by result ≡ spec.with_moment changed (moment_of told) (said_by self.now) }
    {
        SignalFigures {
            signal: self.signal,
            channel: self.channel,
            messages: counted(self.messages, true),
            changes: counted(self.changes, changed),
            least: lesser(self.least, told),
            greatest: greater(self.greatest, told),
            first: self.first,
            last: told,
        }
    }
}
