//! The numbers from the least to the greatest of a signal, as heights.

use bench_signals::SignalFigures;
use signal_values::{Amount, Reading};

/// How many units of 10^-17 one is.
const UNIT: u64 = 100_000_000_000_000_000;

/// The numbers from the least to the greatest.
#[derive(Clone, Copy)]
pub(crate) struct Range {
    pub(crate) least: Amount,
    pub(crate) greatest: Amount,
}

/// How far apart two numbers are: a whole number, and a part of one in units of 10^-17.
#[derive(Clone, Copy)]
struct Distance {
    whole: u128,
    part: u64,
}

impl Range {
    /// Those of a signal's figures, if it has numbers.
    pub(crate) fn of(figure: &SignalFigures) -> Option<Range> {
        match (figure.least?.value, figure.greatest?.value) {
            (Reading::Number(least), Reading::Number(greatest)) => Some(Range { least, greatest }),
            _ => None,
        }
    }

    /// How far the greatest is from the least.
    fn span(&self) -> Distance {
        distance_from(self.least, self.greatest)
    }

    /// Whether all numbers are the same.
    pub(crate) fn is_point(&self) -> bool {
        let span = self.span();
        span.whole == 0 && span.part == 0
    }

    /// How far a number is from the least, in so many parts of all; the half where all numbers are the same.
    pub(crate) fn share(&self, number: Amount, parts: u32) -> u32 {
        if self.is_point() {
            return parts / 2;
        }
        let share = share_of(distance_from(self.least, number), self.span(), parts);
        u32::try_from(share).unwrap_or(parts).min(parts)
    }
}

/// How far a number is from one that is not above it.
fn distance_from(least: Amount, number: Amount) -> Distance {
    if least.negative != number.negative {
        let part = least.part.saturating_add(number.part);
        return Distance {
            whole: least
                .whole
                .saturating_add(number.whole)
                .saturating_add(u128::from(part / UNIT)),
            part: part % UNIT,
        };
    }
    if least.negative {
        between(number, least)
    } else {
        between(least, number)
    }
}

/// How far the size of a number is from one that is not above it.
fn between(less: Amount, greater: Amount) -> Distance {
    let whole = greater.whole.saturating_sub(less.whole);
    if less.part <= greater.part {
        Distance {
            whole,
            part: greater.part.saturating_sub(less.part),
        }
    } else {
        Distance {
            whole: whole.saturating_sub(1),
            part: greater.part.saturating_add(UNIT).saturating_sub(less.part),
        }
    }
}

/// How many of so many parts of a distance another one is: of a long distance by whole numbers alone.
fn share_of(one: Distance, all: Distance, parts: u32) -> u128 {
    let parts = u128::from(parts);
    if all.whole < u128::from(UNIT) {
        units_of(one).saturating_mul(parts) / units_of(all).max(1)
    } else {
        one.whole.saturating_mul(parts) / all.whole.max(1)
    }
}

/// A distance in units of 10^-17.
fn units_of(distance: Distance) -> u128 {
    distance
        .whole
        .saturating_mul(u128::from(UNIT))
        .saturating_add(u128::from(distance.part))
}
