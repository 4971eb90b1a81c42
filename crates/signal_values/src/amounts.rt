//! Sums and comparisons of exact numbers.
ghost use Rattle.signal_values.specs.Amounts.{are_within, number_of, magnitude_of, unit};
ghost use Rattle.std.specs.Prelude.{◌≡◌, ◌+◌, ◌-◌, ◌*◌, ◌<◌, ◌≤◌, ◌^◌, ◌==◌, ◌&&◌, not, nat_le, nat_lt, ◌+ℤ◌, int_le};

use crate::exact::Amount;

/// How many units of 10^-17 one is.
const UNIT: u64 = 100_000_000_000_000_000;

/// How many decimal places a number has.
const PLACES: u8 = 17;

impl Amount {
    /// The sum. Condition: its whole part has 128 bits.
    pub fn plus(self, other: Amount) -> Amount
        requires { self.whole + other.whole + 1 < 2 ^ 128 }
        ensures { number_of result ≡ number_of self +ℤ number_of other }
    {
        if self.negative == other.negative {
            joined(self, other)
        } else if is_smaller(self, other) {
            without(other, self)
        } else {
            without(self, other)
        }
    }

    /// Whether it is at most another.
    pub fn is_at_most(self, other: Amount) -> bool
        ensures { result ≡ int_le (number_of self) (number_of other) }
    {
        match (self.is_below_zero(), other.is_below_zero()) {
            (true, false) => true,
            (false, true) => false,
            (true, true) => !is_smaller(self, other),
            (false, false) => !is_smaller(other, self),
        }
    }

    /// Whether it differs from another by at most so much; by less than zero none does.
    pub fn differs_by_at_most(self, other: Amount, most: Amount) -> bool
        ensures { result ≡ are_within (number_of most) (number_of self) (number_of other) }
    {
        if most.is_below_zero() {
            false
        } else if self.negative != other.negative {
            are_at_most(self, other, most)
        } else if is_smaller(self, other) {
            !is_smaller(most, without(other, self))
        } else {
            !is_smaller(most, without(self, other))
        }
    }

    /// Whether it is below zero.
    pub fn is_below_zero(self) -> bool
        ensures { result ≡ (self.negative && not (magnitude_of self == 0)) }
    {
        self.negative && (self.whole != 0 || self.part != 0)
    }
}

/// Whether a number without its sign is below another without its own.
fn is_smaller(one: Amount, other: Amount) -> bool
    ensures { result ≡ nat_lt (magnitude_of one) (magnitude_of other) }
{
    one.whole < other.whole || one.whole == other.whole && one.part < other.part
}

/// Whether two numbers together are at most a third, all without their signs.
fn are_at_most(one: Amount, other: Amount, most: Amount) -> bool
    ensures { result ≡ nat_le (magnitude_of one + magnitude_of other) (magnitude_of most) }
{
    !is_smaller(most, one) && !is_smaller(without(most, one), other)
}

/// The sum of two of the sign of the first.
fn joined(one: Amount, other: Amount) -> Amount
    requires { one.whole + other.whole + 1 < 2 ^ 128 }
    ensures sign { result.negative ≡ one.negative }
    ensures size { magnitude_of result ≡ magnitude_of one + magnitude_of other }
{
    let part = one.part + other.part;
    if part < UNIT {
        Amount {
            negative: one.negative,
            whole: one.whole + other.whole,
            part,
        }
    } else {
        Amount {
            negative: one.negative,
            whole: one.whole + other.whole + 1,
            part: part - UNIT,
        }
    }
}

/// What is left of a number without a smaller one, both without their signs; the sign is its own.
fn without(one: Amount, other: Amount) -> Amount
    requires { magnitude_of other ≤ magnitude_of one }
    ensures sign { result.negative ≡ one.negative }
    ensures size { magnitude_of result + magnitude_of other ≡ magnitude_of one }
{
    if other.part <= one.part {
        Amount {
            negative: one.negative,
            whole: one.whole - other.whole,
            part: one.part - other.part,
        }
    } else {
        Amount {
            negative: one.negative,
            whole: one.whole - other.whole - 1,
            part: UNIT - other.part + one.part,
        }
    }
}

/// So many units of 10^-places. Condition: there are at most 17 places.
pub(crate) fn shifted(negative: bool, magnitude: u128, places: u8) -> Amount
    requires { places ≤ 17 }
    ensures sign { result.negative ≡ negative }
    ensures size { magnitude_of result ≡ magnitude * 10 ^ (17 - places) }
    ensures whole { result.whole ≤ magnitude }
{
    let one = ten_to(places);
    let part = magnitude % u128::from(one);
    Amount {
        negative,
        whole: magnitude / u128::from(one),
        part: part as u64 * ten_to(PLACES - places),
    }
}

/// Ten to a power.
fn ten_to(places: u8) -> u64
    requires { places ≤ 17 }
    ensures value { result ≡ 10 ^ places }
    ensures some { 1 ≤ result }
    ensures most { result ≤ unit }
{
    10u64.pow(u32::from(places))
}
