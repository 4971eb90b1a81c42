//! Whole numbers times a scale plus an offset.
ghost use Rattle.signal_dictionary.specs.Fitting.{is_decimal, is_scaling};
ghost use Rattle.signal_values.specs.Amounts.{number_of, product_sign, scaled_by, units_of, whole_of};
ghost use Rattle.std.specs.Prelude.{◌≡◌, ◌<◌, ◌^◌, ◌*ℤ◌, true};

use crate::amounts::shifted;
use crate::exact::Amount;
use signal_dictionary::{Decimal, Scaling};

/// A whole number of at most 32 bits and a sign.
#[derive(Clone, Copy, Debug, PartialEq, Eq)]
pub struct Raw {
    pub negative: bool,
    pub magnitude: u32,
}

/// A decimal as a number of 17 places.
pub fn of_decimal(decimal: Decimal) -> Amount
    requires { is_decimal decimal ≡ true }
    ensures value { number_of result ≡ units_of decimal }
    ensures small { result.whole < 10 ^ 18 }
{
    shifted(decimal.negative, u128::from(decimal.digits), decimal.places)
}

/// Whether the product of two numbers is negative, by their signs.
fn is_product_negative(one: bool, other: bool) -> bool
    ensures { result ≡ product_sign one other }
{
    if one { !other } else { other }
}

/// A whole number times a decimal.
fn times(raw: Raw, decimal: Decimal) -> Amount
    requires { is_decimal decimal ≡ true }
    ensures value { number_of result ≡ whole_of raw *ℤ units_of decimal }
    ensures small { result.whole < 2 ^ 96 }
{
    let product = u128::from(raw.magnitude) * u128::from(decimal.digits);
    let negative = is_product_negative(raw.negative, decimal.negative);
    shifted(negative, product, decimal.places)
}

/// A whole number times the scale plus the offset, exactly.
pub fn scaled(raw: Raw, scaling: Scaling) -> Amount
    requires { is_scaling scaling ≡ true }
    ensures { number_of result ≡ scaled_by scaling (whole_of raw) }
{
    times(raw, scaling.scale).plus(of_decimal(scaling.offset))
}
