//! What the bits of a signal spell.
ghost use Rattle.signal_dictionary.specs.Fitting.{is_kind, is_scaling};
ghost use Rattle.signal_values.specs.Amounts.{whole_of};
ghost use Rattle.signal_values.specs.Readings as spec;
ghost use Rattle.std.specs.Prelude.{◌≡◌, ◌-◌, ◌<◌, ◌≤◌, ◌^◌, pos, true, IfSome};

use crate::exact::Amount;
use crate::scaling::{Raw, scaled};
use signal_dictionary::{Kind, Scaling};

/// What the bits of a signal spell.
#[derive(Clone, Copy, Debug)]
pub enum Reading {
    /// No value: a decimal digit is above nine.
    Nothing,
    /// A value.
    Number(Amount),
    /// A number that may have a name.
    Named(u32),
}

/// A number as it is.
fn unsigned(field: u32) -> Raw
    ensures { whole_of result ≡ pos field }
{
    Raw {
        negative: false,
        magnitude: field,
    }
}

/// Half of how many numbers so many bits have.
fn half_of(width: u32) -> u64
    requires some { 1 ≤ width }
    requires most { width ≤ 32 }
    ensures value { result ≡ 2 ^ (width - 1) }
    ensures most { result ≤ 2 ^ 31 }
{
    2u64.pow(width - 1)
}

/// A number in two's complement of so many bits.
fn signed(width: u32, field: u32) -> Raw
    requires some { 1 ≤ width }
    requires most { width ≤ 32 }
    requires narrow { field < 2 ^ width }
    ensures { whole_of result ≡ spec.complement width field }
{
    let half = half_of(width);
    if u64::from(field) < half {
        Raw {
            negative: false,
            magnitude: field,
        }
    } else {
        Raw {
            negative: true,
            magnitude: (2 * half - u64::from(field)) as u32,
        }
    }
}

/// The number that so many decimal digits spell, the upper first; none where one is above nine.
fn decimals(count: u32, field: u32) -> Option<u32>
    requires { count ≤ 8 }
    ensures value { result ≡ spec.decimals count field }
    ensures small { IfSome result (λ n. n < 10 ^ count) }
{
    if count == 0 {
        return Some(0);
    }
    let upper = decimals(count - 1, field / 16)?;
    let digit = field % 16;
    if digit <= 9 {
        Some(upper * 10 + digit)
    } else {
        None
    }
}

/// A decimal number times the scale plus the offset, if there is one.
fn scaled_if(number: Option<u32>, scaling: Scaling) -> Reading
    requires { is_scaling scaling ≡ true }
    ensures { spec.value_of result ≡ spec.scaled_if number scaling }
{
    match number {
        Some(number) => Reading::Number(scaled(unsigned(number), scaling)),
        None => Reading::Nothing,
    }
}

/// What so many bits of a kind spell. Conditions: these are the bits of a signal of the kind, 1 to 32 of them.
pub fn reading_of(width: u32, kind: &Kind, field: u32) -> Reading
    requires some { 1 ≤ width }
    requires most { width ≤ 32 }
    requires narrow { field < 2 ^ width }
    requires fits { is_kind width kind.now ≡ true }
    ensures { spec.value_of result ≡ spec.value_in width kind.now field }
{
    match kind {
        Kind::Unsigned(scaling) => Reading::Number(scaled(unsigned(field), *scaling)),
        Kind::Signed(scaling) => Reading::Number(scaled(signed(width, field), *scaling)),
        Kind::Decimals(scaling) => scaled_if(decimals(width / 4, field), *scaling),
        Kind::Names(_) => Reading::Named(field),
    }
}
