//! Whether the numbers of a signal are in their ranges and fit one another.
ghost use Rattle.signal_dictionary.specs.Fitting as spec;
ghost use Rattle.std.specs.Prelude.{◌≡◌};

use crate::decimals::Decimal;
use crate::signals::{Kind, Naming, Place, Scaling};

/// Above the digits of a decimal.
const ABOVE_DIGITS: u64 = 1_000_000_000_000_000_000;
/// The greatest number of seven digits.
const MOST: u32 = 9_999_999;

impl Place {
    /// How many bits it has: 1 to 16, or 32.
    pub fn width(self) -> u32
        ensures { result ≡ spec.width_of self }
    {
        match self {
            Place::Bits { high, low, .. } => (u32::from(high) + 1).saturating_sub(u32::from(low)),
            Place::Pair { .. } => 32,
        }
    }
}

fn is_place(place: Place) -> bool
    ensures { result ≡ spec.is_place place }
{
    match place {
        Place::Bits { word, high, low } => 1 <= word && word <= 32 && low <= high && high <= 15,
        Place::Pair { first } => 1 <= first && first <= 31,
    }
}

fn is_decimal(decimal: Decimal) -> bool
    ensures { result ≡ spec.is_decimal decimal }
{
    decimal.digits < ABOVE_DIGITS && decimal.places <= 17
}

fn is_scaling(scaling: Scaling) -> bool
    ensures { result ≡ spec.is_scaling scaling }
{
    is_decimal(scaling.scale) && scaling.scale.digits != 0 && is_decimal(scaling.offset)
}

fn are_numbered(namings: &[Naming]) -> bool
    ensures { result ≡ spec.are_numbered namings.now }
{
    namings.iter().all(|naming| naming.number <= MOST)
}

fn is_kind(width: u32, kind: &Kind) -> bool
    ensures { result ≡ spec.is_kind width kind.now }
{
    match kind {
        Kind::Unsigned(scaling) | Kind::Signed(scaling) => is_scaling(*scaling),
        Kind::Decimals(scaling) => width % 4 == 0 && is_scaling(*scaling),
        Kind::Names(namings) => are_numbered(namings.as_slice()),
    }
}

/// Whether the numbers of a place and of a kind are in their ranges, and decimal digits have a width that is a
/// multiple of four.
pub(crate) fn is_fitting(place: Place, kind: &Kind) -> bool
    ensures { result ≡ spec.is_fitting place kind.now }
{
    is_place(place) && is_kind(place.width(), kind)
}
