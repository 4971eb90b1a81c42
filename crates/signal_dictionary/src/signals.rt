//! What a signal is: which bits of which data words of which messages, and what they spell.
ghost use Rattle.judge_rules.specs.Ranges.{AreInRange, AreInRange-prop};
ghost use Rattle.judge_rules.specs.Standard.{always};
ghost use Rattle.judge_rules.specs.declared.rules.Check.TheVariants.{Sound};
ghost use Rattle.signal_dictionary.specs.Fitting.{is_fitting};
ghost use Rattle.std.specs.Prelude.{◌≡◌, true};

use crate::decimals::Decimal;
use crate::texts::{Label, Name, Unit};
use arrayvec::ArrayVec;
use judge_rules::Selector;

/// Where a signal stands in the data words of a message, which are counted from 1. Bit 0 is the last of a word on the
/// line, bit 15 the first.
#[derive(Clone, Copy, Debug, PartialEq, Eq)]
pub enum Place {
    /// The bits from the upper one to the lower one of a word.
    Bits { word: u8, high: u8, low: u8 },
    /// All bits of two words, of which the first is the upper half.
    Pair { first: u8 },
}

/// By what the number of the bits becomes a value: it is times the scale plus the offset.
#[derive(Clone, Copy, Debug, PartialEq, Eq)]
pub struct Scaling {
    pub scale: Decimal,
    pub offset: Decimal,
}

/// What a number is called.
#[derive(Debug, Default, Drop, PartialEq, Eq)]
pub struct Naming {
    /// At most 9,999,999.
    pub number: u32,
    pub label: Label,
}

/// What the bits of a signal spell.
#[derive(Debug, Drop, PartialEq, Eq)]
pub enum Kind {
    /// A number as it is.
    Unsigned(Scaling),
    /// A number in two's complement of the width.
    Signed(Scaling),
    /// Decimal digits of four bits each, the upper first.
    Decimals(Scaling),
    /// A number that has a name, each at most one.
    Names(ArrayVec<Naming, 64>),
}

/// A signal. None is made whose numbers are out of their ranges.
#[derive(Debug, Drop, PartialEq, Eq)]
pub struct Signal {
    /// The line of the text that it stands in, counted from 1.
    pub line: u64,
    pub name: Name,
    /// The channel that it is of, 1 to 65,535; `None` for all.
    pub channel: Option<u16>,
    /// The messages that it is of, by their commands.
    pub selector: Selector,
    pub place: Place,
    pub kind: Kind,
    pub unit: Unit,
    /// The numbers of the channel and the selector are in their ranges.
    pub ghost chosen: { AreInRange channel always selector Sound } by { AreInRange-prop channel always selector Sound },
    /// So are those of the place and the kind, which fit one another.
    pub ghost fits: { is_fitting place kind ≡ true },
}
