//! What may stand next in a line of a dictionary of signals.

use crate::kinds::Kind::{
    BitPlace, DataPlace, Naming, OffsetNumber, PairPlace, ScaleNumber, SignalName, UnitName,
};
use crate::symbols::Symbol;
use crate::symbols::Symbol::{
    Namings, One, RuleChannel, Selector, SignalBits, SignalKind, SignalOffset, SignalPlace,
    SignalScale, SignalUnit,
};

/// What follows the word with which a place begins.
fn behind_place_word(word: &str) -> Option<&'static [Symbol]> {
    match word {
        "word" => Some(&[One(DataPlace), SignalBits]),
        "words" => Some(&[One(PairPlace)]),
        _ => None,
    }
}

/// What follows the name of a kind.
fn behind_kind_word(word: &str) -> Option<&'static [Symbol]> {
    match word {
        "unsigned" | "signed" | "bcd" => Some(&[SignalScale, SignalOffset, SignalUnit]),
        "names" => Some(&[One(Naming), Namings, SignalUnit]),
        _ => None,
    }
}

/// What has to stand behind a word in the place of a symbol of dictionaries; none where the word does not begin it.
pub fn behind_in_dictionaries(symbol: Symbol, word: &str) -> Option<&'static [Symbol]> {
    match symbol {
        Symbol::Signal if word == "signal" => Some(&[
            One(SignalName),
            RuleChannel,
            Selector,
            SignalPlace,
            SignalKind,
        ]),
        Symbol::SignalPlace => behind_place_word(word),
        Symbol::SignalBits if word == "bits" => Some(&[One(BitPlace), One(BitPlace)]),
        Symbol::SignalKind => behind_kind_word(word),
        Symbol::Namings if has_equals(word) => Some(&[]),
        Symbol::SignalScale if word == "scale" => Some(&[One(ScaleNumber)]),
        Symbol::SignalOffset if word == "offset" => Some(&[One(OffsetNumber)]),
        Symbol::SignalUnit if word == "unit" => Some(&[One(UnitName)]),
        _ => None,
    }
}

/// Whether a word has an equals sign.
fn has_equals(word: &str) -> bool {
    word.as_bytes().iter().any(|byte| *byte == b'=')
}

/// Which words may stand in the place of a symbol of dictionaries.
pub fn allowed_in_dictionaries(symbol: Symbol) -> &'static str {
    match symbol {
        Symbol::Signal => {
            "a signal is signal NAME [channel N] SELECTOR PLACE KIND [scale DECIMAL] [offset DECIMAL] [unit UNIT]"
        }
        Symbol::SignalPlace => "a place is word I, word I bits H L or words I",
        _ => "a kind is unsigned, signed, bcd or names NUMBER=LABEL ..",
    }
}
