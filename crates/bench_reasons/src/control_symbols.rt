//! What may stand next in a line that asks the controller's host for something.

use crate::kinds::Kind::{
    Address, DataWord, Line, OnlyPlace, ReceiveModeCode, Subaddress, WordPlace,
};
use crate::symbols::Symbol;
use crate::symbols::Symbol::{DataTo, HeldBack, Message, One, RampTo, Rest};

/// What follows the first word of what the controller's host asks for.
pub fn behind_control_word(word: &str) -> Option<&'static [Symbol]> {
    match word {
        "data" => Some(&[DataTo]),
        "ramp" => Some(&[RampTo]),
        "insert" => Some(&[HeldBack, One(Line), Message]),
        _ => None,
    }
}

/// What follows the first word of the command that data words of the controller go to; mode commands have one.
pub fn behind_data_word(word: &str) -> Option<&'static [Symbol]> {
    match word {
        "rx" => Some(&[One(Address), One(Subaddress), One(DataWord), Rest(DataWord)]),
        "brx" => Some(&[One(Subaddress), One(DataWord), Rest(DataWord)]),
        "mode" => Some(&[One(Address), One(ReceiveModeCode), One(DataWord)]),
        "bmode" => Some(&[One(ReceiveModeCode), One(DataWord)]),
        _ => None,
    }
}

/// What follows the first word of the command that a moving word of the controller goes to.
pub fn behind_ramp_word(word: &str) -> Option<&'static [Symbol]> {
    match word {
        "rx" => Some(&[
            One(Address),
            One(Subaddress),
            One(WordPlace),
            One(DataWord),
            One(DataWord),
        ]),
        "brx" => Some(&[
            One(Subaddress),
            One(WordPlace),
            One(DataWord),
            One(DataWord),
        ]),
        "mode" => Some(&[
            One(Address),
            One(ReceiveModeCode),
            One(OnlyPlace),
            One(DataWord),
            One(DataWord),
        ]),
        "bmode" => Some(&[
            One(ReceiveModeCode),
            One(OnlyPlace),
            One(DataWord),
            One(DataWord),
        ]),
        _ => None,
    }
}
