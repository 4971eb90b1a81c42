//! All pairs of a T/R bit and a mode code, as the standard's table has them (MIL-STD-1553B 4.3.3.5.1.7 and its table I,
//! with Notice 2); that terminals carry out neither 20 nor 21 is an own choice.
ghost use Rattle.std.specs.Prelude.{◌≤◌};

use crate::tests::equal::same_in;
use mil_mode::ModeRow::{Known, Reserved, Undefined};
use mil_mode::{ModeRow, broadcast_allowed, data_words, is_legal_mode, mode_of};
use std::process::Abort;

/// What the table says of a pair: its row, how many data words go with it, whether it may be sent to all, and whether
/// a terminal carries it out.
type Said = (ModeRow, u8, bool, bool);

/// A known pair: how many data words go with it, and whether it may be sent to all.
const ALONE: Said = (Known, 0, false, true);

const ALONE_TO_ALL: Said = (Known, 0, true, true);

const WORD: Said = (Known, 1, false, true);

const WORD_TO_ALL: Said = (Known, 1, true, true);

/// A known pair that selects one of more than two lines.
const SELECTED: Said = (Known, 1, true, false);

/// A pair that is kept for later, without and with a data word.
const LATER: Said = (Reserved, 0, false, false);

const LATER_WORD: Said = (Reserved, 1, false, false);

/// A pair that the table does not have.
const NONE: Said = (Undefined, 0, false, false);

/// With T/R 1, from code 0 on.
const TRANSMIT: [Said; 32] = [
    ALONE,
    ALONE_TO_ALL,
    ALONE,
    ALONE_TO_ALL,
    ALONE_TO_ALL,
    ALONE_TO_ALL,
    ALONE_TO_ALL,
    ALONE_TO_ALL,
    ALONE_TO_ALL,
    LATER,
    LATER,
    LATER,
    LATER,
    LATER,
    LATER,
    LATER,
    WORD,
    NONE,
    WORD,
    WORD,
    NONE,
    NONE,
    LATER_WORD,
    LATER_WORD,
    LATER_WORD,
    LATER_WORD,
    LATER_WORD,
    LATER_WORD,
    LATER_WORD,
    LATER_WORD,
    LATER_WORD,
    LATER_WORD,
];

/// With T/R 0, from code 0 on.
const RECEIVE: [Said; 32] = [
    NONE,
    NONE,
    NONE,
    NONE,
    NONE,
    NONE,
    NONE,
    NONE,
    NONE,
    NONE,
    NONE,
    NONE,
    NONE,
    NONE,
    NONE,
    NONE,
    NONE,
    WORD_TO_ALL,
    NONE,
    NONE,
    SELECTED,
    SELECTED,
    LATER_WORD,
    LATER_WORD,
    LATER_WORD,
    LATER_WORD,
    LATER_WORD,
    LATER_WORD,
    LATER_WORD,
    LATER_WORD,
    LATER_WORD,
    LATER_WORD,
];

/// What the functions say of a pair.
fn said_of(transmit: bool, code: u8) -> Said
    requires { code ≤ 31 }
{
    (
        mode_of(transmit, code),
        data_words(transmit, code),
        broadcast_allowed(transmit, code),
        is_legal_mode(transmit, code),
    )
}

/// All codes with a T/R bit are as in a table.
fn are_as_in(rt: &impl Abort, row: &str, transmit: bool, table: &[Said; 32]) {
    for code in 0..32u8 {
        let found = (code, said_of(transmit, code));
        same_in(rt, row, &found, &(code, table[code as usize]));
    }
}

#[test]
fn all_pairs_are_as_in_the_table(rt: HostRuntime) {
    are_as_in(&rt, "T/R 1, code", true, &TRANSMIT);
    are_as_in(&rt, "T/R 0, code", false, &RECEIVE);
}
