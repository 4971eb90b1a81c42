//! The mode codes of MIL-STD-1553B with Notice 2: which there are, which may be broadcast, and which have a data
//! word.
//!
//! A mode command has subaddress 0 or 31; its code stands in the field of the word count, its direction in the T/R
//! bit (MIL-STD-1553B 4.3.3.5.1.7). In each function here `transmit` is the T/R bit, and `code` is at most 31.
//!
//! It may know: no other crate. Its tests: `mil_tests`. Its wrong bodies: `edits/`.
#![tactic(auto)]

pub mod codes;

ghost use Rattle.mil_mode.specs.Codes.{last_code, override_selected_shutdown, selected_shutdown, synchronize_with_word};
ghost use Rattle.mil_mode.specs.Codes.{transmit_bit_word, transmit_last_command, transmit_vector_word};
ghost use Rattle.mil_mode.specs.Table.{is_legal_mode as is_legal};
ghost use Rattle.mil_mode.specs.Table.{row_of, is_known, is_reserved, is_broadcast_mode, data_word_count};
ghost use Rattle.std.specs.Prelude.{◌==◌};
ghost use Rattle.std.specs.Prelude.{◌≡◌, ◌≤◌, ◌↔◌, IsTrue, ◌||◌, not};

use codes::{
    FIRST_RESERVED, FIRST_RESERVED_WITH_WORD, INITIATE_SELF_TEST, LAST_RESERVED_WITHOUT_WORD,
    OVERRIDE_SELECTED_SHUTDOWN, RESET_REMOTE_TERMINAL, SELECTED_SHUTDOWN, SYNCHRONIZE,
    SYNCHRONIZE_WITH_WORD, TRANSMIT_BIT_WORD, TRANSMIT_LAST_COMMAND, TRANSMIT_VECTOR_WORD,
};

/// What the mode table has for a T/R bit and a code.
#[derive(Clone, Copy, Debug, PartialEq, Eq)]
pub enum ModeRow {
    /// One of the fifteen codes that the standard assigns.
    Known,
    /// Codes 9 to 15 with T/R 1 and codes 22 to 31, which the standard keeps for later.
    Reserved,
    /// Every other pair.
    Undefined,
}

/// What the mode table has for this pair.
pub fn mode_of(transmit: bool, code: u8) -> ModeRow
    requires { code ≤ last_code }
    ensures row { result ≡ row_of transmit code }
    ensures known { (result ≡ ModeRow.Known) ↔ IsTrue (is_known transmit code) }
    ensures reserved { (result ≡ ModeRow.Reserved) ↔ IsTrue (is_reserved transmit code) }
    ensures undefined { (result ≡ ModeRow.Undefined) ↔ IsTrue
        (not (is_known transmit code || is_reserved transmit code)) }
{
    if code >= FIRST_RESERVED_WITH_WORD {
        ModeRow::Reserved
    } else if is_assigned(transmit, code) {
        ModeRow::Known
    } else if transmit && FIRST_RESERVED <= code && code <= LAST_RESERVED_WITHOUT_WORD {
        ModeRow::Reserved
    } else {
        ModeRow::Undefined
    }
}

/// Whether the standard assigns this pair a meaning.
fn is_assigned(transmit: bool, code: u8) -> bool
    requires { code ≤ last_code }
    ensures { result ≡ is_known transmit code }
{
    if transmit {
        code <= RESET_REMOTE_TERMINAL || has_word_from_terminal(code)
    } else {
        is_synchronize_or_selected(code)
    }
}

/// Whether a known code has a data word from the terminal.
fn has_word_from_terminal(code: u8) -> bool
    ensures { result ≡ (code == transmit_vector_word || code == transmit_last_command || code == transmit_bit_word) }
{
    code == TRANSMIT_VECTOR_WORD || code == TRANSMIT_LAST_COMMAND || code == TRANSMIT_BIT_WORD
}

/// Whether a known code has a data word to the terminal.
fn is_synchronize_or_selected(code: u8) -> bool
    ensures { result
        ≡ (code == synchronize_with_word || code == selected_shutdown || code == override_selected_shutdown) }
{
    code == SYNCHRONIZE_WITH_WORD || code == SELECTED_SHUTDOWN || code == OVERRIDE_SELECTED_SHUTDOWN
}

/// Whether the pair may be sent to all terminals at once, with address 31: true for known pairs alone.
pub fn broadcast_allowed(transmit: bool, code: u8) -> bool
    requires { code ≤ last_code }
    ensures { result ≡ is_broadcast_mode transmit code }
{
    if transmit {
        code == SYNCHRONIZE || INITIATE_SELF_TEST <= code && code <= RESET_REMOTE_TERMINAL
    } else {
        is_synchronize_or_selected(code)
    }
}

/// How many data words go with the pair, 0 or 1: sent by the terminal where T/R is 1, received by it where it is 0.
/// Codes 22 to 31 have one in either direction.
pub fn data_words(transmit: bool, code: u8) -> u8
    requires { code ≤ last_code }
    ensures { result ≡ data_word_count transmit code }
{
    if transmit {
        u8::from(has_word_from_terminal(code) || code >= FIRST_RESERVED_WITH_WORD)
    } else {
        u8::from(code == SYNCHRONIZE_WITH_WORD || code >= SELECTED_SHUTDOWN)
    }
}

/// Whether the terminals of this bench carry the pair out: known, and neither that shuts down nor that starts one of
/// several further lines (own choice).
pub fn is_legal_mode(transmit: bool, code: u8) -> bool
    requires { code ≤ last_code }
    ensures { result ≡ is_legal transmit code }
{
    is_assigned(transmit, code) && code != SELECTED_SHUTDOWN && code != OVERRIDE_SELECTED_SHUTDOWN
}
