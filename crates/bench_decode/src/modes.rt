//! The names of mode codes.
ghost use Rattle.bench_decode.specs.ModeText.{mode_text, other_text, receive_text, transmit_text, unnamed_text};
ghost use Rattle.mil_mode.specs.Codes.{last_code};
ghost use Rattle.std.specs.Prelude.{◌≡◌, ◌≤◌, length};

use mil_mode::codes::{
    DYNAMIC_BUS_CONTROL, INHIBIT_TERMINAL_FLAG, INITIATE_SELF_TEST, LAST_CODE, OVERRIDE_INHIBIT,
    OVERRIDE_SELECTED_SHUTDOWN, OVERRIDE_SHUTDOWN, RESET_REMOTE_TERMINAL, SELECTED_SHUTDOWN,
    SYNCHRONIZE, SYNCHRONIZE_WITH_WORD, TRANSMIT_BIT_WORD, TRANSMIT_LAST_COMMAND,
    TRANSMIT_STATUS_WORD, TRANSMIT_VECTOR_WORD, TRANSMITTER_SHUTDOWN,
};
use mil_mode::{ModeRow, mode_of};

/// How many bytes the longest name has.
pub(crate) const MODE_NAME: usize = 38;

/// What a mode command asks (MIL-STD-1553B 4.3.3.5.1.7 with Notice 2), by its T/R bit and its code, 0 to 31; of a pair
/// without a name, whether it is reserved or undefined, with its T/R bit.
#[tactic(auto, unfolding(crate::specs::ModeText::mode_text))]
pub(crate) fn mode_name(transmit: bool, code: u8) -> &'static [u8]
    ensures name { result.now ≡ mode_text transmit code }
    ensures few { length result.now ≤ MODE_NAME }
{
    if transmit {
        transmit_name(code)
    } else {
        receive_name(code)
    }
}

/// The same where the T/R bit is 1.
fn transmit_name(code: u8) -> &'static [u8]
    ensures name { result.now ≡ transmit_text code }
    ensures few { length result.now ≤ MODE_NAME }
{
    match code {
        DYNAMIC_BUS_CONTROL => b"dynamic bus control",
        SYNCHRONIZE => b"synchronize",
        TRANSMIT_STATUS_WORD => b"transmit status word",
        INITIATE_SELF_TEST => b"initiate self test",
        TRANSMITTER_SHUTDOWN => b"transmitter shutdown",
        OVERRIDE_SHUTDOWN => b"override transmitter shutdown",
        INHIBIT_TERMINAL_FLAG => b"inhibit terminal flag",
        OVERRIDE_INHIBIT => b"override inhibit terminal flag",
        RESET_REMOTE_TERMINAL => b"reset remote terminal",
        TRANSMIT_VECTOR_WORD => b"transmit vector word",
        TRANSMIT_LAST_COMMAND => b"transmit last command",
        TRANSMIT_BIT_WORD => b"transmit BIT word",
        _ => other_name(true, code),
    }
}

/// The same where it is 0.
fn receive_name(code: u8) -> &'static [u8]
    ensures name { result.now ≡ receive_text code }
    ensures few { length result.now ≤ MODE_NAME }
{
    match code {
        SYNCHRONIZE_WITH_WORD => b"synchronize with data",
        SELECTED_SHUTDOWN => b"selected transmitter shutdown",
        OVERRIDE_SELECTED_SHUTDOWN => b"override selected transmitter shutdown",
        _ => other_name(false, code),
    }
}

/// A pair without a name.
fn other_name(transmit: bool, code: u8) -> &'static [u8]
    ensures name { result.now ≡ other_text transmit code }
    ensures few { length result.now ≤ MODE_NAME }
{
    unnamed(mode_of(transmit, code.min(LAST_CODE)), transmit)
}

fn unnamed(row: ModeRow, transmit: bool) -> &'static [u8]
    ensures name { result.now ≡ unnamed_text row transmit }
    ensures few { length result.now ≤ MODE_NAME }
{
    match (row, transmit) {
        (ModeRow::Reserved, true) => b"reserved, T/R 1",
        (ModeRow::Reserved, false) => b"reserved, T/R 0",
        (ModeRow::Known | ModeRow::Undefined, true) => b"undefined, T/R 1",
        (ModeRow::Known | ModeRow::Undefined, false) => b"undefined, T/R 0",
    }
}
