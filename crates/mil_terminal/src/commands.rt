//! What a terminal asks about a command.
ghost use Rattle.mil_mode.specs.Codes.{dynamic_bus_control};
ghost use Rattle.mil_terminal.specs.Registers as registers;
ghost use Rattle.mil_terminal.specs.Updates.{is_code};
ghost use Rattle.mil_terminal.specs.Verdicts.{is_unknown as unknown};
ghost use Rattle.std.specs.Prelude.{◌≡◌};

use crate::addresses::Address;
use mil_mode::codes::{DYNAMIC_BUS_CONTROL, TRANSMIT_LAST_COMMAND, TRANSMIT_STATUS_WORD};
use mil_mode::{broadcast_allowed, is_legal_mode};
use mil_word::Command;

/// Whether the command leaves the status as it was.
pub fn is_question(own: Address, command: Command) -> bool
    ensures { result ≡ registers.is_question own command }
{
    command.address() == own.value()
        && command.is_transmit()
        && command.is_mode()
        && (command.code() == TRANSMIT_STATUS_WORD || command.code() == TRANSMIT_LAST_COMMAND)
}

/// Whether no terminal here carries the command out.
pub fn is_unknown(command: Command) -> bool
    ensures { result ≡ unknown command }
{
    if command.is_mode() {
        !is_legal_mode(command.is_transmit(), command.code())
            || command.is_broadcast() && !broadcast_allowed(command.is_transmit(), command.code())
    } else {
        command.is_broadcast() && command.is_transmit()
    }
}

/// Whether this is the mode code that offers dynamic bus control.
pub fn is_bus_control(command: Command) -> bool
    ensures { result ≡ is_code command dynamic_bus_control }
{
    command.is_mode() && command.is_transmit() && command.code() == DYNAMIC_BUS_CONTROL
}
