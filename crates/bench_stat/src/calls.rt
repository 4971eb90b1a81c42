//! Commands to terminals.
ghost use Rattle.bench_stat.specs.Sendings.{call_by, kind_of};
ghost use Rattle.mil_word.specs.Fields.{field_values};
ghost use Rattle.std.specs.Prelude.{◌≡◌, ◌<◌};

use mil_word::Command;

/// What a command word asks of the terminal that it calls.
#[derive(Clone, Copy, Debug, PartialEq, Eq)]
pub enum CallKind {
    /// To receive data words.
    Receive,
    /// To transmit data words.
    Transmit,
    /// A mode command.
    Mode,
}

/// A command word of a recorded message, and what the message says of it.
#[derive(Clone, Copy, Debug, PartialEq, Eq)]
pub struct Call {
    /// The terminal address that it calls, 0 to 31; 31 is that of all terminals.
    pub address: u8,
    /// What it asks.
    pub kind: CallKind,
    /// Whether the message had an error that belongs to this terminal: its reply is missing or wrong.
    pub failed: bool,
    /// The response time in ticks of 0.1 µs, 255 where it was that or longer, 0 where there was no response.
    pub response: u8,
}

impl Call {
    /// The call of a command word.
    pub fn by(command: u16, failed: bool, response: u8) -> Call
        ensures same { result ≡ call_by command failed response }
        ensures range { result.address < field_values }
    {
        let command = Command::of(command);
        Call {
            address: command.address(),
            kind: kind(command),
            failed,
            response,
        }
    }
}

fn kind(command: Command) -> CallKind
    ensures { result ≡ kind_of command }
{
    if command.is_mode() {
        CallKind::Mode
    } else if command.is_transmit() {
        CallKind::Transmit
    } else {
        CallKind::Receive
    }
}
