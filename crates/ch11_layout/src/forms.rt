//! The form of a recorded message.
ghost use Rattle.ch11_f1.specs.Views.{message_of};
ghost use Rattle.ch11_layout.specs.Forms as spec;
ghost use Rattle.ch11_layout.specs.Layouts.{layout_of};
ghost use Rattle.ch11_layout.specs.Stamps.{counted};
ghost use Rattle.std.specs.Prelude.{◌≡◌};

use crate::layouts::Layout;
use ch11_f1::Seen;
use mil_word::Command;

/// The form of a recorded message, by its command words (MIL-STD-1553B 4.3.3.6). Addresses are 0 to 30, counts 1 to 32,
/// mode codes 0 to 31; subaddresses 1 to 30, of mode commands 0 or 31.
#[derive(Clone, Copy, Debug, PartialEq, Eq)]
pub enum RecordedForm {
    /// Controller to terminal: `rx`.
    Receive {
        address: u8,
        subaddress: u8,
        count: u8,
    },
    /// Terminal to controller: `tx`.
    Transmit {
        address: u8,
        subaddress: u8,
        count: u8,
    },
    /// Terminal to terminal: `rt`.
    Between {
        sender: u8,
        sender_subaddress: u8,
        receiver: u8,
        receiver_subaddress: u8,
        count: u8,
    },
    /// A mode command to a terminal, with its T/R bit: `mode`, and `mode0` with subaddress 0.
    Mode {
        address: u8,
        subaddress: u8,
        transmit: bool,
        code: u8,
    },
    /// Controller to all terminals: `brx`.
    ReceiveAll {
        subaddress: u8,
        count: u8,
    },
    /// Terminal to all terminals: `brt`.
    BetweenAll {
        sender: u8,
        sender_subaddress: u8,
        receiver_subaddress: u8,
        count: u8,
    },
    /// A mode command to all terminals: `bmode`, and `bmode0` with subaddress 0.
    ModeAll {
        subaddress: u8,
        transmit: bool,
        code: u8,
    },
    /// No form of the standard: no word, a command to all terminals to transmit, or two commands that are no transfer.
    Unknown,
}

impl RecordedForm {
    /// The form of a message with this layout.
    #[inline]
    pub(crate) fn in_layout(seen: &Seen<'_>, layout: &Layout) -> RecordedForm
        requires { layout.now ≡ layout_of (counted (message_of seen.now)) }
        ensures { result ≡ spec.form_of (counted (message_of seen.now)) }
    {
        let first = Command::of(seen.word(0));
        match layout.commands {
            0 => RecordedForm::Unknown,
            1 => RecordedForm::of_command(first),
            _ => of_two(first, Command::of(seen.word(1))),
        }
    }

    /// The form of a message with this command alone.
    #[inline]
    pub fn of_command(command: Command) -> RecordedForm
        ensures { result ≡ spec.form_of_one command }
    {
        if command.is_mode() {
            return mode_of(command);
        }
        let (address, subaddress, count) = (
            command.address(),
            command.subaddress(),
            command.count(),
        );
        match (command.is_receive(), command.is_broadcast()) {
            (true, true) => RecordedForm::ReceiveAll { subaddress, count },
            (true, false) => RecordedForm::Receive {
                address,
                subaddress,
                count,
            },
            (false, true) => RecordedForm::Unknown,
            (false, false) => RecordedForm::Transmit {
                address,
                subaddress,
                count,
            },
        }
    }
}

fn mode_of(command: Command) -> RecordedForm
    ensures { result ≡ spec.mode_form command }
{
    let (subaddress, transmit, code) = (
        command.subaddress(),
        command.is_transmit(),
        command.code(),
    );
    if command.is_broadcast() {
        return RecordedForm::ModeAll {
            subaddress,
            transmit,
            code,
        };
    }
    RecordedForm::Mode {
        address: command.address(),
        subaddress,
        transmit,
        code,
    }
}

/// Whether two commands are those of a transfer.
fn are_transfer(first: Command, second: Command) -> bool
    ensures { result ≡ spec.are_transfer first second }
{
    first.is_receive()
        && !second.is_mode()
        && second.is_transmit()
        && !second.is_broadcast()
        && first.count() == second.count()
}

/// The form of a message with these two commands.
#[inline]
fn of_two(first: Command, second: Command) -> RecordedForm
    ensures { result ≡ spec.form_of_two first second }
{
    if !are_transfer(first, second) {
        return RecordedForm::Unknown;
    }
    let (sender, sender_subaddress) = (second.address(), second.subaddress());
    let (receiver_subaddress, count) = (first.subaddress(), first.count());
    if first.is_broadcast() {
        return RecordedForm::BetweenAll {
            sender,
            sender_subaddress,
            receiver_subaddress,
            count,
        };
    }
    RecordedForm::Between {
        sender,
        sender_subaddress,
        receiver: first.address(),
        receiver_subaddress,
        count,
    }
}
