//! Which fields a message may have, form by form (MIL-STD-1553B 4.3.3.5.1, 4.3.3.6).
ghost use Rattle.frame_code.specs.Fields as table;
ghost use Rattle.std.specs.Prelude.{◌≡◌, ◌≤◌};

use mil_mode::data_words;
use mil_word::Command;
use mil_word::fields::HIGHEST_ADDRESS;

// Whether it is a command to receive data words at a subaddress.
fn receives(command: Command) -> bool
    ensures { result ≡ table.receives command }
{
    !command.is_transmit() && !command.is_mode()
}

// Whether it is a command to transmit data words from a subaddress.
fn transmits(command: Command) -> bool
    ensures { result ≡ table.transmits command }
{
    command.is_transmit() && !command.is_mode()
}

// Whether it is a command to one terminal.
fn calls_one(command: Command) -> bool
    ensures { result ≡ table.calls_one command }
{
    command.address() <= HIGHEST_ADDRESS
}

// Whether it is a mode command whose code goes without a data word.
fn mode_alone(command: Command) -> bool
    ensures { result ≡ table.mode_alone command }
{
    command.is_transmit() && command.is_mode() && command.code() <= 15
}

// Whether it is a mode command whose code has a data word from the terminal.
fn mode_from(command: Command) -> bool
    ensures { result ≡ table.mode_from command }
{
    command.is_transmit() && command.is_mode() && data_words(true, command.code()) == 1
}

// Whether it is a mode command whose code has a data word to the terminal.
fn mode_to(command: Command) -> bool
    ensures { result ≡ table.mode_to command }
{
    !command.is_transmit() && command.is_mode() && data_words(false, command.code()) == 1
}

/// Whether a message of the form, 0 to 9, may have this first command; of any other number none may.
pub fn first_fits(form: u8, command: Command) -> bool
    ensures { result ≡ table.first_fits form command }
{
    match form {
        0 | 2 => calls_one(command) && receives(command),
        1 => calls_one(command) && transmits(command),
        3 => calls_one(command) && mode_alone(command),
        4 => calls_one(command) && mode_from(command),
        5 => calls_one(command) && mode_to(command),
        6 | 7 => command.is_broadcast() && receives(command),
        8 => command.is_broadcast() && mode_alone(command),
        9 => command.is_broadcast() && mode_to(command),
        _ => false,
    }
}

// Whether it is a command to one terminal to transmit as many words as the first command has others receive.
fn sends_for(first: Command, command: Command) -> bool
    ensures { result ≡ table.sends_for first command }
{
    calls_one(command) && transmits(command) && command.code() == first.code()
}

/// Whether a message of the form with this first command may have this second command; 0 stands for none.
pub fn second_fits(form: u8, first: Command, command: Command) -> bool
    ensures { result ≡ table.second_fits form first command }
{
    match form {
        2 => sends_for(first, command) && command.address() != first.address(),
        7 => sends_for(first, command),
        _ => command.value() == 0,
    }
}

/// How many data words, 0 to 32, the controller sends after the commands.
pub fn words_due(form: u8, first: Command) -> u8
    ensures due { result ≡ table.words_due form first }
    ensures at_most_32 { result ≤ 32 }
{
    match form {
        0 | 6 => first.count(),
        5 | 9 => 1,
        _ => 0,
    }
}
