//! Which messages a selector is about.
ghost use Rattle.judge_rules.specs.Selecting as spec;
ghost use Rattle.std.specs.Prelude.{◌≡◌};

use crate::rules::Selector;
use mil_word::Command;

/// Whether a number is the one that was chosen; each is where none was.
fn is_chosen(choice: Option<u8>, number: u8) -> bool
    ensures { result ≡ spec.is_chosen choice number }
{
    match choice {
        Some(chosen) => number == chosen,
        None => true,
    }
}

/// Whether a command calls the terminal that was chosen, and not all terminals.
fn calls(choice: Option<u8>, command: Command) -> bool
    ensures { result ≡ spec.calls choice command }
{
    !command.is_broadcast() && is_chosen(choice, command.address())
}

/// A command to receive at the subaddress that was chosen.
fn receives(choice: Option<u8>, command: Command) -> bool
    ensures { result ≡ spec.receives choice command }
{
    command.is_receive() && is_chosen(choice, command.subaddress())
}

/// A command to transmit from the subaddress that was chosen.
fn transmits(choice: Option<u8>, command: Command) -> bool
    ensures { result ≡ spec.transmits choice command }
{
    !command.is_mode() && command.is_transmit() && is_chosen(choice, command.subaddress())
}

/// A mode command with the code that was chosen.
fn has_code(choice: Option<u8>, command: Command) -> bool
    ensures { result ≡ spec.has_code choice command }
{
    command.is_mode() && is_chosen(choice, command.code())
}

/// Whether a selector is about a message with this one command.
fn selects_one(selector: Selector, command: Command) -> bool
    ensures { result ≡ spec.selects_one selector command }
{
    match selector {
        Selector::Any => true,
        Selector::Receive {
            address,
            subaddress,
        } => calls(address, command) && receives(subaddress, command),
        Selector::Transmit {
            address,
            subaddress,
        } => calls(address, command) && transmits(subaddress, command),
        Selector::Mode { address, code } => calls(address, command) && has_code(code, command),
        Selector::ReceiveAll { subaddress } => {
            command.is_broadcast() && receives(subaddress, command)
        }
        Selector::ModeAll { code } => command.is_broadcast() && has_code(code, command),
        Selector::Between { .. } | Selector::BetweenAll { .. } => false,
    }
}

/// Whether a selector is about a message with these two commands.
fn selects_two(selector: Selector, first: Command, second: Command) -> bool
    ensures { result ≡ spec.selects_two selector first second }
{
    match selector {
        Selector::Any => true,
        Selector::Between {
            sender,
            sender_subaddress,
            receiver,
            receiver_subaddress,
        } => {
            calls(receiver, first)
                && receives(receiver_subaddress, first)
                && calls(sender, second)
                && transmits(sender_subaddress, second)
        }
        Selector::BetweenAll {
            sender,
            sender_subaddress,
            receiver_subaddress,
        } => {
            first.is_broadcast()
                && receives(receiver_subaddress, first)
                && calls(sender, second)
                && transmits(sender_subaddress, second)
        }
        _ => false,
    }
}

impl Selector {
    /// Whether this is about a message with these commands: its first, and the second of the two forms between
    /// terminals.
    pub fn selects(self, first: Command, second: Option<Command>) -> bool
        ensures { result ≡ spec.selects self first second }
    {
        match second {
            None => selects_one(self, first),
            Some(second) => selects_two(self, first, second),
        }
    }
}
