//! A message as numbers, as the image of a program holds it.
ghost use Rattle.mil_message.specs.Parts.{parts_of, request_at, transfer_at, mode_command_at};
ghost use Rattle.mil_message.specs.Request.{request_of};
ghost use Rattle.mil_message.specs.Rules.{checked, request_for, IsLawful};
ghost use Rattle.mil_message.specs.declared.forms.Form.{Form as FormValue};
ghost use Rattle.std.specs.Prelude.{◌≡◌, ◌↔◌, Ok, Some, IsTrue, option_map, unwrap_or};

use crate::{Draft, Message, ModeSubaddress};
use mil_word::Command;

impl Message {
    /// The message with this number of its form, these command words, the second 0 where the form has one alone, and
    /// these data words from the controller, if there is one.
    pub fn of_parts(form_number: u8, first: u16, second: u16, words: &[u16]) -> Option<Message>
        ensures exact { (form : FormValue)
            → (result ≡ Some form) ↔
            (IsLawful form × (parts_of form
            ≡ record { number = form_number; first = first; second = second; words = words.now })) }
    {
        let draft = draft_of(form_number, first, second, words)?;
        match Message::check(draft) {
            Ok(message) => {
                if has_parts(&message, form_number, first, second, words) {
                    Some(message)
                } else {
                    None
                }
            }
            Err(_) => None,
        }
    }

    /// The draft that `check` accepted: checked again, it gives this message.
    pub fn draft(&self) -> Draft<'_>
        ensures same { request_of result ≡ request_for self.now }
        ensures accepted { checked (request_of result) ≡ Ok self.now }
    {
        // Read for the proof alone: that a message is lawful stands with its type.
        let _lawful = self.form();
        let commands = self.commands();
        let first = commands.first.value();
        let second = value_of_second(commands.second);
        match draft_of(self.form_number(), first, second, self.data_words()) {
            Some(draft) => draft,
            None => unreachable!(),
        }
    }
}

/// The second command word, 0 where there is none.
fn value_of_second(second: Option<Command>) -> u16
    ensures { result ≡ unwrap_or second 0 }
{
    match second {
        Some(command) => command.value(),
        None => 0,
    }
}

/// Whether the message has these parts.
fn has_parts(message: &Message, form_number: u8, first: u16, second: u16, words: &[u16]) -> bool
    ensures { IsTrue result ↔ (parts_of message.now
        ≡ record { number = form_number; first = first; second = second; words = words.now }) }
{
    let commands = message.commands();
    message.form_number() == form_number
        && commands.first.value() == first
        && value_of_second(commands.second) == second
        && message.data_words() == words
}

/// The draft whose message can have these parts.
fn draft_of(form_number: u8, first: u16, second: u16, words: &[u16]) -> Option<Draft<'_>>
    ensures { option_map request_of result
        ≡ request_at (record { number = form_number; first = first; second = second; words = words.now }) }
{
    let first = Command::of(first);
    match transfer(form_number, first, Command::of(second), words) {
        Some(draft) => Some(draft),
        None => mode_command(form_number, first, words),
    }
}

/// The draft of a transfer of data.
fn transfer(form_number: u8, first: Command, second: Command, words: &[u16]) -> Option<Draft<'_>>
    ensures { option_map request_of result
        ≡ transfer_at (record { number = form_number; first = first; second = second; words = words.now }) }
{
    let address = u32::from(first.address());
    let subaddress = u32::from(first.subaddress());
    let count = u32::from(first.count());
    let sender = u32::from(second.address());
    let sender_subaddress = u32::from(second.subaddress());
    match form_number {
        0 => Some(Draft::ToTerminal {
            address,
            subaddress,
            words,
        }),
        1 => Some(Draft::FromTerminal {
            address,
            subaddress,
            count,
        }),
        2 => Some(Draft::Between {
            sender,
            sender_subaddress,
            receiver: address,
            receiver_subaddress: subaddress,
            count,
        }),
        6 => Some(Draft::ToAll { subaddress, words }),
        7 => Some(Draft::BetweenAll {
            sender,
            sender_subaddress,
            receiver_subaddress: subaddress,
            count,
        }),
        _ => None,
    }
}

/// The draft of a mode command.
fn mode_command(form_number: u8, first: Command, words: &[u16]) -> Option<Draft<'_>>
    ensures { option_map request_of result ≡ mode_command_at form_number first words.now }
{
    let address = u32::from(first.address());
    let code = u32::from(first.code());
    let subaddress = if first.subaddress() == 0 {
        ModeSubaddress::Zero
    } else {
        ModeSubaddress::ThirtyOne
    };
    match form_number {
        3 => Some(Draft::Mode {
            address,
            subaddress,
            code,
            words: None,
        }),
        4 => Some(Draft::ModeFrom {
            address,
            subaddress,
            code,
            words: None,
        }),
        5 => Some(Draft::ModeTo {
            address,
            subaddress,
            code,
            words: Some(words),
        }),
        8 => Some(Draft::ModeAll {
            subaddress,
            code,
            words: None,
        }),
        9 => Some(Draft::ModeAllTo {
            subaddress,
            code,
            words: Some(words),
        }),
        _ => None,
    }
}
