//! The form that a draft asks for, or the first fault: one function for each of the ten forms.
ghost use Rattle.mil_message.specs.Request as asks;
ghost use Rattle.mil_message.specs.Rules.{checked};
ghost use Rattle.std.specs.Prelude.{◌≡◌};

use crate::ranges::{
    address, code_alone, code_from, code_to, data_words, ends, no_word, one_word, subaddress,
    word_count,
};
use crate::{BadMessage, Draft, Form, ModeSubaddress};

/// The form that the draft asks for, or the first fault that it has.
#[rattlefmt::skip]
pub fn form(draft: Draft<'_>) -> Result<Form, BadMessage>
    ensures { result ≡ checked (asks.request_of draft.entry) }
{
    match draft {
        Draft::ToTerminal { address, subaddress, words } => to_terminal(address, subaddress, words),
        Draft::FromTerminal { address, subaddress, count } => from_terminal(address, subaddress, count),
        Draft::Between { sender, sender_subaddress, receiver, receiver_subaddress, count } => {
            between(sender, sender_subaddress, receiver, receiver_subaddress, count)
        }
        Draft::Mode { address, subaddress, code, words } => mode(address, subaddress, code, words),
        Draft::ModeFrom { address, subaddress, code, words } => mode_from(address, subaddress, code, words),
        Draft::ModeTo { address, subaddress, code, words } => mode_to(address, subaddress, code, words),
        Draft::ToAll { subaddress, words } => to_all(subaddress, words),
        Draft::BetweenAll { sender, sender_subaddress, receiver_subaddress, count } => {
            between_all(sender, sender_subaddress, receiver_subaddress, count)
        }
        Draft::ModeAll { subaddress, code, words } => mode_all(subaddress, code, words),
        Draft::ModeAllTo { subaddress, code, words } => mode_all_to(subaddress, code, words),
    }
}

/// Controller to terminal.
fn to_terminal(
    address_number: u32,
    subaddress_number: u32,
    words: &[u16],
) -> Result<Form, BadMessage>
    ensures { result ≡ checked (asks.to_terminal address_number subaddress_number words.now) }
{
    let address = address(address_number)?;
    let subaddress = subaddress(subaddress_number)?;
    let words = data_words(words)?;
    Ok(Form::ToTerminal {
        address,
        subaddress,
        words,
    })
}

/// Terminal to controller.
fn from_terminal(
    address_number: u32,
    subaddress_number: u32,
    count: u32,
) -> Result<Form, BadMessage>
    ensures { result ≡ checked (asks.from_terminal address_number subaddress_number count) }
{
    let address = address(address_number)?;
    let subaddress = subaddress(subaddress_number)?;
    let count = word_count(count)?;
    Ok(Form::FromTerminal {
        address,
        subaddress,
        count,
    })
}

/// Terminal to terminal.
fn between(
    sender: u32,
    sender_subaddress: u32,
    receiver: u32,
    receiver_subaddress: u32,
    count: u32,
) -> Result<Form, BadMessage>
    ensures { result ≡ checked (asks.between sender sender_subaddress receiver receiver_subaddress count) }
{
    let sender_address = address(sender)?;
    let receiver_address = address(receiver)?;
    let sender_subaddress = subaddress(sender_subaddress)?;
    let receiver_subaddress = subaddress(receiver_subaddress)?;
    let count = word_count(count)?;
    ends(sender, receiver)?;
    Ok(Form::Between {
        sender: sender_address,
        sender_subaddress,
        receiver: receiver_address,
        receiver_subaddress,
        count,
    })
}

/// A mode command without a data word.
fn mode(
    address_number: u32,
    subaddress: ModeSubaddress,
    code: u32,
    words: Option<&[u16]>,
) -> Result<Form, BadMessage>
    ensures { result ≡ checked (asks.mode address_number subaddress code (asks.written words.entry)) }
{
    let address = address(address_number)?;
    let code = code_alone(code)?;
    no_word(words)?;
    Ok(Form::Mode {
        address,
        subaddress,
        code,
    })
}

/// A mode command with a data word that the terminal sends.
fn mode_from(
    address_number: u32,
    subaddress: ModeSubaddress,
    code: u32,
    words: Option<&[u16]>,
) -> Result<Form, BadMessage>
    ensures { result ≡ checked (asks.mode_from address_number subaddress code (asks.written words.entry)) }
{
    let address = address(address_number)?;
    let code = code_from(code)?;
    no_word(words)?;
    Ok(Form::ModeFrom {
        address,
        subaddress,
        code,
    })
}

/// A mode command with a data word that the controller sends.
fn mode_to(
    address_number: u32,
    subaddress: ModeSubaddress,
    code: u32,
    words: Option<&[u16]>,
) -> Result<Form, BadMessage>
    ensures { result ≡ checked (asks.mode_to address_number subaddress code (asks.written words.entry)) }
{
    let address = address(address_number)?;
    let code = code_to(code)?;
    let word = one_word(words)?;
    Ok(Form::ModeTo {
        address,
        subaddress,
        code,
        word,
    })
}

/// Controller to all terminals.
fn to_all(subaddress_number: u32, words: &[u16]) -> Result<Form, BadMessage>
    ensures { result ≡ checked (asks.to_all subaddress_number words.now) }
{
    let subaddress = subaddress(subaddress_number)?;
    let words = data_words(words)?;
    Ok(Form::ToAll { subaddress, words })
}

/// Terminal to all others.
fn between_all(
    sender: u32,
    sender_subaddress: u32,
    receiver_subaddress: u32,
    count: u32,
) -> Result<Form, BadMessage>
    ensures { result ≡ checked (asks.between_all sender sender_subaddress receiver_subaddress count) }
{
    let sender = address(sender)?;
    let sender_subaddress = subaddress(sender_subaddress)?;
    let receiver_subaddress = subaddress(receiver_subaddress)?;
    let count = word_count(count)?;
    Ok(Form::BetweenAll {
        sender,
        sender_subaddress,
        receiver_subaddress,
        count,
    })
}

/// A mode command without a data word to all terminals.
fn mode_all(
    subaddress: ModeSubaddress,
    code: u32,
    words: Option<&[u16]>,
) -> Result<Form, BadMessage>
    ensures { result ≡ checked (asks.mode_all subaddress code (asks.written words.entry)) }
{
    let code = code_alone(code)?;
    no_word(words)?;
    Ok(Form::ModeAll { subaddress, code })
}

/// A mode command with a data word that the controller sends to all terminals.
fn mode_all_to(
    subaddress: ModeSubaddress,
    code: u32,
    words: Option<&[u16]>,
) -> Result<Form, BadMessage>
    ensures { result ≡ checked (asks.mode_all_to subaddress code (asks.written words.entry)) }
{
    let code = code_to(code)?;
    let word = one_word(words)?;
    Ok(Form::ModeAllTo {
        subaddress,
        code,
        word,
    })
}
