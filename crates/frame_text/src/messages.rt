//! The text of a message.

ghost use Rattle.frame_text.specs.Messages as reads;
ghost use Rattle.frame_text.specs.Reading.{ReadsTokens, IsOfText};
ghost use Rattle.frame_text.specs.Tokens.{tokens};
ghost use Rattle.mil_message.specs.Request.{request_of};
ghost use Rattle.std.specs.Prelude.{◌≡◌, ◌<◌, length, IfOk, IfErr};

use crate::faults::{Cause, TextFault};
use crate::keywords::{MessageWord, is, message_word, misplaced};
use crate::tokens::{fault, first_token};
use crate::words::{bracketed, number, optional};
use mil_message::{Draft, Message, ModeSubaddress};
use mil_word::Line;

#[tactic(auto, unfolding(crate::specs::Messages::line_at))]
fn line(text: &[u8]) -> Result<(Line, &[u8]), TextFault>
    ensures tree { ReadsTokens (λ x. (x.0, tokens x.1.now)) result (reads.line_at (tokens text.now)) }
    ensures fewer { IfOk result (λ x. length (tokens x.1.now) < length (tokens text.now)) }
    ensures of_text { IfErr result (λ e. IsOfText e) }
{
    let (word, rest) = first_token(text)?;
    if is(word, b"A") {
        return Ok((Line::A, rest));
    }
    if is(word, b"B") {
        return Ok((Line::B, rest));
    }
    Err(fault(misplaced(word), text))
}

// The message that a draft asks for; `text` begins with its first word, and `rest` comes after it.
fn made<'a>(draft: Draft<'_>, text: &[u8], rest: &'a [u8]) -> Result<(Message, &'a [u8]), TextFault>
    ensures tree { ReadsTokens (λ x. (x.0, tokens x.1.now)) result
        (reads.made (tokens text.now) (request_of draft.entry) (tokens rest.now)) }
    ensures rest { IfOk result (λ x. x.1.now ≡ rest.now) }
    ensures of_text { IfErr result (λ e. IsOfText e) }
{
    match Message::check(draft) {
        Ok(message) => Ok((message, rest)),
        Err(bad) => Err(fault(Cause::Message(bad), text)),
    }
}

#[tactic(auto, unfolding(crate::specs::Messages::receive_at))]
fn receive<'a>(text: &[u8], rest: &'a [u8]) -> Result<(Message, &'a [u8]), TextFault>
    ensures tree { ReadsTokens (λ x. (x.0, tokens x.1.now)) result
        (reads.receive_at (tokens text.now) (tokens rest.now)) }
    ensures fewer { IfOk result (λ x. length (tokens x.1.now) < length (tokens rest.now)) }
    ensures of_text { IfErr result (λ e. IsOfText e) }
{
    let (address, rest) = number(rest)?;
    let (subaddress, rest) = number(rest)?;
    let (words, rest) = bracketed(rest)?;
    made(
        Draft::ToTerminal {
            address,
            subaddress,
            words: words.as_slice(),
        },
        text,
        rest,
    )
}

#[tactic(auto, unfolding(crate::specs::Messages::transmit_at))]
fn transmit<'a>(text: &[u8], rest: &'a [u8]) -> Result<(Message, &'a [u8]), TextFault>
    ensures tree { ReadsTokens (λ x. (x.0, tokens x.1.now)) result
        (reads.transmit_at (tokens text.now) (tokens rest.now)) }
    ensures fewer { IfOk result (λ x. length (tokens x.1.now) < length (tokens rest.now)) }
    ensures of_text { IfErr result (λ e. IsOfText e) }
{
    let (address, rest) = number(rest)?;
    let (subaddress, rest) = number(rest)?;
    let (count, rest) = number(rest)?;
    made(
        Draft::FromTerminal {
            address,
            subaddress,
            count,
        },
        text,
        rest,
    )
}

#[tactic(auto, unfolding(crate::specs::Messages::transfer_at))]
fn transfer<'a>(text: &[u8], rest: &'a [u8]) -> Result<(Message, &'a [u8]), TextFault>
    ensures tree { ReadsTokens (λ x. (x.0, tokens x.1.now)) result
        (reads.transfer_at (tokens text.now) (tokens rest.now)) }
    ensures fewer { IfOk result (λ x. length (tokens x.1.now) < length (tokens rest.now)) }
    ensures of_text { IfErr result (λ e. IsOfText e) }
{
    let (sender, rest) = number(rest)?;
    let (sender_subaddress, rest) = number(rest)?;
    let (receiver, rest) = number(rest)?;
    let (receiver_subaddress, rest) = number(rest)?;
    let (count, rest) = number(rest)?;
    made(
        Draft::Between {
            sender,
            sender_subaddress,
            receiver,
            receiver_subaddress,
            count,
        },
        text,
        rest,
    )
}

#[tactic(auto, unfolding(crate::specs::Messages::mode_at))]
fn mode<'a>(
    text: &[u8],
    rest: &'a [u8],
    subaddress: ModeSubaddress,
) -> Result<(Message, &'a [u8]), TextFault>
    ensures tree { ReadsTokens (λ x. (x.0, tokens x.1.now)) result
        (reads.mode_at subaddress (tokens text.now) (tokens rest.now)) }
    ensures fewer { IfOk result (λ x. length (tokens x.1.now) < length (tokens rest.now)) }
    ensures of_text { IfErr result (λ e. IsOfText e) }
{
    let (address, rest) = number(rest)?;
    let (code, rest) = number(rest)?;
    let (words, rest) = optional(rest)?;
    let words = words.as_ref().map(|words| words.as_slice());
    made(
        Draft::mode_command(address, subaddress, code, words),
        text,
        rest,
    )
}

#[tactic(auto, unfolding(crate::specs::Messages::receive_all_at))]
fn receive_all<'a>(text: &[u8], rest: &'a [u8]) -> Result<(Message, &'a [u8]), TextFault>
    ensures tree { ReadsTokens (λ x. (x.0, tokens x.1.now)) result
        (reads.receive_all_at (tokens text.now) (tokens rest.now)) }
    ensures fewer { IfOk result (λ x. length (tokens x.1.now) < length (tokens rest.now)) }
    ensures of_text { IfErr result (λ e. IsOfText e) }
{
    let (subaddress, rest) = number(rest)?;
    let (words, rest) = bracketed(rest)?;
    made(
        Draft::ToAll {
            subaddress,
            words: words.as_slice(),
        },
        text,
        rest,
    )
}

#[tactic(auto, unfolding(crate::specs::Messages::transfer_all_at))]
fn transfer_all<'a>(text: &[u8], rest: &'a [u8]) -> Result<(Message, &'a [u8]), TextFault>
    ensures tree { ReadsTokens (λ x. (x.0, tokens x.1.now)) result
        (reads.transfer_all_at (tokens text.now) (tokens rest.now)) }
    ensures fewer { IfOk result (λ x. length (tokens x.1.now) < length (tokens rest.now)) }
    ensures of_text { IfErr result (λ e. IsOfText e) }
{
    let (sender, rest) = number(rest)?;
    let (sender_subaddress, rest) = number(rest)?;
    let (receiver_subaddress, rest) = number(rest)?;
    let (count, rest) = number(rest)?;
    made(
        Draft::BetweenAll {
            sender,
            sender_subaddress,
            receiver_subaddress,
            count,
        },
        text,
        rest,
    )
}

#[tactic(auto, unfolding(crate::specs::Messages::mode_all_at))]
fn mode_all<'a>(
    text: &[u8],
    rest: &'a [u8],
    subaddress: ModeSubaddress,
) -> Result<(Message, &'a [u8]), TextFault>
    ensures tree { ReadsTokens (λ x. (x.0, tokens x.1.now)) result
        (reads.mode_all_at subaddress (tokens text.now) (tokens rest.now)) }
    ensures fewer { IfOk result (λ x. length (tokens x.1.now) < length (tokens rest.now)) }
    ensures of_text { IfErr result (λ e. IsOfText e) }
{
    let (code, rest) = number(rest)?;
    let (words, rest) = optional(rest)?;
    let words = words.as_ref().map(|words| words.as_slice());
    made(
        Draft::mode_command_to_all(subaddress, code, words),
        text,
        rest,
    )
}

#[tactic(auto, unfolding(crate::specs::Messages::message_at, crate::specs::Messages::message_of))]
fn message(text: &[u8]) -> Result<(Message, &[u8]), TextFault>
    ensures tree { ReadsTokens (λ x. (x.0, tokens x.1.now)) result (reads.message_at (tokens text.now)) }
    ensures fewer { IfOk result (λ x. length (tokens x.1.now) < length (tokens text.now)) }
    ensures of_text { IfErr result (λ e. IsOfText e) }
{
    let (word, rest) = first_token(text)?;
    match message_word(word) {
        MessageWord::Receive => receive(text, rest),
        MessageWord::Transmit => transmit(text, rest),
        MessageWord::Transfer => transfer(text, rest),
        MessageWord::Mode => mode(text, rest, ModeSubaddress::ThirtyOne),
        MessageWord::ModeZero => mode(text, rest, ModeSubaddress::Zero),
        MessageWord::ReceiveAll => receive_all(text, rest),
        MessageWord::TransferAll => transfer_all(text, rest),
        MessageWord::ModeAll => mode_all(text, rest, ModeSubaddress::ThirtyOne),
        MessageWord::ModeZeroAll => mode_all(text, rest, ModeSubaddress::Zero),
        MessageWord::NoMessage => Err(fault(misplaced(word), text)),
    }
}

/// A line and a message.
#[tactic(auto, unfolding(crate::specs::Messages::send_at))]
pub fn send(text: &[u8]) -> Result<(Line, Message, &[u8]), TextFault>
    ensures tree { ReadsTokens (λ x. ((x.0, x.1), tokens x.2.now)) result (reads.send_at (tokens text.now)) }
    ensures fewer { IfOk result (λ x. length (tokens x.2.now) < length (tokens text.now)) }
    ensures of_text { IfErr result (λ e. IsOfText e) }
{
    let (line, rest) = line(text)?;
    let (message, rest) = message(rest)?;
    Ok((line, message, rest))
}
