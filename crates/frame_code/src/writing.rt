//! The bytes of an image.
ghost use Rattle.frame_code.specs.Bytes as spelled;
ghost use Rattle.frame_code.specs.Ranges.{IsImage};
ghost use Rattle.frame_code.specs.Reading.{image_of};
ghost use Rattle.mil_message.specs.Parts.{parts_of};
ghost use Rattle.mil_message.specs.Rules.{IsLawful};
ghost use Rattle.std.specs.List.{flat_map};
ghost use Rattle.std.specs.Prelude.{◌≡◌, ◌≤◌, ◌++◌, Ok, IfOk, OnOk};

use crate::{Image, Op};
use mil_message::{Message, OutcomeTest};
use mil_word::Line;
use std::alloc::{AllocError, Global};

// Two bytes more, the low one first.
fn put_two(bytes: &mut Vec<u8>, number: u16) -> Result<(), AllocError>
    ensures { OnOk result (bytes.new.items ≡ bytes.old.items ++ spelled.two_bytes number) }
{
    bytes.push((number % 256) as u8)?;
    bytes.push((number / 256) as u8)?;
    Ok(())
}

// The number of an operation.
fn number_of(op: Op) -> u8
    ensures { result ≡ spelled.operation_number op }
{
    match op {
        Op::Halt => 0,
        Op::Send(_) => 1,
        Op::Alt(_) => 2,
        Op::SetGap(_) => 3,
        Op::Loop(_) => 4,
        Op::Again(_) => 5,
        Op::Leave(_) => 6,
        Op::Jump(_) => 7,
        Op::Test(_) => 8,
        Op::JumpFalse(_) => 9,
        Op::Call(_) => 10,
        Op::Return => 11,
        Op::Begin => 12,
        Op::Pace(_) => 13,
    }
}

// The number of a test.
fn number_of_test(test: OutcomeTest) -> u8
    ensures { result ≡ spelled.number_of_test test }
{
    match test {
        OutcomeTest::Failed => 0,
        OutcomeTest::Silent => 1,
        OutcomeTest::Bit(bit) => 16 + bit.place(),
    }
}

// The operand of an operation, 0 for Halt, Return and Begin.
fn operand_of(op: Op) -> u16
    ensures { result ≡ spelled.operand_of op }
{
    match op {
        Op::Halt | Op::Return | Op::Begin => 0,
        Op::Send(operand)
        | Op::Alt(operand)
        | Op::SetGap(operand)
        | Op::Loop(operand)
        | Op::Again(operand)
        | Op::Leave(operand)
        | Op::Jump(operand)
        | Op::JumpFalse(operand)
        | Op::Pace(operand) => operand,
        Op::Test(test) => u16::from(number_of_test(test)),
        Op::Call(routine) => u16::from(routine),
    }
}

/// The version of an image that the operation needs: 3 for Begin and Pace, 2 for Call and Return, 1 for all others.
pub fn version_of(op: Op) -> u8
    ensures value { result ≡ spelled.version_of op }
    ensures range { (1 ≤ result) × (result ≤ 3) }
{
    match op {
        Op::Begin | Op::Pace(_) => 3,
        Op::Call(_) | Op::Return => 2,
        _ => 1,
    }
}

/// The lowest version of an image that knows all of these operations, 1 to 3.
pub fn version_for(operations: &[Op]) -> u8
    ensures value { result ≡ spelled.version_for operations.now }
    ensures range { (1 ≤ result) × (result ≤ 3) }
{
    match operations.split_first() {
        None => 1,
        Some((op, rest)) => version_of(*op).max(version_for(rest)),
    }
}

// The mark of an image of this version, 1 to 3.
fn mark(version: u8) -> [u8; 4]
    requires { (1 ≤ version) × (version ≤ 3) }
    ensures { result ≡ spelled.mark version }
{
    [b'B', b'C', b'0', b'0' + version]
}

fn put_operation(bytes: &mut Vec<u8>, op: Op) -> Result<(), AllocError>
    ensures { OnOk result (bytes.new.items ≡ bytes.old.items ++ spelled.operation_bytes op) }
{
    bytes.push(number_of(op))?;
    bytes.push(0)?;
    put_two(bytes, operand_of(op))
}

fn put_operations(bytes: &mut Vec<u8>, operations: &[Op]) -> Result<(), AllocError>
    ensures { OnOk result (bytes.new.items ≡ bytes.old.items ++ flat_map spelled.operation_bytes operations.now) }
{
    for op in operations {
        put_operation(bytes, *op)?;
    }
    Ok(())
}

fn put_words(bytes: &mut Vec<u8>, words: &[u16]) -> Result<(), AllocError>
    ensures { OnOk result (bytes.new.items ≡ bytes.old.items ++ flat_map spelled.two_bytes words.now) }
{
    for word in words {
        put_two(bytes, *word)?;
    }
    Ok(())
}

fn line_number(line: Line) -> u8
    ensures { result ≡ spelled.line_number line }
{
    match line {
        Line::A => 0,
        Line::B => 1,
    }
}

// The value of the second command, 0 for none.
fn second_of(message: &Message) -> u16
    ensures { result ≡ (parts_of message.now).second }
{
    match message.commands().second {
        Some(command) => command.value(),
        None => 0,
    }
}

fn put_message(bytes: &mut Vec<u8>, line: Line, message: &Message) -> Result<(), AllocError>
    ensures bytes { OnOk result (bytes.new.items ≡ bytes.old.items ++ spelled.message_bytes (line, message.now)) }
    ensures lawful { IsLawful message.now }
{
    // Read for the proof alone: that a message is lawful stands with its type.
    let _form = message.form();
    let words = message.data_words();
    bytes.push(message.form_number())?;
    bytes.push(line_number(line))?;
    put_two(bytes, message.commands().first.value())?;
    put_two(bytes, second_of(message))?;
    put_two(bytes, words.len() as u16)?;
    put_words(bytes, words)
}

fn put_messages(bytes: &mut Vec<u8>, messages: &[(Line, Message)]) -> Result<(), AllocError>
    ensures bytes { OnOk result (bytes.new.items ≡ bytes.old.items ++ flat_map spelled.message_bytes messages.now) }
    ensures lawful { OnOk result (spelled.AreLawful messages.now) }
{
    for entry in messages {
        put_message(bytes, entry.0, &entry.1)?;
    }
    Ok(())
}

// The bytes of an image, all of whose messages are lawful.
fn written(alloc: Global, image: &Image) -> Result<Vec<u8>, AllocError>
    ensures bytes { IfOk result (λ bytes. bytes.items ≡ spelled.image_bytes image.now) }
    ensures lawful { IfOk result (λ bytes. spelled.AreLawful image.now.messages) }
    ensures image { IfOk result (λ bytes. IsImage image.now) }
{
    let operations = image.operations();
    let messages = image.messages();
    let mut bytes = Vec::new(alloc);
    bytes.extend_from_slice(&mark(version_for(operations)))?;
    put_two(&mut bytes, operations.len() as u16)?;
    put_two(&mut bytes, messages.len() as u16)?;
    put_operations(&mut bytes, operations)?;
    put_messages(&mut bytes, messages)?;
    Ok(bytes)
}

/// The bytes of an image, with the lowest mark that knows all operations: BC01 where none has a number above 9, BC02
/// where none has one above 11, else BC03. `read_image` gives the image back.
pub fn write_image(alloc: Global, image: &Image) -> Result<Vec<u8>, AllocError>
    ensures bytes { IfOk result (λ bytes. bytes.items ≡ spelled.image_bytes image.now) }
    ensures read_back { IfOk result (λ bytes. image_of bytes.items ≡ Ok image.now) }
{
    written(alloc, image)
}
