//! The image that bytes spell. The bytes are judged first, which takes no memory, and then the image is made.
ghost use Rattle.frame_code.specs.Bytes.{image_bytes};
ghost use Rattle.frame_code.specs.Bytes.{number_of_test, operand_of, operation_bytes, line_number, message_bytes};
ghost use Rattle.frame_code.specs.Bytes.{version_of, version_for, two_bytes, mark, header_bytes, operation_number};
ghost use Rattle.frame_code.specs.Fields as table;
ghost use Rattle.frame_code.specs.Ranges.{in_range, is_routine, AreInRange};
ghost use Rattle.frame_code.specs.Reading as spelled;
ghost use Rattle.frame_code.specs.Reading.{ReadsImage, ReadsImageInMemory, behind, many_versions, image_of};
ghost use Rattle.frame_code.specs.Table.{Code};
ghost use Rattle.frame_code.specs.declared.Op.TheVariants as op;
ghost use Rattle.frame_code.specs.declared.error.ImageError.{ImageError};
ghost use Rattle.mil_word.specs.Fields.{most_words};
ghost use Rattle.std.specs.List.{flat_map};
ghost use Rattle.std.specs.Prelude.{IfOk, IfSome, MatchResult, Ok, Err, length};
ghost use Rattle.std.specs.Prelude.{nat_le, if◌then◌else◌, Some, None, ◌∷◌, ◌++◌, ◌≡◌, ◌≢◌, ◌≤◌, ◌<◌, ◌↔◌, IsTrue};

use crate::fields::{first_fits, second_fits, words_due};
use crate::writing::{version_for, version_of};
use crate::{Image, ImageError, Op};
use arrayvec::ArrayVec;
use mil_message::{Message, OutcomeTest};
use mil_status::StatusBit;
use mil_word::timing::LEAST_GAP;
use mil_word::{Command, Line};
use std::alloc::Global;

// A field of one byte.
fn byte(bytes: &[u8]) -> Result<(u8, &[u8]), ImageError>
    ensures byte { ReadsImage (λ x. (x.0, x.1.now)) result (spelled.byte_at bytes.now) }
    ensures spelled { IfOk result (λ x. bytes.now ≡ x.0 ∷ x.1.now) }
    ensures range { IfOk result (λ x. x.0 < 256) }
{
    match bytes.split_first() {
        Some((first, rest)) => Ok((*first, rest)),
        None => Err(ImageError::Length),
    }
}

// A field of two bytes, the low one first.
#[tactic(auto, unfolding(crate::specs::Reading::two_at))]
fn two(bytes: &[u8]) -> Result<(u16, &[u8]), ImageError>
    ensures two { ReadsImage (λ x. (x.0, x.1.now)) result (spelled.two_at bytes.now) }
    ensures spelled { IfOk result (λ x. bytes.now ≡ two_bytes x.0 ++ x.1.now) }
{
    let (low, rest) = byte(bytes)?;
    let (high, rest) = byte(rest)?;
    Ok((u16::from(low) + 256 * u16::from(high), rest))
}

// The version that the mark tells, 1 to 3, and the bytes behind it.
#[tactic(auto, unfolding(crate::specs::Reading::mark_at))]
fn mark(bytes: &[u8]) -> Result<(u8, &[u8]), ImageError>
    ensures mark { ReadsImage (λ x. (x.0, x.1.now)) result (spelled.mark_at bytes.now) }
    ensures spelled { IfOk result (λ x. bytes.now ≡ mark x.0 ++ x.1.now) }
    ensures range { IfOk result (λ x. 1 ≤ x.0) }
{
    match bytes {
        [b'B', b'C', b'0', digit @ b'1'..=b'3', rest @ ..] => Ok((*digit - b'0', rest)),
        _ => Err(ImageError::Mark),
    }
}

// What stands before the operations.
#[derive(Clone, Copy)]
struct Opening<'a> {
    version: u8,
    operations: u16,
    messages: u16,
    rest: &'a [u8],
}

// The mark and the two counts, and the bytes behind them.
#[tactic(auto, unfolding(crate::specs::Reading::header_at))]
fn header(bytes: &[u8]) -> Result<Opening<'_>, ImageError>
    ensures fields { ReadsImage (λ x. (x.version, x.operations, x.messages, x.rest.now)) result
        (spelled.header_at bytes.now) }
    ensures spelled { IfOk result (λ x. bytes.now ≡ header_bytes x.version x.operations x.messages ++ x.rest.now) }
    ensures operations { IfOk result (λ x. x.operations ≤ 4096) }
    ensures version { IfOk result (λ x. 1 ≤ x.version) }
    ensures messages { IfOk result (λ x. x.messages ≤ 1024) }
{
    let (version, rest) = mark(bytes)?;
    let (operations, rest) = two(rest)?;
    if operations > 4096 {
        return Err(ImageError::Operations);
    }
    let (messages, rest) = two(rest)?;
    if messages > 1024 {
        return Err(ImageError::Messages);
    }
    Ok(Opening {
        version,
        operations,
        messages,
        rest,
    })
}

// The test of a number, if there is one.
fn test_of(number: u16) -> Option<OutcomeTest>
    ensures test { result ≡ spelled.test_of number }
    ensures number { IfSome result (λ t. number_of_test t ≡ number) }
{
    match number {
        0 => Some(OutcomeTest::Failed),
        1 => Some(OutcomeTest::Silent),
        2..=15 => None,
        _ => {
            let bit = StatusBit::at(number - 16)?;
            Some(OutcomeTest::Bit(bit))
        }
    }
}

// The call of a routine of this number, if there may be one.
fn call_of(number: u16) -> Option<Op>
    ensures { result ≡ if is_routine number then Some (op.Call number) else None }
{
    if number < 32 {
        Some(Op::Call(number as u8))
    } else {
        None
    }
}

// The operation of a number and an operand, if there is one.
#[tactic(auto, unfolding(crate::specs::Reading::operation_of))]
fn operation_of(number: u8, operand: u16) -> Option<Op>
    ensures operation { result ≡ spelled.operation_of number operand }
    ensures range { IfSome result (λ op. IsTrue (in_range op)) }
    ensures number { IfSome result (λ op. operation_number op ≡ number) }
    ensures operand { IfSome result (λ op. operand_of op ≡ operand) }
{
    match number {
        0 => (operand == 0).then_some(Op::Halt),
        1 => Some(Op::Send(operand)),
        2 => Some(Op::Alt(operand)),
        3 => (operand >= LEAST_GAP).then_some(Op::SetGap(operand)),
        4 => (1 <= operand && operand <= 10000).then_some(Op::Loop(operand)),
        5 => Some(Op::Again(operand)),
        6 => Some(Op::Leave(operand)),
        7 => Some(Op::Jump(operand)),
        8 => Some(Op::Test(test_of(operand)?)),
        9 => Some(Op::JumpFalse(operand)),
        10 => call_of(operand),
        11 => (operand == 0).then_some(Op::Return),
        12 => (operand == 0).then_some(Op::Begin),
        13 => (operand >= 1).then_some(Op::Pace(operand)),
        _ => None,
    }
}

// How many operations a version knows.
fn known(version: u8) -> u8
    ensures { result ≡ spelled.known version }
{
    match version {
        1 => 10,
        2 => 12,
        _ => 14,
    }
}

// An operation: a number that the version knows, 00, and an operand in its range.
#[tactic(auto, unfolding(crate::specs::Reading::operation_at))]
fn operation(version: u8, bytes: &[u8]) -> Result<(Op, &[u8]), ImageError>
    ensures operation { ReadsImage (λ x. (x.0, x.1.now)) result (spelled.operation_at version bytes.now) }
    ensures range { IfOk result (λ x. IsTrue (in_range x.0)) }
    ensures spelled { IfOk result (λ x. bytes.now ≡ operation_bytes x.0 ++ x.1.now) }
    ensures known { IfOk result (λ x. (1 ≤ version) → version_of x.0 ≤ version) }
{
    let (number, rest) = byte(bytes)?;
    if number >= known(version) {
        return Err(ImageError::Operations);
    }
    let (pad, rest) = byte(rest)?;
    if pad != 0 {
        return Err(ImageError::Operations);
    }
    let (operand, rest) = two(rest)?;
    match operation_of(number, operand) {
        Some(op) => Ok((op, rest)),
        None => Err(ImageError::Operations),
    }
}

// The line of a message, 0 or 1.
#[tactic(auto, unfolding(crate::specs::Reading::line_at))]
fn line(bytes: &[u8]) -> Result<(Line, &[u8]), ImageError>
    ensures line { ReadsImage (λ x. (x.0, x.1.now)) result (spelled.line_at bytes.now) }
    ensures spelled { IfOk result (λ x. bytes.now ≡ line_number x.0 ∷ x.1.now) }
{
    let (line, rest) = byte(bytes)?;
    match line {
        0 => Ok((Line::A, rest)),
        1 => Ok((Line::B, rest)),
        _ => Err(ImageError::Messages),
    }
}

// So many data words, at most 32.
fn words(count: u16, bytes: &[u8]) -> Result<(ArrayVec<u16, 32>, &[u8]), ImageError>
    requires { count ≤ most_words }
    ensures words { ReadsImage (λ x. (x.0.items, x.1.now)) result (spelled.many spelled.two_at count bytes.now) }
    ensures count { IfOk result (λ x. length x.0.items ≡ count) }
    ensures spelled { IfOk result (λ x. bytes.now ≡ flat_map two_bytes x.0.items ++ x.1.now) }
{
    let mut found = ArrayVec::new();
    let mut rest = bytes;
    for _ in 0..count {
        let (word, next) = two(rest)?;
        found.push(word);
        rest = next;
    }
    Ok((found, rest))
}

// The data words of a message whose other fields are known, and so the message.
#[tactic(auto, unfolding(crate::specs::Reading::message_words_at))]
fn body(
    form: u8,
    line: Line,
    first: u16,
    second: u16,
    bytes: &[u8],
) -> Result<((Line, Message), &[u8]), ImageError>
    requires form { form < 10 }
    requires first { IsTrue (table.first_fits form first) }
    requires second { IsTrue (table.second_fits form first second) }
    ensures message { ReadsImage (λ x. (x.0, x.1.now)) result
        (spelled.message_words_at form line first second bytes.now) }
    ensures spelled { IfOk result (λ x. form ∷ line_number line ∷ two_bytes first ++ two_bytes second ++ bytes.now
        ≡ message_bytes x.0 ++ x.1.now) }
{
    let (count, rest) = two(bytes)?;
    if count != u16::from(words_due(form, Command::of(first))) {
        return Err(ImageError::Messages);
    }
    let (words, rest) = words(count, rest)?;
    match Message::of_parts(form, first, second, &words) {
        Some(message) => Ok(((line, message), rest)),
        None => Err(ImageError::Messages),
    }
}

// A message with its line.
#[tactic(auto, unfolding(crate::specs::Reading::message_at))]
fn message(bytes: &[u8]) -> Result<((Line, Message), &[u8]), ImageError>
    ensures message { ReadsImage (λ x. (x.0, x.1.now)) result (spelled.message_at bytes.now) }
    ensures spelled { IfOk result (λ x. bytes.now ≡ message_bytes x.0 ++ x.1.now) }
{
    let (form, rest) = byte(bytes)?;
    if form >= 10 {
        return Err(ImageError::Messages);
    }
    let (line, rest) = line(rest)?;
    let (first, rest) = two(rest)?;
    if !first_fits(form, Command::of(first)) {
        return Err(ImageError::Messages);
    }
    let (second, rest) = two(rest)?;
    if !second_fits(form, Command::of(first), Command::of(second)) {
        return Err(ImageError::Messages);
    }
    body(form, line, first, second, rest)
}

// The version that so many operations need, and the bytes behind them.
fn past_operations(version: u8, count: u16, bytes: &[u8]) -> Result<(u8, &[u8]), ImageError>
    ensures { ReadsImage (λ x. (x.0, x.1.now)) result
        (many_versions (spelled.many (spelled.operation_at version) count bytes.now)) }
{
    let mut rest = bytes;
    let mut needed = 1;
    for _ in 0..count {
        let (op, next) = operation(version, rest)?;
        needed = version_of(op).max(needed);
        rest = next;
    }
    Ok((needed, rest))
}

// The bytes behind so many messages.
fn past_messages(count: u16, bytes: &[u8]) -> Result<&[u8], ImageError>
    ensures { ReadsImage (λ rest. rest.now) result (behind (spelled.many spelled.message_at count bytes.now)) }
{
    let mut rest = bytes;
    for _ in 0..count {
        let (_, next) = message(rest)?;
        rest = next;
    }
    Ok(rest)
}

// Whether the bytes are those of an image, else the first fault.
#[tactic(auto, unfolding(crate::specs::Reading::image_of))]
fn judge(bytes: &[u8]) -> Result<(), ImageError>
    ensures { MatchResult result (λ _. (code : Code) × (image_of bytes.now ≡ Ok code))
        (λ e. image_of bytes.now ≡ Err e) }
{
    let header = header(bytes)?;
    let (needed, rest) = past_operations(header.version, header.operations, header.rest)?;
    let rest = past_messages(header.messages, rest)?;
    match rest.split_first() {
        Some(_) => Err(ImageError::Length),
        None => {
            if fits(header.version, needed) {
                Ok(())
            } else {
                Err(ImageError::Version)
            }
        }
    }
}

// A mark is for codes that need it: its version is no higher than the one that they need.
fn fits(version: u8, needed: u8) -> bool
    ensures { result ≡ nat_le version needed }
{
    version <= needed
}

// So many operations.
fn operations(
    alloc: Global,
    version: u8,
    count: u16,
    bytes: &[u8],
) -> Result<(Vec<Op>, &[u8]), ImageError>
    ensures operations { ReadsImageInMemory (λ x. (x.0.items, x.1.now)) result
        (spelled.many (spelled.operation_at version) count bytes.now) }
    ensures known { IfOk result (λ x. (1 ≤ version) → version_for x.0.items ≤ version) }
    ensures range { IfOk result (λ x. AreInRange x.0.items) }
    ensures count { IfOk result (λ x. length x.0.items ≡ count) }
    ensures spelled { IfOk result (λ x. bytes.now ≡ flat_map operation_bytes x.0.items ++ x.1.now) }
{
    let mut found = Vec::new(alloc);
    let mut rest = bytes;
    for _ in 0..count {
        let (op, next) = operation(version, rest)?;
        found.push(op)?;
        rest = next;
    }
    Ok((found, rest))
}

// So many messages.
fn messages(
    alloc: Global,
    count: u16,
    bytes: &[u8],
) -> Result<(Vec<(Line, Message)>, &[u8]), ImageError>
    ensures messages { ReadsImageInMemory
        (λ x. (x.0.items, x.1.now)) result (spelled.many spelled.message_at count bytes.now) }
    ensures count { IfOk result (λ x. length x.0.items ≡ count) }
    ensures spelled { IfOk result (λ x. bytes.now ≡ flat_map message_bytes x.0.items ++ x.1.now) }
{
    let mut found = Vec::new(alloc);
    let mut rest = bytes;
    for _ in 0..count {
        let (entry, next) = message(rest)?;
        found.push(entry)?;
        rest = next;
    }
    Ok((found, rest))
}

// The image that the bytes spell.
#[tactic(auto, unfolding(crate::specs::Reading::image_of))]
fn build(alloc: Global, bytes: &[u8]) -> Result<Image, ImageError>
    ensures image { ReadsImageInMemory (λ image. image) result (image_of bytes.now) }
    ensures spelled { IfOk result (λ image. bytes.now ≡ image_bytes image) }
{
    let header = header(bytes)?;
    let (operations, rest) = operations(alloc, header.version, header.operations, header.rest)?;
    let (messages, rest) = messages(alloc, header.messages, rest)?;
    match rest.split_first() {
        Some(_) => Err(ImageError::Length),
        None => {
            if !fits(header.version, version_for(&operations)) {
                return Err(ImageError::Version);
            }
            Ok(Image {
                operations,
                messages,
            })
        }
    }
}

/// The image that the bytes spell, else their first fault (C1 to C4, then C6); want of memory (C5) is answered for
/// bytes of an image alone. Two byte lists are never read as one image.
pub fn read_image(alloc: Global, bytes: &[u8]) -> Result<Image, ImageError>
    ensures image { IfOk result (λ image. image_of bytes.now ≡ Ok image) }
    ensures spelled { IfOk result (λ image. bytes.now ≡ image_bytes image) }
    ensures exact { (e : ImageError) → e ≢ ImageError.Memory → (result ≡ Err e) ↔ (image_of bytes.now ≡ Err e) }
{
    judge(bytes)?;
    build(alloc, bytes)
}
