//! The form of a message as text, and the bits of its block status word.
ghost use Rattle.bench_decode.specs.BitText as bits;
ghost use Rattle.bench_decode.specs.Columns.{text};
ghost use Rattle.bench_decode.specs.FormText as spec;
ghost use Rattle.bench_decode.specs.Waiting.{drawn_on};
ghost use Rattle.std.specs.Prelude.{◌≡◌, ◌+◌, ◌*◌, ◌≤◌, ◌∷◌, ◌++◌, [], length};

use crate::line::{CONTROL, SIZE, SMALL, TextLine};
use crate::modes::mode_name;
use ch11_layout::block::{
    FORMAT_ERROR, INVALID_WORD_ERROR, MESSAGE_ERROR, RESPONSE_TIMEOUT, SYNC_TYPE_ERROR,
    TERMINAL_TO_TERMINAL, WORD_COUNT_ERROR,
};
use ch11_layout::{RecordedForm, is_set};

/// How many bytes a form takes at most: a word of a script with five numbers, or with two, a nought, and the name of a
/// mode code.
pub(crate) const FORM: usize = 128;

/// How many bytes the names of the bits of a block status word take at most.
pub(crate) const BLOCK: usize = 160;

/// Puts numbers, each behind a space.
#[inline]
fn put_numbers(line: &mut TextLine, numbers: &[u8])
    requires { length line.old.text + SMALL * length numbers.now ≤ SIZE }
    ensures put { line.new ≡ drawn_on line.old (spec.numbers numbers.now) }
    ensures few { length line.new.text ≤ length line.old.text + SMALL * length numbers.now }
{
    let mut rest = numbers;
    'numbers: while let Some((number, others)) = rest.split_first() {
        line.put_small(*number);
        rest = others;
    }
}

/// Puts a 0 where a subaddress is 0.
fn put_zero(line: &mut TextLine, subaddress: u8)
    requires { length line.old.text + 1 ≤ SIZE }
    ensures put { line.new ≡ drawn_on line.old (spec.zero_mark subaddress) }
    ensures few { length line.new.text ≤ length line.old.text + 1 }
{
    if subaddress == 0 {
        line.put(b"0");
    }
}

/// Puts what stands behind the word of a mode command: a 0 where the subaddress is 0, its numbers, and what it asks.
fn put_mode(line: &mut TextLine, subaddress: u8, numbers: &[u8], transmit: bool, code: u8)
    requires numbers { length numbers.now ≤ 2 }
    requires room { length line.old.text + 82 ≤ SIZE }
    ensures put { line.new ≡ drawn_on line.old (spec.mode_parts subaddress numbers.now transmit code) }
    ensures few { length line.new.text ≤ length line.old.text + 82 }
{
    put_zero(line, subaddress);
    put_numbers(line, numbers);
    line.put(b" ");
    line.put(mode_name(transmit, code));
}

/// Puts a word of a script with its numbers.
#[inline]
fn put_word(line: &mut TextLine, word: &[u8], numbers: &[u8])
    requires { length line.old.text + length word.now + SMALL * length numbers.now ≤ SIZE }
    ensures put { line.new ≡ drawn_on line.old (text word.now ∷ spec.numbers numbers.now) }
    ensures few { length line.new.text
        ≤ length line.old.text + length word.now + SMALL * length numbers.now }
{
    line.put(word);
    put_numbers(line, numbers);
}

/// Puts a form in the words of a script, with the count of data words of its command.
pub(crate) fn put_form(line: &mut TextLine, form: RecordedForm)
    requires { length line.old.text + FORM ≤ SIZE }
    ensures put { line.new ≡ drawn_on line.old (spec.form_parts form) }
    ensures few { length line.new.text ≤ length line.old.text + FORM }
{
    match form {
        RecordedForm::Receive {
            address,
            subaddress,
            count,
        } => put_word(line, b"rx", &[address, subaddress, count]),
        RecordedForm::Transmit {
            address,
            subaddress,
            count,
        } => put_word(line, b"tx", &[address, subaddress, count]),
        RecordedForm::Between {
            sender,
            sender_subaddress: from,
            receiver,
            receiver_subaddress: to,
            count,
        } => put_word(line, b"rt", &[sender, from, receiver, to, count]),
        RecordedForm::Mode {
            address,
            subaddress,
            transmit,
            code,
        } => {
            line.put(b"mode");
            put_mode(line, subaddress, &[address, code], transmit, code);
        }
        RecordedForm::ReceiveAll { subaddress, count } => put_word(
            line,
            b"brx",
            &[subaddress, count],
        ),
        RecordedForm::BetweenAll {
            sender,
            sender_subaddress: from,
            receiver_subaddress: to,
            count,
        } => put_word(line, b"brt", &[sender, from, to, count]),
        RecordedForm::ModeAll {
            subaddress,
            transmit,
            code,
        } => {
            line.put(b"bmode");
            put_mode(line, subaddress, &[code], transmit, code);
        }
        RecordedForm::Unknown => line.put(b"no known form"),
    }
}

/// Puts the name of a bit, where it is set.
#[inline(always)]
pub(crate) fn put_name(line: &mut TextLine, set: bool, name: &[u8])
    requires { length line.old.text + length name.now ≤ SIZE }
    ensures put { line.new ≡ drawn_on line.old (bits.named set name.now) }
    ensures few { length line.new.text ≤ length line.old.text + length name.now }
{
    if set {
        line.put(name);
    }
}

/// Puts that there is an error.
fn put_error(line: &mut TextLine, block: u16)
    requires { length line.old.text + 24 ≤ SIZE }
    ensures put { line.new ≡ drawn_on line.old (bits.error_parts block) }
    ensures few { length line.new.text ≤ length line.old.text + 24 }
{
    if is_set(block, MESSAGE_ERROR) {
        line.begin_red();
        line.put(b" message_error");
        line.end_red();
    }
}

/// Puts the names of the kinds of error.
fn put_kind_names(line: &mut TextLine, block: u16)
    requires { length line.old.text + 82 ≤ SIZE }
    ensures put { line.new ≡ drawn_on line.old (bits.kind_names block) }
    ensures few { length line.new.text ≤ length line.old.text + 82 }
{
    put_name(line, is_set(block, FORMAT_ERROR), b" format_error");
    put_name(line, is_set(block, RESPONSE_TIMEOUT), b" response_timeout");
    put_name(line, is_set(block, WORD_COUNT_ERROR), b" word_count_error");
    put_name(line, is_set(block, SYNC_TYPE_ERROR), b" sync_type_error");
    put_name(
        line,
        is_set(block, INVALID_WORD_ERROR),
        b" invalid_word_error",
    );
}

/// Puts the kinds of error that a block status word tells of.
fn put_kinds(line: &mut TextLine, block: u16)
    requires { length line.old.text + 92 ≤ SIZE }
    ensures put { line.new ≡ drawn_on line.old (bits.kind_parts block) }
    ensures few { length line.new.text ≤ length line.old.text + 92 }
{
    if tells_kind(block) {
        line.begin_red();
        put_kind_names(line, block);
        line.end_red();
    }
}

/// Puts the names of the bits of a block status word that are set, each behind a space; the line is told elsewhere.
pub(crate) fn put_block(line: &mut TextLine, block: u16)
    requires { length line.old.text + BLOCK ≤ SIZE }
    ensures put { line.new ≡ drawn_on line.old (bits.block_parts block) }
    ensures few { length line.new.text ≤ length line.old.text + BLOCK }
{
    put_error(line, block);
    put_name(
        line,
        is_set(block, TERMINAL_TO_TERMINAL),
        b" terminal_to_terminal",
    );
    put_kinds(line, block);
}

/// Whether a block status word has a bit that tells of a kind of error (IRIG 106-17 Chapter 11).
#[inline]
fn tells_kind(block: u16) -> bool
    ensures { result ≡ bits.tells_kind block }
{
    is_set(block, FORMAT_ERROR)
        || is_set(block, RESPONSE_TIMEOUT)
        || is_set(block, WORD_COUNT_ERROR)
        || is_set(block, SYNC_TYPE_ERROR)
        || is_set(block, INVALID_WORD_ERROR)
}

/// Whether a block status word has a bit with a name, but that of the line.
#[inline]
pub(crate) fn has_names(block: u16) -> bool
    ensures { result ≡ bits.has_names block }
{
    is_set(block, MESSAGE_ERROR) || is_set(block, TERMINAL_TO_TERMINAL) || tells_kind(block)
}
