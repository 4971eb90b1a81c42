//! A message as a line.
ghost use Rattle.bench_decode.specs.BitText.{block_parts};
ghost use Rattle.bench_decode.specs.Letters as letters;
ghost use Rattle.bench_decode.specs.MessageText as spec;
ghost use Rattle.bench_decode.specs.ReadingText.{IsNear};
ghost use Rattle.bench_decode.specs.Columns.{drawn};
ghost use Rattle.bench_decode.specs.Waiting.{IsPut, begun, drawn_on};
ghost use Rattle.ch11_layout.specs.Forms.{form_of};
ghost use Rattle.signal_values.specs.Readings.{value_of};
ghost use Rattle.signal_values.specs.Texts.{told_text};
ghost use Rattle.std.specs.Prelude.{◌≡◌, ◌+◌, ◌≤◌, ◌++◌, length, OnOk};

use crate::fields::{BLOCK, has_names, put_block, put_form};
use crate::front::{FORM_COLUMN, put_place};
use crate::line::{SIZE, TextLine};
use crate::readings::{Reading, put_reading};
use crate::words::{END, put_all_words};
use bench_select::value_in;
use ch11_layout::{RecordedForm, View};
use signal_dictionary::Signal;
use signal_values::{Reading as Value, put_told};
use std::io;
use std::io::Write;

/// The names of the columns up to the form, and those behind it.
const FIRST_COLUMNS: &[u8] = b"message       seconds channel  number line form";

const OTHER_COLUMNS: &[u8] = b"status words, responses   data words, block status";

/// Where the column of the status words begins.
const REPLIES_COLUMN: usize = 77;

/// How many bytes the form with the status words takes at most, and these with what is free in front of the data words.
const HEAD: usize = 720;

const BODY: usize = 1552;

/// Where a message stands.
#[derive(Clone, Copy, Debug, PartialEq, Eq)]
pub struct Place {
    /// Its number, counted from 1 over the file.
    pub number: u64,
    /// Its channel.
    pub channel: u16,
    /// Its number in the channel, counted from 1.
    pub in_channel: u64,
}

/// Writes the line with the names of the columns, which stands in front of the first message. What waits in `line` may
/// go to the writer before.
pub fn write_columns<W: Write>(line: &mut TextLine, out: &mut W) -> io::Result<()>
    ensures put { OnOk result (IsPut (W.contents out.old) line.old (W.contents out.new) line.new
        (spec.columns_line line.old.shown)) }
    ensures begun { OnOk result (line.new.columns ≡ 0) }
{
    line.begin_line(out)?;
    line.put(FIRST_COLUMNS);
    line.pad_to(REPLIES_COLUMN);
    line.put(OTHER_COLUMNS);
    line.end_line();
    Ok(())
}

/// Writes a message as people read it, on one line: its number, its time in seconds, '-' where none is known, its
/// channel, its number there, the line, the form in the words of a script with what a mode command asks, the status
/// words with the names of their bits and the response times, the data words, and the names of the bits of its block
/// status word. A second command, which supersedes the first, stands with its answer in the place of the status words.
/// A message of no known form has its block status word, its gap times word and all its words as hexadecimal digits.
/// What waits in `line` may go to the writer before or behind; a fault is the writer's.
pub fn write_message<W: Write>(
    line: &mut TextLine,
    out: &mut W,
    place: &Place,
    view: &View<'_>,
) -> io::Result<()>
    ensures put { OnOk result (IsPut (W.contents out.old) line.old (W.contents out.new) line.new
        (spec.message_line line.old.shown place.now view.now)) }
    ensures begun { OnOk result (line.new.columns ≡ 0) }
{
    put_up_to_words(line, out, place, view)?;
    put_end(line, view);
    Ok(())
}

/// Writes the same with the values of these signals behind the data words, each as ` NAME=VALUE UNIT`. The text is room
/// for a value.
pub(crate) fn write_message_with<W: Write>(
    line: &mut TextLine,
    out: &mut W,
    place: &Place,
    view: &View<'_>,
    signals: &[Signal],
    value: &mut Vec<u8>,
) -> io::Result<()>
    ensures put { OnOk result (IsPut (W.contents out.old) line.old (W.contents out.new) line.new
        (spec.message_line_with signals.now line.old.shown place.now view.now)) }
    ensures begun { OnOk result (line.new.columns ≡ 0) }
{
    put_up_to_words(line, out, place, view)?;
    put_values(line, out, place.channel, view, signals, value)?;
    put_end(line, view);
    Ok(())
}

/// Puts the values of signals that a message has.
fn put_values<W: Write>(
    line: &mut TextLine,
    out: &mut W,
    channel: u16,
    view: &View<'_>,
    signals: &[Signal],
    value: &mut Vec<u8>,
) -> io::Result<()>
    requires { length line.old.text + END ≤ SIZE }
    ensures put { OnOk result (IsPut (W.contents out.old) line.old (W.contents out.new) line.new
        (drawn line.old.shown 0 (spec.values_parts signals.now channel view.now))) }
    ensures room { OnOk result (length line.new.text + END ≤ SIZE) }
{
    let mut rest = signals;
    'signals: while let Some((signal, others)) = rest.split_first() {
        put_signal(line, out, channel, view, signal, value)?;
        rest = others;
    }
    Ok(())
}

/// Puts a signal with its value and its unit, where a message has it.
fn put_signal<W: Write>(
    line: &mut TextLine,
    out: &mut W,
    channel: u16,
    view: &View<'_>,
    signal: &Signal,
    value: &mut Vec<u8>,
) -> io::Result<()>
    requires { length line.old.text + END ≤ SIZE }
    ensures put { OnOk result (IsPut (W.contents out.old) line.old (W.contents out.new) line.new
        (drawn line.old.shown 0 (spec.value_parts signal.now channel view.now))) }
    ensures room { OnOk result (length line.new.text + END ≤ SIZE) }
{
    match value_in(signal, channel, view) {
        Some(reading) => put_reading_of(line, out, signal, reading, value),
        None => Ok(()),
    }
}

/// Puts a signal with a value and its unit.
fn put_reading_of<W: Write>(
    line: &mut TextLine,
    out: &mut W,
    signal: &Signal,
    reading: Value,
    value: &mut Vec<u8>,
) -> io::Result<()>
    requires { length line.old.text + END ≤ SIZE }
    ensures put { OnOk result (IsPut (W.contents out.old) line.old (W.contents out.new) line.new
        (drawn line.old.shown 0 (spec.told_value signal.now (Some (value_of reading))))) }
    ensures room { OnOk result (length line.new.text + END ≤ SIZE) }
{
    value.clear();
    put_value(value, signal, reading)?;
    line.put_text(out, value.as_slice())?;
    Ok(())
}

/// Puts a signal with its value and its unit; want of memory is the writer's fault.
fn put_value(text: &mut Vec<u8>, signal: &Signal, value: Value) -> io::Result<()>
    ensures { OnOk result (text.new.items ≡ text.old.items ++ told_text signal.now (value_of value)) }
{
    match put_told(text, signal, value) {
        Ok(()) => Ok(()),
        Err(_) => Err(io::Error::from(io::ErrorKind::OutOfMemory)),
    }
}

/// Begins the line of a message, up to its data words.
fn put_up_to_words<W: Write>(
    line: &mut TextLine,
    out: &mut W,
    place: &Place,
    view: &View<'_>,
) -> io::Result<()>
    ensures put { OnOk result (IsPut (W.contents out.old) line.old (W.contents out.new) line.new
        (drawn line.old.shown 0 (spec.place_parts place.now view.now ++ spec.body_parts view.now))) }
    ensures room { OnOk result (length line.new.text + END ≤ SIZE) }
{
    line.begin_line(out)?;
    put_place(line, place, view);
    put_body(line, out, view)?;
    Ok(())
}

/// Puts a message from its form to its data words.
fn put_body<W: Write>(line: &mut TextLine, out: &mut W, view: &View<'_>) -> io::Result<()>
    requires begun { FORM_COLUMN ≤ line.old.columns }
    requires room { length line.old.text + BODY ≤ SIZE }
    ensures put { OnOk result (IsPut (W.contents out.old) line.old (W.contents out.new) line.new
        (drawn line.old.shown line.old.columns (spec.body_parts view.now))) }
    ensures room { OnOk result (length line.new.text + END ≤ SIZE) }
{
    if is_unknown(view.form()) {
        put_unknown(line, out, view)
    } else {
        put_formed(line, out, view)
    }
}

/// Puts a message of no known form.
fn put_unknown<W: Write>(line: &mut TextLine, out: &mut W, view: &View<'_>) -> io::Result<()>
    requires begun { FORM_COLUMN ≤ line.old.columns }
    requires room { length line.old.text + BODY ≤ SIZE }
    ensures put { OnOk result (IsPut (W.contents out.old) line.old (W.contents out.new) line.new
        (drawn line.old.shown line.old.columns (spec.unknown_parts view.now))) }
    ensures room { OnOk result (length line.new.text + END ≤ SIZE) }
{
    put_raw(line, view);
    put_all_words(line, out, view, (0, view.word_count()), (0, 0))?;
    Ok(())
}

/// Puts a message of a known form.
fn put_formed<W: Write>(line: &mut TextLine, out: &mut W, view: &View<'_>) -> io::Result<()>
    requires begun { FORM_COLUMN ≤ line.old.columns }
    requires room { length line.old.text + BODY ≤ SIZE }
    ensures put { OnOk result (IsPut (W.contents out.old) line.old (W.contents out.new) line.new
        (drawn line.old.shown line.old.columns (spec.formed_parts view.now))) }
    ensures room { OnOk result (length line.new.text + END ≤ SIZE) }
{
    let reading = Reading::of(view);
    put_known(line, view, reading);
    let (first, other) = (reading.first_words(view), reading.other_words(view));
    put_all_words(line, out, view, first, other)?;
    Ok(())
}

/// Whether a form is none of the standard.
pub(crate) fn is_unknown(form: RecordedForm) -> bool
    ensures { result ≡ spec.is_unknown form }
{
    match form {
        RecordedForm::Unknown => true,
        RecordedForm::Receive { .. }
        | RecordedForm::Transmit { .. }
        | RecordedForm::Between { .. }
        | RecordedForm::Mode { .. }
        | RecordedForm::ReceiveAll { .. }
        | RecordedForm::BetweenAll { .. }
        | RecordedForm::ModeAll { .. } => false,
    }
}

/// Puts the form, and the status words.
fn put_known(line: &mut TextLine, view: &View<'_>, reading: Reading)
    requires near { IsNear reading }
    requires begun { FORM_COLUMN ≤ line.old.columns }
    requires room { length line.old.text + HEAD ≤ SIZE }
    ensures put { line.new ≡ drawn_on line.old (spec.known_parts (form_of view.now) view.now reading) }
    ensures few { length line.new.text ≤ length line.old.text + HEAD }
{
    put_form(line, view.form());
    line.pad_to(REPLIES_COLUMN);
    put_reading(line, view, reading);
}

/// Ends the line of a message with the names of its errors.
#[tactic(auto, unfolding(crate::specs::MessageText::end_parts))]
fn put_end(line: &mut TextLine, view: &View<'_>)
    requires { length line.old.text + END ≤ SIZE }
    ensures { line.new ≡ begun (drawn_on line.old (spec.end_parts view.now)) }
{
    put_names(line, view.block());
    line.end_line();
}

/// Puts the names of the bits of a block status word, if there are any.
#[inline]
fn put_names(line: &mut TextLine, block: u16)
    requires { length line.old.text + BLOCK ≤ SIZE }
    ensures put { line.new ≡ drawn_on line.old (block_parts block) }
    ensures few { length line.new.text ≤ length line.old.text + BLOCK }
{
    if has_names(block) {
        put_block(line, block);
    }
}

/// The letter of the line that a message went over.
pub(crate) fn letter_of(view: &View<'_>) -> u8
    ensures { result ≡ letters.letter_of view.now }
{
    if view.is_on_line_b() { b'B' } else { b'A' }
}

/// Puts that a message has no known form, its block status word and its gap times word.
fn put_raw(line: &mut TextLine, view: &View<'_>)
    requires begun { FORM_COLUMN ≤ line.old.columns }
    requires room { length line.old.text + HEAD ≤ SIZE }
    ensures put { line.new ≡ drawn_on line.old (spec.raw_parts view.now) }
    ensures few { length line.new.text ≤ length line.old.text + HEAD }
{
    line.begin_red();
    put_form(line, RecordedForm::Unknown);
    line.end_red();
    line.pad_to(REPLIES_COLUMN);
    line.put(b"block");
    line.put_word(view.block());
    line.put(b" gaps");
    line.put_word(view.gaps());
}
