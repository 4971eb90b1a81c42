//! The fields of a message.
ghost use Rattle.bench_export.specs.Rows as spec;
ghost use Rattle.std.specs.Prelude.{◌≡◌, ◌++◌, ◌∷◌, ◌-◌, ◌*◌, ◌≤◌, [], length, OnOk};

use crate::row::Row;
use crate::texts::{push_block, push_gap, push_number, push_words};
use ch11_layout::View;
use mil_word::Command;
use std::alloc::AllocError;

/// The fields of a message behind its time. The text is room for a field.
pub(crate) fn push_fields(
    row: &mut Row,
    text: &mut Vec<u8>,
    view: &View<'_>,
) -> Result<(), AllocError>
    ensures { OnOk result (row.new ≡ row.old ++ spec.row_of view.now) }
{
    push_sent(row, view)?;
    push_called(row, view)?;
    push_answered(row, text, view)?;
    Ok(())
}

/// How a message was sent.
fn push_sent(row: &mut Row, view: &View<'_>) -> Result<(), AllocError>
    ensures { OnOk result (row.new ≡ row.old ++ spec.sent_fields view.now) }
{
    row.push(line_name(view))?;
    row.push(form_name(view))
}

/// The line of a message.
pub(crate) fn line_name(view: &View<'_>) -> &'static [u8]
    ensures { result.now ≡ spec.message_line_text view.now }
{
    if view.is_on_line_b() { b"B" } else { b"A" }
}

/// The form of a message by its commands (MIL-STD-1553B 4.3.3.6).
pub(crate) fn form_name(view: &View<'_>) -> &'static [u8]
    ensures { result.now ≡ spec.form_text view.now }
{
    let layout = view.layout();
    if layout.commands == 0 {
        return b"";
    }
    let first = Command::of(view.word(0));
    let to_all = first.is_broadcast();
    if first.is_mode() {
        if to_all { b"mode broadcast" } else { b"mode" }
    } else if layout.commands == 2 {
        if to_all { b"RT to RTs" } else { b"RT to RT" }
    } else if first.is_transmit() {
        b"RT to BC"
    } else if to_all {
        b"BC to RTs"
    } else {
        b"BC to RT"
    }
}

/// Whom a message calls.
pub(crate) fn push_called(row: &mut Row, view: &View<'_>) -> Result<(), AllocError>
    ensures { OnOk result (row.new ≡ row.old ++ spec.called_fields view.now) }
{
    push_receiver(row, view)?;
    push_sender(row, view)
}

/// The fields of the first command.
fn push_receiver(row: &mut Row, view: &View<'_>) -> Result<(), AllocError>
    ensures { OnOk result (row.new ≡ row.old ++ spec.first_fields view.now) }
{
    let layout = view.layout();
    let first = Command::of(view.word(0));
    let called = layout.commands > 0;
    push_if(row, called, first.address())?;
    push_if(row, called, first.subaddress())?;
    push_if(row, called && !first.is_mode(), first.count())?;
    push_if(row, called && first.is_mode(), first.code())
}

/// The fields of the second command, which calls the sender.
fn push_sender(row: &mut Row, view: &View<'_>) -> Result<(), AllocError>
    ensures { OnOk result (row.new ≡ row.old ++ spec.second_fields view.now) }
{
    let layout = view.layout();
    let second = Command::of(view.word(1));
    let called = layout.commands == 2;
    push_if(row, called, second.address())?;
    push_if(row, called, second.subaddress())
}

/// A number as a field, empty where there is none.
fn push_if(row: &mut Row, there: bool, number: u8) -> Result<(), AllocError>
    ensures { OnOk result (row.new ≡ row.old ++ spec.number_if there number ∷ []) }
{
    if there {
        push_number(row, u64::from(number))
    } else {
        row.push(b"")
    }
}

/// What was answered. The text is room for a field.
fn push_answered(row: &mut Row, text: &mut Vec<u8>, view: &View<'_>) -> Result<(), AllocError>
    ensures { OnOk result (row.new ≡ row.old ++ spec.answered_fields view.now) }
{
    let layout = view.layout();
    let front = words_between(view.bytes(), layout.commands, layout.data_start);
    let back = words_between(view.bytes(), layout.data_end, layout.words);
    let carried = words_between(view.bytes(), layout.data_start, layout.data_end);
    push_words(row, text, front, back)?;
    push_block(row, text, view.block())?;
    push_gap(row, text, view.first_gap())?;
    push_gap(row, text, view.second_gap())?;
    push_words(row, text, carried, b"")
}

/// The bytes of the words from a place up to another.
fn words_between(words: &[u8], low: usize, high: usize) -> &[u8]
    requires rising { low ≤ high }
    requires within { 2 * high ≤ length words.now }
    ensures { result.now ≡ spec.words_between low high words.now }
{
    let (_, behind) = words.split_at(2 * low);
    let (between, _) = behind.split_at(2 * (high - low));
    between
}
