//! The columns of a message for data frames.
ghost use Rattle.bench_export.specs.Frames as spec;
ghost use Rattle.std.specs.Prelude.{◌≡◌, ◌++◌, OnOk};

use crate::fields::{form_name, line_name, push_called};
use crate::flags::{push_error_flags, push_status_flags};
use crate::row::Row;
use crate::texts::{push_gap, push_number};
use crate::values::push_word;
use ch11_layout::View;
use mil_word::Command;
use mil_word::fields::MOST_WORDS;
use std::alloc::AllocError;

/// How many data words have a column: as many as a message has at most.
pub(crate) const DATA_COLUMNS: usize = MOST_WORDS as usize;

/// Which columns a row has.
#[derive(Clone, Copy, Debug, PartialEq, Eq)]
pub enum Columns {
    /// Some for all words of a kind together.
    Messages,
    /// One for each value, for data frames; words stand behind 0x where `prefixed` is set.
    Frames { prefixed: bool },
}

/// The columns of a message behind its time. The text is room for a field.
pub fn push_columns(
    row: &mut Row,
    text: &mut Vec<u8>,
    prefixed: bool,
    view: &View<'_>,
) -> Result<(), AllocError>
    ensures { OnOk result (row.new ≡ row.old ++ spec.frame_row prefixed view.now) }
{
    push_sent_columns(row, view)?;
    push_called(row, view)?;
    push_answered_columns(row, text, prefixed, view)?;
    push_carried_columns(row, text, prefixed, view)?;
    Ok(())
}

/// The bits, and the data words.
fn push_carried_columns(
    row: &mut Row,
    text: &mut Vec<u8>,
    prefixed: bool,
    view: &View<'_>,
) -> Result<(), AllocError>
    ensures { OnOk result (row.new ≡ row.old ++ spec.carried_columns prefixed view.now) }
{
    let layout = view.layout();
    push_status_flags(row, first_status(view), second_status(view))?;
    push_error_flags(row, view.block())?;
    push_number(
        row,
        layout.data_end.saturating_sub(layout.data_start) as u64,
    )?;
    push_data_columns(row, text, prefixed, view)?;
    Ok(())
}

/// How a message was sent.
fn push_sent_columns(row: &mut Row, view: &View<'_>) -> Result<(), AllocError>
    ensures { OnOk result (row.new ≡ row.old ++ spec.sent_columns view.now) }
{
    row.push(line_name(view))?;
    row.push(form_name(view))?;
    row.push(direction_name(view))
}

/// The T/R bit of the first command.
fn direction_name(view: &View<'_>) -> &'static [u8]
    ensures { result.now ≡ spec.direction_text view.now }
{
    let layout = view.layout();
    if layout.commands == 0 {
        b""
    } else if Command::of(view.word(0)).is_transmit() {
        b"T"
    } else {
        b"R"
    }
}

/// The status word of the first reply.
fn first_status(view: &View<'_>) -> Option<u16>
    ensures { result ≡ spec.first_status view.now }
{
    let layout = view.layout();
    if layout.commands < layout.data_start {
        Some(view.word(layout.commands))
    } else if !view.is_transfer() && layout.data_end < layout.words {
        Some(view.word(layout.data_end))
    } else {
        None
    }
}

/// The status word of the second reply.
fn second_status(view: &View<'_>) -> Option<u16>
    ensures { result ≡ spec.second_status view.now }
{
    let layout = view.layout();
    if view.is_transfer() && layout.data_end < layout.words {
        Some(view.word(layout.data_end))
    } else {
        None
    }
}

/// The response times and the status words.
fn push_answered_columns(
    row: &mut Row,
    text: &mut Vec<u8>,
    prefixed: bool,
    view: &View<'_>,
) -> Result<(), AllocError>
    ensures { OnOk result (row.new ≡ row.old ++ spec.answered_columns prefixed view.now) }
{
    push_gap(row, text, view.first_gap())?;
    push_gap(row, text, view.second_gap())?;
    push_word(row, text, prefixed, first_status(view))?;
    push_word(row, text, prefixed, second_status(view))
}

/// The data word at a place of the data words.
fn data_word(view: &View<'_>, place: usize) -> Option<u16>
    ensures { result ≡ spec.data_word view.now place }
{
    let layout = view.layout();
    if place < layout.data_end - layout.data_start {
        Some(view.word(layout.data_start + place))
    } else {
        None
    }
}

/// A column for each of the first data words.
fn push_data_columns(
    row: &mut Row,
    text: &mut Vec<u8>,
    prefixed: bool,
    view: &View<'_>,
) -> Result<(), AllocError>
    ensures { OnOk result (row.new ≡ row.old ++ spec.data_fields DATA_COLUMNS prefixed view.now) }
{
    'words: for place in 0..DATA_COLUMNS {
        push_word(row, text, prefixed, data_word(view, place))?;
    }
    Ok(())
}
