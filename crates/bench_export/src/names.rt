//! The names of the columns.
ghost use Rattle.bench_export.specs.Frames as frames;
ghost use Rattle.bench_export.specs.Rows.{names};
ghost use Rattle.bench_export.specs.Stamped.{number_names, stamp_name, stamped_names, time_names};
ghost use Rattle.bench_export.specs.Tables as spec;
ghost use Rattle.std.specs.Prelude.{◌≡◌, ◌<◌, ◌+◌, ◌++◌, ◌∷◌, [], codes, decimal, map, IfOk, OnOk};

use crate::columns::{Columns, DATA_COLUMNS};
use crate::row::Row;
use crate::table::Table;
use itoa::Buffer;
use std::alloc::{AllocError, Global};

/// The names of the columns of a table.
pub fn names_of(alloc: Global, table: &Table) -> Result<Row, AllocError>
    ensures { IfOk result (λ row. row ≡ spec.names_of table.now) }
{
    let mut row = Row::new(alloc);
    push_stamped_names(&mut row, table.columns, table.timed)?;
    push_names_behind(alloc, &mut row, table.columns)?;
    Ok(row)
}

/// The names of the columns that say which message it is and when it was.
pub fn push_stamped_names(row: &mut Row, columns: Columns, timed: bool) -> Result<(), AllocError>
    ensures { OnOk result (row.new ≡ row.old ++ stamped_names columns timed) }
{
    push_number_names(row, columns)?;
    push_time_name(row, timed)
}

/// Its number, its channel and its stamp.
fn push_number_names(row: &mut Row, columns: Columns) -> Result<(), AllocError>
    ensures { OnOk result (row.new ≡ row.old ++ number_names columns) }
{
    row.push(b"number")?;
    row.push(b"channel")?;
    row.push(name_of_stamp(columns))
}

fn name_of_stamp(columns: Columns) -> &'static [u8]
    ensures { result.now ≡ stamp_name columns }
{
    match columns {
        Columns::Messages => b"time_us",
        Columns::Frames { .. } => b"time_s",
    }
}

/// Its time of day, where it is asked for.
fn push_time_name(row: &mut Row, timed: bool) -> Result<(), AllocError>
    ensures { OnOk result (row.new ≡ row.old ++ time_names timed) }
{
    if timed { row.push(b"time") } else { Ok(()) }
}

/// What stands behind its time.
fn push_names_behind(alloc: Global, row: &mut Row, columns: Columns) -> Result<(), AllocError>
    ensures { OnOk result (row.new ≡ row.old ++ spec.other_names_of columns) }
{
    match columns {
        Columns::Messages => push_message_names(row),
        Columns::Frames { .. } => push_frame_names(alloc, row),
    }
}

/// These names.
fn push_all(row: &mut Row, names: &[&[u8]]) -> Result<(), AllocError>
    ensures { OnOk result (row.new ≡ row.old ++ map (λ name. name.now) names.now) }
{
    'names: for name in names {
        row.push(name)?;
    }
    Ok(())
}

/// The names of the columns of words of a kind together.
fn push_message_names(row: &mut Row) -> Result<(), AllocError>
    ensures { OnOk result (row.new ≡ row.old ++ names) }
{
    push_all(row, &[b"line", b"form"])?;
    push_called_names(row)?;
    push_all(
        row,
        &[
            b"status_words",
            b"block_status",
            b"gap1_us",
            b"gap2_us",
            b"data_words",
        ],
    )?;
    Ok(())
}

/// Whom a message calls.
fn push_called_names(row: &mut Row) -> Result<(), AllocError>
    ensures { OnOk result (row.new ≡ row.old ++ frames.called_names) }
{
    push_all(
        row,
        &[
            b"terminal",
            b"subaddress",
            b"count",
            b"mode_code",
            b"sender",
            b"sender_subaddress",
        ],
    )
}

/// The names of the columns for data frames: how a message was sent, whom it calls, what was answered, the bits of the
/// status words, the errors, and the data words.
fn push_frame_names(alloc: Global, row: &mut Row) -> Result<(), AllocError>
    ensures { OnOk result (row.new ≡ row.old ++ frames.frame_names) }
{
    push_all(row, &[b"line", b"form", b"tr"])?;
    push_called_names(row)?;
    push_all(
        row,
        &[
            b"gap1_us",
            b"gap2_us",
            b"status1",
            b"status2",
            b"status_message_error",
            b"status_instrumentation",
            b"status_service_request",
            b"status_broadcast",
            b"status_busy",
            b"status_subsystem",
            b"status_control",
            b"status_terminal",
            b"message_error",
            b"format_error",
            b"response_timeout",
            b"word_count_error",
            b"sync_type_error",
            b"invalid_word_error",
            b"data_words",
        ],
    )?;
    push_data_names(alloc, row)?;
    Ok(())
}

/// A name for each data word.
fn push_data_names(alloc: Global, row: &mut Row) -> Result<(), AllocError>
    ensures { OnOk result (row.new ≡ row.old ++ frames.data_names DATA_COLUMNS) }
{
    let mut text = Vec::new(alloc);
    'words: for place in 0..DATA_COLUMNS {
        push_data_name(row, &mut text, place)?;
    }
    Ok(())
}

/// The name of the data word at a place. The text is room for it.
fn push_data_name(row: &mut Row, text: &mut Vec<u8>, place: usize) -> Result<(), AllocError>
    requires { place < DATA_COLUMNS }
    ensures { OnOk result (row.new ≡ row.old ++ (codes "word" ++ decimal (place + 1)) ∷ []) }
{
    let mut buffer = Buffer::new();
    text.clear();
    text.extend_from_slice(b"word")?;
    text.extend_from_slice(buffer.format(place + 1).as_bytes())?;
    row.push(text.as_slice())
}
