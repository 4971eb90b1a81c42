//! The names of the columns.
ghost use Rattle.bench_export.specs.Stamped.{stamped_names};
ghost use Rattle.bench_signals.specs.Sheets as spec;
ghost use Rattle.std.specs.Prelude.{◌≡◌, ◌++◌, IfOk, OnOk};

use crate::sheet::{Rows, Sheet};
use bench_export::{Row, names_of as frame_names_of, push_stamped_names};
use signal_dictionary::Signal;
use std::alloc::{AllocError, Global};

/// The names of the columns.
pub(crate) fn names_of(alloc: Global, sheet: &Sheet<'_>) -> Result<Row, AllocError>
    ensures { IfOk result (λ row. row ≡ spec.names_of sheet.now) }
{
    match sheet.rows {
        Rows::Values => value_names(alloc, sheet),
        Rows::Messages => message_names(alloc, sheet),
        Rows::Frames => frame_names(alloc, sheet),
    }
}

/// Those of a row for each value.
fn value_names(alloc: Global, sheet: &Sheet<'_>) -> Result<Row, AllocError>
    ensures { IfOk result (λ row. row
        ≡ stamped_names sheet.now.table.columns sheet.now.table.timed ++ spec.value_names) }
{
    let mut row = Row::new(alloc);
    push_stamped_names(&mut row, sheet.table.columns, sheet.table.timed)?;
    push_value_names(&mut row)?;
    Ok(row)
}

/// Those of a row for each message.
fn message_names(alloc: Global, sheet: &Sheet<'_>) -> Result<Row, AllocError>
    ensures { IfOk result (λ row. row ≡ stamped_names sheet.now.table.columns sheet.now.table.timed
        ++ spec.signal_names sheet.now.signals.now) }
{
    let mut row = Row::new(alloc);
    push_stamped_names(&mut row, sheet.table.columns, sheet.table.timed)?;
    push_signals(&mut row, sheet.signals)?;
    Ok(row)
}

/// Those of data frames.
fn frame_names(alloc: Global, sheet: &Sheet<'_>) -> Result<Row, AllocError>
    ensures { IfOk result (λ row. row ≡ spec.frame_names sheet.now) }
{
    let mut row = frame_names_of(alloc, &sheet.table)?;
    push_signals(&mut row, sheet.signals)?;
    Ok(row)
}

/// A column for each signal.
fn push_signals(row: &mut Row, signals: &[Signal]) -> Result<(), AllocError>
    ensures { OnOk result (row.new ≡ row.old ++ spec.signal_names signals.now) }
{
    'signals: for signal in signals {
        row.push(signal.name.bytes.as_slice())?;
    }
    Ok(())
}

/// The columns of a row for each value.
fn push_value_names(row: &mut Row) -> Result<(), AllocError>
    ensures { OnOk result (row.new ≡ row.old ++ spec.value_names) }
{
    row.push(b"signal")?;
    row.push(b"value")?;
    row.push(b"unit")
}
