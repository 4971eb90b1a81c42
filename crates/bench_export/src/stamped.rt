//! The columns that say which message it is and when it was.
ghost use Rattle.bench_clock.specs.Time.{time_of};
ghost use Rattle.bench_export.specs.Stamped as spec;
ghost use Rattle.std.specs.Prelude.{◌≡◌, ◌++◌, ◌∷◌, [], OnOk, option_map};

use crate::columns::Columns;
use crate::place::Place;
use crate::row::Row;
use crate::table::Table;
use crate::texts::{push_micros, push_number};
use crate::values::push_seconds;
use bench_clock::{Clock, TimeOfDay};
use ch11_layout::View;
use std::alloc::AllocError;

/// A stamp as a field in µs, or in seconds for data frames. The text is room for it.
fn push_stamp(
    row: &mut Row,
    text: &mut Vec<u8>,
    columns: Columns,
    ticks: u64,
) -> Result<(), AllocError>
    ensures { OnOk result (row.new ≡ row.old ++ spec.stamp_text columns ticks ∷ []) }
{
    match columns {
        Columns::Messages => push_micros(row, text, ticks),
        Columns::Frames { .. } => push_seconds(row, text, ticks),
    }
}

/// A time as a field, '-' where none is known. The text is room for it.
fn push_time_known(
    row: &mut Row,
    text: &mut Vec<u8>,
    columns: Columns,
    time: Option<u64>,
) -> Result<(), AllocError>
    ensures { OnOk result (row.new ≡ row.old ++ spec.stamp_field columns time ∷ []) }
{
    match time {
        None => row.push(b"-"),
        Some(ticks) => push_stamp(row, text, columns, ticks),
    }
}

/// The number, the channel and the stamp of a message. The text is room for a field.
fn push_number_columns(
    row: &mut Row,
    text: &mut Vec<u8>,
    columns: Columns,
    place: Place,
    view: &View<'_>,
) -> Result<(), AllocError>
    ensures { OnOk result (row.new
        ≡ row.old ++ spec.number_columns columns place.number place.channel view.now) }
{
    push_number(row, place.number)?;
    push_number(row, u64::from(place.channel))?;
    push_time_known(row, text, columns, view.time())
}

/// A time of day as a field, empty where there is none.
fn push_time(row: &mut Row, time: Option<TimeOfDay>) -> Result<(), AllocError>
    ensures { OnOk result (row.new ≡ row.old ++ spec.time_field (option_map (λ t. time_of t) time) ∷ []) }
{
    match time {
        None => row.push(b""),
        Some(time) => row.push(time.text().as_bytes()),
    }
}

/// The time of day at a message's stamp as a field, where it is asked for.
fn push_time_columns(row: &mut Row, timed: bool, time: Option<TimeOfDay>) -> Result<(), AllocError>
    ensures { OnOk result (row.new ≡ row.old ++ spec.time_columns timed (option_map (λ t. time_of t) time)) }
{
    if timed { push_time(row, time) } else { Ok(()) }
}

/// The first columns of a message. The text is room for a field.
pub fn push_stamped(
    row: &mut Row,
    text: &mut Vec<u8>,
    table: &Table,
    clock: &Clock,
    place: Place,
    view: &View<'_>,
) -> Result<(), AllocError>
    ensures { OnOk result (row.new
        ≡ row.old ++ spec.stamped_columns table.now.columns table.now.timed clock.now place.number place.channel
        view.now) }
{
    push_number_columns(row, text, table.columns, place, view)?;
    let time = clock.of_stamp(view.kind(), view.stamp());
    push_time_columns(row, table.timed, time)
}
