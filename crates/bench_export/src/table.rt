//! What of a recording is written as rows.

use crate::columns::Columns;
use bench_select::Selection;

/// What of a recording is written as rows.
#[derive(Clone, Copy, Debug)]
pub struct Table<'o> {
    /// Which columns a row has.
    pub columns: Columns,
    /// Whether a row has a column `time` behind that of the stamp, with the time of day.
    pub timed: bool,
    /// Which messages have a row.
    pub selection: Selection<'o>,
}
