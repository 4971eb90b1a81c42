//! What of a recording's signals is written.

use bench_export::Table;
use signal_dictionary::Signal;

/// What a row is.
#[derive(Clone, Copy, Debug, PartialEq, Eq)]
pub enum Rows {
    /// A value.
    Values,
    /// A message that has a signal, with a column for each signal.
    Messages,
    /// A message, with the columns of data frames and behind them one for each signal.
    Frames,
}

/// What of a recording's signals is written as rows.
#[derive(Clone, Copy, Debug)]
pub struct Sheet<'o> {
    /// The columns in front, and which messages are looked at.
    pub table: Table<'o>,
    /// The signals, in the order of their dictionary.
    pub signals: &'o [Signal],
    /// What a row is.
    pub rows: Rows,
    /// Whether a value that is the one before of its signal and channel is left out.
    pub changes: bool,
}
