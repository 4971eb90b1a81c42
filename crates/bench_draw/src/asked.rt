//! What of a recording is drawn, and how.

use crate::track::By;
use bench_select::Selection;
use signal_dictionary::Signal;

/// What of a recording is drawn, and how.
#[derive(Clone, Copy, Debug)]
pub struct Asked<'o> {
    /// Which messages.
    pub selection: Selection<'o>,
    /// The signals that have lanes, in the order of their dictionary.
    pub signals: &'o [Signal],
    /// By what the messages of a channel have lanes.
    pub by: By,
}
