//! What a page is made of, and what it becomes.

use bench_select::Selection;
use signal_dictionary::Signal;

/// What of a recording a page has.
#[derive(Clone, Copy, Debug)]
pub struct Asked<'o> {
    /// Which messages.
    pub selection: Selection<'o>,
    /// The signals whose values it shows, in the order of their dictionary.
    pub signals: &'o [Signal],
    /// What the recording is called.
    pub name: &'o str,
}

/// What stands before and behind the data of a page.
#[derive(Drop)]
pub struct Template {
    pub front: Vec<u8>,
    pub behind: Vec<u8>,
}

/// A page.
#[derive(Drop)]
pub struct Page {
    /// The page as HTML.
    pub text: Vec<u8>,
    /// How many messages were chosen.
    pub chosen: u64,
    /// How many of them the page has.
    pub shown: u64,
}
