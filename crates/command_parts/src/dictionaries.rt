//! Dictionaries of signals that commands read.

use crate::selecting::{GivenSelection, selection_among, selection_in};
use bench_requests::{CommandFault, dictionary_of, read_whole};
use bench_select::Selection;
use signal_dictionary::Signal;
use std::rt::Files;

/// The signals of the dictionary in this file.
pub fn dictionary_in<'a, R: Files + AllocGlobal>(
    rt: &R,
    name: &'a str,
) -> Result<Vec<Signal>, CommandFault<'a>> {
    let text = read_whole(rt, name)?;
    dictionary_of(rt.alloc(), text.as_slice())
}

/// The signals of the dictionary in this file, none where none is named.
pub fn signals_in<'a, R: Files + AllocGlobal>(
    rt: &R,
    name: Option<&'a str>,
) -> Result<Vec<Signal>, CommandFault<'a>> {
    match name {
        Some(name) => dictionary_in(rt, name),
        None => Ok(Vec::new(rt.alloc())),
    }
}

/// The selection that a command line asks for, by one of these signals too where a dictionary is named.
pub fn selection_by<'a, 's>(
    given: &GivenSelection<'a>,
    name: Option<&'a str>,
    signals: &'s [Signal],
) -> Result<Selection<'s>, CommandFault<'a>> {
    match name {
        Some(_) => selection_among(given, signals),
        None => selection_in(given),
    }
}
