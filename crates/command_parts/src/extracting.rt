//! Messages of a recording that are written to a file of another kind, as `bench export` and `bench draw` do.

use crate::dictionaries::signals_in;
use crate::options::{Row, argument, file, force};
use crate::replacing::may_write;
use crate::selecting::{GivenSelection, given_selection, judge_selection};
use bench_files::Kind;
use bench_requests::CommandFault;
use clap::ArgMatches;
use signal_dictionary::Signal;
use std::rt::Files;

/// Which messages are written, and where to.
#[derive(Debug, Drop)]
pub struct Extract<'a> {
    /// The file of the recording.
    pub recording: &'a str,
    /// The file to write to.
    pub out: &'a str,
    /// Which of its messages.
    pub selection: GivenSelection<'a>,
    /// Whether a file of another kind may be replaced.
    pub force: bool,
}

/// What says so on a command line, but for the options that choose messages: the recording and the out file, as the
/// help describes them.
pub fn extract_options<'a>(recording: &'a str, out: &'a str) -> [Row<'a>; 3] {
    [
        argument("RECORDING", recording),
        file("out", out).required(),
        force(),
    ]
}

impl<'a> Extract<'a> {
    /// What a command line says of it.
    pub fn given(given: &ArgMatches<'a>) -> Extract<'a> {
        Extract {
            recording: given.get_str("RECORDING").unwrap_or(""),
            out: given.get_str("out").unwrap_or(""),
            selection: given_selection(given),
            force: given.get_flag("force"),
        }
    }

    /// The signals of the dictionary in this file, none where none is named. A usage fault of the selection, and that
    /// of an out file that is not to be replaced by one of this kind, or is one of those that are read, come before its
    /// own.
    pub(crate) fn judge<R: Files + AllocGlobal>(
        &self,
        rt: &R,
        kind: Kind,
        dictionary: Option<&'a str>,
    ) -> Result<Vec<Signal>, CommandFault<'a>> {
        judge_selection(&self.selection)?;
        let read = [self.recording, dictionary.unwrap_or(self.recording)];
        may_write(rt, self.out, kind, self.force, &read)?;
        signals_in(rt, dictionary)
    }

    /// The fault of a selection that has no message; without one a file may have none.
    pub(crate) fn judge_selected(&self, selected: bool) -> Result<(), CommandFault<'a>> {
        if selected || self.selection.is_empty() {
            Ok(())
        } else {
            Err(CommandFault::NoneSelected)
        }
    }
}
