//! `bench signals`: the values of signals in a recording, for spreadsheets and data frames.

use crate::forms::FileForm;
use bench_export::Columns;
use bench_files::Hold;
use bench_signals::Rows;
use clap::{ArgMatches, Command};
use command_parts::extracting::{Extract, extract_options};
use command_parts::options::{Row, argument, command_of, flag, time_channel};
use command_parts::requests::CommandFault;
use command_parts::selecting::selection_options;
use std::alloc::{AllocError, Global};
use std::io::IsTerminal;
use std::rt::{Clock, Files};

/// What the help of `bench signals` ends with.
const NOTES: &str = "\
DICTIONARY is a text, a signal a line: signal NAME [channel N] SELECTOR PLACE KIND [scale DECIMAL] [offset DECIMAL]
[unit UNIT].

  SELECTOR  as in rules: any, rx A S, tx A S, rt A S A S (sender first), mode A C, brx S, brt A S S, bmode C
  PLACE     word I [bits H L], a data word from 1 on and perhaps bits of it (15 is the first on the line, 0 the last),
            or words I, the data words I and I + 1, of which the first is the upper half
  KIND      unsigned, signed (two's complement), bcd, or names NUMBER=LABEL..

A message has a signal where its commands are those of the selector, it has no error and it has the data words. The
value is the number of the bits times the scale plus the offset, exactly. It is empty where a bcd digit is above 9.

A row is a value: number,channel,time_s,signal,value,unit. With --wide a row is a message, with a column for each
signal. With --changes a value is left out that is the one before of its signal in its channel.

--channel, --line, --only, --errors, --from and --to choose messages, numbered as in the file; --only takes signal NAME
too.

Example:
  bench signals flight.ch11 avionics.signals --out flight.csv --changes";

/// The command line of `bench signals`.
pub fn command<'a>(alloc: Global) -> Result<Command<'a>, AllocError> {
    let about =
        "Writes the values of signals, one row of comma-separated values a value or a message";
    let rows = extract_options("The Chapter 11 file to look at", "The file to write to");
    let (forms, selection) = (form_options(), selection_options());
    command_of(alloc, "signals", about, NOTES, &[&rows, &forms, &selection])
}

/// The dictionary, and the options that say how values are written.
fn form_options<'a>() -> [Row<'a>; 5] {
    let time = "Writes the time of day behind each time stamp, by the recording's time packets";
    [
        argument("DICTIONARY", "The signals, as a text"),
        flag(
            "wide",
            "Writes a row a message, with a column for each signal",
        ),
        flag(
            "changes",
            "Leaves out values that are the one before of their signal and channel",
        ),
        flag("time", time),
        time_channel().only_with("time"),
    ]
}

/// What is to be written of which signals, and where to.
#[derive(Debug, Drop)]
pub struct Request<'a> {
    /// Which messages, and the file to write to.
    pub extract: Extract<'a>,
    /// The file of the dictionary.
    pub dictionary: &'a str,
    /// Whether a row is a message.
    pub wide: bool,
    /// Whether a value that is the one before is left out.
    pub changes: bool,
    /// Whether times of day are asked for.
    pub timed: bool,
    /// The channel whose time packets tell times of day; all where none is named.
    pub time_channel: Option<u16>,
}

/// What a command line asks of `bench signals`.
pub fn request_in<'a>(given: &ArgMatches<'a>) -> Request<'a> {
    Request {
        extract: Extract::given(given),
        dictionary: given.get_str("DICTIONARY").unwrap_or(""),
        wide: given.get_flag("wide"),
        changes: given.get_flag("changes"),
        timed: given.get_flag("time"),
        time_channel: given.get_one::<u16>("time-channel"),
    }
}

impl Request<'_> {
    /// What values are written as.
    fn form(&self) -> FileForm {
        FileForm::Values {
            columns: Columns::Frames { prefixed: false },
            timed: self.timed,
            rows: if self.wide {
                Rows::Messages
            } else {
                Rows::Values
            },
            changes: self.changes,
        }
    }
}

/// Writes the values of signals in a recording, in those of its messages that were selected. The dictionary is judged
/// before the recording is read.
pub fn run<'a, R: Files<File: Hold> + AllocGlobal + Clock, E: Eprint + IsTerminal>(
    rt: &R,
    errors: &E,
    request: &Request<'a>,
) -> Result<(), CommandFault<'a>> {
    let (extract, dictionary) = (&request.extract, Some(request.dictionary));
    request
        .form()
        .write_file(rt, errors, extract, dictionary, request.time_channel)
}
