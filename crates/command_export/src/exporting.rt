//! `bench export`: the messages of a recording for spreadsheets, data frames and waveform viewers.

use crate::forms::FileForm;
use bench_export::Columns;
use bench_files::Hold;
use bench_signals::Rows;
use clap::{ArgMatches, Command};
use command_parts::extracting::{Extract, extract_options};
use command_parts::options::{Row, choice, command_of, file, flag, time_channel};
use command_parts::requests::CommandFault;
use command_parts::selecting::selection_options;
use std::alloc::{AllocError, Global};
use std::io::IsTerminal;
use std::rt::{Clock, Files};

/// What the help of `bench export` ends with.
const NOTES: &str = "\
With --frames each value has a column of its own, for data frames: the time in seconds, T/R, response times, status
words, each bit of a status word and each error as 0 or 1, and each data word. --hex 0x puts 0x in front of words, so
that a spreadsheet takes none for a number.

With --time a column `time` behind that of the stamp has the time of day (UTC) as YYYY-MM-DDTHH:MM:SS.fffffff, the
stamp itself where it is one (IEEE 1588), else by the last time packet at or before it; it is empty where the recording
has none there.

With --vcd the file is a value change dump (IEEE 1364), as GTKWave shows it: for each channel and line the word on the
line, its kind (1 command, 2 data, 3 status), its terminal and the number of its message, and whether it is of a message
with an error. The signals of line A of channel 1 are named ch1_A_word, ch1_A_kind and so on.

--signals DICTIONARY puts a column for each signal behind the others of --frames (bench signals --help).

--channel, --line, --only, --errors, --from and --to choose messages, numbered as in the file.

Examples:
  bench export flight.ch11 --out flight.csv
  bench export flight.ch11 --frames --hex 0x --out frames.csv
  bench export flight.ch11 --vcd --only \"tx 5 2\" --out flight.vcd";

/// The command line of `bench export`.
pub fn command<'a>(alloc: Global) -> Result<Command<'a>, AllocError> {
    let about = "Writes one row of comma-separated values a message, or a value change dump";
    let rows = extract_options("The Chapter 11 file to export", "The file to write to");
    let (forms, selection) = (form_options(), selection_options());
    command_of(alloc, "export", about, NOTES, &[&rows, &forms, &selection])
}

/// The options that say what messages are exported as.
fn form_options<'a>() -> [Row<'a>; 6] {
    let frames = "Writes rows with a column for each value, for data frames";
    let hex = "With --frames: puts 0x in front of words";
    let time = "Writes the time of day behind each time stamp, by the recording's time packets";
    let vcd = "Writes a value change dump, for waveform viewers";
    let signals = "With --frames: the dictionary of signals of which each has a column";
    [
        flag("frames", frames),
        file("signals", signals).only_with("frames"),
        choice("hex", "PREFIX", &["0x"], hex).only_with("frames"),
        flag("time", time).never_with(&["vcd"]),
        time_channel().only_with("time"),
        flag("vcd", vcd).never_with(&["frames"]),
    ]
}

/// What is to be exported, and where to.
#[derive(Debug, Drop)]
pub struct Request<'a> {
    /// Which messages, and the file to write to.
    pub extract: Extract<'a>,
    /// What they are written as.
    form: FileForm,
    /// The channel whose time packets tell times of day; all where none is named.
    pub time_channel: Option<u16>,
    /// The file of a dictionary whose signals have columns, if any.
    pub signals: Option<&'a str>,
}

/// What a command line asks of `bench export`.
pub fn request_in<'a>(given: &ArgMatches<'a>) -> Request<'a> {
    Request {
        extract: Extract::given(given),
        form: form_in(given),
        time_channel: given.get_one::<u16>("time-channel"),
        signals: given.get_str("signals"),
    }
}

fn form_in(given: &ArgMatches<'_>) -> FileForm {
    if given.get_flag("vcd") {
        return FileForm::Waves;
    }
    let (columns, timed) = (columns_in(given), given.get_flag("time"));
    match given.get_str("signals") {
        Some(_) => FileForm::Values {
            columns,
            timed,
            rows: Rows::Frames,
            changes: false,
        },
        None => FileForm::Messages { columns, timed },
    }
}

fn columns_in(given: &ArgMatches<'_>) -> Columns {
    if given.get_flag("frames") {
        Columns::Frames {
            prefixed: given.get_str("hex").is_some(),
        }
    } else {
        Columns::Messages
    }
}

/// Writes the messages of a recording, or those that were selected, for other programs.
pub fn run<'a, R: Files<File: Hold> + AllocGlobal + Clock, E: Eprint + IsTerminal>(
    rt: &R,
    errors: &E,
    request: &Request<'a>,
) -> Result<(), CommandFault<'a>> {
    let (dictionary, time_channel) = (request.signals, request.time_channel);
    request
        .form
        .write_file(rt, errors, &request.extract, dictionary, time_channel)
}
