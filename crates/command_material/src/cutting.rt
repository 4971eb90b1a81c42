//! `bench cut`: some of the messages of a recording as a recording of their own.

use bench_clock::Clock as RecordingClock;
use bench_cut::{CutFault, cut};
use bench_files::{Hold, Kind};
use clap::{ArgMatches, Command};
use command_parts::extracting::{Extract, extract_options};
use command_parts::opening::{OpenWay, Opened};
use command_parts::options::{command_of, flag};
use command_parts::recordings::Times;
use command_parts::requests::CommandFault;
use command_parts::selecting::selection_options;
use command_parts::streams::on_stream;
use command_parts::writing::{WriteEnd, Writes, write_chosen};
use std::alloc::{AllocError, Global};
use std::io::{self, BufWriter, IsTerminal, Write};
use std::rt::{Clock, Files};

/// What the help of `bench cut` ends with.
const NOTES: &str = "\
The messages that --channel, --line, --only, --errors, --from and --to choose, all of them where none is given, go over
in the order of the file; so do all packets of other types, but for indexes (type 03). A packet that has no message left
is left out; one that lost some has its counter from its first message, its lengths and checksums anew. Sequence numbers
jump where those of the recording do, and the overflow flag of a packet that was left out goes to the next of its
channel: loss stays visible.

A recording with a fault is refused, unless --skip is given: then what is sound of it goes over. So
`bench cut --skip` without a selection mends a damaged recording.

Examples:
  bench cut flight.ch11 --from 12s --to 72s --out minute.ch11
  bench cut --skip damaged.ch11 --out sound.ch11";

/// The command line of `bench cut`.
pub fn command<'a>(alloc: Global) -> Result<Command<'a>, AllocError> {
    let about = "Writes some of the messages of a recording as a recording of their own";
    let rows = extract_options("The Chapter 11 file to cut from", "The file to write to");
    let skip = [flag("skip", "Cuts from what is sound in a damaged recording")];
    let selection = selection_options();
    command_of(alloc, "cut", about, NOTES, &[&rows, &skip, &selection])
}

/// What is to be cut, and where to.
#[derive(Debug, Drop)]
pub struct Request<'a> {
    /// Which messages, and the file to write to.
    pub extract: Extract<'a>,
    /// Whether a damaged recording is cut as far as it is sound.
    pub skip: bool,
}

/// What a command line asks of `bench cut`.
pub fn request_in<'a>(given: &ArgMatches<'a>) -> Request<'a> {
    Request {
        extract: Extract::given(given),
        skip: given.get_flag("skip"),
    }
}

impl<'a> Request<'a> {
    /// How the recording is opened.
    fn opening(&self) -> OpenWay<'a> {
        OpenWay {
            kind: Kind::Recording,
            dictionary: None,
            times: Times {
                asked: false,
                channel: None,
            },
            stamped: false,
            skip: self.skip,
        }
    }
}

/// Writes the messages of a recording that were chosen as a recording of their own.
pub fn run<'a, R: Files<File: Hold> + AllocGlobal + Clock, E: Eprint + IsTerminal>(
    rt: &R,
    errors: &E,
    request: &Request<'a>,
) -> Result<(), CommandFault<'a>> {
    write_chosen(rt, errors, &request.extract, request.opening(), request)
}

impl Writes for Request<'_> {
    fn selects<'a, R: Files + AllocGlobal + Clock, E: Eprint + IsTerminal>(
        &self,
        opened: &Opened<'_, 'a, R, E>,
    ) -> Result<bool, CommandFault<'a>> {
        // What goes nowhere never fails.
        Ok(cut_into(opened, &mut io::sink())?.unwrap_or(true))
    }

    fn write<'a, R: Files + AllocGlobal + Clock, E: Eprint + IsTerminal, W: Write + Drop>(
        &self,
        opened: &Opened<'_, 'a, R, E>,
        _clock: &RecordingClock,
        writer: W,
    ) -> Result<WriteEnd<'a>, CommandFault<'a>> {
        let out = opened.out();
        let mut buffer = on_stream(out, BufWriter::new(opened.recording().alloc(), writer))?;
        match cut_into(opened, &mut buffer)? {
            Some(selected) => match on_stream(out, buffer.flush()) {
                Ok(()) => Ok(WriteEnd::Written(selected)),
                Err(fault) => Ok(WriteEnd::Failed(fault)),
            },
            None => Ok(WriteEnd::Failed(CommandFault::Device(out))),
        }
    }
}

/// Writes the messages of a recording that were chosen; answers whether any was, and None where the writer failed.
fn cut_into<'a, R: Files + AllocGlobal + Clock, E: Eprint + IsTerminal, W: Write>(
    opened: &Opened<'_, 'a, R, E>,
    out: &mut W,
) -> Result<Option<bool>, CommandFault<'a>> {
    let recording = opened.recording();
    let chosen = opened.chosen()?;
    let input = recording.begin_anew()?;
    match cut(recording.alloc(), input, &chosen.selection, out) {
        Ok(selected) => Ok(Some(selected)),
        Err(CutFault::Reading(fault)) => recording.answer(Err(fault)),
        Err(CutFault::Writing) => Ok(None),
    }
}
