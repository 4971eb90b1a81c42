//! `bench complete`: a recording made into the file that other Chapter 10 and 11 tools expect.

use crate::channels::described;
use crate::standing::standing_of;
use bench_complete::{Additions, CompleteFault, Completion, Places, UtcSecond};
use bench_files::{Hold, Kind};
use bench_settings::DEFAULT_VERSION;
use ch11_reader::Skip;
use ch11_stream::Advance;
use clap::{ArgMatches, Command};
use command_finishing::completing::{
    answer_of_writing, fault_of, second_time, setup_text, start_of, time, time_channel,
    time_channel_in, write_out,
};
use command_parts::options::{argument, command_of, file, flag, force, version};
use command_parts::recordings::{Recording, Source};
use command_parts::replacing::{begin_to_write, may_write, put_or_give_up};
use command_parts::requests::CommandFault;
use std::alloc::{AllocError, Global};
use std::io::IsTerminal;
use std::rt::{Clock, Files};

/// What the help of `bench complete` ends with.
const NOTES: &str = "\
The packets of the recording go over byte for byte, each channel's in their order. Setup records (type 01) that lead
the recording stay in front; behind them, of all channels, the packet with the lowest counter goes first. An index of
the recording (type 03) is left out. A recording with a fault is refused, unless --skip is given: then what is sound
goes over, and what was skipped is listed on the standard error.

Example:
  bench complete flight.ch11 --out flight.ch10 --setup flight.tmats --time 2024-12-31T23:59:58";

/// The command line of `bench complete`.
pub fn command<'a>(alloc: Global) -> Result<Command<'a>, AllocError> {
    let about = "Makes a recording into the file that other Chapter 10 and 11 tools expect";
    let setup = "The text of the setup record (TMATS) to put in front, 1 to 524000 bytes";
    let auto_setup = "Puts a setup record in front that names and numbers the recording's channels";
    let rows = [
        argument("RECORDING", "The Chapter 11 file to complete"),
        file("out", "The file to write the complete file to").required(),
        file("setup", setup),
        flag("auto-setup", auto_setup).never_with(&["setup"]),
        time(),
        time_channel(),
        second_time(),
        version().or("6"),
        force(),
        flag("skip", "Completes what is sound in a damaged recording"),
    ];
    let command = command_of(alloc, "complete", about, NOTES, &[&rows])?;
    Ok(command.disable_version_flag(true))
}

/// What is to be completed, and how.
#[derive(Debug, Drop)]
pub struct Request<'a> {
    /// The file of the recording.
    pub recording: &'a str,
    /// The file to write the complete file to.
    pub out: &'a str,
    /// The file of the setup record's text.
    pub setup: Option<&'a str>,
    /// Whether a setup record of the recording's channels is made, where there is no such file.
    pub auto_setup: bool,
    /// The time at tick 0, as a text.
    pub time: Option<&'a str>,
    /// The channel of the time packets.
    pub time_channel: u16,
    /// Whether time packets are added to a recording that has some already.
    pub second_time: bool,
    /// The data type version of the setup record and of the time packets.
    pub version: u8,
    /// Whether whatever is sound of a damaged recording is completed.
    pub skip: bool,
    /// Whether a file of another kind may be replaced.
    pub force: bool,
}

/// What a command line asks of `bench complete`.
pub fn request_in<'a>(given: &ArgMatches<'a>) -> Request<'a> {
    Request {
        recording: given.get_str("RECORDING").unwrap_or(""),
        out: given.get_str("out").unwrap_or(""),
        setup: given.get_str("setup"),
        auto_setup: given.get_flag("auto-setup"),
        time: given.get_str("time"),
        time_channel: time_channel_in(given),
        second_time: given.get_flag("second-time"),
        version: given.get_one::<u8>("version").unwrap_or(DEFAULT_VERSION),
        skip: given.get_flag("skip"),
        force: given.get_flag("force"),
    }
}

/// Makes a recording into a complete file. The recording is opened, then the text of the setup record is read; the out
/// file, which is neither of them, is made once both were accepted. Where the packets stand is listed in one pass over
/// the recording, and then each is read there once more.
pub fn run<'a, R: Files<File: Hold> + AllocGlobal + Clock, E: Eprint + IsTerminal>(
    rt: &R,
    errors: &E,
    request: &Request<'a>,
) -> Result<(), CommandFault<'a>> {
    let start = start_of(request.time)?;
    let read = [
        request.recording,
        request.setup.unwrap_or(request.recording),
    ];
    may_write(rt, request.out, Kind::Recording, request.force, &read)?;
    let source = Source::of(rt, errors, request.recording)?;
    let recording = source.recording(request.skip, false);
    let completed = complete_recording(rt, errors, request, &recording, start);
    source.end();
    completed
}

/// Makes a recording that was opened into a complete file.
fn complete_recording<'a, R: Files<File: Hold> + AllocGlobal + Clock, E: Eprint + IsTerminal>(
    rt: &R,
    errors: &E,
    request: &Request<'a>,
    recording: &Recording<'_, 'a, R, E>,
    start: Option<UtcSecond>,
) -> Result<(), CommandFault<'a>> {
    let text = if request.auto_setup {
        let times = start.map(|_| request.time_channel);
        described(recording, times)?
    } else {
        setup_text(rt, request.setup)?
    };
    let asked = request.auto_setup || request.setup.is_some();
    let additions = Additions {
        setup: if asked { Some(text.as_slice()) } else { None },
        start,
        time_channel: request.time_channel,
        second_time: request.second_time,
        version: request.version,
    };
    complete_with(rt, errors, request, recording, &additions)
}

/// Makes a recording that was opened into a complete file with these additions.
fn complete_with<'a, R: Files<File: Hold> + AllocGlobal + Clock, E: Eprint + IsTerminal>(
    rt: &R,
    errors: &E,
    request: &Request<'a>,
    recording: &Recording<'_, 'a, R, E>,
    additions: &Additions<'_>,
) -> Result<(), CommandFault<'a>> {
    let input = match recording.begin_reading() {
        Ok(input) => input,
        Err(fault) => return Err(fault),
    };
    let places = match standing_of(rt, recording, request.recording) {
        Ok(places) => places,
        Err(fault) => return Err(fault),
    };
    match plan(rt.alloc(), errors, input, places, additions, request.skip) {
        Ok(completion) => {
            let (file, writer) = begin_to_write(rt, request.out, Kind::Recording, request.force)?;
            let written = write_out(rt.alloc(), writer, completion);
            let written = answer_of_writing(written, request.recording, request.out);
            put_or_give_up(rt, request.out, file, written)
        }
        Err(fault) => Err(misuse_of(fault, request)),
    }
}

/// Judges a recording and what is to be added; what is skipped is printed.
fn plan<'b, I: Advance + Drop, S: Places + Drop, E: Eprint>(
    alloc: Global,
    errors: &E,
    input: I,
    places: S,
    additions: &Additions<'b>,
    skip: bool,
) -> Result<Completion<'b, S>, CompleteFault> {
    if !skip {
        return Completion::plan(alloc, input, places, additions);
    }
    let (completion, skips) = Completion::plan_skipping(alloc, input, places, additions)?;
    print_skips(errors, &skips);
    Ok(completion)
}

/// What a fault of what was asked is to the program, where the setup record may be one that is made.
fn misuse_of<'a>(fault: CompleteFault, request: &Request<'a>) -> CommandFault<'a> {
    match fault {
        CompleteFault::SetupSize if request.auto_setup => CommandFault::Usage(
            "--auto-setup for a recording of more channels than a setup record has room for",
        ),
        CompleteFault::SetupTwice if request.auto_setup => CommandFault::Usage(
            "--auto-setup for a recording that has computer generated data of type 01",
        ),
        fault => fault_of(fault, request.recording, request.out),
    }
}

/// A line for each skip, as `bench dump --skip` has it.
fn print_skips<E: Eprint>(errors: &E, skips: &[Skip]) {
    for skip in skips {
        // Nothing else is lost where standard error takes no more.
        let _ = eprintln!(errors;
            "skipped {} length {} {}",
            skip.offset, skip.length, skip.fault
        );
    }
}
