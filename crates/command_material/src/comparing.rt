//! `bench compare`: two recordings, channel by channel.

use crate::showing::write_shown;
use crate::telling::json_of;
use bench_compare::{
    CompareFault, Compared, SideFault, Sides, compare, differing, write_comparison, write_junit,
};
use bench_files::Kind;
use bench_select::{Selection, Stamps};
use ch11_stream::StreamFault;
use clap::{ArgMatches, Command};
use command_parts::hosts::System;
use command_parts::looking::tell_of_unknown;
use command_parts::options::{argument, command_of, file, force, json, number};
use command_parts::recordings::{Recording, Source, fault_of_reading};
use command_parts::replacing::may_write;
use command_parts::requests::{CommandFault, write_new};
use command_parts::selecting::{GivenSelection, given_selection, selection_in, selection_options};
use command_parts::streams::{listing, on_stream, printed};
use command_parts::terminals::{is_for_people, prints_to_terminal};
use std::alloc::{AllocError, Global};
use std::io::{BufWriter, IsTerminal, Write};
use std::rt::{Clock, Files};

/// The most ticks that times may be apart.
const MOST_TICKS: u32 = 1_000_000;

/// What the help of `bench compare` ends with.
const NOTES: &str = "\
For each channel of which one of the recordings has a message that is chosen: `channel C messages N M`, how many each
has, and where they differ `channel C differs at K PART: X and Y`: K the first message of the channel that differs, PART
the first of stamp, line, words, block and gaps in which it does, X and Y what each recording has there, or `missing in
A`, `missing in B`. Last `channels N differ M`. Stamps are compared by their distance from the first of their channel.
Packets, versions and sequence numbers play no part.

--channel, --line, --only, --errors, --from and --to choose messages, numbered as in each file.
Exit status: 0 nothing differs, 5 a channel does; else as for all commands.

Example:
  bench compare monday.ch11 tuesday.ch11 --within 20";

/// The command line of `bench compare`.
pub fn command<'a>(alloc: Global) -> Result<Command<'a>, AllocError> {
    let about = "Compares two recordings, channel by channel, message by message";
    let junit = "The file to write a JUnit report to, a test case a channel";
    let within = "How many ticks of 0.1 us stamps and gaps may be apart, 0 to 1000000";
    let rows = [
        argument("A", "A Chapter 11 file"),
        argument("B", "The Chapter 11 file to compare it with"),
        number("within", within).or("0"),
        file("junit", junit),
        json(),
        force(),
    ];
    let selection = selection_options();
    command_of(alloc, "compare", about, NOTES, &[&rows, &selection])
}

/// What is to be compared.
#[derive(Debug, Drop)]
pub struct Request<'a> {
    /// The file of the first recording.
    pub first: &'a str,
    /// The file of the second.
    pub second: &'a str,
    /// Which of their messages.
    pub selection: GivenSelection<'a>,
    /// How many ticks of 0.1 µs times may be apart.
    pub within: u32,
    /// The file to write what differs to as JUnit XML, if any.
    pub junit: Option<&'a str>,
    /// Whether it is printed as JSON lines.
    pub json: bool,
    /// Whether a file of another kind may be replaced by it.
    pub force: bool,
}

/// What a command line asks of `bench compare`.
pub fn request_in<'a>(given: &ArgMatches<'a>) -> Request<'a> {
    Request {
        first: given.get_str("A").unwrap_or(""),
        second: given.get_str("B").unwrap_or(""),
        selection: given_selection(given),
        within: given.get_one::<u32>("within").unwrap_or(0),
        junit: given.get_str("junit"),
        json: given.get_flag("json"),
        force: given.get_flag("force"),
    }
}

/// Compares two recordings and prints what differs. The first is judged, then the second. Where a channel differs, it
/// ends with a fault of its own.
pub fn run<'a, R: System, E: Eprint + IsTerminal>(
    rt: &R,
    errors: &E,
    request: &Request<'a>,
) -> Result<(), CommandFault<'a>> {
    judge_options(request)?;
    if let Some(junit) = request.junit {
        let read = [request.first, request.second];
        may_write(rt, junit, Kind::Verdicts, request.force, &read)?;
    }
    let first = Source::of(rt, errors, request.first)?;
    let second = Source::of(rt, errors, request.second)?;
    let (one, other) = (first.recording(false, true), second.recording(false, true));
    let compared = compare_recordings(errors, request, &one, &other);
    first.end();
    second.end();
    let compared = compared?;
    if compared.is_empty() && !request.selection.is_empty() {
        return Err(CommandFault::NoneSelected);
    }
    print_compared(rt, request, compared.as_slice())?;
    write_report(rt, request, compared.as_slice())?;
    if differing(compared.as_slice()) > 0 {
        return Err(CommandFault::Differ);
    }
    Ok(())
}

/// Refuses a selection that its options don't spell, and more ticks than there may be.
fn judge_options<'a>(request: &Request<'a>) -> Result<(), CommandFault<'a>> {
    selection_in(&request.selection)?;
    if request.within > MOST_TICKS {
        return Err(CommandFault::Usage("--within takes 0 to 1000000 ticks of 0.1 us"));
    }
    Ok(())
}

/// Compares two recordings.
fn compare_recordings<'s, 'f, 'a, R: Files + AllocGlobal + Clock, E: Eprint + IsTerminal>(
    errors: &E,
    request: &Request<'a>,
    first: &'s Recording<'f, 'a, R, E>,
    second: &'s Recording<'f, 'a, R, E>,
) -> Result<Vec<Compared>, CommandFault<'a>> {
    let timed = selection_in(&request.selection)?.is_timed();
    let one = first.stamps(timed)?;
    let other = second.stamps(timed)?;
    tell_of_unknown(errors, request.first, &one);
    tell_of_unknown(errors, request.second, &other);
    let of_first = selection_from(request, &one)?;
    let of_second = selection_from(request, &other)?;
    let within = u64::from(request.within);
    match compare_chosen(first, second, of_first, of_second, within) {
        Ok(compared) => Ok(compared),
        Err(CompareFault::First(fault)) => Err(fault_of_side(request.first, fault)),
        Err(CompareFault::Second(fault)) => Err(fault_of_side(request.second, fault)),
    }
}

/// The selection that is asked for, whose times count from these stamps.
fn selection_from<'s, 'a>(
    request: &Request<'a>,
    stamps: &'s Stamps,
) -> Result<Selection<'s>, CommandFault<'a>> {
    let selection = selection_in(&request.selection)?;
    Ok(selection.counting_from(stamps.origins.as_slice()))
}

/// Compares what is chosen of two recordings.
fn compare_chosen<'s, 'f, 'a, R: Files + AllocGlobal + Clock, E: Eprint + IsTerminal>(
    first: &'s Recording<'f, 'a, R, E>,
    second: &'s Recording<'f, 'a, R, E>,
    of_first: Selection<'s>,
    of_second: Selection<'s>,
    within: u64,
) -> Result<Vec<Compared>, CompareFault> {
    let sides = Sides {
        first,
        second,
        of_first,
        of_second,
    };
    compare(first.alloc(), &sides, within)
}

/// The fault of a recording with this name that was not compared to its end.
fn fault_of_side<'a>(name: &'a str, fault: SideFault) -> CommandFault<'a> {
    match fault {
        SideFault::Opening(error) => CommandFault::of_stream(name, &error),
        SideFault::Reading(StreamFault::Refused(refusal)) => CommandFault::OneOfTwo {
            name,
            refusal,
        },
        SideFault::Reading(fault) => fault_of_reading(name, fault),
    }
}

/// Prints what was compared.
fn print_compared<'a, R: System>(
    rt: &R,
    request: &Request<'a>,
    compared: &[Compared],
) -> Result<(), CommandFault<'a>> {
    let mut out = on_stream("-", BufWriter::new(rt.alloc(), listing(rt)))?;
    if request.json {
        let text = json_of(rt.alloc(), compared)?;
        on_stream("-", out.write_all(text.as_slice()))?;
        return on_stream("-", out.flush());
    }
    let written = if prints_to_terminal(rt) {
        write_shown(rt.alloc(), compared, is_for_people(rt), &mut out)
    } else {
        write_comparison(rt.alloc(), compared, &mut out)
    };
    printed(written, &mut out)
}

/// Writes the JUnit file, where one is asked for.
fn write_report<'a, R: System>(
    rt: &R,
    request: &Request<'a>,
    compared: &[Compared],
) -> Result<(), CommandFault<'a>> {
    let Some(junit) = request.junit else {
        return Ok(());
    };
    let mut report = Vec::new(rt.alloc());
    match write_junit(rt.alloc(), compared, &mut report) {
        Ok(()) => write_new(rt, junit, Kind::Verdicts, request.force, report.as_slice()),
        Err(_) => Err(CommandFault::Memory),
    }
}
