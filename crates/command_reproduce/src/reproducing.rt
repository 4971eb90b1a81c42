//! `bench reproduce`: a recorded channel as a job.

use crate::channels::{Found, find_channel};
use bench_compare::write_part;
use bench_files::{Hold, Kind};
use bench_reproduce::{JobForm, ReproduceFault, Reproduction, Verdict, reproduce};
use clap::{ArgMatches, Command};
use command_parts::hosts::System;
use command_parts::options::{argument, command_of, file, flag, force, number};
use command_parts::recordings::{Recording, Source, fault_of_reading};
use command_parts::replacing::may_write;
use command_parts::requests::{CommandFault, write_new};
use command_parts::streams::{listing, on_stream, printed};
use std::alloc::{AllocError, Global};
use std::io::{BufWriter, IsTerminal, Write};
use std::rt::{Clock, Files};
use text_lines::WriteFault;

/// What the help of `bench reproduce` ends with.
const NOTES: &str = "\
The job has the terminals that answered, an `insert at` line for each message with its time behind the first of the
channel, what hosts set so that the replies come as they were recorded, and planned faults for what went wrong. It is
read back and run, and what it gives is compared with the recording, to the tick: `messages N same M`, and for each of
the first ten that are not the same `differs at K PART: X and Y`, K counted in the channel, the recording first, as
`bench compare` has it. The job is written in either case.

With --frames messages that recur, the same commands at the same distances three times or more, are sent by a script of
frames with periods, and the others are inserted; words of the controller that change are set by `data` lines. It is run
and compared in the same way. Where no messages recur, or fewer come out the same so, each is inserted, and standard
error says so.

--channel may be left out where one channel alone has messages. A damaged recording is mended first by
`bench cut --skip`; of one with more than 1000000 messages in the channel a part is cut first by `bench cut --from
--to`.
Exit status: 0 all are the same, 5 some are not; else as for all commands.

Example:
  bench reproduce flight.ch11 --channel 1 --out flight.job";

/// The command line of `bench reproduce`.
pub fn command<'a>(alloc: Global) -> Result<Command<'a>, AllocError> {
    let about =
        "Writes a job that plays a recorded channel again, and says how much comes out the same";
    let channel = "The channel to play again; may be left out where there is one";
    let rows = [
        argument("RECORDING", "A Chapter 11 file"),
        number("channel", channel),
        file("out", "The file to write the job to").required(),
        flag("frames", "Sends messages that recur by frames of a script"),
        force(),
    ];
    command_of(alloc, "reproduce", about, NOTES, &[&rows])
}

/// What is to be reproduced, and where to.
#[derive(Debug, Drop)]
pub struct Request<'a> {
    /// The file of the recording.
    pub recording: &'a str,
    /// The channel, where one is named.
    pub channel: Option<u32>,
    /// The file to write the job to.
    pub out: &'a str,
    /// Whether messages that recur are sent by frames.
    pub frames: bool,
    /// Whether a file that is there and is of another kind may be replaced.
    pub force: bool,
}

/// What a command line asks of `bench reproduce`.
pub fn request_in<'a>(given: &ArgMatches<'a>) -> Request<'a> {
    Request {
        recording: given.get_str("RECORDING").unwrap_or(""),
        channel: given.get_one::<u32>("channel"),
        out: given.get_str("out").unwrap_or(""),
        frames: given.get_flag("frames"),
        force: given.get_flag("force"),
    }
}

/// Writes the job of a recorded channel, runs it and prints how much came out the same. The faults of the recording
/// come before those of the out file. Where some is not the same, it ends with a fault of its own.
pub fn run<'a, R: System, E: Eprint + IsTerminal>(
    rt: &R,
    errors: &E,
    request: &Request<'a>,
) -> Result<(), CommandFault<'a>> {
    let named = named_channel(request)?;
    may_write(
        rt,
        request.out,
        Kind::Job,
        request.force,
        &[request.recording],
    )?;
    let source = Source::of(rt, errors, request.recording)?;
    let recording = source.recording(false, true);
    let done = reproduce_channel(&recording, request, named);
    source.end();
    let done = done?;
    write_new(
        rt,
        request.out,
        Kind::Job,
        request.force,
        done.text.as_bytes(),
    )?;
    tell_of_frames(errors, request, done.form);
    print_verdict(rt, &done.verdict)?;
    if done.verdict.same < done.verdict.messages {
        return Err(CommandFault::Differ);
    }
    Ok(())
}

/// Says that the job has no frames, where they were asked for.
fn tell_of_frames<E: Eprint>(errors: &E, request: &Request<'_>, form: JobForm) {
    if request.frames && form == JobForm::Inserts {
        // Nothing else is lost where standard error takes no more.
        let _ = eprintln!(errors;
            "bench: {}: no frames: no messages recur, or fewer come out the same by them",
            request.recording
        );
    }
}

/// The channel that is named; a usage fault of a number that no channel has.
fn named_channel<'a>(request: &Request<'a>) -> Result<Option<u16>, CommandFault<'a>> {
    match request.channel {
        None => Ok(None),
        Some(number) => match u16::try_from(number) {
            Ok(channel) if channel > 0 => Ok(Some(channel)),
            _ => Err(CommandFault::Usage("--channel takes 1 to 65535")),
        },
    }
}

/// The channel that is named, or else the one that has messages: a pass.
fn channel_of<'a, R: Files + AllocGlobal + Clock, E: Eprint + IsTerminal>(
    recording: &Recording<'_, 'a, R, E>,
    name: &'a str,
    named: Option<u16>,
) -> Result<u16, CommandFault<'a>> {
    if let Some(channel) = named {
        return Ok(channel);
    }
    match find_channel(recording.alloc(), recording.begin_anew()?) {
        Ok(Found::One(0)) => Err(CommandFault::Usage(
            "this recording has messages of channel 0 alone: the channels of jobs are 1 to 65535",
        )),
        Ok(Found::One(channel)) => Ok(channel),
        Ok(Found::None) => Err(CommandFault::NoneSelected),
        Ok(Found::Several) => Err(CommandFault::Usage(
            "this recording has messages of several channels: --channel says which",
        )),
        Err(fault) => Err(fault_of_reading(name, fault)),
    }
}

/// The job of a channel, and what running it came to.
fn reproduce_channel<'a, R: Files + AllocGlobal + Clock, E: Eprint + IsTerminal>(
    recording: &Recording<'_, 'a, R, E>,
    request: &Request<'a>,
    named: Option<u16>,
) -> Result<Reproduction, CommandFault<'a>> {
    let name = request.recording;
    let channel = channel_of(recording, name, named)?;
    let input = recording.begin_anew()?;
    let form = if request.frames {
        JobForm::Frames
    } else {
        JobForm::Inserts
    };
    match reproduce(recording.alloc(), input, channel, form) {
        Ok(done) => Ok(done),
        Err(fault) => Err(fault_of_reproducing(name, fault)),
    }
}

/// The fault of a recording with this name that was not reproduced.
fn fault_of_reproducing<'a>(name: &'a str, fault: ReproduceFault) -> CommandFault<'a> {
    match fault {
        ReproduceFault::Reading(fault) => fault_of_reading(name, fault),
        ReproduceFault::Nothing => CommandFault::NoneSelected,
        ReproduceFault::Many => CommandFault::Usage(
            "a job plays 1000000 messages at most: bench cut --from --to takes a part of the recording",
        ),
        ReproduceFault::Span => CommandFault::Usage(
            "the messages are more than 2^47 ticks apart: bench cut --from --to takes a part of the recording",
        ),
        ReproduceFault::Refused(fault) => CommandFault::Job(fault),
    }
}

/// Prints what running the job came to.
fn print_verdict<'a, R: System>(rt: &R, verdict: &Verdict) -> Result<(), CommandFault<'a>> {
    let mut out = on_stream("-", BufWriter::new(rt.alloc(), listing(rt)))?;
    let written = write_verdict(rt.alloc(), verdict, &mut out);
    printed(written, &mut out)
}

/// Writes how many messages are the same, and a line for each of the first ten that are not.
fn write_verdict<W: Write>(
    alloc: Global,
    verdict: &Verdict,
    out: &mut W,
) -> Result<(), WriteFault> {
    let (messages, same) = (verdict.messages, verdict.same);
    write!(out, "messages {messages} same {same}\n")?;
    for difference in verdict.differences.as_slice() {
        let number = difference.number;
        write!(out, "differs at {number} ")?;
        write_part(alloc, difference, out)?;
        out.write_all(b"\n")?;
    }
    Ok(())
}
