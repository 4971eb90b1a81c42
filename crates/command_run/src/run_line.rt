//! The command line of `bench run`.

use crate::completed_run::{Completing, completing_in, completing_options};
use crate::judged_run::{judge_option, signals_option};
use crate::live_run::{Going, going_in, going_options};
use crate::strict_run::strict_option;
use bench_settings::{DEFAULT_LIMIT, DEFAULT_QUEUE, DEFAULT_VERSION};
use clap::{ArgMatches, Command};
use command_parts::options::{Row, command_of, file, flag, force, jobs, number, version, words_in};
use command_parts::requests::RunRequest;
use std::alloc::{AllocError, Global};

/// What the help of `bench run` ends with.
const NOTES: &str = "\
Prints how many packets and messages the recording has, to standard error where the recording goes to standard
output. Buses wait while the queue is full, so that every message is recorded. With --drop they never wait: a
message that finds the queue full is refused, and listed in the report by its number in its channel; how many
were is said on standard error (the guide says how much room a queue needs so that none is).

Recording and report are written under the names FILE.part, and take the place of what is there together, once
both are whole: a run that fails (U4), or is interrupted, leaves what was there, and in FILE.part what was taken.
No file is written over that is read, that another run is writing, or that is of another kind.

With --live a line `CHANNEL ADDRESS ACTION` of the standard input is an action as behind `at` in a job; it acts at the
next message of the channel. A line that cannot be posted is told on standard error with its number, and the run goes
on, as it does behind the end of the input. It ends with its scripts. A channel takes 65536 posts at most. With --pace
a message waits until real time has come to the end of the one before it; nothing is promised of time. With --show
each message is printed as it is recorded, as dump --decode has it; where what reads that is slow messages are left
out there, and how many were is told, but the run waits for nothing.

With --judge the recording is read back behind the counts and judged by rules, as bench judge does: status 5 where
one is not held. Recording and report are kept either way. The rules are read first: a fault of theirs costs no run.
With --signals DICTIONARY rules may name signals, as those of bench judge --signals.

With --strict what is probably a mistake in the jobs, as bench check --strict finds it, is said on standard error
behind the counts: status 5 where there is anything. Recording and report are kept either way.

With --complete the file is what `bench complete` makes of the recording, which is kept in memory until it ends:
a setup record first, a time packet each second, packets in order of time. --setup, --time and --time-channel are
those of `bench complete`, with the version of --version.

Example:
  bench run --out flight.ch11 --report flight.report avionics.job stores.job
  bench run --live --show --out flight.ch11 --report flight.report avionics.job <host.fifo
  bench run --complete --setup flight.tmats --out flight.ch10 --report flight.report avionics.job stores.job";

/// The command line of `bench run`: its files, settings and ways to go, and its help.
pub fn command<'a>(alloc: Global) -> Result<Command<'a>, AllocError> {
    let about = "Runs jobs, each on a thread of its own, and records them all into one file";
    let (settings, going) = (setting_options(), going_options());
    let (files, completing) = (file_options(), completing_options());
    let arguments = [jobs()];
    let tables: &[&[Row<'a>]] = &[&settings, &going, &files, &completing, &arguments];
    Ok(command_of(alloc, "run", about, NOTES, tables)?.disable_version_flag(true))
}

/// The settings of a run.
fn setting_options<'a>() -> [Row<'a>; 5] {
    let limit = "How many bytes a packet has at most, 256 to 524288";
    let queue = "How many messages may wait in the queue at most, 1 to 4096";
    let hold =
        "Buses wait while the queue is full, so that no message is refused: so it is without this option too";
    let drop =
        "Buses never wait: a message that finds the queue full is refused, and is missing from the recording";
    [
        version().or("6"),
        number("limit", limit).or("65536"),
        number("queue", queue).or("4096"),
        flag("hold", hold).never_with(&["drop"]),
        flag("drop", drop),
    ]
}

/// The files of a run but its jobs.
fn file_options<'a>() -> [Row<'a>; 7] {
    let prologue =
        "Packets to put in front of all others, such as a setup record (TMATS); none of MIL-STD-1553 messages";
    let report = "The file to write the report to; it is written only where the recording is whole";
    [
        file("prologue", prologue),
        judge_option(),
        signals_option(),
        strict_option(),
        file("out", "The file to write the recording to").required(),
        file("report", report).required(),
        force(),
    ]
}

/// Jobs that are to be recorded into a file, or into the complete file of their recording.
#[derive(Debug, Drop)]
pub struct Request<'a> {
    /// The jobs, how they are recorded, and the files that are read and written.
    pub run: RunRequest<'a>,
    /// How the recording is completed, where it is.
    pub completing: Option<Completing<'a>>,
    /// How the run goes on.
    pub going: Going<'a>,
}

/// What a command line asks of `bench run`.
pub fn request_in<'a>(alloc: Global, given: &ArgMatches<'a>) -> Result<Request<'a>, AllocError> {
    Ok(Request {
        run: run_in(alloc, given)?,
        completing: completing_in(given),
        going: going_in(given),
    })
}

/// The jobs of a run, and how they are recorded.
fn run_in<'a>(alloc: Global, given: &ArgMatches<'a>) -> Result<RunRequest<'a>, AllocError> {
    Ok(RunRequest {
        version: given.get_one::<u8>("version").unwrap_or(DEFAULT_VERSION),
        limit: given.get_one::<u32>("limit").unwrap_or(DEFAULT_LIMIT),
        queue: given.get_one::<u32>("queue").unwrap_or(DEFAULT_QUEUE),
        drops: given.get_flag("drop"),
        force: given.get_flag("force"),
        strict: given.get_flag("strict"),
        prologue: given.get_str("prologue"),
        judge: given.get_str("judge"),
        signals: given.get_str("signals"),
        out: given.get_str("out").unwrap_or(""),
        report: given.get_str("report").unwrap_or(""),
        jobs: words_in(alloc, given, "JOB")?,
    })
}
