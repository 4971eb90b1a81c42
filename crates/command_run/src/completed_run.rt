//! `bench run --complete`: jobs recorded, and the complete file made of their recording at once.

use crate::live_run::{Run, record};
use crate::recording::{ended, finish};
use bench_complete::{Additions, CompleteFault, Completion, UtcSecond};
use bench_files::Hold;
use bench_report::Report;
use bench_run::RunError;
use ch11_writer::MemorySink;
use clap::ArgMatches;
use command_finishing::completing::{
    answer_of_writing, fault_of, second_time, start_of, time, time_channel, time_channel_in,
    write_out,
};
use command_parts::hosts::{Errors, Host};
use command_parts::options::{Row, file, flag};
use command_parts::requests::{CommandFault, Ending, RunFiles, RunRequest};
use job_file::{Job, next_record};
use std::alloc::{AllocError, Global};
use std::rt::Files;

/// How the recording of a run is completed.
#[derive(Clone, Copy, Debug)]
pub struct Completing<'a> {
    /// The file of the setup record's text.
    pub setup: Option<&'a str>,
    /// The time at tick 0, as a text.
    pub time: Option<&'a str>,
    /// The channel of the time packets.
    pub time_channel: u16,
    /// Whether time packets are added to a recording that has some already.
    pub second_time: bool,
}

/// The options of `bench run` that have its recording completed.
pub(crate) fn completing_options<'a>() -> [Row<'a>; 5] {
    let complete = "Writes the complete file of the recording, as `bench complete` makes it";
    let setup =
        "With --complete: the text of the setup record (TMATS) to put in front, 1 to 524000 bytes";
    [
        flag("complete", complete),
        file("setup", setup).only_with("complete"),
        time().only_with("complete"),
        time_channel().only_with("complete"),
        second_time(),
    ]
}

/// How the recording of a run is to be completed, where it is.
pub(crate) fn completing_in<'a>(given: &ArgMatches<'a>) -> Option<Completing<'a>> {
    if !given.get_flag("complete") {
        return None;
    }
    Some(Completing {
        setup: given.get_str("setup"),
        time: given.get_str("time"),
        time_channel: time_channel_in(given),
        second_time: given.get_flag("second-time"),
    })
}

/// The time at tick 0 that a run is given.
pub(crate) fn start_in<'a>(
    completing: Option<&Completing<'a>>,
) -> Result<Option<UtcSecond>, CommandFault<'a>> {
    match completing {
        Some(asked) => start_of(asked.time),
        None => Ok(None),
    }
}

/// The file of the setup record's text that a run is given.
pub(crate) fn setup_in<'a>(completing: Option<&Completing<'a>>) -> Option<&'a str> {
    match completing {
        Some(asked) => asked.setup,
        None => None,
    }
}

/// What is added to the recording of a run, if it is completed. The size of the setup record's text is judged.
pub(crate) fn additions_in<'a, 'b>(
    alloc: Global,
    completing: Option<&Completing<'a>>,
    start: Option<UtcSecond>,
    setup: &'b [u8],
    version: u8,
) -> Result<Option<Additions<'b>>, CommandFault<'a>> {
    let Some(asked) = completing else {
        return Ok(None);
    };
    let additions = Additions {
        setup: asked.setup.map(|_| setup),
        start,
        time_channel: asked.time_channel,
        second_time: asked.second_time,
        version,
    };
    let none: &[u8] = &[];
    match Completion::plan(alloc, none, none, &additions) {
        Ok(_) => Ok(Some(additions)),
        Err(fault) => Err(fault_of(fault, "", "")),
    }
}

/// Whether a job makes a message.
fn is_heard(alloc: Global, job: &Job) -> Result<bool, AllocError> {
    let mut machine = job.machine(alloc, job.actions())?;
    Ok(next_record(&mut machine).is_some())
}

/// The fault that the recording will have whatever is in its other packets: one that its prologue has already, or time
/// packets on the channel of a job that makes a message, which is in the recording where buses are held.
fn judge_before(
    alloc: Global,
    run: Run<'_, '_>,
    drops: bool,
    additions: &Additions<'_>,
) -> Result<(), CompleteFault> {
    let prologue = run.settings.prologue.as_slice();
    match Completion::plan(alloc, prologue, prologue, additions) {
        Ok(_) | Err(CompleteFault::Refused(_)) => {}
        Err(fault) => return Err(fault),
    }
    if drops || additions.start.is_none() {
        return Ok(());
    }
    for job in run.jobs {
        if job.channel() == additions.time_channel && is_heard(alloc, job)? {
            return Err(CompleteFault::ChannelTaken);
        }
    }
    Ok(())
}

/// Records a run, and writes the complete file of the recording into files that were begun, then the report, which is
/// answered. Where there is a fault, what was there stays.
pub(crate) fn record_completed<'a, R: Host, E: Errors>(
    rt: &R,
    errors: &E,
    request: &RunRequest<'a>,
    run: Run<'_, '_>,
    additions: &Additions<'_>,
    files: RunFiles<'a, R::File>,
) -> Result<Report, CommandFault<'a>>
where
    R::Reader: 'static,
{
    let mut files = files;
    match complete_into(rt, errors, request, run, additions, &mut files) {
        Ok(report) => finish(rt, files, report),
        Err(fault) => Err(ended(rt, files, Ending::Broken, fault)),
    }
}

/// What is to be added, with the text of its setup record at a place of its own.
fn with_text<'b>(additions: &Additions<'_>, text: &'b [u8]) -> Additions<'b> {
    Additions {
        setup: additions.setup.map(|_| text),
        start: additions.start,
        time_channel: additions.time_channel,
        second_time: additions.second_time,
        version: additions.version,
    }
}

/// Records a run, and writes the complete file of the recording, which is kept in memory until then. What is to be
/// added is judged before the first message as far as that needs no recording, and again behind the last.
fn complete_into<'a, R: Host, E: Errors>(
    rt: &R,
    errors: &E,
    request: &RunRequest<'a>,
    run: Run<'_, '_>,
    additions: &Additions<'_>,
    files: &mut RunFiles<'a, R::File>,
) -> Result<Report, CommandFault<'a>>
where
    R::Reader: 'static,
{
    if let Err(fault) = judge_before(rt.alloc(), run, request.drops, additions) {
        return Err(fault_of(fault, "", ""));
    }
    let (report, sink) = record_in_memory(rt, errors, run)?;
    match write_completed(rt, request.out, sink.bytes(), additions, files) {
        Ok(()) => Ok(report),
        Err(fault) => Err(fault),
    }
}

/// Records a run in memory.
fn record_in_memory<'a, R: Host, E: Errors>(
    rt: &R,
    errors: &E,
    run: Run<'_, '_>,
) -> Result<(Report, MemorySink), CommandFault<'a>>
where
    R::Reader: 'static,
{
    match record(rt, errors, run, MemorySink::make(rt.alloc())) {
        Ok(recorded) => Ok(recorded),
        Err(RunError::Sink { .. }) => Err(CommandFault::Memory),
        Err(error) => Err(CommandFault::of_run(&error)),
    }
}

/// Writes the complete file of a recording.
fn write_completed<'a, R: Files<File: Hold> + AllocGlobal>(
    rt: &R,
    name: &'a str,
    recording: &[u8],
    additions: &Additions<'_>,
    files: &mut RunFiles<'a, R::File>,
) -> Result<(), CommandFault<'a>> {
    let text = additions.setup.unwrap_or(&[]);
    match Completion::plan(
        rt.alloc(),
        recording,
        recording,
        &with_text(additions, text),
    ) {
        Ok(completion) => write_planned(rt, name, completion, files),
        Err(fault) => Err(fault_of(fault, "", "")),
    }
}

fn write_planned<'a, R: Files<File: Hold> + AllocGlobal>(
    rt: &R,
    name: &'a str,
    completion: Completion<'_, &[u8]>,
    files: &mut RunFiles<'a, R::File>,
) -> Result<(), CommandFault<'a>> {
    let writer = files.recording(rt)?;
    answer_of_writing(write_out(rt.alloc(), writer, completion), name, name)
}
