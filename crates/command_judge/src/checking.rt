//! `bench check`: jobs tried without a recording.

use bench_check::{Bits, Way, check_job};
use bench_settings::{DEFAULT_LIMIT, DEFAULT_QUEUE, DEFAULT_VERSION, Settings, judge};
use clap::{ArgMatches, Command};
use command_finishing::mistakes::{print_name, strict_verdict};
use command_parts::dictionaries::signals_in;
use command_parts::options::{command_of, file, flag, jobs, words_in};
use command_parts::requests::{CommandFault, jobs_of, read_texts};
use command_parts::streams::{listing, on_stream, printed};
use job_file::Job;
use std::alloc::{AllocError, Global};
use std::io::{BufWriter, Write};
use std::rt::Files;
use text_lines::WriteFault;

/// What the help of `bench check` ends with.
const NOTES: &str = "\
Each message is shown with its number in its channel, its time, and its line and form in a script's words; below it
the actions placed at it, the faults planned for it, and what it came to: the status words, and the block status
word by the names of its bits. Then follows what is probably a mistake: a planned fault that meets nothing, an
action that no message reaches, a message to a terminal that is not there, a terminal that is never called, a frame
that took longer than its period, and one that may take longer: each reply 12 us late, each retry used up, each poll
asked as often as it may; and how much room the queue of `bench run --drop` needs for nothing to be refused.
Where a line of a job is by time or by command, each action and each fault has the number of its line behind it; and
what was never due is told, and a fault that is left out because four others come first.

With --summary the messages are only counted, and what is probably a mistake goes further: a terminal that transmits
from a subaddress where no words were put up, and messages that are answered with message_error and not sent again.
With --strict it goes as far, and the status is 5 where anything is probably a mistake.

With --signals DICTIONARY the values of signals in a message stand below what it came to (bench signals --help).

Example:
  bench check avionics.job
  bench check --strict avionics.job
  bench check --summary avionics.job stores.job";

/// The command line of `bench check`.
pub fn command<'a>(alloc: Global) -> Result<Command<'a>, AllocError> {
    let about = "Tries jobs without a recording, and says what is probably a mistake";
    let summary = "Says only what is probably a mistake, and how many messages there are";
    let strict = "Ends with status 5 where anything is probably a mistake";
    let signals = "Shows the values of the signals of this dictionary in each message";
    let rows = [
        flag("summary", summary),
        flag(
            "decode",
            "Shows the bits of each status word by their names too",
        ),
        flag("strict", strict),
        file("signals", signals).never_with(&["summary"]),
        jobs(),
    ];
    command_of(alloc, "check", about, NOTES, &[&rows])
}

/// Which jobs are to be tried, and how this is told.
#[derive(Debug, Drop)]
pub struct Request<'a> {
    /// The files of the jobs.
    pub jobs: Vec<&'a str>,
    /// How they are tried, and what is told of them but for signals.
    pub way: Way<'static>,
    /// The file of a dictionary whose signals are shown, if any.
    pub signals: Option<&'a str>,
}

/// What a command line asks of `bench check`.
pub fn request_in<'a>(alloc: Global, given: &ArgMatches<'a>) -> Result<Request<'a>, AllocError> {
    Ok(Request {
        jobs: words_in(alloc, given, "JOB")?,
        way: Way {
            summary: given.get_flag("summary"),
            strict: given.get_flag("strict"),
            bits: if given.get_flag("decode") {
                Bits::Names
            } else {
                Bits::Digits
            },
            signals: &[],
        },
        signals: given.get_str("signals"),
    })
}

/// Tries jobs, one after the other, each under a line with the name of its file where there are several. All files
/// are read and judged before the first job is tried, as for a run, a dictionary of signals before all jobs.
pub fn run<'a, R: Files + AllocGlobal + Print>(
    rt: &R,
    request: &Request<'a>,
) -> Result<(), CommandFault<'a>> {
    let signals = signals_in(rt, request.signals)?;
    let names = request.jobs.as_slice();
    let texts = read_texts(rt, names)?;
    let jobs = jobs_of(rt.alloc(), &texts)?;
    judge_jobs(rt.alloc(), &jobs)?;
    let way = Way {
        summary: request.way.summary,
        strict: request.way.strict,
        bits: request.way.bits,
        signals: signals.as_slice(),
    };
    print_checks(rt, names, way, &texts, &jobs)
}

/// Judges jobs as those of a run with the settings that it has where none are given.
fn judge_jobs<'a>(alloc: Global, jobs: &[Job]) -> Result<(), CommandFault<'a>> {
    let settings = Settings {
        version: DEFAULT_VERSION,
        limit: DEFAULT_LIMIT,
        queue: DEFAULT_QUEUE,
        prologue: Vec::new(alloc),
        posts: 0,
    };
    match judge(jobs, &settings) {
        Ok(()) => Ok(()),
        Err(refused) => Err(CommandFault::of_settings(refused)),
    }
}

/// Tries jobs that were judged, and prints what is to be said of them. Where that is asked for, it is a fault that
/// anything is probably a mistake.
fn print_checks<'a, R: AllocGlobal + Print>(
    rt: &R,
    names: &[&'a str],
    way: Way<'_>,
    texts: &[Vec<u8>],
    jobs: &[Job],
) -> Result<(), CommandFault<'a>> {
    let mut out = on_stream("-", BufWriter::new(rt.alloc(), listing(rt)))?;
    match check_each(rt.alloc(), names, way, texts, jobs, &mut out) {
        Ok(is_suspicious) => {
            printed(Ok(()), &mut out)?;
            strict_verdict(way.strict && is_suspicious)
        }
        Err(fault) => printed(Err(fault), &mut out),
    }
}

/// Tries each job, and prints the room that all of them need together where there are several. Whether anything is
/// probably a mistake is answered.
fn check_each<W: Write>(
    alloc: Global,
    names: &[&str],
    way: Way<'_>,
    texts: &[Vec<u8>],
    jobs: &[Job],
    out: &mut W,
) -> Result<bool, WriteFault> {
    let several = jobs.len() > 1;
    let mut room = 0u64;
    let mut is_suspicious = false;
    for ((name, text), job) in names.iter().zip(texts).zip(jobs) {
        if several {
            print_name(out, name)?;
        }
        let checked = check_job(alloc, job, text, way, out)?;
        room = room.saturating_add(checked.room);
        is_suspicious = is_suspicious || checked.is_suspicious;
    }
    if several {
        print_room(out, room)?;
    }
    Ok(is_suspicious)
}

fn print_room<W: Write>(out: &mut W, room: u64) -> Result<(), WriteFault> {
    writeln!(
        out,
        "queue {room}: with room for so many nothing of all these jobs is refused"
    )?;
    Ok(())
}
