//! `bench step`: a recording, walked through by lines of the standard input.

use bench_reasons::Explained;
use bench_report::{Report, ReportError, ReportFault, read_report};
pub use bench_step::jobs_under;
use bench_step::{Prompted, step};
use ch11_check::check;
use clap::{ArgMatches, Command};
use command_parts::context::Context;
use command_parts::options::{argument, arguments, command_of, words_in};
use command_parts::recordings::answer_of_reading;
use command_parts::requests::{
    CommandFault, Listing, jobs_of, read_texts, read_whole, unless_gone,
};
use command_parts::streams::on_stream;
use job_file::Job;
use std::alloc::{AllocError, Global};
use std::io;
use std::io::{BufReader, BufWriter, Input, IsTerminal};
use std::rt::Files;

/// What the help of `bench step` ends with.
const NOTES: &str = "\
Reads commands from standard input, one a line, and answers each at once. A place is how many messages of
the recording are past.

  forward, back   one message on, or back
  go N            to place N; 0 is the beginning
  go TIME         to the place before the first message with a later stamp, as in go 1.2s, go 350ms
  go channel C N  to message N of channel C
  find COND       on to the next message whose outcome makes a condition true: fail (message error), silent
                  (no response), bit NAME (of a status word), not COND, all ( COND COND ), any ( COND COND )
  find SELECTOR   on to the next message of these commands, in the words of a rule, as in find tx 5 3
  find back ..    back to the latest such message before the place
  state           for each channel the number of its last message, and the registers of its terminals
  state --all     the same, and what their hosts have set
  show, show N    the message at the place, or message N, as people read it
  data A S        what terminal A holds at subaddress S
  help, quit      these lines; the end of the session

A move prints the place, as in `at 7`; Y2 where there is no such message, Y3 at the beginning. Another line
prints `unknown`.

Example:
  printf 'find fail\\nstate\\n' | bench step flight.ch11 flight.report avionics.job stores.job";

/// The command line of `bench step`.
pub fn command<'a>(alloc: Global) -> Result<Command<'a>, AllocError> {
    let about = "Walks through a recording, and shows what the terminals hold at each message";
    let rows = [
        argument("RECORDING", "The Chapter 11 file to walk through"),
        argument("REPORT", "The report of the run that recorded it"),
        arguments("JOB", "The jobs of that run, in their order"),
    ];
    command_of(alloc, "step", about, NOTES, &[&rows])
}

/// What is to be walked through.
#[derive(Debug, Drop)]
pub struct Request<'a> {
    /// The file of the recording.
    pub recording: &'a str,
    /// The file of the report of its run.
    pub report: &'a str,
    /// The files of the jobs that were run, however many.
    pub jobs: Vec<&'a str>,
}

/// What a command line asks of `bench step`.
pub fn request_in<'a>(alloc: Global, given: &ArgMatches<'a>) -> Result<Request<'a>, AllocError> {
    Ok(Request {
        recording: given.get_str("RECORDING").unwrap_or(""),
        report: given.get_str("REPORT").unwrap_or(""),
        jobs: words_in(alloc, given, "JOB")?,
    })
}

/// Walks through a recording as the lines of the standard input ask, and answers each of them on the standard output.
/// All files are read before the first of them is judged: the recording, then the report, then the jobs. Where that is
/// asked for, the reason of a reply that refuses a line goes to `errors`.
pub fn run<'a, R: Files + AllocGlobal + Input<Reader: IsTerminal> + Print, E: Eprint + IsTerminal>(
    rt: &R,
    errors: &E,
    request: &Request<'a>,
    context: Context,
) -> Result<(), CommandFault<'a>> {
    let explains = context.is_shown_behind_replies(errors);
    let recording = read_whole(rt, request.recording)?;
    let report = read_whole(rt, request.report)?;
    let texts = read_texts(rt, &request.jobs)?;
    judge_recording(rt.alloc(), request.recording, &recording)?;
    step_read(rt, errors, explains, &recording, &report, &texts)
}

/// The same of files that were read, where the recording can be read.
fn step_read<'a, R: AllocGlobal + Input<Reader: IsTerminal> + Print, E: Eprint + IsTerminal>(
    rt: &R,
    errors: &E,
    explains: bool,
    recording: &[u8],
    report: &[u8],
    texts: &[Vec<u8>],
) -> Result<(), CommandFault<'a>> {
    let report = judge_report(rt.alloc(), report)?;
    let jobs = jobs_of(rt.alloc(), texts)?;
    walk(rt, errors, explains, jobs, &report, recording)
}

/// A recording is judged before the report and the jobs are, by a pass that keeps nothing of it.
fn judge_recording<'a>(
    alloc: Global,
    name: &'a str,
    recording: &[u8],
) -> Result<(), CommandFault<'a>> {
    answer_of_reading(name, check(alloc, recording))
}

fn judge_report<'a>(alloc: Global, text: &[u8]) -> Result<Report, CommandFault<'a>> {
    match read_report(alloc, text) {
        Ok(report) => Ok(report),
        Err(
            ReportError {
                fault: ReportFault::Memory,
                ..
            },
        ) => Err(CommandFault::Memory),
        Err(fault) => Err(CommandFault::Report(fault)),
    }
}

fn walk<'a, R: AllocGlobal + Input<Reader: IsTerminal> + Print, E: Eprint + IsTerminal>(
    rt: &R,
    errors: &E,
    explains: bool,
    jobs: Vec<Job>,
    report: &Report,
    recording: &[u8],
) -> Result<(), CommandFault<'a>> {
    let lines = Prompted::begin(rt.reader(), errors);
    let manner = lines.manner();
    let mut input = match BufReader::new(rt.alloc(), lines) {
        Ok(input) => input,
        Err(error) => return Err(CommandFault::of_stream("-", &error)),
    };
    let out = on_stream("-", BufWriter::new(rt.alloc(), io::writer(rt)))?;
    let mut out = Listing::ending(Explained::begin(out, errors, explains));
    match step(
        rt.alloc(),
        manner,
        jobs,
        report,
        recording,
        &mut input,
        &mut out,
    ) {
        Ok(()) => Ok(()),
        Err(fault) => unless_gone(out.is_gone(), Err(CommandFault::of_step(&fault))),
    }
}
