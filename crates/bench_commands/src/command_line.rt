//! The command line of `bench`: which commands there are, and which of them is asked for.

use clap::error::ErrorKind;
use clap::{ArgMatches, Command, Error};
use command_export::{completing, drawing, exporting, signalling};
use command_judge::{checking, judging};
use command_listing::{dumping, statistics};
use command_material::{comparing, cutting};
use command_parts::context::{Context, context_in, context_option};
use command_parts::requests::CommandFault;
use command_reproduce::reproducing;
use command_step::{assembling, explaining, one_message, stepping};
use command_view::viewing;
use std::alloc::{AllocError, Global};

/// What a command line asks, and when the lines that explain a fault stand behind it.
#[derive(Debug, Drop)]
pub struct Asked<'a> {
    /// What is asked.
    pub request: Request<'a>,
    /// When those lines stand there.
    pub context: Context,
}

/// What a command line asks, by its kin.
#[derive(Debug, Drop)]
pub enum Request<'a> {
    /// Something made: of jobs, of scripts, of codes, or a job of a recording.
    Make(MakeRequest<'a>),
    /// A recording, shown.
    Show(ShowRequest<'a>),
    /// A recording, judged, or something made of it.
    Take(TakeRequest<'a>),
}

/// What is asked to be made of jobs, of scripts and of codes, or as a job.
#[derive(Debug, Drop)]
pub enum MakeRequest<'a> {
    /// One message on fresh terminals, printed as a packet.
    One(one_message::Request<'a>),
    /// The image of a script, written to a file.
    Assemble(assembling::Request<'a>),
    /// Jobs, recorded into a file, or into the complete file of their recording.
    Run(command_run::Request<'a>),
    /// Jobs, tried without a recording.
    Check(checking::Request<'a>),
    /// A recorded channel, written as a job that plays it again.
    Reproduce(reproducing::Request<'a>),
    /// What codes mean; all of them where none is given.
    Explain(explaining::Request<'a>),
}

/// What is asked to be shown of a recording.
#[derive(Debug, Drop)]
pub enum ShowRequest<'a> {
    /// The packets and messages of a recording, or messages alone, printed as lines.
    Dump(dumping::Request<'a>),
    /// A recording, walked through by lines of the standard input.
    Step(stepping::Request<'a>),
    /// The figures of a recording: aligned for people, or as rows of comma-separated values.
    Stat(statistics::Request<'a>),
    /// The values of signals in a recording, written to a file for other programs.
    Signals(signalling::Request<'a>),
    /// The messages of a recording over time, written to a file as a picture.
    Draw(drawing::Request<'a>),
    /// The messages of a recording, written to a file as a page for a browser.
    View(viewing::Request<'a>),
}

/// What is asked to be judged, or to be made of a recording.
#[derive(Debug, Drop)]
pub enum TakeRequest<'a> {
    /// The messages of a recording, written to a file for other programs.
    Export(exporting::Request<'a>),
    /// A recording, judged by rules.
    Judge(judging::Request<'a>),
    /// A recording, made into the file that other tools expect.
    Complete(completing::Request<'a>),
    /// Some of the messages of a recording, written as a recording of their own.
    Cut(cutting::Request<'a>),
    /// Two recordings, compared.
    Compare(comparing::Request<'a>),
}

/// What the words ask, the program's name first. An error is a usage fault, the help or the version that was asked
/// for, or want of memory: its kind says which.
pub fn read<'a>(alloc: Global, words: &'a [String]) -> Result<Asked<'a>, Error> {
    let matches = bench_command(alloc)?.try_get_matches_from(words)?;
    Ok(Asked {
        context: context_in(&matches),
        request: request_in(alloc, &matches)?,
    })
}

/// The command that was given, with its arguments.
fn request_in<'a>(alloc: Global, matches: &ArgMatches<'a>) -> Result<Request<'a>, AllocError> {
    match matches.subcommand() {
        Some((name, given)) => request_of(alloc, name, given),
        None => Ok(one_request(matches)),
    }
}

/// What the command of this name asks.
fn request_of<'a>(
    alloc: Global,
    name: &str,
    given: &ArgMatches<'a>,
) -> Result<Request<'a>, AllocError> {
    match name {
        "run" => run_request(alloc, given),
        "check" => check_request(alloc, given),
        "step" => step_request(alloc, given),
        "explain" => explain_request(alloc, given),
        _ => Ok(plain_request(name, given)),
    }
}

fn run_request<'a>(alloc: Global, given: &ArgMatches<'a>) -> Result<Request<'a>, AllocError> {
    let request = command_run::request_in(alloc, given)?;
    Ok(Request::Make(MakeRequest::Run(request)))
}

fn check_request<'a>(alloc: Global, given: &ArgMatches<'a>) -> Result<Request<'a>, AllocError> {
    let request = checking::request_in(alloc, given)?;
    Ok(Request::Make(MakeRequest::Check(request)))
}

fn step_request<'a>(alloc: Global, given: &ArgMatches<'a>) -> Result<Request<'a>, AllocError> {
    let request = stepping::request_in(alloc, given)?;
    Ok(Request::Show(ShowRequest::Step(request)))
}

fn explain_request<'a>(alloc: Global, given: &ArgMatches<'a>) -> Result<Request<'a>, AllocError> {
    let request = explaining::request_in(alloc, given)?;
    Ok(Request::Make(MakeRequest::Explain(request)))
}

fn one_request<'a>(given: &ArgMatches<'a>) -> Request<'a> {
    Request::Make(MakeRequest::One(one_message::request_in(given)))
}

/// What the command of this name asks, which takes no list of words.
fn plain_request<'a>(name: &str, given: &ArgMatches<'a>) -> Request<'a> {
    match name {
        "assemble" => Request::Make(MakeRequest::Assemble(assembling::request_in(given))),
        "dump" => Request::Show(ShowRequest::Dump(dumping::request_in(given))),
        "stat" => Request::Show(ShowRequest::Stat(statistics::request_in(given))),
        "judge" => Request::Take(TakeRequest::Judge(judging::request_in(given))),
        "compare" => Request::Take(TakeRequest::Compare(comparing::request_in(given))),
        _ => writing_request(name, given),
    }
}

/// What the command of this name asks, where it writes what a recording has; else that of one message.
fn writing_request<'a>(name: &str, given: &ArgMatches<'a>) -> Request<'a> {
    match name {
        "export" => Request::Take(TakeRequest::Export(exporting::request_in(given))),
        "signals" => Request::Show(ShowRequest::Signals(signalling::request_in(given))),
        "draw" => Request::Show(ShowRequest::Draw(drawing::request_in(given))),
        "view" => Request::Show(ShowRequest::View(viewing::request_in(given))),
        "complete" => Request::Take(TakeRequest::Complete(completing::request_in(given))),
        "cut" => Request::Take(TakeRequest::Cut(cutting::request_in(given))),
        "reproduce" => Request::Make(MakeRequest::Reproduce(reproducing::request_in(given))),
        _ => one_request(given),
    }
}

/// A usage fault that the files show, and not the words.
pub fn misused(alloc: Global, fault: &CommandFault<'_>) -> Result<Error, AllocError> {
    let text = format!(in alloc; "{fault}")?;
    bench_command(alloc)?.error(ErrorKind::ArgumentConflict, text.as_str())
}

/// The command line with all commands.
fn bench_command<'a>(alloc: Global) -> Result<Command<'a>, AllocError> {
    let bench = without_commands(alloc);
    let bench = with(bench, one_message::command(alloc));
    let bench = with(bench, assembling::command(alloc));
    let bench = with(bench, command_run::command(alloc));
    let bench = with(bench, checking::command(alloc));
    let bench = with(bench, dumping::command(alloc));
    let bench = with(bench, stepping::command(alloc));
    let bench = with(bench, statistics::command(alloc));
    let bench = with(bench, exporting::command(alloc));
    let bench = with(bench, signalling::command(alloc));
    let bench = with(bench, drawing::command(alloc));
    let bench = with(bench, viewing::command(alloc));
    let bench = with(bench, judging::command(alloc));
    let bench = with(bench, completing::command(alloc));
    let bench = with(bench, cutting::command(alloc));
    let bench = with(bench, comparing::command(alloc));
    let bench = with(bench, reproducing::command(alloc));
    with(bench, explaining::command(alloc))
}

/// A command line with one more command behind those that it has, where both could be made.
fn with<'a>(
    bench: Result<Command<'a>, AllocError>,
    command: Result<Command<'a>, AllocError>,
) -> Result<Command<'a>, AllocError> {
    match (bench, command) {
        (Ok(bench), Ok(command)) => bench.subcommand(command),
        _ => Err(AllocError),
    }
}

/// The command line without its commands.
fn without_commands<'a>(alloc: Global) -> Result<Command<'a>, AllocError> {
    Command::new(alloc, "bench")
        .about(
            "A test bench for MIL-STD-1553B data buses with a recorder of IRIG 106-17 Chapter 11",
        )
        .version("0.1.0")
        .bin_name("bench")?
        .subcommand_required(true)
        .arg_required_else_help(true)
        .after_help(
            "Exit status: 0 done, 1 the input was refused, 2 usage, 3 a file or a stream failed, 4 no memory, 5 a rule \
             is not held, or recordings differ.",
        )
        .arg(context_option(alloc))
}
