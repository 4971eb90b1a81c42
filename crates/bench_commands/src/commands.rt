//! The commands of `bench`: which of them is asked for is done, and how the process ends then.

use crate::command_line::{self, Asked, MakeRequest, Request, ShowRequest, TakeRequest};
use crate::given_words::{word_at_fault, words_of};
use crate::naming::named_in;
use clap::Error;
use clap::error::ErrorKind;
use command_export::{completing, drawing, exporting, signalling};
use command_judge::{checking, judging};
use command_listing::{dumping, statistics};
use command_material::{comparing, cutting};
use command_parts::context::Context;
use command_parts::hosts::{Errors, Host};
use command_parts::requests::CommandFault;
use command_remedies::explain_fault;
use command_reproduce::reproducing;
use command_step::{assembling, explaining, one_message, stepping};
use command_view::viewing;
use std::io;
use std::process::ExitCode;

/// The exit status of a usage fault.
const USAGE: u8 = 2;

/// Reads the command line, does what it asks, and says how the process ends. What it says of faults and of its
/// progress goes to `errors`.
pub fn run<R: Host, E: Errors>(rt: &R, errors: &E) -> ExitCode
where
    R::Reader: 'static,
{
    match words_of(rt) {
        Ok(words) => run_words(rt, errors, words.as_slice()),
        Err(error) if error.kind() == io::ErrorKind::OutOfMemory => stop(
            errors,
            &CommandFault::Memory,
        ),
        Err(error) => {
            match word_at_fault(rt) {
                Ok(Some(word)) => {
                    // Nothing else is lost where standard error takes no more.
                    let _ = eprintln!(errors;
                        "error: '{word}' is not UTF-8: a file of such a name has to be renamed, or linked by another \
                         name"
                    );
                }
                _ => {
                    // Nothing else is lost where standard error takes no more.
                    let _ = eprintln!(errors; "bench: reading the command line: {error}");
                }
            }
            ExitCode::from(USAGE)
        }
    }
}

fn run_words<R: Host, E: Errors>(rt: &R, errors: &E, words: &[String]) -> ExitCode
where
    R::Reader: 'static,
{
    match command_line::read(rt.alloc(), words) {
        Ok(asked) => run_asked(rt, errors, &asked),
        Err(error) => explain(rt, errors, &error),
    }
}

/// Does what is asked, and says how the process ends.
fn run_asked<R: Host, E: Errors>(rt: &R, errors: &E, asked: &Asked<'_>) -> ExitCode
where
    R::Reader: 'static,
{
    let process = Process { rt, errors };
    match process.obey(asked) {
        Ok(()) => ExitCode::SUCCESS,
        Err(fault) => give_up(rt, errors, asked, &fault),
    }
}

/// Says why a command gave up, and what helps then; where a command has told of what it found, the status alone.
fn give_up<R: Host, E: Errors>(
    rt: &R,
    errors: &E,
    asked: &Asked<'_>,
    fault: &CommandFault<'_>,
) -> ExitCode {
    match fault {
        CommandFault::NotHeld | CommandFault::Suspicious | CommandFault::Differ => ExitCode::from(
            fault.status(),
        ),
        _ if fault.status() == USAGE => misused(rt, errors, fault),
        _ => {
            let status = stop(errors, fault);
            if asked.context.is_shown() {
                explain_fault(rt, errors, &named_in(&asked.request), fault);
            }
            status
        }
    }
}

/// Prints help and version to the standard output, and a usage fault to the standard error.
fn explain<R: Print, E: Eprint>(rt: &R, errors: &E, error: &Error) -> ExitCode {
    if matches!(error.kind(), ErrorKind::OutOfMemory) {
        return stop(errors, &CommandFault::Memory);
    }
    if error.use_stderr() {
        // Nothing else is lost where standard error takes no more.
        let _ = eprint!(errors; "{error}");
        return ExitCode::from(USAGE);
    }
    match print!(rt; "{error}") {
        Ok(()) => ExitCode::SUCCESS,
        Err(fault) if fault.kind() == io::ErrorKind::BrokenPipe => ExitCode::SUCCESS,
        Err(fault) => stop(errors, &CommandFault::of_stream("-", &fault)),
    }
}

/// Prints a usage fault that the files of the command line have, as one that its words have.
fn misused<R: AllocGlobal + Print, E: Eprint>(
    rt: &R,
    errors: &E,
    fault: &CommandFault<'_>,
) -> ExitCode {
    match command_line::misused(rt.alloc(), fault) {
        Ok(error) => explain(rt, errors, &error),
        Err(_) => stop(errors, &CommandFault::Memory),
    }
}

fn stop<E: Eprint>(errors: &E, fault: &CommandFault<'_>) -> ExitCode {
    // Nothing else is lost where standard error takes no more.
    let _ = eprintln!(errors; "bench: {fault}");
    ExitCode::from(fault.status())
}

/// The process that a command runs in, and where it says what it says of faults and of its progress.
#[derive(Drop)]
struct Process<'p, R, E> {
    rt: &'p R,
    errors: &'p E,
}

impl<R: Host, E: Errors> Process<'_, R, E>
where
    R::Reader: 'static,
{
    /// Does what is asked, by its kin.
    fn obey<'a>(&self, asked: &Asked<'a>) -> Result<(), CommandFault<'a>> {
        match &asked.request {
            Request::Make(request) => self.make(request),
            Request::Show(request) => self.show(request, asked.context),
            Request::Take(request) => self.take(request),
        }
    }

    /// Does what is asked of jobs, of scripts and of codes, or makes a job.
    fn make<'a>(&self, request: &MakeRequest<'a>) -> Result<(), CommandFault<'a>> {
        match request {
            MakeRequest::One(request) => one_message::run(self.rt, request),
            MakeRequest::Assemble(request) => assembling::run(self.rt, self.errors, request),
            MakeRequest::Run(request) => command_run::run(self.rt, self.errors, request),
            MakeRequest::Check(request) => checking::run(self.rt, request),
            MakeRequest::Reproduce(request) => reproducing::run(self.rt, self.errors, request),
            MakeRequest::Explain(request) => explaining::run(self.rt, request),
        }
    }

    /// Shows what is asked to be shown of a recording.
    fn show<'a>(
        &self,
        request: &ShowRequest<'a>,
        context: Context,
    ) -> Result<(), CommandFault<'a>> {
        match request {
            ShowRequest::Dump(request) => dumping::run(self.rt, self.errors, request),
            ShowRequest::Step(request) => stepping::run(self.rt, self.errors, request, context),
            ShowRequest::Stat(request) => statistics::run(self.rt, self.errors, request),
            ShowRequest::Signals(request) => signalling::run(self.rt, self.errors, request),
            ShowRequest::Draw(request) => drawing::run(self.rt, self.errors, request),
            ShowRequest::View(request) => viewing::run(self.rt, self.errors, request),
        }
    }

    /// Judges a recording, or makes something of it.
    fn take<'a>(&self, request: &TakeRequest<'a>) -> Result<(), CommandFault<'a>> {
        match request {
            TakeRequest::Export(request) => exporting::run(self.rt, self.errors, request),
            TakeRequest::Judge(request) => judging::run(self.rt, self.errors, request),
            TakeRequest::Complete(request) => completing::run(self.rt, self.errors, request),
            TakeRequest::Cut(request) => cutting::run(self.rt, self.errors, request),
            TakeRequest::Compare(request) => comparing::run(self.rt, self.errors, request),
        }
    }
}
