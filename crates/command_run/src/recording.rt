//! `bench run`: jobs recorded into a file, and their report beside it.

use crate::completed_run::{Completing, additions_in, record_completed, setup_in, start_in};
use crate::judged_run::{judge_kept, judge_run, rules_of_run};
use crate::live_run::{Going, Run, begin_showing, end_showing, record, way_of, with_posts};
use crate::run_line::Request;
use crate::strict_run::tell_mistakes;
use bench_complete::Additions;
use bench_files::Hold;
use bench_live::{Show, Showing};
use bench_report::Report;
use bench_run_command::{Counts, print_counts, refusals};
use bench_settings::judge;
use ch11_writer::StdSink;
use command_finishing::completing::setup_text;
use command_finishing::mistakes::strict_verdict;
use command_parts::dictionaries::signals_in;
use command_parts::hosts::{Errors, Host};
use command_parts::requests::{
    CommandFault, Ending, RunFiles, RunRequest, ending_of_run, ending_of_settings, jobs_of,
    read_texts, read_whole, settings_of, told_apart,
};
use command_parts::streams::{Printable, on_stream, print_to_output};
use std::alloc::{AllocError, Global};
use std::io;
use std::io::Write;
use std::rt::Files;

/// Records the jobs into the out file; once that is whole, writes the report and prints how much was recorded. Before
/// anything else the files that are written are told apart from one another and from those that are read. Then all
/// files are read before the first of them is judged. Recording and report take the place of what is there together,
/// once both are whole; jobs and settings are judged behind whether they can be written. A dictionary of signals and
/// rules are read and judged before all that; the recording is judged by them behind its counts. Where that is asked
/// for, the complete file of the recording stands in its place. Behind the counts it is also said what is probably a
/// mistake in the jobs, where that is asked for: a fault of its own then, behind all others.
pub fn run<'a, R: Host, E: Errors>(
    rt: &R,
    errors: &E,
    asked: &Request<'a>,
) -> Result<(), CommandFault<'a>>
where
    R::Reader: 'static,
{
    let (request, completing, going) = (&asked.run, asked.completing.as_ref(), &asked.going);
    let start = start_in(completing)?;
    let way = way_of(rt, going, request)?;
    told_apart(
        rt,
        &[request.out, request.report],
        &files_read(rt.alloc(), request, completing)?,
    )?;
    RunFiles::judge(rt, request)?;
    judge_kept(rt, request)?;
    let signals = signals_in(rt, request.signals)?;
    let rules = rules_of_run(rt, request, signals.as_slice())?;
    let prologue = match request.prologue {
        Some(name) => read_whole(rt, name)?,
        None => Vec::new(rt.alloc()),
    };
    let setup = setup_text(rt, setup_in(completing))?;
    let texts = read_texts(rt, &request.jobs)?;
    let additions = additions_in(rt.alloc(), completing, start, &setup, request.version)?;
    let jobs = jobs_of(rt.alloc(), &texts)?;
    let settings = with_posts(settings_of(request, prologue), way);
    let files = RunFiles::begin(rt, request)?;
    if let Err(refused) = judge(&jobs, &settings) {
        files.end(rt, ending_of_settings(&refused))?;
        return Err(CommandFault::of_settings(refused));
    }
    let run = Run {
        jobs: &jobs,
        settings: &settings,
        way,
        show: None,
    };
    record_and_tell(rt, errors, request, going, run, additions, files)?;
    let is_suspicious = tell_mistakes(rt.alloc(), errors, request, &texts, &jobs)?;
    if let Some(rules) = rules {
        judge_run(rt, errors, request, &rules)?;
    }
    strict_verdict(is_suspicious)
}

/// Records a run into files that were begun, and prints how much was recorded, behind the messages where these are
/// shown.
fn record_and_tell<'a, R: Host, E: Errors>(
    rt: &R,
    errors: &E,
    request: &RunRequest<'a>,
    going: &Going<'a>,
    run: Run<'_, '_>,
    additions: Option<Additions<'_>>,
    files: RunFiles<'a, R::File>,
) -> Result<(), CommandFault<'a>>
where
    R::Reader: 'static,
{
    let is_output = files.are_output();
    let Ok(showing) = begin_showing(rt, going) else {
        return Err(ended(rt, files, Ending::Broken, CommandFault::Memory));
    };
    let show = show_of(&showing);
    let run = Run {
        jobs: run.jobs,
        settings: run.settings,
        way: run.way,
        show,
    };
    let recorded = match additions {
        None => record_into(rt, errors, run, files),
        Some(additions) => record_completed(rt, errors, request, run, &additions, files),
    };
    end_showing(rt, errors, showing);
    match recorded {
        Ok(report) => tell(rt, errors, is_output, &report),
        Err(fault) => Err(fault),
    }
}

/// What shows messages, where there is something that does.
fn show_of(showing: &Option<Showing>) -> Option<&Show> {
    match showing {
        Some(showing) => Some(showing.show()),
        None => None,
    }
}

/// Ends a run that gave no recording. Its fault is answered, or that of its files where they could not be ended.
pub(crate) fn ended<'a, R: Files<File: Hold>>(
    rt: &R,
    files: RunFiles<'a, R::File>,
    ending: Ending,
    fault: CommandFault<'a>,
) -> CommandFault<'a> {
    match files.end(rt, ending) {
        Ok(()) => fault,
        Err(other) => other,
    }
}

/// Records a run into files that were begun, and gives these their places. The report is answered.
fn record_into<'a, R: Host, E: Errors>(
    rt: &R,
    errors: &E,
    run: Run<'_, '_>,
    files: RunFiles<'a, R::File>,
) -> Result<Report, CommandFault<'a>>
where
    R::Reader: 'static,
{
    let mut files = files;
    match files.recording(rt) {
        Ok(file) => match record_to(rt, errors, run, file) {
            Ok(report) => finish(rt, files, report),
            Err((fault, ending)) => Err(ended(rt, files, ending, fault)),
        },
        Err(fault) => Err(ended(rt, files, Ending::Broken, fault)),
    }
}

/// Records a run into the file of its recording. The report is answered, or why there is no recording, and how the
/// files of the run end then.
fn record_to<'a, R: Host, E: Errors>(
    rt: &R,
    errors: &E,
    run: Run<'_, '_>,
    file: R::File,
) -> Result<Report, (CommandFault<'a>, Ending)>
where
    R::Reader: 'static,
{
    match record(rt, errors, run, StdSink::make(file)) {
        Ok((report, _)) => Ok(report),
        Err(error) => Err((CommandFault::of_run(&error), ending_of_run(&error))),
    }
}

/// Writes the report of a recording that is whole, and gives both their places. The report is answered.
pub(crate) fn finish<'a, R: Files<File: Hold> + AllocGlobal>(
    rt: &R,
    files: RunFiles<'a, R::File>,
    report: Report,
) -> Result<Report, CommandFault<'a>> {
    files.finish(rt, &report)?;
    Ok(report)
}

/// Prints how much was recorded, to the standard error where the recording went to the standard output; and how many
/// messages were refused, where any were.
fn tell<'a, R: AllocGlobal + Print, E: Eprint>(
    rt: &R,
    errors: &E,
    is_output: bool,
    report: &Report,
) -> Result<(), CommandFault<'a>> {
    let counts = Counts::of_report(report);
    if is_output {
        // Nothing else is lost where standard error takes no more.
        let _ = eprintln!(errors; "{counts}");
    } else {
        on_stream("-", print_to_output(rt, &PrintedCounts { counts: &counts }))?;
    }
    let text = refusals(rt.alloc(), report)?;
    if !text.is_empty() {
        // Nothing else is lost where standard error takes no more.
        let _ = eprintln!(errors; "bench: {text}");
    }
    Ok(())
}

/// The files that a run reads.
fn files_read<'a>(
    alloc: Global,
    request: &RunRequest<'a>,
    completing: Option<&Completing<'a>>,
) -> Result<Vec<&'a str>, AllocError> {
    let mut names = Vec::new(alloc);
    names.extend_from_slice(&request.jobs)?;
    if let Some(prologue) = request.prologue {
        names.push(prologue)?;
    }
    if let Some(rules) = request.judge {
        names.push(rules)?;
    }
    if let Some(dictionary) = request.signals {
        names.push(dictionary)?;
    }
    if let Some(setup) = setup_in(completing) {
        names.push(setup)?;
    }
    Ok(names)
}

/// How much was recorded, as it is printed.
#[derive(Drop)]
struct PrintedCounts<'c> {
    counts: &'c Counts,
}

impl Printable for PrintedCounts<'_> {
    fn print_to<W: Write>(&self, out: &mut W) -> io::Result<()> {
        print_counts(out, self.counts)
    }
}
