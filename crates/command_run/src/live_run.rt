//! `bench run --live`, `--pace` and `--show`: actions posted from lines of the standard input, bus time at a pace of
//! real time, and messages shown as they are recorded.
ghost use Rattle.bench_run.specs.Live.{AreInboxesOf};
ghost use Rattle.std.specs.Prelude.{◌-◌, ◌<◌, ◌^◌, IfOk};

use bench_decode::Shown;
use bench_files::leads_to_output;
use bench_live::{Desk, LiveRun, Pace, Pacing, Show, Showing, open_desk, start_host};
use bench_mail::Inbox;
use bench_report::Report;
use bench_run::{LiveError, RunError};
use bench_run_command::record_jobs_with_progress;
use bench_settings::{MOST_POSTS, Settings};
use ch11_writer::Sink;
use clap::ArgMatches;
use command_parts::hosts::{Errors, Host};
use command_parts::options::{Row, flag, value};
use command_parts::requests::{CommandFault, RunRequest};
use command_parts::terminals::is_for_people;
use job_file::Job;
use std::alloc::{AllocError, Global};
use std::io::BufReader;
use std::rt::Files;
use std::sync::Arc;
use std::thread::Threads;

/// How a run goes on.
#[derive(Clone, Copy, Debug)]
pub struct Going<'a> {
    /// Whether actions are posted from lines of the standard input.
    pub live: bool,
    /// Whether messages are shown as they are recorded.
    pub show: bool,
    /// How many ticks of bus time go by in so much real time, as a text.
    pub pace: Option<&'a str>,
}

/// How a run goes on, with its pace read.
#[derive(Clone, Copy, Debug)]
pub(crate) struct Way {
    live: bool,
    pacing: Pacing,
}

/// A run that may begin: its jobs and settings, which were judged, and how it goes on.
#[derive(Clone, Copy)]
pub(crate) struct Run<'r, 's> {
    pub(crate) jobs: &'r [Job],
    pub(crate) settings: &'r Settings,
    pub(crate) way: Way,
    /// What shows its messages, where they are shown.
    pub(crate) show: Option<&'s Show>,
}

/// The options of a run that say how it goes on.
pub(crate) fn going_options<'a>() -> [Row<'a>; 3] {
    let live =
        "Posts what lines `CHANNEL ADDRESS ACTION` of the standard input ask of terminals while the run goes on";
    let pace =
        "Bus time runs at N times real time, 0.1 to 1000; without it as fast as it goes, and with --live at 1";
    let show = "Prints each message as it is recorded, a line as dump --decode has it";
    [
        flag("live", live),
        value("pace", "N", pace),
        flag("show", show),
    ]
}

/// How a run goes on by the words of the command line.
pub(crate) fn going_in<'a>(given: &ArgMatches<'a>) -> Going<'a> {
    Going {
        live: given.get_flag("live"),
        show: given.get_flag("show"),
        pace: given.get_str("pace"),
    }
}

/// The same with the pace read. Messages are shown on the standard output: nothing else of the run may go there before
/// its counts.
pub(crate) fn way_of<'a, R: Files>(
    rt: &R,
    going: &Going<'a>,
    request: &RunRequest<'a>,
) -> Result<Way, CommandFault<'a>> {
    if going.show && (leads_to_output(rt, request.out) || leads_to_output(rt, request.report)) {
        return Err(CommandFault::Usage(
            "--show prints on the standard output: neither --out nor --report can lead there",
        ));
    }
    let pace = match going.pace {
        None if going.live => Some(Pace::REAL),
        None => None,
        Some(text) => match Pace::read(text.as_bytes()) {
            Some(pace) => Some(pace),
            None => {
                return Err(CommandFault::Usage(
                    "--pace takes a number from 0.1 to 1000, with up to three digits behind a point",
                ));
            }
        },
    };
    let drops = request.drops;
    Ok(Way {
        live: going.live,
        pacing: Pacing { drops, pace },
    })
}

/// The settings of a run that goes on like that: where lines are posted, as many for each channel as may be.
pub(crate) fn with_posts(settings: Settings, way: Way) -> Settings {
    let mut settings = settings;
    if way.live {
        settings.posts = MOST_POSTS;
    }
    settings
}

/// Starts what shows messages, where they are to be shown.
pub(crate) fn begin_showing<R: Host>(
    rt: &R,
    going: &Going<'_>,
) -> Result<Option<Showing>, AllocError> {
    if !going.show {
        return Ok(None);
    }
    let shown = if is_for_people(rt) {
        Shown::Colored
    } else {
        Shown::Plain
    };
    Ok(Some(Showing::begin(rt, rt.alloc(), shown)?))
}

/// Waits until messages are shown, and says how many were not.
pub(crate) fn end_showing<R: Threads, E: Eprint>(rt: &R, errors: &E, showing: Option<Showing>) {
    let Some(showing) = showing else {
        return;
    };
    let Some(lost) = showing.end(rt) else {
        return;
    };
    if lost > 0 {
        // Nothing else is lost where standard error takes no more.
        let _ = eprintln!(errors; "bench: {lost} messages were not shown");
    }
}

/// What posts into the channels of the jobs: a desk, whose lines a thread of its own reads from the standard input, and
/// the inboxes. A run does not wait for that thread.
fn start_posting<R: Host, E: Errors>(
    rt: &R,
    errors: &E,
    jobs: &[Job],
) -> Result<(Arc<Desk, Global>, Vec<Inbox>), AllocError>
where
    R::Reader: 'static,
    ensures { IfOk result (λ r. AreInboxesOf r.0.value.boxes.items r.1.items) }
{
    let alloc = rt.alloc();
    let Ok((desk, hands, inboxes)) = open_desk(alloc, jobs) else {
        return Err(AllocError);
    };
    let Ok(desk) = Arc::new(alloc, desk) else {
        return Err(AllocError);
    };
    let Ok(input) = BufReader::new(alloc, rt.reader()) else {
        return Err(AllocError);
    };
    start_host(rt, alloc, errors, &desk, hands, input)?;
    Ok((desk, inboxes))
}

/// What came of a live run, without its inboxes.
fn without_inboxes<S>(
    answer: Result<(Report, Vec<Inbox>, S), LiveError<S>>,
) -> Result<(Report, S), RunError<S>> {
    match answer {
        Ok((report, _, sink)) => Ok((report, sink)),
        Err(LiveError { fault, .. }) => Err(fault),
    }
}

/// The report of a recording that is whole, and its sink.
pub(crate) fn record<R: Host, E: Errors, S: Sink + Drop>(
    rt: &R,
    errors: &E,
    run: Run<'_, '_>,
    sink: S,
) -> Result<(Report, S), RunError<S>>
where
    R::Reader: 'static,
    requires { S.failures sink < 2 ^ 64 - 1 }
{
    let (jobs, settings, pacing, show) = (run.jobs, run.settings, run.way.pacing, run.show);
    let live = LiveRun {
        rt,
        alloc: rt.alloc(),
        errors,
        jobs,
        settings,
        pacing,
        show,
    };
    if run.way.live {
        let Ok((desk, inboxes)) = start_posting(rt, errors, jobs) else {
            return Err(RunError::Memory { sink });
        };
        let answer = live.record_live(&desk, inboxes, sink);
        return without_inboxes(answer);
    }
    if pacing.pace.is_some() || show.is_some() {
        return live.record_paced(sink);
    }
    record_jobs_with_progress(rt, rt.alloc(), errors, jobs, settings, pacing.drops, sink)
}
