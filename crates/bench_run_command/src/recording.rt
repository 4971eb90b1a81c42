//! Jobs recorded: with or without a word on how far the recording has come, and with buses that are held or not.
ghost use Rattle.bench_run.specs.Runs.{RanOrLeft};
ghost use Rattle.std.specs.Prelude.{◌-◌, ◌<◌, ◌^◌};

use crate::progress::Progress;
use bench_report::Report;
use bench_run::{HoldingGate, OpenGate, RunError, run};
use bench_settings::Settings;
use ch11_writer::Sink;
use job_file::Job;
use std::alloc::Global;
use std::io::IsTerminal;
use std::rt::Clock;
use std::sync::Wait;
use std::thread::Threads;

/// Runs the jobs, each on a thread of its own, while the calling thread writes their messages into one recording; the
/// queue alone orders the threads. In order: U2 where there are not 1 to 32 jobs or a setting is out of its range, U1
/// where a channel stands twice, U5 where the prologue is no list of sound packets or has one of MIL-STD-1553 messages,
/// U3 where memory or a thread is refused, U4 where the sink fails. Each hands the sink back; U2, U1 and U5 put nothing
/// into it.
pub fn record_jobs<R: Threads + Wait + Sync, S: Sink + Drop>(
    rt: &R,
    alloc: Global,
    jobs: &[Job],
    settings: &Settings,
    sink: S,
) -> Result<(Report, S), RunError<S>>
    requires { S.failures sink < 2 ^ 64 - 1 }
    ensures { RanOrLeft S.taken S.failures jobs.now settings.now sink result }
{
    run(rt, alloc, jobs, settings, &OpenGate, sink)
}

/// The same, and where these errors go to a terminal and the run takes more than two seconds, a line there says how
/// many messages the writer has taken. Unless messages may be dropped, buses are held: before each message a channel
/// waits until the queue has room for it, so that no message is refused. It answers and refuses as `record_jobs` does.
pub fn record_jobs_with_progress<
    R: Threads + Wait + Clock + Sync,
    E: Eprint + IsTerminal + Sync,
    S: Sink + Drop,
>(
    rt: &R,
    alloc: Global,
    errors: &E,
    jobs: &[Job],
    settings: &Settings,
    drops: bool,
    sink: S,
) -> Result<(Report, S), RunError<S>>
    requires { S.failures sink < 2 ^ 64 - 1 }
    ensures { RanOrLeft S.taken S.failures jobs.now settings.now sink result }
{
    let progress = Progress::begin(rt, errors);
    if drops {
        let answer = run(rt, alloc, jobs, settings, &progress, sink);
        progress.end();
        return answer;
    }
    let held = HoldingGate::around(&progress, settings.queue);
    let answer = run(rt, alloc, jobs, settings, &held, sink);
    progress.end();
    answer
}
