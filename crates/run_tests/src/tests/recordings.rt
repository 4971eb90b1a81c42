//! Jobs on threads, into a sink in memory.
ghost use Rattle.std.specs.Prelude.{◌-◌, ◌<◌, ◌^◌};

use crate::tests::equal::same_in;
use crate::tests::fixtures::{Bench, TEN_MESSAGES, TEN_REPORT, bench_of, index_of, is_printed};
use crate::tests::sinks::{NONE_WHOLE, is_cut};
use bench_report::Report;
use bench_run::RunError;
use bench_run_command::{record_jobs, record_jobs_with_progress};
use ch11_writer::{FuseSink, MemorySink, Sink};
use std::alloc::Global;
use std::io::IsTerminal;
use std::process::Abort;
use std::rt::Clock;
use std::sync::Wait;
use std::thread::Threads;

/// Jobs of these texts, recorded in memory.
fn recorded<R: Threads + Wait + Abort + Sync>(
    rt: &R,
    alloc: Global,
    texts: &[&str],
) -> Result<(Report, MemorySink), RunError<MemorySink>> {
    let Bench { jobs, settings } = bench_of(rt, alloc, texts, 4096);
    record_jobs(rt, alloc, &jobs, &settings, MemorySink::make(alloc))
}

/// Two channels of ten messages, recorded into a sink while the progress is shown.
fn shown<R: Threads + Wait + Clock + Abort + Sync, E: Eprint + IsTerminal + Sync, S: Sink + Drop>(
    rt: &R,
    alloc: Global,
    errors: &E,
    sink: S,
) -> Result<(Report, S), RunError<S>>
    requires { S.failures sink < 2 ^ 64 - 1 }
{
    let Bench { jobs, settings } = bench_of(rt, alloc, &TEN_MESSAGES, 4096);
    record_jobs_with_progress(rt, alloc, errors, &jobs, &settings, true, sink)
}

/// Two channels of ten messages are recorded whole: the report, and the file.
fn are_both(rt: &impl Abort, alloc: Global, report: &Report, file: &[u8]) {
    is_printed(rt, alloc, report, TEN_REPORT);
    let found = (file.len(), index_of(rt, alloc, file).total());
    same_in(rt, "bytes and messages", &found, &(456, 20));
}

/// A recording of two channels of ten messages ends well.
fn records_both(
    rt: &impl Abort,
    alloc: Global,
    answer: Result<(Report, MemorySink), RunError<MemorySink>>,
) {
    let (report, sink) = answer.ok().expect(rt, "no fault");
    are_both(rt, alloc, &report, sink.bytes());
}

#[test]
fn two_channels_of_ten_messages(rt: HostRuntime) {
    let answer = recorded(&rt, rt.alloc(), &TEN_MESSAGES);
    records_both(&rt, rt.alloc(), answer);
}

#[test]
fn a_sink_of_a_hundred_bytes(rt: HostRuntime) {
    let sink = FuseSink::make(rt.alloc(), 100);
    let answer = shown(&rt, rt.alloc(), &rt.stderr(), sink);
    is_cut(&rt, rt.alloc(), answer, 100, "U4 taken 100", NONE_WHOLE);
}
