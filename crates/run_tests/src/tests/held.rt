//! Buses that are held while the queue is full, before a sink that fails: no wait lasts for ever.
ghost use Rattle.std.specs.Prelude.{◌-◌, ◌<◌, ◌^◌};

use crate::tests::fixtures::{Bench, TO_FIVE, bench_repeating};
use crate::tests::sinks::is_cut;
use bench_report::Report;
use bench_run::RunError;
use bench_run_command::record_jobs_with_progress;
use ch11_writer::{FuseSink, Sink};
use std::alloc::Global;
use std::io::IsTerminal;
use std::process::Abort;
use std::rt::Clock;
use std::sync::Wait;
use std::thread::Threads;

/// The report of eight channels of fifty messages where no packet was taken whole.
const NONE_WHOLE: &str =
    "channel 1\nmade 50\nchannel 2\nmade 50\nchannel 3\nmade 50\nchannel 4\nmade 50\n\
    channel 5\nmade 50\nchannel 6\nmade 50\nchannel 7\nmade 50\nchannel 8\nmade 50\npackets 0\n";

/// What eight channels of fifty messages come to that are held on a queue of so many items.
fn held<R: Threads + Wait + Clock + Abort + Sync, E: Eprint + IsTerminal + Sync, S: Sink + Drop>(
    rt: &R,
    alloc: Global,
    errors: &E,
    queue: u32,
    sink: S,
) -> Result<(Report, S), RunError<S>>
    requires { S.failures sink < 2 ^ 64 - 1 }
{
    let Bench { jobs, settings } = bench_repeating(rt, alloc, &[50; 8], &TO_FIVE, queue);
    record_jobs_with_progress(rt, alloc, errors, &jobs, &settings, false, sink)
}

/// A sink of a hundred bytes fails, and the channels run to their ends.
#[test]
fn held_buses_before_a_sink_that_fails(rt: HostRuntime) {
    let alloc = rt.alloc();
    for queue in [1, 2, 64] {
        let answer = held(&rt, alloc, &rt.stderr(), queue, FuseSink::make(alloc, 100));
        is_cut(&rt, alloc, answer, 100, "U4 taken 100", NONE_WHOLE);
    }
}
