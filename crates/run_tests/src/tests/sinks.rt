//! Sinks that fail: the channels run to their ends all the same.
ghost use Rattle.std.specs.Prelude.{◌-◌, ◌<◌, ◌^◌};

use crate::tests::equal::{prints, same_in};
use crate::tests::fixtures::{Bench, TEN_MESSAGES, bench_of, is_printed};
use bench_report::Report;
use bench_run::{OpenGate, RunError, run};
use ch11_writer::{DripSink, FuseSink, Sink};
use std::alloc::Global;
use std::process::Abort;
use std::sync::Wait;
use std::thread::Threads;

/// No packet was taken whole.
pub(crate) const NONE_WHOLE: &str = "channel 1\nmade 10\nchannel 2\nmade 10\npackets 0\n";

/// The first packet was taken whole.
const ONE_WHOLE: &str = "channel 1\nmade 10\nchannel 2\nmade 10\npackets 1\n";

/// Runs two channels of ten messages into a sink.
fn into_sink<R: Threads + Wait + Abort + Sync, S: Sink + Drop>(
    rt: &R,
    alloc: Global,
    sink: S,
) -> Result<(Report, S), RunError<S>>
    requires { S.failures sink < 2 ^ 64 - 1 }
{
    let Bench { jobs, settings } = bench_of(rt, alloc, &TEN_MESSAGES, 4096);
    run(rt, alloc, &jobs, &settings, &OpenGate, sink)
}

/// The sink that failed, and the report.
fn left_of(fault: &RunError<FuseSink>) -> Option<(&FuseSink, &Report)> {
    match fault {
        RunError::Sink { sink, report, .. } => Some((sink, report)),
        _ => None,
    }
}

/// The fault of a sink with so much room, which it has filled: what is printed of it, and the report.
fn is_fault(
    rt: &impl Abort,
    alloc: Global,
    fault: &RunError<FuseSink>,
    room: usize,
    wanted: &str,
    told: &str,
) {
    prints(rt, alloc, fault, wanted);
    let (sink, report) = left_of(fault).expect(rt, "a sink that failed");
    let found = (sink.bytes().len(), sink.failures() > 0);
    same_in(rt, wanted, &found, &(room, true));
    is_printed(rt, alloc, report, told);
}

/// A run into a sink with so much room fails: what is printed of it, and the report.
pub(crate) fn is_cut(
    rt: &impl Abort,
    alloc: Global,
    answer: Result<(Report, FuseSink), RunError<FuseSink>>,
    room: usize,
    wanted: &str,
    told: &str,
) {
    let fault = answer.err().expect(rt, "a fault");
    is_fault(rt, alloc, &fault, room, wanted, told);
}

/// How much room a sink has, what is printed of its fault, and the report.
const ROOMS: &[(usize, &str, &str)] = &[
    (0, "U4 taken 0", NONE_WHOLE),
    (100, "U4 taken 100", NONE_WHOLE),
    (227, "U4 taken 227", NONE_WHOLE),
    (228, "U4 taken 228", ONE_WHOLE),
    (455, "U4 taken 455", ONE_WHOLE),
];

#[test]
fn sinks_that_fail(rt: HostRuntime) {
    for (room, wanted, told) in ROOMS {
        let answer = into_sink(&rt, rt.alloc(), FuseSink::make(rt.alloc(), *room));
        is_cut(&rt, rt.alloc(), answer, *room, wanted, told);
    }
}

#[test]
fn a_sink_with_room_for_the_file(rt: HostRuntime) {
    let answer = into_sink(&rt, rt.alloc(), FuseSink::make(rt.alloc(), 456));
    let (report, sink) = answer.ok().expect(&rt, "no fault");
    let found = (report.packets(), sink.bytes().len());
    same_in(&rt, "packets and bytes", &found, &(2, 456));
}

#[test]
fn a_sink_of_one_byte_a_call(rt: HostRuntime) {
    let answer = into_sink(&rt, rt.alloc(), DripSink::make(rt.alloc()));
    let (report, sink) = answer.ok().expect(&rt, "no fault");
    let found = (report.packets(), sink.bytes().len());
    same_in(&rt, "packets and bytes", &found, &(2, 456));
}
