//! How many posts a run may take, and what each fault prints: the sink of a run that is refused comes back as it was.
use crate::tests::equal::{prints, same_in};
use crate::tests::fixtures::{Bench, TEN_REPORT, bench_of, ran};
use crate::tests::hosts::taking;
use bench_report::read_report;
use bench_run::{LiveError, OpenGate, RunError};
use ch11_writer::MemorySink;
use std::alloc::Global;
use std::process::Abort;
use std::sync::Wait;
use std::thread::Threads;

const ONE_MESSAGE: &str = "channel 1\nterminal 5\nscript\nsend A rx 5 1 [0001]\n";

/// How many bytes the sink took that a fault hands back.
fn taken_by(fault: &RunError<MemorySink>) -> usize {
    match fault {
        RunError::Settings { sink } => sink.bytes().len(),
        RunError::ChannelTwice { sink } => sink.bytes().len(),
        RunError::Prologue { sink } => sink.bytes().len(),
        RunError::Memory { sink } => sink.bytes().len(),
        RunError::Sink { sink, .. } => sink.bytes().len(),
    }
}

/// What a run comes to is printed as this text, `ok` where there is no fault; how many bytes the sink has then taken.
fn taken_with<R: Threads + Wait + Abort + Sync>(
    rt: &R,
    alloc: Global,
    bench: &Bench,
    wanted: &str,
) -> usize {
    match ran(rt, alloc, bench, &OpenGate) {
        Ok((_, sink)) => {
            same_in(rt, wanted, &"ok", &wanted);
            sink.bytes().len()
        }
        Err(fault) => {
            prints(rt, alloc, &fault, wanted);
            taken_by(&fault)
        }
    }
}

/// A run of one message: a name, how many posts of each channel it takes at most, what is printed of it, and how many
/// bytes its sink takes.
type Case = (&'static str, u32, &'static str, usize);

const CASES: &[Case] = &[
    ("too many posts", 65_537, "U2", 0),
    ("the most posts", 65_536, "ok", 48),
];

/// A run comes to what its case says.
fn is_case<R: Threads + Wait + Abort + Sync>(rt: &R, alloc: Global, case: &Case) {
    let (row, posts, wanted, taken) = case;
    let bench = taking(bench_of(rt, alloc, &[ONE_MESSAGE], 1), *posts);
    same_in(rt, row, &taken_with(rt, alloc, &bench, wanted), taken);
}

#[test]
fn what_is_run_and_what_is_not(rt: HostRuntime) {
    for case in CASES {
        is_case(&rt, rt.alloc(), case);
    }
}

/// A fault prints this text, and so does a live run's, without an inbox.
fn both_print(rt: &impl Abort, alloc: Global, fault: RunError<MemorySink>, wanted: &str) {
    prints(rt, alloc, &fault, wanted);
    let inboxes = Vec::new(alloc);
    prints(rt, alloc, &LiveError { fault, inboxes }, wanted);
}

/// A sink that failed once it had taken as many bytes as can be counted.
fn full(rt: &impl Abort, alloc: Global) -> RunError<MemorySink> {
    let report = read_report(alloc, TEN_REPORT.as_bytes());
    RunError::Sink {
        sink: MemorySink::make(alloc),
        report: report.ok().expect(rt, "a report"),
        taken: u64::MAX,
    }
}

#[test]
fn faults_print_their_numbers(rt: HostRuntime) {
    let alloc = rt.alloc();
    let sink = MemorySink::make(alloc);
    both_print(&rt, alloc, RunError::Settings { sink }, "U2");
    let sink = MemorySink::make(alloc);
    both_print(&rt, alloc, RunError::ChannelTwice { sink }, "U1");
    let sink = MemorySink::make(alloc);
    both_print(&rt, alloc, RunError::Prologue { sink }, "U5");
    let sink = MemorySink::make(alloc);
    both_print(&rt, alloc, RunError::Memory { sink }, "U3");
    let wanted = "U4 taken 18446744073709551615";
    both_print(&rt, alloc, full(&rt, alloc), wanted);
}
