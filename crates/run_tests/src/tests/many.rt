//! A thousand runs of eight channels on short queues: what is read back is what was made, but for what the report
//! lists.
use crate::tests::fixtures::{Bench, TO_FIVE, bench_repeating, index_of, kept_of, ran};
use bench_report::Report;
use bench_run::OpenGate;
use ch11_reader::Index;
use std::alloc::Global;
use std::process::Abort;
use std::sync::Wait;
use std::thread::Threads;

/// How many runs there are on a queue of each length, 1 to 8.
const RUNS: u32 = 125;

/// How many messages the channels 1 to 8 make.
const COUNTS: [u32; 8] = [2, 3, 4, 2, 3, 4, 2, 3];

/// Whether a file holds of each channel what its report says, and nothing else.
fn agrees(index: &Index<'_>, report: &Report) -> bool {
    let mut total = 0u64;
    for (part, count) in report.channels().iter().zip(&COUNTS) {
        if part.made() != *count {
            return false;
        }
        let Some(kept) = kept_of(index, part) else {
            return false;
        };
        total = total.wrapping_add(kept);
    }
    report.channels().len() == COUNTS.len() && index.total() == total
}

/// Whether a file can be read, and holds what its report says.
fn is_read_as(rt: &impl Abort, alloc: Global, file: &[u8], report: &Report) -> bool {
    agrees(&index_of(rt, alloc, file), report)
}

/// Runs the jobs once: whether the file is what the report says.
fn run_agrees<R: Threads + Wait + Abort + Sync>(rt: &R, alloc: Global, bench: &Bench) -> bool {
    let answer = ran(rt, alloc, bench, &OpenGate);
    let (report, sink) = answer.ok().expect(rt, "a run that ends well");
    is_read_as(rt, alloc, sink.bytes(), &report)
}

/// Runs the jobs 125 times, and counts the runs whose file is not what the report says.
fn wrong_runs<R: Threads + Wait + Abort + Sync>(rt: &R, alloc: Global, bench: &Bench) -> u32 {
    let mut wrong = 0u32;
    for _ in 0..RUNS {
        if !run_agrees(rt, alloc, bench) {
            wrong = wrong.wrapping_add(1);
        }
    }
    wrong
}

/// Each of 125 runs on a queue of this length agrees with its report.
fn all_agree<R: Threads + Wait + Abort + Sync>(rt: &R, alloc: Global, queue: u32) {
    let bench = bench_repeating(rt, alloc, &COUNTS, &TO_FIVE, queue);
    let wrong = wrong_runs(rt, alloc, &bench);
    assert_eq!(rt; wrong, 0, "with a queue of {queue}");
}

#[test]
fn queues_of_one_to_eight(rt: HostRuntime) {
    for queue in 1..=8u32 {
        all_agree(&rt, rt.alloc(), queue);
    }
}
