//! A thousand live runs of eight channels, to each of which two hosts post beside the run: the debugger accepts each
//! recording under its report.
use crate::tests::fixtures::{Bench, Round, bench_repeating, index_of};
use crate::tests::gates::{OrderingGate, Rules};
use crate::tests::hosts::{is_accepted, taking};
use crate::tests::posting::run_with_hosts;
use bench_report::{ChannelReport, Report};
use job_file::Job;
use std::alloc::Global;
use std::process::Abort;
use std::sync::Wait;
use std::thread::Threads;

/// How many runs there are on a queue of each length, 1 to 10.
const RUNS: u32 = 100;

/// How often the channels 1 to 8 ask terminal 5 and then terminal 6 for the vector word.
const ROUNDS: [u32; 8] = [3, 4, 5, 3, 4, 5, 3, 4];

/// How many vector words each host posts to each channel.
const WORDS: u16 = 3;

/// How many posts of each channel are taken at most.
const MOST: u32 = 4;

/// The two questions.
const BOTH: Round = Round {
    terminals: "terminal 5\nterminal 6\n",
    frames: "send A mode 5 16 send A mode 6 16",
};

/// Whether a channel made twice as many messages as there are rounds, and took at most as many posts as it may.
fn has_made(part: &ChannelReport, rounds: u32) -> bool {
    part.made() == rounds.saturating_mul(2) && part.placed().len() <= MOST as usize
}

/// How many messages of all channels were kept; None where a channel did not make its messages.
fn kept_in(report: &Report) -> Option<u64> {
    let mut kept = 0u64;
    for (part, rounds) in report.channels().iter().zip(&ROUNDS) {
        if !has_made(part, *rounds) {
            return None;
        }
        let refused = part.refused().len() as u64;
        kept = kept.saturating_add(u64::from(part.made()).saturating_sub(refused));
    }
    Some(kept)
}

/// How many posts were placed in all.
fn placed_in(report: &Report) -> u64 {
    let mut placed = 0u64;
    for part in report.channels() {
        placed = placed.saturating_add(part.placed().len() as u64);
    }
    placed
}

/// Whether a file has as many messages as the report says were kept, and the debugger accepts it.
fn is_read_back(
    rt: &impl Abort,
    alloc: Global,
    jobs: &[Job],
    report: &Report,
    file: &[u8],
) -> bool {
    let index = index_of(rt, alloc, file);
    report.channels().len() == ROUNDS.len()
        && kept_in(report) == Some(index.total())
        && is_accepted(alloc, jobs, report, index)
}

/// How many posts were placed in a live run; None where its recording is not what its report says.
fn placed_once<R: Threads + Wait + Abort + Sync>(
    rt: &R,
    alloc: Global,
    bench: &Bench,
) -> Option<u64> {
    let gate = OrderingGate::by(Rules::UntilFourPosts);
    let (report, sink) = run_with_hosts(rt, alloc, bench, 8, WORDS, &gate);
    if is_read_back(rt, alloc, &bench.jobs, &report, sink.bytes()) {
        Some(placed_in(&report))
    } else {
        None
    }
}

/// How many of a hundred live runs have a recording that is not what the report says, and how many posts were placed in
/// the others.
fn counts_of<R: Threads + Wait + Abort + Sync>(rt: &R, alloc: Global, bench: &Bench) -> (u32, u64) {
    let mut wrong = 0u32;
    let mut placed = 0u64;
    for _ in 0..RUNS {
        match placed_once(rt, alloc, bench) {
            Some(count) => placed = placed.saturating_add(count),
            None => wrong = wrong.saturating_add(1),
        }
    }
    (wrong, placed)
}

/// The recording of each of a hundred live runs on a queue of this length is what its report says, and posts were
/// placed in each.
fn are_read_back<R: Threads + Wait + Abort + Sync>(rt: &R, alloc: Global, queue: u32) {
    let bench = taking(bench_repeating(rt, alloc, &ROUNDS, &BOTH, queue), MOST);
    let (wrong, placed) = counts_of(rt, alloc, &bench);
    assert_eq!(rt; wrong, 0, "with a queue of {queue}");
    assert!(rt;
        placed >= u64::from(RUNS) * u64::from(WORDS),
        "{placed} with a queue of {queue}"
    );
}

#[test]
fn queues_of_one_to_ten(rt: HostRuntime) {
    for queue in 1..=10u32 {
        are_read_back(&rt, rt.alloc(), queue);
    }
}
