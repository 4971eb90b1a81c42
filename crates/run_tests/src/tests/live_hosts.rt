//! Live runs in which two hosts post 20 vector words each while a hundred messages are made.
use crate::tests::equal::same_in;
use crate::tests::fixtures::{Bench, bench_of, index_of};
use crate::tests::gates::{OrderingGate, Rules};
use crate::tests::hosts::{is_accepted, taking};
use crate::tests::posting::run_with_hosts;
use bc_machine::HostAction;
use bench_report::ChannelReport;
use mil_host::Action;
use std::alloc::Global;
use std::process::Abort;
use std::sync::Wait;
use std::thread::Threads;

/// How many words each host posts.
const WORDS: u16 = 20;

/// A hundred messages to terminal 5, beside which terminal 6 stands on the bus.
const HUNDRED: &str =
    "channel 1\nterminal 5\nterminal 6\nscript\nrepeat 100 { send A rx 5 1 [0001] }\n";

/// How many actions were placed for the terminal at an address, where these are the first vector words 1, 2, .. in
/// their order; None where they are not.
fn first_words(part: &ChannelReport, address: u8) -> Option<u16> {
    let mut count = 0u16;
    let all = part.placed();
    for place in 0..all.len() {
        let HostAction::Terminal {
            address: own,
            action,
        } = all.get(place).action
        else {
            return None;
        };
        if own != address {
            continue;
        }
        count = count.wrapping_add(1);
        match action {
            Action::Vector(word) if word == count => {}
            _ => return None,
        }
    }
    Some(count)
}

/// Whether a number of words is one at least, and at most as many as a host posts.
fn are_some(words: u16) -> bool {
    words >= 1 && words <= WORDS
}

/// Whether of each host's words the first were placed, one at least, and no other action was.
fn are_first_words(part: &ChannelReport) -> bool {
    match (first_words(part, 5), first_words(part, 6)) {
        (Some(five), Some(six)) => {
            are_some(five)
                && are_some(six)
                && part.placed().len() == usize::from(five) + usize::from(six)
        }
        _ => false,
    }
}

/// What a live run beside which both hosts post comes to: how many messages were made, whether the first words of each
/// host were placed, and whether the debugger accepts the recording.
fn comes_to<R: Threads + Wait + Abort + Sync>(
    rt: &R,
    alloc: Global,
    bench: &Bench,
) -> (u32, bool, bool) {
    let gate = OrderingGate::by(Rules::UntilTwentyOnePosts);
    let (report, sink) = run_with_hosts(rt, alloc, bench, 64, WORDS, &gate);
    let index = index_of(rt, alloc, sink.bytes());
    let is_right = is_accepted(alloc, &bench.jobs, &report, index);
    match report.channels().first() {
        Some(part) => (part.made(), are_first_words(part), is_right),
        None => (0, false, is_right),
    }
}

#[test]
fn twenty_words_of_each_host(rt: HostRuntime) {
    let bench = taking(bench_of(&rt, rt.alloc(), &[HUNDRED], 4096), 40);
    let found = comes_to(&rt, rt.alloc(), &bench);
    same_in(&rt, "twenty words", &found, &(100, true, true));
}
