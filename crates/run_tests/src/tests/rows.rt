//! Worked runs: which messages are kept, the packets of the file, and the report.
use crate::tests::equal::same_in;
use crate::tests::fixtures::{
    Shape, TEN_MESSAGES, TEN_REPORT, are_packets, are_stamps, index_of, is_printed, recorded,
};
use crate::tests::gates::{Counts, OrderingGate, Rules};
use bench_report::Report;
use ch11_reader::Index;
use std::alloc::Global;
use std::process::Abort;
use std::sync::Wait;
use std::thread::Threads;

const FIVE_AND_ONE: [&str; 2] = [
    "channel 1\nterminal 5\nscript\nrepeat 5 { send A rx 5 1 [0001] }\n",
    "channel 2\nterminal 5\nscript\nsend A rx 5 1 [0001]\n",
];

const TEN_STAMPS: [u64; 10] = [0, 680, 1360, 2040, 2720, 3400, 4080, 4760, 5440, 6120];

/// What the file of the held writer has: its length in bytes, whether its packets are one of channel 2 and one of
/// channel 1, and whether these have one message, and the first, second and fifth.
fn four_in(rt: &impl Abort, alloc: Global, file: &[u8]) -> (usize, bool, bool) {
    let index = index_of(rt, alloc, file);
    let is_kept = are_stamps(&index, 1, &[0, 680, 2720]) && are_stamps(&index, 2, &[0]);
    (
        file.len(),
        are_packets(&index, &[(2, 48, 0), (1, 88, 0x10)]),
        is_kept,
    )
}

#[test]
fn a_queue_of_one_and_a_held_writer(rt: HostRuntime) {
    let gate = OrderingGate::by(Rules::HeldWriter);
    let (report, sink) = recorded(&rt, rt.alloc(), &FIVE_AND_ONE, 1, &gate);
    let found = (gate.all_came(), gate.counts());
    same_in(&rt, "the gate", &found, &(true, (0, 1, 2, 1)));
    let text = "channel 1\nmade 5\nrefused 3\nrefused 4\nchannel 2\nmade 1\npackets 2\n";
    is_printed(&rt, rt.alloc(), &report, text);
    let found = four_in(&rt, rt.alloc(), sink.bytes());
    same_in(&rt, "the file", &found, &(136, true, true));
}

/// The packets of two channels in an order that they may have.
type Order = [Shape; 2];

const ONE_AND_TWO: Order = [(1, 228, 0), (2, 228, 0)];

const TWO_AND_ONE: Order = [(2, 228, 0), (1, 228, 0)];

const EITHER: &[Order] = &[ONE_AND_TWO, TWO_AND_ONE];

/// Whether the packets of a recording stand in one of these orders.
fn stand_in(index: &Index<'_>, orders: &[Order]) -> bool {
    for order in orders {
        if are_packets(index, order) {
            return true;
        }
    }
    false
}

/// What the file of two channels of ten messages has: its length in bytes, whether its packets stand in one of these
/// orders, and whether they have all messages.
fn ten_in(rt: &impl Abort, alloc: Global, file: &[u8], orders: &[Order]) -> (usize, bool, bool) {
    let index = index_of(rt, alloc, file);
    let is_kept = are_stamps(&index, 1, &TEN_STAMPS) && are_stamps(&index, 2, &TEN_STAMPS);
    (file.len(), stand_in(&index, orders), is_kept)
}

/// Nothing was refused of two channels of ten messages: each has one packet with all of its messages, in 456 bytes.
fn is_whole(
    rt: &impl Abort,
    alloc: Global,
    row: &str,
    report: &Report,
    file: &[u8],
    orders: &[Order],
) {
    is_printed(rt, alloc, report, TEN_REPORT);
    same_in(
        rt,
        row,
        &ten_in(rt, alloc, file, orders),
        &(456, true, true),
    );
}

/// How two channels of ten messages are held, none of which is refused: a name, the rules of the gate, the items of the
/// queue, what the gate has counted at the end, and the orders in which the packets may stand.
type Turns = (&'static str, Rules, u32, Counts, &'static [Order]);

/// A queue of one has room for each message that waits until all before it were taken. Where two channels meet, neither
/// waits for the other to end, and no lock is held between them.
const TURNS: &[Turns] = &[
    (
        "room for all while the writer waits",
        Rules::UntilTheEndMarks,
        4096,
        (0, 2, 0, 0),
        EITHER,
    ),
    (
        "the end mark of channel 1 comes first",
        Rules::OneFirst,
        4096,
        (0, 0, 0, 1),
        &[ONE_AND_TWO],
    ),
    (
        "the end mark of channel 2 comes first",
        Rules::TwoFirst,
        4096,
        (0, 0, 0, 1),
        &[TWO_AND_ONE],
    ),
    (
        "turns in a queue of one",
        Rules::InTurn,
        1,
        (0, 0, 22, 1),
        &[ONE_AND_TWO],
    ),
    (
        "two channels meet",
        Rules::Meeting,
        4096,
        (2, 0, 0, 0),
        EITHER,
    ),
];

/// Two channels of ten messages are recorded whole where they are held so.
fn takes_turns<R: Threads + Wait + Abort + Sync>(rt: &R, alloc: Global, turns: &Turns) {
    let (row, rules, queue, counts, orders) = turns;
    let gate = OrderingGate::by(*rules);
    let (report, sink) = recorded(rt, alloc, &TEN_MESSAGES, *queue, &gate);
    same_in(rt, row, &(gate.all_came(), gate.counts()), &(true, *counts));
    is_whole(rt, alloc, row, &report, sink.bytes(), orders);
}

#[test]
fn two_channels_of_ten_messages(rt: HostRuntime) {
    for turns in TURNS {
        takes_turns(&rt, rt.alloc(), turns);
    }
}
