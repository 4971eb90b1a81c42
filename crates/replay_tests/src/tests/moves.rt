//! A place has the same state and the same clock of the bus, whichever way leads there.
use super::recordings::record_of;
use super::scripts::Move::{Back, Find, FindBack, Forward, Go};
use super::scripts::{Row, moves, opened, same, seen_at};
use std::alloc::Global;
use std::process::Abort;

/// The text of a job, and the parts in which its messages are offered.
struct Offered {
    text: &'static str,
    parts: &'static [u16],
}

/// A message whose last data word is dropped, and then twice the question for the status.
const THREE_MESSAGES: Offered = Offered {
    text: "channel 1\nterminal 5\nfault 1 drop 0 3\nscript\n\
           send A rx 5 1 [0001 0002 0003] send A mode 5 2 send A mode 5 2\n",
    parts: &[1; 3],
};

/// Ways to the first message, the only one without an answer.
const THREE_MOVES: [Row; 8] = [
    (Find("silent"), Ok(()), 1, None, None),
    (Go(3), Ok(()), 3, None, None),
    (FindBack("silent"), Ok(()), 1, None, None),
    (Go(3), Ok(()), 3, None, None),
    (Go(0), Ok(()), 0, None, None),
    (Forward, Ok(()), 1, None, None),
    (Forward, Ok(()), 2, None, None),
    (Back, Ok(()), 1, None, None),
];

const FIVE_MESSAGES: Offered = Offered {
    text: "channel 1\nterminal 5\nat 3 5 busy on\nscript\nrepeat 5 { send A rx 5 1 [0001] }\n",
    parts: &[1, 2, 1, 1],
};

/// Message 3 turns the terminal busy and is refused: it has happened at the next place all the same.
const FIVE_MOVES: [Row; 4] = [
    (Go(2), Ok(()), 2, None, None),
    (Forward, Ok(()), 3, None, None),
    (Go(4), Ok(()), 4, None, None),
    (FindBack("bit busy"), Ok(()), 3, None, None),
];

/// The moves of some rows, and those of others over the same recording opened anew, lead to the same state at the same
/// time.
fn meets(rt: &impl Abort, alloc: Global, job: &Offered, rows: &[Row], others: &[Row]) {
    let one = record_of(rt, alloc, job.text, job.parts);
    let mut replay = opened(rt, alloc, &one, &one.file);
    moves(rt, alloc, &mut replay, rows);
    let mut other = opened(rt, alloc, &one, &one.file);
    moves(rt, alloc, &mut other, others);
    same(rt, &seen_at(&replay), &seen_at(&other));
}

#[test]
fn three_messages_step_by_step(rt: HostRuntime) {
    let first = [(Go(1), Ok(()), 1, Some((1, 0x2C00, 0x2823)), None)];
    meets(&rt, rt.alloc(), &THREE_MESSAGES, &THREE_MOVES, &first);
}

#[test]
fn a_refused_message_has_happened(rt: HostRuntime) {
    let third = [(Go(3), Ok(()), 3, Some((4, 0x2808, 0x2821)), None)];
    meets(&rt, rt.alloc(), &FIVE_MESSAGES, &FIVE_MOVES, &third);
}
