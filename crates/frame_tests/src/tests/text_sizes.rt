//! The sizes of what is read.
use crate::tests::assembling::spelled;
use crate::tests::equal::same_in;
use frame_text::read_cond;
use std::alloc::Global;
use std::process::Abort;

/// A text, how many messages it sends at most, and how deep its blocks stand in one another.
const FRAMES: &[(&str, u32, u32)] = &[
    (
        "repeat 10000 { repeat 100 { send A mode 5 1 } }",
        1_000_000,
        2,
    ),
    (
        "until fail at most 10000 { retry 1 send A mode 5 1 }",
        20_000,
        1,
    ),
    ("repeat 3 { retry 2 send A rx 9 1 [0001] }", 9, 1),
];

/// A condition, and how many operators it has.
const CONDITIONS: &[(&str, u32)] = &[
    ("any ( fail silent )", 1),
    ("not all ( bit busy not silent )", 3),
];

/// How many messages the frame of a text sends at most, and its depth.
fn size(rt: &impl Abort, alloc: Global, text: &str) -> (u32, u32) {
    let frame = spelled(rt, alloc, text);
    (frame.worst_messages(), frame.depth())
}

/// How many operators a condition has.
fn operators(rt: &impl Abort, alloc: Global, text: &str) -> u32 {
    let condition = read_cond(alloc, text.as_bytes()).expect(rt, text);
    condition.operators()
}

#[test]
fn frames_and_conditions(rt: HostRuntime) {
    for (text, messages, depth) in FRAMES {
        same_in(
            &rt,
            text,
            &size(&rt, rt.alloc(), text),
            &(*messages, *depth),
        );
    }
    for (text, count) in CONDITIONS {
        same_in(&rt, text, &operators(&rt, rt.alloc(), text), count);
    }
}
