//! A plan takes four faults of a message and no fifth, and only those that are in range.
use crate::tests::equal::{are_in, prints, same_in};
use mil_line::{Fault, Gap, LineError, Plan};
use mil_word::{Sync, Wave, Word};
use std::process::Abort;

/// A fault: of the first reply, so many ticks late, or of the controller's words, which are not sent.
#[derive(Clone, Copy)]
enum Flaw {
    Late(u32),
    Mute,
    /// The first reply comes after so many ticks.
    Early(u32),
    /// Before the word at a place of a run there are so many ticks.
    Pause(u32, u32, u32),
    /// So many data words more behind a run.
    Babble(u32, u32),
}

use Flaw::{Babble, Early, Late, Mute, Pause};

fn fault_of(flaw: Flaw) -> Fault {
    match flaw {
        Late(ticks) => Fault::Late { run: 1, ticks },
        Mute => Fault::Mute { run: 0 },
        Early(ticks) => Fault::Early { run: 1, ticks },
        Pause(run, index, ticks) => Fault::Pause { run, index, ticks },
        Babble(run, count) => Fault::Babble {
            run,
            count,
            word: 0,
        },
    }
}

/// Four faults of one message.
fn four_faults() -> [Fault; 4] {
    let word = Word {
        sync: Sync::DataSync,
        value: 4,
    };
    let half_bits = Wave::of(4);
    [
        Fault::Drop { run: 0, index: 3 },
        Fault::Mask {
            run: 0,
            index: 1,
            half_bits,
        },
        Fault::Add {
            run: 0,
            index: 3,
            word,
        },
        fault_of(Late(170)),
    ]
}

/// Where message 1 has the four: one more fault of a message each, and what the plan answers.
const ADDED: &[(&str, u32, Flaw, Result<(), LineError>)] = &[
    ("a fifth", 1, Late(171), Err(LineError::TooMany)),
    (
        "a fifth out of range",
        1,
        Late(120),
        Err(LineError::TooMany),
    ),
    ("of the last message", 1_000_000, Late(121), Ok(())),
    ("too early", 2, Late(120), Err(LineError::OutOfRange)),
    ("too late", 2, Late(256), Err(LineError::OutOfRange)),
    ("of the controller", 2, Mute, Err(LineError::OutOfRange)),
    ("of message 0", 0, Late(121), Err(LineError::OutOfRange)),
    (
        "behind the last",
        1_000_001,
        Late(121),
        Err(LineError::OutOfRange),
    ),
];

/// Faults of a message each, and whether they are in range.
const RANGES: &[(&str, u32, Flaw, Result<(), LineError>)] = &[
    ("early from 21", 11, Early(21), Ok(())),
    ("early to 39", 12, Early(39), Ok(())),
    ("early at 20", 13, Early(20), Err(LineError::OutOfRange)),
    ("early at 40", 13, Early(40), Err(LineError::OutOfRange)),
    ("the least pause", 14, Pause(0, 1, 21), Ok(())),
    ("the longest pause", 15, Pause(2, 39, 255), Ok(())),
    (
        "a pause before the first",
        13,
        Pause(0, 0, 21),
        Err(LineError::OutOfRange),
    ),
    (
        "a pause behind the last",
        13,
        Pause(0, 40, 21),
        Err(LineError::OutOfRange),
    ),
    ("no pause", 13, Pause(1, 1, 20), Err(LineError::OutOfRange)),
    (
        "too long a pause",
        13,
        Pause(1, 1, 256),
        Err(LineError::OutOfRange),
    ),
    (
        "a pause in run 3",
        13,
        Pause(3, 1, 21),
        Err(LineError::OutOfRange),
    ),
    ("one word more", 16, Babble(0, 1), Ok(())),
    ("forty words more", 17, Babble(2, 40), Ok(())),
    ("no word more", 13, Babble(0, 0), Err(LineError::OutOfRange)),
    (
        "too many words more",
        13,
        Babble(0, 41),
        Err(LineError::OutOfRange),
    ),
    (
        "words behind run 3",
        13,
        Babble(3, 1),
        Err(LineError::OutOfRange),
    ),
];

/// What a plan answers to one more fault of a message.
fn answers(
    rt: &impl Abort,
    row: &str,
    plan: &mut Plan,
    number: u32,
    fault: Fault,
    wanted: Result<(), LineError>,
) {
    same_in(rt, row, &plan.add(number, fault), &wanted);
}

/// Message 1 gets its four faults.
fn fill(rt: &impl Abort, plan: &mut Plan) {
    for fault in &four_faults() {
        answers(rt, "one of four", plan, 1, *fault, Ok(()));
    }
}

/// The rows are answered as they should.
fn are_answered(rt: &impl Abort, plan: &mut Plan) {
    for (row, number, flaw, wanted) in ADDED {
        answers(rt, row, plan, *number, fault_of(*flaw), *wanted);
    }
    for (row, number, flaw, wanted) in RANGES {
        answers(rt, row, plan, *number, fault_of(*flaw), *wanted);
    }
}

/// Faults of messages whose numbers rise and fall: the number, and by how many ticks the first reply is late.
const UP_AND_DOWN: &[(u32, u32)] = &[
    (5, 121),
    (3, 122),
    (5, 123),
    (7, 124),
    (5, 125),
    (3, 126),
    (5, 127),
];

/// The faults of each of those messages, in the order in which they were added.
fn are_in_order(rt: &impl Abort, plan: &Plan) {
    let of_three = [fault_of(Late(122)), fault_of(Late(126))];
    let of_five = [
        fault_of(Late(121)),
        fault_of(Late(123)),
        fault_of(Late(125)),
        fault_of(Late(127)),
    ];
    are_in(rt, "of 3", plan.faults(3).as_slice(), &of_three);
    are_in(rt, "of 5", plan.faults(5).as_slice(), &of_five);
    are_in(
        rt,
        "of 7",
        plan.faults(7).as_slice(),
        &[fault_of(Late(124))],
    );
    same_in(rt, "of 4", &plan.faults(4).len(), &0);
}

/// The four faults, the last message's one, and none of message 2.
fn has_five(rt: &impl Abort, plan: &Plan) {
    are_in(rt, "of 1", plan.faults(1).as_slice(), &four_faults());
    same_in(rt, "of 1", &plan.faults(1).len(), &4);
    same_in(rt, "of 2", &plan.faults(2).len(), &0);
    same_in(rt, "of the last", &plan.faults(1_000_000).len(), &1);
}

#[test]
fn four_faults_of_a_message_and_none_out_of_range(rt: HostRuntime) {
    let mut plan = Plan::make(rt.alloc());
    fill(&rt, &mut plan);
    are_answered(&rt, &mut plan);
    has_five(&rt, &plan);
    has_five(&rt, &copied(&rt, &plan));
}

#[test]
fn faults_of_a_message_in_the_order_in_which_they_were_added(rt: HostRuntime) {
    let mut plan = Plan::make(rt.alloc());
    for (number, ticks) in UP_AND_DOWN {
        let late = fault_of(Late(*ticks));
        answers(&rt, "up and down", &mut plan, *number, late, Ok(()));
    }
    let (late, refused) = (fault_of(Late(128)), Err(LineError::TooMany));
    answers(&rt, "a fifth", &mut plan, 5, late, refused);
    are_in_order(&rt, &plan);
    are_in_order(&rt, &copied(&rt, &plan));
}

/// A copy of a plan.
fn copied(rt: &impl Abort, plan: &Plan) -> Plan {
    plan.copy().expect(rt, "a copy")
}

#[test]
fn refusals_as_printed(rt: HostRuntime) {
    prints(&rt, rt.alloc(), &LineError::TooMany, "L1");
    prints(&rt, rt.alloc(), &LineError::OutOfRange, "L2");
    prints(&rt, rt.alloc(), &LineError::Memory, "L3");
}

#[test]
fn gaps(rt: HostRuntime) {
    let contiguous = (Gap::of(20).is_contiguous(), Gap::of(21).is_contiguous());
    same_in(&rt, "of 20 and 21", &contiguous, &(true, false));
    same_in(&rt, "the least", &Gap::contiguous().ticks(), &20);
}
