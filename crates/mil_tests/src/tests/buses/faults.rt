//! Messages with planned faults.
use super::Asked::{Between, Mode, Receive};
use super::Beside::{All, Nothing};
use super::Flaw::{Add, Drop, Late, Mask, Mute};
use super::Step::{Act, Clock, Gives, Plan, Planned, Received, TooMany};
use super::{Script, Setting, Step, are_played, fresh};
use mil_word::Line::A;
use std::process::Abort;

/// What is on the line where both terminals of a transfer answer.
const SIX: &[u16] = &[0x1882, 0x3c22, 0x3800, 0xaaaa, 0x5555, 0x1800];

/// The same without the status of the terminal that receives.
const FIVE: &[u16] = &[0x1882, 0x3c22, 0x3800, 0xaaaa, 0x5555];

/// The words that the sender has.
const PUT_UP: Step = Act(7, "transmit 1 AAAA 5555");

/// Each with the terminals 3 and 7.
const TRANSFERS: &[Script] = &[
    (
        "a transfer between terminals",
        &[
            PUT_UP,
            Gives(A, Between(2), All(0, 0x0800, 0x5050), SIX),
            Received(3, 4, &[0xaaaa, 0x5555]),
        ],
    ),
    (
        "a transfer whose sender answers late",
        &[
            PUT_UP,
            Plan(1, Late(170)),
            Gives(A, Between(2), All(0, 0x1a00, 0x50aa), SIX),
        ],
    ),
    (
        "a transfer whose sender answers too late",
        &[
            PUT_UP,
            Plan(1, Late(171)),
            Gives(A, Between(2), All(0, 0x1a00, 0x00ab), FIVE),
            Received(3, 4, &[]),
            Gives(A, Mode(3, 2), Nothing, &[0x1fe2, 0x1c00]),
        ],
    ),
];

/// Each with terminal 5 alone.
const SCRIPTS: &[Script] = &[
    (
        "a word that is dropped",
        &[
            Plan(1, Drop(3)),
            Gives(
                A,
                Receive(1, &[1, 2, 3]),
                All(0, 0x1220, 0x0000),
                &[0x2823, 1, 2],
            ),
            Received(5, 1, &[]),
            Gives(A, Mode(5, 2), All(760, 0x0000, 0x0050), &[0x2fe2, 0x2c00]),
            Gives(A, Mode(5, 2), All(1240, 0x0000, 0x0050), &[0x2fe2, 0x2c00]),
        ],
    ),
    (
        "a word that is added",
        &[
            Plan(1, Add(3, 4)),
            Gives(
                A,
                Receive(1, &[1, 2, 3]),
                All(0, 0x1220, 0x0000),
                &[0x2823, 1, 2, 3, 4],
            ),
            // it follows the word before at once, so the clock stands at five words
            Clock(1000),
        ],
    ),
    (
        "a word with a half bit inverted",
        &[
            Plan(1, Mask(1, 4)),
            Gives(
                A,
                Receive(1, &[1, 2, 3]),
                All(0, 0x1208, 0x0000),
                &[0x2823, 1, 2, 3],
            ),
        ],
    ),
    (
        "a message of which no word is sent",
        &[
            Plan(1, Drop(0)),
            Gives(A, Mode(5, 1), All(0, 0x1220, 0x0000), &[]),
            Gives(A, Mode(5, 1), All(160, 0x0000, 0x0050), &[0x2fe1, 0x2800]),
        ],
    ),
    (
        "a reply that is muted",
        &[
            Plan(1, Mute),
            Gives(A, Mode(5, 1), All(0, 0x1200, 0x0000), &[0x2fe1]),
        ],
    ),
    (
        "a message has four faults and no fifth",
        &[
            Plan(1, Drop(0)),
            Plan(1, Drop(1)),
            Plan(1, Drop(2)),
            Plan(1, Drop(3)),
            TooMany(1, Drop(4)),
            Planned(1, 4),
        ],
    ),
];

#[test]
fn messages_with_faults(rt: HostRuntime) {
    are_played(&rt, rt.alloc(), &[5], SCRIPTS);
    are_played(&rt, rt.alloc(), &[3, 7], TRANSFERS);
}

/// What happens before a bus and its plan are copied: the second message has a fault, too.
const BEFORE: &[Step] = &[
    Plan(1, Drop(3)),
    Plan(2, Mute),
    Gives(
        A,
        Receive(1, &[1, 2, 3]),
        All(0, 0x1220, 0x0000),
        &[0x2823, 1, 2],
    ),
];

/// What the first does alone.
const ALONE: &[Step] = &[Gives(A, Mode(5, 2), All(760, 0x1200, 0x0000), &[0x2fe2])];

/// What the copy does then: it is as the first was.
const ALIKE: &[Step] = &[
    Gives(A, Mode(5, 2), All(760, 0x1200, 0x0000), &[0x2fe2]),
    Gives(A, Mode(5, 2), All(1120, 0x0000, 0x0050), &[0x2fe2, 0x2c00]),
];

#[test]
fn a_copied_bus_and_plan_go_on_alike(rt: HostRuntime) {
    let mut first = fresh(&rt, rt.alloc(), &[5]);
    first.plays(&rt, "before", BEFORE);
    goes_on_alike(&rt, &mut first);
}

/// A copy of a bus and its plan goes on as the first would have, whatever that does alone.
fn goes_on_alike(rt: &impl Abort, first: &mut Setting) {
    let mut second = first.copy(rt);
    first.plays(rt, "the first", ALONE);
    second.plays(rt, "the copy", ALIKE);
}
