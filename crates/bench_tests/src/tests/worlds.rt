//! Steps of a bench: its file, its report, and what is refused.
use crate::tests::equal::{printed, reads, same_in};
use crate::tests::scripts::Found::{Messages, OneBehindTheOther, Stamp};
use crate::tests::scripts::Then::{
    Finds, HasPacket, Holds, IsFront, Leaves, Plays, Reports, Times,
};
use crate::tests::scripts::{Found, MadeOf, Script, are_played, made, steps_of};
use bench_core::PlayError;
use bench_settings::WorldError;
use std::alloc::Global;
use std::process::Abort;

const FIVE_MESSAGES: &str = "channel 1\nterminal 5\nscript\nrepeat 5 { send A rx 5 1 [0001] }\n";

const ONE_MESSAGE: &str = "channel 2\nterminal 5\nscript\nsend A rx 5 1 [0001]\n";

const TEN_MESSAGES: &[&str] = &[
    "channel 1\nterminal 5\nscript\nrepeat 10 { send A rx 5 1 [0001] }\n",
    "channel 2\nterminal 5\nscript\nrepeat 10 { send A rx 5 1 [0001] }\n",
];

const NARROW_STEPS: &str = "1 T 1 T 0 T 0 0 0 T 0 T 0 T";

const NARROW_REPORT: &str =
    "channel 1\nmade 5\nrefused 3\nrefused 4\nchannel 2\nmade 1\npackets 2\n";

/// A queue of one item, between a channel of five messages and one of one.
const NARROW: MadeOf = MadeOf {
    jobs: &[FIVE_MESSAGES, ONE_MESSAGE],
    limit: 4096,
    queue: 1,
    posts: 65_536,
    prologue: 0,
};

/// Two channels of ten messages, with room for all.
const WIDE: MadeOf = MadeOf {
    jobs: TEN_MESSAGES,
    limit: 4096,
    queue: 4096,
    posts: 65_536,
    prologue: 0,
};

/// What two channels of ten messages leave in any order: all stand in one file, one channel behind the other.
const TEN_AND_TEN: &[Found] = &[OneBehindTheOther, Stamp(20, 6120)];

const ALL_TEN: &str = "channel 1\nmade 10\nchannel 2\nmade 10\npackets 2\n";

const SCRIPTS: &[Script] = &[
    Script {
        name: "a queue of one",
        made_of: NARROW,
        steps: &[
            Plays(NARROW_STEPS, Ok(())),
            Holds(136, 0),
            HasPacket(0, (2, 48, 0)),
            HasPacket(48, (1, 88, 0x10)),
            // the messages by the time at which they began
            Finds(&[
                Messages(4),
                Stamp(1, 0),
                Stamp(2, 0),
                Stamp(3, 680),
                Stamp(4, 2720),
            ]),
            Reports(NARROW_REPORT),
            // steps behind the end change nothing
            Plays("0 1 T", Ok(())),
            Holds(136, 0),
            Reports(NARROW_REPORT),
        ],
    },
    Script {
        name: "an offer of no channel",
        made_of: NARROW,
        steps: &[
            Plays("0 2", Err(PlayError::Index)),
            Holds(0, 0),
            Reports("channel 1\nmade 0\nchannel 2\nmade 0\npackets 0\n"),
            Plays("1", Ok(())),
            Holds(0, 1),
        ],
    },
    Script {
        name: "ten messages: 0 1 T T",
        made_of: WIDE,
        steps: &[Times(11, "0 1 T T"), Leaves(456, TEN_AND_TEN, ALL_TEN)],
    },
    Script {
        name: "ten messages: 1 0 T T",
        made_of: WIDE,
        steps: &[Times(11, "1 0 T T"), Leaves(456, TEN_AND_TEN, ALL_TEN)],
    },
    Script {
        name: "ten messages: 0 T 1 T",
        made_of: WIDE,
        steps: &[Times(11, "0 T 1 T"), Leaves(456, TEN_AND_TEN, ALL_TEN)],
    },
    Script {
        name: "offers before takes",
        made_of: WIDE,
        steps: &[
            Times(22, "0"),
            Times(22, "1"),
            Times(22, "T"),
            Holds(456, 0),
        ],
    },
    Script {
        name: "a prologue",
        made_of: MadeOf {
            jobs: &[ONE_MESSAGE],
            prologue: 32,
            ..NARROW
        },
        steps: &[IsFront(32), Plays("0 T 0 T", Ok(())), Holds(80, 0)],
    },
];

#[test]
fn scripts(rt: HostRuntime) {
    are_played(&rt, rt.alloc(), SCRIPTS);
}

#[test]
fn the_narrow_steps_are_fourteen(rt: HostRuntime) {
    let steps = steps_of(&rt, rt.alloc(), NARROW_STEPS);
    same_in(&rt, NARROW_STEPS, &steps.len(), &14);
}

/// What makes no world, and why: the jobs, the limit, the queue's size, how many posts are taken, and the length of the
/// prologue.
const REFUSED: &[(&[&str], u32, u32, u32, usize, WorldError)] = &[
    (&[], 4096, 1, 65_536, 0, WorldError::Settings),
    (&[ONE_MESSAGE; 33], 4096, 1, 65_536, 0, WorldError::Settings),
    (
        &[ONE_MESSAGE, ONE_MESSAGE],
        4096,
        1,
        65_536,
        0,
        WorldError::ChannelTwice,
    ),
    (&[ONE_MESSAGE], 255, 1, 65_536, 0, WorldError::Settings),
    (&[ONE_MESSAGE], 524_289, 1, 65_536, 0, WorldError::Settings),
    (&[ONE_MESSAGE], 4096, 0, 65_536, 0, WorldError::Settings),
    (&[ONE_MESSAGE], 4096, 4097, 65_536, 0, WorldError::Settings),
    (&[ONE_MESSAGE], 4096, 1, 65_537, 0, WorldError::Settings),
    (&[ONE_MESSAGE], 4096, 1, 65_536, 30, WorldError::Prologue),
    (&[ONE_MESSAGE], 4096, 1, 65_536, 96, WorldError::Prologue),
];

#[test]
fn what_is_not_run(rt: HostRuntime) {
    for (jobs, limit, queue, posts, prologue, fault) in REFUSED {
        let made_of = MadeOf {
            jobs,
            limit: *limit,
            queue: *queue,
            posts: *posts,
            prologue: *prologue,
        };
        is_refused(&rt, rt.alloc(), made_of, *fault);
    }
}

/// These jobs and settings make no world, for this fault.
fn is_refused(rt: &impl Abort, alloc: Global, made_of: MadeOf, fault: WorldError) {
    let found = made(rt, alloc, made_of).err();
    assert_eq!(rt; found, Some(fault), "{made_of:?}");
}

/// Why steps are not played, and how it is printed.
const CODES: &[(PlayError, &str)] = &[
    (PlayError::Index, "O1"),
    (PlayError::Memory { done: 3 }, "O2"),
    (PlayError::NoTerminal, "O3"),
    (PlayError::Posts, "O4"),
];

#[test]
fn codes_of_faults(rt: HostRuntime) {
    for (fault, code) in CODES {
        reads(&rt, code, &printed(&rt, rt.alloc(), fault), code);
    }
}
