//! A bus whose talks start no sooner than is asked for.
use super::Asked::Mode;
use super::Beside::All;
use super::Step::{Clock, Gives, Now, Pace};
use super::{Script, Setting, Step, are_played, fresh};
use mil_word::Line::A;
use std::process::Abort;

/// A mode command to terminal 5 and its status take 460 ticks: two words, and 60 between them.
const SCRIPTS: &[Script] = &[
    (
        "the first talk",
        &[
            Now(0),
            Pace(1000),
            Now(1000),
            Clock(0),
            Gives(A, Mode(5, 1), All(1000, 0x0000, 0x0050), &[0x2fe1, 0x2800]),
            Clock(1460),
            Now(1460),
        ],
    ),
    (
        "a least start is never lowered",
        &[
            Gives(A, Mode(5, 1), All(0, 0x0000, 0x0050), &[0x2fe1, 0x2800]),
            Clock(460),
            Pace(20000),
            Pace(10000),
            Now(20000),
            Gives(A, Mode(5, 1), All(20000, 0x0000, 0x0050), &[0x2fe1, 0x2800]),
            Now(20460),
        ],
    ),
    (
        "a least start that has passed, or that the gap goes beyond",
        &[
            Gives(A, Mode(5, 1), All(0, 0x0000, 0x0050), &[0x2fe1, 0x2800]),
            Pace(400),
            Now(460),
            // 20 ticks after the end of the status: its parity is 5 before the end, the sync's middle 15 after the
            // start
            Gives(A, Mode(5, 1), All(480, 0x0000, 0x0050), &[0x2fe1, 0x2800]),
            Pace(945),
            Gives(A, Mode(5, 1), All(960, 0x0000, 0x0050), &[0x2fe1, 0x2800]),
        ],
    ),
];

#[test]
fn paced_buses(rt: HostRuntime) {
    are_played(&rt, rt.alloc(), &[5], SCRIPTS);
}

#[test]
fn a_saved_bus_keeps_its_least_start(rt: HostRuntime) {
    let mut setting = fresh(&rt, rt.alloc(), &[5]);
    goes_back(&rt, &mut setting);
}

/// A bus goes back to its least start, and a copy has it.
fn goes_back(rt: &impl Abort, setting: &mut Setting) {
    setting.plays(rt, "saved", &[Pace(500)]);
    let saved = setting.bus.save().expect(rt, "memory");
    setting.plays(rt, "later", &[Pace(9000), Now(9000)]);
    setting.bus.restore(&saved).expect(rt, "memory");
    is_copied(rt, setting);
    setting.plays(rt, "restored", RESTORED);
}

/// A copy of a bus has its least start.
fn is_copied(rt: &impl Abort, setting: &Setting) {
    let mut copy = setting.copy(rt);
    copy.plays(rt, "copied", &[Now(500)]);
}

/// What is found of a bus that has gone back to its least start of 500.
const RESTORED: &[Step] = &[
    Now(500),
    Gives(A, Mode(5, 1), All(500, 0x0000, 0x0050), &[0x2fe1, 0x2800]),
];
