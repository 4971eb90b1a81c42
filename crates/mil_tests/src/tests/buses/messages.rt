//! Messages of each kind on a bus without faults.
use super::Asked::{Mode, ModeToAll, ModeWith, Receive, ToAll, Transmit};
use super::Beside::{All, Block, Nothing};
use super::Step::{Act, Clock, Gives, Received, ReceivedFromAll};
use super::{Script, are_played};
use mil_word::Line::{A, B};

/// The record of a transmit command for 32 words at subaddress 2, where nothing was put up.
const ZEROS: &[u16] = &[
    0x2c40, 0x2800, 0, 0, 0, 0, 0, 0, 0, 0, 0, 0, 0, 0, 0, 0, 0, 0, 0, 0, 0, 0, 0, 0, 0, 0, 0, 0,
    0, 0, 0, 0, 0, 0,
];

/// Each with terminal 5 alone.
const SCRIPTS: &[Script] = &[
    (
        "a transmit command of 32 words brings zeros",
        &[Gives(A, Transmit(2, 32), All(0, 0x0000, 0x0050), ZEROS)],
    ),
    (
        "three words to a terminal",
        &[
            Gives(
                A,
                Receive(1, &[1, 2, 3]),
                All(0, 0x0000, 0x0050),
                &[0x2823, 1, 2, 3, 0x2800],
            ),
            Received(5, 1, &[1, 2, 3]),
            // the status starts 60 ticks after the end of the fourth word, and lasts 200
            Clock(1060),
        ],
    ),
    (
        "a broadcast is told until the next command",
        &[
            Gives(A, ModeToAll(1), All(0, 0x0000, 0x0000), &[0xffe1]),
            Gives(A, Mode(5, 2), Nothing, &[0x2fe2, 0x2810]),
            Gives(A, Mode(5, 2), Nothing, &[0x2fe2, 0x2810]),
            Gives(A, Mode(5, 1), Nothing, &[0x2fe1, 0x2800]),
        ],
    ),
    (
        "a line whose transmitter is off",
        &[
            Gives(A, Mode(5, 4), Nothing, &[0x2fe4, 0x2800]),
            Gives(
                B,
                Receive(1, &[1]),
                Block(0x3200, 0x0000),
                &[0x2821, 0x0001],
            ),
            Received(5, 1, &[0x0001]),
            Gives(A, Mode(5, 5), Nothing, &[0x2fe5, 0x2800]),
            Gives(
                B,
                Receive(1, &[1]),
                Block(0x2000, 0x0050),
                &[0x2821, 0x0001, 0x2800],
            ),
        ],
    ),
    (
        "the terminal flag is inhibited until a reset",
        &[
            Act(5, "fault on"),
            Gives(A, Mode(5, 6), Nothing, &[0x2fe6, 0x2800]),
            Gives(A, Mode(5, 1), Nothing, &[0x2fe1, 0x2800]),
            Gives(A, Mode(5, 8), Nothing, &[0x2fe8, 0x2800]),
            Gives(A, Mode(5, 1), Nothing, &[0x2fe1, 0x2801]),
        ],
    ),
    (
        "a busy terminal sends its status alone",
        &[
            Act(5, "busy on"),
            Gives(A, Transmit(2, 1), All(0, 0x0000, 0x0050), &[0x2c41, 0x2808]),
            Gives(
                A,
                Mode(5, 18),
                Block(0x0000, 0x0050),
                &[0x2ff2, 0x2808, 0x2c41],
            ),
        ],
    ),
    (
        "subaddress 30 wraps around and broadcast words stand apart",
        &[
            Gives(
                A,
                Receive(30, &[0xbeef, 0xcafe]),
                Nothing,
                &[0x2bc2, 0xbeef, 0xcafe, 0x2800],
            ),
            Gives(
                A,
                Transmit(30, 2),
                Nothing,
                &[0x2fc2, 0x2800, 0xbeef, 0xcafe],
            ),
            Gives(A, ToAll(1, &[0x00aa]), Nothing, &[0xf821, 0x00aa]),
            Received(5, 1, &[]),
            ReceivedFromAll(5, 1, &[0x00aa]),
            Gives(A, Mode(5, 2), Nothing, &[0x2fe2, 0x2810]),
        ],
    ),
    (
        "an illegal command stores nothing",
        &[
            Act(5, "illegal receive 3 4"),
            Gives(
                A,
                Receive(3, &[1, 2, 3, 4]),
                Nothing,
                &[0x2864, 1, 2, 3, 4, 0x2c00],
            ),
            Received(5, 3, &[]),
        ],
    ),
    (
        "a mode command that no terminal here carries out",
        &[Gives(
            A,
            ModeWith(20, &[0x0000]),
            All(0, 0x0000, 0x0050),
            &[0x2bf4, 0x0000, 0x2c00],
        )],
    ),
];

#[test]
fn messages_of_each_kind(rt: HostRuntime) {
    are_played(&rt, rt.alloc(), &[5], SCRIPTS);
}
