//! Terminals that are deaf or mute on a line.
use super::Asked::{Between, Mode, Receive, ToAll};
use super::Beside::{Block, Nothing};
use super::Step::{Act, Gives, Received, ReceivedFromAll};
use super::{Script, are_played};
use mil_word::Line::{A, B};

/// Each with terminal 5 alone.
const SCRIPTS: &[Script] = &[
    (
        "a mute terminal acts and is not heard",
        &[
            Gives(A, Mode(5, 1), Block(0x0000, 0x0050), &[0x2fe1, 0x2800]),
            Act(5, "mute A on"),
            Gives(A, Mode(5, 1), Block(0x1200, 0x0000), &[0x2fe1]),
            Gives(
                A,
                Receive(1, &[0x0007]),
                Block(0x1200, 0x0000),
                &[0x2821, 0x0007],
            ),
            Received(5, 1, &[0x0007]),
            Gives(B, Mode(5, 1), Block(0x2000, 0x0050), &[0x2fe1, 0x2800]),
            Act(5, "mute A off"),
            Gives(A, Mode(5, 1), Block(0x0000, 0x0050), &[0x2fe1, 0x2800]),
        ],
    ),
    (
        "a deaf terminal meets nothing on that line",
        &[
            Act(5, "deaf A on"),
            Gives(
                A,
                Receive(1, &[0x0001]),
                Block(0x1200, 0x0000),
                &[0x2821, 0x0001],
            ),
            Received(5, 1, &[]),
            Gives(
                B,
                Receive(1, &[0x0001]),
                Block(0x2000, 0x0050),
                &[0x2821, 0x0001, 0x2800],
            ),
            Received(5, 1, &[0x0001]),
            Gives(A, ToAll(2, &[0x00aa]), Nothing, &[0xf841, 0x00aa]),
            ReceivedFromAll(5, 2, &[]),
            Act(5, "deaf A off"),
            Gives(A, ToAll(2, &[0x00aa]), Nothing, &[0xf841, 0x00aa]),
            ReceivedFromAll(5, 2, &[0x00aa]),
        ],
    ),
    (
        "deaf on both lines, and on one again",
        &[
            Act(5, "deaf A on"),
            Act(5, "deaf B on"),
            Gives(B, Mode(5, 1), Block(0x3200, 0x0000), &[0x2fe1]),
            Act(5, "deaf B off"),
            Gives(A, Mode(5, 1), Block(0x1200, 0x0000), &[0x2fe1]),
            Gives(B, Mode(5, 1), Block(0x2000, 0x0050), &[0x2fe1, 0x2800]),
        ],
    ),
];

/// With the terminals 3 and 7.
const TRANSFERS: &[Script] = &[(
    "no transfer from a mute sender",
    &[
        Act(7, "transmit 1 1111 2222"),
        Act(7, "mute A on"),
        Gives(A, Between(2), Block(0x1a00, 0x0000), &[0x1882, 0x3c22]),
        Received(3, 4, &[]),
        Act(7, "mute A off"),
        Gives(
            A,
            Between(2),
            Block(0x0800, 0x5050),
            &[0x1882, 0x3c22, 0x3800, 0x1111, 0x2222, 0x1800],
        ),
        Received(3, 4, &[0x1111, 0x2222]),
    ],
)];

#[test]
fn failing_terminals(rt: HostRuntime) {
    are_played(&rt, rt.alloc(), &[5], SCRIPTS);
    are_played(&rt, rt.alloc(), &[3, 7], TRANSFERS);
}
