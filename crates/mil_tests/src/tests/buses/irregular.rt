//! Messages with planned faults that the standard does not allow on the line: early replies, pauses between words, and
//! senders that go on.
use super::Asked::{Between, Mode, ModeToAll, Receive, Transmit};
use super::Beside::{All, Block, Nothing};
use super::Flaw::{Add, Babble, Drop, DropReply, Early, Late, Mask, Mute, Pause};
use super::Step::{Clock, Gives, Plan, Received};
use super::{Script, are_played};
use mil_word::Line::A;
use std::process::Abort;

/// Each with terminal 5 alone.
const REPLIES: &[Script] = &[
    (
        "a reply that is early",
        &[
            Plan(1, Early(30)),
            Gives(A, Mode(5, 1), All(0, 0x0000, 0x001e), &[0x2fe1, 0x2800]),
            // its gap is 1 µs more than that of words that follow at once
            Clock(410),
        ],
    ),
    (
        "the last gap of a reply counts",
        &[
            Plan(1, Late(170)),
            Plan(1, Early(39)),
            Plan(2, Early(21)),
            Plan(2, Late(121)),
            Gives(A, Mode(5, 1), Block(0x0000, 0x0027), &[0x2fe1, 0x2800]),
            Gives(A, Mode(5, 1), Block(0x0000, 0x0079), &[0x2fe1, 0x2800]),
            Gives(A, Mode(5, 1), Block(0x0000, 0x0050), &[0x2fe1, 0x2800]),
        ],
    ),
    (
        "a sender that goes on",
        &[
            Plan(1, Babble(1, 3, 0)),
            Gives(
                A,
                Transmit(1, 2),
                All(0, 0x1020, 0x0050),
                &[0x2c22, 0x2800, 0, 0, 0, 0, 0],
            ),
        ],
    ),
    (
        "a sender goes on behind a word that is dropped",
        &[
            Plan(1, DropReply(2)),
            Plan(1, Babble(1, 2, 0xaa)),
            Gives(
                A,
                Transmit(1, 2),
                Block(0x1020, 0x0050),
                &[0x2c22, 0x2800, 0, 0xaa, 0xaa],
            ),
        ],
    ),
    (
        "words that are added, then those of senders that go on",
        &[
            Plan(1, Babble(0, 1, 0xbbbb)),
            Plan(1, Add(1, 0xaaaa)),
            Plan(1, Babble(0, 2, 0xcccc)),
            Gives(
                A,
                Receive(1, &[1]),
                Block(0x1220, 0x0000),
                &[0x2821, 1, 0xaaaa, 0xbbbb, 0xcccc, 0xcccc],
            ),
            Received(5, 1, &[]),
        ],
    ),
    (
        "a reply that is muted does not go on",
        &[
            Plan(1, Babble(1, 3, 0)),
            Plan(1, Mute),
            Gives(A, Transmit(1, 2), Block(0x1200, 0x0000), &[0x2c22]),
        ],
    ),
    (
        "no word past the fortieth",
        &[
            Plan(1, Babble(0, 39, 0)),
            Gives(A, Mode(5, 1), Block(0x1220, 0x0000), FORTY),
            Plan(2, Babble(0, 40, 0)),
            Gives(A, Mode(5, 1), Block(0x1220, 0x0000), FORTY),
            Plan(3, Babble(1, 38, 0)),
            Gives(A, Mode(5, 1), Block(0x1020, 0x0050), ANSWERED),
            Plan(4, Babble(1, 40, 0)),
            Gives(A, Mode(5, 1), Block(0x1020, 0x0050), ANSWERED),
        ],
    ),
];

/// A command, and 39 data words.
const FORTY: &[u16] = &[
    0x2fe1, 0, 0, 0, 0, 0, 0, 0, 0, 0, 0, 0, 0, 0, 0, 0, 0, 0, 0, 0, 0, 0, 0, 0, 0, 0, 0, 0, 0, 0,
    0, 0, 0, 0, 0, 0, 0, 0, 0, 0,
];

/// A command, a status word, and 38 data words.
const ANSWERED: &[u16] = &[
    0x2fe1, 0x2800, 0, 0, 0, 0, 0, 0, 0, 0, 0, 0, 0, 0, 0, 0, 0, 0, 0, 0, 0, 0, 0, 0, 0, 0, 0, 0,
    0, 0, 0, 0, 0, 0, 0, 0, 0, 0, 0, 0,
];

/// Each with terminal 5 alone.
const PAUSES: &[Script] = &[
    (
        "a pause before a word of the controller",
        &[
            Plan(1, Pause(0, 1, 60)),
            Gives(
                A,
                Receive(1, &[1, 2]),
                All(0, 0x1600, 0x0000),
                &[0x2822, 1, 2],
            ),
            // three words, and a gap of 60 in the place of 20
            Clock(640),
            Received(5, 1, &[]),
            Gives(A, Mode(5, 2), Nothing, &[0x2fe2, 0x2c00]),
        ],
    ),
    (
        "a pause before a word of a reply",
        &[
            Plan(1, Pause(1, 1, 21)),
            Gives(
                A,
                Transmit(1, 2),
                All(0, 0x1400, 0x0050),
                &[0x2c22, 0x2800, 0, 0],
            ),
            Clock(861),
        ],
    ),
    (
        "the last pause at a place counts",
        &[
            Plan(1, Pause(1, 2, 255)),
            Plan(1, Pause(1, 2, 22)),
            Gives(
                A,
                Transmit(1, 2),
                Block(0x1400, 0x0050),
                &[0x2c22, 0x2800, 0, 0],
            ),
            Clock(862),
        ],
    ),
    (
        "a pause before the word that is the first of its run",
        &[
            Plan(1, DropReply(0)),
            Plan(1, Pause(1, 1, 60)),
            Gives(A, Transmit(1, 2), Block(0x1030, 0x0050), &[0x2c22, 0, 0]),
            Clock(660),
        ],
    ),
    (
        "a pause before a word that is dropped or does not come",
        &[
            Plan(1, Pause(0, 1, 60)),
            Plan(1, Drop(1)),
            Plan(1, Pause(0, 2, 60)),
            Gives(A, Receive(1, &[1]), Block(0x1220, 0x0000), &[0x2821]),
            Clock(200),
        ],
    ),
    (
        "a pause in a reply that is not due",
        &[
            // the command to all becomes one to terminal 5, to transmit a word from subaddress 1
            Plan(1, Mask(0, 0x3_cc3f_c003)),
            Plan(1, Pause(1, 1, 60)),
            Gives(A, ModeToAll(1), Block(0x1010, 0x0050), &[0x2c21, 0x2800, 0]),
            Clock(700),
        ],
    ),
];

/// Each with the terminals 3 and 7.
const TRANSFERS: &[Script] = &[
    (
        "a pause between the commands of a transfer",
        &[
            Plan(1, Pause(0, 1, 21)),
            Gives(
                A,
                Between(1),
                Block(0x1e00, 0x0050),
                &[0x1881, 0x3c21, 0x3800, 0],
            ),
            Gives(A, Mode(3, 2), Nothing, &[0x1fe2, 0x1c00]),
        ],
    ),
    (
        "a pause before a word that is transferred",
        &[
            Plan(1, Pause(1, 1, 30)),
            Gives(
                A,
                Between(1),
                Block(0x1e00, 0x0050),
                &[0x1881, 0x3c21, 0x3800, 0],
            ),
            Received(3, 4, &[]),
        ],
    ),
    (
        "a sender that goes on in a transfer",
        &[
            Plan(1, Babble(1, 1, 7)),
            Gives(
                A,
                Between(1),
                Block(0x1a20, 0x0050),
                &[0x1881, 0x3c21, 0x3800, 0, 7],
            ),
            Received(3, 4, &[]),
        ],
    ),
    (
        "a receiver that goes on in a transfer",
        &[
            Plan(1, Babble(2, 2, 7)),
            Gives(
                A,
                Between(1),
                Block(0x1820, 0x5050),
                &[0x1881, 0x3c21, 0x3800, 0, 0x1800, 7, 7],
            ),
            Received(3, 4, &[0]),
        ],
    ),
];

#[test]
fn replies_out_of_the_standard(rt: HostRuntime) {
    are_played(&rt, rt.alloc(), &[5], REPLIES);
}

#[test]
fn words_behind_pauses(rt: HostRuntime) {
    are_played(&rt, rt.alloc(), &[5], PAUSES);
    are_played(&rt, rt.alloc(), &[3, 7], TRANSFERS);
}
