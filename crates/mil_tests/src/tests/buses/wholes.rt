//! Messages of one and of thirty-two data words, which go as a whole, and what a planned fault in their middle makes of
//! them: a word lasts 200 ticks, and a reply starts 60 ticks after the end of the word before it.
use super::Asked::{Between, BetweenAll, Mode, ModeToAllWith, ModeWith, Receive, ToAll, Transmit};
use super::Beside::All;
use super::Flaw::{Add, AddReply, Drop, DropReply, Mask};
use super::Step::{Act, Clock, Gives, GivesParts, Plan, Received, ReceivedFromAll};
use super::{Parts, Script, Step, are_played};
use mil_word::Line::{A, B};

/// Thirty-two words, each another.
const WORDS: &[u16] = &[
    0x8001, 0x8002, 0x8003, 0x8004, 0x8005, 0x8006, 0x8007, 0x8008, 0x8009, 0x800a, 0x800b, 0x800c,
    0x800d, 0x800e, 0x800f, 0x8010, 0x8011, 0x8012, 0x8013, 0x8014, 0x8015, 0x8016, 0x8017, 0x8018,
    0x8019, 0x801a, 0x801b, 0x801c, 0x801d, 0x801e, 0x801f, 0x8020,
];

/// The first fifteen of them.
const FIFTEEN: &[u16] = &[
    0x8001, 0x8002, 0x8003, 0x8004, 0x8005, 0x8006, 0x8007, 0x8008, 0x8009, 0x800a, 0x800b, 0x800c,
    0x800d, 0x800e, 0x800f,
];

/// Those behind the sixteenth.
const LAST: &[u16] = &[
    0x8011, 0x8012, 0x8013, 0x8014, 0x8015, 0x8016, 0x8017, 0x8018, 0x8019, 0x801a, 0x801b, 0x801c,
    0x801d, 0x801e, 0x801f, 0x8020,
];

/// The record of these to subaddress 2 of terminal 5.
const TO_TERMINAL: Parts = &[&[0x2840], WORDS, &[0x2800]];

/// The record of these to subaddress 1 of all.
const TO_ALL: Parts = &[&[0xf820], WORDS];

/// The record of these from subaddress 3 of terminal 5.
const FROM_TERMINAL: Parts = &[&[0x2c60, 0x2800], WORDS];

/// The record of these from subaddress 1 of terminal 7 to subaddress 4 of terminal 3.
const BETWEEN: Parts = &[&[0x1880, 0x3c20, 0x3800], WORDS, &[0x1800]];

/// The record of these from subaddress 1 of terminal 7 to subaddress 4 of all others.
const BETWEEN_ALL: Parts = &[&[0xf880, 0x3c20, 0x3800], WORDS];

/// The first record without the sixteenth of the data words and without a reply.
const TO_TERMINAL_LESS: Parts = &[&[0x2840], FIFTEEN, LAST];

/// The same with a word behind the sixteenth.
const TO_TERMINAL_MORE: Parts = &[&[0x2840], FIFTEEN, &[0x8010, 0x4444], LAST];

/// The same with the last bit of the sixteenth inverted.
const TO_TERMINAL_UNSOUND: Parts = &[&[0x2840], FIFTEEN, &[0x8011], LAST];

/// The record from terminal 5 without the sixteenth of the data words.
const FROM_TERMINAL_LESS: Parts = &[&[0x2c60, 0x2800], FIFTEEN, LAST];

/// The same with a word behind the sixteenth.
const FROM_TERMINAL_MORE: Parts = &[&[0x2c60, 0x2800], FIFTEEN, &[0x8010, 0x4444], LAST];

/// The record of the transfer without the sixteenth of the data words, to which no reply comes.
const BETWEEN_LESS: Parts = &[&[0x1880, 0x3c20, 0x3800], FIFTEEN, LAST];

/// Terminal 5 has the words at subaddress 3.
const PUT_UP_5: Step = Act(
    5,
    "transmit 3 8001 8002 8003 8004 8005 8006 8007 8008 \
     8009 800A 800B 800C 800D 800E 800F 8010 \
     8011 8012 8013 8014 8015 8016 8017 8018 \
     8019 801A 801B 801C 801D 801E 801F 8020",
);

/// Terminal 7 has the words at subaddress 1.
const PUT_UP_7: Step = Act(
    7,
    "transmit 1 8001 8002 8003 8004 8005 8006 8007 8008 \
     8009 800A 800B 800C 800D 800E 800F 8010 \
     8011 8012 8013 8014 8015 8016 8017 8018 \
     8019 801A 801B 801C 801D 801E 801F 8020",
);

/// Without faults, each with terminal 5 alone.
const SCRIPTS: &[Script] = &[
    (
        "one word and thirty-two to a terminal",
        &[
            Gives(
                A,
                Receive(1, &[0xbeef]),
                All(0, 0x0000, 0x0050),
                &[0x2821, 0xbeef, 0x2800],
            ),
            Received(5, 1, &[0xbeef]),
            Clock(660),
            // 20 ticks later, and then 33 words, 60 ticks and a status
            GivesParts(Receive(2, WORDS), All(680, 0x0000, 0x0050), TO_TERMINAL),
            Received(5, 2, WORDS),
            Received(5, 1, &[0xbeef]),
            Clock(7540),
        ],
    ),
    (
        "thirty-two words and one from a terminal",
        &[
            PUT_UP_5,
            GivesParts(Transmit(3, 32), All(0, 0x0000, 0x0050), FROM_TERMINAL),
            Clock(6860),
            Gives(
                B,
                Transmit(3, 1),
                All(6880, 0x2000, 0x0050),
                &[0x2c61, 0x2800, 0x8001],
            ),
            Clock(7540),
        ],
    ),
    (
        "mode commands with a data word",
        &[
            Gives(
                A,
                ModeWith(17, &[0x1234]),
                All(0, 0x0000, 0x0050),
                &[0x2bf1, 0x1234, 0x2800],
            ),
            Clock(660),
            Act(5, "vector ABCD"),
            Gives(
                A,
                Mode(5, 16),
                All(680, 0x0000, 0x0050),
                &[0x2ff0, 0x2800, 0xabcd],
            ),
            Clock(1340),
            Act(5, "selftest 5A5A"),
            Gives(A, Mode(5, 3), All(1360, 0x0000, 0x0050), &[0x2fe3, 0x2800]),
            Clock(1820),
            Gives(
                A,
                Mode(5, 19),
                All(1840, 0x0000, 0x0050),
                &[0x2ff3, 0x2800, 0x5a5a],
            ),
            Clock(2500),
            Gives(
                A,
                ModeToAllWith(17, &[0x4321]),
                All(2520, 0x0000, 0x0000),
                &[0xfbf1, 0x4321],
            ),
            Clock(2920),
        ],
    ),
];

/// Without a fault, with the terminals 3 and 7.
const TRANSFERS: &[Script] = &[(
    "thirty-two words between terminals, and to all others",
    &[
        PUT_UP_7,
        GivesParts(Between(32), All(0, 0x0800, 0x5050), BETWEEN),
        Received(3, 4, WORDS),
        // 36 words, and 60 ticks before each status
        Clock(7320),
        GivesParts(BetweenAll(32), All(7340, 0x0800, 0x0050), BETWEEN_ALL),
        ReceivedFromAll(3, 4, WORDS),
        Received(7, 4, &[]),
        ReceivedFromAll(7, 4, &[]),
        Clock(14400),
    ],
)];

/// Without a fault, with the terminals 3 and 5.
const BROADCASTS: &[Script] = &[(
    "thirty-two words to all",
    &[
        GivesParts(ToAll(1, WORDS), All(0, 0x0000, 0x0000), TO_ALL),
        ReceivedFromAll(3, 1, WORDS),
        ReceivedFromAll(5, 1, WORDS),
        Received(5, 1, &[]),
        Clock(6600),
        // 160 ticks later, since no reply ended the message before
        Gives(A, Mode(5, 2), All(6760, 0x0000, 0x0050), &[0x2fe2, 0x2810]),
    ],
)];

/// Between two that go as a whole, a message with a fault, each with terminal 5 alone.
const FAULTS: &[Script] = &[
    (
        "the sixteenth of the words to a terminal is dropped",
        &[
            Plan(2, Drop(16)),
            GivesParts(Receive(2, WORDS), All(0, 0x0000, 0x0050), TO_TERMINAL),
            Clock(6860),
            GivesParts(
                Receive(2, WORDS),
                All(6880, 0x1220, 0x0000),
                TO_TERMINAL_LESS,
            ),
            Received(5, 2, WORDS),
            Clock(13280),
            Gives(
                A,
                Receive(2, &[7]),
                All(13440, 0x0000, 0x0050),
                &[0x2841, 0x0007, 0x2800],
            ),
            Received(5, 2, &[7]),
        ],
    ),
    (
        "a word is added behind the sixteenth to a terminal",
        &[
            Plan(1, Add(16, 0x4444)),
            GivesParts(Receive(2, WORDS), All(0, 0x1220, 0x0000), TO_TERMINAL_MORE),
            Received(5, 2, &[]),
            Clock(6800),
            GivesParts(Receive(2, WORDS), All(6960, 0x0000, 0x0050), TO_TERMINAL),
        ],
    ),
    (
        "the last bit of the sixteenth to a terminal is inverted in its first half",
        &[
            Plan(1, Mask(16, 8)),
            GivesParts(
                Receive(2, WORDS),
                All(0, 0x1208, 0x0000),
                TO_TERMINAL_UNSOUND,
            ),
            Received(5, 2, &[]),
            Clock(6600),
        ],
    ),
    (
        "the second of three words to all is dropped",
        &[
            Plan(1, Drop(2)),
            Gives(
                A,
                ToAll(1, &[1, 2, 3]),
                All(0, 0x1020, 0x0000),
                &[0xf823, 1, 3],
            ),
            ReceivedFromAll(5, 1, &[]),
            Clock(600),
        ],
    ),
    (
        "the sixteenth of the words from a terminal is dropped",
        &[
            PUT_UP_5,
            Plan(1, DropReply(16)),
            GivesParts(Transmit(3, 32), All(0, 0x1020, 0x0050), FROM_TERMINAL_LESS),
            Clock(6660),
            GivesParts(Transmit(3, 32), All(6820, 0x0000, 0x0050), FROM_TERMINAL),
        ],
    ),
    (
        "a word is added behind the sixteenth from a terminal",
        &[
            PUT_UP_5,
            Plan(1, AddReply(16, 0x4444)),
            GivesParts(Transmit(3, 32), All(0, 0x1020, 0x0050), FROM_TERMINAL_MORE),
            Clock(7060),
        ],
    ),
];

/// The same with the terminals 3 and 7.
const FAULTS_OF_TRANSFERS: &[Script] = &[(
    "the sixteenth of the words between terminals is dropped",
    &[
        PUT_UP_7,
        Plan(1, DropReply(16)),
        GivesParts(Between(32), All(0, 0x1a20, 0x0050), BETWEEN_LESS),
        Received(3, 4, &[]),
        Clock(6860),
        GivesParts(Between(32), All(7020, 0x0800, 0x5050), BETWEEN),
        Received(3, 4, WORDS),
    ],
)];

#[test]
fn messages_that_go_as_a_whole(rt: HostRuntime) {
    are_played(&rt, rt.alloc(), &[5], SCRIPTS);
    are_played(&rt, rt.alloc(), &[3, 7], TRANSFERS);
    are_played(&rt, rt.alloc(), &[3, 5], BROADCASTS);
}

#[test]
fn faults_in_their_middle(rt: HostRuntime) {
    are_played(&rt, rt.alloc(), &[5], FAULTS);
    are_played(&rt, rt.alloc(), &[3, 7], FAULTS_OF_TRANSFERS);
}
