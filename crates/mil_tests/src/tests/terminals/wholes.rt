//! Data words that a terminal hears by their values, several at once.
use super::Step::{Behind, Command, Data, Quiet, Received, Replies, Status, Values};
use super::{FULL, Script, are_played};
use mil_word::Line::{A, B};

/// Each with terminal 5. A gap of 20 ticks is that of words that follow one another at once.
const SCRIPTS: &[Script] = &[
    (
        "all due words at once",
        &[
            Command(A, 0x2840),
            Values(A, 20, FULL),
            Replies(A, &[0x2800]),
            Received(2, FULL),
        ],
    ),
    (
        "due words in two parts",
        &[
            Command(A, 0x2824),
            Values(A, 20, &[1, 2]),
            Values(A, 20, &[3, 4]),
            Replies(A, &[0x2800]),
            Received(1, &[1, 2, 3, 4]),
        ],
    ),
    (
        "one more than due",
        &[
            Command(A, 0x2823),
            Values(A, 20, &[1, 2]),
            Values(A, 20, &[3, 4]),
            Quiet(A),
            Status(0x2c00),
            Received(1, &[]),
        ],
    ),
    (
        "one less than due",
        &[
            Command(A, 0x2823),
            Values(A, 20, &[1, 2]),
            Quiet(A),
            Status(0x2c00),
            Received(1, &[]),
        ],
    ),
    (
        "words that do not follow at once",
        &[
            Command(A, 0x2823),
            Values(A, 21, &[1, 2, 3]),
            Quiet(A),
            Status(0x2c00),
            Received(1, &[]),
        ],
    ),
    (
        "words on the other line, and no words at all",
        &[
            Command(A, 0x2823),
            Values(B, 20, &[7, 8]),
            Values(A, 40, &[]),
            Values(A, 20, &[1, 2, 3]),
            Replies(A, &[0x2800]),
            Received(1, &[1, 2, 3]),
        ],
    ),
    (
        "behind a word that came alone",
        &[
            Command(A, 0x2823),
            Data(A, 1),
            Values(A, 20, &[2, 3]),
            Replies(A, &[0x2800]),
            Received(1, &[1, 2, 3]),
        ],
    ),
    (
        "where no word is due",
        &[
            Command(A, 0x2c41),
            Values(A, 20, &[1]),
            Quiet(A),
            Status(0x2c00),
        ],
    ),
    (
        "from terminal 7, which was told to send them",
        &[
            Command(A, 0x2822),
            Behind(A, 20, 0x3c22),
            Quiet(A),
            Behind(A, 80, 0x3800),
            Values(A, 20, &[1, 2]),
            Replies(A, &[0x2800]),
            Received(1, &[1, 2]),
        ],
    ),
    (
        "from terminal 7 before its status",
        &[
            Command(A, 0x2822),
            Behind(A, 20, 0x3c22),
            Quiet(A),
            Values(A, 80, &[1, 2]),
            Quiet(A),
            Status(0x2c00),
            Received(1, &[]),
        ],
    ),
];

#[test]
fn words_by_their_values(rt: HostRuntime) {
    are_played(&rt, rt.alloc(), 5, SCRIPTS);
}
