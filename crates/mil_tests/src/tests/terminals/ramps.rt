//! Words that change with each reply that carries them: what is expected is worked out by hand from the rules.
use super::Step::{Act, Answers, IsSilent, PutUp};
use super::{Script, are_played, make, play_all};
use crate::tests::actions::action;
use crate::tests::equal::{are_in, same_in};
use mil_word::Line::{A, B};

/// Each with terminal 5.
const RAMPS: &[Script] = &[
    (
        "a ramp behind a zero",
        &[
            Act("ramp 3 2 0100 0001"),
            Answers(A, 0x2c62, &[], &[0x2800, 0, 0x100]),
            Answers(A, 0x2c62, &[], &[0x2800, 0, 0x101]),
            Answers(A, 0x2c62, &[], &[0x2800, 0, 0x102]),
            PutUp(3, &[0, 0x103]),
        ],
    ),
    (
        "it goes over the last word to the first",
        &[
            Act("ramp 1 1 FFFF 0002"),
            Answers(A, 0x2c21, &[], &[0x2800, 0xffff]),
            Answers(A, 0x2c21, &[], &[0x2800, 1]),
        ],
    ),
    (
        "replies without the word carry none",
        &[
            Act("ramp 3 2 0100 0001"),
            Answers(A, 0x2c61, &[], &[0x2800, 0]),
            Act("busy on"),
            Answers(A, 0x2c62, &[], &[0x2808]),
            Act("busy off"),
            Act("illegal transmit 3 2"),
            Answers(A, 0x2c62, &[], &[0x2c00]),
            Act("legal transmit 3 2"),
            Answers(A, 0x2fe4, &[], &[0x2800]),
            IsSilent(B, 0x2c62, &[]),
            Answers(A, 0x2c42, &[], &[0x2800, 0, 0]),
            Answers(A, 0x2c62, &[], &[0x2800, 0, 0x100]),
        ],
    ),
    (
        "words that are put up end ramps",
        &[
            Act("ramp 3 1 0005 0001"),
            Answers(A, 0x2c61, &[], &[0x2800, 5]),
            Act("transmit 3 00AA 00BB"),
            Answers(A, 0x2c62, &[], &[0x2800, 0xaa, 0xbb]),
            Answers(A, 0x2c62, &[], &[0x2800, 0xaa, 0xbb]),
        ],
    ),
    (
        "a ramp among words, and one set anew",
        &[
            Act("transmit 3 00AA 00CC"),
            Act("ramp 3 2 0001 0001"),
            Answers(A, 0x2c62, &[], &[0x2800, 0xaa, 1]),
            Act("ramp 3 4 0007 0000"),
            Answers(A, 0x2c64, &[], &[0x2800, 0xaa, 2, 0, 7]),
            Act("ramp 3 2 0001 0010"),
            Answers(A, 0x2c64, &[], &[0x2800, 0xaa, 1, 0, 7]),
            Answers(A, 0x2c64, &[], &[0x2800, 0xaa, 0x11, 0, 7]),
        ],
    ),
    (
        "power on goes on with it",
        &[
            Act("ramp 3 1 0100 0001"),
            Answers(A, 0x2c61, &[], &[0x2800, 0x100]),
            Act("power off"),
            IsSilent(A, 0x2c61, &[]),
            Act("power on"),
            Answers(A, 0x2c61, &[], &[0x2800, 0x101]),
        ],
    ),
];

#[test]
fn words_that_change(rt: HostRuntime) {
    are_played(&rt, rt.alloc(), 5, RAMPS);
}

#[test]
fn tells_its_ramps(rt: HostRuntime) {
    let mut terminal = make(&rt, "made", rt.alloc(), 5);
    terminal.act(&action(&rt, "ramp 3 2 0100 0000"));
    same_in(&rt, "ramp", &terminal.ramp(3, 1), &Some(0));
    same_in(&rt, "no ramp", &terminal.ramp(3, 0), &None);
}

#[test]
fn a_saved_terminal_keeps_its_ramps(rt: HostRuntime) {
    let mut terminal = make(&rt, "made", rt.alloc(), 5);
    terminal.act(&action(&rt, "ramp 3 1 0100 0001"));
    let saved = terminal.save().expect(&rt, "saved");
    play_all(
        &rt,
        "on",
        &mut terminal,
        &[
            Answers(A, 0x2c61, &[], &[0x2800, 0x100]),
            Answers(A, 0x2c61, &[], &[0x2800, 0x101]),
        ],
    );
    terminal.restore(&saved);
    are_in(&rt, "back", terminal.transmit_words(3), &[0x100]);
    play_all(
        &rt,
        "again",
        &mut terminal,
        &[Answers(A, 0x2c61, &[], &[0x2800, 0x100])],
    );
}
