//! Jobs whose controller has a host, against worked records.

use crate::tests::jobs::{Played, each_plays};

/// New words, and words that move.
const WORDS: &[Played] = &[
    (
        "channel 1\nterminal 5\nat 2 bc data rx 5 1 00AA\nscript\nrepeat 3 { send A rx 5 1 [0001 0002] }",
        &[
            (None, None, &[0x2822, 0x0001, 0x0002, 0x2800]),
            (None, None, &[0x2822, 0x00aa, 0x0002, 0x2800]),
            (None, None, &[0x2822, 0x00aa, 0x0002, 0x2800]),
        ],
    ),
    (
        "channel 1\nterminal 5\nat 1 bc ramp bmode 17 1 0010 FFFF\nscript\nrepeat 3 { send A bmode 17 [0000] }",
        &[
            (None, None, &[0xfbf1, 0x0010]),
            (None, None, &[0xfbf1, 0x000f]),
            (None, None, &[0xfbf1, 0x000e]),
        ],
    ),
    (
        "channel 1\nterminal 5\nat 1 bc ramp rx 9 1 2 FFFF 0001\nat 1 bc data brx 1 00AA\nscript\n\
         retry 1 send A rx 9 1 [0001 0002] send A rx 9 1 [0003] send A rx 9 1 [0004 0005]",
        &[
            (None, Some((0x1200, 0)), &[0x4822, 0x0001, 0xffff]),
            (None, Some((0x3200, 0)), &[0x4822, 0x0001, 0x0000]),
            (None, None, &[0x4821, 0x0003]),
            (None, None, &[0x4822, 0x0004, 0x0001]),
        ],
    ),
    (
        "channel 1\nterminal 5\nat 3 bc data rx 5 1 0009\nat 1 bc data rx 5 1 0007 0008\n\
         at 2 bc ramp rx 5 1 1 0020 0010\nscript\nrepeat 4 { send A rx 5 1 [0001 0002] }",
        &[
            (None, None, &[0x2822, 0x0007, 0x0008, 0x2800]),
            (None, None, &[0x2822, 0x0020, 0x0008, 0x2800]),
            (None, None, &[0x2822, 0x0009, 0x0008, 0x2800]),
            (None, None, &[0x2822, 0x0009, 0x0008, 0x2800]),
        ],
    ),
];

/// Messages that stand in no frame.
const INSERTED: &[Played] = &[
    (
        "channel 1\nterminal 5\nat 2 bc insert B mode 5 2\nscript\nrepeat 2 { frame 1000 { send A mode 5 1 } }",
        &[
            (Some(0), Some((0, 0x50)), &[0x2fe1, 0x2800]),
            (Some(480), Some((0x2000, 0x50)), &[0x2fe2, 0x2800]),
            (Some(10_000), Some((0, 0x50)), &[0x2fe1, 0x2800]),
        ],
    ),
    (
        "channel 1\nterminal 5\nat 1 bc insert at 5000 A mode 5 1\nat 2 bc insert A mode 5 2\nscript\n",
        &[
            (Some(5000), None, &[0x2fe1, 0x2800]),
            (Some(5480), None, &[0x2fe2, 0x2800]),
        ],
    ),
    (
        "channel 1\nterminal 5\nat 2 bc insert A mode 9 1\nscript\nsend A mode 5 1 if fail { send A mode 5 2 }",
        &[
            (None, None, &[0x2fe1, 0x2800]),
            (None, Some((0x1200, 0)), &[0x4fe1]),
        ],
    ),
    (
        "channel 1\nterminal 5\nat 2 bc insert B mode 5 1\nscript\nretry 2 send A mode 9 1",
        &[
            (None, Some((0x1200, 0)), &[0x4fe1]),
            (None, Some((0x2000, 0x50)), &[0x2fe1, 0x2800]),
            (None, Some((0x3200, 0)), &[0x4fe1]),
            (None, Some((0x1200, 0)), &[0x4fe1]),
        ],
    ),
    (
        "channel 1\nterminal 5\nat 1 bc data rx 5 1 00AA\nat 1 bc insert A rx 5 1 [0001]\n\
         at 1 bc insert A mode 5 2\nscript\nsend A rx 5 1 [0002]",
        &[
            (None, None, &[0x2821, 0x0001, 0x2800]),
            (None, None, &[0x2fe2, 0x2800]),
            (None, None, &[0x2821, 0x00aa, 0x2800]),
        ],
    ),
];

#[test]
fn jobs_whose_controller_has_a_host(rt: HostRuntime) {
    each_plays(&rt, rt.alloc(), WORDS);
    each_plays(&rt, rt.alloc(), INSERTED);
}
