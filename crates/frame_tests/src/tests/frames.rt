//! Frames with a period: when their messages start.
use crate::tests::jobs::Played;

/// The command, the data word and the status word of a message to terminal 5.
const WRITTEN: &[u16] = &[0x2821, 0x0001, 0x2800];

/// The command and the status word of a mode command to terminal 5.
const ASKED: &[u16] = &[0x2FE1, 0x2800];

/// Jobs with frames, and what they send.
pub(crate) const PACED: &[Played] = &[
    (
        "channel 1\nterminal 5\nscript\nrepeat 3 { frame 1000 { send A rx 5 1 [0001] } }",
        &[
            (Some(0), Some((0, 0x50)), WRITTEN),
            (Some(10_000), Some((0, 0x50)), WRITTEN),
            (Some(20_000), Some((0, 0x50)), WRITTEN),
        ],
    ),
    (
        "channel 1\nterminal 5\nscript\nframe 100 { repeat 3 { send A rx 5 1 [0001] } } send A mode 5 1",
        &[
            (Some(0), Some((0, 0x50)), WRITTEN),
            (Some(680), Some((0, 0x50)), WRITTEN),
            (Some(1360), Some((0, 0x50)), WRITTEN),
            (Some(2040), Some((0, 0x50)), ASKED),
        ],
    ),
    (
        "channel 1\nterminal 5\nscript\n\
         frame 10000 { frame 2000 { send A mode 5 1 } frame 2000 { send A mode 5 1 } } send A mode 5 1",
        &[
            (Some(0), Some((0, 0x50)), ASKED),
            (Some(20_000), Some((0, 0x50)), ASKED),
            (Some(100_000), Some((0, 0x50)), ASKED),
        ],
    ),
];
