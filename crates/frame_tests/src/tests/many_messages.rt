//! Lines of a job that speak of many messages: `faults` and `series`.
use crate::tests::job_refusals::Told;
use crate::tests::jobs::Played;

/// What series place at subaddress 3 of terminal 5, which is asked for it: the words of five messages, the wrap at
/// 65,536, and actions at one message in the order of the lines.
pub(crate) const SERIES: &[Played] = &[
    (
        "channel 1\nterminal 5\nseries 1 5 2 5 3 0010 FFFF\nscript\nrepeat 5 { send A tx 5 3 1 }",
        &[
            (None, None, &[0x2c61, 0x2800, 0x10]),
            (None, None, &[0x2c61, 0x2800, 0x10]),
            (None, None, &[0x2c61, 0x2800, 0xf]),
            (None, None, &[0x2c61, 0x2800, 0xf]),
            (None, None, &[0x2c61, 0x2800, 0xe]),
        ],
    ),
    (
        "channel 1\nterminal 5\nseries 2 5 2 5 3 00aa 0001\nscript\nrepeat 5 { send A tx 5 3 1 }",
        &[
            (None, None, &[0x2c61, 0x2800, 0]),
            (None, None, &[0x2c61, 0x2800, 0xaa]),
            (None, None, &[0x2c61, 0x2800, 0xaa]),
            (None, None, &[0x2c61, 0x2800, 0xab]),
            (None, None, &[0x2c61, 0x2800, 0xab]),
        ],
    ),
    (
        "channel 1\nterminal 5\nseries 1 3 1 5 3 FFFF 0002\nscript\nrepeat 3 { send A tx 5 3 1 }",
        &[
            (None, None, &[0x2c61, 0x2800, 0xffff]),
            (None, None, &[0x2c61, 0x2800, 1]),
            (None, None, &[0x2c61, 0x2800, 3]),
        ],
    ),
    (
        "channel 1\nterminal 5\nat 1 5 transmit 3 AAAA\nseries 1 1 1 5 3 0001 0000\nscript\nsend A tx 5 3 1",
        &[(None, None, &[0x2c61, 0x2800, 1])],
    ),
    (
        "channel 1\nterminal 5\nseries 1 1 1000000 5 3 0001 0000\nat 1 5 transmit 3 AAAA\nscript\nsend A tx 5 3 1",
        &[(None, None, &[0x2c61, 0x2800, 0xaaaa])],
    ),
];

/// A terminal that does not answer three of five messages, and one that does not answer each second.
pub(crate) const MUTED: &[Played] = &[
    (
        "channel 1\nterminal 5\nfaults 2 4 1 mute 1\nscript\nrepeat 5 { send A mode 5 1 }",
        &[
            (None, Some((0, 0x50)), &[0x2fe1, 0x2800]),
            (None, Some((0x1200, 0)), &[0x2fe1]),
            (None, Some((0x1200, 0)), &[0x2fe1]),
            (None, Some((0x1200, 0)), &[0x2fe1]),
            (None, Some((0, 0x50)), &[0x2fe1, 0x2800]),
        ],
    ),
    (
        "channel 1\nterminal 5\nfaults 1 99 2 mute 1\nscript\nrepeat 3 { send A mode 5 1 }",
        &[
            (None, Some((0x1200, 0)), &[0x2fe1]),
            (None, Some((0, 0x50)), &[0x2fe1, 0x2800]),
            (None, Some((0x1200, 0)), &[0x2fe1]),
        ],
    ),
];

/// Lines that are refused.
pub(crate) const REFUSED: &[Told] = &[
    ("faults 1 5 mute 1", "J1 line 1"),
    ("faults 1 5 1 mute", "J1 line 1"),
    ("faults 1 5 1 mute 1 1", "J1 line 1"),
    ("faults 1 5 1 hide 1", "J1 line 1"),
    ("faults 0 0 0 add 0 0 e 0001", "J1 line 1"),
    ("faults 0 5 1 mute 1", "J2 line 1"),
    ("faults 1 1000001 1 mute 1", "J2 line 1"),
    ("faults 5 4 1 mute 1", "J2 line 1"),
    ("faults 1 5 0 mute 1", "J2 line 1"),
    ("faults 1 5 1000001 mute 1", "J2 line 1"),
    ("faults 1 x 1 mute 1", "J2 line 1"),
    ("faults 1 5 1 add 0 0 c 001", "J2 line 1"),
    ("faults 0 5 1 mute 0", "J2 line 1"),
    ("faults 1 5 1 mute 0", "J6 line 1 L2"),
    ("faults 1 5 1 late 1 120", "J6 line 1 L2"),
    ("faults 1 5 1 mask 0 0 0000000000", "J6 line 1 L2"),
    (
        "fault 3 mute 1\nfault 3 mute 1\nfaults 3 3 9 mute 1\nfault 3 mute 1\nfaults 1 5 1 mute 1",
        "J6 line 5 L1",
    ),
    (
        "faults 3 4 1 mute 1\nfaults 3 4 1 mute 1\nfaults 3 4 1 mute 1\nfaults 3 4 1 mute 1\nfaults 3 5 2 mute 0",
        "J6 line 5 L1",
    ),
    (
        "faults 3 4 1 mute 1\nfaults 3 4 1 mute 1\nfaults 3 4 1 mute 1\nfaults 3 4 1 mute 1\nfaults 1 5 2 mute 0",
        "J6 line 5 L2",
    ),
    (
        "faults 3 4 1 mute 1\nfaults 3 4 1 mute 1\nfaults 3 4 1 mute 1\nfaults 3 4 1 mute 1\nfaults 1 5 4 mute 1\n\
         script",
        "J3 line 6",
    ),
    ("terminal 5\nseries 5 1 1 5 3 0000 0001", "J2 line 2"),
    ("terminal 5\nseries 0 1 1 5 3 0000 0001", "J2 line 2"),
    ("terminal 5\nseries 1 1 0 5 3 0000 0001", "J2 line 2"),
    ("terminal 5\nseries 1 1000001 1 5 3 0000 0001", "J2 line 2"),
    ("terminal 5\nseries 1 5 1 31 3 0000 0001", "J2 line 2"),
    ("terminal 5\nseries 1 5 1 5 0 0000 0001", "J2 line 2"),
    ("terminal 5\nseries 1 5 1 5 30 0000 0001", "J2 line 2"),
    ("terminal 5\nseries 1 5 1 5 3 000 0001", "J2 line 2"),
    ("terminal 5\nseries 1 5 1 5 3 0000 00001", "J2 line 2"),
    ("terminal 5\nseries 1 5 1 5 3 0000", "J1 line 2"),
    ("terminal 5\nseries 1 5 1 5 3 0000 0001 0002", "J1 line 2"),
    ("series 1 5 1 5 3 0000 0001\nterminal 5", "J4 line 1"),
    // a million actions come from the series of a job at most: of two lines, of two with one too many, and of one line
    // beside other actions
    (
        "terminal 5\nseries 7 7 1 5 3 0000 0001\nseries 1 999999 1 5 3 0000 0001\nseries 7 7 1 6 3 0000 0001",
        "J2 line 4",
    ),
    (
        "terminal 5\nseries 7 8 1 5 3 0000 0001\nseries 1 999999 1 5 3 0000 0001",
        "J2 line 3",
    ),
    (
        "terminal 5\nat 1 5 busy on\nseries 1 1000000 1 5 3 0000 0001\nat 1 5 busy on\nscript",
        "J3 line 5",
    ),
];
