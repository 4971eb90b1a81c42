//! Terminals of other kinds: what is expected is worked out by hand from the rules.
use super::Step::{
    Act, Answers, Behind, Command, Data, IsSilent, LastCommand, Quiet, Received, RepliesAfter,
    Status, Values,
};
use super::{Script, are_played, make};
use crate::tests::actions::action;
use crate::tests::equal::same_in;
use mil_word::Line::{A, B};

/// Each with terminal 5.
const MARKED: &[Script] = &[
    (
        "a marked mode code",
        &[
            Answers(A, 0x2fe1, &[], &[0x2800]),
            Act("illegal mode transmit 1"),
            Answers(A, 0x2fe1, &[], &[0x2c00]),
            Answers(A, 0x2c01, &[], &[0x2c00]),
            Act("legal mode transmit 1"),
            Answers(A, 0x2fe1, &[], &[0x2800]),
        ],
    ),
    (
        "a mark counts for its direction alone",
        &[
            Act("illegal mode receive 17"),
            Answers(A, 0x2bf1, &[7], &[0x2c00]),
            Act("illegal mode receive 1"),
            Answers(A, 0x2fe1, &[], &[0x2800]),
        ],
    ),
    (
        "a marked broadcast",
        &[
            Act("illegal mode transmit 1"),
            IsSilent(A, 0xffe1, &[]),
            Answers(A, 0x2fe2, &[], &[0x2c10]),
        ],
    ),
    (
        "a reserved code stays illegal",
        &[
            Act("legal mode transmit 9"),
            Answers(A, 0x2fe9, &[], &[0x2c00]),
        ],
    ),
    (
        "marked questions",
        &[
            Act("illegal mode transmit 2"),
            Act("illegal mode transmit 18"),
            Answers(A, 0x2fe2, &[], &[0x2c00]),
            LastCommand(0x2fe2),
            Answers(A, 0x2fe1, &[], &[0x2800]),
            Answers(A, 0x2ff2, &[], &[0x2c00]),
            LastCommand(0x2fe1),
        ],
    ),
    (
        "a marked question with a word too many leaves the status",
        &[
            Act("illegal mode transmit 2"),
            Answers(A, 0x2fe1, &[], &[0x2800]),
            IsSilent(A, 0x2fe2, &[1]),
            Status(0x2800),
        ],
    ),
];

const BROADCAST: &[Script] = &[
    (
        "no broadcast",
        &[
            Act("broadcast off"),
            IsSilent(A, 0xffe1, &[]),
            Answers(A, 0x2fe2, &[], &[0x2800]),
            LastCommand(0x2fe2),
        ],
    ),
    (
        "a broadcast is an item",
        &[
            Act("broadcast off"),
            Command(A, 0x2821),
            Behind(A, 20, 0xffe1),
            Quiet(A),
            Status(0x2c00),
        ],
    ),
    (
        "a window that a broadcast opened",
        &[
            Command(A, 0xffe1),
            Act("broadcast off"),
            Quiet(A),
            Status(0x2810),
        ],
    ),
];

const HOSTS: &[Script] = &[
    (
        "service is asked for once",
        &[
            Act("vector 00AA"),
            Act("service once"),
            Answers(A, 0x2fe1, &[], &[0x2900]),
            Answers(A, 0x2ff0, &[], &[0x2900, 0xaa]),
            Answers(A, 0x2fe1, &[], &[0x2800]),
        ],
    ),
    (
        "a busy terminal keeps the vector word back",
        &[
            Act("service once"),
            Act("busy on"),
            Answers(A, 0x2ff0, &[], &[0x2908]),
            Answers(A, 0x2fe1, &[], &[0x2908]),
        ],
    ),
    (
        "service on has no end",
        &[
            Act("service once"),
            Act("service on"),
            Answers(A, 0x2ff0, &[], &[0x2900, 0]),
            Answers(A, 0x2fe1, &[], &[0x2900]),
        ],
    ),
    (
        "the latest BIT word",
        &[
            Act("bit 0F0F"),
            Answers(A, 0x2ff3, &[], &[0x2800, 0xf0f]),
            Act("selftest 00AA"),
            Answers(A, 0x2fe3, &[], &[0x2800]),
            Answers(A, 0x2ff3, &[], &[0x2800, 0xaa]),
            Act("bit 1234"),
            Answers(A, 0x2ff3, &[], &[0x2800, 0x1234]),
        ],
    ),
    (
        "the latest of gap and response",
        &[
            Act("gap 30"),
            Command(A, 0x2fe1),
            RepliesAfter(A, 30, &[0x2800]),
            Act("response 100"),
            Command(A, 0x2fe1),
            RepliesAfter(A, 100, &[0x2800]),
            Act("gap 255"),
            Command(A, 0x2fe1),
            RepliesAfter(A, 255, &[0x2800]),
        ],
    ),
];

const POWER: &[Script] = &[
    (
        "off and on",
        &[
            Answers(A, 0x2821, &[1], &[0x2800]),
            Act("power off"),
            IsSilent(A, 0x2821, &[2]),
            Act("power on"),
            Answers(A, 0x2ff2, &[], &[0x2800, 0]),
            Received(1, &[]),
        ],
    ),
    (
        "off it tells what it told",
        &[
            Answers(A, 0x2821, &[1], &[0x2800]),
            IsSilent(A, 0xffe1, &[]),
            Act("power off"),
            IsSilent(B, 0x2fe1, &[]),
            LastCommand(0xffe1),
            Status(0x2810),
            Received(1, &[1]),
        ],
    ),
    (
        "a window that was open",
        &[
            Command(A, 0x2821),
            Act("power off"),
            Data(A, 1),
            Values(A, 20, &[2]),
            Quiet(A),
            Act("power on"),
            Quiet(A),
            Status(0x2800),
            LastCommand(0),
        ],
    ),
    (
        "on again while it is on",
        &[
            Answers(A, 0x2821, &[1], &[0x2800]),
            Act("power on"),
            Received(1, &[]),
            LastCommand(0),
        ],
    ),
    (
        "transmitters and inhibition are as at first",
        &[
            Act("fault on"),
            Answers(A, 0x2fe4, &[], &[0x2801]),
            Answers(A, 0x2fe6, &[], &[0x2800]),
            IsSilent(B, 0x2fe1, &[]),
            Act("power on"),
            Answers(B, 0x2fe1, &[], &[0x2801]),
        ],
    ),
    (
        "what the host set stays",
        &[
            Act("vector 00AA"),
            Act("transmit 1 0007"),
            Act("bit 0F0F"),
            Act("selftest 00BB"),
            Act("illegal mode transmit 1"),
            Act("service once"),
            Answers(A, 0x2fe3, &[], &[0x2900]),
            Answers(A, 0x2ff3, &[], &[0x2900, 0xbb]),
            Act("power off"),
            Act("busy on"),
            Act("busy off"),
            Act("power on"),
            Answers(A, 0x2ff3, &[], &[0x2900, 0xf0f]),
            Answers(A, 0x2c21, &[], &[0x2900, 7]),
            Answers(A, 0x2fe1, &[], &[0x2d00]),
            Answers(A, 0x2ff0, &[], &[0x2900, 0xaa]),
            Act("power on"),
            Answers(A, 0x2ff0, &[], &[0x2800, 0xaa]),
        ],
    ),
];

#[test]
fn marks_of_mode_codes(rt: HostRuntime) {
    are_played(&rt, rt.alloc(), 5, MARKED);
}

#[test]
fn terminals_without_broadcast(rt: HostRuntime) {
    are_played(&rt, rt.alloc(), 5, BROADCAST);
}

#[test]
fn hosts_of_other_kinds(rt: HostRuntime) {
    are_played(&rt, rt.alloc(), 5, HOSTS);
}

#[test]
fn power_off_and_on(rt: HostRuntime) {
    are_played(&rt, rt.alloc(), 5, POWER);
}

#[test]
fn tells_what_its_host_set(rt: HostRuntime) {
    let mut terminal = make(&rt, "made", rt.alloc(), 5);
    for text in [
        "gap 30",
        "service once",
        "broadcast off",
        "illegal mode receive 17",
        "power off",
    ] {
        terminal.act(&action(&rt, text));
    }
    let set = terminal.conditions_set();
    same_in(&rt, "gap", &set.gap, &Some(30));
    same_in(&rt, "once", &set.once, &true);
    same_in(&rt, "service", &set.service, &true);
    same_in(&rt, "busy", &set.busy, &false);
    same_in(&rt, "broadcast", &set.broadcast, &false);
    same_in(&rt, "off", &terminal.is_off(), &true);
    same_in(&rt, "mark", &terminal.marks_mode(false, 17), &true);
    same_in(&rt, "no mark", &terminal.marks_mode(true, 17), &false);
}
