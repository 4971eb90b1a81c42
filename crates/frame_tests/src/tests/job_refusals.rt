//! The first fault of a text, with its line.
use crate::tests::equal::is_fault;
use crate::tests::many_messages::REFUSED;
use crate::tests::text_faults::repeated;
use job_file::read_job;
use std::alloc::Global;
use std::process::Abort;

/// A text, and what is printed of its fault.
pub(crate) type Told = (&'static str, &'static str);

/// Faults of lines.
const LINES: &[Told] = &[
    ("channel 1\nterminal 5\nterminal 5", "J4 line 3"),
    ("terminal 5\nscript", "J3 line 2"),
    ("channel 1\nterminal 5", "J3 line 3"),
    ("channel 1\nterminal 5\n", "J3 line 3"),
    ("", "J3 line 1"),
    ("channel 1\nterminal 5\nfault 1 late 1 120", "J6 line 3 L2"),
    ("channel 1\nat 1 5 busy on", "J4 line 2"),
    ("channel 1\nchannel 2\nscript", "J3 line 2"),
    ("start 1\nchannel 1\nstart 1\nscript", "J3 line 3"),
    ("# a note\n\n  \nchannel 0\nscript", "J2 line 4"),
    ("channel 65536\nscript", "J2 line 1"),
    ("channel 00000001\nscript", "J2 line 1"),
    ("channel 1 2\nscript", "J1 line 1"),
    ("channel x y", "J1 line 1"),
    ("channels 1", "J1 line 1"),
    ("start 140737488355329\nscript", "J2 line 1"),
    ("start 0000000000000001\nscript", "J2 line 1"),
    ("terminal 31", "J2 line 1"),
    ("channel 1\nscript A", "J1 line 2"),
    ("channel\t1", "J1 line 1"),
    ("channel 1\r\nscript", "J2 line 1"),
];

/// Faults of actions, and of planned faults.
const ACTIONS: &[Told] = &[
    ("terminal 5\nat 1 5", "J1 line 2"),
    ("terminal 5\nat 1", "J1 line 2"),
    ("terminal 5\nat 0 5 busy on", "J2 line 2"),
    ("terminal 5\nat 1000001 5 busy on", "J2 line 2"),
    ("terminal 5\nat 1 31 busy on", "J2 line 2"),
    ("at 1 5 busy on\nterminal 5", "J4 line 1"),
    ("at 1 5 busy maybe", "J4 line 1"),
    ("terminal 5\nat 1 5 busy maybe", "J5 line 2 H1"),
    ("terminal 5\nat 1 5 vector 12", "J5 line 2 H2"),
    ("terminal 5\nat 1 5 response 39", "J5 line 2 H3"),
    ("at 1 bc", "J1 line 1"),
    ("at 0 bc insert A mode 5 1", "J2 line 1"),
    ("at 1 bc inserts A mode 5 1", "J5 line 1 H1"),
    ("at 1 bc insert C mode 5 1", "J5 line 1 H1"),
    ("at 1 bc insert A mode 5", "J5 line 1 H1"),
    ("at 1 bc insert A mode 5 1 2", "J5 line 1 H1"),
    ("at 1 bc insert A mode 31 1", "J5 line 1 H3"),
    (
        "at 1 bc insert at 1000000000000000 A mode 5 1",
        "J5 line 1 H2",
    ),
    (
        "at 1 bc insert at 140737488355329 A mode 5 1",
        "J5 line 1 H3",
    ),
    ("at 1 bc data rx 5 1", "J5 line 1 H1"),
    ("at 1 bc data mode 5 17 0001 0002", "J5 line 1 H1"),
    ("at 1 bc data mode 5 18 0001", "J5 line 1 H3"),
    ("at 1 bc data rx 31 1 0001", "J5 line 1 H3"),
    ("at 1 bc data tx 5 1 0001", "J5 line 1 H1"),
    ("at 1 bc ramp rx 5 1 33 0000 0001", "J5 line 1 H3"),
    ("at 1 bc ramp mode 5 17 2 0000 0001", "J5 line 1 H3"),
    ("at 1 bc ramp rx 5 1 1 0000 1", "J5 line 1 H2"),
    ("at 1 bc ramp rx 5 1 1 0000 0001 0002", "J5 line 1 H1"),
    ("fault x zap 1", "J1 line 1"),
    ("fault 1 drop 0", "J1 line 1"),
    ("fault 1 drop 0 0 0", "J1 line 1"),
    ("fault 1 add 0 0 e 0001", "J1 line 1"),
    ("fault 1 add x 0 e 0001", "J1 line 1"),
    ("fault 1 add 0 0 c 001", "J2 line 1"),
    ("fault 1 mask 0 0 000000000", "J2 line 1"),
    ("fault 1 mask 0 0 00000000XY", "J2 line 1"),
    ("fault 1 mask 0 0 0000000000", "J6 line 1 L2"),
    ("fault 1 drop 3 0", "J6 line 1 L2"),
    ("fault 1 drop 0 40", "J6 line 1 L2"),
    ("fault 0 drop 0 0", "J6 line 1 L2"),
    ("fault 1000001 drop 0 0", "J6 line 1 L2"),
    ("fault 12345678 drop 0 0", "J2 line 1"),
    ("fault 1 late 0 121", "J6 line 1 L2"),
    ("fault 1 late 1 256", "J6 line 1 L2"),
    ("fault 1 mute 0", "J6 line 1 L2"),
    (
        "fault 1 drop 0 0\nfault 1 drop 0 0\nfault 1 drop 0 0\nfault 1 drop 0 0\nfault 1 drop 9 9",
        "J6 line 5 L1",
    ),
];

/// Faults of planned early replies, pauses and senders that go on.
const IRREGULAR: &[Told] = &[
    ("fault 1 early 1", "J1 line 1"),
    ("fault 1 early 1 30 30", "J1 line 1"),
    ("fault 1 early 1 x", "J2 line 1"),
    ("fault 1 early 0 30", "J6 line 1 L2"),
    ("fault 1 early 3 30", "J6 line 1 L2"),
    ("fault 1 early 1 20", "J6 line 1 L2"),
    ("fault 1 early 1 40", "J6 line 1 L2"),
    ("fault 1 early 2 21\nfault 1 early 1 39", "J3 line 3"),
    ("fault 1 pause 0 1", "J1 line 1"),
    ("fault 1 pause 0 1 60 1", "J1 line 1"),
    ("fault 1 pause 0 x 60", "J2 line 1"),
    ("fault 1 pause 0 0 60", "J6 line 1 L2"),
    ("fault 1 pause 0 40 60", "J6 line 1 L2"),
    ("fault 1 pause 3 1 60", "J6 line 1 L2"),
    ("fault 1 pause 0 1 20", "J6 line 1 L2"),
    ("fault 1 pause 0 1 256", "J6 line 1 L2"),
    ("fault 1 pause 0 1 21\nfault 1 pause 2 39 255", "J3 line 3"),
    ("fault 1 babble 1 3", "J1 line 1"),
    ("fault 1 babble 1 3 d 0000", "J1 line 1"),
    ("fault 1 babble 1 3 000", "J2 line 1"),
    ("fault 1 babble 1 0 0000", "J6 line 1 L2"),
    ("fault 1 babble 1 41 0000", "J6 line 1 L2"),
    ("fault 1 babble 3 1 0000", "J6 line 1 L2"),
    (
        "fault 1 babble 0 1 ffff\nfault 1 babble 2 40 0000",
        "J3 line 3",
    ),
    ("faults 1 9 2 pause 0 0 60", "J6 line 1 L2"),
];

/// Faults of scripts.
const SCRIPTS: &[Told] = &[
    (
        "channel 1\nterminal 5\nscript\nrepeat 0 { }",
        "J7 line 4 column 8 S7",
    ),
    (
        "channel 1\nscript\nrepeat 10000 { repeat 101 { send A mode 5 1 } }",
        "J7 line 3 column 1 S8",
    ),
    ("channel 1\nscript\nsend A", "J7 line 3 column 7 S5"),
    ("channel 1\nscript\n\n  send C", "J7 line 4 column 8 S2"),
    (
        "channel 1\nscript\nsend A rx 5 1 []",
        "J7 line 3 column 8 S4 M3",
    ),
    (
        "channel 1\nscript\nrepeat 10000 { repeat 10000 { gap 40 } }",
        "J7 line 2 P5",
    ),
];

/// The fault of this text.
fn has_fault(rt: &impl Abort, alloc: Global, row: &str, text: &str, fault: &str) {
    let found = read_job(alloc, text.as_bytes()).err();
    is_fault(rt, alloc, row, found, fault);
}

/// Each text of the table is refused with its fault.
fn each_fault(rt: &impl Abort, alloc: Global, table: &[Told]) {
    for (text, fault) in table {
        has_fault(rt, alloc, text, text, fault);
    }
}

#[test]
fn texts_at_fault(rt: HostRuntime) {
    for table in [LINES, ACTIONS, IRREGULAR, SCRIPTS, REFUSED] {
        each_fault(&rt, rt.alloc(), table);
    }
}

/// How often a frame stands in a script, and the fault of the job.
const LENGTHS: &[(u32, &str, &str)] = &[
    (4095, "gap 40\n", "none"),
    (4096, "gap 40\n", "J7 line 2 A1"),
    (1025, "send A mode 5 1\n", "J7 line 2 A2"),
];

/// The fault of a job whose script is one frame so many times.
fn has_fault_of_length(rt: &impl Abort, alloc: Global, count: u32, frame: &str, fault: &str) {
    let text = repeated(rt, alloc, "channel 1\nscript\n", frame, count, "");
    has_fault(rt, alloc, frame, text.as_str(), fault);
}

#[test]
fn images_that_are_too_long(rt: HostRuntime) {
    for (count, frame, fault) in LENGTHS {
        has_fault_of_length(&rt, rt.alloc(), *count, frame, fault);
    }
}
