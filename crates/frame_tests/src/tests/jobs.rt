//! Jobs played to their end, record by record.
use crate::tests::controllers::NINE;
use crate::tests::equal::same_in;
use crate::tests::frames::PACED;
use crate::tests::many_messages::{MUTED, SERIES};
use crate::tests::records::{Row, sends};
use bc_machine::{Actions, HostAction, Machine};
use job_file::{Job, job_runs, read_job};
use std::alloc::Global;
use std::process::Abort;

/// The text of a job, and the records of the job under its own actions.
pub(crate) type Played = (&'static str, &'static [Row]);

/// A command to send 32 words that were never written, and its answer.
const ZEROS: &[u16] = &[
    0x2c40, 0x2800, 0, 0, 0, 0, 0, 0, 0, 0, 0, 0, 0, 0, 0, 0, 0, 0, 0, 0, 0, 0, 0, 0, 0, 0, 0, 0,
    0, 0, 0, 0, 0, 0,
];

/// Data both ways.
const DATA: &[Played] = &[
    (
        "channel 1\nterminal 5\nscript\nsend A tx 5 2 32",
        &[(Some(0), Some((0, 0x50)), ZEROS)],
    ),
    (
        "channel 1\nterminal 5\nscript\nsend A rx 5 30 [BEEF CAFE] send A tx 5 30 2",
        &[
            (None, None, &[0x2bc2, 0xbeef, 0xcafe, 0x2800]),
            (None, None, &[0x2fc2, 0x2800, 0xbeef, 0xcafe]),
        ],
    ),
    (
        "channel 1\nterminal 5\nscript\nsend A brx 1 [00AA] send A mode 5 2",
        &[
            (None, None, &[0xf821, 0xaa]),
            (None, None, &[0x2fe2, 0x2810]),
        ],
    ),
];

/// From terminal to terminal, and with a late answer.
const BETWEEN: &[Played] = &[
    (
        "channel 1\nterminal 3\nterminal 7\nat 1 7 transmit 1 AAAA 5555\nscript\nsend A rt 7 1 3 4 2",
        &[(
            Some(0),
            Some((0x0800, 0x5050)),
            &[0x1882, 0x3c22, 0x3800, 0xaaaa, 0x5555, 0x1800],
        )],
    ),
    (
        "channel 1\nterminal 3\nterminal 7\nat 1 7 transmit 1 AAAA 5555\nfault 1 late 1 170\nscript\n\
         send A rt 7 1 3 4 2",
        &[(
            Some(0),
            Some((0x1a00, 0x50aa)),
            &[0x1882, 0x3c22, 0x3800, 0xaaaa, 0x5555, 0x1800],
        )],
    ),
    (
        "channel 1\nterminal 3\nterminal 7\nat 1 7 transmit 1 AAAA 5555\nfault 1 late 1 171\nscript\n\
         send A rt 7 1 3 4 2 send A mode 3 2",
        &[
            (
                Some(0),
                Some((0x1a00, 0x00ab)),
                &[0x1882, 0x3c22, 0x3800, 0xaaaa, 0x5555],
            ),
            (None, None, &[0x1fe2, 0x1c00]),
        ],
    ),
];

/// Planned faults of the first message.
const FAULTS: &[Played] = &[
    (
        "channel 1\nterminal 5\nfault 1 drop 0 3\nscript\n\
         send A rx 5 1 [0001 0002 0003] send A mode 5 2 send A mode 5 2",
        &[
            (Some(0), Some((0x1220, 0)), &[0x2823, 1, 2]),
            (Some(760), Some((0, 0x50)), &[0x2fe2, 0x2c00]),
            (Some(1240), Some((0, 0x50)), &[0x2fe2, 0x2c00]),
        ],
    ),
    (
        "channel 1\nterminal 5\nfault 1 add 0 3 d 0004\nscript\nsend A rx 5 1 [0001 0002 0003]",
        &[(Some(0), Some((0x1220, 0)), &[0x2823, 1, 2, 3, 4])],
    ),
    (
        "channel 1\nterminal 5\nfault 1 mask 0 1 0000000004\nscript\nsend A rx 5 1 [0001 0002 0003]",
        &[(Some(0), Some((0x1208, 0)), &[0x2823, 1, 2, 3])],
    ),
    (
        "channel 1\nterminal 5\nfault 1 drop 0 0\nscript\nsend A mode 5 1 send A mode 5 1",
        &[
            (Some(0), Some((0x1220, 0)), &[]),
            (Some(160), Some((0, 0x50)), &[0x2fe1, 0x2800]),
        ],
    ),
];

/// Mode commands.
const MODES: &[Played] = &[
    (
        "channel 1\nterminal 5\nscript\nsend A bmode 1 send A mode 5 2 send A mode 5 2 send A mode 5 1",
        &[
            (Some(0), Some((0, 0)), &[0xffe1]),
            (None, None, &[0x2fe2, 0x2810]),
            (None, None, &[0x2fe2, 0x2810]),
            (None, None, &[0x2fe1, 0x2800]),
        ],
    ),
    (
        "channel 1\nterminal 5\nscript\nsend A mode 5 4 send B rx 5 1 [0001] send A mode 5 5 send B rx 5 1 [0001]",
        &[
            (None, None, &[0x2fe4, 0x2800]),
            (None, Some((0x3200, 0)), &[0x2821, 1]),
            (None, None, &[0x2fe5, 0x2800]),
            (None, Some((0x2000, 0x50)), &[0x2821, 1, 0x2800]),
        ],
    ),
    (
        "channel 1\nterminal 5\nscript\nsend A mode 5 20 [0000]",
        &[(None, Some((0, 0x50)), &[0x2bf4, 0, 0x2c00])],
    ),
];

/// Hosts act before their message.
const HOSTS: &[Played] = &[
    (
        "channel 1\nterminal 5\nat 1 5 fault on\nscript\n\
         send A mode 5 6 send A mode 5 1 send A mode 5 8 send A mode 5 1",
        &[
            (None, None, &[0x2fe6, 0x2800]),
            (None, None, &[0x2fe1, 0x2800]),
            (None, None, &[0x2fe8, 0x2800]),
            (None, None, &[0x2fe1, 0x2801]),
        ],
    ),
    (
        "channel 1\nterminal 5\nat 1 5 busy on\nscript\nsend A tx 5 2 1 send A mode 5 18",
        &[
            (None, Some((0, 0x50)), &[0x2c41, 0x2808]),
            (None, Some((0, 0x50)), &[0x2ff2, 0x2808, 0x2c41]),
        ],
    ),
    (
        "channel 1\nterminal 5\nat 1 5 illegal receive 3 4\nscript\nsend A rx 5 3 [0001 0002 0003 0004]",
        &[(None, None, &[0x2864, 1, 2, 3, 4, 0x2c00])],
    ),
];

/// A poll of terminal 5, and its answer.
const POLLED: &[u16] = &[0x2fe1, 0x2800];

/// Polls of a terminal that answers.
const ANSWERED: [Row; 5] = [
    (Some(0), Some((0, 0x50)), POLLED),
    (Some(480), Some((0, 0x50)), POLLED),
    (Some(960), Some((0, 0x50)), POLLED),
    (Some(1440), Some((0, 0x50)), POLLED),
    (Some(1920), Some((0, 0x50)), POLLED),
];

/// Polls of a terminal that is not there.
const SILENT: [Row; 4] = [
    (Some(0), Some((0x1200, 0)), &[0x2fe1]),
    (Some(360), Some((0x3200, 0)), &[0x2fe1]),
    (Some(720), Some((0x1200, 0)), &[0x2fe1]),
    (Some(1080), Some((0x3200, 0)), &[0x2fe1]),
];

/// Repeats, retries and choices. A poll is repeated twice, and then until one fails, at most three times, also by its
/// name. Before any message no test holds; the condition is looked at before each turn.
const TURNS: &[Played] = &[
    ("channel 1\nscript\nif fail { send A mode 5 1 }", &[]),
    (RETRIES, &NINE),
    (
        "channel 1\nterminal 5\nscript\nrepeat 2 { retry 1 send A mode 5 1 }\n\
         until fail at most 3 { retry 1 send A mode 5 1 }",
        &ANSWERED,
    ),
    (
        "channel 1\nscript\nrepeat 2 { retry 1 send A mode 5 1 }\nuntil fail at most 3 { retry 1 send A mode 5 1 }",
        &SILENT,
    ),
    (
        "channel 1\nterminal 5\nscript\ndefine poll { retry 1 send A mode 5 1 }\nrepeat 2 { call poll }\n\
         until fail at most 3 { call poll }",
        &ANSWERED,
    ),
    (
        "channel 1\nscript\ndefine poll { retry 1 send A mode 5 1 }\nrepeat 2 { call poll }\n\
         until fail at most 3 { call poll }",
        &SILENT,
    ),
    (
        "channel 1\nterminal 5\nscript\nuntil not fail at most 3 { send A mode 5 1 }\nsend A mode 9 1\n\
         until not fail at most 3 { send A mode 5 1 }",
        &[
            (Some(0), None, &[0x4fe1]),
            (Some(360), None, &[0x2fe1, 0x2800]),
        ],
    ),
];

/// A message that no terminal answers, tried again on the other bus.
pub(crate) const RETRIES: &str =
    "channel 1\nterminal 5\nscript\nrepeat 3 { retry 2 send A rx 9 1 [0001] }";

/// The job of this text.
fn job_of(rt: &impl Abort, alloc: Global, text: &str) -> Job {
    read_job(alloc, text.as_bytes()).expect(rt, text)
}

/// The machine of a job under its own actions.
fn machine_of(rt: &impl Abort, alloc: Global, text: &str) -> Machine {
    let job = job_of(rt, alloc, text);
    job.machine(alloc, job.actions()).expect(rt, "memory")
}

fn plays(rt: &impl Abort, alloc: Global, text: &str, rows: &[Row]) {
    let mut machine = machine_of(rt, alloc, text);
    sends(rt, text, &mut machine, 1_000, rows);
}

/// Each job of the table sends the messages of its rows.
pub(crate) fn each_plays(rt: &impl Abort, alloc: Global, table: &[Played]) {
    for (text, rows) in table {
        plays(rt, alloc, text, rows);
    }
}

#[test]
fn jobs_and_their_records(rt: HostRuntime) {
    for table in [DATA, BETWEEN, FAULTS, MODES, HOSTS, TURNS] {
        each_plays(&rt, rt.alloc(), table);
    }
    for table in [PACED, SERIES, MUTED] {
        each_plays(&rt, rt.alloc(), table);
    }
}

/// The channel of a job, and how many steps it makes and how many messages it sends at most.
pub(crate) type Numbers = (u16, u64, u64);

/// Those of a job.
pub(crate) fn numbers(job: &Job) -> Numbers {
    let program = job.program();
    (job.channel(), program.budget(), program.worst_messages())
}

/// What the lines of a job say.
struct Lines {
    text: &'static str,
    numbers: Numbers,
    start: u64,
    /// How many faults the first and the third message have.
    faults: (usize, usize),
    addresses: &'static [u8],
    /// How many placed actions there are, and the message and the terminal of the first.
    actions: (usize, Option<(u32, u8)>),
}

/// A line of each kind, and many actions of a series, alone and beside another one.
const LINES: &[Lines] = &[
    Lines {
        text: "# a note\nchannel 7\nstart 140737488355328\nterminal 5\nterminal 30\n\nat 2 30 busy on\n\
               fault 3 mute 1\nscript\nsend A mode 5 1\n",
        numbers: (7, 2, 1),
        start: 140_737_488_355_328,
        faults: (0, 1),
        addresses: &[5, 30],
        actions: (1, Some((2, 30))),
    },
    Lines {
        text: "channel 1\nterminal 5\nseries 1 1000000 3 5 3 0000 0001\nscript\n",
        numbers: (1, 1, 0),
        start: 0,
        faults: (0, 0),
        addresses: &[5],
        actions: (333_334, Some((1, 5))),
    },
    Lines {
        text: "channel 1\nterminal 5\nseries 1 999999 3 5 3 0000 0001\nat 1 5 busy on\nscript\n",
        numbers: (1, 1, 0),
        start: 0,
        faults: (0, 0),
        addresses: &[5],
        actions: (333_334, Some((1, 5))),
    },
];

/// The message and the terminal of the first action, where it is a terminal's.
fn first(placed: &Actions) -> Option<(u32, u8)> {
    if placed.is_empty() {
        return None;
    }
    let first = placed.get(0);
    match first.action {
        HostAction::Terminal { address, .. } => Some((first.number, address)),
        HostAction::Controller(_) => None,
    }
}

/// How many faults a message has.
fn faults(job: &Job, number: u32) -> usize {
    job.plan().faults(number).len()
}

/// The job has these lines.
fn has_lines(rt: &impl Abort, job: &Job, lines: &Lines) {
    let text = lines.text;
    same_in(rt, text, &numbers(job), &lines.numbers);
    same_in(rt, text, &job.start(), &lines.start);
    same_in(rt, text, &(faults(job, 1), faults(job, 3)), &lines.faults);
    same_in(rt, text, &job.addresses(), &lines.addresses);
    let placed = job.actions();
    same_in(rt, text, &(placed.len(), first(placed)), &lines.actions);
}

/// The job of a text has its lines.
fn are_lines(rt: &impl Abort, alloc: Global, lines: &Lines) {
    let job = job_of(rt, alloc, lines.text);
    has_lines(rt, &job, lines);
}

#[test]
fn accessors_of_a_job(rt: HostRuntime) {
    job_runs();
    for lines in LINES {
        are_lines(&rt, rt.alloc(), lines);
    }
}
