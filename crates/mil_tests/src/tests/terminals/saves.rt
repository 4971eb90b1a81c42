//! Terminals that go back to what was saved.
use super::Step::{
    Act, Answers, Command, Data, FlagInhibited, IsSilent, LastCommand, PutUp, Received,
    ReceivedFromAll, Replies, Status, Transmitter,
};
use super::{FULL, Step, make, play_all};
use mil_terminal::{SavedTerminal, Terminal};
use mil_word::Line::{A, B};
use std::alloc::Global;
use std::process::Abort;

/// What happens to terminal 5 before it is saved and after that, and what is found where it has gone back.
#[derive(Clone, Copy)]
struct Row {
    name: &'static str,
    before: &'static [Step],
    after: &'static [Step],
    found: &'static [Step],
}

const ROWS: &[Row] = &[
    Row {
        name: "words in some slots, and none in the others",
        before: &[
            Answers(A, 0x2822, &[0x11, 0x12], &[0x2800]),
            Answers(A, 0x2840, FULL, &[0x2800]),
            IsSilent(A, 0xfba0, FULL),
            Answers(B, 0x2bc1, &[0xffff], &[0x2800]),
            Act("transmit 1 AAAA 5555"),
        ],
        after: &[
            Answers(A, 0x2823, &[1, 2, 3], &[0x2800]),
            Answers(A, 0x2862, &[7, 8], &[0x2800]),
            Answers(A, 0x2841, &[9], &[0x2800]),
            IsSilent(A, 0xf821, &[10]),
        ],
        found: &[
            Received(1, &[0x11, 0x12]),
            Received(2, FULL),
            Received(3, &[]),
            Received(29, &[]),
            Received(30, &[0xffff]),
            ReceivedFromAll(1, &[]),
            ReceivedFromAll(29, FULL),
            ReceivedFromAll(30, &[]),
            PutUp(1, &[0xaaaa, 0x5555]),
            PutUp(2, &[]),
            PutUp(30, &[0xffff]),
            Status(0x2800),
            LastCommand(0x2bc1),
        ],
    },
    Row {
        name: "no words at all",
        before: &[],
        after: &[
            Answers(A, 0x2840, FULL, &[0x2800]),
            IsSilent(A, 0xf821, &[10]),
            Act("transmit 1 AAAA 5555"),
        ],
        found: &[
            Received(2, &[]),
            ReceivedFromAll(1, &[]),
            PutUp(1, &[]),
            Status(0x2800),
            LastCommand(0),
        ],
    },
    Row {
        name: "words that are due",
        before: &[Command(A, 0x2822), Data(A, 0x21)],
        after: &[
            Data(A, 0x22),
            Replies(A, &[0x2800]),
            Received(1, &[0x21, 0x22]),
        ],
        found: &[
            Received(1, &[]),
            Data(A, 0x23),
            Replies(A, &[0x2800]),
            Received(1, &[0x21, 0x23]),
        ],
    },
    Row {
        name: "a mark",
        before: &[Act("illegal receive 3 4")],
        after: &[
            Act("legal receive 3 4"),
            Answers(A, 0x2864, &[1, 2, 3, 4], &[0x2800]),
        ],
        found: &[
            Received(3, &[]),
            Answers(A, 0x2864, &[1, 2, 3, 4], &[0x2c00]),
        ],
    },
    Row {
        name: "no mark",
        before: &[],
        after: &[
            Act("illegal receive 3 4"),
            Answers(A, 0x2864, &[1, 2, 3, 4], &[0x2c00]),
        ],
        found: &[Answers(A, 0x2864, &[1, 2, 3, 4], &[0x2800])],
    },
    Row {
        name: "a shutdown, an inhibited flag and a busy terminal",
        before: &[
            Act("fault on"),
            Answers(A, 0x2fe4, &[], &[0x2801]),
            Answers(A, 0x2fe6, &[], &[0x2800]),
            Act("busy on"),
        ],
        after: &[Answers(A, 0x2fe8, &[], &[0x2808])],
        found: &[
            Transmitter(A, true),
            Transmitter(B, false),
            FlagInhibited,
            LastCommand(0x2fe6),
            Answers(A, 0x2c41, &[], &[0x2808]),
        ],
    },
];

#[test]
fn terminals_go_back_to_what_was_saved(rt: HostRuntime) {
    for row in ROWS {
        goes_back(&rt, rt.alloc(), row);
    }
}

/// A terminal goes back; so does one at another address, and so does a new one.
fn goes_back(rt: &impl Abort, alloc: Global, row: &Row) {
    let mut terminal = make(rt, row.name, alloc, 5);
    play_all(rt, row.name, &mut terminal, row.before);
    is_saved(rt, alloc, row, &mut terminal);
}

/// What is saved of a terminal is found again, whatever it meets after that.
fn is_saved(rt: &impl Abort, alloc: Global, row: &Row, terminal: &mut Terminal) {
    let saved = terminal.save().expect(rt, row.name);
    play_all(rt, row.name, terminal, row.after);
    is_found(rt, row, terminal, &saved);
    takes_over(rt, alloc, row, &saved);
    is_made_anew(rt, alloc, row, &saved);
}

/// A terminal is found as it was saved.
fn is_found(rt: &impl Abort, row: &Row, terminal: &mut Terminal, saved: &SavedTerminal) {
    terminal.restore(saved);
    play_all(rt, row.name, terminal, row.found);
}

/// A terminal at another address, with words of its own, is found as terminal 5 was saved.
fn takes_over(rt: &impl Abort, alloc: Global, row: &Row, saved: &SavedTerminal) {
    let mut other = make(rt, row.name, alloc, 7);
    play_all(rt, row.name, &mut other, OTHER);
    is_found(rt, row, &mut other, saved);
}

/// What the other terminal met.
const OTHER: &[Step] = &[
    Answers(A, 0x3860, FULL, &[0x3800]),
    IsSilent(A, 0xfbc1, &[1]),
    Act("transmit 1 AAAA 5555"),
    Act("illegal receive 3 4"),
    Command(B, 0x3822),
];

/// A terminal that is made of what was saved is found so.
fn is_made_anew(rt: &impl Abort, alloc: Global, row: &Row, saved: &SavedTerminal) {
    let mut anew = saved.terminal(alloc).expect(rt, row.name);
    play_all(rt, row.name, &mut anew, row.found);
}
