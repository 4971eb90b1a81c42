//! Runs of a terminal, driven by calls: what is expected is worked out by hand from the rules.
mod kinds;
mod ramps;
mod saves;
mod wholes;

use crate::tests::actions::action;
use crate::tests::equal::{are_in, same_in};
use mil_line::Gap;
use mil_terminal::{Reply, Terminal, TerminalError};
use mil_word::Line::{A, B};
use mil_word::{Line, Sync, Wave, Word, encode};
use std::alloc::Global;
use std::process::Abort;

/// What happens to a terminal, by its name, and what is found then.
type Script = (&'static str, &'static [Step]);

/// A step of a script.
#[derive(Clone, Copy)]
enum Step {
    /// A command on a line, then these data words and a quiet: it is answered with these words.
    Answers(Line, u16, &'static [u16], &'static [u16]),
    /// The same, where there is no answer.
    IsSilent(Line, u16, &'static [u16]),
    /// A command on a line, to which nothing is answered before a quiet.
    Command(Line, u16),
    /// A command or a status on a line, behind a gap of so many ticks.
    Behind(Line, u16, u16),
    /// A data word on a line, contiguous to what was before.
    Data(Line, u16),
    /// Data words on a line by their values, the first behind a gap of so many ticks.
    Values(Line, u16, &'static [u16]),
    /// A quiet on a line brings no answer.
    Quiet(Line),
    /// A quiet on a line is answered with these words.
    Replies(Line, &'static [u16]),
    /// A quiet on a line is answered after so many ticks with these words.
    RepliesAfter(Line, u16, &'static [u16]),
    /// An action of the host, by its text.
    Act(&'static str),
    /// These words came to the terminal at a subaddress.
    Received(u8, &'static [u16]),
    /// These words came to all at a subaddress.
    ReceivedFromAll(u8, &'static [u16]),
    /// A copy has these words to be sent at a subaddress.
    PutUp(u8, &'static [u16]),
    Status(u16),
    LastCommand(u16),
    /// Whether the transmitter of a line is on.
    Transmitter(Line, bool),
    FlagInhibited,
}

use Step::{
    Act, Answers, Behind, Command, Data, FlagInhibited, IsSilent, LastCommand, PutUp, Quiet,
    Received, ReceivedFromAll, Replies, RepliesAfter, Status, Transmitter, Values,
};

/// Each with terminal 5.
const SCRIPTS: &[Script] = &[
    (
        "a command on the other line cuts a window short",
        &[
            Command(A, 0x2823),
            Data(A, 1),
            Answers(B, 0x2fe2, &[], &[0x2c00]),
            Quiet(A),
        ],
    ),
    (
        "a receive command alone leaves a message error",
        &[IsSilent(A, 0x2823, &[]), Status(0x2c00)],
    ),
    (
        "a broadcast is told until the next command",
        &[
            IsSilent(A, 0xffe1, &[]),
            Answers(A, 0x2fe2, &[], &[0x2810]),
            Answers(A, 0x2fe2, &[], &[0x2810]),
            Answers(A, 0x2fe1, &[], &[0x2800]),
        ],
    ),
    (
        "a shutdown silences the other line",
        &[
            Answers(A, 0x2fe4, &[], &[0x2800]),
            Transmitter(A, true),
            Transmitter(B, false),
            IsSilent(B, 0x2821, &[1]),
            Received(1, &[1]),
            Answers(A, 0x2fe5, &[], &[0x2800]),
            Answers(B, 0x2821, &[1], &[0x2800]),
        ],
    ),
    (
        "an inhibited flag comes back after a reset",
        &[
            Act("fault on"),
            Answers(A, 0x2fe6, &[], &[0x2800]),
            FlagInhibited,
            Answers(A, 0x2fe1, &[], &[0x2800]),
            Answers(A, 0x2fe8, &[], &[0x2800]),
            Answers(A, 0x2fe1, &[], &[0x2801]),
        ],
    ),
    (
        "a busy terminal tells its last command",
        &[
            Act("busy on"),
            Answers(A, 0x2c41, &[], &[0x2808]),
            Answers(A, 0x2ff2, &[], &[0x2808, 0x2c41]),
            LastCommand(0x2c41),
        ],
    ),
    (
        "subaddress 30 wraps around and broadcast is kept apart",
        &[
            Answers(A, 0x2bc2, &[0xbeef, 0xcafe], &[0x2800]),
            Answers(A, 0x2fc2, &[], &[0x2800, 0xbeef, 0xcafe]),
            IsSilent(A, 0xf821, &[0xaa]),
            ReceivedFromAll(1, &[0xaa]),
            Received(1, &[]),
            Answers(A, 0x2fe2, &[], &[0x2810]),
            PutUp(30, &[0xbeef, 0xcafe]),
        ],
    ),
    (
        "a marked command is answered with a message error",
        &[
            Act("illegal receive 3 4"),
            Answers(A, 0x2864, &[1, 2, 3, 4], &[0x2c00]),
            Received(3, &[]),
        ],
    ),
    (
        "zeros are sent where nothing was put up",
        &[Command(A, 0x2c41), RepliesAfter(A, 80, &[0x2800, 0])],
    ),
];

/// With terminal 7.
const PUT_UP: &[Script] = &[(
    "words that were put up are sent",
    &[
        Act("transmit 1 AAAA 5555"),
        Answers(A, 0x3c22, &[], &[0x3800, 0xaaaa, 0x5555]),
    ],
)];

/// As many words as a message can have.
const FULL: &[u16] = &[
    1, 2, 3, 4, 5, 6, 7, 8, 9, 10, 11, 12, 13, 14, 15, 16, 17, 18, 19, 20, 21, 22, 23, 24, 25, 26,
    27, 28, 29, 30, 31, 32,
];

#[test]
fn runs_of_a_terminal(rt: HostRuntime) {
    are_played(&rt, rt.alloc(), 5, SCRIPTS);
    are_played(&rt, rt.alloc(), 7, PUT_UP);
}

/// Scripts, each on a new terminal of this address.
fn are_played(rt: &impl Abort, alloc: Global, address: u8, scripts: &[Script]) {
    for (name, steps) in scripts {
        let mut terminal = make(rt, name, alloc, address);
        play_all(rt, name, &mut terminal, steps);
    }
}

/// A new terminal.
fn make(rt: &impl Abort, row: &str, alloc: Global, address: u8) -> Terminal {
    Terminal::make(alloc, address).expect(rt, row)
}

/// Steps on a terminal, one after the other.
fn play_all(rt: &impl Abort, row: &str, terminal: &mut Terminal, steps: &[Step]) {
    for step in steps {
        plays(rt, row, terminal, *step);
    }
}

/// A step of a script.
fn plays(rt: &impl Abort, row: &str, terminal: &mut Terminal, step: Step) {
    match step {
        Answers(line, value, sent, wanted) => {
            say(terminal, line, value, sent);
            replies(rt, row, terminal, line, wanted)
        }
        IsSilent(line, value, sent) => {
            say(terminal, line, value, sent);
            is_silent(rt, row, terminal, line)
        }
        Command(line, value) => terminal.hear(line, command(value), Gap::of(65535)),
        Behind(line, gap, value) => terminal.hear(line, command(value), gap_of(rt, row, gap)),
        Data(line, value) => terminal.hear(line, data(value), Gap::contiguous()),
        Values(line, gap, values) => terminal.hear_values(line, gap_of(rt, row, gap), values),
        Quiet(line) => is_silent(rt, row, terminal, line),
        Replies(line, wanted) => replies(rt, row, terminal, line, wanted),
        RepliesAfter(line, ticks, wanted) => {
            replies_after(rt, row, terminal, line, ticks, wanted)
        }
        Act(text) => terminal.act(&action(rt, text)),
        Received(subaddress, words) => has_received(rt, row, terminal, subaddress, words),
        ReceivedFromAll(subaddress, words) => {
            has_received_from_all(rt, row, terminal, subaddress, words)
        }
        PutUp(subaddress, words) => has_put_up(rt, row, terminal, subaddress, words),
        Status(value) => same_in(rt, row, &terminal.status(), &value),
        LastCommand(value) => same_in(rt, row, &terminal.last_command(), &value),
        Transmitter(line, on) => same_in(rt, row, &terminal.transmitter_on(line), &on),
        FlagInhibited => same_in(rt, row, &terminal.flag_inhibited(), &true),
    }
}

/// A gap of so many ticks.
fn gap_of(rt: &impl Abort, row: &str, ticks: u16) -> Gap {
    assert!(rt; 20 <= ticks, "{row}");
    Gap::of(ticks)
}

/// A quiet brings a reply of these words.
fn replies(rt: &impl Abort, row: &str, terminal: &mut Terminal, line: Line, wanted: &[u16]) {
    are_in(rt, row, words(&terminal.quiet(line)), wanted);
}

/// A quiet brings a reply of these words after so many ticks.
fn replies_after(
    rt: &impl Abort,
    row: &str,
    terminal: &mut Terminal,
    line: Line,
    ticks: u16,
    wanted: &[u16],
) {
    let reply = terminal.quiet(line);
    same_in(rt, row, &ticks_of(&reply), &ticks);
    are_in(rt, row, words(&reply), wanted);
}

/// A quiet brings no reply.
fn is_silent(rt: &impl Abort, row: &str, terminal: &mut Terminal, line: Line) {
    same_in(rt, row, &terminal.quiet(line).is_none(), &true);
}

/// These words came to a terminal at a subaddress.
pub(super) fn has_received(
    rt: &impl Abort,
    row: &str,
    terminal: &Terminal,
    subaddress: u8,
    words: &[u16],
) {
    assert!(rt; 1 <= subaddress && subaddress <= 30);
    are_in(rt, row, terminal.received(subaddress), words);
}

/// These words came to all at a subaddress.
pub(super) fn has_received_from_all(
    rt: &impl Abort,
    row: &str,
    terminal: &Terminal,
    subaddress: u8,
    words: &[u16],
) {
    assert!(rt; 1 <= subaddress && subaddress <= 30);
    are_in(rt, row, terminal.received_from_all(subaddress), words);
}

/// A copy of a terminal has these words to be sent at a subaddress.
fn has_put_up(rt: &impl Abort, row: &str, terminal: &Terminal, subaddress: u8, words: &[u16]) {
    assert!(rt; 1 <= subaddress && subaddress <= 30);
    let copy = terminal.copy().expect(rt, "memory");
    are_in(rt, row, copy.transmit_words(subaddress), words);
}

fn command(value: u16) -> Wave {
    encode(Word {
        sync: Sync::CommandSync,
        value,
    })
}

fn data(value: u16) -> Wave {
    encode(Word {
        sync: Sync::DataSync,
        value,
    })
}

/// A command and data words on a line, one after the other.
fn say(terminal: &mut Terminal, line: Line, value: u16, words: &[u16]) {
    terminal.hear(line, command(value), Gap::of(65535));
    for word in words {
        terminal.hear(line, data(*word), Gap::contiguous());
    }
}

/// The words of a reply; none where there is none.
fn words(reply: &Option<Reply>) -> &[u16] {
    match reply {
        Some(reply) => reply.words.as_slice(),
        None => &[],
    }
}

/// How many ticks a reply comes later; 0 where there is none.
fn ticks_of(reply: &Option<Reply>) -> u16 {
    match reply {
        Some(reply) => reply.gap.ticks(),
        None => 0,
    }
}

#[test]
fn address_31_is_no_terminal(rt: HostRuntime) {
    let refused = Terminal::make(rt.alloc(), 31).err();
    same_in(&rt, "address", &refused, &Some(TerminalError::Address));
}
