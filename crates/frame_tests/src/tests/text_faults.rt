//! Texts with each fault at the first, a middle and the last place where it may stand; lines and columns are counted by
//! hand.
use crate::tests::equal::is_fault;
use frame_text::{parse, read_send};
use std::alloc::Global;
use std::fmt::Write;
use std::process::Abort;

/// A text, and what is printed of its fault.
type Told = (&'static str, &'static str);

/// A byte that is in no token, and a token that may not stand where it does.
const MISPLACED: &[Told] = &[
    ("@", "S1 line 1 column 1"),
    ("gap @ 50", "S1 line 1 column 5"),
    ("gap 50 # @\n  @ gap 60", "S1 line 2 column 3"),
    ("gap 50 send A rx 5 1 [ @ ]", "S1 line 1 column 24"),
    ("gap 50 send A mode 5 1 !", "S1 line 1 column 24"),
    ("50", "S2 line 1 column 1"),
    ("gap {", "S2 line 1 column 5"),
    ("send C mode 5 1", "S2 line 1 column 6"),
    ("if bit speed { }", "S2 line 1 column 8"),
    ("gap 50\n\telse { } gap 60", "S2 line 2 column 2"),
    ("if all ( fail silent silent ) { }", "S2 line 1 column 22"),
    ("gap 50 }", "S2 line 1 column 8"),
    ("until fail 3 { }", "S2 line 1 column 12"),
    ("until fail at least 3 { }", "S2 line 1 column 15"),
];

/// A word that spells no number or data word, and numbers that no message has.
const WRONG_NUMBERS: &[Told] = &[
    ("gap fifty", "S3 line 1 column 5"),
    (
        "gap 50\nretry 1x send A mode 5 1 gap 60",
        "S3 line 2 column 7",
    ),
    ("gap 50 send A rx 5 1 [001] gap 60", "S3 line 1 column 23"),
    ("gap 50 send A rx 5 1 [0001 00G1", "S3 line 1 column 28"),
    ("gap 50 gap 12345678", "S3 line 1 column 12"),
    ("send A mode 5 20", "S4 line 1 column 8 M5"),
    ("send A mode 5 20 @", "S4 line 1 column 8 M5"),
    ("gap 50\nsend B bmode 16 gap 60", "S4 line 2 column 8 M3"),
    ("gap 50 send A rt 5 1 5 2 1", "S4 line 1 column 15 M4"),
];

/// Texts that end too early: the place is directly behind the last byte.
const EARLY_ENDS: &[Told] = &[
    ("send", "S5 line 1 column 5"),
    ("gap\n", "S5 line 2 column 1"),
    ("if fail {", "S5 line 1 column 10"),
    ("gap 50 repeat 2 {\n gap 60\n", "S5 line 3 column 1"),
    ("gap 50 send A rx 5 1 [0001", "S5 line 1 column 27"),
    ("gap 50 if not", "S5 line 1 column 14"),
    ("", "none"),
    (" # gap", "none"),
];

/// Numbers out of their ranges, and too many messages.
const RANGES: &[Told] = &[
    ("frame 150 { }", "S7 line 1 column 7"),
    ("frame 0 { }", "S7 line 1 column 7"),
    ("gap 50\n frame 6553600 { @", "S7 line 2 column 8"),
    ("frame 100 { frame 6553500 { } }", "none"),
    ("frame x { }", "S3 line 1 column 7"),
    ("frame { }", "S2 line 1 column 7"),
    ("repeat 0 { }", "S7 line 1 column 8"),
    ("repeat 0 { @", "S7 line 1 column 8"),
    ("gap 50\ngap 39 gap 60", "S7 line 2 column 5"),
    ("gap 50 retry 9 send A mode 5 1", "S7 line 1 column 14"),
    ("retry 0 send A mode 5 1", "S7 line 1 column 7"),
    ("repeat 10001 { }", "S7 line 1 column 8"),
    ("gap 65536", "S7 line 1 column 5"),
    ("until fail at most 0 { }", "S7 line 1 column 20"),
    ("until fail at most 10001 { @", "S7 line 1 column 20"),
    ("gap 40 gap 65535 repeat 1 { } repeat 10000 { }", "none"),
    (
        "repeat 10000 { repeat 100 { send A mode 5 1 } } send A mode 5 1",
        "S8 line 1 column 1",
    ),
    (
        "\n send A mode 5 1 repeat 10000 { repeat 100 { send A mode 5 1 } }",
        "S8 line 1 column 1",
    ),
    (
        "repeat 10000 { repeat 100 { send A mode 5 1 } } send A mode 5 1 repeat 0 { }",
        "S7 line 1 column 72",
    ),
    ("repeat 10000 { repeat 100 { send A mode 5 1 } }", "none"),
];

/// Names of definitions: what a name is, which may be called, which may be defined.
const NAMES: &[Told] = &[
    ("call x", "S10 line 1 column 6"),
    ("define a { } define a { }", "S10 line 1 column 21"),
    ("define a { call a }", "S10 line 1 column 17"),
    ("define a { call b } define b { }", "S10 line 1 column 17"),
    ("define a { } call A", "S10 line 1 column 19"),
    ("define 1a { }", "S2 line 1 column 8"),
    ("define _a { }", "S2 line 1 column 8"),
    ("define abcdefghijklmnopq { }", "S2 line 1 column 8"),
    ("define a {\ncall @ }", "S1 line 2 column 6"),
    ("define", "S5 line 1 column 7"),
    ("define a", "S5 line 1 column 9"),
    ("define a { gap 50", "S5 line 1 column 18"),
    ("call", "S5 line 1 column 5"),
    ("gap 50 define a { }", "S2 line 1 column 8"),
    ("repeat 2 { define a { } }", "S2 line 1 column 12"),
    ("define a { define b { } }", "S2 line 1 column 12"),
    ("define abcdefghijklmnop { } call abcdefghijklmnop", "none"),
    (
        "define send { gap 50 } define define { call send } call define",
        "none",
    ),
];

/// Texts of a message alone.
const MESSAGES: &[Told] = &[
    ("A rx 5 1 [0001 0002 0003]", "none"),
    ("A rx 5 1 []", "S4 line 1 column 3 M3"),
    ("A rx 31 1 [0001]", "S4 line 1 column 3 M1"),
    ("A rx 5 0 [0001]", "S4 line 1 column 3 M2"),
    ("C rx 5 1 [0001]", "S2 line 1 column 1"),
    ("A rx 5 1 [0001] send", "S2 line 1 column 17"),
    ("B", "S5 line 1 column 2"),
];

/// Why this text is no script.
fn has_fault(rt: &impl Abort, alloc: Global, text: &str, fault: &str) {
    let found = parse(alloc, text.as_bytes()).err();
    is_fault(rt, alloc, text, found, fault);
}

/// Why this text is no message.
fn message_has_fault(rt: &impl Abort, alloc: Global, text: &str, fault: &str) {
    let found = read_send(text.as_bytes()).err();
    is_fault(rt, alloc, text, found, fault);
}

/// Why the texts of a table are no scripts.
fn each_fault(rt: &impl Abort, alloc: Global, table: &[Told]) {
    for (text, fault) in table {
        has_fault(rt, alloc, text, fault);
    }
}

#[test]
fn faults_and_their_places(rt: HostRuntime) {
    for table in [MISPLACED, WRONG_NUMBERS, EARLY_ENDS, RANGES, NAMES] {
        each_fault(&rt, rt.alloc(), table);
    }
    for (text, fault) in MESSAGES {
        message_has_fault(&rt, rt.alloc(), text, fault);
    }
}

/// A text, then one piece a number of times, then another text; and what is printed of the fault of the whole.
type Repeated = (&'static str, &'static str, u32, &'static str, &'static str);

/// Sixteen blocks may stand in one another, and sixteen operators above a test. A call counts as deep as what it stands
/// for; the braces of a definition are no block.
const DEPTHS: &[Repeated] = &[
    ("", "repeat 1 { ", 17, "", "S6 line 1 column 186"),
    (
        "gap 50\n",
        "repeat 1 { ",
        17,
        " gap 60",
        "S6 line 2 column 186",
    ),
    ("", "if fail {\n", 17, "", "S6 line 17 column 9"),
    ("repeat 1 {", "}repeat 1 {", 17, "}", "none"),
    ("if ", "not ", 17, "fail { }", "S6 line 1 column 68"),
    ("gap 50 if ", "any ( ", 17, "", "S6 line 1 column 107"),
    (
        "if all ( fail ",
        "not ",
        16,
        "fail ) { }",
        "S6 line 1 column 75",
    ),
    ("if ", "not ", 16, "fail { }", "none"),
    (
        "define a { repeat 1 { } }\ndefine b { ",
        "repeat 1 { ",
        16,
        "call a",
        "S6 line 2 column 188",
    ),
    (
        "define a { repeat 1 { gap 50 } }\n",
        "repeat 1 { ",
        16,
        " call a",
        "S6 line 2 column 178",
    ),
    ("define a { ", "repeat 1 { ", 17, "", "S6 line 1 column 197"),
    (
        "define a { gap 50 }",
        "repeat 1 { call a } ",
        17,
        "",
        "none",
    ),
];

/// Puts a text behind another.
fn put(rt: &impl Abort, text: &mut String, more: &str) {
    text.push_str(more).expect(rt, "memory");
}

/// A text, then one piece a number of times, then another text.
pub(crate) fn repeated(
    rt: &impl Abort,
    alloc: Global,
    before: &str,
    piece: &str,
    times: u32,
    after: &str,
) -> String {
    let mut text = String::from_str(alloc, before).expect(rt, "memory");
    for _ in 0..times {
        put(rt, &mut text, piece);
    }
    put(rt, &mut text, after);
    text
}

/// Definitions of nothing.
fn definitions_of_nothing(rt: &impl Abort, alloc: Global, count: u32) -> String {
    let mut text = String::new(alloc);
    for i in 0..count {
        write!(text, "define d{i} {{ }}\n").expect(rt, "memory");
    }
    text
}

/// Definitions that call definitions, each twice the one before, and this text behind them.
fn definitions_that_double(rt: &impl Abort, alloc: Global, behind: &str) -> String {
    let mut text = String::new(alloc);
    put(rt, &mut text, "define d0 { send A mode 5 1 }\n");
    for below in 0..31 {
        let next = below + 1;
        write!(text, "define d{next} {{ call d{below} call d{below} }}\n").expect(rt, "memory");
    }
    put(rt, &mut text, behind);
    text
}

/// Why a text that was made is no script.
fn made_has_fault(rt: &impl Abort, alloc: Global, text: String, fault: &str) {
    has_fault(rt, alloc, text.as_str(), fault);
}

/// Why the text of a row is no script.
fn repeated_has_fault(rt: &impl Abort, alloc: Global, row: &Repeated) {
    let (before, piece, times, after, fault) = *row;
    let text = repeated(rt, alloc, before, piece, times, after);
    has_fault(rt, alloc, text.as_str(), fault);
}

#[test]
fn depths(rt: HostRuntime) {
    for row in DEPTHS {
        repeated_has_fault(&rt, rt.alloc(), row);
    }
}

// At most 32 definitions. The sum of those that double is found without writing them out.
#[test]
fn definitions(rt: HostRuntime) {
    let alloc = rt.alloc();
    let nothing = definitions_of_nothing(&rt, alloc, 33);
    made_has_fault(&rt, alloc, nothing, "S11 line 33 column 1");
    let uncalled = definitions_that_double(&rt, alloc, "");
    made_has_fault(&rt, alloc, uncalled, "none");
    let called = definitions_that_double(&rt, alloc, "call d31");
    made_has_fault(&rt, alloc, called, "S8 line 1 column 1");
}
