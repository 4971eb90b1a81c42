//! What frames print as.
use crate::tests::assembling::spelled;
use crate::tests::equal::reads;
use crate::tests::worked::{boxed, copied, sequence};
use bumpalo::Bump;
use frame_text::{parse, print};
use frame_tree::{Cond, Frame};
use mil_message::OutcomeTest;
use mil_status::StatusBit;
use std::alloc::{Allocator, Global};
use std::process::Abort;

/// Texts, and what they print as.
const PRINTED: &[(&str, &str)] = &[
    (
        "frame 0020000{frame 100{}gap 50}",
        "frame 20000 {\n  frame 100 {\n  }\n  gap 50\n}\n",
    ),
    (
        "if any(fail silent){gap 50}",
        "if any ( fail silent ) {\n  gap 50\n}\n",
    ),
    (
        "repeat 3 { retry 2 send A rx 9 1 [0001] }",
        "repeat 3 {\n  retry 2 send A rx 9 1 [0001]\n}\n",
    ),
    ("", ""),
    ("repeat 0002{#\n}", "repeat 2 {\n}\n"),
    ("if fail { } else { }", "if fail {\n}\n"),
    (
        "until not fail at most 0003{until silent at most 1{}gap 50}",
        "until not fail at most 3 {\n  until silent at most 1 {\n  }\n  gap 50\n}\n",
    ),
    (
        "define poll{retry 1 send A mode 5 1}define all{call poll repeat 2{call poll}}call all",
        "define poll {\n  retry 1 send A mode 5 1\n}\ndefine all {\n  call poll\n  repeat 2 {\n    call poll\n  }\n\
         }\ncall all\n",
    ),
    (
        "if fail{gap 50}else{if silent{}else{gap 60 gap 70}}gap 80",
        "if fail {\n  gap 50\n} else {\n  if silent {\n  } else {\n    gap 60\n    gap 70\n  }\n}\ngap 80\n",
    ),
    ("send A rx 05 1 [beef Af09]", "send A rx 5 1 [BEEF AF09]\n"),
    (
        "if not all(bit busy any(bit message_error not silent)){gap 40}",
        "if not all ( bit busy any ( bit message_error not silent ) ) {\n  gap 40\n}\n",
    ),
];

/// Messages of all kinds, as they are printed.
const MESSAGES: &str = "send A rx 5 1 [0001 BEEF]\n\
    send B tx 5 2 32\n\
    send A rt 7 1 3 4 2\n\
    send A mode 5 2\n\
    send B mode0 5 15\n\
    send A mode 5 18\n\
    send A mode0 5 22\n\
    send A mode 5 22 [00AF]\n\
    send A mode0 5 20 [CAFE]\n\
    send A brx 30 [FFFF]\n\
    send A brt 5 1 2 3\n\
    send A bmode 1\n\
    send A bmode0 8\n\
    send A bmode 17 [1234]\n\
    send B bmode0 20 [9090]\n\
    retry 8 send B rx 0 1 [0000]\n";

/// Each named bit, as it is printed.
const BITS: &[&str] = &[
    "if bit message_error {\n}\n",
    "if bit instrumentation {\n}\n",
    "if bit service_request {\n}\n",
    "if bit broadcast {\n}\n",
    "if bit busy {\n}\n",
    "if bit subsystem {\n}\n",
    "if bit control {\n}\n",
    "if bit terminal {\n}\n",
];

/// The frame prints as this text.
fn is_printed<A: Allocator + Clone>(
    rt: &impl Abort,
    alloc: Global,
    frame: &Frame<A>,
    expected: &str,
) {
    let printed = print(alloc, frame).expect(rt, "memory");
    reads(rt, expected, printed.as_str(), expected);
}

/// The frame of a text prints as another text.
fn prints(rt: &impl Abort, alloc: Global, text: &str, expected: &str) {
    let frame = spelled(rt, alloc, text);
    is_printed(rt, alloc, &frame, expected);
}

/// A text prints as another, which prints as itself.
fn prints_as(rt: &impl Abort, alloc: Global, text: &str, expected: &str) {
    prints(rt, alloc, text, expected);
    prints(rt, alloc, expected, expected);
}

#[test]
fn texts(rt: HostRuntime) {
    for (text, expected) in PRINTED {
        prints_as(&rt, rt.alloc(), text, expected);
    }
    for text in BITS {
        prints_as(&rt, rt.alloc(), text, text);
    }
    prints_as(&rt, rt.alloc(), MESSAGES, MESSAGES);
}

/// A text of all that has memory of its own.
const NESTED: &str =
    "repeat 3 { if any(fail silent) { retry 2 send A rx 9 1 [0001] } else { gap 50 } }";

/// What is printed of it.
const NESTED_PRINTED: &str =
    "repeat 3 {\n  if any ( fail silent ) {\n    retry 2 send A rx 9 1 [0001]\n  } else {\n    gap 50\n  }\n}\n";

/// The frame that `NESTED` spells, in an arena.
fn nested<'a>(rt: &impl Abort, arena: &'a Bump) -> Frame<&'a Bump> {
    parse(arena, NESTED.as_bytes()).expect(rt, NESTED)
}

/// The frame is printed as `NESTED_PRINTED`, and so is its copy elsewhere.
fn print_alike(rt: &impl Abort, alloc: Global, frame: &Frame<&Bump>) {
    is_printed(rt, alloc, frame, NESTED_PRINTED);
    let copy = copied(rt, alloc, frame);
    is_printed(rt, alloc, &copy, NESTED_PRINTED);
}

/// A frame of an arena.
fn arena_prints(rt: &impl Abort, alloc: Global, arena: &Bump) {
    let frame = nested(rt, arena);
    print_alike(rt, alloc, &frame);
}

#[test]
fn arena(rt: HostRuntime) {
    let arena = Bump::new(rt.alloc());
    arena_prints(&rt, rt.alloc(), &arena);
}

/// Two gaps, of which the first stands in a sequence of its own.
fn gaps(rt: &impl Abort, alloc: Global) -> Frame<Global> {
    let none = Frame::Seq(Vec::new(alloc));
    let inner = sequence(rt, alloc, Frame::Gap(40), none);
    sequence(rt, alloc, inner, Frame::Gap(50))
}

/// Two sequences of nothing.
fn nothing(rt: &impl Abort, alloc: Global) -> Frame<Global> {
    let first = Frame::Seq(Vec::new(alloc));
    sequence(rt, alloc, first, Frame::Seq(Vec::new(alloc)))
}

/// A choice between these.
fn choice(rt: &impl Abort, alloc: Global) -> Frame<Global> {
    let then = boxed(rt, alloc, gaps(rt, alloc));
    let otherwise = boxed(rt, alloc, nothing(rt, alloc));
    Frame::If {
        condition: Cond::Test(OutcomeTest::Bit(StatusBit::Broadcast)),
        then,
        otherwise,
    }
}

/// As it is printed.
const CHOICE_PRINTED: &str = "if bit broadcast {\n  gap 40\n  gap 50\n}\n";

// Frames that no text has: a sequence in a sequence stands in line, and an else without a frame is left out.
#[test]
fn sequences(rt: HostRuntime) {
    let alloc = rt.alloc();
    is_printed(&rt, alloc, &gaps(&rt, alloc), "gap 40\ngap 50\n");
    is_printed(&rt, alloc, &choice(&rt, alloc), CHOICE_PRINTED);
}
