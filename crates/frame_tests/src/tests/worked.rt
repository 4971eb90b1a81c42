//! Images and a script worked by hand, which several of the tests start from.

use frame_tree::{Cond, Frame, Name};
use mil_message::{Draft, Message, ModeSubaddress, OutcomeTest};
use mil_word::Line;
use std::alloc::{Allocator, Global};
use std::process::Abort;

/// The bytes of the image of `repeat 3 { retry 2 send A rx 9 1 [0001] }`.
pub const LOOPS: [u8; 62] = [
    0x42, 0x43, 0x30, 0x31, 11, 0, 1, 0, // the mark and the counts
    4, 0, 3, 0, 1, 0, 0, 0, 4, 0, 2, 0, 8, 0, 0, 0, // Loop 3, Send 0, Loop 2, Test 0
    9, 0, 7, 0, 2, 0, 0, 0, 7, 0, 8, 0, 6, 0, 9, 0, // JumpFalse 7, Alt 0, Jump 8, Leave 9
    5, 0, 3, 0, 5, 0, 1, 0, 0, 0, 0, 0, // Again 3, Again 1, Halt
    0, 0, 0x21, 0x48, 0, 0, 1, 0, 1, 0, // the message
];

/// The bytes of the image of the script of `polling`.
pub const POLLING: [u8; 96] = [
    0x42, 0x43, 0x30, 0x32, 20, 0, 1, 0, // the mark and the counts
    1, 0, 0, 0, 4, 0, 1, 0, 8, 0, 0, 0, 9, 0, 6, 0, // Send 0, Loop 1, Test 0, JumpFalse 6
    2, 0, 0, 0, 7, 0, 7, 0, 6, 0, 8, 0, 5, 0, 2, 0, // Alt 0, Jump 7, Leave 8, Again 2
    11, 0, 0, 0, 4, 0, 2, 0, 10, 0, 0, 0, 5, 0, 10, 0, // Return, Loop 2, Call 0, Again 10
    4, 0, 3, 0, 8, 0, 0, 0, 9, 0, 17, 0, 7, 0, 16, 0, // Loop 3, Test 0, JumpFalse 17, Jump 16
    6, 0, 19, 0, 10, 0, 0, 0, 5, 0, 13, 0, 0, 0, 0, 0, // Leave 19, Call 0, Again 13, Halt
    3, 0, 0xe1, 0x2f, 0, 0, 0, 0, // the message
];

/// The bytes of the image of `frame 1000 { send A rx 5 1 [0001] }`.
pub const PACED: [u8; 34] = [
    0x42, 0x43, 0x30, 0x33, 4, 0, 1, 0, // the mark and the counts
    12, 0, 0, 0, 1, 0, 0, 0, 13, 0, 10, 0, 0, 0, 0, 0, // Begin, Send 0, Pace 10, Halt
    0, 0, 0x21, 0x28, 0, 0, 1, 0, 1, 0, // the message
];

/// The bytes with another one at this place, where there is one.
pub(crate) fn with_byte<const N: usize>(mut bytes: [u8; N], place: usize, byte: u8) -> [u8; N] {
    if let Some(at) = bytes.get_mut(place) {
        *at = byte;
    }
    bytes
}

/// The name of these bytes.
pub(crate) fn name(rt: &impl Abort, bytes: &[u8]) -> Name {
    Name::new(bytes).expect(rt, "a name")
}

/// A call of the frame of this name.
pub(crate) fn call(rt: &impl Abort, bytes: &[u8]) -> Frame<Global> {
    Frame::Call(name(rt, bytes))
}

/// A frame in a box of its own.
pub(crate) fn boxed(rt: &impl Abort, alloc: Global, frame: Frame<Global>) -> Box<Frame<Global>> {
    Box::new(alloc, frame).expect(rt, "memory")
}

/// Two frames, one after the other.
pub(crate) fn sequence(
    rt: &impl Abort,
    alloc: Global,
    first: Frame<Global>,
    second: Frame<Global>,
) -> Frame<Global> {
    let mut frames = Vec::new(alloc);
    frames.push(first).expect(rt, "memory");
    frames.push(second).expect(rt, "memory");
    Frame::Seq(frames)
}

/// `define .. { .. } ..`
pub(crate) fn define(
    rt: &impl Abort,
    alloc: Global,
    bytes: &[u8],
    body: Frame<Global>,
    rest: Frame<Global>,
) -> Frame<Global> {
    Frame::Define {
        name: name(rt, bytes),
        body: boxed(rt, alloc, body),
        rest: boxed(rt, alloc, rest),
    }
}

/// `repeat .. { .. }`
pub(crate) fn repeat(
    rt: &impl Abort,
    alloc: Global,
    count: u16,
    body: Frame<Global>,
) -> Frame<Global> {
    let body = boxed(rt, alloc, body);
    Frame::Repeat { count, body }
}

/// `retry .. send A ..`
fn retry_of(rt: &impl Abort, count: u8, draft: Draft) -> Frame<Global> {
    Frame::Retry {
        count,
        line: Line::A,
        message: Message::check(draft).expect(rt, "a message"),
    }
}

/// `retry 2 send A rx 9 1 [0001]`
pub(crate) fn retry(rt: &impl Abort) -> Frame<Global> {
    let draft = Draft::ToTerminal {
        address: 9,
        subaddress: 1,
        words: &[1],
    };
    retry_of(rt, 2, draft)
}

/// `retry 1 send A mode 5 1`
fn poll(rt: &impl Abort) -> Frame<Global> {
    let draft = Draft::Mode {
        address: 5,
        code: 1,
        subaddress: ModeSubaddress::ThirtyOne,
        words: None,
    };
    retry_of(rt, 1, draft)
}

/// `until fail at most 3 { call poll }`
fn until_fail(rt: &impl Abort, alloc: Global) -> Frame<Global> {
    let body = boxed(rt, alloc, call(rt, b"poll"));
    Frame::Until {
        condition: Cond::Test(OutcomeTest::Failed),
        count: 3,
        body,
    }
}

/// `define poll { retry 1 send A mode 5 1 } repeat 2 { call poll } until fail at most 3 { call poll }`
pub(crate) fn polling(rt: &impl Abort, alloc: Global) -> Frame<Global> {
    let twice = repeat(rt, alloc, 2, call(rt, b"poll"));
    let main = sequence(rt, alloc, twice, until_fail(rt, alloc));
    define(rt, alloc, b"poll", poll(rt), main)
}

/// The same frame, in memory of its own.
pub(crate) fn copied<A: Allocator + Clone>(
    rt: &impl Abort,
    alloc: Global,
    frame: &Frame<A>,
) -> Frame<Global> {
    frame.copy_in(alloc).expect(rt, "memory")
}
