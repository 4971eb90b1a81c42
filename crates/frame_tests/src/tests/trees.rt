//! Trees: a script with a retry in a repeat, and scripts with definitions.
ghost use Rattle.std.specs.Prelude.{◌≤◌};

use crate::tests::equal::{are_bytes, same};
use crate::tests::worked::{call, copied, define, name, polling, repeat, retry, sequence};
use frame_tree::{Cond, Frame, Name, Scope};
use mil_message::OutcomeTest;
use mil_status::StatusBit;
use std::alloc::Global;
use std::process::Abort;

/// A sequence of one frame.
fn alone(rt: &impl Abort, alloc: Global, frame: Frame<Global>) -> Frame<Global> {
    let mut frames = Vec::new(alloc);
    frames.push(frame).expect(rt, "memory");
    Frame::Seq(frames)
}

/// `repeat 3 { retry 2 send A rx 9 1 [0001] }`
fn script(rt: &impl Abort, alloc: Global) -> Frame<Global> {
    repeat(rt, alloc, 3, alone(rt, alloc, retry(rt)))
}

/// How deep its blocks stand in one another, how many messages it sends at most, and whether it is sound.
fn size(frame: &Frame<Global>) -> (u32, u32, bool) {
    (frame.depth(), frame.worst_messages(), frame.sound())
}

/// The same of a copy.
fn copied_size(rt: &impl Abort, alloc: Global, frame: &Frame<Global>) -> (u32, u32, bool) {
    let copy = copied(rt, alloc, frame);
    size(&copy)
}

/// The frame is sound and as large as this, and so is its copy.
fn has_size(rt: &impl Abort, alloc: Global, frame: Frame<Global>, depth: u32, messages: u32) {
    let sizes = (size(&frame), copied_size(rt, alloc, &frame));
    let wanted = (depth, messages, true);
    same(rt, &sizes, &(wanted, wanted));
}

/// `not bit busy`
fn not_busy(rt: &impl Abort, alloc: Global) -> Cond<Global> {
    let busy = Cond::Test(OutcomeTest::Bit(StatusBit::Busy));
    Cond::Not(Box::new(alloc, busy).expect(rt, "memory"))
}

/// How many operators a copy of a condition has.
fn operators(rt: &impl Abort, alloc: Global, condition: &Cond<Global>) -> u32 {
    let copied: Cond<Global> = condition.copy_in(&alloc).expect(rt, "memory");
    copied.operators()
}

/// Those of `not bit busy`.
fn operators_of_not(rt: &impl Abort, alloc: Global) -> u32 {
    let not = not_busy(rt, alloc);
    operators(rt, alloc, &not)
}

#[test]
fn sizes(rt: HostRuntime) {
    let alloc = rt.alloc();
    has_size(&rt, alloc, script(&rt, alloc), 1, 9);
    has_size(&rt, alloc, polling(&rt, alloc), 1, 10);
    same(&rt, &operators_of_not(&rt, alloc), &1);
}

/// `define .. { call .. call .. } ..`
fn twice(
    rt: &impl Abort,
    alloc: Global,
    name: &[u8],
    callee: &[u8],
    rest: Frame<Global>,
) -> Frame<Global> {
    let body = sequence(rt, alloc, call(rt, callee), call(rt, callee));
    define(rt, alloc, name, body, rest)
}

// define aa { send .. } define ab { call aa call aa } .. up to the letter, and a call of the last
fn doubling(rt: &impl Abort, alloc: Global, last: u8) -> Frame<Global>
    requires { (97 ≤ last) × (last ≤ 122) }
{
    let mut frame = call(rt, &[b'a', last]);
    for letter in b'a'..last {
        let callee = last - (letter - b'a') - 1;
        frame = twice(rt, alloc, &[b'a', callee + 1], &[b'a', callee], frame);
    }
    define(rt, alloc, b"aa", script(rt, alloc), frame)
}

/// How many messages definitions up to the letter send at most, and whether they are sound.
fn doubled(rt: &impl Abort, alloc: Global, last: u8) -> (u32, bool)
    requires { (97 ≤ last) × (last ≤ 122) }
{
    let frame = doubling(rt, alloc, last);
    (frame.worst_messages(), frame.sound())
}

#[test]
fn definitions(rt: HostRuntime) {
    same(&rt, &doubled(&rt, rt.alloc(), b'z'), &(1_000_001, false));
    same(&rt, &doubled(&rt, rt.alloc(), b'c'), &(36, true));
}

fn is_name(bytes: &[u8]) -> bool {
    Name::new(bytes).is_some()
}

/// A name of sixteen bytes is found where it stands, and is not the other.
fn is_found(rt: &impl Abort, long: &Name, other: &Name) {
    are_bytes(rt, long.copy().bytes(), b"abcdefghij_12345");
    let scope = Scope::With(long, 7, &Scope::Empty);
    let found = (scope.number_of(long), scope.has(long), long.is(other));
    same(rt, &found, &(7, true, false));
}

#[test]
fn names(rt: HostRuntime) {
    let are_names = (is_name(b"2nd"), is_name(b"abcdefghij_123456"));
    same(&rt, &are_names, &(false, false));
    is_found(&rt, &name(&rt, b"abcdefghij_12345"), &name(&rt, b"poll"));
}
