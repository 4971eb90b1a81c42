//! Images that are loaded, with their sums, and images that are refused.

ghost use Rattle.std.specs.Prelude.{◌≤◌};

use crate::tests::equal::same;
use crate::tests::worked::{LOOPS, POLLING, with_byte};
use frame_code::{Op, read_image};
use frame_load::LoadError::{Budget, End, Jumps, Messages, Nesting, Periods, Routines};
use frame_load::{LoadError, Program, load};
use std::alloc::Global;
use std::process::Abort;

/// The program of the image with these bytes.
pub(crate) fn loaded(rt: &impl Abort, alloc: Global, bytes: &[u8]) -> Program {
    let image = read_image(alloc, bytes).expect(rt, "an image");
    load(alloc, image).expect(rt, "a program")
}

/// A copy of the program of these bytes makes so many steps and sends so many messages at most, and has this operation
/// at place 7.
fn has_sums(rt: &impl Abort, alloc: Global, bytes: &[u8], sums: (u64, u64), op: Op) {
    let program = loaded(rt, alloc, bytes).copy().expect(rt, "memory");
    same(rt, &(program.budget(), program.worst_messages()), &sums);
    same(rt, &program.image().operations().get(7).copied(), &Some(op));
}

#[test]
fn programs_and_their_sums(rt: HostRuntime) {
    has_sums(&rt, rt.alloc(), &LOOPS, (47, 9), Op::Leave(9));
    // a routine counts with its calls
    has_sums(&rt, rt.alloc(), &POLLING, (70, 10), Op::Again(2));
}

// Why the image with these bytes is not loaded; None where they are no image.
fn refusal(alloc: Global, bytes: &[u8]) -> Option<LoadError> {
    let image = read_image(alloc, bytes).ok()?;
    load(alloc, image).err()
}

fn is_refused(rt: &impl Abort, alloc: Global, bytes: &[u8], fault: LoadError) {
    same(rt, &refusal(alloc, bytes), &Some(fault));
}

/// Images that are refused, with their faults.
const REFUSED: &[(&[u8], LoadError)] = &[
    (
        &[
            0x42, 0x43, 0x30, 0x32, 2, 0, 0, 0, 10, 0, 0, 0, 0, 0, 0, 0, // Call 0, Halt
        ],
        Routines,
    ),
    (
        &[
            0x42, 0x43, 0x30, 0x32, 3, 0, 0, 0, // three operations
            10, 0, 0, 0, 11, 0, 0, 0, 0, 0, 0, 0, // Call 0, Return, Halt
        ],
        Routines,
    ),
    (
        &[
            0x42, 0x43, 0x30, 0x31, 2, 0, 0, 0, 7, 0, 0, 0, 0, 0, 0, 0, // Jump 0, Halt
        ],
        Jumps,
    ),
    (
        &[
            0x42, 0x43, 0x30, 0x31, 2, 0, 0, 0, 5, 0, 0, 0, 0, 0, 0, 0, // Again 0, Halt
        ],
        Nesting,
    ),
    (
        &[
            0x42, 0x43, 0x30, 0x31, 2, 0, 0, 0, 1, 0, 0, 0, 0, 0, 0, 0, // Send 0, Halt
        ],
        Messages,
    ),
    (&[0x42, 0x43, 0x30, 0x31, 0, 0, 0, 0], End),
    (
        &[
            0x42, 0x43, 0x30, 0x31, 6, 0, 0, 0, // six operations
            4, 0, 0x10, 0x27, 4, 0, 0x10, 0x27, 3, 0, 40, 0, // Loop 10000, Loop 10000, SetGap 40
            5, 0, 2, 0, 5, 0, 1, 0, 0, 0, 0, 0, // Again 2, Again 1, Halt
        ],
        Budget,
    ),
    (
        &[
            0x42, 0x43, 0x30, 0x33, 2, 0, 0, 0, 12, 0, 0, 0, 0, 0, 0, 0, // Begin, Halt
        ],
        Nesting,
    ),
    (
        &[
            0x42, 0x43, 0x30, 0x33, 2, 0, 0, 0, 13, 0, 1, 0, 0, 0, 0, 0, // Pace 1, Halt
        ],
        Nesting,
    ),
    (
        &[
            0x42, 0x43, 0x30, 0x33, 5, 0, 0, 0, // five operations
            12, 0, 0, 0, 4, 0, 2, 0, 13, 0, 1, 0, // Begin, Loop 2, Pace 1
            5, 0, 2, 0, 0, 0, 0, 0, // Again 2, Halt
        ],
        Nesting,
    ),
    (
        &[
            0x42, 0x43, 0x30, 0x33, 6, 0, 0, 0, // six operations
            4, 0, 2, 0, 12, 0, 0, 0, 6, 0, 5, 0, // Loop 2, Begin, Leave 5
            13, 0, 1, 0, 5, 0, 1, 0, 0, 0, 0, 0, // Pace 1, Again 1, Halt
        ],
        Jumps,
    ),
    (
        &[
            0x42, 0x43, 0x30, 0x33, 4, 0, 0, 0, // four operations
            7, 0, 2, 0, 12, 0, 0, 0, 13, 0, 1, 0, // Jump 2, Begin, Pace 1
            0, 0, 0, 0, // Halt
        ],
        Jumps,
    ),
    (
        &[
            0x42, 0x43, 0x30, 0x33, 7, 0, 0, 0, // seven operations
            4, 0, 0x10, 0x27, 4, 0, 0xE8, 0x03, 12, 0, 0, 0, // Loop 10000, Loop 1000, Begin
            13, 0, 0xFF, 0xFF, 5, 0, 2, 0, 5, 0, 1, 0, 0, 0, 0, 0, // Pace 65535, Again 2, Again 1, Halt
        ],
        Periods,
    ),
];

/// Puts bytes behind others.
fn put(rt: &impl Abort, bytes: &mut Vec<u8>, more: &[u8]) {
    bytes.extend_from_slice(more).expect(rt, "memory");
}

// So many loops of 10,000 around nothing, with Halt behind them.
fn nested(rt: &impl Abort, alloc: Global, depth: u8) -> Vec<u8>
    requires { depth ≤ 18 }
{
    let mut bytes = Vec::new(alloc);
    put(rt, &mut bytes, b"BC01");
    put(rt, &mut bytes, &[2 * depth + 1, 0, 0, 0]);
    for _ in 0..depth {
        put(rt, &mut bytes, &[4, 0, 0x10, 0x27]);
    }
    for turn in 0..depth {
        put(rt, &mut bytes, &[5, 0, depth - turn, 0]);
    }
    put(rt, &mut bytes, &[0, 0, 0, 0]);
    bytes
}

/// So many loops in one another are refused.
fn are_refused(rt: &impl Abort, alloc: Global, depth: u8, fault: LoadError)
    requires { depth ≤ 18 }
{
    is_refused(rt, alloc, nested(rt, alloc, depth).as_slice(), fault);
}

#[test]
fn images_that_are_refused(rt: HostRuntime) {
    for (bytes, fault) in REFUSED {
        is_refused(&rt, rt.alloc(), bytes, *fault);
    }
    // jumps that lead elsewhere
    is_refused(&rt, rt.alloc(), &with_byte(LOOPS, 36, 7), Jumps);
    is_refused(&rt, rt.alloc(), &with_byte(LOOPS, 38, 8), Jumps);
    are_refused(&rt, rt.alloc(), 17, Budget);
    are_refused(&rt, rt.alloc(), 18, Nesting);
}
