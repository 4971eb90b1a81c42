//! The image of a tree that lies in an arena, and of a copy of it, against a worked image.
ghost use Rattle.frame_tree.specs.Bounds.{IsSound};
ghost use Rattle.frame_tree.specs.Tree.{tree_of};

use bumpalo::Bump;
use frame_asm::assemble;
use frame_code::write_image;
use frame_text::parse;
use frame_tree::Frame;
use std::alloc::{Allocator, Global};
use std::process::Abort;

const SCRIPT: &[u8] = b"repeat 3 { retry 2 send A rx 9 1 [0001] }";

/// The bytes of its image.
const IMAGE: [u8; 62] = [
    0x42, 0x43, 0x30, 0x31, 11, 0, 1, 0, // the mark and the counts
    4, 0, 3, 0, 1, 0, 0, 0, 4, 0, 2, 0, 8, 0, 0, 0, // Loop 3, Send 0, Loop 2, Test 0
    9, 0, 7, 0, 2, 0, 0, 0, 7, 0, 8, 0, 6, 0, 9, 0, // JumpFalse 7, Alt 0, Jump 8, Leave 9
    5, 0, 3, 0, 5, 0, 1, 0, 0, 0, 0, 0, // Again 3, Again 1, Halt
    0, 0, 0x21, 0x48, 0, 0, 1, 0, 1, 0, // the message
];

/// The bytes are these.
fn are_bytes(rt: &impl Abort, bytes: &[u8], wanted: &[u8]) {
    assert_eq!(rt; bytes, wanted);
}

/// The image of a tree has the bytes of the script's.
fn has_its_image<A: Allocator + Clone>(rt: &impl Abort, alloc: Global, frame: &Frame<A>)
    requires { IsSound (tree_of frame.now) }
{
    let image = assemble(alloc, frame).ok().expect(rt, "an image");
    let bytes = write_image(alloc, &image).ok().expect(rt, "memory");
    are_bytes(rt, &bytes, &IMAGE);
}

#[test]
fn a_tree_in_an_arena_has_the_same_image(rt: HostRuntime) {
    let bump = Bump::new(rt.alloc());
    let frame = parse(&bump, SCRIPT).ok().expect(&rt, "a frame");
    has_its_image(&rt, rt.alloc(), &frame);
    let copy = frame.copy_in(rt.alloc()).ok().expect(&rt, "memory");
    has_its_image(&rt, rt.alloc(), &copy);
}
