//! A frame and its image.

use crate::tests::images::is_written;
use crate::tests::worked::{LOOPS, POLLING, polling, repeat, retry};
use frame_asm::assemble;
use frame_code::Image;
use frame_text::parse;
use frame_tree::Frame;
use std::alloc::Global;
use std::process::Abort;

/// A frame with a period in a repeat.
const PACED_TURNS: &str = "repeat 3 { frame 1000 { send A rx 5 1 [0001] } }";

/// The bytes of its image.
const PACED_LOOP: [u8; 42] = [
    0x42, 0x43, 0x30, 0x33, 6, 0, 1, 0, // the mark and the counts
    4, 0, 3, 0, 12, 0, 0, 0, 1, 0, 0, 0, // Loop 3, Begin, Send 0
    13, 0, 10, 0, 5, 0, 1, 0, 0, 0, 0, 0, // Pace 10, Again 1, Halt
    0, 0, 0x21, 0x28, 0, 0, 1, 0, 1, 0, // a word to terminal 5
];

/// The frame that a text spells.
pub(crate) fn spelled(rt: &impl Abort, alloc: Global, text: &str) -> Frame<Global> {
    parse(alloc, text.as_bytes()).expect(rt, text)
}

/// The image of a frame, which is sound.
fn assembled(rt: &impl Abort, alloc: Global, frame: &Frame<Global>) -> Image {
    assert!(rt; frame.sound());
    assemble(alloc, frame).expect(rt, "the image")
}

/// The image of the frame is written as these bytes.
fn is_assembled(rt: &impl Abort, alloc: Global, frame: Frame<Global>, bytes: &[u8]) {
    let image = assembled(rt, alloc, &frame);
    is_written(rt, alloc, &image, bytes);
}

// A repeat of a retry, a routine and its calls, and a frame with a period in a repeat.
#[test]
fn frames_and_their_images(rt: HostRuntime) {
    let alloc = rt.alloc();
    is_assembled(&rt, alloc, repeat(&rt, alloc, 3, retry(&rt)), &LOOPS);
    is_assembled(&rt, alloc, polling(&rt, alloc), &POLLING);
    is_assembled(&rt, alloc, spelled(&rt, alloc, PACED_TURNS), &PACED_LOOP);
}
