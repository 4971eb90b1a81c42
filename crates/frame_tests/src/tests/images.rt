//! Images and their bytes.

use crate::tests::equal::{are_bytes, same};
use crate::tests::worked::{LOOPS, PACED, POLLING, with_byte};
use frame_code::ImageError::{Length, Mark, Messages, Operations, Version};
use frame_code::Op::{
    Again, Alt, Begin, Call, Halt, Jump, JumpFalse, Leave, Loop, Pace, Return, Send, Test,
};
use frame_code::{Image, ImageError, Op, read_image, write_image};
use mil_message::OutcomeTest;
use mil_status::StatusBit;
use mil_word::Line;
use std::alloc::Global;
use std::process::Abort;

/// The operations of `LOOPS`.
const LOOPING: [Op; 11] = [
    Loop(3),
    Send(0),
    Loop(2),
    Test(OutcomeTest::Failed),
    JumpFalse(7),
    Alt(0),
    Jump(8),
    Leave(9),
    Again(3),
    Again(1),
    Halt,
];

/// The operations of `POLLING`.
const CALLING: [Op; 20] = [
    Send(0),
    Loop(1),
    Test(OutcomeTest::Failed),
    JumpFalse(6),
    Alt(0),
    Jump(7),
    Leave(8),
    Again(2),
    Return,
    Loop(2),
    Call(0),
    Again(10),
    Loop(3),
    Test(OutcomeTest::Failed),
    JumpFalse(17),
    Jump(16),
    Leave(19),
    Call(0),
    Again(13),
    Halt,
];

/// The operations of `PACED` with the longest period.
const LONGEST: [Op; 4] = [Begin, Send(0), Pace(65_535), Halt];

/// Bytes, and the operations of their image.
const SPELLED: &[(&[u8], &[Op])] = &[
    (&LOOPS, &LOOPING),
    (&POLLING, &CALLING),
    (&PACED, &[Begin, Send(0), Pace(10), Halt]),
];

/// The tests that an operation may have, by the numbers that an image gives them.
const TESTS: &[(u8, OutcomeTest)] = &[
    (0, OutcomeTest::Failed),
    (1, OutcomeTest::Silent),
    (16, OutcomeTest::Bit(StatusBit::Terminal)),
    (17, OutcomeTest::Bit(StatusBit::Control)),
    (18, OutcomeTest::Bit(StatusBit::Subsystem)),
    (19, OutcomeTest::Bit(StatusBit::Busy)),
    (20, OutcomeTest::Bit(StatusBit::Broadcast)),
    (24, OutcomeTest::Bit(StatusBit::ServiceRequest)),
    (25, OutcomeTest::Bit(StatusBit::Instrumentation)),
    (26, OutcomeTest::Bit(StatusBit::MessageError)),
];

/// The image is written as these bytes.
pub(crate) fn is_written(rt: &impl Abort, alloc: Global, image: &Image, bytes: &[u8]) {
    let written = write_image(alloc, image).expect(rt, "memory");
    are_bytes(rt, written.as_slice(), bytes);
}

/// The image that these bytes spell, in a copy.
fn spelled(rt: &impl Abort, alloc: Global, bytes: &[u8]) -> Image {
    let image = read_image(alloc, bytes).expect(rt, "an image");
    image.copy().expect(rt, "memory")
}

/// The bytes spell an image of these operations and of one message, which is written as the same bytes.
fn spell(rt: &impl Abort, alloc: Global, bytes: &[u8], operations: &[Op]) {
    let image = spelled(rt, alloc, bytes);
    same(rt, &image.operations(), &operations);
    same(rt, &image.messages().len(), &1);
    is_written(rt, alloc, &image, bytes);
}

/// With this number the fourth operation of `LOOPS` is this test.
fn is_test(rt: &impl Abort, alloc: Global, number: u8, test: OutcomeTest) {
    let mut operations = LOOPING;
    operations[3] = Test(test);
    spell(rt, alloc, &with_byte(LOOPS, 22, number), &operations);
}

/// The image sends messages on line A alone, each of this command and these words.
fn sends(rt: &impl Abort, image: &Image, command: u16, words: &[u16]) {
    for (line, message) in image.messages() {
        same(rt, line, &Line::A);
        same(rt, &message.commands().first.value(), &command);
        same(rt, &message.data_words(), &words);
    }
}

#[test]
fn bytes_to_image_and_back(rt: HostRuntime) {
    for (bytes, operations) in SPELLED {
        spell(&rt, rt.alloc(), bytes, operations);
    }
    for (number, test) in TESTS {
        is_test(&rt, rt.alloc(), *number, *test);
    }
    let longest = with_byte(with_byte(PACED, 18, 0xff), 19, 0xff);
    spell(&rt, rt.alloc(), &longest, &LONGEST);
    sends(&rt, &spelled(&rt, rt.alloc(), &PACED), 0x2821, &[1]);
}

/// A change of one byte, by its place, and the fault that the bytes have then.
type Changed = (usize, u8, ImageError);

/// Changes of `LOOPS`.
const LOOPS_CHANGED: &[Changed] = &[
    (8, 0x0a, Operations),
    (52, 0x0a, Messages),
    // BC02 and BC03 where BC01 knows all operations
    (3, 0x32, Version),
    (3, 0x33, Version),
    // tests that no operation has
    (22, 2, Operations),
    (22, 15, Operations),
    (22, 21, Operations),
    (22, 23, Operations),
    (22, 27, Operations),
    (22, 255, Operations),
];

/// Changes of `POLLING`: BC01 does not know its operations, and BC02 knows them all.
const POLLING_CHANGED: &[Changed] = &[(3, 0x31, Operations), (3, 0x33, Version)];

/// Changes of `PACED`.
const PACED_CHANGED: &[Changed] = &[
    // neither BC02 nor BC01 knows Begin, and there is no BC04
    (3, 0x32, Operations),
    (3, 0x31, Operations),
    (3, 0x34, Mark),
    // number 14, Begin with an operand, Pace 0
    (8, 14, Operations),
    (10, 1, Operations),
    (18, 0, Operations),
];

fn has_fault(rt: &impl Abort, alloc: Global, bytes: &[u8], fault: ImageError) {
    same(rt, &read_image(alloc, bytes).err(), &Some(fault));
}

/// The bytes have the fault of each change.
fn have_faults<const N: usize>(
    rt: &impl Abort,
    alloc: Global,
    bytes: [u8; N],
    changes: &[Changed],
) {
    for (place, byte, fault) in changes {
        has_fault(rt, alloc, &with_byte(bytes, *place, *byte), *fault);
    }
}

/// `LOOPS` with a byte more.
fn longer() -> [u8; 63] {
    let mut longer = [0; 63];
    longer[..62].copy_from_slice(&LOOPS);
    longer
}

#[test]
fn the_first_fault_of_bytes(rt: HostRuntime) {
    let alloc = rt.alloc();
    has_fault(&rt, alloc, &LOOPS[..3], Mark);
    has_fault(&rt, alloc, &LOOPS[..61], Length);
    has_fault(&rt, alloc, &longer(), Length);
    have_faults(&rt, alloc, LOOPS, LOOPS_CHANGED);
    have_faults(&rt, alloc, POLLING, POLLING_CHANGED);
    have_faults(&rt, alloc, PACED, PACED_CHANGED);
}
