//! Bodies against the worked one of a message of five words.

use crate::tests::equal::same;
use crate::tests::messages::message_of;
use ch11_f1::body::messages;
use ch11_f1::{BodyError, Seen, put_record};
use std::process::Abort;

const WORKED: [u8; 28] = [
    0x01, 0x00, 0x00, 0x40, 0x00, 0x00, 0x00, 0x00, 0x00, 0x00, 0x00, 0x00, 0x00, 0x00, 0x50, 0x00,
    0x0A, 0x00, 0x23, 0x28, 0x01, 0x00, 0x02, 0x00, 0x03, 0x00, 0x00, 0x28,
];

/// The worked body with one byte made another.
fn changed(place: usize, byte: u8) -> [u8; 28] {
    let mut body = WORKED;
    if place < body.len() {
        body[place] = byte;
    }
    body
}

#[test]
fn puts_the_worked_record(rt: HostRuntime) {
    let message = message_of(0, 0x50, &[0x2823, 1, 2, 3, 0x2800]);
    let mut out = [0xFFu8; 96];
    assert!(rt; message.words.len() == 5);
    let count = put_record(&message, &mut out);
    let found = (count, &out[..24], &out[24..28]);
    same(&rt, &found, &(24, &WORKED[4..], [0xFF; 4].as_slice()));
}

#[test]
fn reads_the_worked_body(rt: HostRuntime) {
    let mut found = messages(&WORKED).ok().expect(&rt, "a body");
    let left = found.left();
    is_worked(&rt, found.next());
    let ends = (left, found.next().is_none(), found.next().is_none());
    same(&rt, &ends, &(1, true, true));
}

/// What is read of the worked body: stamp, block status, gaps and words.
fn is_worked(rt: &impl Abort, seen: Option<Seen<'_>>) {
    let seen = seen.expect(rt, "a message");
    let found = (seen.stamp, seen.block, seen.gaps, seen.words);
    same(rt, &found, &(0, 0, 0x50, &WORKED[18..]));
    are_worked_words(rt, &seen);
}

/// The words of the worked body: a command word, three data words, a status word, and none behind it.
fn are_worked_words(rt: &impl Abort, seen: &Seen<'_>) {
    let words = (seen.word(0), seen.word(3), seen.word(4), seen.word(5));
    let found = (seen.word_count(), words);
    same(rt, &found, &(5, (0x2823, 3, 0x2800, 0)));
}

/// The worked body with one byte made another, by its place: its fault, if any.
const CHANGED: [(usize, u8, Option<BodyError>); 6] = [
    (0, 2, Some(BodyError::End)),
    (0, 0, None),
    (3, 0x80, None),
    (16, 0x0B, Some(BodyError::Odd)),
    (16, 0x0C, Some(BodyError::End)),
    (16, 0x08, None),
];

#[test]
fn names_the_first_fault(rt: HostRuntime) {
    let fronts = (messages(&WORKED[..3]).err(), messages(&WORKED[..27]).err());
    let wanted = (Some(BodyError::Short), Some(BodyError::End));
    same(&rt, &fronts, &wanted);
    for (place, byte, fault) in CHANGED {
        let found = messages(&changed(place, byte)).err();
        same(&rt, &(place, byte, found), &(place, byte, fault));
    }
}
