//! Status words and block bits as they stand on a bus and in a recording.
use crate::tests::equal::same_in;
use bitflags::Flags;
use mil_status::{BlockBits, StatusBit, StatusBits, status_word};
use std::process::Abort;

/// Bits, and the status word of terminal 5 that has them.
const SENT: &[(StatusBits, u16)] = &[
    (StatusBits(0), 0x2800),
    (StatusBits::MESSAGE_ERROR, 0x2c00),
    (StatusBits::BROADCAST, 0x2810),
    (StatusBits::BUSY, 0x2808),
    (StatusBits::TERMINAL, 0x2801),
];

#[test]
fn statuses(rt: HostRuntime) {
    for (bits, wanted) in SENT {
        same_in(&rt, "one bit", &status_word(5, *bits), wanted);
    }
    same_in(&rt, "no bit", &status_word(5, StatusBits::empty()), &0x2800);
    let unknown = status_word(7, StatusBits::from_bits_retain(0xf8e0));
    same_in(&rt, "bits that mean nothing", &unknown, &0x3800);
}

/// The bits by name, and the places at which they stand.
const BITS: &[(&str, u16, StatusBit)] = &[
    ("message_error", 10, StatusBit::MessageError),
    ("instrumentation", 9, StatusBit::Instrumentation),
    ("service_request", 8, StatusBit::ServiceRequest),
    ("broadcast", 4, StatusBit::Broadcast),
    ("busy", 3, StatusBit::Busy),
    ("subsystem", 2, StatusBit::Subsystem),
    ("control", 1, StatusBit::Control),
    ("terminal", 0, StatusBit::Terminal),
];

/// Places at which no bit stands.
const NO_PLACES: &[u16] = &[5, 6, 7, 11, 12, 13, 14, 15, 16];

/// Names that no bit has.
const NO_NAMES: &[&str] = &["", "Busy", "busy ", "reserved"];

#[test]
fn bits(rt: HostRuntime) {
    for (name, place, bit) in BITS {
        is_bit(&rt, name, *place, *bit);
    }
    for place in NO_PLACES {
        same_in(&rt, "no bit", &StatusBit::at(*place), &None);
    }
    for name in NO_NAMES {
        same_in(&rt, name, &StatusBit::named(name.as_bytes()), &None);
    }
    let control = StatusBits::from_name("control");
    same_in(&rt, "control", &control, &Some(StatusBits::CONTROL));
}

/// A bit has this name, and stands at this place.
fn is_bit(rt: &impl Abort, name: &str, place: u16, bit: StatusBit) {
    same_in(rt, name, &StatusBit::named(name.as_bytes()), &Some(bit));
    same_in(rt, name, &StatusBit::at(place), &Some(bit));
    same_in(rt, name, &u16::from(bit.place()), &place);
    same_in(rt, name, &bit.name(), &name);
}

#[test]
fn block_of_a_short_message_on_line_b(rt: HostRuntime) {
    let bits = BlockBits::LINE_B
        .union(BlockBits::MESSAGE_ERROR)
        .union(BlockBits::RESPONSE_TIMEOUT);
    let found = (bits.bits(), bits.contains(BlockBits::WORD_COUNT_ERROR));
    same_in(&rt, "bits", &found, &(0x3200, false));
}
