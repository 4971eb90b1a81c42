//! The waves of two words, all single damages of them, and the fields of known command and status words.
ghost use Rattle.std.specs.Prelude.{◌<◌, ◌^◌};

use crate::tests::equal::same_in;
use crate::tests::plain;
use mil_word::{Command, Status, Sync, Wave, Word, decode, encode, raw_bits};
use std::process::Abort;

fn data_word() -> Word {
    Word {
        sync: Sync::DataSync,
        value: 0x0000,
    }
}

fn command_word() -> Word {
    Word {
        sync: Sync::CommandSync,
        value: 0x2823,
    }
}

/// A wave with the half bits inverted that the lowest forty bits of a number have.
fn damaged(wave: Wave, half_bits: u64) -> Wave {
    wave.masked(Wave::of(half_bits % 0x100_0000_0000))
}

#[test]
fn waves_of_words(rt: HostRuntime) {
    has_wave(&rt, data_word(), 0x1D_5555_5556);
    has_wave(&rt, command_word(), 0xE1_6655_6569);
    let raw = raw_bits(Wave::of(0xE1_6655_6569));
    same_in(&rt, "raw bits", &raw, &0x2823);
}

/// The wave of a word has these half bits, and is read as the word.
fn has_wave(rt: &impl Abort, word: Word, half_bits: u64)
    requires { half_bits < 2 ^ 40 }
{
    same_in(rt, "half bits", &encode(word).half_bits(), &half_bits);
    is_read(rt, Wave::of(half_bits), Some(word));
}

/// A wave is read as this word, or as none.
fn is_read(rt: &impl Abort, wave: Wave, word: Option<Word>) {
    let half_bits = wave.half_bits();
    let found = (half_bits, decode(wave));
    same_in(rt, "half bits, word", &found, &(half_bits, word));
}

#[test]
fn damaged_waves_are_no_words(rt: HostRuntime) {
    is_no_word_damaged(&rt, encode(data_word()));
    is_no_word_damaged(&rt, encode(command_word()));
}

/// No wave that has one half bit or one pair of this one inverted is that of a word.
fn is_no_word_damaged(rt: &impl Abort, wave: Wave) {
    for place in 0..40u32 {
        is_read(rt, damaged(wave, 1 << place), None);
    }
    for pair in 0..20u32 {
        is_read(rt, damaged(wave, 0b11 << 2 * pair), None);
    }
}

#[test]
fn bit_by_bit_and_by_tables_agree(rt: HostRuntime) {
    for value in 0..=0xFFu16 {
        is_coded_alike(&rt, value * 0x0101);
    }
}

/// A data word, and its wave with some half bits inverted, by both ways.
fn is_coded_alike(rt: &impl Abort, value: u16) {
    let word = Word {
        sync: Sync::DataSync,
        value,
    };
    let wave = encode(word);
    same_in(rt, "wave", &(value, plain::encode(word)), &(value, wave));
    let unsound = damaged(wave, u64::from(value) << 8);
    let found = (value, plain::decode(unsound), plain::raw_bits(unsound));
    let wanted = (value, decode(unsound), raw_bits(unsound));
    same_in(rt, "word and raw bits", &found, &wanted);
}

#[test]
fn fields_of_commands(rt: HostRuntime) {
    let receive = Command::of(0x2823);
    let fields = (receive.address(), receive.subaddress(), receive.count());
    same_in(&rt, "address, subaddress and count", &fields, &(5, 1, 3));
    let kind = (receive.is_receive(), receive.is_broadcast());
    same_in(&rt, "a receive command", &kind, &(true, false));
    let transmit = Command::of(0x2C40);
    let fields = (transmit.subaddress(), transmit.code(), transmit.count());
    same_in(&rt, "subaddress, code and count", &fields, &(2, 0, 32));
    let kind = (transmit.is_transmit(), transmit.is_mode());
    same_in(&rt, "a transmit command", &kind, &(true, false));
    let synchronize_all = Command::of(0xFFE1);
    let kind = (synchronize_all.is_mode(), synchronize_all.is_broadcast());
    same_in(&rt, "a mode command to all", &kind, &(true, true));
    let fields = (synchronize_all.code(), synchronize_all.value());
    same_in(&rt, "code and value", &fields, &(1, 0xFFE1));
}

/// What a status word says: message error, instrumentation, service request, broadcast command received, busy,
/// subsystem flag, dynamic bus control acceptance and terminal flag.
type Flags = [bool; 8];

/// Status words, each with at most one bit, and what it says.
const STATUSES: &[(&str, u16, Flags)] = &[
    ("none", 0x2800, [false; 8]),
    (
        "message error",
        0x2C00,
        [true, false, false, false, false, false, false, false],
    ),
    (
        "instrumentation",
        0x2A00,
        [false, true, false, false, false, false, false, false],
    ),
    (
        "service request",
        0x2900,
        [false, false, true, false, false, false, false, false],
    ),
    (
        "broadcast",
        0x2810,
        [false, false, false, true, false, false, false, false],
    ),
    (
        "busy",
        0x2808,
        [false, false, false, false, true, false, false, false],
    ),
    (
        "subsystem flag",
        0x2804,
        [false, false, false, false, false, true, false, false],
    ),
    (
        "control",
        0x2802,
        [false, false, false, false, false, false, true, false],
    ),
    (
        "terminal flag",
        0x2801,
        [false, false, false, false, false, false, false, true],
    ),
];

/// What a status word says.
fn flags_of(status: Status) -> Flags {
    [
        status.has_message_error(),
        status.has_instrumentation(),
        status.has_service_request(),
        status.has_broadcast_received(),
        status.has_busy(),
        status.has_subsystem_flag(),
        status.has_control_acceptance(),
        status.has_terminal_flag(),
    ]
}

#[test]
fn fields_of_statuses(rt: HostRuntime) {
    let status = Status::of(0x2800);
    let fields = (status.address(), status.value());
    same_in(&rt, "address and value", &fields, &(5, 0x2800));
    for (row, value, wanted) in STATUSES {
        same_in(&rt, row, &flags_of(Status::of(*value)), wanted);
    }
}
