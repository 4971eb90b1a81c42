//! Bodies of time packets of both forms, and clocks of recordings that have them, worked out by hand.
ghost use Rattle.std.specs.Prelude.{◌<◌, ◌≤◌, ◌^◌, length};

use crate::tests::clocks::are_told;
use crate::tests::equal::same;
use bench_clock::{PacketTime, ReadClock, is_time_body, read_clock, read_time};
use ch11_header::kinds::TIME_DATA;
use ch11_header::{Header, write_header};
use std::alloc::Global;
use std::process::Abort;

/// Bodies with a date, and their ticks: 2024-12-31T23:59:59 is second 1,735,689,599.
const DATES: [([u8; 12], u64); 4] = [
    // another time source and format
    (
        [0xFF, 3, 0, 0, 0, 0x59, 0x59, 0x23, 0x31, 0x12, 0x24, 0x20],
        17_356_895_990_000_000,
    ),
    // 10 ms in bits 3 to 0
    (
        [
            0x30, 3, 0, 0, 0x05, 0x59, 0x59, 0x23, 0x31, 0x12, 0x24, 0x20,
        ],
        17_356_895_990_500_000,
    ),
    // 100 ms in bits 7 to 4
    (
        [
            0x30, 3, 0, 0, 0x50, 0x59, 0x59, 0x23, 0x31, 0x12, 0x24, 0x20,
        ],
        17_356_895_995_000_000,
    ),
    (
        [
            0x00, 3, 0, 0, 0x99, 0x58, 0x59, 0x23, 0x31, 0x12, 0x24, 0x20,
        ],
        17_356_895_989_900_000,
    ),
];

/// Bodies with the day of the year, whether it is a leap year, and their ticks behind its begin.
const DAYS: [([u8; 10], bool, u64); 6] = [
    ([0x30, 0, 0, 0, 0, 0, 0, 0, 0x01, 0], false, 0),
    // day 60, 12:34:56.78: 59 days, 43,200 s, 2,040 s and 56 s
    (
        [0x30, 1, 0, 0, 0x78, 0x56, 0x34, 0x12, 0x60, 0],
        true,
        51_428_967_800_000,
    ),
    // day 299: 298 days of 86,400 s
    (
        [0, 0, 0, 0, 0, 0, 0, 0, 0x99, 2],
        false,
        257_472_000_000_000,
    ),
    // day 300
    (
        [0, 0, 0, 0, 0, 0, 0, 0, 0x00, 3],
        false,
        258_336_000_000_000,
    ),
    // the last hundredth of a year of 365 days
    (
        [0x72, 0, 0, 0, 0x99, 0x59, 0x59, 0x23, 0x65, 3],
        false,
        315_359_999_900_000,
    ),
    // and of 366 days
    (
        [0x72, 1, 0, 0, 0x99, 0x59, 0x59, 0x23, 0x66, 3],
        true,
        316_223_999_900_000,
    ),
];

#[test]
fn both_forms_are_read(rt: HostRuntime) {
    for (body, ticks) in DATES {
        is_read_as(&rt, &body, Some(PacketTime::Utc(ticks)));
    }
    for (body, leap, ticks) in DAYS {
        is_read_as(&rt, &body, Some(PacketTime::OfYear { leap, ticks }));
    }
}

/// Bytes are the body of this time, or none.
fn is_read_as(rt: &impl Abort, body: &[u8], time: Option<PacketTime>) {
    let found = (body, read_time(body), is_time_body(body));
    same(rt, &found, &(body, time, time.is_some()));
}

/// Bytes that are no body with a date.
const NO_DATES: [[u8; 12]; 20] = [
    // bit 8 belies the year; bit 9 is clear; bits 10, 15, 16 and 31 are set
    [0x30, 2, 0, 0, 0, 0x59, 0x59, 0x23, 0x31, 0x12, 0x24, 0x20],
    [0x30, 1, 0, 0, 0, 0x59, 0x59, 0x23, 0x31, 0x12, 0x24, 0x20],
    [0x30, 7, 0, 0, 0, 0x59, 0x59, 0x23, 0x31, 0x12, 0x24, 0x20],
    [
        0x30, 0x83, 0, 0, 0, 0x59, 0x59, 0x23, 0x31, 0x12, 0x24, 0x20,
    ],
    [0x30, 3, 1, 0, 0, 0x59, 0x59, 0x23, 0x31, 0x12, 0x24, 0x20],
    [
        0x30, 3, 0, 0x80, 0, 0x59, 0x59, 0x23, 0x31, 0x12, 0x24, 0x20,
    ],
    // digits above 9: of 10 ms, 100 ms, a second, its tens and the year
    [
        0x30, 3, 0, 0, 0x0A, 0x59, 0x59, 0x23, 0x31, 0x12, 0x24, 0x20,
    ],
    [
        0x30, 3, 0, 0, 0xA0, 0x59, 0x59, 0x23, 0x31, 0x12, 0x24, 0x20,
    ],
    [0x30, 3, 0, 0, 0, 0x0A, 0x59, 0x23, 0x31, 0x12, 0x24, 0x20],
    [0x30, 3, 0, 0, 0, 0xA0, 0x59, 0x23, 0x31, 0x12, 0x24, 0x20],
    [0x30, 3, 0, 0, 0, 0x59, 0x59, 0x23, 0x31, 0x12, 0x1A, 0x20],
    // second 60, minute 60, hour 24, day 0, 31 April, 30 February, 29 February 2023, month 0, month 13, 1969
    [0x30, 3, 0, 0, 0, 0x60, 0x59, 0x23, 0x31, 0x12, 0x24, 0x20],
    [0x30, 3, 0, 0, 0, 0x59, 0x60, 0x23, 0x31, 0x12, 0x24, 0x20],
    [0x30, 3, 0, 0, 0, 0x59, 0x59, 0x24, 0x31, 0x12, 0x24, 0x20],
    [0x30, 3, 0, 0, 0, 0x59, 0x59, 0x23, 0x00, 0x12, 0x24, 0x20],
    [0x30, 3, 0, 0, 0, 0x59, 0x59, 0x23, 0x31, 0x04, 0x24, 0x20],
    [0x30, 3, 0, 0, 0, 0x59, 0x59, 0x23, 0x30, 0x02, 0x24, 0x20],
    [0x30, 2, 0, 0, 0, 0x59, 0x59, 0x23, 0x29, 0x02, 0x23, 0x20],
    [0x30, 3, 0, 0, 0, 0x59, 0x59, 0x23, 0x31, 0x13, 0x24, 0x20],
    [0x30, 2, 0, 0, 0, 0x59, 0x59, 0x23, 0x31, 0x12, 0x69, 0x19],
];

/// Bytes that are no body with the day of the year.
const NO_DAYS: [[u8; 10]; 19] = [
    // bit 9, 10, 15, 16 or 31 is set
    [0x30, 2, 0, 0, 0, 0x59, 0x59, 0x23, 0x65, 3],
    [0x30, 4, 0, 0, 0, 0x59, 0x59, 0x23, 0x65, 3],
    [0x30, 0x80, 0, 0, 0, 0x59, 0x59, 0x23, 0x65, 3],
    [0x30, 0, 1, 0, 0, 0x59, 0x59, 0x23, 0x65, 3],
    [0x30, 0, 0, 0x80, 0, 0x59, 0x59, 0x23, 0x65, 3],
    // digits above 9: of 10 ms, 100 ms, a minute, an hour, a day, its tens
    [0x30, 0, 0, 0, 0x0A, 0x59, 0x59, 0x23, 0x65, 3],
    [0x30, 0, 0, 0, 0xA0, 0x59, 0x59, 0x23, 0x65, 3],
    [0x30, 0, 0, 0, 0, 0x59, 0x0A, 0x23, 0x65, 3],
    [0x30, 0, 0, 0, 0, 0x59, 0x59, 0x0A, 0x65, 3],
    [0x30, 0, 0, 0, 0, 0x59, 0x59, 0x23, 0x0A, 0],
    [0x30, 0, 0, 0, 0, 0x59, 0x59, 0x23, 0xA0, 0],
    // second 60, minute 60, hour 24, day 0, day 366 without bit 8, days 367 and 400
    [0x30, 0, 0, 0, 0, 0x60, 0x59, 0x23, 0x65, 3],
    [0x30, 0, 0, 0, 0, 0x59, 0x60, 0x23, 0x65, 3],
    [0x30, 0, 0, 0, 0, 0x59, 0x59, 0x24, 0x65, 3],
    [0x30, 0, 0, 0, 0, 0x59, 0x59, 0x23, 0x00, 0],
    [0x30, 0, 0, 0, 0, 0x00, 0x00, 0x00, 0x66, 3],
    [0x30, 1, 0, 0, 0, 0x00, 0x00, 0x00, 0x67, 3],
    [0x30, 1, 0, 0, 0, 0x00, 0x00, 0x00, 0x00, 4],
    // bit 10 of the word of the day is set
    [0x30, 1, 0, 0, 0, 0x00, 0x00, 0x00, 0x01, 4],
];

#[test]
fn other_bytes_are_no_bodies(rt: HostRuntime) {
    for body in NO_DATES {
        is_read_as(&rt, &body, None);
    }
    for body in NO_DAYS {
        is_read_as(&rt, &body, None);
    }
}

/// A body is of 10 or of 12 bytes, as its form says.
#[test]
fn lengths_are_those_of_the_forms(rt: HostRuntime) {
    let day = [0x30, 0, 0, 0, 0, 0, 0, 0, 0x01, 0, 0x70, 0x19];
    for length in [0, 4, 9, 10, 11, 12] {
        is_body_of(&rt, &day, length, 10);
    }
    let date = [0x30, 2, 0, 0, 0, 0, 0, 0, 0x01, 0x01, 0x70, 0x19, 0, 0];
    for length in [0, 4, 10, 11, 12, 13, 14] {
        is_body_of(&rt, &date, length, 12);
    }
}

/// So many bytes of these are a body where they are as many as there have to be.
fn is_body_of(rt: &impl Abort, bytes: &[u8], length: usize, wanted: usize) {
    let front = bytes.get(..length).expect(rt, "as many bytes");
    let found = (length, is_time_body(front));
    same(rt, &found, &(length, length == wanted));
}

/// A time packet on channel 7 with this counter and body.
fn packet_of(counter: u64, body: &[u8]) -> [u8; 36]
    requires counter { counter < 2 ^ 48 }
    requires body { length body.now ≤ 12 }
{
    let header = Header {
        channel: 7,
        packet_length: 36,
        data_length: body.len() as u32,
        version: 6,
        sequence: 0,
        flags: 0,
        kind: TIME_DATA,
        counter,
    };
    let mut packet = [0u8; 36];
    packet[..24].copy_from_slice(&write_header(&header));
    packet[24..24 + body.len()].copy_from_slice(body);
    packet
}

/// The clock of a recording.
fn clock_of(rt: &impl Abort, alloc: Global, file: &[u8]) -> ReadClock {
    read_clock(alloc, file, None).ok().expect(rt, "a clock")
}

/// Packets, one behind the other.
fn joined(rt: &impl Abort, alloc: Global, packets: &[[u8; 36]]) -> Vec<u8> {
    let mut file = Vec::new(alloc);
    for packet in packets {
        file.extend_from_slice(packet).expect(rt, "memory");
    }
    file
}

/// The last half second of day 365, of a year of 365 days and of one of 366.
const SHORT: [u8; 10] = [0x30, 0, 0, 0, 0x50, 0x59, 0x59, 0x23, 0x65, 3];

const LEAP: [u8; 10] = [0x30, 1, 0, 0, 0x50, 0x59, 0x59, 0x23, 0x65, 3];

/// The last half second of 2024.
const DATE: [u8; 12] = [
    0x30, 3, 0, 0, 0x50, 0x59, 0x59, 0x23, 0x31, 0x12, 0x24, 0x20,
];

/// Where the time packet's counter is 10,000,000: behind the last day of a year comes the first.
#[test]
fn years_end(rt: HostRuntime) {
    has_times(&rt, rt.alloc(), &packet_of(10_000_000, &SHORT), &SHORT_ENDS);
    has_times(&rt, rt.alloc(), &packet_of(10_000_000, &LEAP), &LEAP_ENDS);
}

/// Stamps and the times there, where the year has 365 days.
const SHORT_ENDS: [(u64, &str); 5] = [
    (9_999_999, ""),
    (10_000_000, "365:23:59:59.5000000"),
    (14_999_999, "365:23:59:59.9999999"),
    (15_000_000, "001:00:00:00.0000000"),
    // 365 days later
    (315_360_010_000_000, "365:23:59:59.5000000"),
];

/// The same where it has 366.
const LEAP_ENDS: [(u64, &str); 5] = [
    (14_999_999, "365:23:59:59.9999999"),
    (15_000_000, "366:00:00:00.0000000"),
    (864_014_999_999, "366:23:59:59.9999999"),
    (864_015_000_000, "001:00:00:00.0000000"),
    (864_015_000_001, "001:00:00:00.0000001"),
];

/// The clock of a recording tells these times at these stamps.
fn has_times(rt: &impl Abort, alloc: Global, file: &[u8], times: &[(u64, &str)]) {
    are_told(rt, &clock_of(rt, alloc, file).clock, times);
}

/// The packets of one recording may be of both forms, and each rules from its counter on; one whose counter is not
/// above those before it does not count.
#[test]
fn forms_follow_one_rule(rt: HostRuntime) {
    let packets = [
        packet_of(1000, &LEAP),
        packet_of(2000, &DATE),
        packet_of(2000, &SHORT),
        packet_of(3000, &SHORT),
    ];
    let file = joined(&rt, rt.alloc(), &packets);
    has_times(&rt, rt.alloc(), &file, &MIXED);
}

/// Stamps in and behind those packets, and the times there.
const MIXED: [(u64, &str); 5] = [
    (999, ""),
    (1999, "365:23:59:59.5000999"),
    (2000, "2024-12-31T23:59:59.5000000"),
    (2999, "2024-12-31T23:59:59.5000999"),
    (3000, "365:23:59:59.5000000"),
];

/// The first ten bytes of the body with a date, which are none.
const CUT: [u8; 10] = [0x30, 3, 0, 0, 0x50, 0x59, 0x59, 0x23, 0x31, 0x12];

/// Whether a recording of one packet of type 11, or of two, has time packets of which none can be read.
#[test]
fn clocks_tell_that_nothing_can_be_read(rt: HostRuntime) {
    let alloc = rt.alloc();
    let other = packet_of(1000, &CUT);
    same(&rt, &state_of(&rt, alloc, &other), &(true, true));
    let file = joined(&rt, alloc, &[other, packet_of(1000, &SHORT)]);
    same(&rt, &state_of(&rt, alloc, &file), &(false, false));
    has_times(&rt, alloc, &file, &[(1000, "365:23:59:59.5000000")]);
    same(&rt, &state_of(&rt, alloc, &[]), &(false, true));
}

/// Whether a recording has time packets of which none can be read, and whether its clock is empty.
fn state_of(rt: &impl Abort, alloc: Global, file: &[u8]) -> (bool, bool) {
    let read = clock_of(rt, alloc, file);
    (read.unread, read.clock.is_empty())
}
