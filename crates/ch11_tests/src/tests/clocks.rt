//! Times of day of recordings, against times worked out by hand.
ghost use Rattle.std.specs.Prelude.{◌<◌};

use crate::tests::dumps::dumped;
use crate::tests::equal::{are_bytes, reads, same};
use bench_clock::{
    Clock, PacketTime, UtcTime, YearTime, body_of, is_time_body, read_clock, read_time,
};
use bench_dump::dump_with_times;
use std::alloc::Global;
use std::process::Abort;
use test_values::FOREIGN;

/// Seconds behind 1970-01-01T00:00:00, and the bodies of their time packets.
const BODIES: [(u64, [u8; 12]); 5] = [
    (0, [0x30, 2, 0, 0, 0, 0, 0, 0, 0x01, 0x01, 0x70, 0x19]),
    // 2000-02-29T00:00:00, 11,016 days behind it
    (
        951_782_400,
        [0x30, 3, 0, 0, 0, 0, 0, 0, 0x29, 0x02, 0x00, 0x20],
    ),
    // 2024-12-31T23:59:59, the last second of day 20,088
    (
        1_735_689_599,
        [0x30, 3, 0, 0, 0, 0x59, 0x59, 0x23, 0x31, 0x12, 0x24, 0x20],
    ),
    // 2100-02-28T23:59:59, the last second of day 47,540: 2100 is no leap year
    (
        4_107_542_399,
        [0x30, 2, 0, 0, 0, 0x59, 0x59, 0x23, 0x28, 0x02, 0x00, 0x21],
    ),
    // 9999-12-31T23:59:59, the last second that there is
    (
        253_402_300_799,
        [0x30, 2, 0, 0, 0, 0x59, 0x59, 0x23, 0x31, 0x12, 0x99, 0x99],
    ),
];

/// A second has this body, which is read again; one byte fewer is no body.
fn is_body(rt: &impl Abort, second: u64, body: &[u8; 12])
    requires { second < 253402300800 }
{
    let time = PacketTime::Utc(second * 10_000_000);
    let lengths = (is_time_body(body), is_time_body(&body[..11]));
    let found = (body_of(second), read_time(body), lengths);
    same(rt, &found, &(*body, Some(time), (true, false)));
}

#[test]
fn bodies_are_read_as_they_are_written(rt: HostRuntime) {
    for (second, body) in BODIES {
        assert!(rt; second < 253_402_300_800);
        is_body(&rt, second, &body);
    }
}

/// The text of a time.
fn prints(rt: &impl Abort, time: UtcTime, wanted: &str) {
    are_bytes(rt, &time.text(), wanted.as_bytes());
}

#[test]
fn times_are_printed(rt: HostRuntime) {
    prints(&rt, UtcTime { ticks: 0 }, "1970-01-01T00:00:00.0000000");
    let late = UtcTime {
        ticks: 17_356_895_995_000_001,
    };
    prints(&rt, late, "2024-12-31T23:59:59.5000001");
    let leap = UtcTime {
        ticks: 9_517_824_000_012_345,
    };
    prints(&rt, leap, "2000-02-29T00:00:00.0012345");
    let last = UtcTime {
        ticks: 2_534_023_007_999_999_999,
    };
    prints(&rt, last, "9999-12-31T23:59:59.9999999");
}

/// The text of a time of a year.
fn prints_in_year(rt: &impl Abort, time: YearTime, wanted: &str) {
    are_bytes(rt, &time.text(), wanted.as_bytes());
}

#[test]
fn times_of_a_year_are_printed(rt: HostRuntime) {
    prints_in_year(&rt, YearTime { ticks: 0 }, "001:00:00:00.0000000");
    // 59 days, 12 hours, 34 minutes and 56.7800001 seconds
    let leap = YearTime {
        ticks: 51_428_967_800_001,
    };
    prints_in_year(&rt, leap, "060:12:34:56.7800001");
    let short = YearTime {
        ticks: 315_359_999_999_999,
    };
    prints_in_year(&rt, short, "365:23:59:59.9999999");
    let last = YearTime {
        ticks: 316_223_999_999_999,
    };
    prints_in_year(&rt, last, "366:23:59:59.9999999");
}

/// Time packets on channel 7: at tick 10,000,000 it is 2024-12-31T23:59:59, at tick 20,000,000 2025-01-01T00:00:00.
const LAST_SECOND: [u8; 36] = [
    0x25, 0xEB, 0x07, 0x00, 0x24, 0x00, 0x00, 0x00, 0x0C, 0x00, 0x00, 0x00, 0x06, 0x00, 0x00, 0x11,
    0x80, 0x96, 0x98, 0x00, 0x00, 0x00, 0x7A, 0x93, 0x30, 0x03, 0x00, 0x00, 0x00, 0x59, 0x59, 0x23,
    0x31, 0x12, 0x24, 0x20,
];

const NEW_YEAR: [u8; 36] = [
    0x25, 0xEB, 0x07, 0x00, 0x24, 0x00, 0x00, 0x00, 0x0C, 0x00, 0x00, 0x00, 0x06, 0x01, 0x00, 0x11,
    0x00, 0x2D, 0x31, 0x01, 0x00, 0x00, 0x93, 0x2B, 0x30, 0x02, 0x00, 0x00, 0x00, 0x00, 0x00, 0x00,
    0x01, 0x01, 0x25, 0x20,
];

/// Polls at tick 15,000,000 on channel 1, and at tick 20,000,000 on channel 2.
const FIRST_POLL: [u8; 48] = [
    0x25, 0xEB, 0x01, 0x00, 0x30, 0x00, 0x00, 0x00, 0x16, 0x00, 0x00, 0x00, 0x06, 0x00, 0x00, 0x19,
    0xC0, 0xE1, 0xE4, 0x00, 0x00, 0x00, 0x16, 0xE7, 0x01, 0x00, 0x00, 0x40, 0xC0, 0xE1, 0xE4, 0x00,
    0x00, 0x00, 0x00, 0x00, 0x00, 0x00, 0x50, 0x00, 0x04, 0x00, 0xE1, 0x2F, 0x00, 0x28, 0x00, 0x00,
];

const SECOND_POLL: [u8; 48] = [
    0x25, 0xEB, 0x02, 0x00, 0x30, 0x00, 0x00, 0x00, 0x16, 0x00, 0x00, 0x00, 0x06, 0x00, 0x00, 0x19,
    0x00, 0x2D, 0x31, 0x01, 0x00, 0x00, 0xA4, 0x32, 0x01, 0x00, 0x00, 0x40, 0x00, 0x2D, 0x31, 0x01,
    0x00, 0x00, 0x00, 0x00, 0x00, 0x00, 0x50, 0x00, 0x04, 0x00, 0xE1, 0x2F, 0x00, 0x28, 0x00, 0x00,
];

/// The two polls, and in front of each the time packet of its second.
fn timed() -> [u8; 168] {
    let mut file = [0u8; 168];
    file[..36].copy_from_slice(&LAST_SECOND);
    file[36..84].copy_from_slice(&FIRST_POLL);
    file[84..120].copy_from_slice(&NEW_YEAR);
    file[120..].copy_from_slice(&SECOND_POLL);
    file
}

/// The time at a stamp is this one, none where there is no text.
pub(crate) fn tells(rt: &impl Abort, clock: &Clock, stamp: u64, wanted: &str) {
    match clock.at(stamp) {
        Some(time) => are_bytes(rt, time.text().as_bytes(), wanted.as_bytes()),
        None => reads(rt, "", wanted),
    }
}

/// A stamp has the time of the last time packet at or before it, and what has passed since.
#[test]
fn stamps_have_times_of_day(rt: HostRuntime) {
    let read = read_clock(rt.alloc(), timed().as_slice(), None);
    are_told(&rt, &read.ok().expect(&rt, "a clock").clock, &STAMPS);
}

/// Stamps of the two polls and others, and their times of day.
const STAMPS: [(u64, &str); 6] = [
    (0, ""),
    (9_999_999, ""),
    (10_000_000, "2024-12-31T23:59:59.0000000"),
    (15_000_001, "2024-12-31T23:59:59.5000001"),
    (20_000_000, "2025-01-01T00:00:00.0000000"),
    (u64::MAX, ""),
];

/// A clock that is set tells these times at these stamps.
pub(crate) fn are_told(rt: &impl Abort, clock: &Clock, times: &[(u64, &str)]) {
    same(rt, &clock.is_empty(), &false);
    for (stamp, text) in times {
        tells(rt, clock, *stamp, text);
    }
}

const PRINTED: &str = "packet 0 channel 7 type 11 skipped
packet 36 channel 1 type 19 seq 0 flags 00 messages 1
message 1 channel 1 stamp 15000000 time 2024-12-31T23:59:59.5000000 block 0000 gaps 0050 words 2FE1 2800
packet 84 channel 7 type 11 skipped
packet 120 channel 2 type 19 seq 0 flags 00 messages 1
message 2 channel 2 stamp 20000000 time 2025-01-01T00:00:00.0000000 block 0000 gaps 0050 words 2FE1 2800
";

/// The time of day stands behind the stamp.
#[test]
fn dumps_have_times_of_day(rt: HostRuntime) {
    has_dump(&rt, rt.alloc(), &timed(), PRINTED.as_bytes());
}

/// A file, of which time packets can be read or which has none, is printed as this text with times of day.
fn has_dump(rt: &impl Abort, alloc: Global, file: &[u8], wanted: &[u8]) {
    let mut out = Vec::new(alloc);
    let answer = dump_with_times(alloc, file, file, None, &mut out);
    same(rt, &(answer, out.as_slice()), &(Ok(false), wanted));
}

/// Without a time packet nothing changes.
#[test]
fn other_dumps_stay(rt: HostRuntime) {
    let plain = dumped(&rt, rt.alloc(), &FOREIGN, false);
    has_dump(&rt, rt.alloc(), &FOREIGN, &plain);
}
