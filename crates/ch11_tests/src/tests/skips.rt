//! Damaged recordings, read both ways: by the reading that stops at the first fault, and by the one that skips.

use crate::tests::dumps::{dumped, prints};
use crate::tests::equal::{are_bytes, put, same};
use crate::tests::readers::words_of;
use ch11_f1::BodyError;
use ch11_header::{Header, HeaderError, write_header};
use ch11_reader::{Index, PacketFault, ReadError, Refusal, Skip, SkippingIndex};
use std::alloc::Global;
use std::process::Abort;
use test_values::{FOREIGN, ONE_PACKET, foreign_with};

/// The skipping reading of a file.
fn skipping<'a>(rt: &impl Abort, alloc: Global, file: &'a [u8]) -> SkippingIndex<'a> {
    Index::build_skipping(alloc, file).ok().expect(rt, "memory")
}

/// The first fault of a file, which is where the first skip begins; nothing is skipped where there is none.
fn first_of(found: &SkippingIndex<'_>) -> Option<Refusal> {
    found.skipped().first().map(|skip| Refusal {
        offset: skip.offset,
        fault: skip.fault,
    })
}

/// Where the reading that stops at the first fault stops.
fn refusal_of(alloc: Global, file: &[u8]) -> Option<Refusal> {
    match Index::build(alloc, file) {
        Err(ReadError::Refused(refusal)) => Some(refusal),
        _ => None,
    }
}

/// Whether both readings of a file stop alike.
fn is_read_alike(rt: &impl Abort, alloc: Global, file: &[u8]) -> bool {
    first_of(&skipping(rt, alloc, file)) == refusal_of(alloc, file)
}

/// What the skipping reading of a file gives: how many packets and messages, and the skips.
fn is_found(
    rt: &impl Abort,
    alloc: Global,
    file: &[u8],
    packets: usize,
    messages: u64,
    skips: &[Skip],
) {
    finds(rt, &skipping(rt, alloc, file), (packets, messages, skips));
}

/// The same of a reading that was made.
fn finds(rt: &impl Abort, found: &SkippingIndex<'_>, wanted: (usize, u64, &[Skip])) {
    let index = &found.index;
    let found = (index.packets().len(), index.total(), found.skipped());
    same(rt, &found, &wanted);
}

/// What the skipping reading of a file gives where it skips once: how many packets and messages, and the skip.
fn is_one_skip(
    rt: &impl Abort,
    alloc: Global,
    file: &[u8],
    counts: (usize, u64),
    offset: usize,
    length: usize,
    fault: PacketFault,
) {
    let skip = Skip {
        offset,
        length,
        fault,
    };
    is_found(rt, alloc, file, counts.0, counts.1, &[skip]);
}

/// The reading that stops at the first fault stops there.
fn stops_at(rt: &impl Abort, alloc: Global, file: &[u8], offset: usize, fault: PacketFault) {
    let refusal = Refusal { offset, fault };
    same(rt, &refusal_of(alloc, file), &Some(refusal));
}

/// A file that is one packet: its messages, or its fault, by both readings.
fn is_one(rt: &impl Abort, alloc: Global, file: &[u8], wanted: Result<u64, PacketFault>) {
    same(rt, &is_read_alike(rt, alloc, file), &true);
    match wanted {
        Ok(messages) => is_found(rt, alloc, file, 1, messages, &[]),
        Err(fault) => is_one_skip(rt, alloc, file, (0, 0), 0, file.len(), fault),
    }
}

/// The worked packet with two of its bytes made others.
fn changed(first: usize, byte: u8, second: usize, other: u8) -> [u8; 52] {
    let mut file = ONE_PACKET;
    if first < 52 {
        file[first] = byte;
    }
    if second < 52 {
        file[second] = other;
    }
    file
}

/// Two bytes of the worked packet, by place and value, where 52 is no place; and its messages with them, or its fault.
type Changed = (usize, u8, usize, u8, Result<u64, PacketFault>);

/// Changes of its body, and of its header.
const CHANGED: [Changed; 10] = [
    (27, 0x80, 52, 0, Ok(1)),
    (27, 0x4F, 52, 0, Ok(1)),
    (24, 0x00, 52, 0, Ok(0)),
    (24, 0x02, 52, 0, Err(PacketFault::Body(BodyError::End))),
    (40, 0x0B, 52, 0, Err(PacketFault::Body(BodyError::Odd))),
    (40, 0x0C, 52, 0, Err(PacketFault::Body(BodyError::End))),
    (40, 0x08, 52, 0, Ok(1)),
    (8, 0x02, 22, 0x62, Err(PacketFault::Body(BodyError::Short))),
    (
        4,
        0x35,
        22,
        0x7D,
        Err(PacketFault::Header(HeaderError::PacketLength)),
    ),
    (
        8,
        0x1D,
        22,
        0x7D,
        Err(PacketFault::Header(HeaderError::DataLength)),
    ),
];

#[test]
fn reads_the_rows_of_bodies_and_headers_both_ways(rt: HostRuntime) {
    for (first, byte, second, other, wanted) in CHANGED {
        let file = changed(first, byte, second, other);
        is_one(&rt, rt.alloc(), &file, wanted);
    }
}

/// The words of the one message that is left where its length says 8 bytes.
#[test]
fn reads_a_message_without_its_status(rt: HostRuntime) {
    let file = changed(40, 0x08, 52, 0);
    has_words(&rt, &skipping(&rt, rt.alloc(), &file), &ONE_PACKET[42..50]);
}

/// The first message of a reading has these words.
fn has_words(rt: &impl Abort, found: &SkippingIndex<'_>, words: &[u8]) {
    same(rt, &words_of(&found.index, 1), &Some(words));
}

/// A file of two parts.
fn joined(rt: &impl Abort, alloc: Global, first: &[u8], second: &[u8]) -> Vec<u8> {
    let mut file = Vec::new(alloc);
    put(rt, &mut file, first);
    put(rt, &mut file, second);
    file
}

/// A file of the worked packet and bytes that are skipped from an offset on, by both readings.
fn skips_once(
    rt: &impl Abort,
    alloc: Global,
    file: &[u8],
    offset: usize,
    length: usize,
    fault: PacketFault,
) {
    stops_at(rt, alloc, file, offset, fault);
    is_one_skip(rt, alloc, file, (1, 1), offset, length, fault);
}

#[test]
fn skips_the_bytes_behind_a_packet(rt: HostRuntime) {
    let file = joined(&rt, rt.alloc(), &ONE_PACKET, &[0, 0, 0]);
    let fault = PacketFault::Header(HeaderError::Short);
    skips_once(&rt, rt.alloc(), &file, 52, 3, fault);
}

#[test]
fn skips_a_packet_in_front_of_another(rt: HostRuntime) {
    let damaged = changed(22, 0x7D, 52, 0);
    let file = joined(&rt, rt.alloc(), &damaged, &ONE_PACKET);
    let fault = PacketFault::Header(HeaderError::Checksum);
    skips_once(&rt, rt.alloc(), &file, 0, 52, fault);
    prints(&rt, rt.alloc(), &file, true, PRINTED);
}

const PRINTED: &str = "skipped 0 length 52 K3
packet 52 channel 1 type 19 seq 0 flags 00 messages 1
message 1 channel 1 stamp 0 block 0000 gaps 0050 words 2823 0001 0002 0003 2800
";

#[test]
fn reads_the_foreign_file_damaged(rt: HostRuntime) {
    let mut file = FOREIGN;
    is_found(&rt, rt.alloc(), &file, 2, 1, &[]);
    file[32] = 0;
    let fault = PacketFault::Header(HeaderError::Sync);
    is_one_skip(&rt, rt.alloc(), &file, (1, 0), 32, 64, fault);
    let text = "packet 0 channel 0 type 01 skipped\nskipped 32 length 64 K2\n";
    prints(&rt, rt.alloc(), &file, true, text);
}

/// A sound file is dumped alike with and without skipping.
#[test]
fn prints_a_sound_file_alike(rt: HostRuntime) {
    let plain = dumped(&rt, rt.alloc(), &FOREIGN, false);
    let skipped = dumped(&rt, rt.alloc(), &FOREIGN, true);
    are_bytes(&rt, &plain, &skipped);
}

#[test]
fn reads_each_prefix_of_the_foreign_file_both_ways(rt: HostRuntime) {
    for length in 0..97 {
        let is_alike = is_read_alike(&rt, rt.alloc(), &FOREIGN[..length]);
        same(&rt, &(length, is_alike), &(length, true));
    }
}

/// The bytes of the foreign file: its first header and body, then its second header and body.
const PARTS: [(usize, usize); 4] = [(0, 24), (24, 44), (44, 68), (68, 96)];

/// Each change of one of these bytes of the foreign file is read both ways.
fn changes_are_read_alike(rt: &impl Abort, alloc: Global, from: usize, to: usize) {
    for place in from..to {
        for change in 1..=255u8 {
            let is_alike = is_read_alike(rt, alloc, &foreign_with(place, change));
            same(rt, &(place, change, is_alike), &(place, change, true));
        }
    }
}

#[test]
fn reads_each_change_of_the_foreign_file_both_ways(rt: HostRuntime) {
    for (from, to) in PARTS {
        changes_are_read_alike(&rt, rt.alloc(), from, to);
    }
}

/// Thirty packets of 52 bytes on three channels in turn.
fn three_channels(rt: &impl Abort, alloc: Global) -> Vec<u8> {
    let mut file = Vec::new(alloc);
    for number in 0..30u8 {
        let header = Header {
            channel: 1 + (number % 3) as u16,
            packet_length: 52,
            data_length: 28,
            version: 6,
            sequence: number / 3,
            flags: 0,
            kind: 0x19,
            counter: 680 * number as u64,
        };
        put(rt, &mut file, &write_header(&header));
        put(rt, &mut file, &ONE_PACKET[24..]);
    }
    file
}

/// The next number of a row of numbers that look random.
fn next_number(seed: &mut u64) -> usize {
    *seed = seed
        .wrapping_mul(6364136223846793005)
        .wrapping_add(1442695040888963407);
    (*seed >> 33) as usize
}

/// Overwrites up to 64 bytes with others, and answers where they begin and end.
fn damage(file: &mut [u8], seed: &mut u64) -> (usize, usize) {
    let start = next_number(seed) % 1560;
    let end = start.saturating_add(1 + next_number(seed) % 64);
    for place in start..end {
        if let Some(byte) = file.get_mut(place) {
            *byte = (next_number(seed) % 256) as u8;
        }
    }
    (start, end)
}

/// How many of the thirty packets lie wholly in front of or behind some bytes.
fn untouched(start: usize, end: usize) -> usize {
    let mut count = 0usize;
    for number in 0..30usize {
        if 52 * number + 52 <= start || end <= 52 * number {
            count = count.wrapping_add(1);
        }
    }
    count
}

/// How many of those were read.
fn untouched_read(found: &SkippingIndex<'_>, start: usize, end: usize) -> usize {
    let mut count = 0usize;
    for packet in found.index.packets() {
        let outside = packet.offset.saturating_add(52) <= start || end <= packet.offset;
        if outside && packet.offset % 52 == 0 && packet.header.packet_length == 52 {
            count = count.wrapping_add(1);
        }
    }
    count
}

/// Whether a damaged copy of the file is read alike both ways up to its first fault, and gives all packets that were
/// not touched.
fn is_salvaged(rt: &impl Abort, alloc: Global, file: &[u8], start: usize, end: usize) -> bool {
    let found = skipping(rt, alloc, file);
    first_of(&found) == refusal_of(alloc, file)
        && untouched_read(&found, start, end) == untouched(start, end)
}

/// The same of the next damage of a sound file, which is copied for it.
fn is_next_salvaged(
    rt: &impl Abort,
    alloc: Global,
    sound: &[u8],
    file: &mut Vec<u8>,
    seed: &mut u64,
) -> bool {
    file.clear();
    put(rt, file, sound);
    let (start, end) = damage(file, seed);
    is_salvaged(rt, alloc, file, start, end)
}

/// Two thousand random damages, each of a sound copy.
fn damages_are_salvaged(rt: &impl Abort, alloc: Global, first: u64) {
    let sound = three_channels(rt, alloc);
    let mut file = Vec::new(alloc);
    let mut seed = first;
    for number in 0..2_000 {
        let is_salvaged = is_next_salvaged(rt, alloc, &sound, &mut file, &mut seed);
        same(rt, &(number, is_salvaged), &(number, true));
    }
}

#[test]
fn gives_what_two_thousand_damages_did_not_touch(rt: HostRuntime) {
    damages_are_salvaged(&rt, rt.alloc(), 1);
}

#[test]
fn gives_what_two_thousand_other_damages_did_not_touch(rt: HostRuntime) {
    damages_are_salvaged(&rt, rt.alloc(), 2);
}

#[test]
fn gives_what_a_third_two_thousand_did_not_touch(rt: HostRuntime) {
    damages_are_salvaged(&rt, rt.alloc(), 3);
}

#[test]
fn gives_what_a_fourth_two_thousand_did_not_touch(rt: HostRuntime) {
    damages_are_salvaged(&rt, rt.alloc(), 4);
}

#[test]
fn gives_what_a_fifth_two_thousand_did_not_touch(rt: HostRuntime) {
    damages_are_salvaged(&rt, rt.alloc(), 5);
}

/// Two thousand headers one behind the other, each of which says that its packet holds all the others: what is a header
/// to one is a message to those before it. A sound packet stands behind them.
fn headers_alone(rt: &impl Abort, alloc: Global) -> Vec<u8> {
    let mut file = Vec::new(alloc);
    for number in 0..2000u32 {
        let header = Header {
            channel: 1,
            packet_length: 48052 - 24 * number,
            data_length: 48028 - 24 * number,
            version: 6,
            sequence: 0,
            flags: 0,
            kind: 0x19,
            counter: 10,
        };
        put(rt, &mut file, &write_header(&header));
    }
    put(rt, &mut file, &ONE_PACKET);
    file
}

#[test]
fn skips_headers_that_lie(rt: HostRuntime) {
    lie(&rt, rt.alloc(), &headers_alone(&rt, rt.alloc()));
}

/// The headers of a file are skipped by both readings.
fn lie(rt: &impl Abort, alloc: Global, file: &[u8]) {
    let fault = PacketFault::Body(BodyError::Odd);
    same(rt, &is_read_alike(rt, alloc, file), &true);
    is_one_skip(rt, alloc, file, (1, 1), 0, 48000, fault);
}
