//! Recordings against worked files, cut and changed, and a long one of all data types.

use crate::tests::equal::{put, same};
use ch11_f1::BodyError;
use ch11_header::{Header, HeaderError, write_header};
use ch11_reader::{Index, PacketFault, ReadError, Refusal};
use std::alloc::Global;
use std::process::Abort;
use test_values::{FOREIGN, ONE_PACKET};

/// The answer to a file: how many messages it holds, or why it is refused.
fn answer(alloc: Global, file: &[u8]) -> Result<u64, ReadError> {
    match Index::build(alloc, file) {
        Ok(index) => Ok(index.total()),
        Err(fault) => Err(fault),
    }
}

/// How many messages a channel has.
fn count_of(index: &Index<'_>, channel: u16) -> u64 {
    let mut count = 0u64;
    for _ in index.channel(channel) {
        count = count.wrapping_add(1);
    }
    count
}

/// A fault of the packet at the start of a file.
fn at_start(fault: PacketFault) -> Result<u64, ReadError> {
    Err(ReadError::Refused(Refusal { offset: 0, fault }))
}

/// A packet of an index: where it stands, its channel, its kind or flags, and how many messages it holds.
fn is_packet(rt: &impl Abort, index: &Index<'_>, place: usize, wanted: (usize, u16, u8, u8, u64)) {
    let packet = index.packets().get(place).expect(rt, "a packet");
    let header = packet.header;
    let found = (
        packet.offset,
        header.channel,
        header.kind,
        header.flags,
        packet.count,
    );
    same(rt, &(found, packet.sequence_jump), &(wanted, false));
}

/// The words of a message, by its number.
pub(crate) fn words_of<'a>(index: &Index<'a>, number: u64) -> Option<&'a [u8]> {
    Some(index.message(number)?.1.words)
}

/// The channel of a message, by its number.
pub(crate) fn channel_of(index: &Index<'_>, number: u64) -> Option<u16> {
    Some(index.message(number)?.0)
}

/// The one message of the foreign file, on channel 1.
fn has_one_message(rt: &impl Abort, index: &Index<'_>) {
    let channels = [
        channel_of(index, 0),
        channel_of(index, 1),
        channel_of(index, 2),
    ];
    let found = (index.total(), channels, words_of(index, 1));
    same(
        rt,
        &found,
        &(1, [None, Some(1), None], Some(&FOREIGN[86..])),
    );
}

/// The index of a file.
pub(crate) fn built<'a>(rt: &impl Abort, alloc: Global, file: &'a [u8]) -> Index<'a> {
    Index::build(alloc, file).ok().expect(rt, "readable")
}

#[test]
fn reads_the_foreign_file(rt: HostRuntime) {
    let index = built(&rt, rt.alloc(), &FOREIGN);
    assert_eq!(rt; index.packets().len(), 2);
    same(&rt, &index.messages_in(1).left(), &1);
    is_the_foreign_file(&rt, &index);
}

/// The index of the foreign file: its two packets and its message.
fn is_the_foreign_file(rt: &impl Abort, index: &Index<'_>) {
    is_packet(rt, index, 0, (0, 0, 0x01, 0x00, 0));
    is_packet(rt, index, 1, (32, 1, 0x19, 0x80, 1));
    has_one_message(rt, index);
    let counts = (count_of(index, 1), count_of(index, 0));
    same(rt, &counts, &(1, 0));
}

/// The answer to a file.
fn is_answered(rt: &impl Abort, alloc: Global, file: &[u8], wanted: Result<u64, ReadError>) {
    same(rt, &answer(alloc, file), &wanted);
}

#[test]
fn reads_or_refuses_each_cut(rt: HostRuntime) {
    is_answered(&rt, rt.alloc(), &[], Ok(0));
    for length in 1..52 {
        let fault = if length < 24 {
            PacketFault::Header(HeaderError::Short)
        } else {
            PacketFault::End
        };
        is_answered(&rt, rt.alloc(), &ONE_PACKET[..length], at_start(fault));
    }
    is_answered(&rt, rt.alloc(), &ONE_PACKET, Ok(1));
}

#[test]
fn reads_or_refuses_each_change(rt: HostRuntime) {
    for place in 0..52 {
        let mut file = ONE_PACKET;
        file[place] ^= 0xFF;
        let wanted = match place {
            0..=1 => at_start(PacketFault::Header(HeaderError::Sync)),
            2..=23 => at_start(PacketFault::Header(HeaderError::Checksum)),
            24..=26 | 41 => at_start(PacketFault::Body(BodyError::End)),
            40 => at_start(PacketFault::Body(BodyError::Odd)),
            _ => Ok(1),
        };
        is_answered(&rt, rt.alloc(), &file, wanted);
    }
}

#[test]
fn names_the_fault_of_a_later_packet(rt: HostRuntime) {
    let mut file = FOREIGN;
    file[32] = 0;
    let refusal = Refusal {
        offset: 32,
        fault: PacketFault::Header(HeaderError::Sync),
    };
    is_answered(&rt, rt.alloc(), &file, Err(ReadError::Refused(refusal)));
}

/// A packet of channel 7 with a kind and a sequence number, and a message's body.
fn add_packet(rt: &impl Abort, file: &mut Vec<u8>, kind: u8, sequence: u8) {
    let header = Header {
        channel: 7,
        packet_length: 52,
        data_length: 28,
        version: 6,
        sequence,
        flags: 0,
        kind,
        counter: 0,
    };
    put(rt, file, &write_header(&header));
    put(rt, file, &ONE_PACKET[24..]);
}

/// Ten thousand packets, of which each has the next kind and sequence number, but the last one the number 0.
fn long_file(rt: &impl Abort, alloc: Global) -> Vec<u8> {
    let mut file = Vec::new(alloc);
    for number in 0..10000u32 {
        let kind = (number % 256) as u8;
        let sequence = if number == 9999 { 0 } else { kind };
        add_packet(rt, &mut file, kind, sequence);
    }
    file
}

/// How many packets have a number that does not follow.
fn jumps_of(index: &Index<'_>) -> usize {
    index
        .packets()
        .iter()
        .filter(|packet| packet.sequence_jump)
        .count()
}

/// The ten thousand packets and their messages.
fn has_39_messages(rt: &impl Abort, index: &Index<'_>) {
    let counts = (index.packets().len(), jumps_of(index), index.total());
    same(rt, &counts, &(10000, 1, 39));
    let channels = (channel_of(index, 39), channel_of(index, 40));
    same(rt, &(channels, count_of(index, 7)), &((Some(7), None), 39));
}

#[test]
fn reads_ten_thousand_packets_of_all_kinds(rt: HostRuntime) {
    let file = long_file(&rt, rt.alloc());
    has_39_messages(&rt, &built(&rt, rt.alloc(), &file));
}
